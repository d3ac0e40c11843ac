//! The media of a script's world, and a world on media of which nothing is known yet.

ghost use Rattle.std.specs.Prelude.{◌≡◌, [], ◌∷◌, ◌++◌, length, map, IfErr, IfOk, OnOk};
ghost use Rattle.world_files.specs.FileErrors.{IsFormatRefused};
ghost use Rattle.world_files.specs.Worlds.{IsEmptyWorld};
ghost use Rattle.world_files.specs.declared.error.WorldFileError.TheVariants.{Memory};
ghost use Rattle.world_files.specs.area_recovery.Regions.{REGIONS};
ghost use Rattle.workload_cli.specs.FreshWorlds.{IsFreshWorld};
ghost use Rattle.workload_cli.specs.Rests.{beneath};
ghost use Rattle.workload_cli.specs.Trips.{PartsCount, RegionsCount};

use crate::script_media::{Counting, ScriptMedium, Trips};
use crate::script_world::ScriptWorld;
use call_driver::in_interleavings::World;
use call_driver::in_layout::Geometry;
use std::alloc::Global;
use tier_device::{FaultMedia, Media, MemMedia, StopMedia};
use world_files::in_recovery::{Parts, format};
use world_files::{WorldFileError, WorldSizes, zero_parts};

/// A script's world with the empty tree, of these sizes, of which media may have none.
pub fn format_world(
    alloc: Global,
    sizes: WorldSizes,
) -> Result<ScriptWorld<ScriptMedium>, WorldFileError>
    ensures world { IfOk result (IsFreshWorld ⟦<FaultMedia<StopMedia> as Media>⟧ sizes) }
    ensures only { IfErr result IsFormatRefused }
{
    let geometry = sizes.geometry()?;
    let (world, trips) = fresh_world(alloc, &geometry)?;
    Ok(ScriptWorld::new(world, trips, true))
}

/// A world with the empty tree over media of a geometry, and what they count by.
pub fn fresh_world(
    alloc: Global,
    geometry: &Geometry,
) -> Result<(World<ScriptMedium>, Trips), WorldFileError>
    ensures world { IfOk result (λ r. IsEmptyWorld ⟦<FaultMedia<StopMedia> as Media>⟧ geometry.now r.0) }
    ensures only { IfErr result IsFormatRefused }
{
    let (parts, trips) = count_media(alloc, zero_parts(alloc, geometry)?)?;
    match format(alloc, geometry, parts) {
        Ok(world) => Ok((world, trips)),
        Err((error, _)) => Err(WorldFileError::Recovery(error)),
    }
}

/// Media over these that stop and fail, and what they count by, of which none is armed. Refused is want of memory.
pub fn count_media(
    alloc: Global,
    parts: Parts<MemMedia>,
) -> Result<(Parts<ScriptMedium>, Trips), WorldFileError>
    ensures counted { IfOk result (λ r. map beneath (r.0.shared ∷ r.0.regions) ≡ parts.shared ∷ parts.regions) }
    ensures only { IfErr result (λ e. e ≡ Memory) }
{
    let trips = Trips::new(alloc)?;
    let parts = count_parts(alloc, parts, &trips)?;
    Ok((parts, trips))
}

// Media over these that stop and fail, and count each by its name.
fn count_parts<C: Counting>(
    alloc: Global,
    parts: Parts<MemMedia>,
    counting: &C,
) -> Result<Parts<ScriptMedium>, WorldFileError>
    ensures counted { IfOk result (λ counted. map beneath (counted.shared ∷ counted.regions) ≡ parts.shared ∷ parts.regions) }
    ensures named { IfOk result (PartsCount (C.counts counting.now)) }
    ensures only { IfErr result (λ e. e ≡ Memory) }
{
    let (shared, media) = parts.into_media();
    let shared = counting.count(shared, 0)?;
    let regions = count_regions(alloc, media, counting)?;
    match Parts::new(shared, regions) {
        Ok(parts) => Ok(parts),
        Err(_) => unreachable!(),
    }
}

fn count_regions<C: Counting>(
    alloc: Global,
    media: Vec<MemMedia>,
    counting: &C,
) -> Result<Vec<ScriptMedium>, WorldFileError>
    ensures counted { IfOk result (λ counted. map beneath counted.items ≡ media.items) }
    ensures named { IfOk result (λ counted. RegionsCount (C.counts counting.now) counted.items) }
    ensures only { IfErr result (λ e. e ≡ Memory) }
{
    let mut counted = Vec::new(alloc);
    for medium in media {
        let name = counted.len() / 2 + 1;
        push(&mut counted, counting.count(medium, name)?)?;
    }
    Ok(counted)
}

fn push<T: Drop>(media: &mut Vec<T>, one: T) -> Result<(), WorldFileError>
    ensures pushed { OnOk result (media.new.items ≡ media.old.items ++ one ∷ []) }
    ensures only { IfErr result (λ e. e ≡ Memory) }
{
    match media.push(one) {
        Ok(()) => Ok(()),
        Err(_) => Err(WorldFileError::Memory),
    }
}
