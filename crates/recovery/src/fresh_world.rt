//! The empty world.

ghost use Rattle.std.specs.Prelude.{◌≡◌, ◌<◌, ℕ, length, IfErr, IfOk, OnOk};
ghost use Rattle.area_recovery.specs.recovery_laws.Fresh.{fresh_tiers};
ghost use Rattle.tier_device.specs.declared.media.Tier.{Tier};
ghost use Rattle.interleavings.specs.system_laws.KeptCalls.{no_calls};
ghost use Rattle.interleavings.specs.system_laws.Parts.{medium_of};
ghost use Rattle.interleavings.specs.system_laws.WorldTree.{world_tree};
ghost use Rattle.interleavings.specs.event_lists.Courses.{PARTS};
ghost use Rattle.posix_calls.specs.EmptyTree.{empty_state};
ghost use Rattle.area_recovery.specs.declared.error.RecoveryError.TheVariants.{DeviceFault};
ghost use Rattle.area_recovery.specs.FaultOrMemory.{IsFaultOrMemory};
ghost use Rattle.area_recovery.specs.FreshContents.{AreFreshRegions, AreLater, HaveSizes, HoldsContent, IsFormatError, IsSizeError, SizesAtRefusal, fresh_contents};
ghost use Rattle.recovery.specs.WorldRecovery.{IsIdle};
ghost use Rattle.area_recovery.specs.Parts.{AreAtRest, part_medium};
ghost use Rattle.area_recovery.specs.PartMedia.{SomeRose};
ghost use Rattle.area_recovery.specs.Regions.{REGIONS};

use crate::assembly::assemble;
use crate::parts::Parts;
use area_recovery::in_recovery_laws::{fresh_area_opens, fresh_region_is_empty};
use area_recovery::{RecoveryError, check_sizes, open_area, reopen_regions, write_parts};
use interleavings::World;
use interleavings::in_layout::Geometry;
use std::alloc::Global;
use tier_device::Media;

/// Writes the empty tree on all parts, whatever stands there, and makes its world. Nothing is pending on them then.
///
/// The parts are given back with a refusal: `AreaSize` where the shared medium has not the sizes of the geometry, else `RegionSize` where another has not the size of a region, both before
/// anything is written; `Memory` where there was none; `DeviceFault` where a device failed. What the parts hold after the last two is not known.
pub fn format<M: Media + Drop>(
    alloc: Global,
    geometry: &Geometry,
    parts: Parts<M>,
) -> Result<World<M>, (RecoveryError, Parts<M>)>
    ensures tree { IfOk result (λ w. world_tree M.Media w ≡ empty_state) }
    ensures geometry { IfOk result (λ w. w.system.kernel.area.geometry ≡ geometry.now) }
    ensures calls { IfOk result (λ w. w.calls ≡ no_calls) }
    ensures idle { IfOk result (λ w. IsIdle M.Media w.system) }

    ensures contents { IfOk result (λ w. (p : ℕ) (t : Tier) → p < PARTS → M.seen (medium_of w.system p) t ≡ fresh_contents geometry.now p t) }
    ensures rest { IfOk result (λ w. AreAtRest M.Media (medium_of w.system)) }
    ensures past { IfOk result (λ w. AreLater M.Media (part_medium parts) (medium_of w.system)) }
    ensures past_refused { IfErr result (λ e. AreLater M.Media (part_medium parts) (part_medium e.1)) }

    ensures sizes { OnOk result (HaveSizes M.Media geometry.now parts) }
    ensures sizes_refused { IfErr result (λ e. SizesAtRefusal M.Media geometry.now parts e.0) }
    ensures untouched { IfErr result (λ e. IsSizeError e.0 → e.1 ≡ parts) }
    ensures only { IfErr result (λ e. IsFormatError e.0) }
    ensures fault { IfErr result (λ e. e.0 ≡ DeviceFault → SomeRose M.Media (part_medium parts) (part_medium e.1)) }
{
    let (shared, media) = parts.into_media();
    let (mut shared, mut media) = (shared, media);
    if let Err(error) = check_sizes(geometry, &shared, media.as_slice()) {
        return Err((error, Parts::of(shared, media)));
    }
    match write_parts(alloc, geometry, &mut shared, media.as_mut_slice()) {
        Ok(()) => open_fresh(alloc, geometry, shared, media),
        Err(error) => Err((error, Parts::of(shared, media))),
    }
}

// Makes the world of fresh media.
fn open_fresh<M: Media + Drop>(
    alloc: Global,
    geometry: &Geometry,
    shared: M,
    media: Vec<M>,
) -> Result<World<M>, (RecoveryError, Parts<M>)>
    requires area { HoldsContent M.Media (fresh_tiers geometry.now) shared }
    requires sixteen { length media.items ≡ REGIONS }
    requires regions { AreFreshRegions M.Media media.items }
    ensures tree { IfOk result (λ w. world_tree M.Media w ≡ empty_state) }
    ensures geometry { IfOk result (λ w. w.system.kernel.area.geometry ≡ geometry.now) }
    ensures calls { IfOk result (λ w. w.calls ≡ no_calls) }
    ensures idle { IfOk result (λ w. IsIdle M.Media w.system) }
    ensures contents { IfOk result (λ w. (p : ℕ) → p < PARTS → HoldsContent M.Media (fresh_contents geometry.now p) (medium_of w.system p)) }
    ensures later { IfOk result (λ w. AreLater M.Media (part_medium (record { shared = shared; regions = media.items })) (medium_of w.system)) }
    ensures later_refused { IfErr result (λ e. AreLater M.Media (part_medium (record { shared = shared; regions = media.items })) (part_medium e.1)) }
    ensures only { IfErr result (λ e. IsFaultOrMemory e.0) }
    ensures fault { IfErr result (λ e. e.0 ≡ DeviceFault → SomeRose M.Media (part_medium (record { shared = shared; regions = media.items })) (part_medium e.1)) }
{
    // For the proof: the sizes are allowed, and what fresh bytes stand for.
    let _units = geometry.units();
    fresh_area_opens();
    fresh_region_is_empty();
    let mut media = media;
    let area = match open_area(alloc, shared) {
        Ok(area) => area,
        Err((error, shared)) => return Err((error, Parts::of(shared, media))),
    };
    match reopen_regions(alloc, &mut media) {
        Ok(regions) => assemble(alloc, area, regions, media),
        Err(error) => Err((error, Parts::of(area.into_medium(), media))),
    }
}
