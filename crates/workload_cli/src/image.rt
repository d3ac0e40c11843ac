//! A script's world out of an image, and the image of one.

ghost use Rattle.std.specs.Prelude.{◌≡◌, ◌+◌, ◌<◌, ◌≤◌, length, None, Some, IfErr, IfOk, IsErrOf, OnOk};
ghost use Rattle.tier_device.specs.Media.{overwritten};
ghost use Rattle.world_files.specs.FileErrors.{IsFormatRefused};
ghost use Rattle.world_files.specs.Images.{AreRead, HoldsNoWorld};
ghost use Rattle.world_files.specs.declared.error.WorldFileError.TheVariants.{NoWorld};
ghost use Rattle.workload_cli.specs.FreshWorlds.{IsBeginRefused, IsFileWorld, IsFreshImage, IsImageOf, IsImageRefused, IsImageWorld, IsPatchRefused, IsPatchedWorld};
ghost use Rattle.workload_cli.specs.Patches.{patched};

use crate::fresh_parts::{count_media, format_world};
use crate::resting::Resting;
use crate::script_media::{ScriptMedium, Trips};
use crate::script_world::ScriptWorld;
use program_runs::Patch;
use std::alloc::Global;
use tier_device::{FaultMedia, Media, StopMedia};
use world_files::in_recovery::{Parts, recover};
use world_files::{ImageFile, WorldFileError, WorldSizes, image_bytes, read_parts};

/// The world that an image file holds, recovered; with the empty tree, of these sizes, where there was no file.
pub fn image_world(
    alloc: Global,
    file: &ImageFile,
    sizes: WorldSizes,
) -> Result<ScriptWorld<ScriptMedium>, WorldFileError>
    ensures world { IfOk result (IsFileWorld ⟦<FaultMedia<StopMedia> as Media>⟧ file.now sizes) }
    ensures refused { IfErr result (IsBeginRefused ⟦<FaultMedia<StopMedia> as Media>⟧ file.now) }
{
    match file.read(alloc)? {
        Some(image) => recover_image(alloc, image.as_slice()),
        None => format_world(alloc, sizes),
    }
}

/// The world that an image holds, recovered. Refused are bytes that are those of no world (`NoWorld`, then always), those that store no tree, and want of memory.
pub fn recover_image(
    alloc: Global,
    image: &[u8],
) -> Result<ScriptWorld<ScriptMedium>, WorldFileError>
    ensures world { IfOk result (IsImageWorld ⟦<FaultMedia<StopMedia> as Media>⟧ image.now) }
    ensures refused { IfErr result (IsImageRefused ⟦<FaultMedia<StopMedia> as Media>⟧ image.now) }
    ensures none { HoldsNoWorld image.now → IsErrOf result NoWorld }
{
    let (parts, trips) = read_counted(alloc, image)?;
    match recover(alloc, parts) {
        Ok(world) => Ok(ScriptWorld::new(world, trips, true)),
        Err((error, _)) => Err(WorldFileError::Recovery(error)),
    }
}

// The media that an image holds, which stop and fail, and what they count by.
fn read_counted(alloc: Global, image: &[u8]) -> Result<(Parts<ScriptMedium>, Trips), WorldFileError>
    ensures read { IfOk result (λ r. AreRead ⟦<FaultMedia<StopMedia> as Media>⟧ image.now r.0) }
    ensures refused { IfErr result (IsImageRefused ⟦<FaultMedia<StopMedia> as Media>⟧ image.now) }
    ensures none { HoldsNoWorld image.now → IsErrOf result NoWorld }
{
    let parts = read_parts(alloc, image)?;
    count_media(alloc, parts)
}

/// The image of what the media of a world hold.
pub fn world_image(
    alloc: Global,
    session: ScriptWorld<ScriptMedium>,
) -> Result<Vec<u8>, WorldFileError>
    ensures image { IfOk result (λ bytes. IsImageOf ⟦<FaultMedia<StopMedia> as Media>⟧ (⟦<FaultMedia<StopMedia> as Resting>⟧.holds) session bytes.items) }
    ensures only { IfErr result IsFormatRefused }
{
    image_bytes(alloc, session.into_parts(alloc)?)
}

/// The world that is recovered from the image of the one with the empty tree, of these sizes, with these bytes put in, one after the other.
///
/// `NoWorld` also where bytes are put in behind the end of the image.
pub fn patched_world(
    alloc: Global,
    sizes: WorldSizes,
    patches: &[Patch],
) -> Result<ScriptWorld<ScriptMedium>, WorldFileError>
    ensures world { IfOk result (IsPatchedWorld ⟦<FaultMedia<StopMedia> as Media>⟧ (⟦<FaultMedia<StopMedia> as Resting>⟧.holds) sizes patches.now) }
    ensures refused { IfErr result (IsPatchRefused ⟦<FaultMedia<StopMedia> as Media>⟧ (⟦<FaultMedia<StopMedia> as Resting>⟧.holds) sizes patches.now) }
{
    let mut image = fresh_image(alloc, sizes)?;
    put_patches(&mut image, patches)?;
    recover_image(alloc, image.as_slice())
}

// The image of the world with the empty tree.
fn fresh_image(alloc: Global, sizes: WorldSizes) -> Result<Vec<u8>, WorldFileError>
    ensures image { IfOk result (λ bytes. IsFreshImage ⟦<FaultMedia<StopMedia> as Media>⟧ (⟦<FaultMedia<StopMedia> as Resting>⟧.holds) sizes bytes.items) }
    ensures only { IfErr result IsFormatRefused }
{
    world_image(alloc, format_world(alloc, sizes)?)
}

fn put_patches(image: &mut Vec<u8>, patches: &[Patch]) -> Result<(), WorldFileError>
    ensures put { OnOk result (patched image.old.items patches.now ≡ Some image.new.items) }
    ensures past { IfErr result (λ e. (e ≡ NoWorld) × (patched image.old.items patches.now ≡ None)) }
{
    for patch in patches {
        put_bytes(image, patch)?;
    }
    Ok(())
}

fn put_bytes(image: &mut Vec<u8>, patch: &Patch) -> Result<(), WorldFileError>
    ensures within { OnOk result (patch.now.at + length patch.now.bytes ≤ length image.old.items) }
    ensures put { OnOk result (image.new.items ≡ overwritten image.old.items patch.now.at patch.now.bytes) }
    ensures past { IfErr result (λ e. (e ≡ NoWorld) × (length image.old.items < patch.now.at + length patch.now.bytes)) }
{
    let (at, bytes) = (patch.at, patch.bytes.as_slice());
    if image.len() < at || image.len() - at < bytes.len() {
        return Err(WorldFileError::NoWorld);
    }
    image[at..at + bytes.len()].copy_from_slice(bytes);
    Ok(())
}
