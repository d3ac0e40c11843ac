// The media of a world as one row of bytes.
ghost use Rattle.std.specs.Prelude.{◌≡◌, ◌∷◌, map, replicate, IfErr, IfOk, IsErrOf, length};
ghost use Rattle.host_media.specs.Images.{media_bytes, medium_sizes};
ghost use Rattle.tier_device.specs.Memory.{memory_seen};
ghost use Rattle.recovery.specs.area_recovery.Parts.{AreAtRest, part_medium};
ghost use Rattle.world_files.specs.FileErrors.{IsFileOrMemory};
ghost use Rattle.world_files.specs.Images.{AreRead, HoldsNoWorld, IsReadRefused, parts_image};
ghost use Rattle.world_files.specs.PartSizes.{IsGeometryIn, image_size, part_sizes};
ghost use Rattle.world_files.specs.declared.error.WorldFileError.TheVariants.{NoWorld};

use crate::error::WorldFileError;
use crate::geometry::{image_len, part_sizes, read_geometry};
use crate::parts::{media_of, parts_of};
use host_media::{image_of, read_image};
use recovery::Parts;
use recovery::in_layout::Geometry;
use std::alloc::Global;
use tier_device::{Media, MemMedia};

/// The media, at rest, whose bytes these are: first those of the shared medium, whose superblock gives the geometry, then those of the regions.
///
/// Refused are bytes at whose front no superblock stands, and bytes that are more or fewer than it says (`NoWorld`, then always), and want of memory (`File`).
pub fn read_parts(alloc: Global, image: &[u8]) -> Result<Parts<MemMedia>, WorldFileError>
    ensures read { IfOk result (AreRead ⟦<MemMedia as Media>⟧ image.now) }
    ensures refused { IfErr result (IsReadRefused image.now) }
    ensures none { HoldsNoWorld image.now → IsErrOf result NoWorld }
{
    let geometry = image_geometry(image)?;
    match read_image(alloc, image, &part_sizes(&geometry)) {
        Ok(media) => Ok(parts_of(media)),
        Err(problem) => Err(WorldFileError::File(problem)),
    }
}

// The geometry of the media that bytes hold; `NoWorld` where they hold none.
fn image_geometry(image: &[u8]) -> Result<Geometry, WorldFileError>
    ensures found { IfOk result (IsGeometryIn image.now) }
    ensures long { IfOk result (λ g. length image.now ≡ image_size g) }
    ensures none { IfErr result (λ e. (e ≡ NoWorld) × HoldsNoWorld image.now) }
{
    let geometry = read_geometry(image)?;
    if image.len() == image_len(&geometry) {
        Ok(geometry)
    } else {
        Err(WorldFileError::NoWorld)
    }
}

/// Media of a geometry in memory, at rest, all of whose bytes are zero. Refused is want of memory.
pub fn zero_parts(alloc: Global, geometry: &Geometry) -> Result<Parts<MemMedia>, WorldFileError>
    ensures sizes { IfOk result (λ parts. map (medium_sizes memory_seen) (parts.shared ∷ parts.regions) ≡ part_sizes geometry.now) }
    ensures zeros { IfOk result (λ parts. media_bytes memory_seen (parts.shared ∷ parts.regions) ≡ replicate (image_size geometry.now) 0) }
    ensures rest { IfOk result (λ parts. AreAtRest ⟦<MemMedia as Media>⟧ (part_medium parts)) }
    ensures only { IfErr result IsFileOrMemory }
{
    let zeros = vec![in alloc; 0u8; image_len(geometry)]?;
    match read_image(alloc, &zeros, &part_sizes(geometry)) {
        Ok(media) => Ok(parts_of(media)),
        Err(problem) => Err(WorldFileError::File(problem)),
    }
}

/// The bytes that reads give of the media: first those of the shared medium, then those of the regions. Refused are a read that fails, and want of memory.
pub fn image_bytes<M: Media + Drop>(
    alloc: Global,
    parts: Parts<M>,
) -> Result<Vec<u8>, WorldFileError>
    ensures bytes { IfOk result (λ bytes. bytes.items ≡ parts_image M.Media parts) }
    ensures only { IfErr result IsFileOrMemory }
{
    Ok(image_of(alloc, media_of(parts)?)?)
}
