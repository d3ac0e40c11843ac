// The superblock at the front of a file.
ghost use Rattle.std.specs.Prelude.{IfErr, IfOk};
ghost use Rattle.world_files.specs.Fronts.{IsAtFront, IsFrontRefused};

use crate::error::WorldFileError;
use crate::geometry::read_geometry;
use crate::read_at::ReadAt;
use recovery::in_layout::{BLOCK, Geometry};

/// Reads the geometry from the superblock in the first block of a file; `NoWorld` where none stands there. Refused is a read that fails, too.
pub(crate) fn front_geometry<F: ReadAt>(file: &F) -> Result<Geometry, WorldFileError>
    ensures found { IfOk result (IsAtFront F.ReadAt file.now) }
    ensures refused { IfErr result (IsFrontRefused F.ReadAt file.now) }
{
    if file.size() < BLOCK {
        return Err(WorldFileError::NoWorld);
    }
    let mut block = [0u8; BLOCK];
    file.read_at(0, &mut block)?;
    read_geometry(&block)
}
