// A world that lives in a file: what was answered stands on its disk.
ghost use Rattle.std.specs.Prelude.{◌≡◌, true, false, IfErr, IfOk};
ghost use Rattle.world_files.specs.Disks.{AreOnDisk, IsDiskRefused, IsDiskWorld, IsFormattedDisk, IsMadeDisk, IsPathRefused, IsRecoveredDisk};
ghost use Rattle.world_files.specs.FileErrors.{IsOfFile};

use crate::draft::draft_path;
use crate::error::WorldFileError;
use crate::front::front_geometry;
use crate::geometry::{image_len, part_sizes};
use crate::parts::parts_of;
use crate::read_at::ReadAt;
use crate::sizes::WorldSizes;
use host_media::{DiskFile, FileMedia};
use recovery::in_interleavings::World;
use recovery::in_layout::Geometry;
use recovery::{Parts, format, recover};
use std::alloc::Global;
use std::fs::{self, File, Files};
use tier_device::Media;

/// The world that a file keeps, recovered; where there is no such file, the one with the empty tree, of these sizes, in a file that is made. No other process has the
/// file as long as the world is there.
///
/// Refused are, for a file that is made, sizes that no media have; a name that ends as a draft's; one that can't be opened, that another process has open, or that holds no world; a device that fails, want of
/// memory, and contents that store no tree. A file that was there stores what it stored before; one that could not be made whole is left under its draft's name, which the next run takes away.
pub fn open_disk<R: Files<File = File>>(
    files: &R,
    alloc: Global,
    path: &str,
    sizes: WorldSizes,
) -> Result<World<FileMedia>, WorldFileError>
    ensures { IfOk result (IsDiskWorld ⟦<FileMedia as Media>⟧ sizes) }
{
    let draft = draft_path(alloc, path)?;
    let is_there = fs::exists(files, path)?;
    open_path(files, alloc, path, draft.as_str(), is_there, sizes)
}

// The world of a path of which it is known whether there is a file.
fn open_path<R: Files<File = File>>(
    files: &R,
    alloc: Global,
    path: &str,
    draft: &str,
    is_there: bool,
    sizes: WorldSizes,
) -> Result<World<FileMedia>, WorldFileError>
    ensures recovered { is_there ≡ true → IfOk result (IsRecoveredDisk ⟦<FileMedia as Media>⟧) }
    ensures refused { is_there ≡ true → IfErr result (IsPathRefused ⟦<FileMedia as Media>⟧ ⟦<DiskFile as ReadAt>⟧) }
    ensures made { is_there ≡ false → IfOk result (IsMadeDisk ⟦<FileMedia as Media>⟧ sizes) }
{
    if is_there {
        recover_disk(files, alloc, path)
    } else {
        format_disk(files, alloc, path, draft, &sizes.geometry()?)
    }
}

fn recover_disk<R: Files<File = File>>(
    files: &R,
    alloc: Global,
    path: &str,
) -> Result<World<FileMedia>, WorldFileError>
    ensures recovered { IfOk result (IsRecoveredDisk ⟦<FileMedia as Media>⟧) }
    ensures refused { IfErr result (IsPathRefused ⟦<FileMedia as Media>⟧ ⟦<DiskFile as ReadAt>⟧) }
{
    recover_file(alloc, DiskFile::open(files, alloc, path)?)
}

// The world of what an open file holds.
fn recover_file(alloc: Global, disk: DiskFile) -> Result<World<FileMedia>, WorldFileError>
    ensures recovered { IfOk result (IsRecoveredDisk ⟦<FileMedia as Media>⟧) }
    ensures refused { IfErr result (IsDiskRefused ⟦<FileMedia as Media>⟧ ⟦<DiskFile as ReadAt>⟧ disk) }
{
    let geometry = front_geometry(&disk)?;
    if disk.len() != image_len(&geometry) {
        return Err(WorldFileError::NoWorld);
    }
    let parts = disk_parts(alloc, disk, &geometry)?;
    match recover(alloc, parts) {
        Ok(world) => Ok(world),
        Err((error, _)) => Err(WorldFileError::Recovery(error)),
    }
}

// Makes the file under its draft's name, and gives it its own once the empty world stands in it: so a file of that name always holds a world. No clause says that it was given its
// name, since the contracts of files say nothing of names.
fn format_disk<R: Files<File = File>>(
    files: &R,
    alloc: Global,
    path: &str,
    draft: &str,
    geometry: &Geometry,
) -> Result<World<FileMedia>, WorldFileError>
    ensures { IfOk result (IsFormattedDisk ⟦<FileMedia as Media>⟧ geometry.now) }
{
    DiskFile::remove_unused(files, draft)?;
    let disk = DiskFile::create(files, alloc, draft, image_len(geometry))?;
    let parts = disk_parts(alloc, disk, geometry)?;
    match format(alloc, geometry, parts) {
        Ok(world) => {
            DiskFile::rename(files, draft, path)?;
            Ok(world)
        }
        Err((error, _)) => Err(WorldFileError::Recovery(error)),
    }
}

// The media that lie in the file one behind the other.
fn disk_parts(
    alloc: Global,
    disk: DiskFile,
    geometry: &Geometry,
) -> Result<Parts<FileMedia>, WorldFileError>
    ensures lie { IfOk result (AreOnDisk geometry.now) }
    ensures only { IfErr result IsOfFile }
{
    match disk.into_media(alloc, &part_sizes(geometry)) {
        Ok(media) => Ok(parts_of(media)),
        Err(problem) => Err(WorldFileError::File(problem)),
    }
}
