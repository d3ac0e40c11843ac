// A file that holds a world's image.
ghost use Rattle.std.specs.Prelude.{◌≡◌, length, option_map, IfErr, IfOk};
ghost use Rattle.host_media.specs.DiskFile.{disk_len, disk_told};
ghost use Rattle.host_media.specs.FileBytes.{known};
ghost use Rattle.host_media.specs.FileRange.{read_begin, read_told};
ghost use Rattle.world_files.specs.FileErrors.{IsFileOrMemory};
ghost use Rattle.world_files.specs.ImageFiles.{MayHold};

use crate::draft::draft_path;
use crate::error::WorldFileError;
use host_media::{DiskFile, KnownRange};
use std::alloc::Global;
use std::fs::{self, File, Files};

/// A file that holds the image of a world, or is to hold one. A file that was there is locked: no other process has it, as long as this is there.
#[derive(Drop)]
pub struct ImageFile {
    held: Option<DiskFile>,
}

impl ImageFile {
    /// Opens the file of a path, if there is one.
    ///
    /// Refused are one that can't be opened, and one that another process has open.
    pub fn open<R: Files<File = File>>(
        files: &R,
        alloc: Global,
        path: &str,
    ) -> Result<ImageFile, WorldFileError> {
        let _draft = draft_path(alloc, path)?;
        if !fs::exists(files, path)? {
            return Ok(ImageFile { held: None });
        }
        let disk = DiskFile::open(files, alloc, path)?;
        Ok(ImageFile { held: Some(disk) })
    }

    /// The bytes of the file; none where there is none. Refused are a read that fails, and want of memory.
    pub fn read(&self, alloc: Global) -> Result<Option<Vec<u8>>, WorldFileError>
        ensures held { IfOk result (λ held. MayHold self.now (option_map (λ bytes. bytes.items) held)) }
        ensures only { IfErr result IsFileOrMemory }
    {
        let Some(disk) = &self.held else {
            return Ok(None);
        };
        let (bytes, _known) = read_whole(alloc, disk)?;
        Ok(Some(bytes))
    }

    /// Has the file of that path hold these bytes, kept on its device, and answers it: they are written under another name first, which then takes the file's place. So a run that
    /// ends early leaves what was there.
    ///
    /// Refused are a file of the path that was not there when this was opened, a draft that another process writes, a device that fails or is full, and want of memory. The file is then as
    /// it was, but where its new name could not be kept.
    pub fn replace<R: Files<File = File>>(
        &self,
        files: &R,
        alloc: Global,
        path: &str,
        bytes: &[u8],
    ) -> Result<DiskFile, WorldFileError>
        ensures { IfOk result (λ file. disk_told file ≡ known bytes.now) }
    {
        let draft = draft_path(alloc, path)?;
        let file = write_draft(files, alloc, draft.as_str(), bytes)?;
        if self.held.is_some() {
            DiskFile::replace(files, draft.as_str(), path)?;
        } else {
            DiskFile::rename(files, draft.as_str(), path)?;
        }
        Ok(file)
    }
}

// The bytes of a file, as a read from its begin gives them, and what the read told.
fn read_whole(alloc: Global, disk: &DiskFile) -> Result<(Vec<u8>, KnownRange), WorldFileError>
    ensures len { IfOk result (λ read. length read.0.items ≡ disk_len disk.now) }
    ensures begin { IfOk result (λ read. read_begin read.1 ≡ 0) }
    ensures bytes { IfOk result (λ read. read_told read.1 ≡ known read.0.items) }
    ensures only { IfErr result IsFileOrMemory }
{
    let mut bytes = vec![in alloc; 0u8; disk.len()]?;
    let read = disk.read(0, &mut bytes)?;
    Ok((bytes, read))
}

// Makes a file of these bytes, kept on its device, in the place of one that a process which ended left unfinished.
fn write_draft<R: Files<File = File>>(
    files: &R,
    alloc: Global,
    draft: &str,
    bytes: &[u8],
) -> Result<DiskFile, WorldFileError>
    ensures { IfOk result (λ file. disk_told file ≡ known bytes.now) }
{
    DiskFile::remove_unused(files, draft)?;
    let mut file = DiskFile::create(files, alloc, draft, bytes.len())?;
    file.write(0, bytes)?;
    file.sync()?;
    Ok(file)
}
