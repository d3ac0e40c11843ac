// A medium over a file that is opened, or made anew.
ghost use Rattle.std.specs.Prelude.{◌≡◌, length, replicate, false, IfOk};
ghost use Rattle.tier_device.specs.declared.media.Tier.TheVariants.{Fast, Block, Slow};
ghost use Rattle.host_media.specs.File.{file_seen, file_moment, file_failed, failures, IsFileAtRest, IsSynced, IsOpened};
ghost use Rattle.host_media.specs.DiskFile.{file_sizes};

use crate::disk_file::{create_disk, open_disk};
use crate::error::{FileError, FileProblem};
use crate::file::FileMedia;
use crate::sizes::{Sizes, zeros};
use std::alloc::Global;
use std::fs::{File, Files};

impl FileMedia {
    /// The medium that a file holds, which is synced first, so that nothing is pending. No other process has it open.
    ///
    /// Refused, with the file as it was, are: no file, a directory and all that is no regular file, one that may not be read
    /// and written, one that another process has open, one of another length, and a want of memory.
    pub fn open<'a, R: Files<File = File>>(
        files: &R,
        alloc: Global,
        path: &'a str,
        sizes: Sizes,
    ) -> Result<FileMedia, FileError<'a>>
        ensures fast { IfOk result (λ m. length (file_seen m Fast) ≡ sizes.fast) }
        ensures block { IfOk result (λ m. length (file_seen m Block) ≡ sizes.block) }
        ensures slow { IfOk result (λ m. length (file_seen m Slow) ≡ sizes.slow) }
        ensures at_rest { IfOk result (λ m. IsFileAtRest m) }
        ensures clock { IfOk result (λ m. file_moment m ≡ 0) }
        ensures faults { IfOk result (λ m. failures m ≡ 0) }
        ensures works { IfOk result (λ m. file_failed m ≡ false) }
        ensures synced { IfOk result IsSynced }
    {
        match open_file(files, alloc, path, sizes) {
            Ok(media) => Ok(media),
            Err(problem) => Err(FileError { path, problem }),
        }
    }

    /// A medium of zeros over a file that is made anew, and kept on its device with its name.
    ///
    /// Refused are a file that is there already, one that may not be made, a full device, and a want of memory. A file that
    /// was made is then taken away again.
    pub fn create<'a, R: Files<File = File>>(
        files: &R,
        alloc: Global,
        path: &'a str,
        sizes: Sizes,
    ) -> Result<FileMedia, FileError<'a>>
        ensures fast { IfOk result (λ m. file_seen m Fast ≡ replicate sizes.fast 0) }
        ensures block { IfOk result (λ m. file_seen m Block ≡ replicate sizes.block 0) }
        ensures slow { IfOk result (λ m. file_seen m Slow ≡ replicate sizes.slow 0) }
        ensures at_rest { IfOk result (λ m. IsFileAtRest m) }
        ensures clock { IfOk result (λ m. file_moment m ≡ 0) }
        ensures faults { IfOk result (λ m. failures m ≡ 0) }
        ensures works { IfOk result (λ m. file_failed m ≡ false) }
        ensures synced { IfOk result IsSynced }
    {
        match create_file(files, alloc, path, sizes) {
            Ok(media) => Ok(media),
            Err(problem) => Err(FileError { path, problem }),
        }
    }
}

fn open_file<R: Files<File = File>>(
    files: &R,
    alloc: Global,
    path: &str,
    sizes: Sizes,
) -> Result<FileMedia, FileProblem>
    ensures sizes { IfOk result (λ m. file_sizes m ≡ sizes) }
    ensures opened { IfOk result IsOpened }
{
    let Some(len) = sizes.file_len() else {
        return Err(FileProblem::TooLarge);
    };
    let disk = open_disk(files, alloc, path)?;
    disk.into_medium(alloc, sizes, len)
}

fn create_file<R: Files<File = File>>(
    files: &R,
    alloc: Global,
    path: &str,
    sizes: Sizes,
) -> Result<FileMedia, FileProblem>
    ensures fast { IfOk result (λ m. file_seen m Fast ≡ replicate sizes.fast 0) }
    ensures block { IfOk result (λ m. file_seen m Block ≡ replicate sizes.block 0) }
    ensures slow { IfOk result (λ m. file_seen m Slow ≡ replicate sizes.slow 0) }
    ensures opened { IfOk result IsOpened }
{
    let Some(len) = sizes.file_len() else {
        return Err(FileProblem::TooLarge);
    };
    let tiers = zeros(alloc, sizes)?;
    let disk = create_disk(files, alloc, path, len)?;
    Ok(FileMedia::of(disk.range, tiers))
}
