// A file in which media lie one behind the other.
ghost use Rattle.std.specs.Prelude.{◌≡◌, ◌≢◌, ◌≤◌, ◌<◌, ◌+◌, ◌^◌, All, map, sum_by, length, replicate, true, false, IfOk, OnErr, OnOk, IsErrOf};
ghost use Rattle.host_media.specs.declared.error.FileProblem.TheVariants.{Length, TooLarge};
ghost use Rattle.host_media.specs.File.{file_begin, file_changes, IsOpened};
ghost use Rattle.host_media.specs.FileBytes.{known, unknown, with_told};
ghost use Rattle.host_media.specs.FileRange.{range_begin, range_told, read_begin, read_told};
ghost use Rattle.host_media.specs.Sizes.{byte_count};

use crate::error::{FileError, FileProblem};
use crate::file::FileMedia;
use crate::file_bytes::fill_file;
use crate::file_parts::{medium, push_media, sync_read};
use crate::file_range::FileRange;
use crate::known_range::KnownRange;
use crate::locked_file::{make_locked, open_locked, sync_folder};
use crate::shared_file::SharedFile;
use crate::sizes::{MAX_BYTES, Sizes};
use std::alloc::{AllocError, Global};
use std::fs::{self, File, Files};
use std::io;
use std::sync::Arc;
use tier_device::lies_within;

/// A file in which media lie one behind the other, without a gap. It is open and locked: no other process has it, as long as it
/// or one of its media is there.
///
/// Media of one file share its syncs: a fence of one has the system keep what all of them wrote, and after a sync that failed,
/// whichever medium asked for it, no other one succeeds, until the file is opened again.
#[derive(Drop)]
pub struct DiskFile {
    pub(crate) range: FileRange,
    len: usize,
    is_blank: bool,
    ghost short: { len < 2 ^ 63 },
    ghost whole: { range_begin range ≡ 0 },
    ghost long: { length (range_told range) ≡ len },
    ghost blank: { is_blank ≡ true → range_told range ≡ known (replicate len 0) },
}

impl DiskFile {
    ghost use Rattle.host_media.specs.DiskFile.{disk_changes, disk_len, disk_told, is_blank, file_sizes, places_from, IsZero};

    /// Opens a file, and has the system keep all that it was given of it, so that nothing is pending.
    ///
    /// Refused, with the file as it was, are: no file, a directory and all that is no regular file, one that may not be read
    /// and written, one that another process has open, and a want of memory.
    pub fn open<'a, R: Files<File = File>>(
        files: &R,
        alloc: Global,
        path: &'a str,
    ) -> Result<DiskFile, FileError<'a>>
        ensures bytes { IfOk result (λ disk. is_blank disk ≡ false) }
        ensures nothing { IfOk result (λ disk. disk_told disk ≡ unknown (disk_len disk)) }
    {
        match open_disk(files, alloc, path) {
            Ok(disk) => Ok(disk),
            Err(problem) => Err(FileError { path, problem }),
        }
    }

    /// Makes a file of `len` zero bytes, kept on its device with its name.
    ///
    /// Refused are a file that is there already, one that may not be made, 2^63 bytes and more, a full device, and a want of
    /// memory. A file that was made is then taken away again.
    pub fn create<'a, R: Files<File = File>>(
        files: &R,
        alloc: Global,
        path: &'a str,
        len: usize,
    ) -> Result<DiskFile, FileError<'a>>
        ensures len { IfOk result (λ disk. disk_len disk ≡ len) }
        ensures blank { IfOk result (λ disk. is_blank disk ≡ true) }
        ensures zeros { IfOk result (λ disk. disk_told disk ≡ known (replicate len 0)) }
    {
        match create_disk(files, alloc, path, len) {
            Ok(disk) => Ok(disk),
            Err(problem) => Err(FileError { path, problem }),
        }
    }

    /// How many bytes it has.
    pub fn len(&self) -> usize
        ensures { result ≡ disk_len self.now }
    {
        self.len
    }

    /// Reads the bytes from a place on, and answers the range that they are, of which clauses tell which bytes are known. Refused are a range
    /// that goes past the end of the file (`Length`), with `out` as it was, and a read that fails, which may have changed `out`.
    pub fn read(&self, at: usize, out: &mut [u8]) -> Result<KnownRange, FileProblem>
        ensures within { IfOk result (λ _. at + length out.old ≤ disk_len self.now) }
        ensures place { IfOk result (λ read. read_begin read ≡ at) }
        ensures bytes { IfOk result (λ read. read_told read ≡ known out.new) }
        ensures same { disk_len self.now < at + length out.old → out.new ≡ out.old }
        ensures past { let end = at + length out.old in disk_len self.now < end → end < 2 ^ 64 → IsErrOf result (Length (disk_len self.now) end) }
    {
        if !lies_within(at, out.len(), self.len) {
            let wanted = at.saturating_add(out.len());
            return Err(length_problem(self.len, wanted));
        }
        Ok(self.range.look(at, out)?)
    }

    /// Writes bytes from a place on, which a read then gives; what is written is kept once it was synced. Refused are a range that goes
    /// past the end of the file (`Length`), with the file as it was, and a write that fails, of which any part may be done.
    pub fn write(&mut self, at: usize, bytes: &[u8]) -> Result<(), FileProblem>
        ensures within { OnOk result (at + length bytes.now ≤ disk_len self.old) }
        ensures past { let end = at + length bytes.now in disk_len self.old < end → end < 2 ^ 64 → IsErrOf result (Length (disk_len self.old) end) }
        ensures len { disk_len self.new ≡ disk_len self.old }
        ensures blank { OnOk result (is_blank self.new ≡ false) }
        ensures written { OnOk result (disk_told self.new ≡ with_told (disk_told self.old) at (known bytes.now)) }
        ensures torn { at + length bytes.now ≤ disk_len self.old → OnErr result (disk_told self.new ≡ with_told (disk_told self.old) at (unknown (length bytes.now))) }
        ensures same { disk_len self.old < at + length bytes.now → self.new ≡ self.old }
    {
        if !lies_within(at, bytes.len(), self.len) {
            let wanted = at.saturating_add(bytes.len());
            return Err(length_problem(self.len, wanted));
        }
        self.is_blank = false;
        self.range.write(at, bytes)?;
        Ok(())
    }

    /// Has the system keep what was written. Refused where the system fails, and from then on always, until the file is opened again.
    pub fn sync(&self) -> Result<(), FileProblem> {
        self.range.sync_data()?;
        Ok(())
    }

    /// Parts the file into media of these sizes, one behind the other: so no byte belongs to two of them, and each to one. All
    /// are read into memory, those of a file that was made are zeros. What was read is written back, and nothing else, and synced: after a
    /// sync that failed in another process a read may give what the device does not have.
    ///
    /// Refused are sizes whose sum is another length than the file has (`Length`) or 2^63 bytes and more (`TooLarge`), a read,
    /// a write or a sync that fails, and a want of memory. The file is then closed, and a read gives of it what it gave before.
    pub fn into_media(self, alloc: Global, sizes: &[Sizes]) -> Result<Vec<FileMedia>, FileProblem>
        ensures sizes { IfOk result (λ media. map file_sizes media.items ≡ sizes.now) }
        ensures places { IfOk result (λ media. map file_begin media.items ≡ places_from 0 sizes.now) }
        ensures opened { IfOk result (λ media. All IsOpened media.items) }
        ensures zeros { is_blank self ≡ true → IfOk result (λ media. All IsZero media.items) }
        ensures kept { IfOk result (λ media. All (λ m. file_changes m ≡ disk_changes self) media.items) }
        ensures length { let total = sum_by byte_count sizes.now in total < 2 ^ 63 → total ≢ disk_len self → IsErrOf result (Length (disk_len self) total) }
        ensures large { 2 ^ 63 ≤ sum_by byte_count sizes.now → IsErrOf result TooLarge }
    {
        let Some(total) = Sizes::total_len(sizes) else {
            return Err(FileProblem::TooLarge);
        };
        if total != self.len {
            return Err(length_problem(self.len, total));
        }
        let is_blank = self.is_blank;
        let mut rest = self.range;
        let mut media = Vec::new(alloc);
        push_media(alloc, &mut rest, is_blank, sizes, &mut media)?;
        sync_read(&rest, is_blank)?;
        Ok(media)
    }

    // The only medium of the file.
    pub(crate) fn into_medium(
        self,
        alloc: Global,
        sizes: Sizes,
        len: usize,
    ) -> Result<FileMedia, FileProblem>
        requires { byte_count sizes ≡ len }
        ensures sizes { IfOk result (λ m. file_sizes m ≡ sizes) }
        ensures opened { IfOk result IsOpened }
    {
        if len != self.len {
            return Err(length_problem(self.len, len));
        }
        let is_blank = self.is_blank;
        let mut rest = self.range;
        let part = rest.take_front(len)?;
        let medium = medium(alloc, part, is_blank, sizes)?;
        sync_read(&rest, is_blank)?;
        Ok(medium)
    }

    /// Gives a file another name in its folder, kept on its device. Its media may be in use.
    ///
    /// Refused are a name that is there already, no file, and a name that may not be given. Where the folder can't be synced the
    /// file has its new name, and may have the old one again after a stop.
    pub fn rename<'a, R: Files<File = File>>(
        files: &R,
        path: &'a str,
        name: &'a str,
    ) -> Result<(), FileError<'a>> {
        if let Err(problem) = check_absence(files, name) {
            return Err(FileError {
                path: name,
                problem,
            });
        }
        if let Err(error) = fs::rename(files, path, name) {
            let problem = FileProblem::from(error);
            return Err(FileError { path, problem });
        }
        sync_name(files, name)
    }

    /// Gives a file the name of another one in its folder, in its place, kept on its device: at each moment the name is that of the
    /// one or of the other. Its media may be in use.
    ///
    /// Refused are no file, and a name that may not be given. Where the folder can't be synced the file has its new name, and a stop
    /// may bring back what was before.
    pub fn replace<'a, R: Files<File = File>>(
        files: &R,
        path: &'a str,
        name: &'a str,
    ) -> Result<(), FileError<'a>> {
        if let Err(error) = fs::rename(files, path, name) {
            let problem = FileProblem::from(error);
            return Err(FileError { path, problem });
        }
        sync_name(files, name)
    }

    /// Takes away a file that no process has open, as one that a process which ended left unfinished. Where there is none nothing
    /// is done.
    ///
    /// Refused, with the file as it was, are: a directory and all that is no regular file, one that may not be read and written,
    /// one that a process has open, and a folder that may not be changed.
    pub fn remove_unused<'a, R: Files<File = File>>(
        files: &R,
        path: &'a str,
    ) -> Result<(), FileError<'a>> {
        match remove_locked(files, path) {
            Ok(()) => Ok(()),
            Err(problem) => Err(FileError { path, problem }),
        }
    }
}

// Has the system keep the name of a file.
fn sync_name<'a, R: Files<File = File>>(files: &R, path: &'a str) -> Result<(), FileError<'a>> {
    match sync_folder(files, path) {
        Ok(()) => Ok(()),
        Err(error) => Err(FileError {
            path,
            problem: FileProblem::from(error),
        }),
    }
}

fn length_problem(found: usize, wanted: usize) -> FileProblem
    ensures { result ≡ Length found wanted }
{
    FileProblem::Length {
        found: found as u64,
        wanted: wanted as u64,
    }
}

// Opens a file that is there, and locks it. Refused: one of more than `MAX_BYTES` bytes (`TooLarge`), and what the system refuses.
pub(crate) fn open_disk<R: Files<File = File>>(
    files: &R,
    alloc: Global,
    path: &str,
) -> Result<DiskFile, FileProblem>
    ensures bytes { IfOk result (λ disk. disk.is_blank ≡ false) }
    ensures nothing { IfOk result (λ disk. range_told disk.range ≡ unknown disk.len) }
{
    let file = open_locked(files, path)?;
    let len = file.metadata()?.len();
    if len > MAX_BYTES as u64 {
        return Err(FileProblem::TooLarge);
    }
    file.sync_all()?;
    let len = len as usize;
    Ok(DiskFile {
        range: FileRange::of_file(share_file(alloc, file)?, len),
        len,
        is_blank: false,
    })
}

// Makes a file of `len` zero bytes, and locks it. Refused: more than `MAX_BYTES` bytes (`TooLarge`), want of memory, and what the system refuses.
pub(crate) fn create_disk<R: Files<File = File>>(
    files: &R,
    alloc: Global,
    path: &str,
    len: usize,
) -> Result<DiskFile, FileProblem>
    ensures len { IfOk result (λ disk. disk.len ≡ len) }
    ensures blank { IfOk result (λ disk. disk.is_blank ≡ true) }
    ensures zeros { IfOk result (λ disk. range_told disk.range ≡ known (replicate len 0)) }
{
    if MAX_BYTES < len {
        return Err(FileProblem::TooLarge);
    }
    let file = make_locked(files, path)?;
    match Arc::new(alloc, SharedFile::of(file)) {
        Ok(shared) => blank_disk(files, alloc, path, shared, len),
        Err(_locked) => {
            let _ = fs::remove_file(files, path);
            Err(FileProblem::Memory)
        }
    }
}

fn share_file(alloc: Global, file: File) -> Result<Arc<SharedFile>, AllocError> {
    Ok(Arc::new(alloc, SharedFile::of(file))?)
}

// The empty file, which is filled with zeros, or else is taken away.
fn blank_disk<R: Files<File = File>>(
    files: &R,
    alloc: Global,
    path: &str,
    shared: Arc<SharedFile>,
    len: usize,
) -> Result<DiskFile, FileProblem>
    requires { len < 2 ^ 63 }
    ensures len { IfOk result (λ disk. disk.len ≡ len) }
    ensures blank { IfOk result (λ disk. disk.is_blank ≡ true) }
    ensures zeros { IfOk result (λ disk. range_told disk.range ≡ known (replicate len 0)) }
{
    let mut range = FileRange::of_file(shared, len);
    match fill_file(files, alloc, path, &mut range, len) {
        Ok(()) => Ok(DiskFile {
            range,
            len,
            is_blank: true,
        }),
        Err(problem) => {
            let _ = fs::remove_file(files, path);
            Err(problem)
        }
    }
}

// Nothing, not even a link that leads nowhere, has the name.
fn check_absence<R: Files<File = File>>(files: &R, path: &str) -> Result<(), FileProblem> {
    match fs::symlink_metadata(files, path) {
        Ok(_) => Err(FileProblem::Exists),
        Err(error) if error.kind() == io::ErrorKind::NotFound => Ok(()),
        Err(error) => Err(FileProblem::from(error)),
    }
}

fn remove_locked<R: Files<File = File>>(files: &R, path: &str) -> Result<(), FileProblem> {
    match open_locked(files, path) {
        Ok(_locked) => Ok(fs::remove_file(files, path)?),
        Err(FileProblem::Missing) => Ok(()),
        Err(problem) => Err(problem),
    }
}
