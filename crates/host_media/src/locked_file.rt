// Files that are opened and locked, so that no two processes have one.
use crate::error::FileProblem;
use std::fs::{self, File, Files, OpenOptions, TryLockError};
use std::io;
use std::os::unix::fs::MetadataExt;
use std::path::Path;

/// Opens and locks a file. Refused are all that is no regular file, and one that another process has open.
pub(crate) fn open_locked<R: Files<File = File>>(
    files: &R,
    path: &str,
) -> Result<File, FileProblem> {
    let file = OpenOptions::new().read(true).write(true).open(files, path)?;
    lock(files, path, &file)?;
    Ok(file)
}

/// Makes an empty file, locked. Refused is one that is there already. Where it can't be locked it is taken away again, unless
/// another process has it already, which may do so.
pub(crate) fn make_locked<R: Files<File = File>>(
    files: &R,
    path: &str,
) -> Result<File, FileProblem> {
    let file = OpenOptions::new()
        .read(true)
        .write(true)
        .create_new(true)
        .open(files, path)?;
    match lock(files, path, &file) {
        Ok(()) => Ok(file),
        Err(FileProblem::InUse) => Err(FileProblem::InUse),
        Err(problem) => {
            let _ = fs::remove_file(files, path);
            Err(problem)
        }
    }
}

/// Locks the whole file until it is closed or the process ends. Who takes a file away or gives it another name has locked it:
/// so one that has lost its name since it was opened was in use.
fn lock<R: Files<File = File>>(files: &R, path: &str, file: &File) -> Result<(), FileProblem> {
    if !file.metadata()?.is_file() {
        return Err(FileProblem::Special);
    }
    match file.try_lock() {
        Ok(()) => check_name(files, path, file),
        Err(TryLockError::WouldBlock) => Err(FileProblem::InUse),
        Err(TryLockError::Error(error)) => Err(FileProblem::from(error)),
    }
}

fn check_name<R: Files<File = File>>(
    files: &R,
    path: &str,
    file: &File,
) -> Result<(), FileProblem> {
    let open = file.metadata()?;
    match fs::metadata(files, path) {
        Ok(named) if named.dev() == open.dev() && named.ino() == open.ino() => Ok(()),
        Ok(_) => Err(FileProblem::InUse),
        Err(error) if error.kind() == io::ErrorKind::NotFound => Err(FileProblem::InUse),
        Err(error) => Err(FileProblem::from(error)),
    }
}

/// Has the system keep the names in the folder of a path.
pub(crate) fn sync_folder<R: Files<File = File>>(files: &R, path: &str) -> io::Result<()> {
    let folder = match Path::new(path).parent() {
        Some(folder) if !folder.as_str().is_empty() => folder.as_str(),
        _ => ".",
    };
    File::open(files, folder)?.sync_all()
}
