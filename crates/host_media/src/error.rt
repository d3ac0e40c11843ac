// Why a file gives no medium.
use std::alloc::AllocError;
use std::{fmt, io};
use thiserror::Error;

/// What is wrong with a file.
#[derive(Debug, Drop, Error)]
pub enum FileProblem {
    #[error("there is no such file")]
    Missing,
    #[error("it is there already")]
    Exists,
    #[error("it is a directory")]
    Directory,
    #[error("it is no regular file")]
    Special,
    #[error("permission denied")]
    Denied,
    #[error("another process has it open")]
    InUse,
    #[error("it has {found} bytes, and not {wanted}")]
    Length { found: u64, wanted: u64 },
    #[error("the device is full")]
    Full,
    #[error("no file has so many bytes")]
    TooLarge,
    #[error("out of memory")]
    Memory,
    #[error("{0}")]
    Io(io::Error),
}

/// A file that gives no medium, and what is wrong with it.
#[derive(Debug, Drop)]
pub struct FileError<'a> {
    pub path: &'a str,
    pub problem: FileProblem,
}

impl fmt::Display for FileError<'_> {
    fn fmt<W: fmt::Write>(&self, f: &mut fmt::Formatter<W>) -> fmt::Result {
        write!(f, "{}: {}", self.path, self.problem)
    }
}

impl std::error::Error for FileError<'_> {}

impl From<AllocError> for FileProblem {
    fn from(_error: AllocError) -> FileProblem {
        FileProblem::Memory
    }
}

impl From<io::Error> for FileProblem {
    fn from(error: io::Error) -> FileProblem {
        match error.kind() {
            io::ErrorKind::NotFound => FileProblem::Missing,
            io::ErrorKind::AlreadyExists => FileProblem::Exists,
            io::ErrorKind::IsADirectory => FileProblem::Directory,
            io::ErrorKind::PermissionDenied => FileProblem::Denied,
            io::ErrorKind::StorageFull | io::ErrorKind::QuotaExceeded => FileProblem::Full,
            _ => FileProblem::Io(error),
        }
    }
}
