// Why a file gives no world, or keeps none.
ghost use Rattle.std.specs.Prelude.{◌≡◌};
ghost use Rattle.world_files.specs.FileErrors.{IsOfFile};
ghost use Rattle.world_files.specs.declared.error.WorldFileError.TheVariants.{File, Memory, Recovery};

use crate::sizes::SizeRule;
use host_media::{FileError, FileProblem};
use recovery::in_area_recovery::RecoveryError;
use std::alloc::AllocError;
use std::io;
use thiserror::Error;

/// Why a file gives no world, or keeps none.
#[derive(Debug, Drop, Error)]
pub enum WorldFileError {
    /// The file can't be opened, locked, read, written or given its name.
    #[error("{0}")]
    File(FileProblem),
    /// No media have these sizes, by this rule.
    #[error("{0}")]
    Sizes(SizeRule),
    /// At its front stands no superblock, or its length is not the one that its superblock gives.
    #[error("the file holds no world")]
    NoWorld,
    /// What the file holds is no world's, or it can't be read.
    #[error("{0}")]
    Recovery(RecoveryError),
    /// The name is one that this library gives a file until it is whole.
    #[error("a name that ends in .strata-draft is that of an unfinished file")]
    DraftName,
    #[error("out of memory")]
    Memory,
}

impl From<AllocError> for WorldFileError {
    ghost from_gives = { λ _ e. e ≡ Memory };

    fn from(_error: AllocError) -> WorldFileError {
        WorldFileError::Memory
    }
}

impl From<io::Error> for WorldFileError {
    ghost from_gives = { λ _ e. IsOfFile e };

    fn from(error: io::Error) -> WorldFileError {
        WorldFileError::File(FileProblem::from(error))
    }
}

impl From<FileProblem> for WorldFileError {
    ghost from_gives = { λ problem e. e ≡ File problem };

    fn from(problem: FileProblem) -> WorldFileError {
        WorldFileError::File(problem)
    }
}

impl From<FileError<'_>> for WorldFileError {
    ghost from_gives = { λ error e. e ≡ File error.problem };

    fn from(error: FileError<'_>) -> WorldFileError {
        WorldFileError::File(error.problem)
    }
}

impl From<RecoveryError> for WorldFileError {
    ghost from_gives = { λ error e. e ≡ Recovery error };

    fn from(error: RecoveryError) -> WorldFileError {
        WorldFileError::Recovery(error)
    }
}
