use posix_calls::DecideError;
use std::alloc::{AllocError, AllocFailed};
use std::io::{self, ErrorKind};
use update_log::RegionError;

/// What ends a run before its end.
#[derive(Clone, Copy)]
pub enum RunError {
    /// A device, a file, the input or the output failed.
    Device,
    /// What was read is no content of a region.
    Damaged,
    /// A record does not fit its region.
    RegionFull,
    /// A record of a client's log can't be digested.
    BadLog,
    /// There was no memory.
    Memory,
}

impl RunError {
    /// How it is printed.
    pub fn text(self) -> &'static str {
        match self {
            RunError::Device => "fault 2",
            RunError::Damaged => "fault 3",
            RunError::RegionFull => "fault 7",
            RunError::BadLog => "fault 9",
            RunError::Memory => "fault 15",
        }
    }
}

impl From<AllocError> for RunError {
    fn from(_e: AllocError) -> RunError {
        RunError::Memory
    }
}

impl<T: Drop> From<AllocFailed<T>> for RunError {
    fn from(_e: AllocFailed<T>) -> RunError {
        RunError::Memory
    }
}

impl From<io::Error> for RunError {
    fn from(error: io::Error) -> RunError {
        match error.kind() {
            ErrorKind::OutOfMemory => RunError::Memory,
            _ => RunError::Device,
        }
    }
}

impl From<RegionError> for RunError {
    fn from(error: RegionError) -> RunError {
        match error {
            RegionError::DeviceFault => RunError::Device,
            RegionError::Damaged => RunError::Damaged,
            RegionError::RegionFull => RunError::RegionFull,
            RegionError::Memory => RunError::Memory,
        }
    }
}

impl From<DecideError> for RunError {
    fn from(why: DecideError) -> RunError {
        match why {
            DecideError::Memory => RunError::Memory,
            _ => RunError::Damaged,
        }
    }
}
