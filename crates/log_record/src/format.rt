ghost use Rattle.std.specs.Prelude.{◌≡◌};
ghost use Rattle.log_record.specs.declared.format.RecordError.TheVariants.{Memory};

use file_graph::Effects;
use std::alloc::{AllocError, AllocFailed};
use thiserror::Error;

/// The most effects that a record has; the fewest is 1.
pub const MAX_EFFECTS: u8 = 8;

/// The byte that a Make begins with.
pub const MAKE: u8 = 1;

/// The byte that an Enter begins with.
pub const ENTER: u8 = 2;

/// The byte that a Leave begins with.
pub const LEAVE: u8 = 3;

/// The byte that a Names begins with.
pub const NAMES: u8 = 4;

/// The byte that a Size begins with.
pub const SIZE: u8 = 5;

/// The byte that a Bytes begins with.
pub const BYTES: u8 = 6;

/// The byte that a Drop begins with.
pub const DROP: u8 = 7;

/// The byte that a Swap begins with.
pub const SWAP: u8 = 8;

/// What a client's call changes, as its log keeps it.
#[derive(Debug, Drop)]
pub struct Record {
    /// The units that are charged for it.
    pub units: u32,
    pub effects: Effects,
}

/// Why no record was read.
#[derive(Clone, Copy, Debug, PartialEq, Eq, Error)]
pub enum RecordError {
    /// The bytes spell no record.
    #[error("the bytes are no record")]
    NoRecord,
    /// There was no memory for the record.
    #[error("out of memory")]
    Memory,
}

impl From<AllocError> for RecordError {
    ghost from_gives = { λ _ e. e ≡ Memory };

    fn from(_e: AllocError) -> RecordError {
        RecordError::Memory
    }
}

impl<T: Drop> From<AllocFailed<T>> for RecordError {
    ghost from_gives = { λ _ e. e ≡ Memory };

    fn from(_e: AllocFailed<T>) -> RecordError {
        RecordError::Memory
    }
}
