ghost use Rattle.std.specs.Prelude.{◌≡◌};
ghost use Rattle.batch_journal.specs.declared.error.JournalError.TheVariants.{DeviceFault, Memory};

use crate::calls::Failed;
use layout::What;
use std::alloc::AllocError;
use thiserror::Error;

/// Why a call of a journal was refused.
#[derive(Clone, Copy, Debug, PartialEq, Eq, Error)]
pub enum JournalError {
    #[error("the device failed")]
    DeviceFault,
    #[error("the batch has more than 256 images")]
    BatchTooLarge,
    /// The medium holds no journal: what should stand in that block of the fast tier does not.
    #[error("block {block} is damaged")]
    Damaged { what: What, block: u32 },
    #[error("out of memory")]
    Memory,
}

impl From<Failed> for JournalError {
    ghost from_gives = { λ _ e. e ≡ DeviceFault };

    fn from(_e: Failed) -> JournalError {
        JournalError::DeviceFault
    }
}

impl From<AllocError> for JournalError {
    ghost from_gives = { λ _ e. e ≡ Memory };

    fn from(_e: AllocError) -> JournalError {
        JournalError::Memory
    }
}
