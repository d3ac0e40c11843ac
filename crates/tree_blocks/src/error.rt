ghost use Rattle.std.specs.Prelude.{◌≡◌};
ghost use Rattle.tree_blocks.specs.declared.error.EnterError.TheVariants.{Memory};

use std::alloc::AllocError;
use thiserror::Error;

/// Why an entry was not entered.
#[derive(Clone, Copy, Debug, PartialEq, Eq, Error)]
pub enum EnterError {
    #[error("the directory is full")]
    Full,
    #[error("out of memory")]
    Memory,
}

impl From<AllocError> for EnterError {
    ghost from_gives = { λ _ e. e ≡ Memory };

    fn from(_e: AllocError) -> EnterError {
        EnterError::Memory
    }
}
