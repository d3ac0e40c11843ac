ghost use Rattle.std.specs.Prelude.{◌≡◌};
ghost use Rattle.layout.specs.declared.error.LayoutError.TheVariants.{Memory};

use std::alloc::AllocError;
use thiserror::Error;

/// A structure of the shared media.
#[derive(Clone, Copy, Debug, PartialEq, Eq)]
pub enum What {
    Super,
    Slot,
    Marks,
    JournalGate,
    JournalHead,
    ExtentBlock,
    DirBlock,
    /// The bytes of a file: behind its size, those of its last block are zero.
    FileData,
}

/// Why a structure was not read.
#[derive(Clone, Copy, Debug, PartialEq, Eq, Error)]
pub enum LayoutError {
    /// The bytes of that block are no spelling of the structure that should stand there. Bytes of a file may be of any tier, all else stands in the fast one.
    #[error("block {block} is damaged")]
    Damaged { what: What, block: u32 },
    /// There was no memory for what the bytes spell.
    #[error("out of memory")]
    Memory,
}

impl From<AllocError> for LayoutError {
    ghost from_gives = { λ _ e. e ≡ Memory };

    fn from(_e: AllocError) -> LayoutError {
        LayoutError::Memory
    }
}
