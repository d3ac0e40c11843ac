ghost use Rattle.std.specs.Prelude.{◌≡◌};
ghost use Rattle.area_reader.specs.declared.error.AreaError.TheVariants.{Memory};
ghost use Rattle.area_reader.specs.Refusals.{area_error};

use batch_journal::in_layout::What;
use block_alloc::AllocatorError;
use std::alloc::AllocError;
use thiserror::Error;

/// Why a call of the shared area was refused: the contract of each says which of these can come.
#[derive(Clone, Copy, Debug, PartialEq, Eq, Error)]
pub enum AreaError {
    #[error("the device failed")]
    DeviceFault,
    /// The media spell no graph: this structure, which stands in that block, is not as it should be. The data of a file may stand in any tier, all else stands
    /// in the fast one.
    #[error("block {block} is damaged")]
    Damaged { what: What, block: u32 },
    /// Fewer data blocks are free than the change writes, or fewer of the tier than the run has that is to be moved there.
    #[error("too few blocks are free")]
    NoBlock,
    /// There is no file, the run has no block or more than 256, or some block of it lies in no tier that is faster than the one asked for.
    #[error("the run does not lie in faster tiers")]
    NotMapped,
    #[error("out of memory")]
    Memory,
}

impl From<AllocError> for AreaError {
    ghost from_gives = { λ _ e. e ≡ Memory };

    fn from(_e: AllocError) -> AreaError {
        AreaError::Memory
    }
}

impl From<AllocatorError> for AreaError {
    ghost from_gives = { λ old new. new ≡ area_error old };

    fn from(error: AllocatorError) -> AreaError {
        match error {
            AllocatorError::NoBlock => AreaError::NoBlock,
            AllocatorError::Memory => AreaError::Memory,
        }
    }
}
