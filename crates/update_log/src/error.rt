ghost use Rattle.std.specs.Prelude.{◌≡◌};
ghost use Rattle.update_log.specs.declared.error.RegionError.TheVariants.{Memory};

use std::alloc::{AllocError, AllocFailed};
use thiserror::Error;

/// Why a call of a region was refused.
#[derive(Clone, Copy, Debug, PartialEq, Eq, Error)]
pub enum RegionError {
    #[error("the device failed")]
    DeviceFault,
    #[error("the record does not fit into what is left of the region")]
    RegionFull,
    #[error("the medium has not the size of a region")]
    Damaged,
    #[error("out of memory")]
    Memory,
}

impl From<AllocError> for RegionError {
    ghost from_gives = { λ _ e. e ≡ Memory };

    fn from(_e: AllocError) -> RegionError {
        RegionError::Memory
    }
}

impl<T: Drop> From<AllocFailed<T>> for RegionError {
    ghost from_gives = { λ _ e. e ≡ Memory };

    fn from(_e: AllocFailed<T>) -> RegionError {
        RegionError::Memory
    }
}
