// Why nothing is recovered.
ghost use Rattle.std.specs.Prelude.{◌≡◌};
ghost use Rattle.area_recovery.specs.declared.error.RecoveryError.TheVariants.{Memory};

use recovery_laws::in_layout::What;
use std::alloc::AllocError;
use thiserror::Error;

/// Why nothing is recovered.
#[derive(Clone, Copy, Debug, PartialEq, Eq, Error)]
pub enum RecoveryError {
    #[error("a device failed")]
    DeviceFault,
    /// The shared medium stores no sound graph: this structure, which stands in that block of it, is not as it should be.
    #[error("block {block} is damaged")]
    Damaged { structure: What, block: u32 },
    /// The shared medium has not the size of the geometry.
    #[error("the shared medium has not the size of the geometry")]
    AreaSize,
    /// A medium has not the size of a region.
    #[error("a medium has not the size of a region")]
    RegionSize,
    /// A record that counts of this client's, by its place among them, can't be digested.
    #[error("record {place} of client {client} can't be digested")]
    BadLog { client: u32, place: usize },
    #[error("out of memory")]
    Memory,
}

impl From<AllocError> for RecoveryError {
    ghost from_gives = { λ _ e. e ≡ Memory };

    fn from(_error: AllocError) -> RecoveryError {
        RecoveryError::Memory
    }
}
