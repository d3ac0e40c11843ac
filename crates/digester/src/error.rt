ghost use Rattle.shared_area.specs.Parts.{IsNoDamage};
ghost use Rattle.digester.specs.Errors.{IsDigestError};

use shared_area::in_area_reader::AreaError;
use thiserror::Error;

/// Why the next records of a log are not digested.
#[derive(Clone, Copy, Debug, PartialEq, Eq, Error)]
pub enum DigestError {
    #[error("the device failed")]
    DeviceFault,
    /// The record at this place of its region is the first bad one of the chunk.
    #[error("record {place} of the log is bad")]
    BadLog { place: usize },
    #[error("out of memory")]
    Memory,
}

/// Why no records were digested, where the shared area was not read or not changed: no damage is found on media that are opened, and the
/// blocks that a run of records writes are always there.
pub fn digest_error(error: AreaError) -> DigestError
    requires { IsNoDamage error }
    ensures { IsDigestError error result }
{
    match error {
        AreaError::DeviceFault => DigestError::DeviceFault,
        AreaError::Damaged { .. } | AreaError::NoBlock | AreaError::NotMapped => unreachable!(),
        AreaError::Memory => DigestError::Memory,
    }
}
