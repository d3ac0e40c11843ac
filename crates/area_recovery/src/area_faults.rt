//! What a refusal of the shared area is to a recovery.

ghost use Rattle.recovery_laws.specs.area_reader.Refusals.{IsReadRefusal};
ghost use Rattle.area_recovery.specs.Errors.{IsAreaFault};

use crate::error::RecoveryError;
use recovery_laws::in_area_reader::AreaError;

/// Returns the refusal of a recovery for one of the shared area, which a recovery opens, reads, and changes without blocks of data: so it is refused no block and no run.
pub fn area_fault(error: AreaError) -> RecoveryError
    requires { IsReadRefusal error }
    ensures { IsAreaFault error result }
{
    match error {
        AreaError::DeviceFault => RecoveryError::DeviceFault,
        AreaError::Damaged { what, block } => RecoveryError::Damaged {
            structure: what,
            block,
        },
        AreaError::NoBlock | AreaError::NotMapped => unreachable!(),
        AreaError::Memory => RecoveryError::Memory,
    }
}
