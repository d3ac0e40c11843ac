ghost use Rattle.std.specs.Prelude.{◌≡◌};
ghost use Rattle.posix_calls.specs.Answers.{decide_error};
ghost use Rattle.posix_calls.specs.declared.operation.DecideError.TheVariants.{Memory};

use crate::errno::Errno;
use crate::operation::DecideError;
use std::alloc::AllocError;

impl From<AllocError> for DecideError {
    ghost from_gives = { λ _ why. why ≡ Memory };

    fn from(_e: AllocError) -> DecideError {
        DecideError::Memory
    }
}

impl From<Errno> for DecideError {
    ghost from_gives = { λ e why. why ≡ decide_error e };

    fn from(errno: Errno) -> DecideError {
        match errno {
            Errno::NoMemory => DecideError::Memory,
            _ => DecideError::Refused { errno },
        }
    }
}
