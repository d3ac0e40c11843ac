ghost use Rattle.std.specs.Prelude.{◌≡◌};
ghost use Rattle.posix_calls.specs.declared.errno.Errno.TheVariants as errno;
ghost use Rattle.fuse_wire.specs.declared.errno.Refusal.TheVariants as refusal;

use crate::errno::Refusal;
use posix_calls::Errno;
use std::alloc::{AllocError, AllocFailed};

/// ENOMEM.
impl From<AllocError> for Refusal {
    ghost from_gives = { λ _ r. r ≡ refusal.Posix errno.NoMemory };

    fn from(_error: AllocError) -> Refusal {
        Refusal::Posix(Errno::NoMemory)
    }
}

/// ENOMEM.
impl<T: Drop> From<AllocFailed<T>> for Refusal {
    ghost from_gives = { λ _ r. r ≡ refusal.Posix errno.NoMemory };

    fn from(_error: AllocFailed<T>) -> Refusal {
        Refusal::Posix(Errno::NoMemory)
    }
}
