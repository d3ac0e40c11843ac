use crate::need::Need;
use posix_calls::Errno;

// Why a call does not go on.
#[derive(Clone, Copy)]
pub enum Stop {
    /// It is answered by this error.
    Refused { errno: Errno },
    /// This is lacking.
    Lacks { need: Need },
    /// Memory ran out.
    Memory,
}
