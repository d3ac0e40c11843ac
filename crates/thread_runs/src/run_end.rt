use script::RunError;
use std::alloc::AllocError;

/// Why a client's run ended before its last turn.
#[derive(Clone, Copy)]
pub enum RunEnd {
    /// A call was not answered as the plain tree answers it.
    Differs,
    /// A region stopped: its own, or that of a client whose lease it waits for. Its last call is not answered.
    Stopped,
    /// Its client died. What became of its last call is judged once it is buried.
    Died,
    /// Memory, a device, or a log that can't be digested.
    Fault(RunError),
}

impl From<AllocError> for RunEnd {
    fn from(_e: AllocError) -> RunEnd {
        RunEnd::Fault(RunError::Memory)
    }
}

impl From<RunError> for RunEnd {
    fn from(fault: RunError) -> RunEnd {
        RunEnd::Fault(fault)
    }
}
