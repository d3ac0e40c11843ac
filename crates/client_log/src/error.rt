use thiserror::Error;

/// Why a call of a client's log was refused.
#[derive(Clone, Copy, Debug, PartialEq, Eq, Error)]
pub enum LogError {
    #[error("a device of the log failed")]
    DeviceFault,
    #[error("the region is not wiped to its generation")]
    NotWiped,
    #[error("the record does not fit into what is left of the region")]
    RegionFull,
    #[error("out of memory")]
    Memory,
}
