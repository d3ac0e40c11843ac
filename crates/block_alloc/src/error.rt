use thiserror::Error;

/// Why no blocks were taken.
#[derive(Clone, Copy, Debug, PartialEq, Eq, Error)]
pub enum AllocatorError {
    /// Fewer blocks are free than were asked for.
    #[error("not enough free blocks")]
    NoBlock,
    #[error("out of memory")]
    Memory,
}
