use thiserror::Error;

/// Why a client was given nothing.
#[derive(Clone, Copy, Debug, PartialEq, Eq, Error)]
pub enum RefillError {
    /// What is charged, what is out and what was asked for pass the capacity.
    #[error("not enough units")]
    NoUnits,
    /// Fewer numbers are free than were asked for.
    #[error("not enough inode numbers")]
    NoInode,
}
