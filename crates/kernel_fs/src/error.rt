use std::fmt::Display;
use thiserror::Error;

/// A device has failed: the kernel answers nothing else then, until its media are opened again.
#[derive(Clone, Copy, Debug, PartialEq, Eq, Error)]
#[error("a device has failed")]
pub struct KernelFailed;

/// Why the kernel did not do what it was asked.
#[derive(Debug, Drop, Error)]
#[error_bound(E: Display)]
pub enum KernelError<E> {
    /// A device has failed in an earlier call: the kernel answers nothing else then, until its media are opened again.
    #[error("a device has failed")]
    Failed,
    /// It was refused for this; where it is a fault of a device, that device failed in this call.
    #[error("{0}")]
    Refused(E),
}

/// Why a sealed region was not accepted.
#[derive(Clone, Copy, Debug, PartialEq, Eq, Error)]
pub enum AcceptError {
    /// It does not stand at its client's mark.
    #[error("the region does not stand at its client's mark")]
    NotAtMark,
    /// Records of that client are waiting: they are this region's own, for one that stands at the mark was accepted before it.
    #[error("the region is accepted already")]
    AlreadyAccepted,
}

/// Why a file was not dropped.
#[derive(Clone, Copy, Debug, PartialEq, Eq, Error)]
pub enum ReclaimError {
    /// A device failed in this call.
    #[error("a device failed")]
    DeviceFault,
    /// At the inode there is no file that has no name and that nobody has pinned: a file with a name or a pin, a directory, or nothing at all.
    #[error("the file is in use")]
    InUse,
    /// There was no memory.
    #[error("out of memory")]
    Memory,
}
