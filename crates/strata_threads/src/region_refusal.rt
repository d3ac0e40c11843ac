use libfs::in_client_log::LogError;
use libfs::in_digester::DigestError;
use libfs::in_kernel_fs::{AcceptError, KernelError};

/// Why a sealed region was not digested whole.
#[derive(Drop)]
pub enum RegionRefusal {
    /// Its records could not be read: a device of it failed, or there was no memory.
    Read(LogError),
    /// The kernel did not accept it.
    Accept(KernelError<AcceptError>),
    /// The kernel did not digest a chunk of it, or there was no memory to prepare one.
    Digest(KernelError<DigestError>),
    /// Not as many records of its client are waiting as it has undigested: it was not accepted since the media were opened.
    NotAccepted,
    /// As many chunks were prepared as it has records, and some was not the next one.
    NotNext,
}
