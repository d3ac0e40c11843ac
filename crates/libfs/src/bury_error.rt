/// Why a client can't be buried.
#[derive(Clone, Copy, Debug, PartialEq, Eq)]
pub enum BuryError {
    /// So many of its records are undigested, or in a region that is not back.
    NotDigested { count: usize },
    /// A device of the kernel has failed.
    KernelFailed,
}
