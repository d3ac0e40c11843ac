ghost use Rattle.std.specs.Prelude.{◌≡◌, ◌≤◌};
ghost use Rattle.fuse_wire.specs.Errno.{errno_number, refusal_number};
ghost use Rattle.fuse_wire.specs.declared.errno.Refusal.TheVariants as refusal;

use posix_calls::Errno;

/// Why a request is refused.
#[derive(Clone, Copy)]
pub enum Refusal {
    /// The tree refuses the call.
    Posix(Errno),
    /// ENOSYS: the request is not served. For FLUSH, FSYNC, FSYNCDIR and ACCESS the kernel takes it for success, and asks no more.
    NotServed,
    /// ESTALE: the server has no such node, or it has no name left.
    StaleNode,
}

impl Refusal {
    /// The error's number by `asm-generic/errno-base.h` and `errno.h`, which a reply has with a minus sign.
    pub fn number(self) -> u32
        ensures number { result ≡ refusal_number self }
        ensures some { 1 ≤ result }
        ensures few { result ≤ 4095 }
    {
        match self {
            Refusal::Posix(errno) => errno_number(errno),
            Refusal::NotServed => 38,
            Refusal::StaleNode => 116,
        }
    }
}

impl From<Errno> for Refusal {
    ghost from_gives = { λ errno r. r ≡ refusal.Posix errno };

    fn from(errno: Errno) -> Refusal {
        Refusal::Posix(errno)
    }
}

// The number of an error of the tree.
fn errno_number(errno: Errno) -> u32
    ensures number { result ≡ errno_number errno }
    ensures some { 1 ≤ result }
    ensures few { result ≤ 39 }
{
    match errno {
        Errno::NotPermitted => 1,
        Errno::NoEntry => 2,
        Errno::IoError => 5,
        Errno::BadDescriptor => 9,
        Errno::Again => 11,
        Errno::NoMemory => 12,
        Errno::Busy => 16,
        Errno::Exists => 17,
        Errno::NotDirectory => 20,
        Errno::IsDirectory => 21,
        Errno::Invalid => 22,
        Errno::TooManyOpen => 24,
        Errno::FileTooBig => 27,
        Errno::NoSpace => 28,
        Errno::TooManyLinks => 31,
        Errno::NameTooLong => 36,
        Errno::NotEmpty => 39,
    }
}
