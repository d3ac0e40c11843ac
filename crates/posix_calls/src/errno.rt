ghost use Rattle.std.specs.Prelude.{◌≡◌};
ghost use Rattle.posix_calls.specs.Errno.{standard_name};
ghost use Rattle.posix_calls.specs.declared.errno.Errno.TheVariants.{NoMemory};

use std::alloc::{AllocError, AllocFailed};
use std::fmt::{self, Display, Formatter, Write};

/// Why a call was refused: the errors of this file system, after `errno.h` of POSIX.1-2017 (IEEE Std 1003.1-2017).
#[derive(Clone, Copy, Debug, PartialEq, Eq)]
pub enum Errno {
    /// EAGAIN: the call can't be done now, and may be asked again.
    Again,
    /// EBADF: no open file has this descriptor, or it is not open for this.
    BadDescriptor,
    /// EBUSY: what the call would take away is in use.
    Busy,
    /// EEXIST: the name is taken.
    Exists,
    /// EFBIG: the file would grow over its limit.
    FileTooBig,
    /// EINVAL: an argument has no meaning.
    Invalid,
    /// EIO: the device failed.
    IoError,
    /// EISDIR: a file is wanted, and this is a directory.
    IsDirectory,
    /// EMFILE: the client has as many open files as it may.
    TooManyOpen,
    /// EMLINK: the file has as many names as it may.
    TooManyLinks,
    /// ENAMETOOLONG: a name or a path is over its limit.
    NameTooLong,
    /// ENOENT: there is nothing of that name.
    NoEntry,
    /// ENOMEM: memory ran out.
    NoMemory,
    /// ENOSPC: the device is full.
    NoSpace,
    /// ENOTDIR: a directory is wanted, and this is a file.
    NotDirectory,
    /// ENOTEMPTY: the directory has entries.
    NotEmpty,
    /// EPERM: the call is not permitted here.
    NotPermitted,
}

impl Errno {
    /// The name that the standard has for it, such as `ENOENT`.
    pub fn standard_name(self) -> &'static str
        ensures { result.now ≡ standard_name self }
    {
        match self {
            Errno::Again => "EAGAIN",
            Errno::BadDescriptor => "EBADF",
            Errno::Busy => "EBUSY",
            Errno::Exists => "EEXIST",
            Errno::FileTooBig => "EFBIG",
            Errno::Invalid => "EINVAL",
            Errno::IoError => "EIO",
            Errno::IsDirectory => "EISDIR",
            Errno::TooManyOpen => "EMFILE",
            Errno::TooManyLinks => "EMLINK",
            Errno::NameTooLong => "ENAMETOOLONG",
            Errno::NoEntry => "ENOENT",
            Errno::NoMemory => "ENOMEM",
            Errno::NoSpace => "ENOSPC",
            Errno::NotDirectory => "ENOTDIR",
            Errno::NotEmpty => "ENOTEMPTY",
            Errno::NotPermitted => "EPERM",
        }
    }
}

/// Prints the standard name.
impl Display for Errno {
    fn fmt<W: Write>(&self, f: &mut Formatter<W>) -> fmt::Result {
        f.write_str(self.standard_name())
    }
}

impl From<AllocError> for Errno {
    ghost from_gives = { λ _ e. e ≡ NoMemory };

    fn from(_e: AllocError) -> Errno {
        Errno::NoMemory
    }
}

impl<T: Drop> From<AllocFailed<T>> for Errno {
    ghost from_gives = { λ _ e. e ≡ NoMemory };

    fn from(_e: AllocFailed<T>) -> Errno {
        Errno::NoMemory
    }
}
