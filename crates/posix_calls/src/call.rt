use crate::bytes::Bytes;
use crate::errno::Errno;
use crate::names::Names;
use crate::shared_bytes::SharedBytes;

/// How a file is opened.
#[derive(Clone, Copy)]
pub struct Flags {
    /// The descriptor may be read from.
    pub read: bool,
    /// The descriptor may be written to.
    pub write: bool,
    /// A file that is not there is made.
    pub create: bool,
    /// With `create`: the call is refused where the name is taken.
    pub exclusive: bool,
    /// With `write`: a file that is there is cut to no bytes.
    pub truncate: bool,
}

/// What a client asks. Descriptors are numbers of that client; offsets, counts and lengths are in bytes. Paths are the bytes
/// that the client gave, which `Path::read` reads.
#[derive(Drop)]
pub enum Call {
    /// Opens a file, and makes it first where the flags say so.
    Open {
        path: Bytes,
        flags: Flags,
    },
    /// Gives a descriptor back.
    Close {
        descriptor: u32,
    },
    /// Reads up to `count` bytes of the open file from an offset; fewer where the file ends before.
    Pread {
        descriptor: u32,
        at: u64,
        count: u64,
    },
    /// Writes bytes into the open file at an offset; a gap behind the old end reads as zero.
    Pwrite {
        descriptor: u32,
        at: u64,
        bytes: SharedBytes,
    },
    /// Cuts a file to a length, or grows it to that; what is grown reads as zero.
    Truncate {
        path: Bytes,
        len: u64,
    },
    /// Makes an empty directory.
    Mkdir {
        path: Bytes,
    },
    /// Takes an empty directory away.
    Rmdir {
        path: Bytes,
    },
    /// Gives the file at `old` the further name `new`.
    Link {
        old: Bytes,
        new: Bytes,
    },
    /// Takes a name of a file away.
    Unlink {
        path: Bytes,
    },
    /// Moves what is at `old` to `new`, in place of what was there.
    Rename {
        old: Bytes,
        new: Bytes,
    },
    /// Exchanges what is at two paths, of whatever kinds.
    Exchange {
        first: Bytes,
        second: Bytes,
    },
    /// Asks for the names in a directory.
    List {
        path: Bytes,
    },
    /// Asks for what is at a path: a file's length and number of names, or a directory's number of entries.
    Stat {
        path: Bytes,
    },
}

/// What a call is answered.
#[derive(Debug, Drop)]
pub enum Reply {
    /// The call was done; its answer has no more.
    Done,
    /// The file is open under this descriptor.
    Opened { descriptor: u32 },
    /// These bytes were read; none at or past the end of the file.
    Read { bytes: Bytes },
    /// `count` bytes were written.
    Wrote { count: u32 },
    /// The directory has these names, in the order of their bytes.
    Listed { names: Names },
    /// It is a file of `size` bytes, which has `names` names.
    File { size: u64, names: u32 },
    /// It is a directory with `entries` entries.
    Dir { entries: u32 },
    /// The call was refused, for this reason.
    Failed { errno: Errno },
}
