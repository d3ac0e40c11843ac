/// Whether a lease is for reading or for writing.
#[derive(Clone, Copy, Debug, PartialEq, Eq)]
pub enum Mode {
    Read,
    Write,
}

/// What a client lacks for a call. Nothing has begun, and once it is served the same call may be planned again.
#[derive(Clone, Copy, Debug, PartialEq, Eq)]
pub enum Need {
    /// The pin of a file that the client has not open is to be given back.
    Unpin { inode: u32 },
    /// A lease on an inode. Who holds it for reading and lacks it for writing raises it.
    Lease { inode: u32, mode: Mode },
    /// A copy of what stands at an inode, without the bytes of a file.
    View { inode: u32 },
    /// Bytes of a file: `count` blocks from block `first` on.
    Blocks { inode: u32, first: u64, count: u32 },
    /// So many numbers for new nodes.
    Inodes { count: u32 },
    /// So many units.
    Units { count: u32 },
    /// A pin of the file that the call opens.
    Pin { inode: u32 },
    /// A region that is there, wiped, and has room for the call's record.
    Room,
}
