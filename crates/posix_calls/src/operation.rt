ghost use Rattle.std.specs.Prelude.{◌≡◌, None, Some, if◌then◌else◌};
ghost use Rattle.posix_calls.specs.Operations.{makes, reply_of};
ghost use Rattle.posix_calls.specs.Kinds.{is_query, opens};
ghost use Rattle.posix_calls.specs.Exact.{IsInRange};

use crate::call::Reply;
use crate::descriptor::Descriptor;
use crate::errno::Errno;
use crate::name::Name;
use crate::shared_bytes::SharedBytes;

/// A name in a directory.
#[derive(Drop)]
pub struct Location {
    /// The inode of the directory.
    pub parent: u32,
    pub name: Name,
}

/// What a rename puts out of its place.
#[derive(Clone, Copy)]
pub enum Replaced {
    /// There was nothing at the new name.
    Nothing,
    /// A file, which stays where it has another name or is open.
    OldFile { inode: u32 },
    /// An empty directory.
    OldDir { inode: u32 },
}

/// What a call does where no error holds. What is opened may be read from, written to or both.
#[derive(Drop)]
pub enum Operation {
    /// Nothing changes, and the call is answered.
    Tell {
        answer: Reply,
    },
    /// An empty directory is made at a name.
    NewDir {
        at: Location,
    },
    /// An empty file is made at a name, and opened under a descriptor.
    NewFile {
        at: Location,
        descriptor: u32,
        reads: bool,
        writes: bool,
    },
    /// The file at an inode is opened under a descriptor, and cut to no bytes where it is to be.
    OpenFile {
        inode: u32,
        empties: bool,
        descriptor: u32,
        reads: bool,
        writes: bool,
    },
    /// A descriptor, which is of this inode, is given back.
    CloseFile {
        inode: u32,
        descriptor: u32,
    },
    /// Bytes, at least one, are put into a file at an offset.
    Write {
        inode: u32,
        at: u64,
        bytes: SharedBytes,
    },
    /// A file of another length is cut or grown to this one.
    Resize {
        inode: u32,
        len: u64,
    },
    /// The empty directory at a name goes.
    RemoveDir {
        at: Location,
        inode: u32,
    },
    /// A file has one more name.
    AddName {
        at: Location,
        inode: u32,
    },
    /// A file has one name fewer.
    DropName {
        at: Location,
        inode: u32,
    },
    /// What has the name `from` has the name `to` in its place, and what stood there is put out.
    Move {
        from: Location,
        to: Location,
        inode: u32,
        is_dir: bool,
        replaced: Replaced,
    },
    /// What has each of two names gets the other one.
    Exchange {
        first: Location,
        second: Location,
        inode: u32,
        other: u32,
    },
}

impl Operation {
    /// The answer to the call; `None` for an operation that does no more than answer: `into_reply` moves its answer out.
    pub fn reply(&self) -> Option<Reply>
        requires { IsInRange self.now }
        ensures { result ≡ (if is_query self.now then None else Some (reply_of self.now)) }
    {
        match self {
            Operation::Tell { .. } => None,
            Operation::NewFile { descriptor, .. } => Some(Reply::Opened {
                descriptor: *descriptor,
            }),
            Operation::OpenFile { descriptor, .. } => Some(Reply::Opened {
                descriptor: *descriptor,
            }),
            Operation::Write { bytes, .. } => Some(Reply::Wrote {
                count: bytes.len() as u32,
            }),
            _ => Some(Reply::Done),
        }
    }

    /// What the call is answered, with the bytes or names that the operation carries for it.
    pub fn into_reply(self) -> Reply
        requires { IsInRange self }
        ensures { result ≡ reply_of self }
    {
        match self {
            Operation::Tell { answer } => answer,
            operation => operation.reply().unwrap_or(Reply::Done),
        }
    }

    /// Whether it makes a node, which needs a number.
    pub fn makes_node(&self) -> bool
        ensures { result ≡ makes self.now }
    {
        match self {
            Operation::NewDir { .. } => true,
            Operation::NewFile { .. } => true,
            _ => false,
        }
    }

    /// What it opens, and under which number; a node that it makes has the number `new`.
    pub fn opens(&self, new: u32) -> Option<(u32, Descriptor)>
        ensures { result ≡ opens new self.now }
    {
        match self {
            Operation::NewFile {
                descriptor,
                reads,
                writes,
                ..
            } => Some((
                *descriptor,
                Descriptor {
                    inode: new,
                    reads: *reads,
                    writes: *writes,
                },
            )),
            Operation::OpenFile {
                inode,
                descriptor,
                reads,
                writes,
                ..
            } => Some((
                *descriptor,
                Descriptor {
                    inode: *inode,
                    reads: *reads,
                    writes: *writes,
                },
            )),
            _ => None,
        }
    }
}

/// Why a call has no operation.
#[derive(Clone, Copy)]
pub enum DecideError {
    /// The call is answered by this error.
    Refused { errno: Errno },
    /// This has to be known too, and is the first thing that is asked for.
    Missing { what: Missing },
    /// Memory ran out.
    Memory,
}

/// What has to be known of a file tree to decide a call.
#[derive(Clone, Copy, Debug)]
pub enum Missing {
    /// What stands at an inode: whether it is a directory, its entries, or a file's size and number of names.
    Node { inode: u32 },
    /// Bytes of a file: `count` blocks of `UNIT_BYTES` bytes from block `first` on, all that a range touches.
    Blocks { inode: u32, first: u64, count: u32 },
}

/// What there is to say of what stands at an inode.
#[derive(Clone, Copy)]
pub enum Description {
    /// A file of `size` bytes, which has `names` names.
    File { size: u64, names: u32 },
    /// A directory with `entries` entries.
    Dir { entries: u32 },
}
