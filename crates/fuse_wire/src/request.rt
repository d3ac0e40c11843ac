ghost use Rattle.std.specs.Prelude.{◌≡◌, ◌≤◌, ◌<◌, ◌+◌, ◌*◌, length, Some, None};
ghost use Rattle.fuse_wire.specs.Fields.{u64_at};

use crate::fields::u64_at;
use crate::init::Init;
use crate::replies::Time;

/// What the kernel asks for. The header's node is the one it is about; names and data are lent from the message.
#[derive(Clone, Copy)]
pub enum Request<'a> {
    /// The first request, which settles the version.
    Init(Init),
    /// Which node has this name in the folder that the header names.
    Lookup {
        name: &'a [u8],
    },
    /// The kernel forgets `count` lookups of the node. It takes no reply.
    Forget {
        count: u64,
    },
    /// The kernel forgets several nodes, of 16 bytes each: `forget_at` reads them. It takes no reply.
    BatchForget {
        nodes: &'a [u8],
    },
    /// The attributes of the node, or of the file that is open as the handle.
    GetAttr {
        handle: Option<u64>,
    },
    SetAttr(SetAttr),
    /// A new node in the folder, by the bits of its mode a file or something else.
    MkNod {
        name: &'a [u8],
        mode: u32,
    },
    /// A new folder in the folder.
    MkDir {
        name: &'a [u8],
        mode: u32,
    },
    Unlink {
        name: &'a [u8],
    },
    RmDir {
        name: &'a [u8],
    },
    /// The name goes over to another folder, in place of what has the new name there.
    Rename {
        name: &'a [u8],
        new_folder: u64,
        new_name: &'a [u8],
    },
    /// The same with flags: 1 where nothing may have the new name, 2 where the two change places.
    Rename2 {
        name: &'a [u8],
        new_folder: u64,
        new_name: &'a [u8],
        flags: u32,
    },
    /// A further name, in the folder that the header names, for a node.
    Link {
        node: u64,
        name: &'a [u8],
    },
    /// Opens the node, by the flags of open(2).
    Open {
        flags: u32,
    },
    /// Makes a file in the folder and opens it.
    Create {
        name: &'a [u8],
        flags: u32,
        mode: u32,
    },
    /// At most `size` bytes from the byte `at` on.
    Read {
        handle: u64,
        at: u64,
        size: u32,
    },
    /// The bytes are to stand from the byte `at` on. The flags are `FUSE_WRITE_CACHE` and the like.
    Write {
        handle: u64,
        at: u64,
        flags: u32,
        bytes: &'a [u8],
    },
    /// The last descriptor of an open file is closed.
    Release {
        handle: u64,
    },
    StatFs,
    OpenDir {
        flags: u32,
    },
    /// Entries from the place `at` on, at most `size` bytes of them.
    ReadDir {
        handle: u64,
        at: u64,
        size: u32,
    },
    ReleaseDir {
        handle: u64,
    },
    /// The process that waits for that request was interrupted. It takes no reply.
    Interrupt {
        unique: u64,
    },
    Flush,
    Fsync,
    FsyncDir,
    Access,
    SymLink,
    /// The mount ends.
    Destroy,
    /// Any other opcode.
    Other {
        opcode: u32,
    },
}

/// The time that a node is to get.
#[derive(Clone, Copy)]
pub enum NewTime {
    /// That at which it is asked.
    Now,
    /// This one; seconds before 1970 are those of a signed number.
    At(Time),
}

/// Which attributes of a node are to change. Of the mode and the owner the flags alone are read.
#[derive(Clone, Copy)]
pub struct SetAttr {
    /// Which fields count (`FATTR_MODE` and the like).
    pub valid: u32,
    /// The open file by which it is asked.
    pub handle: Option<u64>,
    /// The size that the file is to have, in bytes.
    pub size: Option<u64>,
    /// The time at which it is to have been read last.
    pub accessed: Option<NewTime>,
    /// The time at which it is to have been written last.
    pub modified: Option<NewTime>,
}

/// The node at a place of the list of a `BatchForget`, and how many of its lookups are forgotten; `None` behind the last.
pub fn forget_at(nodes: &[u8], index: usize) -> Option<(u64, u64)>
    ensures within { 16 * index + 16 ≤ length nodes.now → result ≡ Some (u64_at (16 * index) nodes.now, u64_at (16 * index + 8) nodes.now) }
    ensures behind { length nodes.now < 16 * index + 16 → result ≡ None }
{
    if index >= nodes.len() / 16 {
        return None;
    }
    Some((u64_at(nodes, 16 * index), u64_at(nodes, 16 * index + 8)))
}
