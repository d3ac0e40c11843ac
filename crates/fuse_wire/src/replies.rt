//! What replies carry, each as its fields in the order of `linux/fuse.h`.

ghost use Rattle.std.specs.Prelude.{◌≡◌};
ghost use Rattle.fuse_wire.specs.Replies.{attr_fields, entry_fields, absence_fields, valid_fields, open_fields, statfs_fields, init_fields};

use crate::fields::Field;
use crate::init::InitReply;

/// A time, or a span of time: seconds, and nanoseconds below 1,000,000,000.
#[derive(Clone, Copy)]
pub struct Time {
    pub seconds: u64,
    pub nanoseconds: u32,
}

/// The attributes of a node (`struct fuse_attr`): 88 bytes.
#[derive(Clone, Copy)]
pub struct Attr {
    /// The number that stat(2) shows.
    pub inode: u64,
    /// In bytes.
    pub size: u64,
    /// What it takes, in blocks of 512 bytes.
    pub blocks: u64,
    pub accessed: Time,
    pub modified: Time,
    pub changed: Time,
    /// Its kind and who may do what with it.
    pub mode: u32,
    /// How many names it has.
    pub links: u32,
    pub uid: u32,
    pub gid: u32,
    /// The number of a device; 0 for files and folders.
    pub device: u32,
    /// The bytes that are best read or written at once.
    pub block_size: u32,
}

/// What has a name (`struct fuse_entry_out`): 128 bytes.
#[derive(Clone, Copy)]
pub struct Entry {
    pub node: u64,
    /// With the node it names one file for as long as the mount lasts.
    pub generation: u64,
    /// How long the kernel may keep the name, and the attributes.
    pub entry_valid: Time,
    pub attr_valid: Time,
    pub attr: Attr,
}

/// A file or folder that was opened (`struct fuse_open_out`): 16 bytes.
#[derive(Clone, Copy)]
pub struct OpenFile {
    /// By which the kernel names it from now on.
    pub handle: u64,
    /// `FOPEN_KEEP_CACHE` (2) and the like.
    pub flags: u32,
}

/// What statfs(2) shows (`struct fuse_kstatfs`): 80 bytes.
#[derive(Clone, Copy)]
pub struct StatFs {
    /// In units of `block_size` bytes: all, those that are free, and those that are free for every user.
    pub blocks: u64,
    pub blocks_free: u64,
    pub blocks_available: u64,
    /// All nodes, and those that are free.
    pub files: u64,
    pub files_free: u64,
    /// In bytes.
    pub block_size: u32,
    /// The longest name, in bytes.
    pub name_len: u32,
}

/// Lists the fields of attributes, 88 bytes.
pub fn attr_fields(attr: &Attr) -> [Field; 16]
    ensures { result ≡ attr_fields attr.now }
{
    [
        Field::Eight(attr.inode),
        Field::Eight(attr.size),
        Field::Eight(attr.blocks),
        Field::Eight(attr.accessed.seconds),
        Field::Eight(attr.modified.seconds),
        Field::Eight(attr.changed.seconds),
        Field::Four(attr.accessed.nanoseconds),
        Field::Four(attr.modified.nanoseconds),
        Field::Four(attr.changed.nanoseconds),
        Field::Four(attr.mode),
        Field::Four(attr.links),
        Field::Four(attr.uid),
        Field::Four(attr.gid),
        Field::Four(attr.device),
        Field::Four(attr.block_size),
        Field::Four(0),
    ]
}

/// Lists the fields of an entry before its attributes, 40 bytes.
pub fn entry_fields(entry: &Entry) -> [Field; 6]
    ensures { result ≡ entry_fields entry.now }
{
    [
        Field::Eight(entry.node),
        Field::Eight(entry.generation),
        Field::Eight(entry.entry_valid.seconds),
        Field::Eight(entry.attr_valid.seconds),
        Field::Four(entry.entry_valid.nanoseconds),
        Field::Four(entry.attr_valid.nanoseconds),
    ]
}

/// Lists the fields of an entry of node 0, which says that there is no such name: 128 bytes, all zero but how long
/// that is valid.
pub fn absence_fields(valid: Time) -> [Field; 17]
    ensures { result ≡ absence_fields valid }
{
    [
        Field::Eight(0),
        Field::Eight(0),
        Field::Eight(valid.seconds),
        Field::Eight(0),
        Field::Four(valid.nanoseconds),
        Field::Four(0),
        Field::Eight(0),
        Field::Eight(0),
        Field::Eight(0),
        Field::Eight(0),
        Field::Eight(0),
        Field::Eight(0),
        Field::Eight(0),
        Field::Eight(0),
        Field::Eight(0),
        Field::Eight(0),
        Field::Eight(0),
    ]
}

/// Lists the fields before the attributes in the reply to GETATTR and SETATTR, 16 bytes.
pub fn valid_fields(valid: Time) -> [Field; 3]
    ensures { result ≡ valid_fields valid }
{
    [
        Field::Eight(valid.seconds),
        Field::Four(valid.nanoseconds),
        Field::Four(0),
    ]
}

/// Lists the fields of the reply to OPEN, OPENDIR and, behind those of the entry, CREATE: 16 bytes.
pub fn open_fields(file: &OpenFile) -> [Field; 3]
    ensures { result ≡ open_fields file.now }
{
    [
        Field::Eight(file.handle),
        Field::Four(file.flags),
        Field::Four(0),
    ]
}

/// Lists the fields of the reply to STATFS, 80 bytes.
pub fn statfs_fields(stat: &StatFs) -> [Field; 15]
    ensures { result ≡ statfs_fields stat.now }
{
    [
        Field::Eight(stat.blocks),
        Field::Eight(stat.blocks_free),
        Field::Eight(stat.blocks_available),
        Field::Eight(stat.files),
        Field::Eight(stat.files_free),
        Field::Four(stat.block_size),
        Field::Four(stat.name_len),
        Field::Four(stat.block_size),
        Field::Four(0),
        Field::Four(0),
        Field::Four(0),
        Field::Four(0),
        Field::Four(0),
        Field::Four(0),
        Field::Four(0),
    ]
}

/// Lists the fields of the reply to INIT, 64 bytes.
pub fn init_fields(reply: &InitReply) -> [Field; 18]
    ensures { result ≡ init_fields reply.now }
{
    [
        Field::Four(reply.major),
        Field::Four(reply.minor),
        Field::Four(reply.max_readahead),
        Field::Four(reply.flags),
        Field::Two(reply.max_background),
        Field::Two(reply.congestion),
        Field::Four(reply.max_write),
        Field::Four(reply.time_gran),
        Field::Two(reply.max_pages),
        Field::Two(0),
        Field::Four(0),
        Field::Four(0),
        Field::Four(0),
        Field::Four(0),
        Field::Four(0),
        Field::Four(0),
        Field::Four(0),
        Field::Four(0),
    ]
}
