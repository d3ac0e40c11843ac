use fuse_wire::{InitReply, Refusal};
use mount_nodes::{Attributes, Usage};
use posix_calls::Bytes;

/// What a request is answered.
#[derive(Drop)]
pub enum Answer {
    /// It was done, and the reply has no more.
    Done,
    /// It is refused.
    Refused(Refusal),
    /// The version and the limits of the mount.
    Agreed(InitReply),
    /// What has a name.
    Entry(Attributes),
    /// Nothing has the name.
    Absence,
    /// The attributes of a node.
    Attributes(Attributes),
    /// A file or a directory is open, under this handle.
    Opened(u64),
    /// A file that was made or was there has the name, and is open.
    Created(Attributes),
    /// These bytes were read.
    Data(Bytes),
    /// This many bytes were written.
    Count(u32),
    /// How much there is.
    Usage(Usage),
    /// The entries of an open directory from a place on.
    Entries { handle: u64, at: u64, size: u32 },
}
