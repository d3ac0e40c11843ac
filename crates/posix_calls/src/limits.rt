/// The longest name of a directory entry, in bytes.
pub const MAX_NAME: usize = 64;

/// The longest path, in bytes.
pub const MAX_PATH: usize = 1_024;

/// The most bytes that one read or write moves.
pub const MAX_TRANSFER: usize = 65_536;

/// The greatest size of a file, in bytes.
pub const MAX_FILE: u64 = 1_048_576;

/// The most names that a file may have.
pub const MAX_NAMES: u32 = 1_000;

/// The most entries that a directory may have.
pub const MAX_ENTRIES: u32 = 3_584;

/// The inode of the root, which is a directory.
pub const ROOT: u32 = 1;

/// The highest inode number; the lowest is 1.
pub const MAX_INODE: u32 = 1_024;

/// How many descriptors a client has; they are numbered from 0.
pub const MAX_DESCRIPTORS: u32 = 32;

/// How many clients there are; they are numbered from 1.
pub const MAX_CLIENTS: u32 = 8;

/// The bytes of a block: a file costs a unit, and one more for each block of its bytes that is begun.
pub const UNIT_BYTES: u32 = 4_096;

/// The entries of a block: a directory costs a unit, and one more for each block of its entries that is begun.
pub const UNIT_ENTRIES: u32 = 56;
