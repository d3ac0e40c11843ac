ghost use Rattle.std.specs.Prelude.{◌≡◌, ◌≤◌, ◌<◌};
ghost use Rattle.layout.specs.Places.{slot_block, slot_byte};

use posix_calls::MAX_INODE;

/// The bytes of a block.
pub const BLOCK: usize = 4_096;

/// The fewest units that a geometry has.
pub const MIN_UNITS: u32 = 2;

/// The most units that a geometry has.
pub const MAX_UNITS: u32 = 65_536;

/// The most data blocks that a tier has.
pub const MAX_DATA_BLOCKS: u32 = 65_536;

/// How many data blocks all tiers together have at least, beside one for each unit.
pub const SPARE_BLOCKS: u32 = 512;

/// The block of the superblock.
pub const SUPER_BLOCK: u32 = 0;

/// The first block of inode slots.
pub const FIRST_SLOT_BLOCK: u32 = 1;

/// The bytes of an inode slot.
pub const SLOT_SIZE: usize = 128;

/// How many slots a block has.
pub const SLOTS_IN_BLOCK: u32 = 32;

/// The block of the marks.
pub const MARKS_BLOCK: u32 = 33;

/// The block of the journal's gate.
pub const GATE_BLOCK: u32 = 34;

/// The block of the journal's head.
pub const HEAD_BLOCK: u32 = 35;

/// The first block of the journal's images.
pub const FIRST_IMAGE_BLOCK: u32 = 36;

/// The most images that the journal has, and that a commit takes.
pub const MAX_IMAGES: usize = 256;

/// The first block of the node pool, which extent blocks and directory blocks share.
pub const FIRST_NODE_BLOCK: u32 = 292;

/// How many blocks the node pool has, beside two for each unit.
pub const BASE_NODE_BLOCKS: u32 = 3_072;

/// The block of an inode's slot, from 1 to 32.
pub fn slot_block(inode: u32) -> u32
    requires low { 1 ≤ inode }
    requires high { inode ≤ MAX_INODE }
    ensures block { result ≡ slot_block inode }
    ensures first { 1 ≤ result }
    ensures last { result ≤ 32 }
{
    FIRST_SLOT_BLOCK + (inode - 1) / SLOTS_IN_BLOCK
}

/// The byte of its block at which an inode's slot begins; the slot ends within the block.
pub fn slot_byte(inode: u32) -> usize
    requires low { 1 ≤ inode }
    requires high { inode ≤ MAX_INODE }
    ensures byte { result ≡ slot_byte inode }
    ensures within { result ≤ 3968 }
{
    SLOT_SIZE * ((inode - 1) % SLOTS_IN_BLOCK) as usize
}

/// The most blocks that a file has.
pub const FILE_BLOCKS: u32 = 256;

/// The most blocks of entries that a directory has.
pub const DIRECTORY_BLOCKS: u32 = 64;
