use crate::{Allocation, ChangedSlot, NodeImages};
use area_reader::in_layout::Marks;
use block_alloc::Run;

/// Blocks that are given up, as runs: of the node pool, and of the data blocks of each tier.
#[derive(Drop)]
pub struct FreedBlocks {
    pub nodes: Vec<Run>,
    pub fast: Vec<Run>,
    pub block: Vec<Run>,
    pub slow: Vec<Run>,
}

/// What is to be written of some inodes, in memory: nothing of it is on the media yet.
#[derive(Drop)]
pub struct Rewrite {
    /// The new slots, by rising inodes.
    pub slots: Vec<ChangedSlot>,
    /// New marks, where they change.
    pub marks: Option<Marks>,
    /// Images of blocks of the node pool: extent blocks and blocks of directories.
    pub nodes: NodeImages,
    /// The blocks that were taken from the pools for it, all of which it uses.
    pub taken: Allocation,
    /// 4,096 bytes for each data block that was taken, in their order: fastest tier first.
    pub bytes: Vec<u8>,
    /// The blocks that the inodes had, and use no more.
    pub lost: FreedBlocks,
}
