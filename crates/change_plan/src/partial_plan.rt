use inode_plan::in_area_commit::{Allocation, ChangedSlot, FreedBlocks, NodeImages};

/// The plans of the inodes of a change that are made so far, one behind the other, with the blocks that were taken for them.
#[derive(Drop)]
pub struct PartialPlan {
    /// The data blocks for the whole change, and the blocks of the node pool that were taken so far. Whoever gives the plan up gives them back.
    pub taken: Allocation,
    /// The new slots, by rising inodes.
    pub slots: Vec<ChangedSlot>,
    /// Images of blocks of the node pool.
    pub nodes: NodeImages,
    /// 4,096 bytes for each data block that is written, in the order of their places.
    pub bytes: Vec<u8>,
    /// The blocks that the inodes had, and use no more.
    pub lost: FreedBlocks,
}
