use inode_plan::in_graph_change::NodeChange;
use inode_plan::in_layout::Slot;

/// An inode of a change that is to be planned.
#[derive(Clone, Copy)]
pub struct ChangedInode<'a> {
    pub inode: u32,
    /// The slot that it has.
    pub slot: Slot,
    /// What is to become of it.
    pub change: &'a NodeChange,
    /// The touch number that it gets: that of the digest which writes it.
    pub touch: u64,
}
