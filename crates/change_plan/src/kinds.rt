// What an inode is that a change starts from.
ghost use Rattle.std.specs.Prelude.{◌≡◌, ℕ, Some};
ghost use Rattle.inode_plan.specs.graph_change.View.{base_of};
ghost use Rattle.inode_plan.specs.layout.Places.{Sizes};
ghost use Rattle.inode_plan.specs.tree_blocks.After.{start_node};
ghost use Rattle.inode_plan.specs.tree_blocks.Inode.{LogicalBlocks, inode_of};
ghost use Rattle.inode_plan.specs.area_reader.Store.{Store, slot_read, inode};

use inode_plan::in_file_graph::Kind;
use inode_plan::in_graph_change::NodeBase;
use inode_plan::in_layout::Slot;

// The kind of the inode that a slot tells.
fn kind_in(slot: &Slot) -> Option<Kind>
    ensures { (blocks : LogicalBlocks) → (inode_of slot.now blocks).kind ≡ result }
{
    match *slot {
        Slot::Free => None,
        Slot::File { .. } => Some(Kind::File),
        Slot::Directory { .. } => Some(Kind::Directory),
    }
}

/// The kind of what the rest of a change starts from: of the node that is made, or of the one that was there, if it stays.
pub fn kind_from(base: NodeBase, slot: &Slot) -> Option<Kind>
    ensures { (g : Sizes) (s : Store) (i : ℕ) → slot_read g s i ≡ Some slot.now → (start_node (base_of base) (inode g s i)).kind ≡ result }
{
    match base {
        NodeBase::Kept => kind_in(slot),
        NodeBase::Made { kind } => Some(kind),
        NodeBase::Gone => None,
    }
}
