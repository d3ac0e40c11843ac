// The slot of a file after a change of it.
ghost use Rattle.std.specs.Prelude.{◌≡◌, ◌≤◌, ◌+◌, true, ℕ, length, get_or};
ghost use Rattle.area_commit.specs.layout.Places.{Sizes};
ghost use Rattle.area_commit.specs.layout.Slot.{fits_slot};
ghost use Rattle.area_commit.specs.graph_change.Bounds.{IsBounded};
ghost use Rattle.area_commit.specs.graph_change.Bytes.{length_after};
ghost use Rattle.area_commit.specs.graph_change.Net.{names_after};
ghost use Rattle.area_commit.specs.graph_change.View.{base_of, new_length, change_of};
ghost use Rattle.area_commit.specs.tree_blocks.Inode.{LogicalBlocks, inode_of};
ghost use Rattle.area_commit.specs.tree_blocks.After.{start_node};
ghost use Rattle.area_commit.specs.area_reader.Store.{touch_of};
ghost use Rattle.area_commit.specs.InodeChange.{IsFileSlot};
ghost use Rattle.inode_plan.specs.Lists.{root_for};
ghost use Rattle.inode_plan.specs.Roots.{missing_roots, roots_wanted, HasRootsOf, SparesFit};

use area_commit::in_area_reader::{InodeExtents, root_of};
use area_commit::in_graph_change::{NodeBase, NodeChange};
use area_commit::in_layout::{ExtentBlock, Slot};
use tier_device::Tier;

// How many spare blocks a tier wants that has this root.
fn missing_roots(root: u32, list: &Option<ExtentBlock>) -> usize
    ensures is { result ≡ missing_roots root list.now }
    ensures few { result ≤ 1 }
{
    match list {
        Some(_) => if root == 0 { 1 } else { 0 },
        None => 0,
    }
}

/// How many blocks of the node pool are wanted to list the extents of a file: one for each tier that has some, and where the slot names no block for them.
pub fn roots_wanted(slot: &Slot, lists: &InodeExtents) -> usize
    ensures is { result ≡ roots_wanted slot.now lists.now }
    ensures few { result ≤ 3 }
{
    let fast = missing_roots(root_of(slot, Tier::Fast), &lists.fast);
    let block = missing_roots(root_of(slot, Tier::Block), &lists.block);
    let slow = missing_roots(root_of(slot, Tier::Slow), &lists.slow);
    fast + block + slow
}

// The root of a tier: the old one, or else the spare block at a place of the list.
fn root_for(root: u32, list: &Option<ExtentBlock>, spare: &[u32], at: usize) -> u32
    requires { at + missing_roots root list.now ≤ length spare.now }
    ensures { result ≡ root_for root list.now (get_or spare.now at 0) }
{
    match list {
        Some(_) => if root == 0 { spare[at] } else { root },
        None => 0,
    }
}

// How many names a change starts from.
fn names_before(base: NodeBase, slot: &Slot) -> u32
    ensures { (blocks : LogicalBlocks) → result ≡ (start_node (base_of base) (inode_of slot.now blocks)).names }
{
    match base {
        NodeBase::Kept => match *slot {
            Slot::Free => 0,
            Slot::File { names, .. } => names,
            Slot::Directory { names, .. } => names,
        },
        NodeBase::Made { .. } => 0,
        NodeBase::Gone => 0,
    }
}

// Which size a change starts from.
fn size_before(base: NodeBase, slot: &Slot) -> u64
    ensures { (blocks : LogicalBlocks) → result ≡ (start_node (base_of base) (inode_of slot.now blocks)).size }
{
    match base {
        NodeBase::Kept => match *slot {
            Slot::Free => 0,
            Slot::File { size, .. } => size,
            Slot::Directory { entries, .. } => entries,
        },
        NodeBase::Made { .. } => 0,
        NodeBase::Gone => 0,
    }
}

// How many names there are after a change.
fn names_after(change: &NodeChange, slot: &Slot) -> u32
    ensures { (blocks : LogicalBlocks) → result ≡ names_after (change_of change.now).names (start_node (base_of change.now.base) (inode_of slot.now blocks)).names }
{
    match change.names {
        Some(names) => names,
        None => names_before(change.base, slot),
    }
}

// How long the file is after a change.
fn size_after(change: &NodeChange, slot: &Slot) -> u64
    ensures { (blocks : LogicalBlocks) → result ≡ length_after (new_length change.now.length) (start_node (base_of change.now.base) (inode_of slot.now blocks)).size }
{
    change.length.after(size_before(change.base, slot))
}

/// The slot of a file after a change of it, from the old one, which is that of the file, or any where the file is made: with its new names and its new size, the number of the
/// digest that changes it, and in each tier that has extents then the block that lists them: the one that listed some there before, or else the next of the spare ones.
pub fn slot_after(
    slot: &Slot,
    change: &NodeChange,
    lists: &InodeExtents,
    spare: &[u32],
    touch: u64,
) -> Slot
    requires { length spare.now ≡ roots_wanted slot.now lists.now }
    ensures file { (blocks : LogicalBlocks) → IsFileSlot (names_after (change_of change.now).names (start_node (base_of change.now.base) (inode_of slot.now blocks)).names) (length_after (new_length change.now.length) (start_node (base_of change.now.base) (inode_of slot.now blocks)).size) result }
    ensures touch { touch_of result ≡ touch }
    ensures roots { HasRootsOf lists.now spare.now slot.now result }
    // It keeps the limits of the format where the old one and the change do, and the spare blocks are others of the node pool.
    ensures fits { (g : Sizes) → fits_slot g slot.now ≡ true → IsBounded (change_of change.now) → SparesFit g slot.now spare.now → fits_slot g result ≡ true }
{
    let fast = root_of(slot, Tier::Fast);
    let block = root_of(slot, Tier::Block);
    let slow = root_of(slot, Tier::Slow);
    let second = missing_roots(fast, &lists.fast);
    let third = second + missing_roots(block, &lists.block);
    Slot::File {
        names: names_after(change, slot),
        size: size_after(change, slot),
        touch,
        fast: root_for(fast, &lists.fast, spare, 0),
        block: root_for(block, &lists.block, spare, second),
        slow: root_for(slow, &lists.slow, spare, third),
    }
}
