//! What changed blocks spell.

ghost use Rattle.std.specs.Prelude.{◌≡◌, ◌<◌, ℕ, List};
ghost use Rattle.std.specs.FinMap as fin;
ghost use Rattle.graph_change.specs.Net.{Net, node_after};
ghost use Rattle.graph_change.specs.Change.{Changes, changed_graph};
ghost use Rattle.tree_blocks.specs.Inode.{Inode, Entry, node_of, graph_of_inodes, named_entries, AreDistinct, IsConsistent};
ghost use Rattle.tree_blocks.specs.After.{IsEntered, IsTakenOut, IsInodeAfter, AreInodesAfter};

/// A consistent inode after a net change is the node after that change, and is consistent.
pub fn inode_after_is_node_after()
    ensures { (number : ℕ) (c : Net) (old new : Inode) → IsConsistent number old → IsInodeAfter number c old new → (node_of new ≡ node_after c (node_of old)) × IsConsistent number new }
{}

/// Consistent inodes after a change of many are the graph after that change, and are consistent.
pub fn inodes_after_are_graph_after()
    ensures { (cs : Changes) (old new : ℕ → Inode) → ((i : ℕ) → IsConsistent i (old i)) → AreInodesAfter cs old new → (graph_of_inodes new ≡ changed_graph cs (graph_of_inodes old)) × ((i : ℕ) → IsConsistent i (new i)) }
{}

/// Where no two entries have one name, so it is after one is entered or taken out, and the entries by name have it then or no longer.
pub fn entries_change_by_name()
    ensures entered { (number : ℕ) (e : Entry) (n m : ℕ) (old new : ℕ → Entry) → AreDistinct old n → IsEntered number e n old m new → (named_entries new m ≡ fin.insert (named_entries old n) e.0 e.1) × AreDistinct new m }
    ensures taken { (number n m : ℕ) (old new : ℕ → Entry) → AreDistinct old n → IsTakenOut number n old m new → (named_entries new m ≡ fin.remove (named_entries old n) (old number).0) × AreDistinct new m }
{}
