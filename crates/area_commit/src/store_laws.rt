//! What a whole store spells where some inodes of it are written anew.

ghost use Rattle.std.specs.Prelude.{◌≡◌, ℕ, Bool, true};
ghost use Rattle.std.specs.FinMap as fin;
ghost use Rattle.area_reader.specs.graph_change.Change.{Changes, change_at, changed_graph, net_of};
ghost use Rattle.area_reader.specs.layout.declared.slot.Slot.{Slot};
ghost use Rattle.area_reader.specs.layout.Places.{Sizes, IsAllowed};
ghost use Rattle.area_reader.specs.tree_blocks.After.{IsInodeAfter};
ghost use Rattle.area_reader.specs.extent_tree.Map.{TierRuns};
ghost use Rattle.area_reader.specs.Store.{Store, inode, graph};
ghost use Rattle.area_reader.specs.Format.{IsSpelled};
ghost use Rattle.area_reader.specs.Rewrites.{Rewrites};
ghost use Rattle.area_commit.specs.InodeMove.{StaysInode};
ghost use Rattle.area_commit.specs.StoreRewrite.{AreWrittenAnew};

use crate::inode_laws::{
    changed_inodes_are_the_graph_after, moved_inodes_are_the_same_graph,
    written_inodes_are_rewritten,
};
use crate::move_laws::moved_inode_is_alike;
use area_reader::in_tree_blocks::{alike_inodes_are_one_node, inode_after_is_node_after};

/// Where inodes are written anew of which blocks are moved, the store spells the graph that it spelled before.
pub fn moved_store_spells_the_same_graph()
    ensures rewrites { (g : Sizes) (rewritten : ℕ → Bool) (x : ℕ → Slot) (m : ℕ → TierRuns) (old new : Store) → IsAllowed g → IsSpelled g old → AreWrittenAnew g rewritten x m old new → ((i : ℕ) → rewritten i ≡ true → StaysInode g old new i (x i) (m i)) → Rewrites g rewritten old new }
    ensures spelled { (g : Sizes) (rewritten : ℕ → Bool) (x : ℕ → Slot) (m : ℕ → TierRuns) (old new : Store) → IsAllowed g → IsSpelled g old → AreWrittenAnew g rewritten x m old new → ((i : ℕ) → rewritten i ≡ true → StaysInode g old new i (x i) (m i)) → IsSpelled g new }
    ensures same_graph { (g : Sizes) (rewritten : ℕ → Bool) (x : ℕ → Slot) (m : ℕ → TierRuns) (old new : Store) → IsAllowed g → IsSpelled g old → AreWrittenAnew g rewritten x m old new → ((i : ℕ) → rewritten i ≡ true → StaysInode g old new i (x i) (m i)) → graph g new ≡ graph g old }
{
    moved_inode_is_alike();
    alike_inodes_are_one_node();
    written_inodes_are_rewritten();
    moved_inodes_are_the_same_graph();
}

/// Where the inodes of a change are written anew, each as the change makes it, the store spells the graph after the change.
pub fn changed_store_spells_the_graph_after()
    ensures rewrites { (g : Sizes) (cs : Changes) (rewritten : ℕ → Bool) (x : ℕ → Slot) (m : ℕ → TierRuns) (old new : Store) → IsAllowed g → IsSpelled g old → AreWrittenAnew g rewritten x m old new → ((i : ℕ) → rewritten i ≡ true → IsInodeAfter i (net_of (change_at cs i)) (inode g old i) (inode g new i)) → Rewrites g rewritten old new }
    ensures spelled { (g : Sizes) (cs : Changes) (rewritten : ℕ → Bool) (x : ℕ → Slot) (m : ℕ → TierRuns) (old new : Store) → IsAllowed g → IsSpelled g old → AreWrittenAnew g rewritten x m old new → ((i : ℕ) → rewritten i ≡ true → IsInodeAfter i (net_of (change_at cs i)) (inode g old i) (inode g new i)) → IsSpelled g new }
    ensures graph_after { (g : Sizes) (cs : Changes) (rewritten : ℕ → Bool) (x : ℕ → Slot) (m : ℕ → TierRuns) (old new : Store) → IsAllowed g → IsSpelled g old → AreWrittenAnew g rewritten x m old new → ((i : ℕ) → fin.contains_key cs i ≡ rewritten i) → ((i : ℕ) → rewritten i ≡ true → IsInodeAfter i (net_of (change_at cs i)) (inode g old i) (inode g new i)) → graph g new ≡ changed_graph cs (graph g old) }
{
    inode_after_is_node_after();
    written_inodes_are_rewritten();
    changed_inodes_are_the_graph_after();
}
