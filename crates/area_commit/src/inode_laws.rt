//! What holds where some inodes of a store are written anew.

ghost use Rattle.std.specs.Prelude.{◌≡◌, ℕ, Bool, true, Some};
ghost use Rattle.std.specs.FinMap as fin;
ghost use Rattle.area_reader.specs.graph_change.Change.{Changes, change_at, changed_graph, net_of};
ghost use Rattle.tier_device.specs.declared.media.Tier.{Tier};
ghost use Rattle.area_reader.specs.layout.declared.slot.Slot.{Slot};
ghost use Rattle.area_reader.specs.layout.Places.{Sizes, IsAllowed};
ghost use Rattle.area_reader.specs.tree_blocks.Inode.{IsConsistent, AreAlike};
ghost use Rattle.area_reader.specs.tree_blocks.After.{IsInodeAfter};
ghost use Rattle.area_reader.specs.extent_tree.Map.{TierRuns};
ghost use Rattle.area_reader.specs.Store.{Store, inode, graph};
ghost use Rattle.area_reader.specs.Reads.{Free};
ghost use Rattle.area_reader.specs.Format.{IsSpelled, Use, used_block};
ghost use Rattle.area_reader.specs.Rewrites.{Rewrites};
ghost use Rattle.area_commit.specs.StoreRewrite.{MayTake, HasBlockFor, TakeOnce, KeepOrTakeFree, TakeFreeOnce, AreWrittenAnew};

use crate::rewrite_laws::{written_inode_is_read, written_inode_is_spelled};
use area_reader::in_tree_blocks::{alike_inodes_are_one_node, inodes_after_are_graph_after};
use area_reader::{free_blocks_have_no_use, places_are_in_pools, rewritten_inodes_are_spelled};

/// Inodes that are written anew, each consistent, are rewritten, so that the new store spells a graph, too.
pub fn written_inodes_are_rewritten()
    ensures rewrites { (g : Sizes) (rewritten : ℕ → Bool) (x : ℕ → Slot) (m : ℕ → TierRuns) (old new : Store) → IsAllowed g → IsSpelled g old → AreWrittenAnew g rewritten x m old new → ((i : ℕ) → rewritten i ≡ true → IsConsistent i (inode g new i)) → Rewrites g rewritten old new }
    ensures spelled { (g : Sizes) (rewritten : ℕ → Bool) (x : ℕ → Slot) (m : ℕ → TierRuns) (old new : Store) → IsAllowed g → IsSpelled g old → AreWrittenAnew g rewritten x m old new → ((i : ℕ) → rewritten i ≡ true → IsConsistent i (inode g new i)) → IsSpelled g new }
{
    written_inode_is_read();
    written_inode_is_spelled();
    places_are_in_pools();
    free_blocks_have_no_use();
    rewritten_inodes_are_spelled();
}

/// Where each use is one that was there before, or of a block that was free and has no other, no block has two uses, and none of another inode is taken.
pub fn kept_and_free_blocks_lie_apart()
    ensures once { (g : Sizes) (rewritten : ℕ → Bool) (s : Store) (x : ℕ → Slot) (m : ℕ → TierRuns) → IsSpelled g s → KeepOrTakeFree g rewritten s x m → TakeFreeOnce g rewritten s x m → TakeOnce rewritten x m }
    ensures takes { (g : Sizes) (rewritten : ℕ → Bool) (s : Store) (x : ℕ → Slot) (m : ℕ → TierRuns) → KeepOrTakeFree g rewritten s x m → (u : Use) (b : Tier × ℕ) → HasBlockFor rewritten x m u b → MayTake g rewritten s b }
{
    free_blocks_have_no_use();
}

/// Where each inode that is rewritten is as a change makes it, the new store spells the graph after the change.
pub fn changed_inodes_are_the_graph_after()
    ensures { (g : Sizes) (cs : Changes) (rewritten : ℕ → Bool) (old new : Store) → IsSpelled g old → Rewrites g rewritten old new → ((i : ℕ) → fin.contains_key cs i ≡ rewritten i) → ((i : ℕ) → rewritten i ≡ true → IsInodeAfter i (net_of (change_at cs i)) (inode g old i) (inode g new i)) → graph g new ≡ changed_graph cs (graph g old) }
{
    rewritten_inodes_are_spelled();
    inodes_after_are_graph_after();
}

/// Where each inode that is rewritten reads as it did, the new store spells the same graph.
pub fn moved_inodes_are_the_same_graph()
    ensures { (g : Sizes) (rewritten : ℕ → Bool) (old new : Store) → Rewrites g rewritten old new → ((i : ℕ) → rewritten i ≡ true → AreAlike (inode g old i) (inode g new i)) → graph g new ≡ graph g old }
{
    rewritten_inodes_are_spelled();
    alike_inodes_are_one_node();
}

/// A block that was free, or one of an inode that is rewritten, is free then where no such inode has a use for it; and no other block is free then.
pub fn given_up_blocks_are_free()
    ensures free { (g : Sizes) (rewritten : ℕ → Bool) (old new : Store) (t : Tier) (k : ℕ) → IsSpelled g old → Rewrites g rewritten old new → MayTake g rewritten old (t, k) → ((u : Use) → rewritten u.inode ≡ true → used_block g new u ≡ Some (t, k) → ⊥) → Free g new t k }
    ensures no_other { (g : Sizes) (rewritten : ℕ → Bool) (old new : Store) (t : Tier) (k : ℕ) → Rewrites g rewritten old new → Free g new t k → (MayTake g rewritten old (t, k) → ⊥) → ⊥ }
{
    places_are_in_pools();
    free_blocks_have_no_use();
    rewritten_inodes_are_spelled();
}
