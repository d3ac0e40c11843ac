//! What holds where blocks of an inode are moved.

ghost use Rattle.std.specs.Prelude.{◌≡◌, ℕ, true};
ghost use Rattle.area_reader.specs.layout.declared.slot.Slot.{Slot};
ghost use Rattle.area_reader.specs.layout.Places.{Sizes, IsAllowed, is_inode};
ghost use Rattle.area_reader.specs.tree_blocks.Inode.{AreAlike, node_of};
ghost use Rattle.area_reader.specs.extent_tree.Map.{TierRuns};
ghost use Rattle.area_reader.specs.Store.{Store, inode};
ghost use Rattle.area_reader.specs.Format.{SpellsInode};
ghost use Rattle.area_commit.specs.InodeRewrite.{IsWritten, IsFit};
ghost use Rattle.area_commit.specs.InodeMove.{StaysInode};

use crate::rewrite_laws::{written_inode_is_read, written_inode_is_spelled};
use area_reader::in_tree_blocks::alike_inodes_are_one_node;
use area_reader::places_are_in_pools;

/// An inode of which blocks are moved reads as it did, so it is the same node; and it is spelled as it was.
pub fn moved_inode_is_alike()
    ensures alike { (g : Sizes) (old new : Store) (i : ℕ) (x : Slot) (m : TierRuns) → IsAllowed g → is_inode i ≡ true → IsFit g x m → IsWritten new i x m → StaysInode g old new i x m → AreAlike (inode g old i) (inode g new i) }
    ensures node { (g : Sizes) (old new : Store) (i : ℕ) (x : Slot) (m : TierRuns) → IsAllowed g → is_inode i ≡ true → IsFit g x m → IsWritten new i x m → StaysInode g old new i x m → node_of (inode g new i) ≡ node_of (inode g old i) }
    ensures spelled { (g : Sizes) (old new : Store) (i : ℕ) (x : Slot) (m : TierRuns) → IsAllowed g → is_inode i ≡ true → IsFit g x m → IsWritten new i x m → StaysInode g old new i x m → SpellsInode g old i → SpellsInode g new i }
{
    written_inode_is_read();
    written_inode_is_spelled();
    places_are_in_pools();
    alike_inodes_are_one_node();
}
