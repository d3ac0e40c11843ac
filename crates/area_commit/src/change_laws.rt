//! What holds where an inode is written anew for a change of it.

ghost use Rattle.std.specs.Prelude.{◌≡◌, ℕ, [], None, true};
ghost use Rattle.tier_device.specs.declared.media.Tier.{Tier};
ghost use Rattle.area_reader.specs.graph_change.Change.{Change, net_of};
ghost use Rattle.area_reader.specs.graph_change.Tidy.{IsTidyChange};
ghost use Rattle.area_reader.specs.layout.declared.slot.Slot.{Slot};
ghost use Rattle.area_reader.specs.layout.declared.slot.Slot.TheVariants as slots;
ghost use Rattle.area_reader.specs.layout.Places.{Sizes, IsAllowed, is_inode};
ghost use Rattle.area_reader.specs.tree_blocks.Inode.{IsConsistent};
ghost use Rattle.area_reader.specs.tree_blocks.After.{start_node, IsInodeAfter};
ghost use Rattle.area_reader.specs.tree_blocks.Directory.{EntryBlocks};
ghost use Rattle.area_reader.specs.tree_blocks.InodeRewrite.{IsFileRewritten, IsDirectoryRewritten};
ghost use Rattle.area_reader.specs.extent_tree.Map.{TierRuns, runs_in};
ghost use Rattle.area_reader.specs.Store.{Store, inode};
ghost use Rattle.area_commit.specs.InodeRewrite.{IsWritten, IsFit};
ghost use Rattle.area_commit.specs.InodeChange.{IsFileWritten, IsDirectoryWritten};

use crate::rewrite_laws::{logical_blocks_are_read_where_they_lie, written_inode_is_read};
use area_reader::in_tree_blocks::{inode_after_is_node_after, rewritten_inode_is_inode_after};

/// A file whose slot and blocks are written as a change asks is the file after that change, and is consistent where the old inode was.
pub fn written_file_is_rewritten()
    ensures rewritten { (g : Sizes) (c : Change) (old new : Store) (i : ℕ) (x : Slot) (m : TierRuns) → IsAllowed g → is_inode i ≡ true → IsFit g x m → IsWritten new i x m → IsFileWritten g c old new i x m → IsFileRewritten c (start_node c.base (inode g old i)) (inode g new i) }
    ensures after { (g : Sizes) (c : Change) (old new : Store) (i : ℕ) (x : Slot) (m : TierRuns) → IsAllowed g → is_inode i ≡ true → IsFit g x m → IsWritten new i x m → IsFileWritten g c old new i x m → IsTidyChange c → IsConsistent i (inode g old i) → IsInodeAfter i (net_of c) (inode g old i) (inode g new i) × IsConsistent i (inode g new i) }
{
    written_inode_is_read();
    logical_blocks_are_read_where_they_lie();
    rewritten_inode_is_inode_after();
    inode_after_is_node_after();
}

/// A directory whose slot and blocks are those of a changed one in memory is the directory after that change, and is consistent where the old inode was.
pub fn written_directory_is_rewritten()
    ensures rewritten { (g : Sizes) (c : Change) (before after : EntryBlocks) (old new : Store) (i : ℕ) (x : Slot) (m : TierRuns) → IsAllowed g → is_inode i ≡ true → IsFit g x m → IsWritten new i x m → IsDirectoryWritten g c before after old new i x m → IsDirectoryRewritten i c before after (start_node c.base (inode g old i)) (inode g new i) }
    ensures after { (g : Sizes) (c : Change) (before after : EntryBlocks) (old new : Store) (i : ℕ) (x : Slot) (m : TierRuns) → IsAllowed g → is_inode i ≡ true → IsFit g x m → IsWritten new i x m → IsDirectoryWritten g c before after old new i x m → IsConsistent i (inode g old i) → IsInodeAfter i (net_of c) (inode g old i) (inode g new i) × IsConsistent i (inode g new i) }
{
    written_inode_is_read();
    rewritten_inode_is_inode_after();
    inode_after_is_node_after();
}

/// A free slot without runs is fit. An inode that is written so is that after a change by which its node goes, or which is of none.
pub fn written_free_slot_is_inode_after()
    ensures fit { (g : Sizes) (m : TierRuns) → ((t : Tier) → runs_in m t ≡ []) → IsFit g slots.Free m }
    ensures after { (g : Sizes) (c : Change) (old new : Store) (i : ℕ) (m : TierRuns) → IsAllowed g → is_inode i ≡ true → ((t : Tier) → runs_in m t ≡ []) → IsWritten new i slots.Free m → (start_node c.base (inode g old i)).kind ≡ None → IsInodeAfter i (net_of c) (inode g old i) (inode g new i) }
{
    written_inode_is_read();
    rewritten_inode_is_inode_after();
}
