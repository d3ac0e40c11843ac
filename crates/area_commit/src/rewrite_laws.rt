//! What is read of an inode that is written anew.

ghost use Rattle.std.specs.Prelude.{◌≡◌, ℕ, [], Option, Some, None, true};
ghost use Rattle.tier_device.specs.declared.media.Tier.{Tier};
ghost use Rattle.area_reader.specs.layout.declared.slot.Slot.{Slot};
ghost use Rattle.area_reader.specs.layout.Places.{Sizes, IsAllowed, is_inode};
ghost use Rattle.area_reader.specs.tree_blocks.Inode.{IsConsistent, inode_of};
ghost use Rattle.area_reader.specs.extent_tree.Map.{TierRuns, runs_in, lies_at, LieOnce};
ghost use Rattle.area_reader.specs.Store.{Store, slot_read, slot, extents_read, place, logical_block, inode};
ghost use Rattle.area_reader.specs.Format.{SpellsInode, used_block};
ghost use Rattle.area_commit.specs.InodeRewrite.{IsWritten, IsFit, logical_by, block_by};

use area_reader::in_extent_tree::{few_blocks_are_few_runs, whole_map_fits_a_block};
use area_reader::in_layout::{extents_are_read, slot_is_read};

/// A slot and runs that are fit are read as they were written: the slot, the extents of each tier, where each logical block lies, what stands in it, and which blocks the
/// inode has a use for.
pub fn written_inode_is_read()
    ensures slot_is { (g : Sizes) (s : Store) (i : ℕ) (x : Slot) (m : TierRuns) → IsAllowed g → is_inode i ≡ true → IsFit g x m → IsWritten s i x m → slot_read g s i ≡ Some x }
    ensures extents { (g : Sizes) (s : Store) (i : ℕ) (x : Slot) (m : TierRuns) → IsAllowed g → is_inode i ≡ true → IsFit g x m → IsWritten s i x m → (t : Tier) → extents_read g s i t ≡ Some (runs_in m t) }
    ensures places { (g : Sizes) (s : Store) (i : ℕ) (x : Slot) (m : TierRuns) → IsAllowed g → is_inode i ≡ true → IsFit g x m → IsWritten s i x m → (t : Tier) (k : ℕ) → place g s i t k ≡ lies_at m t k }
    ensures blocks { (g : Sizes) (s : Store) (i : ℕ) (x : Slot) (m : TierRuns) → IsAllowed g → is_inode i ≡ true → IsFit g x m → IsWritten s i x m → logical_block g s i ≡ logical_by s m }
    ensures inodes { (g : Sizes) (s : Store) (i : ℕ) (x : Slot) (m : TierRuns) → IsAllowed g → is_inode i ≡ true → IsFit g x m → IsWritten s i x m → inode g s i ≡ inode_of x (logical_by s m) }
    ensures uses { (g : Sizes) (s : Store) (i : ℕ) (x : Slot) (m : TierRuns) → IsAllowed g → is_inode i ≡ true → IsFit g x m → IsWritten s i x m → (t : Tier) (k : Option ℕ) → used_block g s (record { inode = i; tier = t; logical = k }) ≡ block_by x m t k }
{
    slot_is_read();
    extents_are_read();
    whole_map_fits_a_block();
    few_blocks_are_few_runs();
}

/// Where the blocks are, besides, as the slot tells, the inode is spelled.
pub fn written_inode_is_spelled()
    ensures { (g : Sizes) (s : Store) (i : ℕ) (x : Slot) (m : TierRuns) → IsAllowed g → is_inode i ≡ true → IsFit g x m → IsWritten s i x m → IsConsistent i (inode g s i) → SpellsInode g s i }
{
    written_inode_is_read();
}

/// A logical block is that of the place where it lies; one that lies nowhere has no bytes; one that lies where it is read in another store, in a block that is the same there, is the same.
pub fn logical_blocks_are_read_where_they_lie()
    ensures there { (s : Store) (m : TierRuns) (t : Tier) (k p : ℕ) → LieOnce m → lies_at m t k ≡ Some p → logical_by s m k ≡ s t p }
    ensures nowhere { (s : Store) (m : TierRuns) (k : ℕ) → ((t : Tier) → lies_at m t k ≡ None) → logical_by s m k ≡ [] }
    ensures stays { (g : Sizes) (old new : Store) (i : ℕ) (m : TierRuns) (k : ℕ) → ((t : Tier) → lies_at m t k ≡ place g old i t k) → ((t : Tier) (p : ℕ) → place g old i t k ≡ Some p → new t p ≡ old t p) → logical_by new m k ≡ logical_block g old i k }
{}
