//! What holds where some inodes of a store are rewritten.

ghost use Rattle.std.specs.Prelude.{◌≡◌, ◌↔◌, ℕ, List, Bool, false, Some};
ghost use Rattle.tier_device.specs.declared.media.Tier.{Tier};
ghost use Rattle.batch_journal.specs.layout.Places.{Sizes};
ghost use Rattle.batch_journal.specs.Blocks.{Blocks};
ghost use Rattle.area_reader.specs.Store.{Store, store_of, content_blocks, inode};
ghost use Rattle.area_reader.specs.Reads.{IsRoom, Free, LooseIn};
ghost use Rattle.area_reader.specs.Format.{Use, used_block, IsSpelled};
ghost use Rattle.area_reader.specs.Rewrites.{Rewrites};

/// Where some inodes are rewritten, the new store spells a graph, too; the inodes that are not rewritten are the same.
pub fn rewritten_inodes_are_spelled()
    ensures spelled { (g : Sizes) (rewritten : ℕ → Bool) (old new : Store) → IsSpelled g old → Rewrites g rewritten old new → IsSpelled g new }
    ensures others { (g : Sizes) (rewritten : ℕ → Bool) (old new : Store) → Rewrites g rewritten old new → (i : ℕ) → rewritten i ≡ false → inode g new i ≡ inode g old i }
    ensures uses_stay { (g : Sizes) (rewritten : ℕ → Bool) (old new : Store) → Rewrites g rewritten old new → (u : Use) → rewritten u.inode ≡ false → used_block g new u ≡ used_block g old u }
{}

/// A block is free where it lies in a pool or a tier's room, and no inode has a use for it.
pub fn free_blocks_have_no_use()
    ensures { (g : Sizes) (s : Store) (t : Tier) (k : ℕ) → Free g s t k ↔ (IsRoom g t k × ((u : Use) → used_block g s u ≡ Some (t, k) → ⊥)) }
{}

/// A batch leaves the block and the slow tier as they are. Where no free block of such a tier comes into use, what may be left of it differs from what is read in free
/// blocks alone, as it did before; so it does where the tier is fenced.
pub fn batch_leaves_the_other_tiers()
    ensures store { (t : Tier) (old new : Tier → List ℕ) → new t ≡ old t → store_of new t ≡ store_of old t }
    ensures loose { (g : Sizes) (old new : Store) (t : Tier) (blocks : Blocks) → LooseIn g old t blocks → new t ≡ old t → ((k : ℕ) → (Free g new t k → ⊥) → Free g old t k → ⊥) → LooseIn g new t blocks }
    ensures fenced { (g : Sizes) (seen : Tier → List ℕ) (t : Tier) (c : List ℕ) → c ≡ seen t → LooseIn g (store_of seen) t (content_blocks t c) }
{}
