//! What holds of all pools and stores.

ghost use Rattle.std.specs.Prelude.{◌≡◌, ◌↔◌, ℕ, List, Some};
ghost use Rattle.std.specs.List.{Contains};
ghost use Rattle.tier_device.specs.declared.media.Tier.{Tier};
ghost use Rattle.area_reader.specs.layout.Places.{Sizes, node_end};
ghost use Rattle.block_alloc.specs.declared.runs.Run.{Run};
ghost use Rattle.block_alloc.specs.Runs.{blocks_of};
ghost use Rattle.block_alloc.specs.Value.{FreeBlocks, InOrder};
ghost use Rattle.area_reader.specs.batch_journal.Blocks.{Blocks};
ghost use Rattle.area_reader.specs.Store.{Store};
ghost use Rattle.area_reader.specs.Reads.{Free, LooseIn};
ghost use Rattle.area_reader.specs.Format.{Use, used_block};
ghost use Rattle.area_commit.specs.Value.{PoolsView, HasRanges, AreFree};
ghost use Rattle.area_commit.specs.declared.allocation.Allocation.{Allocation};
ghost use Rattle.area_commit.specs.Allocations.{WasTaken, WereTaken, runs_of};
ghost use Rattle.area_commit.specs.DataWrite.{AreFreeIn, RunsAreNormal};

/// What was taken of pools that have exactly the free blocks is free, stands apart in its tiers, and is in the pools no more.
pub fn taken_blocks_are_free()
    ensures free { (g : Sizes) (s : Store) (old new : PoolsView) (taken : Allocation) → AreFree g s old → WereTaken old new taken → (t : Tier) → AreFreeIn g s t (runs_of taken t) }
    ensures apart { (g : Sizes) (old new : PoolsView) (taken : Allocation) → HasRanges g old → WereTaken old new taken → RunsAreNormal g taken }
    ensures left { (old new : FreeBlocks) (runs : List Run) → InOrder old → WasTaken old new runs → (k : ℕ) → Contains new.free k ↔ (Contains old.free k × (Contains (blocks_of runs) k → ⊥)) }
{}

/// Where a new store has the blocks of a tier as the old one, what may be left of the tier differs from the new store in free blocks alone, as it did from the old one: if
/// each free block that has a use in the new store is left as it is seen, since it was fenced.
pub fn fenced_blocks_stay_loose()
    ensures { (g : Sizes) (old new : Store) (t : Tier) (left : Blocks) → LooseIn g old t left → ((k : ℕ) → new t k ≡ old t k) → ((u : Use) (k : ℕ) → Free g old t k → used_block g new u ≡ Some (t, k) → left k ≡ old t k) → LooseIn g new t left }
{}
