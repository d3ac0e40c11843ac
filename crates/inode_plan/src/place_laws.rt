//! What holds of blocks that are put to new places.

ghost use Rattle.std.specs.Prelude.{◌≡◌, ◌≢◌, ◌≤◌, ◌+◌, ℕ, List, Some, length, true};
ghost use Rattle.std.specs.List.{Contains, AllByRecursion};
ghost use Rattle.tier_device.specs.declared.media.Tier.{Tier};
ghost use Rattle.area_commit.specs.layout.declared.geometry.Space.{Space};
ghost use Rattle.area_commit.specs.layout.Places.{Sizes, blocks_in, is_run};
ghost use Rattle.block_alloc.specs.Runs.{Rising, blocks_of};
ghost use Rattle.area_commit.specs.extent_tree.BlockFormat.{LiesWithin, IsOneToOne};
ghost use Rattle.area_commit.specs.extent_tree.Map.{TierRuns, runs_in, lies_at, LieOnce, LieBelow, places_of, HasBlock};
ghost use Rattle.block_alloc.specs.declared.runs.Run.{Run};
ghost use Rattle.block_alloc.specs.Value.{FreeBlocks};
ghost use Rattle.area_commit.specs.layout.declared.extents.Extent.{Extent};
ghost use Rattle.area_commit.specs.extent_tree.Places.{place_of};
ghost use Rattle.area_commit.specs.Release.{AreUsed, IsInUse};
ghost use Rattle.inode_plan.specs.RunPlaces.{ArePlaced};

/// Where no logical block lies in two tiers, or at or behind a number, or in the place of another, and each where the inode's content may, so it is once a run is put to places that
/// rise, that no block of it had, and where its content may lie.
pub fn placed_blocks_are_fit()
    ensures once { (first : ℕ) (tier : Tier) (places : List ℕ) (old new : TierRuns) → ArePlaced first tier places old new → LieOnce old → LieOnce new }
    ensures below { (n first : ℕ) (tier : Tier) (places : List ℕ) (old new : TierRuns) → ArePlaced first tier places old new → first + length places ≤ n → LieBelow n old → LieBelow n new }
    ensures apart { (low end first : ℕ) (tier : Tier) (places : List ℕ) (old new : TierRuns) → ArePlaced first tier places old new → Rising low end places → ((k p : ℕ) → lies_at old tier k ≡ Some p → Contains places p → ⊥) → ((t : Tier) → IsOneToOne (runs_in old t)) → (t : Tier) → IsOneToOne (runs_in new t) }
    ensures within { (g : Sizes) (space : Space) (first : ℕ) (tier : Tier) (places : List ℕ) (old new : TierRuns) → ArePlaced first tier places old new → first + length places ≤ blocks_in space → ((p : ℕ) → Contains places p → is_run g space p 1 ≡ true) → LiesWithin g space (runs_in old tier) → LiesWithin g space (runs_in new tier) }
    ensures others { (g : Sizes) (space : Space) (first : ℕ) (tier t : Tier) (places : List ℕ) (old new : TierRuns) → ArePlaced first tier places old new → t ≢ tier → LiesWithin g space (runs_in old t) → LiesWithin g space (runs_in new t) }
{}

/// Runs of the places that a run of blocks has can be given to a pool: where each block lies in a place of its own, of the pool's range, that is not free.
pub fn places_can_be_given()
    ensures { (p : FreeBlocks) (es : List Extent) (first count : ℕ) (runs : List Run) → blocks_of runs ≡ places_of es first count → AllByRecursion HasBlock runs → IsOneToOne es → ((b k : ℕ) → place_of es b ≡ Some k → IsInUse p k) → AreUsed p runs }
{}
