//! What holds of all maps of blocks.

ghost use Rattle.std.specs.Prelude.{◌≡◌, ◌≢◌, ◌≤◌, ◌<◌, ◌+◌, ℕ, List, length, Some, true, false, nat_le};
ghost use Rattle.std.specs.List.{list_all};
ghost use Rattle.layout.specs.Extents.{fits_extents};
ghost use Rattle.layout.specs.Places.{Sizes, is_inode, is_run, blocks_in};
ghost use Rattle.layout.specs.declared.geometry.Space.{Space};
ghost use Rattle.extent_tree.specs.BlockFormat.{LiesWithin, IsOneToOne};
ghost use Rattle.tier_device.specs.declared.media.Tier.{Tier};
ghost use Rattle.layout.specs.declared.extents.Extent.{Extent};
ghost use Rattle.extent_tree.specs.Places.{place_of, end_of, in_run};
ghost use Rattle.extent_tree.specs.Normal.{IsNormal};
ghost use Rattle.extent_tree.specs.Map.{TierRuns, runs_in, lies_at, LieOnce, LieBelow, ArePut, AreCut};

use crate::map_is_spelled_by_a_block;

/// Where no logical block lies in two tiers, none does after some are put elsewhere, or fall off; and all stay below a number that they were below.
pub fn put_blocks_lie_once()
    ensures put { (first count place : ℕ) (tier : Tier) (old new : TierRuns) → ArePut first count tier place old new → LieOnce old → LieOnce new }
    ensures below { (first count place n : ℕ) (tier : Tier) (old new : TierRuns) → ArePut first count tier place old new → first + count ≤ n → LieBelow n old → LieBelow n new }
    ensures cut { (from : ℕ) (old new : TierRuns) → AreCut from old new → LieOnce old → LieOnce new }
    ensures short { (from : ℕ) (old new : TierRuns) → AreCut from old new → LieBelow from new }
{}

/// Where each logical block has a place of its own, so it has after some are put to places that none had, or fall off.
pub fn put_blocks_lie_apart()
    ensures put { (first count place : ℕ) (tier : Tier) (old new : TierRuns) → ArePut first count tier place old new → ((k p : ℕ) → lies_at old tier k ≡ Some p → in_run place count p ≡ false) → ((t : Tier) → IsOneToOne (runs_in old t)) → (t : Tier) → IsOneToOne (runs_in new t) }
    ensures cut { (from : ℕ) (old new : TierRuns) → AreCut from old new → ((t : Tier) → IsOneToOne (runs_in old t)) → (t : Tier) → IsOneToOne (runs_in new t) }
{}

/// Where what an inode has lies where its content may, so it does after some blocks are put to such places, or fall off.
pub fn put_blocks_lie_within()
    ensures put { (g : Sizes) (space : Space) (first count place : ℕ) (tier : Tier) (old new : TierRuns) → ArePut first count tier place old new → first + count ≤ blocks_in space → is_run g space place count ≡ true → LiesWithin g space (runs_in old tier) → LiesWithin g space (runs_in new tier) }
    ensures others { (g : Sizes) (space : Space) (first count place : ℕ) (tier t : Tier) (old new : TierRuns) → ArePut first count tier place old new → t ≢ tier → LiesWithin g space (runs_in old t) → LiesWithin g space (runs_in new t) }
    ensures cut { (g : Sizes) (space : Space) (from : ℕ) (t : Tier) (old new : TierRuns) → AreCut from old new → LiesWithin g space (runs_in old t) → LiesWithin g space (runs_in new t) }
{}

/// Runs in normal form of blocks below a number are no more than that many, and each ends by it.
pub fn few_blocks_are_few_runs()
    ensures few { (n : ℕ) (es : List Extent) → IsNormal es → ((k p : ℕ) → place_of es k ≡ Some p → k < n) → length es ≤ n }
    ensures end { (n : ℕ) (es : List Extent) → IsNormal es → ((k p : ℕ) → place_of es k ≡ Some p → k < n) → list_all (λ e. nat_le (end_of e) n) es ≡ true }
{}

/// The blocks that a node may have are few enough for one extent block, which spells where they lie.
pub fn whole_map_fits_a_block()
    ensures { (g : Sizes) (space : Space) (owner : ℕ) (runs : List Extent) → is_inode owner ≡ true → IsNormal runs → LiesWithin g space runs → IsOneToOne runs → fits_extents g space (record { owner = owner; level = 0; extents = runs }) ≡ true }
{
    map_is_spelled_by_a_block();
}
