//! What holds of plans, of the stores in which they are carried out, and of the pools.

ghost use Rattle.std.specs.Prelude.{◌≡◌, ◌↔◌, ◌⊎◌, ◌++◌, ℕ, List, Some, None, true};
ghost use Rattle.std.specs.List.{Contains};
ghost use Rattle.tier_device.specs.declared.media.Tier.{Tier};
ghost use Rattle.area_reader.specs.layout.declared.marks.Marks.{Marks};
ghost use Rattle.area_reader.specs.layout.declared.slot.Slot.{Slot};
ghost use Rattle.area_reader.specs.layout.Marks.{fits_marks};
ghost use Rattle.area_reader.specs.layout.Places.{Sizes, IsAllowed};
ghost use Rattle.block_alloc.specs.declared.runs.Run.{Run};
ghost use Rattle.block_alloc.specs.Runs.{blocks_of};
ghost use Rattle.block_alloc.specs.Value.{FreeBlocks};
ghost use Rattle.area_reader.specs.extent_tree.Map.{TierRuns};
ghost use Rattle.area_reader.specs.Store.{Store, store_of, graph, marks};
ghost use Rattle.area_reader.specs.Reads.{Loose};
ghost use Rattle.area_reader.specs.Format.{IsSpelled, IsOpenable};
ghost use Rattle.area_commit.specs.StoreRewrite.{AreWrittenAnew};
ghost use Rattle.area_commit.specs.Batches.{IsPutIn};
ghost use Rattle.area_commit.specs.Value.{PoolsView, data_pool, HasRanges, AreFree};
ghost use Rattle.area_commit.specs.declared.allocation.Allocation.{Allocation};
ghost use Rattle.area_commit.specs.Allocations.{taken_data, WereTaken, WasReleased, SameFree};
ghost use Rattle.area_commit.specs.DataWrite.{HoldData};
ghost use Rattle.area_commit.specs.BlockExchange.{Exchanges, BlockIsGivenUp, BlockIsTaken};
ghost use Rattle.area_commit.specs.Release.{AreUsed, WereAdded};
ghost use Rattle.area_commit.specs.declared.plan.Rewrite.{Rewrite};
ghost use Rattle.area_commit.specs.Plan.{WereFree, LieApart, IsLost, lost_in, is_rewritten, IsPlanned};
ghost use Rattle.area_commit.specs.PlanOutcome.{IsCarriedOut, IsBeforeOrAfter};
ghost use Rattle.area_commit.specs.Room.{AreReadyFor};

use crate::{pools_after_change, written_inode_is_read};
use area_reader::free_blocks_are_not_read;
use area_reader::in_layout::marks_are_read;

/// What was taken of pools that have exactly the free blocks was free.
pub fn taken_blocks_were_free()
    ensures { (g : Sizes) (s : Store) (before left : PoolsView) (taken : Allocation) → HasRanges g before → AreFree g s before → WereTaken before left taken → WereFree g s taken }
{}

/// A batch of a plan's slots, marks and images, put into a store that has its data, and differs from the one before in free blocks alone, carries out the plan.
pub fn batch_carries_out_the_plan()
    ensures { (g : Sizes) (s : Store) (x : ℕ → Slot) (m : ℕ → TierRuns) (plan : Rewrite) (mid new : Store)
        → IsPlanned g s x m plan → Loose g s mid → HoldData mid (taken_data plan.taken) plan.bytes.items → IsPutIn plan.slots.items plan.marks plan.nodes mid new → IsCarriedOut g s plan new }
{}

/// Where a plan is carried out, its inodes are written anew, in blocks of their own and blocks that were free.
pub fn carried_out_inodes_are_written_anew()
    ensures { (g : Sizes) (s : Store) (x : ℕ → Slot) (m : ℕ → TierRuns) (plan : Rewrite) (new : Store) → IsSpelled g s → IsPlanned g s x m plan → IsCarriedOut g s plan new → AreWrittenAnew g (is_rewritten plan) x m s new }
{
    marks_are_read();
}

/// The marks are those of the plan then, or the old ones where it has none.
pub fn carried_out_marks()
    ensures put { (g : Sizes) (s : Store) (plan : Rewrite) (new : Store) (v : Marks) → IsCarriedOut g s plan new → plan.marks ≡ Some v → fits_marks v ≡ true → marks new ≡ Some v }
    ensures kept { (g : Sizes) (s : Store) (plan : Rewrite) (new : Store) → IsCarriedOut g s plan new → plan.marks ≡ None → marks new ≡ marks s }
{
    marks_are_read();
}

/// The inodes of a plan that is carried out keep blocks, get all that were taken and no other, and give up exactly those that are lost.
pub fn carried_out_blocks_are_exchanged()
    ensures exchanged { (g : Sizes) (s : Store) (x : ℕ → Slot) (m : ℕ → TierRuns) (plan : Rewrite) (new : Store) → IsAllowed g → IsSpelled g s → IsPlanned g s x m plan → IsCarriedOut g s plan new → Exchanges g (is_rewritten plan) s new (BlockIsTaken plan.taken) }
    ensures lost { (g : Sizes) (s : Store) (x : ℕ → Slot) (m : ℕ → TierRuns) (plan : Rewrite) (new : Store) (t : Tier) (k : ℕ) → IsAllowed g → IsSpelled g s → IsPlanned g s x m plan → IsCarriedOut g s plan new → IsLost g (is_rewritten plan) s x m t k ↔ BlockIsGivenUp g (is_rewritten plan) s new t k }
{
    marks_are_read();
    written_inode_is_read();
}

/// Runs that can be given to a pool lie apart; and so do runs of two lists that do, if no block is of both.
pub fn runs_lie_apart()
    ensures used { (p : FreeBlocks) (runs : List Run) → AreUsed p runs → LieApart runs }
    ensures joined { (xs ys : List Run) → LieApart xs → LieApart ys → ((k : ℕ) → Contains (blocks_of xs) k → Contains (blocks_of ys) k → ⊥) → LieApart (xs ++ ys) }
{}

/// The runs that a plan gives up can be given to the pools: none of their blocks is free, or in two of them.
pub fn freed_blocks_return()
    ensures nodes { (g : Sizes) (s : Store) (x : ℕ → Slot) (m : ℕ → TierRuns) (plan : Rewrite) (left : PoolsView) → IsPlanned g s x m plan → AreReadyFor g s left plan → AreUsed left.nodes plan.lost.nodes.items }
    ensures per_tier { (g : Sizes) (s : Store) (x : ℕ → Slot) (m : ℕ → TierRuns) (plan : Rewrite) (left : PoolsView) (t : Tier) → IsPlanned g s x m plan → AreReadyFor g s left plan → AreUsed (data_pool left t) (lost_in plan.lost t) }
{}

/// Once they are given, the pools have exactly the free blocks of the store in which the plan is carried out.
pub fn pools_have_the_free_blocks()
    ensures free { (g : Sizes) (s : Store) (x : ℕ → Slot) (m : ℕ → TierRuns) (plan : Rewrite) (new : Store) (left after : PoolsView)
        → IsAllowed g → IsSpelled g s → IsPlanned g s x m plan → IsCarriedOut g s plan new → AreReadyFor g s left plan → WereAdded left.nodes after.nodes (blocks_of plan.lost.nodes.items)
        → ((t : Tier) → WereAdded (data_pool left t) (data_pool after t) (blocks_of (lost_in plan.lost t))) → AreFree g new after }
    ensures ranges { (g : Sizes) (s : Store) (plan : Rewrite) (left after : PoolsView) → AreReadyFor g s left plan → WereAdded left.nodes after.nodes (blocks_of plan.lost.nodes.items)
        → ((t : Tier) → WereAdded (data_pool left t) (data_pool after t) (blocks_of (lost_in plan.lost t))) → HasRanges g after }
{
    carried_out_blocks_are_exchanged();
    pools_after_change();
}

/// Where a plan is given up, the pools are as they were before the take.
pub fn released_pools_are_as_before()
    ensures same { (before left after : PoolsView) (taken : Allocation) → WereTaken before left taken → WasReleased left after taken → SameFree before after }
    ensures free { (g : Sizes) (s : Store) (plan : Rewrite) (left after : PoolsView) → AreReadyFor g s left plan → WasReleased left after plan.taken → AreFree g s after }
    ensures ranges { (g : Sizes) (s : Store) (plan : Rewrite) (left after : PoolsView) → AreReadyFor g s left plan → WasReleased left after plan.taken → HasRanges g after }
{}

/// What a stop leaves opens, where each store opens in which the plan is carried out: with the graph and the marks from before, or as such a store.
pub fn moments_open()
    ensures opens { (g : Sizes) (s : Store) (plan : Rewrite) (content : Tier → List ℕ) → IsOpenable g s → ((new : Store) → IsCarriedOut g s plan new → IsOpenable g new) → IsBeforeOrAfter g s plan content → IsOpenable g (store_of content) }
    ensures same { (g : Sizes) (s : Store) (plan : Rewrite) (content : Tier → List ℕ) → IsBeforeOrAfter g s plan content → ((graph g (store_of content) ≡ graph g s) × (marks (store_of content) ≡ marks s)) ⊎ IsCarriedOut g s plan (store_of content) }
{
    free_blocks_are_not_read();
}
