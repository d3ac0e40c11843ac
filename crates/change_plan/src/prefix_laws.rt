//! What holds of the plans of the first inodes of a change, over what was taken so far.

ghost use Rattle.std.specs.Prelude.{◌≡◌, ◌≤◌, ◌<◌, ◌+◌, ℕ, List, [], Option, true, false, drop, length};
ghost use Rattle.std.specs.List.{Contains};
ghost use Rattle.std.specs.FinMap as fin;
ghost use Rattle.tier_device.specs.declared.media.Tier.{Tier};
ghost use Rattle.inode_plan.specs.graph_change.Change.{Changes, change_at, changed_graph};
ghost use Rattle.inode_plan.specs.graph_change.Tidy.{AreTidyChanges};
ghost use Rattle.inode_plan.specs.layout.declared.marks.Marks.{Marks};
ghost use Rattle.inode_plan.specs.layout.declared.slot.Slot.{Slot};
ghost use Rattle.inode_plan.specs.layout.Places.{Sizes, IsAllowed, is_inode};
ghost use Rattle.inode_plan.specs.extent_tree.Map.{TierRuns};
ghost use Rattle.inode_plan.specs.extent_tree.declared.map.Place.{Place};
ghost use Rattle.inode_plan.specs.area_reader.Store.{Store, graph, slot, place};
ghost use Rattle.inode_plan.specs.area_reader.Format.{IsSpelled};
ghost use Rattle.inode_plan.specs.area_commit.declared.slots.ChangedSlot.{ChangedSlot};
ghost use Rattle.inode_plan.specs.area_commit.Value.{PoolsView, data_pool};
ghost use Rattle.inode_plan.specs.area_commit.declared.allocation.Allocation.{Allocation};
ghost use Rattle.inode_plan.specs.area_commit.Allocations.{taken_data};
ghost use Rattle.inode_plan.specs.PlannedFile.{pairs_of};
ghost use Rattle.inode_plan.specs.area_commit.Plan.{IsPlan, is_changed, lost_in};
ghost use Rattle.inode_plan.specs.area_commit.PlanOutcome.{IsCarriedOut};
ghost use Rattle.inode_plan.specs.area_commit.Room.{AreReadyFor};
ghost use Rattle.change_plan.specs.FileLayout.{LeavesFile, AreFirstFree, GetPlaces, LieInPlaces, KeepsPlaces};
ghost use Rattle.change_plan.specs.Part.{IsTouchedBy};
ghost use Rattle.change_plan.specs.Parts.{AreParts, share_of};
ghost use Rattle.change_plan.specs.PlanAddition.{HasTaken, AddsPart};
ghost use Rattle.change_plan.specs.First.{PlansNothing, PlansFirst, IsWhole, whole_of};
ghost use Rattle.change_plan.specs.declared.partial_plan.PartialPlan.{PartialPlan};

use crate::laws::{
    carried_out_blocks_lie_in_their_places, carried_out_change_is_the_graph_after,
    parts_are_planned,
};
use crate::partial_plan::PartialPlan;
use inode_plan::in_area_commit::{Rewrite, taken_blocks_were_free};
use inode_plan::in_layout::Marks;

/// Before the first inode nothing is planned, over none of the places. What is planned of one inode more, behind them, stands with them: over the next of the places, and over the
/// blocks of the node pool that were taken for it. Where all places are used, it is planned over all that was taken.
pub fn added_part_stands_with_the_first()
    ensures none { (g : Sizes) (s : Store) (cs : Changes) (touch : ℕ) (places : List Place) (taken : Allocation) (plan : PartialPlan)
        → taken.nodes.items ≡ [] → PlansNothing plan → PlansFirst g s cs touch places 0 taken plan }
    ensures added { (g : Sizes) (s : Store) (cs : Changes) (touch i used count : ℕ) (places : List Place) (left : PoolsView) (old_taken new_taken : Allocation) (old new : PartialPlan)
        → IsSpelled g s → is_inode i ≡ true → ((c : ChangedSlot) → Contains old.slots.items c → c.inode < i) → HasTaken g s left new_taken → pairs_of places ≡ taken_data new_taken
        → PlansFirst g s cs touch places used old_taken old → AddsPart g s (change_at cs i) touch i (drop used places) count old_taken new_taken old new → PlansFirst g s cs touch places (used + count) new_taken new }
    ensures all { (g : Sizes) (s : Store) (cs : Changes) (touch used : ℕ) (places : List Place) (taken : Allocation) (plan : PartialPlan)
        → length places ≤ used → pairs_of places ≡ taken_data taken → PlansFirst g s cs touch places used taken plan → (x : ℕ → Slot) × (m : ℕ → TierRuns) × AreParts g s cs touch x m plan.slots.items (share_of taken) plan.bytes.items plan.nodes plan.lost }
{
    taken_blocks_were_free();
}

/// All that was planned over what was taken, with new marks where they change, as one plan.
pub fn whole_plan(plan: PartialPlan, marks: Option<Marks>) -> Rewrite
    ensures { result ≡ whole_of plan plan.taken marks }
{
    Rewrite {
        slots: plan.slots,
        marks,
        nodes: plan.nodes,
        taken: plan.taken,
        bytes: plan.bytes,
        lost: plan.lost,
    }
}

/// Where all inodes of a change are planned, over all that was taken, that is a plan which can be carried out, once the pools have room for what is given up; and then the store
/// spells the graph after the change, and each slot that was written tells the digest that wrote it.
pub fn whole_change_can_be_carried_out()
    ensures planned { (g : Sizes) (s : Store) (cs : Changes) (touch : ℕ) (plan : PartialPlan) (taken : Allocation) (marks : Option Marks) → IsWhole g s cs touch plan taken marks → IsPlan g s (whole_of plan taken marks) }
    ensures ready { (g : Sizes) (s : Store) (left : PoolsView) (plan : PartialPlan) (taken : Allocation) (marks : Option Marks)
        → HasTaken g s left taken → length plan.lost.nodes.items ≤ left.nodes.room → ((t : Tier) → length (lost_in plan.lost t) ≤ (data_pool left t).room) → AreReadyFor g s left (whole_of plan taken marks) }
    ensures spelled { (g : Sizes) (s : Store) (cs : Changes) (touch : ℕ) (plan : PartialPlan) (taken : Allocation) (marks : Option Marks) (new : Store)
        → IsAllowed g → IsSpelled g s → AreTidyChanges cs → IsWhole g s cs touch plan taken marks → IsCarriedOut g s (whole_of plan taken marks) new → IsSpelled g new }
    ensures graph { (g : Sizes) (s : Store) (cs : Changes) (touch : ℕ) (plan : PartialPlan) (taken : Allocation) (marks : Option Marks) (new : Store)
        → IsAllowed g → IsSpelled g s → AreTidyChanges cs → IsWhole g s cs touch plan taken marks → IsCarriedOut g s (whole_of plan taken marks) new → graph g new ≡ changed_graph cs (graph g s) }
    ensures touched { (g : Sizes) (s : Store) (cs : Changes) (touch i : ℕ) (plan : PartialPlan) (taken : Allocation) (marks : Option Marks) (new : Store)
        → IsAllowed g → IsSpelled g s → AreTidyChanges cs → IsWhole g s cs touch plan taken marks → IsCarriedOut g s (whole_of plan taken marks) new → is_changed plan.slots.items i ≡ true → IsTouchedBy touch (slot g new i) }
{
    taken_blocks_were_free();
    added_part_stands_with_the_first();
    parts_are_planned();
    carried_out_change_is_the_graph_after();
}

/// So it is with where blocks lie: those that the change writes in the data blocks that were taken, which are the first free ones where they were taken so; each other one of a file
/// that the change leaves where it lay, unless it is cut off; and all of the other inodes where they lay.
pub fn whole_change_lies_in_its_places()
    ensures got { (g : Sizes) (s : Store) (cs : Changes) (touch : ℕ) (plan : PartialPlan) (taken : Allocation) (marks : Option Marks) → IsWhole g s cs touch plan taken marks → AreFirstFree g s (taken_data taken) → (blocks : List (ℕ × ℕ)) × GetPlaces g s cs blocks (taken_data taken) }
    ensures written { (g : Sizes) (s : Store) (cs : Changes) (touch : ℕ) (plan : PartialPlan) (taken : Allocation) (marks : Option Marks) (new : Store)
        → IsAllowed g → IsSpelled g s → IsWhole g s cs touch plan taken marks → IsCarriedOut g s (whole_of plan taken marks) new → AreFirstFree g s (taken_data taken) → LieInPlaces g s cs new }
    ensures kept { (g : Sizes) (s : Store) (cs : Changes) (touch i : ℕ) (plan : PartialPlan) (taken : Allocation) (marks : Option Marks) (new : Store)
        → IsAllowed g → IsSpelled g s → IsWhole g s cs touch plan taken marks → IsCarriedOut g s (whole_of plan taken marks) new → fin.contains_key cs i ≡ true → LeavesFile g s (change_at cs i) i → KeepsPlaces g (change_at cs i) s new i }
    ensures others { (g : Sizes) (s : Store) (cs : Changes) (touch i : ℕ) (plan : PartialPlan) (taken : Allocation) (marks : Option Marks) (new : Store)
        → IsAllowed g → IsSpelled g s → AreTidyChanges cs → IsWhole g s cs touch plan taken marks → IsCarriedOut g s (whole_of plan taken marks) new → fin.contains_key cs i ≡ false → (t : Tier) (k : ℕ) → place g new i t k ≡ place g s i t k }
{
    taken_blocks_were_free();
    added_part_stands_with_the_first();
    parts_are_planned();
    carried_out_blocks_lie_in_their_places();
}
