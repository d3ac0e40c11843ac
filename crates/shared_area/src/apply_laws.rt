//! What holds of a whole change that is carried out.

ghost use Rattle.std.specs.Prelude.{ℕ, Option, Some};
ghost use Rattle.std.specs.FinMap as fin;
ghost use Rattle.area_reader.specs.graph_change.Change.{Changes};
ghost use Rattle.area_reader.specs.layout.declared.marks.Marks.{Marks};
ghost use Rattle.area_reader.specs.layout.Places.{Sizes, IsAllowed};
ghost use Rattle.area_reader.specs.Store.{Store};
ghost use Rattle.area_reader.specs.Format.{IsSpelled};
ghost use Rattle.change_plan.specs.area_commit.declared.allocation.Allocation.{Allocation};
ghost use Rattle.change_plan.specs.area_commit.Allocations.{taken_data};
ghost use Rattle.change_plan.specs.FileLayout.{AreFirstFree};
ghost use Rattle.change_plan.specs.area_commit.PlanOutcome.{IsCarriedOut};
ghost use Rattle.change_plan.specs.First.{IsWhole, whole_of};
ghost use Rattle.change_plan.specs.ReadSlots.{HaveSlots};
ghost use Rattle.shared_area.specs.ChangeApply.{CanApply, IsAppliedStore};
ghost use Rattle.change_plan.specs.declared.partial_plan.PartialPlan.{PartialPlan};

use area_reader::in_layout::slot_is_read;
use change_plan::in_area_commit::carried_out_marks;
use change_plan::{whole_change_can_be_carried_out, whole_change_lies_in_its_places};

/// Where the whole plan of a change is carried out, over the first data blocks that are free, with new marks, the change is made.
pub fn carried_out_change_is_made()
    ensures { (g : Sizes) (s : Store) (cs : Changes) (plan : PartialPlan) (taken : Allocation) (v : Marks) (new : Store)
        → IsAllowed g → IsSpelled g s → CanApply g s cs v → IsWhole g s cs v.digests plan taken (Some v) → AreFirstFree g s (taken_data taken) → IsCarriedOut g s (whole_of plan taken (Some v)) new → IsAppliedStore g s cs v new }
{
    whole_change_can_be_carried_out();
    whole_change_lies_in_its_places();
    carried_out_marks();
}

/// Then the inodes of the change have the slots of the plan, so that none of them is read to know what they cost.
pub fn carried_out_change_has_its_slots()
    ensures { (g : Sizes) (s : Store) (cs : Changes) (touch : ℕ) (plan : PartialPlan) (taken : Allocation) (marks : Option Marks) (new : Store)
        → IsAllowed g → IsWhole g s cs touch plan taken marks → IsCarriedOut g s (whole_of plan taken marks) new → HaveSlots g new (fin.keys cs) plan.slots.items }
{
    slot_is_read();
}
