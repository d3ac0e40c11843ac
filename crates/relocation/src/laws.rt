//! What holds of a planned move.

ghost use Rattle.std.specs.Prelude.{◌≡◌, ℕ};
ghost use Rattle.tier_device.specs.declared.media.Tier.{Tier};
ghost use Rattle.inode_plan.specs.layout.declared.slot.Slot.{Slot};
ghost use Rattle.inode_plan.specs.layout.Places.{Sizes, IsAllowed};
ghost use Rattle.inode_plan.specs.extent_tree.Map.{TierRuns};
ghost use Rattle.inode_plan.specs.area_reader.Store.{Store};
ghost use Rattle.inode_plan.specs.area_reader.Format.{IsOpenable};
ghost use Rattle.relocation.specs.declared.run_search.MovableRun.{MovableRun};
ghost use Rattle.inode_plan.specs.area_commit.declared.plan.Rewrite.{Rewrite};
ghost use Rattle.inode_plan.specs.area_commit.Plan.{IsPlanned};
ghost use Rattle.inode_plan.specs.area_commit.PlanOutcome.{IsCarriedOut};
ghost use Rattle.relocation.specs.MovedFile.{IsMovePlan};
ghost use Rattle.relocation.specs.RunMove.{IsMovedStore};

use inode_plan::in_area_commit::{
    carried_out_inodes_are_written_anew, carried_out_marks, moved_store_spells_the_same_graph,
    written_inode_is_read,
};
use inode_plan::in_area_reader::rewritten_inodes_are_spelled;

/// What is made of a run that may be moved, of the blocks that were taken for it and of its bytes, is a plan that can be carried out.
pub fn move_is_planned()
    ensures { (g : Sizes) (s : Store) (i : ℕ) (to : Tier) (f : MovableRun) (x : Slot) (m : TierRuns) (plan : Rewrite) → IsMovePlan g s i to f x m plan → IsPlanned g s (λ _. x) (λ _. m) plan }
{}

/// Where such a plan is carried out, the run lies in the tier, and the store spells the same graph and marks.
pub fn carried_out_move_moves()
    ensures { (g : Sizes) (s : Store) (i : ℕ) (to : Tier) (f : MovableRun) (x : Slot) (m : TierRuns) (plan : Rewrite) (new : Store) → IsAllowed g → IsOpenable g s → IsMovePlan g s i to f x m plan → IsCarriedOut g s plan new → IsMovedStore g s i f.run.first f.run.count to new }
{
    carried_out_inodes_are_written_anew();
    carried_out_marks();
    moved_store_spells_the_same_graph();
    written_inode_is_read();
    rewritten_inodes_are_spelled();
}
