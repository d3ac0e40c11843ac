//! What holds of the part of one inode: of a directory, and of a node that goes.

ghost use Rattle.std.specs.Prelude.{◌≡◌, ◌≤◌, ℕ, List, [], None, length, take};
ghost use Rattle.inode_plan.specs.graph_change.Bounds.{IsBounded};
ghost use Rattle.inode_plan.specs.graph_change.Change.{Change};
ghost use Rattle.inode_plan.specs.layout.declared.slot.Slot.TheVariants as slots;
ghost use Rattle.inode_plan.specs.layout.Places.{Sizes, IsAllowed};
ghost use Rattle.inode_plan.specs.tree_blocks.After.{start_node};
ghost use Rattle.inode_plan.specs.area_reader.Store.{Store, inode};
ghost use Rattle.inode_plan.specs.area_reader.Format.{IsSpelled};
ghost use Rattle.inode_plan.specs.area_commit.Batches.{AreNodes};
ghost use Rattle.inode_plan.specs.area_commit.Value.{PoolsView};
ghost use Rattle.inode_plan.specs.area_commit.declared.allocation.Allocation.{Allocation};
ghost use Rattle.inode_plan.specs.area_commit.declared.plan.FreedBlocks.{FreedBlocks};
ghost use Rattle.inode_plan.specs.PlannedDirectory.{IsPlannedFrom, on_fast};
ghost use Rattle.inode_plan.specs.Spare.{spares_for};
ghost use Rattle.inode_plan.specs.DirectoryStart.{IsStarted, IsSoundStart, IsChanged};
ghost use Rattle.inode_plan.specs.declared.directory_start.StartedDirectory.{StartedDirectory};
ghost use Rattle.inode_plan.specs.declared.directory_change.ChangedDirectory.{ChangedDirectory};
ghost use Rattle.inode_plan.specs.declared.plan.DirectoryPlan.{DirectoryPlan};
ghost use Rattle.change_plan.specs.Part.{IsPart};
ghost use Rattle.change_plan.specs.PlanAddition.{GivesAll, HasTaken, no_runs};
ghost use Rattle.change_plan.specs.Directory.{of_nodes, WereFreeNodes, LosesFor, AreOfOthers, IsReadyToWrite};

use inode_plan::in_area_commit::runs_lie_apart;
use inode_plan::{
    changed_directory_can_be_written, planned_blocks_are_kept_or_spare,
    planned_directory_is_written, planned_losses_are_exact,
};

/// An inode of which no node is left, if there was one, has a free slot; it gives up all that it had, and takes nothing.
pub fn gone_inode_is_a_part()
    ensures { (g : Sizes) (s : Store) (c : Change) (touch i : ℕ) (images : List (ℕ × List ℕ)) (lost : FreedBlocks) → (start_node c.base (inode g s i)).kind ≡ None → GivesAll g s i lost → IsPart g s c touch i slots.Free no_runs (of_nodes []) [] images images lost }
{}

/// What is planned of a directory, over spare blocks that were free, is the part of its inode.
pub fn planned_directory_is_a_part()
    ensures { (g : Sizes) (s : Store) (c : Change) (i touch : ℕ) (start : StartedDirectory) (x : ChangedDirectory) (spares : List ℕ) (old new : List (ℕ × List ℕ)) (plan : DirectoryPlan) (lost : FreedBlocks)
        → IsPlannedFrom g s c i start x touch spares old new plan → (AreNodes g old → AreNodes g new) → WereFreeNodes g s spares → LosesFor c.base g s i plan.lost.items lost
        → IsPart g s c touch i plan.slot (on_fast plan.list.extents) (of_nodes spares) [] old new lost }
{
    planned_directory_is_written();
    planned_blocks_are_kept_or_spare();
    planned_losses_are_exact();
    runs_lie_apart();
}

/// Free blocks of the node pool, as many as a changed directory wants and the lowest, are spare blocks for it, where each image so far is for a block of another inode, or for one that was
/// taken before.
pub fn free_blocks_are_spare()
    ensures { (g : Sizes) (s : Store) (c : Change) (i : ℕ) (start : StartedDirectory) (x : ChangedDirectory) (left : PoolsView) (taken : Allocation) (images : List (ℕ × List ℕ))
        → IsAllowed g → IsSpelled g s → IsBounded c → HasTaken g s left taken → AreOfOthers g s i taken images → IsStarted g s c.base i start → IsSoundStart g start → IsChanged c start x
        → spares_for x ≤ length left.nodes.free → IsReadyToWrite g s c i start x (take (spares_for x) left.nodes.free) images }
{
    changed_directory_can_be_written();
}
