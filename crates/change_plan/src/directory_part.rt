// A directory of a change, from what it was to its part of the plan.
ghost use Rattle.std.specs.Prelude.{◌≡◌, ◌⊎◌, List, Some, true, false, IfOk, IfErr, OnOk};
ghost use Rattle.inode_plan.specs.file_graph.declared.effect.Kind.TheVariants as kind;
ghost use Rattle.inode_plan.specs.graph_change.Bounds.{IsBounded};
ghost use Rattle.inode_plan.specs.graph_change.Change.{net_of};
ghost use Rattle.inode_plan.specs.graph_change.Net.{node_after};
ghost use Rattle.inode_plan.specs.graph_change.View.{change_of};
ghost use Rattle.inode_plan.specs.layout.Places.{is_inode};
ghost use Rattle.inode_plan.specs.layout.Slot.{fits_slot};
ghost use Rattle.inode_plan.specs.extent_tree.declared.map.Place.{Place};
ghost use Rattle.inode_plan.specs.tree_blocks.After.{start_node};
ghost use Rattle.inode_plan.specs.area_reader.Store.{disk, slot_read, graph, inode as inode_in};
ghost use Rattle.inode_plan.specs.area_reader.Format.{IsSpelled};
ghost use Rattle.inode_plan.specs.area_reader.Looks.{Looks};
ghost use Rattle.inode_plan.specs.area_reader.declared.error.AreaError.TheVariants.{DeviceFault, Memory};
ghost use Rattle.change_plan.specs.PlanAddition.{TakesMoreNodes};
ghost use Rattle.change_plan.specs.DirectoryChange.{IsChangedFrom};
ghost use Rattle.change_plan.specs.Next.{IsNext, HasFewEntries, PlansInode};

use crate::changed_inode::ChangedInode;
use crate::directories::{plan_over_spares, start_directory};
use crate::part_laws::free_blocks_are_spare;
use crate::partial_plan::PartialPlan;
use crate::spares::take_spares;
use inode_plan::in_area_commit::Pools;
use inode_plan::in_area_reader::AreaError;
use inode_plan::in_batch_journal::Journal;
use inode_plan::in_tree_blocks::bounded_entries_lead_to_inodes;
use inode_plan::{ChangedDirectory, change_directory, spares_for};
use std::alloc::Global;
use tier_device::Media;

// Reads what a directory was, or makes it, and changes it in memory.
fn directory_change<M: Media>(
    alloc: Global,
    journal: &mut Journal<M>,
    changed: &ChangedInode<'_>,
) -> Result<ChangedDirectory, AreaError>
    requires going { journal.old.failed ≡ false }
    requires spelled { IsSpelled journal.old.geometry (disk M.Media journal.old) }
    requires number { is_inode changed.now.inode ≡ true }
    requires fits { fits_slot journal.old.geometry changed.now.slot ≡ true }
    requires slot_is { slot_read journal.old.geometry (disk M.Media journal.old) changed.now.inode ≡ Some changed.now.slot }
    requires bounded { IsBounded (change_of changed.now.change.now) }
    requires entries { HasFewEntries (node_after (net_of (change_of changed.now.change.now)) (graph journal.old.geometry (disk M.Media journal.old) changed.now.inode)) }
    requires is_directory { (start_node (change_of changed.now.change.now).base (inode_in journal.old.geometry (disk M.Media journal.old) changed.now.inode)).kind ≡ Some kind.Directory }
    ensures changed { IfOk result (IsChangedFrom journal.old.geometry (disk M.Media journal.old) (change_of changed.now.change.now) changed.now.inode) }
    ensures only { IfErr result (λ e. (e ≡ DeviceFault) ⊎ (e ≡ Memory)) }
    ensures looks { Looks M.Media journal.old journal.new result }
{
    // For the proof: each entry of a bounded change leads to an inode.
    bounded_entries_lead_to_inodes();
    let start = start_directory(
        alloc,
        journal,
        changed.inode,
        changed.slot,
        changed.change.base,
    )?;
    let directory = change_directory(start, changed.change)?;
    Ok(directory)
}

// Takes as many blocks of the node pool as a changed directory wants, and plans it over them. After a refusal nothing is said of the plan but what was taken for it.
fn plan_changed<M: Media>(
    alloc: Global,
    journal: &mut Journal<M>,
    pools: &mut Pools,
    changed: &ChangedInode<'_>,
    directory: &ChangedDirectory,
    plan: &mut PartialPlan,
) -> Result<(), AreaError>
    requires going { journal.old.failed ≡ false }
    requires next { IsNext journal.old.geometry (disk M.Media journal.old) changed.now.inode changed.now.slot (change_of changed.now.change.now) pools.old plan.old.taken plan.old.nodes }
    requires changed { IsChangedFrom journal.old.geometry (disk M.Media journal.old) (change_of changed.now.change.now) changed.now.inode directory.now }
    ensures planned { OnOk result ((places : List Place) → PlansInode journal.old.geometry (disk M.Media journal.old) (change_of changed.now.change.now) changed.now.touch changed.now.inode places 0 pools.old plan.old.taken pools.new plan.new.taken plan.old plan.new) }
    ensures took { TakesMoreNodes pools.old plan.old.taken pools.new plan.new.taken }
    ensures only { IfErr result (λ e. (e ≡ DeviceFault) ⊎ (e ≡ Memory)) }
    ensures looks { Looks M.Media journal.old journal.new result }
{
    // For the proof: the first free blocks of the node pool are spare ones for the directory.
    free_blocks_are_spare();
    let count = spares_for(directory);
    let spares = take_spares(alloc, pools, &mut plan.taken, count)?;
    plan_over_spares(alloc, journal, changed, directory, &spares, plan)?;
    Ok(())
}

/// Plans a directory: reads what it was, changes it in memory, takes as many blocks of the node pool as it wants then, and puts its slot, its images and what it gives up behind those of
/// the plan. `Memory` where there was none; `DeviceFault` where a device fails. After a refusal nothing is said of the plan but what was taken for it.
pub fn plan_directory_part<M: Media>(
    alloc: Global,
    journal: &mut Journal<M>,
    pools: &mut Pools,
    changed: &ChangedInode<'_>,
    plan: &mut PartialPlan,
) -> Result<(), AreaError>
    requires going { journal.old.failed ≡ false }
    requires next { IsNext journal.old.geometry (disk M.Media journal.old) changed.now.inode changed.now.slot (change_of changed.now.change.now) pools.old plan.old.taken plan.old.nodes }
    requires directory { (start_node (change_of changed.now.change.now).base (inode_in journal.old.geometry (disk M.Media journal.old) changed.now.inode)).kind ≡ Some kind.Directory }
    ensures planned { OnOk result ((places : List Place) → PlansInode journal.old.geometry (disk M.Media journal.old) (change_of changed.now.change.now) changed.now.touch changed.now.inode places 0 pools.old plan.old.taken pools.new plan.new.taken plan.old plan.new) }
    ensures took { TakesMoreNodes pools.old plan.old.taken pools.new plan.new.taken }
    ensures only { IfErr result (λ e. (e ≡ DeviceFault) ⊎ (e ≡ Memory)) }
    ensures looks { Looks M.Media journal.old journal.new result }
{
    let directory = directory_change(alloc, journal, changed)?;
    plan_changed(alloc, journal, pools, changed, &directory, plan)?;
    Ok(())
}
