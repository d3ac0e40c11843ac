// What a change makes of a directory, as the part of its inode.
ghost use Rattle.std.specs.Prelude.{◌≡◌, ◌⊎◌, ◌≤◌, ◌+◌, ◌++◌, ◌∷◌, [], List, Some, true, false, length, IfOk, IfErr, OnOk};
ghost use Rattle.inode_plan.specs.file_graph.declared.effect.Kind.TheVariants as kind;
ghost use Rattle.inode_plan.specs.graph_change.Net.{Kept};
ghost use Rattle.inode_plan.specs.graph_change.View.{base_of, change_of};
ghost use Rattle.inode_plan.specs.layout.Places.{is_inode};
ghost use Rattle.inode_plan.specs.layout.Slot.{fits_slot};
ghost use Rattle.block_alloc.specs.Runs.{blocks_of};
ghost use Rattle.inode_plan.specs.extent_tree.declared.map.Place.{Place};
ghost use Rattle.inode_plan.specs.tree_blocks.After.{start_node};
ghost use Rattle.inode_plan.specs.area_reader.Store.{disk, slot_read, inode as inode_in};
ghost use Rattle.inode_plan.specs.area_reader.Format.{IsSpelled};
ghost use Rattle.inode_plan.specs.area_reader.Looks.{Looks};
ghost use Rattle.inode_plan.specs.area_reader.declared.error.AreaError.TheVariants.{DeviceFault, Memory};
ghost use Rattle.inode_plan.specs.area_commit.declared.allocation.Allocation.{Allocation};
ghost use Rattle.inode_plan.specs.DirectoryStart.{IsStarted, IsSoundStart};
ghost use Rattle.change_plan.specs.Parts.{LoseBoth};
ghost use Rattle.change_plan.specs.PlanAddition.{AddsPart};
ghost use Rattle.change_plan.specs.Directory.{LosesFor, AddsLosses, IsReadyToWrite};

use crate::changed_inode::ChangedInode;
use crate::inode_drop::{all_blocks_of, push_lost, push_slot};
use crate::part_laws::planned_directory_is_a_part;
use crate::partial_plan::PartialPlan;
use block_alloc::Run;
use inode_plan::in_area_commit::FreedBlocks;
use inode_plan::in_area_reader::{AreaError, InodeParts, read_all_extents};
use inode_plan::in_batch_journal::Journal;
use inode_plan::in_graph_change::NodeBase;
use inode_plan::in_layout::Slot;
use inode_plan::{
    ChangedDirectory, DirectoryPlan, StartedDirectory, made_directory, plan_directory,
    read_directory,
};
use std::alloc::{AllocError, Global};
use tier_device::Media;

// The directory that an inode is, with its extents read.
fn read_kept<M: Media>(
    alloc: Global,
    journal: &mut Journal<M>,
    inode: u32,
    slot: Slot,
) -> Result<StartedDirectory, AreaError>
    requires spelled { IsSpelled journal.old.geometry (disk M.Media journal.old) }
    requires number { is_inode inode ≡ true }
    requires fits { fits_slot journal.old.geometry slot ≡ true }
    requires slot_is { slot_read journal.old.geometry (disk M.Media journal.old) inode ≡ Some slot }
    requires is_directory { (inode_in journal.old.geometry (disk M.Media journal.old) inode).kind ≡ Some kind.Directory }
    ensures started { IfOk result (IsStarted journal.old.geometry (disk M.Media journal.old) Kept inode) }
    ensures sound { IfOk result (IsSoundStart journal.old.geometry) }
    ensures only { IfErr result (λ e. (e ≡ DeviceFault) ⊎ (e ≡ Memory)) }
    ensures looks { Looks M.Media journal.old journal.new result }
{
    let extents = read_all_extents(alloc, journal, inode, &slot)?;
    let parts = InodeParts { slot, extents };
    read_directory(alloc, journal, inode, &parts)
}

/// The directory that a change of an inode starts from: the one that is there, as its slot and its blocks tell, or an empty one, where it is made.
pub fn start_directory<M: Media>(
    alloc: Global,
    journal: &mut Journal<M>,
    inode: u32,
    slot: Slot,
    base: NodeBase,
) -> Result<StartedDirectory, AreaError>
    requires spelled { IsSpelled journal.old.geometry (disk M.Media journal.old) }
    requires number { is_inode inode ≡ true }
    requires fits { fits_slot journal.old.geometry slot ≡ true }
    requires slot_is { slot_read journal.old.geometry (disk M.Media journal.old) inode ≡ Some slot }
    requires is_directory { (start_node (base_of base) (inode_in journal.old.geometry (disk M.Media journal.old) inode)).kind ≡ Some kind.Directory }
    requires going { journal.old.failed ≡ false }
    ensures started { IfOk result (IsStarted journal.old.geometry (disk M.Media journal.old) (base_of base) inode) }
    ensures sound { IfOk result (IsSoundStart journal.old.geometry) }
    ensures only { IfErr result (λ e. (e ≡ DeviceFault) ⊎ (e ≡ Memory)) }
    ensures looks { Looks M.Media journal.old journal.new result }
{
    match base {
        NodeBase::Kept => read_kept(alloc, journal, inode, slot),
        NodeBase::Made { .. } => Ok(made_directory(alloc, inode)),
        NodeBase::Gone => unreachable!(),
    }
}

// What a directory has no use for any more: where it stays, the runs that are planned; where it is made, all that stood there.
fn lost_for<M: Media>(
    alloc: Global,
    journal: &mut Journal<M>,
    changed: &ChangedInode<'_>,
    planned: Vec<Run>,
) -> Result<FreedBlocks, AreaError>
    requires spelled { IsSpelled journal.old.geometry (disk M.Media journal.old) }
    requires number { is_inode changed.now.inode ≡ true }
    requires fits { fits_slot journal.old.geometry changed.now.slot ≡ true }
    requires slot_is { slot_read journal.old.geometry (disk M.Media journal.old) changed.now.inode ≡ Some changed.now.slot }
    requires going { journal.old.failed ≡ false }
    ensures lost { IfOk result (LosesFor (base_of changed.now.change.now.base) journal.old.geometry (disk M.Media journal.old) changed.now.inode planned.items) }
    ensures only { IfErr result (λ e. (e ≡ DeviceFault) ⊎ (e ≡ Memory)) }
    ensures looks { Looks M.Media journal.old journal.new result }
{
    match changed.change.base {
        NodeBase::Kept => Ok(FreedBlocks {
            nodes: planned,
            fast: Vec::new(alloc),
            block: Vec::new(alloc),
            slow: Vec::new(alloc),
        }),
        NodeBase::Made { .. } => all_blocks_of(alloc, journal, changed.inode, &changed.slot),
        NodeBase::Gone => all_blocks_of(alloc, journal, changed.inode, &changed.slot),
    }
}

/// Puts a slot, and what is given up for it, behind the others of a plan.
pub fn push_part(
    plan: &mut PartialPlan,
    inode: u32,
    slot: Slot,
    its: &FreedBlocks,
) -> Result<(), AllocError>
    ensures slots { OnOk result (plan.new.slots.items ≡ plan.old.slots.items ++ (record { inode = inode; slot = slot } ∷ [])) }
    ensures lost { OnOk result (LoseBoth plan.old.lost its.now plan.new.lost) }
    ensures images { plan.new.nodes ≡ plan.old.nodes }
    ensures bytes { plan.new.bytes ≡ plan.old.bytes }
    ensures taken { plan.new.taken ≡ plan.old.taken }
{
    push_lost(&mut plan.lost, its)?;
    push_slot(&mut plan.slots, inode, slot)
}

// Puts what is planned of a directory behind the rest of a plan: its slot, and what it gives up.
fn push_planned<M: Media>(
    alloc: Global,
    journal: &mut Journal<M>,
    changed: &ChangedInode<'_>,
    planned: DirectoryPlan,
    plan: &mut PartialPlan,
) -> Result<(), AreaError>
    requires spelled { IsSpelled journal.old.geometry (disk M.Media journal.old) }
    requires number { is_inode changed.now.inode ≡ true }
    requires fits { fits_slot journal.old.geometry changed.now.slot ≡ true }
    requires slot_is { slot_read journal.old.geometry (disk M.Media journal.old) changed.now.inode ≡ Some changed.now.slot }
    requires going { journal.old.failed ≡ false }
    ensures adds { OnOk result (AddsLosses journal.old.geometry (disk M.Media journal.old) (base_of changed.now.change.now.base) changed.now.inode planned plan.old plan.new) }
    ensures taken { plan.new.taken ≡ plan.old.taken }
    ensures only { IfErr result (λ e. (e ≡ DeviceFault) ⊎ (e ≡ Memory)) }
    ensures looks { Looks M.Media journal.old journal.new result }
{
    let after = planned.slot;
    let its = lost_for(alloc, journal, changed, planned.lost)?;
    push_part(plan, changed.inode, after, &its)?;
    Ok(())
}

/// Plans a directory that is changed in memory, over spare blocks that were free: its slot, its images, and what it gives up stand behind those of the plan. `Memory` where there was none;
/// `DeviceFault` where a device fails. After a refusal nothing is said of the plan but what was taken for it, which stays as it is.
pub fn plan_over_spares<M: Media>(
    alloc: Global,
    journal: &mut Journal<M>,
    changed: &ChangedInode<'_>,
    directory: &ChangedDirectory,
    spares: &[u32],
    plan: &mut PartialPlan,
) -> Result<(), AreaError>
    requires spelled { IsSpelled journal.old.geometry (disk M.Media journal.old) }
    requires number { is_inode changed.now.inode ≡ true }
    requires fits { fits_slot journal.old.geometry changed.now.slot ≡ true }
    requires slot_is { slot_read journal.old.geometry (disk M.Media journal.old) changed.now.inode ≡ Some changed.now.slot }
    requires going { journal.old.failed ≡ false }
    requires ready { (start : StartedDirectory) × IsReadyToWrite journal.old.geometry (disk M.Media journal.old) (change_of changed.now.change.now) changed.now.inode start directory.now spares.now plan.old.nodes }
    ensures part { OnOk result ((places : List Place) (before after : Allocation) → blocks_of after.nodes.items ≡ blocks_of before.nodes.items ++ spares.now → AddsPart journal.old.geometry (disk M.Media journal.old) (change_of changed.now.change.now) changed.now.touch changed.now.inode places 0 before after plan.old plan.new) }
    ensures few { OnOk result (length plan.new.nodes ≤ length plan.old.nodes + length directory.now.written + 1) }
    ensures taken { plan.new.taken ≡ plan.old.taken }
    ensures only { IfErr result (λ e. (e ≡ DeviceFault) ⊎ (e ≡ Memory)) }
    ensures looks { Looks M.Media journal.old journal.new result }
{
    // For the proof: a planned directory is a part of the change.
    planned_directory_is_a_part();
    let planned = plan_directory(alloc, directory, changed.touch, spares, &mut plan.nodes)?;
    push_planned(alloc, journal, changed, planned, plan)?;
    Ok(())
}
