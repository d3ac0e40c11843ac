// What is given up where the node of an inode goes.
ghost use Rattle.std.specs.Prelude.{◌≡◌, ◌≤◌, ◌⊎◌, ◌++◌, ◌∷◌, [], ℕ, List, Some, None, true, false, IfOk, IfErr, OnOk};
ghost use Rattle.tier_device.specs.declared.media.Tier.{Tier};
ghost use Rattle.inode_plan.specs.graph_change.Change.{Change};
ghost use Rattle.inode_plan.specs.layout.declared.places.TheConstants.{FILE_BLOCKS};
ghost use Rattle.inode_plan.specs.layout.Places.{is_inode};
ghost use Rattle.inode_plan.specs.layout.Slot.{fits_slot};
ghost use Rattle.inode_plan.specs.extent_tree.BlockFormat.{LiesWithin};
ghost use Rattle.inode_plan.specs.extent_tree.Map.{runs_in, LieBelow};
ghost use Rattle.inode_plan.specs.extent_tree.declared.map.Place.{Place};
ghost use Rattle.inode_plan.specs.tree_blocks.After.{start_node};
ghost use Rattle.inode_plan.specs.area_reader.Store.{disk, slot_read, space_of, inode as inode_in};
ghost use Rattle.inode_plan.specs.area_reader.Format.{IsSpelled};
ghost use Rattle.inode_plan.specs.area_reader.Looks.{Looks};
ghost use Rattle.inode_plan.specs.area_reader.declared.error.AreaError.TheVariants.{DeviceFault, Memory};
ghost use Rattle.inode_plan.specs.Lists.{LieAsIn};
ghost use Rattle.change_plan.specs.Parts.{LoseBoth};
ghost use Rattle.change_plan.specs.PlanAddition.{GivesAll, AddsAll, AddsPart};
ghost use Rattle.change_plan.specs.FreedRuns.{IsSorted, AreAllBlocks};

use crate::part_laws::gone_inode_is_a_part;
use crate::partial_plan::PartialPlan;
use block_alloc::Run;
use inode_plan::in_area_commit::{ChangedSlot, FreedBlocks};
use inode_plan::in_area_reader::{AreaError, read_all_extents};
use inode_plan::in_batch_journal::Journal;
use inode_plan::in_extent_tree::BlockMap;
use inode_plan::in_layout::Slot;
use inode_plan::{all_places, map_of, roots_left};
use std::alloc::{AllocError, Global};
use tier_device::{Media, Tier};

// Where the blocks of an inode lie that has this slot.
fn read_map<M: Media>(
    alloc: Global,
    journal: &mut Journal<M>,
    inode: u32,
    slot: &Slot,
) -> Result<BlockMap, AreaError>
    requires spelled { IsSpelled journal.old.geometry (disk M.Media journal.old) }
    requires number { is_inode inode ≡ true }
    requires fits { fits_slot journal.old.geometry slot.now ≡ true }
    requires slot_is { slot_read journal.old.geometry (disk M.Media journal.old) inode ≡ Some slot.now }
    ensures places { IfOk result (LieAsIn journal.old.geometry (disk M.Media journal.old) inode) }
    ensures within { IfOk result (λ m. (t : Tier) → LiesWithin journal.old.geometry (space_of slot.now t) (runs_in m t)) }
    ensures only { IfErr result (λ e. (e ≡ DeviceFault) ⊎ (e ≡ Memory)) }
    ensures looks { Looks M.Media journal.old journal.new result }
{
    let geometry = journal.geometry();
    let found = read_all_extents(alloc, journal, inode, slot)?;
    let map = map_of(alloc, &geometry, &found)?;
    Ok(map)
}

// The blocks that list extents, those of the fast tier, and the others, as what is given up.
fn sort_runs(
    alloc: Global,
    slot: &Slot,
    roots: Vec<Run>,
    fast: Vec<Run>,
    block: Vec<Run>,
    slow: Vec<Run>,
) -> Result<FreedBlocks, AllocError>
    ensures sorted { IfOk result (IsSorted slot.now roots.items fast.items) }
    ensures block { IfOk result (λ lost. lost.block.items ≡ block.items) }
    ensures slow { IfOk result (λ lost. lost.slow.items ≡ slow.items) }
{
    let mut nodes = roots;
    match *slot {
        Slot::Directory { .. } => {
            nodes.extend_from_slice(&fast)?;
            Ok(FreedBlocks {
                nodes,
                fast: Vec::new(alloc),
                block,
                slow,
            })
        }
        Slot::File { .. } => Ok(FreedBlocks {
            nodes,
            fast,
            block,
            slow,
        }),
        Slot::Free => Ok(FreedBlocks {
            nodes,
            fast,
            block,
            slow,
        }),
    }
}

// All blocks of an inode that has this slot, and whose blocks lie so.
fn all_blocks(alloc: Global, slot: &Slot, map: &BlockMap) -> Result<FreedBlocks, AllocError>
    requires { LieBelow FILE_BLOCKS map.now }
    ensures { IfOk result (AreAllBlocks slot.now map.now) }
{
    let roots = roots_left(alloc, slot, &Slot::Free)?;
    let fast = all_places(alloc, map, Tier::Fast)?;
    let block = all_places(alloc, map, Tier::Block)?;
    let slow = all_places(alloc, map, Tier::Slow)?;
    let lost = sort_runs(alloc, slot, roots, fast, block, slow)?;
    Ok(lost)
}

/// Reads which blocks an inode has that has this slot: those of its content, and those that list its extents. `Memory` where there was none for what is read, or for the
/// runs.
pub fn all_blocks_of<M: Media>(
    alloc: Global,
    journal: &mut Journal<M>,
    inode: u32,
    slot: &Slot,
) -> Result<FreedBlocks, AreaError>
    requires spelled { IsSpelled journal.old.geometry (disk M.Media journal.old) }
    requires number { is_inode inode ≡ true }
    requires fits { fits_slot journal.old.geometry slot.now ≡ true }
    requires slot_is { slot_read journal.old.geometry (disk M.Media journal.old) inode ≡ Some slot.now }
    ensures all { IfOk result (GivesAll journal.old.geometry (disk M.Media journal.old) inode) }
    ensures only { IfErr result (λ e. (e ≡ DeviceFault) ⊎ (e ≡ Memory)) }
    ensures looks { Looks M.Media journal.old journal.new result }
{
    let map = read_map(alloc, journal, inode, slot)?;
    let lost = all_blocks(alloc, slot, &map)?;
    Ok(lost)
}

/// Puts runs that are given up behind others. After a refusal some of them may stand there.
pub fn push_lost(lost: &mut FreedBlocks, its: &FreedBlocks) -> Result<(), AllocError>
    ensures { OnOk result (LoseBoth lost.old its.now lost.new) }
{
    lost.nodes.extend_from_slice(&its.nodes)?;
    lost.fast.extend_from_slice(&its.fast)?;
    lost.block.extend_from_slice(&its.block)?;
    lost.slow.extend_from_slice(&its.slow)?;
    Ok(())
}

/// Gives up all blocks that an inode has, by its slot: those of its content and those that list its extents, behind what was given up; a free slot has none. Its
/// extents are read for that. `Memory` where there was none for what is read, or for the runs: some of them may stand there then.
pub fn give_all<M: Media>(
    alloc: Global,
    journal: &mut Journal<M>,
    inode: u32,
    slot: &Slot,
    lost: &mut FreedBlocks,
) -> Result<(), AreaError>
    requires spelled { IsSpelled journal.old.geometry (disk M.Media journal.old) }
    requires number { is_inode inode ≡ true }
    requires fits { fits_slot journal.old.geometry slot.now ≡ true }
    requires slot_is { slot_read journal.old.geometry (disk M.Media journal.old) inode ≡ Some slot.now }
    ensures adds { OnOk result (AddsAll journal.old.geometry (disk M.Media journal.old) inode lost.old lost.new) }
    ensures only { IfErr result (λ e. (e ≡ DeviceFault) ⊎ (e ≡ Memory)) }
    ensures looks { Looks M.Media journal.old journal.new result }
{
    let its = all_blocks_of(alloc, journal, inode, slot)?;
    push_lost(lost, &its)?;
    Ok(())
}

/// Plans an inode of which no node is left, if there was one: its slot is free, and all that it had is given up. Nothing is taken and no image is put. `Memory` where there was none;
/// `DeviceFault` where a device fails. After a refusal nothing is said of the plan but its images and what was taken for it, which stay as they are.
pub fn plan_gone_part<M: Media>(
    alloc: Global,
    journal: &mut Journal<M>,
    inode: u32,
    slot: &Slot,
    plan: &mut PartialPlan,
) -> Result<(), AreaError>
    requires spelled { IsSpelled journal.old.geometry (disk M.Media journal.old) }
    requires number { is_inode inode ≡ true }
    requires fits { fits_slot journal.old.geometry slot.now ≡ true }
    requires slot_is { slot_read journal.old.geometry (disk M.Media journal.old) inode ≡ Some slot.now }
    ensures part { (c : Change) (touch : ℕ) (places : List Place) → (start_node c.base (inode_in journal.old.geometry (disk M.Media journal.old) inode)).kind ≡ None → OnOk result (AddsPart journal.old.geometry (disk M.Media journal.old) c touch inode places 0 plan.old.taken plan.new.taken plan.old plan.new) }
    ensures images { plan.new.nodes ≡ plan.old.nodes }
    ensures taken { plan.new.taken ≡ plan.old.taken }
    ensures only { IfErr result (λ e. (e ≡ DeviceFault) ⊎ (e ≡ Memory)) }
    ensures looks { Looks M.Media journal.old journal.new result }
{
    // For the proof: an inode of which all is given up is a part of the change.
    gone_inode_is_a_part();
    give_all(alloc, journal, inode, slot, &mut plan.lost)?;
    push_slot(&mut plan.slots, inode, Slot::Free)?;
    Ok(())
}

/// Puts the slot of an inode behind the others.
pub fn push_slot(slots: &mut Vec<ChangedSlot>, inode: u32, slot: Slot) -> Result<(), AllocError>
    ensures { OnOk result (slots.new.items ≡ slots.old.items ++ (record { inode = inode; slot = slot } ∷ [])) }
{
    slots.push(ChangedSlot { inode, slot })?;
    Ok(())
}
