// The whole plan of a change is carried out.
ghost use Rattle.std.specs.Prelude.{◌≡◌, ◌≤◌, false, Some, length, OnOk, OnErr, IfOk, IfErr};
ghost use Rattle.std.specs.FinMap as fin;
ghost use Rattle.tier_device.specs.declared.media.Tier.{Tier};
ghost use Rattle.tier_device.specs.AfterStop.{AtRest};
ghost use Rattle.area_reader.specs.graph_change.View.{changes_of};
ghost use Rattle.area_reader.specs.Store.{disk};
ghost use Rattle.area_reader.specs.Format.{IsOpenable};
ghost use Rattle.change_plan.specs.area_commit.Value.{PoolsView, data_pool, AreInOrder};
ghost use Rattle.change_plan.specs.area_commit.Allocations.{WereTaken, SameFree, taken_data};
ghost use Rattle.change_plan.specs.area_commit.Plan.{lost_in};
ghost use Rattle.change_plan.specs.PlanAddition.{HasTaken};
ghost use Rattle.shared_area.specs.ChangeApply.{CanApply, EndsChange};
ghost use Rattle.shared_area.specs.Costs.{units_in};
ghost use Rattle.shared_area.specs.Errors.{IsForced};
ghost use Rattle.change_plan.specs.First.{IsWhole};
ghost use Rattle.change_plan.specs.FileLayout.{AreFirstFree};
ghost use Rattle.change_plan.specs.ReadSlots.{HaveSlots};

use crate::apply_laws::{carried_out_change_has_its_slots, carried_out_change_is_made};
use crate::inode_cost::units_of_slots;
use area_reader::AreaError;
use area_reader::in_batch_journal::Journal;
use area_reader::in_graph_change::GraphChange;
use area_reader::in_layout::Marks;
use change_plan::in_area_commit::{Pools, carry_out};
use change_plan::{
    PartialPlan, whole_change_can_be_carried_out, whole_change_lies_in_its_places, whole_plan,
};
use std::alloc::Global;
use tier_device::Media;

// Carries out the whole plan of a change, once the pools have room for what is given up.
fn write_change<M: Media>(
    alloc: Global,
    journal: &mut Journal<M>,
    pools: &mut Pools,
    change: &GraphChange,
    marks: Marks,
    plan: PartialPlan,
) -> Result<(), AreaError>
    requires going { journal.old.failed ≡ false }
    requires opens { IsOpenable journal.old.geometry (disk M.Media journal.old) }
    requires rests { (t : Tier) → AtRest (M.seen journal.old.media) (M.left journal.old.media (M.moment journal.old.media)) t }
    requires can { CanApply journal.old.geometry (disk M.Media journal.old) (changes_of change.now) marks }
    requires whole { IsWhole journal.old.geometry (disk M.Media journal.old) (changes_of change.now) marks.digests plan plan.taken (Some marks) }
    requires took { HasTaken journal.old.geometry (disk M.Media journal.old) pools.old plan.taken }
    requires first { AreFirstFree journal.old.geometry (disk M.Media journal.old) (taken_data plan.taken) }
    requires nodes_room { length plan.lost.nodes.items ≤ pools.old.nodes.room }
    requires room { (t : Tier) → length (lost_in plan.lost t) ≤ (data_pool pools.old t).room }
    ensures ends { EndsChange M.Media (changes_of change.now) marks journal.old journal.new pools.new result }
    ensures slots { OnOk result (HaveSlots journal.old.geometry (disk M.Media journal.new) (fin.keys (changes_of change.now)) plan.slots.items) }
    ensures same { (before : PoolsView) → AreInOrder before → WereTaken before pools.old plan.taken → OnErr result (SameFree before pools.new) }
    ensures only { IfErr result IsForced }
{
    // For the proof: a stop now leaves what is read, the sizes are allowed ones, and the whole plan can be carried out, which makes the change, and gives its inodes the slots of the plan.
    journal.left_now();
    let _units = journal.geometry().units();
    whole_change_can_be_carried_out();
    whole_change_lies_in_its_places();
    carried_out_change_is_made();
    carried_out_change_has_its_slots();
    carry_out(alloc, journal, pools, whole_plan(plan, Some(marks)))?;
    Ok(())
}

/// Makes room in the pools for what the plan of a change gives up, and carries it out: then its inodes have the slots of the plan. Where it is refused, what was taken stands in the pools again.
pub fn reserve_blocks<M: Media>(
    alloc: Global,
    journal: &mut Journal<M>,
    pools: &mut Pools,
    change: &GraphChange,
    marks: Marks,
    plan: PartialPlan,
) -> Result<(), AreaError>
    requires going { journal.old.failed ≡ false }
    requires opens { IsOpenable journal.old.geometry (disk M.Media journal.old) }
    requires rests { (t : Tier) → AtRest (M.seen journal.old.media) (M.left journal.old.media (M.moment journal.old.media)) t }
    requires can { CanApply journal.old.geometry (disk M.Media journal.old) (changes_of change.now) marks }
    requires whole { IsWhole journal.old.geometry (disk M.Media journal.old) (changes_of change.now) marks.digests plan plan.taken (Some marks) }
    requires took { HasTaken journal.old.geometry (disk M.Media journal.old) pools.old plan.taken }
    requires first { AreFirstFree journal.old.geometry (disk M.Media journal.old) (taken_data plan.taken) }
    ensures ends { EndsChange M.Media (changes_of change.now) marks journal.old journal.new pools.new result }
    ensures slots { OnOk result (HaveSlots journal.old.geometry (disk M.Media journal.new) (fin.keys (changes_of change.now)) plan.slots.items) }
    ensures same { (before : PoolsView) → AreInOrder before → WereTaken before pools.old plan.taken → OnErr result (SameFree before pools.new) }
    ensures only { IfErr result IsForced }
{
    // For the proof: a stop now leaves what is read.
    journal.left_now();
    let nodes = plan.lost.nodes.len();
    let fast = plan.lost.fast.len();
    let block = plan.lost.block.len();
    let slow = plan.lost.slow.len();
    match pools.reserve(nodes, fast, block, slow) {
        Ok(()) => write_change(alloc, journal, pools, change, marks, plan),
        Err(_) => {
            pools.release(plan.taken);
            Err(AreaError::Memory)
        }
    }
}

/// Carries out the plan of a change as `reserve_blocks` does, and answers what its inodes cost then, in units: the plan has their slots, so that none is read for that.
pub fn write_counted<M: Media>(
    alloc: Global,
    journal: &mut Journal<M>,
    pools: &mut Pools,
    change: &GraphChange,
    marks: Marks,
    plan: PartialPlan,
) -> Result<u64, AreaError>
    requires going { journal.old.failed ≡ false }
    requires opens { IsOpenable journal.old.geometry (disk M.Media journal.old) }
    requires rests { (t : Tier) → AtRest (M.seen journal.old.media) (M.left journal.old.media (M.moment journal.old.media)) t }
    requires can { CanApply journal.old.geometry (disk M.Media journal.old) (changes_of change.now) marks }
    requires whole { IsWhole journal.old.geometry (disk M.Media journal.old) (changes_of change.now) marks.digests plan plan.taken (Some marks) }
    requires took { HasTaken journal.old.geometry (disk M.Media journal.old) pools.old plan.taken }
    requires first { AreFirstFree journal.old.geometry (disk M.Media journal.old) (taken_data plan.taken) }
    ensures ends { EndsChange M.Media (changes_of change.now) marks journal.old journal.new pools.new result }
    ensures units { IfOk result (λ units. units ≡ units_in journal.old.geometry (disk M.Media journal.new) (fin.keys (changes_of change.now))) }
    ensures same { (before : PoolsView) → AreInOrder before → WereTaken before pools.old plan.taken → OnErr result (SameFree before pools.new) }
    ensures only { IfErr result IsForced }
{
    let units = units_of_slots(&plan.slots);
    reserve_blocks(alloc, journal, pools, change, marks, plan)?;
    Ok(units)
}
