// All inodes of a change, planned one after the other.
ghost use Rattle.std.specs.Prelude.{◌≡◌, ◌≤◌, ◌⊎◌, ℕ, [], Option, true, false, length, OnOk, IfErr, IfSome};
ghost use Rattle.std.specs.FinMap as fin;
ghost use Rattle.inode_plan.specs.graph_change.Bounds.{AreBounded};
ghost use Rattle.inode_plan.specs.graph_change.Change.{changed_graph};
ghost use Rattle.inode_plan.specs.graph_change.Tidy.{AreTidyChanges};
ghost use Rattle.inode_plan.specs.graph_change.View.{changes_of};
ghost use Rattle.inode_plan.specs.layout.declared.marks.Marks.{Marks};
ghost use Rattle.inode_plan.specs.layout.Marks.{fits_marks};
ghost use Rattle.inode_plan.specs.layout.Places.{IsAllowed};
ghost use Rattle.inode_plan.specs.area_reader.Store.{disk, graph};
ghost use Rattle.inode_plan.specs.area_reader.Format.{IsSpelled};
ghost use Rattle.inode_plan.specs.area_reader.Looks.{Looks};
ghost use Rattle.inode_plan.specs.area_reader.declared.error.AreaError.TheVariants.{DeviceFault, Memory};
ghost use Rattle.inode_plan.specs.area_commit.Allocations.{taken_data};
ghost use Rattle.change_plan.specs.PlanAddition.{HasTaken, TakesMoreNodes};
ghost use Rattle.change_plan.specs.First.{PlansNothing, IsWhole};
ghost use Rattle.change_plan.specs.Next.{HasFewEntries};
ghost use Rattle.change_plan.specs.BlockDemand.{images_for, WantsBlocks};
ghost use Rattle.change_plan.specs.ReadSlots.{HaveSlots};

use crate::changed_inode::ChangedInode;
use crate::inode_part::plan_inode;
use crate::partial_plan::PartialPlan;
use crate::read_change::ReadChange;
use inode_plan::in_area_commit::Pools;
use inode_plan::in_area_reader::AreaError;
use inode_plan::in_batch_journal::Journal;
use inode_plan::taken_places;
use std::alloc::Global;
use tier_device::Media;

/// Plans all inodes of a change, in the order of their numbers, each with this touch number, by the slots that they have, over the data blocks that were taken, as many as it wants; blocks
/// of the node pool are taken as they are wanted. `Memory` where there was none; `DeviceFault` where a device fails. After a refusal nothing is said of the plan but what was taken for it, which can be given back.
pub fn plan_changes<M: Media>(
    alloc: Global,
    journal: &mut Journal<M>,
    pools: &mut Pools,
    read: &ReadChange<'_>,
    touch: u64,
    plan: &mut PartialPlan,
) -> Result<(), AreaError>
    requires going { journal.old.failed ≡ false }
    requires allowed { IsAllowed journal.old.geometry }
    requires spelled { IsSpelled journal.old.geometry (disk M.Media journal.old) }
    requires bounded { AreBounded (changes_of read.now.change.now) }
    requires tidy { AreTidyChanges (changes_of read.now.change.now) }
    requires entries { (i : ℕ) → fin.contains_key (changes_of read.now.change.now) i ≡ true → HasFewEntries (changed_graph (changes_of read.now.change.now) (graph journal.old.geometry (disk M.Media journal.old)) i) }
    requires images { images_for (changes_of read.now.change.now) ≤ 255 }
    requires took { HasTaken journal.old.geometry (disk M.Media journal.old) pools.old plan.old.taken }
    requires fresh { plan.old.taken.nodes.items ≡ [] }
    requires nodes { 255 ≤ length pools.old.nodes.free }
    requires wanted { WantsBlocks journal.old.geometry (disk M.Media journal.old) (changes_of read.now.change.now) (length (taken_data plan.old.taken)) }
    requires nothing { PlansNothing plan.old }
    requires slots { HaveSlots journal.old.geometry (disk M.Media journal.old) (fin.keys (changes_of read.now.change.now)) read.now.slots.now }
    ensures whole { OnOk result ((marks : Option Marks) → IfSome marks (λ v. fits_marks v ≡ true) → IsWhole journal.old.geometry (disk M.Media journal.old) (changes_of read.now.change.now) touch plan.new plan.new.taken marks) }
    ensures kept { OnOk result (HasTaken journal.old.geometry (disk M.Media journal.old) pools.new plan.new.taken) }
    ensures took { TakesMoreNodes pools.old plan.old.taken pools.new plan.new.taken }
    ensures only { IfErr result (λ e. (e ≡ DeviceFault) ⊎ (e ≡ Memory)) }
    ensures looks { Looks M.Media journal.old journal.new result }
{
    let listed = taken_places(alloc, &plan.taken)?;
    let places = listed.as_slice();
    let mut used = 0;
    let mut at = 0;
    'nodes: for (inode, node) in read.change.nodes.iter() {
        let changed = ChangedInode {
            inode: *inode,
            slot: read.slots[at].slot,
            change: node,
            touch,
        };
        let count = plan_inode(alloc, journal, pools, &changed, &places[used..], plan)?;
        used += count;
        at += 1;
    }
    Ok(())
}
