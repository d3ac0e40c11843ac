// One inode of a change, whatever it is, as a part of the plan for all.
ghost use Rattle.std.specs.Prelude.{◌≡◌, ◌⊎◌, false, IfOk, IfErr};
ghost use Rattle.inode_plan.specs.graph_change.View.{change_of};
ghost use Rattle.inode_plan.specs.area_reader.Store.{disk};
ghost use Rattle.inode_plan.specs.area_reader.Looks.{Looks};
ghost use Rattle.inode_plan.specs.area_reader.declared.error.AreaError.TheVariants.{DeviceFault, Memory};
ghost use Rattle.change_plan.specs.PlanAddition.{TakesMoreNodes};
ghost use Rattle.change_plan.specs.Next.{IsNext, HasPlaces, PlansInode};

use crate::changed_inode::ChangedInode;
use crate::directory_part::plan_directory_part;
use crate::file_part::plan_file_part;
use crate::inode_drop::plan_gone_part;
use crate::kinds::kind_from;
use crate::partial_plan::PartialPlan;
use inode_plan::in_area_commit::Pools;
use inode_plan::in_area_reader::AreaError;
use inode_plan::in_batch_journal::Journal;
use inode_plan::in_extent_tree::Place;
use inode_plan::in_file_graph::Kind;
use std::alloc::Global;
use tier_device::Media;

/// Plans an inode by what the rest of its change starts from: a file over the first of these places and some blocks of the node pool, a directory over such blocks alone, or none. It
/// tells how many of the places it uses. `Memory` where there was none; `DeviceFault` where a device fails. After a refusal nothing is said of the plan but what was taken for it: blocks of
/// the node pool may have been.
pub fn plan_inode<M: Media>(
    alloc: Global,
    journal: &mut Journal<M>,
    pools: &mut Pools,
    changed: &ChangedInode<'_>,
    places: &[Place],
    plan: &mut PartialPlan,
) -> Result<usize, AreaError>
    requires going { journal.old.failed ≡ false }
    requires next { IsNext journal.old.geometry (disk M.Media journal.old) changed.now.inode changed.now.slot (change_of changed.now.change.now) pools.old plan.old.taken plan.old.nodes }
    requires places { HasPlaces journal.old.geometry (disk M.Media journal.old) (change_of changed.now.change.now) changed.now.inode places.now }
    ensures planned { IfOk result (λ count. PlansInode journal.old.geometry (disk M.Media journal.old) (change_of changed.now.change.now) changed.now.touch changed.now.inode places.now count pools.old plan.old.taken pools.new plan.new.taken plan.old plan.new) }
    ensures took { TakesMoreNodes pools.old plan.old.taken pools.new plan.new.taken }
    ensures only { IfErr result (λ e. (e ≡ DeviceFault) ⊎ (e ≡ Memory)) }
    ensures looks { Looks M.Media journal.old journal.new result }
{
    match kind_from(changed.change.base, &changed.slot) {
        Some(Kind::File) => plan_file_part(alloc, journal, pools, changed, places, plan),
        Some(Kind::Directory) => {
            plan_directory_part(alloc, journal, pools, changed, plan)?;
            Ok(0)
        }
        None => {
            plan_gone_part(alloc, journal, changed.inode, &changed.slot, plan)?;
            Ok(0)
        }
    }
}
