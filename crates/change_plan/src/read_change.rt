// A change with the slots that its inodes have.
ghost use Rattle.std.specs.Prelude.{◌≡◌, ◌⊎◌, ℕ, true, false, IfOk, IfErr};
ghost use Rattle.std.specs.FinMap as fin;
ghost use Rattle.inode_plan.specs.graph_change.Bounds.{AreBounded};
ghost use Rattle.inode_plan.specs.graph_change.View.{changes_of};
ghost use Rattle.inode_plan.specs.area_reader.Store.{disk};
ghost use Rattle.inode_plan.specs.area_reader.Format.{IsSpelled};
ghost use Rattle.inode_plan.specs.area_reader.Looks.{Looks};
ghost use Rattle.inode_plan.specs.area_reader.declared.error.AreaError.TheVariants.{DeviceFault, Memory};
ghost use Rattle.change_plan.specs.ReadSlots.{HaveSlots};

use crate::inode_drop::push_slot;
use inode_plan::in_area_commit::ChangedSlot;
use inode_plan::in_area_reader::{AreaError, read_slot};
use inode_plan::in_batch_journal::Journal;
use inode_plan::in_graph_change::GraphChange;
use std::alloc::Global;
use tier_device::Media;

/// A change of the graph, and the slots that its inodes have before it: they are read once, and all that is asked of them is asked here.
#[derive(Clone, Copy)]
pub struct ReadChange<'a> {
    pub change: &'a GraphChange,
    /// One for each inode of the change, in the order of their numbers.
    pub slots: &'a [ChangedSlot],
}

/// Reads the slots of the inodes of a change, each once, in the order of their numbers. `Memory` where there was none for them, and only where the change has an inode.
pub fn read_slots<M: Media>(
    alloc: Global,
    journal: &mut Journal<M>,
    change: &GraphChange,
) -> Result<Vec<ChangedSlot>, AreaError>
    requires going { journal.old.failed ≡ false }
    requires spelled { IsSpelled journal.old.geometry (disk M.Media journal.old) }
    requires bounded { AreBounded (changes_of change.now) }
    ensures slots { IfOk result (λ slots. HaveSlots journal.old.geometry (disk M.Media journal.old) (fin.keys (changes_of change.now)) slots.items) }
    ensures only { IfErr result (λ e. (e ≡ DeviceFault) ⊎ (e ≡ Memory)) }
    ensures memory { IfErr result (λ e. e ≡ Memory → (i : ℕ) × (fin.contains_key (changes_of change.now) i ≡ true)) }
    ensures looks { Looks M.Media journal.old journal.new result }
{
    let mut slots = Vec::with_capacity(alloc, change.nodes.len())?;
    'inodes: for (inode, _node) in change.nodes.iter() {
        let slot = read_slot(journal, *inode)?;
        push_slot(&mut slots, *inode, slot)?;
    }
    Ok(slots)
}
