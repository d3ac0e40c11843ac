//! A file that nobody uses is dropped.

ghost use Rattle.std.specs.Prelude.{◌≡◌, ◌↔◌, ℕ, List, [], ◌∷◌, true, false, IfOk, IfErr, OnOk, IsTrue, IsErrOf};
ghost use Rattle.world_invariant.specs.file_graph.declared.effect.Effect.TheVariants as effect;
ghost use Rattle.migrator.specs.graph_change.Change.{coalesced_changes};
ghost use Rattle.migrator.specs.graph_change.Tidy.{AreTidyChanges};
ghost use Rattle.migrator.specs.graph_change.View.{changes_of};
ghost use Rattle.world_invariant.specs.log_record.Grammar.{IsInode};
ghost use Rattle.migrator.specs.area_reader.Store.{disk, graph};
ghost use Rattle.migrator.specs.batch_journal.Course.{Unmoved};
ghost use Rattle.migrator.specs.shared_area.Parts.{IsNoDamage};
ghost use Rattle.migrator.specs.shared_area.ChangeApply.{MakesFewCalls};
ghost use Rattle.digester.specs.Errors.{IsAreaError};
ghost use Rattle.world_invariant.specs.Logs.{IsNameless};
ghost use Rattle.kernel_fs.specs.Reclaim.{AreNameless, IsReclaimed, StaysOrReclaims, ReclaimsOrStays};
ghost use Rattle.kernel_fs.specs.declared.error.ReclaimError.TheVariants.{DeviceFault, InUse, Memory};

use crate::error::ReclaimError;
use digester::marks_can_be_written;
use migrator::in_area_reader::AreaError;
use migrator::in_graph_change::{GraphChange, changes_are_the_effects, changes_keep_to_the_limits};
use migrator::in_record_validation::NodeCounts;
use migrator::in_shared_area::Shared;
use std::alloc::Global;
use tier_device::Media;
use world_invariant::in_file_graph::Effect;

// Whether what stands at an inode is a file that has no name.
fn is_nameless(found: Option<NodeCounts>) -> bool
    ensures { IsTrue result ↔ AreNameless found }
{
    match found {
        Some(NodeCounts::File { names, .. }) => names == 0,
        Some(NodeCounts::Directory { .. }) => false,
        None => false,
    }
}

// Why the change was not made: no damage is found in an opened area, and it writes no block of data, so none is lacking.
fn reclaim_error(error: AreaError) -> ReclaimError
    requires { IsNoDamage error }
    ensures { IsAreaError DeviceFault Memory error result }
{
    match error {
        AreaError::DeviceFault => ReclaimError::DeviceFault,
        AreaError::Damaged { .. } | AreaError::NoBlock | AreaError::NotMapped => unreachable!(),
        AreaError::Memory => ReclaimError::Memory,
    }
}

// The change that drops a node, and nothing else.
fn drop_change(alloc: Global, inode: u32) -> Result<GraphChange, ReclaimError>
    ensures change { IfOk result (λ c. changes_of c ≡ coalesced_changes (effect.Drop inode ∷ [])) }
    ensures tidy { IfOk result (λ c. AreTidyChanges (changes_of c)) }
    ensures only { IfErr result (λ e. e ≡ Memory) }
{
    let mut change = GraphChange::new(alloc);
    match change.add(alloc, &Effect::Drop { inode }) {
        Ok(()) => Ok(change),
        Err(_) => Err(ReclaimError::Memory),
    }
}

// Makes that change of media where a node stands at the inode.
fn drop_node<M: Media>(
    area: &mut Shared<M>,
    inode: u32,
    change: &GraphChange,
) -> Result<(), ReclaimError>
    requires going { area.old.failed ≡ false }
    requires inode { IsInode inode }
    requires change { changes_of change.now ≡ coalesced_changes (effect.Drop inode ∷ []) }
    requires tidy { AreTidyChanges (changes_of change.now) }
    ensures any_moment { StaysOrReclaims area.old.geometry (disk M.Media area.old) inode (M.moment area.old.media) (M.moment area.new.media) (M.left area.old.media) (M.left area.new.media) }
    ensures dropped { OnOk result (IsReclaimed area.old.geometry (disk M.Media area.old) inode (disk M.Media area.new)) }
    ensures only { IsErrOf result InUse → ⊥ }
    ensures stays { ReclaimsOrStays M.Media area.old area.new result }
    ensures at_most { MakesFewCalls area.old.geometry (disk M.Media area.old) (coalesced_changes (effect.Drop inode ∷ [])) (M.moment area.old.media) (M.moment area.new.media) (M.left area.old.media) (M.left area.new.media) }
{
    // For the proof: the area opens, and the change is the effect and keeps to the limits.
    area.left_now();
    changes_are_the_effects();
    changes_keep_to_the_limits();
    // a file that is dropped is no digest
    let marks = area.marks();
    // For the proof: they fit the format.
    marks_can_be_written(marks);
    match area.apply(change, marks) {
        Ok(()) => Ok(()),
        Err(error) => Err(reclaim_error(error)),
    }
}

// Drops the node at an inode.
fn drop_file<M: Media>(alloc: Global, area: &mut Shared<M>, inode: u32) -> Result<(), ReclaimError>
    requires going { area.old.failed ≡ false }
    requires inode { IsInode inode }
    ensures any_moment { StaysOrReclaims area.old.geometry (disk M.Media area.old) inode (M.moment area.old.media) (M.moment area.new.media) (M.left area.old.media) (M.left area.new.media) }
    ensures dropped { OnOk result (IsReclaimed area.old.geometry (disk M.Media area.old) inode (disk M.Media area.new)) }
    ensures only { IsErrOf result InUse → ⊥ }
    ensures stays { ReclaimsOrStays M.Media area.old area.new result }
    ensures at_most { MakesFewCalls area.old.geometry (disk M.Media area.old) (coalesced_changes (effect.Drop inode ∷ [])) (M.moment area.old.media) (M.moment area.new.media) (M.left area.old.media) (M.left area.new.media) }
{
    // For the proof: a stop leaves what opens as before.
    area.left_now();
    let change = drop_change(alloc, inode)?;
    drop_node(area, inode, &change)
}

/// Drops the file at an inode, if one without a name stands there. `InUse` where none does; `Memory` only where one does, for the change that drops it; `DeviceFault` where a device failed.
pub fn drop_nameless<M: Media>(
    alloc: Global,
    area: &mut Shared<M>,
    inode: u32,
) -> Result<(), ReclaimError>
    requires going { area.old.failed ≡ false }
    ensures any_moment { StaysOrReclaims area.old.geometry (disk M.Media area.old) inode (M.moment area.old.media) (M.moment area.new.media) (M.left area.old.media) (M.left area.new.media) }
    ensures was { OnOk result (IsNameless (graph area.old.geometry (disk M.Media area.old) inode)) }
    ensures dropped { OnOk result (IsReclaimed area.old.geometry (disk M.Media area.old) inode (disk M.Media area.new)) }
    ensures in_use { IsErrOf result InUse → IsNameless (graph area.old.geometry (disk M.Media area.old) inode) → ⊥ }
    // What is no such file is not touched, whatever fails.
    ensures untouched { (IsNameless (graph area.old.geometry (disk M.Media area.old) inode) → ⊥) → Unmoved (M.moment area.old.media) (M.moment area.new.media) (M.seen area.old.media) (M.seen area.new.media) (M.left area.old.media) (M.left area.new.media) }
    ensures memory { IsErrOf result Memory → IsNameless (graph area.old.geometry (disk M.Media area.old) inode) }
    ensures stays { ReclaimsOrStays M.Media area.old area.new result }
    ensures at_most { MakesFewCalls area.old.geometry (disk M.Media area.old) (coalesced_changes (effect.Drop inode ∷ [])) (M.moment area.old.media) (M.moment area.new.media) (M.left area.old.media) (M.left area.new.media) }
{
    // For the proof: a stop leaves what opens as before.
    area.left_now();
    match area.node_counts(inode) {
        Ok(found) => {
            if !is_nameless(found) {
                return Err(ReclaimError::InUse);
            }
            drop_file(alloc, area, inode)
        }
        Err(_) => Err(ReclaimError::DeviceFault),
    }
}
