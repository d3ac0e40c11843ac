//! Files without names are dropped.

ghost use Rattle.std.specs.Prelude.{◌≡◌, false, [], ◌∷◌, OnOk, IfErr};
ghost use Rattle.recovery_laws.specs.area_reader.Store.{disk, graph, marks as marks_of};
ghost use Rattle.graph_check.specs.call_effects.ClosedGraph.{nobody};
ghost use Rattle.graph_check.specs.call_effects.Wholes.{IsSound, state_of};
ghost use Rattle.area_recovery.specs.FaultOrMemory.{IsFaultOrMemory};
ghost use Rattle.area_recovery.specs.GraphTests.{without_nameless};
ghost use Rattle.area_recovery.specs.Recovers.{CountNone};
ghost use Rattle.area_recovery.specs.Phases.{StaysRecovered, AnswersFaults};

use crate::error::RecoveryError;
use kernel_fs::{ReclaimError, drop_nameless};
use recovery_laws::in_shared_area::Shared;
use std::alloc::Global;
use tier_device::Media;

// Drops the file at an inode, if one without a name stands there.
fn drop_file<M: Media>(alloc: Global, area: &mut Shared<M>, inode: u32) -> Result<(), RecoveryError>
    requires going { area.old.failed ≡ false }
    ensures any_moment { StaysRecovered M.Media (λ regions. CountNone regions (marks_of (disk M.Media area.old))) area.old.media area.new.media }
    ensures dropped { OnOk result (graph area.new.geometry (disk M.Media area.new) ≡ without_nameless (inode ∷ []) (graph area.old.geometry (disk M.Media area.old))) }
    ensures marks { OnOk result (marks_of (disk M.Media area.new) ≡ marks_of (disk M.Media area.old)) }
    ensures only { IfErr result IsFaultOrMemory }
    ensures answers { AnswersFaults M.Media area.old area.new result }
{
    // For the proof: until the first device call a stop leaves what opens as what is read.
    area.left_now();
    match drop_nameless(alloc, area, inode) {
        Ok(()) => Ok(()),
        Err(ReclaimError::InUse) => Ok(()),
        Err(ReclaimError::DeviceFault) => Err(RecoveryError::DeviceFault),
        Err(ReclaimError::Memory) => Err(RecoveryError::Memory),
    }
}

/// Drops those of these files that have no name, one batch each. Where no record counts, whatever a stop leaves meanwhile is recovered as what was read.
///
/// `Memory` where there was none: some of them are dropped then.
pub fn drop_files<M: Media>(
    alloc: Global,
    area: &mut Shared<M>,
    inodes: &[u32],
) -> Result<(), RecoveryError>
    requires going { area.old.failed ≡ false }
    ensures any_moment { StaysRecovered M.Media (λ regions. CountNone regions (marks_of (disk M.Media area.old))) area.old.media area.new.media }
    ensures dropped { OnOk result (graph area.new.geometry (disk M.Media area.new) ≡ without_nameless inodes.now (graph area.old.geometry (disk M.Media area.old))) }
    ensures sound { OnOk result (IsSound (graph area.old.geometry (disk M.Media area.old)) nobody → IsSound (graph area.new.geometry (disk M.Media area.new)) nobody) }
    ensures state { OnOk result (IsSound (graph area.old.geometry (disk M.Media area.old)) nobody → state_of (graph area.new.geometry (disk M.Media area.new)) nobody ≡ state_of (graph area.old.geometry (disk M.Media area.old)) nobody) }
    ensures marks { OnOk result (marks_of (disk M.Media area.new) ≡ marks_of (disk M.Media area.old)) }
    ensures only { IfErr result IsFaultOrMemory }
    ensures answers { AnswersFaults M.Media area.old area.new result }
{
    // For the proof: if there is no inode, a stop leaves what opens as what is read.
    area.left_now();
    for inode in inodes {
        drop_file(alloc, area, *inode)?;
    }
    Ok(())
}
