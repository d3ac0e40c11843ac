//! All marks are set.

ghost use Rattle.std.specs.Prelude.{◌≡◌, ◌≢◌, false, Some, OnOk, IfErr};
ghost use Rattle.recovery_laws.specs.layout.declared.marks.Marks.{Marks};
ghost use Rattle.recovery_laws.specs.area_reader.Store.{disk, graph, marks as marks_of};
ghost use Rattle.recovery_laws.specs.batch_journal.Course.{Unmoved};
ghost use Rattle.area_recovery.specs.declared.error.RecoveryError.TheVariants.{DeviceFault};
ghost use Rattle.area_recovery.specs.FaultOrMemory.{IsFaultOrMemory};
ghost use Rattle.area_recovery.specs.Recovers.{CountNone, marks_by};
ghost use Rattle.area_recovery.specs.Phases.{StaysRecovered, AnswersFaults};

use crate::area_faults::area_fault;
use crate::error::RecoveryError;
use recovery_laws::in_digester::marks_can_be_written;
use recovery_laws::in_graph_change::{
    GraphChange, changes_are_the_effects, changes_keep_to_the_limits,
};
use recovery_laws::in_layout::{CLIENTS, Mark, Marks};
use recovery_laws::in_shared_area::Shared;
use std::alloc::Global;
use tier_device::Media;

/// Sets the marks of all clients, in one batch. The graph stays, and so does the number of digests. Where no record counts under the marks from before nor under the new ones, whatever a stop leaves meanwhile is
/// recovered as what was read.
///
/// `Memory` where there was none: then nothing has changed.
pub fn set_marks<M: Media>(
    alloc: Global,
    area: &mut Shared<M>,
    clients: [Mark; CLIENTS],
) -> Result<(), RecoveryError>
    requires going { area.old.failed ≡ false }
    ensures any_moment { StaysRecovered M.Media (λ regions. CountNone regions (marks_of (disk M.Media area.old)) × CountNone regions (marks_by clients)) area.old.media area.new.media }
    ensures graph { OnOk result (graph area.new.geometry (disk M.Media area.new) ≡ graph area.old.geometry (disk M.Media area.old)) }
    ensures marks { OnOk result ((v : Marks) → marks_of (disk M.Media area.old) ≡ Some v → marks_of (disk M.Media area.new) ≡ Some (record { clients = clients; digests = v.digests })) }
    ensures there { OnOk result ((v : Marks) × (marks_of (disk M.Media area.old) ≡ Some v)) }
    ensures only { IfErr result IsFaultOrMemory }
    ensures unmoved { IfErr result (λ e. e ≢ DeviceFault → Unmoved (M.moment area.old.media) (M.moment area.new.media) (M.seen area.old.media) (M.seen area.new.media) (M.left area.old.media) (M.left area.new.media)) }
    ensures answers { AnswersFaults M.Media area.old area.new result }
{
    // For the proof: a stop leaves what opens as what is read, and a change without effects keeps the graph and the limits.
    area.left_now();
    changes_are_the_effects();
    changes_keep_to_the_limits();
    let marks = Marks {
        clients,
        digests: area.marks().digests,
    };
    // For the proof: the marks fit their fields.
    marks_can_be_written(marks);
    let change = GraphChange::new(alloc);
    match area.apply(&change, marks) {
        Ok(()) => Ok(()),
        Err(error) => Err(area_fault(error)),
    }
}
