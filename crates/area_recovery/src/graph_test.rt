//! The graph of the area is tested.

ghost use Rattle.std.specs.Prelude.{◌≡◌, false, OnOk, IfOk, IfErr};
ghost use Rattle.recovery_laws.specs.area_reader.Store.{disk, graph, marks as marks_of};
ghost use Rattle.recovery_laws.specs.batch_journal.Course.{Unmoved};
ghost use Rattle.recovery_laws.specs.layout.Places.{Sizes, slot_block};
ghost use Rattle.posix_calls.specs.Tree.{State};
ghost use Rattle.graph_check.specs.Nameless.{AreNameless};
ghost use Rattle.graph_check.specs.call_effects.Wholes.{IsSound};
ghost use Rattle.graph_check.specs.call_effects.ClosedGraph.{nobody};
ghost use Rattle.area_recovery.specs.Errors.{OnDamage, IsOfArea};
ghost use Rattle.area_recovery.specs.FaultOrMemory.{IsFaultOrMemory};
ghost use Rattle.area_recovery.specs.Recovers.{Regions, Recovers, CountNone};
ghost use Rattle.area_recovery.specs.GraphTests.{FindsNoDamage, IsGraphDamage, IsGraphFault};
ghost use Rattle.area_recovery.specs.Phases.{StaysRecovered, AnswersFaults, Whatever};

use crate::area_faults::area_fault;
use crate::error::RecoveryError;
use graph_check::{GraphError, check_graph};
use recovery_laws::in_area_reader::AreaError;
use recovery_laws::in_layout::{FIRST_SLOT_BLOCK, SLOTS_IN_BLOCK, What};
use recovery_laws::in_shared_area::Shared;
use std::alloc::Global;
use tier_device::Media;

// The block of an inode's slot.
fn slot_block_of(inode: u32) -> u32
    ensures { result ≡ slot_block inode }
{
    FIRST_SLOT_BLOCK + inode.saturating_sub(1) / SLOTS_IN_BLOCK
}

// Why the graph was not found sound.
fn graph_fault(error: GraphError<AreaError>) -> RecoveryError
    requires { FindsNoDamage error }
    ensures { IsGraphFault error result }
{
    match error {
        GraphError::Memory => RecoveryError::Memory,
        GraphError::Nodes(error) => area_fault(error),
        GraphError::Unsound { inode, .. } => RecoveryError::Damaged {
            structure: What::Slot,
            block: slot_block_of(inode),
        },
    }
}

/// Tests that the graph of an area is sound where nobody has a file open, and lists its files without names, the least first. It only reads.
///
/// `Damaged` exactly where it is unsound, by the slot of an inode that has a defect: never where the medium is recovered and no record counts. `Memory` where there was none.
pub fn test_graph<M: Media>(alloc: Global, area: &mut Shared<M>) -> Result<Vec<u32>, RecoveryError>
    requires going { area.old.failed ≡ false }
    ensures sound { OnOk result (IsSound (graph area.old.geometry (disk M.Media area.old)) nobody) }
    ensures nameless { IfOk result (λ inodes. AreNameless (graph area.old.geometry (disk M.Media area.old)) inodes.items) }
    ensures damaged { IfErr result (λ e. OnDamage e (IsGraphDamage (graph area.old.geometry (disk M.Media area.old)))) }
    ensures unsound { IfErr result (λ e. OnDamage e (λ _ _. IsSound (graph area.old.geometry (disk M.Media area.old)) nobody → ⊥)) }
    ensures only { IfErr result IsOfArea }
    ensures never { IfErr result (λ e. (g : Sizes) (regions : Regions) (state : State) → CountNone regions (marks_of (disk M.Media area.old)) → Recovers g regions state (M.seen area.old.media) → IsFaultOrMemory e) }
    ensures any_moment { StaysRecovered M.Media Whatever area.old.media area.new.media }
    ensures unmoved { Unmoved (M.moment area.old.media) (M.moment area.new.media) (M.seen area.old.media) (M.seen area.new.media) (M.left area.old.media) (M.left area.new.media) }
    ensures answers { AnswersFaults M.Media area.old area.new result }
{
    // For the proof: while the graph is read a stop leaves what opens as what is read.
    area.left_now();
    match check_graph(alloc, area) {
        Ok(inodes) => Ok(inodes),
        Err(error) => Err(graph_fault(error)),
    }
}
