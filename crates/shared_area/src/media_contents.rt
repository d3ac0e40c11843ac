// What is known of media once they are opened, and why they were not.
ghost use Rattle.std.specs.Prelude.{◌≡◌, ◌≢◌, Some, IsSome, OnOk, IfOk, IfErr};
ghost use Rattle.record_validation.specs.file_graph.Units.{charge};
ghost use Rattle.area_reader.specs.batch_journal.declared.error.JournalError.TheVariants.{BatchTooLarge};
ghost use Rattle.area_reader.specs.Store.{disk, graph, marks as marks_of};
ghost use Rattle.area_reader.specs.Format.{IsOpenable};
ghost use Rattle.area_reader.specs.Damage.{OnDamage, IsDamaged};
ghost use Rattle.area_reader.specs.Looks.{Looks};
ghost use Rattle.area_reader.specs.declared.error.AreaError.TheVariants.{Memory};
ghost use Rattle.change_plan.specs.area_commit.Value.{HasRanges, AreFree};
ghost use Rattle.shared_area.specs.AreaOpen.{IsJournalFault};

use area_reader::in_batch_journal::{Journal, JournalError};
use area_reader::in_layout::Marks;
use area_reader::{AreaError, open_area};
use change_plan::in_area_commit::Pools;
use std::alloc::Global;
use tier_device::Media;

/// What is kept in memory of opened media.
#[derive(Drop)]
pub struct Contents {
    pub pools: Pools,
    pub marks: Marks,
    pub units: u64,
}

/// Reads the whole area behind a journal, and finds the free blocks.
pub fn read_contents<M: Media>(
    alloc: Global,
    journal: &mut Journal<M>,
) -> Result<Contents, AreaError>
    ensures opens { OnOk result (IsOpenable journal.old.geometry (disk M.Media journal.old)) }
    ensures ranges { IfOk result (λ x. HasRanges journal.old.geometry x.pools) }
    ensures free { IfOk result (λ x. AreFree journal.old.geometry (disk M.Media journal.old) x.pools) }
    ensures marks { IfOk result (λ x. marks_of (disk M.Media journal.old) ≡ Some x.marks) }
    ensures units { IfOk result (λ x. x.units ≡ charge (graph journal.old.geometry (disk M.Media journal.old))) }
    ensures damaged { IfErr result (λ e. OnDamage e (IsDamaged journal.old.geometry (disk M.Media journal.old))) }
    ensures unopenable { IfErr result (λ e. OnDamage e (λ _ _. IsOpenable journal.old.geometry (disk M.Media journal.old) → ⊥)) }
    ensures memory { IfErr result (λ e. e ≡ Memory → IsSome (marks_of (disk M.Media journal.old))) }
    ensures looks { Looks M.Media journal.old journal.new result }
{
    let found = open_area(alloc, journal)?;
    let geometry = journal.geometry();
    let pools = Pools::from_used(alloc, &geometry, &found.used)?;
    Ok(Contents {
        pools,
        marks: found.marks,
        units: found.charge,
    })
}

/// What the journal was refused for.
pub fn journal_fault(error: JournalError) -> AreaError
    requires { error ≢ BatchTooLarge }
    ensures { IsJournalFault error result }
{
    match error {
        JournalError::DeviceFault => AreaError::DeviceFault,
        JournalError::BatchTooLarge => unreachable!(),
        JournalError::Damaged { what, block } => AreaError::Damaged { what, block },
        JournalError::Memory => AreaError::Memory,
    }
}
