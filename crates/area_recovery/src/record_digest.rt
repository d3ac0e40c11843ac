// The records of a sealed log are digested.
ghost use Rattle.std.specs.Prelude.{◌≡◌, ◌≤◌, ◌<◌, ◌+◌, ◌^◌, ℕ, length, true, false, IfErr, IfOk, OnOk};
ghost use Rattle.std.specs.List.{AllByRecursion};
ghost use Rattle.std.specs.List.Sorted.{IsStrictlyIncreasing};
ghost use Rattle.recovery_laws.specs.digester.DigestStep.{DigestsOrStays};
ghost use Rattle.recovery_laws.specs.digester.SealedLog.{HasUndigested, StandsAtMark, undone};
ghost use Rattle.recovery_laws.specs.digester.declared.error.DigestError.TheVariants as digests;
ghost use Rattle.recovery_laws.specs.area_reader.Store.{disk, graph};
ghost use Rattle.log_survey.specs.update_log.RecordCounts.{next_generation};
ghost use Rattle.graph_check.specs.log_record.Grammar.{IsRecord};
ghost use Rattle.recovery_laws.specs.layout.Places.{Sizes};
ghost use Rattle.posix_calls.specs.Operations.{is_client};
ghost use Rattle.posix_calls.specs.Tree.{State};
ghost use Rattle.recovery_laws.specs.Inodes.{HasEveryInode};
ghost use Rattle.area_recovery.specs.declared.error.RecoveryError.TheVariants.{BadLog, Memory};
ghost use Rattle.area_recovery.specs.DigestedLogs.{CanDigest, DigestsAll, DigestsNext, HaveRecords, IsLogOf, IsNoBadLog, IsRefusal, NamesBad, NamesRefused};
ghost use Rattle.area_recovery.specs.Errors.{IsLogDigestRefusal};
ghost use Rattle.area_recovery.specs.FaultOrMemory.{IsFaultOrMemory};
ghost use Rattle.area_recovery.specs.Phases.{AnswersFaults, StaysRecovered};
ghost use Rattle.area_recovery.specs.Recovers.{Recovers, Regions};

use crate::error::RecoveryError;
use graph_check::in_log_record::Record;
use posix_calls::MAX_INODE;
use recovery_laws::in_digester::{
    DigestError, SealedLog, digest_chunk, marks_can_be_written, moved_mark_leaves_the_rest, prepare,
};
use recovery_laws::in_shared_area::Shared;
use std::alloc::{AllocError, Global};
use tier_device::Media;

// The number of every inode, rising.
fn every_inode(alloc: Global) -> Result<Vec<u32>, AllocError>
    ensures every { IfOk result (λ held. HasEveryInode held.items) }
    ensures rising { IfOk result (λ held. IsStrictlyIncreasing held.items) }
{
    let mut held = Vec::new(alloc);
    for below in 0..MAX_INODE {
        held.push(below + 1)?;
    }
    Ok(held)
}

/// The log of a client's records of a generation, of which the first `done` are digested, as one who holds every inode has it.
///
/// The error is want of memory.
pub(crate) fn resume_log(
    alloc: Global,
    client: u32,
    generation: u64,
    records: Vec<Record>,
    done: usize,
) -> Result<SealedLog, RecoveryError>
    requires client { is_client client ≡ true }
    requires spelled { AllByRecursion IsRecord records.items }
    requires few { length records.items < 2 ^ 32 }
    requires within { done ≤ length records.items }
    ensures log { IfOk result (IsLogOf client generation done records.items) }
    ensures only { IfErr result (λ e. e ≡ Memory) }
{
    let held = every_inode(alloc)?;
    Ok(SealedLog::resume(client, generation, held, records, done as u32))
}

// Digests the next chunk of a log that stands at its client's mark. Where the contents are recovered no record is refused for what it is.
fn digest_next<M: Media>(
    alloc: Global,
    area: &mut Shared<M>,
    log: &mut SealedLog,
) -> Result<(), DigestError>
    requires some { HasUndigested log.old }
    requires going { area.old.failed ≡ false }
    requires at_mark { StandsAtMark log.old (disk M.Media area.old) }
    ensures any_moment { StaysRecovered M.Media (HaveRecords log.old) area.old.media area.new.media }
    ensures digested { OnOk result (DigestsNext M.Media log.old area.old log.new area.new) }
    ensures at_mark { OnOk result (StandsAtMark log.new (disk M.Media area.new)) }
    ensures bad { IfErr result (NamesBad area.old.geometry (disk M.Media area.old) log.old) }
    ensures never { IfErr result (λ e. HasEveryInode log.old.held → (g : Sizes) (regions : Regions) (state : State) → HaveRecords log.old regions → Recovers g regions state (M.seen area.old.media) → IsNoBadLog e) }
    ensures answers { DigestsOrStays M.Media area.old area.new result }
{
    // For the proof: a stop leaves what opens as what is read, the log's records are spelled, marks fit their fields, and a mark that moves
    // leaves the records behind it to count.
    area.left_now();
    log.invariant();
    marks_can_be_written(area.marks());
    moved_mark_leaves_the_rest();
    let mut chunk = prepare(alloc, log)?;
    digest_chunk(alloc, area, log, &mut chunk)
}

// Why a recovery is refused where a digest is of a client's log whose first `from` records are none that count; `before` that count stand in another region.
fn refusal(error: DigestError, client: u32, from: usize, before: usize) -> RecoveryError
    ensures kind { IsRefusal client error result }
    ensures place { (k : ℕ) → error ≡ digests.BadLog (from + k) → before + k < 2 ^ 64 → result ≡ BadLog client (before + k) }
{
    match error {
        DigestError::DeviceFault => RecoveryError::DeviceFault,
        DigestError::BadLog { place } => RecoveryError::BadLog {
            client,
            place: before.saturating_add(place.saturating_sub(from)),
        },
        DigestError::Memory => RecoveryError::Memory,
    }
}

/// Digests what is left of a log that stands at its client's mark, chunk by chunk; `before` of the client's records that count stand before it. With regions that hold its records,
/// whatever a stop leaves meanwhile is recovered as what was read.
///
/// `BadLog` where a record can't be digested: never where the contents are recovered. `Memory` where there was none.
pub(crate) fn digest_records<M: Media>(
    alloc: Global,
    area: &mut Shared<M>,
    log: SealedLog,
    before: usize,
) -> Result<(), RecoveryError>
    requires some { HasUndigested log }
    requires every { HasEveryInode log.held }
    requires going { area.old.failed ≡ false }
    requires at_mark { StandsAtMark log (disk M.Media area.old) }
    ensures any_moment { StaysRecovered M.Media (HaveRecords log) area.old.media area.new.media }
    ensures digested { OnOk result (DigestsAll M.Media log.client (record { generation = next_generation log.generation; done = 0 }) (undone log) area.old area.new) }
    ensures good { OnOk result (CanDigest area.old.geometry.units (graph area.old.geometry (disk M.Media area.old)) (undone log)) }
    ensures bad { IfErr result (NamesRefused log.client before area.old.geometry.units (graph area.old.geometry (disk M.Media area.old)) (undone log)) }
    ensures never { IfErr result (λ e. (g : Sizes) (regions : Regions) (state : State) → HaveRecords log regions → Recovers g regions state (M.seen area.old.media) → IsFaultOrMemory e) }
    ensures only { IfErr result IsLogDigestRefusal }
    ensures answers { AnswersFaults M.Media area.old area.new result }
{
    // For the proof: until the first device call a stop leaves what opens as what is read.
    area.left_now();
    let mut log = log;
    let client = log.client();
    let from = log.digested_count() as usize;
    'chunks: while !log.is_digested() {
        match digest_next(alloc, area, &mut log) {
            Ok(()) => {}
            Err(error) => return Err(refusal(error, client, from, before)),
        }
    }
    Ok(())
}
