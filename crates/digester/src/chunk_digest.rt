//! A chunk of a sealed log reaches the shared area in one batch, with the mark behind it.

ghost use Rattle.std.specs.Prelude.{◌≡◌, ◌<◌, ◌≤◌, ◌+◌, [], ℕ, List, true, false, length, Some, IfErr, IfOk, OnOk, OnErr};
ghost use Rattle.std.specs.List.{AllByRecursion};
ghost use Rattle.std.specs.List.Sorted.{IsNonDecreasing};
ghost use Rattle.coalescer.specs.graph_change.View.{changes_of};
ghost use Rattle.update_log.specs.log_record.Grammar.{IsRecord};
ghost use Rattle.update_log.specs.log_record.declared.format.Record.{Record};
ghost use Rattle.shared_area.specs.layout.Marks.{fits_marks};
ghost use Rattle.shared_area.specs.layout.declared.marks.Marks.{Marks};
ghost use Rattle.posix_calls.specs.Operations.{is_client};
ghost use Rattle.shared_area.specs.area_reader.Looks.{Looks};
ghost use Rattle.shared_area.specs.area_reader.Store.{disk, graph, marks as marks_of};
ghost use Rattle.shared_area.specs.ChangeApply.{IsAppliedStore, MakesFewCalls};
ghost use Rattle.shared_area.specs.GraphUpdate.{StaysOrChanges, AppliesOrStays};
ghost use Rattle.shared_area.specs.Parts.{IsNoDamage};
ghost use Rattle.coalescer.specs.RunChange.{swapped_of};
ghost use Rattle.coalescer.specs.graph_change.Swaps.{told_change};
ghost use Rattle.digester.specs.Chunk.{IsChunkOf, chunk_change, is_next};
ghost use Rattle.digester.specs.DigestStep.{IsGoodRun, IsDigested, NamesFirstBad, StaysOrDigests, DigestsOrStays};
ghost use Rattle.digester.specs.MarkMoves.{marks_after};
ghost use Rattle.digester.specs.Plan.{Finds};
ghost use Rattle.digester.specs.SealedLog.{HasUndigested, IsDoneBy, StandsAtMark, done_to};
ghost use Rattle.digester.specs.declared.record_test.Found.TheVariants.{AllGood};

use crate::Found;
use crate::chunk::Chunk;
use crate::digest_marks::{mark_after, marks_after};
use crate::error::{DigestError, digest_error};
use crate::run_tell::tell_run;
use crate::run_test::test_run;
use crate::sealed_log::SealedLog;
use coalescer::RunChange;
use coalescer::in_graph_change::GraphChange;
use shared_area::Shared;
use shared_area::in_area_reader::AreaError;
use shared_area::in_layout::Mark;
use std::alloc::Global;
use tier_device::Media;
use update_log::in_log_record::Record;

// Makes the change that good records of a client come to, with its mark moved behind them.
fn apply_run<M: Media>(
    area: &mut Shared<M>,
    client: u32,
    mark: Mark,
    change: &GraphChange,
) -> Result<(), AreaError>
    requires client { is_client client ≡ true }
    requires going { area.old.failed ≡ false }
    requires run { (held : List ℕ) × (rs : List Record) × IsGoodRun held area.old.geometry.units (graph area.old.geometry (disk M.Media area.old)) rs (changes_of change.now) }
    ensures any_moment { (v : Marks) × (marks_of (disk M.Media area.old) ≡ Some v)
        × StaysOrChanges area.old.geometry (disk M.Media area.old) (changes_of change.now) (marks_after v client mark) (M.moment area.old.media) (M.moment area.new.media) (M.left area.old.media) (M.left area.new.media) }
    ensures applied { OnOk result ((v : Marks) × (marks_of (disk M.Media area.old) ≡ Some v)
        × IsAppliedStore area.old.geometry (disk M.Media area.old) (changes_of change.now) (marks_after v client mark) (disk M.Media area.new)) }
    ensures fits { (v : Marks) × (marks_of (disk M.Media area.old) ≡ Some v) × (fits_marks (marks_after v client mark) ≡ true) }
    // The blocks that the records write are always there.
    ensures only { IfErr result IsNoDamage }
    ensures applies { AppliesOrStays M.Media area.old area.new result }
    ensures at_most { MakesFewCalls area.old.geometry (disk M.Media area.old) (changes_of change.now) (M.moment area.old.media) (M.moment area.new.media) (M.left area.old.media) (M.left area.new.media) }
{
    // For the proof: the directories of an area that is open lead to inodes.
    area.left_now();
    let marks = marks_after(area.marks(), client, mark);
    area.apply(change, marks)
}

// Where the records of the next chunk of a log end.
fn end_of(sealed: &SealedLog, chunk: &Chunk) -> usize
    requires some { HasUndigested sealed.now }
    requires chunk { IsChunkOf sealed.now chunk.now }
    requires next { is_next sealed.now chunk.now ≡ true }
    ensures end { result ≡ sealed.now.done + chunk.now.count }
    ensures within { result ≤ length sealed.now.records }
{
    // For the proof: no more are digested than it has.
    sealed.invariant();
    sealed.digested_count() as usize + chunk.count
}

// Tests the records of a chunk over the shared area; where they all are good, their change is told what swapped names lead to there.
fn complete_run<M: Media>(
    alloc: Global,
    area: &mut Shared<M>,
    held: &[u32],
    records: &[Record],
    run: &mut RunChange,
) -> Result<Found, AreaError>
    requires spelled { AllByRecursion IsRecord records.now }
    requires rising { IsNonDecreasing held.now }
    ensures answer { IfOk result (Finds held.now area.old.geometry.units (graph area.old.geometry (disk M.Media area.old)) records.now) }
    ensures change { IfOk result (λ found. (units : ℕ) → found ≡ AllGood units → changes_of run.new.change ≡ told_change (graph area.old.geometry (disk M.Media area.old)) (swapped_of run.old)) }
    ensures names { run.new.names ≡ run.old.names }
    ensures no_swap { run.old.names ≡ [] → run.new ≡ run.old }
    ensures only { IfErr result IsNoDamage }
    ensures looks { Looks M.Media area.old area.new result }
{
    match test_run(alloc, area, held, records)? {
        Found::AllGood { charge } => {
            tell_run(alloc, area, run)?;
            Ok(Found::AllGood { charge })
        }
        Found::FirstBad { place } => Ok(Found::FirstBad { place }),
    }
}

// Digests a chunk, and answers how many records of its log are digested then.
fn digest_next<M: Media>(
    alloc: Global,
    area: &mut Shared<M>,
    sealed: &SealedLog,
    chunk: &mut Chunk,
) -> Result<u32, DigestError>
    requires some { HasUndigested sealed.now }
    requires chunk { IsChunkOf sealed.now chunk.old }
    requires next { is_next sealed.now chunk.old ≡ true }
    requires at_mark { area.old.failed ≡ false → StandsAtMark sealed.now (disk M.Media area.old) }
    ensures any_moment { area.old.failed ≡ false → StaysOrDigests area.old.geometry (disk M.Media area.old) sealed.now chunk.old.count (M.moment area.old.media) (M.moment area.new.media) (M.left area.old.media) (M.left area.new.media) }
    ensures digested { OnOk result (IsDigested area.old.geometry (disk M.Media area.old) sealed.now chunk.old.count (disk M.Media area.new)) }
    ensures done { IfOk result (λ done. done ≡ sealed.now.done + chunk.old.count) }
    ensures within { IfOk result (λ done. done ≤ length sealed.now.records) }
    ensures at_mark { IfOk result (λ done. StandsAtMark (done_to done sealed.now) (disk M.Media area.new)) }
    ensures bad { IfErr result (NamesFirstBad area.old.geometry (disk M.Media area.old) sealed.now chunk.old.count) }
    ensures digests { DigestsOrStays M.Media area.old area.new result }
    ensures change { OnOk result (changes_of chunk.new.change.change ≡ chunk_change (graph area.old.geometry (disk M.Media area.old)) chunk.old) }
    ensures no_swap { chunk.old.change.names ≡ [] → chunk.new ≡ chunk.old }
    ensures rest { chunk.new ≡ record chunk.old { change = chunk.new.change } }
    ensures at_most { MakesFewCalls area.old.geometry (disk M.Media area.old) (chunk_change (graph area.old.geometry (disk M.Media area.old)) chunk.old) (M.moment area.old.media) (M.moment area.new.media) (M.left area.old.media) (M.left area.new.media) }
{
    // For the proof: a stop leaves what opens as before, and what holds of a sealed log.
    area.left_now();
    sealed.invariant();
    let done = sealed.digested_count() as usize;
    let end = end_of(sealed, chunk);
    match complete_run(
        alloc,
        area,
        sealed.held_inodes(),
        &sealed.records()[done..end],
        &mut chunk.change,
    ) {
        Ok(Found::AllGood { .. }) => {
            let mark = mark_after(sealed.generation(), end as u32, sealed.count());
            match apply_run(area, sealed.client(), mark, &chunk.change.change) {
                Ok(()) => Ok(end as u32),
                Err(error) => Err(digest_error(error)),
            }
        }
        Ok(Found::FirstBad { place }) => Err(DigestError::BadLog {
            place: done + place,
        }),
        Err(error) => Err(digest_error(error)),
    }
}

/// Digests the next chunk of a sealed log, which stands at the mark of its client. Its records are tested one after the other over the shared area, and what they come to reaches
/// the area in one batch, together with the client's mark, which moves behind them, or to the next generation with the last records of the region. At each moment a stop leaves
/// graph and mark both as before, or both after. After Ok the log tells how many of its records are digested, and stands at the mark again.
///
/// `BadLog` exactly where a record of the chunk is bad, by the place of the first one in its region: tested over the graph as the records before it leave it, it touches an inode
/// that the client does not hold for writing, raises the graph by more than its units, or passes a limit, the units of the area among them. `Memory` where there was none.
/// After these nothing has changed on the media. `DeviceFault` where a device failed: the area answers nothing else then, until the medium is opened again. After each refusal the log
/// is as it was.
///
/// After Ok the change of the chunk is told what swapped names led to. After a refusal that is left open where a Swap is among its records: such a chunk is dropped, and the next one prepared
/// anew. A chunk without a Swap stays as it was.
pub fn digest_chunk<M: Media>(
    alloc: Global,
    area: &mut Shared<M>,
    sealed: &mut SealedLog,
    chunk: &mut Chunk,
) -> Result<(), DigestError>
    requires some { HasUndigested sealed.old }
    requires chunk { IsChunkOf sealed.old chunk.old }
    requires next { is_next sealed.old chunk.old ≡ true }
    requires at_mark { area.old.failed ≡ false → StandsAtMark sealed.old (disk M.Media area.old) }
    ensures any_moment { area.old.failed ≡ false → StaysOrDigests area.old.geometry (disk M.Media area.old) sealed.old chunk.old.count (M.moment area.old.media) (M.moment area.new.media) (M.left area.old.media) (M.left area.new.media) }
    ensures digested { OnOk result (IsDigested area.old.geometry (disk M.Media area.old) sealed.old chunk.old.count (disk M.Media area.new)) }
    ensures done { OnOk result (IsDoneBy sealed.old chunk.old.count sealed.new) }
    ensures at_mark { OnOk result (StandsAtMark sealed.new (disk M.Media area.new)) }
    ensures bad { IfErr result (NamesFirstBad area.old.geometry (disk M.Media area.old) sealed.old chunk.old.count) }
    ensures refused { OnErr result (sealed.new ≡ sealed.old) }
    ensures digests { DigestsOrStays M.Media area.old area.new result }
    ensures change { OnOk result (changes_of chunk.new.change.change ≡ chunk_change (graph area.old.geometry (disk M.Media area.old)) chunk.old) }
    ensures no_swap { chunk.old.change.names ≡ [] → chunk.new ≡ chunk.old }
    ensures rest { chunk.new ≡ record chunk.old { change = chunk.new.change } }
    // As many writes and fences as the change of the chunk makes on the graph; what is read is not counted.
    ensures at_most { MakesFewCalls area.old.geometry (disk M.Media area.old) (chunk_change (graph area.old.geometry (disk M.Media area.old)) chunk.old) (M.moment area.old.media) (M.moment area.new.media) (M.left area.old.media) (M.left area.new.media) }
{
    let done = digest_next(alloc, area, sealed, chunk)?;
    sealed.set_done(done);
    Ok(())
}
