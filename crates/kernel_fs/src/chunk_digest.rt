//! A chunk reaches the shared area, and what is kept in memory follows it.

ghost use Rattle.std.specs.Prelude.{◌≡◌, ◌≤◌, ◌<◌, ◌+◌, ◌↔◌, ℕ, [], length, take, true, false, IsTrue, IfErr, OnOk, OnErr};
ghost use Rattle.std.specs.List.{AllByRecursion};
ghost use Rattle.posix_calls.specs.Operations.{is_client};
ghost use Rattle.world_invariant.specs.file_graph.Graph.{Graph};
ghost use Rattle.migrator.specs.graph_change.View.{changes_of};
ghost use Rattle.world_invariant.specs.log_record.Grammar.{IsRecord};
ghost use Rattle.migrator.specs.shared_area.ChangeApply.{MakesFewCalls};
ghost use Rattle.migrator.specs.area_reader.Store.{disk, graph};
ghost use Rattle.digester.specs.Chunk.{IsChunkOf, chunk_change, is_next};
ghost use Rattle.digester.specs.DigestStep.{IsDigested, NamesFirstBad, StaysOrDigests, DigestsOrStays};
ghost use Rattle.digester.specs.SealedLog.{HasUndigested, IsDoneBy, StandsAtMark, undone};
ghost use Rattle.world_invariant.specs.Logs.{after_records, units_in};
ghost use Rattle.world_invariant.specs.Machine.{Machine, digest as digested};
ghost use Rattle.kernel_fs.specs.Book.{units_of, waiting_of, out_of, IsBookOf};
ghost use Rattle.kernel_fs.specs.Inodes.{has};
ghost use Rattle.kernel_fs.specs.Nodes.{AreNodes};
ghost use Rattle.kernel_fs.specs.RegionAccept.{BeginsAtMark, HasAsManyWaiting};

use crate::{Book, InodeSet};
use digester::{Chunk, DigestError, SealedLog, digest_chunk};
use migrator::in_shared_area::Shared;
use std::alloc::Global;
use tier_device::Media;
use world_invariant::in_log_record::Record;

/// What becomes of a chunk that the kernel is to digest.
#[derive(Clone, Copy, PartialEq, Eq)]
pub enum Digestion {
    /// It is digested.
    Digested,
    /// It does not begin at the mark of its log's client, for one of two reasons. It is stale: it does not begin with the first record that its log has undigested, and is to be prepared again. Or its log stands at
    /// another mark than its client's: its generation is over, or records of it were digested that it does not count.
    NotNext,
    /// It begins at the mark, but not as many records of its client are waiting as its log has undigested: the region was not accepted since the media were opened, or its client was buried.
    NotAccepted,
}

/// Whether a chunk of a log begins at the mark of the log's client.
pub fn begins_at_mark<M: Media>(area: &Shared<M>, log: &SealedLog, chunk: &Chunk) -> bool
    requires going { area.now.failed ≡ false }
    ensures { IsTrue result ↔ BeginsAtMark log.now chunk.now (disk M.Media area.now) }
{
    chunk.is_next(log) && log.stands_at(&area.marks())
}

/// The book and the set of nodes follow records that were digested.
pub fn follow(book: &mut Book, nodes: &mut InodeSet, client: u32, records: &[Record])
    requires client { is_client client ≡ true }
    requires waiting { length records.now ≤ waiting_of book.old client }
    requires spelled { AllByRecursion IsRecord records.now }
    ensures step { (m : Machine) → IsBookOf book.old m → IsBookOf book.new (digested m client records.now) }
    ensures nodes { (g : Graph) → AreNodes g (has nodes.old) → AreNodes (after_records g records.now) (has nodes.new) }
    ensures waiting { waiting_of book.new client + length records.now ≡ waiting_of book.old client }
    ensures law { (before after capacity : ℕ) → units_in records.now ≤ units_of book.old client → after ≤ before + units_in records.now → before + out_of book.old ≤ capacity → after + out_of book.new ≤ capacity }
{
    book.digest(client, records);
    nodes.follow(records);
}

/// Digests a chunk that begins at the mark, and what is kept in memory follows it. What the chunk's Swaps enter is told to it then, by the area: after a refusal nothing is said of
/// its change.
pub fn digest_at_mark<M: Media>(
    alloc: Global,
    area: &mut Shared<M>,
    book: &mut Book,
    nodes: &mut InodeSet,
    log: &mut SealedLog,
    chunk: &mut Chunk,
) -> Result<(), DigestError>
    requires some { HasUndigested log.old }
    requires chunk { IsChunkOf log.old chunk.old }
    requires next { is_next log.old chunk.old ≡ true }
    requires at_mark { area.old.failed ≡ false → StandsAtMark log.old (disk M.Media area.old) }
    requires accepted { HasAsManyWaiting book.old log.old }
    ensures any_moment { area.old.failed ≡ false → StaysOrDigests area.old.geometry (disk M.Media area.old) log.old chunk.old.count (M.moment area.old.media) (M.moment area.new.media) (M.left area.old.media) (M.left area.new.media) }
    ensures digested { OnOk result (IsDigested area.old.geometry (disk M.Media area.old) log.old chunk.old.count (disk M.Media area.new)) }
    ensures done { OnOk result (IsDoneBy log.old chunk.old.count log.new) }
    ensures at_mark { OnOk result (StandsAtMark log.new (disk M.Media area.new)) }
    ensures book { OnOk result ((m : Machine) → IsBookOf book.old m → IsBookOf book.new (digested m log.old.client (take chunk.old.count (undone log.old)))) }
    ensures nodes { OnOk result ((g : Graph) → AreNodes g (has nodes.old) → AreNodes (after_records g (take chunk.old.count (undone log.old))) (has nodes.new)) }
    ensures accepted { OnOk result (HasAsManyWaiting book.new log.new) }
    ensures law { OnOk result ((before after capacity : ℕ) → units_in (take chunk.old.count (undone log.old)) ≤ units_of book.old log.old.client → after ≤ before + units_in (take chunk.old.count (undone log.old)) → before + out_of book.old ≤ capacity → after + out_of book.new ≤ capacity) }
    ensures bad { IfErr result (NamesFirstBad area.old.geometry (disk M.Media area.old) log.old chunk.old.count) }
    ensures refused { OnErr result ((book.new ≡ book.old) × (nodes.new ≡ nodes.old) × (log.new ≡ log.old)) }
    ensures digests { DigestsOrStays M.Media area.old area.new result }
    ensures at_most { MakesFewCalls area.old.geometry (disk M.Media area.old) (chunk_change (graph area.old.geometry (disk M.Media area.old)) chunk.old) (M.moment area.old.media) (M.moment area.new.media) (M.left area.old.media) (M.left area.new.media) }
    ensures chunk_after { OnOk result (changes_of chunk.new.change.change ≡ chunk_change (graph area.old.geometry (disk M.Media area.old)) chunk.old) }
    ensures chunk_without_swap { chunk.old.change.names ≡ [] → chunk.new ≡ chunk.old }
    ensures chunk_rest { chunk.new ≡ record chunk.old { change = chunk.new.change } }
{
    let first = log.digested_count() as usize;
    digest_chunk(alloc, area, log, chunk)?;
    // For the proof: the records within which the digested ones end.
    log.invariant();
    let end = log.digested_count() as usize;
    follow(book, nodes, log.client(), &log.records()[first..end]);
    Ok(())
}
