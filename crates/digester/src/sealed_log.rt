ghost use Rattle.std.specs.Prelude.{◌≡◌, ◌↔◌, ◌<◌, ◌≤◌, ◌^◌, ◌==◌, true, length};
ghost use Rattle.std.specs.List.{AllByRecursion};
ghost use Rattle.std.specs.List.Sorted.{IsStrictlyIncreasing};
ghost use Rattle.posix_calls.specs.Operations.{is_client};
ghost use Rattle.update_log.specs.log_record.Grammar.{IsRecord};
ghost use Rattle.digester.specs.SealedLog.{IsSealed, StandsAt, done_to};

use crate::digest_marks::{is_mark, mark_after, mark_of};
use shared_area::in_layout::Marks;
use std::marker::Model;
use update_log::in_log_record::Record;

/// The records of a region that its client sealed, in memory, and how many of them are digested.
///
/// Contracts see `SealedView` (`specs/SealedLog.antt`). Clients are numbered from 1 to 8. How many records are digested moves by `digest_chunk` alone.
#[derive(Drop)]
pub struct SealedLog {
    client: u32,
    generation: u64,
    done: u32,
    held: Vec<u32>,
    records: Vec<Record>,
}

impl Model for SealedLog {
    ghost use Rattle.digester.specs.SealedLog.{SealedView, IsSealed};

    ghost Value = { SealedView };

    ghost view = { λ x. record { client = x.client; generation = x.generation; done = x.done; held = x.held.items; records = x.records.items } };

    ghost invariant = { λ x. IsSealed (record { client = x.client; generation = x.generation; done = x.done; held = x.held.items; records = x.records.items }) };
}

impl SealedLog {
    /// The log of a region none of whose records is digested: all records of the region in their order, and the inodes, rising and each once, that its client held for writing.
    pub fn new(client: u32, generation: u64, held: Vec<u32>, records: Vec<Record>) -> Self
        requires client { is_client client ≡ true }
        requires rising { IsStrictlyIncreasing held.items }
        requires spelled { AllByRecursion IsRecord records.items }
        requires few { length records.items < 2 ^ 32 }
        ensures { result ≡ record { client = client; generation = generation; done = 0; held = held.items; records = records.items } }
    {
        SealedLog {
            client,
            generation,
            done: 0,
            held,
            records,
        }
    }

    /// The log of a region of which `done` records are digested, as the mark of its client tells after a recovery.
    pub fn resume(
        client: u32,
        generation: u64,
        held: Vec<u32>,
        records: Vec<Record>,
        done: u32,
    ) -> Self
        requires client { is_client client ≡ true }
        requires rising { IsStrictlyIncreasing held.items }
        requires spelled { AllByRecursion IsRecord records.items }
        requires few { length records.items < 2 ^ 32 }
        requires within { done ≤ length records.items }
        ensures { result ≡ record { client = client; generation = generation; done = done; held = held.items; records = records.items } }
    {
        SealedLog {
            client,
            generation,
            done,
            held,
            records,
        }
    }

    /// Whose log it is, from 1 to 8.
    pub fn client(&self) -> u32
        ensures { result ≡ self.now.client }
    {
        self.client
    }

    /// The generation that the region holds.
    pub fn generation(&self) -> u64
        ensures { result ≡ self.now.generation }
    {
        self.generation
    }

    /// How many of its records are digested.
    pub fn digested_count(&self) -> u32
        ensures { result ≡ self.now.done }
    {
        self.done
    }

    /// The inodes that the client held for writing, rising, each once.
    pub fn held_inodes(&self) -> &[u32]
        ensures { result.now ≡ self.now.held }
    {
        &self.held
    }

    /// All records of the region, in their order.
    pub fn records(&self) -> &[Record]
        ensures { result.now ≡ self.now.records }
    {
        &self.records
    }

    /// How many records it has, digested or not.
    pub fn count(&self) -> u32
        ensures { result ≡ length self.now.records }
    {
        self.records.len() as u32
    }

    /// Whether all its records are digested.
    pub fn is_digested(&self) -> bool
        ensures exact { result ≡ (self.now.done == length self.now.records) }
    {
        self.done as usize == self.records.len()
    }

    /// States what holds of every sealed log.
    pub fn invariant(&self)
        ensures { IsSealed self.now }
    {
        let _ = &self.records;
    }

    /// Whether it stands at the mark of its client: the mark names its generation and so many records as are digested of it, or, once they all
    /// are, the next generation and none.
    pub fn stands_at(&self, marks: &Marks) -> bool
        ensures exact { (result ≡ true) ↔ StandsAt self.now marks.now }
    {
        // For the proof: no more are digested than it has.
        self.invariant();
        let wanted = mark_after(self.generation(), self.digested_count(), self.count());
        is_mark(mark_of(marks, self.client()), wanted)
    }

    // So many of its records are digested from now on.
    pub(crate) fn set_done(&mut self, done: u32)
        requires within { done ≤ length self.old.records }
        ensures { self.new ≡ done_to done self.old }
    {
        self.done = done;
    }
}
