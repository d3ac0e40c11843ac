ghost use Rattle.std.specs.Prelude.{◌≡◌, [], ◌∷◌, ◌++◌, ◌+◌, ◌^◌, ◌<◌, ◌≤◌, true, false, IfOk, OnErr, OnOk, drop, length, vec_capacity};
ghost use Rattle.std.specs.List.{AllByRecursion};
ghost use Rattle.client_plan.specs.log_record.Grammar.{IsRecord};
ghost use Rattle.client_view.specs.After.{run_laid};
ghost use Rattle.client_view.specs.RecordLists.{IsEmptied, beyond};
ghost use Rattle.client_view.specs.RecordReach.{AreShort};

use crate::block_runs::take_records;
use crate::fetched_block::FetchedBlock;
use crate::record_reach::RecordReach;
use client_plan::in_file_graph::{Effect, Effects};
use client_plan::in_log_record::Record;
use std::alloc::{AllocError, Global};
use std::marker::Model;
use std::mem;

/// The records of a client that may not be digested yet, kept in memory: those of the region that it handed over and can't read meanwhile, and those of the region that it writes.
#[derive(Drop)]
pub struct OwnRecords {
    alloc: Global,
    away: Vec<Record>,
    current: Vec<Record>,
    // what each of them reaches
    away_reaches: Vec<RecordReach>,
    current_reaches: Vec<RecordReach>,
    // records that were digested last: their lists of effects are empty, and keep their memory for the records to come
    emptied: Vec<Record>,
}

impl Model for OwnRecords {
    ghost use Rattle.std.specs.Prelude.{◌&&◌, nat_lt, length, vec_capacity};
    ghost use Rattle.std.specs.List.{AllByRecursion};
    ghost use Rattle.client_plan.specs.log_record.Grammar.{IsRecord};
    ghost use Rattle.client_view.specs.RecordLists.{IsEmptied, Kept};
    ghost use Rattle.client_view.specs.RecordReach.{AreReaches};

    ghost Value = { Kept };

    ghost view = { λ o. record { away = o.away.items; current = o.current.items; has_room = nat_lt (length o.current.items) (vec_capacity o.current) && nat_lt (length o.current_reaches.items) (vec_capacity o.current_reaches) } };

    ghost invariant = { λ o. AllByRecursion IsRecord o.away.items × AllByRecursion IsRecord o.current.items × AllByRecursion IsEmptied o.emptied.items × AreReaches o.away_reaches.items o.away.items × AreReaches o.current_reaches.items o.current.items };
}

impl OwnRecords {
    /// No records.
    pub fn new(alloc: Global) -> Self
        ensures away { result.away ≡ [] }
        ensures current { result.current ≡ [] }
    {
        OwnRecords {
            alloc,
            away: Vec::new(alloc),
            current: Vec::new(alloc),
            away_reaches: Vec::new(alloc),
            current_reaches: Vec::new(alloc),
            emptied: Vec::new(alloc),
        }
    }

    /// The records of the region that was handed over, until it is back.
    pub fn sealed_records(&self) -> &[Record]
        ensures list { result.now ≡ self.now.away }
        ensures spelled { AllByRecursion IsRecord result.now }
    {
        &self.away
    }

    /// The records of the region that is written.
    pub fn current(&self) -> &[Record]
        ensures list { result.now ≡ self.now.current }
        ensures spelled { AllByRecursion IsRecord result.now }
    {
        &self.current
    }

    /// Takes the memory for one record more of the region that is written, before it is begun. No memory is asked for where there is room already. With one more the records of both regions are still fewer
    /// than 2⁶⁴.
    pub fn make_room(&mut self) -> Result<(), AllocError>
        ensures room { OnOk result (self.new.has_room ≡ true) }
        ensures rest { self.new ≡ record self.old { has_room = self.new.has_room } }
        ensures refused { OnErr result (self.old.has_room ≡ false) }
        ensures few { length self.old.away + length self.old.current + 1 < 2 ^ 64 }
    {
        self.current.reserve(1)?;
        self.current_reaches.reserve(1)
    }

    /// A record is in the client's log. It takes no memory.
    pub fn push(&mut self, logged: Record)
        requires room { self.old.has_room ≡ true }
        requires spelled { IsRecord logged }
        ensures pushed { self.new.current ≡ self.old.current ++ logged ∷ [] }
        ensures rest { self.new.away ≡ self.old.away }
    {
        let reach = RecordReach::of(logged.effects.as_slice());
        push_within(&mut self.current_reaches, reach);
        push_within(&mut self.current, logged);
    }

    /// The region that is written is handed over, and the client goes on in the other one, of which all records are digested. It takes no memory.
    pub fn seal(&mut self)
        ensures away { self.new.away ≡ self.old.current }
        ensures current { self.new.current ≡ [] }
    {
        mem::swap(&mut self.away, &mut self.current);
        mem::swap(&mut self.away_reaches, &mut self.current_reaches);
        self.current.clear();
        self.current_reaches.clear();
    }

    /// The region that was handed over is back, and all its records are digested. Their lists of effects are kept, emptied, and those that were kept before are freed. It takes
    /// no memory.
    pub fn take_back(&mut self)
        ensures { self.new ≡ record self.old { away = [] } }
    {
        mem::swap(&mut self.emptied, &mut self.away);
        self.away.clear();
        self.away_reaches.clear();
        empty_lists(self.alloc, &mut self.emptied);
    }

    /// An empty list for the effects of a record: one that is kept of a digested record, or a new one with room for one effect, for which alone memory is asked for.
    pub fn effect_list(&mut self) -> Result<Vec<Effect>, AllocError>
        ensures empty { IfOk result (λ list. list.items ≡ []) }
        ensures rest { self.new ≡ self.old }
    {
        match self.emptied.pop() {
            Some(entry) => Ok(entry.effects.into_vec()),
            None => Vec::with_capacity(self.alloc, 1),
        }
    }

    /// Lays the records behind a mark over a run of blocks of a file from a first one on: whether that is in the generation of the region that is written, or in the one before, and how many records of that
    /// one are digested. It takes no memory.
    pub fn lay_over(
        &self,
        is_current: bool,
        done: usize,
        inode: u32,
        first: u32,
        run: &mut [FetchedBlock],
    )
        requires blocks { first + length run.old ≤ 2 ^ 32 }
        requires short { AreShort run.old }
        ensures { run.new ≡ run_laid (beyond self.now is_current done) inode first run.old }
    {
        if is_current {
            self.lay_current(done, inode, first, run);
            return;
        }
        self.lay_away(done, inode, first, run);
        self.lay_current(0, inode, first, run);
    }

    // Lays the records behind so many of the region that was handed over.
    fn lay_away(&self, done: usize, inode: u32, first: u32, run: &mut [FetchedBlock])
        requires blocks { first + length run.old ≤ 2 ^ 32 }
        requires short { AreShort run.old }
        ensures laid { run.new ≡ run_laid (drop done self.now.away) inode first run.old }
        ensures short { AreShort run.new }
    {
        let records = records_from(&self.away, done);
        let reaches = reaches_from(&self.away_reaches, done);
        take_records(records, reaches, inode, first, run);
    }

    // Lays the records behind so many of the region that is written.
    fn lay_current(&self, done: usize, inode: u32, first: u32, run: &mut [FetchedBlock])
        requires blocks { first + length run.old ≤ 2 ^ 32 }
        requires short { AreShort run.old }
        ensures { run.new ≡ run_laid (drop done self.now.current) inode first run.old }
    {
        let records = records_from(&self.current, done);
        let reaches = reaches_from(&self.current_reaches, done);
        take_records(records, reaches, inode, first, run);
    }
}

// The lists of effects of records are emptied, and keep their memory.
fn empty_lists(alloc: Global, records: &mut [Record])
    ensures { AllByRecursion IsEmptied records.new }
{
    for entry in records.iter_mut() {
        empty_list(alloc, &mut entry.effects);
    }
}

fn empty_list(alloc: Global, effects: &mut Effects)
    ensures { effects.new ≡ [] }
{
    let none = Effects::from_vec(Vec::new(alloc));
    let mut list = mem::replace(effects, none).into_vec();
    list.clear();
    *effects = Effects::from_vec(list);
}

// Puts something behind a list that has room for it.
fn push_within<T: Drop>(list: &mut Vec<T>, item: T)
    requires { length list.old.items < vec_capacity list.old }
    ensures { list.new.items ≡ list.old.items ++ item ∷ [] }
{
    match list.push(item) {
        Ok(()) => {}
        Err(_) => unreachable!(),
    }
}

// What the records behind so many reach.
fn reaches_from(reaches: &[RecordReach], done: usize) -> &[RecordReach]
    ensures { result.now ≡ drop done reaches.now }
{
    &reaches[done.min(reaches.len())..]
}

// The records behind so many.
fn records_from(records: &[Record], done: usize) -> &[Record]
    ensures { result.now ≡ drop done records.now }
{
    &records[done.min(records.len())..]
}
