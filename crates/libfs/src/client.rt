ghost use Rattle.std.specs.Prelude.{◌≡◌, ◌≢◌, ◌<◌, ℕ, ◌++◌, List, [], true, false, Some, None, IfOk, IfErr, IfSome, is_some, length, IsTrue, ◌↔◌};
ghost use Rattle.std.specs.List.{AllByRecursion};
ghost use Rattle.lease_manager.specs.file_graph.Graph.{is_among};
ghost use Rattle.lease_manager.specs.log_record.Grammar.{IsRecord};
ghost use Rattle.client_log.specs.update_log.RecordCounts.{next_generation};
ghost use Rattle.client_log.specs.update_log.Frames.{end_behind};
ghost use Rattle.client_log.specs.update_log.Stage.{IsUnopened};
ghost use Rattle.client_log.specs.update_log.View.{records_of as records_in};
ghost use Rattle.lease_manager.specs.declared.view.LeaseMode.TheVariants.{Writing, Trying};
ghost use Rattle.lease_manager.specs.Words.{HasWord, IsClient};
ghost use Rattle.lease_manager.specs.Passes.{client_of, lease_of, records_of};
ghost use Rattle.posix_calls.specs.Tree.{has_open};
ghost use Rattle.client_log.specs.Counts.{AreLeft, CountOf};
ghost use Rattle.client_log.specs.Regions.{CountsNothing, IsWiped, in_turn};
ghost use Rattle.client_log.specs.View.{current_records};
ghost use Rattle.libfs.specs.View.{begun_record, is_pending, own_records};
ghost use Rattle.lease_manager.specs.RecordCounts.{Counts, touch_count};
ghost use Rattle.libfs.specs.ClientHoldings.{known_to};
ghost use Rattle.libfs.specs.NewClient.{IsBlank, IsNew};
ghost use Rattle.libfs.specs.OwnCopies.{AreCopied, number_made};

use crate::begun_record::Begun;
use client_log::ClientLog;
use client_log::in_update_log::Region;
use client_view::{ClientCopies, OwnRecords};
use lease_manager::in_log_record::Record;
use lease_manager::{LeaseMode, Leases, Pass};
use std::alloc::{AllocError, Global};
use std::marker::Model;
use tier_device::Media;

/// One client of the file system. Contracts see its parts (`ClientView`): the pass, the log, what it knows, its pins and spare units, the call that it has begun, and the
/// records of the region that is away.
#[derive(Drop)]
pub struct Client<M: Media> {
    pub(crate) alloc: Global,
    pub(crate) leases: Leases,
    pub(crate) pass: Pass,
    pub(crate) log: ClientLog<M>,
    pub(crate) copies: ClientCopies,
    pub(crate) pins: Vec<u32>,
    pub(crate) spare: u32,
    pub(crate) begun: Option<Begun>,
    // whether the begun call was answered all the same, as it met a fault
    pub(crate) answered: bool,
    // the records that may not be digested yet: those of the region that is away, and those of the current one
    pub(crate) records: OwnRecords,
}

impl<M: Media> Model for Client<M> {
    ghost use Rattle.std.specs.Coded.{codes};
    ghost use Rattle.client_view.specs.KnowledgeTables.{held_code};
    ghost use Rattle.libfs.specs.contracts.begun_record.Begun as begun_call;
    ghost use Rattle.libfs.specs.View.{ClientView};
    ghost use Rattle.libfs.specs.Sound.{IsSound};

    ghost Value = { ClientView M };

    ghost coded = { Prim.hlevel (codes, held_code, begun_call.the_row.coded) };

    ghost view = { λ c. record { pass = c.pass; log = c.log; copies = c.copies; pins = c.pins.items; spare = c.spare; begun = c.begun; answered = c.answered; sealed = c.records.away } };

    ghost invariant = { λ c. IsSound M.Media c.leases c.pass c.log c.copies c.begun c.answered c.records };
}

/// What a client leaves.
#[derive(Drop)]
pub struct Detached<M: Media> {
    pub leases: Leases,
    pub pass: Pass,
    /// The current generation of its log.
    pub generation: u64,
    /// The region of even generations and that of odd ones, where they are here.
    pub regions: (Option<Region<M>>, Option<Region<M>>),
}

impl<M: Media> Client<M> {
    /// The client of a pass and of a log, which has no record and neither region away. It knows nothing, and nothing is granted to it. It keeps the allocator for its calls.
    ///
    /// All is given back where there is no memory.
    pub fn open(
        alloc: Global,
        leases: Leases,
        pass: Pass,
        log: ClientLog<M>,
    ) -> Result<Self, (AllocError, (Leases, Pass, ClientLog<M>))>
        requires table { pass.table ≡ leases }
        requires blank { IsBlank M.Media log }
        requires uncounted { (i : ℕ) → HasWord i → records_of pass i ≡ 0 }
        ensures opened { IfOk result (IsNew pass log) }
        ensures back { IfErr result (λ e. e.1 ≡ (leases, pass, log)) }
    {
        match ClientCopies::new(alloc, pass.client()) {
            Ok(copies) => Ok(Client {
                alloc,
                leases,
                pass,
                log,
                copies,
                pins: Vec::new(alloc),
                spare: 0,
                begun: None,
                answered: false,
                records: OwnRecords::new(alloc),
            }),
            Err(error) => Err((error, (leases, pass, log))),
        }
    }

    /// The client's number, from 1 to 8.
    pub fn client(&self) -> u32
        ensures number { result ≡ client_of self.now.pass }
        ensures known { (known_to self.now).client ≡ result }
        ensures within { IsClient result }
    {
        // For the proof: the invariant of a client is at hand.
        let _ = &self.log;
        self.pass.client()
    }

    /// Whether a call waits for its answer: it is begun and not answered.
    pub fn is_pending(&self) -> bool
        ensures { result ≡ is_pending self.now }
    {
        self.begun.is_some() && !self.answered
    }

    /// Whether a device of the client's regions has failed: each further call is answered by that.
    pub fn has_failed(&self) -> bool
        ensures { result ≡ self.now.log.failed }
    {
        self.log.has_failed()
    }

    /// Whether a record is begun and not kept: its call waits for its answer, or met a fault.
    pub fn has_begun(&self) -> bool
        ensures { result ≡ is_some self.now.begun }
    {
        self.begun.is_some()
    }

    /// The records of the region that is away, in their order; none where none is.
    pub fn sealed_records(&self) -> &[Record]
        ensures { result.now ≡ self.now.sealed }
    {
        self.records.sealed_records()
    }

    /// The records of the current region, in their order.
    pub fn current_records(&self) -> &[Record]
        ensures { result.now ≡ current_records M.Media self.now.log }
    {
        self.records.current()
    }

    /// How many records of the client are not known to be digested: those of the current region, and of the one that is away.
    pub fn undigested(&self) -> usize
        ensures { result ≡ length (self.now.sealed ++ current_records M.Media self.now.log) }
    {
        self.records.sealed_records().len() + self.records.current().len()
    }

    /// The units that it was granted and has not used.
    pub fn spare(&self) -> u32
        ensures { result ≡ self.now.spare }
    {
        self.spare
    }

    /// Whether it has pinned an inode.
    pub fn is_pinned(&self, inode: u32) -> bool
        ensures { result ≡ is_among inode self.now.pins }
    {
        self.pins.contains(&inode)
    }

    /// Whether an inode is open at one of its descriptors.
    pub fn has_open(&self, inode: u32) -> bool
        ensures { result ≡ has_open (known_to self.now).own inode }
    {
        self.copies.own().has_open(inode)
    }

    /// Whether the client has handed a region over that is not back.
    pub fn is_region_away(&self) -> bool
        ensures { IsTrue result ↔ (self.now.log.other ≡ None) }
    {
        self.log.is_away()
    }

    /// How the client stands to an inode.
    pub fn holds(&self, inode: u32) -> LeaseMode
        requires { HasWord inode }
        ensures mode { result ≡ lease_of self.now.pass inode }
        ensures settled { result ≢ Trying }
    {
        self.pass.lease(inode)
    }

    /// What holds of a client: what it has begun is begun in its log, its pass counts just its records that are not digested, and each inode that one of them touches it holds for
    /// writing and has a copy of, but for the node that the begun one makes. Where both regions are here none of its records is away, those that are away have spellings, and only where a device has failed a call is answered whose record stays begun.
    pub fn own_records_are_held(&self)
        ensures begins { begun_record self.now.begun ≡ self.now.log.current.begun }
        ensures counts { Counts self.now.pass (own_records M.Media self.now) }
        ensures held { (i : ℕ) → HasWord i → 0 < touch_count (own_records M.Media self.now) i → lease_of self.now.pass i ≡ Writing }
        ensures copied { AreCopied (own_records M.Media self.now) (number_made self.now.begun) (known_to self.now) }
        ensures back { is_some self.now.log.other ≡ true → self.now.sealed ≡ [] }
        ensures spelled { AllByRecursion IsRecord self.now.sealed }
        ensures failed { self.now.answered ≡ true → (self.now.log.failed ≡ true) × (is_some self.now.begun ≡ true) }
    {
        self.pass.counts_held();
        let _away = self.records.sealed_records();
    }

    /// What a stop may leave now, between two calls: of what the regions hold that are here, just the records of the client's log count, with the begun one or without. And which of them are
    /// wiped, as a log that is opened asks for.
    pub fn left_now(&self)
        // The next record's gate stands behind the records of the current region.
        ensures end { self.now.log.current.end ≡ end_behind (records_in M.Media self.now.log.current) }

        ensures current_wiped { self.now.log.failed ≡ false → self.now.log.ready ≡ true → self.now.log.current.begun ≡ None → current_records M.Media self.now.log ≡ [] → IsWiped M.Media self.now.log.generation self.now.log.current }
        ensures other_wiped { self.now.log.clean ≡ true → IfSome self.now.log.other (IsWiped M.Media (next_generation self.now.log.generation)) }
        ensures beside { IfSome self.now.log.other (CountsNothing M.Media (next_generation self.now.log.generation)) }
        ensures counts { (regions : ℕ → List ℕ) → AreLeft M.Media self.now.log self.now.log regions → CountOf self.now.log.generation (is_some self.now.log.other) (current_records M.Media self.now.log) self.now.log.current.begun regions }
        // Until the call that opens its gate, the begun record does not count.
        ensures unopened { IsUnopened self.now.log.current.stage → (regions : ℕ → List ℕ) → AreLeft M.Media self.now.log self.now.log regions → CountOf self.now.log.generation (is_some self.now.log.other) (current_records M.Media self.now.log) None regions }
    {
        self.log.left_now();
    }

    /// The pass, the log's generation and the regions that are here, to which the client makes no call any more.
    pub fn detach(self) -> Detached<M>
        ensures pass { result.pass ≡ self.pass }
        ensures table { result.leases ≡ self.pass.table }
        ensures generation { result.generation ≡ self.log.generation }
        ensures regions { result.regions ≡ in_turn self.log.generation (Some self.log.current, self.log.other) }
    {
        let Client {
            leases,
            pass,
            log,
            ..
        } = self;
        Detached {
            leases,
            pass,
            generation: log.generation(),
            regions: log.into_regions(),
        }
    }
}
