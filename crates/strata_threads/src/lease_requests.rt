//! Leases that a call needs, and room in the region.
ghost use Rattle.std.specs.Prelude.{◌≡◌, ◌≢◌, ◌<◌, ◌+◌, ℕ, max, IfErr, OnErr, OnOk, None};
ghost use Rattle.libfs.specs.LeaseCalls.{mode_of};
ghost use Rattle.libfs.specs.View.{ClientView};
ghost use Rattle.libfs.specs.declared.denial.Denied.TheVariants as denied;
ghost use Rattle.libfs.specs.lease_manager.Marks.{ShowsOther};
ghost use Rattle.libfs.specs.lease_manager.Passes.{lease_of};
ghost use Rattle.libfs.specs.lease_manager.Words.{HasWord};
ghost use Rattle.libfs.specs.lease_manager.declared.view.LeaseMode.TheVariants.{Free};
ghost use Rattle.libfs.specs.client_plan.declared.need.Need.TheVariants as needs;
ghost use Rattle.strata_threads.specs.CallDenials.{IsUnmet};
ghost use Rattle.strata_threads.specs.ClientCalls.{KeepsCall};
ghost use Rattle.strata_threads.specs.HeardQuestions.{row_of};
ghost use Rattle.strata_threads.specs.HolderQuestions.{HasAskedHolders, IsBarred, shows_mark, with_question_for, with_questions};
ghost use Rattle.strata_threads.specs.LeaseReturn.{IsLeased, KeepsLeases};
ghost use Rattle.strata_threads.specs.RegionHandover.{HandsOver, HasListened};
ghost use Rattle.strata_threads.specs.WaitedTurns.{HasWaitedFor, away_turn, taken_mode};

use crate::gate_point::GatePoint;
use crate::idle_turn::{has_bit, row_count};
use crate::shared_kernel::SharedKernel;
use crate::thread_client::ThreadClient;
use libfs::in_client_plan::Mode;
use libfs::in_lease_manager::{CLIENTS, LeaseMode, is_inode};
use libfs::{Client, Denied};
use posix_calls::client_index;
use std::sync::Wait;
use std::thread;
use tier_device::Media;

// A wipe makes four device calls, and a client has two regions.
pub(crate) const WIPE_STEPS: u32 = 8;

// The turns up to which a client that waits lets others go longer and longer
const MOST_YIELDS: u64 = 64;

// The turn of a call from which on it sleeps while it waits for its region: to be woken costs more than many digests leave to wait
const FIRST_NAP: u64 = 16;

impl<M: Media + Drop> ThreadClient<M> {
    // Takes a lease, for writing where the call waited to write the inode. Where it is busy each holder is asked for it, and the turn is waited.
    pub(crate) fn take_lease<R: Wait>(
        &mut self,
        rt: &R,
        shared: &SharedKernel<M>,
        inode: u32,
        mode: Mode,
    )
        requires left { self.old.waited.count < self.old.waited.turns }
        ensures kept { KeepsCall self.old.client self.new.client }
        ensures waited { HasWaitedFor (needs.Lease inode mode) self.old.waited self.new.waited }
        ensures got { self.new.waited ≡ self.old.waited → HasWord inode → IsLeased (taken_mode self.old.waited inode mode) self.new.client inode }
        ensures lease { self.new.waited ≡ self.old.waited → HasWord inode → lease_of self.old.client.pass inode ≡ Free → lease_of self.new.client.pass inode ≡ mode_of (taken_mode self.old.waited inode mode) }
        ensures others { self.new.waited ≡ self.old.waited → (i : ℕ) → HasWord i → i ≢ inode → lease_of self.new.client.pass i ≡ lease_of self.old.client.pass i }
        ensures asked { self.new.waited ≢ self.old.waited → HasAskedHolders M.Media inode self.old.client self.old.asked self.new.client self.new.asked }
        ensures raised { HasWord inode → self.new.rows ≡ max self.old.rows (row_of inode + 1) }
        ensures rows { (HasWord inode → ⊥) → self.new.rows ≡ self.old.rows }
    {
        if !is_inode(inode) {
            return;
        }
        self.rows = self.rows.max(row_count(inode));
        let mode = self.waited.lease_mode(inode, mode);
        match request_lease(&mut self.client, inode, mode) {
            Ok(()) => {}
            Err(word) => {
                self.waited.count_busy(&self.client, inode, mode, word);
                self.ask_holders(rt, shared, inode, word);
            }
        }
    }

    // Asks each holder of an inode for it, whose mark its word shows, and listens.
    fn ask_holders<R: Wait>(&mut self, rt: &R, shared: &SharedKernel<M>, inode: u32, word: u64)
        requires inode { HasWord inode }
        ensures listened { HasListened M.Media 16 (with_questions 8 self.old.client inode word) self.old.asked self.new.client self.new.asked }
        ensures rows { self.new.rows ≡ self.old.rows }
        ensures kept { KeepsCall self.old.client self.new.client }
        ensures waited { self.new.waited ≡ self.old.waited }
    {
        ask_others(&mut self.client, inode, word);
        self.let_go(rt, shared);
    }

    // Makes room: the current region is handed over, and what is to be wiped of the regions is wiped. Where the other one is away the turn is waited. Where there is no memory to seal one, that is why the call is denied.
    pub(crate) fn make_room<R: Wait, G: GatePoint>(
        &mut self,
        rt: &R,
        shared: &SharedKernel<M>,
        gate: &G,
    ) -> Result<(), Denied>
        requires left { self.old.waited.count < self.old.waited.turns }
        ensures handed { self.old.client.log.other ≢ None → OnOk result ((sealed : ClientView M) × HandsOver M.Media self.old.ends.kept self.old.client self.old.ends.tasks sealed self.new.ends.tasks self.new.ends.kept × (self.new.client ≡ record sealed { log = self.new.client.log })) }
        ensures unmet { IfErr result (λ e. IsUnmet M.Media self.old.client needs.Room e self.new.client) }
        ensures only { IfErr result (λ e. e ≡ denied.Memory) }
        ensures kept { KeepsCall self.old.client self.new.client }
        ensures waited { HasWaitedFor needs.Room self.old.waited self.new.waited }
        ensures away { self.old.client.log.other ≡ None → (self.new.waited ≡ away_turn self.old.waited) × HasListened M.Media 16 self.old.client self.old.asked self.new.client self.new.asked }
        ensures heard { self.new.waited ≢ self.old.waited → HasListened M.Media 16 self.old.client self.old.asked self.new.client self.new.asked }
        ensures freed { self.old.client.log.other ≢ None → self.new.waited ≡ self.old.waited }
        ensures refused { OnErr result (self.new.waited ≡ self.old.waited) }
    {
        if self.client.is_region_away() {
            self.waited.count_away(&self.client);
            self.wait_for_region(rt, shared);
            return Ok(());
        }
        self.free_region(rt, shared, gate)
    }

    // Hands the current region over, and wipes what is to be wiped of the regions.
    fn free_region<R: Wait, G: GatePoint>(
        &mut self,
        rt: &R,
        shared: &SharedKernel<M>,
        gate: &G,
    ) -> Result<(), Denied>
        ensures handed { OnOk result ((sealed : ClientView M) × HandsOver M.Media self.old.ends.kept self.old.client self.old.ends.tasks sealed self.new.ends.tasks self.new.ends.kept × (self.new.client ≡ record sealed { log = self.new.client.log })) }
        ensures unmet { IfErr result (λ e. IsUnmet M.Media self.old.client needs.Room e self.new.client) }
        ensures only { IfErr result (λ e. e ≡ denied.Memory) }
        ensures kept { KeepsCall self.old.client self.new.client }
        ensures waited { self.new.waited ≡ self.old.waited }
    {
        match self.hand_over(rt, shared) {
            Ok(()) => {
                wipe_regions(&mut self.client, gate);
                Ok(())
            }
            Err(_) => Err(Denied::Memory),
        }
    }

    // Listens in a turn in which the region is away. If it is still away, the client lets other threads go once, and in a later turn of its call it sleeps until a worker has sent it back, or a while.
    fn wait_for_region<R: Wait>(&mut self, rt: &R, shared: &SharedKernel<M>)
        ensures listened { HasListened M.Media 16 self.old.client self.old.asked self.new.client self.new.asked }
        ensures rows { self.new.rows ≡ self.old.rows }
        ensures kept { KeepsCall self.old.client self.new.client }
        ensures waited { self.new.waited ≡ self.old.waited }
    {
        self.listen(rt, shared);
        if !self.client.is_region_away() {
            return;
        }
        if self.waited.count() < FIRST_NAP {
            thread::yield_now();
            return;
        }
        shared
            .wake_ups
            .sleep(rt, client_index(self.client.client()));
    }

    // Listens in a turn that was waited, and lets other threads go. Only there: what a call was given is its own until it is answered or waits, else clients that ask for one another's leases would never hold all that they need.
    fn let_go<R: Wait>(&mut self, rt: &R, shared: &SharedKernel<M>)
        ensures listened { HasListened M.Media 16 self.old.client self.old.asked self.new.client self.new.asked }
        ensures rows { self.new.rows ≡ self.old.rows }
        ensures kept { KeepsCall self.old.client self.new.client }
        ensures waited { self.new.waited ≡ self.old.waited }
    {
        self.listen(rt, shared);
        pause(self.waited.count(), self.client.client());
    }
}

// Takes or raises a lease; the word that shows which other client holds it, where it is busy.
#[tactic(auto, using(crate::proofs::Busy::bar_is_other, crate::proofs::Busy::refusal_keeps_modes))]
fn request_lease<M: Media>(client: &mut Client<M>, inode: u32, mode: Mode) -> Result<(), u64>
    requires inode { HasWord inode }
    ensures kept { KeepsCall client.old client.new }
    ensures got { OnOk result (IsLeased mode client.new inode) }
    ensures lease { OnOk result (lease_of client.old.pass inode ≡ Free → lease_of client.new.pass inode ≡ mode_of mode) }
    ensures others { (i : ℕ) → HasWord i → i ≢ inode → lease_of client.new.pass i ≡ lease_of client.old.pass i }
    ensures refused { OnErr result (KeepsLeases client.old client.new) }
    ensures barred { IfErr result (λ word. IsBarred client.old inode word client.new) }
    ensures busy { IfErr result (λ word. ShowsOther client.new.pass.part.place word) }
{
    match client.holds(inode) {
        LeaseMode::Free => match client.lease(inode, mode) {
            Ok(()) => Ok(()),
            Err(busy) => Err(busy.0),
        },
        LeaseMode::Reading => match client.raise(inode) {
            Ok(()) => Ok(()),
            Err(busy) => Err(busy.0),
        },
        _ => Ok(()),
    }
}

// Asks each other client whose mark the word shows.
fn ask_others<M: Media>(client: &mut Client<M>, inode: u32, word: u64)
    requires inode { HasWord inode }
    ensures asked { client.new ≡ with_questions 8 client.old inode word }
    ensures kept { KeepsCall client.old client.new }
    ensures leases { KeepsLeases client.old client.new }
{
    let own = client.client();
    for place in 0..CLIENTS {
        ask_other(client, own, inode, word, place);
    }
}

// Asks the client at a place, if the word shows a mark of it and it is not client `own`.
fn ask_other<M: Media>(client: &mut Client<M>, own: u32, inode: u32, word: u64, place: u32)
    requires inode { HasWord inode }
    requires place { place < 8 }
    ensures asked { client.new ≡ with_question_for client.old own inode word place }
    ensures kept { KeepsCall client.old client.new }
    ensures leases { KeepsLeases client.old client.new }
{
    if has_mark(word, place) && place + 1 != own {
        client.ask_back(inode, place + 1);
    }
}

// Whether a lease word shows a mark of the client at a place.
fn has_mark(word: u64, place: u32) -> bool
    requires { place < 8 }
    ensures { result ≡ shows_mark place word }
{
    has_bit(word, place) || has_bit(word, 8 + place)
}

// Wipes what is to be wiped, and passes the gate before each device call. A device that fails then is reported when the call is started again.
fn wipe_regions<M: Media, G: GatePoint>(client: &mut Client<M>, gate: &G)
    ensures rest { client.new ≡ record client.old { log = client.new.log } }
    ensures kept { KeepsCall client.old client.new }
    ensures leases { KeepsLeases client.old client.new }
{
    for step in 0..WIPE_STEPS {
        gate.pass();
        match client.wipe_step() {
            Ok(Some(_)) => {}
            _ => return,
        }
    }
}

// Lets other threads go, the longer the more turns were waited, and in one turn each client for another time: two that bar one another would else begin anew in step. Each client has its turn to be the first.
fn pause(waited: u64, client: u32) {
    let place = (waited % CLIENTS as u64 + client as u64) % CLIENTS as u64;
    for time in 0..waited.min(MOST_YIELDS) * (place + 1) {
        thread::yield_now();
    }
}
