//! What is done with a client that died: its call is settled, its account with the kernel is emptied, and its pass and log go to a new client.
ghost use Rattle.std.specs.Prelude.{◌≡◌, ◌≤◌, ◌↔◌, ℕ, List, [], true, false, None, Ok, Err, IfOk, IfErr, IfSome, IsOk, IsSome, IsTrue, OnErr, OnOk, is_some};
ghost use Rattle.std.specs.List.{AllByRecursion};
ghost use Rattle.std.specs.Option.{ForSome};
ghost use Rattle.client_log.specs.update_log.declared.stage.Stage.TheVariants as stages;
ghost use Rattle.client_log.specs.declared.error.LogError.TheVariants.{DeviceFault};
ghost use Rattle.client_log.specs.Calls.{IsMovedOnce};
ghost use Rattle.client_log.specs.Counts.{AreLeft, CountOf};
ghost use Rattle.client_log.specs.View.{current_records};
ghost use Rattle.lease_manager.specs.log_record.Grammar.{FitsLimits};
ghost use Rattle.lease_manager.specs.Passes.{records_of};
ghost use Rattle.lease_manager.specs.RecordCounts.{HasUncounted, is_touched, one_if};
ghost use Rattle.lease_manager.specs.Words.{HasWord};
ghost use Rattle.libfs.specs.ClientEnd.{Buries, CanBeRenewed, IsEmptied, IsRenewed, Settles, unburied};
ghost use Rattle.libfs.specs.ClientHoldings.{known_to};
ghost use Rattle.libfs.specs.View.{own_records};
ghost use Rattle.client_view.specs.KnowledgeChanges.{all_closed};

use crate::begun_record::Begun;
use crate::bury_error::BuryError;
use crate::call_step::keep_record;
use crate::client::Client;
use crate::fate::Fate;
use client_log::LogError;
use kernel_fs::Kernel;
use lease_manager::{Leases, Pass, clean_effects, give_all};
use tier_device::Media;

impl<M: Media> Client<M> {
    /// Finds what became of the call that waits for its answer, by one fence of the region that is written, and closes all that the client has open; where no call waits it makes no device
    /// call. It takes no memory.
    ///
    /// Where the device fails, the client has failed, and its record stays begun. One that has failed before makes no call and answers `DeviceFault` with nothing changed.
    pub fn settle(&mut self) -> Result<Fate, LogError>
        // At each moment of the call what counted before it counts, with the begun record or without.
        ensures any_moment { (regions : ℕ → List ℕ) → AreLeft M.Media self.old.log self.new.log regions → CountOf self.old.log.generation (is_some self.old.log.other) (current_records M.Media self.old.log) self.old.log.current.begun regions }

        ensures settles { Settles M.Media self.old result self.new }

        // That it is one device call, where a call waits, and else none.
        ensures moved { self.old.log.failed ≡ false → IsSome self.old.begun → IsMovedOnce M.Media self.old.log.current self.new.log.current result }
        ensures quiet { self.old.begun ≡ None → self.new.log ≡ self.old.log }
        ensures stage { self.old.log.failed ≡ false → IsSome self.old.begun → OnOk result (self.new.log.current.stage ≡ stages.Resting) }
        ensures stage_failed { self.old.log.failed ≡ false → OnErr result (self.new.log.current.stage ≡ stages.Failed) }
        ensures rest { self.new.log ≡ record self.old.log { current = self.new.log.current; failed = self.new.log.failed } }
        // Its leases stay, and the records of the region that is away.
        ensures leases { self.new.pass ≡ record self.old.pass { records = self.new.pass.records } }
        ensures sealed { self.new.sealed ≡ self.old.sealed }
        ensures stays_failed { self.old.log.failed ≡ true → (result ≡ Err DeviceFault) × (self.new ≡ self.old) }
    {
        // For the proof: what a stop leaves where no device call is made.
        self.log.left_now();
        if self.log.has_failed() {
            return Err(LogError::DeviceFault);
        }
        if self.begun.is_none() {
            self.close_idle();
            return Ok(Fate::None);
        }
        self.settle_begun()
    }

    // Closes all that the client has open, where no call waits.
    fn close_idle(&mut self)
        requires { self.old.begun ≡ None }
        ensures known { known_to self.new ≡ all_closed (known_to self.old) }
        ensures rest { self.new ≡ record self.old { copies = record self.old.copies { own = self.new.copies.own } } }
    {
        self.copies.close_all();
    }

    // The same, where a call waits.
    fn settle_begun(&mut self) -> Result<Fate, LogError>
        requires begun { IsSome self.old.begun }
        requires going { self.old.log.failed ≡ false }
        ensures any_moment { (regions : ℕ → List ℕ) → AreLeft M.Media self.old.log self.new.log regions → CountOf self.old.log.generation (is_some self.old.log.other) (current_records M.Media self.old.log) self.old.log.current.begun regions }
        ensures settles { Settles M.Media self.old result self.new }
        ensures moved { IsMovedOnce M.Media self.old.log.current self.new.log.current result }
        ensures stage { OnOk result (self.new.log.current.stage ≡ stages.Resting) }
        ensures stage_failed { OnErr result (self.new.log.current.stage ≡ stages.Failed) }
        ensures rest { self.new.log ≡ record self.old.log { current = self.new.log.current; failed = self.new.log.failed } }
        // Its leases stay, and the records of the region that is away.
        ensures leases { self.new.pass ≡ record self.old.pass { records = self.new.pass.records } }
        ensures sealed { self.new.sealed ≡ self.old.sealed }
    {
        match self.log.settle() {
            Ok(true) => {
                let reply = keep_record(&mut self.begun, &mut self.copies, &mut self.records);
                self.copies.close_all();
                Ok(Fate::Whole { reply })
            }
            Ok(false) => {
                drop_record(&self.leases, &mut self.pass, &mut self.begun);
                self.copies.close_all();
                Ok(Fate::Gone)
            }
            Err(error) => Err(error),
        }
    }

    /// Drops all that the client has of the kernel, by one entry of it, after it has given its leases: at each moment the kernel's book has who holds one. It knows nothing then. It makes no
    /// device call and takes no memory.
    ///
    /// Refused, with nothing changed of client and kernel: `NotDigested`, with their number, exactly where records are undigested or in a region that is not back; else `KernelFailed`,
    /// exactly where a device of the kernel has failed.
    pub fn bury<S: Media>(&mut self, kernel: &mut Kernel<S>) -> Result<(), BuryError>
        ensures buries { Buries M.Media S.Media kernel.old self.old result self.new kernel.new }
    {
        let count = self.unburied_count();
        if count > 0 {
            return Err(BuryError::NotDigested { count });
        }
        if kernel.has_failed() {
            return Err(BuryError::KernelFailed);
        }
        self.empty();
        match kernel.bury(self.pass.client()) {
            Ok(()) => Ok(()),
            Err(_) => unreachable!(),
        }
    }

    /// Begins anew over the same pass and log: the client knows nothing, and nothing is granted to it. It makes no device call and takes no memory.
    ///
    /// It answers false, with nothing changed, exactly where a region is away or not wiped, a record is in one or begun, or a device has failed.
    pub fn renew(&mut self) -> bool
        ensures exact { IsTrue result ↔ CanBeRenewed M.Media self.old.log }
        ensures renewed { result ≡ true → IsRenewed self.old self.new }
        ensures unchanged { result ≡ false → self.new ≡ self.old }
    {
        if !self.can_be_renewed() {
            return false;
        }
        self.empty();
        true
    }

    #[tactic(auto, using(crate::proofs::ClientEnds::nothing_left, crate::proofs::ClientEnds::none_begun))]
    fn can_be_renewed(&self) -> bool
        ensures exact { IsTrue result ↔ CanBeRenewed M.Media self.now.log }
        ensures idle { result ≡ true → self.now.begun ≡ None }
        ensures sealed { result ≡ true → self.now.sealed ≡ [] }
        ensures none { result ≡ true → own_records M.Media self.now ≡ [] }
    {
        !self.log.has_failed()
            && self.begun.is_none()
            && self.records.current().is_empty()
            && self.log.are_wiped()
    }

    // How many records of the client are undigested, or in a region that is not back.
    #[tactic(auto, using(crate::proofs::ClientEnds::own_one, crate::proofs::ClientEnds::own_same, crate::proofs::ClientEnds::none_of_them))]
    fn unburied_count(&self) -> usize
        ensures count { result ≡ unburied M.Media self.now }
        ensures none { result ≡ 0 → own_records M.Media self.now ≡ [] }
    {
        let kept = self.records.sealed_records().len() + self.records.current().len();
        if self.begun.is_none() {
            return kept;
        }
        kept + 1
    }

    // Gives all leases, and drops all that was known and granted. No record of the client is undigested.
    fn empty(&mut self)
        requires none { own_records M.Media self.old ≡ [] }
        ensures { IsEmptied self.old self.new }
    {
        give_all(&self.leases, &mut self.pass);
        self.copies.forget_all();
        self.pins.clear();
        self.spare = 0;
        self.answered = false;
    }
}

// The begun record goes no further: it counts no longer.
fn drop_record(leases: &Leases, pass: &mut Pass, begun: &mut Option<Begun>)
    requires table { pass.old.table ≡ leases.now }
    requires fit { ForSome begun.old (λ b. AllByRecursion FitsLimits b.change.logged.effects) }
    requires there { ForSome begun.old (λ b. (i : ℕ) → HasWord i → one_if (is_touched b.change.logged.effects i) ≤ records_of pass.old i) }
    ensures none { begun.new ≡ None }
    ensures uncounted { IfSome begun.old (λ b. HasUncounted pass.old b.change.logged.effects pass.new) }
{
    if let Some(dropped) = begun.take() {
        clean_effects(leases, pass, dropped.change.logged.effects.as_slice());
    }
}
