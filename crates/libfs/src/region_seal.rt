ghost use Rattle.std.specs.Prelude.{◌≡◌, ◌≢◌, ◌⊎◌, ◌↔◌, ℕ, List, true, false, None, Some, Ok, Err, IfOk, IfErr, IfSome, IfNone, IsSome, IsOk, IsTrue, OnOk, OnErr, is_some};
ghost use Rattle.client_log.specs.update_log.View.{RegionView};
ghost use Rattle.client_log.specs.update_log.declared.stage.WipeProgress.TheVariants as wipes;
ghost use Rattle.client_log.specs.declared.error.LogError.TheVariants.{DeviceFault};
ghost use Rattle.client_log.specs.Counts.{AreLeft, CountOf};
ghost use Rattle.client_log.specs.Steps.{CanBeSealed, WipesCurrent, WipesOther};
ghost use Rattle.client_log.specs.Turns.{turn_of, current_wiped, other_wiped, taken_back, Away, Back};
ghost use Rattle.client_log.specs.View.{current_records};
ghost use Rattle.lease_manager.specs.Passes.{client_of};
ghost use Rattle.client_view.specs.KnowledgeTables.{knows};
ghost use Rattle.lease_manager.specs.PassLeases.{AreWritten};
ghost use Rattle.libfs.specs.RegionSeal.{HasSealed, HasTakenBack, MayTakeBack, without_blocks_of, without_named};
ghost use Rattle.libfs.specs.SealedRegion.{IsUntouched};

use crate::client::Client;
use crate::sealed_region::SealedRegion;
use client_log::in_update_log::WipeProgress;
use client_log::{LogError, next_generation};
use client_view::ClientCopies;
use lease_manager::in_log_record::Record;
use lease_manager::{clean_records, written_inodes};
use std::alloc::AllocError;
use tier_device::Media;

impl<M: Media> Client<M> {
    /// Seals the current region and hands it over, with its records, to be digested. The client goes on in the other one, which may have to be wiped first. It makes no device call. The
    /// inodes of the region that a record of it touches the client holds for writing until it takes the region back; the others it may give before.
    ///
    /// `None`, with nothing changed, exactly where there is no record, a call waits for its answer, the other region is away, or a device has failed. Nothing has changed either where
    /// there is no memory for the list of inodes.
    pub fn seal(&mut self) -> Result<Option<SealedRegion<M>>, AllocError>
        ensures exact { IfOk result (λ s. IsSome s ↔ CanBeSealed M.Media self.old.log) }
        ensures sealed { IfOk result (λ s. IfSome s (λ x. HasSealed M.Media self.old x self.new)) }
        ensures client { IfOk result (λ s. IfSome s (λ x. x.client ≡ client_of self.old.pass)) }
        ensures held { IfOk result (λ s. IfSome s (λ x. AreWritten self.old.pass x.held)) }
        ensures untouched { IfOk result (λ s. IfSome s IsUntouched) }
        ensures nothing { IfOk result (λ s. IfNone s (self.new ≡ self.old)) }
        ensures memory { OnErr result (CanBeSealed M.Media self.old.log × (self.new ≡ self.old)) }
    {
        if !self.can_be_sealed() {
            return Ok(None);
        }
        let held = written_inodes(self.alloc, &self.pass)?;
        let client = self.pass.client();
        let generation = self.log.generation();
        let count = self.records.current().len();
        match self.log.seal() {
            Some(region) => {
                self.records.seal();
                Ok(Some(SealedRegion::new(client, generation, region, held, count)))
            }
            None => unreachable!(),
        }
    }

    fn can_be_sealed(&self) -> bool
        ensures { (result ≡ true) ↔ CanBeSealed M.Media self.now.log }
    {
        !self.log.has_failed()
            && self.begun.is_none()
            && !self.log.is_away()
            && !self.records.current().is_empty()
    }

    /// Takes the region back that this client sealed last, once all its records are digested: they are counted no longer, and the blocks of files that they touch are forgotten. It makes
    /// no device call and takes no memory.
    ///
    /// Refused, with nothing changed and the region given back, exactly where it is not of this client, no region is away, its generation is not the one before the current one, or not
    /// all of it is digested.
    pub fn take_back(&mut self, back: SealedRegion<M>) -> Result<(), SealedRegion<M>>
        ensures taken { OnOk result (HasTakenBack M.Media self.old back self.new) }
        ensures exact { IsOk result ↔ MayTakeBack M.Media self.old back }
        ensures may { OnOk result ((turn_of M.Media self.old.log).other ≡ Away) }
        ensures turn { OnOk result (turn_of M.Media self.new.log ≡ taken_back (turn_of M.Media self.old.log)) }
        ensures unchanged { OnErr result (self.new ≡ self.old) }
        ensures given_back { IfErr result (λ s. s ≡ back) }
    {
        if !self.may_take_back(&back) {
            return Err(back);
        }
        let generation = back.generation();
        // For the proof: what a stop leaves of the region that comes back.
        back.left_now();
        match self.log.take_back(back.into_region(), generation) {
            Ok(()) => {}
            Err(_) => unreachable!(),
        }
        clean_records(&self.leases, &mut self.pass, self.records.sealed_records());
        forget_blocks_of(&mut self.copies, self.records.sealed_records());
        self.records.take_back();
        Ok(())
    }

    fn may_take_back(&self, back: &SealedRegion<M>) -> bool
        ensures exact { IsTrue result ↔ MayTakeBack M.Media self.now back.now }
    {
        back.client() == self.pass.client()
            && self.log.is_away()
            && next_generation(back.generation()) == self.log.generation()
            && back.is_digested()
    }

    /// Makes one device call of a wipe: of the current region, to its generation, where it is not wiped yet; else of the other one, to the next generation, where it is here and not wiped.
    /// It takes no memory. `None`, with nothing changed, exactly where no device has failed and nothing is to be wiped.
    ///
    /// Where the device fails, the client has failed. One that has failed before makes no call and answers `DeviceFault` with nothing changed.
    pub fn wipe_step(&mut self) -> Result<Option<WipeProgress>, LogError>
        // At each moment of the call just those records count that counted before it.
        ensures any_moment { (regions : ℕ → List ℕ) → AreLeft M.Media self.old.log self.new.log regions → CountOf self.old.log.generation (is_some self.old.log.other) (current_records M.Media self.old.log) self.old.log.current.begun regions }

        ensures current { self.old.log.failed ≡ false → self.old.log.ready ≡ false → WipesCurrent M.Media self.old.log self.new.log result }
        ensures other { self.old.log.failed ≡ false → self.old.log.ready ≡ true → self.old.log.clean ≡ false → (r : RegionView M) → self.old.log.other ≡ Some r → WipesOther M.Media r self.old.log self.new.log result }
        ensures idle { (result ≡ Ok None) ↔ ((self.old.log.failed ≡ false) × (self.old.log.ready ≡ true) × ((self.old.log.clean ≡ true) ⊎ (self.old.log.other ≡ None))) }
        ensures nothing { self.old.log.failed ≡ false → self.old.log.ready ≡ true → ((self.old.log.clean ≡ true) ⊎ (self.old.log.other ≡ None)) → (result ≡ Ok None) × (self.new ≡ self.old) }

        // The last call is the machine's step, and before it nothing changes there.
        ensures may_other { IfOk result (λ p. p ≢ None → self.old.log.ready ≡ true → (turn_of M.Media self.old.log).other ≡ Back) }
        ensures current_wiped { IfOk result (λ p. p ≡ Some wipes.Wiped → self.old.log.ready ≡ false → turn_of M.Media self.new.log ≡ current_wiped (turn_of M.Media self.old.log)) }
        ensures other_wiped { IfOk result (λ p. p ≡ Some wipes.Wiped → self.old.log.ready ≡ true → turn_of M.Media self.new.log ≡ other_wiped (turn_of M.Media self.old.log)) }
        ensures going { IfOk result (λ p. p ≢ Some wipes.Wiped → turn_of M.Media self.new.log ≡ turn_of M.Media self.old.log) }
        ensures unwiped { OnErr result (turn_of M.Media self.new.log ≡ turn_of M.Media self.old.log) }

        ensures sound { OnOk result ((self.old.log.failed ≡ false) × (self.new.log.failed ≡ false)) }
        ensures failed { OnErr result (self.new.log.failed ≡ true) }
        ensures only { IfErr result (λ e. e ≡ DeviceFault) }
        ensures stays_failed { self.old.log.failed ≡ true → (result ≡ Err DeviceFault) × (self.new ≡ self.old) }
        ensures rest { self.new ≡ record self.old { log = self.new.log } }
    {
        self.log.wipe_step()
    }
}

// The blocks of what these records touch go.
fn forget_blocks_of(copies: &mut ClientCopies, records: &[Record])
    ensures known { knows copies.new ≡ without_blocks_of (knows copies.old) records.now }
    ensures order { copies.new.blocks ≡ without_named copies.old.blocks records.now }
    ensures rest { copies.new ≡ record copies.old { blocks = copies.new.blocks } }
{
    for entry in records {
        copies.forget_touched(entry.effects.as_slice());
    }
}
