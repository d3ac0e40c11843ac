//! What a client left that died, as an owned value, and the client that goes on where it stood.
ghost use Rattle.std.specs.Prelude.{◌≡◌, ◌≢◌, ◌⊎◌, ◌↔◌, ◌++◌, ℕ, List, true, false, None, Some, Ok, Err, IfOk, IfErr, IfSome, IfNone, IsOk, IsSome, IsTrue, OnErr, OnOk, is_some, length};
ghost use Rattle.client_log.specs.update_log.View.{RegionView};
ghost use Rattle.client_log.specs.update_log.declared.stage.Stage.TheVariants as stages;
ghost use Rattle.client_log.specs.update_log.declared.stage.WipeProgress.TheVariants as wipes;
ghost use Rattle.client_log.specs.declared.error.LogError.TheVariants.{DeviceFault};
ghost use Rattle.client_log.specs.Calls.{IsMovedOnce};
ghost use Rattle.client_log.specs.Counts.{AreLeft, CountOf};
ghost use Rattle.client_log.specs.Regions.{in_turn};
ghost use Rattle.client_log.specs.Steps.{CanBeSealed, WipesCurrent, WipesOther};
ghost use Rattle.client_log.specs.Turns.{turn_of, current_wiped, other_wiped, taken_back, Away, Back};
ghost use Rattle.client_log.specs.View.{current_records};
ghost use Rattle.lease_manager.specs.PassLeases.{AreWritten};
ghost use Rattle.lease_manager.specs.Passes.{client_of};
ghost use Rattle.libfs.specs.ClientEnd.{Buries, CanBeRenewed, IsRenewed, Settles};
ghost use Rattle.libfs.specs.Lives.{is_buried, is_settled, life_buried, life_settled};
ghost use Rattle.libfs.specs.RegionSeal.{HasSealed, HasTakenBack, MayTakeBack};
ghost use Rattle.libfs.specs.SealedRegion.{IsUntouched};
ghost use Rattle.libfs.specs.declared.life.Life.TheVariants as lives;

use crate::bury_error::BuryError;
use crate::client::{Client, Detached};
use crate::fate::Fate;
use crate::life::Life;
use crate::sealed_region::SealedRegion;
use client_log::LogError;
use client_log::in_update_log::WipeProgress;
use kernel_fs::Kernel;
use std::alloc::AllocError;
use std::marker::Model;
use tier_device::Media;

/// What a client left that died: its log, its leases, and how far its end has come. Contracts see the client as it stands, and its life, which is never `Alive`.
#[derive(Drop)]
pub struct Remains<M: Media> {
    client: Client<M>,
    life: Life,
}

impl<M: Media> Model for Remains<M> {
    ghost use Rattle.std.specs.Prelude.{◌≢◌};
    ghost use Rattle.std.specs.Coded.{codes};
    ghost use Rattle.client_view.specs.KnowledgeTables.{held_code};
    ghost use Rattle.libfs.specs.contracts.begun_record.Begun as begun_call;
    ghost use Rattle.libfs.specs.declared.life.Life.TheVariants as lives;
    ghost use Rattle.libfs.specs.RemainsView.{RemainsView};

    ghost Value = { RemainsView M };

    ghost coded = { Prim.hlevel (codes, held_code, begun_call.the_row.coded) };

    ghost view = { λ r. record { client = r.client; life = r.life } };

    ghost invariant = { λ r. r.life ≢ lives.Alive };
}

impl<M: Media> Client<M> {
    /// The client dies: it asks no call any more, and all that it held stays as it is. It makes no device call and takes no memory.
    pub fn abandon(self) -> Remains<M>
        ensures { result ≡ record { client = self; life = lives.Dead } }
    {
        Remains {
            client: self,
            life: Life::Dead,
        }
    }

    /// A new client over the pass and the log of one that is buried, once both of its regions are here and wiped. It takes no memory.
    ///
    /// Refused, with the remains given back as they are, exactly where they are not buried, a region is away or not wiped, a record is in one or begun, or a device has failed.
    pub fn join(remains: Remains<M>) -> Result<Self, Remains<M>>
        ensures exact { IsOk result ↔ ((is_buried remains.life ≡ true) × CanBeRenewed M.Media remains.client.log) }
        ensures joined { IfOk result (λ client. IsRenewed remains.client client) }
        ensures back { IfErr result (λ left. left ≡ remains) }
    {
        let mut left = remains;
        if left.life.is_buried() && left.client.renew() {
            Ok(left.client)
        } else {
            Err(left)
        }
    }
}

impl<M: Media> Remains<M> {
    /// The client's number, from 1 to 8.
    pub fn client(&self) -> u32
        ensures { result ≡ client_of self.now.client.pass }
    {
        self.client.client()
    }

    /// How far the client's end has come.
    pub fn life(&self) -> Life
        ensures life { result ≡ self.now.life }
        ensures over { result ≢ lives.Alive }
    {
        self.life
    }

    /// How many records of the client are not known to be digested: those of the current region, and of the one that is away.
    pub fn undigested(&self) -> usize
        ensures { result ≡ length (self.now.client.sealed ++ current_records M.Media self.now.client.log) }
    {
        self.client.undigested()
    }

    /// Whether a region is handed over that is not back.
    pub fn is_region_away(&self) -> bool
        ensures { IsTrue result ↔ (self.now.client.log.other ≡ None) }
    {
        self.client.is_region_away()
    }

    /// Finds what became of the call that waited for its answer as the client died, and closes all that the client had open, as `Client::settle` does: then it is settled. A device that fails
    /// leaves it dead for good. It takes no memory.
    pub fn settle(&mut self) -> Result<Fate, LogError>
        requires { self.old.life ≡ lives.Dead }
        ensures any_moment { (regions : ℕ → List ℕ) → AreLeft M.Media self.old.client.log self.new.client.log regions → CountOf self.old.client.log.generation (is_some self.old.client.log.other) (current_records M.Media self.old.client.log) self.old.client.log.current.begun regions }
        ensures settles { Settles M.Media self.old.client result self.new.client }
        ensures moved { self.old.client.log.failed ≡ false → IsSome self.old.client.begun → IsMovedOnce M.Media self.old.client.log.current self.new.client.log.current result }
        ensures quiet { self.old.client.begun ≡ None → self.new.client.log ≡ self.old.client.log }
        ensures stage { self.old.client.log.failed ≡ false → IsSome self.old.client.begun → OnOk result (self.new.client.log.current.stage ≡ stages.Resting) }
        ensures stage_failed { self.old.client.log.failed ≡ false → OnErr result (self.new.client.log.current.stage ≡ stages.Failed) }
        ensures rest { self.new.client.log ≡ record self.old.client.log { current = self.new.client.log.current; failed = self.new.client.log.failed } }
        ensures leases { self.new.client.pass ≡ record self.old.client.pass { records = self.new.client.pass.records } }
        ensures sealed { self.new.client.sealed ≡ self.old.client.sealed }
        ensures stays_failed { self.old.client.log.failed ≡ true → (result ≡ Err DeviceFault) × (self.new ≡ self.old) }
        ensures life { self.new.life ≡ life_settled result }
    {
        match self.client.settle() {
            Ok(fate) => {
                self.life = Life::Settled { found: fate.kind() };
                Ok(fate)
            }
            Err(error) => Err(error),
        }
    }

    /// Seals the current region and hands it over to be digested, as `Client::seal` does.
    pub fn seal(&mut self) -> Result<Option<SealedRegion<M>>, AllocError>
        ensures exact { IfOk result (λ s. IsSome s ↔ CanBeSealed M.Media self.old.client.log) }
        ensures sealed { IfOk result (λ s. IfSome s (λ x. HasSealed M.Media self.old.client x self.new.client)) }
        ensures client { IfOk result (λ s. IfSome s (λ x. x.client ≡ client_of self.old.client.pass)) }
        ensures held { IfOk result (λ s. IfSome s (λ x. AreWritten self.old.client.pass x.held)) }
        ensures untouched { IfOk result (λ s. IfSome s IsUntouched) }
        ensures nothing { IfOk result (λ s. IfNone s (self.new ≡ self.old)) }
        ensures memory { OnErr result (CanBeSealed M.Media self.old.client.log × (self.new ≡ self.old)) }
        ensures life { self.new.life ≡ self.old.life }
    {
        self.client.seal()
    }

    /// Takes the region back that was sealed last, once all its records are digested, as `Client::take_back` does. It takes no memory.
    pub fn take_back(&mut self, back: SealedRegion<M>) -> Result<(), SealedRegion<M>>
        ensures taken { OnOk result (HasTakenBack M.Media self.old.client back self.new.client) }
        ensures exact { IsOk result ↔ MayTakeBack M.Media self.old.client back }
        ensures may { OnOk result ((turn_of M.Media self.old.client.log).other ≡ Away) }
        ensures turn { OnOk result (turn_of M.Media self.new.client.log ≡ taken_back (turn_of M.Media self.old.client.log)) }
        ensures unchanged { OnErr result (self.new ≡ self.old) }
        ensures given_back { IfErr result (λ s. s ≡ back) }
        ensures life { self.new.life ≡ self.old.life }
    {
        self.client.take_back(back)
    }

    /// Makes one device call of a wipe, as `Client::wipe_step` does. It takes no memory.
    pub fn wipe_step(&mut self) -> Result<Option<WipeProgress>, LogError>
        ensures any_moment { (regions : ℕ → List ℕ) → AreLeft M.Media self.old.client.log self.new.client.log regions → CountOf self.old.client.log.generation (is_some self.old.client.log.other) (current_records M.Media self.old.client.log) self.old.client.log.current.begun regions }

        ensures current { self.old.client.log.failed ≡ false → self.old.client.log.ready ≡ false → WipesCurrent M.Media self.old.client.log self.new.client.log result }
        ensures other { self.old.client.log.failed ≡ false → self.old.client.log.ready ≡ true → self.old.client.log.clean ≡ false → (r : RegionView M) → self.old.client.log.other ≡ Some r → WipesOther M.Media r self.old.client.log self.new.client.log result }
        ensures idle { (result ≡ Ok None) ↔ ((self.old.client.log.failed ≡ false) × (self.old.client.log.ready ≡ true) × ((self.old.client.log.clean ≡ true) ⊎ (self.old.client.log.other ≡ None))) }
        ensures nothing { self.old.client.log.failed ≡ false → self.old.client.log.ready ≡ true → ((self.old.client.log.clean ≡ true) ⊎ (self.old.client.log.other ≡ None)) → (result ≡ Ok None) × (self.new ≡ self.old) }

        ensures may_other { IfOk result (λ p. p ≢ None → self.old.client.log.ready ≡ true → (turn_of M.Media self.old.client.log).other ≡ Back) }
        ensures current_wiped { IfOk result (λ p. p ≡ Some wipes.Wiped → self.old.client.log.ready ≡ false → turn_of M.Media self.new.client.log ≡ current_wiped (turn_of M.Media self.old.client.log)) }
        ensures other_wiped { IfOk result (λ p. p ≡ Some wipes.Wiped → self.old.client.log.ready ≡ true → turn_of M.Media self.new.client.log ≡ other_wiped (turn_of M.Media self.old.client.log)) }
        ensures going { IfOk result (λ p. p ≢ Some wipes.Wiped → turn_of M.Media self.new.client.log ≡ turn_of M.Media self.old.client.log) }
        ensures unwiped { OnErr result (turn_of M.Media self.new.client.log ≡ turn_of M.Media self.old.client.log) }

        ensures sound { OnOk result ((self.old.client.log.failed ≡ false) × (self.new.client.log.failed ≡ false)) }
        ensures failed { OnErr result (self.new.client.log.failed ≡ true) }
        ensures only { IfErr result (λ e. e ≡ DeviceFault) }
        ensures stays_failed { self.old.client.log.failed ≡ true → (result ≡ Err DeviceFault) × (self.new ≡ self.old) }
        ensures rest { self.new ≡ record self.old { client = record self.old.client { log = self.new.client.log } } }
    {
        self.client.wipe_step()
    }

    /// Drops all that the client had of the kernel, and gives its leases, as `Client::bury` does: then it is buried. It takes no memory.
    pub fn bury<S: Media>(&mut self, kernel: &mut Kernel<S>) -> Result<(), BuryError>
        requires { is_settled self.old.life ≡ true }
        ensures buries { Buries M.Media S.Media kernel.old self.old.client result self.new.client kernel.new }
        ensures life { self.new.life ≡ life_buried self.old.life result }
    {
        let found = match self.life {
            Life::Settled { found } => found,
            _ => unreachable!(),
        };
        let answer = self.client.bury(kernel);
        if answer.is_ok() {
            self.life = Life::Buried { found };
        }
        answer
    }

    /// The pass, the log's generation and the regions that are here, as `Client::detach` gives them.
    pub fn detach(self) -> Detached<M>
        ensures pass { result.pass ≡ self.client.pass }
        ensures table { result.leases ≡ self.client.pass.table }
        ensures generation { result.generation ≡ self.client.log.generation }
        ensures regions { result.regions ≡ in_turn self.client.log.generation (Some self.client.log.current, self.client.log.other) }
    {
        self.client.detach()
    }
}
