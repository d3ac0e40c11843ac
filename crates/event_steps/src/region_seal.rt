//! The region that a client writes: handed over, and wiped.
ghost use Rattle.std.specs.Prelude.{◌≡◌, false};
ghost use Rattle.libfs.specs.client_log.Steps.{CanBeSealed};
ghost use Rattle.event_steps.specs.Effects.{Carries};
ghost use Rattle.event_steps.specs.Sound.{owner_of};
ghost use Rattle.event_steps.specs.Regions.{IsHandedOver, IsWipedOn, wipe_outcome};
ghost use Rattle.event_steps.specs.Turns.{IsToBeWiped};

use crate::client_slot::ClientSlot;
use crate::outcome::{Outcome, Refusal};
use libfs::in_client_log::LogError;
use libfs::in_update_log::WipeProgress;
use tier_device::Media;

impl<M: Media + Drop> ClientSlot<M> {
    /// Seals the client's current region and keeps it to be digested. `Idle`, with nothing changed, if it can't be sealed
    /// now. Refused as `Memory`, with nothing changed.
    #[tactic(auto, using(crate::proofs::Handing::sealed_from))]
    pub fn seal(&mut self) -> Outcome
        ensures carries { Carries (CanBeSealed M.Media self.old.client.log) (IsHandedOver M.Media self.old result self.new) (self.new ≡ self.old) result }
        ensures owner { owner_of self.new.client ≡ owner_of self.old.client }
    {
        match self.client.seal() {
            Ok(Some(region)) => {
                // For the proof: what a stop leaves of the sealed region.
                region.left_now();
                self.away = Some(region);
                Outcome::Stepped
            }
            Ok(None) => Outcome::Idle,
            Err(_) => Outcome::Refused {
                refusal: Refusal::Memory,
            },
        }
    }
}

impl<M: Media> ClientSlot<M> {
    /// Makes one device call to wipe what is to be wiped of the client's regions. `Idle`, with nothing changed, if that is
    /// nothing, and after a device of the client failed. Refused as `DeviceFault`.
    pub fn wipe_step(&mut self) -> Outcome
        ensures carries { Carries ((self.old.client.log.failed ≡ false) × IsToBeWiped self.old.client) (IsWipedOn M.Media self.old result self.new) (self.new ≡ self.old) result }
        ensures owner { owner_of self.new.client ≡ owner_of self.old.client }
    {
        if self.client.has_failed() {
            return Outcome::Idle;
        }
        wipe_outcome(self.client.wipe_step())
    }
}

fn wipe_outcome(answer: Result<Option<WipeProgress>, LogError>) -> Outcome
    ensures { result ≡ wipe_outcome answer }
{
    match answer {
        Ok(Some(_)) => Outcome::Stepped,
        Ok(None) => Outcome::Idle,
        Err(_) => Outcome::Refused {
            refusal: Refusal::DeviceFault,
        },
    }
}
