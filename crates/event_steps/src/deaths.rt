//! The end of a client, event by event, and the new one in its seat.
ghost use Rattle.std.specs.Prelude.{◌≡◌, false, true, ⊤};
ghost use Rattle.libfs.specs.ClientEnd.{CanBeRenewed};
ghost use Rattle.libfs.specs.Lives.{is_buried, is_settled};
ghost use Rattle.libfs.specs.declared.life.Life.TheVariants as lives;
ghost use Rattle.event_steps.specs.Deaths.{IsBuriedOn, IsDied, IsJoined, IsSettledOn};
ghost use Rattle.event_steps.specs.Effects.{Carries};
ghost use Rattle.event_steps.specs.Sound.{owner_of};

use crate::client_slot::ClientSlot;
use crate::outcome::{Outcome, Refusal};
use crate::refusals::Refusals;
use libfs::in_kernel_fs::Kernel;
use libfs::{BuryError, Life};
use tier_device::Media;

impl<M: Media> ClientSlot<M> {
    /// The client dies. `Idle`, with nothing changed, after a device of it failed.
    pub fn die(&mut self) -> Outcome
        requires { self.old.life ≡ lives.Alive }
        ensures carries { Carries (self.old.client.log.failed ≡ false) (IsDied self.old result self.new) (self.new ≡ self.old) result }
        ensures owner { owner_of self.new.client ≡ owner_of self.old.client }
    {
        if self.client.has_failed() {
            return Outcome::Idle;
        }
        self.life = Life::Dead;
        Outcome::Died
    }

    /// Finds what became of the dead client's call, by one device call where one waits, and closes all that it had open.
    /// `Idle`, with nothing changed, after a device of the client failed. Refused as `DeviceFault`: then it stays dead.
    pub fn settle(&mut self) -> Outcome
        requires { self.old.life ≡ lives.Dead }
        ensures carries { Carries (self.old.client.log.failed ≡ false) (IsSettledOn M.Media self.old result self.new) (self.new ≡ self.old) result }
        ensures owner { owner_of self.new.client ≡ owner_of self.old.client }
    {
        if self.client.has_failed() {
            return Outcome::Idle;
        }
        match self.client.settle() {
            Ok(fate) => {
                self.life = Life::Settled { found: fate.kind() };
                Outcome::Settled { fate }
            }
            Err(_) => Outcome::Refused {
                refusal: Refusal::DeviceFault,
            },
        }
    }

    /// Buries the settled client: its units, numbers and pins leave the kernel's book, and its leases are given back.
    /// Refused with nothing changed: `NotDigested`, with their number, while records are undigested or in a region that is
    /// not back; else `KernelFailed`.
    pub fn bury(&mut self, kernel: &mut Kernel<M>) -> Outcome
        requires { is_settled self.old.life ≡ true }
        ensures carries { Carries ⊤ (IsBuriedOn M.Media kernel.old self.old result self.new kernel.new) ((self.new ≡ self.old) × (kernel.new ≡ kernel.old)) result }
        ensures owner { owner_of self.new.client ≡ owner_of self.old.client }
    {
        let found = match self.life {
            Life::Settled { found } => found,
            _ => unreachable!(),
        };
        match self.client.bury(kernel) {
            Ok(()) => {
                self.life = Life::Buried { found };
                Outcome::Buried
            }
            Err(BuryError::NotDigested { count }) => Outcome::Refused {
                refusal: Refusal::NotDigested { count },
            },
            Err(BuryError::KernelFailed) => Outcome::Refused {
                refusal: Refusal::KernelFailed,
            },
        }
    }

    /// A new client takes the seat of the buried one. `Idle`, with nothing changed, while a region is away or not wiped, or
    /// a record is in one, and after a device of the client failed.
    pub fn join(&mut self) -> Outcome
        requires { is_buried self.old.life ≡ true }
        ensures carries { Carries (CanBeRenewed M.Media self.old.client.log) (IsJoined self.old result self.new) (self.new ≡ self.old) result }
        ensures owner { owner_of self.new.client ≡ owner_of self.old.client }
    {
        if !self.client.renew() {
            return Outcome::Idle;
        }
        self.refused = Refusals::none();
        self.life = Life::Alive;
        Outcome::Joined
    }
}
