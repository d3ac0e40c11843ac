//! Calls of one client: begun, carried on, given up.
ghost use Rattle.std.specs.Prelude.{◌≡◌, true, false};
ghost use Rattle.libfs.specs.View.{is_pending};
ghost use Rattle.event_steps.specs.Calls.{IsDenied, IsStarted, IsStepped};
ghost use Rattle.event_steps.specs.Effects.{Carries};
ghost use Rattle.event_steps.specs.Sound.{owner_of};
ghost use Rattle.event_steps.specs.Refusals.{has_refusal};

use crate::client_slot::ClientSlot;
use crate::outcome::Outcome;
use crate::refusals::Refusals;
use libfs::{Denied, Now};
use posix_calls::Call;
use tier_device::Media;

impl<M: Media> ClientSlot<M> {
    /// Starts a call: it is answered, or needs something, or its record is begun. `Idle`, with nothing changed, while an
    /// earlier call of the client is pending.
    pub fn start(&mut self, call: &Call) -> Outcome
        ensures carries { Carries (is_pending self.old.client ≡ false) (IsStarted M.Media self.old call.now result self.new) (self.new ≡ self.old) result }
        ensures owner { owner_of self.new.client ≡ owner_of self.old.client }
    {
        if self.client.is_pending() {
            return Outcome::Idle;
        }
        match self.client.start(call) {
            Now::Done { reply } => {
                self.refused = Refusals::none();
                Outcome::Reply { reply }
            }
            Now::Pending => Outcome::Pending,
            Now::Need { need } => Outcome::Need { need },
        }
    }

    /// Makes one device call for the pending call. The fourth that succeeds answers it, and so does one that fails.
    /// `Idle`, with nothing changed, if no call is pending.
    pub fn step(&mut self) -> Outcome
        ensures carries { Carries (is_pending self.old.client ≡ true) (IsStepped M.Media self.old result self.new) (self.new ≡ self.old) result }
        ensures owner { owner_of self.new.client ≡ owner_of self.old.client }
    {
        if !self.client.is_pending() {
            return Outcome::Idle;
        }
        match self.client.step() {
            Some(reply) => {
                self.refused = Refusals::none();
                Outcome::Reply { reply }
            }
            None => Outcome::Stepped,
        }
    }

    /// Answers a call by the error for `why`, which the kernel has refused since the client's last reply. `Idle`, with
    /// nothing changed, if it has refused no such thing, if a call is pending, and after a device of the client failed.
    pub fn deny(&mut self, call: &Call, why: Denied) -> Outcome
        ensures carries { Carries ((is_pending self.old.client ≡ false) × (self.old.client.log.failed ≡ false) × (has_refusal self.old.refused why ≡ true)) (IsDenied self.old why result self.new) (self.new ≡ self.old) result }
        ensures owner { owner_of self.new.client ≡ owner_of self.old.client }
    {
        if self.client.is_pending() || self.client.has_failed() || !self.refused.has(why) {
            return Outcome::Idle;
        }
        let reply = self.client.deny(call, why);
        self.refused = Refusals::none();
        Outcome::Reply { reply }
    }
}
