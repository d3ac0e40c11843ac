ghost use Rattle.std.specs.Prelude.{◌≡◌, ℕ, Bool};
ghost use Rattle.interleavings.specs.event_steps.declared.event.Event.{Event};
ghost use Rattle.interleavings.specs.event_steps.declared.outcome.Outcome.{Outcome};
ghost use Rattle.interleavings.specs.lease_manager.declared.view.LeaseMode.{LeaseMode};
ghost use Rattle.interleavings.specs.libfs.declared.life.Life.{Life};

use interleavings::in_event_steps::{Event, Outcome};
use interleavings::in_lease_manager::LeaseMode;
use interleavings::in_libfs::Life;

/// A running system, one event after the other. Clients are numbered from 1 to 8.
pub trait Events {
    /// The outcome of an event in a system, and the system after it.
    ghost plays: { Self → Event → Outcome → Self → Type 0 };

    /// Whether a call of a client waits for its answer.
    ghost pending: { Self → ℕ → Bool };

    /// How a client stands to an inode.
    ghost leases: { Self → ℕ → ℕ → LeaseMode };

    /// Whether a device of a client's regions has failed.
    ghost failed: { Self → ℕ → Bool };

    /// How many records of a client are not digested.
    ghost undigested_count: { Self → ℕ → ℕ };

    /// How far a client's life has come.
    ghost lives: { Self → ℕ → Life };

    /// Carries out an event.
    fn play(&mut self, event: &Event) -> Outcome
        ensures { plays self.old event.now result self.new };

    /// How a client stands to an inode; `Free` where there is no such client or no such inode.
    fn holds(&self, client: u32, inode: u32) -> LeaseMode
        ensures { result ≡ leases self.now client inode };

    /// Whether a call of a client waits for its answer.
    fn is_pending(&self, client: u32) -> bool
        ensures { result ≡ pending self.now client };

    /// Whether a device of a client's regions has failed.
    fn has_failed(&self, client: u32) -> bool
        ensures { result ≡ failed self.now client };

    /// How many records of a client are not digested.
    fn undigested(&self, client: u32) -> usize
        ensures { result ≡ undigested_count self.now client };

    /// How far a client's life has come; alive of a number outside 1 to 8.
    fn life(&self, client: u32) -> Life
        ensures { result ≡ lives self.now client };
}
