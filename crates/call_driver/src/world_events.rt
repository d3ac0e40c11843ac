//! The events of calls that are served, played on a world.

use crate::events::Events;
use interleavings::in_event_lists::Steps;
use interleavings::in_event_steps::{Event, Outcome};
use interleavings::in_lease_manager::LeaseMode;
use interleavings::in_libfs::Life;
use interleavings::{World, lease_in};
use tier_device::Media;

impl<M: Media + Drop> Events for World<M> {
    ghost use Rattle.call_driver.specs.OfSystem.{failed_in, life_in, undigested_in, waits_in};
    ghost use Rattle.interleavings.specs.Leases.{lease_in};
    ghost use Rattle.interleavings.specs.system_laws.Steps.{MakesOrStays};

    ghost plays = { MakesOrStays M.Media };

    ghost leases = { λ v. lease_in v.system };

    ghost pending = { λ v. waits_in v.system };

    ghost failed = { λ v. failed_in v.system };

    ghost undigested_count = { λ v. undigested_in M.Media v.system };

    ghost lives = { λ v. life_in v.system };

    fn play(&mut self, event: &Event) -> Outcome {
        self.play_event(event)
    }

    fn holds(&self, client: u32, inode: u32) -> LeaseMode {
        lease_in(self.system(), client, inode)
    }

    fn is_pending(&self, client: u32) -> bool {
        Events::is_pending(self.system(), client)
    }

    fn has_failed(&self, client: u32) -> bool {
        Events::has_failed(self.system(), client)
    }

    fn undigested(&self, client: u32) -> usize {
        Events::undigested(self.system(), client)
    }

    fn life(&self, client: u32) -> Life {
        Events::life(self.system(), client)
    }
}
