// A system in memory plays its events.
use crate::events::Events;
use interleavings::in_event_steps::{Event, Outcome, System};
use interleavings::in_lease_manager::LeaseMode;
use interleavings::in_libfs::Life;
use interleavings::lease_in;
use tier_device::Media;

impl<M: Media + Drop> Events for System<M> {
    ghost use Rattle.call_driver.specs.OfSystem.{failed_in, life_in, plays_in, undigested_in, waits_in};
    ghost use Rattle.interleavings.specs.Leases.{lease_in};

    ghost plays = { plays_in M.Media };

    ghost leases = { lease_in };

    ghost pending = { waits_in };

    ghost failed = { failed_in };

    ghost undigested_count = { undigested_in M.Media };

    ghost lives = { life_in };

    fn play(&mut self, event: &Event) -> Outcome {
        System::play(self, event)
    }

    fn holds(&self, client: u32, inode: u32) -> LeaseMode {
        lease_in(self, client, inode)
    }

    fn is_pending(&self, client: u32) -> bool {
        match self.client(client) {
            Some(client) => client.is_pending(),
            None => false,
        }
    }

    fn has_failed(&self, client: u32) -> bool {
        match self.client(client) {
            Some(client) => client.has_failed(),
            None => false,
        }
    }

    fn undigested(&self, client: u32) -> usize {
        System::undigested(self, client)
    }

    fn life(&self, client: u32) -> Life {
        System::life(self, client)
    }
}
