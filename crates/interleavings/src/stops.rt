//! What holds of a system between two events.

ghost use Rattle.std.specs.Prelude.{◌≡◌};
ghost use Rattle.system_laws.specs.lease_manager.Words.{IsClient};
ghost use Rattle.system_laws.specs.event_steps.Sound.{number_of};
ghost use Rattle.system_laws.specs.event_steps.Stops.{SeatLeaves};
ghost use Rattle.system_laws.specs.event_steps.View.{HasSeat};
ghost use Rattle.system_laws.specs.Leaves.{HoldRecords, HoldsRecords, SystemLeaves};

use system_laws::in_event_steps::System;
use tier_device::Media;

/// States what a stop leaves of a system now, and that its clients hold what their records touch.
pub(crate) fn left_now<M: Media>(system: &System<M>)
    ensures leaves { SystemLeaves M.Media system.now }
    ensures holds { HoldRecords M.Media system.now }
{
    system.kernel().left_now();
    'clients: for number in 1..9u32 {
        client_left_now(system, number);
    }
}

// States so of one client.
fn client_left_now<M: Media>(system: &System<M>, number: u32)
    requires client { IsClient number }
    ensures leaves { HasSeat system.now number (SeatLeaves M.Media) }
    ensures whose { HasSeat system.now number (λ s. number_of s ≡ number) }
    ensures holds { HasSeat system.now number (λ s. HoldsRecords M.Media s.client) }
{
    system.left_now(number);
    match system.client(number) {
        Some(client) => client.own_records_are_held(),
        None => unreachable!(),
    }
}
