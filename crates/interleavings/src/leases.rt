//! What is known of leases before and behind an event, by the word that a client reads and its own pass.

ghost use Rattle.std.specs.Prelude.{◌≡◌, ◌<◌};
ghost use Rattle.system_laws.specs.lease_manager.Words.{IsClient};
ghost use Rattle.system_laws.specs.Leaves.{HasMetAll, HasMetIn, HaveMet, IsSettledAt, IsSettledIn};

use system_laws::in_event_steps::{Event, System};
use tier_device::Media;

/// Has the client that takes a lease in an event meet each other one. It reads one word of the table of leases for each, and changes nothing.
pub(crate) fn meet_in_event<M: Media>(system: &mut System<M>, event: &Event)
    ensures same { system.new ≡ system.old }
    ensures met { HasMetIn event.now system.old }
{
    match event {
        Event::Lease { client, .. } => meet_others(system, *client),
        Event::Raise { client, .. } => meet_others(system, *client),
        _ => {}
    }
}

// Has a client meet the seven others; nobody where it is none of the eight.
fn meet_others<M: Media>(system: &mut System<M>, client: u32)
    ensures same { system.new ≡ system.old }
    ensures met { IsClient client → HasMetAll system.old client }
{
    if !(1..9).contains(&client) {
        return;
    }
    'others: for other in 1..9u32 {
        meet_one(system, client, other);
    }
}

// Has a client meet another one; nobody where it is the same.
fn meet_one<M: Media>(system: &mut System<M>, client: u32, other: u32)
    requires clients { IsClient client × IsClient other }
    ensures same { system.new ≡ system.old }
    ensures above { client < other → HaveMet system.old client other }
    ensures below { other < client → HaveMet system.old other client }
{
    if client < other {
        system.meet(client, other);
    } else if other < client {
        system.meet(other, client);
    }
}

/// Shows that whoever fetches in an event has no try for the lease that is being taken out.
pub(crate) fn settle_in_event<M: Media>(system: &System<M>, event: &Event)
    ensures { IsSettledIn event.now system.now }
{
    match event {
        Event::Fetch { client, inode } => settle_at(system, *client, *inode),
        Event::Blocks { client, inode, .. } => settle_at(system, *client, *inode),
        _ => {}
    }
}

// Shows so of a client at an inode.
fn settle_at<M: Media>(system: &System<M>, client: u32, inode: u32)
    ensures { IsSettledAt system.now client inode }
{
    if !(1..1025).contains(&inode) {
        return;
    }
    match system.client(client) {
        Some(client) => {
            // For the proof: between two calls no failed try for the lease is being taken out.
            let _mode = client.holds(inode);
        }
        None => {}
    }
}
