// A client that died is buried, and a new one takes its seat.
ghost use Rattle.std.specs.Prelude.{◌≡◌, ◌≢◌, true, false};
ghost use Rattle.call_driver.specs.Burials.{IsBurial, IsDeadBuried, IsRenewed, IsSettledBuried, LeavesBook, after_bury, after_join, after_settle};
ghost use Rattle.call_driver.specs.EventOwner.{IsOfClient};
ghost use Rattle.call_driver.specs.Runs.{Leads};
ghost use Rattle.interleavings.specs.event_steps.declared.event.Event.TheVariants as event;
ghost use Rattle.interleavings.specs.event_steps.declared.outcome.Outcome.{Outcome};
ghost use Rattle.interleavings.specs.libfs.declared.life.Life.TheVariants as lives;

use crate::digests::{digest_all, wipe_all};
use crate::events::Events;
use interleavings::in_event_steps::{Event, Outcome, Refusal};
use interleavings::in_libfs::{Found, Life};

/// What became of a burial.
#[derive(Clone, Copy, PartialEq, Eq)]
pub enum BuryResult {
    /// The client is buried, its begun call was found so, and a new one has its seat.
    Buried(Found),
    /// There was nothing to do, or nothing that can be done: the client lives, its call could not be settled, or no new one can take its seat, since a device of it failed.
    Idle,
    /// An event was refused. What was done before it stays, and a further burial goes on from there.
    Refused(Refusal),
}

/// Whether a client asks no calls any more: it died, and no other has joined in its seat.
pub fn is_dead<E: Events>(events: &E, client: u32) -> bool
    ensures dead { result ≡ true → E.lives events.now client ≢ lives.Alive }
    ensures alive { result ≡ false → E.lives events.now client ≡ lives.Alive }
{
    match events.life(client) {
        Life::Alive => false,
        _ => true,
    }
}

/// Buries a client that died, from where its life has come: its begun call is settled; all that it logged is digested; its units, numbers, pins and leases go; its regions are wiped; and a new client takes its seat. No
/// file is reclaimed. A living client is left as it is. The first event that is refused ends it.
pub fn bury_client<E: Events>(events: &mut E, client: u32) -> BuryResult
    ensures buried { IsBurial E.Events client result events.old events.new }
    ensures events { Leads E.plays (IsOfClient client) events.old events.new }
{
    match events.life(client) {
        Life::Alive => BuryResult::Idle,
        Life::Dead => bury_dead(events, client),
        Life::Settled { found } => bury_settled(events, client, found),
        Life::Buried { found } => renew_seat(events, client, found),
    }
}

// One whose call is not settled yet.
fn bury_dead<E: Events>(events: &mut E, client: u32) -> BuryResult
    ensures buried { IsDeadBuried E.Events client result events.old events.new }
    ensures events { Leads E.plays (IsOfClient client) events.old events.new }
{
    let outcome = events.play(&Event::Settle { client });
    match after_settle(outcome) {
        Ok(found) => bury_settled(events, client, found),
        Err(end) => end,
    }
}

// What became of the call that was settled, or how the burial ends.
fn after_settle(outcome: Outcome) -> Result<Found, BuryResult>
    ensures { result ≡ after_settle outcome }
{
    match outcome {
        Outcome::Settled { fate } => Ok(fate.kind()),
        Outcome::Refused { refusal } => Err(BuryResult::Refused(refusal)),
        _ => Err(BuryResult::Idle),
    }
}

// One whose call was found so.
fn bury_settled<E: Events>(events: &mut E, client: u32, found: Found) -> BuryResult
    ensures buried { IsSettledBuried E.Events client found result events.old events.new }
    ensures events { Leads E.plays (IsOfClient client) events.old events.new }
{
    match digest_all(events, client) {
        Ok(()) => leave_book(events, client, found),
        Err(refusal) => BuryResult::Refused(refusal),
    }
}

// One that has nothing undigested.
fn leave_book<E: Events>(events: &mut E, client: u32, found: Found) -> BuryResult
    ensures buried { LeavesBook E.Events client found result events.old events.new }
    ensures events { Leads E.plays (IsOfClient client) events.old events.new }
{
    let outcome = events.play(&Event::Bury { client });
    match after_bury(found, outcome) {
        Ok(found) => renew_seat(events, client, found),
        Err(end) => end,
    }
}

// How the call of a client was found that is buried, or how the burial ends.
fn after_bury(found: Found, outcome: Outcome) -> Result<Found, BuryResult>
    ensures { result ≡ after_bury found outcome }
{
    match outcome {
        Outcome::Buried => Ok(found),
        Outcome::Refused { refusal } => Err(BuryResult::Refused(refusal)),
        _ => Err(BuryResult::Idle),
    }
}

// One of which the kernel's book has nothing: its regions are wiped, and a new client takes its seat.
fn renew_seat<E: Events>(events: &mut E, client: u32, found: Found) -> BuryResult
    ensures renewed { IsRenewed E.Events client found result events.old events.new }
    ensures events { Leads E.plays (IsOfClient client) events.old events.new }
{
    match wipe_all(events, client) {
        Ok(_) => join(events, client, found),
        Err(refusal) => BuryResult::Refused(refusal),
    }
}

fn join<E: Events>(events: &mut E, client: u32, found: Found) -> BuryResult
    ensures joined { (o : Outcome) × E.plays events.old (event.Join client) o events.new × (result ≡ after_join found o) }
    ensures events { Leads E.plays (IsOfClient client) events.old events.new }
{
    after_join(found, events.play(&Event::Join { client }))
}

// Whether another client has the seat of one whose call was found so.
fn after_join(found: Found, outcome: Outcome) -> BuryResult
    ensures { result ≡ after_join found outcome }
{
    match outcome {
        Outcome::Joined => BuryResult::Buried(found),
        _ => BuryResult::Idle,
    }
}
