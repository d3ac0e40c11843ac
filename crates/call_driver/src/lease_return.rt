// Other clients give back what a call needs.
ghost use Rattle.std.specs.Prelude.{◌≡◌};
ghost use Rattle.interleavings.specs.event_steps.declared.event.Event.TheVariants as event;
ghost use Rattle.call_driver.specs.EventResults.{CameTo};
ghost use Rattle.call_driver.specs.declared.event_result.EventResult.{EventResult};
ghost use Rattle.call_driver.specs.LeaseReturn.{GivesWay, HandsOver, OthersHandOver, after_give, without_digest};
ghost use Rattle.call_driver.specs.Runs.{Leads};
ghost use Rattle.call_driver.specs.EventOwner.{IsHandingOver};

use crate::burials::is_dead;
use crate::digests::digest_all;
use crate::event_result::{EventResult, carry_out};
use crate::events::Events;
use crate::needs::NeedResult;
use interleavings::in_event_steps::{Event, Refusal};
use interleavings::in_lease_manager::{CLIENTS, LeaseMode};

/// Each other client that holds an inode, rising, digests all that it logged and gives the inode back. One that is dead, whose call is pending, or whose device has failed, is in the way.
pub fn others_hand_over<E: Events>(events: &mut E, client: u32, inode: u32) -> NeedResult
    ensures handed { OthersHandOver E.Events client inode result events.old events.new }
    ensures events { Leads E.plays (IsHandingOver inode) events.old events.new }
{
    for before in 0..CLIENTS {
        match release_lease(events, client, before + 1, inode) {
            NeedResult::Again => {}
            turn => return turn,
        }
    }
    NeedResult::Again
}

// Another client gives an inode back, if it holds it.
fn release_lease<E: Events>(events: &mut E, client: u32, other: u32, inode: u32) -> NeedResult
    ensures way { GivesWay E.Events client other inode result events.old events.new }
    ensures events { Leads E.plays (IsHandingOver inode) events.old events.new }
{
    if other == client || events.holds(other, inode) == LeaseMode::Free {
        return NeedResult::Again;
    }
    hand_over(events, other, inode)
}

fn hand_over<E: Events>(events: &mut E, client: u32, inode: u32) -> NeedResult
    ensures handed { HandsOver E.Events client inode result events.old events.new }
    ensures events { Leads E.plays (IsHandingOver inode) events.old events.new }
{
    if is_dead(events, client) || events.is_pending(client) || events.has_failed(client) {
        return NeedResult::Blocked;
    }
    match digest_all(events, client) {
        Ok(()) => give(events, client, inode),
        Err(refusal) => not_digested(refusal),
    }
}

fn give<E: Events>(events: &mut E, client: u32, inode: u32) -> NeedResult
    ensures given { (d : EventResult) × CameTo E.plays (event.Give client inode) d events.old events.new × (result ≡ after_give d) }
    ensures events { Leads E.plays (IsHandingOver inode) events.old events.new }
{
    match carry_out(events, Event::Give { client, inode }) {
        EventResult::Done => NeedResult::Again,
        _ => NeedResult::Blocked,
    }
}

/// What becomes of a call whose needs want a digest that is refused.
pub fn not_digested(refusal: Refusal) -> NeedResult
    ensures { result ≡ without_digest refusal }
{
    match refusal {
        Refusal::Memory => NeedResult::NoMemory,
        _ => NeedResult::Blocked,
    }
}
