// What a call needs, one need at a time.
ghost use Rattle.std.specs.Prelude.{◌≡◌, Some};
ghost use Rattle.interleavings.specs.event_steps.Turns.{whose};
ghost use Rattle.call_driver.specs.EventResults.{CameTo};
ghost use Rattle.call_driver.specs.declared.event_result.EventResult.{EventResult};
ghost use Rattle.call_driver.specs.declared.event_result.EventResult.TheVariants as did;
ghost use Rattle.interleavings.specs.event_steps.declared.outcome.Refusal.{Refusal};
ghost use Rattle.call_driver.specs.Needs.{AfterLease, IsLeased, IsServed, MakesRoom, after_asking, after_refusal, event_for, lease_event};
ghost use Rattle.call_driver.specs.Runs.{Leads};
ghost use Rattle.call_driver.specs.EventOwner.{IsOfClient, IsServing};

use crate::digests::{digest_all, wipe_all};
use crate::event_result::{EventResult, carry_out};
use crate::events::Events;
use crate::lease_return::{not_digested, others_hand_over};
use interleavings::in_client_plan::{Mode, Need};
use interleavings::in_event_steps::{Event, Refusal};
use interleavings::in_lease_manager::LeaseMode;
use interleavings::in_libfs::Denied;

/// What came of a need.
#[derive(Clone, Copy)]
pub enum NeedResult {
    /// It was served, or is asked again: the call may be started again.
    Again,
    /// Another client, or a device, is in the way.
    Blocked,
    /// There was no memory to digest what it needs.
    NoMemory,
    /// The kernel refused it.
    Denied(Denied),
}

/// Serves a need. Where other clients hold a lease that is needed, they hand the inode over, or else are in the way.
pub fn serve_need<E: Events>(
    events: &mut E,
    client: u32,
    need: Need,
    hands_over: bool,
) -> NeedResult
    ensures served { IsServed E.Events hands_over client need result events.old events.new }
    ensures events { Leads E.plays (IsServing hands_over client) events.old events.new }
{
    match need {
        Need::Lease { inode, mode } => take_lease(events, client, inode, mode, hands_over),
        Need::Room => make_room(events, client),
        need => ask_kernel(events, client, need),
    }
}

fn take_lease<E: Events>(
    events: &mut E,
    client: u32,
    inode: u32,
    mode: Mode,
    hands_over: bool,
) -> NeedResult
    ensures leased { IsLeased E.Events hands_over client inode mode result events.old events.new }
    ensures events { Leads E.plays (IsServing hands_over client) events.old events.new }
{
    let event = lease_event(client, inode, mode, events.holds(client, inode));
    match carry_out(events, event) {
        EventResult::Done => NeedResult::Again,
        EventResult::Nothing => NeedResult::Blocked,
        EventResult::Refused(_) => ask_holders(events, client, inode, hands_over),
    }
}

// Others hold it. Where they do not hand over, they are in the way.
fn ask_holders<E: Events>(events: &mut E, client: u32, inode: u32, hands_over: bool) -> NeedResult
    ensures others { (why : Refusal) → AfterLease E.Events hands_over client inode (did.Refused why) result events.old events.new }
    ensures events { Leads E.plays (IsServing hands_over client) events.old events.new }
{
    if hands_over {
        others_hand_over(events, client, inode)
    } else {
        NeedResult::Blocked
    }
}

// A client that holds an inode for reading raises its lease.
fn lease_event(client: u32, inode: u32, mode: Mode, held: LeaseMode) -> Event
    ensures is { result ≡ lease_event client inode mode held }
    ensures whose { whose result ≡ Some client }
{
    match held {
        LeaseMode::Reading => Event::Raise { client, inode },
        _ => Event::Lease {
            client,
            inode,
            mode,
        },
    }
}

// Room for a record: all that the client logged is digested, and what there is to wipe of its regions is wiped. Where its device fails in that, the call is answered so when it is started again.
fn make_room<E: Events>(events: &mut E, client: u32) -> NeedResult
    ensures room { MakesRoom E.Events client result events.old events.new }
    ensures events { Leads E.plays (IsOfClient client) events.old events.new }
{
    match digest_all(events, client) {
        Ok(()) => {
            let _ = wipe_all(events, client);
            NeedResult::Again
        }
        Err(refusal) => not_digested(refusal),
    }
}

// Asks the kernel.
fn ask_kernel<E: Events>(events: &mut E, client: u32, need: Need) -> NeedResult
    ensures asked { (d : EventResult) × CameTo E.plays (event_for client need) d events.old events.new × (result ≡ after_asking d) }
    ensures events { Leads E.plays (IsOfClient client) events.old events.new }
{
    match carry_out(events, event_for(client, need)) {
        EventResult::Done => NeedResult::Again,
        EventResult::Nothing => NeedResult::Blocked,
        EventResult::Refused(refusal) => denial_of(refusal),
    }
}

// The event that serves a need. Leases and room take more.
fn event_for(client: u32, need: Need) -> Event
    ensures is { result ≡ event_for client need }
    ensures whose { whose result ≡ Some client }
{
    match need {
        Need::Unpin { inode } => Event::Unpin { client, inode },
        Need::View { inode } => Event::Fetch { client, inode },
        Need::Blocks {
            inode,
            first,
            count,
        } => Event::Blocks {
            client,
            inode,
            first: u32::try_from(first).unwrap_or(u32::MAX),
            count,
        },
        Need::Inodes { count } => Event::Refill {
            client,
            units: 0,
            inodes: count,
        },
        Need::Units { count } => Event::Refill {
            client,
            units: count,
            inodes: 0,
        },
        Need::Pin { inode } => Event::Pin { client, inode },
        Need::Lease { inode, mode } => Event::Lease {
            client,
            inode,
            mode,
        },
        Need::Room => Event::Seal { client },
    }
}

fn denial_of(refusal: Refusal) -> NeedResult
    ensures { result ≡ after_refusal refusal }
{
    match refusal {
        Refusal::DeviceFault => NeedResult::Denied(Denied::Device),
        Refusal::KernelFailed => NeedResult::Denied(Denied::KernelFailed),
        Refusal::NoUnits => NeedResult::Denied(Denied::NoUnits),
        Refusal::NoInode => NeedResult::Denied(Denied::NoInode),
        Refusal::Memory => NeedResult::Denied(Denied::Memory),
        _ => NeedResult::Blocked,
    }
}
