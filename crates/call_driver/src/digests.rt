// What a client logged is digested, and its regions are wiped.
ghost use Rattle.std.specs.Prelude.{◌≡◌, IfErr, OnOk};
ghost use Rattle.interleavings.specs.event_steps.declared.event.Event.TheVariants as event;
ghost use Rattle.interleavings.specs.event_steps.declared.outcome.Refusal.TheVariants as refusals;
ghost use Rattle.call_driver.specs.declared.event_result.EventResult.TheVariants as did;
ghost use Rattle.call_driver.specs.EventResults.{CameTo};
ghost use Rattle.call_driver.specs.Digests.{AreReclaimed, IsCleared, IsDigested, IsReclaimed, IsRegionDone, IsWiped};
ghost use Rattle.call_driver.specs.Runs.{Leads};
ghost use Rattle.call_driver.specs.EventOwner.{IsDigesting, IsReclaim, IsClearing};

use crate::event_result::{EventResult, carry_out};
use crate::events::Events;
use interleavings::in_event_steps::{Event, Refusal};
use interleavings::in_lease_manager::INODES;

// A wipe makes four device calls, and a client has two regions.
const WIPE_STEPS: u32 = 8;

/// Digests all that a client logged: the records of the region that it handed over, if it did, and then those of its current one. Where an event is refused the rest is left undone.
pub fn digest_all<E: Events>(events: &mut E, client: u32) -> Result<(), Refusal>
    ensures digested { IsDigested E.Events client result events.old events.new }
    ensures events { Leads E.plays (IsDigesting client) events.old events.new }
{
    digest_region(events, client)?;
    match carry_out(events, Event::Seal { client }) {
        EventResult::Done => digest_region(events, client),
        EventResult::Nothing => Ok(()),
        EventResult::Refused(refusal) => Err(refusal),
    }
}

// Digests what a client handed over, chunk by chunk. Each chunk has a record at least.
fn digest_region<E: Events>(events: &mut E, client: u32) -> Result<(), Refusal>
    ensures digested { IsRegionDone E.Events client result events.old events.new }
    ensures events { Leads E.plays (IsDigesting client) events.old events.new }
{
    for chunk in 0..events.undigested(client) {
        match carry_out(events, Event::Digest { client }) {
            EventResult::Done => {}
            EventResult::Nothing => return Ok(()),
            EventResult::Refused(refusal) => return Err(refusal),
        }
    }
    Ok(())
}

/// Digests all that a client logged, and then drops each file that has no name and no pin, rising. It answers how many records were digested.
pub fn clear_client<E: Events>(events: &mut E, client: u32) -> Result<usize, Refusal>
    ensures cleared { IsCleared E.Events client result events.old events.new }
    ensures events { Leads E.plays (IsClearing client) events.old events.new }
{
    let before = events.undigested(client);
    digest_all(events, client)?;
    let count = before.saturating_sub(events.undigested(client));
    reclaim_all(events)?;
    Ok(count)
}

// Drops each file that may go, rising.
fn reclaim_all<E: Events>(events: &mut E) -> Result<(), Refusal>
    ensures reclaimed { AreReclaimed E.plays result events.old events.new }
    ensures events { Leads E.plays IsReclaim events.old events.new }
{
    for before in 0..INODES {
        reclaim(events, before + 1)?;
    }
    Ok(())
}

// Drops a file, if it may go.
fn reclaim<E: Events>(events: &mut E, inode: u32) -> Result<(), Refusal>
    ensures reclaimed { OnOk result (IsReclaimed E.plays inode events.old events.new) }
    ensures refused { IfErr result (λ why. CameTo E.plays (event.Reclaim inode) (did.Refused why) events.old events.new) }
{
    match carry_out(events, Event::Reclaim { inode }) {
        EventResult::Done => Ok(()),
        EventResult::Nothing => Ok(()),
        EventResult::Refused(refusal) => allow_in_use(refusal),
    }
}

// A file that is in use is passed over.
fn allow_in_use(refusal: Refusal) -> Result<(), Refusal>
    ensures passed { OnOk result (refusal ≡ refusals.InUse) }
    ensures refused { IfErr result (λ why. why ≡ refusal) }
{
    match refusal {
        Refusal::InUse => Ok(()),
        refusal => Err(refusal),
    }
}

/// Wipes what there is to wipe of a client's regions. It answers whether there was something.
pub fn wipe_all<E: Events>(events: &mut E, client: u32) -> Result<bool, Refusal>
    ensures wiped { IsWiped E.plays client result events.old events.new }
    ensures events { Leads E.plays (λ e. e ≡ event.WipeStep client) events.old events.new }
{
    let mut wiped = false;
    for step in 0..WIPE_STEPS {
        match carry_out(events, Event::WipeStep { client }) {
            EventResult::Done => wiped = true,
            EventResult::Nothing => return Ok(wiped),
            EventResult::Refused(refusal) => return Err(refusal),
        }
    }
    Ok(wiped)
}
