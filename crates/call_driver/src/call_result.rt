// One event that answers a call, and what became of it.
ghost use Rattle.std.specs.Prelude.{◌≡◌, ℕ, Some, Ok};
ghost use Rattle.posix_calls.specs.declared.call.Call.{Call};
ghost use Rattle.interleavings.specs.event_steps.declared.event.Event.TheVariants as kinds;
ghost use Rattle.interleavings.specs.event_steps.declared.outcome.Outcome.TheVariants as outcome;
ghost use Rattle.posix_calls.specs.declared.call.Reply.{Reply};
ghost use Rattle.interleavings.specs.event_steps.declared.outcome.Outcome.{Outcome};
ghost use Rattle.call_driver.specs.Calls.{IsStepOf};
ghost use Rattle.call_driver.specs.EventOwner.{after_deny, after_start};

use crate::events::Events;
use interleavings::in_client_plan::Need;
use interleavings::in_event_steps::{Event, Outcome};
use interleavings::in_libfs::Denied;
use posix_calls::Reply;

/// What became of a served call.
#[derive(Drop)]
pub enum CallResult {
    /// It was answered.
    Reply(Reply),
    /// Its record is begun.
    Pending,
    /// Another client, or a device, is in the way: nothing has begun.
    Blocked,
    /// There was no memory to digest what it needs: nothing has begun.
    NoMemory,
}

/// Starts a call; what it lacks, if it does.
pub fn start<E: Events>(events: &mut E, event: &Event) -> Result<CallResult, Need>
    ensures exact { (o : Outcome) × E.plays events.old event.now o events.new × (result ≡ after_start o) }
    ensures answered { (reply : Reply) → result ≡ Ok (CallResult.Reply reply) → E.plays events.old event.now (outcome.Reply reply) events.new }
{
    match events.play(event) {
        Outcome::Reply { reply } => Ok(CallResult::Reply(reply)),
        Outcome::Pending => Ok(CallResult::Pending),
        Outcome::Need { need } => Err(need),
        _ => Ok(CallResult::Blocked),
    }
}

/// Gives up the call that an event starts, for what the kernel refused.
pub fn deny<E: Events>(events: &mut E, event: Event, why: Denied) -> CallResult
    ensures exact { (client : ℕ) (call : Call) → event ≡ kinds.Start client call → (o : Outcome) × E.plays events.old (kinds.Deny client call why) o events.new × (result ≡ after_deny o) }
    ensures answered { (client : ℕ) (call : Call) (reply : Reply) → event ≡ kinds.Start client call → result ≡ CallResult.Reply reply → E.plays events.old (kinds.Deny client call why) (outcome.Reply reply) events.new }
{
    let Event::Start { client, call } = event else {
        return CallResult::Blocked;
    };
    denial_result(events.play(&Event::Deny { client, call, why }))
}

fn denial_result(outcome: Outcome) -> CallResult
    ensures { result ≡ after_deny outcome }
{
    match outcome {
        Outcome::Reply { reply } => CallResult::Reply(reply),
        _ => CallResult::Blocked,
    }
}

/// One device call of a call that waits for its answer; none where none waits.
pub fn step_call<E: Events>(events: &mut E, client: u32) -> Option<CallResult>
    ensures exact { IsStepOf E.plays client result events.old events.new }
    ensures answered { (reply : Reply) → result ≡ Some (CallResult.Reply reply) → E.plays events.old (kinds.Step client) (outcome.Reply reply) events.new }
{
    match events.play(&Event::Step { client }) {
        Outcome::Reply { reply } => Some(CallResult::Reply(reply)),
        Outcome::Stepped => Some(CallResult::Pending),
        _ => None,
    }
}
