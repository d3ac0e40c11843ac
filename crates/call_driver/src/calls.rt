// A call, from its start to its answer.
ghost use Rattle.std.specs.Prelude.{◌≡◌, ◌≢◌, ◌⊎◌, true, Ok};
ghost use Rattle.posix_calls.specs.declared.call.Call.{Call};
ghost use Rattle.posix_calls.specs.declared.call.Reply.{Reply};
ghost use Rattle.interleavings.specs.event_steps.declared.event.Event.TheVariants as kinds;
ghost use Rattle.interleavings.specs.libfs.declared.life.Life.TheVariants as lives;
ghost use Rattle.call_driver.specs.Runs.{Leads, IsLast};
ghost use Rattle.call_driver.specs.Calls.{IsBegunCall, IsCarriedOn, IsServedCall, IsReadyCall};
ghost use Rattle.call_driver.specs.EventOwner.{IsOfClient, IsServing, IsAsking};

use crate::burials::is_dead;
use crate::call_result::{CallResult, deny, start, step_call};
use crate::events::Events;
use crate::needs::{NeedResult, serve_need};
use interleavings::in_event_steps::Event;
use interleavings::in_lease_manager::INODES;
use interleavings::in_libfs::Denied;
use posix_calls::Call;

// More turns than any call has needs. An inode may be needed in five ways: unpinned, leased for reading and for writing, fetched and pinned, and a lease is asked for again once others have handed it over: that
// is seven turns for each inode. What is left stands for the blocks of a read, numbers, units and room.
const TURNS: u32 = 8 * INODES;

// A record is appended by four device calls, of which the last answers its call.
const STEPS: u32 = 4;

/// Serves a call until it is answered. Where it does not let others hand over, a lease that another client holds blocks it.
///
/// A client that has a call which waits for its answer is blocked, and no event is played; so is one that is dead. An answer is that of the last event.
pub fn serve_call<E: Events>(
    events: &mut E,
    client: u32,
    call: Call,
    hands_over: bool,
) -> CallResult
    ensures waits { E.pending events.old client ≡ true → (result ≡ CallResult.Blocked) × (events.new ≡ events.old) }
    ensures dead { E.lives events.old client ≢ lives.Alive → (result ≡ CallResult.Blocked) × (events.new ≡ events.old) }
    ensures served { IsServedCall E.Events hands_over client call result events.old events.new }
    ensures events { Leads E.plays (IsServing hands_over client) events.old events.new }
    ensures answered { (reply : Reply) → result ≡ CallResult.Reply reply → IsLast E.plays (λ e. IsAsking client call e ⊎ (e ≡ kinds.Step client)) reply events.new }
{
    match begin_call(events, client, call, hands_over) {
        CallResult::Pending => finish_append(events, client),
        served => served,
    }
}

/// Serves the needs of a call until it is answered or its record is begun. A client that has a call which waits for its answer is blocked, and no event is played; so is one that is dead.
pub fn begin_call<E: Events>(
    events: &mut E,
    client: u32,
    call: Call,
    hands_over: bool,
) -> CallResult
    ensures waits { E.pending events.old client ≡ true → (result ≡ CallResult.Blocked) × (events.new ≡ events.old) }
    ensures dead { E.lives events.old client ≢ lives.Alive → (result ≡ CallResult.Blocked) × (events.new ≡ events.old) }
    ensures begun { IsBegunCall E.Events hands_over client call result events.old events.new }
    ensures events { Leads E.plays (IsServing hands_over client) events.old events.new }
    ensures answered { (reply : Reply) → result ≡ CallResult.Reply reply → IsLast E.plays (IsAsking client call) reply events.new }
{
    if is_dead(events, client) || events.is_pending(client) {
        return CallResult::Blocked;
    }
    let event = Event::Start { client, call };
    match start_until_ready(events, client, &event, hands_over) {
        Ok(served) => served,
        Err(why) => deny(events, event, why),
    }
}

// Starts a call until it lacks nothing. If the kernel refuses what it needs, that is the answer.
fn start_until_ready<E: Events>(
    events: &mut E,
    client: u32,
    event: &Event,
    hands_over: bool,
) -> Result<CallResult, Denied>
    requires { IsOfClient client event.now }
    ensures answer { (call : Call) → event.now ≡ kinds.Start client call → IsReadyCall E.Events hands_over client call result events.old events.new }
    ensures events { Leads E.plays (IsServing hands_over client) events.old events.new }
    ensures answered { (reply : Reply) → result ≡ Ok (CallResult.Reply reply) → IsLast E.plays (λ e. e ≡ event.now) reply events.new }
{
    for turn in 0..TURNS {
        match start(events, event) {
            Ok(served) => return Ok(served),
            Err(need) => match serve_need(events, client, need, hands_over) {
                NeedResult::Again => {}
                NeedResult::Blocked => return Ok(CallResult::Blocked),
                NeedResult::NoMemory => return Ok(CallResult::NoMemory),
                NeedResult::Denied(why) => return Err(why),
            },
        }
    }
    Ok(CallResult::Blocked)
}

fn finish_append<E: Events>(events: &mut E, client: u32) -> CallResult
    ensures carried { IsCarriedOn E.plays client result events.old events.new }
    ensures events { Leads E.plays (IsOfClient client) events.old events.new }
    ensures answered { (reply : Reply) → result ≡ CallResult.Reply reply → IsLast E.plays (λ e. e ≡ kinds.Step client) reply events.new }
{
    for step in 0..STEPS {
        match step_call(events, client) {
            Some(served) => match served {
                CallResult::Pending => {}
                served => return served,
            },
            None => return CallResult::Blocked,
        }
    }
    CallResult::Pending
}
