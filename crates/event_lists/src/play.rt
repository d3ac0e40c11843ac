ghost use Rattle.std.specs.Prelude.{◌≡◌, IfOk, OnErr};
ghost use Rattle.event_lists.specs.Plays.{Plays};

use crate::steps::Steps;
use std::alloc::{AllocError, Global};

/// Plays events, one after the other, and gives the outcome of each. Refused for want of memory alone, before the first event,
/// and then nothing has changed.
pub fn play_all<E, O: Drop, S: Steps<E, O>>(
    alloc: Global,
    steps: &mut S,
    events: &[E],
) -> Result<Vec<O>, AllocError>
    ensures plays { IfOk result (λ outcomes. Plays S.Recoverable steps.old events.now outcomes.items steps.new) }
    ensures refusal { OnErr result (steps.new ≡ steps.old) }
{
    let mut outcomes = Vec::new(alloc);
    // All room is taken first: once events are played, their outcomes are not lost.
    outcomes.reserve(events.len())?;
    // For the proof: what a stop before the first event leaves is recovered.
    steps.left_now();
    for event in events {
        let outcome = steps.play_event(event);
        // For the proof: what a stop behind the event leaves is recovered.
        steps.left_now();
        match outcomes.push(outcome) {
            Ok(()) => {}
            Err(_) => unreachable!(),
        }
    }
    Ok(outcomes)
}
