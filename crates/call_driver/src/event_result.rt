// One event, and what became of it.
ghost use Rattle.call_driver.specs.EventResults.{CameTo};

use crate::events::Events;
use interleavings::in_event_steps::{Event, Outcome, Refusal};

/// What became of an event that answers no call.
#[derive(Clone, Copy, PartialEq, Eq)]
pub enum EventResult {
    /// It was done.
    Done,
    /// There was nothing to do.
    Nothing,
    Refused(Refusal),
}

/// Carries out an event that answers no call.
pub fn carry_out<E: Events>(events: &mut E, event: Event) -> EventResult
    ensures { CameTo E.plays event result events.old events.new }
{
    match events.play(&event) {
        Outcome::Stepped => EventResult::Done,
        Outcome::Refused { refusal } => EventResult::Refused(refusal),
        _ => EventResult::Nothing,
    }
}
