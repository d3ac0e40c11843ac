//! The calls that are started and not answered, which only clauses read.

ghost use Rattle.std.specs.Borrow.{ftrue};
ghost use Rattle.std.specs.Prelude.{◌≡◌, List, Option};
ghost use Rattle.posix_calls.specs.declared.call.Call.{Call};
ghost use Rattle.system_laws.specs.KeptCalls.{calls_then, no_calls};

use std::marker::Model;
use system_laws::in_event_steps::{Event, Outcome};

/// Each client's call that is started and not answered. It has no bytes.
#[derive(Drop)]
pub(crate) struct Notes {
    pub ghost calls: { List (Option Call) },
}

impl Model for Notes {
    ghost also_owns = { λ _. ftrue };
}

impl Notes {
    // No call is started.
    pub(crate) fn none() -> Notes
        ensures { result.calls ≡ no_calls }
    {
        Notes {}
    }

    // What is started and not answered behind an event.
    pub(crate) fn after(_old: &Notes, _event: &Event, _outcome: &Outcome) -> Notes
        ensures { result.calls ≡ calls_then _old.now.calls _event.now _outcome.now }
    {
        Notes {}
    }
}
