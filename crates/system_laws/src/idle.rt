//! Nothing happens: between two events, and in one that has nothing to do.

ghost use Rattle.std.specs.Prelude.{◌≡◌};
ghost use Rattle.event_steps.specs.View.{SystemView};
ghost use Rattle.event_steps.specs.declared.event.Event.{Event};
ghost use Rattle.event_steps.specs.declared.outcome.Outcome.TheVariants.{Idle};
ghost use Rattle.event_lists.specs.Plays.{IsRecovered};
ghost use Rattle.system_laws.specs.Leaves.{SystemLeaves};
ghost use Rattle.system_laws.specs.KeptCalls.{calls_then};
ghost use Rattle.system_laws.specs.Relation.{IsWorld};
ghost use Rattle.system_laws.specs.Steps.{IsBegunIn, IsStep, recoverable};
ghost use Rattle.system_laws.specs.WorldView.{WorldView};

use tier_device::Media;

/// An event that has nothing to do leaves tree, calls and parts as they were.
pub fn idle_event_is_a_step<M: Media>()
    ensures { (v : WorldView M) (e : Event) (new : SystemView M) → IsBegunIn M.Media v new → new ≡ v.system → IsStep M.Media v e Idle (record { system = new; calls = calls_then v.calls e Idle }) }
{}

/// Whatever a stop between two events leaves is recovered to the tree of then, with some of the calls that are not answered.
pub fn stop_between_events_is_recovered<M: Media>()
    ensures { (v : WorldView M) → IsWorld M.Media v → SystemLeaves M.Media v.system → IsRecovered (recoverable M.Media) v }
{}
