//! A device call is made for a begun call.

ghost use Rattle.std.specs.Prelude.{ℕ};
ghost use Rattle.event_steps.specs.Effects.{MakesAt};
ghost use Rattle.event_steps.specs.Turns.{CanPlay};
ghost use Rattle.event_steps.specs.View.{SystemView};
ghost use Rattle.event_steps.specs.declared.event.Event.TheVariants.{Step};
ghost use Rattle.event_steps.specs.declared.outcome.Outcome.{Outcome};
ghost use Rattle.system_laws.specs.KeptCalls.{calls_then};
ghost use Rattle.system_laws.specs.Steps.{IsBegunIn, IsStep};
ghost use Rattle.system_laws.specs.WorldView.{WorldView};

use tier_device::Media;

/// The device call that completes a begun record answers its call, which is one step of the tree then; those before it leave the tree as it
/// is. One that fails does so too, and its call stays unfinished.
pub fn stepped_call_is_a_step<M: Media>()
    ensures { (v : WorldView M) (c : ℕ) (o : Outcome) (new : SystemView M) → IsBegunIn M.Media v new → CanPlay M.Media v.system (Step c) → MakesAt M.Media v.system c (Step c) o new
        → IsStep M.Media v (Step c) o (record { system = new; calls = calls_then v.calls (Step c) o }) }
{}
