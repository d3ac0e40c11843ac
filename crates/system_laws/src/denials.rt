//! A call is given up for what the kernel refused.

ghost use Rattle.std.specs.Prelude.{ℕ};
ghost use Rattle.posix_calls.specs.declared.call.Call.{Call};
ghost use Rattle.event_steps.specs.libfs.declared.denial.Denied.{Denied};
ghost use Rattle.event_steps.specs.Effects.{MakesAt};
ghost use Rattle.event_steps.specs.Turns.{CanPlay};
ghost use Rattle.event_steps.specs.View.{SystemView};
ghost use Rattle.event_steps.specs.declared.event.Event.TheVariants.{Deny};
ghost use Rattle.event_steps.specs.declared.outcome.Outcome.{Outcome};
ghost use Rattle.system_laws.specs.Steps.{IsBegunIn, IsStep};
ghost use Rattle.system_laws.specs.WorldView.{WorldView};

use tier_device::Media;

/// A client's call that is given up is answered by an error, and the tree stays.
pub fn denied_call_is_a_step<M: Media>()
    ensures { (v : WorldView M) (c : ℕ) (call : Call) (why : Denied) (o : Outcome) (new : SystemView M) → IsBegunIn M.Media v new → CanPlay M.Media v.system (Deny c call why) → MakesAt M.Media v.system c (Deny c call why) o new
        → IsStep M.Media v (Deny c call why) o (record { system = new; calls = v.calls }) }
{}
