//! A call is started.

ghost use Rattle.std.specs.Prelude.{ℕ};
ghost use Rattle.posix_calls.specs.declared.call.Call.{Call};
ghost use Rattle.event_steps.specs.Effects.{MakesAt};
ghost use Rattle.event_steps.specs.Turns.{CanPlay};
ghost use Rattle.event_steps.specs.View.{SystemView};
ghost use Rattle.event_steps.specs.declared.event.Event.TheVariants.{Start};
ghost use Rattle.event_steps.specs.declared.outcome.Outcome.{Outcome};
ghost use Rattle.system_laws.specs.KeptCalls.{calls_then};
ghost use Rattle.system_laws.specs.Steps.{IsBegunIn, IsStep};
ghost use Rattle.system_laws.specs.WorldView.{WorldView};

use event_steps::in_libfs::{answered_start_is_a_step, begun_record_is_a_step};
use tier_device::Media;

/// A call that is answered at once is one step of the tree. A call whose record is begun is unfinished from then on, and the tree stays, as
/// it does for a call that needs something first.
pub fn started_call_is_a_step<M: Media>()
    ensures { (v : WorldView M) (c : ℕ) (call : Call) (o : Outcome) (new : SystemView M) → IsBegunIn M.Media v new → CanPlay M.Media v.system (Start c call) → MakesAt M.Media v.system c (Start c call) o new
        → IsStep M.Media v (Start c call) o (record { system = new; calls = calls_then v.calls (Start c call) o }) }
{
    answered_start_is_a_step::<M>();
    begun_record_is_a_step::<M>();
}
