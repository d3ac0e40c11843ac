//! A client's region is handed over, digested and taken back, and wiped.

ghost use Rattle.std.specs.Prelude.{◌≢◌, ℕ};
ghost use Rattle.event_steps.specs.Effects.{MakesAt};
ghost use Rattle.event_steps.specs.Turns.{CanPlay};
ghost use Rattle.event_steps.specs.View.{SystemView};
ghost use Rattle.event_steps.specs.declared.event.Event.TheVariants.{Digest, Seal, WipeStep};
ghost use Rattle.event_steps.specs.declared.outcome.Outcome.{Outcome};
ghost use Rattle.event_steps.specs.declared.outcome.Outcome.TheVariants.{Refused};
ghost use Rattle.event_steps.specs.declared.outcome.Refusal.TheVariants.{BadLog};
ghost use Rattle.system_laws.specs.Steps.{IsBegunIn, IsStep};
ghost use Rattle.system_laws.specs.WorldView.{WorldView};

use tier_device::Media;

/// A client hands the region over that it writes, and goes on in its other one, or there is no memory for that: the tree stays.
pub fn sealed_region_is_a_step<M: Media>()
    ensures { (v : WorldView M) (c : ℕ) (o : Outcome) (new : SystemView M) → IsBegunIn M.Media v new → CanPlay M.Media v.system (Seal c) → MakesAt M.Media v.system c (Seal c) o new
        → IsStep M.Media v (Seal c) o (record { system = new; calls = v.calls }) }
{}

/// A region that is away is read, accepted, and its next records are digested; behind the last one it is taken back. Or that is
/// refused, or a device fails: the tree stays. It is never refused for a bad log: the region stands at its client's mark, as many of its
/// records are waiting as it has undigested, and they are good.
pub fn digested_region_is_a_step<M: Media>()
    ensures step { (v : WorldView M) (c : ℕ) (o : Outcome) (new : SystemView M) → IsBegunIn M.Media v new → CanPlay M.Media v.system (Digest c) → MakesAt M.Media v.system c (Digest c) o new
        → IsStep M.Media v (Digest c) o (record { system = new; calls = v.calls }) }
    ensures never_bad { (v : WorldView M) (c : ℕ) (o : Outcome) (new : SystemView M) → IsBegunIn M.Media v new → CanPlay M.Media v.system (Digest c) → MakesAt M.Media v.system c (Digest c) o new
        → o ≢ Refused BadLog }
{}

/// One device call of a wipe of a client's region is made, or fails: the tree stays.
pub fn wiped_region_is_a_step<M: Media>()
    ensures { (v : WorldView M) (c : ℕ) (o : Outcome) (new : SystemView M) → IsBegunIn M.Media v new → CanPlay M.Media v.system (WipeStep c) → MakesAt M.Media v.system c (WipeStep c) o new
        → IsStep M.Media v (WipeStep c) o (record { system = new; calls = v.calls }) }
{}
