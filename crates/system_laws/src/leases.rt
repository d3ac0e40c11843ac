//! Leases are taken, raised, given back and asked for.

ghost use Rattle.std.specs.Prelude.{ℕ};
ghost use Rattle.event_steps.specs.client_plan.declared.need.Mode.{Mode};
ghost use Rattle.event_steps.specs.Effects.{MakesAt};
ghost use Rattle.event_steps.specs.Turns.{CanPlay};
ghost use Rattle.event_steps.specs.View.{SystemView};
ghost use Rattle.event_steps.specs.declared.event.Event.TheVariants.{AskBack, Give, Lease, Raise};
ghost use Rattle.event_steps.specs.declared.outcome.Outcome.{Outcome};
ghost use Rattle.system_laws.specs.Leaves.{HasMetAll};
ghost use Rattle.system_laws.specs.Steps.{IsBegunIn, IsStep};
ghost use Rattle.system_laws.specs.WorldView.{WorldView};

use tier_device::Media;

/// A lease is taken, by a client that has met all others after it, or refused: the tree stays.
pub fn taken_lease_is_a_step<M: Media>()
    ensures { (v : WorldView M) (c i : ℕ) (mode : Mode) (o : Outcome) (new : SystemView M) → IsBegunIn M.Media v new → CanPlay M.Media v.system (Lease c i mode) → MakesAt M.Media v.system c (Lease c i mode) o new → HasMetAll new c
        → IsStep M.Media v (Lease c i mode) o (record { system = new; calls = v.calls }) }
{}

/// A read lease is raised to a write lease, by a client that has met all others after it, or that is refused: the tree stays.
pub fn raised_lease_is_a_step<M: Media>()
    ensures { (v : WorldView M) (c i : ℕ) (o : Outcome) (new : SystemView M) → IsBegunIn M.Media v new → CanPlay M.Media v.system (Raise c i) → MakesAt M.Media v.system c (Raise c i) o new → HasMetAll new c
        → IsStep M.Media v (Raise c i) o (record { system = new; calls = v.calls }) }
{}

/// A lease is given back, of an inode that no undigested record of the client touches: the tree stays.
pub fn given_lease_is_a_step<M: Media>()
    ensures { (v : WorldView M) (c i : ℕ) (o : Outcome) (new : SystemView M) → IsBegunIn M.Media v new → CanPlay M.Media v.system (Give c i) → MakesAt M.Media v.system c (Give c i) o new
        → IsStep M.Media v (Give c i) o (record { system = new; calls = v.calls }) }
{}

/// Another client is asked to give a lease back: the tree stays.
pub fn asked_lease_is_a_step<M: Media>()
    ensures { (v : WorldView M) (c i of : ℕ) (o : Outcome) (new : SystemView M) → IsBegunIn M.Media v new → CanPlay M.Media v.system (AskBack c i of) → MakesAt M.Media v.system c (AskBack c i of) o new
        → IsStep M.Media v (AskBack c i of) o (record { system = new; calls = v.calls }) }
{}
