//! A client dies, its call is settled, it is buried, and a new client joins.

ghost use Rattle.std.specs.Prelude.{ℕ};
ghost use Rattle.event_steps.specs.Effects.{MakesAt};
ghost use Rattle.event_steps.specs.Turns.{CanPlay};
ghost use Rattle.event_steps.specs.View.{SystemView};
ghost use Rattle.event_steps.specs.declared.event.Event.TheVariants.{Bury, Die, Join, Settle};
ghost use Rattle.event_steps.specs.declared.outcome.Outcome.{Outcome};
ghost use Rattle.system_laws.specs.KeptCalls.{calls_then};
ghost use Rattle.system_laws.specs.Steps.{IsBegunIn, IsStep};
ghost use Rattle.system_laws.specs.WorldView.{WorldView};

use tier_device::Media;

/// A client dies: the tree stays, and its begun call stays unfinished.
pub fn dead_client_is_a_step<M: Media>()
    ensures { (v : WorldView M) (c : ℕ) (o : Outcome) (new : SystemView M) → IsBegunIn M.Media v new → CanPlay M.Media v.system (Die c) → MakesAt M.Media v.system c (Die c) o new
        → IsStep M.Media v (Die c) o (record { system = new; calls = v.calls }) }
{}

/// One fence finds what became of a dead client's call: where its record is there the call is one step of the tree, and where it is not the
/// call is dropped. With either, and where none was begun, the client departs: all that it had open is closed. If the device fails, the tree
/// and the call stay as they were.
pub fn settled_client_is_a_step<M: Media>()
    ensures { (v : WorldView M) (c : ℕ) (o : Outcome) (new : SystemView M) → IsBegunIn M.Media v new → CanPlay M.Media v.system (Settle c) → MakesAt M.Media v.system c (Settle c) o new
        → IsStep M.Media v (Settle c) o (record { system = new; calls = calls_then v.calls (Settle c) o }) }
{}

/// A settled client's account with the kernel is emptied, and its leases are given, or that is refused: the tree stays.
pub fn buried_client_is_a_step<M: Media>()
    ensures { (v : WorldView M) (c : ℕ) (o : Outcome) (new : SystemView M) → IsBegunIn M.Media v new → CanPlay M.Media v.system (Bury c) → MakesAt M.Media v.system c (Bury c) o new
        → IsStep M.Media v (Bury c) o (record { system = new; calls = v.calls }) }
{}

/// A new client takes the seat of one that is buried: the tree stays.
pub fn joined_client_is_a_step<M: Media>()
    ensures { (v : WorldView M) (c : ℕ) (o : Outcome) (new : SystemView M) → IsBegunIn M.Media v new → CanPlay M.Media v.system (Join c) → MakesAt M.Media v.system c (Join c) o new
        → IsStep M.Media v (Join c) o (record { system = new; calls = v.calls }) }
{}
