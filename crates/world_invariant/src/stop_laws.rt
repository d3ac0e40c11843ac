//! What a stop stores.

ghost use Rattle.std.specs.Prelude.{ℕ, List};
ghost use Rattle.posix_calls.specs.Tree.{State};
ghost use Rattle.posix_calls.specs.Run.{Run, Turn};
ghost use Rattle.call_effects.specs.log_record.declared.format.Record.{Record};
ghost use Rattle.call_effects.specs.ClosedGraph.{nobody, settled_graph};
ghost use Rattle.call_effects.specs.Wholes.{state_of};
ghost use Rattle.posix_calls.specs.Outcome.{IsOutcome};
ghost use Rattle.world_invariant.specs.World.{World, world_state};
ghost use Rattle.world_invariant.specs.Invariant.{IsCoherent};
ghost use Rattle.world_invariant.specs.Stop.{Leaves, stored_graph, begun_calls, Stores};

/// Whatever a stop leaves of the begun records, each whole or not at all: a recovery can go on from what is stored, and
/// once that is settled it is well-formed and within the limits, and the tree after some of the begun calls, each client's at most one.
/// Where the acknowledged calls have led to the world's tree, it is the tree settled after these and some of the begun ones.
pub fn stop_stores_an_outcome()
    ensures stores { (w : World) (logs : ℕ → List Record) → IsCoherent w → Leaves w logs → Stores w logs }
    ensures outcome { (w : World) (logs : ℕ → List Record) (opening : State) (acknowledged : List Turn) → IsCoherent w → Leaves w logs → Run opening acknowledged (world_state w) → IsOutcome opening acknowledged (begun_calls w) (state_of (settled_graph (stored_graph w logs)) nobody) }
{}
