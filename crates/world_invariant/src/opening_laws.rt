//! Where it begins.

ghost use Rattle.std.specs.Prelude.{◌≡◌, ℕ, ◌≤◌};
ghost use Rattle.posix_calls.specs.EmptyTree.{empty_state};
ghost use Rattle.call_effects.specs.file_graph.Graph.{Graph, fresh};
ghost use Rattle.call_effects.specs.file_graph.Units.{charge};
ghost use Rattle.call_effects.specs.ClosedGraph.{nobody};
ghost use Rattle.call_effects.specs.Wholes.{IsSound, state_of};
ghost use Rattle.world_invariant.specs.Limits.{AreWithin};
ghost use Rattle.world_invariant.specs.World.{world_state};
ghost use Rattle.world_invariant.specs.Invariant.{IsCoherent};
ghost use Rattle.world_invariant.specs.FormatWorld.{idle_world, opening_world};

/// A sound graph within the limits that fits, and of which nobody uses anything, is a world in which all holds, as after a recovery. It stands for the
/// tree of the graph, with nothing open.
pub fn idle_world_holds()
    ensures holds { (capacity : ℕ) (g : Graph) → charge g ≤ capacity → IsSound g nobody → AreWithin g → IsCoherent (idle_world capacity g) }
    ensures tree { (capacity : ℕ) (g : Graph) → world_state (idle_world capacity g) ≡ state_of g nobody }
{}

/// So is the world that a format makes, and it stands for the empty tree.
pub fn opening_world_holds()
    ensures holds { (capacity : ℕ) → charge fresh ≤ capacity → IsCoherent (opening_world capacity) }
    ensures tree { (capacity : ℕ) → world_state (opening_world capacity) ≡ empty_state }
{}
