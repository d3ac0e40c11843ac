//! What a recovery relies on, over the graph and the logs that it finds: it knows nothing of leases, grants or calls.

ghost use Rattle.std.specs.Prelude.{◌≡◌, ℕ, ◌≤◌, List, [], ◌++◌, true, None};
ghost use Rattle.posix_calls.specs.Operations.{is_client};
ghost use Rattle.posix_calls.specs.WellFormed.{IsWithinLimits};
ghost use Rattle.posix_calls.specs.declared.limits.TheConstants.{MAX_CLIENTS};
ghost use Rattle.call_effects.specs.file_graph.Graph.{Graph, set_node};
ghost use Rattle.call_effects.specs.file_graph.Units.{charge};
ghost use Rattle.call_effects.specs.log_record.declared.format.Record.{Record};
ghost use Rattle.posix_calls.specs.Tree.{Descriptors};
ghost use Rattle.call_effects.specs.ClosedGraph.{nobody, settled_graph};
ghost use Rattle.call_effects.specs.Wholes.{IsSound, state_of, tree_of};
ghost use Rattle.world_invariant.specs.Limits.{AreWithin};
ghost use Rattle.world_invariant.specs.Logs.{after_records, after_clients, IsNameless};
ghost use Rattle.world_invariant.specs.World.{at};
ghost use Rattle.world_invariant.specs.Recovery.{IsRecoverable};

/// The first records of any client's log are digested, in whatever order of the clients and in whatever chunks: what is left is
/// recoverable, to the same graph, and never is more charged than fits. A stop on the way loses nothing.
pub fn recovery_may_digest_records()
    ensures rest { (capacity : ℕ) (g : Graph) (logs : ℕ → List Record) (c : ℕ) (first rest : List Record) → IsRecoverable capacity g logs → is_client c ≡ true → logs c ≡ first ++ rest → IsRecoverable capacity (after_records g first) (at logs c rest) }
    ensures same { (capacity : ℕ) (g : Graph) (logs : ℕ → List Record) (c : ℕ) (first rest : List Record) → IsRecoverable capacity g logs → is_client c ≡ true → logs c ≡ first ++ rest → after_clients (at logs c rest) (after_records g first) MAX_CLIENTS ≡ after_clients logs g MAX_CLIENTS }
    ensures within { (capacity : ℕ) (g : Graph) (logs : ℕ → List Record) (c : ℕ) (first rest : List Record) → IsRecoverable capacity g logs → is_client c ≡ true → logs c ≡ first ++ rest → AreWithin (after_records g first) }
    ensures charged { (capacity : ℕ) (g : Graph) (logs : ℕ → List Record) (c : ℕ) (first rest : List Record) → IsRecoverable capacity g logs → is_client c ≡ true → logs c ≡ first ++ rest → charge (after_records g first) ≤ capacity }
{}

/// Once all are digested the graph is sound, within the limits, and fits; its files that have no name are then no part of its state.
pub fn recovered_graph_is_sound()
    ensures sound { (capacity : ℕ) (g : Graph) (logs : ℕ → List Record) → IsRecoverable capacity g logs → ((c : ℕ) → is_client c ≡ true → logs c ≡ []) → IsSound g nobody }
    ensures fits { (capacity : ℕ) (g : Graph) (logs : ℕ → List Record) → IsRecoverable capacity g logs → charge g ≤ capacity }
    ensures within { (capacity : ℕ) (g : Graph) (logs : ℕ → List Record) → IsRecoverable capacity g logs → AreWithin g }
    ensures state { (g : Graph) → IsSound g nobody → state_of g nobody ≡ state_of (settled_graph g) nobody }
{}

/// A file that has no name is dropped: the graph stays sound and within the limits, is charged no more, and stands for the same state.
pub fn nameless_file_may_be_dropped()
    ensures sound { (g : Graph) (i : ℕ) → IsNameless (g i) → IsSound g nobody → IsSound (set_node g i None) nobody }
    ensures within { (g : Graph) (i : ℕ) → IsNameless (g i) → AreWithin g → AreWithin (set_node g i None) }
    ensures charged { (g : Graph) (i : ℕ) → IsNameless (g i) → charge (set_node g i None) ≤ charge g }
    ensures state { (g : Graph) (i : ℕ) → IsNameless (g i) → state_of (set_node g i None) nobody ≡ state_of g nobody }
{}

/// The nodes of a sound graph are within the limits exactly where its tree is.
pub fn limits_are_those_of_the_nodes()
    ensures nodes { (g : Graph) (held : Descriptors) → IsSound g held → IsWithinLimits (tree_of g) → AreWithin g }
    ensures tree { (g : Graph) (held : Descriptors) → IsSound g held → AreWithin g → IsWithinLimits (tree_of g) }
{}
