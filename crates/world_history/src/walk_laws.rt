//! A small history, computed by the definitions: each of its moves may follow.

ghost use Rattle.std.specs.Prelude.{◌≡◌};
ghost use Rattle.posix_calls.specs.EmptyTree.{empty_state};
ghost use Rattle.posix_calls.specs.Run.{Run};
ghost use Rattle.world_history.specs.Configuration.{IsConsistent, tree_of};
ghost use Rattle.world_history.specs.History.{IsHistory, after_moves};
ghost use Rattle.world_history.specs.Participants.{OfClient, moves_of};
ghost use Rattle.world_history.specs.Parts.{seen_by};
ghost use Rattle.world_history.specs.SmallHistory.{small_history, small_start, small_turns};

/// Client 1 gets units and a number, takes two leases, fetches the root, begins `mkdir /a` and dies. Its record is found, and it
/// departs; its region is handed over, digested and back, it gives its leases, is buried, and a new client takes its seat and meets
/// client 2. The turns are the call with its reply and the departure: they are a run from the empty tree, and client 2 saw them.
pub fn small_history_of_a_death()
    ensures begins { IsConsistent small_start }
    ensures follows { IsHistory small_start small_history }
    ensures run { Run empty_state small_turns (tree_of (after_moves small_start small_history)) }
    ensures seen { seen_by (moves_of (OfClient 2) small_history) ≡ small_turns }
{}
