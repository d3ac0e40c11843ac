//! What a history keeps, and what its turns are.

ghost use Rattle.std.specs.Prelude.{None, ◌≡◌, ◌++◌, ℕ, List, Some};
ghost use Rattle.posix_calls.specs.Run.{Run, Turn};
ghost use Rattle.world_invariant.specs.Invariant.{IsCoherent};
ghost use Rattle.world_invariant.specs.World.{Away};
ghost use Rattle.world_invariant.specs.log_record.declared.format.Record.{Record};
ghost use Rattle.world_history.specs.declared.moves.Move.{Move};
ghost use Rattle.world_history.specs.declared.moves.Move.TheVariants.{Rejoined};
ghost use Rattle.world_history.specs.Conditions.{MayFollow};
ghost use Rattle.world_history.specs.Configuration.{Configuration, IsConsistent, plain, tree_of, world_of};
ghost use Rattle.world_history.specs.History.{IsHistory, after_moves, opening_of, turns_in};
ghost use Rattle.world_history.specs.Participants.{OfClient, moves_of};
ghost use Rattle.world_history.specs.Parts.{ListsMeeting, seen_by, turns_of};
ghost use Rattle.world_history.specs.Together.{turns_by};

/// After a history all holds of the world that held before it, and its turns are one run of the file tree: from the tree with which all
/// parts began to that of the world that there is.
pub fn history_is_a_run()
    ensures coherent { (s : Configuration) (h : List Move) → IsCoherent (world_of s) → IsHistory s h → IsCoherent (world_of (after_moves s h)) }
    ensures run { (s : Configuration) (h : List Move) → IsCoherent (world_of s) → IsHistory s h → Run (opening_of s h) (turns_in s h) (tree_of (after_moves s h)) }
{}

/// So does all that is said of what the kernel accepted, and of a digest in which a device of it failed; and it holds of a root alone,
/// with which a table begins.
pub fn history_stays_consistent()
    ensures stays { (s : Configuration) (h : List Move) → IsConsistent s → IsHistory s h → IsConsistent (after_moves s h) }
    ensures plain { IsConsistent plain }
{}

/// While a digest in which a device failed isn't done, its client's region is away: neither is it taken back, nor is its client buried.
/// So there is none once every region is back.
pub fn failed_digest_keeps_its_region_away()
    ensures away { (s : Configuration) (x : ℕ × List Record) → IsConsistent s → s.kernel.failed_digest ≡ Some x → (s.clients x.0).other ≡ Away }
    ensures rejoined { (s : Configuration) → IsConsistent s → MayFollow s Rejoined → s.kernel.failed_digest ≡ None }
{}

/// The turns of a client in the run are those of its own list, in their order.
pub fn turns_follow_from_own_moves()
    ensures { (s : Configuration) (c : ℕ) (h : List Move) → turns_by c (turns_in s h) ≡ turns_of c (s.clients c) (moves_of (OfClient c) h) }
{}

/// The run begins with what a client saw when it met others last; and so with what it saw at each meeting since all parts began anew,
/// in which there are just those turns of the client that it had made before.
pub fn history_begins_with_what_was_seen()
    ensures last { (s : Configuration) (c : ℕ) (h : List Move) → IsHistory s h → (rest : List Turn) × (turns_in s h ≡ seen_by (moves_of (OfClient c) h) ++ rest) }
    ensures each { (s : Configuration) (c : ℕ) (h newer older : List Move) (clients : List ℕ) (seen : List Turn) → IsHistory s h → ListsMeeting (moves_of (OfClient c) h) newer clients seen older → (rest : List Turn) × (turns_in s h ≡ seen ++ rest) }
    ensures own { (s : Configuration) (c : ℕ) (h newer older : List Move) (clients : List ℕ) (seen : List Turn) → IsHistory s h → ListsMeeting (moves_of (OfClient c) h) newer clients seen older → turns_by c seen ≡ turns_of c (s.clients c) older }
{}
