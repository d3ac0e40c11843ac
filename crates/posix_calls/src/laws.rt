//! What holds of every step of the file tree, and of every part of it.

ghost use Rattle.std.specs.Prelude.{◌≡◌, ◌≢◌, ◌∷◌, ◌++◌, ℕ, List, Result, Ok, Some, IsSome, true, false};
ghost use Rattle.std.specs.FinMap.{get};
ghost use Rattle.posix_calls.specs.Content.{Entries};
ghost use Rattle.posix_calls.specs.Tree.{Tree, Dir, Own, State, entries_of};
ghost use Rattle.posix_calls.specs.EmptyTree.{empty_state};
ghost use Rattle.posix_calls.specs.Query.{Query, View, run, view_of};
ghost use Rattle.posix_calls.specs.Part.{Part, Known, Unknown, IsPart, IsLeft, AsksNoBytes, run_part};
ghost use Rattle.posix_calls.specs.Decide.{decide};
ghost use Rattle.posix_calls.specs.Kinds.{is_pread};
ghost use Rattle.posix_calls.specs.Resolve.{inode_at, resolve, resolve_from};
ghost use Rattle.posix_calls.specs.declared.operation.Missing.{Missing};
ghost use Rattle.posix_calls.specs.declared.operation.Missing.TheVariants.{Blocks};
ghost use Rattle.posix_calls.specs.declared.operation.Operation.{Operation};
ghost use Rattle.posix_calls.specs.Operations.{makes, state_after, answer, Follows, Step};
ghost use Rattle.posix_calls.specs.Run.{Turn, Run, settled};
ghost use Rattle.posix_calls.specs.WellFormed.{IsDirectory, IsWellFormed, IsWithinLimits};
ghost use Rattle.posix_calls.specs.declared.limits.TheConstants.{ROOT};
ghost use Rattle.posix_calls.specs.declared.errno.Errno.{Errno};
ghost use Rattle.posix_calls.specs.declared.call.Call.{Call};
ghost use Rattle.posix_calls.specs.declared.call.Reply.{Reply};
ghost use Rattle.posix_calls.specs.declared.call.Reply.TheVariants.{Failed};

/// A call that isn't given up has one reply, and for each number of a new node one state after it; where no node is made, that
/// number does not matter.
pub fn step_is_determined()
    ensures reply { (old : State) (client : ℕ) (call : Call) (i j : ℕ) (r s : Reply) (m n : State) → Follows old client i (answer old client call) r m → Follows old client j (answer old client call) s n → r ≡ s }
    ensures state { (old : State) (client : ℕ) (call : Call) (i : ℕ) (r s : Reply) (m n : State) → Follows old client i (answer old client call) r m → Follows old client i (answer old client call) s n → m ≡ n }
    ensures number { (old : State) (client i j : ℕ) (operation : Operation) → makes operation ≡ false → state_after client i old operation ≡ state_after client j old operation }
{}

/// A call that is answered by an error leaves the state as it was.
pub fn failed_step_changes_nothing()
    ensures { (old : State) (client : ℕ) (call : Call) (errno : Errno) (after : State) → Step old client call (Failed errno) after → after ≡ old }
{}

/// A run comes by some state between any two of its turns, and two runs that meet in a state are one.
pub fn runs_split_anywhere()
    ensures split { (first rest : List Turn) (old last : State) → Run old (first ++ rest) last → (mid : State) × Run old first mid × Run mid rest last }
    ensures joined { (first rest : List Turn) (old mid last : State) → Run old first mid → Run mid rest last → Run old (first ++ rest) last }
{}

/// What a part of a tree answers of a call is what the whole answers; where something is missing, it is asked for next.
pub fn part_answers_as_the_whole()
    ensures known { (p : Part) (v : View) → IsPart p v → (q : Query Operation) (r : Result Operation Errno) → run_part p q ≡ Known r → run v q ≡ r }
    ensures missing { (p : Part) (q : Query Operation) (what : Missing) → run_part p q ≡ Unknown what → IsLeft p what q }
{}

/// Bytes of a file are asked for by `pread` alone: no question of any other call is for bytes, whatever was answered before, and
/// so what is reported missing of it, by whatever is known, is never blocks.
pub fn bytes_are_for_pread_alone()
    ensures asked { (own : Own) (call : Call) → is_pread call ≡ false → AsksNoBytes (decide own call) }
    ensures missing { (p : Part) (own : Own) (call : Call) (i first many : ℕ) → run_part p (decide own call) ≡ Unknown (Blocks i first many) → is_pread call ≡ true }
{}

/// The walk of a call leads to the inode that its path names, or is refused by the first error on the way.
pub fn walk_leads_where_the_path_does()
    ensures { (t : Tree) (entries : Entries ℕ) (names : List (List ℕ)) → t ROOT ≡ Some (Dir entries) → run (view_of t) (inode_at names) ≡ resolve t names }
{}

/// Where no call was made the state is well-formed; so is one after a step or a run from such a state, and what is left of it
/// where nobody has a file open.
pub fn states_stay_well_formed()
    ensures opening { IsWellFormed empty_state }
    ensures step { (old : State) (client : ℕ) (call : Call) (reply : Reply) (after : State) → IsWellFormed old → Step old client call reply after → IsWellFormed after }
    ensures run { (turns : List Turn) (old last : State) → IsWellFormed old → Run old turns last → IsWellFormed last }
    ensures settled { (s : State) → IsWellFormed s → IsWellFormed (settled s) }
{}

/// So it is with the limits: no file is too large, no directory too full, no file has too many names, and every entry's name
/// is one.
pub fn states_stay_within_limits()
    ensures opening { IsWithinLimits empty_state.tree }
    ensures step { (old : State) (client : ℕ) (call : Call) (reply : Reply) (after : State) → IsWellFormed old → IsWithinLimits old.tree → Step old client call reply after → IsWithinLimits after.tree }
    ensures run { (turns : List Turn) (old last : State) → IsWellFormed old → IsWithinLimits old.tree → Run old turns last → IsWithinLimits last.tree }
    ensures settled { (s : State) → IsWellFormed s → IsWithinLimits s.tree → IsWithinLimits (settled s).tree }
{}

/// In a well-formed state every entry names a node, and no names lead from a directory back to it.
pub fn well_formed_state_is_a_tree()
    ensures entries { (s : State) → IsWellFormed s → (d : ℕ) (name : List ℕ) (i : ℕ) → get (entries_of (s.tree d)) name ≡ Some i → IsSome (s.tree i) }
    ensures ancestors { (s : State) → IsWellFormed s → (i : ℕ) → IsDirectory (s.tree i) → (name : List ℕ) (names : List (List ℕ)) → resolve_from s.tree (name ∷ names) i ≢ Ok i }
{}
