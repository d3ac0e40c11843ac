//! What holds of every sound graph.

ghost use Rattle.std.specs.Prelude.{◌≡◌, ℕ, ◌≤◌, None, IsSome, Ok, Err, true};
ghost use Rattle.posix_calls.specs.Tree.{Descriptors};
ghost use Rattle.posix_calls.specs.EmptyTree.{empty_state};
ghost use Rattle.posix_calls.specs.Query.{view_of};
ghost use Rattle.posix_calls.specs.Operations.{makes, reply_of, held_after, state_after, Step};
ghost use Rattle.posix_calls.specs.WellFormed.{IsWellFormed, IsWithinLimits};
ghost use Rattle.posix_calls.specs.declared.operation.Operation.{Operation};
ghost use Rattle.posix_calls.specs.declared.call.Call.{Call};
ghost use Rattle.posix_calls.specs.declared.call.Reply.TheVariants.{Failed};
ghost use Rattle.posix_calls.specs.declared.errno.Errno.{Errno};
ghost use Rattle.posix_calls.specs.declared.limits.TheConstants.{MAX_CLIENTS, MAX_INODE, MAX_NAMES, ROOT};
ghost use Rattle.log_record.specs.file_graph.Graph.{Graph, fresh, after_effects, set_node};
ghost use Rattle.call_effects.specs.Calls.{answer_over};
ghost use Rattle.call_effects.specs.Effects.{stored_count, effects_of};
ghost use Rattle.call_effects.specs.Wholes.{IsSound, state_of, tree_of, graph_view};
ghost use Rattle.call_effects.specs.Fits.{IsNew, IsUnusedFile, OperationFits};

/// The graph of a root alone, of which nothing is open, is sound, and stands for the empty tree.
pub fn fresh_graph_stands_for_the_opening()
    ensures sound { IsSound fresh (λ c n. None) }
    ensures state { state_of fresh (λ c n. None) ≡ empty_state }
{}

/// It is within the limits, so `calls_keep_a_graph_within_its_limits` has a beginning.
pub fn fresh_graph_is_within_its_limits()
    ensures { IsWithinLimits (tree_of fresh) }
{}

/// What a call sees of a sound graph by the stored counts of names is what it sees of its tree, whose names are counted.
pub fn stored_counts_are_the_counted_names()
    ensures { (g : Graph) (held : Descriptors) → IsSound g held → view_of ((state_of g held).tree) ≡ graph_view g held }
{}

/// An operation that fits a sound graph is its effects: the graph after them is sound, and stands, with the descriptors after the
/// operation, for the state after it.
pub fn operation_is_its_effects()
    ensures state { (g : Graph) (held : Descriptors) (client new : ℕ) (operation : Operation) → 1 ≤ client → client ≤ MAX_CLIENTS → IsSound g held → (makes operation ≡ true → IsNew g new) → OperationFits g held (held client) operation → state_of (after_effects g (effects_of g new operation)) (held_after client new held operation) ≡ state_after client new (state_of g held) operation }
    ensures sound { (g : Graph) (held : Descriptors) (client new : ℕ) (operation : Operation) → 1 ≤ client → client ≤ MAX_CLIENTS → IsSound g held → (makes operation ≡ true → IsNew g new) → OperationFits g held (held client) operation → IsSound (after_effects g (effects_of g new operation)) (held_after client new held operation) }
{}

/// The outcome of a call over a sound graph fits it: no operation is asked of a file that isn't there, of a name that is taken, or
/// of a directory that would become its own ancestor.
pub fn answered_operation_fits()
    ensures { (g : Graph) (held : Descriptors) (client : ℕ) (call : Call) (operation : Operation) → IsSound g held → answer_over g held client call ≡ Ok operation → OperationFits g held (held client) operation }
{}

/// Every call over a sound graph is one step of the file tree that the graph and the descriptors stand for. If the
/// outcome is an operation, the graph after the operation's effects stands for the state after the step, and is sound again; if it is
/// an error, the state stays.
pub fn call_is_a_step()
    ensures done { (g : Graph) (held : Descriptors) (client new : ℕ) (call : Call) (operation : Operation) → IsSound g held → answer_over g held client call ≡ Ok operation → (makes operation ≡ true → IsNew g new) → Step (state_of g held) client call (reply_of operation) (state_of (after_effects g (effects_of g new operation)) (held_after client new held operation)) }
    ensures sound { (g : Graph) (held : Descriptors) (client new : ℕ) (call : Call) (operation : Operation) → IsSound g held → answer_over g held client call ≡ Ok operation → (makes operation ≡ true → IsNew g new) → IsSound (after_effects g (effects_of g new operation)) (held_after client new held operation) }
    ensures refused { (g : Graph) (held : Descriptors) (client : ℕ) (call : Call) (errno : Errno) → IsSound g held → answer_over g held client call ≡ Err errno → Step (state_of g held) client call (Failed errno) (state_of g held) }
{}

/// The state that a sound graph and descriptors stand for is well-formed.
pub fn sound_graph_is_well_formed()
    ensures { (g : Graph) (held : Descriptors) → IsSound g held → IsWellFormed (state_of g held) }
{}

/// A sound graph that is within the limits stays so after a call: no file in it is too large, no directory too full, and no node has too
/// many names, also none of the files that have no name and that nobody has open, which its tree no longer has; so it does once
/// such a file is dropped. The tree that it stands for is within them too. A sound graph has no node beyond the inode numbers.
pub fn calls_keep_a_graph_within_its_limits()
    ensures call { (g : Graph) (held : Descriptors) (client new : ℕ) (call : Call) (operation : Operation) → IsSound g held → IsWithinLimits (tree_of g) → answer_over g held client call ≡ Ok operation → (makes operation ≡ true → IsNew g new) → IsWithinLimits (tree_of (after_effects g (effects_of g new operation))) }
    ensures dropped { (g : Graph) (held : Descriptors) (i : ℕ) → IsUnusedFile g held i → IsWithinLimits (tree_of g) → IsWithinLimits (tree_of (set_node g i None)) }
    ensures seen { (g : Graph) (held : Descriptors) → IsWithinLimits (tree_of g) → IsWithinLimits (state_of g held).tree }
    ensures stored { (g : Graph) (held : Descriptors) (i : ℕ) → IsSound g held → IsWithinLimits (tree_of g) → stored_count (g i) ≤ MAX_NAMES }
    ensures nodes { (g : Graph) (held : Descriptors) (i : ℕ) → IsSound g held → IsSome (g i) → (ROOT ≤ i) × (i ≤ MAX_INODE) }
{}
