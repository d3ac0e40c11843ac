//! The steps of a client's call.

ghost use Rattle.std.specs.Prelude.{◌≡◌, ℕ, true, Err};
ghost use Rattle.posix_calls.specs.Part.{Known, run_part};
ghost use Rattle.posix_calls.specs.Decide.{decide};
ghost use Rattle.posix_calls.specs.Operations.{is_client, may_give_up, reply_of, Step};
ghost use Rattle.posix_calls.specs.declared.call.Call.{Call};
ghost use Rattle.posix_calls.specs.declared.call.Reply.TheVariants.{Failed};
ghost use Rattle.posix_calls.specs.declared.errno.Errno.{Errno};
ghost use Rattle.posix_calls.specs.declared.operation.Operation.{Operation};
ghost use Rattle.call_effects.specs.file_graph.Graph.{after_effects};
ghost use Rattle.call_effects.specs.Knowledge.{part_of};
ghost use Rattle.world_invariant.specs.World.{Begun, World, whole_graph, world_state};
ghost use Rattle.world_invariant.specs.ClientSteps.{CanAnswer, after_answer, CanBegin, call_begun, IsBegun, after_reply, given_up, CanFail, after_failure};
ghost use Rattle.world_invariant.specs.Invariant.{IsCoherent};

/// A call that a client answers without a record, by what it knows, is one step of the tree; one that it refuses by what it knows,
/// and one that is given up, is a step that changes nothing.
pub fn call_without_a_record_is_a_step()
    ensures holds { (w : World) (c : ℕ) (call : Call) (new : ℕ) (operation : Operation) → IsCoherent w → CanAnswer w c call new operation → IsCoherent (after_answer w c new operation) }
    ensures step { (w : World) (c : ℕ) (call : Call) (new : ℕ) (operation : Operation) → IsCoherent w → CanAnswer w c call new operation → Step (world_state w) c call (reply_of operation) (world_state (after_answer w c new operation)) }
    ensures refused { (w : World) (c : ℕ) (call : Call) (errno : Errno) → IsCoherent w → is_client c ≡ true → run_part (part_of (w.clients c).knows) (decide (w.clients c).knows.own call) ≡ Known (Err errno) → Step (world_state w) c call (Failed errno) (world_state w) }
    ensures given_up { (w : World) (c : ℕ) (call : Call) (errno : Errno) → may_give_up errno ≡ true → Step (world_state w) c call (Failed errno) (world_state w) }
{}

/// A call that begins its record leaves the tree as it is.
pub fn begun_call_leaves_the_tree()
    ensures holds { (w : World) (c : ℕ) (b : Begun) → IsCoherent w → CanBegin w c b → IsCoherent (call_begun w c b) }
    ensures tree { (w : World) (c : ℕ) (b : Begun) → IsCoherent w → CanBegin w c b → world_state (call_begun w c b) ≡ world_state w }
{}

/// Its answer is one step of the tree, and the whole is the one before after the record's effects; whatever the other clients did
/// in between. So it is where the record is found in the log of a client that is gone.
pub fn begun_call_is_a_step()
    ensures holds { (w : World) (c : ℕ) (b : Begun) → IsCoherent w → IsBegun w c b → IsCoherent (after_reply w c b) }
    ensures whole { (w : World) (c : ℕ) (b : Begun) → IsCoherent w → IsBegun w c b → whole_graph (after_reply w c b) ≡ after_effects (whole_graph w) b.change.effects }
    ensures step { (w : World) (c : ℕ) (b : Begun) → IsCoherent w → IsBegun w c b → Step (world_state w) c b.call (reply_of b.operation) (world_state (after_reply w c b)) }
{}

/// A begun call that is given up before its record is in the log, or whose record is not found there once its client is gone, has
/// changed nothing, and its units are spare again.
pub fn begun_call_may_be_given_up()
    ensures holds { (w : World) (c : ℕ) (b : Begun) → IsCoherent w → IsBegun w c b → IsCoherent (given_up w c b) }
    ensures tree { (w : World) (c : ℕ) (b : Begun) → IsCoherent w → IsBegun w c b → world_state (given_up w c b) ≡ world_state w }
{}

/// Where the device of a client's region fails, the tree stays; a begun call stays begun, and nobody learns what became of it.
pub fn failed_client_leaves_the_tree()
    ensures holds { (w : World) (c : ℕ) → IsCoherent w → CanFail w c → IsCoherent (after_failure w c) }
    ensures tree { (w : World) (c : ℕ) → IsCoherent w → CanFail w c → world_state (after_failure w c) ≡ world_state w }
{}
