//! What holds of every client and every call.

ghost use Rattle.std.specs.Prelude.{◌≡◌, ◌≢◌, ◌⊎◌, ◌<◌, ◌≤◌, ℕ, List, [], ◌∷◌, Option, Some, Ok, length};
ghost use Rattle.posix_calls.specs.Tree.{Descriptors, Own, with_own};
ghost use Rattle.posix_calls.specs.Part.{Known, Part, run_part};
ghost use Rattle.posix_calls.specs.Decide.{decide};
ghost use Rattle.posix_calls.specs.Operations.{Step};
ghost use Rattle.posix_calls.specs.WellFormed.{IsWithinLimits};
ghost use Rattle.posix_calls.specs.declared.limits.TheConstants.{MAX_TRANSFER};
ghost use Rattle.posix_calls.specs.declared.operation.Operation.{Operation};
ghost use Rattle.posix_calls.specs.declared.call.Call.{Call};
ghost use Rattle.posix_calls.specs.declared.call.Call.TheVariants as calls;
ghost use Rattle.posix_calls.specs.declared.call.Reply.{Reply};
ghost use Rattle.call_effects.specs.file_graph.Graph.{Graph, after_effects};
ghost use Rattle.call_effects.specs.file_graph.Units.{growth};
ghost use Rattle.call_effects.specs.file_graph.declared.effect.Effect.TheVariants.{Bytes};
ghost use Rattle.call_effects.specs.log_record.Grammar.{record_bytes};
ghost use Rattle.call_effects.specs.log_record.declared.format.Record.{Record};
ghost use Rattle.call_effects.specs.Records.{effects_asked};
ghost use Rattle.call_effects.specs.Knowledge.{Knowledge, Agrees, part_of, with_copy, with_blocks};
ghost use Rattle.call_effects.specs.NodeView.{NodeView};
ghost use Rattle.call_effects.specs.Wholes.{IsSound, state_of};
ghost use Rattle.client_plan.specs.declared.need.Need.{Need};
ghost use Rattle.client_plan.specs.declared.need.Need.TheVariants.{Unpin, Lease, View, Blocks, Inodes, Units, Pin, Room};
ghost use Rattle.client_plan.specs.declared.need.Mode.{Mode};
ghost use Rattle.client_plan.specs.declared.outcome.DescriptorChange.{DescriptorChange};
ghost use Rattle.client_plan.specs.declared.outcome.Outcome.TheVariants as outcomes;
ghost use Rattle.client_plan.specs.declared.plain_writes.PlainWrite.{PlainWrite};
ghost use Rattle.client_plan.specs.Holdings.{Holdings};
ghost use Rattle.client_plan.specs.PlainWrite.{IsPlainWrite, write_logged};
ghost use Rattle.client_plan.specs.CallPlan.{outcome, own_changed};
ghost use Rattle.client_plan.specs.NeedEffects.{IsLacking, IsTooLong, longest_record, without_pin, with_pin, with_lease, with_number, with_units, with_room};
ghost use Rattle.client_plan.specs.Steps.{IsAnswered, AreHoldingsOf, IsReady, IsRefused};

/// What a call is told to need the client lacks, and what it is to view it holds. So once it is served, the same call needs it no longer: not a pin that was given back, a lease
/// that was taken, a copy or blocks that came, a number, units, however few were lacking, or a pin that was set.
pub fn served_need_is_lacking_no_longer()
    ensures lacks { (p : Part) (h : Holdings) (call : Call) (need : Need) → outcome p h call ≡ outcomes.Need need → IsLacking p h call need }
    ensures unpin { (p : Part) (h : Holdings) (call : Call) (i : ℕ) → outcome p (without_pin h i) call ≢ outcomes.Need (Unpin i) }
    ensures lease { (p : Part) (h : Holdings) (call : Call) (i : ℕ) (mode : Mode) → outcome p (with_lease h i mode) call ≢ outcomes.Need (Lease i mode) }
    ensures view { (k : Knowledge) (h : Holdings) (call : Call) (i : ℕ) (copy : Option NodeView) → outcome (part_of (with_copy k i copy)) h call ≢ outcomes.Need (View i) }
    ensures blocks { (k : Knowledge) (h : Holdings) (call : Call) (i first count : ℕ) (block : ℕ → List ℕ) → outcome (part_of (with_blocks k i first count block)) h call ≢ outcomes.Need (Blocks i first count) }
    ensures inodes { (p : Part) (h : Holdings) (call : Call) (new n : ℕ) → outcome p (with_number h new) call ≢ outcomes.Need (Inodes n) }
    ensures units { (p : Part) (h : Holdings) (call : Call) (n more : ℕ) → outcome p h call ≡ outcomes.Need (Units n) → outcome p (with_units h n) call ≢ outcomes.Need (Units more) }
    ensures pin { (p : Part) (h : Holdings) (call : Call) (i : ℕ) → outcome p (with_pin h i) call ≢ outcomes.Need (Pin i) }
{}

/// Bounds the record of a call, in bytes: 65,558 at most, the 65,536 of the longest write behind 22 others. So it is for every call, whatever is known of the
/// tree, whatever is open and whichever number a new node gets; and the record of the longest write has just as many. A client that has room for these
/// needs no room, in every sound whole within its limits that agrees with what it knows: the record has a spelling there, and is not too long.
pub fn room_for_the_longest_record_is_enough()
    ensures bound { (p : Part) (own : Own) (call : Call) (operation : Operation) (new : ℕ) (change : Record) → run_part p (decide own call) ≡ Known (Ok operation) → run_part p (effects_asked new operation) ≡ Known (Ok change.effects) → length (record_bytes change) ≤ longest_record }
    ensures write { (units i at : ℕ) (bytes : List ℕ) → length bytes ≡ MAX_TRANSFER → length (record_bytes (record { units = units; effects = Bytes i at bytes ∷ [] })) ≡ longest_record }
    ensures log { (p : Part) (h : Holdings) (call : Call) (change : Record) (reply : Reply) (made : Option ℕ) (descriptor : Option DescriptorChange) → outcome p h call ≡ outcomes.Log change reply made descriptor → length (record_bytes change) ≤ longest_record }
    ensures fits { (k : Knowledge) (g : Graph) (held : Descriptors) (h : Holdings) (call : Call) (most : ℕ) → IsSound g held → IsWithinLimits (state_of g held).tree → Agrees k g held → AreHoldingsOf k h → h.room ≡ Some most → longest_record ≤ most → ¬ (IsTooLong (part_of k) h call) }
    ensures room { (k : Knowledge) (g : Graph) (held : Descriptors) (h : Holdings) (call : Call) (most : ℕ) → IsSound g held → IsWithinLimits (state_of g held).tree → Agrees k g held → AreHoldingsOf k h → longest_record ≤ most → outcome (part_of k) (with_room h most) call ≢ outcomes.Need Room }
{}

/// A write for which nothing is lacking comes to its record, and is answered with the number of its bytes.
pub fn plain_write_is_logged()
    ensures { (p : Part) (h : Holdings) (number at : ℕ) (bytes : List ℕ) (w : PlainWrite) → IsPlainWrite p h number at (length bytes) w → outcome p h (calls.Pwrite number at bytes) ≡ write_logged w at bytes }
{}

/// A call that is answered without a record is refused by what the client knows, or comes to an operation without effects, and what that opens is
/// pinned. It is one step of the file tree, in every sound whole that agrees with what the client knows: the tree is answered so, nothing in the
/// whole changes, and the client's descriptors are those after the step, with which the whole is sound again.
pub fn answered_call_is_a_step()
    ensures ready { (k : Knowledge) (h : Holdings) (call : Call) (reply : Reply) (change : Option DescriptorChange) → AreHoldingsOf k h → outcome (part_of k) h call ≡ outcomes.Reply reply change → IsRefused k call reply change ⊎ IsAnswered k h call reply change }
    ensures sound { (k : Knowledge) (g : Graph) (held : Descriptors) (h : Holdings) (call : Call) (reply : Reply) (change : Option DescriptorChange) → IsSound g held → Agrees k g held → AreHoldingsOf k h → outcome (part_of k) h call ≡ outcomes.Reply reply change → IsSound g (with_own held k.client (own_changed k.own change)) }
    ensures step { (k : Knowledge) (g : Graph) (held : Descriptors) (h : Holdings) (call : Call) (reply : Reply) (change : Option DescriptorChange) → IsSound g held → Agrees k g held → AreHoldingsOf k h → outcome (part_of k) h call ≡ outcomes.Reply reply change → Step (state_of g held) k.client call reply (state_of g (with_own held k.client (own_changed k.own change))) }
{}

/// A call that comes to a record has all that it needs as the record is begun. In every sound whole that agrees with what the client knows its
/// reply is one step of the file tree, to the whole after the record's effects, which is sound again and has grown by the record's units.
pub fn logged_call_is_a_step()
    ensures ready { (k : Knowledge) (h : Holdings) (call : Call) (change : Record) (reply : Reply) (made : Option ℕ) (descriptor : Option DescriptorChange) → AreHoldingsOf k h → outcome (part_of k) h call ≡ outcomes.Log change reply made descriptor → IsReady k h call change reply made descriptor }
    ensures step { (k : Knowledge) (g : Graph) (held : Descriptors) (h : Holdings) (call : Call) (change : Record) (reply : Reply) (made : Option ℕ) (descriptor : Option DescriptorChange) → IsSound g held → Agrees k g held → AreHoldingsOf k h → outcome (part_of k) h call ≡ outcomes.Log change reply made descriptor → Step (state_of g held) k.client call reply (state_of (after_effects g change.effects) (with_own held k.client (own_changed k.own descriptor))) }
    ensures sound { (k : Knowledge) (g : Graph) (held : Descriptors) (h : Holdings) (call : Call) (change : Record) (reply : Reply) (made : Option ℕ) (descriptor : Option DescriptorChange) → IsSound g held → Agrees k g held → AreHoldingsOf k h → outcome (part_of k) h call ≡ outcomes.Log change reply made descriptor → IsSound (after_effects g change.effects) (with_own held k.client (own_changed k.own descriptor)) }
    ensures growth { (k : Knowledge) (g : Graph) (held : Descriptors) (h : Holdings) (call : Call) (change : Record) (reply : Reply) (made : Option ℕ) (descriptor : Option DescriptorChange) → IsSound g held → Agrees k g held → AreHoldingsOf k h → outcome (part_of k) h call ≡ outcomes.Log change reply made descriptor → growth g change.effects ≡ change.units }
{}
