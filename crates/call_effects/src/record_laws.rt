//! What holds of every record: of the effects and the growth that someone who knows a part of the tree asks for.

ghost use Rattle.std.specs.Prelude.{◌≡◌, ◌<◌, ◌≤◌, ◌/◌, ◌^◌, ℕ, List, [], Ok, true, false};
ghost use Rattle.posix_calls.specs.Tree.{Descriptors, Own};
ghost use Rattle.posix_calls.specs.Query.{run};
ghost use Rattle.posix_calls.specs.Operations.{makes};
ghost use Rattle.posix_calls.specs.WellFormed.{IsWithinLimits};
ghost use Rattle.posix_calls.specs.declared.call.Call.{Call};
ghost use Rattle.posix_calls.specs.declared.limits.TheConstants.{MAX_FILE, UNIT_BYTES};
ghost use Rattle.posix_calls.specs.declared.operation.Operation.{Operation};
ghost use Rattle.log_record.specs.file_graph.declared.effect.Effect.{Effect};
ghost use Rattle.log_record.specs.file_graph.Graph.{Graph, touches, is_among};
ghost use Rattle.log_record.specs.file_graph.Units.{growth};
ghost use Rattle.log_record.specs.Grammar.{IsRecord};
ghost use Rattle.call_effects.specs.Calls.{answer_over};
ghost use Rattle.call_effects.specs.ChangeTest.{changes};
ghost use Rattle.call_effects.specs.Effects.{effects_of};
ghost use Rattle.call_effects.specs.Records.{effects_asked, growth_asked};
ghost use Rattle.call_effects.specs.Wholes.{IsSound, state_of, graph_view};
ghost use Rattle.call_effects.specs.Fits.{IsNew, OperationFits};

/// The effects that an operation's questions give over a whole graph are those of the operation.
pub fn asked_effects_are_the_operations()
    ensures { (g : Graph) (held : Descriptors) (own : Own) (new : ℕ) (operation : Operation) → OperationFits g held own operation → run (graph_view g held) (effects_asked new operation) ≡ Ok (effects_of g new operation) }
{}

/// The units that an operation's questions give over a sound graph are the growth of its effects: the rise of each inode that they
/// touch, against which no other one's fall is set.
pub fn asked_growth_is_the_effects_growth()
    ensures { (g : Graph) (held : Descriptors) (own : Own) (new : ℕ) (operation : Operation) → IsSound g held → (makes operation ≡ true → IsNew g new) → OperationFits g held own operation → run (graph_view g held) (growth_asked operation) ≡ Ok (growth g (effects_of g new operation)) }
{}

/// The growth of effects is the same in every graph that has the same nodes where they touch it. So what is counted over copies
/// of these nodes alone is the growth in the whole.
pub fn growth_is_local()
    ensures { (g h : Graph) (es : List Effect) → ((i : ℕ) → is_among i (touches es) ≡ true → g i ≡ h i) → growth g es ≡ growth h es }
{}

/// What an answered call changes is a record that can be written. Over a sound graph whose tree is within the limits, an operation
/// that changes something has 1 to 8 effects that keep the limits, so that with any units below 2^32 they have a spelling; and
/// their growth is at most the blocks of the greatest file, so it is such units. Every other operation has no effect at all.
pub fn answered_operations_have_spellings()
    ensures spelled { (g : Graph) (held : Descriptors) (client new units : ℕ) (call : Call) (operation : Operation) → IsSound g held → IsWithinLimits (state_of g held).tree → answer_over g held client call ≡ Ok operation → (makes operation ≡ true → IsNew g new) → changes operation ≡ true → units < 2 ^ 32 → IsRecord (record { units = units; effects = effects_of g new operation }) }
    ensures units { (g : Graph) (held : Descriptors) (client new : ℕ) (call : Call) (operation : Operation) → IsSound g held → answer_over g held client call ≡ Ok operation → (makes operation ≡ true → IsNew g new) → growth g (effects_of g new operation) ≤ MAX_FILE / UNIT_BYTES }
    ensures unchanged { (g : Graph) (new : ℕ) (operation : Operation) → changes operation ≡ false → effects_of g new operation ≡ [] }
{}
