//! What holds of every record.

ghost use Rattle.std.specs.Prelude.{◌≡◌, ◌+◌, ℕ, true, false, Option, option_map, List};
ghost use Rattle.call_effects.specs.file_graph.declared.effect.Effect.{Effect};
ghost use Rattle.call_effects.specs.file_graph.Graph.{Graph, Node, subject_after, after_effects, touches, is_among, swapped_directories};
ghost use Rattle.std.specs.List.{AllByRecursion};
ghost use Rattle.call_effects.specs.file_graph.Units.{charge, growth};
ghost use Rattle.call_effects.specs.log_record.Grammar.{FitsLimits};
ghost use Rattle.record_validation.specs.Counts.{counts_of, counts_after, counts_acted, is_named, entry_in, entry_after};
ghost use Rattle.record_validation.specs.Rises.{sum_distinct, view_cost, view_cost_after, view_rise};
ghost use Rattle.call_effects.specs.NodeView.{NodeView, view_of_node, view_at, view_acted, view_after};

/// What an effect makes of the summary of a node by itself is the summary of what it makes of the node; so do effects one after the other at an
/// inode that no Swap names. The numbers of each node are told so, of those that Swaps name too.
pub fn summary_is_of_the_node_after()
    ensures single { (e : Effect) (o : Option Node) → option_map view_of_node (subject_after e o) ≡ view_acted e (option_map view_of_node o) }
    ensures rows { (g : Graph) (es : List Effect) (i : ℕ) (view : Option NodeView) → is_among i (swapped_directories es) ≡ false → view_at g i ≡ view → view_at (after_effects g es) i ≡ view_after es i view }
    ensures counts { (g : Graph) (es : List Effect) (i : ℕ) (view : Option NodeView) → view_at g i ≡ view → option_map counts_of (view_at (after_effects g es) i) ≡ counts_after es i view }
{}

/// The growth of effects that keep the limits of the format, and the charge after them, are told by the nodes that they touch, each
/// counted once, whatever stands elsewhere in the graph.
pub fn growth_follows_what_is_touched()
    ensures growth { (g : Graph) (es : List Effect) (known : ℕ → Option NodeView) → AllByRecursion FitsLimits es → ((i : ℕ) → is_among i (touches es) ≡ true → view_at g i ≡ known i) → growth g es ≡ sum_distinct (view_rise es known) (touches es) }
    ensures charge { (g : Graph) (es : List Effect) (known : ℕ → Option NodeView) → AllByRecursion FitsLimits es → ((i : ℕ) → is_among i (touches es) ≡ true → view_at g i ≡ known i) → charge (after_effects g es) + sum_distinct (view_cost known) (touches es) ≡ charge g + sum_distinct (view_cost_after es known) (touches es) }
{}

/// The numbers of a node after an effect are told by its numbers before it, and by whether there was an entry of the name that the
/// effect enters or takes out; that an entry of a name is there after effects is told by whether it was there before them.
pub fn counts_are_of_the_node_after()
    ensures single { (e : Effect) (v : Option NodeView) → option_map counts_of (view_acted e v) ≡ counts_acted e (is_named e v) (option_map counts_of v) }
    ensures entry { (name : List ℕ) (es : List Effect) (i : ℕ) (v : Option NodeView) → entry_in name (view_after es i v) ≡ entry_after name es i (entry_in name v) }
{}
