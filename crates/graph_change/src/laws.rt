//! What holds of every change.

ghost use Rattle.std.specs.Prelude.{◌≡◌, List, ℕ, Bool, Option, None, true, length, option_map};
ghost use Rattle.std.specs.List.{AllByRecursion};
ghost use Rattle.std.specs.Ordering.{nat_cmp};
ghost use Rattle.std.specs.BTreeMap.{BTreeMap, get};
ghost use Rattle.std.specs.FinMap as fin;
ghost use Rattle.file_graph.specs.declared.effect.Effect.{Effect};
ghost use Rattle.file_graph.specs.Graph.{Node, Graph, after_effects};
ghost use Rattle.graph_change.specs.Swaps.{swapped_graph, swapped_sum};
ghost use Rattle.graph_change.specs.Bounds.{is_bounded, AreBounded};
ghost use Rattle.graph_change.specs.Change.{Change, Changes, Coalesces, Patch, change_after, coalesced_changes, net_of, new_change, patched_bytes, with_effect, IsWhole};
ghost use Rattle.graph_change.specs.Net.{Base, Gone, node_after};
ghost use Rattle.graph_change.specs.Tidy.{IsTidyChange, AreTidyChanges};
ghost use Rattle.graph_change.specs.View.{change_of, nodes_of, patch_of, patches_of};
ghost use Rattle.graph_change.specs.declared.node_change.NodeChange.{NodeChange};
ghost use Rattle.posix_calls.specs.declared.limits.TheConstants.{UNIT_BYTES};

/// The changes of a list of effects make of every graph what the effects make of it, one after the other and without their Swaps. The inodes in it are those that the effects are on; each of
/// them and each block of a file is changed at most once, and no block that the effects leave alone.
pub fn changes_are_the_effects()
    ensures { (es : List Effect) → Coalesces es (coalesced_changes es) }
{}

/// The sum of effects is tidy: at the end that a file is left with, or behind it, no byte is put and no block begins that is written. It makes no difference what else is
/// said of a node that goes.
pub fn changes_are_tidy()
    ensures new { (base : Base) → IsTidyChange (new_change base) }
    ensures kept { (e : Effect) (c : Change) → IsTidyChange c → IsTidyChange (change_after e c) }
    ensures coalesced { (es : List Effect) → AreTidyChanges (coalesced_changes es) }
    ensures gone { (c : Change) (old : Option Node) → c.base ≡ Gone → node_after (net_of c) old ≡ None }
{}

/// Effects on inodes that name no number past its limit sum up to a change of inodes that names none: of names, of the bytes of a file, and of the inodes that entries lead to.
pub fn changes_keep_to_the_limits()
    ensures kept { (e : Effect) (cs : Changes) → is_bounded e ≡ true → AreBounded cs → AreBounded (with_effect e cs) }
    ensures coalesced { (es : List Effect) → AllByRecursion (λ e. is_bounded e ≡ true) es → AreBounded (coalesced_changes es) }
{}

/// The change of an inode, and what is put into a block of its file, is what is kept under its number; each number is there once at most, and they rise.
pub fn changes_are_read_by_number()
    ensures nodes { (nodes : BTreeMap ℕ NodeChange) (i : ℕ) → fin.get (nodes_of nodes) i ≡ option_map change_of (get nat_cmp nodes i) }
    ensures blocks { (blocks : BTreeMap ℕ (List ℕ × List Bool)) (b : ℕ) → fin.get (patches_of blocks) b ≡ option_map patch_of (get nat_cmp blocks b) }
{}

/// A block that is put whole needs none of the bytes that it had.
pub fn whole_block_needs_no_old_bytes()
    ensures { (patch : Patch) (one other : List ℕ) → IsWhole patch → length one ≡ UNIT_BYTES → length other ≡ UNIT_BYTES → patched_bytes patch one ≡ patched_bytes patch other }
{}

/// The sum of effects, with what is kept of their names where a Swap is among them, makes of every graph what the effects make of it.
pub fn swapped_sums_are_the_effects()
    ensures { (es : List Effect) (g : Graph) → swapped_graph (swapped_sum es) g ≡ after_effects g es }
{}
