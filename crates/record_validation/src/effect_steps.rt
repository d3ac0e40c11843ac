//! What is known after the effects of a record.

ghost use Rattle.std.specs.Prelude.{◌≡◌, ◌∷◌, [], true, false, Some, IsSome, OnErr, OnOk, option_map};
ghost use Rattle.std.specs.FinMap as fin;
ghost use Rattle.std.specs.Ordering.{nat_cmp};
ghost use Rattle.std.specs.BTreeMap.{get};
ghost use Rattle.std.specs.List.{AllByRecursion};
ghost use Rattle.call_effects.specs.file_graph.Graph.{Graph, after_effects, subjects};
ghost use Rattle.call_effects.specs.file_graph.Plain.{is_drop, is_swap};
ghost use Rattle.call_effects.specs.file_graph.declared.effect.Effect.TheVariants.{Enter, Swap};
ghost use Rattle.call_effects.specs.log_record.Grammar.{FitsLimits};
ghost use Rattle.call_effects.specs.KnownCopies.{SwapsAreKnown, child_known, known_acted, known_after, known_after_effect};
ghost use Rattle.call_effects.specs.NodeView.{in_entries, view_acted, view_entries};
ghost use Rattle.record_validation.specs.KnownNodes.{ViewsAgree};
ghost use Rattle.record_validation.specs.Memory.{enters_known, is_directory, is_enter, want_room};

use crate::known_nodes::known_node;
use crate::node_summary::NodeSummary;
use call_effects::in_file_graph::{Child, Effect};
use std::alloc::{AllocError, Global};
use std::collections::BTreeMap;

/// Does the effects of a record to what is known. Of an inode of which nothing is known nothing is known after it. A Swap changes what
/// two names lead to if both are known to lead to something. Where there is no
/// memory for it, some of the effects may be done and others not: nothing is said of what is left, and the whole is to be dropped. None is
/// asked for but to enter a name into what is known to be a directory by then.
pub fn take_effects(
    alloc: Global,
    known: &mut BTreeMap<u32, Option<NodeSummary>>,
    effects: &[Effect],
) -> Result<(), AllocError>
    requires fit { AllByRecursion FitsLimits effects.now }
    ensures known { OnOk result (get nat_cmp known.new ≡ known_after effects.now (get nat_cmp known.old)) }
    ensures agrees { OnOk result ((g : Graph) → SwapsAreKnown (get nat_cmp known.old) effects.now → ViewsAgree known.old g → ViewsAgree known.new (after_effects g effects.now)) }
    ensures memory { OnErr result (want_room effects.now (get nat_cmp known.old) ≡ true) }
{
    for effect in effects {
        take_effect(alloc, known, effect)?;
    }
    Ok(())
}

fn take_effect(
    alloc: Global,
    known: &mut BTreeMap<u32, Option<NodeSummary>>,
    effect: &Effect,
) -> Result<(), AllocError>
    requires fits { FitsLimits effect.now }
    ensures known { OnOk result (get nat_cmp known.new ≡ known_after_effect effect.now (get nat_cmp known.old)) }
    ensures memory { OnErr result (enters_known effect.now (get nat_cmp known.old) ≡ true) }
{
    if let Effect::Swap {
        directory,
        name,
        other,
        other_name,
    } = effect
    {
        swap_names(
            known,
            *directory,
            name.as_slice(),
            *other,
            other_name.as_slice(),
        );
        return Ok(());
    }
    take_alone(alloc, known, effect)
}

// Does an effect that is no Swap to what is known of its inode.
fn take_alone(
    alloc: Global,
    known: &mut BTreeMap<u32, Option<NodeSummary>>,
    effect: &Effect,
) -> Result<(), AllocError>
    requires fits { FitsLimits effect.now }
    requires alone { is_swap effect.now ≡ false }
    ensures known { OnOk result (get nat_cmp known.new ≡ known_acted effect.now (get nat_cmp known.old)) }
    ensures memory { OnErr result (enters_known effect.now (get nat_cmp known.old) ≡ true) }
{
    let inode = subject(effect);
    if let Some(node) = known.get_mut(&inode) {
        return act(alloc, node, effect);
    }
    Ok(())
}

// The one inode of an effect that is no Swap.
#[tactic(auto, using(crate::proofs::Taken::alone_subject))]
fn subject(effect: &Effect) -> u32
    requires { is_swap effect.now ≡ false }
    ensures { subjects effect.now ≡ result ∷ [] }
{
    effect.subjects().0
}

// Two names change what they lead to, if both are known to lead to something. It takes no memory.
fn swap_names(
    known: &mut BTreeMap<u32, Option<NodeSummary>>,
    directory: u32,
    name: &[u8],
    other: u32,
    other_name: &[u8],
)
    ensures { get nat_cmp known.new ≡ known_after_effect (Swap directory name.now other other_name.now) (get nat_cmp known.old) }
{
    let Some(first) = known_child(known, directory, name) else {
        return;
    };
    let Some(second) = known_child(known, other, other_name) else {
        return;
    };
    set_child(known, directory, name, second);
    set_child(known, other, other_name, first);
}

// What a name of a directory is known to lead to.
fn known_child(
    known: &BTreeMap<u32, Option<NodeSummary>>,
    directory: u32,
    name: &[u8],
) -> Option<Child>
    ensures { result ≡ child_known (get nat_cmp known.now) directory name.now }
{
    match known_node(known, directory) {
        Some(Some(node)) => node.child(name),
        Some(None) => None,
        None => None,
    }
}

// A name that is known to lead to something leads to something else.
fn set_child(
    known: &mut BTreeMap<u32, Option<NodeSummary>>,
    directory: u32,
    name: &[u8],
    child: Child,
)
    requires { IsSome (child_known (get nat_cmp known.old) directory name.now) }
    ensures { get nat_cmp known.new ≡ known_acted (Enter directory child.0 child.1 name.now) (get nat_cmp known.old) }
{
    if let Some(node) = known.get_mut(&directory) {
        set_in(node, name, child);
    }
}

fn set_in(node: &mut Option<NodeSummary>, name: &[u8], child: Child)
    requires { IsSome (fin.get (view_entries node.old) name.now) }
    ensures { node.new ≡ option_map (in_entries (λ es. fin.insert es name.now child)) node.old }
{
    if let Some(summary) = node {
        summary.set(name, child);
    }
}

// What an effect on an inode makes of what is known of it.
fn act(alloc: Global, node: &mut Option<NodeSummary>, effect: &Effect) -> Result<(), AllocError>
    requires fits { FitsLimits effect.now }
    ensures acted { OnOk result (node.new ≡ view_acted effect.now node.old) }
    ensures memory { OnErr result (is_enter effect.now ≡ true) }
    ensures directory { OnErr result (is_directory (Some node.old) ≡ true) }
{
    if is_drop(effect) {
        *node = None;
        return Ok(());
    }
    if let Some(summary) = node {
        return summary.act(alloc, effect);
    }
    if let Effect::Make { kind, .. } = effect {
        *node = Some(NodeSummary::empty(alloc, *kind));
    }
    Ok(())
}

fn is_drop(effect: &Effect) -> bool
    ensures { result ≡ is_drop effect.now }
{
    matches!(effect, Effect::Drop { .. })
}
