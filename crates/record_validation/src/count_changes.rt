//! The numbers of a node after effects, without doing them.

ghost use Rattle.std.specs.Prelude.{◌≡◌, ◌≤◌, ◌+◌, ◌++◌, [], ◌∷◌, length, false, true, option_map, unwrap_or, if◌then◌else◌};
ghost use Rattle.std.specs.Ordering.{nat_cmp, eq_by_cmp};
ghost use Rattle.std.specs.Cmp.Lexicographic.{slice_cmp};
ghost use Rattle.std.specs.List.{AllByRecursion};
ghost use Rattle.call_effects.specs.file_graph.Graph.{subjects, is_among};
ghost use Rattle.call_effects.specs.log_record.Grammar.{FitsLimits};
ghost use Rattle.call_effects.specs.log_record.declared.format.TheConstants.{MAX_EFFECTS};
ghost use Rattle.call_effects.specs.NodeView.{view_after};
ghost use Rattle.record_validation.specs.Counts.{counts_of, counts_after, entry_count, entry_in, entry_acted, entry_after, empty_entry, is_named};

use crate::node_counts::{NodeCounts, apply_effect};
use crate::node_summary::NodeSummary;
use call_effects::in_file_graph::{Effect, Kind};
use posix_calls::Name;
use std::cmp::Ordering;

/// The numbers of what stands at an inode after the effects of a record, told by what stood there before them. Nothing is changed,
/// no memory is taken, and the bytes of files are not looked at.
#[tactic(auto, using(crate::proofs::Steps::next_taken))]
pub fn counts_after(effects: &[Effect], inode: u32, old: Option<&NodeSummary>) -> Option<NodeCounts>
    requires few { length effects.now ≤ MAX_EFFECTS }
    requires fit { AllByRecursion FitsLimits effects.now }
    ensures { result ≡ counts_after effects.now inode (option_map (λ n. n.now) old.entry) }
{
    let mut counts = counts_of(old);
    let mut place = 0;
    for effect in effects {
        counts = counts_more(counts, effect, &effects[..place], inode, old);
        place += 1;
    }
    counts
}

/// Returns the numbers of a node that is known.
pub fn counts_of(old: Option<&NodeSummary>) -> Option<NodeCounts>
    ensures is { result ≡ option_map counts_of (option_map (λ n. n.now) old.entry) }
    ensures few { entry_count result ≤ 4294967295 }
{
    match old {
        Some(node) => Some(node.counts()),
        None => None,
    }
}

// The numbers with one more effect behind those before it.
#[tactic(auto, using(crate::proofs::Steps::counts_more))]
fn counts_more(
    counts: Option<NodeCounts>,
    effect: &Effect,
    before: &[Effect],
    inode: u32,
    old: Option<&NodeSummary>,
) -> Option<NodeCounts>
    requires fits { FitsLimits effect.now }
    requires few { entry_count counts ≤ 4294967303 }
    requires is { counts ≡ counts_after before.now inode (option_map (λ n. n.now) old) }
    ensures is { result ≡ counts_after (before.now ++ effect.now ∷ []) inode (option_map (λ n. n.now) old.entry) }
    ensures few { entry_count result ≤ entry_count counts + 1 }
{
    if is_on(effect, inode) {
        return apply_effect(counts, effect, is_named(effect, before, inode, old));
    }
    counts
}

// Whether there is an entry of the name that an effect enters or takes out, after the effects before it.
fn is_named(effect: &Effect, before: &[Effect], inode: u32, old: Option<&NodeSummary>) -> bool
    ensures { result ≡ is_named effect.now (view_after before.now inode (option_map (λ n. n.now) old.entry)) }
{
    match effect {
        Effect::Enter { name, .. } => is_there(before, inode, name.as_slice(), old),
        Effect::Leave { name, .. } => is_there(before, inode, name.as_slice(), old),
        Effect::Make { .. } => false,
        Effect::Names { .. } => false,
        Effect::Size { .. } => false,
        Effect::Bytes { .. } => false,
        Effect::Drop { .. } => false,
        Effect::Swap { .. } => false,
    }
}

// Whether a directory has an entry of a name after effects.
#[tactic(auto, using(crate::proofs::Steps::entry_is))]
fn is_there(effects: &[Effect], inode: u32, name: &[u8], old: Option<&NodeSummary>) -> bool
    ensures { result ≡ unwrap_or (entry_in name.now (view_after effects.now inode (option_map (λ n. n.now) old.entry))) false }
{
    let was = entry_in(old, name);
    entry_after(effects, inode, name, was).unwrap_or(false)
}

fn entry_in(old: Option<&NodeSummary>, name: &[u8]) -> Option<bool>
    ensures { result ≡ entry_in name.now (option_map (λ n. n.now) old.entry) }
{
    match old {
        Some(node) => node.entry_in(name),
        None => None,
    }
}

// Whether a directory has an entry of a name after effects, by whether it had one before; none where there is no directory.
fn entry_after(effects: &[Effect], inode: u32, name: &[u8], old: Option<bool>) -> Option<bool>
    ensures { result ≡ entry_after name.now effects.now inode old }
{
    let mut there = old;
    for effect in effects {
        there = entry_step(effect, inode, name, there);
    }
    there
}

fn entry_step(effect: &Effect, inode: u32, name: &[u8], old: Option<bool>) -> Option<bool>
    ensures { result ≡ (if is_among inode (subjects effect.now) then entry_acted name.now effect.now old else old) }
{
    if is_on(effect, inode) {
        return entry_acted(effect, name, old);
    }
    old
}

fn entry_acted(effect: &Effect, name: &[u8], old: Option<bool>) -> Option<bool>
    ensures { result ≡ entry_acted name.now effect.now old }
{
    match effect {
        Effect::Make { kind, .. } => new_entry(*kind),
        Effect::Enter { name: entered, .. } => entry_if(is_same(name, entered), true, old),
        Effect::Leave { name: left, .. } => entry_if(is_same(name, left), false, old),
        Effect::Names { .. } => old,
        Effect::Size { .. } => old,
        Effect::Bytes { .. } => old,
        Effect::Drop { .. } => None,
        Effect::Swap { .. } => old,
    }
}

// Of a new node: a directory has no entry.
fn new_entry(kind: Kind) -> Option<bool>
    ensures { result ≡ empty_entry kind }
{
    match kind {
        Kind::File => None,
        Kind::Directory => Some(false),
    }
}

// Where it is the name that is changed, what becomes of it; else what was.
fn entry_if(is_it: bool, now: bool, old: Option<bool>) -> Option<bool>
    ensures { result ≡ option_map (λ was. if is_it then now else was) old }
{
    match old {
        Some(was) => Some(if is_it { now } else { was }),
        None => None,
    }
}

fn is_same(name: &[u8], other: &Name) -> bool
    ensures { result ≡ eq_by_cmp (slice_cmp nat_cmp) name.now other.now }
{
    matches!(name.cmp(&other.as_slice()), Ordering::Equal)
}

/// Whether an effect is on an inode.
#[tactic(auto, using(crate::proofs::Steps::on_one, crate::proofs::Steps::on_two))]
pub fn is_on(effect: &Effect, inode: u32) -> bool
    ensures { result ≡ is_among inode (subjects effect.now) }
{
    match effect {
        Effect::Make { inode: it, .. } => *it == inode,
        Effect::Enter { directory, .. } => *directory == inode,
        Effect::Leave { directory, .. } => *directory == inode,
        Effect::Names { inode: it, .. } => *it == inode,
        Effect::Size { inode: it, .. } => *it == inode,
        Effect::Bytes { inode: it, .. } => *it == inode,
        Effect::Drop { inode: it } => *it == inode,
        Effect::Swap {
            directory,
            other,
            ..
        } => *directory == inode || *other == inode,
    }
}
