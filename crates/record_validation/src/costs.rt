//! By how much a record raises the units of a graph, told by what is known of the nodes that it touches.

ghost use Rattle.std.specs.Prelude.{◌≡◌, ◌+◌, ◌-◌, ◌<◌, ◌≤◌, ◌^◌, ◌∷◌, ◌&&◌, Some, None, IfOk, IfErr, length, option_map};
ghost use Rattle.std.specs.List.{AllByRecursion, find, list_all};
ghost use Rattle.call_effects.specs.file_graph.Graph.{Graph, after_effects, is_among, touches};
ghost use Rattle.call_effects.specs.file_graph.Units.{charge, growth};
ghost use Rattle.call_effects.specs.log_record.Grammar.{FitsLimits};
ghost use Rattle.call_effects.specs.log_record.declared.format.TheConstants.{MAX_EFFECTS};
ghost use Rattle.record_validation.specs.Counts.{counts_of, counts_after, counts_cost};
ghost use Rattle.record_validation.specs.Good.{is_within, keeps};
ghost use Rattle.record_validation.specs.KnownNodes.{ViewsAgree, first_unknown, inodes_behind, is_unknown, known_at};
ghost use Rattle.record_validation.specs.Rises.{sum_distinct, view_cost, view_cost_after, view_rise};

use crate::count_changes::{counts_after, counts_of, is_on};
use crate::known_nodes::known_node;
use crate::node_counts::{cost, is_within};
use crate::node_summary::NodeSummary;
use call_effects::in_file_graph::Effect;
use std::collections::BTreeMap;

/// What the inodes that a record touches cost, each counted once, in units.
#[derive(Clone, Copy, Debug, PartialEq, Eq)]
pub struct RecordCosts {
    /// The rises of their costs; where one falls, that is no rise.
    pub growth: u64,
    /// What they cost before the record.
    pub before: u64,
    /// What they cost after it.
    pub after: u64,
}

/// The growth of a record's effects in every graph that is as it is known, and what the inodes that they touch cost before and after
/// them: the charge of the graph changes by that. The first inode that they touch of which nothing is known is the error. Nothing is
/// changed, and no memory is taken.
pub fn record_costs(
    known: &BTreeMap<u32, Option<NodeSummary>>,
    effects: &[Effect],
) -> Result<RecordCosts, u32>
    requires few { length effects.now ≤ MAX_EFFECTS }
    requires fit { AllByRecursion FitsLimits effects.now }
    ensures growth { IfOk result (λ c. (g : Graph) → ViewsAgree known.now g → growth g effects.now ≡ c.growth) }
    ensures charge { IfOk result (λ c. (g : Graph) → ViewsAgree known.now g → charge (after_effects g effects.now) + c.before ≡ charge g + c.after) }
    ensures small { IfOk result (λ c. (c.before < 2 ^ 64) × (c.after < 2 ^ 64)) }
    ensures known { IfOk result (λ c. first_unknown known.now effects.now ≡ None) }
    ensures unknown { IfErr result (λ i. first_unknown known.now effects.now ≡ Some i) }
{
    let tally = tally_record(known, effects)?;
    Ok(tally.costs)
}

/// What a record costs, and whether each node that it touches keeps the limits after it.
#[derive(Clone, Copy)]
pub struct RecordTally {
    pub costs: RecordCosts,
    pub within: bool,
}

/// The costs of a record (`record_costs`), and whether what it touches keeps the limits after it: each inode is looked up but once for both.
pub fn tally_record(
    known: &BTreeMap<u32, Option<NodeSummary>>,
    effects: &[Effect],
) -> Result<RecordTally, u32>
    requires few { length effects.now ≤ MAX_EFFECTS }
    requires fit { AllByRecursion FitsLimits effects.now }
    ensures growth { IfOk result (λ t. (g : Graph) → ViewsAgree known.now g → growth g effects.now ≡ t.costs.growth) }
    ensures charge { IfOk result (λ t. (g : Graph) → ViewsAgree known.now g → charge (after_effects g effects.now) + t.costs.before ≡ charge g + t.costs.after) }
    ensures small { IfOk result (λ t. (t.costs.before < 2 ^ 64) × (t.costs.after < 2 ^ 64)) }
    ensures within { IfOk result (λ t. t.within ≡ list_all (keeps known.now effects.now) (touches effects.now)) }
    ensures known { IfOk result (λ t. first_unknown known.now effects.now ≡ None) }
    ensures unknown { IfErr result (λ i. first_unknown known.now effects.now ≡ Some i) }
{
    let all = tally(known, effects)?;
    Ok(all)
}

// What the inodes that effects touch cost, each once, and whether each keeps the limits.
fn tally(known: &BTreeMap<u32, Option<NodeSummary>>, effects: &[Effect]) -> Result<RecordTally, u32>
    requires few { length effects.now ≤ MAX_EFFECTS }
    requires fit { AllByRecursion FitsLimits effects.now }
    ensures growth { IfOk result (λ t. t.costs.growth ≡ sum_distinct (view_rise effects.now (known_at known.now)) (touches effects.now)) }
    ensures before { IfOk result (λ t. t.costs.before ≡ sum_distinct (view_cost (known_at known.now)) (touches effects.now)) }
    ensures after { IfOk result (λ t. t.costs.after ≡ sum_distinct (view_cost_after effects.now (known_at known.now)) (touches effects.now)) }
    ensures within { IfOk result (λ t. t.within ≡ list_all (keeps known.now effects.now) (touches effects.now)) }
    ensures known { IfOk result (λ t. first_unknown known.now effects.now ≡ None) }
    ensures unknown { IfErr result (λ i. first_unknown known.now effects.now ≡ Some i) }
{
    let mut all = NOTHING;
    let mut place = 0;
    for effect in effects {
        place += 1;
        let one = tally_once(known, effects, effect, &effects[place..])?;
        all.costs.growth += one.costs.growth;
        all.costs.before += one.costs.before;
        all.costs.after += one.costs.after;
        all.within = all.within && one.within;
    }
    Ok(all)
}

// Of no inode.
const NOTHING: RecordTally = RecordTally {
    costs: RecordCosts {
        growth: 0,
        before: 0,
        after: 0,
    },
    within: true,
};

// What the inodes that an effect is on cost, each where no effect behind it is on that inode too. The first of which nothing is known is the error.
fn tally_once(
    known: &BTreeMap<u32, Option<NodeSummary>>,
    effects: &[Effect],
    effect: &Effect,
    behind: &[Effect],
) -> Result<RecordTally, u32>
    requires few { length effects.now ≤ MAX_EFFECTS }
    requires fit { AllByRecursion FitsLimits effects.now }
    ensures growth { IfOk result (λ t. sum_distinct (view_rise effects.now (known_at known.now)) (touches (effect.now ∷ behind.now)) ≡ t.costs.growth + sum_distinct (view_rise effects.now (known_at known.now)) (touches behind.now)) }
    ensures before { IfOk result (λ t. sum_distinct (view_cost (known_at known.now)) (touches (effect.now ∷ behind.now)) ≡ t.costs.before + sum_distinct (view_cost (known_at known.now)) (touches behind.now)) }
    ensures after { IfOk result (λ t. sum_distinct (view_cost_after effects.now (known_at known.now)) (touches (effect.now ∷ behind.now)) ≡ t.costs.after + sum_distinct (view_cost_after effects.now (known_at known.now)) (touches behind.now)) }
    ensures within { IfOk result (λ t. list_all (keeps known.now effects.now) (touches (effect.now ∷ behind.now)) ≡ (t.within && list_all (keeps known.now effects.now) (touches behind.now))) }
    ensures known { IfOk result (λ t. first_unknown known.now (effect.now ∷ behind.now) ≡ first_unknown known.now behind.now) }
    ensures unknown { IfErr result (λ i. first_unknown known.now (effect.now ∷ behind.now) ≡ Some i) }
    ensures small { IfOk result (λ t. (t.costs.growth + 2 ≤ 2 ^ 61) × (t.costs.before + 2 ≤ 2 ^ 61) × (t.costs.after + 2 ≤ 2 ^ 61)) }
{
    let (inode, other) = effect.subjects();
    let first = tally_inode(known, effects, inode, other, behind)?;
    let Some(other) = other else {
        return Ok(first);
    };
    let second = tally_inode(known, effects, other, None, behind)?;
    Ok(both(first, second))
}

// What one inode of an effect costs, where it is not its second one, and no effect behind it is on the inode too; else nothing.
fn tally_inode(
    known: &BTreeMap<u32, Option<NodeSummary>>,
    effects: &[Effect],
    inode: u32,
    other: Option<u32>,
    behind: &[Effect],
) -> Result<RecordTally, u32>
    requires few { length effects.now ≤ MAX_EFFECTS }
    requires fit { AllByRecursion FitsLimits effects.now }
    ensures growth { IfOk result (λ t. sum_distinct (view_rise effects.now (known_at known.now)) (inode ∷ inodes_behind other behind.now) ≡ t.costs.growth + sum_distinct (view_rise effects.now (known_at known.now)) (inodes_behind other behind.now)) }
    ensures before { IfOk result (λ t. sum_distinct (view_cost (known_at known.now)) (inode ∷ inodes_behind other behind.now) ≡ t.costs.before + sum_distinct (view_cost (known_at known.now)) (inodes_behind other behind.now)) }
    ensures after { IfOk result (λ t. sum_distinct (view_cost_after effects.now (known_at known.now)) (inode ∷ inodes_behind other behind.now) ≡ t.costs.after + sum_distinct (view_cost_after effects.now (known_at known.now)) (inodes_behind other behind.now)) }
    ensures within { IfOk result (λ t. list_all (keeps known.now effects.now) (inode ∷ inodes_behind other behind.now) ≡ (t.within && list_all (keeps known.now effects.now) (inodes_behind other behind.now))) }
    ensures known { IfOk result (λ t. find (is_unknown known.now) (inode ∷ inodes_behind other behind.now) ≡ find (is_unknown known.now) (inodes_behind other behind.now)) }
    ensures unknown { IfErr result (λ i. find (is_unknown known.now) (inode ∷ inodes_behind other behind.now) ≡ Some i) }
    ensures small { IfOk result (λ t. (t.costs.growth < 2 ^ 60) × (t.costs.before < 2 ^ 60) × (t.costs.after < 2 ^ 60)) }
{
    let Some(old) = known_node(known, inode) else {
        return Err(inode);
    };
    if is_behind(inode, other, behind) {
        return Ok(NOTHING);
    }
    Ok(tally_of(old, effects, inode))
}

// Whether an inode comes again behind the first one of an effect.
fn is_behind(inode: u32, other: Option<u32>, behind: &[Effect]) -> bool
    ensures { result ≡ is_among inode (inodes_behind other behind.now) }
{
    match other {
        Some(other) => other == inode || are_on(behind, inode),
        None => are_on(behind, inode),
    }
}

// What two inodes cost.
fn both(first: RecordTally, second: RecordTally) -> RecordTally
    requires first { (first.costs.growth < 2 ^ 60) × (first.costs.before < 2 ^ 60) × (first.costs.after < 2 ^ 60) }
    requires second { (second.costs.growth < 2 ^ 60) × (second.costs.before < 2 ^ 60) × (second.costs.after < 2 ^ 60) }
    ensures growth { result.costs.growth ≡ first.costs.growth + second.costs.growth }
    ensures before { result.costs.before ≡ first.costs.before + second.costs.before }
    ensures after { result.costs.after ≡ first.costs.after + second.costs.after }
    ensures within { result.within ≡ (first.within && second.within) }
{
    RecordTally {
        costs: RecordCosts {
            growth: first.costs.growth + second.costs.growth,
            before: first.costs.before + second.costs.before,
            after: first.costs.after + second.costs.after,
        },
        within: first.within && second.within,
    }
}

// What one inode costs before effects and after them, by what stood there.
fn tally_of(old: Option<&NodeSummary>, effects: &[Effect], inode: u32) -> RecordTally
    requires few { length effects.now ≤ MAX_EFFECTS }
    requires fit { AllByRecursion FitsLimits effects.now }
    ensures growth { result.costs.growth ≡ counts_cost (counts_after effects.now inode (option_map (λ n. n.now) old.entry)) - counts_cost (option_map counts_of (option_map (λ n. n.now) old.entry)) }
    ensures before { result.costs.before ≡ counts_cost (option_map counts_of (option_map (λ n. n.now) old.entry)) }
    ensures after { result.costs.after ≡ counts_cost (counts_after effects.now inode (option_map (λ n. n.now) old.entry)) }
    ensures within { result.within ≡ is_within (counts_after effects.now inode (option_map (λ n. n.now) old.entry)) }
    ensures small { (result.costs.growth < 2 ^ 60) × (result.costs.before < 2 ^ 60) × (result.costs.after < 2 ^ 60) }
{
    let before = cost(counts_of(old));
    let counts = counts_after(effects, inode, old);
    let after = cost(counts);
    RecordTally {
        costs: RecordCosts {
            growth: after.saturating_sub(before),
            before,
            after,
        },
        within: is_within(counts),
    }
}

// Whether one of the effects is on an inode.
#[tactic(auto, using(crate::proofs::Touched::next_among))]
fn are_on(effects: &[Effect], inode: u32) -> bool
    ensures { result ≡ is_among inode (touches effects.now) }
{
    for effect in effects {
        if is_on(effect, inode) {
            return true;
        }
    }
    false
}
