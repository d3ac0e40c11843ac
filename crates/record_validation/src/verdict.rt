//! Whether the next record of a client's log may be digested.

ghost use Rattle.std.specs.Prelude.{◌≡◌, ◌-◌, ◌+◌, Some, None, nat_le, if◌then◌else◌};
ghost use Rattle.std.specs.List.{list_all};
ghost use Rattle.std.specs.List.Sorted.{IsNonDecreasing};
ghost use Rattle.call_effects.specs.file_graph.Graph.{Graph, subjects, is_among};
ghost use Rattle.call_effects.specs.file_graph.Units.{charge};
ghost use Rattle.call_effects.specs.log_record.Grammar.{IsRecord};
ghost use Rattle.record_validation.specs.Good.{IsVerdict, are_held, asked_inode};
ghost use Rattle.record_validation.specs.KnownNodes.{ViewsAgree, first_unknown};

use crate::costs::{RecordCosts, tally_record};
use crate::node_summary::NodeSummary;
use call_effects::in_file_graph::Effect;
use call_effects::in_log_record::Record;
use std::collections::BTreeMap;

/// What a test says of a record.
#[derive(Clone, Copy, Debug, PartialEq, Eq)]
pub enum Verdict {
    /// It may be digested: so many units are the charge of the graph after it.
    Good { charge: u64 },
    /// It may not: an inode that it touches is not held, it raises the charge by more than its units, it leaves a node that passes
    /// a limit, or the graph after it costs more than there is.
    Bad,
    /// Nothing is known of this inode, which it touches.
    Unknown { inode: u32 },
}

/// Whether a record may be digested into each graph that is as it is known and has a charge of `used` units, where its client holds
/// the inodes `held` for writing, listed rising, and where there are `capacity` units in all. An inode that the record touches and of
/// which nothing is known is named, the first in the order of its effects. Nothing is changed, and no memory is taken.
pub fn test_record(
    known: &BTreeMap<u32, Option<NodeSummary>>,
    used: u64,
    capacity: u64,
    held: &[u32],
    next: &Record,
) -> Verdict
    requires spelled { IsRecord next.now }
    requires rising { IsNonDecreasing held.now }
    ensures answer { (g : Graph) → ViewsAgree known.now g → charge g ≡ used → IsVerdict held.now capacity g next.now result }
    ensures unknown { asked_inode result ≡ first_unknown known.now next.now.effects }
{
    let effects = next.effects.as_slice();
    let tally = match tally_record(known, effects) {
        Ok(tally) => tally,
        Err(inode) => return Verdict::Unknown { inode },
    };
    if !are_held(held, effects) {
        return Verdict::Bad;
    }
    if tally.costs.growth > next.units as u64 {
        return Verdict::Bad;
    }
    if !tally.within {
        return Verdict::Bad;
    }
    match charge_after(used, capacity, tally.costs) {
        Some(charge) => Verdict::Good { charge },
        None => Verdict::Bad,
    }
}

// The charge after a record, where there are that many units.
fn charge_after(used: u64, capacity: u64, costs: RecordCosts) -> Option<u64>
    ensures { result ≡ (if nat_le ((used + costs.after) - costs.before) capacity then Some ((used + costs.after) - costs.before) else None) }
{
    let charge = (used as u128 + costs.after as u128).saturating_sub(costs.before as u128);
    if charge <= capacity as u128 {
        Some(charge as u64)
    } else {
        None
    }
}

// Whether each inode that effects touch is held.
#[tactic(auto, using(crate::proofs::Touched::next_held))]
fn are_held(held: &[u32], effects: &[Effect]) -> bool
    requires { IsNonDecreasing held.now }
    ensures { result ≡ are_held held.now effects.now }
{
    for effect in effects {
        if !is_held(held, effect) {
            return false;
        }
    }
    true
}

// Whether each inode of one effect is held.
fn is_held(held: &[u32], effect: &Effect) -> bool
    requires { IsNonDecreasing held.now }
    ensures { result ≡ list_all (λ i. is_among i held.now) (subjects effect.now) }
{
    let (inode, other) = effect.subjects();
    match other {
        Some(other) => is_among(held, inode) && is_among(held, other),
        None => is_among(held, inode),
    }
}

#[tactic(auto, using(crate::proofs::Searched::among_searched))]
fn is_among(inodes: &[u32], inode: u32) -> bool
    requires { IsNonDecreasing inodes.now }
    ensures { result ≡ is_among inode inodes.now }
{
    inodes.binary_search(&inode).is_ok()
}
