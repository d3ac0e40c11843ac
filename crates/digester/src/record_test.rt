//! Records are tested one after the other, until one is bad.

ghost use Rattle.std.specs.Prelude.{◌≡◌, ◌<◌, ℕ, List, true, false, None, IfErr, IfOk, OnOk, length};
ghost use Rattle.std.specs.List.{AllByRecursion};
ghost use Rattle.std.specs.List.Sorted.{IsNonDecreasing};
ghost use Rattle.update_log.specs.file_graph.Graph.{Graph, after_effects, touches};
ghost use Rattle.update_log.specs.file_graph.Units.{charge};
ghost use Rattle.update_log.specs.log_record.Grammar.{IsRecord};
ghost use Rattle.coalescer.specs.Records.{effects_in};
ghost use Rattle.shared_area.specs.record_validation.Good.{IsGood};
ghost use Rattle.shared_area.specs.record_validation.Row.{HasCome};
ghost use Rattle.digester.specs.Questions.{AreAmong, AskedKnown, AskedOnce, refusal_of};
ghost use Rattle.digester.specs.Plan.{Finds};

use crate::node_fetch::learn_touched;
use crate::plan_error::PlanError;
use shared_area::in_record_validation::{Nodes, RecordCheck, Verdict};
use std::alloc::Global;
use update_log::in_log_record::Record;

/// What a test of some records found.
#[derive(Clone, Copy, PartialEq, Eq)]
pub enum Found {
    /// Each is good: so many units are the charge of the graph after them.
    AllGood { charge: u64 },
    /// The record at this place is the first bad one.
    FirstBad { place: usize },
}

/// Tests records over the graph that the nodes are told of, whose charge is `used` units: each as those before it leave it, for a client that
/// holds the inodes `held` for writing, listed rising, and where there are `capacity` units in all. No node is asked for twice, nor one
/// that no record touches.
pub fn test_records<N: Nodes>(
    alloc: Global,
    nodes: &mut N,
    used: u64,
    capacity: u64,
    held: &[u32],
    records: &[Record],
) -> Result<Found, PlanError<N::Error>>
    requires spelled { AllByRecursion IsRecord records.now }
    requires rising { IsNonDecreasing held.now }
    requires used { charge (N.graph nodes.old) ≡ used }
    ensures stays { N.graph nodes.new ≡ N.graph nodes.old }
    ensures answer { IfOk result (Finds held.now capacity (N.graph nodes.old) records.now) }
    ensures answered { OnOk result (AskedOnce N.asked (touches (effects_in records.now)) nodes.old nodes.new None) }
    ensures refused { IfErr result (λ e. AskedOnce N.asked (touches (effects_in records.now)) nodes.old nodes.new (refusal_of e)) }
    ensures some { IfErr result (λ e. 0 < length records.now) }
{
    let mut check = RecordCheck::new(alloc, used);
    for place in 0..records.len() {
        if !test_next(alloc, nodes, &mut check, capacity, held, &records[place])? {
            return Ok(Found::FirstBad { place });
        }
    }
    Ok(Found::AllGood {
        charge: check.charge,
    })
}

// Tests the next record, and goes on behind a good one. Whether it is good.
fn test_next<N: Nodes>(
    alloc: Global,
    nodes: &mut N,
    check: &mut RecordCheck,
    capacity: u64,
    held: &[u32],
    next: &Record,
) -> Result<bool, PlanError<N::Error>>
    requires spelled { IsRecord next.now }
    requires rising { IsNonDecreasing held.now }
    ensures stays { N.graph nodes.new ≡ N.graph nodes.old }
    ensures good { IfOk result (λ is_good. is_good ≡ true → (h : Graph) → HasCome check.old (N.graph nodes.old) h → IsGood held.now capacity h next.now × HasCome check.new (N.graph nodes.old) (after_effects h next.now.effects)) }
    ensures bad { IfOk result (λ is_good. is_good ≡ false → (h : Graph) → HasCome check.old (N.graph nodes.old) h → IsGood held.now capacity h next.now → ⊥) }
    ensures answered { OnOk result ((first : N) (among : List ℕ) → AreAmong (touches next.now.effects) among → AskedKnown N.asked check.old.known among first nodes.old → AskedKnown N.asked check.new.known among first nodes.new) }
    ensures refused { IfErr result (λ e. (first : N) (among : List ℕ) → AreAmong (touches next.now.effects) among → AskedKnown N.asked check.old.known among first nodes.old → AskedOnce N.asked among first nodes.new (refusal_of e)) }
{
    learn_touched(alloc, nodes, check, next.effects.as_slice())?;
    match check.next(alloc, capacity, held, next) {
        Ok(Verdict::Good { .. }) => Ok(true),
        Ok(_) => Ok(false),
        Err(_) => Err(PlanError::Memory),
    }
}
