//! Nodes are asked for before a record is tested.

ghost use Rattle.std.specs.Prelude.{◌≡◌, ℕ, List, true, false, None, Some, IfErr, OnOk};
ghost use Rattle.update_log.specs.file_graph.Graph.{Graph, subjects, touches, is_among};
ghost use Rattle.shared_area.specs.record_validation.KnownNodes.{first_unknown, is_unknown};
ghost use Rattle.shared_area.specs.record_validation.Row.{HasCome};
ghost use Rattle.digester.specs.Questions.{AskedKnown, AskedOnce, AreAmong, refusal_of};

use crate::plan_error::PlanError;
use shared_area::in_record_validation::{Nodes, RecordCheck, is_unknown};
use std::alloc::Global;
use update_log::in_file_graph::Effect;

/// Asks for each inode that effects touch and of which nothing is known.
pub fn learn_touched<N: Nodes>(
    alloc: Global,
    nodes: &mut N,
    check: &mut RecordCheck,
    effects: &[Effect],
) -> Result<(), PlanError<N::Error>>
    ensures stays { N.graph nodes.new ≡ N.graph nodes.old }
    ensures come { OnOk result ((h : Graph) → HasCome check.old (N.graph nodes.old) h → HasCome check.new (N.graph nodes.old) h) }
    ensures known { OnOk result (first_unknown check.new.known effects.now ≡ None) }
    ensures answered { OnOk result ((first : N) (among : List ℕ) → AreAmong (touches effects.now) among → AskedKnown N.asked check.old.known among first nodes.old → AskedKnown N.asked check.new.known among first nodes.new) }
    ensures refused { IfErr result (λ e. (first : N) (among : List ℕ) → AreAmong (touches effects.now) among → AskedKnown N.asked check.old.known among first nodes.old → AskedOnce N.asked among first nodes.new (refusal_of e)) }
{
    for effect in effects {
        learn_subjects(alloc, nodes, check, effect)?;
    }
    Ok(())
}

// Asks for the inodes that an effect is on, one or two, where nothing is known of them.
fn learn_subjects<N: Nodes>(
    alloc: Global,
    nodes: &mut N,
    check: &mut RecordCheck,
    effect: &Effect,
) -> Result<(), PlanError<N::Error>>
    ensures stays { N.graph nodes.new ≡ N.graph nodes.old }
    ensures come { OnOk result ((h : Graph) → HasCome check.old (N.graph nodes.old) h → HasCome check.new (N.graph nodes.old) h) }
    ensures known { OnOk result ((i : ℕ) → is_among i (subjects effect.now) ≡ true → is_unknown check.new.known i ≡ false) }
    ensures others { OnOk result ((i : ℕ) → is_unknown check.old.known i ≡ false → is_unknown check.new.known i ≡ false) }
    ensures answered { OnOk result ((first : N) (among : List ℕ) → AreAmong (subjects effect.now) among → AskedKnown N.asked check.old.known among first nodes.old → AskedKnown N.asked check.new.known among first nodes.new) }
    ensures refused { IfErr result (λ e. (first : N) (among : List ℕ) → AreAmong (subjects effect.now) among → AskedKnown N.asked check.old.known among first nodes.old → AskedOnce N.asked among first nodes.new (refusal_of e)) }
{
    let (inode, other) = effect.subjects();
    learn(alloc, nodes, check, inode)?;
    match other {
        Some(second) => learn(alloc, nodes, check, second),
        None => Ok(()),
    }
}

// Asks for an inode, where nothing is known of it.
fn learn<N: Nodes>(
    alloc: Global,
    nodes: &mut N,
    check: &mut RecordCheck,
    inode: u32,
) -> Result<(), PlanError<N::Error>>
    ensures stays { N.graph nodes.new ≡ N.graph nodes.old }
    ensures come { OnOk result ((h : Graph) → HasCome check.old (N.graph nodes.old) h → HasCome check.new (N.graph nodes.old) h) }
    ensures known { OnOk result (is_unknown check.new.known inode ≡ false) }
    ensures others { OnOk result ((i : ℕ) → is_unknown check.old.known i ≡ false → is_unknown check.new.known i ≡ false) }
    ensures answered { OnOk result ((first : N) (among : List ℕ) → is_among inode among ≡ true → AskedKnown N.asked check.old.known among first nodes.old → AskedKnown N.asked check.new.known among first nodes.new) }
    ensures refused { IfErr result (λ e. (first : N) (among : List ℕ) → is_among inode among ≡ true → AskedKnown N.asked check.old.known among first nodes.old → AskedOnce N.asked among first nodes.new (refusal_of e)) }
{
    if !is_unknown(&check.known, inode) {
        return Ok(());
    }
    let node = match nodes.node(alloc, inode) {
        Ok(node) => node,
        Err(error) => return Err(PlanError::Nodes(error)),
    };
    match check.learn(inode, node) {
        Ok(()) => Ok(()),
        Err(_) => Err(PlanError::Memory),
    }
}
