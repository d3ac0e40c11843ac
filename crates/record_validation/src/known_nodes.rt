//! What is known of the inodes that effects touch.

ghost use Rattle.std.specs.Prelude.{◌≡◌, option_map};
ghost use Rattle.std.specs.Ordering.{nat_cmp};
ghost use Rattle.std.specs.BTreeMap.{get};
ghost use Rattle.std.specs.List.{find};
ghost use Rattle.call_effects.specs.file_graph.Graph.{subjects};
ghost use Rattle.record_validation.specs.KnownNodes.{first_unknown, is_unknown};

use crate::node_summary::NodeSummary;
use call_effects::in_file_graph::Effect;
use std::collections::BTreeMap;

/// The first inode that effects touch, in their order, of which nothing is known. Where none is named, the map tells of each inode
/// that they touch what stands there, or that nothing does.
#[tactic(auto, using(crate::proofs::Touched::next_unknown))]
pub fn first_unknown(known: &BTreeMap<u32, Option<NodeSummary>>, effects: &[Effect]) -> Option<u32>
    ensures { result ≡ first_unknown known.now effects.now }
{
    for effect in effects {
        if let Some(inode) = find_unknown(known, effect) {
            return Some(inode);
        }
    }
    None
}

// The first of the inodes of one effect of which nothing is known.
fn find_unknown(known: &BTreeMap<u32, Option<NodeSummary>>, effect: &Effect) -> Option<u32>
    ensures { result ≡ find (is_unknown known.now) (subjects effect.now) }
{
    let (inode, other) = effect.subjects();
    if is_unknown(known, inode) {
        return Some(inode);
    }
    match other {
        Some(other) if is_unknown(known, other) => Some(other),
        _ => None,
    }
}

/// Whether nothing is known of an inode.
pub fn is_unknown(known: &BTreeMap<u32, Option<NodeSummary>>, inode: u32) -> bool
    ensures { result ≡ is_unknown known.now inode }
{
    known.get(&inode).is_none()
}

/// What is known to stand at an inode, if anything is known of it.
pub fn known_node(
    known: &BTreeMap<u32, Option<NodeSummary>>,
    inode: u32,
) -> Option<Option<&NodeSummary>>
    ensures { option_map (option_map (λ n. n.now)) result ≡ get nat_cmp known.now inode }
{
    match known.get(&inode) {
        Some(Some(node)) => Some(Some(node)),
        Some(None) => Some(None),
        None => None,
    }
}
