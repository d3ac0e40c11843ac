// The way from the root to the leaf that has a block.
ghost use Rattle.std.specs.Prelude.{◌≡◌, ◌≤◌, ◌<◌, ◌+◌, ◌*◌, ◌^◌, length, IfSome, IsSome};
ghost use Rattle.extent_tree.specs.Nodes.{flat, summaries};
ghost use Rattle.extent_tree.specs.Normal.{IsRising};
ghost use Rattle.extent_tree.specs.Places.{extent_with};
ghost use Rattle.extent_tree.specs.Tree.{IsLevel, IsTree, IsWidth, level_at};

use crate::upper_levels::Level;
use crate::{Found, Node};

fn find_in_root(nodes: &[Node], block: u32) -> Found
    requires one { length nodes.now ≤ 1 }
    requires rising { IsRising 0 4294967295 (flat nodes.now) }
    ensures extent { result.extent ≡ extent_with block (flat nodes.now) }
    ensures compared { result.compared ≤ length (flat nodes.now) }
    ensures some { 0 < length (flat nodes.now) → 0 < result.compared }
    ensures each_level { IfSome result.extent (λ _. 1 ≤ result.compared) }
{
    if nodes.is_empty() {
        return Found {
            extent: None,
            compared: 0,
        };
    }
    nodes[0].find(block)
}

// The nodes of the level of that number, the lowest one's number being 0.
fn level_nodes<'a>(nodes: &'a [Node], inner: &'a [Level], level: usize) -> &'a [Node]
    requires { level ≤ length inner.now }
    ensures { result.now ≡ level_at level nodes.now inner.now }
{
    if level == 0 {
        return nodes;
    }
    inner[level - 1].nodes()
}

// The entry of a level that has a block, by the one of the level above.
fn find_below<const N: usize>(nodes: &[Node], above: Found, block: u32) -> Found
    requires rising { IsRising 0 4294967295 (flat nodes.now) }
    requires level { IsLevel N nodes.now }
    requires above { above.extent ≡ extent_with block (summaries 0 nodes.now) }
    requires few { above.compared + N < 2 ^ 64 }
    ensures extent { result.extent ≡ extent_with block (flat nodes.now) }
    ensures compared { result.compared ≤ above.compared + N }
    ensures more { above.compared ≤ result.compared }
    ensures each_level { IfSome result.extent (λ _. IsSome above.extent × (above.compared < result.compared)) }
{
    let covering = above.extent;
    match covering {
        None => above,
        Some(entry) => {
            let below = nodes[entry.place as usize].find(block);
            Found {
                extent: below.extent,
                compared: above.compared + below.compared,
            }
        }
    }
}

/// The entry of the lowest level that has a block: one node of each level is searched, from the root down.
pub fn find_in<const N: usize>(nodes: &[Node], inner: &[Level], block: u32) -> Found
    requires width { IsWidth N }
    requires rising { IsRising 0 4294967295 (flat nodes.now) }
    requires level { IsLevel N nodes.now }
    requires tree { IsTree N nodes.now inner.now }
    ensures extent { result.extent ≡ extent_with block (flat nodes.now) }
    ensures compared { result.compared ≤ N * (1 + length inner.now) }
    ensures some { 0 < length (flat nodes.now) → 0 < result.compared }
    ensures each_level { IfSome result.extent (λ _. 1 + length inner.now ≤ result.compared) }
{
    let mut found = find_in_root(level_nodes(nodes, inner, inner.len()), block);
    'down: for done in 0..inner.len() {
        let below = level_nodes(nodes, inner, inner.len() - 1 - done);
        found = find_below::<N>(below, found, block);
    }
    found
}
