// Which nodes of a level a run of blocks touches.
ghost use Rattle.std.specs.Prelude.{◌≡◌, ◌≤◌, ◌<◌, ◌-◌, ◌^◌, length, take, drop, slice_index_or, List};
ghost use Rattle.extent_tree.specs.Changes.{EndBefore, BeginBehind};
ghost use Rattle.extent_tree.specs.Nodes.{flat, begin_of, last_end, AreFilled};
ghost use Rattle.extent_tree.specs.Normal.{IsRising};
ghost use Rattle.layout.specs.declared.extents.Extent.{Extent};

use crate::node::Node;

/// How many nodes, from the first on, end before a block with another between, by bisection.
pub fn nodes_before(nodes: &[Node], block: u32) -> usize
    requires rising { IsRising 0 4294967295 (flat nodes.now) }
    requires filled { AreFilled nodes.now }
    ensures within { result ≤ length nodes.now }
    ensures before { EndBefore block (flat (take result nodes.now)) }
    ensures next { (d : List Extent) → result < length nodes.now → block ≤ last_end 0 (slice_index_or nodes.now result d) }
{
    nodes.partition_point(|node| node.end() < block as u64)
}

/// How many nodes, from the first on, begin at a block or before it, by bisection.
pub fn nodes_up_to(nodes: &[Node], block: u32) -> usize
    requires rising { IsRising 0 4294967295 (flat nodes.now) }
    requires filled { AreFilled nodes.now }
    ensures within { result ≤ length nodes.now }
    ensures behind { BeginBehind block (flat (drop result nodes.now)) }
    ensures last { (d : List Extent) → 0 < result → begin_of (slice_index_or nodes.now (result - 1) d) ≤ block }
{
    nodes.partition_point(|node| (node.start() as u64) < block as u64 + 1)
}
