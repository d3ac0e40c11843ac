//! Nodes are read into the tables.

ghost use Rattle.std.specs.Prelude.{◌≡◌, ◌==◌, ◌+◌, ◌-◌, ◌<◌, ◌≤◌, ◌^◌, ℕ, Some, length, slice_index_or, IfErr, OnOk, if◌then◌else◌};
ghost use Rattle.posix_calls.specs.declared.limits.TheConstants.{ROOT, MAX_INODE};
ghost use Rattle.record_validation.specs.file_graph.Graph.{Graph};
ghost use Rattle.record_validation.specs.call_effects.NodeView.{NodeView, view_at};
ghost use Rattle.record_validation.specs.Counts.{counts_of};
ghost use Rattle.graph_check.specs.Questions.{AskedAll, AskedSome};
ghost use Rattle.graph_check.specs.declared.tables.NameCount.{NameCount};
ghost use Rattle.graph_check.specs.Tables.{HasPlaces, IsRead, head_of, named_in, more_named};

use crate::kinds::same_kind;
use crate::tables::{NameCount, NodeHead, Tables, place_of};
use posix_calls::{MAX_INODE, ROOT};
use record_validation::in_file_graph::{Kind, PlainEntry};
use record_validation::{NodeCounts, NodeSummary, Nodes};
use std::alloc::Global;

/// Reads each node once, in the order of the inodes, up to the first question that is refused.
pub fn read_nodes<N: Nodes>(
    alloc: Global,
    nodes: &mut N,
    tables: &mut Tables,
) -> Result<(), N::Error>
    requires places { HasPlaces tables.old }
    requires fresh { (g : Graph) → IsRead g 0 tables.old }
    ensures stays { N.graph nodes.new ≡ N.graph nodes.old }
    ensures places { HasPlaces tables.new }
    ensures read { OnOk result (IsRead (N.graph nodes.old) MAX_INODE tables.new) }
    ensures answered { OnOk result (AskedAll N.asked nodes.old nodes.new) }
    ensures refused { IfErr result (λ e. AskedSome N.asked nodes.old nodes.new (Some e)) }
{
    for inode in ROOT..MAX_INODE + 1 {
        let node = nodes.node(alloc, inode)?;
        take_answer(tables, inode, &node);
    }
    Ok(())
}

// Puts the next node into the tables, if there is one at the inode.
#[tactic(auto, using(crate::proofs::TablesGrow::read_nothing))]
fn take_answer(tables: &mut Tables, inode: u32, node: &Option<NodeSummary>)
    requires low { ROOT ≤ inode }
    requires high { inode ≤ MAX_INODE }
    requires places { HasPlaces tables.old }
    requires read { (g : Graph) × IsRead g (inode - 1) tables.old }
    ensures places { HasPlaces tables.new }
    ensures read { (g : Graph) → view_at g inode ≡ node.now → IsRead g (inode - 1) tables.old → IsRead g inode tables.new }
{
    match node {
        Some(node) => take_node(tables, inode, node),
        None => {}
    }
}

// Puts the next node into the tables, and its entries.
fn take_node(tables: &mut Tables, inode: u32, node: &NodeSummary)
    requires low { ROOT ≤ inode }
    requires high { inode ≤ MAX_INODE }
    requires places { HasPlaces tables.old }
    requires read { (g : Graph) × IsRead g (inode - 1) tables.old }
    ensures places { HasPlaces tables.new }
    ensures read { (g : Graph) → view_at g inode ≡ Some node.now → IsRead g (inode - 1) tables.old → IsRead g inode tables.new }
{
    let counts = node.counts();
    tables.heads[inode as usize] = Some(head_of(counts));
    count_names(&mut tables.files, inode, Kind::File, node.entries());
    count_names(
        &mut tables.directories,
        inode,
        Kind::Directory,
        node.entries(),
    );
}

// The kind of a node with these numbers, and how many names it has stored.
fn head_of(counts: NodeCounts) -> NodeHead
    ensures { (v : NodeView) → counts ≡ counts_of v → result ≡ head_of v }
{
    match counts {
        NodeCounts::File { names, .. } => NodeHead {
            kind: Kind::File,
            names,
        },
        NodeCounts::Directory { names, .. } => NodeHead {
            kind: Kind::Directory,
            names,
        },
    }
}

// Counts the entries of a directory that are of this kind, each at the place that it names.
fn count_names(table: &mut Vec<NameCount>, directory: u32, kind: Kind, entries: &[PlainEntry])
    requires places { length table.old.items ≡ MAX_INODE + 1 }
    requires room { (i : ℕ) (x : NameCount) → i ≤ MAX_INODE → (slice_index_or table.old.items i x).count + length entries.now < 2 ^ 64 }
    ensures places { length table.new.items ≡ MAX_INODE + 1 }
    ensures counted { (i : ℕ) (x : NameCount) → i ≤ MAX_INODE → slice_index_or table.new.items i x ≡ more_named directory (named_in kind i entries.now) (slice_index_or table.old.items i x) }
{
    for entry in entries {
        if same_kind(entry.value.kind(), kind) {
            count_name(table, place_of(entry.value.inode()), directory);
        }
    }
}

// Counts one more entry of a directory, which names a place.
fn count_name(table: &mut Vec<NameCount>, place: u32, directory: u32)
    requires places { length table.old.items ≡ MAX_INODE + 1 }
    requires within { place ≤ MAX_INODE }
    requires room { (x : NameCount) → (slice_index_or table.old.items place x).count + 1 < 2 ^ 64 }
    ensures places { length table.new.items ≡ MAX_INODE + 1 }
    ensures counted { (i : ℕ) (x : NameCount) → i ≤ MAX_INODE → slice_index_or table.new.items i x ≡ more_named directory (if place == i then 1 else 0) (slice_index_or table.old.items i x) }
{
    let count = table[place as usize].count + 1;
    table[place as usize] = NameCount {
        count,
        last: directory,
    };
}
