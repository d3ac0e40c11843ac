//! Nodes of a graph in memory, made what stands elsewhere.

ghost use Rattle.std.specs.Prelude.{◌≡◌, Some, None, OnOk};
ghost use Rattle.system_laws.specs.file_graph.Graph.{DirBody, FileBody, after_effects, empty_body, graph_of, set_node};
ghost use Rattle.std.specs.FinMap as fin;
ghost use Rattle.system_laws.specs.record_validation.NodeAnswers.{entries_of};
ghost use Rattle.system_laws.specs.world_invariant.Logs.{after_records};
ghost use Rattle.interleavings.specs.Snapshots.{entries_put};

use posix_calls::SharedBytes;
use std::alloc::{AllocError, Global};
use system_laws::in_file_graph::{Effect, Kind, PlainGraph};
use system_laws::in_log_record::Record;
use system_laws::in_record_validation::NodeSummary;

/// Makes an inode a file with `names` names and these bytes.
pub(crate) fn put_file(
    graph: &mut PlainGraph,
    inode: u32,
    names: u32,
    bytes: Vec<u8>,
) -> Result<(), AllocError>
    ensures { OnOk result (graph_of graph.new ≡ set_node (graph_of graph.old) inode (Some (record { names = names; body = FileBody bytes.items }))) }
{
    let bytes = SharedBytes::from_vec(bytes)?;
    make_node(graph, inode, Kind::File, names)?;
    graph.apply(&Effect::Bytes {
        inode,
        at: 0,
        bytes,
    })
}

/// Makes an inode a directory with `names` names and the entries of a known one.
pub(crate) fn put_directory(
    alloc: Global,
    graph: &mut PlainGraph,
    inode: u32,
    names: u32,
    known: &NodeSummary,
) -> Result<(), AllocError>
    ensures { OnOk result (graph_of graph.new ≡ set_node (graph_of graph.old) inode (Some (record { names = names; body = DirBody (entries_of known.now) }))) }
{
    make_node(graph, inode, Kind::Directory, names)?;
    put_entries(alloc, graph, inode, known)
}

// Puts the entries of a known directory into one, the last one first: so the map that they make is that of their list.
fn put_entries(
    alloc: Global,
    graph: &mut PlainGraph,
    directory: u32,
    known: &NodeSummary,
) -> Result<(), AllocError>
    ensures { OnOk result (graph_of graph.new ≡ after_effects (graph_of graph.old) (entries_put directory (fin.entries (entries_of known.now)))) }
{
    let entries = known.entries();
    let count = entries.len();
    for done in 0..count {
        let entry = &entries[count - 1 - done];
        graph.apply(&Effect::Enter {
            directory,
            inode: entry.value.inode(),
            kind: entry.value.kind(),
            name: entry.name.copy(alloc)?,
        })?;
    }
    Ok(())
}

// Makes an inode an empty node of a kind with `names` names.
fn make_node(graph: &mut PlainGraph, inode: u32, kind: Kind, names: u32) -> Result<(), AllocError>
    ensures { OnOk result (graph_of graph.new ≡ set_node (graph_of graph.old) inode (Some (record { names = names; body = empty_body kind }))) }
{
    graph.apply(&Effect::Make { inode, kind })?;
    graph.apply(&Effect::Names { inode, names })
}

/// Does the effects of records, one after the other.
pub(crate) fn put_records(graph: &mut PlainGraph, records: &[Record]) -> Result<(), AllocError>
    ensures { OnOk result (graph_of graph.new ≡ after_records (graph_of graph.old) records.now) }
{
    for record in records {
        put_effects(graph, record.effects.as_slice())?;
    }
    Ok(())
}

// Does effects, one after the other.
fn put_effects(graph: &mut PlainGraph, effects: &[Effect]) -> Result<(), AllocError>
    ensures { OnOk result (graph_of graph.new ≡ after_effects (graph_of graph.old) effects.now) }
{
    for effect in effects {
        graph.apply(effect)?;
    }
    Ok(())
}
