// A plain graph that stands for the shared media, and records that are done in it.
ghost use Rattle.std.specs.Prelude.{◌≡◌, IfOk, OnOk, codes, drop, false, length, true};
ghost use Rattle.plain_tree.specs.file_graph.Graph.{graph_of, after_effect, after_effects};
ghost use Rattle.thread_runs.specs.FirstPath.{after_replay, file_effects, root_with_f};

use plain_tree::in_file_graph::{Effect, Kind, PlainGraph};
use posix_calls::{Name, ROOT};
use script::RunError;
use script::in_log_record::Record;
use std::alloc::Global;

/// The inode of the file `/f`.
pub const FILE: u32 = 2;

/// A root with the empty file `/f`.
pub(crate) fn first_graph(alloc: Global) -> Result<PlainGraph, RunError>
    ensures { IfOk result (λ graph. graph_of graph ≡ root_with_f) }
{
    let name = file_name(alloc)?;
    let mut graph = PlainGraph::with_root(alloc)?;
    make_file(&mut graph, name)?;
    Ok(graph)
}

fn make_file(graph: &mut PlainGraph, name: Name) -> Result<(), RunError>
    ensures { OnOk result (graph_of graph.new ≡ after_effects (graph_of graph.old) (file_effects name)) }
{
    let (inode, kind) = (FILE, Kind::File);
    apply(graph, Effect::Make { inode, kind })?;
    apply(
        graph,
        Effect::Enter {
            directory: ROOT,
            inode,
            kind,
            name,
        },
    )?;
    apply(graph, Effect::Names { inode, names: 1 })
}

fn apply(graph: &mut PlainGraph, effect: Effect) -> Result<(), RunError>
    ensures { OnOk result (graph_of graph.new ≡ after_effect (graph_of graph.old) effect) }
{
    match graph.apply(&effect) {
        Ok(()) => Ok(()),
        Err(_) => Err(RunError::Memory),
    }
}

fn file_name(alloc: Global) -> Result<Name, RunError>
    ensures { IfOk result (λ name. name ≡ codes "f") }
{
    match Name::from_vec(b"f".to_vec(alloc)?) {
        Ok(name) => Ok(name),
        Err(_) => Err(RunError::Damaged),
    }
}

/// Does what a client logged where its call was answered, and answers how many records of its region are done.
pub(crate) fn apply_answered(
    graph: &mut PlainGraph,
    logged: &[Record],
    is_answered: bool,
) -> Result<usize, RunError>
    ensures answered { is_answered ≡ true → IfOk result (λ done. (done ≡ length logged.now) × (graph_of graph.new ≡ after_replay (graph_of graph.old) logged.now)) }
    ensures stopped { is_answered ≡ false → IfOk result (λ done. (done ≡ 0) × (graph_of graph.new ≡ graph_of graph.old)) }
{
    if !is_answered {
        return Ok(0);
    }
    replay(graph, logged, 0)?;
    Ok(logged.len())
}

/// Does the effects of records that are not done yet.
pub(crate) fn replay(
    graph: &mut PlainGraph,
    records: &[Record],
    done: usize,
) -> Result<(), RunError>
    ensures { OnOk result (graph_of graph.new ≡ after_replay (graph_of graph.old) (drop done records.now)) }
{
    let rest = records.get(done..).unwrap_or(&[]);
    for entry in rest {
        apply_record(graph, entry)?;
    }
    Ok(())
}

// Does the effects of a record.
fn apply_record(graph: &mut PlainGraph, logged: &Record) -> Result<(), RunError>
    ensures { OnOk result (graph_of graph.new ≡ after_effects (graph_of graph.old) logged.now.effects) }
{
    for effect in logged.effects.as_slice() {
        graph.apply(effect)?;
    }
    Ok(())
}
