// A run of `strata_first`.
ghost use Rattle.std.specs.Prelude.{IfOk};
ghost use Rattle.plain_tree.specs.file_graph.Graph.{Graph, graph_of};
ghost use Rattle.thread_runs.specs.FirstPath.{IsRecovered};

use crate::first_calls::{Answer, CallEnd, make_both_calls};
use crate::first_options::first_stop;
use crate::first_recovery::recover_both;
use crate::shared_graph::FILE;
use plain_tree::in_file_graph::PlainGraph;
use posix_calls::ROOT;
use program_runs::{tell, tell_fault};
use script::{RunError, write_data, write_name};
use std::alloc::Global;
use std::io::{self, Write};
use std::sync::Wait;
use std::thread::Threads;

/// Runs `strata_first`: client 1 writes into `/f` and client 2 makes `/a`, each in a thread of its own and into its own region; then the run stops, and a recovery replays what both regions hold. The first word is
/// the program's name.
///
/// Answers the exit status: 0 at the end, 2 where the words can't be read, 3 after a fault; the last two with a line on `err`.
pub fn run_first<'a, R: Threads + Wait + AllocGlobal + Sync, O: Write, E: Write>(
    rt: &R,
    words: &'a [&'a str],
    out: &mut O,
    err: &mut E,
) -> u8 {
    match first_stop(rt.alloc(), words) {
        Ok(stop) => match make_both_calls(rt, stop) {
            Ok(end) => tell_end(end_run(rt.alloc(), end, out), err),
            Err(fault) => tell_fault(fault, err),
        },
        Err(error) => tell(error, out, err),
    }
}

fn tell_end<E: Write>(end: Result<(), RunError>, err: &mut E) -> u8 {
    match end {
        Ok(()) => 0,
        Err(fault) => tell_fault(fault, err),
    }
}

// Prints what both calls were answered, and the tree that a recovery has then.
fn end_run<O: Write>(alloc: Global, end: CallEnd, out: &mut O) -> Result<(), RunError> {
    write_answers(out, &end)?;
    let graph = recovered_graph(alloc, end)?;
    write_tree(out, &graph)?;
    Ok(())
}

fn write_answers<O: Write>(out: &mut O, end: &CallEnd) -> io::Result<()> {
    write_answer(out, 1, end.first)?;
    write_answer(out, 2, end.second)?;
    writeln!(out, "applied {}", end.done)
}

// The graph, once what both regions hold after the stop is done in it, but for the records of the first one that are done.
fn recovered_graph(alloc: Global, end: CallEnd) -> Result<PlainGraph, RunError>
    ensures { IfOk result (λ graph. (between : Graph) × IsRecovered end.first_region end.done (graph_of end.graph) between × IsRecovered end.second_region 0 between (graph_of graph)) }
{
    let CallEnd {
        done,
        graph,
        first_region,
        second_region,
        ..
    } = end;
    let mut graph = graph;
    recover_both(alloc, first_region, second_region, &mut graph, done)?;
    Ok(graph)
}

fn write_answer<O: Write>(out: &mut O, client: u8, answer: Answer) -> io::Result<()> {
    match answer {
        Answer::Wrote(count) => writeln!(out, "{client} wrote {count}"),
        Answer::Done => writeln!(out, "{client} ok"),
        Answer::Stopped => writeln!(out, "{client} stopped"),
    }
}

fn write_tree<O: Write>(out: &mut O, graph: &PlainGraph) -> io::Result<()> {
    write_file(out, graph.file(FILE).unwrap_or(&[]))?;
    write_names(out, graph)
}

fn write_file<O: Write>(out: &mut O, bytes: &[u8]) -> io::Result<()> {
    write!(out, "/f bytes {} ", bytes.len())?;
    write_data(out, bytes)
}

fn write_names<O: Write>(out: &mut O, graph: &PlainGraph) -> io::Result<()> {
    out.write_all(b"\n/ names")?;
    for entry in graph.entries(ROOT).unwrap_or(&[]) {
        write_name(out, entry.name.as_slice())?;
    }
    out.write_all(b"\n")
}
