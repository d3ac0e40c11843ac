// A recovery of the program's own: what a stop left of the regions that two clients wrote is replayed over the graph that stands for the shared media.
ghost use Rattle.std.specs.Prelude.{◌≡◌, IfOk, OnOk};
ghost use Rattle.plain_tree.specs.file_graph.Graph.{Graph, graph_of};
ghost use Rattle.tier_device.specs.AfterStop.{AtRest};
ghost use Rattle.tier_device.specs.declared.media.Tier.TheVariants.{Fast};
ghost use Rattle.script.specs.update_log.Frames.{records};
ghost use Rattle.script.specs.update_log.View.{records_of};
ghost use Rattle.thread_runs.specs.FirstPath.{IsRecovered, MayHold};

use crate::file_system::medium_after_stop;
use crate::region_stops::RunMedium;
use crate::shared_graph::replay;
use plain_tree::in_file_graph::PlainGraph;
use script::RunError;
use script::in_log_record::Record;
use script::in_update_log::Region;
use std::alloc::Global;
use tier_device::Media;

/// Stops the regions of two clients, and does in the graph what both then hold, but for the records of the first one that are done.
pub(crate) fn recover_both(
    alloc: Global,
    first: RunMedium,
    second: RunMedium,
    graph: &mut PlainGraph,
    done: usize,
) -> Result<(), RunError>
    ensures { OnOk result ((between : Graph) × IsRecovered first done (graph_of graph.old) between × IsRecovered second 0 between (graph_of graph.new)) }
{
    recover(alloc, first, graph, done)?;
    recover(alloc, second, graph, 0)
}

// Stops a region's medium, and does in the graph what it then holds, but for the records that are done.
fn recover(
    alloc: Global,
    region: RunMedium,
    graph: &mut PlainGraph,
    done: usize,
) -> Result<(), RunError>
    ensures { OnOk result (IsRecovered region done (graph_of graph.old) (graph_of graph.new)) }
{
    let found = records_after_stop(alloc, region)?;
    replay(graph, &found, done)
}

// Stops a region's medium, and reads the records that it then holds.
fn records_after_stop(alloc: Global, region: RunMedium) -> Result<Vec<Record>, RunError>
    ensures { IfOk result (λ found. MayHold region found.items) }
{
    let media = medium_after_stop(region)?;
    records_on(alloc, media)
}

// The records that a medium of a region's holds.
fn records_on<M: Media + Drop>(alloc: Global, media: M) -> Result<Vec<Record>, RunError>
    requires { AtRest (M.seen media) (M.left media (M.moment media)) Fast }
    ensures { IfOk result (λ found. found.items ≡ records (M.seen media Fast)) }
{
    let mut region = reopen_region(alloc, media)?;
    Ok(region.records()?)
}

fn reopen_region<M: Media + Drop>(alloc: Global, media: M) -> Result<Region<M>, RunError>
    requires { AtRest (M.seen media) (M.left media (M.moment media)) Fast }
    ensures { IfOk result (λ region. records_of M.Media region ≡ records (M.seen media Fast)) }
{
    match Region::reopen(alloc, media) {
        Ok(region) => Ok(region),
        Err((error, _media)) => Err(RunError::from(error)),
    }
}
