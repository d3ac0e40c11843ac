// The two calls of `strata_first`, each in a thread of its own, over a fresh file system.
use crate::client_run::call_of;
use crate::file_system::{fresh_set, region_media};
use crate::region_stops::{RegionStop, RegionStops, RunMedium};
use crate::run::work;
use crate::seat::seats_of;
use crate::shared_graph::{apply_answered, first_graph};
use plain_tree::in_file_graph::PlainGraph;
use posix_calls::{Errno, Reply};
use script::RunError;
use script::in_log_record::Record;
use std::alloc::Global;
use std::sync::Wait;
use std::thread;
use std::thread::Threads;
use strata_threads::{OpenGate, SharedKernel, StopFlag, ThreadClient, ThreadSet, Worker};

// Units of the file system.
const UNITS: u32 = 1_024;

// Turns that a call is given.
const TURNS: u64 = 1_000;

// In how many rounds a log is to be digested.
const ROUNDS: u64 = 1_000_000;

// Of all regions, client by client and the even one first, those that the two calls are logged in: client 1 has sealed its even one.
const FIRST_REGION: usize = 1;

const SECOND_REGION: usize = 2;

/// What a call was answered.
#[derive(Clone, Copy)]
pub enum Answer {
    /// So many bytes were written.
    Wrote(u32),
    /// It was done, and nothing more is told.
    Done,
    /// Its client's region stopped before.
    Stopped,
}

/// What both calls were answered, what is done in the graph that stands for the shared media, and the regions in which both were logged.
#[derive(Drop)]
pub struct CallEnd {
    pub first: Answer,
    pub second: Answer,
    /// How many records of the first region are done in the graph.
    pub done: usize,
    pub graph: PlainGraph,
    pub first_region: RunMedium,
    pub second_region: RunMedium,
}

/// Makes both calls, and does what client 1 logged where it was answered. It prints nothing, so that it is the same whatever is printed to.
pub(crate) fn make_both_calls<R: Threads + Wait + AllocGlobal + Sync>(
    rt: &R,
    stop: Option<RegionStop>,
) -> Result<CallEnd, RunError> {
    let mut stops = RegionStops::new(rt.alloc(), stop);
    let mut set = fresh_set(rt.alloc(), UNITS, 1, &mut stops)?;
    let answers = ask_both(rt, &mut set, &stops, stop)?;
    let ThreadSet { clients, .. } = set;
    end_calls(rt, clients, answers)
}

// Client 1 opens its file, the stops are armed, and both clients make their calls at once, with no worker beside them.
fn ask_both<R: Threads + Wait + AllocGlobal + Sync>(
    rt: &R,
    set: &mut ThreadSet<RunMedium>,
    stops: &RegionStops,
    stop: Option<RegionStop>,
) -> Result<(Answer, Answer), RunError> {
    let shared = &set.shared;
    let Some((first, rest)) = set.clients.split_first_mut() else {
        return Err(RunError::Damaged);
    };
    let Some((second, _)) = rest.split_first_mut() else {
        return Err(RunError::Damaged);
    };
    open_file(rt, shared, first, &mut set.workers)?;
    stops.arm(stop);
    let (one, two) = thread::join(
        rt,
        || ask(rt, shared, first, "1 pwrite 0 0 61x4"),
        || ask(rt, shared, second, "2 mkdir /a"),
    );
    Ok((one?, two?))
}

// Client 1 makes `/f` and opens it, has that digested, and gives its leases back.
fn open_file<R: Threads + Wait + AllocGlobal + Sync>(
    rt: &R,
    shared: &SharedKernel<RunMedium>,
    client: &mut ThreadClient<RunMedium>,
    workers: &mut [Worker<RunMedium>],
) -> Result<(), RunError> {
    let stop = StopFlag::new();
    let flag = &stop;
    let (end, _) = thread::join(
        rt,
        || {
            let end = create_file(rt, shared, client);
            flag.set(shared);
            end
        },
        || work(rt, shared, workers, flag),
    );
    end
}

// Nobody else holds a lease yet, and media in memory fail only for want of memory: so nothing else can be wanting.
fn create_file<R: Wait + AllocGlobal>(
    rt: &R,
    shared: &SharedKernel<RunMedium>,
    client: &mut ThreadClient<RunMedium>,
) -> Result<(), RunError> {
    let answer = ask(rt, shared, client, "1 open /f rwc");
    let is_clear = client.clear_log(rt, shared, ROUNDS);
    client.give_all();
    match answer {
        Ok(Answer::Done) if is_clear => Ok(()),
        _ => Err(RunError::Memory),
    }
}

// Makes the call of a line.
fn ask<R: Wait + AllocGlobal>(
    rt: &R,
    shared: &SharedKernel<RunMedium>,
    client: &mut ThreadClient<RunMedium>,
    line: &str,
) -> Result<Answer, RunError> {
    let call = call_of(rt.alloc(), line)?;
    let reply = client.posix(rt, shared, &call, TURNS, &OpenGate);
    answer_of(&reply)
}

// What a reply says. A device that fails stops its client, also where it has no memory to note a call.
fn answer_of(reply: &Reply) -> Result<Answer, RunError> {
    match reply {
        Reply::Wrote { count } => Ok(Answer::Wrote(*count)),
        Reply::Failed { errno } => match *errno {
            Errno::IoError => Ok(Answer::Stopped),
            Errno::NoMemory => Err(RunError::Memory),
            _ => Err(RunError::Damaged),
        },
        _ => Ok(Answer::Done),
    }
}

// Does what client 1 logged where it was answered, and takes the regions of both calls.
fn end_calls<R: Wait + AllocGlobal>(
    rt: &R,
    clients: Vec<ThreadClient<RunMedium>>,
    answers: (Answer, Answer),
) -> Result<CallEnd, RunError> {
    let (first, second) = answers;
    let (graph, done) = graph_after(rt.alloc(), first_records(&clients), first)?;
    let (first_region, second_region) = take_regions(rt, clients)?;
    Ok(CallEnd {
        first,
        second,
        done,
        graph,
        first_region,
        second_region,
    })
}

// The records of client 1 that are not digested.
fn first_records(clients: &[ThreadClient<RunMedium>]) -> &[Record] {
    match clients.first() {
        Some(first) => first.client().current_records(),
        None => &[],
    }
}

// The graph with what client 1 logged where it was answered, and how many records are done in it.
fn graph_after(
    alloc: Global,
    logged: &[Record],
    answer: Answer,
) -> Result<(PlainGraph, usize), RunError> {
    let mut graph = first_graph(alloc)?;
    let is_answered = !matches!(answer, Answer::Stopped);
    let done = apply_answered(&mut graph, logged, is_answered)?;
    Ok((graph, done))
}

// The media of the regions in which both calls were logged.
fn take_regions<R: Wait + AllocGlobal>(
    rt: &R,
    clients: Vec<ThreadClient<RunMedium>>,
) -> Result<(RunMedium, RunMedium), RunError> {
    let mut regions = region_media(rt, seats_of(rt.alloc(), clients)?)?;
    if regions.len() <= SECOND_REGION {
        return Err(RunError::Damaged);
    }
    let second = regions.remove(SECOND_REGION);
    Ok((regions.remove(FIRST_REGION), second))
}
