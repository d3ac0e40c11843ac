//! A run of `strata_run`.
use crate::client_run::{ClientRun, runs_of};
use crate::client_tree::{ClientTree, new_trees};
use crate::death::Death;
use crate::file_system::{RunSet, fresh_run_set, recover_set};
use crate::options::{Options, read_options};
use crate::region_stops::{RegionStops, RunMedium};
use crate::run_end::RunEnd;
use crate::turns::opening_lines;
use call_driver::in_interleavings::World;
use program_runs::{tell, tell_fault};
use script::RunError;
use std::io::Write;
use std::sync::Wait;
use std::thread;
use std::thread::Threads;
use strata_threads::{OpenGate, SharedKernel, StopFlag, Worker, run_migrator};

/// A difference, by its client and its turn.
#[derive(Clone, Copy)]
struct Difference {
    client: u32,
    turn: u64,
}

/// Runs clients, workers and a migrator, and prints a line for what they were, one where all replies were those of the plain trees, and one where the media were recovered with the same trees.
///
/// Answers the exit status: 0 at the end; 1 after a difference, which is told by its client and its turn in place of the line; 2 where the words can't be read; 3 after a fault.
pub fn run_threads<'a, R: Threads + Wait + AllocGlobal + Sync, O: Write, E: Write>(
    rt: &R,
    words: &'a [&'a str],
    out: &mut O,
    err: &mut E,
) -> u8 {
    match read_options(rt.alloc(), words) {
        Ok(options) => match run(rt, &options, out) {
            Ok(None) => 0,
            Ok(Some(difference)) => {
                let Difference { client, turn } = difference;
                let _ = writeln!(out, "differs client {client} turn {turn}");
                1
            }
            Err(fault) => tell_fault(fault, err),
        },
        Err(error) => tell(error, out, err),
    }
}

// Makes the trees that are asked beside the clients, and runs.
fn run<R: Threads + Wait + AllocGlobal + Sync, O: Write>(
    rt: &R,
    options: &Options,
    out: &mut O,
) -> Result<Option<Difference>, RunError> {
    let mut trees = new_trees(rt.alloc())?;
    run_beside(rt, options, &mut trees, out)
}

// Prints a line for what was run, one for the replies and one for what was recovered, up to the first difference.
fn run_beside<R: Threads + Wait + AllocGlobal + Sync, O: Write>(
    rt: &R,
    options: &Options,
    trees: &mut [ClientTree],
    out: &mut O,
) -> Result<Option<Difference>, RunError> {
    let set = make_all_calls(rt, options, trees)?;
    match report_replies(options, trees, out) {
        Ok(None) => report_recovery(rt, set, trees, options, out),
        difference => difference,
    }
}

fn report_replies<O: Write>(
    options: &Options,
    trees: &[ClientTree],
    out: &mut O,
) -> Result<Option<Difference>, RunError> {
    let Options { clients, turns, .. } = *options;
    writeln!(out, "clients {clients} turns {turns}")?;
    let difference = first_difference(trees)?;
    if difference.is_none() {
        writeln!(out, "replies ok")?;
    }
    Ok(difference)
}

// The media are recovered, and each client's tree is compared.
fn report_recovery<R: Wait + AllocGlobal, O: Write>(
    rt: &R,
    set: RunSet,
    trees: &mut [ClientTree],
    options: &Options,
    out: &mut O,
) -> Result<Option<Difference>, RunError> {
    let mut world = recover_set(rt, set)?;
    report_trees(&mut world, trees, options, out)
}

fn report_trees<O: Write>(
    world: &mut World<RunMedium>,
    trees: &mut [ClientTree],
    options: &Options,
    out: &mut O,
) -> Result<Option<Difference>, RunError> {
    let difference = compare_trees(world, trees, options)?;
    if difference.is_none() {
        writeln!(out, "recovered ok")?;
    }
    Ok(difference)
}

// Makes the file system and all calls. It prints nothing, so that it is the same whatever is printed to.
fn make_all_calls<R: Threads + Wait + AllocGlobal + Sync>(
    rt: &R,
    options: &Options,
    trees: &mut [ClientTree],
) -> Result<RunSet, RunError> {
    let mut stops = RegionStops::new(rt.alloc(), options.stop);
    let mut set = fresh_run_set(
        rt.alloc(),
        options.units,
        options.workers as usize,
        &mut stops,
    )?;
    make_calls(rt, &mut set, &stops, trees, options)?;
    Ok(set)
}

fn make_calls<R: Threads + Wait + AllocGlobal + Sync>(
    rt: &R,
    set: &mut RunSet,
    stops: &RegionStops,
    trees: &mut [ClientTree],
    options: &Options,
) -> Result<(), RunError> {
    let mut runs = runs_of(rt.alloc(), &mut set.seats, trees)?;
    let clients = options.clients;
    open_tree(rt, &set.shared, stops, &mut runs, &mut set.workers, clients)?;
    stops.arm(options.stop);
    arm_death(&mut runs, options.die);
    make_all_turns(rt, &set.shared, stops, &mut runs, &mut set.workers, options);
    Ok(())
}

// Has the client die that is to die, of those whose runs these are.
fn arm_death(runs: &mut [ClientRun<'_>], die: Option<Death>) {
    let Some(death) = die else {
        return;
    };
    for run in runs {
        if run.tree.number == death.client {
            run.seat.arm(death.call);
        }
    }
}

/// Client 1 makes what the clients work in, has it digested, and gives its leases back.
pub(crate) fn open_tree<R: Threads + Wait + AllocGlobal + Sync>(
    rt: &R,
    shared: &SharedKernel<RunMedium>,
    stops: &RegionStops,
    runs: &mut [ClientRun<'_>],
    workers: &mut [Worker<RunMedium>],
    clients: u32,
) -> Result<(), RunError> {
    let lines = opening_lines(rt.alloc(), clients)?;
    let Some((one, rest)) = runs.split_first_mut() else {
        return Err(RunError::Damaged);
    };
    ask_opening(rt, shared, stops, one, workers, &lines)?;
    for run in rest {
        follow(run, &lines)?;
    }
    Ok(())
}

// Has a client make the calls of these lines, beside workers.
fn ask_opening<R: Threads + Wait + Sync>(
    rt: &R,
    shared: &SharedKernel<RunMedium>,
    stops: &RegionStops,
    run: &mut ClientRun<'_>,
    workers: &mut [Worker<RunMedium>],
    lines: &str,
) -> Result<(), RunError> {
    let stop = StopFlag::new();
    let flag = &stop;
    let (end, _) = thread::join(
        rt,
        || {
            let end = run.ask_all(rt, shared, stops, lines);
            run.leave(rt, shared);
            flag.set(shared);
            end
        },
        || work(rt, shared, workers, flag),
    );
    match end {
        Ok(()) => Ok(()),
        Err(RunEnd::Differs | RunEnd::Stopped | RunEnd::Died) => Err(RunError::Damaged),
        Err(RunEnd::Fault(fault)) => Err(fault),
    }
}

// A client's tree is made as client 1 made the file system.
fn follow(run: &mut ClientRun<'_>, lines: &str) -> Result<(), RunError> {
    for line in lines.split('\n') {
        run.tree.follow(1, line)?;
    }
    Ok(())
}

/// Workers digest, each in a thread of its own, until the flag is set and nothing is left.
pub(crate) fn work<R: Threads + Wait + Sync>(
    rt: &R,
    shared: &SharedKernel<RunMedium>,
    workers: &mut [Worker<RunMedium>],
    stop: &StopFlag,
) {
    let go = |_: usize, worker: &mut Worker<RunMedium>| worker.run(rt, shared, stop, &OpenGate);
    thread::for_each_mut(rt, workers, 8, &go);
}

fn make_all_turns<R: Threads + Wait + Sync>(
    rt: &R,
    shared: &SharedKernel<RunMedium>,
    stops: &RegionStops,
    runs: &mut [ClientRun<'_>],
    workers: &mut [Worker<RunMedium>],
    options: &Options,
) {
    let stop = StopFlag::new();
    let flag = &stop;
    thread::join(
        rt,
        || {
            make_turns(rt, shared, stops, runs, options);
            flag.set(shared);
        },
        || thread::join(
            rt,
            || work(rt, shared, workers, flag),
            || run_migrator(rt, shared, flag),
        ),
    );
}

fn make_turns<R: Threads + Wait + Sync>(
    rt: &R,
    shared: &SharedKernel<RunMedium>,
    stops: &RegionStops,
    runs: &mut [ClientRun<'_>],
    options: &Options,
) {
    let go = |_: usize, run: &mut ClientRun<'_>| {
        if run.tree.number <= options.clients {
            run.make_turns(rt, shared, stops, options)
        }
    };
    thread::for_each_mut(rt, runs, 8, &go);
}

// The first client whose run ended before its last turn.
fn first_difference(trees: &[ClientTree]) -> Result<Option<Difference>, RunError> {
    for tree in trees {
        match tree.end {
            Some((turn, RunEnd::Differs)) => {
                return Ok(Some(Difference {
                    client: tree.number,
                    turn,
                }));
            }
            Some((_, RunEnd::Fault(fault))) => return Err(fault),
            Some((_, RunEnd::Stopped | RunEnd::Died)) | None => {}
        }
    }
    Ok(None)
}

fn compare_trees(
    world: &mut World<RunMedium>,
    trees: &mut [ClientTree],
    options: &Options,
) -> Result<Option<Difference>, RunError> {
    for tree in trees {
        if tree.number <= options.clients && !tree.is_in(world)? {
            return Ok(Some(Difference {
                client: tree.number,
                turn: options.turns,
            }));
        }
    }
    Ok(None)
}
