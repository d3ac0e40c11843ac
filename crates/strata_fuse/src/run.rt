// A run of `strata_fuse`.
use crate::mount_tree::MountTree;
use crate::options::{Options, read_options};
use crate::time_of_day::TimeOfDay;
use fuse_server::{StreamError, serve_stream};
use program_runs::tell;
use std::io::{Read, Write};
use world_files::{WorldFileError, open_disk};

/// Runs `strata_fuse`: the messages of the input are answered by the world that lives in the file which the words name. The first word is
/// the program's name.
///
/// Answers the exit status: 0 at the end, 2 where the words can't be read, 3 where the file can't be used, or a message can't be read
/// or answered; the last two with a line on `err`.
pub fn run_fuse<'a, R: Read, O: Write, E: Write>(
    rt: &HostRuntime,
    words: &'a [&'a str],
    input: &mut R,
    output: &mut O,
    err: &mut E,
) -> u8 {
    match read_options(rt.alloc(), words) {
        Ok(options) => match open_tree(rt, &options) {
            Ok(tree) => end_status(serve(rt, &options, tree, input, output), err),
            Err(error) => tell_unusable(&error, options.disk, err),
        },
        Err(error) => tell(error, output, err),
    }
}

fn open_tree(rt: &HostRuntime, options: &Options<'_>) -> Result<MountTree, WorldFileError> {
    let world = open_disk(rt, rt.alloc(), options.disk, options.sizes)?;
    Ok(MountTree::new(rt.alloc(), world, options.client))
}

fn serve<R: Read, O: Write>(
    rt: &HostRuntime,
    options: &Options<'_>,
    tree: MountTree,
    input: &mut R,
    output: &mut O,
) -> Result<(), StreamError> {
    let mut tree = tree;
    let clock = TimeOfDay {
        rt,
        still: options.clock,
    };
    serve_stream(rt.alloc(), &clock, options.owner, &mut tree, input, output)
}

fn end_status<E: Write>(end: Result<(), StreamError>, err: &mut E) -> u8 {
    match end {
        Ok(()) => 0,
        Err(error) => {
            let _ = writeln!(err, "strata_fuse: {error}");
            3
        }
    }
}

fn tell_unusable<E: Write>(error: &WorldFileError, path: &str, err: &mut E) -> u8 {
    let _ = writeln!(err, "strata_fuse: {path}: {error}");
    3
}
