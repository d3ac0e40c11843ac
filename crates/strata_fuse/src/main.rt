//! Serves a mount: the messages of the FUSE protocol come on standard input, and each reply goes out by one write. The world lives in a
//! file. `tools/strata_mount` mounts a folder, and starts it; `strata_fuse --help` lists the options.
#![tactic(auto)]

mod mount_tree;
mod options;
mod run;
mod time_of_day;

use crate::run::run_fuse;
use program_runs::run_program;
use std::process::ExitCode;

fn main(rt: HostRuntime) -> ExitCode {
    run_program(&rt, &mut rt.stderr(), |words| {
        Ok(run_fuse(
            &rt,
            words,
            &mut rt.stdin(),
            &mut rt.stdout(),
            &mut rt.stderr(),
        ))
    })
}
