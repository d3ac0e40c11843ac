// What the calls of a script need.
use crate::answer::write_answer;
use crate::fresh_parts::fresh_world;
use crate::need_notes::Noting;
use crate::script_media::ScriptMedium;
use crate::shell::answer_line;
use crate::system_queries::Running;
use call_driver::in_interleavings::World;
use call_driver::{CallResult, Events, serve_call};
use posix_calls::Call;
use script::{SystemLine, read_system_line, write_reply};
use std::alloc::Global;
use std::io::Write;
use world_files::{DEFAULT_SIZES, WorldFileError};

/// Answers a script over a fresh system. Before what a call is answered stands what it needed, need by need. It answers status 3 where there is no system.
pub fn run_needs(alloc: Global, script: &[u8], out: &mut Vec<u8>) -> u8 {
    match default_world(alloc) {
        Ok(world) => {
            answer_each(alloc, &mut Noting::new(alloc, world), script, out);
            0
        }
        Err(_) => 3,
    }
}

// The world with the empty tree, of the default sizes.
fn default_world(alloc: Global) -> Result<World<ScriptMedium>, WorldFileError> {
    let (world, _) = fresh_world(alloc, &DEFAULT_SIZES.geometry()?)?;
    Ok(world)
}

fn answer_each<S: Events + Running>(
    alloc: Global,
    system: &mut Noting<S>,
    script: &[u8],
    out: &mut Vec<u8>,
) {
    for text in script.split(is_newline) {
        match read_system_line(text) {
            Some(line) => answer(alloc, system, line, out),
            None => return,
        }
    }
}

fn is_newline(byte: &u8) -> bool {
    *byte == b'\n'
}

fn answer<S: Events + Running>(
    alloc: Global,
    system: &mut Noting<S>,
    line: SystemLine<'_>,
    out: &mut Vec<u8>,
) {
    match line {
        SystemLine::Call { client, call, .. } => {
            if let Ok(call) = call.to_call(alloc) {
                serve(system, client, call, out);
            }
        }
        line => {
            let answer = answer_line(alloc, &mut system.system, line);
            let _ = write_answer(out, &answer);
        }
    }
}

fn serve<S: Events + Running>(system: &mut Noting<S>, client: u32, call: Call, out: &mut Vec<u8>) {
    let served = serve_call(system, client, call, true);
    let _ = out.write_all(&system.notes);
    system.notes.clear();
    if let CallResult::Reply(reply) = served {
        let _ = write_reply(out, &reply);
    }
}
