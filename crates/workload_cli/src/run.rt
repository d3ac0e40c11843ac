// A run of `strata_sh`.
ghost use Rattle.std.specs.Prelude.{◌≡◌, true, ℕ, List, Option, Some, IfNone, IfSome, OnOk};
ghost use Rattle.script.specs.LineValues.{system_line_seen};
ghost use Rattle.script.specs.SystemLines.{system_line};
ghost use Rattle.workload_cli.specs.ImageRuns.{IsImageRun, IsKeptBehind, KeepsImageOf};
ghost use Rattle.workload_cli.specs.Script.{EndsAt, IsAnsweredTo, IsNotTaken};

use crate::answer::{Answer, write_answer};
use crate::faults::world_fault;
use crate::fresh_parts::format_world;
use crate::image::{image_world, patched_world, world_image};
use crate::image_home::{FileHome, ImageHome};
use crate::options::{Home, Options, read_options};
use crate::resting::Resting;
use crate::rows::run_table;
use crate::script_media::{ScriptMedium, Trips};
use crate::script_world::ScriptWorld;
use crate::session::Session;
use program_runs::{tell, tell_fault};
use script::{RunError, ScriptError, ScriptLines, SystemLine, read_system_line};
use std::alloc::Global;
use std::io::{BufRead, Write};
use tier_device::{FaultMedia, Media, StopMedia};
use world_files::in_area_recovery::RecoveryError;
use world_files::in_host_media::FileMedia;
use world_files::{ImageFile, WorldFileError, WorldSizes, open_disk, structure_name};

/// Runs `strata_sh`: the lines of a script are answered one after the other, over a kernel and eight clients on fresh media. The first word is the program's name; `--units`, `--fast`, `--block` and `--slow` say
/// how large the media are.
///
/// A line that is unreadable ends the run, with `line N: unreadable` on `err`. Only the line at hand is kept in memory, in `MAX_LINE` bytes that are taken before the first. Where memory is wanting later, the
/// line's answer says so and the run goes on. What was printed is flushed whenever the reader has nothing at hand, so that no answer waits for more of the script.
///
/// With `--echo` each line is printed before its answer.
///
/// With `--explain` a fault that leaves no world is explained before it, on a line of its own: the structure and its place, or the rule that the sizes break.
///
/// With `--rows` the input is a table of scripts, each with what it is to print: each is run over fresh media, and what differs is printed.
///
/// Answers the exit status: 0 at the end, 1 where a row of a table does not hold, 2 where the words or a line can't be read, 3 after a fault; the last two with a line on `err`. Sizes that no media have are
/// `fault 3`. All that was printed is flushed before.
pub fn run_sh<'a, R: BufRead + Drop, O: Write, E: Write>(
    rt: &HostRuntime,
    words: &'a [&'a str],
    mut reader: R,
    out: &mut O,
    err: &mut E,
) -> u8 {
    match read_options(rt.alloc(), words) {
        Ok(options) if options.is_table => end_table(run_table(rt, &mut reader, out), out, err),
        Ok(options) => run_script(rt, &options, reader, out, err),
        Err(error) => tell(error, out, err),
    }
}

/// Runs a script by the options of a command line, and answers the exit status.
pub fn run_script<R: BufRead + Drop, O: Write, E: Write>(
    rt: &HostRuntime,
    options: &Options<'_>,
    reader: R,
    out: &mut O,
    err: &mut E,
) -> u8 {
    let end = match ScriptLines::new(rt.alloc(), reader) {
        Ok(lines) => run(rt, options, lines, &mut Streams { out, err }),
        Err(error) => Err(ScriptError::from(error)),
    };
    tell_end(flush_output(end, out), err)
}

// Prints how a table ended, and answers the exit status.
fn end_table<O: Write, E: Write>(end: Result<bool, RunError>, out: &mut O, err: &mut E) -> u8 {
    match end {
        Ok(hold) => match tell_end(flush_output(Ok(()), out), err) {
            0 if !hold => 1,
            status => status,
        },
        Err(fault) => tell_end(flush_output(Err(ScriptError::Run(fault)), out), err),
    }
}

// Prints why a run ended before the end of its script, and answers the exit status.
fn tell_end<E: Write>(end: Result<(), ScriptError>, err: &mut E) -> u8 {
    match end {
        Ok(()) => 0,
        Err(ScriptError::Unreadable(number)) => {
            let _ = writeln!(err, "line {number}: unreadable");
            2
        }
        Err(ScriptError::Run(fault)) => tell_fault(fault, err),
    }
}

// Flushes what was printed. A fault of the run comes before one of the flush.
fn flush_output<O: Write>(end: Result<(), ScriptError>, out: &mut O) -> Result<(), ScriptError> {
    let flush = out.flush();
    if let Err(ScriptError::Run(fault)) = end {
        return Err(ScriptError::Run(fault));
    }
    match flush {
        Ok(()) => end,
        Err(error) => Err(ScriptError::Run(RunError::from(error))),
    }
}

// Where answers are printed, and faults.
#[derive(Drop)]
struct Streams<'a, O, E> {
    out: &'a mut O,
    err: &'a mut E,
}

fn run<R: BufRead + Drop, O: Write, E: Write>(
    rt: &HostRuntime,
    options: &Options<'_>,
    lines: ScriptLines<R>,
    streams: &mut Streams<'_, O, E>,
) -> Result<(), ScriptError> {
    let alloc = rt.alloc();
    match options.home {
        Home::Image(path) => run_image(rt, path, options, lines, streams),
        Home::Nowhere => {
            let opened = format_world(alloc, options.sizes);
            run_over(alloc, options, lines, streams, opened)
        }
        Home::Patched(patches) => {
            let opened = patched_world(alloc, options.sizes, patches);
            run_over(alloc, options, lines, streams, opened)
        }
        Home::Disk(path) => {
            let opened = disk_world(rt, path, options.sizes);
            run_over(alloc, options, lines, streams, opened)
        }
    }
}

// Answers the lines over what was opened.
fn run_over<S: Session + Drop, R: BufRead + Drop, O: Write, E: Write>(
    alloc: Global,
    options: &Options<'_>,
    lines: ScriptLines<R>,
    streams: &mut Streams<'_, O, E>,
    opened: Result<S, WorldFileError>,
) -> Result<(), ScriptError> {
    match opened {
        Ok(session) => {
            let (mut lines, mut session) = (lines, session);
            answer_all(alloc, &mut session, &mut lines, options.echoes, streams.out)
        }
        Err(error) => Err(explained_fault(&error, options, streams.err)),
    }
}

fn run_image<R: BufRead + Drop, O: Write, E: Write>(
    rt: &HostRuntime,
    path: &str,
    options: &Options<'_>,
    lines: ScriptLines<R>,
    streams: &mut Streams<'_, O, E>,
) -> Result<(), ScriptError> {
    match ImageFile::open(rt, rt.alloc(), path) {
        Ok(file) => {
            let home = FileHome { rt, path, file };
            run_over_image(rt.alloc(), &home, &home.file, options, lines, streams)
        }
        Err(error) => Err(explained_fault(&error, options, streams.err)),
    }
}

// Begins with what an image file holds, answers the lines, and keeps the world where its home is.
fn run_over_image<H: ImageHome, R: BufRead + Drop, O: Write, E: Write>(
    alloc: Global,
    home: &H,
    file: &ImageFile,
    options: &Options<'_>,
    lines: ScriptLines<R>,
    streams: &mut Streams<'_, O, E>,
) -> Result<(), ScriptError>
    ensures { OnOk result (IsImageRun ⟦<FaultMedia<StopMedia> as Media>⟧ (⟦<FaultMedia<StopMedia> as Resting>⟧.holds) ⟦<ScriptWorld<FaultMedia<StopMedia>> as Session>⟧ (H.keeps home.now) file.now options.now.sizes lines.left) }
{
    match image_world(alloc, file, options.sizes) {
        Ok(session) => answer_over_image(alloc, home, session, options, lines, streams),
        Err(error) => Err(explained_fault(&error, options, streams.err)),
    }
}

// Answers the lines, and then keeps the world.
fn answer_over_image<H: ImageHome, R: BufRead + Drop, O: Write, E: Write>(
    alloc: Global,
    home: &H,
    session: ScriptWorld<ScriptMedium>,
    options: &Options<'_>,
    lines: ScriptLines<R>,
    streams: &mut Streams<'_, O, E>,
) -> Result<(), ScriptError>
    ensures { OnOk result (IsKeptBehind ⟦<FaultMedia<StopMedia> as Media>⟧ (⟦<FaultMedia<StopMedia> as Resting>⟧.holds) ⟦<ScriptWorld<FaultMedia<StopMedia>> as Session>⟧ (H.keeps home.now) lines.left session) }
{
    let (mut lines, mut session) = (lines, session);
    match answer_all(alloc, &mut session, &mut lines, options.echoes, streams.out) {
        Ok(()) => keep_image(alloc, home, session, options, streams.err),
        Err(error) => Err(error),
    }
}

fn keep_image<H: ImageHome, E: Write>(
    alloc: Global,
    home: &H,
    session: ScriptWorld<ScriptMedium>,
    options: &Options<'_>,
    err: &mut E,
) -> Result<(), ScriptError>
    ensures { OnOk result (KeepsImageOf ⟦<FaultMedia<StopMedia> as Media>⟧ (⟦<FaultMedia<StopMedia> as Resting>⟧.holds) (H.keeps home.now) session) }
{
    match save_world(alloc, home, session) {
        Ok(()) => Ok(()),
        Err(error) => Err(explained_fault(&error, options, err)),
    }
}

// Keeps what the media of a world hold.
fn save_world<H: ImageHome>(
    alloc: Global,
    home: &H,
    session: ScriptWorld<ScriptMedium>,
) -> Result<(), WorldFileError>
    ensures { OnOk result (KeepsImageOf ⟦<FaultMedia<StopMedia> as Media>⟧ (⟦<FaultMedia<StopMedia> as Resting>⟧.holds) (H.keeps home.now) session) }
{
    let bytes = world_image(alloc, session)?;
    home.keep(alloc, bytes.as_slice())
}

// The session over a world that a file keeps.
fn disk_world(
    rt: &HostRuntime,
    path: &str,
    sizes: WorldSizes,
) -> Result<ScriptWorld<FileMedia>, WorldFileError> {
    let trips = Trips::new(rt.alloc())?;
    Ok(ScriptWorld::new(open_disk(rt, rt.alloc(), path, sizes)?, trips, false))
}

// Prints why there is no world: what is damaged with its place, or else the error.
fn explain<E: Write>(error: &WorldFileError, err: &mut E) {
    let _ = match error {
        WorldFileError::Recovery(RecoveryError::Damaged { structure, block }) => {
            writeln!(
                err,
                "damaged {} in block {block}",
                structure_name(*structure)
            )
        }
        _ => writeln!(err, "{error}"),
    };
}

// The fault of a run whose world can't be opened or kept, explained before it where the words ask for that.
fn explained_fault<E: Write>(
    error: &WorldFileError,
    options: &Options<'_>,
    err: &mut E,
) -> ScriptError {
    if options.explains {
        explain(error, err);
    }
    ScriptError::Run(world_fault(error))
}

// Answers the lines in their order, each once, up to the end of the script or a fault.
fn answer_all<S: Session, R: BufRead + Drop, O: Write>(
    alloc: Global,
    session: &mut S,
    lines: &mut ScriptLines<R>,
    echoes: bool,
    out: &mut O,
) -> Result<(), ScriptError>
    ensures { (behind : Option (List ℕ)) × IsAnsweredTo S.answers S.takes lines.old.left session.old behind session.new × EndsAt (S.takes session.new) result behind }
{
    for _ in 0..u64::MAX {
        if !lines.read_next(out)? {
            return Ok(());
        }
        let text = lines.line();
        match taken_line(session, text) {
            Some(line) => print_answer(out, echoes, text, &session.answer(alloc, line))?,
            None => return Err(lines.unreadable_line()),
        }
    }
    Err(ScriptError::Run(RunError::Device))
}

// What a line asks; none where it can't be read, or may not stand in a script here.
fn taken_line<'a, S: Session>(session: &S, text: &'a [u8]) -> Option<SystemLine<'a>>
    ensures some { IfSome result (λ line. (system_line text.now ≡ Some (system_line_seen line)) × (S.takes session.now (system_line_seen line) ≡ true)) }
    ensures none { IfNone result (IsNotTaken (S.takes session.now) (system_line text.now)) }
{
    match read_system_line(text) {
        Some(line) => {
            if session.takes(&line) {
                Some(line)
            } else {
                None
            }
        }
        None => None,
    }
}

// Prints an answer, behind its line where lines are printed too.
fn print_answer<O: Write>(
    out: &mut O,
    echoes: bool,
    line: &[u8],
    answer: &Answer,
) -> Result<(), RunError> {
    if echoes {
        out.write_all(line)?;
        out.write_all(b"\n")?;
    }
    write_answer(out, answer)?;
    Ok(())
}
