// A table of scripts, each with what it prints.
use crate::needs::run_needs;
use crate::options::{Home, Options, read_options};
use crate::run::run_script;
use program_runs::{Patch, Programs, Ran, Report, Row, run_rows, tell};
use script::RunError;
use std::io::{BufReader, Read, Write};

// The script comes by so few bytes at a time, so that lines are cut everywhere.
const AT_A_TIME: usize = 7;

/// Runs each script of a table, each over a fresh system, and prints what differs from what the table has; whether nothing does.
pub fn run_table<R: Read, O: Write>(
    rt: &HostRuntime,
    reader: &mut R,
    out: &mut O,
) -> Result<bool, RunError> {
    let alloc = rt.alloc();
    let mut table = String::new(alloc);
    reader.read_to_string(&mut table)?;
    let mut report = Report::new(alloc);
    let hold = run_rows(alloc, &table, &Shell { rt }, &mut report);
    out.write_all(report.as_str().as_bytes())?;
    Ok(hold)
}

// The shell, by the words of a row. With `needs` in place of the program's name each call prints what it needs.
#[derive(Clone, Copy)]
struct Shell<'a> {
    rt: &'a HostRuntime,
}

impl Programs for Shell<'_> {
    fn run(&self, row: &Row<'_>) -> Option<Ran> {
        let mut ran = Ran::new(row.alloc);
        ran.status = if row.words.first().copied() != Some("needs") {
            run_row(self.rt, row, &mut ran.out, &mut ran.err)?
        } else if row.patches.is_empty() {
            run_needs(row.alloc, &row.script.bytes, &mut ran.out)
        } else {
            return None;
        };
        Some(ran)
    }
}

fn run_row(rt: &HostRuntime, row: &Row<'_>, out: &mut Vec<u8>, err: &mut Vec<u8>) -> Option<u8> {
    match read_options(row.alloc, &row.words) {
        Ok(options) => {
            let options = patched_options(options, &row.patches)?;
            Some(run_lines(rt, row, &options, out, err))
        }
        Err(error) => Some(tell(error, out, err)),
    }
}

// The options of a run that begins with these bytes put in; none where its world is kept in a file.
fn patched_options<'a>(options: Options<'a>, patches: &'a [Patch]) -> Option<Options<'a>> {
    let mut options = options;
    if patches.is_empty() {
        return Some(options);
    }
    match options.home {
        Home::Nowhere => {
            options.home = Home::Patched(patches);
            Some(options)
        }
        _ => None,
    }
}

fn run_lines(
    rt: &HostRuntime,
    row: &Row<'_>,
    options: &Options<'_>,
    out: &mut Vec<u8>,
    err: &mut Vec<u8>,
) -> u8 {
    match BufReader::with_capacity(row.alloc, AT_A_TIME, row.script.bytes.as_slice()) {
        Ok(reader) => run_script(rt, options, reader, out, err),
        Err(_) => 3,
    }
}
