// The rows of a table of scripts, one after the other.
use crate::difference::are_same;
use crate::report::Report;
use crate::row::Row;
use std::alloc::Global;

/// How a run ended, and what it printed.
#[derive(Drop)]
pub struct Ran {
    pub status: u8,
    pub out: Vec<u8>,
    pub err: Vec<u8>,
}

impl Ran {
    /// A run that printed nothing yet.
    pub fn new(alloc: Global) -> Self {
        Ran {
            status: 0,
            out: Vec::new(alloc),
            err: Vec::new(alloc),
        }
    }
}

/// Who runs the programs that rows name.
pub trait Programs {
    /// Runs the program that a row's words name, over the row's script. None where the row has patches, and that program begins from no image.
    fn run(&self, row: &Row<'_>) -> Option<Ran>;
}

/// Runs each row of a table, a row from a line `== NAME` to the next one, and writes of each that does not hold what differs, then how
/// many rows hold; whether all of them hold. What stands before the first row is for the reader.
pub fn run_rows<P: Programs>(
    alloc: Global,
    table: &str,
    programs: &P,
    report: &mut Report,
) -> bool {
    let (mut held, mut count) = (0u64, 0u64);
    if let Some((_, rows)) = table.split_once("\n== ") {
        for text in rows.split("\n== ") {
            count = count.saturating_add(1);
            if try_row(alloc, text, programs, report) {
                held = held.saturating_add(1);
            }
        }
    }
    report.say("", &held);
    report.say(" of ", &count);
    report.say(" rows hold\n", &"");
    held == count
}

fn try_row<P: Programs>(alloc: Global, text: &str, programs: &P, report: &mut Report) -> bool {
    let mut row = Row::new(alloc);
    row.read(text);
    if row.is_bad || row.script.is_bad || row.printed.is_bad {
        report.say(row.name, &": this row can't be read\n");
        return false;
    }
    let Some(ran) = programs.run(&row) else {
        report.say(
            row.name,
            &": no image of this row's program can be patched\n",
        );
        return false;
    };
    let is_printed = are_same(row.name, &ran.out, &row.printed.bytes, report);
    let is_ended = ends_so(&row, &ran, report);
    is_printed && is_ended
}

// Whether the status and the errors are those of the row.
fn ends_so(row: &Row<'_>, ran: &Ran, report: &mut Report) -> bool {
    if u64::from(ran.status) != row.status {
        report.say(row.name, &": the status is ");
        report.say("", &ran.status);
        report.say(" and was to be ", &row.status);
        report.say("\n", &"");
        return false;
    }
    let errors = str::from_utf8(&ran.err).unwrap_or("no text");
    if !is_error_line(errors, row.error) {
        report.say(row.name, &": standard error has ");
        report.say(errors, &"\n");
        return false;
    }
    true
}

// Whether errors are this one line, or have what stands behind two dots.
fn is_error_line(errors: &str, wanted: &str) -> bool {
    if let Some(part) = wanted.strip_prefix("..") {
        return errors.contains(part);
    }
    match errors.strip_suffix('\n') {
        Some(line) => line == wanted,
        None => errors.is_empty() && wanted.is_empty(),
    }
}
