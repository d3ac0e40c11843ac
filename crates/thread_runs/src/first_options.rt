// The words of `strata_first`.
ghost use Rattle.command_line.specs.Options.{Asks};
ghost use Rattle.thread_runs.specs.StopWords.{HasBadStop, IsStopIn, first};

use crate::region_stops::RegionStop;
use crate::stop_words::{FILL, STOP, stop_in};
use command_line::{Program, WordsError, read_words};
use std::alloc::Global;

const FIRST: Program = Program {
    name: "strata_first",
    about: "Two clients log a call each, the run stops, and a recovery shows what was kept",
    usage: "strata_first [--stop K --fill HH]",
    after_help: None,
};

/// Reads the stop that the words of `strata_first` ask for, if they ask for one. The first word is the program's name.
///
/// Refused where `clap` finds a fault in the words, or they ask for help, as `stop_in` is, and where memory is wanting.
pub(crate) fn first_stop<'a>(
    alloc: Global,
    words: &'a [&'a str],
) -> Result<Option<RegionStop>, WordsError>
    ensures { Asks first words.entry.now IsStopIn HasBadStop result }
{
    let matches = read_words(alloc, FIRST, &[STOP, FILL], words)?;
    stop_in(&matches)
}
