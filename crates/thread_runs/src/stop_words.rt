// The words that ask for a stop of the regions: `--stop K --fill HH`.
ghost use Rattle.std.specs.Prelude.{◌≡◌, ◌⊎◌, IfErr, IfOk, None, Some};
ghost use Rattle.command_line.specs.Options.{IsValue, rows};
ghost use Rattle.thread_runs.specs.StopWords.{HasBadStop, IsStopIn, fill_in};

use crate::region_stops::RegionStop;
use command_line::{OptionMatches, OptionValue, ProgramOption, WordsError};
use script::hex_byte;

/// The option by which regions stop.
pub(crate) const STOP: ProgramOption = ProgramOption {
    name: "stop",
    value: OptionValue::Number64 { least: 1 },
    value_name: "K",
    help: "Stop each region within its K-th write or fence, K from 1 on",
};

/// The option that says what a stop leaves.
pub(crate) const FILL: ProgramOption = ProgramOption {
    name: "fill",
    value: OptionValue::Text,
    value_name: "HH",
    help: "What each byte that was written and not fenced then holds: two digits of 0 to 9 and a to f",
};

/// The stop that the words ask for, if they ask for one.
///
/// Refused where `--stop` and `--fill` do not stand together, and where one has no value of its form.
pub(crate) fn stop_in(matches: &OptionMatches<'_>) -> Result<Option<RegionStop>, WordsError>
    ensures read { IfOk result (IsStopIn (rows matches.now)) }
    ensures refused { IfErr result (λ e. IsValue e × HasBadStop (rows matches.now)) }
{
    match (matches.number64("stop")?, matches.text("fill")) {
        (None, None) => Ok(None),
        (Some(call), Some(digits)) => Ok(Some(stop_of(call, digits)?)),
        _ => Err(WordsError::Value("--stop K and --fill HH go together")),
    }
}

fn stop_of(call: u64, digits: &str) -> Result<RegionStop, WordsError>
    ensures read { IfOk result (λ stop. (stop.call ≡ call) × (fill_in digits.now ≡ Some stop.byte)) }
    ensures refused { IfErr result (λ e. IsValue e × ((call ≡ 0) ⊎ (fill_in digits.now ≡ None))) }
{
    let Some(byte) = fill_of(digits.as_bytes()) else {
        return Err(WordsError::Value("--fill takes two digits of 0 to 9 and a to f, as --fill a5"));
    };
    if call < 1 {
        return Err(WordsError::Value("--stop takes a number from 1 on"));
    }
    Ok(RegionStop { call, byte })
}

// The byte of two digits.
fn fill_of(digits: &[u8]) -> Option<u8>
    ensures { result ≡ fill_in digits.now }
{
    match digits {
        [high, low] => hex_byte(*high, *low),
        _ => None,
    }
}
