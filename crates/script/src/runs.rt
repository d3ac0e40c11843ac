// Runs of one byte.
ghost use Rattle.std.specs.Prelude.{◌≡◌, ◌≤◌, ◌<◌, ◌++◌, IfSome, OnOk, Some, is_some, option_map, take, length, vec_len};
ghost use Rattle.script.specs.Script.{run, all_runs, with_first, run_bytes};
ghost use Rattle.script.specs.Runs.{pair_of, run_seen};

use crate::hex::hex_byte;
use crate::number::number_of;
use crate::words::cut;
use posix_calls::MAX_TRANSFER;
use std::alloc::AllocError;

/// The most bytes that are made of a line: one more than a call may write, so that the call is answered as with all of them.
pub const MAX_DATA: usize = MAX_TRANSFER + 1;

/// A byte, and how often it stands.
#[derive(Clone, Copy)]
pub struct Run {
    pub byte: u8,
    pub count: u64,
}

/// Adds a run, as far as there is room for it.
pub fn push_run(bytes: &mut Vec<u8>, run: Run) -> Result<(), AllocError>
    requires { vec_len bytes.old ≤ MAX_DATA }
    ensures room { vec_len bytes.new ≤ MAX_DATA }
    ensures added { OnOk result (bytes.new.items ≡ take MAX_DATA (bytes.old.items ++ run_bytes (pair_of run))) }
{
    let len = bytes.len();
    let room = MAX_DATA - len;
    let count = run.count.min(room as u64) as usize;
    bytes.resize(len + count, run.byte)
}

/// Whether a text is runs joined by `+`.
pub fn are_runs(text: &[u8]) -> bool
    ensures { result ≡ is_some (all_runs (Some text.now)) }
{
    let mut rest = Some(text);
    while let Some(text) = rest {
        let Some((_, behind)) = first_run(text) else {
            return false;
        };
        rest = behind;
    }
    true
}

/// The first run, and what stands behind the `+` after it.
pub fn first_run(text: &[u8]) -> Option<(Run, Option<&[u8]>)>
    ensures runs { all_runs (Some text.now) ≡ with_first (option_map run_seen result) }
    ensures shorter { IfSome result (λ r. IfSome r.1 (λ behind. length behind.now < length text.now)) }
{
    match cut(text, b'+') {
        Some((part, behind)) => {
            let run = run_of(part)?;
            Some((run, Some(behind)))
        }
        None => {
            let run = run_of(text)?;
            Some((run, None))
        }
    }
}

fn run_of(text: &[u8]) -> Option<Run>
    ensures { option_map pair_of result ≡ run text.now }
{
    match text {
        [high, low, b'x', digits @ ..] => {
            let byte = hex_byte(*high, *low)?;
            let count = number_of(digits)?;
            if count < 1 {
                return None;
            }
            Some(Run { byte, count })
        }
        _ => None,
    }
}
