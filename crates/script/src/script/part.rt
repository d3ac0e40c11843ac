// The parts in which a line is read.
ghost use Rattle.std.specs.Prelude.{◌≡◌, ◌≤◌, ◌<◌, IfOk, length, take, slice_index, vec_len};
ghost use Rattle.script.specs.LineReads.{IsWithinLine};
ghost use Rattle.script.specs.Parts.{Adds};

use crate::run_error::RunError;
use std::io::{self, BufRead, ErrorKind};

/// The longest line of a script, in bytes, without its newline.
pub const MAX_LINE: usize = 1_048_576;

/// What a part of a line ends with.
#[derive(Clone, Copy)]
pub enum End {
    /// Nothing: the line goes on, and the reader has no more of it at hand.
    Open,
    /// Whether the reader has more at hand behind it.
    Newline { more: bool },
    Input,
    /// The line is longer than `MAX_LINE`.
    TooLong,
}

/// Moves what the reader has at hand of a line behind what is there of it.
pub fn add_part<R: BufRead>(reader: &mut R, line: &mut Vec<u8>) -> Result<End, RunError>
    requires { vec_len line.old ≤ MAX_LINE }
    ensures within { vec_len line.new ≤ MAX_LINE }
    ensures adds { IfOk result (Adds (R.remaining reader.old) (R.remaining reader.new) line.old.items line.new.items) }
{
    let shown = match reader.fill_buf() {
        Ok(shown) => shown,
        Err(error) => return go_on(error),
    };
    if shown.is_empty() {
        return Ok(End::Input);
    }
    let len = line_len(shown);
    if len > MAX_LINE - line.len() {
        return Ok(End::TooLong);
    }
    line.extend_from_slice(&shown[..len])?;
    if len < shown.len() {
        let more = len + 1 < shown.len();
        reader.consume(len + 1);
        return Ok(End::Newline { more });
    }
    reader.consume(len);
    Ok(End::Open)
}

// A read that a signal interrupted is tried again.
fn go_on(error: io::Error) -> Result<End, RunError>
    ensures { IfOk result (λ end. end ≡ End.Open) }
{
    match error.kind() {
        ErrorKind::Interrupted => Ok(End::Open),
        _ => Err(RunError::from(error)),
    }
}

// How many bytes stand before the first newline.
fn line_len(bytes: &[u8]) -> usize
    ensures bound { result ≤ length bytes.now }
    ensures before { IsWithinLine (take result bytes.now) }
    ensures newline { result < length bytes.now → slice_index bytes.now result ≡ 10 }
{
    let mut len = 0;
    while len < bytes.len() && bytes[len] != b'\n' {
        len += 1;
    }
    len
}
