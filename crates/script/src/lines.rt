// What is printed of bytes and names.
ghost use Rattle.std.specs.Prelude.{◌≡◌, ◌<◌, IfSome, length, option_map};
ghost use Rattle.script.specs.PrintRuns.{run_in_front};

use crate::{is_plain, run_len};
use std::io::{self, Write};

/// Bytes as runs of one byte each, `hhxN` joined by `+`, or `-` where there is none.
pub fn write_data<W: Write>(out: &mut W, bytes: &[u8]) -> io::Result<()> {
    let Some((byte, count, behind)) = first_run(bytes) else {
        return out.write_all(b"-");
    };
    write!(out, "{byte:02x}x{count}")?;
    write_more(out, behind)
}

// Further runs, each behind a `+`.
fn write_more<W: Write>(out: &mut W, bytes: &[u8]) -> io::Result<()> {
    let mut rest = bytes;
    while let Some((byte, count, behind)) = first_run(rest) {
        write!(out, "+{byte:02x}x{count}")?;
        rest = behind;
    }
    Ok(())
}

// The byte in front, how often it stands there in a row, and what stands behind.
fn first_run(bytes: &[u8]) -> Option<(u8, usize, &[u8])>
    ensures run { option_map (λ r. (r.0, r.1, r.2.now)) result ≡ run_in_front bytes.now }
    ensures shorter { IfSome result (λ r. length r.2.now < length bytes.now) }
{
    match bytes {
        [byte, rest @ ..] => {
            let more = run_len(*byte, rest);
            Some((*byte, more + 1, &rest[more..]))
        }
        [] => None,
    }
}

/// A name behind a space. Bytes from 0x21 to 0x7e but `%` stand as they are, all others as `%hh`.
pub fn write_name<W: Write>(out: &mut W, name: &[u8]) -> io::Result<()> {
    out.write_all(b" ")?;
    for byte in name {
        write_byte(out, *byte)?;
    }
    Ok(())
}

fn write_byte<W: Write>(out: &mut W, byte: u8) -> io::Result<()> {
    if is_plain(byte) {
        return out.write_all(&[byte]);
    }
    write!(out, "%{byte:02x}")
}
