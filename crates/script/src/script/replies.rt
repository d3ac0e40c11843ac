// What a script's calls are answered, as it is printed.
use crate::lines::{write_data, write_name};
use posix_calls::{Name, Reply};
use std::io::{self, Write};

/// Prints a reply as a line.
pub fn write_reply<W: Write>(out: &mut W, reply: &Reply) -> io::Result<()> {
    match reply {
        Reply::Read { bytes } => write_bytes(out, bytes.as_slice()),
        Reply::Listed { names } => write_listed(out, names.as_slice()),
        reply => write_short(out, reply),
    }
}

// A reply that has a length of its own.
fn write_short<W: Write>(out: &mut W, reply: &Reply) -> io::Result<()> {
    match reply {
        Reply::Opened { descriptor } => writeln!(out, "fd {descriptor}"),
        Reply::Wrote { count } => writeln!(out, "wrote {count}"),
        Reply::File { size, names } => writeln!(out, "file {size} {names}"),
        Reply::Dir { entries } => writeln!(out, "dir {entries}"),
        Reply::Failed { errno } => writeln!(out, "{}", errno.standard_name()),
        _ => writeln!(out, "ok"),
    }
}

fn write_bytes<W: Write>(out: &mut W, bytes: &[u8]) -> io::Result<()> {
    write!(out, "bytes {} ", bytes.len())?;
    write_data(out, bytes)?;
    out.write_all(b"\n")
}

fn write_listed<W: Write>(out: &mut W, names: &[Name]) -> io::Result<()> {
    out.write_all(b"names")?;
    for name in names {
        write_name(out, name.as_slice())?;
    }
    out.write_all(b"\n")
}
