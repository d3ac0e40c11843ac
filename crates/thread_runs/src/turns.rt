//! The turns of a client, as lines of a script. It has one file open at a time, under descriptor 0.
use std::alloc::{AllocError, Global};

// Where a turn writes, and to what length it cuts: below this.
const LENGTH: u64 = 8_192;

/// The lines of a turn. What the turn is was drawn, and which name it is about.
pub(crate) fn turn_lines(
    alloc: Global,
    client: u32,
    turn: u64,
    what: u64,
    which: u64,
) -> Result<String, AllocError> {
    let name = which % 4;
    match what % 8 {
        0 => format!(in alloc; "{client} mkdir /c{client}/d{name}"),
        1 => format!(in alloc; "{client} rmdir /c{client}/d{name}"),
        4 => format!(in alloc; "{client} truncate /c{client}/f{name} {}", which % LENGTH),
        6 => format!(in alloc; "{client} unlink /c{client}/g{name}"),
        _ => file_lines(alloc, client, turn, what, which),
    }
}

fn file_lines(
    alloc: Global,
    client: u32,
    turn: u64,
    what: u64,
    which: u64,
) -> Result<String, AllocError> {
    let name = which % 4;
    let file = format!(in alloc; "/c{client}/f{name}")?;
    match what % 8 {
        2 => {
            format!(in alloc;
                "{client} open {file} rwc\n{client} pwrite 0 {} {:02x}x16\n{client} close 0",
                which % LENGTH,
                turn % 256
            )
        }
        3 => format!(in alloc; "{client} open {file} r\n{client} pread 0 0 64\n{client} close 0"),
        5 => format!(in alloc; "{client} link {file} /c{client}/g{name}"),
        _ => format!(in alloc; "{client} rename {file} /c{client}/f{}", (name + 1) % 4),
    }
}

/// The lines by which a client writes its place of the file that all clients write, and reads it back.
pub(crate) fn log_lines(alloc: Global, client: u32, turn: u64) -> Result<String, AllocError> {
    let at = 16 * (client as u64).saturating_sub(1);
    format!(in alloc;
        "{client} open /s/log rw\n{client} pwrite 0 {at} {:02x}x16\n{client} pread 0 {at} 16\n{client} close 0",
        turn % 256
    )
}

/// The lines by which client 1 makes what the clients work in.
pub(crate) fn opening_lines(alloc: Global, clients: u32) -> Result<String, AllocError> {
    let mut lines = String::from_str(alloc, "1 mkdir /s\n1 open /s/log rwc\n1 close 0")?;
    for before in 0..clients {
        write!(lines, "\n1 mkdir /c{}", before + 1)?;
    }
    Ok(lines)
}

/// The line that reads a client's place of the file that all clients write.
pub(crate) fn log_line(alloc: Global, client: u32) -> Result<String, AllocError> {
    let at = 16 * (client as u64).saturating_sub(1);
    format!(in alloc; "1 pread 0 {at} 16")
}

/// The lines that ask for all that a client's tree has in its own directory. They change nothing.
pub(crate) fn tree_lines(alloc: Global, client: u32) -> Result<String, AllocError> {
    let mut lines = format!(in alloc; "1 list /c{client}")?;
    for name in 0..4u64 {
        add_name_lines(&mut lines, client, name)?;
    }
    Ok(lines)
}

fn add_name_lines(lines: &mut String, client: u32, name: u64) -> Result<(), AllocError> {
    write!(
        lines,
        "\n1 stat /c{client}/d{name}\n1 stat /c{client}/f{name}\n1 stat /c{client}/g{name}"
    )?;
    write!(
        lines,
        "\n1 open /c{client}/f{name} r\n1 pread 0 0 8208\n1 close 0"
    )
}
