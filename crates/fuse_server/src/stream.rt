// Messages come in, one after the other, and replies go out.
use crate::owner::Owner;
use crate::server::{ServeError, Server};
use fuse_wire::{MAX_MESSAGE, WireError, message_length};
use mount_nodes::Tree;
use std::alloc::{AllocError, Global};
use std::io::{self, ErrorKind, Read, Write};
use std::time::Clock;
use thiserror::Error;

/// ENODEV: the mount has ended.
const NO_DEVICE: i32 = 19;

/// Why a mount is served no more.
#[derive(Debug, Drop, Error)]
pub enum StreamError {
    #[error("a message can't be read: {0}")]
    Input(io::Error),
    #[error("a reply can't be written: {0}")]
    Output(io::Error),
    #[error("{0}")]
    Message(WireError),
    #[error("the input ends within a message")]
    CutOff,
    #[error("the time of day can't be read: {0}")]
    Clock(io::Error),
    #[error("out of memory")]
    Memory,
}

impl From<AllocError> for StreamError {
    fn from(_error: AllocError) -> StreamError {
        StreamError::Memory
    }
}

/// Bytes that came and are not served yet, and when they came. Each read is offered room for the longest message, as the kernel's device
/// wants it, which hands out one message a read; a pipe may hand out several, or parts.
#[derive(Drop)]
struct Inbox<'a, C: Clock> {
    clock: &'a C,
    bytes: Vec<u8>,
    len: usize,
}

/// Serves a mount: each message that comes is answered by one write, in their order, up to the end of the input or of the mount. Behind
/// each reply the tree does what it would in idle time.
///
/// A reply for which nobody waits any more is dropped. Refused where the input ends within a message or has what is no message, where
/// a device fails, where the clock can't be read as the mount begins, and where memory is wanting for a refusal. What was answered is kept
/// all the same.
pub fn serve_stream<T: Tree, C: Clock, R: Read, W: Write>(
    alloc: Global,
    clock: &C,
    owner: Owner,
    tree: &mut T,
    input: &mut R,
    output: &mut W,
) -> Result<(), StreamError> {
    match time_of_day(clock) {
        Ok(now) => {
            let mut server = Server::new(alloc, now, owner)?;
            let mut inbox = Inbox::new(alloc, clock)?;
            serve_input(alloc, &mut server, tree, &mut inbox, input, output)
        }
        Err(error) => Err(StreamError::Clock(error)),
    }
}

// The time of day, in nanoseconds from the beginning of 1970 on.
fn time_of_day<C: Clock>(clock: &C) -> io::Result<u64> {
    let time = clock.since_1970()?;
    Ok(time.as_nanos().min(u64::MAX as u128) as u64)
}

// Makes room for a reply, and serves. Who owns it lends it on: the check of borrows grows with what a function owns.
fn serve_input<T: Tree, C: Clock, R: Read, W: Write>(
    alloc: Global,
    server: &mut Server,
    tree: &mut T,
    inbox: &mut Inbox<'_, C>,
    input: &mut R,
    output: &mut W,
) -> Result<(), StreamError> {
    let mut reply = Vec::with_capacity(alloc, MAX_MESSAGE)?;
    serve_messages(server, tree, inbox, &mut reply, input, output)
}

// Reads and serves, up to the end of the input or of the mount.
fn serve_messages<T: Tree, C: Clock, R: Read, W: Write>(
    server: &mut Server,
    tree: &mut T,
    inbox: &mut Inbox<'_, C>,
    reply: &mut Vec<u8>,
    input: &mut R,
    output: &mut W,
) -> Result<(), StreamError> {
    for _ in 0..u64::MAX {
        if !inbox.receive(input)? {
            return inbox.end();
        }
        serve_inbox(server, tree, inbox, reply, output)?;
    }
    Ok(())
}

// Serves each whole message that came, at the time of day; where the clock can't be read, at the time that was seen last.
fn serve_inbox<T: Tree, C: Clock, W: Write>(
    server: &mut Server,
    tree: &mut T,
    inbox: &mut Inbox<'_, C>,
    reply: &mut Vec<u8>,
    output: &mut W,
) -> Result<(), StreamError> {
    if let Ok(now) = time_of_day(inbox.clock) {
        server.see_time(now);
    }
    let mut at = 0;
    for _ in 0..inbox.len {
        let len = serve_first(server, tree, inbox.bytes_from(at), reply, output)?;
        if len == 0 {
            break;
        }
        at = at.saturating_add(len);
        tree.use_idle_time();
    }
    inbox.drop_front(at);
    Ok(())
}

// Serves the first whole message of these bytes, and answers its length, which is 40 at least: 0 where its end is still to come.
fn serve_first<T: Tree, W: Write>(
    server: &mut Server,
    tree: &mut T,
    bytes: &[u8],
    reply: &mut Vec<u8>,
    output: &mut W,
) -> Result<usize, StreamError> {
    match next_message(bytes) {
        Ok(Some(message)) => {
            serve_message(server, tree, message, reply, output)?;
            Ok(message.len())
        }
        Ok(None) => Ok(0),
        Err(error) => Err(StreamError::Message(error)),
    }
}

fn serve_message<T: Tree, W: Write>(
    server: &mut Server,
    tree: &mut T,
    message: &[u8],
    reply: &mut Vec<u8>,
    output: &mut W,
) -> Result<(), StreamError> {
    match server.answer(tree, message, reply) {
        Ok(()) => write_reply(output, reply),
        Err(ServeError::Message(error)) => Err(StreamError::Message(error)),
        Err(ServeError::Memory) => Err(StreamError::Memory),
    }
}

// The first whole message of these bytes; none where its end is still to come.
fn next_message(bytes: &[u8]) -> Result<Option<&[u8]>, WireError> {
    match message_length(bytes)? {
        Some(len) => Ok(bytes.get(..len)),
        None => Ok(None),
    }
}

// Writes a reply, if there is one, by one write; the rest of it, where a pipe takes a part.
fn write_reply<W: Write>(output: &mut W, reply: &[u8]) -> Result<(), StreamError> {
    let mut rest = reply;
    for _ in 0..u64::MAX {
        if rest.is_empty() {
            return Ok(());
        }
        match output.write(rest) {
            Ok(count) => rest = rest.get(count..).unwrap_or(&[]),
            Err(error) => match error.kind() {
                ErrorKind::Interrupted => {}
                ErrorKind::NotFound => return Ok(()),
                _ => return Err(StreamError::Output(error)),
            },
        }
    }
    Ok(())
}

impl<'a, C: Clock> Inbox<'a, C> {
    fn new(alloc: Global, clock: &'a C) -> Result<Self, AllocError> {
        Ok(Inbox {
            clock,
            bytes: vec![in alloc; 0u8; 2 * MAX_MESSAGE]?,
            len: 0,
        })
    }

    // What came, from an offset on.
    fn bytes_from(&self, at: usize) -> &[u8] {
        match self.bytes.get(..self.len) {
            Some(bytes) => bytes.get(at..).unwrap_or(&[]),
            None => &[],
        }
    }

    // Where what comes next is read to.
    fn room(&mut self) -> &mut [u8] {
        let len = self.len.min(self.bytes.len());
        &mut self.bytes[len..]
    }

    // Reads what comes next. It answers whether something came: nothing does at the end of the input, and of the mount.
    fn receive<R: Read>(&mut self, input: &mut R) -> Result<bool, StreamError> {
        for _ in 0..u64::MAX {
            match input.read(self.room()) {
                Ok(count) => {
                    self.len = self.len.saturating_add(count);
                    return Ok(count > 0);
                }
                Err(error) if error.raw_os_error() == Some(NO_DEVICE) => return Ok(false),
                Err(error) => match error.kind() {
                    ErrorKind::Interrupted | ErrorKind::NotFound | ErrorKind::WouldBlock => {}
                    _ => return Err(StreamError::Input(error)),
                },
            }
        }
        Ok(false)
    }

    // Drops what was served, and moves what is left to the front.
    fn drop_front(&mut self, count: usize) {
        if count <= self.len && self.len <= self.bytes.len() {
            self.bytes.copy_within(count..self.len, 0);
            self.len -= count;
        }
    }

    // The end of the input, which may not come within a message.
    fn end(&self) -> Result<(), StreamError> {
        if self.len > 0 {
            return Err(StreamError::CutOff);
        }
        Ok(())
    }
}
