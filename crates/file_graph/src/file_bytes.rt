ghost use Rattle.std.specs.Prelude.{◌≡◌, ◌==◌, ◌≤◌, ◌<◌, ◌^◌, ◌+◌, ◌++◌, length, take, drop, [], OnOk, OnErr};
ghost use Rattle.posix_calls.specs.Content.{with_length, with_bytes};

use std::alloc::{AllocError, Global};
use std::marker::Model;

/// The bytes of a file. Contracts see them as their list.
#[derive(Drop)]
pub struct FileBytes {
    bytes: Vec<u8>,
}

impl Model for FileBytes {
    ghost use Rattle.std.specs.Prelude.{ℕ, List};

    ghost Value = { List ℕ };

    ghost view = { λ f. f.bytes.items };
}

impl FileBytes {
    /// No bytes.
    pub fn new(alloc: Global) -> Self
        ensures { result ≡ [] }
    {
        FileBytes {
            bytes: Vec::new(alloc),
        }
    }

    /// How many bytes there are.
    pub fn len(&self) -> u64
        ensures length { result ≡ length self.now }
        ensures small { result < 2 ^ 63 }
    {
        self.bytes.len() as u64
    }

    /// Whether there is none.
    pub fn is_empty(&self) -> bool
        ensures { result ≡ (length self.now == 0) }
    {
        self.bytes.is_empty()
    }

    /// The bytes as a slice.
    pub fn as_slice(&self) -> &[u8]
        ensures { result.now ≡ self.now }
    {
        &self.bytes
    }

    /// The vector of the bytes, without a copy.
    pub fn into_vec(self) -> Vec<u8>
        ensures { result.items ≡ self }
    {
        self.bytes
    }

    /// Up to `count` bytes from an offset on; none at or past the end.
    pub fn range(&self, at: u64, count: u64) -> &[u8]
        ensures { result.now ≡ take count (drop at self.now) }
    {
        range(&self.bytes, at as usize, count as usize)
    }

    /// Cuts or grows the file to a length; what is grown reads as zero. Where there is no memory for it, the file stays as it was.
    pub fn resize(&mut self, len: u64) -> Result<(), AllocError>
        ensures ok { OnOk result (self.new ≡ with_length len self.old) }
        ensures err { OnErr result (self.new ≡ self.old) }
    {
        self.bytes.resize(len as usize, 0)
    }

    /// Puts bytes at an offset; a gap behind the old end reads as zero. Where there is no memory for it, the file stays as it was.
    pub fn write(&mut self, at: u64, bytes: &[u8]) -> Result<(), AllocError>
        ensures ok { OnOk result (self.new ≡ with_bytes at bytes.now self.old) }
        ensures err { OnErr result (self.new ≡ self.old) }
    {
        write_at(&mut self.bytes, at as usize, bytes)
    }
}

fn range(bytes: &[u8], at: usize, count: usize) -> &[u8]
    ensures { result.now ≡ take count (drop at bytes.now) }
{
    let rest = &bytes[at.min(bytes.len())..];
    &rest[..count.min(rest.len())]
}

// A file that would pass the end of all numbers finds no memory. Each byte is written once: over what is there as far as the old
// end, and appended behind it.
fn write_at(file: &mut Vec<u8>, at: usize, bytes: &[u8]) -> Result<(), AllocError>
    ensures ok { OnOk result (file.new.items ≡ with_bytes at bytes.now file.old.items) }
    ensures err { OnErr result (file.new.items ≡ file.old.items) }
{
    let Some(end) = at.checked_add(bytes.len()) else {
        return Err(AllocError);
    };
    if file.len() < at {
        fill_gap(file, at, end)?;
        return file.extend_from_slice(bytes);
    }
    let within = bytes.len().min(file.len() - at);
    file.extend_from_slice(&bytes[within..])?;
    overwrite(file, at, &bytes[..within]);
    Ok(())
}

// Zeros up to an offset behind the end, and room up to an end behind that: what is put there finds memory.
fn fill_gap(file: &mut Vec<u8>, at: usize, end: usize) -> Result<(), AllocError>
    requires behind { length file.old.items < at }
    requires room { at ≤ end }
    ensures ok { OnOk result (file.new.items ≡ with_length at file.old.items) }
    ensures room { OnOk result (end ≤ file.new.cap) }
    ensures err { OnErr result (file.new.items ≡ file.old.items) }
{
    file.reserve(end - file.len())?;
    file.resize(at, 0)
}

fn overwrite(file: &mut [u8], start: usize, bytes: &[u8])
    requires { start + length bytes.now ≤ length file.old }
    ensures { file.new ≡ take start file.old ++ bytes.now ++ drop (start + length bytes.now) file.old }
{
    file[start..start + bytes.len()].copy_from_slice(bytes);
}
