ghost use Rattle.std.specs.Prelude.{◌≡◌, ◌≤◌, ◌<◌, ◌+◌, ◌++◌, [], length, take, min, vec_len, vec_capacity, IfOk, OnErr, IsOk};
ghost use Rattle.fuse_wire.specs.Replies.{reply_bytes, kind_number, dirent_fields, pad_len, dirent_bytes, dirents_bytes, FitsMost};
ghost use Rattle.fuse_wire.specs.Fields.{fields_bytes};

use crate::fields::{push_bytes, push_u32, push_u64};
use crate::reply_writes::begin_reply;
use std::alloc::AllocError;

/// The most bytes of entries in one reply.
pub const MAX_DIRENTS: usize = 65_536;

/// What an entry of a folder is, as far as the folder says.
#[derive(Clone, Copy)]
pub enum DirentKind {
    /// DT_UNKNOWN: the kernel asks when it needs to know.
    Unknown,
    /// DT_DIR
    Folder,
    /// DT_REG
    File,
}

/// An entry of a folder (`struct fuse_dirent`).
#[derive(Clone, Copy)]
pub struct Dirent<'a> {
    /// The number that readdir(3) shows.
    pub inode: u64,
    /// The place from which the kernel reads on behind this entry.
    pub next: u64,
    pub kind: DirentKind,
    pub name: &'a [u8],
}

/// The reply to READDIR: of the entries as many from the first on as `size` bytes hold, and `MAX_DIRENTS` bytes at most. Each takes 24
/// bytes and its name, filled up with zero bytes to a multiple of 8. Gives how many there are in the reply; 0 of some means that
/// `size` is too small for the first, and 0 of none the end of the folder.
pub fn write_dirents(
    out: &mut Vec<u8>,
    unique: u64,
    size: u32,
    entries: &[Dirent<'_>],
) -> Result<usize, AllocError>
    ensures written { IfOk result (λ count. out.new.items ≡ reply_bytes unique (dirents_bytes (take count entries.now))) }
    ensures most { IfOk result (λ count. FitsMost (min size MAX_DIRENTS) count entries.now) }
    ensures refused { OnErr result (out.new.items ≡ []) }
    ensures room { 16 + min size MAX_DIRENTS ≤ vec_capacity out.old → IsOk result }
{
    let (count, len) = count_fitting((size as usize).min(MAX_DIRENTS), entries);
    begin_reply(out, len, len, 0, unique)?;
    push_dirents(out, &entries[..count]);
    Ok(count)
}

// How many entries from the first on have room in `size` bytes, and how many bytes they take.
fn count_fitting(size: usize, entries: &[Dirent<'_>]) -> (usize, usize)
    ensures most { FitsMost size result.0 entries.now }
    ensures len { result.1 ≡ length (dirents_bytes (take result.0 entries.now)) }
{
    let mut used = 0;
    for (count, entry) in entries.iter().enumerate() {
        let len = dirent_len(entry);
        if size - used < len {
            return (count, used);
        }
        used += len;
    }
    (entries.len(), used)
}

#[tactic(auto, using(crate::proofs::DirentLengths::length_dirent))]
fn dirent_len(entry: &Dirent<'_>) -> usize
    ensures { result ≡ length (dirent_bytes entry.now) }
{
    let len = entry.name.len();
    24 + len + pad_len(len)
}

// How many bytes are lacking to a multiple of 8.
fn pad_len(len: usize) -> usize
    ensures is { result ≡ pad_len len }
    ensures short { result ≤ 7 }
{
    (8 - len % 8) % 8
}

// Puts entries behind what stands in `out`, which has room for them.
fn push_dirents(out: &mut Vec<u8>, entries: &[Dirent<'_>])
    requires room { vec_len out.old + length (dirents_bytes entries.now) ≤ vec_capacity out.old }
    requires few { length (dirents_bytes entries.now) ≤ MAX_DIRENTS }
    ensures { out.new.items ≡ out.old.items ++ dirents_bytes entries.now }
{
    for entry in entries {
        push_dirent(out, entry);
    }
}

#[tactic(auto, using(crate::proofs::DirentLengths::length_dirent))]
fn push_dirent(out: &mut Vec<u8>, entry: &Dirent<'_>)
    requires room { vec_len out.old + length (dirent_bytes entry.now) ≤ vec_capacity out.old }
    requires short { length (dirent_bytes entry.now) ≤ MAX_DIRENTS }
    ensures written { out.new.items ≡ out.old.items ++ dirent_bytes entry.now }
    ensures len { vec_len out.new ≡ vec_len out.old + length (dirent_bytes entry.now) }
    ensures capacity { vec_capacity out.old ≤ vec_capacity out.new }
{
    let zeros = [0; 8];
    push_dirent_fields(out, entry);
    push_bytes(out, entry.name);
    push_bytes(out, &zeros[..pad_len(entry.name.len())]);
}

// What stands before the name of an entry: 24 bytes.
fn push_dirent_fields(out: &mut Vec<u8>, entry: &Dirent<'_>)
    requires room { vec_len out.old + 24 ≤ vec_capacity out.old }
    requires short { length entry.now.name.now ≤ MAX_DIRENTS }
    ensures written { out.new.items ≡ out.old.items ++ fields_bytes (dirent_fields entry.now) }
    ensures len { vec_len out.new ≡ vec_len out.old + 24 }
    ensures capacity { vec_capacity out.old ≤ vec_capacity out.new }
{
    push_u64(out, entry.inode);
    push_u64(out, entry.next);
    push_u32(out, entry.name.len() as u32);
    push_u32(out, kind_number(entry.kind));
}

fn kind_number(kind: DirentKind) -> u32
    ensures { result ≡ kind_number kind }
{
    match kind {
        DirentKind::Unknown => 0,
        DirentKind::Folder => 4,
        DirentKind::File => 8,
    }
}
