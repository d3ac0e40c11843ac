// Entries of a directory, at the front of bytes.
ghost use Rattle.std.specs.Prelude.{◌≡◌, ◌≤◌, ◌+◌, ◌∷◌, [], length, option_map, IfOk, true};
ghost use Rattle.layout.specs.Bytes.{zeros, padded_text, with_text};
ghost use Rattle.layout.specs.Directory.{front_of, fields_at, entry_at, entry_text};
ghost use Rattle.file_graph.specs.Kinds.{kind_byte};
ghost use Rattle.layout.specs.LentEntry.{owned_entry};
ghost use Rattle.posix_calls.specs.Name.{is_name};

use crate::directory::DirEntry;
use crate::field_reads::{are_zero, text_of};
use crate::field_writes::{put, put_u32};
use file_graph::{Kind, byte_of, is_inode, kind_byte, read_kind, run_of, u32_of};
use posix_calls::{MAX_NAME, Name};
use std::alloc::{AllocError, Global};

/// An entry whose name lies elsewhere.
#[derive(Clone, Copy, PartialEq, Eq)]
pub struct EntryRef<'a> {
    pub inode: u32,
    pub kind: Kind,
    pub name: &'a [u8],
}

impl<'a> EntryRef<'a> {
    /// The entry with a name of its own.
    pub fn to_entry(self, alloc: Global) -> Result<DirEntry, AllocError>
        requires { is_name self.name.now ≡ true }
        ensures { IfOk result (λ e. e ≡ owned_entry self.entry) }
    {
        let copy = self.name.to_vec(alloc)?;
        match Name::from_vec(copy) {
            Ok(name) => Ok(DirEntry {
                inode: self.inode,
                kind: self.kind,
                name,
            }),
            Err(_) => unreachable!(),
        }
    }
}

/// Writes an entry at byte `at` of a block: 72 bytes.
pub fn put_entry(block: &mut [u8], at: usize, entry: EntryRef<'_>)
    requires within { at + 72 ≤ length block.old }
    requires short { length entry.name.now ≤ MAX_NAME }
    ensures { block.new ≡ with_text at (entry_text (owned_entry entry.entry)) block.old }
{
    let name = entry.name;
    put_u32(block, at, entry.inode);
    put_tags(block, at + 4, entry.kind, name.len());
    put_name(block, at + 8, name);
}

// The kind, the length of the name, and two zero bytes.
fn put_tags(block: &mut [u8], at: usize, kind: Kind, count: usize)
    requires within { at + 4 ≤ length block.old }
    requires few { count ≤ MAX_NAME }
    ensures { block.new ≡ with_text at (kind_byte kind ∷ count ∷ 0 ∷ 0 ∷ []) block.old }
{
    put(block, at, &[kind_byte(kind), count as u8, 0, 0]);
}

fn put_name(block: &mut [u8], at: usize, name: &[u8])
    requires within { at + MAX_NAME ≤ length block.old }
    requires short { length name.now ≤ MAX_NAME }
    ensures { block.new ≡ with_text at (padded_text MAX_NAME name.now) block.old }
{
    put_zeros(block, at);
    put(block, at, name);
}

// As many zero bytes as a name may have.
#[tactic(auto, unfolding(crate::specs::Bytes::zeros))]
fn put_zeros(block: &mut [u8], at: usize)
    requires { at + MAX_NAME ≤ length block.old }
    ensures { block.new ≡ with_text at (zeros MAX_NAME) block.old }
{
    let text = [0u8; MAX_NAME];
    put(block, at, &text);
}

// The text of `count` bytes at the front of a field that is zero behind it.
fn front_of(count: usize, field: &[u8]) -> Option<&[u8]>
    ensures { option_map (λ x. x.now) result ≡ front_of count field.now }
{
    if field.len() < count {
        return None;
    }
    let (name, rest) = field.split_at(count);
    if !are_zero(rest) {
        return None;
    }
    Some(name)
}

/// Reads the fields of an entry, whatever inode and name they give, and what is behind them. `None` if the bytes are no
/// entry's.
#[tactic(auto, unfolding(crate::specs::Directory::fields_at))]
pub fn fields_of(bytes: &[u8]) -> Option<(EntryRef<'_>, &[u8])>
    ensures { option_map (λ x. (owned_entry x.0, x.1.now)) result ≡ fields_at bytes.now }
{
    let (inode, rest) = u32_of(bytes)?;
    let (kind, rest) = read_kind(rest)?;
    let (count, rest) = byte_of(rest)?;
    let rest = text_of(&[0, 0], rest)?;
    let (field, rest) = run_of(MAX_NAME, rest)?;
    let name = front_of(count as usize, field)?;
    Some((EntryRef { inode, kind, name }, rest))
}

/// Returns what is behind an entry; `None` if the bytes are no entry's, or its inode or its name is out of range.
#[tactic(auto, unfolding(crate::specs::Directory::entry_at))]
pub fn behind_entry(bytes: &[u8]) -> Option<&[u8]>
    ensures { option_map (λ x. x.now) result ≡ option_map (λ x. x.1) (entry_at bytes.now) }
{
    let (entry, rest) = fields_of(bytes)?;
    if !is_inode(entry.inode) || !Name::is_valid(entry.name) {
        return None;
    }
    Some(rest)
}
