// Entries of a directory, in place.
ghost use Rattle.std.specs.Prelude.{◌≡◌, ◌<◌, ◌≤◌, ◌+◌, ◌*◌, length, option_map, slice_index_or, slice_get, Some, drop, not, true, IfSome, OnSome, IfOk, OnOk};
ghost use Rattle.std.specs.List.{list_all, position};
ghost use Rattle.std.specs.Str.{bytes_eq};
ghost use Rattle.layout.specs.Answers.{or_damaged};
ghost use Rattle.layout.specs.Bytes.{items_at, text_at, zeros, within};
ghost use Rattle.layout.specs.Directory.{head_at, entry_at, entries_field, entry_list_of, block_entries, AreEntries, IsEntryList, IsRead, are_distinct, fits_entry};
ghost use Rattle.layout.specs.LentEntry.{owned_entry};
ghost use Rattle.layout.specs.declared.directory.DirEntry.{DirEntry};
ghost use Rattle.layout.specs.declared.error.What.TheVariants as what;

use crate::directory::{ENTRY_SIZE, FIRST_ENTRY_AT, HEAD_GAP, MAX_IN_BLOCK};
use crate::entry::{EntryRef, behind_entry, fields_of};
use crate::error::{LayoutError, What};
use crate::field_reads::{are_zero, text_of};
use crate::places::BLOCK;
use file_graph::{is_inode, u32_of};
use std::marker::Model;

/// The entries that a block spells, read in place: at most 56, no two of one name. Nothing is copied.
#[derive(Drop)]
pub struct DirEntries<'a> {
    owner: u32,
    count: usize,
    block: &'a [u8],
}

impl<'a> Model for DirEntries<'a> {
    ghost use Rattle.layout.specs.Directory.{EntryList, block_entries, IsRead};

    ghost Value = { EntryList };

    ghost view = { λ b. block_entries b.block.now };

    ghost invariant = { λ b. IsRead b.owner b.count b.block.now };
}

impl<'a> DirEntries<'a> {
    /// The entries that a block spells. `Damaged`, with the number of the block, where it spells none.
    pub fn read(number: u32, block: &'a [u8]) -> Result<Self, LayoutError>
        ensures read { result ≡ or_damaged what.DirBlock number (entry_list_of block.now) }
        ensures listed { IfOk result (λ b. b ≡ block_entries block.now) }
        ensures entries { OnOk result (AreEntries block.now) }
    {
        match head_of_entries(block) {
            Some((owner, count)) => Ok(DirEntries {
                owner,
                count,
                block,
            }),
            None => Err(LayoutError::Damaged {
                what: What::DirBlock,
                block: number,
            }),
        }
    }

    /// The entries of a block that is known to spell some: nothing is tested.
    pub fn from_known(block: &'a [u8]) -> Self
        requires { AreEntries block.now }
        ensures { result ≡ block_entries block.now }
    {
        match head_of(block) {
            Some(((owner, count), _)) => DirEntries {
                owner,
                count: count as usize,
                block,
            },
            None => unreachable!(),
        }
    }

    /// The inode of the directory.
    pub fn owner(&self) -> u32
        ensures { result ≡ self.now.owner }
    {
        self.owner
    }

    /// How many entries there are.
    pub fn len(&self) -> usize
        ensures len { result ≡ length self.now.entries }
        ensures few { result ≤ MAX_IN_BLOCK }
    {
        self.count
    }

    /// The entry at a place; it leads to an inode, which may be the root, by a name.
    pub fn entry(&self, index: usize) -> EntryRef<'a>
        requires { index < length self.now.entries }
        ensures entry { slice_get self.now.entries index ≡ Some (owned_entry result) }
        ensures fits { fits_entry (owned_entry result) ≡ true }
    {
        entry_in(self.block, index)
    }

    /// The place of the entry of a name.
    pub fn find(&self, name: &[u8]) -> Option<usize>
        ensures { result ≡ position (λ e. bytes_eq e.name name.now) self.now.entries }
    {
        place_of(self.block, self.count, name)
    }
}

// The directory and how many entries it has, where the block spells entries of it.
fn head_of_entries(block: &[u8]) -> Option<(u32, usize)>
    ensures read { IfSome result (λ x. IsRead x.0 x.1 block.now) }
    ensures head { result ≡ option_map (λ v. (v.owner, length v.entries)) (entry_list_of block.now) }
{
    let (owner, count) = head_of_list(block)?;
    if !are_distinct(block, count) {
        return None;
    }
    Some((owner, count))
}

// The same, whatever names the entries have.
fn head_of_list(block: &[u8]) -> Option<(u32, usize)>
    ensures listed { OnSome result (IsEntryList block.now) }
    ensures head { result ≡ option_map (λ v. (v.owner, length v.entries)) (within BLOCK entries_field block.now) }
{
    if block.len() != BLOCK {
        return None;
    }
    let ((owner, count), rest) = head_of(block)?;
    let rest = behind_list(count, rest)?;
    if !are_zero(rest) {
        return None;
    }
    Some((owner, count as usize))
}

/// Reads the head of a directory's block: its owner and how many entries it has, and what is behind the head. `None` if
/// the owner is no inode, if there are more than `MAX_IN_BLOCK` entries, or if the bytes are no head.
#[tactic(auto, unfolding(crate::specs::Directory::head_at))]
pub fn head_of(bytes: &[u8]) -> Option<((u32, u32), &[u8])>
    ensures { option_map (λ x. (x.0, x.1.now)) result ≡ head_at bytes.now }
{
    let (owner, rest) = u32_of(bytes)?;
    let (count, rest) = u32_of(rest)?;
    let rest = gap_of(rest)?;
    if !is_inode(owner) || MAX_IN_BLOCK < count as usize {
        return None;
    }
    Some(((owner, count), rest))
}

// What is behind the zero bytes between the count and the first entry.
#[tactic(auto, unfolding(crate::specs::Bytes::zeros))]
fn gap_of(bytes: &[u8]) -> Option<&[u8]>
    ensures { option_map (λ x. x.now) result ≡ text_at (zeros HEAD_GAP) bytes.now }
{
    let gap = [0u8; HEAD_GAP];
    text_of(&gap, bytes)
}

// What is behind `count` entries.
fn behind_list(count: u32, bytes: &[u8]) -> Option<&[u8]>
    ensures { option_map (λ x. x.now) result ≡ option_map (λ x. x.1) (items_at entry_at count bytes.now) }
{
    let mut rest = bytes;
    'entries: for _ in 0..count {
        rest = behind_entry(rest)?;
    }
    Some(rest)
}

// Whether no two entries have one name.
fn are_distinct(block: &[u8], count: usize) -> bool
    requires listed { IsEntryList block.now }
    requires count { count ≡ length (block_entries block.now).entries }
    ensures { result ≡ are_distinct (block_entries block.now).entries }
{
    'entries: for index in 0..count {
        let name = name_in(block, index);
        if !differs_from(block, index + 1, count, name) {
            return false;
        }
    }
    true
}

// Whether the entries from a place on have other names.
fn differs_from(block: &[u8], first: usize, count: usize, name: &[u8]) -> bool
    requires listed { IsEntryList block.now }
    requires count { count ≡ length (block_entries block.now).entries }
    requires first { first ≤ count }
    ensures { result ≡ list_all (λ e. not (bytes_eq name.now e.name)) (drop first (block_entries block.now).entries) }
{
    'entries: for index in first..count {
        if name == name_in(block, index) {
            return false;
        }
    }
    true
}

/// Finds the first of the `count` entries of a block that has this name: its index from 0. `None` if none has.
pub fn place_of(block: &[u8], count: usize, name: &[u8]) -> Option<usize>
    requires listed { IsEntryList block.now }
    requires count { count ≡ length (block_entries block.now).entries }
    ensures { result ≡ position (λ e. bytes_eq e.name name.now) (block_entries block.now).entries }
{
    'entries: for index in 0..count {
        if name_in(block, index) == name {
            return Some(index);
        }
    }
    None
}

// The name of the entry at a place.
fn name_in(block: &[u8], index: usize) -> &[u8]
    requires listed { IsEntryList block.now }
    requires inside { index < length (block_entries block.now).entries }
    ensures { (d : DirEntry) → result.now ≡ (slice_index_or (block_entries block.now).entries index d).name }
{
    let at = FIRST_ENTRY_AT + ENTRY_SIZE * index;
    let count = block[at + 5] as usize;
    let rest = &block[at + 8..];
    &rest[..count]
}

fn entry_in(block: &[u8], index: usize) -> EntryRef<'_>
    requires listed { IsEntryList block.now }
    requires inside { index < length (block_entries block.now).entries }
    ensures entry { slice_get (block_entries block.now).entries index ≡ Some (owned_entry result) }
    ensures fits { fits_entry (owned_entry result) ≡ true }
{
    let at = FIRST_ENTRY_AT + ENTRY_SIZE * index;
    match fields_of(&block[at..]) {
        Some((entry, _)) => entry,
        None => unreachable!(),
    }
}
