// One entry of a directory block changed in place.
ghost use Rattle.std.specs.Prelude.{◌≡◌, ◌<◌, ◌≤◌, ◌+◌, ◌*◌, ◌-◌, ◌∷◌, [], length, take, drop, true, None, IfSome, IfNone};
ghost use Rattle.std.specs.List.{list_all, position};
ghost use Rattle.std.specs.Str.{bytes_eq};
ghost use Rattle.posix_calls.specs.declared.limits.TheConstants.{MAX_NAME};
ghost use Rattle.layout.specs.Bytes.{u32 as bytes_4, zeros, with_text};
ghost use Rattle.layout.specs.Directory.{EntryList, AreEntries, block_entries, are_distinct, entry_text, entries_spelling, fits_entry, fits_entries, entry_of, with_entry_at, with_last, with_target, without_entry, without_last};
ghost use Rattle.file_graph.specs.Kinds.{kind_byte};
ghost use Rattle.layout.specs.LentEntry.{owned_entry};

use crate::dir_entries::{head_of, place_of};
use crate::directory::{ENTRY_SIZE, FIRST_ENTRY_AT, MAX_IN_BLOCK};
use crate::entry::{EntryRef, put_entry};
use crate::field_writes::{put, put_u32};
use crate::places::BLOCK;
use file_graph::{Kind, kind_byte};

/// Adds an entry behind those of a block. It must lead to an inode, by a name that none of them has.
pub fn add_entry(block: &mut [u8], entry: EntryRef<'_>)
    requires entries { AreEntries block.old }
    requires room { length (block_entries block.old).entries < MAX_IN_BLOCK }
    requires fits { fits_entry (owned_entry entry) ≡ true }
    requires new { position (λ e. bytes_eq e.name entry.name.now) (block_entries block.old).entries ≡ None }
    ensures entries { AreEntries block.new }
    ensures added { block_entries block.new ≡ with_last (block_entries block.old) (owned_entry entry.entry) }
{
    let count = count_in(block);
    put_entry(block, FIRST_ENTRY_AT + ENTRY_SIZE * count, entry);
    put_u32(block, 4, count as u32 + 1);
}

/// Takes the last entry of a block out.
pub fn remove_last(block: &mut [u8])
    requires entries { AreEntries block.old }
    requires some { 0 < length (block_entries block.old).entries }
    ensures entries { AreEntries block.new }
    ensures removed { block_entries block.new ≡ without_last (block_entries block.old) }
{
    let count = count_in(block);
    drop_last(block, count);
}

/// Takes the entry at a place out of a block, whose last entry stands there then.
pub fn take_entry(block: &mut [u8], index: usize)
    requires entries { AreEntries block.old }
    requires inside { index < length (block_entries block.old).entries }
    ensures entries { AreEntries block.new }
    ensures taken { block_entries block.new ≡ without_entry (block_entries block.old) index }
{
    let count = count_in(block);
    copy_last(block, count, index);
    drop_last(block, count);
}

/// Takes the entry of a name out of a block, whose last entry stands at its place then. It answers that place, or `None` where
/// no entry has the name, and nothing has changed then.
pub fn remove_entry(block: &mut [u8], name: &[u8]) -> Option<usize>
    requires entries { AreEntries block.old }
    ensures place { result ≡ position (λ e. bytes_eq e.name name.now) (block_entries block.old).entries }
    ensures entries { AreEntries block.new }
    ensures removed { IfSome result (λ index. block_entries block.new ≡ without_entry (block_entries block.old) index) }
    ensures none { IfNone result (block.new ≡ block.old) }
{
    let count = count_in(block);
    let index = place_of(block, count, name)?;
    take_entry(block, index);
    Some(index)
}

/// Writes an entry over the one at a place of a block that spells entries; all others stay.
pub fn set_entry(block: &mut [u8], index: usize, entry: EntryRef<'_>)
    requires long { length block.old ≡ BLOCK }
    requires inside { index < MAX_IN_BLOCK }
    requires short { length entry.name.now ≤ MAX_NAME }
    ensures text { block.new ≡ with_text (64 + 72 * index) (entry_text (owned_entry entry.entry)) block.old }
    ensures spelling { (v : EntryList) → fits_entries v ≡ true → block.old ≡ entries_spelling v → index < length v.entries → block.new ≡ entries_spelling (with_entry_at v index (owned_entry entry.entry)) }
    ensures entries { AreEntries block.old → index < length (block_entries block.old).entries → fits_entry (owned_entry entry.entry) ≡ true → are_distinct (with_entry_at (block_entries block.old) index (owned_entry entry.entry)).entries ≡ true
        → AreEntries block.new × (block_entries block.new ≡ with_entry_at (block_entries block.old) index (owned_entry entry.entry)) }
{
    put_entry(block, FIRST_ENTRY_AT + ENTRY_SIZE * index, entry);
}

/// Lets the entry at a place of a block lead to another node, under its name.
pub fn set_target(block: &mut [u8], index: usize, inode: u32, kind: Kind)
    requires entries { AreEntries block.old }
    requires inside { index < length (block_entries block.old).entries }
    requires fits { fits_entry (record { inode = inode; kind = kind; name = (entry_of (block_entries block.old) index).name }) ≡ true }
    ensures entries { AreEntries block.new }
    ensures set { block_entries block.new ≡ with_target (block_entries block.old) index inode kind }
{
    let at = FIRST_ENTRY_AT + ENTRY_SIZE * index;
    put_u32(block, at, inode);
    put(block, at + 4, &[kind_byte(kind)]);
}

// How many entries a block spells.
fn count_in(block: &[u8]) -> usize
    requires { AreEntries block.now }
    ensures count { result ≡ length (block_entries block.now).entries }
    ensures few { result ≤ MAX_IN_BLOCK }
    ensures long { length block.now ≡ BLOCK }
{
    match head_of(block) {
        Some(((_, count), _)) => count as usize,
        None => unreachable!(),
    }
}

// Writes the last of `count` entries over the one at a place.
fn copy_last(block: &mut [u8], count: usize, index: usize)
    requires entries { AreEntries block.old }
    requires count { count ≡ length (block_entries block.old).entries }
    requires inside { index < count }
    requires few { count ≤ MAX_IN_BLOCK }
    requires long { length block.old ≡ BLOCK }
    ensures { block.new ≡ entries_spelling (with_entry_at (block_entries block.old) index (entry_of (block_entries block.old) (count - 1))) }
{
    let at = FIRST_ENTRY_AT + ENTRY_SIZE * (count - 1);
    let mut text = [0; ENTRY_SIZE];
    text.copy_from_slice(&block[at..at + ENTRY_SIZE]);
    put(block, FIRST_ENTRY_AT + ENTRY_SIZE * index, &text);
}

// Removes the last of `count` entries.
fn drop_last(block: &mut [u8], count: usize)
    requires long { length block.old ≡ BLOCK }
    requires some { 0 < count }
    requires few { count ≤ MAX_IN_BLOCK }
    ensures { (v : EntryList) → length v.entries ≡ count → list_all fits_entry v.entries ≡ true → block.old ≡ entries_spelling v → block.new ≡ entries_spelling (without_last v) }
{
    clear_place(block, FIRST_ENTRY_AT + ENTRY_SIZE * (count - 1));
    put_u32(block, 4, count as u32 - 1);
}

// Writes zeros where an entry stood.
#[tactic(auto, unfolding(crate::specs::Bytes::zeros))]
fn clear_place(block: &mut [u8], at: usize)
    requires { at + ENTRY_SIZE ≤ length block.old }
    ensures { block.new ≡ with_text at (zeros ENTRY_SIZE) block.old }
{
    let blank = [0u8; ENTRY_SIZE];
    put(block, at, &blank);
}
