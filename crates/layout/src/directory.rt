ghost use Rattle.std.specs.Prelude.{◌≡◌, ◌≤◌, length, IfOk, true};
ghost use Rattle.layout.specs.Answers.{Reads};
ghost use Rattle.layout.specs.Bytes.{are_zero};
ghost use Rattle.layout.specs.Directory.{entries_spelling, entry_list_of};
ghost use Rattle.layout.specs.declared.error.What.TheVariants as what;

use crate::dir_entries::DirEntries;
use crate::entry::{EntryRef, put_entry};
use crate::error::{LayoutError, What};
use crate::field_writes::{clear, put_u32};
use crate::image::Image;
use crate::places::BLOCK;
use file_graph::Kind;
use posix_calls::{MAX_NAME, Name};
use std::alloc::{AllocError, Global};
use std::marker::Model;

/// The most entries that a block has.
pub const MAX_IN_BLOCK: usize = 56;

/// The byte of the first entry.
pub const FIRST_ENTRY_AT: usize = 64;

/// How many zero bytes stand between the count and the first entry.
pub const HEAD_GAP: usize = 56;

/// The bytes of an entry.
pub const ENTRY_SIZE: usize = 72;

/// A name in a directory, and the node that it leads to.
#[derive(Debug, Drop)]
pub struct DirEntry {
    pub inode: u32,
    pub kind: Kind,
    pub name: Name,
}

/// Entries of a directory that stand in one block: at most 56.
#[derive(Debug, Drop)]
pub struct DirBlock {
    owner: u32,
    entries: Vec<DirEntry>,
}

impl Model for DirBlock {
    ghost use Rattle.layout.specs.Directory.{EntryList};

    ghost Value = { EntryList };

    ghost view = { λ b. record { owner = b.owner; entries = b.entries.items } };
}

impl DirBlock {
    /// Entries of a directory.
    pub fn new(owner: u32, entries: Vec<DirEntry>) -> Self
        ensures owner { result.owner ≡ owner }
        ensures entries { result.entries ≡ entries.items }
    {
        DirBlock { owner, entries }
    }

    /// The inode of the directory.
    pub fn owner(&self) -> u32
        ensures { result ≡ self.now.owner }
    {
        self.owner
    }

    /// The entries, in their order.
    pub fn entries(&self) -> &[DirEntry]
        ensures { result.now ≡ self.now.entries }
    {
        &self.entries
    }

    /// Writes the entries over a block.
    pub fn encode(&self, block: &mut [u8])
        requires long { length block.old ≡ BLOCK }
        requires few { length self.now.entries ≤ MAX_IN_BLOCK }
        ensures { block.new ≡ entries_spelling self.now }
    {
        clear(block);
        self.encode_into(block);
    }

    /// The entries that a block spells, each with a name of its own. `Damaged`, with the number of the block, where it spells
    /// none; that takes no memory. `Memory` where there was none for what it spells.
    pub fn decode(alloc: Global, number: u32, block: &[u8]) -> Result<Self, LayoutError>
        ensures { Reads what.DirBlock number result (entry_list_of block.now) }
    {
        let found = DirEntries::read(number, block)?;
        let entries = copy_of(alloc, &found)?;
        Ok(DirBlock {
            owner: found.owner(),
            entries,
        })
    }
}

impl Image for DirBlock {
    ghost use Rattle.std.specs.Prelude.{◌≤◌, length};
    ghost use Rattle.layout.specs.Directory.{entries_spelling};
    ghost use Rattle.layout.specs.declared.directory.TheConstants.{MAX_IN_BLOCK};

    ghost bytes = { entries_spelling };

    ghost fits = { λ b. length b.entries ≤ MAX_IN_BLOCK };

    fn encode_into(&self, slot: &mut [u8]) {
        let entries = self.entries.as_slice();
        write_block(slot, self.owner, entries);
    }
}

impl DirEntry {
    ghost use Rattle.layout.specs.LentEntry.{owned_entry};

    /// The entry, with its name lent.
    pub fn entry_ref(&self) -> EntryRef<'_>
        ensures entry { owned_entry result ≡ self.now }
        ensures short { length result.name.now ≤ MAX_NAME }
    {
        EntryRef {
            inode: self.inode,
            kind: self.kind,
            name: self.name.as_slice(),
        }
    }
}

fn copy_of(alloc: Global, found: &DirEntries<'_>) -> Result<Vec<DirEntry>, AllocError>
    ensures { IfOk result (λ v. v.items ≡ found.now.entries) }
{
    let count = found.len();
    let mut entries = Vec::with_capacity(alloc, count)?;
    'entries: for index in 0..count {
        entries.push(found.entry(index).to_entry(alloc)?)?;
    }
    Ok(entries)
}

fn write_block(block: &mut [u8], owner: u32, entries: &[DirEntry])
    requires long { length block.old ≡ BLOCK }
    requires blank { are_zero block.old ≡ true }
    requires few { length entries.now ≤ MAX_IN_BLOCK }
    ensures { block.new ≡ entries_spelling (record { owner = owner; entries = entries.now }) }
{
    put_u32(block, 0, owner);
    put_u32(block, 4, entries.len() as u32);
    for index in 0..entries.len() {
        let entry = entries[index].entry_ref();
        put_entry(block, FIRST_ENTRY_AT + ENTRY_SIZE * index, entry);
    }
}
