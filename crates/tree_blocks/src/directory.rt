ghost use Rattle.std.specs.Prelude.{◌≡◌, ◌≢◌, ◌≤◌, ◌<◌, ◌/◌, ◌%◌, ◌+◌, ◌-◌, ◌*◌, ◌↔◌, ℕ, [], length, get_or, true, IfOk, IfErr, IfNone, IfSome, OnOk, OnErr};
ghost use Rattle.posix_calls.specs.declared.limits.TheConstants.{MAX_ENTRIES};
ghost use Rattle.layout.specs.Places.{is_inode};
ghost use Rattle.layout.specs.LentEntry.{owned_entry};
ghost use Rattle.layout.specs.Directory.{fits_entry};
ghost use Rattle.layout.specs.declared.directory.TheConstants.{MAX_IN_BLOCK};
ghost use Rattle.tree_blocks.specs.Inode.{plain, named_entries, blocks_for, IsAbsent};
ghost use Rattle.std.specs.FinMap as fin;
ghost use Rattle.graph_change.specs.Net.{entries_after};
ghost use Rattle.tree_blocks.specs.After.{IsEntered, IsTakenOut, IsDirectoryAfter};
ghost use Rattle.tree_blocks.specs.Directory.{EntryBlocks, IsHeld, LeadToInodes, coming_count, most_written, numbered_blocks, numbered_entries};
ghost use Rattle.tree_blocks.specs.BlockMarks.{ListsWritten};

use crate::entry_blocks::{add_to, find_in, take_from};
use crate::error::EnterError;
use crate::name_changes::{are_too_many, change_names, coming_count};
use crate::written_blocks::{MOST_BLOCKS, WrittenBlocks};
use graph_change::in_file_graph::{Kind, NameMap};
use layout::{BLOCK, DirEntries, EntryRef, MAX_IN_BLOCK, set_target};
use posix_calls::MAX_ENTRIES;
use std::alloc::{AllocError, Global};
use std::marker::Model;

/// A directory in memory: its blocks, one behind the other. Entry n is entry n % 56 of block n / 56.
#[derive(Debug, Drop)]
pub struct Directory {
    alloc: Global,
    owner: u32,
    count: usize,
    blocks: Vec<[u8; BLOCK]>,
}

impl Model for Directory {
    ghost use Rattle.tree_blocks.specs.Directory.{EntryBlocks, IsHeld};

    ghost Value = { EntryBlocks };

    ghost view = { λ d. record { owner = d.owner; count = d.count; blocks = d.blocks.items } };

    ghost invariant = { λ d. IsHeld (record { owner = d.owner; count = d.count; blocks = d.blocks.items }) };
}

impl Directory {
    /// A directory of no entries.
    pub fn new(alloc: Global, owner: u32) -> Self
        requires { is_inode owner ≡ true }
        ensures { result ≡ record { owner = owner; count = 0; blocks = [] } }
    {
        Directory {
            alloc,
            owner,
            count: 0,
            blocks: Vec::new(alloc),
        }
    }

    /// The directory of `count` entries that these blocks are.
    pub fn from_blocks(alloc: Global, owner: u32, count: usize, blocks: Vec<[u8; BLOCK]>) -> Self
        requires { IsHeld (record { owner = owner; count = count; blocks = blocks.items }) }
        ensures { result ≡ record { owner = owner; count = count; blocks = blocks.items } }
    {
        Directory {
            alloc,
            owner,
            count,
            blocks,
        }
    }

    /// The inode of the directory.
    pub fn owner(&self) -> u32
        ensures owner { result ≡ self.now.owner }
        ensures inode { is_inode result ≡ true }
    {
        self.owner
    }

    /// How many entries there are.
    pub fn len(&self) -> usize
        ensures len { result ≡ self.now.count }
        ensures few { result ≤ MAX_ENTRIES }
    {
        self.count
    }

    /// The blocks, in their order.
    pub fn blocks(&self) -> &[[u8; BLOCK]]
        ensures blocks { result.now ≡ self.now.blocks }
        ensures held { IsHeld self.now }
    {
        &self.blocks
    }

    /// The vector of the blocks, in their order, without a copy.
    pub fn into_blocks(self) -> Vec<[u8; BLOCK]>
        ensures blocks { result.items ≡ self.blocks }
        ensures held { IsHeld self }
    {
        self.blocks
    }

    /// The number of the entry of a name.
    pub fn find(&self, name: &[u8]) -> Option<usize>
        ensures inside { IfSome result (λ e. e < self.now.count) }
        ensures found { IfSome result (λ e. (numbered_entries self.now e).0 ≡ name.now) }
        ensures absent { IfNone result (IsAbsent name.now (numbered_entries self.now) self.now.count) }
    {
        find_in(&self.blocks, name)
    }

    /// The entry of a number.
    pub fn entry(&self, number: usize) -> EntryRef<'_>
        requires { number < self.now.count }
        ensures entry { plain (owned_entry result) ≡ numbered_entries self.now number }
        ensures fits { fits_entry (owned_entry result) ≡ true }
    {
        DirEntries::from_known(&self.blocks[number / MAX_IN_BLOCK]).entry(number % MAX_IN_BLOCK)
    }

    /// Lets the entry of a number lead to another node, under its name.
    pub fn set_target(&mut self, number: usize, inode: u32, kind: Kind)
        requires inside { number < self.old.count }
        requires fits { fits_entry (record { inode = inode; kind = kind; name = (numbered_entries self.old number).0 }) ≡ true }
        ensures set { IsEntered number ((numbered_entries self.old number).0, (inode, kind)) self.old.count (numbered_entries self.old) self.new.count (numbered_entries self.new) }
        ensures owner { self.new.owner ≡ self.old.owner }
        ensures others { (k : ℕ) → k ≢ number / MAX_IN_BLOCK → numbered_blocks self.new.blocks k ≡ numbered_blocks self.old.blocks k }
    {
        set_target(
            &mut self.blocks[number / MAX_IN_BLOCK],
            number % MAX_IN_BLOCK,
            inode,
            kind,
        );
    }

    /// Enters an entry, which leads to an inode by a name: over the entry of its name, or else behind the last one. It answers the number of the entry; no block but
    /// the one in which that stands changes. `Full` where no entry has the name and there are as many as a directory may have; `Memory` where a block more was wanted.
    /// The directory stays as it was then.
    pub fn enter(&mut self, entry: EntryRef<'_>) -> Result<usize, EnterError>
        requires { fits_entry (owned_entry entry) ≡ true }
        ensures entered { IfOk result (λ number. IsEntered number (plain (owned_entry entry.entry)) self.old.count (numbered_entries self.old) self.new.count (numbered_entries self.new)) }
        ensures owner { self.new.owner ≡ self.old.owner }
        ensures others { IfOk result (λ number. (k : ℕ) → k ≢ number / MAX_IN_BLOCK → numbered_blocks self.new.blocks k ≡ numbered_blocks self.old.blocks k) }
        ensures full { result ≡ Err EnterError.Full ↔ (IsAbsent entry.entry.name.now (numbered_entries self.old) self.old.count × (self.old.count ≡ MAX_ENTRIES)) }
        ensures memory { result ≡ Err EnterError.Memory → IsAbsent entry.entry.name.now (numbered_entries self.old) self.old.count × (self.old.count % MAX_IN_BLOCK ≡ 0) }
        ensures refused { OnErr result (self.new ≡ self.old) }
    {
        if let Some(number) = self.find(entry.name) {
            self.set_target(number, entry.inode, entry.kind);
            return Ok(number);
        }
        if self.count == MAX_ENTRIES as usize {
            return Err(EnterError::Full);
        }
        self.add(entry)?;
        Ok(self.count - 1)
    }

    // Puts an entry behind the last one.
    fn add(&mut self, entry: EntryRef<'_>) -> Result<(), AllocError>
        requires fits { fits_entry (owned_entry entry) ≡ true }
        requires new { IsAbsent entry.name.now (numbered_entries self.old) self.old.count }
        requires room { self.old.count < MAX_ENTRIES }
        ensures added { OnOk result (IsEntered self.old.count (plain (owned_entry entry.entry)) self.old.count (numbered_entries self.old) self.new.count (numbered_entries self.new)) }
        ensures count { OnOk result (self.new.count ≡ self.old.count + 1) }
        ensures owner { self.new.owner ≡ self.old.owner }
        ensures others { (k : ℕ) → k ≢ self.old.count / MAX_IN_BLOCK → numbered_blocks self.new.blocks k ≡ numbered_blocks self.old.blocks k }
        ensures refused { OnErr result (self.new ≡ self.old) }
        ensures memory { OnErr result (self.old.count % MAX_IN_BLOCK ≡ 0) }
    {
        add_to(self.alloc, &mut self.blocks, self.owner, self.count, entry)?;
        self.count += 1;
        Ok(())
    }

    /// Takes the entry of a name out; the last entry stands in its place then, and a block that has none any more goes. It answers the number that the entry had,
    /// or `None` where no entry has the name, and nothing has changed then. No block changes but the one where it stood and the last one.
    pub fn take_out(&mut self, name: &[u8]) -> Option<usize>
        ensures taken { IfSome result (λ number. IsTakenOut number self.old.count (numbered_entries self.old) self.new.count (numbered_entries self.new)) }
        ensures named { IfSome result (λ number. (numbered_entries self.old number).0 ≡ name.now) }
        ensures owner { self.new.owner ≡ self.old.owner }
        ensures others { IfSome result (λ number. (k : ℕ) → k ≢ number / MAX_IN_BLOCK → k ≢ (self.old.count - 1) / MAX_IN_BLOCK → numbered_blocks self.new.blocks k ≡ numbered_blocks self.old.blocks k) }
        ensures absent { IfNone result (IsAbsent name.now (numbered_entries self.old) self.old.count) }
        ensures stays { IfNone result (self.new ≡ self.old) }
    {
        let number = self.find(name)?;
        self.remove(number);
        Some(number)
    }

    // Takes the entry of a number out.
    fn remove(&mut self, number: usize)
        requires { number < self.old.count }
        ensures taken { IsTakenOut number self.old.count (numbered_entries self.old) self.new.count (numbered_entries self.new) }
        ensures owner { self.new.owner ≡ self.old.owner }
        ensures others { (k : ℕ) → k ≢ number / MAX_IN_BLOCK → k ≢ (self.old.count - 1) / MAX_IN_BLOCK → numbered_blocks self.new.blocks k ≡ numbered_blocks self.old.blocks k }
    {
        let last = self.count - 1;
        take_from(&mut self.blocks, number, last);
        self.count = last;
    }

    /// Changes what stands under some names: an entry that comes is entered, or `None` takes the entry of the name out if there is one. It answers which of the blocks that
    /// are there then have been written, new ones among them: no more than one for each name that is entered, and two for each that is taken out. What stood in blocks behind them is gone. `Full` where more entries would be
    /// there in the end than a directory may have; `Memory` where there was none for the blocks that may come. The directory stays as it was then.
    pub fn change(
        &mut self,
        changes: &NameMap<Option<(u32, Kind)>>,
    ) -> Result<WrittenBlocks, EnterError>
        requires { LeadToInodes (fin.entries changes.now) }
        ensures changed { OnOk result (IsDirectoryAfter self.old.owner changes.now self.old.count (numbered_blocks self.old.blocks) self.new.count (numbered_blocks self.new.blocks)) }
        ensures written { IfOk result (ListsWritten self.old.blocks self.new.blocks) }
        ensures few { IfOk result (λ written. length written ≤ most_written (fin.entries changes.now)) }
        ensures long { OnOk result (length self.new.blocks ≡ blocks_for self.new.count) }
        ensures owner { self.new.owner ≡ self.old.owner }
        ensures memory { result ≡ Err EnterError.Memory → blocks_for self.old.count < blocks_for (self.old.count + coming_count (fin.entries changes.now)) }
        ensures full { result ≡ Err EnterError.Full ↔ MAX_ENTRIES < fin.len (entries_after changes.now (named_entries (numbered_entries self.old) self.old.count)) }
        ensures refused { OnErr result (self.new ≡ self.old) }
    {
        let names = changes.as_slice();
        if are_too_many(&self.blocks, self.count, names) {
            return Err(EnterError::Full);
        }
        let most = self.count + coming_count(names);
        self.blocks
            .reserve(most.div_ceil(MAX_IN_BLOCK) - self.blocks.len())?;
        let mut marks = [false; MOST_BLOCKS];
        self.count = change_names(
            self.alloc,
            &mut self.blocks,
            &mut marks,
            self.owner,
            self.count,
            names,
        );
        Ok(WrittenBlocks::from_marks(&marks[..self.blocks.len()]))
    }
}
