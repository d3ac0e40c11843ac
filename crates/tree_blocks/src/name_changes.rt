//! Blocks of entries, as a change of names makes them.

ghost use Rattle.std.specs.Prelude.{◌≡◌, ◌≤◌, ◌<◌, ◌+◌, ◌*◌, ◌^◌, ◌↔◌, ℕ, length, true, false, is_some, IfSome, IfOk, OnOk, OnErr, IsTrue, vec_capacity};
ghost use Rattle.std.specs.FinMap as fin;
ghost use Rattle.posix_calls.specs.declared.limits.TheConstants.{MAX_ENTRIES};
ghost use Rattle.layout.specs.Places.{is_inode};
ghost use Rattle.layout.specs.LentEntry.{owned_entry};
ghost use Rattle.layout.specs.Directory.{fits_entry};
ghost use Rattle.graph_change.specs.file_graph.NameOrder.{pairs, IsInOrder};
ghost use Rattle.graph_change.specs.Net.{with_entry, with_entries};
ghost use Rattle.tree_blocks.specs.Inode.{entry_at, named_entries, AreDirectoryBlocks, blocks_for};
ghost use Rattle.tree_blocks.specs.Directory.{numbered_blocks, AreHeld, LeadToInodes, coming_count, next_count, entry_blocks, most_written};
ghost use Rattle.tree_blocks.specs.BlockMarks.{WereMarked};

use crate::entry_blocks::{add_to, find_in, take_from};
use crate::written_blocks::mark;
use graph_change::in_file_graph::{Kind, NamedEntry};
use layout::{BLOCK, EntryRef, MAX_IN_BLOCK, set_target};
use posix_calls::MAX_ENTRIES;
use std::alloc::{AllocError, Global};

// Enters an entry, over that of its name or behind the last one, and marks the block in which it stands. It answers how many there are then.
fn put_name(
    alloc: Global,
    blocks: &mut Vec<[u8; BLOCK]>,
    marks: &mut [bool],
    owner: u32,
    count: usize,
    entry: EntryRef<'_>,
) -> Result<usize, AllocError>
    requires owner { is_inode owner ≡ true }
    requires few { count < 2 ^ 62 }
    requires fits { fits_entry (owned_entry entry) ≡ true }
    requires held { AreHeld owner count blocks.old.items }
    ensures held { IfOk result (λ n. AreHeld owner n blocks.new.items) }
    ensures entries { IfOk result (λ n. named_entries (entry_at (numbered_blocks blocks.new.items)) n ≡ fin.insert (named_entries (entry_at (numbered_blocks blocks.old.items)) count) entry.entry.name.now (entry.entry.inode, entry.entry.kind)) }
    ensures marks { OnOk result (WereMarked 1 marks.old marks.new blocks.old.items blocks.new.items) }
    ensures grown { IfOk result (λ n. n ≤ count + 1) }
    ensures memory { OnErr result (vec_capacity blocks.old < blocks_for (count + 1)) }
    ensures capacity { vec_capacity blocks.old ≤ vec_capacity blocks.new }
{
    if let Some(number) = find_in(blocks, entry.name) {
        set_target(
            &mut blocks[number / MAX_IN_BLOCK],
            number % MAX_IN_BLOCK,
            entry.inode,
            entry.kind,
        );
        mark(marks, number / MAX_IN_BLOCK);
        return Ok(count);
    }
    add_to(alloc, blocks, owner, count, entry)?;
    mark(marks, count / MAX_IN_BLOCK);
    Ok(count + 1)
}

// Takes the entry of a name out, if there is one, and marks the block in which it stood and the last one. It answers how many there are then.
fn drop_name(blocks: &mut Vec<[u8; BLOCK]>, marks: &mut [bool], count: usize, name: &[u8]) -> usize
    requires few { count < 2 ^ 62 }
    requires held { (owner : ℕ) × AreHeld owner count blocks.old.items }
    ensures held { (owner : ℕ) → AreHeld owner count blocks.old.items → AreHeld owner result blocks.new.items }
    ensures entries { named_entries (entry_at (numbered_blocks blocks.new.items)) result ≡ fin.remove (named_entries (entry_at (numbered_blocks blocks.old.items)) count) name.now }
    ensures marks { WereMarked 2 marks.old marks.new blocks.old.items blocks.new.items }
    ensures shrunk { result ≤ count }
    ensures capacity { vec_capacity blocks.new ≡ vec_capacity blocks.old }
{
    let Some(number) = find_in(blocks, name) else {
        return count;
    };
    let last = count - 1;
    take_from(blocks, number, last);
    mark(marks, number / MAX_IN_BLOCK);
    mark(marks, last / MAX_IN_BLOCK);
    last
}

// Changes what stands under a name, and marks the blocks that it writes. It answers how many entries there are then.
fn change_name(
    alloc: Global,
    blocks: &mut Vec<[u8; BLOCK]>,
    marks: &mut [bool],
    owner: u32,
    count: usize,
    change: &NamedEntry<Option<(u32, Kind)>>,
) -> Result<usize, AllocError>
    requires owner { is_inode owner ≡ true }
    requires few { count < 2 ^ 62 }
    requires fits { IfSome change.now.value (λ child. is_inode child.0 ≡ true) }
    requires held { AreHeld owner count blocks.old.items }
    ensures held { IfOk result (λ n. AreHeld owner n blocks.new.items) }
    ensures entries { IfOk result (λ n. named_entries (entry_at (numbered_blocks blocks.new.items)) n ≡ with_entry change.now.name change.now.value (named_entries (entry_at (numbered_blocks blocks.old.items)) count)) }
    ensures marks { OnOk result (WereMarked (entry_blocks change.now.value) marks.old marks.new blocks.old.items blocks.new.items) }
    ensures grown { IfOk result (λ n. n ≤ next_count count false (is_some change.now.value)) }
    ensures memory { OnErr result (vec_capacity blocks.old < blocks_for (next_count count false (is_some change.now.value))) }
    ensures capacity { vec_capacity blocks.old ≤ vec_capacity blocks.new }
{
    let name = change.name.as_slice();
    match change.value {
        Some((inode, kind)) => put_name(
            alloc,
            blocks,
            marks,
            owner,
            count,
            EntryRef { inode, kind, name },
        ),
        None => Ok(drop_name(blocks, marks, count, name)),
    }
}

/// Changes what stands under each of these names, from the last to the first, and marks the blocks that it writes.
/// Returns how many entries the directory then has. The vector has room for all blocks, so no change is refused.
pub fn change_names(
    alloc: Global,
    blocks: &mut Vec<[u8; BLOCK]>,
    marks: &mut [bool],
    owner: u32,
    count: usize,
    changes: &[NamedEntry<Option<(u32, Kind)>>],
) -> usize
    requires owner { is_inode owner ≡ true }
    requires few { count + coming_count (pairs changes.now) < 2 ^ 62 }
    requires fits { LeadToInodes (pairs changes.now) }
    requires held { AreHeld owner count blocks.old.items }
    requires room { blocks_for (count + coming_count (pairs changes.now)) ≤ vec_capacity blocks.old }
    ensures held { AreHeld owner result blocks.new.items }
    ensures entries { named_entries (entry_at (numbered_blocks blocks.new.items)) result ≡ with_entries (pairs changes.now) (named_entries (entry_at (numbered_blocks blocks.old.items)) count) }
    ensures marks { WereMarked (most_written (pairs changes.now)) marks.old marks.new blocks.old.items blocks.new.items }
{
    let mut after = count;
    'changes: for done in 0..changes.len() {
        let change = &changes[changes.len() - 1 - done];
        let Ok(next) = change_name(alloc, blocks, marks, owner, after, change) else {
            unreachable!()
        };
        after = next;
    }
    after
}

/// Answers whether a directory of `count` entries would have more than `MAX_ENTRIES` after these changes.
pub fn are_too_many(
    blocks: &[[u8; BLOCK]],
    count: usize,
    changes: &[NamedEntry<Option<(u32, Kind)>>],
) -> bool
    requires few { count < 2 ^ 32 }
    requires held { (owner : ℕ) × AreHeld owner count blocks.now }
    requires order { IsInOrder changes.now }
    ensures { IsTrue result ↔ MAX_ENTRIES < fin.len (with_entries (pairs changes.now) (named_entries (entry_at (numbered_blocks blocks.now)) count)) }
{
    if count + coming_count(changes) <= MAX_ENTRIES as usize {
        return false;
    }
    count_after(blocks, count, changes) > MAX_ENTRIES as usize
}

/// Counts the names that are to have an entry after these changes.
pub fn coming_count(changes: &[NamedEntry<Option<(u32, Kind)>>]) -> usize
    ensures count { result ≡ coming_count (pairs changes.now) }
    ensures few { result ≤ length changes.now }
{
    let mut count = 0;
    'changes: for done in 0..changes.len() {
        let change = &changes[changes.len() - 1 - done];
        count = next_count(count, false, change.value.is_some());
    }
    count
}

// How many entries there are after a change.
fn count_after(
    blocks: &[[u8; BLOCK]],
    count: usize,
    changes: &[NamedEntry<Option<(u32, Kind)>>],
) -> usize
    requires few { count < 2 ^ 32 }
    requires held { (owner : ℕ) × AreHeld owner count blocks.now }
    requires order { IsInOrder changes.now }
    ensures { result ≡ fin.len (with_entries (pairs changes.now) (named_entries (entry_at (numbered_blocks blocks.now)) count)) }
{
    let mut after = count;
    'changes: for done in 0..changes.len() {
        let change = &changes[changes.len() - 1 - done];
        let stands = find_in(blocks, change.name.as_slice()).is_some();
        after = next_count(after, stands, change.value.is_some());
    }
    after
}

// How many there are where a name stood or did not, and is to stand there or not.
fn next_count(count: usize, stood: bool, comes: bool) -> usize
    requires room { count < 2 ^ 63 }
    requires some { IsTrue stood → 0 < count }
    ensures { result ≡ next_count count stood comes }
{
    match (stood, comes) {
        (false, true) => count + 1,
        (true, false) => count - 1,
        _ => count,
    }
}
