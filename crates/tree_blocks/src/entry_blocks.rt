//! Blocks of entries, one behind the other.

ghost use Rattle.std.specs.Prelude.{◌≡◌, ◌≢◌, ◌≤◌, ◌<◌, ◌/◌, ◌%◌, ◌+◌, ◌*◌, ◌-◌, ◌^◌, ℕ, [], ◌∷◌, length, get_or, true, IfNone, IfSome, OnOk, OnErr, vec_capacity};
ghost use Rattle.layout.specs.Places.{is_inode};
ghost use Rattle.layout.specs.LentEntry.{owned_entry};
ghost use Rattle.layout.specs.Directory.{AreEntries, block_entries, fits_entry, are_distinct, with_entry_at, without_last, entry_of};
ghost use Rattle.layout.specs.declared.directory.TheConstants.{MAX_IN_BLOCK};
ghost use Rattle.tree_blocks.specs.Inode.{plain, entry_at, blocks_for, IsAbsent, AreDirectoryBlocks};
ghost use Rattle.tree_blocks.specs.Directory.{numbered_blocks, HaveOneMore, HaveOneLess};

use layout::{
    BLOCK, DirBlock, DirEntries, EntryRef, MAX_IN_BLOCK, add_entry, remove_last, set_entry,
    take_entry,
};
use std::alloc::{AllocError, Global};

/// Finds the entry of a name: its number, `MAX_IN_BLOCK` a block. `None` if no block has one.
pub fn find_in(blocks: &[[u8; BLOCK]], name: &[u8]) -> Option<usize>
    requires entries { (k : ℕ) → k < length blocks.now → AreEntries (numbered_blocks blocks.now k) }
    ensures found { IfSome result (λ e. (e / MAX_IN_BLOCK < length blocks.now) × (e % MAX_IN_BLOCK < length (block_entries (numbered_blocks blocks.now (e / MAX_IN_BLOCK))).entries) × ((entry_of (block_entries (numbered_blocks blocks.now (e / MAX_IN_BLOCK))) (e % MAX_IN_BLOCK)).name ≡ name.now)) }
    ensures absent { IfNone result ((k i : ℕ) → k < length blocks.now → i < length (block_entries (numbered_blocks blocks.now k)).entries → (entry_of (block_entries (numbered_blocks blocks.now k)) i).name ≢ name.now) }
{
    'blocks: for k in 0..blocks.len() {
        if let Some(index) = DirEntries::from_known(&blocks[k]).find(name) {
            return Some(MAX_IN_BLOCK * k + index);
        }
    }
    None
}

/// Makes a block with one entry, the first of directory `owner`.
pub fn first_of(alloc: Global, owner: u32, entry: EntryRef<'_>) -> [u8; BLOCK]
    requires owner { is_inode owner ≡ true }
    requires fits { fits_entry (owned_entry entry) ≡ true }
    ensures entries { AreEntries result }
    ensures listed { block_entries result ≡ record { owner = owner; entries = owned_entry entry.entry ∷ [] } }
{
    let mut block = blank_of(alloc, owner);
    add_entry(&mut block, entry);
    block
}

// A block of no entry.
fn blank_of(alloc: Global, owner: u32) -> [u8; BLOCK]
    requires { is_inode owner ≡ true }
    ensures entries { AreEntries result }
    ensures listed { block_entries result ≡ record { owner = owner; entries = [] } }
{
    let mut block = [0; BLOCK];
    DirBlock::new(owner, Vec::new(alloc)).encode(&mut block);
    block
}

/// Writes the last entry of block `from` over entry `index` of block `to`, which is before it, and removes it from `from`.
pub fn move_last(blocks: &mut [[u8; BLOCK]], to: usize, index: usize, from: usize)
    requires order { to < from }
    requires room { from < length blocks.old }
    requires target { AreEntries (numbered_blocks blocks.old to) }
    requires source { AreEntries (numbered_blocks blocks.old from) }
    requires inside { index < length (block_entries (numbered_blocks blocks.old to)).entries }
    requires some { 0 < length (block_entries (numbered_blocks blocks.old from)).entries }
    requires distinct { are_distinct (with_entry_at (block_entries (numbered_blocks blocks.old to)) index (entry_of (block_entries (numbered_blocks blocks.old from)) (length (block_entries (numbered_blocks blocks.old from)).entries - 1))).entries ≡ true }
    ensures target { AreEntries (numbered_blocks blocks.new to) }
    ensures source { AreEntries (numbered_blocks blocks.new from) }
    ensures moved { block_entries (numbered_blocks blocks.new to) ≡ with_entry_at (block_entries (numbered_blocks blocks.old to)) index (entry_of (block_entries (numbered_blocks blocks.old from)) (length (block_entries (numbered_blocks blocks.old from)).entries - 1)) }
    ensures left { block_entries (numbered_blocks blocks.new from) ≡ without_last (block_entries (numbered_blocks blocks.old from)) }
    ensures others { (k : ℕ) → k ≢ to → k ≢ from → numbered_blocks blocks.new k ≡ numbered_blocks blocks.old k }
    ensures long { length blocks.new ≡ length blocks.old }
{
    let source = blocks[from];
    let entries = DirEntries::from_known(&source);
    let last = entries.entry(entries.len() - 1);
    set_entry(&mut blocks[to], index, last);
    remove_last(&mut blocks[from]);
}

/// Adds an entry behind the `count` that a directory has. Refused for want of memory alone, with the blocks as they were,
/// and only if the last block is full and the vector has no room for another.
pub fn add_to(
    alloc: Global,
    blocks: &mut Vec<[u8; BLOCK]>,
    owner: u32,
    count: usize,
    entry: EntryRef<'_>,
) -> Result<(), AllocError>
    requires owner { is_inode owner ≡ true }
    requires fits { fits_entry (owned_entry entry) ≡ true }
    requires long { length blocks.old.items ≡ blocks_for count }
    requires directory { AreDirectoryBlocks owner count (numbered_blocks blocks.old.items) }
    requires new { IsAbsent entry.name.now (entry_at (numbered_blocks blocks.old.items)) count }
    ensures more { OnOk result (HaveOneMore owner count (plain (owned_entry entry.entry)) blocks.old.items blocks.new.items) }
    ensures err { OnErr result (blocks.new.items ≡ blocks.old.items) }
    ensures memory { OnErr result ((count % MAX_IN_BLOCK ≡ 0) × (vec_capacity blocks.old ≤ length blocks.old.items)) }
    ensures capacity { vec_capacity blocks.old ≤ vec_capacity blocks.new }
{
    if count % MAX_IN_BLOCK != 0 {
        fill_block(blocks, count, entry);
        return Ok(());
    }
    blocks.push(first_of(alloc, owner, entry))?;
    Ok(())
}

/// Adds an entry behind the others of the last block, which has room. Takes no memory.
pub fn fill_block(blocks: &mut [[u8; BLOCK]], count: usize, entry: EntryRef<'_>)
    requires fits { fits_entry (owned_entry entry) ≡ true }
    requires long { length blocks.old ≡ blocks_for count }
    requires directory { (owner : ℕ) × AreDirectoryBlocks owner count (numbered_blocks blocks.old) }
    requires new { IsAbsent entry.name.now (entry_at (numbered_blocks blocks.old)) count }
    requires room { count % MAX_IN_BLOCK ≢ 0 }
    ensures more { (owner : ℕ) → AreDirectoryBlocks owner count (numbered_blocks blocks.old) → HaveOneMore owner count (plain (owned_entry entry.entry)) blocks.old blocks.new }
{
    add_entry(&mut blocks[count / MAX_IN_BLOCK], entry);
}

/// Writes entry `last`, the last one, over entry `number`, which may be the same, and removes it from its place.
pub fn put_last_at(blocks: &mut [[u8; BLOCK]], number: usize, last: usize)
    requires inside { number ≤ last }
    requires long { length blocks.old ≡ blocks_for (last + 1) }
    requires directory { (owner : ℕ) × AreDirectoryBlocks owner (last + 1) (numbered_blocks blocks.old) }
    ensures less { (owner : ℕ) → AreDirectoryBlocks owner (last + 1) (numbered_blocks blocks.old) → HaveOneLess owner last number (numbered_blocks blocks.old) (numbered_blocks blocks.new) }
    ensures others { (k : ℕ) → k ≢ number / MAX_IN_BLOCK → k ≢ last / MAX_IN_BLOCK → numbered_blocks blocks.new k ≡ numbered_blocks blocks.old k }
    ensures long { length blocks.new ≡ length blocks.old }
{
    let to = number / MAX_IN_BLOCK;
    let from = last / MAX_IN_BLOCK;
    if to == from {
        take_entry(&mut blocks[to], number % MAX_IN_BLOCK);
    } else {
        move_last(blocks, to, number % MAX_IN_BLOCK, from);
    }
}

/// Removes entry `number`: entry `last`, the last one, takes its place, and a block that then has none is dropped.
pub fn take_from(blocks: &mut Vec<[u8; BLOCK]>, number: usize, last: usize)
    requires inside { number ≤ last }
    requires long { length blocks.old.items ≡ blocks_for (last + 1) }
    requires directory { (owner : ℕ) × AreDirectoryBlocks owner (last + 1) (numbered_blocks blocks.old.items) }
    ensures less { (owner : ℕ) → AreDirectoryBlocks owner (last + 1) (numbered_blocks blocks.old.items) → HaveOneLess owner last number (numbered_blocks blocks.old.items) (numbered_blocks blocks.new.items) }
    ensures others { (k : ℕ) → k ≢ number / MAX_IN_BLOCK → k ≢ last / MAX_IN_BLOCK → numbered_blocks blocks.new.items k ≡ numbered_blocks blocks.old.items k }
    ensures long { length blocks.new.items ≡ blocks_for last }
    ensures capacity { vec_capacity blocks.new ≡ vec_capacity blocks.old }
{
    put_last_at(blocks, number, last);
    blocks.truncate(last.div_ceil(MAX_IN_BLOCK));
}
