// The blocks of a directory.
ghost use Rattle.std.specs.Prelude.{◌≡◌, ◌≢◌, ◌<◌, ◌≤◌, ℕ, length, ◌+◌, MatchBool, true, false, IfOk, OnOk, IfErr};
ghost use Rattle.batch_journal.specs.layout.Directory.{AreEntries, block_entries};
ghost use Rattle.batch_journal.specs.layout.Places.{slot_block};
ghost use Rattle.batch_journal.specs.layout.declared.error.What.TheVariants as what;
ghost use Rattle.tree_blocks.specs.Inode.{IsDirectoryBlock, entries_in, blocks_for};
ghost use Rattle.area_reader.specs.Names.{AddsNames, SharesName};
ghost use Rattle.area_reader.specs.Store.{disk};
ghost use Rattle.area_reader.specs.Damage.{OnDamage};
ghost use Rattle.area_reader.specs.Checks.{IsEntries, HasFound, AreFirstParts, HasPart, IsDirectoryDamageOf};
ghost use Rattle.area_reader.specs.Looks.{Looks};
ghost use Rattle.area_reader.specs.declared.error.AreaError.TheVariants.{Damaged, Memory};

use crate::block_reads::{blank_block, read_block};
use crate::error::AreaError;
use crate::names::Names;
use crate::places::first_place;
use crate::tail::block_number;
use crate::tiers::InodeExtents;
use batch_journal::Journal;
use batch_journal::in_layout::{BLOCK, DirEntries, MAX_IN_BLOCK, What, slot_block};
use posix_calls::MAX_INODE;
use std::alloc::{AllocError, Global};
use tier_device::Media;

// How many of so many entries stand in a block.
fn entries_in(entries: u64, number: u64) -> u64
    requires { number < 65536 }
    ensures { result ≡ entries_in entries number }
{
    let left = entries.saturating_sub(MAX_IN_BLOCK as u64 * number);
    if left < MAX_IN_BLOCK as u64 {
        left
    } else {
        MAX_IN_BLOCK as u64
    }
}

// Whether a block is that part of a directory of so many entries.
fn is_part(block: &[u8; BLOCK], at: u32, inode: u32, entries: u64, number: u64) -> bool
    requires { number < 65536 }
    ensures { MatchBool result (IsDirectoryBlock inode entries number block.now) (IsDirectoryBlock inode entries number block.now → ⊥) }
{
    match DirEntries::read(at, block) {
        Ok(list) => list.owner() == inode && list.len() as u64 == entries_in(entries, number),
        Err(_) => false,
    }
}

// Adds the names of a block's entries, and tells whether all were new ones; else the names are of no use.
fn add_names(alloc: Global, names: &mut Names, block: &[u8; BLOCK]) -> Result<bool, AllocError>
    requires { AreEntries block.now }
    ensures { IfOk result (λ new. MatchBool new (AddsNames block.now (length (block_entries block.now).entries) names.old names.new) (SharesName block.now names.old)) }
{
    let list = DirEntries::from_known(block);
    'entries: for index in 0..list.len() {
        let entry = list.entry(index);
        let is_new = names.add(alloc, entry.name)?;
        if !is_new {
            return Ok(false);
        }
    }
    Ok(true)
}

/// A block of a directory: the directory's inode, where its blocks lie, how many entries it has, and the block's number.
#[derive(Clone, Copy)]
pub struct DirectoryPart<'a> {
    pub inode: u32,
    pub found: &'a InodeExtents,
    pub entries: u64,
    pub number: u64,
}

/// Reads the next block of a directory, of which so many were read before, and adds its names to theirs.
pub fn check_part<M: Media>(
    alloc: Global,
    journal: &mut Journal<M>,
    part: DirectoryPart<'_>,
    names: &mut Names,
) -> Result<(), AreaError>
    requires low { 1 ≤ part.inode }
    requires high { part.inode ≤ MAX_INODE }
    requires directory { IsEntries journal.old.geometry (disk M.Media journal.old) part.inode part.entries }
    requires found { HasFound journal.old.geometry (disk M.Media journal.old) part.inode part.found.now }
    requires before { AreFirstParts journal.old.geometry (disk M.Media journal.old) part.inode part.entries part.number names.old }
    requires more { part.number < blocks_for part.entries }
    requires few { part.number < 65536 }
    requires going { journal.old.failed ≡ false }
    ensures parts { OnOk result (AreFirstParts journal.old.geometry (disk M.Media journal.old) part.entry.inode part.entry.entries (part.entry.number + 1) names.new) }
    ensures damaged { IfErr result (λ e. OnDamage e (IsDirectoryDamageOf journal.old.geometry (disk M.Media journal.old) part.entry.inode)) }
    ensures memory { IfErr result (λ e. e ≡ Memory → HasPart journal.old.geometry (disk M.Media journal.old) part.entry.inode) }
    ensures looks { Looks M.Media journal.old journal.new result }
{
    let geometry = journal.geometry();
    let Some((tier, place)) = first_place(part.found, part.number) else {
        return Err(AreaError::Damaged {
            what: What::Slot,
            block: slot_block(part.inode),
        });
    };
    let at = block_number(&geometry, tier, place);
    let mut block = blank_block();
    read_block(journal, tier, at, &mut block)?;
    if !is_part(&block, at, part.inode, part.entries, part.number) {
        return Err(entries_damaged(at));
    }
    let is_new = add_names(alloc, names, &block)?;
    if !is_new {
        return Err(entries_damaged(at));
    }
    Ok(())
}

fn entries_damaged(at: u32) -> AreaError
    ensures { result ≡ Damaged what.DirBlock at }
{
    AreaError::Damaged {
        what: What::DirBlock,
        block: at,
    }
}
