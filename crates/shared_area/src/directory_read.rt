// The entries of a directory.
ghost use Rattle.std.specs.Prelude.{◌≡◌, ◌≤◌, ◌<◌, ◌+◌, ◌*◌, ℕ, min, length, true, false, OnOk, IfOk, IfErr};
ghost use Rattle.std.specs.FinMap as fin;
ghost use Rattle.posix_calls.specs.declared.limits.TheConstants.{MAX_ENTRIES};
ghost use Rattle.area_reader.specs.layout.declared.directory.TheConstants.{MAX_IN_BLOCK};
ghost use Rattle.area_reader.specs.layout.Directory.{AreEntries, block_entries, fits_entry};
ghost use Rattle.area_reader.specs.layout.LentEntry.{owned_entry};
ghost use Rattle.area_reader.specs.tree_blocks.Inode.{Entry, AreDirectoryBlocks, entry_at, named_entries, blocks_for};
ghost use Rattle.area_reader.specs.Store.{disk, logical_block};
ghost use Rattle.area_reader.specs.Checks.{HasFound, IsOnce};
ghost use Rattle.area_reader.specs.Looks.{Looks};
ghost use Rattle.area_reader.specs.declared.error.AreaError.TheVariants.{DeviceFault, Memory};
ghost use Rattle.shared_area.specs.DirectoryReads.{AreNext};
ghost use Rattle.shared_area.specs.Parts.{IsNoDamage};

use crate::file_read::read_within;
use area_reader::in_batch_journal::Journal;
use area_reader::in_layout::{BLOCK, DirEntries, EntryRef, MAX_IN_BLOCK};
use area_reader::{AreaError, InodeExtents, blank_block};
use record_validation::in_file_graph::{Child, NameMap};
use std::alloc::{AllocError, Global};
use tier_device::Media;

// Puts one more entry.
fn put_entry(
    alloc: Global,
    entries: &mut NameMap<Child>,
    entry: EntryRef<'_>,
) -> Result<(), AllocError>
    requires { fits_entry (owned_entry entry) ≡ true }
    ensures { OnOk result (entries.new ≡ fin.insert entries.old entry.entry.name.now (entry.entry.inode, entry.entry.kind)) }
{
    let owned = entry.to_entry(alloc)?;
    entries.put(owned.name, Child::new(owned.inode, owned.kind))
}

// Puts the entries of a block behind those of a directory up to it.
fn put_entries(alloc: Global, entries: &mut NameMap<Child>, block: &[u8]) -> Result<(), AllocError>
    requires { AreEntries block.now }
    ensures { OnOk result ((entry : ℕ → Entry) (n : ℕ) → AreNext entry n (block_entries block.now) → entries.old ≡ named_entries entry n → entries.new ≡ named_entries entry (n + length (block_entries block.now).entries)) }
{
    let list = DirEntries::from_known(block);
    'entries: for index in 0..list.len() {
        put_entry(alloc, entries, list.entry(index))?;
    }
    Ok(())
}

/// A directory whose entries are read: its inode, where its blocks lie, and how many entries it has.
#[derive(Clone, Copy)]
pub struct FoundDirectory<'a> {
    pub inode: u32,
    pub extents: &'a InodeExtents,
    pub entries: u64,
}

// A block of a directory.
fn read_entry_block<M: Media>(
    journal: &mut Journal<M>,
    inode: u32,
    found: &InodeExtents,
    number: u64,
) -> Result<[u8; BLOCK], AreaError>
    requires few { number < 65536 }
    requires entries { AreEntries (logical_block journal.old.geometry (disk M.Media journal.old) inode number) }
    requires found { HasFound journal.old.geometry (disk M.Media journal.old) inode found.now }
    requires once { IsOnce journal.old.geometry (disk M.Media journal.old) inode }
    requires going { journal.old.failed ≡ false }
    ensures block { IfOk result (λ b. b ≡ logical_block journal.old.geometry (disk M.Media journal.old) inode number) }
    ensures only { IfErr result (λ e. e ≡ DeviceFault) }
    ensures looks { Looks M.Media journal.old journal.new result }
{
    let mut block = blank_block();
    read_within(journal, inode, found, BLOCK as u64 * number, &mut block)?;
    Ok(block)
}

// Puts the entries of one more block of a directory.
fn add_part<M: Media>(
    alloc: Global,
    journal: &mut Journal<M>,
    directory: &FoundDirectory<'_>,
    number: u64,
    map: &mut NameMap<Child>,
) -> Result<(), AreaError>
    requires few { number < 65536 }
    requires within { number < blocks_for directory.now.entries }
    requires directory { AreDirectoryBlocks directory.now.inode directory.now.entries (logical_block journal.old.geometry (disk M.Media journal.old) directory.now.inode) }
    requires found { HasFound journal.old.geometry (disk M.Media journal.old) directory.now.inode directory.now.extents.now }
    requires once { IsOnce journal.old.geometry (disk M.Media journal.old) directory.now.inode }
    requires before { map.old ≡ named_entries (entry_at (logical_block journal.old.geometry (disk M.Media journal.old) directory.now.inode)) (min directory.now.entries (MAX_IN_BLOCK * number)) }
    requires going { journal.old.failed ≡ false }
    ensures after { OnOk result (map.new ≡ named_entries (entry_at (logical_block journal.old.geometry (disk M.Media journal.old) directory.now.inode)) (min directory.now.entries (MAX_IN_BLOCK * (number + 1)))) }
    ensures only { IfErr result IsNoDamage }
    ensures looks { Looks M.Media journal.old journal.new result }
{
    let block = read_entry_block(journal, directory.inode, directory.extents, number)?;
    put_entries(alloc, map, &block)?;
    Ok(())
}

/// Reads the entries of a directory by name. `Memory` where there was none for an entry, and only where it has one; `DeviceFault` where a device fails.
pub fn read_entries<M: Media>(
    alloc: Global,
    journal: &mut Journal<M>,
    directory: &FoundDirectory<'_>,
) -> Result<NameMap<Child>, AreaError>
    requires few { directory.now.entries ≤ MAX_ENTRIES }
    requires directory { AreDirectoryBlocks directory.now.inode directory.now.entries (logical_block journal.old.geometry (disk M.Media journal.old) directory.now.inode) }
    requires found { HasFound journal.old.geometry (disk M.Media journal.old) directory.now.inode directory.now.extents.now }
    requires once { IsOnce journal.old.geometry (disk M.Media journal.old) directory.now.inode }
    requires going { journal.old.failed ≡ false }
    ensures entries { IfOk result (λ m. m ≡ named_entries (entry_at (logical_block journal.old.geometry (disk M.Media journal.old) directory.now.inode)) directory.now.entries) }
    ensures only { IfErr result IsNoDamage }
    ensures memory { IfErr result (λ e. e ≡ Memory → 0 < blocks_for directory.now.entries) }
    ensures looks { Looks M.Media journal.old journal.new result }
{
    let mut map = NameMap::new(alloc);
    let blocks = directory.entries.div_ceil(MAX_IN_BLOCK as u64);
    'parts: for number in 0..blocks {
        add_part(alloc, journal, directory, number, &mut map)?;
    }
    Ok(map)
}
