// A directory that a change starts from.
ghost use Rattle.std.specs.Prelude.{◌≡◌, ◌<◌, ◌⊎◌, [], true, false, IfOk, IfErr};
ghost use Rattle.area_commit.specs.layout.Places.{Sizes, is_inode};
ghost use Rattle.area_commit.specs.file_graph.declared.effect.Kind.TheVariants as kind;
ghost use Rattle.area_commit.specs.graph_change.Net.{Kept, Made};
ghost use Rattle.area_commit.specs.tree_blocks.Inode.{inode_of};
ghost use Rattle.area_commit.specs.tree_blocks.Directory.{IsHeld};
ghost use Rattle.area_commit.specs.area_reader.Store.{Store, disk, length_of};
ghost use Rattle.area_commit.specs.area_reader.Looks.{Looks};
ghost use Rattle.area_commit.specs.area_reader.declared.error.AreaError.TheVariants.{DeviceFault, Memory};
ghost use Rattle.inode_plan.specs.DirectoryStart.{AreDirectoryParts, IsStarted, IsSoundStart};

use crate::blocks::{DirectoryBlocks, directory_blocks};
use crate::directory_reads::{read_places, read_root};
use area_commit::in_area_reader::{AreaError, InodeParts, blank_block};
use area_commit::in_batch_journal::Journal;
use area_commit::in_layout::{BLOCK, Slot};
use area_commit::in_tree_blocks::Directory;
use std::alloc::Global;
use tier_device::Media;

/// A directory that a change starts from: how many names it has, its entries in their blocks, the blocks of the medium that it has, and what stands in the one that lists them.
#[derive(Drop)]
pub struct StartedDirectory {
    pub names: u32,
    pub entries: Directory,
    pub blocks: DirectoryBlocks,
    pub list: [u8; BLOCK],
}

/// A new directory, without names and entries; it has no block.
pub fn made_directory(alloc: Global, inode: u32) -> StartedDirectory
    requires { is_inode inode ≡ true }
    ensures started { (g : Sizes) (s : Store) → IsStarted g s (Made kind.Directory) inode result }
    ensures sound { (g : Sizes) → IsSoundStart g result }
{
    let list = blank_block();
    StartedDirectory {
        names: 0,
        entries: Directory::new(alloc, inode),
        blocks: DirectoryBlocks {
            root: 0,
            places: Vec::new(alloc),
        },
        list,
    }
}

// How many names a node has, by its slot.
fn names_of(slot: &Slot) -> u32
    ensures { result ≡ (inode_of slot.now (λ k. [])).names }
{
    match *slot {
        Slot::Directory { names, .. } => names,
        Slot::File { names, .. } => names,
        Slot::Free => 0,
    }
}

// Its size, which is how many entries a directory has.
fn size_of(slot: &Slot) -> usize
    ensures { result ≡ (inode_of slot.now (λ k. [])).size }
{
    match *slot {
        Slot::Directory { entries, .. } => entries as usize,
        Slot::File { size, .. } => size as usize,
        Slot::Free => 0,
    }
}

// The directory of a slot, with the blocks that it has and what stands in them.
fn directory_of(
    alloc: Global,
    inode: u32,
    slot: &Slot,
    blocks: DirectoryBlocks,
    list: [u8; BLOCK],
    held: Vec<[u8; BLOCK]>,
) -> StartedDirectory
    requires { IsHeld (record { owner = inode; count = (inode_of slot.now (λ k. [])).size; blocks = held.items }) }
    ensures names { result.names ≡ (inode_of slot.now (λ k. [])).names }
    ensures entries { result.entries ≡ record { owner = inode; count = (inode_of slot.now (λ k. [])).size; blocks = held.items } }
    ensures blocks { result.blocks ≡ blocks }
    ensures list { result.list ≡ list }
{
    StartedDirectory {
        names: names_of(slot),
        entries: Directory::from_blocks(alloc, inode, size_of(slot), held),
        blocks,
        list,
    }
}

/// Reads the directory that an inode is into memory, from its slot and its extents: the block that lists where its blocks lie, and all of these. `Memory` where
/// there was none for them.
pub fn read_directory<M: Media>(
    alloc: Global,
    journal: &mut Journal<M>,
    inode: u32,
    parts: &InodeParts,
) -> Result<StartedDirectory, AreaError>
    requires parts { AreDirectoryParts journal.old.geometry (disk M.Media journal.old) inode parts.now }
    requires going { journal.old.failed ≡ false }
    ensures started { IfOk result (IsStarted journal.old.geometry (disk M.Media journal.old) Kept inode) }
    ensures sound { IfOk result (IsSoundStart journal.old.geometry) }
    ensures only { IfErr result (λ e. (e ≡ DeviceFault) ⊎ (e ≡ Memory)) }
    ensures memory { IfErr result (λ e. e ≡ Memory → 0 < length_of parts.now.slot) }
    ensures looks { Looks M.Media journal.old journal.new result }
{
    let geometry = journal.geometry();
    let blocks = directory_blocks(alloc, &geometry, parts)?;
    let list = read_root(journal, blocks.root)?;
    let held = read_places(alloc, journal, &blocks.places)?;
    Ok(directory_of(alloc, inode, &parts.slot, blocks, list, held))
}
