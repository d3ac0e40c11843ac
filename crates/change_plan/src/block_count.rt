// How many data blocks a change wants.
ghost use Rattle.std.specs.Prelude.{◌≡◌, ◌⊎◌, ℕ, List, Some, true, false, length, IfOk, IfErr, OnErr};
ghost use Rattle.std.specs.FinMap as fin;
ghost use Rattle.inode_plan.specs.graph_change.Bounds.{AreBounded};
ghost use Rattle.inode_plan.specs.graph_change.Change.{Changes, change_at, writes_block};
ghost use Rattle.inode_plan.specs.graph_change.Tidy.{AreTidyChanges};
ghost use Rattle.inode_plan.specs.graph_change.View.{change_of, changes_of};
ghost use Rattle.inode_plan.specs.layout.Places.{Sizes, is_inode};
ghost use Rattle.inode_plan.specs.area_reader.Store.{Store, disk, slot_read};
ghost use Rattle.inode_plan.specs.area_reader.Format.{IsSpelled};
ghost use Rattle.inode_plan.specs.area_reader.Looks.{Looks};
ghost use Rattle.inode_plan.specs.area_reader.declared.error.AreaError.TheVariants.{DeviceFault, Memory};
ghost use Rattle.inode_plan.specs.layout.declared.places.TheConstants.{FILE_BLOCKS};
ghost use Rattle.inode_plan.specs.extent_tree.Map.{lies_at, LieBelow};
ghost use Rattle.inode_plan.specs.area_commit.InodeChange.{places_from, writes_over};
ghost use Rattle.change_plan.specs.FileLayout.{LeavesFile};
ghost use Rattle.change_plan.specs.Next.{WantsData};
ghost use Rattle.change_plan.specs.BlockDemand.{WantsBlocks, AreWritten};
ghost use Rattle.change_plan.specs.ReadSlots.{HaveSlots};

use crate::file_part::start_file;
use crate::file_start::StartedFile;
use crate::kinds::kind_from;
use crate::read_change::ReadChange;
use inode_plan::in_area_reader::AreaError;
use inode_plan::in_batch_journal::Journal;
use inode_plan::in_extent_tree::BlockMap;
use inode_plan::in_file_graph::Kind;
use inode_plan::in_graph_change::NodeChange;
use inode_plan::in_layout::Slot;
use inode_plan::{cut_alone, written_numbers};
use std::alloc::Global;
use tier_device::Media;

// Where the blocks of a file lie that a change starts from, as far as that decides which of them it writes: its extents are read only
// where the change cuts within a block into which no bytes were put.
fn map_before<M: Media>(
    alloc: Global,
    journal: &mut Journal<M>,
    inode: u32,
    slot: &Slot,
    change: &NodeChange,
) -> Result<BlockMap, AreaError>
    requires spelled { IsSpelled journal.old.geometry (disk M.Media journal.old) }
    requires number { is_inode inode ≡ true }
    requires slot_is { slot_read journal.old.geometry (disk M.Media journal.old) inode ≡ Some slot.now }
    requires is_file { LeavesFile journal.old.geometry (disk M.Media journal.old) (change_of change.now) inode }
    requires going { journal.old.failed ≡ false }
    ensures same { IfOk result (λ map. (k : ℕ) → writes_over (lies_at map) (change_of change.now) k ≡ writes_over (places_from journal.old.geometry (disk M.Media journal.old) inode (change_of change.now).base) (change_of change.now) k) }
    ensures below { IfOk result (LieBelow FILE_BLOCKS) }
    ensures only { IfErr result (λ e. (e ≡ DeviceFault) ⊎ (e ≡ Memory)) }
    ensures memory { IfErr result (λ e. e ≡ Memory → (k : ℕ) × (writes_block (change_of change.now) k ≡ true)) }
    ensures looks { Looks M.Media journal.old journal.new result }
{
    match cut_alone(change) {
        Some(_) => {
            let file = start_file(alloc, journal, inode, slot, change.base)?;
            let StartedFile { map, .. } = file;
            Ok(map)
        }
        None => Ok(BlockMap::new(alloc)),
    }
}

// How many data blocks the change of an inode wants that has this slot, and is a file then.
fn count_written<M: Media>(
    alloc: Global,
    journal: &mut Journal<M>,
    inode: u32,
    slot: &Slot,
    change: &NodeChange,
) -> Result<usize, AreaError>
    requires spelled { IsSpelled journal.old.geometry (disk M.Media journal.old) }
    requires number { is_inode inode ≡ true }
    requires slot_is { slot_read journal.old.geometry (disk M.Media journal.old) inode ≡ Some slot.now }
    requires is_file { LeavesFile journal.old.geometry (disk M.Media journal.old) (change_of change.now) inode }
    requires going { journal.old.failed ≡ false }
    ensures wanted { IfOk result (WantsData journal.old.geometry (disk M.Media journal.old) (change_of change.now) inode) }
    ensures only { IfErr result (λ e. (e ≡ DeviceFault) ⊎ (e ≡ Memory)) }
    ensures memory { IfErr result (λ e. e ≡ Memory → (k : ℕ) × (writes_block (change_of change.now) k ≡ true)) }
    ensures looks { Looks M.Media journal.old journal.new result }
{
    let map = map_before(alloc, journal, inode, slot, change)?;
    let numbers = written_numbers(alloc, change, &map)?;
    Ok(numbers.len())
}

// How many data blocks the change of an inode wants that has this slot.
fn blocks_for<M: Media>(
    alloc: Global,
    journal: &mut Journal<M>,
    inode: u32,
    slot: &Slot,
    change: &NodeChange,
) -> Result<usize, AreaError>
    requires spelled { IsSpelled journal.old.geometry (disk M.Media journal.old) }
    requires number { is_inode inode ≡ true }
    requires slot_is { slot_read journal.old.geometry (disk M.Media journal.old) inode ≡ Some slot.now }
    requires going { journal.old.failed ≡ false }
    ensures wanted { IfOk result (WantsData journal.old.geometry (disk M.Media journal.old) (change_of change.now) inode) }
    ensures only { IfErr result (λ e. (e ≡ DeviceFault) ⊎ (e ≡ Memory)) }
    ensures memory { IfErr result (λ e. e ≡ Memory → LeavesFile journal.old.geometry (disk M.Media journal.old) (change_of change.now) inode × (k : ℕ) × (writes_block (change_of change.now) k ≡ true)) }
    ensures looks { Looks M.Media journal.old journal.new result }
{
    match kind_from(change.base, slot) {
        Some(Kind::File) => count_written(alloc, journal, inode, slot, change),
        Some(Kind::Directory) => Ok(0),
        None => Ok(0),
    }
}

/// How many data blocks a change wants: one for each block of a file that it writes. The extents of a file are read for that which it cuts
/// within a block into which no bytes were put. `Memory` where there was none for these or for the numbers of a file's blocks, and only
/// where bytes were put into a file that the change leaves, or it is cut within a block.
pub fn count_blocks<M: Media>(
    alloc: Global,
    journal: &mut Journal<M>,
    read: &ReadChange<'_>,
) -> Result<usize, AreaError>
    requires going { journal.old.failed ≡ false }
    requires spelled { IsSpelled journal.old.geometry (disk M.Media journal.old) }
    requires bounded { AreBounded (changes_of read.now.change.now) }
    requires tidy { AreTidyChanges (changes_of read.now.change.now) }
    requires slots { HaveSlots journal.old.geometry (disk M.Media journal.old) (fin.keys (changes_of read.now.change.now)) read.now.slots.now }
    ensures wanted { IfOk result (WantsBlocks journal.old.geometry (disk M.Media journal.old) (changes_of read.now.change.now)) }
    ensures only { IfErr result (λ e. (e ≡ DeviceFault) ⊎ (e ≡ Memory)) }
    ensures memory { IfErr result (λ e. e ≡ Memory → (i : ℕ) × (k : ℕ) × (fin.contains_key (changes_of read.now.change.now) i ≡ true) × LeavesFile journal.old.geometry (disk M.Media journal.old) (change_at (changes_of read.now.change.now) i) i × (writes_block (change_at (changes_of read.now.change.now) i) k ≡ true)) }
    ensures looks { Looks M.Media journal.old journal.new result }
{
    let mut count = 0;
    let mut at = 0;
    'nodes: for (inode, node) in read.change.nodes.iter() {
        let slot = read.slots[at].slot;
        let more = blocks_for(alloc, journal, *inode, &slot, node)?;
        count += more;
        at += 1;
    }
    Ok(count)
}

/// The data blocks that a change wants are for blocks of files, each of which it writes and leaves in a file; so many of them there are.
pub fn wanted_blocks_are_written()
    ensures { (g : Sizes) (s : Store) (cs : Changes) (count : ℕ) → WantsBlocks g s cs count → AreBounded cs → AreTidyChanges cs → (blocks : List (ℕ × ℕ)) × AreWritten g s cs blocks × (length blocks ≡ count) }
{}
