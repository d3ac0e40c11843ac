// The file that a change starts from.
ghost use Rattle.std.specs.Prelude.{◌≡◌, ◌⊎◌, ℕ, [], Some, true, IfOk, IfErr};
ghost use Rattle.inode_plan.specs.file_graph.declared.effect.Kind.TheVariants as kind;
ghost use Rattle.inode_plan.specs.graph_change.Net.{Kept, Made};
ghost use Rattle.inode_plan.specs.layout.Places.{Sizes, is_inode};
ghost use Rattle.inode_plan.specs.tree_blocks.Inode.{inode_of};
ghost use Rattle.inode_plan.specs.area_reader.Store.{Store, disk, slot_read};
ghost use Rattle.inode_plan.specs.area_reader.Format.{IsSpelled};
ghost use Rattle.inode_plan.specs.area_reader.Looks.{Looks};
ghost use Rattle.inode_plan.specs.area_reader.declared.error.AreaError.TheVariants.{DeviceFault, Memory};
ghost use Rattle.change_plan.specs.FileStart.{IsStartedFile};

use inode_plan::in_area_reader::{AreaError, InodeExtents, read_all_extents};
use inode_plan::in_batch_journal::Journal;
use inode_plan::in_extent_tree::BlockMap;
use inode_plan::in_layout::Slot;
use inode_plan::map_of;
use std::alloc::Global;
use tier_device::Media;

/// A file that a change starts from: its slot, where its blocks lie, and its extents, where it was there.
#[derive(Drop)]
pub struct StartedFile {
    pub slot: Slot,
    pub map: BlockMap,
    pub found: Option<InodeExtents>,
}

/// A new file, which has no blocks.
pub fn made_file(alloc: Global) -> StartedFile
    ensures { (g : Sizes) (s : Store) (i : ℕ) → IsStartedFile g s (Made kind.File) i result }
{
    StartedFile {
        slot: Slot::Free,
        map: BlockMap::new(alloc),
        found: None,
    }
}

/// Reads the file that an inode is, by its slot: its extents, and no byte of its content. `Memory` where there was none for them, or for where its blocks lie.
pub fn read_file<M: Media>(
    alloc: Global,
    journal: &mut Journal<M>,
    inode: u32,
    slot: &Slot,
) -> Result<StartedFile, AreaError>
    requires number { is_inode inode ≡ true }
    requires slot_is { slot_read journal.old.geometry (disk M.Media journal.old) inode ≡ Some slot.now }
    requires file { (inode_of slot.now (λ k. [])).kind ≡ Some kind.File }
    requires spelled { IsSpelled journal.old.geometry (disk M.Media journal.old) }
    ensures started { IfOk result (IsStartedFile journal.old.geometry (disk M.Media journal.old) Kept inode) }
    ensures only { IfErr result (λ e. (e ≡ DeviceFault) ⊎ (e ≡ Memory)) }
    ensures looks { Looks M.Media journal.old journal.new result }
{
    let geometry = journal.geometry();
    let found = read_all_extents(alloc, journal, inode, slot)?;
    let map = map_of(alloc, &geometry, &found)?;
    Ok(StartedFile {
        slot: *slot,
        map,
        found: Some(found),
    })
}
