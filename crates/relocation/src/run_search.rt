// The file of which a run is to be moved.
ghost use Rattle.std.specs.Prelude.{◌≡◌, ◌≤◌, ℕ, Some, None, true, false, IfSome, IfNone, IfOk, IfErr};
ghost use Rattle.tier_device.specs.declared.media.Tier.{Tier};
ghost use Rattle.tier_device.specs.declared.media.Tier.TheVariants as tiers;
ghost use Rattle.inode_plan.specs.layout.Places.{is_inode};
ghost use Rattle.inode_plan.specs.layout.Slot.{fits_slot};
ghost use Rattle.inode_plan.specs.layout.declared.places.TheConstants.{FILE_BLOCKS};
ghost use Rattle.inode_plan.specs.extent_tree.BlockFormat.{LiesWithin};
ghost use Rattle.inode_plan.specs.extent_tree.Map.{runs_in};
ghost use Rattle.inode_plan.specs.area_reader.Store.{disk, slot_read, length_of, space_of};
ghost use Rattle.inode_plan.specs.area_reader.Format.{IsOpenable};
ghost use Rattle.inode_plan.specs.area_reader.Damage.{OnDamage};
ghost use Rattle.inode_plan.specs.area_reader.declared.error.AreaError.TheVariants.{Memory};
ghost use Rattle.inode_plan.specs.area_reader.Looks.{Looks};
ghost use Rattle.inode_plan.specs.area_reader.Map.{HasNoExtents};
ghost use Rattle.inode_plan.specs.Lists.{LieAsIn};
ghost use Rattle.relocation.specs.TierMove.{CanMove};
ghost use Rattle.relocation.specs.MovableFile.{IsWithinFile, IsMovableRun, HasFileRun};

use crate::tier_test::lie_above;
use block_alloc::Run;
use inode_plan::in_area_reader::{AreaError, length_of, read_all_extents, read_slot};
use inode_plan::in_batch_journal::Journal;
use inode_plan::in_extent_tree::BlockMap;
use inode_plan::in_file_graph::is_inode;
use inode_plan::in_layout::Slot;
use inode_plan::map_of;
use std::alloc::Global;
use tier_device::{Media, Tier};

/// A run of logical blocks of a file that is asked for: `count` of them, from block `first` on. What stands at the inode, and whether it has these blocks, is
/// not known yet.
#[derive(Clone, Copy)]
pub struct RunRequest {
    pub inode: u32,
    pub first: u64,
    pub count: u32,
}

/// A file of which a run is to be moved: its slot, where its blocks lie, and the run.
#[derive(Drop)]
pub struct MovableRun {
    pub slot: Slot,
    pub map: BlockMap,
    pub run: Run,
}

// The run, where it has a block or more, all of them blocks of a file.
fn run_of(slot: &Slot, first: u64, count: u32) -> Option<Run>
    requires { length_of slot.now ≤ FILE_BLOCKS }
    ensures first { IfSome result (λ r. r.first ≡ first) }
    ensures count { IfSome result (λ r. r.count ≡ count) }
    ensures within { IfSome result (λ r. IsWithinFile slot.now first count) }
    ensures none { IfNone result (IsWithinFile slot.now first count → ⊥) }
{
    match *slot {
        Slot::File { .. } => {
            let blocks = length_of(slot);
            if count == 0 || blocks < first || blocks - first < count as u64 {
                return None;
            }
            Some(Run {
                first: first as u32,
                count,
            })
        }
        Slot::Directory { .. } => None,
        Slot::Free => None,
    }
}

/// Reads where the blocks of an inode lie that has this slot. A damage names one that spells none that are the inode's; `Memory` where
/// there was none for what one spells, or for the runs.
pub fn read_map<M: Media>(
    alloc: Global,
    journal: &mut Journal<M>,
    inode: u32,
    slot: &Slot,
) -> Result<BlockMap, AreaError>
    requires fits { fits_slot journal.old.geometry slot.now ≡ true }
    requires slot_is { slot_read journal.old.geometry (disk M.Media journal.old) inode ≡ Some slot.now }
    ensures places { IfOk result (LieAsIn journal.old.geometry (disk M.Media journal.old) inode) }
    ensures within { IfOk result (λ m. (t : Tier) → LiesWithin journal.old.geometry (space_of slot.now t) (runs_in m t)) }
    ensures damaged { IfErr result (λ e. OnDamage e (HasNoExtents journal.old.geometry (disk M.Media journal.old tiers.Fast) inode slot.now)) }
    ensures looks { Looks M.Media journal.old journal.new result }
{
    let geometry = journal.geometry();
    let found = read_all_extents(alloc, journal, inode, slot)?;
    Ok(map_of(alloc, &geometry, &found)?)
}

// The run of an inode that has this slot, where it may be moved.
fn find_in<M: Media>(
    alloc: Global,
    journal: &mut Journal<M>,
    inode: u32,
    slot: Slot,
    run: Run,
    to: Tier,
) -> Result<Option<MovableRun>, AreaError>
    requires number { is_inode inode ≡ true }
    requires fits { fits_slot journal.old.geometry slot ≡ true }
    requires slot_is { slot_read journal.old.geometry (disk M.Media journal.old) inode ≡ Some slot }
    requires within { IsWithinFile slot run.first run.count }
    requires opens { IsOpenable journal.old.geometry (disk M.Media journal.old) }
    ensures found { IfOk result (λ x. IfSome x (IsMovableRun journal.old.geometry (disk M.Media journal.old) inode run.first run.count to)) }
    ensures none { IfOk result (λ x. x ≡ None → CanMove journal.old.geometry (disk M.Media journal.old) inode run.first run.count to → ⊥) }
    ensures only { IfErr result (λ e. OnDamage e (λ _ _. ⊥)) }
    ensures looks { Looks M.Media journal.old journal.new result }
{
    let map = read_map(alloc, journal, inode, &slot)?;
    if lie_above(&map, run, to) {
        Ok(Some(MovableRun { slot, map, run }))
    } else {
        Ok(None)
    }
}

/// Finds a run of a file that may be moved to a tier: `None` where the inode is no file, the run has no block or more than 256, or some block of it lies in no
/// faster tier. The slot is read, and the extents of a file that the run lies within. `Memory` where there was none for an extent block, or for where the file's blocks lie: only
/// where there is a file that the run lies within.
pub fn find_run<M: Media>(
    alloc: Global,
    journal: &mut Journal<M>,
    run: RunRequest,
    to: Tier,
) -> Result<Option<MovableRun>, AreaError>
    requires { journal.old.failed ≡ false → IsOpenable journal.old.geometry (disk M.Media journal.old) }
    ensures found { IfOk result (λ x. IfSome x (IsMovableRun journal.old.geometry (disk M.Media journal.old) run.inode run.first run.count to)) }
    ensures none { IfOk result (λ x. x ≡ None → CanMove journal.old.geometry (disk M.Media journal.old) run.inode run.first run.count to → ⊥) }
    ensures only { IfErr result (λ e. OnDamage e (λ _ _. ⊥)) }
    ensures memory { IfErr result (λ e. e ≡ Memory → HasFileRun journal.old.geometry (disk M.Media journal.old) run.inode run.first run.count) }
    ensures looks { Looks M.Media journal.old journal.new result }
{
    if journal.has_failed() {
        return Err(AreaError::DeviceFault);
    }
    if !is_inode(run.inode) {
        return Ok(None);
    }
    let slot = read_slot(journal, run.inode)?;
    match run_of(&slot, run.first, run.count) {
        Some(its) => find_in(alloc, journal, run.inode, slot, its, to),
        None => Ok(None),
    }
}
