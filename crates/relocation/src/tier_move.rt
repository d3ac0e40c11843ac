// A run of a file's blocks is moved to a slower tier.
ghost use Rattle.std.specs.Prelude.{◌≡◌, ◌≢◌, ◌≤◌, ◌<◌, ◌+◌, ◌⊎◌, true, false, length, Err, OnOk, OnErr, IfErr, IsErrOf};
ghost use Rattle.tier_device.specs.Media.{Rose};
ghost use Rattle.inode_plan.specs.area_reader.Store.{disk};
ghost use Rattle.inode_plan.specs.area_reader.Refusals.{IsMoveRefusal};
ghost use Rattle.inode_plan.specs.area_commit.Value.{data_pool};
ghost use Rattle.inode_plan.specs.area_commit.Allocations.{SameFree};
ghost use Rattle.relocation.specs.MovableFile.{HasFileRun};
ghost use Rattle.relocation.specs.TierMove.{CanMove};
ghost use Rattle.inode_plan.specs.area_reader.declared.error.AreaError.TheVariants.{DeviceFault, NotMapped, NoBlock, Memory};
ghost use Rattle.relocation.specs.RunMove.{IsSettled, IsMovedStore, Moves, MovesInFewCalls, StaysStill, EndsMove};

use crate::run_move::{FileMove, move_run};
use crate::{RunRequest, find_run};
use inode_plan::in_area_commit::Pools;
use inode_plan::in_area_reader::AreaError;
use inode_plan::in_batch_journal::Journal;
use std::alloc::Global;
use tier_device::{Media, Tier};

// Finds the run on media of which no device has failed, and moves it.
fn move_found<M: Media>(
    alloc: Global,
    journal: &mut Journal<M>,
    pools: &mut Pools,
    run: RunRequest,
    to: Tier,
) -> Result<(), AreaError>
    requires going { journal.old.failed ≡ false }
    requires settled { IsSettled journal.old.geometry (M.seen journal.old.media) (M.left journal.old.media (M.moment journal.old.media)) pools.old }
    ensures ends { EndsMove M.Media run.inode run.first run.count to journal.old journal.new pools.new result }
    ensures same { OnErr result (SameFree pools.old pools.new) }
    ensures can { OnOk result (CanMove journal.old.geometry (disk M.Media journal.old) run.inode run.first run.count to × (run.count ≤ length (data_pool pools.old to).free)) }
    ensures not_mapped { IsErrOf result NotMapped → CanMove journal.old.geometry (disk M.Media journal.old) run.inode run.first run.count to → ⊥ }
    ensures no_block { IsErrOf result NoBlock → CanMove journal.old.geometry (disk M.Media journal.old) run.inode run.first run.count to × (length (data_pool pools.old to).free < run.count) }
    ensures memory { IsErrOf result Memory → HasFileRun journal.old.geometry (disk M.Media journal.old) run.inode run.first run.count }
    ensures only { IfErr result IsMoveRefusal }
{
    // For the proof: a stop now leaves what is read.
    journal.left_now();
    match find_run(alloc, journal, run, to)? {
        Some(file) => {
            let inode = run.inode;
            move_run(alloc, journal, pools, FileMove { inode, to, file })
        }
        None => Err(AreaError::NotMapped),
    }
}

/// Moves a run of logical blocks of a file to a tier that is slower than those in which they lie: into the lowest blocks that are free
/// there. The bytes go to their new places and are fenced first; then one batch writes what the file is; then the old places are free. So a stop at any moment leaves the run
/// where it lay, or all of it moved, and in both cases the same files with the same bytes. When its bytes are read, and by how many reads, is
/// a matter of cost alone.
///
/// The refusals, in this order: `DeviceFault` where a device has failed before, and nothing is touched then; `NotMapped` where there is no file, the run has no block or more
/// than 256, or some block of it lies in no faster tier; `NoBlock` where fewer blocks are free in the tier than the run has. After these two, and after `Memory`, which
/// comes only where there is a file that the run lies within, the media and the free blocks are as before. `DeviceFault` also where a device fails in the call; the journal answers
/// nothing else then until it is opened again.
pub fn relocate<M: Media>(
    alloc: Global,
    journal: &mut Journal<M>,
    pools: &mut Pools,
    run: RunRequest,
    to: Tier,
) -> Result<(), AreaError>
    // The media spell a graph with nothing pending, and the pools have their free blocks.
    requires { journal.old.failed ≡ false → IsSettled journal.old.geometry (M.seen journal.old.media) (M.left journal.old.media (M.moment journal.old.media)) pools.old }

    // At each moment a stop leaves the run where it lay, or moved, and the same graph and marks.
    ensures any_moment { journal.old.failed ≡ false → Moves journal.old.geometry (disk M.Media journal.old) run.inode run.first run.count to (M.moment journal.old.media) (M.moment journal.new.media) (M.left journal.old.media) (M.left journal.new.media) }
    ensures moved { OnOk result (IsMovedStore journal.old.geometry (disk M.Media journal.old) run.inode run.first run.count to (disk M.Media journal.new)) }
    ensures can { OnOk result (CanMove journal.old.geometry (disk M.Media journal.old) run.inode run.first run.count to × (run.count ≤ length (data_pool pools.old to).free)) }
    ensures settled { journal.new.failed ≡ false → IsSettled journal.new.geometry (M.seen journal.new.media) (M.left journal.new.media (M.moment journal.new.media)) pools.new }

    ensures not_mapped { IsErrOf result NotMapped → CanMove journal.old.geometry (disk M.Media journal.old) run.inode run.first run.count to → ⊥ }
    ensures no_block { IsErrOf result NoBlock → CanMove journal.old.geometry (disk M.Media journal.old) run.inode run.first run.count to × (length (data_pool pools.old to).free < run.count) }
    ensures memory { IsErrOf result Memory → HasFileRun journal.old.geometry (disk M.Media journal.old) run.inode run.first run.count }
    ensures only { IfErr result IsMoveRefusal }
    ensures unmoved { IfErr result (λ e. e ≢ DeviceFault → StaysStill M.Media journal.old journal.new) }
    ensures same { OnErr result (SameFree pools.old pools.new) }
    ensures fault { IsErrOf result DeviceFault → (journal.new.failed ≡ true) × ((journal.old.failed ≡ true) ⊎ Rose (M.faults journal.old.media) (M.faults journal.new.media)) }
    // A journal that has failed answers nothing else, and is not touched.
    ensures stays_failed { journal.old.failed ≡ true → (result ≡ Err DeviceFault) × (journal.new ≡ journal.old) × (pools.new ≡ pools.old) }
    ensures quiet { OnOk result ((journal.new.failed ≡ false) × (M.faults journal.new.media ≡ M.faults journal.old.media)) }
    ensures geometry { journal.new.geometry ≡ journal.old.geometry }
    ensures faults { M.faults journal.old.media ≤ M.faults journal.new.media }
    ensures one_fault { M.faults journal.new.media ≤ M.faults journal.old.media + 1 }
    // A write for each run of the blocks that it goes to, which are the lowest that are free in the tier, a fence, and the batch; what is read is not counted.
    ensures few { MovesInFewCalls journal.old.geometry (disk M.Media journal.old) to run.count (M.moment journal.old.media) (M.moment journal.new.media) }
    ensures at_most { M.moment journal.new.media ≤ M.moment journal.old.media + run.count + 12 }
{
    if journal.has_failed() {
        return Err(AreaError::DeviceFault);
    }
    move_found(alloc, journal, pools, run, to)
}
