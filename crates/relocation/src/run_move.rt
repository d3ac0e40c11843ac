// A run that is read goes to another tier.
ghost use Rattle.std.specs.Prelude.{◌≡◌, ◌≤◌, ◌<◌, ◌*◌, ◌⊎◌, ℕ, false, length, OnOk, OnErr, IfErr, IsErrOf};
ghost use Rattle.tier_device.specs.declared.media.Tier.{Tier};
ghost use Rattle.inode_plan.specs.layout.declared.places.TheConstants.{BLOCK};
ghost use Rattle.tier_device.specs.AfterStop.{AtRest};
ghost use Rattle.inode_plan.specs.area_reader.Store.{disk, logical_block};
ghost use Rattle.inode_plan.specs.area_reader.Format.{IsOpenable};
ghost use Rattle.inode_plan.specs.area_reader.Refusals.{IsChangeRefusal};
ghost use Rattle.inode_plan.specs.area_commit.Value.{data_pool};
ghost use Rattle.inode_plan.specs.area_commit.Allocations.{WasReleased, SameFree};
ghost use Rattle.relocation.specs.MovableFile.{IsMovableRun};
ghost use Rattle.inode_plan.specs.Lists.{HoldsRun};
ghost use Rattle.inode_plan.specs.area_reader.declared.error.AreaError.TheVariants.{DeviceFault, NoBlock, Memory};
ghost use Rattle.inode_plan.specs.area_commit.Room.{AreReadyFor};
ghost use Rattle.relocation.specs.MovedFile.{IsReadRun, IsReadyMove, IsPlanOfMove, HasRoomFor, AreReadyToMove};
ghost use Rattle.relocation.specs.RunMove.{IsSettled, EndsMove};

use crate::freed_places::lost_places;
use crate::laws::{carried_out_move_moves, move_is_planned};
use crate::move_plan::{ReadMove, plan_move};
use crate::target_blocks::take_blocks;
use crate::{MovableRun, read_run};
use inode_plan::in_area_commit::{Allocation, Pools, Rewrite, carry_out, nodes_never_run_out};
use inode_plan::in_area_reader::AreaError;
use inode_plan::in_batch_journal::Journal;
use std::alloc::Global;
use tier_device::{Media, Tier};

/// A run of the file at an inode that may be moved, and the tier that it goes to.
#[derive(Drop)]
pub struct FileMove {
    pub inode: u32,
    pub to: Tier,
    pub file: MovableRun,
}

// Carries out the plan of a move.
fn write_move<M: Media>(
    alloc: Global,
    journal: &mut Journal<M>,
    pools: &mut Pools,
    plan: Rewrite,
) -> Result<(), AreaError>
    requires going { journal.old.failed ≡ false }
    requires opens { IsOpenable journal.old.geometry (disk M.Media journal.old) }
    requires rests { (t : Tier) → AtRest (M.seen journal.old.media) (M.left journal.old.media (M.moment journal.old.media)) t }
    requires plan { (i : ℕ) × (first : ℕ) × (count : ℕ) × (to : Tier) × IsPlanOfMove journal.old.geometry (disk M.Media journal.old) i first count to plan }
    requires pools { AreReadyFor journal.old.geometry (disk M.Media journal.old) pools.old plan }
    ensures ends { (i first count : ℕ) (to : Tier) → IsPlanOfMove journal.old.geometry (disk M.Media journal.old) i first count to plan → EndsMove M.Media i first count to journal.old journal.new pools.new result }
    ensures undone { OnErr result (WasReleased pools.old pools.new plan.taken) }
    ensures only { IfErr result (λ e. (e ≡ DeviceFault) ⊎ (e ≡ Memory)) }
{
    // For the proof: a stop now leaves what is read, the sizes are allowed ones, and the plan of a move can be carried out and moves the run.
    journal.left_now();
    let _units = journal.geometry().units();
    move_is_planned();
    carried_out_move_moves();
    // Two exits: what holds of a plan that is carried out, and of one that is refused, is proved apart.
    carry_out(alloc, journal, pools, plan)?;
    Ok(())
}

// Moves a run to the blocks that were taken for it. Where it is refused, they stand in the pools again.
fn carry<M: Media>(
    alloc: Global,
    journal: &mut Journal<M>,
    pools: &mut Pools,
    moved: ReadMove,
    taken: Allocation,
) -> Result<(), AreaError>
    requires going { journal.old.failed ≡ false }
    requires opens { IsOpenable journal.old.geometry (disk M.Media journal.old) }
    requires rests { (t : Tier) → AtRest (M.seen journal.old.media) (M.left journal.old.media (M.moment journal.old.media)) t }
    requires ready { IsReadyMove journal.old.geometry (disk M.Media journal.old) moved.inode moved.to moved.file moved.bytes.items moved.lost taken }
    requires pools { AreReadyToMove journal.old.geometry (disk M.Media journal.old) pools.old taken moved.lost }
    ensures ends { EndsMove M.Media moved.inode moved.file.run.first moved.file.run.count moved.to journal.old journal.new pools.new result }
    ensures undone { OnErr result (WasReleased pools.old pools.new taken) }
    ensures only { IfErr result (λ e. (e ≡ DeviceFault) ⊎ (e ≡ Memory)) }
{
    // For the proof: a stop now leaves what is read, and the sizes are allowed ones.
    journal.left_now();
    let _units = journal.geometry().units();
    match plan_move(alloc, moved, taken) {
        Ok(plan) => write_move(alloc, journal, pools, plan),
        Err(back) => {
            pools.release(back);
            Err(AreaError::Memory)
        }
    }
}

// Takes the blocks for a run, and moves it there.
fn allocate_run<M: Media>(
    alloc: Global,
    journal: &mut Journal<M>,
    pools: &mut Pools,
    moved: ReadMove,
) -> Result<(), AreaError>
    requires going { journal.old.failed ≡ false }
    requires settled { IsSettled journal.old.geometry (M.seen journal.old.media) (M.left journal.old.media (M.moment journal.old.media)) pools.old }
    requires run { IsReadRun journal.old.geometry (disk M.Media journal.old) moved.inode moved.to moved.file moved.bytes.items moved.lost }
    requires room { HasRoomFor pools.old moved.lost }
    ensures ends { EndsMove M.Media moved.inode moved.file.run.first moved.file.run.count moved.to journal.old journal.new pools.new result }
    ensures same { OnErr result (SameFree pools.old pools.new) }
    ensures enough { OnOk result (moved.file.run.count ≤ length (data_pool pools.old moved.to).free) }
    ensures few { IsErrOf result NoBlock → length (data_pool pools.old moved.to).free < moved.file.run.count }
    ensures only { IfErr result IsChangeRefusal }
{
    // For the proof: a stop now leaves what is read, and a block of the node pool is always free.
    journal.left_now();
    nodes_never_run_out();
    let taken = take_blocks(pools, &moved.file, moved.to)?;
    carry(alloc, journal, pools, moved, taken)
}

// Moves a run whose bytes are read: nothing more is read for it.
fn move_bytes<M: Media>(
    alloc: Global,
    journal: &mut Journal<M>,
    pools: &mut Pools,
    moved: FileMove,
    bytes: Vec<u8>,
) -> Result<(), AreaError>
    requires going { journal.old.failed ≡ false }
    requires settled { IsSettled journal.old.geometry (M.seen journal.old.media) (M.left journal.old.media (M.moment journal.old.media)) pools.old }
    requires file { IsMovableRun journal.old.geometry (disk M.Media journal.old) moved.inode moved.file.run.first moved.file.run.count moved.to moved.file }
    requires holds { HoldsRun (logical_block journal.old.geometry (disk M.Media journal.old) moved.inode) moved.file.run.first moved.file.run.count bytes.items }
    requires size { length bytes.items ≡ BLOCK * moved.file.run.count }
    ensures ends { EndsMove M.Media moved.inode moved.file.run.first moved.file.run.count moved.to journal.old journal.new pools.new result }
    ensures same { OnErr result (SameFree pools.old pools.new) }
    ensures enough { OnOk result (moved.file.run.count ≤ length (data_pool pools.old moved.to).free) }
    ensures few { IsErrOf result NoBlock → length (data_pool pools.old moved.to).free < moved.file.run.count }
    ensures only { IfErr result IsChangeRefusal }
{
    // For the proof: a stop now leaves what is read.
    journal.left_now();
    let lost = lost_places(alloc, pools, &moved.file.map, moved.file.run)?;
    let FileMove { inode, to, file } = moved;
    let moved = ReadMove {
        inode,
        to,
        file,
        bytes,
        lost,
    };
    allocate_run(alloc, journal, pools, moved)
}

/// Moves a run that may be moved; `NoBlock` where fewer blocks are free in the tier than it has. The free blocks are counted before its bytes are read: that is a matter of cost alone.
pub fn move_run<M: Media>(
    alloc: Global,
    journal: &mut Journal<M>,
    pools: &mut Pools,
    moved: FileMove,
) -> Result<(), AreaError>
    requires going { journal.old.failed ≡ false }
    requires settled { IsSettled journal.old.geometry (M.seen journal.old.media) (M.left journal.old.media (M.moment journal.old.media)) pools.old }
    requires file { IsMovableRun journal.old.geometry (disk M.Media journal.old) moved.inode moved.file.run.first moved.file.run.count moved.to moved.file }
    ensures ends { EndsMove M.Media moved.inode moved.file.run.first moved.file.run.count moved.to journal.old journal.new pools.new result }
    ensures same { OnErr result (SameFree pools.old pools.new) }
    ensures enough { OnOk result (moved.file.run.count ≤ length (data_pool pools.old moved.to).free) }
    ensures few { IsErrOf result NoBlock → length (data_pool pools.old moved.to).free < moved.file.run.count }
    ensures only { IfErr result IsChangeRefusal }
{
    // For the proof: a stop now leaves what is read.
    journal.left_now();
    let free = pools.free(moved.to);
    if free < moved.file.run.count {
        return Err(AreaError::NoBlock);
    }
    let bytes = read_run(alloc, journal, moved.inode, &moved.file.map, moved.file.run)?;
    move_bytes(alloc, journal, pools, moved, bytes)
}
