// A plan is written: data first, then the batch, then what was given up is free.
ghost use Rattle.std.specs.Prelude.{◌≡◌, ◌≤◌, ◌+◌, ◌⊎◌, min, true, false, length, OnOk, OnErr, IfErr, IsErrOf};
ghost use Rattle.tier_device.specs.declared.media.Tier.{Tier};
ghost use Rattle.tier_device.specs.Media.{Rose};
ghost use Rattle.tier_device.specs.AfterStop.{AtRest};
ghost use Rattle.area_reader.specs.batch_journal.Blocks.{AreJournaled};
ghost use Rattle.area_reader.specs.batch_journal.Volume.{KeepsGeometry};
ghost use Rattle.area_reader.specs.Store.{disk};
ghost use Rattle.area_reader.specs.Format.{IsSpelled};
ghost use Rattle.area_reader.specs.Looks.{Looks};
ghost use Rattle.area_reader.specs.declared.error.AreaError.TheVariants.{DeviceFault, Memory};
ghost use Rattle.area_commit.specs.Batches.{IsBatchOf, marks_images};
ghost use Rattle.area_commit.specs.Value.{HasRanges, AreFree};
ghost use Rattle.area_commit.specs.Allocations.{WasReleased};
ghost use Rattle.area_commit.specs.DataWrite.{Went, calls_for, TakenInTurn};
ghost use Rattle.area_commit.specs.Plan.{IsPlan};
ghost use Rattle.area_commit.specs.PlanOutcome.{IsCarriedOut, AllOrNothing};
ghost use Rattle.area_commit.specs.Room.{AreReadyFor};

use crate::laws::{freed_blocks_return, pools_have_the_free_blocks};
use crate::plan::Rewrite;
use crate::release::release_blocks;
use crate::{Pools, batch_is_put, batch_of, write_data};
use area_reader::AreaError;
use area_reader::in_batch_journal::{Batch, Journal, JournalError};
use std::alloc::Global;
use tier_device::Media;

// Writes the data of a plan, and then its batch: no block of the batch before all data is kept.
fn write_plan<M: Media>(
    journal: &mut Journal<M>,
    plan: &Rewrite,
    batch: &Batch,
) -> Result<(), JournalError>
    requires going { journal.old.failed ≡ false }
    requires rests { (t : Tier) → AtRest (M.seen journal.old.media) (M.left journal.old.media (M.moment journal.old.media)) t }
    requires plan { IsPlan journal.old.geometry (disk M.Media journal.old) plan.now }
    requires batch { IsBatchOf (disk M.Media journal.old) plan.now.slots.items plan.now.marks plan.now.nodes batch.now }
    requires places { AreJournaled journal.old.geometry batch.now }
    requires superblock { KeepsGeometry journal.old.geometry batch.now }
    requires few { length batch.now ≤ 256 }
    ensures any_moment { AllOrNothing journal.old.geometry (disk M.Media journal.old) plan.now (M.moment journal.old.media) (M.moment journal.new.media) (M.left journal.old.media) (M.left journal.new.media) }
    ensures done { OnOk result (IsCarriedOut journal.old.geometry (disk M.Media journal.old) plan.now (disk M.Media journal.new)) }
    ensures rests { OnOk result ((t : Tier) → AtRest (M.seen journal.new.media) (M.left journal.new.media (M.moment journal.new.media)) t) }
    ensures turn { TakenInTurn plan.now.taken (M.moment journal.old.media) (M.moment journal.new.media) (M.left journal.old.media) (M.left journal.new.media) }
    ensures at_most { M.moment journal.new.media ≤ M.moment journal.old.media + calls_for plan.now.taken + length batch.now + 7 }
    ensures went { Went M.Media journal.old journal.new result }
{
    // For the proof: where the batch is put the plan is carried out; and a stop now leaves what is read.
    batch_is_put();
    journal.left_now();
    write_data(journal, &plan.taken, &plan.bytes)?;
    journal.commit(batch)
}

// Makes the batch of a plan, which reads the blocks of its slots, and writes the plan.
fn write_all<M: Media>(
    alloc: Global,
    journal: &mut Journal<M>,
    plan: &Rewrite,
) -> Result<(), AreaError>
    requires going { journal.old.failed ≡ false }
    requires rests { (t : Tier) → AtRest (M.seen journal.old.media) (M.left journal.old.media (M.moment journal.old.media)) t }
    requires plan { IsPlan journal.old.geometry (disk M.Media journal.old) plan.now }
    ensures any_moment { AllOrNothing journal.old.geometry (disk M.Media journal.old) plan.now (M.moment journal.old.media) (M.moment journal.new.media) (M.left journal.old.media) (M.left journal.new.media) }
    ensures done { OnOk result (IsCarriedOut journal.old.geometry (disk M.Media journal.old) plan.now (disk M.Media journal.new)) }
    ensures rests { OnOk result ((t : Tier) → AtRest (M.seen journal.new.media) (M.left journal.new.media (M.moment journal.new.media)) t) }
    ensures turn { TakenInTurn plan.now.taken (M.moment journal.old.media) (M.moment journal.new.media) (M.left journal.old.media) (M.left journal.new.media) }
    ensures at_most { M.moment journal.new.media ≤ M.moment journal.old.media + calls_for plan.now.taken + min (length plan.now.slots.items) 32 + length (marks_images plan.now.marks) + length plan.now.nodes + 7 }
    ensures only { IfErr result (λ e. (e ≡ DeviceFault) ⊎ (e ≡ Memory)) }
    ensures memory { IsErrOf result Memory → Looks M.Media journal.old journal.new result }
    ensures fault { IsErrOf result DeviceFault → (journal.new.failed ≡ true) × Rose (M.faults journal.old.media) (M.faults journal.new.media) }
    ensures quiet { OnOk result (M.faults journal.new.media ≡ M.faults journal.old.media) }
    ensures going { OnOk result (journal.new.failed ≡ false) }
    ensures geometry { journal.new.geometry ≡ journal.old.geometry }
    ensures faults { M.faults journal.old.media ≤ M.faults journal.new.media }
    ensures one_fault { M.faults journal.new.media ≤ M.faults journal.old.media + 1 }
{
    // For the proof: the journal has its sizes, and a stop now leaves what is read.
    journal.left_now();
    let batch = batch_of(alloc, journal, &plan.slots, plan.marks, &plan.nodes)?;
    match write_plan(journal, plan, &batch) {
        Ok(()) => Ok(()),
        Err(_) => Err(AreaError::DeviceFault),
    }
}

/// Carries out a plan: its data goes to the blocks that were taken for it, fastest tier first, and then each tier that was written is fenced, fastest first; then one batch writes slots, marks and node blocks; then
/// what the plan gives up is free. The blocks of the slots are read for the batch. Beside the images of the batch it takes no memory.
///
/// `Memory` where there was none for the batch, and `DeviceFault` where a device failed. After each refusal what was taken stands in the pools again; after `Memory` nothing has
/// been written.
pub fn carry_out<M: Media>(
    alloc: Global,
    journal: &mut Journal<M>,
    pools: &mut Pools,
    plan: Rewrite,
) -> Result<(), AreaError>
    requires going { journal.old.failed ≡ false }
    requires rests { (t : Tier) → AtRest (M.seen journal.old.media) (M.left journal.old.media (M.moment journal.old.media)) t }
    requires spelled { IsSpelled journal.old.geometry (disk M.Media journal.old) }
    requires plan { IsPlan journal.old.geometry (disk M.Media journal.old) plan }
    requires pools { AreReadyFor journal.old.geometry (disk M.Media journal.old) pools.old plan }

    // At each moment a stop leaves the store from before, but for free blocks, or one in which the plan is carried out.
    ensures any_moment { AllOrNothing journal.old.geometry (disk M.Media journal.old) plan (M.moment journal.old.media) (M.moment journal.new.media) (M.left journal.old.media) (M.left journal.new.media) }
    ensures done { OnOk result (IsCarriedOut journal.old.geometry (disk M.Media journal.old) plan (disk M.Media journal.new)) }
    ensures rests { OnOk result ((t : Tier) → AtRest (M.seen journal.new.media) (M.left journal.new.media (M.moment journal.new.media)) t) }
    // The pools have the free blocks of that store.
    ensures free { OnOk result (AreFree journal.old.geometry (disk M.Media journal.new) pools.new) }
    ensures ranges { OnOk result (HasRanges journal.old.geometry pools.new) }
    // The data is written fastest tier first, and the tiers are fenced in the same order.
    ensures turn { TakenInTurn plan.taken (M.moment journal.old.media) (M.moment journal.new.media) (M.left journal.old.media) (M.left journal.new.media) }
    // One for each run of data and for each tier that has some, and of the batch 7 and one for each image: those of the slot blocks, of the marks and of the node blocks.
    ensures at_most { M.moment journal.new.media ≤ M.moment journal.old.media + calls_for plan.taken + min (length plan.slots.items) 32 + length (marks_images plan.marks) + length plan.nodes + 7 }

    ensures undone { OnErr result (WasReleased pools.old pools.new plan.taken) }
    ensures only { IfErr result (λ e. (e ≡ DeviceFault) ⊎ (e ≡ Memory)) }
    ensures memory { IsErrOf result Memory → Looks M.Media journal.old journal.new result }
    ensures fault { IsErrOf result DeviceFault → (journal.new.failed ≡ true) × Rose (M.faults journal.old.media) (M.faults journal.new.media) }
    ensures quiet { OnOk result (M.faults journal.new.media ≡ M.faults journal.old.media) }
    ensures going { OnOk result (journal.new.failed ≡ false) }
    ensures geometry { journal.new.geometry ≡ journal.old.geometry }
    ensures faults { M.faults journal.old.media ≤ M.faults journal.new.media }
    ensures one_fault { M.faults journal.new.media ≤ M.faults journal.old.media + 1 }
{
    // For the proof: the sizes are allowed ones; what is given up can be given back, and the pools have what is free then.
    let _units = journal.geometry().units();
    freed_blocks_return();
    pools_have_the_free_blocks();
    match write_all(alloc, journal, &plan) {
        Ok(()) => {
            release_blocks(pools, &plan.lost);
            Ok(())
        }
        Err(error) => {
            pools.release(plan.taken);
            Err(error)
        }
    }
}
