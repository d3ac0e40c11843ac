// A change of the graph is made on the shared media.
ghost use Rattle.std.specs.Prelude.{◌≡◌, ◌≢◌, ◌≤◌, ◌<◌, ◌+◌, ◌⊎◌, ℕ, List, [], true, false, length, Err, OnOk, OnErr, IfErr, IfOk, IsErrOf};
ghost use Rattle.record_validation.specs.file_graph.Units.{charge};
ghost use Rattle.std.specs.FinMap as fin;
ghost use Rattle.area_reader.specs.graph_change.Bounds.{AreBounded};
ghost use Rattle.area_reader.specs.graph_change.Change.{changed_graph};
ghost use Rattle.area_reader.specs.graph_change.Tidy.{AreTidyChanges};
ghost use Rattle.area_reader.specs.graph_change.View.{changes_of};
ghost use Rattle.tier_device.specs.Media.{Rose};
ghost use Rattle.area_reader.specs.layout.Marks.{fits_marks};
ghost use Rattle.area_reader.specs.Store.{disk, graph};
ghost use Rattle.change_plan.specs.area_commit.Value.{PoolsView, free_data, AreInOrder};
ghost use Rattle.change_plan.specs.area_commit.Allocations.{WereTaken, CanRelease, SameFree, taken_data};
ghost use Rattle.change_plan.specs.area_commit.StableState.{IsSettled, StaysStill};
ghost use Rattle.shared_area.specs.ChangeApply.{CanApply, IsAppliedStore, Applies, EndsChange, MakesFewCalls};
ghost use Rattle.shared_area.specs.Costs.{IsCostOf, units_in};
ghost use Rattle.shared_area.specs.Errors.{IsForced};
ghost use Rattle.change_plan.specs.First.{PlansNothing};
ghost use Rattle.change_plan.specs.FileLayout.{AreFirstFree};
ghost use Rattle.change_plan.specs.Next.{HasFewEntries};
ghost use Rattle.change_plan.specs.BlockDemand.{images_for, WantsBlocks, AreWritten};
ghost use Rattle.change_plan.specs.ReadSlots.{HaveSlots};
ghost use Rattle.area_reader.specs.declared.error.AreaError.TheVariants.{DeviceFault, NoBlock};
ghost use Rattle.area_reader.specs.Refusals.{IsChangeRefusal};

use crate::inode_cost::{ChangeCost, units_of_slots};
use crate::plan_write::write_counted;
use area_reader::AreaError;
use area_reader::in_batch_journal::Journal;
use area_reader::in_graph_change::GraphChange;
use area_reader::in_layout::{BLOCK, Marks};
use change_plan::in_area_commit::{
    Allocation, FreedBlocks, NodeImages, Pools, nodes_never_run_out,
};
use change_plan::{
    PartialPlan, ReadChange, count_blocks, plan_changes, read_slots, wanted_blocks_are_written,
};
use std::alloc::{AllocError, Global};
use tier_device::{Media, Tier};

// Room for the bytes of so many data blocks.
fn room_for(alloc: Global, blocks: usize) -> Result<Vec<u8>, AllocError>
    ensures { IfOk result (λ bytes. bytes.items ≡ []) }
{
    match blocks.checked_mul(BLOCK) {
        Some(size) => Vec::with_capacity(alloc, size),
        None => Err(AllocError),
    }
}

// Before the first inode nothing is planned, over the data blocks that were taken.
fn start_plan(alloc: Global, taken: Allocation, bytes: Vec<u8>) -> PartialPlan
    requires { bytes.items ≡ [] }
    ensures nothing { PlansNothing result }
    ensures taken { result.taken ≡ taken }
{
    PartialPlan {
        taken,
        slots: Vec::new(alloc),
        nodes: NodeImages::new(alloc),
        bytes,
        lost: FreedBlocks {
            nodes: Vec::new(alloc),
            fast: Vec::new(alloc),
            block: Vec::new(alloc),
            slow: Vec::new(alloc),
        },
    }
}

// Plans a change over the data blocks that were taken for it, and carries it out. It answers what its inodes cost then.
fn plan_change<M: Media>(
    alloc: Global,
    journal: &mut Journal<M>,
    pools: &mut Pools,
    read: &ReadChange<'_>,
    marks: Marks,
    plan: PartialPlan,
) -> Result<u64, AreaError>
    requires going { journal.old.failed ≡ false }
    requires can { CanApply journal.old.geometry (disk M.Media journal.old) (changes_of read.now.change.now) marks }
    requires taken { (before : PoolsView) × AreInOrder before × WereTaken before pools.old plan.taken × IsSettled journal.old.geometry (M.seen journal.old.media) (M.left journal.old.media (M.moment journal.old.media)) before }
    requires undo { CanRelease pools.old plan.taken }
    requires first { AreFirstFree journal.old.geometry (disk M.Media journal.old) (taken_data plan.taken) }
    requires no_nodes { plan.taken.nodes.items ≡ [] }
    requires nodes { 255 ≤ length pools.old.nodes.free }
    requires nothing { PlansNothing plan }
    requires wants { WantsBlocks journal.old.geometry (disk M.Media journal.old) (changes_of read.now.change.now) (length (taken_data plan.taken)) }
    requires slots { HaveSlots journal.old.geometry (disk M.Media journal.old) (fin.keys (changes_of read.now.change.now)) read.now.slots.now }
    ensures ends { EndsChange M.Media (changes_of read.now.change.now) marks journal.old journal.new pools.new result }
    ensures units { IfOk result (λ units. units ≡ units_in journal.old.geometry (disk M.Media journal.new) (fin.keys (changes_of read.now.change.now))) }
    ensures same { (before : PoolsView) → AreInOrder before → WereTaken before pools.old plan.taken → OnErr result (SameFree before pools.new) }
    ensures only { IfErr result IsForced }
{
    // For the proof: a stop now leaves what is read, and the sizes are allowed ones.
    journal.left_now();
    let _units = journal.geometry().units();
    let mut plan = plan;
    match plan_changes(alloc, journal, pools, read, marks.digests, &mut plan) {
        Ok(()) => write_counted(alloc, journal, pools, read.change, marks, plan),
        Err(error) => {
            pools.release(plan.taken);
            Err(error)
        }
    }
}

// Takes as many data blocks as the change wants, and makes it. There is room for the bytes of all from the start, so that none are moved when others come behind them.
fn allocate_blocks<M: Media>(
    alloc: Global,
    journal: &mut Journal<M>,
    pools: &mut Pools,
    read: &ReadChange<'_>,
    marks: Marks,
    count: usize,
) -> Result<u64, AreaError>
    requires going { journal.old.failed ≡ false }
    requires settled { IsSettled journal.old.geometry (M.seen journal.old.media) (M.left journal.old.media (M.moment journal.old.media)) pools.old }
    requires can { CanApply journal.old.geometry (disk M.Media journal.old) (changes_of read.now.change.now) marks }
    requires wants { WantsBlocks journal.old.geometry (disk M.Media journal.old) (changes_of read.now.change.now) count }
    requires slots { HaveSlots journal.old.geometry (disk M.Media journal.old) (fin.keys (changes_of read.now.change.now)) read.now.slots.now }
    ensures ends { EndsChange M.Media (changes_of read.now.change.now) marks journal.old journal.new pools.new result }
    ensures units { IfOk result (λ units. units ≡ units_in journal.old.geometry (disk M.Media journal.new) (fin.keys (changes_of read.now.change.now))) }
    ensures same { OnErr result (SameFree pools.old pools.new) }
    ensures few { IsErrOf result NoBlock → length (free_data pools.old) < count }
{
    // For the proof: a stop now leaves what is read, the sizes are allowed ones, the node pool has blocks enough for a change, and the pools are in order.
    journal.left_now();
    let _units = journal.geometry().units();
    nodes_never_run_out();
    let _free = pools.free(Tier::Fast);
    if count > u32::MAX as usize {
        return Err(AreaError::NoBlock);
    }
    let taken = pools.take(0, count as u32)?;
    match room_for(alloc, count) {
        Ok(bytes) => {
            let plan = start_plan(alloc, taken, bytes);
            plan_change(alloc, journal, pools, read, marks, plan)
        }
        Err(_) => {
            pools.release(taken);
            Err(AreaError::Memory)
        }
    }
}

// Counts the blocks that the change wants, and makes it.
fn apply_counted<M: Media>(
    alloc: Global,
    journal: &mut Journal<M>,
    pools: &mut Pools,
    read: &ReadChange<'_>,
    marks: Marks,
) -> Result<u64, AreaError>
    requires going { journal.old.failed ≡ false }
    requires settled { IsSettled journal.old.geometry (M.seen journal.old.media) (M.left journal.old.media (M.moment journal.old.media)) pools.old }
    requires can { CanApply journal.old.geometry (disk M.Media journal.old) (changes_of read.now.change.now) marks }
    requires slots { HaveSlots journal.old.geometry (disk M.Media journal.old) (fin.keys (changes_of read.now.change.now)) read.now.slots.now }
    ensures ends { EndsChange M.Media (changes_of read.now.change.now) marks journal.old journal.new pools.new result }
    ensures units { IfOk result (λ units. units ≡ units_in journal.old.geometry (disk M.Media journal.new) (fin.keys (changes_of read.now.change.now))) }
    ensures same { OnErr result (SameFree pools.old pools.new) }
    ensures few { IsErrOf result NoBlock → (n : ℕ) × WantsBlocks journal.old.geometry (disk M.Media journal.old) (changes_of read.now.change.now) n × (length (free_data pools.old) < n) }
{
    // For the proof: a stop now leaves what is read.
    journal.left_now();
    let count = count_blocks(alloc, journal, read)?;
    allocate_blocks(alloc, journal, pools, read, marks, count)
}

// Reads the slots of the inodes of the change, on media of which no device has failed, and makes it.
fn apply_read<M: Media>(
    alloc: Global,
    journal: &mut Journal<M>,
    pools: &mut Pools,
    change: &GraphChange,
    marks: Marks,
) -> Result<ChangeCost, AreaError>
    requires going { journal.old.failed ≡ false }
    requires settled { IsSettled journal.old.geometry (M.seen journal.old.media) (M.left journal.old.media (M.moment journal.old.media)) pools.old }
    requires can { CanApply journal.old.geometry (disk M.Media journal.old) (changes_of change.now) marks }
    ensures ends { EndsChange M.Media (changes_of change.now) marks journal.old journal.new pools.new result }
    ensures cost { IfOk result (IsCostOf journal.old.geometry (disk M.Media journal.old) (disk M.Media journal.new) (changes_of change.now)) }
    ensures same { OnErr result (SameFree pools.old pools.new) }
    ensures few { IsErrOf result NoBlock → (n : ℕ) × WantsBlocks journal.old.geometry (disk M.Media journal.old) (changes_of change.now) n × (length (free_data pools.old) < n) }
{
    // For the proof: a stop now leaves what is read.
    journal.left_now();
    let slots = read_slots(alloc, journal, change)?;
    let before = units_of_slots(&slots);
    let read = ReadChange {
        change,
        slots: &slots,
    };
    let after = apply_counted(alloc, journal, pools, &read, marks)?;
    Ok(ChangeCost { before, after })
}

/// Changes the graph on the shared media, with new marks, in one batch: each block that the change writes goes into a data block of its own, the first that are free, fastest tier
/// first, with one write for each run of them in that order and then one fence for each tier that was written; then one batch writes slots, lists of extents, blocks of directories and marks;
/// then what the inodes used and use no more is free. So a stop at any moment leaves the graph and the marks from before, or the graph after the change and the new marks. Each
/// inode that is written tells the number of digests that the marks tell. The slot of each inode of the change is read once, before all else. It answers what these inodes cost before and
/// after.
///
/// `NoBlock` where fewer data blocks are free than the change writes; `Memory` where there was none, before the first write. After these two the media and the free blocks are as
/// before. `DeviceFault` where a device fails in the call, or has failed before it, and nothing is touched then; the journal answers nothing else until it is opened again. The
/// slots are read into memory, and of a file that is cut within a block into which no bytes were put the extents are read to count the blocks: so of
/// several reasons that stand together any may be told.
pub fn apply<M: Media>(
    alloc: Global,
    journal: &mut Journal<M>,
    pools: &mut Pools,
    change: &GraphChange,
    marks: Marks,
) -> Result<ChangeCost, AreaError>
    // The media spell a graph with nothing pending, and the pools have their free blocks.
    requires settled { journal.old.failed ≡ false → IsSettled journal.old.geometry (M.seen journal.old.media) (M.left journal.old.media (M.moment journal.old.media)) pools.old }
    requires bounded { AreBounded (changes_of change.now) }
    requires tidy { AreTidyChanges (changes_of change.now) }
    requires images { images_for (changes_of change.now) ≤ 255 }
    requires fits { fits_marks marks ≡ true }
    requires entries { journal.old.failed ≡ false → (i : ℕ) → fin.contains_key (changes_of change.now) i ≡ true → HasFewEntries (changed_graph (changes_of change.now) (graph journal.old.geometry (disk M.Media journal.old)) i) }
    requires units { journal.old.failed ≡ false → charge (changed_graph (changes_of change.now) (graph journal.old.geometry (disk M.Media journal.old))) ≤ journal.old.geometry.units }

    // At each moment a stop leaves the graph and the marks from before, or the graph after the change and the new marks.
    ensures any_moment { journal.old.failed ≡ false → Applies journal.old.geometry (disk M.Media journal.old) (changes_of change.now) marks (M.moment journal.old.media) (M.moment journal.new.media) (M.left journal.old.media) (M.left journal.new.media) }
    ensures applied { OnOk result (IsAppliedStore journal.old.geometry (disk M.Media journal.old) (changes_of change.now) marks (disk M.Media journal.new)) }
    ensures cost { IfOk result (IsCostOf journal.old.geometry (disk M.Media journal.old) (disk M.Media journal.new) (changes_of change.now)) }
    ensures settled { journal.new.failed ≡ false → IsSettled journal.new.geometry (M.seen journal.new.media) (M.left journal.new.media (M.moment journal.new.media)) pools.new }

    // Files that the change leaves have more blocks that it writes than data blocks are free.
    ensures no_block { IsErrOf result NoBlock → (bs : List (ℕ × ℕ)) × AreWritten journal.old.geometry (disk M.Media journal.old) (changes_of change.now) bs × (length (free_data pools.old) < length bs) }
    ensures only { IfErr result IsChangeRefusal }
    ensures unmoved { IfErr result (λ e. e ≢ DeviceFault → StaysStill M.Media journal.old journal.new) }
    ensures same { OnErr result (SameFree pools.old pools.new) }
    ensures fault { IsErrOf result DeviceFault → (journal.new.failed ≡ true) × ((journal.old.failed ≡ true) ⊎ Rose (M.faults journal.old.media) (M.faults journal.new.media)) }
    // A journal that has failed answers nothing else, and is not touched.
    ensures stays_failed { journal.old.failed ≡ true → (result ≡ Err DeviceFault) × (journal.new ≡ journal.old) × (pools.new ≡ pools.old) }
    ensures quiet { OnOk result ((journal.new.failed ≡ false) × (M.faults journal.new.media ≡ M.faults journal.old.media)) }
    ensures geometry { journal.new.geometry ≡ journal.old.geometry }
    ensures faults { M.faults journal.old.media ≤ M.faults journal.new.media }
    ensures one_fault { M.faults journal.new.media ≤ M.faults journal.old.media + 1 }
    // A write for each run of data blocks that is taken, fastest tier first, a fence for each tier that is written, in the same order, and the batch; what is read is not counted.
    ensures at_most { MakesFewCalls journal.old.geometry (disk M.Media journal.old) (changes_of change.now) (M.moment journal.old.media) (M.moment journal.new.media) (M.left journal.old.media) (M.left journal.new.media) }
{
    if journal.has_failed() {
        return Err(AreaError::DeviceFault);
    }
    // For the proof: the blocks that are wanted are those that the change writes.
    wanted_blocks_are_written();
    apply_read(alloc, journal, pools, change, marks)
}
