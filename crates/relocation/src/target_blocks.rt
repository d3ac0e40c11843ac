// The blocks that a run is moved to.
ghost use Rattle.std.specs.Prelude.{◌≡◌, ◌<◌, ◌↔◌, ◌⊎◌, length, OnOk, OnErr, IfOk, IsErrOf};
ghost use Rattle.inode_plan.specs.layout.Places.{Sizes};
ghost use Rattle.block_alloc.specs.declared.error.AllocatorError.TheVariants.{NoBlock};
ghost use Rattle.inode_plan.specs.area_reader.Store.{Store, root_of};
ghost use Rattle.inode_plan.specs.area_commit.Value.{data_pool, AreInOrder, HasRanges, AreFree};
ghost use Rattle.inode_plan.specs.area_commit.Allocations.{WereTaken, CanRelease, SameFree, KeepsRoom};
ghost use Rattle.relocation.specs.MovedFile.{spare_count, IsTakenFor};

use crate::MovableRun;
use block_alloc::AllocatorError;
use inode_plan::in_area_commit::{Allocation, Pools, taken_blocks_were_free};
use inode_plan::in_area_reader::root_of;
use inode_plan::in_layout::Slot;
use tier_device::Tier;

// How many blocks of the node pool it takes to list extents in a tier: one where none does, else none.
fn spare_count(slot: &Slot, to: Tier) -> u32
    ensures { result ≡ spare_count (root_of slot.now to) }
{
    if root_of(slot, to) == 0 { 1 } else { 0 }
}

/// Takes as many free blocks of a tier as a run has, and one of the node pool where the file has no extents there. `NoBlock` exactly where fewer are free, of the node pool or in
/// the tier; `Memory` where the answer found no room. After a refusal the pools have the same free blocks.
pub fn take_blocks(
    pools: &mut Pools,
    file: &MovableRun,
    to: Tier,
) -> Result<Allocation, AllocatorError>
    ensures taken { IfOk result (λ taken. (g : Sizes) (s : Store) → HasRanges g pools.old → AreFree g s pools.old → IsTakenFor g s file.now to taken) }
    ensures fronts { IfOk result (WereTaken pools.old pools.new) }
    // What was taken can be given back without memory.
    ensures undone { IfOk result (CanRelease pools.new) }
    ensures room { OnOk result (KeepsRoom pools.old pools.new) }
    ensures few { IsErrOf result NoBlock ↔ ((length pools.old.nodes.free < spare_count (root_of file.now.slot to)) ⊎ (length (data_pool pools.old to).free < file.now.run.count)) }
    ensures err { OnErr result (SameFree pools.old pools.new) }
    ensures order { AreInOrder pools.old }
{
    // For the proof: what is taken of the pools was free, and the pools are in order.
    taken_blocks_were_free();
    let _free = pools.free(to);
    pools.take_in(spare_count(&file.slot, to), to, file.run.count)
}
