// What a run gives up.
ghost use Rattle.std.specs.Prelude.{◌≡◌, ◌≤◌, ◌<◌, ◌+◌, ◌^◌, [], length, OnOk, IfOk};
ghost use Rattle.std.specs.List.{AllByRecursion};
ghost use Rattle.tier_device.specs.declared.media.Tier.{Tier};
ghost use Rattle.block_alloc.specs.Runs.{blocks_of};
ghost use Rattle.inode_plan.specs.extent_tree.Map.{runs_in, places_of, HasBlock};
ghost use Rattle.inode_plan.specs.area_commit.Value.{data_pool};
ghost use Rattle.inode_plan.specs.area_commit.Allocations.{SameFree, KeepsRoom};
ghost use Rattle.inode_plan.specs.area_commit.Plan.{lost_in};

use block_alloc::Run;
use inode_plan::in_area_commit::{FreedBlocks, Pools};
use inode_plan::in_extent_tree::BlockMap;
use inode_plan::places_in;
use std::alloc::{AllocError, Global};
use tier_device::Tier;

/// The places of a run, which are lost once it is moved, and no block of the node pool yet. There is room for them in the pools then, and for three blocks of the node pool.
pub fn lost_places(
    alloc: Global,
    pools: &mut Pools,
    map: &BlockMap,
    run: Run,
) -> Result<FreedBlocks, AllocError>
    requires { run.first + run.count < 2 ^ 32 }
    ensures places { IfOk result (λ lost. (t : Tier) → blocks_of (lost_in lost t) ≡ places_of (runs_in map.now t) run.first run.count) }
    ensures some { IfOk result (λ lost. (t : Tier) → AllByRecursion HasBlock (lost_in lost t)) }
    ensures room { IfOk result (λ lost. (t : Tier) → length (lost_in lost t) ≤ (data_pool pools.new t).room) }
    ensures nodes { OnOk result (3 ≤ pools.new.nodes.room) }
    ensures no_nodes { IfOk result (λ lost. lost.nodes.items ≡ []) }
    ensures same { SameFree pools.old pools.new }
    ensures kept { KeepsRoom pools.old pools.new }
{
    let fast = places_in(alloc, map, Tier::Fast, run)?;
    let block = places_in(alloc, map, Tier::Block, run)?;
    let slow = places_in(alloc, map, Tier::Slow, run)?;
    pools.reserve(3, fast.len(), block.len(), slow.len())?;
    Ok(FreedBlocks {
        nodes: Vec::new(alloc),
        fast,
        block,
        slow,
    })
}
