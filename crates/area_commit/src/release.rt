// What a plan gives up goes back to the pools.
ghost use Rattle.std.specs.Prelude.{◌≤◌, length};
ghost use Rattle.tier_device.specs.declared.media.Tier.{Tier};
ghost use Rattle.block_alloc.specs.Runs.{blocks_of};
ghost use Rattle.area_commit.specs.Value.{data_pool};
ghost use Rattle.area_commit.specs.Release.{AreUsed, WereAdded};
ghost use Rattle.area_commit.specs.Plan.{lost_in};

use crate::plan::FreedBlocks;
use crate::{Pools, give_data, give_nodes};
use tier_device::Tier;

/// Gives back the runs of the node pool and of each tier, without memory.
pub fn release_blocks(pools: &mut Pools, lost: &FreedBlocks)
    requires nodes { AreUsed pools.old.nodes lost.now.nodes.items }
    requires per_tier { (t : Tier) → AreUsed (data_pool pools.old t) (lost_in lost.now t) }
    requires nodes_room { length lost.now.nodes.items ≤ pools.old.nodes.room }
    requires room { (t : Tier) → length (lost_in lost.now t) ≤ (data_pool pools.old t).room }
    ensures nodes { WereAdded pools.old.nodes pools.new.nodes (blocks_of lost.now.nodes.items) }
    ensures per_tier { (t : Tier) → WereAdded (data_pool pools.old t) (data_pool pools.new t) (blocks_of (lost_in lost.now t)) }
{
    give_nodes(pools, &lost.nodes);
    give_data(pools, Tier::Fast, &lost.fast);
    give_data(pools, Tier::Block, &lost.block);
    give_data(pools, Tier::Slow, &lost.slow);
}
