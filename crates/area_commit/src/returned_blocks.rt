// Blocks that are given up go back to their pools.
ghost use Rattle.std.specs.Prelude.{◌≡◌, ◌≢◌, ◌≤◌, ◌+◌, length};
ghost use Rattle.tier_device.specs.declared.media.Tier.{Tier};
ghost use Rattle.block_alloc.specs.Runs.{blocks_of};
ghost use Rattle.area_commit.specs.Value.{data_pool};
ghost use Rattle.area_commit.specs.Release.{AreUsed, WereAdded};

use crate::Pools;
use block_alloc::Run;
use tier_device::Tier;

/// Gives back runs of data blocks of a tier, none of which is free or stands in two of the runs. It takes no memory: there has to be room for them.
pub fn give_data(pools: &mut Pools, tier: Tier, runs: &[Run])
    requires used { AreUsed (data_pool pools.old tier) runs.now }
    requires room { length runs.now ≤ (data_pool pools.old tier).room }
    ensures given { WereAdded (data_pool pools.old tier) (data_pool pools.new tier) (blocks_of runs.now) }
    ensures room { (data_pool pools.old tier).room ≤ (data_pool pools.new tier).room + length runs.now }
    ensures others { (t : Tier) → t ≢ tier → data_pool pools.new t ≡ data_pool pools.old t }
    ensures nodes { pools.new.nodes ≡ pools.old.nodes }
{
    'runs: for place in 0..runs.len() {
        pools.give(tier, runs[place]);
    }
}

/// Gives back runs of the node pool, in the same way.
pub fn give_nodes(pools: &mut Pools, runs: &[Run])
    requires used { AreUsed pools.old.nodes runs.now }
    requires room { length runs.now ≤ pools.old.nodes.room }
    ensures given { WereAdded pools.old.nodes pools.new.nodes (blocks_of runs.now) }
    ensures room { pools.old.nodes.room ≤ pools.new.nodes.room + length runs.now }
    ensures others { (t : Tier) → data_pool pools.new t ≡ data_pool pools.old t }
{
    'runs: for place in 0..runs.len() {
        pools.give_nodes(runs[place]);
    }
}
