// New places for a run.
ghost use Rattle.std.specs.Prelude.{◌≡◌, ◌+◌, ◌<◌, ◌^◌, length, OnOk};
ghost use Rattle.block_alloc.specs.Runs.{blocks_of};
ghost use Rattle.inode_plan.specs.RunPlaces.{ArePlaced, EndsFit};

use area_commit::in_extent_tree::BlockMap;
use block_alloc::Run;
use std::alloc::AllocError;
use tier_device::Tier;

/// Puts as many blocks from a first one on as some runs of a tier have to the blocks of these runs, in order.
pub fn put_runs(map: &mut BlockMap, first: u32, tier: Tier, runs: &[Run]) -> Result<(), AllocError>
    requires blocks { first + length (blocks_of runs.now) < 2 ^ 32 }
    requires places { EndsFit runs.now }
    ensures { OnOk result (ArePlaced first tier (blocks_of runs.now) map.old map.new) }
{
    let mut next = first;
    'runs: for place in 0..runs.len() {
        let run = runs[place];
        let blocks = Run {
            first: next,
            count: run.count,
        };
        map.put(blocks, tier, run.first)?;
        next += run.count;
    }
    Ok(())
}
