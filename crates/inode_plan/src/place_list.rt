// The blocks that were taken, as places.
ghost use Rattle.std.specs.Prelude.{◌≡◌, ◌++◌, ◌+◌, ◌<◌, ◌^◌, OnOk, IfOk};
ghost use Rattle.tier_device.specs.declared.media.Tier.{Tier};
ghost use Rattle.block_alloc.specs.Runs.{run_blocks, blocks_of};
ghost use Rattle.area_commit.specs.Allocations.{runs_of, taken_data};
ghost use Rattle.area_commit.specs.Value.{on_tier};
ghost use Rattle.inode_plan.specs.RunPlaces.{EndsFit};
ghost use Rattle.inode_plan.specs.PlannedFile.{pairs_of};

use area_commit::Allocation;
use area_commit::in_extent_tree::Place;
use block_alloc::Run;
use std::alloc::{AllocError, Global};
use tier_device::Tier;

// Adds the blocks of a run of a tier.
fn push_run(tier: Tier, run: Run, out: &mut Vec<Place>) -> Result<(), AllocError>
    requires { run.first + run.count < 2 ^ 32 }
    ensures { OnOk result (pairs_of out.new.items ≡ pairs_of out.old.items ++ on_tier tier (run_blocks run)) }
{
    'each: for block in run.first..run.first + run.count {
        out.push(Place { tier, block })?;
    }
    Ok(())
}

// Adds the blocks of runs of a tier.
fn push_runs(tier: Tier, runs: &[Run], out: &mut Vec<Place>) -> Result<(), AllocError>
    requires { EndsFit runs.now }
    ensures { OnOk result (pairs_of out.new.items ≡ pairs_of out.old.items ++ on_tier tier (blocks_of runs.now)) }
{
    'runs: for index in 0..runs.len() {
        push_run(tier, runs[index], out)?;
    }
    Ok(())
}

/// The data blocks that were taken, one after the other: fastest tier first, in the order in which data is written to them.
pub fn taken_places(alloc: Global, taken: &Allocation) -> Result<Vec<Place>, AllocError>
    requires { (t : Tier) → EndsFit (runs_of taken.now t) }
    ensures { IfOk result (λ places. pairs_of places.items ≡ taken_data taken.now) }
{
    let mut places = Vec::new(alloc);
    push_runs(Tier::Fast, &taken.fast, &mut places)?;
    push_runs(Tier::Block, &taken.block, &mut places)?;
    push_runs(Tier::Slow, &taken.slow, &mut places)?;
    Ok(places)
}
