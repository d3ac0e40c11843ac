// The blocks of the node pool that were taken for one inode.
ghost use Rattle.std.specs.Prelude.{◌≡◌, ◌≤◌, ◌<◌, ◌+◌, ◌-◌, ◌^◌, ◌++◌, take, drop, length, OnOk, IfOk};
ghost use Rattle.block_alloc.specs.Runs.{run_blocks, blocks_of};
ghost use Rattle.inode_plan.specs.area_commit.Value.{PoolsView, AreInOrder};
ghost use Rattle.inode_plan.specs.area_commit.Allocations.{WereTaken, CanRelease};
ghost use Rattle.inode_plan.specs.RunPlaces.{EndsFit};
ghost use Rattle.change_plan.specs.PlanAddition.{TakesMoreNodes};

use block_alloc::Run;
use inode_plan::in_area_commit::{Allocation, Pools};
use std::alloc::{AllocError, Global};

// Adds the blocks of a run.
fn push_run(run: Run, out: &mut Vec<u32>) -> Result<(), AllocError>
    requires { run.first + run.count < 2 ^ 32 }
    ensures { OnOk result (out.new.items ≡ out.old.items ++ run_blocks run) }
{
    'each: for block in run.first..run.first + run.count {
        out.push(block)?;
    }
    Ok(())
}

// Adds the blocks of runs.
fn push_runs(runs: &[Run], out: &mut Vec<u32>) -> Result<(), AllocError>
    requires { EndsFit runs.now }
    ensures { OnOk result (out.new.items ≡ out.old.items ++ blocks_of runs.now) }
{
    'runs: for index in 0..runs.len() {
        push_run(runs[index], out)?;
    }
    Ok(())
}

/// The last so many blocks of some runs: those that were taken last.
pub fn last_blocks(alloc: Global, runs: &[Run], count: usize) -> Result<Vec<u32>, AllocError>
    requires fit { EndsFit runs.now }
    requires many { count ≤ length (blocks_of runs.now) }
    ensures { IfOk result (λ v. v.items ≡ drop (length (blocks_of runs.now) - count) (blocks_of runs.now)) }
{
    let mut all = Vec::new(alloc);
    push_runs(runs, &mut all)?;
    let first = all.len() - count;
    let last = Vec::from_slice(alloc, &all[first..])?;
    Ok(last)
}

/// Takes so many blocks of the node pool more, which it tells in order. After an error, which is want of memory, they may be taken.
pub fn take_spares(
    alloc: Global,
    pools: &mut Pools,
    taken: &mut Allocation,
    count: usize,
) -> Result<Vec<u32>, AllocError>
    requires before { (before : PoolsView) × AreInOrder before × WereTaken before pools.old taken.old × (before.nodes.end < 2 ^ 32) }
    requires undo { CanRelease pools.old taken.old }
    requires enough { count ≤ length pools.old.nodes.free }
    requires few { count < 2 ^ 32 }
    ensures spares { IfOk result (λ v. v.items ≡ take count pools.old.nodes.free) }
    ensures nodes { OnOk result (blocks_of taken.new.nodes.items ≡ blocks_of taken.old.nodes.items ++ take count pools.old.nodes.free) }
    ensures left { OnOk result (pools.new.nodes.free ≡ drop count pools.old.nodes.free) }
    ensures took { TakesMoreNodes pools.old taken.old pools.new taken.new }
{
    match pools.take_nodes(count as u32, taken) {
        Ok(()) => {
            let spares = last_blocks(alloc, &taken.nodes, count)?;
            Ok(spares)
        }
        Err(_) => Err(AllocError),
    }
}
