// What a directory gives up.
ghost use Rattle.std.specs.Prelude.{◌≡◌, ◌++◌, map, length, IfOk};
ghost use Rattle.inode_plan.specs.Blocks.{root_blocks, one_block};

use block_alloc::Run;
use std::alloc::{AllocError, Global};

/// Blocks that are given up, each as a run of its own: these, and behind them a root, where there is one.
pub fn give_up(alloc: Global, places: &[u32], root: u32) -> Result<Vec<Run>, AllocError>
    ensures { IfOk result (λ runs. runs.items ≡ map one_block (places.now ++ root_blocks root)) }
{
    let mut runs = Vec::new(alloc);
    'each: for index in 0..places.len() {
        runs.push(one_block(places[index]))?;
    }
    if root != 0 {
        runs.push(one_block(root))?;
    }
    Ok(runs)
}

fn one_block(block: u32) -> Run
    ensures { result ≡ one_block block }
{
    Run {
        first: block,
        count: 1,
    }
}
