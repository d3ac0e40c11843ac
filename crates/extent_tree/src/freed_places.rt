// The places of blocks that are given up, as runs.
ghost use Rattle.std.specs.Prelude.{◌≡◌, ◌+◌, ◌-◌, ◌^◌, ◌<◌, ◌≤◌, ◌++◌, ◌∷◌, [], ℕ, None, OnOk, IsTrue, length, slice_index_or};
ghost use Rattle.std.specs.List.{AllByRecursion};
ghost use Rattle.extent_tree.specs.Places.{place_of};
ghost use Rattle.block_alloc.specs.Runs.{blocks_of};
ghost use Rattle.extent_tree.specs.Map.{places_of, last_of, run_end, EndsAt, HasBlock};

use crate::Extents;
use block_alloc::Run;
use layout::MAX_EXTENTS;
use std::alloc::AllocError;

/// Adds to `out`, as runs, the place of each mapped block of a run of a file's blocks. Refused for want of memory alone.
#[tactic(auto, using(crate::proofs::GivenUp::none_left))]
pub fn push_places(
    tree: &Extents<MAX_EXTENTS>,
    blocks: Run,
    out: &mut Vec<Run>,
) -> Result<(), AllocError>
    requires { blocks.first + blocks.count < 2 ^ 32 }
    ensures places { OnOk result (blocks_of out.new.items ≡ blocks_of out.old.items ++ places_of tree.now.runs blocks.first blocks.count) }
    ensures some { OnOk result (AllByRecursion HasBlock out.old.items → AllByRecursion HasBlock out.new.items) }
{
    let behind = blocks.first + blocks.count;
    let stop = stop_of(tree, behind);
    if stop < blocks.first {
        return Ok(());
    }
    'each: for block in blocks.first..stop {
        if let Some(place) = tree.at(block) {
            push_block(out, place)?;
        }
    }
    Ok(())
}

// A block that is no higher, from which on none before that is mapped.
fn stop_of(tree: &Extents<MAX_EXTENTS>, behind: u32) -> u32
    ensures most { result ≤ behind }
    ensures none { (b : ℕ) → result ≤ b → b < behind → place_of tree.now.runs b ≡ None }
{
    let end = tree.end();
    if behind as u64 <= end {
        return behind;
    }
    end as u32
}

// Adds a block: to the last run, where it goes on there.
#[tactic(auto, using(crate::proofs::GivenUp::pushed_some))]
fn push_block(runs: &mut Vec<Run>, block: u32) -> Result<(), AllocError>
    ensures blocks { OnOk result (blocks_of runs.new.items ≡ blocks_of runs.old.items ++ block ∷ []) }
    ensures some { OnOk result (AllByRecursion HasBlock runs.old.items → AllByRecursion HasBlock runs.new.items) }
{
    if !runs.is_empty() && goes_on(runs, block) {
        lengthen(runs);
        return Ok(());
    }
    runs.push(Run {
        first: block,
        count: 1,
    })?;
    Ok(())
}

// Whether a block goes on where the last run ends.
fn goes_on(runs: &[Run], block: u32) -> bool
    requires { 0 < length runs.now }
    ensures { IsTrue result → EndsAt block (last_of runs.now) }
{
    let last = runs[runs.len() - 1];
    last.count < u32::MAX - last.first && last.first + last.count == block
}

// Adds the block behind the last run to it.
#[tactic(auto, using(crate::proofs::GivenUp::lengthened, crate::proofs::GivenUp::longer_some))]
fn lengthen(runs: &mut Vec<Run>)
    requires some { 0 < length runs.old.items }
    requires room { (last_of runs.old.items).count < 2 ^ 32 - 1 }
    ensures blocks { blocks_of runs.new.items ≡ blocks_of runs.old.items ++ run_end (last_of runs.old.items) ∷ [] }
    ensures some { AllByRecursion HasBlock runs.old.items → AllByRecursion HasBlock runs.new.items }
{
    let at = runs.len() - 1;
    let last = runs[at];
    runs[at] = Run {
        first: last.first,
        count: last.count + 1,
    };
}
