// The places that a run leaves.
ghost use Rattle.std.specs.Prelude.{◌≡◌, ◌≤◌, ◌<◌, ◌+◌, ◌^◌, ◌++◌, length, OnOk, IfOk};
ghost use Rattle.std.specs.List.{AllByRecursion};
ghost use Rattle.block_alloc.specs.Runs.{blocks_of};
ghost use Rattle.area_commit.specs.extent_tree.Map.{runs_in, places_of, HasBlock};
ghost use Rattle.inode_plan.specs.Lists.{root_left, roots_left};

use area_commit::in_area_reader::root_of;
use area_commit::in_extent_tree::BlockMap;
use area_commit::in_layout::Slot;
use block_alloc::Run;
use std::alloc::{AllocError, Global};
use tier_device::Tier;

/// The places that a run has in a tier, as runs: no more than it has blocks, and none of them empty.
pub fn places_in(
    alloc: Global,
    map: &BlockMap,
    tier: Tier,
    run: Run,
) -> Result<Vec<Run>, AllocError>
    requires { run.first + run.count < 2 ^ 32 }
    ensures places { IfOk result (λ v. blocks_of v.items ≡ places_of (runs_in map.now tier) run.first run.count) }
    ensures some { IfOk result (λ v. AllByRecursion HasBlock v.items) }
    ensures few { IfOk result (λ v. length v.items ≤ run.count) }
{
    let mut runs = Vec::new(alloc);
    map.push_places(tier, run, &mut runs)?;
    Ok(runs)
}

// Adds a block, as a run of its own, where it listed extents and nothing lists them now.
fn push_root(old: u32, new: u32, out: &mut Vec<Run>) -> Result<(), AllocError>
    ensures blocks { OnOk result (blocks_of out.new.items ≡ blocks_of out.old.items ++ root_left old new) }
    ensures few { OnOk result (length out.new.items ≤ length out.old.items + 1) }
    ensures some { OnOk result (AllByRecursion HasBlock out.old.items → AllByRecursion HasBlock out.new.items) }
{
    if old == 0 || new != 0 {
        return Ok(());
    }
    out.push(Run {
        first: old,
        count: 1,
    })?;
    Ok(())
}

/// The blocks that listed extents of an inode by its old slot, in tiers where the new one names none: each as a run, three at most.
pub fn roots_left(alloc: Global, old: &Slot, new: &Slot) -> Result<Vec<Run>, AllocError>
    ensures blocks { IfOk result (λ v. blocks_of v.items ≡ roots_left old.now new.now) }
    ensures some { IfOk result (λ v. AllByRecursion HasBlock v.items) }
    ensures few { IfOk result (λ v. length v.items ≤ 3) }
{
    let mut runs = Vec::new(alloc);
    push_root(
        root_of(old, Tier::Fast),
        root_of(new, Tier::Fast),
        &mut runs,
    )?;
    push_root(
        root_of(old, Tier::Block),
        root_of(new, Tier::Block),
        &mut runs,
    )?;
    push_root(
        root_of(old, Tier::Slow),
        root_of(new, Tier::Slow),
        &mut runs,
    )?;
    Ok(runs)
}
