// The places that the blocks of a file leave.
ghost use Rattle.std.specs.Prelude.{◌≡◌, ◌≤◌, ◌++◌, ◌∷◌, [], ℕ, Some, OnOk, IfOk};
ghost use Rattle.std.specs.List.{AllByRecursion};
ghost use Rattle.posix_calls.specs.declared.limits.TheConstants.{MAX_FILE};
ghost use Rattle.area_commit.specs.layout.declared.places.TheConstants.{FILE_BLOCKS};
ghost use Rattle.block_alloc.specs.Runs.{blocks_of};
ghost use Rattle.block_alloc.specs.Value.{FreeBlocks};
ghost use Rattle.area_commit.specs.extent_tree.BlockFormat.{IsOneToOne};
ghost use Rattle.area_commit.specs.extent_tree.Map.{runs_in, lies_at, LieBelow, HasBlock};
ghost use Rattle.area_commit.specs.graph_change.Bytes.{end};
ghost use Rattle.area_commit.specs.graph_change.Tidy.{IsTidyChange};
ghost use Rattle.area_commit.specs.graph_change.View.{change_of};
ghost use Rattle.area_commit.specs.Release.{AreUsed, IsInUse};
ghost use Rattle.inode_plan.specs.BlockWrites.{AreNumbers};
ghost use Rattle.inode_plan.specs.MapChange.{AreLeft, AreAll, places_below};

use crate::file_cut::first_cut;
use crate::places_in;
use area_commit::in_extent_tree::BlockMap;
use area_commit::in_graph_change::NodeChange;
use area_commit::in_layout::FILE_BLOCKS;
use block_alloc::Run;
use std::alloc::{AllocError, Global};
use tier_device::Tier;

// Adds the place of a block, where it is less than a number and lies in the tier.
fn push_block(
    map: &BlockMap,
    tier: Tier,
    number: u64,
    end: u32,
    out: &mut Vec<Run>,
) -> Result<(), AllocError>
    requires { end ≤ FILE_BLOCKS }
    ensures places { OnOk result (blocks_of out.new.items ≡ blocks_of out.old.items ++ places_below (runs_in map.now tier) end (number ∷ [])) }
    ensures some { OnOk result (AllByRecursion HasBlock out.old.items → AllByRecursion HasBlock out.new.items) }
{
    if end as u64 <= number {
        return Ok(());
    }
    let block = Run {
        first: number as u32,
        count: 1,
    };
    map.push_places(tier, block, out)
}

// Adds the places of those blocks of these numbers that are less than another.
fn push_written(
    map: &BlockMap,
    tier: Tier,
    numbers: &[u64],
    end: u32,
    out: &mut Vec<Run>,
) -> Result<(), AllocError>
    requires { end ≤ FILE_BLOCKS }
    ensures places { OnOk result (blocks_of out.new.items ≡ blocks_of out.old.items ++ places_below (runs_in map.now tier) end numbers.now) }
    ensures some { OnOk result (AllByRecursion HasBlock out.old.items → AllByRecursion HasBlock out.new.items) }
{
    'each: for index in 0..numbers.len() {
        push_block(map, tier, numbers[index], end, out)?;
    }
    Ok(())
}

/// The places in a tier that the blocks of a file leave by a change, as runs: of those that it writes, of these numbers, and of those that it cuts off. They can be given to a
/// pool where each block lay in a place of its own that is in use. It looks at no other block.
pub fn places_left(
    alloc: Global,
    map: &BlockMap,
    tier: Tier,
    change: &NodeChange,
    numbers: &[u64],
) -> Result<Vec<Run>, AllocError>
    requires tidy { IsTidyChange (change_of change.now) }
    requires bounded { end (change_of change.now).length ≤ MAX_FILE }
    requires numbers { AreNumbers (lies_at map.now) (change_of change.now) numbers.now }
    requires below { LieBelow FILE_BLOCKS map.now }
    ensures left { IfOk result (λ runs. AreLeft (change_of change.now) map.now tier (blocks_of runs.items)) }
    ensures used { (p : FreeBlocks) → IsOneToOne (runs_in map.now tier) → ((k b : ℕ) → lies_at map.now tier k ≡ Some b → IsInUse p b) → IfOk result (λ runs. AreUsed p runs.items) }
{
    let mut runs = Vec::new(alloc);
    let cut = first_cut(change.length);
    push_written(map, tier, numbers, cut, &mut runs)?;
    let behind = Run {
        first: cut,
        count: FILE_BLOCKS - cut,
    };
    map.push_places(tier, behind, &mut runs)?;
    Ok(runs)
}

/// All places that blocks have in a tier, as runs: what is given up where the node goes, or a file is made in its stead. Those of a directory, on the fast tier, are of the node
/// pool.
pub fn all_places(alloc: Global, map: &BlockMap, tier: Tier) -> Result<Vec<Run>, AllocError>
    requires { LieBelow FILE_BLOCKS map.now }
    ensures all { IfOk result (λ runs. AreAll map.now tier (blocks_of runs.items)) }
    ensures used { (p : FreeBlocks) → IsOneToOne (runs_in map.now tier) → ((k b : ℕ) → lies_at map.now tier k ≡ Some b → IsInUse p b) → IfOk result (λ runs. AreUsed p runs.items) }
{
    let blocks = Run {
        first: 0,
        count: FILE_BLOCKS,
    };
    let runs = places_in(alloc, map, tier, blocks)?;
    Ok(runs)
}
