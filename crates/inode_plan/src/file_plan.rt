// What a file is after a change of it.
ghost use Rattle.std.specs.Prelude.{◌≡◌, ◌≤◌, ℕ, Some, length, OnOk, IfOk};
ghost use Rattle.tier_device.specs.declared.media.Tier.{Tier};
ghost use Rattle.posix_calls.specs.declared.limits.TheConstants.{MAX_FILE};
ghost use Rattle.area_commit.specs.layout.declared.places.TheConstants.{FILE_BLOCKS};
ghost use Rattle.block_alloc.specs.Runs.{blocks_of};
ghost use Rattle.block_alloc.specs.Value.{FreeBlocks};
ghost use Rattle.area_commit.specs.extent_tree.Normal.{IsNormal};
ghost use Rattle.area_commit.specs.extent_tree.BlockFormat.{IsOneToOne};
ghost use Rattle.area_commit.specs.extent_tree.Map.{runs_in, lies_at, LieBelow};
ghost use Rattle.area_commit.specs.graph_change.Bytes.{end};
ghost use Rattle.area_commit.specs.graph_change.Tidy.{IsTidyChange};
ghost use Rattle.area_commit.specs.graph_change.View.{change_of};
ghost use Rattle.area_commit.specs.Release.{AreUsed, IsInUse};
ghost use Rattle.inode_plan.specs.Lists.{AreListsOf};
ghost use Rattle.inode_plan.specs.PlacedFile.{PlacesFit};
ghost use Rattle.inode_plan.specs.BlockWrites.{AreNumbers};
ghost use Rattle.inode_plan.specs.MapChange.{IsMapAfter, AreLeft};
ghost use Rattle.inode_plan.specs.PlannedFile.{left_in, runs_left};

use crate::extents_of;
use crate::file_places::change_map;
use crate::freed_places::places_left;
use area_commit::in_area_reader::InodeExtents;
use area_commit::in_extent_tree::{BlockMap, Place};
use area_commit::in_graph_change::NodeChange;
use block_alloc::Run;
use std::alloc::{AllocError, Global};
use tier_device::Tier;

/// What a file is after a change: where its blocks lie, the extents of each tier, to be listed in a block where there are some, and the runs of data blocks of each tier that
/// it leaves.
#[derive(Drop)]
pub struct FilePlan {
    pub map: BlockMap,
    pub lists: InodeExtents,
    pub fast: Vec<Run>,
    pub block: Vec<Run>,
    pub slow: Vec<Run>,
}

// The runs of data blocks of each tier that a file leaves.
#[derive(Drop)]
struct LeftRuns {
    fast: Vec<Run>,
    block: Vec<Run>,
    slow: Vec<Run>,
}

// The runs of each tier that a change of a file whose blocks lie so leaves.
fn left_runs(
    alloc: Global,
    map: &BlockMap,
    change: &NodeChange,
    numbers: &[u64],
) -> Result<LeftRuns, AllocError>
    requires tidy { IsTidyChange (change_of change.now) }
    requires bounded { end (change_of change.now).length ≤ MAX_FILE }
    requires numbers { AreNumbers (lies_at map.now) (change_of change.now) numbers.now }
    requires below { LieBelow FILE_BLOCKS map.now }
    ensures left { (t : Tier) → IfOk result (λ runs. AreLeft (change_of change.now) map.now t (blocks_of (runs_left runs t))) }
    ensures used { (t : Tier) (p : FreeBlocks) → IsOneToOne (runs_in map.now t) → ((k b : ℕ) → lies_at map.now t k ≡ Some b → IsInUse p b) → IfOk result (λ runs. AreUsed p (runs_left runs t)) }
{
    let fast = places_left(alloc, map, Tier::Fast, change, numbers)?;
    let block = places_left(alloc, map, Tier::Block, change, numbers)?;
    let slow = places_left(alloc, map, Tier::Slow, change, numbers)?;
    Ok(LeftRuns { fast, block, slow })
}

// The lists of a changed file, and the runs that it leaves.
#[derive(Drop)]
struct ChangedFile {
    lists: InodeExtents,
    left: LeftRuns,
}

// Makes of where the blocks of a file lie where they lie after a change, and tells the lists then.
fn change_places(
    alloc: Global,
    inode: u32,
    map: &mut BlockMap,
    change: &NodeChange,
    numbers: &[u64],
    places: &[Place],
) -> Result<ChangedFile, AllocError>
    requires tidy { IsTidyChange (change_of change.now) }
    requires bounded { end (change_of change.now).length ≤ MAX_FILE }
    requires numbers { AreNumbers (lies_at map.old) (change_of change.now) numbers.now }
    requires enough { length numbers.now ≤ length places.now }
    requires fit { PlacesFit places.now }
    requires below { LieBelow FILE_BLOCKS map.old }
    ensures map { OnOk result (IsMapAfter (change_of change.now) numbers.now places.now map.old map.new) }
    ensures lists { IfOk result (λ file. AreListsOf inode map.new file.lists) }
    ensures normal { OnOk result ((t : Tier) → IsNormal (runs_in map.new t)) }
    ensures left { (t : Tier) → IfOk result (λ file. AreLeft (change_of change.now) map.old t (blocks_of (runs_left file.left t))) }
    ensures used { (t : Tier) (p : FreeBlocks) → IsOneToOne (runs_in map.old t) → ((k b : ℕ) → lies_at map.old t k ≡ Some b → IsInUse p b) → IfOk result (λ file. AreUsed p (runs_left file.left t)) }
{
    let left = left_runs(alloc, map, change, numbers)?;
    change_map(map, change, numbers, places)?;
    let lists = extents_of(map, inode)?;
    Ok(ChangedFile { lists, left })
}

/// The plan of a change of a file whose blocks lie so, which is nowhere where it is made: the blocks that the change writes, of these numbers, go each to its own place. `slot_after`
/// makes the slot to it, once there are spare blocks for the extents, as many as `roots_wanted` tells.
pub fn plan_file(
    alloc: Global,
    inode: u32,
    map: BlockMap,
    change: &NodeChange,
    numbers: &[u64],
    places: &[Place],
) -> Result<FilePlan, AllocError>
    requires tidy { IsTidyChange (change_of change.now) }
    requires bounded { end (change_of change.now).length ≤ MAX_FILE }
    requires numbers { AreNumbers (lies_at map) (change_of change.now) numbers.now }
    requires enough { length numbers.now ≤ length places.now }
    requires fit { PlacesFit places.now }
    requires below { LieBelow FILE_BLOCKS map }
    ensures map { IfOk result (λ plan. IsMapAfter (change_of change.now) numbers.now places.now map plan.map) }
    ensures lists { IfOk result (λ plan. AreListsOf inode plan.map plan.lists) }
    ensures normal { IfOk result (λ plan. (t : Tier) → IsNormal (runs_in plan.map t)) }
    ensures left { (t : Tier) → IfOk result (λ plan. AreLeft (change_of change.now) map t (blocks_of (left_in plan t))) }
    ensures used { (t : Tier) (p : FreeBlocks) → IsOneToOne (runs_in map t) → ((k b : ℕ) → lies_at map t k ≡ Some b → IsInUse p b) → IfOk result (λ plan. AreUsed p (left_in plan t)) }
{
    let mut map = map;
    let file = change_places(alloc, inode, &mut map, change, numbers, places)?;
    Ok(FilePlan {
        map,
        lists: file.lists,
        fast: file.left.fast,
        block: file.left.block,
        slow: file.left.slow,
    })
}
