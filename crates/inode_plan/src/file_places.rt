// Where the blocks of a file lie once some are written elsewhere, and some are cut off.
ghost use Rattle.std.specs.Prelude.{◌≡◌, ◌<◌, ◌≤◌, ◌+◌, ◌^◌, ℕ, length, OnOk, IsTrue};
ghost use Rattle.posix_calls.specs.declared.limits.TheConstants.{MAX_FILE};
ghost use Rattle.block_alloc.specs.Runs.{Rising};
ghost use Rattle.area_commit.specs.extent_tree.Map.{ArePut, lies_at};
ghost use Rattle.area_commit.specs.graph_change.Bytes.{end};
ghost use Rattle.area_commit.specs.graph_change.Tidy.{IsTidyChange};
ghost use Rattle.area_commit.specs.graph_change.View.{change_of};
ghost use Rattle.inode_plan.specs.PlacedFile.{CanBePlaced, GoOn, LiesBehind, NumbersArePlaced, PlacesFit};
ghost use Rattle.inode_plan.specs.BlockWrites.{AreNumbers};
ghost use Rattle.inode_plan.specs.MapChange.{IsMapAfter};

use crate::file_cut::cut_map;
use area_commit::in_extent_tree::{BlockMap, Place};
use area_commit::in_graph_change::NodeChange;
use block_alloc::Run;
use std::alloc::AllocError;

// Puts the blocks of these numbers, which rise, to places: each to its own, wherever it lay before. Those that follow one another, in numbers and in places, go at once.
fn place_blocks(map: &mut BlockMap, numbers: &[u64], places: &[Place]) -> Result<(), AllocError>
    requires fit { CanBePlaced numbers.now places.now }
    requires rising { (end : ℕ) × Rising 0 end numbers.now }
    ensures { OnOk result (NumbersArePlaced numbers.now places.now (length numbers.now) map.old map.new) }
{
    let mut done = 0;
    'runs: while done < numbers.len() {
        let count = run_from(numbers, places, done);
        place_run(map, numbers[done], places[done], count)?;
        done += count;
    }
    Ok(())
}

// How many numbers from one on follow one another, and so do their places.
fn run_from(numbers: &[u64], places: &[Place], first: usize) -> usize
    requires fit { CanBePlaced numbers.now places.now }
    requires inside { first < length numbers.now }
    ensures some { 0 < result }
    ensures within { first + result ≤ length numbers.now }
    ensures run { GoOn numbers.now places.now first result }
{
    let mut count = 1;
    'more: while first + count < numbers.len() && goes_on(numbers, places, first, count) {
        count += 1;
    }
    count
}

// Whether a number and its place lie so many behind those of another.
fn goes_on(numbers: &[u64], places: &[Place], first: usize, count: usize) -> bool
    requires fit { CanBePlaced numbers.now places.now }
    requires inside { first + count < length numbers.now }
    ensures { IsTrue result → LiesBehind numbers.now places.now first count }
{
    let here = places[first];
    let there = places[first + count];
    numbers[first + count] == numbers[first] + count as u64
        && there.tier == here.tier
        && there.block as u64 == here.block as u64 + count as u64
}

// Puts so many blocks to places, each behind the one before.
fn place_run(map: &mut BlockMap, number: u64, place: Place, count: usize) -> Result<(), AllocError>
    requires number { number + count < 2 ^ 32 }
    requires place { place.block + count < 2 ^ 32 }
    ensures { OnOk result (ArePut number count place.tier place.block map.old map.new) }
{
    let run = Run {
        first: number as u32,
        count: count as u32,
    };
    map.put(run, place.tier, place.block)
}

/// Makes of where the blocks of a file lie where they lie after a change: those that it cuts off lie nowhere, and then those that it writes, of these numbers, go each to its own
/// place. After want of memory nothing is said of the map.
pub fn change_map(
    map: &mut BlockMap,
    change: &NodeChange,
    numbers: &[u64],
    places: &[Place],
) -> Result<(), AllocError>
    requires tidy { IsTidyChange (change_of change.now) }
    requires bounded { end (change_of change.now).length ≤ MAX_FILE }
    requires numbers { AreNumbers (lies_at map.old) (change_of change.now) numbers.now }
    requires enough { length numbers.now ≤ length places.now }
    requires fit { PlacesFit places.now }
    ensures { OnOk result (IsMapAfter (change_of change.now) numbers.now places.now map.old map.new) }
{
    cut_map(map, change.length)?;
    place_blocks(map, numbers, places)?;
    Ok(())
}
