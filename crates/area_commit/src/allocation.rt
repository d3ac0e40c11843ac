// Taking runs of one pool, and giving them back.
ghost use Rattle.std.specs.Prelude.{◌≡◌, ◌≢◌, ◌≤◌, ◌<◌, ◌+◌, ◌-◌, ◌++◌, ◌^◌, ℕ, [], length, take, drop, false, IsTrue, IfOk, OnOk, OnErr, IsErrOf, IfErr, ◌↔◌, vec_len, vec_capacity, slice_index_or};
ghost use Rattle.block_alloc.specs.Runs.{blocks_of, AreNormalRuns, Rising};
ghost use Rattle.block_alloc.specs.Value.{InOrder, IsUsed, SamePool};
ghost use Rattle.area_commit.specs.Value.{GivesRun};
ghost use Rattle.block_alloc.specs.declared.error.AllocatorError.TheVariants.{NoBlock, Memory};
ghost use Rattle.area_commit.specs.Allocations.{WasTaken, CanGive, WasGiven, SameBlocks};

use block_alloc::{AllocatorError, FreeRuns, Run};
use std::alloc::{AllocError, Global};

/// Blocks that were taken, as runs: of the node pool, and of the data blocks of each tier. The runs of a pool rise, and none touches the next.
#[derive(Drop)]
pub struct Allocation {
    pub nodes: Vec<Run>,
    pub fast: Vec<Run>,
    pub block: Vec<Run>,
    pub slow: Vec<Run>,
}

/// Takes the lowest free blocks of a pool into a list that is empty.
pub fn take_runs(pool: &mut FreeRuns, count: u32, runs: &mut Vec<Run>) -> Result<(), AllocatorError>
    requires empty { runs.old.items ≡ [] }
    requires ordered { InOrder pool.old }
    ensures taken { WasTaken pool.old pool.new runs.new.items }
    ensures spare { pool.old.room + length runs.new.items ≤ pool.new.room + 1 }
    ensures count { OnOk result (length (blocks_of runs.new.items) ≡ count) }
    ensures ordered { InOrder pool.new }
    ensures few { IsErrOf result NoBlock → length pool.old.free < count }
{
    *runs = pool.take(count)?;
    Ok(())
}

// Whether the first of some runs begins where the last of others ends.
fn go_on(runs: &[Run], more: &[Run]) -> bool
    requires { AreNormalRuns 0 4294967295 runs.now }
    ensures some { IsTrue result → (0 < length runs.now) × (0 < length more.now) }
    ensures touch { (d : Run) → IsTrue result → (slice_index_or runs.now (length runs.now - 1) d).first + (slice_index_or runs.now (length runs.now - 1) d).count ≡ (slice_index_or more.now 0 d).first }
    ensures apart { (d : Run) → result ≡ false → 0 < length runs.now → 0 < length more.now → (slice_index_or runs.now (length runs.now - 1) d).first + (slice_index_or runs.now (length runs.now - 1) d).count ≢ (slice_index_or more.now 0 d).first }
{
    if runs.is_empty() || more.is_empty() {
        return false;
    }
    let last = runs[runs.len() - 1];
    last.first + last.count == more[0].first
}

// Puts runs behind those of a list that has room for them. Where the first of them begins where the last of those ends, the two become one.
fn put_behind(runs: &mut Vec<Run>, more: &[Run])
    requires room { vec_len runs.old + length more.now ≤ vec_capacity runs.old }
    requires normal { AreNormalRuns 0 4294967295 runs.old.items }
    requires more { AreNormalRuns 0 4294967295 more.now }
    requires rising { Rising 0 4294967295 (blocks_of runs.old.items ++ blocks_of more.now) }
    ensures blocks { blocks_of runs.new.items ≡ blocks_of runs.old.items ++ blocks_of more.now }
    ensures normal { (low end : ℕ) → AreNormalRuns low end runs.old.items → AreNormalRuns low end more.now → AreNormalRuns low end runs.new.items }
    ensures len { length runs.new.items ≤ length runs.old.items + length more.now }
{
    if !go_on(runs, more) {
        let _ = runs.extend_from_slice(more);
        return;
    }
    let end = runs.len() - 1;
    let last = runs[end];
    runs[end] = Run {
        first: last.first,
        count: last.count + more[0].count,
    };
    let _ = runs.extend_from_slice(&more[1..]);
}

// The runs once more, in a list that has room for so many behind them.
fn with_room(alloc: Global, runs: &[Run], more: usize) -> Result<Vec<Run>, AllocError>
    requires few { length runs.now < 2 ^ 60 }
    requires more { more < 2 ^ 32 }
    ensures items { IfOk result (λ v. v.items ≡ runs.now) }
    ensures room { IfOk result (λ v. vec_len v + more ≤ vec_capacity v) }
{
    let mut list = Vec::with_capacity(alloc, runs.len() + more)?;
    list.extend_from_slice(runs)?;
    Ok(list)
}

// Makes room in a pool for the runs and one more to be given, and lists the runs once more, with room for so many behind them.
fn make_room(
    alloc: Global,
    pool: &mut FreeRuns,
    runs: &[Run],
    more: usize,
) -> Result<Vec<Run>, AllocError>
    requires few { length runs.now < 2 ^ 60 }
    requires more { more < 2 ^ 32 }
    ensures items { IfOk result (λ v. v.items ≡ runs.now) }
    ensures list { IfOk result (λ v. vec_len v + more ≤ vec_capacity v) }
    ensures room { OnOk result (length runs.now + 1 ≤ pool.new.room) }
    ensures kept { pool.old.room ≤ pool.new.room }
    ensures same { SameBlocks pool.old pool.new }
{
    pool.reserve(runs.len() + 1)?;
    with_room(alloc, runs, more)
}

/// Takes so many blocks of a pool more than those of runs that stand before its free blocks, and lists them with those.
pub fn take_more(
    alloc: Global,
    pool: &mut FreeRuns,
    count: u32,
    runs: &mut Vec<Run>,
) -> Result<(), AllocatorError>
    requires can { CanGive pool.old runs.old.items }
    requires fits { pool.old.end < 2 ^ 32 }
    ensures can { CanGive pool.new runs.new.items }
    ensures blocks { OnOk result (blocks_of runs.new.items ≡ blocks_of runs.old.items ++ take count pool.old.free) }
    ensures left { OnOk result (pool.new.free ≡ drop count pool.old.free) }
    ensures pool { SamePool pool.old pool.new }
    ensures room { pool.old.room ≤ pool.new.room }
    ensures ordered { InOrder pool.new }
    ensures few { IsErrOf result NoBlock ↔ (length pool.old.free < count) }
    ensures err { OnErr result ((pool.new.free ≡ pool.old.free) × (runs.new ≡ runs.old)) }
{
    if pool.free() < count {
        return Err(AllocatorError::NoBlock);
    }
    let mut all = match make_room(alloc, pool, runs, count as usize) {
        Ok(all) => all,
        Err(_) => return Err(AllocatorError::Memory),
    };
    let more = pool.take(count)?;
    put_behind(&mut all, &more);
    *runs = all;
    Ok(())
}

/// Gives back runs that stand before the free blocks of a pool.
pub fn give_runs(pool: &mut FreeRuns, runs: &[Run])
    requires { CanGive pool.old runs.now }
    ensures given { WasGiven pool.old pool.new runs.now }
    ensures ordered { InOrder pool.new }
{
    'runs: for place in 0..runs.len() {
        let _ = pool.give(runs[runs.len() - 1 - place]);
    }
}

/// Gives back a run, none of whose blocks is free.
pub fn give_run(pool: &mut FreeRuns, run: Run)
    requires used { IsUsed pool.old run }
    requires room { 0 < pool.old.room }
    ensures given { GivesRun pool.old pool.new run }
    ensures ordered { InOrder pool.new }
{
    let _ = pool.give(run);
}
