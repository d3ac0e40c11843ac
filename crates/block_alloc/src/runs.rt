// Work on lists of runs.
ghost use Rattle.std.specs.Prelude.{◌≡◌, ◌+◌, ◌-◌, ◌≤◌, ◌<◌, ◌^◌, ◌++◌, ◌∷◌, [], ◌↔◌, ◌⊎◌, length, take, drop, IsTrue, IfOk, OnOk, OnErr, IsOk, vec_len, vec_capacity, slice_set, slice_index_or, ℕ, false};
ghost use Rattle.std.specs.List.{range_with_len, AllByRecursion};
ghost use Rattle.block_alloc.specs.Runs.{run_blocks, blocks_of, unmarked_blocks, AreNormalRuns, EndsBefore, Apart, PutIn, Seamed, IsSeamed};

use std::alloc::{AllocError, Global};

/// Blocks that stand one after the other: the first of them, and how many there are.
#[derive(Clone, Copy, PartialEq, Eq)]
pub struct Run {
    pub first: u32,
    pub count: u32,
}

/// A cut of a list of runs: `whole` runs at the front, and `left` blocks of the next one.
#[derive(Clone, Copy)]
pub struct Split {
    pub whole: usize,
    pub left: u32,
}

/// Finds the cut behind the first `count` blocks of the runs, which have as many at least. Takes no memory.
pub fn split_of(runs: &[Run], count: u32) -> Split
    requires { count ≤ length (blocks_of runs.now) }
    ensures whole { result.whole ≤ length runs.now }
    ensures sum { length (blocks_of (take result.whole runs.now)) + result.left ≡ count }
    ensures part { (r : Run) → result.whole < length runs.now → result.left < (slice_index_or runs.now result.whole r).count }
    ensures none { length runs.now ≤ result.whole → result.left ≡ 0 }
{
    let mut left = count;
    'whole: for whole in 0..runs.len() {
        let next = runs[whole].count;
        if left < next {
            return Split { whole, left };
        }
        left -= next;
    }
    Split {
        whole: runs.len(),
        left,
    }
}

/// Copies the blocks before a cut, as runs: `split.whole + 1` at most. Refused for want of memory alone.
pub fn front_of(alloc: Global, runs: &[Run], split: Split) -> Result<Vec<Run>, AllocError>
    requires whole { split.whole ≤ length runs.now }
    requires part { (r : Run) → split.whole < length runs.now → split.left < (slice_index_or runs.now split.whole r).count }
    requires none { length runs.now ≤ split.whole → split.left ≡ 0 }
    requires few { length runs.now < 2 ^ 60 }
    ensures blocks { IfOk result (λ v. blocks_of v.items ≡ take (length (blocks_of (take split.whole runs.now)) + split.left) (blocks_of runs.now)) }
    ensures normal { IfOk result (λ v. (low end : ℕ) → AreNormalRuns low end runs.now → AreNormalRuns low end v.items) }
    ensures len { IfOk result (λ v. length v.items ≤ split.whole + 1) }
{
    let mut front = Vec::with_capacity(alloc, split.whole + 1)?;
    front.extend_from_slice(&runs[..split.whole])?;
    if split.left == 0 {
        return Ok(front);
    }
    let next = runs[split.whole];
    front.push(Run {
        first: next.first,
        count: split.left,
    })?;
    Ok(front)
}

// Removes the first `count` runs.
fn remove_front(runs: &mut Vec<Run>, count: usize)
    requires { count ≤ vec_len runs.old }
    ensures items { runs.new.items ≡ drop count runs.old.items }
    ensures len { vec_len runs.new + count ≡ vec_len runs.old }
    ensures capacity { vec_capacity runs.new ≡ vec_capacity runs.old }
{
    runs.rotate_left(count);
    let rest = runs.len() - count;
    runs.truncate(rest);
}

/// Removes the blocks before a cut from the runs. Takes no memory.
pub fn drop_front(runs: &mut Vec<Run>, split: Split)
    requires whole { split.whole ≤ vec_len runs.old }
    requires part { (r : Run) → split.whole < vec_len runs.old → split.left < (slice_index_or runs.old.items split.whole r).count }
    requires none { vec_len runs.old ≤ split.whole → split.left ≡ 0 }
    requires fits { (i : ℕ) (r : Run) → i < vec_len runs.old → (slice_index_or runs.old.items i r).first + (slice_index_or runs.old.items i r).count < 2 ^ 32 }
    ensures blocks { blocks_of runs.new.items ≡ drop (length (blocks_of (take split.whole runs.old.items)) + split.left) (blocks_of runs.old.items) }
    ensures normal { (low end : ℕ) → AreNormalRuns low end runs.old.items → AreNormalRuns low end runs.new.items }
    ensures len { vec_len runs.new + split.whole ≡ vec_len runs.old }
    ensures capacity { vec_capacity runs.new ≡ vec_capacity runs.old }
{
    if split.left == 0 {
        remove_front(runs, split.whole);
        return;
    }
    let next = runs[split.whole];
    runs[split.whole] = Run {
        first: next.first + split.left,
        count: next.count - split.left,
    };
    remove_front(runs, split.whole);
}

// Puts the run of `count` blocks that ends at a block behind the others, if it has any.
fn close_run(runs: &mut Vec<Run>, end: u32, count: u32) -> Result<(), AllocError>
    requires { count ≤ end }
    ensures blocks { OnOk result (blocks_of runs.new.items ≡ blocks_of runs.old.items ++ range_with_len (end - count) count) }
    ensures normal { OnOk result ((low bound : ℕ) → AreNormalRuns low bound runs.old.items → EndsBefore (end - count) runs.old.items → low ≤ end - count → end ≤ bound → AreNormalRuns low bound runs.new.items × EndsBefore (end + 1) runs.new.items) }
{
    if 0 < count {
        runs.push(Run {
            first: end - count,
            count,
        })?;
    }
    Ok(())
}

/// Lists, as runs, the blocks that are not marked: `used[i]` is the mark of block `first + i`.
/// Refused for want of memory alone.
pub fn unused_runs(alloc: Global, first: u32, used: &[bool]) -> Result<Vec<Run>, AllocError>
    requires { first + length used.now < 2 ^ 32 }
    ensures blocks { IfOk result (λ v. blocks_of v.items ≡ unmarked_blocks first used.now) }
    ensures normal { IfOk result (λ v. AreNormalRuns first (first + length used.now) v.items) }
{
    let mut runs = Vec::new(alloc);
    let mut count = 0;
    'marks: for place in 0..used.len() {
        if !used[place] {
            count += 1;
            continue;
        }
        close_run(&mut runs, first + place as u32, count)?;
        count = 0;
    }
    close_run(&mut runs, first + used.len() as u32, count)?;
    Ok(runs)
}

/// Counts the blocks of the runs, of which there are fewer than 2^32.
pub fn count_of(runs: &[Run]) -> u32
    requires { length (blocks_of runs.now) < 2 ^ 32 }
    ensures { result ≡ length (blocks_of runs.now) }
{
    let mut count = 0;
    'runs: for place in 0..runs.len() {
        count += runs[place].count;
    }
    count
}

// How many runs end before a block, with another block between.
fn place_of(runs: &[Run], block: u32) -> usize
    requires { AreNormalRuns 0 4294967295 runs.now }
    ensures within { result ≤ length runs.now }
    ensures before { EndsBefore block (take result runs.now) }
    ensures next { (r : Run) → result < length runs.now → block ≤ (slice_index_or runs.now result r).first + (slice_index_or runs.now result r).count }
{
    runs.partition_point(|run| run.first as u64 + (run.count as u64) < block as u64)
}

// Makes one run of the run at a place and the next, where that follows at once.
fn join_next(runs: &mut Vec<Run>, place: usize)
    requires { IsSeamed place runs.old.items }
    ensures blocks { blocks_of runs.new.items ≡ blocks_of runs.old.items }
    ensures normal { (low end : ℕ) → Seamed low end place runs.old.items → AreNormalRuns low end runs.new.items }
    ensures len { vec_len runs.new ≤ vec_len runs.old }
    ensures capacity { vec_capacity runs.new ≡ vec_capacity runs.old }
{
    let next = place + 1;
    if next == runs.len() {
        return;
    }
    let run = runs[place];
    let follower = runs[next];
    if run.first + run.count != follower.first {
        return;
    }
    runs[place] = Run {
        first: run.first,
        count: run.count + follower.count,
    };
    runs.remove(next);
}

// Whether there is a run at a place, and it begins before a block.
fn begins_before(runs: &[Run], place: usize, block: u32) -> bool
    ensures some { IsTrue result → place < length runs.now }
    ensures before { (r : Run) → IsTrue result → (slice_index_or runs.now place r).first < block }
    ensures after { (r : Run) → result ≡ false → place < length runs.now → block ≤ (slice_index_or runs.now place r).first }
{
    place < runs.len() && runs[place].first < block
}

// Lengthens the run at a place by one that begins where it ends.
fn grow(runs: &mut Vec<Run>, place: usize, run: Run)
    requires within { place < vec_len runs.old }
    requires some { 0 < run.count }
    requires fits { run.first + run.count < 2 ^ 32 }
    requires normal { AreNormalRuns 0 4294967295 runs.old.items }
    requires apart { Apart run (blocks_of runs.old.items) }
    requires before { (r : Run) → (slice_index_or runs.old.items place r).first < run.first }
    requires reaches { (r : Run) → run.first ≤ (slice_index_or runs.old.items place r).first + (slice_index_or runs.old.items place r).count }
    ensures blocks { PutIn (blocks_of runs.old.items) (run_blocks run) (blocks_of runs.new.items) }
    ensures normal { (low end : ℕ) → AreNormalRuns low end runs.old.items → low ≤ run.first → run.first + run.count ≤ end → AreNormalRuns low end runs.new.items }
    ensures len { vec_len runs.new ≤ vec_len runs.old }
    ensures capacity { vec_capacity runs.new ≡ vec_capacity runs.old }
{
    let before = runs[place];
    runs[place] = Run {
        first: before.first,
        count: before.count + run.count,
    };
    join_next(runs, place);
}

// Puts a run in at a place of its own.
fn insert_run(runs: &mut Vec<Run>, place: usize, run: Run) -> Result<(), AllocError>
    requires within { place ≤ vec_len runs.old }
    requires some { 0 < run.count }
    requires fits { run.first + run.count < 2 ^ 32 }
    requires normal { AreNormalRuns 0 4294967295 runs.old.items }
    requires apart { Apart run (blocks_of runs.old.items) }
    requires before { EndsBefore run.first (take place runs.old.items) }
    requires after { (r : Run) → place < vec_len runs.old → run.first ≤ (slice_index_or runs.old.items place r).first }
    ensures blocks { OnOk result (PutIn (blocks_of runs.old.items) (run_blocks run) (blocks_of runs.new.items)) }
    ensures normal { OnOk result ((low end : ℕ) → AreNormalRuns low end runs.old.items → low ≤ run.first → run.first + run.count ≤ end → AreNormalRuns low end runs.new.items) }
    ensures err { OnErr result (runs.new.items ≡ runs.old.items) }
    ensures sure { vec_len runs.old < vec_capacity runs.old → IsOk result }
    ensures len { vec_len runs.new ≤ vec_len runs.old + 1 }
    ensures kept { OnErr result (vec_len runs.new ≡ vec_len runs.old) }
    ensures capacity { vec_capacity runs.old ≤ vec_capacity runs.new }
{
    runs.insert(place, run)?;
    join_next(runs, place);
    Ok(())
}

/// Puts a run of blocks that are in none of the runs among them.
pub fn put_in(runs: &mut Vec<Run>, run: Run) -> Result<(), AllocError>
    requires some { 0 < run.count }
    requires fits { run.first + run.count < 2 ^ 32 }
    requires normal { AreNormalRuns 0 4294967295 runs.old.items }
    requires apart { Apart run (blocks_of runs.old.items) }
    ensures blocks { OnOk result (PutIn (blocks_of runs.old.items) (run_blocks run) (blocks_of runs.new.items)) }
    ensures normal { OnOk result ((low end : ℕ) → AreNormalRuns low end runs.old.items → low ≤ run.first → run.first + run.count ≤ end → AreNormalRuns low end runs.new.items) }
    ensures err { OnErr result (runs.new.items ≡ runs.old.items) }
    ensures sure { vec_len runs.old < vec_capacity runs.old → IsOk result }
    ensures len { vec_len runs.new ≤ vec_len runs.old + 1 }
    ensures kept { OnErr result (vec_len runs.new ≡ vec_len runs.old) }
    ensures capacity { vec_capacity runs.old ≤ vec_capacity runs.new }
{
    let place = place_of(runs, run.first);
    if begins_before(runs, place, run.first) {
        grow(runs, place, run);
        return Ok(());
    }
    insert_run(runs, place, run)
}

/// Whether a run has no block in common with the runs.
pub fn is_beside(runs: &[Run], run: Run) -> bool
    requires some { 0 < run.count }
    requires fits { run.first + run.count < 2 ^ 32 }
    requires normal { AreNormalRuns 0 4294967295 runs.now }
    ensures { IsTrue result ↔ Apart run (blocks_of runs.now) }
{
    let place = place_of(runs, run.first + 1);
    !begins_before(runs, place, run.first + run.count)
}
