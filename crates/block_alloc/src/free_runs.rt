ghost use Rattle.std.specs.Prelude.{◌≡◌, ◌+◌, ◌<◌, ◌≤◌, ◌^◌, length, take, drop, IfOk, IsErrOf, OnOk, OnErr, IsOk, ◌⊎◌, ◌↔◌, IsTrue};
ghost use Rattle.block_alloc.specs.Runs.{run_blocks, blocks_of, unmarked_blocks, AreNormalRuns, PutIn};
ghost use Rattle.block_alloc.specs.Value.{IsUsed, InOrder, SamePool};
ghost use Rattle.block_alloc.specs.declared.error.AllocatorError.TheVariants.{NoBlock, Memory};

use crate::error::AllocatorError;
use crate::runs::{Run, count_of, drop_front, front_of, is_beside, put_in, split_of, unused_runs};
use std::alloc::{AllocError, Global};
use std::marker::Model;

/// The free blocks of one pool: a range of blocks, of which those that are free are kept as runs. Contracts see the range, the
/// free blocks as a rising list, and how many runs can be given before memory is needed.
#[derive(Drop)]
pub struct FreeRuns {
    alloc: Global,
    first: u32,
    end: u32,
    free: u32,
    runs: Vec<Run>,
}

impl Model for FreeRuns {
    ghost use Rattle.block_alloc.specs.Value.{FreeBlocks};

    ghost Value = { FreeBlocks };

    ghost use Rattle.block_alloc.specs.Free.{free_blocks, AreFreeRuns};

    ghost view = { free_blocks };

    ghost invariant = { AreFreeRuns };
}

impl FreeRuns {
    /// The pool whose blocks go from `first` on, one for each mark: those that are not marked as used are free. The cost is one
    /// look at each mark.
    pub fn from_used(alloc: Global, first: u32, used: &[bool]) -> Result<FreeRuns, AllocError>
        requires { first + length used.now < 2 ^ 32 }
        ensures first { IfOk result (λ v. v.first ≡ first) }
        ensures end { IfOk result (λ v. v.end ≡ first + length used.now) }
        ensures free { IfOk result (λ v. v.free ≡ unmarked_blocks first used.now) }
        ensures ordered { IfOk result InOrder }
    {
        let runs = unused_runs(alloc, first, used)?;
        let free = count_of(&runs);
        let end = first + used.len() as u32;
        Ok(FreeRuns {
            alloc,
            first,
            end,
            free,
            runs,
        })
    }

    /// How many blocks are free. Those that are free always rise strictly, within the range.
    pub fn free(&self) -> u32
        ensures count { result ≡ length self.now.free }
        ensures ordered { InOrder self.now }
    {
        self.free
    }

    /// Takes the lowest free blocks, as one run or several, which do not touch one another. `NoBlock` exactly where fewer are free, `Memory` where the
    /// answer found no room: nothing has changed then.
    pub fn take(&mut self, count: u32) -> Result<Vec<Run>, AllocatorError>
        // Each run has a block or more, and between two of them stands a block that is of neither.
        ensures apart { IfOk result (λ runs. AreNormalRuns self.old.first self.old.end runs.items) }
        ensures taken { IfOk result (λ runs. blocks_of runs.items ≡ take count self.old.free) }
        ensures enough { OnOk result (count ≤ length self.old.free) }
        ensures rest { OnOk result (self.new.free ≡ drop count self.old.free) }
        ensures ordered { OnOk result (InOrder self.new) }
        ensures room { OnOk result (self.old.room ≤ self.new.room) }
        // What was taken can be given back, run by run, without memory, where there was room for one run before.
        ensures undone { IfOk result (λ runs. self.old.room + length runs.items ≤ self.new.room + 1) }
        ensures pool { SamePool self.old self.new }
        ensures few { IsErrOf result NoBlock ↔ (length self.old.free < count) }
        ensures err { OnErr result (self.new ≡ self.old) }
    {
        if self.free < count {
            return Err(AllocatorError::NoBlock);
        }
        let split = split_of(&self.runs, count);
        let taken = match front_of(self.alloc, &self.runs, split) {
            Ok(taken) => taken,
            Err(_) => return Err(AllocatorError::Memory),
        };
        drop_front(&mut self.runs, split);
        self.free -= count;
        Ok(taken)
    }

    /// Makes room for `runs` runs to be given without memory.
    pub fn reserve(&mut self, runs: usize) -> Result<(), AllocError>
        ensures room { OnOk result (runs ≤ self.new.room) }
        ensures kept { self.old.room ≤ self.new.room }
        ensures free { self.new.free ≡ self.old.free }
        ensures pool { SamePool self.old self.new }
        ensures err { OnErr result (self.new ≡ self.old) }
    {
        self.runs.reserve(runs)
    }

    /// Whether a run may be given: it lies within the pool, has a block or more, and none of its blocks is free. It looks at a
    /// few runs only, by bisection.
    pub fn is_used(&self, run: Run) -> bool
        ensures { IsTrue result ↔ IsUsed self.now run }
    {
        0 < run.count
            && self.first <= run.first
            && run.first <= self.end
            && run.count <= self.end - run.first
            && is_beside(&self.runs, run)
    }

    /// Gives back a run of blocks, none of which is free. Its place is found by bisection. It succeeds where there is room for a run; else memory may be refused,
    /// and then nothing has changed.
    pub fn give(&mut self, run: Run) -> Result<(), AllocError>
        requires { IsUsed self.old run }
        ensures given { OnOk result (PutIn self.old.free (run_blocks run) self.new.free) }
        ensures ordered { OnOk result (InOrder self.new) }
        ensures sure { 0 < self.old.room → IsOk result }
        ensures room { self.old.room ≤ self.new.room + 1 }
        ensures pool { SamePool self.old self.new }
        ensures err { OnErr result (self.new.free ≡ self.old.free) }
    {
        put_in(&mut self.runs, run)?;
        self.free += run.count;
        Ok(())
    }
}
