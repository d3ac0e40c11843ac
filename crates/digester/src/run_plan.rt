ghost use Rattle.std.specs.Prelude.{◌<◌, IfErr, IfOk, length};
ghost use Rattle.coalescer.specs.Records.{effects_in};
ghost use Rattle.coalescer.specs.RunChange.{swapped_of};
ghost use Rattle.digester.specs.Plan.{IsNextRun};

use coalescer::{RunChange, coalesce, longest_run};
use std::alloc::{AllocError, Global};
use update_log::in_log_record::Record;

/// The next records of a log that are digested at once, and what they come to.
#[derive(Drop)]
pub struct NextRun {
    /// How many records they are.
    pub count: usize,
    /// What they make of the graph, but for what swapped names lead to.
    pub change: RunChange,
}

/// The longest run of the first of these records that a batch takes, one at least where there is one, and what it comes to. It is a matter of
/// the records alone, whatever the graph is. An error is want of memory, which is asked for only where a record has an effect.
pub fn next_run(alloc: Global, records: &[Record]) -> Result<NextRun, AllocError>
    ensures exact { IfOk result (λ run. IsNextRun records.now run.count (swapped_of run.change)) }
    ensures memory { IfErr result (λ _. 0 < length (effects_in records.now)) }
{
    let count = longest_run(alloc, records)?;
    let change = coalesce(alloc, &records[..count])?;
    Ok(NextRun { count, change })
}
