ghost use Rattle.std.specs.Prelude.{◌<◌, IfErr, IfOk, length};
ghost use Rattle.coalescer.specs.Records.{effects_in};
ghost use Rattle.coalescer.specs.Weight.{IsLongestRun};

use crate::estimate::surely_fit;
use crate::weight::Weight;
use log_record::Record;
use std::alloc::{AllocError, Global};

/// How many of the first of these records are taken at once: the longest run of them that takes at most `CHUNK_IMAGES` images and writes
/// at most `CHUNK_BLOCKS` blocks, and one at least, where there is one. The images are four for each inode that the records change, two for
/// each change of an entry and for each Swap, and one for the mark. A block within which a size ends counts as written, also a hole that stays one. An error
/// is want of memory, which is asked for only where a record has an effect.
pub fn longest_run(alloc: Global, records: &[Record]) -> Result<usize, AllocError>
    ensures exact { IfOk result (IsLongestRun records.now) }
    ensures memory { IfErr result (λ _. 0 < length (effects_in records.now)) }
{
    if surely_fit(alloc, records)? {
        return Ok(records.len());
    }
    counted_run(alloc, records)
}

// The same, where each block has to be distinguished from the others.
fn counted_run(alloc: Global, records: &[Record]) -> Result<usize, AllocError>
    ensures exact { IfOk result (IsLongestRun records.now) }
    ensures memory { IfErr result (λ _. 0 < length (effects_in records.now)) }
{
    let mut weight = Weight::new(alloc);
    for count in 0..records.len() {
        weight.add(&records[count])?;
        if 0 < count && !weight.fits() {
            return Ok(count);
        }
    }
    Ok(records.len())
}
