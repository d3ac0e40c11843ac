//! Runs of blocks of a file after records.
ghost use Rattle.std.specs.Prelude.{◌≡◌, ◌≢◌, ◌⊎◌, ◌≤◌, ◌<◌, ◌+◌, ◌^◌, ℕ, length};
ghost use Rattle.posix_calls.specs.declared.limits.TheConstants.{UNIT_BYTES};
ghost use Rattle.client_view.specs.After.{run_after, run_laid};
ghost use Rattle.client_view.specs.RecordReach.{AreReaches, AreShort, AreWhole, IsReachOf};

use crate::fetched_block::FetchedBlock;
use crate::record_reach::RecordReach;
use client_plan::in_log_record::Record;
use posix_calls::UNIT_BYTES;

/// Lays records over a run of blocks of a file from a first one on, each record with what it reaches. It looks at each record once, and of
/// the blocks that are known to be whole at those alone that the record may change. It takes no memory.
pub fn take_records(
    records: &[Record],
    reaches: &[RecordReach],
    inode: u32,
    first: u32,
    run: &mut [FetchedBlock],
)
    requires reaches { AreReaches reaches.now records.now }
    requires blocks { first + length run.old ≤ 2 ^ 32 }
    requires short { AreShort run.old }
    ensures laid { run.new ≡ run_laid records.now inode first run.old }
    ensures short { AreShort run.new }
{
    let mut whole = 0;
    for place in 0..records.len() {
        whole = take_record(&records[place], reaches[place], inode, first, run, whole);
    }
}

// Lays a record over a run of which so many blocks at the front are whole. It answers of how many that is known then.
fn take_record(
    entry: &Record,
    reach: RecordReach,
    inode: u32,
    first: u32,
    run: &mut [FetchedBlock],
    whole: usize,
) -> usize
    requires reach { IsReachOf entry.now.effects reach }
    requires blocks { first + length run.old ≤ 2 ^ 32 }
    requires short { AreShort run.old }
    requires whole { AreWhole whole run.old }
    ensures laid { run.new ≡ run_after entry.now.effects inode first run.old }
    ensures short { AreShort run.new }
    ensures whole { AreWhole result run.new }
{
    let (from, to) = reach.places(inode, first, run.len(), whole);
    let mut known = whole;
    for place in from..to {
        run[place].take_record(entry, reach, inode, first + place as u32);
        known = whole_after(known, place, run[place].len());
    }
    known
}

// How many blocks at the front are known to be whole once one of them has so many bytes.
fn whole_after(whole: usize, place: usize, len: usize) -> usize
    requires { place < 2 ^ 32 }
    ensures { (k : ℕ) → k < result → ((k ≡ place) × (UNIT_BYTES ≤ len)) ⊎ ((k ≢ place) × (k < whole)) }
{
    if len < UNIT_BYTES as usize {
        return whole.min(place);
    }
    if place == whole {
        return whole + 1;
    }
    whole
}
