//! What counts is brought into the area.

ghost use Rattle.std.specs.Prelude.{◌≡◌, map, false, length, IfErr, IfOk};
ghost use Rattle.posix_calls.specs.declared.limits.TheConstants.{MAX_CLIENTS};
ghost use Rattle.area_recovery.specs.Settlement.{AreOpenRegions, RefusesArea, SettlesArea};

use crate::error::RecoveryError;
use crate::file_drops::drop_files;
use crate::graph_test::test_graph;
use crate::log_digest::digest_logs;
use crate::log_search::{FoundLog, find_logs};
use crate::mark_moves::set_marks;
use log_survey::in_update_log::Region;
use recovery_laws::in_layout::{CLIENTS, Mark};
use recovery_laws::in_shared_area::Shared;
use std::alloc::Global;
use tier_device::Media;

/// Brings all that counts into the area: it digests the records, tests the graph, drops the files without names, and sets each mark to a generation that no
/// region names. It answers these generations.
///
/// Refused are contents of which no tree is made, a device that fails, and want of memory.
pub fn settle_area<M: Media>(
    alloc: Global,
    area: &mut Shared<M>,
    regions: &mut [Region<M>],
) -> Result<[u64; CLIENTS], RecoveryError>
    requires going { area.old.failed ≡ false }
    requires regions { AreOpenRegions M.Media regions.old }
    ensures settles { IfOk result (SettlesArea M.Media area.old area.new regions.old regions.new) }
    ensures refused { IfErr result (RefusesArea M.Media area.old area.new regions.old regions.new) }
{
    // For the proof: while the logs are read a stop leaves what is read.
    area.left_now();
    let logs = find_logs(alloc, regions, &area.marks())?;
    digest_logs(alloc, area, regions, &logs)?;
    let nameless = test_graph(alloc, area)?;
    drop_files(alloc, area, &nameless)?;
    let generations = generations_of(&logs);
    set_marks(alloc, area, marks_at(generations))?;
    Ok(generations)
}

// The generations under which the logs go on.
fn generations_of(logs: &[FoundLog]) -> [u64; CLIENTS]
    requires eight { length logs.now ≡ MAX_CLIENTS }
    ensures { result ≡ map (λ l. l.generation) logs.now }
{
    [
        logs[0].generation,
        logs[1].generation,
        logs[2].generation,
        logs[3].generation,
        logs[4].generation,
        logs[5].generation,
        logs[6].generation,
        logs[7].generation,
    ]
}

// The marks at the beginnings of these generations.
fn marks_at(generations: [u64; CLIENTS]) -> [Mark; CLIENTS]
    ensures { result ≡ map (λ g. record { generation = g; done = 0 }) generations }
{
    [
        mark_at(generations[0]),
        mark_at(generations[1]),
        mark_at(generations[2]),
        mark_at(generations[3]),
        mark_at(generations[4]),
        mark_at(generations[5]),
        mark_at(generations[6]),
        mark_at(generations[7]),
    ]
}

// The mark at the beginning of a generation.
fn mark_at(generation: u64) -> Mark
    ensures { result ≡ record { generation = generation; done = 0 } }
{
    Mark {
        generation,
        done: 0,
    }
}
