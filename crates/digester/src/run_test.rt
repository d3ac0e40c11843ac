//! The records of a chunk are tested over the shared area.

ghost use Rattle.std.specs.Prelude.{◌≡◌, ◌≢◌, ◌<◌, false, IfErr, IfOk, length};
ghost use Rattle.std.specs.List.{AllByRecursion};
ghost use Rattle.std.specs.List.Sorted.{IsNonDecreasing};
ghost use Rattle.update_log.specs.file_graph.Units.{charge};
ghost use Rattle.update_log.specs.log_record.Grammar.{IsRecord};
ghost use Rattle.shared_area.specs.area_reader.declared.error.AreaError.TheVariants.{DeviceFault};
ghost use Rattle.shared_area.specs.area_reader.Store.{disk, graph};
ghost use Rattle.shared_area.specs.area_reader.Looks.{Looks};
ghost use Rattle.shared_area.specs.Parts.{IsNoDamage};
ghost use Rattle.digester.specs.Plan.{Finds};

use crate::{Found, PlanError, test_records};
use shared_area::Shared;
use shared_area::in_area_reader::AreaError;
use std::alloc::Global;
use tier_device::Media;
use update_log::in_log_record::Record;

/// What a test of records finds over the graph of the shared area and within its units, where their client holds the inodes `held` for
/// writing, listed rising. It asks the area for nodes that these records touch, and changes no device.
///
/// `DeviceFault` at once where a device has failed, and where one fails while the area is read. `Memory` where there was none; then nothing
/// has changed.
pub fn test_run<M: Media>(
    alloc: Global,
    area: &mut Shared<M>,
    held: &[u32],
    records: &[Record],
) -> Result<Found, AreaError>
    requires spelled { AllByRecursion IsRecord records.now }
    requires rising { IsNonDecreasing held.now }
    ensures answer { IfOk result (Finds held.now area.old.geometry.units (graph area.old.geometry (disk M.Media area.old)) records.now) }
    ensures only { IfErr result IsNoDamage }
    ensures some { IfErr result (λ e. e ≢ DeviceFault → 0 < length records.now) }
    ensures looks { Looks M.Media area.old area.new result }
{
    if area.has_failed() {
        return Err(AreaError::DeviceFault);
    }
    let used = area.charge();
    let capacity = capacity_of(area);
    test_over(alloc, area, used, capacity, held, records)
}

/// How many units there are in all.
pub fn capacity_of<M: Media>(area: &Shared<M>) -> u64
    ensures { result ≡ area.now.geometry.units }
{
    area.geometry().units() as u64
}

// The same over an area of which no device has failed.
fn test_over<M: Media>(
    alloc: Global,
    area: &mut Shared<M>,
    used: u64,
    capacity: u64,
    held: &[u32],
    records: &[Record],
) -> Result<Found, AreaError>
    requires spelled { AllByRecursion IsRecord records.now }
    requires rising { IsNonDecreasing held.now }
    requires going { area.old.failed ≡ false }
    requires used { charge (graph area.old.geometry (disk M.Media area.old)) ≡ used }
    ensures answer { IfOk result (Finds held.now capacity (graph area.old.geometry (disk M.Media area.old)) records.now) }
    ensures only { IfErr result IsNoDamage }
    ensures some { IfErr result (λ e. 0 < length records.now) }
    ensures looks { Looks M.Media area.old area.new result }
{
    match test_records(alloc, area, used, capacity, held, records) {
        Ok(found) => Ok(found),
        Err(PlanError::Memory) => Err(AreaError::Memory),
        Err(PlanError::Nodes(error)) => Err(error),
    }
}
