// The records of a client's region are read.
ghost use Rattle.std.specs.Prelude.{◌≡◌, ◌≢◌, ◌≤◌, ◌<◌, ◌+◌, ◌^◌, ◌⊎◌, ℕ, length, slice_get, Some, IfOk, IfErr, true};
ghost use Rattle.std.specs.List.{AllByRecursion, AllZip};
ghost use Rattle.log_survey.specs.update_log.Frames.{records};
ghost use Rattle.log_survey.specs.update_log.Stage.{IsIdle};
ghost use Rattle.log_survey.specs.update_log.View.{RegionView};
ghost use Rattle.graph_check.specs.log_record.Grammar.{IsRecord};
ghost use Rattle.tier_device.specs.Media.{Rose};
ghost use Rattle.tier_device.specs.declared.media.Tier.TheVariants.{Fast};
ghost use Rattle.posix_calls.specs.Operations.{is_client};
ghost use Rattle.area_recovery.specs.declared.error.RecoveryError.TheVariants.{DeviceFault, Memory};
ghost use Rattle.area_recovery.specs.DigestedLogs.{IsRegionReadRefusal};
ghost use Rattle.area_recovery.specs.Regions.{HaveRisen, IsOnlyRead, REGIONS, media_of, regions_read};
ghost use Rattle.area_recovery.specs.SpelledRecords.{HasSpelledEffects};

use crate::error::RecoveryError;
use graph_check::in_log_record::Record;
use log_survey::in_update_log::{Region, RegionError};
use posix_calls::client_index;
use std::alloc::Global;
use tier_device::Media;

// A record has a spelling, where its effects have one.
fn record_is_spelled(logged: &Record)
    requires { HasSpelledEffects logged.now }
    ensures { IsRecord logged.now }
{
    // For the proof: `units` is a `u32`, as the format wants it.
    let _units = logged.units;
}

// So have those of some records.
fn records_are_spelled(records: &[Record])
    requires { AllByRecursion HasSpelledEffects records.now }
    ensures { AllByRecursion IsRecord records.now }
{
    for logged in records {
        record_is_spelled(logged);
    }
}

// The records of a region.
fn read_records<M: Media>(region: &mut Region<M>) -> Result<Vec<Record>, RecoveryError>
    requires idle { IsIdle region.old.stage }
    ensures found { IfOk result (λ found. found.items ≡ records (M.seen region.old.media Fast)) }
    ensures spelled { IfOk result (λ found. AllByRecursion IsRecord found.items) }
    ensures same { IsOnlyRead M.Media region.old region.new }
    ensures only { IfErr result (λ e. (e ≡ DeviceFault) ⊎ (e ≡ Memory)) }
    ensures fault { IfErr result (λ e. e ≡ DeviceFault → Rose (M.faults region.old.media) (M.faults region.new.media)) }
{
    // For the proof: what a read gives is what the region's records are read from.
    region.left_now();
    match region.records() {
        Ok(found) => {
            records_are_spelled(&found);
            Ok(found)
        }
        Err(RegionError::DeviceFault) => Err(RecoveryError::DeviceFault),
        Err(_) => Err(RecoveryError::Memory),
    }
}

/// The records of one of a client's two regions.
///
/// Refused are a device that fails, a want of memory, and more records than can be numbered (`BadLog`).
pub(crate) fn read_region_records<M: Media>(
    regions: &mut [Region<M>],
    client: u32,
    region: usize,
) -> Result<Vec<Record>, RecoveryError>
    requires client { is_client client ≡ true }
    requires region { region < 2 }
    requires all { length regions.old ≡ REGIONS }
    requires idle { (k : ℕ) (v : RegionView _) → slice_get regions.old k ≡ Some v → IsIdle v.stage }
    ensures found { IfOk result (λ found. found.items ≡ records (regions_read M.Media regions.old client region)) }
    ensures spelled { IfOk result (λ found. AllByRecursion IsRecord found.items) }
    ensures few { IfOk result (λ found. length found.items < 2 ^ 32) }
    ensures same { AllZip (IsOnlyRead M.Media) regions.old regions.new }
    ensures only { IfErr result (IsRegionReadRefusal client (records (regions_read M.Media regions.old client region))) }
    ensures fault { IfErr result (λ e. e ≡ DeviceFault → HaveRisen M.Media (media_of regions.old) (media_of regions.new)) }
{
    let place = 2 * client_index(client) + region;
    let records = read_records(&mut regions[place])?;
    if records.len() > u32::MAX as usize {
        return Err(RecoveryError::BadLog {
            client,
            place: u32::MAX as usize,
        });
    }
    Ok(records)
}
