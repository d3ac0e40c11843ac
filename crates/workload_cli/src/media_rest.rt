//! How the media of a script's world are brought to rest after a stop.

ghost use Rattle.std.specs.Prelude.{◌≡◌, ◌+◌, ◌/◌, ℕ, length, slice_get, IfErr, IfOk, OnErr, OnOk, Some};
ghost use Rattle.world_files.specs.area_recovery.FaultOrMemory.{IsFaultOrMemory};
ghost use Rattle.world_files.specs.area_recovery.Parts.{part_medium};
ghost use Rattle.workload_cli.specs.Rests.{LeaveNoMore, LeavesNoMore};
ghost use Rattle.workload_cli.specs.Fills.{AreRestBy, IsRestBy, fill_for};
ghost use Rattle.workload_cli.specs.Trips.{PartsCount, RegionsCount};

use crate::resting::Resting;
use crate::script_media::Trips;
use script::MEDIA;
use std::alloc::Global;
use tier_device::Fill;
use world_files::in_area_recovery::RecoveryError;
use world_files::in_recovery::Parts;

/// What each medium holds behind a stop where something was written and not kept, by its name.
pub type Fills = [Fill; MEDIA];

/// Brings the media of parts to rest behind a stop, each by the fill for its name.
///
/// Refused where memory is wanting or a device fails: some of them may rest then, and it may be asked again.
pub fn rest_parts<M: Resting + Drop>(
    alloc: Global,
    parts: Parts<M>,
    fills: &Fills,
    trips: &Trips,
) -> Result<Parts<M>, (RecoveryError, Parts<M>)>
    ensures rest { IfOk result (λ rested. AreRestBy M.Media M.holds fills.now (part_medium parts) (part_medium rested)) }
    ensures counted { IfOk result (PartsCount (M.counts trips.now)) }
    ensures only { IfErr result (λ e. IsFaultOrMemory e.0) }
    ensures refused { IfErr result (λ e. LeaveNoMore M.Media (part_medium parts) (part_medium e.1)) }
{
    let (mut shared, mut regions) = parts.into_media();
    let end = rest_all(alloc, &mut shared, &mut regions, fills, trips);
    match (Parts::new(shared, regions), end) {
        (Ok(parts), Ok(())) => Ok(parts),
        (Ok(parts), Err(error)) => Err((error, parts)),
        (Err(_), _) => unreachable!(),
    }
}

fn rest_all<M: Resting + Drop>(
    alloc: Global,
    shared: &mut M,
    regions: &mut [M],
    fills: &Fills,
    trips: &Trips,
) -> Result<(), RecoveryError>
    ensures shared { OnOk result (IsRestBy M.Media M.holds (fill_for fills.now 0) shared.old shared.new) }
    ensures regions { OnOk result ((k : ℕ) (m n : M) → slice_get regions.old k ≡ Some m → slice_get regions.new k ≡ Some n → IsRestBy M.Media M.holds (fill_for fills.now (k / 2 + 1)) m n) }
    ensures shared_counted { OnOk result (M.counts trips.now 0 shared.new) }
    ensures regions_counted { OnOk result (RegionsCount (M.counts trips.now) regions.new) }
    ensures len { length regions.new ≡ length regions.old }
    ensures only { IfErr result IsFaultOrMemory }
    ensures shared_refused { OnErr result (LeavesNoMore M.Media shared.old shared.new) }
    ensures regions_refused { OnErr result ((k : ℕ) (m n : M) → slice_get regions.old k ≡ Some m → slice_get regions.new k ≡ Some n → LeavesNoMore M.Media m n) }
{
    shared.rest_medium(alloc, fill_for(fills, 0), trips, 0)?;
    rest_regions(alloc, regions, fills, trips)
}

fn rest_regions<M: Resting + Drop>(
    alloc: Global,
    regions: &mut [M],
    fills: &Fills,
    trips: &Trips,
) -> Result<(), RecoveryError>
    ensures rest { OnOk result ((k : ℕ) (m n : M) → slice_get regions.old k ≡ Some m → slice_get regions.new k ≡ Some n → IsRestBy M.Media M.holds (fill_for fills.now (k / 2 + 1)) m n) }
    ensures counted { OnOk result (RegionsCount (M.counts trips.now) regions.new) }
    ensures len { length regions.new ≡ length regions.old }
    ensures only { IfErr result IsFaultOrMemory }
    ensures refused { OnErr result ((k : ℕ) (m n : M) → slice_get regions.old k ≡ Some m → slice_get regions.new k ≡ Some n → LeavesNoMore M.Media m n) }
{
    for place in 0..regions.len() {
        let name = place / 2 + 1;
        regions[place].rest_medium(alloc, fill_for(fills, name), trips, name)?;
    }
    Ok(())
}

// The fill for a name.
fn fill_for(fills: &Fills, name: usize) -> Fill
    ensures { result ≡ fill_for fills.now name }
{
    match fills.get(name) {
        Some(fill) => *fill,
        None => Fill::New,
    }
}
