// What the log does with one of its regions.
ghost use Rattle.std.specs.Prelude.{◌≡◌, ◌≢◌, ◌≤◌, ◌<◌, ◌+◌, ◌^◌, ◌%◌, ℕ, [], IfOk, IfErr, IsTrue, OnOk, OnErr, ◌↔◌, true, false};
ghost use Rattle.tier_device.specs.declared.media.Tier.TheVariants.{Fast};
ghost use Rattle.tier_device.specs.Media.{Rose};
ghost use Rattle.update_log.specs.RecordCounts.{next_generation};
ghost use Rattle.update_log.specs.View.{records_of};
ghost use Rattle.update_log.specs.declared.stage.Stage.TheVariants as stages;
ghost use Rattle.client_log.specs.declared.error.LogError.TheVariants.{DeviceFault};
ghost use Rattle.client_log.specs.Calls.{IsOnlyRead, IsWipeCall};
ghost use Rattle.client_log.specs.Regions.{AreWiped, CountsNothing, IsStale, IsWiped, in_turn, is_pending};

use crate::error::LogError;
use tier_device::Media;
use update_log::{HEADER, REGION_SIZE, Region, Stage, WipeProgress};

/// The generation after this one: they are counted modulo 2^64.
pub fn next_generation(generation: u64) -> u64
    ensures { result ≡ next_generation generation }
{
    generation.wrapping_add(1)
}

/// The regions of even and of odd generations: the one of this generation, and the other.
pub fn in_turn<M: Media>(regions: (Region<M>, Region<M>), generation: u64) -> (Region<M>, Region<M>)
    ensures { result ≡ in_turn generation regions }
{
    let (even, odd) = regions;
    if generation % 2 == 0 {
        (even, odd)
    } else {
        (odd, even)
    }
}

/// Whether a record is begun at this stage, and not appended.
pub fn is_pending(stage: Stage) -> bool
    ensures { result ≡ is_pending stage }
{
    matches!(
        stage,
        Stage::Begun | Stage::Written | Stage::Kept | Stage::Opened | Stage::Failed
    )
}

/// Whether a region has no record.
pub fn is_empty<M: Media>(region: &Region<M>) -> bool
    ensures { IsTrue result ↔ (records_of M.Media region.now ≡ []) }
{
    // For the proof: the next gate stands behind the records.
    region.left_now();
    match region.room() {
        Some(most) => most == REGION_SIZE - HEADER - 6,
        None => false,
    }
}

/// Whether a region is wiped to a generation, with nothing in it. It reads the header at most.
pub fn is_wiped<M: Media>(region: &mut Region<M>, generation: u64) -> Result<bool, LogError>
    ensures exact { IfOk result (λ is. IsTrue is ↔ IsWiped M.Media generation region.old) }
    ensures none { IfOk result (λ is. IsTrue is → (g : ℕ) → CountsNothing M.Media g region.new) }
    ensures read { IsOnlyRead M.Media region.old region.new }
    ensures only { IfErr result (λ e. e ≡ DeviceFault) }
    ensures fault { OnErr result (Rose (M.faults region.old.media) (M.faults region.new.media)) }
    ensures quiet { OnOk result (M.faults region.new.media ≡ M.faults region.old.media) }
{
    // For the proof: what a stop leaves of the region, before the read and behind it.
    region.left_now();
    if region.stage() != Stage::Resting || !is_empty(region) {
        return Ok(false);
    }
    match region.generation() {
        Ok(found) => {
            region.left_now();
            Ok(found == generation)
        }
        Err(_) => Err(LogError::DeviceFault),
    }
}

/// Makes one device call of the wipe of a region to a generation.
pub fn wipe_call<M: Media>(
    region: &mut Region<M>,
    generation: u64,
) -> Result<WipeProgress, LogError>
    requires { IsStale M.Media false generation region.old }
    ensures call { IsWipeCall M.Media generation region.old region.new result }
    ensures stale { region.new.stage ≢ stages.Resting → IsStale M.Media true generation region.new }
    ensures going { OnOk result (region.new.stage ≢ stages.Resting → IsStale M.Media false generation region.new) }
    ensures failed { OnErr result (region.new.stage ≢ stages.Resting) }
    ensures only { IfErr result (λ e. e ≡ DeviceFault) }
{
    match region.wipe_step(generation) {
        Ok(progress) => {
            // For the proof: what a stop leaves behind the device call.
            region.left_now();
            Ok(progress)
        }
        Err(_) => Err(LogError::DeviceFault),
    }
}
