// A region that a log sealed, until it is taken back.
ghost use Rattle.std.specs.Prelude.{◌≡◌, ◌⊎◌, ◌<◌, ◌^◌, length, ℕ, List, IfErr, IfOk, IsErrOf};
ghost use Rattle.tier_device.specs.declared.media.Tier.TheVariants.{Fast};
ghost use Rattle.tier_device.specs.Media.{Rose};
ghost use Rattle.update_log.specs.Frames.{records};
ghost use Rattle.update_log.specs.View.{records_of};
ghost use Rattle.update_log.specs.WipeStops.{generation as named_in};
ghost use Rattle.client_log.specs.declared.error.LogError.TheVariants.{DeviceFault, Memory};
ghost use Rattle.client_log.specs.Calls.{IsOnlyRead};
ghost use Rattle.client_log.specs.Regions.{IsSealedRegion};

use crate::error::LogError;
use tier_device::Media;
use update_log::in_log_record::Record;
use update_log::{Region, RegionError};

/// Reads the records of a sealed region from its medium, in their order, and changes nothing.
///
/// `DeviceFault` where the device fails, `Memory` for want of memory; it may be asked again after either.
pub fn read_sealed<M: Media>(
    region: &mut Region<M>,
    generation: u64,
) -> Result<Vec<Record>, LogError>
    requires sealed { IsSealedRegion M.Media generation region.old }
    ensures found { IfOk result (λ found. found.items ≡ records_of M.Media region.old) }
    ensures read { IsOnlyRead M.Media region.old region.new }
    ensures sealed { IsSealedRegion M.Media generation region.new }
    ensures only { IfErr result (λ e. (e ≡ DeviceFault) ⊎ (e ≡ Memory)) }
    ensures fault { IsErrOf result DeviceFault → Rose (M.faults region.old.media) (M.faults region.new.media) }
    ensures quiet { IsErrOf result DeviceFault ⊎ (M.faults region.new.media ≡ M.faults region.old.media) }
{
    // For the proof: it stands in the contract alone, as the name of the region.
    let _ = generation;
    match region.records() {
        Ok(found) => Ok(found),
        Err(RegionError::Memory) => Err(LogError::Memory),
        Err(_) => Err(LogError::DeviceFault),
    }
}

/// States what every stop leaves of a sealed region: its records, under its generation.
pub fn left_of_sealed<M: Media>(region: &Region<M>, generation: u64)
    requires sealed { IsSealedRegion M.Media generation region.now }
    ensures few { length (records_of M.Media region.now) < 2 ^ 32 }
    ensures rests { (c : List ℕ) → M.left region.now.media (M.moment region.now.media) Fast c → c ≡ M.seen region.now.media Fast }
    ensures records { (c : List ℕ) → M.left region.now.media (M.moment region.now.media) Fast c → records c ≡ records_of M.Media region.now }
    ensures names { (c : List ℕ) → M.left region.now.media (M.moment region.now.media) Fast c → named_in c ≡ generation }
{
    // For the proof: the region is at rest under this name, and a stop leaves what is read.
    let _ = generation;
    region.left_now();
}
