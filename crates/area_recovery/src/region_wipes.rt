// Regions that are wiped.
ghost use Rattle.std.specs.Prelude.{◌≡◌, ◌≤◌, ◌%◌, ◌/◌, ℕ, List, length, slice_index, Some, IfErr, IfOk, OnErr, OnOk, slice_get};
ghost use Rattle.tier_device.specs.Media.{Keeps, Rose};
ghost use Rattle.log_survey.specs.update_log.View.{RegionView};
ghost use Rattle.log_survey.specs.update_log.Wipe.{wipe_next};
ghost use Rattle.log_survey.specs.update_log.Moments.{PastStays};
ghost use Rattle.event_lists.specs.Courses.{Content};
ghost use Rattle.recovery_laws.specs.layout.Places.{Sizes};
ghost use Rattle.posix_calls.specs.Tree.{State};
ghost use Rattle.area_recovery.specs.declared.error.RecoveryError.TheVariants.{DeviceFault};
ghost use Rattle.area_recovery.specs.Recovers.{Recovers, Regions};
ghost use Rattle.area_recovery.specs.Regions.{HaveRisen, REGIONS, media_of};
ghost use Rattle.area_recovery.specs.Silent.{AreLeftOf, AreMarked, AreSilent, GoesOn, IsSilent, IsWiped, IsWipingTo, LeftOfRegion, MayBeWiped, StaysSilent, wiped_name};

use crate::error::RecoveryError;
use recovery_laws::in_update_log::{Region, RegionError, WipeProgress};
use tier_device::Media;

/// Wipes the sixteen regions, in their order: those of a client to its generation and the next one. Of each client, neither region has a record that
/// counts under its generation or the next.
///
/// At each moment that stays so, whatever a stop leaves of each region, also where a device fails; that is the one refusal. Each region keeps its size.
pub fn wipe_regions<M: Media>(
    regions: &mut [Region<M>],
    generations: &[u64],
) -> Result<(), RecoveryError>
    requires all { length regions.old ≡ REGIONS }
    requires clients { length generations.now ≡ 8 }
    requires ready { (k : ℕ) (v : RegionView _) → slice_get regions.old k ≡ Some v → MayBeWiped M.Media (slice_index generations.now (k / 2)) v }

    ensures len { length regions.new ≡ REGIONS }
    ensures any_moment { (left : Regions) → AreLeftOf M.Media regions.old regions.new left → AreSilent generations.now left }
    // So with a shared medium that has marks of these generations, under which no record is done, the stored state is the same whatever is left.
    ensures recovers { (g : Sizes) (state : State) (shared : Content) (others left : Regions) → AreMarked generations.now shared → AreSilent generations.now others
        → Recovers g others state shared → AreLeftOf M.Media regions.old regions.new left → Recovers g left state shared }
    ensures each { (k : ℕ) (v w : RegionView _) → slice_get regions.old k ≡ Some v → slice_get regions.new k ≡ Some w → StaysSilent M.Media (slice_index generations.now (k / 2)) v w }
    ensures wiped { OnOk result ((k : ℕ) (w : RegionView _) → slice_get regions.new k ≡ Some w → IsWiped M.Media (wiped_name (slice_index generations.now (k / 2)) (k % 2)) w) }
    ensures only { IfErr result (λ e. e ≡ DeviceFault) }
    ensures fault { IfErr result (λ e. e ≡ DeviceFault → HaveRisen M.Media (media_of regions.old) (media_of regions.new)) }
{
    for place in 0..regions.len() {
        let generation = generations[place / 2];
        wipe_region(
            &mut regions[place],
            generation,
            wiped_generation(generation, place % 2),
        )?;
    }
    Ok(())
}

// The generation that a region is wiped to: of the client's and the next that with the region's remainder.
fn wiped_generation(generation: u64, remainder: usize) -> u64
    ensures { result ≡ wiped_name generation remainder }
{
    if (generation % 2) as usize == remainder {
        generation
    } else {
        generation.wrapping_add(1)
    }
}

// Wipes a region to a generation; no record of it counts under the client's generation or the next, at no moment.
fn wipe_region<M: Media>(
    region: &mut Region<M>,
    generation: u64,
    name: u64,
) -> Result<(), RecoveryError>
    requires ready { MayBeWiped M.Media generation region.old }
    ensures any_moment { (c : List ℕ) → LeftOfRegion M.Media region.old region.new c → IsSilent generation c }
    ensures past { PastStays (M.moment region.old.media) (M.moment region.new.media) (M.left region.old.media) (M.left region.new.media) }
    ensures wiped { OnOk result (IsWiped M.Media name region.new) }
    ensures faults { M.faults region.old.media ≤ M.faults region.new.media }
    ensures only { IfErr result (λ e. e ≡ DeviceFault) }
    ensures fault { OnErr result (Rose (M.faults region.old.media) (M.faults region.new.media)) }
{
    // For the proof: what a stop leaves before the first device call.
    region.left_now();
    let mut progress = wipe_once(region, generation, name)?;
    'calls: while progress == WipeProgress::Going {
        progress = wipe_once(region, generation, name)?;
    }
    Ok(())
}

// Makes one device call of the wipe of a region.
fn wipe_once<M: Media>(
    region: &mut Region<M>,
    generation: u64,
    name: u64,
) -> Result<WipeProgress, RecoveryError>
    requires wiping { IsWipingTo M.Media generation name region.old }
    ensures any_moment { (c : List ℕ) → LeftOfRegion M.Media region.old region.new c → IsSilent generation c }
    ensures past { Keeps (M.moment region.old.media) (M.moment region.new.media) (M.left region.old.media) (M.left region.new.media) }
    ensures stage { OnOk result ((gate : ℕ) × (region.new.stage ≡ wipe_next region.old.stage gate)) }
    ensures progress { IfOk result (λ p. GoesOn M.Media generation name region.new p) }
    ensures only { IfErr result (λ e. e ≡ DeviceFault) }
    ensures fault { OnErr result (Rose (M.faults region.old.media) (M.faults region.new.media)) }
    ensures faults { M.faults region.old.media ≤ M.faults region.new.media }
    ensures quiet { OnOk result (M.faults region.new.media ≡ M.faults region.old.media) }
{
    match region.wipe_step(name) {
        Ok(progress) => Ok(progress),
        Err(_) => Err(RecoveryError::DeviceFault),
    }
}
