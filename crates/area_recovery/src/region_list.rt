// The regions that media hold.
ghost use Rattle.std.specs.Prelude.{◌≡◌, ◌≤◌, ◌<◌, ◌+◌, ◌++◌, map, [], ◌∷◌, ◌≢◌, IfOk, IfErr, OnOk, OnErr};
ghost use Rattle.std.specs.List.{AllZip, AllByRecursion};
ghost use Rattle.std.specs.Vec.{vec_len, vec_capacity};
ghost use Rattle.log_survey.specs.update_log.View.{HasSize};
ghost use Rattle.log_survey.specs.update_log.declared.error.RegionError.TheVariants as denials;
ghost use Rattle.area_recovery.specs.declared.error.RecoveryError.TheVariants.{DeviceFault, RegionSize, Memory};
ghost use Rattle.area_recovery.specs.Regions.{CanBeDenied, HaveRisen, IsGivenBack, IsReopened, RefusesLast, Rests, TakesLast};

use crate::error::RecoveryError;
use recovery_laws::in_update_log::{Region, RegionError};
use std::alloc::Global;
use tier_device::Media;

/// The region that each of these media holds, in their order. Nothing may be pending on them. It only reads them. None is left in the vector, which
/// keeps its room for them.
///
/// Refused are a medium of another size (`RegionSize`), a want of memory, and a medium that fails; all stand in the vector again then, in their order, as
/// they were.
pub fn reopen_regions<M: Media + Drop>(
    alloc: Global,
    media: &mut Vec<M>,
) -> Result<Vec<Region<M>>, RecoveryError>
    requires rest { AllByRecursion (Rests M.Media) media.old.items }
    ensures reopened { IfOk result (λ regions. AllZip (IsReopened M.Media) media.old.items regions.items) }
    ensures taken { OnOk result (media.new.items ≡ []) }
    ensures room { OnOk result (vec_capacity media.old ≤ vec_capacity media.new) }
    ensures back { OnErr result (AllZip (IsGivenBack M.Media) media.old.items media.new.items) }

    // Each refusal has its cause.
    ensures only { IfErr result CanBeDenied }
    ensures size { IfErr result (λ e. e ≡ RegionSize → AllByRecursion (λ m. HasSize (M.seen m)) media.old.items → ⊥) }
    ensures fault { IfErr result (λ e. e ≡ DeviceFault → HaveRisen M.Media media.old.items media.new.items) }
{
    let mut regions = Vec::new(alloc);
    regions.reserve(media.len())?;
    'media: while !media.is_empty() {
        if let Err(error) = reopen_last(alloc, media, &mut regions) {
            hand_back(media, regions);
            return Err(error);
        }
    }
    Ok(regions)
}

// Reopens the last medium, and puts its region before the others.
fn reopen_last<M: Media + Drop>(
    alloc: Global,
    media: &mut Vec<M>,
    regions: &mut Vec<Region<M>>,
) -> Result<(), RecoveryError>
    requires some { 0 < vec_len media.old }
    requires room { vec_len regions.old < vec_capacity regions.old }
    requires rests { AllByRecursion (Rests M.Media) media.old.items }
    ensures taken { OnOk result (TakesLast M.Media media.old.items media.new.items regions.old.items regions.new.items) }
    ensures refused { IfErr result (λ e. RefusesLast M.Media e media.old.items media.new.items) }
    ensures regions_stay { OnErr result (regions.new.items ≡ regions.old.items) }
    ensures capacity { vec_capacity media.old ≤ vec_capacity media.new }
    ensures region_capacity { vec_capacity regions.old ≤ vec_capacity regions.new }
{
    let Some(medium) = media.pop() else {
        unreachable!();
    };
    match Region::reopen(alloc, medium) {
        Ok(region) => {
            put_first(regions, region);
            Ok(())
        }
        Err((error, medium)) => {
            put_last(media, medium);
            Err(denial(error))
        }
    }
}

/// Puts a region before the others; there is room for it.
pub fn put_first<T: Drop>(items: &mut Vec<T>, item: T)
    requires { vec_len items.old < vec_capacity items.old }
    ensures items { items.new.items ≡ item ∷ items.old.items }
    ensures capacity { vec_capacity items.old ≤ vec_capacity items.new }
{
    match items.insert(0, item) {
        Ok(()) => {}
        Err(_) => unreachable!(),
    }
}

/// Puts an item behind the others; there is room for it.
pub fn put_last<T: Drop>(items: &mut Vec<T>, item: T)
    requires { vec_len items.old < vec_capacity items.old }
    ensures items { items.new.items ≡ items.old.items ++ item ∷ [] }
    ensures capacity { vec_capacity items.old ≤ vec_capacity items.new }
{
    match items.push(item) {
        Ok(()) => {}
        Err(_) => unreachable!(),
    }
}

/// Puts the media of regions behind the others; there is room for them.
pub fn hand_back<M: Media + Drop>(media: &mut Vec<M>, regions: Vec<Region<M>>)
    requires { vec_len media.old + vec_len regions ≤ vec_capacity media.old }
    ensures { media.new.items ≡ media.old.items ++ map (λ r. r.media) regions.items }
{
    for region in regions {
        put_last(media, region.into_media());
    }
}

// Why a region is not opened.
fn denial(error: RegionError) -> RecoveryError
    ensures size { result ≡ RegionSize → error ≡ denials.Damaged }
    ensures fault { result ≡ DeviceFault → error ≡ denials.DeviceFault }
    ensures only { error ≢ denials.RegionFull → CanBeDenied result }
{
    match error {
        RegionError::DeviceFault => RecoveryError::DeviceFault,
        RegionError::Damaged => RecoveryError::RegionSize,
        RegionError::Memory | RegionError::RegionFull => RecoveryError::Memory,
    }
}
