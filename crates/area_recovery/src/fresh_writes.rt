// The bytes of the empty world are written on parts, and kept.
ghost use Rattle.std.specs.Prelude.{◌≡◌, ◌≢◌, ◌*◌, ◌%◌, ◌⊎◌, ℕ, List, length, slice_get, Some, IfErr, IfOk, OnErr, OnOk};
ghost use Rattle.recovery_laws.specs.Fresh.{fresh_region, fresh_tiers};
ghost use Rattle.recovery_laws.specs.batch_journal.Volume.{HasSizes};
ghost use Rattle.recovery_laws.specs.layout.Places.{tier_blocks};
ghost use Rattle.recovery_laws.specs.layout.declared.places.TheConstants.{BLOCK};
ghost use Rattle.log_survey.specs.update_log.View.{HasSize};
ghost use Rattle.tier_device.specs.Media.{Rose};
ghost use Rattle.tier_device.specs.declared.media.Tier.{Tier};
ghost use Rattle.area_recovery.specs.declared.error.RecoveryError.TheVariants.{DeviceFault};
ghost use Rattle.area_recovery.specs.FaultOrMemory.{IsFaultOrMemory};
ghost use Rattle.area_recovery.specs.FreshContents.{AreFreshRegions, HaveRegionSize, HoldsContent, IsLater, TierHolds};
ghost use Rattle.area_recovery.specs.Recovers.{region_content};
ghost use Rattle.area_recovery.specs.Regions.{HaveRisen};

use crate::error::RecoveryError;
use recovery_laws::in_layout::Geometry;
use recovery_laws::{empty_region, empty_tier, first_fast_tier};
use std::alloc::{AllocError, Global};
use tier_device::{Media, Tier};

/// Writes the fresh area on the shared medium and fresh regions on the others, and fences each tier that it writes.
///
/// `Memory` where there was none, and `DeviceFault` where a device failed.
pub fn write_parts<M: Media>(
    alloc: Global,
    geometry: &Geometry,
    shared: &mut M,
    media: &mut [M],
) -> Result<(), RecoveryError>
    requires shared_size { HasSizes geometry.now (M.seen shared.old) }
    requires sizes { HaveRegionSize M.Media media.old }
    ensures area { OnOk result (HoldsContent M.Media (fresh_tiers geometry.now) shared.new) }
    ensures regions { OnOk result (AreFreshRegions M.Media media.new) }
    ensures later { IsLater M.Media shared.old shared.new }
    ensures len { length media.new ≡ length media.old }
    ensures each_later { (k : ℕ) (m n : M) → slice_get media.old k ≡ Some m → slice_get media.new k ≡ Some n → IsLater M.Media m n }
    ensures only { IfErr result IsFaultOrMemory }
    ensures fault { IfErr result (λ e. e ≡ DeviceFault → Rose (M.faults shared.old) (M.faults shared.new) ⊎ HaveRisen M.Media media.old media.new) }
{
    write_area(alloc, geometry, shared)?;
    write_regions(alloc, media)
}

// Writes the fresh area on the shared medium.
fn write_area<M: Media>(
    alloc: Global,
    geometry: &Geometry,
    medium: &mut M,
) -> Result<(), RecoveryError>
    requires size { HasSizes geometry.now (M.seen medium.old) }
    ensures holds { OnOk result (HoldsContent M.Media (fresh_tiers geometry.now) medium.new) }
    ensures later { IsLater M.Media medium.old medium.new }
    ensures only { IfErr result IsFaultOrMemory }
    ensures fault { IfErr result (λ e. e ≡ DeviceFault → Rose (M.faults medium.old) (M.faults medium.new)) }
{
    write_fresh_tier(alloc, geometry, medium, Tier::Fast)?;
    write_fresh_tier(alloc, geometry, medium, Tier::Block)?;
    write_fresh_tier(alloc, geometry, medium, Tier::Slow)
}

// Writes a tier of the fresh area.
fn write_fresh_tier<M: Media>(
    alloc: Global,
    geometry: &Geometry,
    medium: &mut M,
    tier: Tier,
) -> Result<(), RecoveryError>
    requires size { length (M.seen medium.old tier) ≡ BLOCK * tier_blocks geometry.now tier }
    ensures holds { OnOk result (TierHolds M.Media tier (fresh_tiers geometry.now tier) medium.new) }
    ensures others { OnOk result ((t : Tier) (kept : List ℕ) → t ≢ tier → TierHolds M.Media t kept medium.old → TierHolds M.Media t kept medium.new) }
    ensures later { IsLater M.Media medium.old medium.new }
    ensures only { IfErr result IsFaultOrMemory }
    ensures fault { IfErr result (λ e. e ≡ DeviceFault → Rose (M.faults medium.old) (M.faults medium.new)) }
{
    let bytes = fresh_tier(alloc, geometry, tier)?;
    write_tier(medium, tier, bytes.as_slice())
}

// The bytes of a tier of the fresh area.
fn fresh_tier(alloc: Global, geometry: &Geometry, tier: Tier) -> Result<Vec<u8>, AllocError>
    ensures { IfOk result (λ bytes. bytes.items ≡ fresh_tiers geometry.now tier) }
{
    match tier {
        Tier::Fast => first_fast_tier(alloc, geometry),
        Tier::Block => empty_tier(alloc, geometry.tier_blocks(Tier::Block)),
        Tier::Slow => empty_tier(alloc, geometry.tier_blocks(Tier::Slow)),
    }
}

// Writes fresh regions of generation 0 and of 1 in turn.
fn write_regions<M: Media>(alloc: Global, media: &mut [M]) -> Result<(), RecoveryError>
    requires sizes { HaveRegionSize M.Media media.old }
    ensures fresh { OnOk result (AreFreshRegions M.Media media.new) }
    ensures len { length media.new ≡ length media.old }
    ensures each_later { (k : ℕ) (m n : M) → slice_get media.old k ≡ Some m → slice_get media.new k ≡ Some n → IsLater M.Media m n }
    ensures only { IfErr result IsFaultOrMemory }
    ensures fault { IfErr result (λ e. e ≡ DeviceFault → HaveRisen M.Media media.old media.new) }
{
    for place in 0..media.len() {
        write_region(alloc, &mut media[place], (place % 2) as u64)?;
    }
    Ok(())
}

// Writes a fresh region of a generation.
fn write_region<M: Media>(
    alloc: Global,
    medium: &mut M,
    generation: u64,
) -> Result<(), RecoveryError>
    requires size { HasSize (M.seen medium.old) }
    ensures holds { OnOk result (HoldsContent M.Media (region_content (fresh_region generation)) medium.new) }
    ensures later { IsLater M.Media medium.old medium.new }
    ensures only { IfErr result IsFaultOrMemory }
    ensures fault { IfErr result (λ e. e ≡ DeviceFault → Rose (M.faults medium.old) (M.faults medium.new)) }
{
    let bytes = empty_region(alloc, generation)?;
    write_tier(medium, Tier::Fast, bytes.as_slice())
}

// Writes all bytes of a tier, and waits until they are kept.
fn write_tier<M: Media>(medium: &mut M, tier: Tier, bytes: &[u8]) -> Result<(), RecoveryError>
    requires all { length bytes.now ≡ length (M.seen medium.old tier) }
    ensures holds { OnOk result (TierHolds M.Media tier bytes.now medium.new) }
    ensures others { OnOk result ((t : Tier) (kept : List ℕ) → t ≢ tier → TierHolds M.Media t kept medium.old → TierHolds M.Media t kept medium.new) }
    ensures later { IsLater M.Media medium.old medium.new }
    ensures only { IfErr result (λ e. e ≡ DeviceFault) }
    ensures fault { OnErr result (Rose (M.faults medium.old) (M.faults medium.new)) }
{
    match medium.write(tier, 0, bytes) {
        Ok(()) => {}
        Err(_) => return Err(RecoveryError::DeviceFault),
    }
    match medium.fence(tier) {
        Ok(()) => Ok(()),
        Err(_) => Err(RecoveryError::DeviceFault),
    }
}
