// Whether parts have the sizes of a geometry.
ghost use Rattle.std.specs.Prelude.{◌≡◌, ◌*◌, ◌↔◌, IsTrue, length, IfErr, OnOk};
ghost use Rattle.recovery_laws.specs.batch_journal.Volume.{HasSizes};
ghost use Rattle.recovery_laws.specs.layout.Places.{tier_blocks};
ghost use Rattle.recovery_laws.specs.layout.declared.places.TheConstants.{BLOCK};
ghost use Rattle.log_survey.specs.update_log.View.{HasSize};
ghost use Rattle.area_recovery.specs.FreshContents.{HaveSizes, IsSizeError, SizesAtRefusal};

use crate::error::RecoveryError;
use recovery_laws::in_layout::{BLOCK, Geometry};
use recovery_laws::in_update_log::REGION_SIZE;
use tier_device::{Media, Tier};

/// Tests the sizes of the shared medium, and then of those of regions, in their order.
pub fn check_sizes<M: Media>(
    geometry: &Geometry,
    shared: &M,
    media: &[M],
) -> Result<(), RecoveryError>
    ensures sizes { OnOk result (HaveSizes M.Media geometry.now (record { shared = shared.now; regions = media.now })) }
    ensures refused { IfErr result (SizesAtRefusal M.Media geometry.now (record { shared = shared.now; regions = media.now })) }
    ensures only { IfErr result IsSizeError }
{
    if !has_area_size(geometry, shared) {
        return Err(RecoveryError::AreaSize);
    }
    for place in 0..media.len() {
        if !has_region_size(&media[place]) {
            return Err(RecoveryError::RegionSize);
        }
    }
    Ok(())
}

// Whether a medium has the size of the shared one.
fn has_area_size<M: Media>(geometry: &Geometry, medium: &M) -> bool
    ensures { IsTrue result ↔ HasSizes geometry.now (M.seen medium.now) }
{
    has_tier_size(geometry, medium, Tier::Fast)
        && has_tier_size(geometry, medium, Tier::Block)
        && has_tier_size(geometry, medium, Tier::Slow)
}

// Whether a tier has as many blocks as that of the shared medium.
fn has_tier_size<M: Media>(geometry: &Geometry, medium: &M, tier: Tier) -> bool
    ensures { IsTrue result ↔ (length (M.seen medium.now tier) ≡ BLOCK * tier_blocks geometry.now tier) }
{
    medium.size(tier) == BLOCK * geometry.tier_blocks(tier) as usize
}

// Whether a medium has the size of a region.
fn has_region_size<M: Media>(medium: &M) -> bool
    ensures { IsTrue result ↔ HasSize (M.seen medium.now) }
{
    medium.size(Tier::Fast) == REGION_SIZE
        && medium.size(Tier::Block) == 0
        && medium.size(Tier::Slow) == 0
}
