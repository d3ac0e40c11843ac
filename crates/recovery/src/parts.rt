//! The media of a world.

ghost use Rattle.std.specs.Prelude.{◌≡◌, ◌≢◌, IfErr, IfOk, length, OnErr, OnOk};
ghost use Rattle.area_recovery.specs.Regions.{REGIONS};

use std::marker::Model;
use tier_device::Media;

/// How many regions a world has: two for each of its eight clients.
pub const REGIONS: usize = 16;

/// The media of a world: the shared one, and those of the sixteen regions, of client after client, the one of even generations first.
///
/// Contracts see `PartsView` (`specs/Parts.antt`).
#[derive(Drop)]
pub struct Parts<M: Media> {
    shared: M,
    regions: Vec<M>,
}

impl<M: Media> Model for Parts<M> {
    ghost use Rattle.std.specs.Prelude.{◌≡◌, length};
    ghost use Rattle.area_recovery.specs.Parts.{PartsView};
    ghost use Rattle.area_recovery.specs.Regions.{REGIONS};

    ghost Value = { PartsView M };

    ghost view = { λ p. record { shared = p.shared; regions = p.regions.items } };

    ghost invariant = { λ p. length p.regions.items ≡ REGIONS };
}

impl<M: Media> Parts<M> {
    /// The parts of these media; all are given back where there are not sixteen for regions.
    pub fn new(shared: M, regions: Vec<M>) -> Result<Self, (M, Vec<M>)>
        ensures parts { IfOk result (λ p. p ≡ record { shared = shared; regions = regions.items }) }
        ensures right { OnOk result (length regions.items ≡ REGIONS) }
        ensures others { OnErr result (length regions.items ≢ REGIONS) }
        ensures back { IfErr result (λ e. (e.0 ≡ shared) × (e.1.items ≡ regions.items)) }
    {
        if regions.len() != REGIONS {
            return Err((shared, regions));
        }
        Ok(Parts { shared, regions })
    }

    /// The shared medium, and those of the regions.
    pub fn into_media(self) -> (M, Vec<M>)
        ensures shared { result.0 ≡ self.shared }
        ensures regions { result.1.items ≡ self.regions }
        ensures sixteen { length result.1.items ≡ REGIONS }
    {
        (self.shared, self.regions)
    }

    // The parts of the sixteen media of regions and of the shared one.
    pub(crate) fn of(shared: M, regions: Vec<M>) -> Self
        requires sixteen { length regions.items ≡ REGIONS }
        ensures { result ≡ record { shared = shared; regions = regions.items } }
    {
        Parts { shared, regions }
    }
}
