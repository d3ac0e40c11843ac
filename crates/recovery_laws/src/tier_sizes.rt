// The lengths of the tiers of the shared area.
ghost use Rattle.std.specs.Prelude.{◌≡◌, ◌*◌, [], ◌∷◌};
ghost use Rattle.tier_device.specs.declared.media.Tier.TheVariants.{Fast, Block, Slow};
ghost use Rattle.layout.specs.Places.{tier_blocks};
ghost use Rattle.layout.specs.declared.places.TheConstants.{BLOCK};

use layout::{BLOCK, Geometry};
use tier_device::Tier;

/// The lengths of the fast, block and slow tier of the shared medium, in bytes.
pub fn tier_lens(geometry: &Geometry) -> [usize; 3]
    ensures { result ≡ tier_blocks geometry.now Fast * BLOCK ∷ tier_blocks geometry.now Block * BLOCK ∷ tier_blocks geometry.now Slow * BLOCK ∷ [] }
{
    [
        tier_len(geometry, Tier::Fast),
        tier_len(geometry, Tier::Block),
        tier_len(geometry, Tier::Slow),
    ]
}

fn tier_len(geometry: &Geometry, tier: Tier) -> usize
    ensures { result ≡ tier_blocks geometry.now tier * BLOCK }
{
    geometry.tier_blocks(tier) as usize * BLOCK
}
