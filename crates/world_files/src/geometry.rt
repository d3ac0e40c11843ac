// The sizes of a world's media.
ghost use Rattle.std.specs.Prelude.{◌≡◌, ◌*◌, [], ◌∷◌, IfErr, IfOk, None};
ghost use Rattle.tier_device.specs.declared.media.Tier.TheVariants.{Fast, Block, Slow};
ghost use Rattle.recovery.specs.layout.Places.{tier_blocks};
ghost use Rattle.recovery.specs.layout.declared.places.TheConstants.{BLOCK};
ghost use Rattle.world_files.specs.PartSizes.{IsGeometryIn, geometry_in, image_size, part_sizes};
ghost use Rattle.world_files.specs.declared.error.WorldFileError.TheVariants.{NoWorld};

use crate::error::WorldFileError;
use host_media::Sizes;
use recovery::REGIONS;
use recovery::in_layout::{BLOCK, Geometry, Super};
use recovery::in_recovery_laws::tier_lens;
use recovery::in_update_log::REGION_SIZE;

/// How many media a world has: the shared one, and the regions.
pub(crate) const PARTS: usize = REGIONS + 1;

/// Reads the geometry from the superblock at the front of these bytes; `NoWorld` where none does.
pub fn read_geometry(bytes: &[u8]) -> Result<Geometry, WorldFileError>
    ensures found { IfOk result (IsGeometryIn bytes.now) }
    ensures none { IfErr result (λ e. (geometry_in bytes.now ≡ None) × (e ≡ NoWorld)) }
{
    let Some(block) = bytes.get(..BLOCK) else {
        return Err(WorldFileError::NoWorld);
    };
    match Super::decode(block) {
        Ok(found) => Ok(found.geometry),
        Err(_) => Err(WorldFileError::NoWorld),
    }
}

/// How many bytes the media have together.
pub fn image_len(geometry: &Geometry) -> usize
    ensures { result ≡ image_size geometry.now }
{
    // For the proof: the sizes are allowed.
    let _units = geometry.units();
    let [fast, block, slow] = tier_lens(geometry);
    fast + block + slow + REGIONS * REGION_SIZE
}

/// The lengths of the tiers of each medium, the shared one first.
pub(crate) fn part_sizes(geometry: &Geometry) -> [Sizes; PARTS]
    ensures { result ≡ part_sizes geometry.now }
{
    let [fast, block, slow] = tier_lens(geometry);
    let region = Sizes {
        fast: REGION_SIZE,
        block: 0,
        slow: 0,
    };
    let mut sizes = [region; PARTS];
    sizes[0] = Sizes { fast, block, slow };
    sizes
}
