// The bytes of a world's media, which lie in an image one behind the other.
ghost use Rattle.std.specs.Prelude.{IfOk};
ghost use Rattle.tier_device.specs.Memory.{IsAtRest};

use script::in_update_log::REGION_SIZE;
use std::alloc::{AllocError, Global};
use tier_device::MemMedia;
use world_files::in_layout::Geometry;
use world_files::in_recovery::REGIONS;
use world_files::in_recovery_laws::tier_lens;

/// The bytes of the tiers of the shared medium, and those of the regions, of client after client, the one of even generations first.
#[derive(Clone, Copy)]
pub struct Image<'a> {
    pub fast: &'a [u8],
    pub block: &'a [u8],
    pub slow: &'a [u8],
    pub regions: &'a [u8],
}

/// How many bytes the image of media of this geometry has.
pub fn image_len(geometry: &Geometry) -> usize {
    let [fast, block, slow] = tier_lens(geometry);
    (REGIONS * REGION_SIZE)
        .saturating_add(fast)
        .saturating_add(block)
        .saturating_add(slow)
}

/// The parts of an image; none where it has not the length of this geometry.
pub fn cut_image<'a>(bytes: &'a [u8], geometry: &Geometry) -> Option<Image<'a>> {
    if bytes.len() != image_len(geometry) {
        return None;
    }
    let [fast, block, slow] = tier_lens(geometry);
    let (fast, behind) = cut_front(bytes, fast)?;
    let (block, behind) = cut_front(behind, block)?;
    let (slow, regions) = cut_front(behind, slow)?;
    Some(Image {
        fast,
        block,
        slow,
        regions,
    })
}

/// The first `len` bytes, and those behind them; `None` if there are fewer.
pub fn cut_front(bytes: &[u8], len: usize) -> Option<(&[u8], &[u8])> {
    Some((bytes.get(..len)?, bytes.get(len..)?))
}

/// A medium at rest with these bytes in its tiers.
pub fn medium_of(
    alloc: Global,
    fast: &[u8],
    block: &[u8],
    slow: &[u8],
) -> Result<MemMedia, AllocError>
    ensures { IfOk result IsAtRest }
{
    let fast = fast.to_vec(alloc)?;
    let block = block.to_vec(alloc)?;
    let slow = slow.to_vec(alloc)?;
    match MemMedia::of_bytes(alloc, fast, block, slow) {
        Ok(medium) => Ok(medium),
        Err(_) => Err(AllocError),
    }
}
