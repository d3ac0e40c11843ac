//! Media in memory out of one row of bytes, and the row of bytes of media.

ghost use Rattle.std.specs.Prelude.{◌≡◌, ◌++◌, ◌≢◌, ◌^◌, ◌<◌, [], ◌∷◌, All, map, length, sum_by, IfOk, OnOk, IsErrOf};
ghost use Rattle.tier_device.specs.declared.media.Tier.{Tier};
ghost use Rattle.tier_device.specs.Memory.{IsAtRest, memory_seen};
ghost use Rattle.host_media.specs.Images.{content_bytes, content_sizes, media_bytes, medium_sizes};

use crate::error::FileProblem;
use crate::sizes::Sizes;
use std::alloc::{AllocError, Global};
use std::io;
use tier_device::{Media, MemMedia, Tier};

/// Media in memory, at rest, of these sizes, whose tiers are the bytes of an image one behind the other.
///
/// Refused are sizes whose sum is more or fewer bytes (`Length`), and want of memory.
pub fn read_image(
    alloc: Global,
    image: &[u8],
    sizes: &[Sizes],
) -> Result<Vec<MemMedia>, FileProblem>
    ensures bytes { IfOk result (λ media. media_bytes memory_seen media.items ≡ image.now) }
    ensures sizes { IfOk result (λ media. map (medium_sizes memory_seen) media.items ≡ sizes.now) }
    ensures rest { IfOk result (λ media. All IsAtRest media.items) }
{
    let mut bytes = image;
    let media = take_media(alloc, &mut bytes, sizes)?;
    if !bytes.is_empty() {
        return Err(length_problem(image, image.len() - bytes.len()));
    }
    Ok(media)
}

// Takes media of these sizes from the front of bytes, one behind the other.
fn take_media(
    alloc: Global,
    bytes: &mut &[u8],
    sizes: &[Sizes],
) -> Result<Vec<MemMedia>, FileProblem>
    ensures bytes { IfOk result (λ media. media_bytes memory_seen media.items ++ bytes.new.now ≡ bytes.old.now) }
    ensures sizes { IfOk result (λ media. map (medium_sizes memory_seen) media.items ≡ sizes.now) }
    ensures rest { IfOk result (λ media. All IsAtRest media.items) }
{
    let mut media = Vec::new(alloc);
    for one in sizes {
        push(&mut media, take_medium(alloc, bytes, *one)?)?;
    }
    Ok(media)
}

fn push(media: &mut Vec<MemMedia>, one: MemMedia) -> Result<(), AllocError>
    ensures { OnOk result (media.new.items ≡ media.old.items ++ one ∷ []) }
{
    media.push(one)?;
    Ok(())
}

// Takes the medium of these sizes whose tiers stand at the front.
fn take_medium(alloc: Global, bytes: &mut &[u8], sizes: Sizes) -> Result<MemMedia, FileProblem>
    ensures bytes { IfOk result (λ m. content_bytes (memory_seen m) ++ bytes.new.now ≡ bytes.old.now) }
    ensures sizes { IfOk result (λ m. content_sizes (memory_seen m) ≡ sizes) }
    ensures rest { IfOk result IsAtRest }
{
    let fast = take_bytes(alloc, bytes, sizes.fast)?;
    let block = take_bytes(alloc, bytes, sizes.block)?;
    let slow = take_bytes(alloc, bytes, sizes.slow)?;
    match MemMedia::of_bytes(alloc, fast, block, slow) {
        Ok(medium) => Ok(medium),
        Err(_) => Err(FileProblem::Memory),
    }
}

// Takes `len` bytes from the front.
fn take_bytes(alloc: Global, bytes: &mut &[u8], len: usize) -> Result<Vec<u8>, FileProblem>
    ensures bytes { IfOk result (λ front. front.items ++ bytes.new.now ≡ bytes.old.now) }
    ensures len { IfOk result (λ front. length front.items ≡ len) }
{
    let all = *bytes;
    if all.len() < len {
        return Err(length_problem(all, len));
    }
    let (front, behind) = all.split_at(len);
    let mut copy = Vec::new(alloc);
    copy.extend_from_slice(front)?;
    *bytes = behind;
    Ok(copy)
}

fn length_problem(found: &[u8], wanted: usize) -> FileProblem {
    FileProblem::Length {
        found: found.len() as u64,
        wanted: wanted as u64,
    }
}

/// The bytes that reads give of media, one behind the other. Refused are a read that fails, and want of memory.
pub fn image_of<M: Media + Drop>(alloc: Global, media: Vec<M>) -> Result<Vec<u8>, FileProblem>
    ensures { IfOk result (λ bytes. bytes.items ≡ media_bytes M.seen media.items) }
{
    let mut bytes = Vec::new(alloc);
    for one in media {
        let mut medium = one;
        push_medium(alloc, &mut bytes, &mut medium)?;
    }
    Ok(bytes)
}

fn push_medium<M: Media>(
    alloc: Global,
    bytes: &mut Vec<u8>,
    medium: &mut M,
) -> Result<(), FileProblem>
    ensures pushed { OnOk result (bytes.new.items ≡ bytes.old.items ++ content_bytes (M.seen medium.old)) }
{
    push_tier(alloc, bytes, medium, Tier::Fast)?;
    push_tier(alloc, bytes, medium, Tier::Block)?;
    push_tier(alloc, bytes, medium, Tier::Slow)
}

fn push_tier<M: Media>(
    alloc: Global,
    bytes: &mut Vec<u8>,
    medium: &mut M,
    tier: Tier,
) -> Result<(), FileProblem>
    ensures pushed { OnOk result (bytes.new.items ≡ bytes.old.items ++ M.seen medium.old tier) }
    ensures seen { (t : Tier) → M.seen medium.new t ≡ M.seen medium.old t }
{
    let len = medium.size(tier);
    let mut read = vec![in alloc; 0u8; len]?;
    if medium.read(tier, 0, &mut read).is_err() {
        return Err(FileProblem::Io(io::Error::from(io::ErrorKind::Other)));
    }
    bytes.extend_from_slice(&read)?;
    Ok(())
}
