// The images of a changed directory's blocks.
ghost use Rattle.std.specs.Prelude.{◌≡◌, ◌≤◌, ◌<◌, ◌+◌, true, length, OnOk};
ghost use Rattle.std.specs.List.{All};
ghost use Rattle.area_commit.specs.layout.Places.{Sizes};
ghost use Rattle.area_commit.specs.layout.Slot.{is_root_block};
ghost use Rattle.area_commit.specs.layout.declared.extents.TheConstants.{MAX_EXTENTS};
ghost use Rattle.area_commit.specs.layout.declared.places.TheConstants.{BLOCK};
ghost use Rattle.area_commit.specs.Batches.{AreNodes};
ghost use Rattle.inode_plan.specs.Blocks.{HaveOwnPlaces, AreNodeBlocks};
ghost use Rattle.inode_plan.specs.PlannedDirectory.{HaveImages, HasListImage};

use area_commit::NodeImages;
use area_commit::in_area_reader::blank_block;
use area_commit::in_layout::{BLOCK, ExtentBlock};
use std::alloc::AllocError;

/// Puts the images of the blocks that were written, each for the place where it lies.
pub fn put_written(
    images: &mut NodeImages,
    blocks: &[[u8; BLOCK]],
    places: &[u32],
    written: &[usize],
) -> Result<(), AllocError>
    requires long { length places.now ≡ length blocks.now }
    requires apart { HaveOwnPlaces places.now }
    requires inside { All (λ k. k < length blocks.now) written.now }
    ensures images { OnOk result (HaveImages blocks.now places.now written.now images.old images.new) }
    ensures nodes { OnOk result ((g : Sizes) → AreNodeBlocks g places.now → AreNodes g images.old → AreNodes g images.new) }
    ensures few { OnOk result (length images.new ≤ length images.old + length written.now) }
{
    'each: for index in 0..written.len() {
        let number = written[index];
        images.put(places[number], &blocks[number])?;
    }
    Ok(())
}

/// Puts the image of the block that lists where the others lie, unless it is the old one and stands there as it is to be.
pub fn put_list(
    images: &mut NodeImages,
    old_root: u32,
    old_list: &[u8],
    root: u32,
    list: &ExtentBlock,
) -> Result<(), AllocError>
    requires old { length old_list.now ≡ BLOCK }
    requires few { length list.now.extents ≤ MAX_EXTENTS }
    ensures image { OnOk result (HasListImage old_root old_list.now root list.now images.old images.new) }
    ensures nodes { OnOk result ((g : Sizes) → is_root_block g root ≡ true → AreNodes g images.old → AreNodes g images.new) }
    ensures few { OnOk result (length images.new ≤ length images.old + 1) }
{
    if root == 0 {
        return Ok(());
    }
    let mut bytes = blank_block();
    list.encode(&mut bytes);
    if root == old_root && old_list == &bytes[..] {
        return Ok(());
    }
    images.put(root, &bytes)
}
