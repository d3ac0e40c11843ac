// The images of an inode's extent blocks.
ghost use Rattle.std.specs.Prelude.{◌≤◌, ◌+◌, length, OnOk, IfSome};
ghost use Rattle.tier_device.specs.declared.media.Tier.{Tier};
ghost use Rattle.area_reader.specs.layout.declared.extents.TheConstants.{MAX_EXTENTS};
ghost use Rattle.area_reader.specs.Map.{in_tier};
ghost use Rattle.area_commit.specs.Lists.{PutsList, PutsLists};

use crate::nodes::NodeImages;
use area_reader::in_layout::{ExtentBlock, Slot};
use area_reader::{InodeExtents, root_of};
use std::alloc::AllocError;
use tier_device::Tier;

// Puts the image of a tier's extents, where it has some.
fn put_list(
    images: &mut NodeImages,
    root: u32,
    list: &Option<ExtentBlock>,
) -> Result<(), AllocError>
    requires { IfSome list.now (λ v. length v.extents ≤ MAX_EXTENTS) }
    ensures put { OnOk result (PutsList root list.now images.old images.new) }
    ensures few { OnOk result (length images.new ≤ length images.old + 1) }
{
    match list {
        Some(list) => images.put_image(root, list),
        None => Ok(()),
    }
}

/// Puts the images of the extent blocks that a slot names, one for each tier that has extents, in place of those that were there for these blocks. Where memory runs out
/// some of them may be put.
pub fn put_lists(
    images: &mut NodeImages,
    slot: &Slot,
    lists: &InodeExtents,
) -> Result<(), AllocError>
    requires { (t : Tier) → IfSome (in_tier lists.now t) (λ v. length v.extents ≤ MAX_EXTENTS) }
    ensures put { OnOk result (PutsLists slot.now lists.now images.old images.new) }
    ensures few { OnOk result (length images.new ≤ length images.old + 3) }
{
    put_list(images, root_of(slot, Tier::Fast), &lists.fast)?;
    put_list(images, root_of(slot, Tier::Block), &lists.block)?;
    put_list(images, root_of(slot, Tier::Slow), &lists.slow)
}
