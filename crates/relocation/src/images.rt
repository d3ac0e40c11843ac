// The images of an inode's extent blocks.
ghost use Rattle.std.specs.Prelude.{◌≤◌, length, IfOk, IfSome};
ghost use Rattle.tier_device.specs.declared.media.Tier.{Tier};
ghost use Rattle.inode_plan.specs.layout.declared.extents.TheConstants.{MAX_EXTENTS};
ghost use Rattle.inode_plan.specs.area_reader.Map.{in_tier};
ghost use Rattle.relocation.specs.MovedFile.{HasImages};

use inode_plan::in_area_commit::{NodeImages, put_lists};
use inode_plan::in_area_reader::InodeExtents;
use inode_plan::in_layout::Slot;
use std::alloc::{AllocError, Global};

/// The images of the extent blocks that a slot names: one for each tier that has extents.
pub fn images_of(alloc: Global, slot: &Slot, lists: &InodeExtents) -> Result<NodeImages, AllocError>
    requires { (t : Tier) → IfSome (in_tier lists.now t) (λ v. length v.extents ≤ MAX_EXTENTS) }
    ensures { IfOk result (HasImages slot.now lists.now) }
{
    let mut images = NodeImages::new(alloc);
    put_lists(&mut images, slot, lists)?;
    Ok(images)
}
