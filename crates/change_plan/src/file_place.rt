// A file once its blocks have their places after a change, and once it has a slot and blocks that list its extents.
ghost use Rattle.std.specs.Prelude.{◌≡◌, ◌≤◌, ◌+◌, IfOk, OnOk, IfSome, length};
ghost use Rattle.tier_device.specs.declared.media.Tier.{Tier};
ghost use Rattle.posix_calls.specs.declared.limits.TheConstants.{MAX_FILE};
ghost use Rattle.inode_plan.specs.graph_change.Bounds.{IsBounded};
ghost use Rattle.inode_plan.specs.graph_change.Bytes.{end};
ghost use Rattle.inode_plan.specs.graph_change.Tidy.{IsTidyChange};
ghost use Rattle.inode_plan.specs.graph_change.View.{change_of};
ghost use Rattle.inode_plan.specs.layout.declared.extents.TheConstants.{MAX_EXTENTS};
ghost use Rattle.inode_plan.specs.layout.Places.{Sizes};
ghost use Rattle.inode_plan.specs.area_reader.Store.{Store};
ghost use Rattle.inode_plan.specs.area_reader.Map.{in_tier};
ghost use Rattle.inode_plan.specs.extent_tree.Map.{lies_at};
ghost use Rattle.inode_plan.specs.PlacedFile.{PlacesFit};
ghost use Rattle.inode_plan.specs.BlockWrites.{AreNumbers};
ghost use Rattle.inode_plan.specs.Roots.{roots_wanted};
ghost use Rattle.change_plan.specs.FileStart.{IsStartedFile, IsPlacedFile, IsRootedFile};

use crate::file_start::StartedFile;
use block_alloc::Run;
use inode_plan::in_area_commit::{NodeImages, put_lists, runs_lie_apart};
use inode_plan::in_area_reader::InodeExtents;
use inode_plan::in_extent_tree::Place;
use inode_plan::in_graph_change::NodeChange;
use inode_plan::in_layout::Slot;
use inode_plan::{FilePlan, plan_file, roots_left, slot_after};
use std::alloc::{AllocError, Global};

/// A file whose blocks have their places after a change: the slot and the extents that the change starts from, and what is planned of the blocks.
#[derive(Drop)]
pub struct PlacedFile {
    pub slot: Slot,
    pub found: Option<InodeExtents>,
    pub plan: FilePlan,
}

/// Gives each block that the change writes, of these numbers, its own place.
pub fn place_file(
    alloc: Global,
    inode: u32,
    file: StartedFile,
    change: &NodeChange,
    numbers: &[u64],
    places: &[Place],
) -> Result<PlacedFile, AllocError>
    requires started { (g : Sizes) × (s : Store) × IsStartedFile g s (change_of change.now).base inode file }
    requires tidy { IsTidyChange (change_of change.now) }
    requires bounded { end (change_of change.now).length ≤ MAX_FILE }
    requires numbers { AreNumbers (lies_at file.map) (change_of change.now) numbers.now }
    requires enough { length numbers.now ≤ length places.now }
    requires fit { PlacesFit places.now }
    ensures { (g : Sizes) (s : Store) → IsStartedFile g s (change_of change.now).base inode file → IfOk result (IsPlacedFile g s (change_of change.now) inode numbers.now places.now) }
{
    // For the proof: no two runs of the map lie in one place.
    runs_lie_apart();
    let StartedFile { slot, map, found } = file;
    let plan = plan_file(alloc, inode, map, change, numbers, places)?;
    Ok(PlacedFile { slot, found, plan })
}

/// A file that has a slot after a change, with the runs of the blocks that listed extents of it, and list none any more.
#[derive(Drop)]
pub struct RootedFile {
    pub slot: Slot,
    pub left: Vec<Run>,
}

/// Gives the file a slot, with as many spare blocks of the node pool as `roots_wanted` tells, and puts the images of its extents to others. Where memory runs out some of them may
/// have been put.
pub fn root_file(
    alloc: Global,
    file: &PlacedFile,
    change: &NodeChange,
    touch: u64,
    spares: &[u32],
    images: &mut NodeImages,
) -> Result<RootedFile, AllocError>
    requires bounded { IsBounded (change_of change.now) }
    requires wanted { length spares.now ≡ roots_wanted file.now.slot file.now.plan.lists }
    requires short { (t : Tier) → IfSome (in_tier file.now.plan.lists t) (λ v. length v.extents ≤ MAX_EXTENTS) }
    ensures rooted { IfOk result (λ r. IsRootedFile (change_of change.now) touch file.now spares.now images.old images.new r.slot r.left.items) }
    ensures few { OnOk result (length images.new ≤ length images.old + 3) }
{
    let lists = &file.plan.lists;
    let slot = slot_after(&file.slot, change, lists, spares, touch);
    put_lists(images, &slot, lists)?;
    let left = roots_left(alloc, &file.slot, &slot)?;
    Ok(RootedFile { slot, left })
}
