// What is to be written of a changed directory.
ghost use Rattle.std.specs.Prelude.{◌≡◌, ◌≤◌, ◌+◌, map, length, IfOk, OnOk};
ghost use Rattle.inode_plan.specs.Blocks.{lost_blocks, one_block};
ghost use Rattle.area_commit.specs.layout.Places.{Sizes, IsAllowed};
ghost use Rattle.area_commit.specs.Batches.{AreNodes};
ghost use Rattle.inode_plan.specs.Spare.{CanBeWritten, AreSpares};
ghost use Rattle.inode_plan.specs.PlannedDirectory.{IsPlanned};

use crate::directory_change::ChangedDirectory;
use crate::directory_places::{places_after, root_after, runs_of};
use crate::directory_release::give_up;
use crate::images::{put_list, put_written};
use area_commit::NodeImages;
use area_commit::in_layout::{ExtentBlock, Slot};
use block_alloc::Run;
use std::alloc::{AllocError, Global};

/// What is to be written of a changed directory, and what becomes of its blocks: its new slot, where its blocks lie then, the list of that, and the blocks of the node pool that it
/// gives up, each as a run of its own.
#[derive(Drop)]
pub struct DirectoryPlan {
    pub slot: Slot,
    pub places: Vec<u32>,
    pub list: ExtentBlock,
    pub lost: Vec<Run>,
}

// What a changed directory gives up: its blocks behind the new ones, and the root where no block is left.
fn freed_runs(alloc: Global, changed: &ChangedDirectory) -> Result<Vec<Run>, AllocError>
    ensures { IfOk result (λ runs. runs.items ≡ map one_block (lost_blocks changed.now.blocks.root changed.now.blocks.places.items (length changed.now.entries.blocks))) }
{
    let count = changed.entries.blocks().len();
    let old = &changed.blocks;
    let kept = count.min(old.places.len());
    let root = if count == 0 { old.root } else { 0 };
    give_up(alloc, &old.places[kept..], root)
}

/// What is to be written of a changed directory in the digest of a number, in as many spare blocks as `spares_for` tells: blocks that stay keep their places, and those that come lie in the
/// spare ones. Its images are put to others. An error where there was no memory; some of the images may have been put then.
pub fn plan_directory(
    alloc: Global,
    changed: &ChangedDirectory,
    touch: u64,
    spares: &[u32],
    images: &mut NodeImages,
) -> Result<DirectoryPlan, AllocError>
    requires { (g : Sizes) × IsAllowed g × CanBeWritten g changed.now × AreSpares g changed.now spares.now }
    ensures planned { IfOk result (IsPlanned changed.now touch spares.now images.old images.new) }
    ensures nodes { OnOk result ((g : Sizes) → CanBeWritten g changed.now → AreSpares g changed.now spares.now → AreNodes g images.old → AreNodes g images.new) }
    ensures few { OnOk result (length images.new ≤ length images.old + length changed.now.written + 1) }
{
    let blocks = changed.entries.blocks();
    let old = &changed.blocks;
    let places = places_after(alloc, &old.places, spares, blocks.len())?;
    let root = root_after(old.root, spares, blocks.len());
    let list = ExtentBlock::new(changed.entries.owner(), runs_of(alloc, &places)?);
    put_written(images, blocks, &places, changed.written.as_slice())?;
    put_list(images, old.root, &changed.list, root, &list)?;
    let lost = freed_runs(alloc, changed)?;
    let slot = Slot::Directory {
        names: changed.names,
        entries: changed.entries.len() as u64,
        touch,
        root,
    };
    Ok(DirectoryPlan {
        slot,
        places,
        list,
        lost,
    })
}
