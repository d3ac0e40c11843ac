// What a file is once a run of it is moved.
ghost use Rattle.std.specs.Prelude.{◌≡◌, ◌≤◌, ◌+◌, [], Some, length, IfOk};
ghost use Rattle.inode_plan.specs.file_graph.declared.effect.Kind.TheVariants as kind;
ghost use Rattle.inode_plan.specs.layout.declared.slot.Slot.{Slot};
ghost use Rattle.inode_plan.specs.layout.declared.places.TheConstants.{FILE_BLOCKS};
ghost use Rattle.block_alloc.specs.Runs.{blocks_of};
ghost use Rattle.inode_plan.specs.extent_tree.Map.{LieBelow};
ghost use Rattle.inode_plan.specs.tree_blocks.Inode.{inode_of};
ghost use Rattle.inode_plan.specs.area_commit.Allocations.{runs_of};
ghost use Rattle.inode_plan.specs.RunPlaces.{EndsFit};
ghost use Rattle.relocation.specs.MovedFile.{first_of, IsMade};

use crate::MovableRun;
use crate::images::images_of;
use block_alloc::Run;
use inode_plan::in_area_commit::{Allocation, ChangedSlot, NodeImages};
use inode_plan::in_extent_tree::few_blocks_are_few_runs;
use inode_plan::{extents_of, put_runs, roots_left, slot_for};
use std::alloc::{AllocError, Global};
use tier_device::Tier;

/// An inode that is written anew: its slot, the images of its extent blocks, and those of them that it gives up.
#[derive(Drop)]
pub struct NewInode {
    pub slots: Vec<ChangedSlot>,
    pub nodes: NodeImages,
    pub left: Vec<Run>,
}

// The runs that were taken of a tier's data blocks.
fn runs_of(taken: &Allocation, tier: Tier) -> &[Run]
    ensures { result.now ≡ runs_of taken.now tier }
{
    match tier {
        Tier::Fast => &taken.fast,
        Tier::Block => &taken.block,
        Tier::Slow => &taken.slow,
    }
}

// The block of the node pool that was taken, if there is one.
fn spare_of(taken: &Allocation) -> u32
    ensures { result ≡ first_of taken.now.nodes.items }
{
    if taken.nodes.is_empty() {
        return 0;
    }
    taken.nodes[0].first
}

/// The file once its run lies in the blocks that were taken. After a refusal nothing is said of where its blocks lie.
pub fn moved_inode(
    alloc: Global,
    inode: u32,
    file: &mut MovableRun,
    to: Tier,
    taken: &Allocation,
) -> Result<NewInode, AllocError>
    requires is_file { (inode_of file.old.slot (λ k. [])).kind ≡ Some kind.File }
    requires places { EndsFit (runs_of taken.now to) }
    requires few { file.old.run.first + length (blocks_of (runs_of taken.now to)) ≤ FILE_BLOCKS }
    requires below { LieBelow FILE_BLOCKS file.old.map }
    ensures made { IfOk result (λ n. (x : Slot) × IsMade inode file.old to taken.now n.slots.items n.nodes n.left.items x file.new.map) }
    ensures same_slot { file.new.slot ≡ file.old.slot }
    ensures same_run { file.new.run ≡ file.old.run }
{
    // For the proof: the extents of a file fit one block.
    few_blocks_are_few_runs();
    put_runs(&mut file.map, file.run.first, to, runs_of(taken, to))?;
    let lists = extents_of(&file.map, inode)?;
    let slot = slot_for(&file.slot, &lists, spare_of(taken));
    let nodes = images_of(alloc, &slot, &lists)?;
    let left = roots_left(alloc, &file.slot, &slot)?;
    let mut slots = Vec::new(alloc);
    slots.push(ChangedSlot { inode, slot })?;
    Ok(NewInode { slots, nodes, left })
}
