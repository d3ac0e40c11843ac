// The plan of a move.
ghost use Rattle.std.specs.Prelude.{◌≡◌, ◌≤◌, None, length, IfOk, IfErr};
ghost use Rattle.tier_device.specs.declared.media.Tier.{Tier};
ghost use Rattle.inode_plan.specs.layout.Places.{Sizes, IsAllowed};
ghost use Rattle.inode_plan.specs.area_reader.Store.{Store};
ghost use Rattle.inode_plan.specs.area_commit.Plan.{lost_in};
ghost use Rattle.relocation.specs.MovedFile.{IsReadyMove, IsPlanOfMove};

use crate::MovableRun;
use crate::new_inode::{NewInode, moved_inode};
use inode_plan::in_area_commit::{Allocation, FreedBlocks, Rewrite};
use std::alloc::Global;
use tier_device::Tier;

/// A run of the file at an inode that goes to a tier, with the run's bytes, which are read, and the places that it leaves.
#[derive(Drop)]
pub struct ReadMove {
    pub inode: u32,
    pub to: Tier,
    pub file: MovableRun,
    pub bytes: Vec<u8>,
    pub lost: FreedBlocks,
}

// What is made of a file, together with its data and what it gives up.
fn rewrite_of(new: NewInode, bytes: Vec<u8>, lost: FreedBlocks, taken: Allocation) -> Rewrite
    ensures slots { result.slots.items ≡ new.slots.items }
    ensures marks { result.marks ≡ None }
    ensures nodes { result.nodes ≡ new.nodes }
    ensures taken { result.taken ≡ taken }
    ensures bytes { result.bytes.items ≡ bytes.items }
    ensures left { result.lost.nodes.items ≡ new.left.items }
    ensures lost { (t : Tier) → lost_in result.lost t ≡ lost_in lost t }
{
    Rewrite {
        slots: new.slots,
        marks: None,
        nodes: new.nodes,
        taken,
        bytes,
        lost: FreedBlocks {
            nodes: new.left,
            fast: lost.fast,
            block: lost.block,
            slow: lost.slow,
        },
    }
}

/// The plan of a move: the run's bytes go into the blocks that were taken, and its places are given up, with the blocks of the node pool that list no extents any more. Where
/// there is no memory for it, what was taken is handed back.
pub fn plan_move(alloc: Global, moved: ReadMove, taken: Allocation) -> Result<Rewrite, Allocation>
    requires { (g : Sizes) × (s : Store) × IsAllowed g × IsReadyMove g s moved.inode moved.to moved.file moved.bytes.items moved.lost taken }
    ensures plan { IfOk result (λ plan. (g : Sizes) (s : Store) → IsReadyMove g s moved.inode moved.to moved.file moved.bytes.items moved.lost taken → IsPlanOfMove g s moved.inode moved.file.run.first moved.file.run.count moved.to plan) }
    ensures taken { IfOk result (λ plan. plan.taken ≡ taken) }
    ensures lost { IfOk result (λ plan. (t : Tier) → lost_in plan.lost t ≡ lost_in moved.lost t) }
    ensures few { IfOk result (λ plan. length plan.lost.nodes.items ≤ 3) }
    ensures refused { IfErr result (λ back. back ≡ taken) }
{
    let ReadMove {
        inode,
        to,
        file,
        bytes,
        lost,
    } = moved;
    let mut file = file;
    match moved_inode(alloc, inode, &mut file, to, &taken) {
        Ok(new) => Ok(rewrite_of(new, bytes, lost, taken)),
        Err(_) => Err(taken),
    }
}
