// The blocks of a directory as they stand on the medium.
ghost use Rattle.std.specs.Prelude.{◌≡◌, ◌≢◌, ◌⊎◌, ◌<◌, ◌++◌, ◌∷◌, [], true, false, length, IfOk, IfErr, OnOk};
ghost use Rattle.area_commit.specs.layout.Places.{is_node};
ghost use Rattle.tier_device.specs.declared.media.Tier.TheVariants as tiers;
ghost use Rattle.area_commit.specs.layout.Slot.{is_root_block};
ghost use Rattle.area_commit.specs.area_reader.Store.{disk};
ghost use Rattle.area_commit.specs.area_reader.Looks.{Looks};
ghost use Rattle.area_commit.specs.area_reader.declared.error.AreaError.TheVariants.{DeviceFault, Memory};
ghost use Rattle.inode_plan.specs.Blocks.{AreNodeBlocks};
ghost use Rattle.inode_plan.specs.DirectoryStart.{HoldPlaces};

use area_commit::in_area_reader::{AreaError, blank_block, read_block};
use area_commit::in_batch_journal::Journal;
use area_commit::in_layout::BLOCK;
use std::alloc::Global;
use tier_device::{Media, Tier};

// What stands in a block of the node pool.
fn read_node<M: Media>(journal: &mut Journal<M>, block: u32) -> Result<[u8; BLOCK], AreaError>
    requires node { is_node journal.old.geometry block ≡ true }
    requires going { journal.old.failed ≡ false }
    ensures bytes { IfOk result (λ bytes. bytes ≡ disk M.Media journal.old tiers.Fast block) }
    ensures only { IfErr result (λ e. e ≡ DeviceFault) }
    ensures looks { Looks M.Media journal.old journal.new result }
{
    let mut bytes = blank_block();
    read_block(journal, Tier::Fast, block, &mut bytes)?;
    Ok(bytes)
}

/// Reads what stands in a root; zeros where there is none.
pub fn read_root<M: Media>(journal: &mut Journal<M>, root: u32) -> Result<[u8; BLOCK], AreaError>
    requires root { is_root_block journal.old.geometry root ≡ true }
    requires going { journal.old.failed ≡ false }
    ensures bytes { IfOk result (λ bytes. root ≢ 0 → bytes ≡ disk M.Media journal.old tiers.Fast root) }
    ensures only { IfErr result (λ e. e ≡ DeviceFault) }
    ensures looks { Looks M.Media journal.old journal.new result }
{
    if root == 0 {
        return Ok(blank_block());
    }
    read_node(journal, root)
}

/// Reads what stands in some blocks of the node pool. `Memory` where there was none for it.
pub fn read_places<M: Media>(
    alloc: Global,
    journal: &mut Journal<M>,
    places: &[u32],
) -> Result<Vec<[u8; BLOCK]>, AreaError>
    requires nodes { AreNodeBlocks journal.old.geometry places.now }
    requires going { journal.old.failed ≡ false }
    ensures held { IfOk result (λ held. HoldPlaces (disk M.Media journal.old tiers.Fast) places.now (length places.now) held.items) }
    ensures only { IfErr result (λ e. (e ≡ DeviceFault) ⊎ (e ≡ Memory)) }
    ensures memory { IfErr result (λ e. e ≡ Memory → 0 < length places.now) }
    ensures looks { Looks M.Media journal.old journal.new result }
{
    let mut held = Vec::new(alloc);
    'each: for index in 0..places.len() {
        push_node(journal, places[index], &mut held)?;
    }
    Ok(held)
}

// Adds what stands in a block.
fn push_node<M: Media>(
    journal: &mut Journal<M>,
    block: u32,
    held: &mut Vec<[u8; BLOCK]>,
) -> Result<(), AreaError>
    requires node { is_node journal.old.geometry block ≡ true }
    requires going { journal.old.failed ≡ false }
    ensures added { OnOk result (held.new.items ≡ held.old.items ++ disk M.Media journal.old tiers.Fast block ∷ []) }
    ensures only { IfErr result (λ e. (e ≡ DeviceFault) ⊎ (e ≡ Memory)) }
    ensures looks { Looks M.Media journal.old journal.new result }
{
    let bytes = read_node(journal, block)?;
    // No `?`: a refused `push` gives its block back, and so is no `AllocError`.
    match held.push(bytes) {
        Ok(()) => Ok(()),
        Err(_) => Err(AreaError::Memory),
    }
}
