// From the extents of an inode to a map in memory, and back.
ghost use Rattle.std.specs.Prelude.{◌≡◌, ℕ, IfOk, OnOk};
ghost use Rattle.area_commit.specs.layout.declared.slot.Slot.{Slot};
ghost use Rattle.tier_device.specs.declared.media.Tier.{Tier};
ghost use Rattle.area_commit.specs.extent_tree.Normal.{IsNormal};
ghost use Rattle.area_commit.specs.extent_tree.BlockFormat.{LiesWithin};
ghost use Rattle.area_commit.specs.extent_tree.Map.{runs_in};
ghost use Rattle.area_commit.specs.area_reader.Store.{space_of};
ghost use Rattle.area_commit.specs.area_reader.Map.{extents_in};
ghost use Rattle.inode_plan.specs.Lists.{AreOwnLists, HasPlaces, IsListOf, AreListsOf};

use area_commit::in_area_reader::InodeExtents;
use area_commit::in_extent_tree::{BlockMap, block_spells_a_map};
use area_commit::in_layout::{Extent, ExtentBlock, Geometry};
use std::alloc::{AllocError, Global};
use tier_device::Tier;

// The extents of a block, none where there is no block.
fn block_extents(found: &Option<ExtentBlock>) -> &[Extent]
    ensures { result.now ≡ extents_in found.now }
{
    match found {
        Some(list) => list.extents(),
        None => &[],
    }
}

/// Where the blocks of an inode lie, as its extents tell.
pub fn map_of(
    alloc: Global,
    geometry: &Geometry,
    found: &InodeExtents,
) -> Result<BlockMap, AllocError>
    requires { (i : ℕ) × (slot : Slot) × AreOwnLists geometry.now i slot found.now }
    ensures places { IfOk result (HasPlaces found.now) }
    ensures within { (i : ℕ) (slot : Slot) → AreOwnLists geometry.now i slot found.now → IfOk result (λ m. (t : Tier) → LiesWithin geometry.now (space_of slot t) (runs_in m t)) }
{
    // For the proof: the sizes are allowed ones, and extents that fit them are a map.
    let _units = geometry.units();
    block_spells_a_map();
    let fast = block_extents(&found.fast);
    let block = block_extents(&found.block);
    let slow = block_extents(&found.slow);
    let map = BlockMap::from_extents(alloc, fast, block, slow)?;
    Ok(map)
}

// The extent block of a tier, where it has a run.
fn list_of(map: &BlockMap, tier: Tier, owner: u32) -> Result<Option<ExtentBlock>, AllocError>
    ensures list { IfOk result (IsListOf owner map.now tier) }
    ensures normal { IsNormal (runs_in map.now tier) }
{
    let list = map.extent_block(tier, owner)?;
    if list.extents().is_empty() {
        return Ok(None);
    }
    Ok(Some(list))
}

/// The extent blocks of an inode whose blocks lie so: one for each tier that has some.
pub fn extents_of(map: &BlockMap, owner: u32) -> Result<InodeExtents, AllocError>
    ensures lists { IfOk result (AreListsOf owner map.now) }
    ensures normal { OnOk result ((t : Tier) → IsNormal (runs_in map.now t)) }
{
    let fast = list_of(map, Tier::Fast, owner)?;
    let block = list_of(map, Tier::Block, owner)?;
    let slow = list_of(map, Tier::Slow, owner)?;
    Ok(InodeExtents { fast, block, slow })
}
