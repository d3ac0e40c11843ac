// The blocks of the node pool that a directory has.
ghost use Rattle.std.specs.Prelude.{◌≡◌, ◌<◌, ℕ, Option, Some, IfOk, OnErr};
ghost use Rattle.area_commit.specs.area_reader.Store.{Store, root_of, length_of};
ghost use Rattle.tier_device.specs.declared.media.Tier.TheVariants as tiers;
ghost use Rattle.tier_device.specs.declared.media.Tier.{Tier};
ghost use Rattle.area_commit.specs.area_reader.Map.{place_by};
ghost use Rattle.area_commit.specs.area_reader.Format.{used_block};
ghost use Rattle.inode_plan.specs.Blocks.{AreSound, use_of};
ghost use Rattle.inode_plan.specs.DirectoryStart.{AreDirectoryParts, LieInPool, ArePlacesOf};

use area_commit::in_area_reader::{
    InodeExtents, InodeParts, block_number, first_place, length_of, root_of,
};
use area_commit::in_layout::Geometry;
use std::alloc::{AllocError, Global};
use tier_device::Tier;

/// The blocks of the node pool that a directory has: the one that lists the others, 0 for none, and those that hold its entries, in their order.
#[derive(Drop)]
pub struct DirectoryBlocks {
    pub root: u32,
    pub places: Vec<u32>,
}

// The place of a logical block.
fn place_of(geometry: &Geometry, found: &InodeExtents, count: u64, block: u64) -> u32
    requires lie { LieInPool geometry.now found.now count }
    requires inside { block < count }
    ensures { place_by found.now tiers.Fast block ≡ Some result }
{
    match first_place(found, block) {
        Some((_, place)) => block_number(geometry, Tier::Fast, place),
        None => unreachable!(),
    }
}

// The places of the first so many logical blocks, all of which lie in the node pool.
fn places_of(
    alloc: Global,
    geometry: &Geometry,
    found: &InodeExtents,
    count: u64,
) -> Result<Vec<u32>, AllocError>
    requires { LieInPool geometry.now found.now count }
    ensures places { IfOk result (λ places. ArePlacesOf found.now count places.items) }
    ensures memory { OnErr result (0 < count) }
{
    let mut places = Vec::new(alloc);
    'each: for block in 0..count {
        places.push(place_of(geometry, found, count, block))?;
    }
    Ok(places)
}

/// The blocks that a directory has, as its slot and its extents tell: no block is read. They are what is given up where its node goes.
pub fn directory_blocks(
    alloc: Global,
    geometry: &Geometry,
    parts: &InodeParts,
) -> Result<DirectoryBlocks, AllocError>
    requires { (s : Store) × (i : ℕ) × AreDirectoryParts geometry.now s i parts.now }
    ensures root { IfOk result (λ x. x.root ≡ root_of parts.now.slot tiers.Fast) }
    ensures places { IfOk result (λ x. ArePlacesOf parts.now.extents (length_of parts.now.slot) x.places.items) }
    ensures memory { OnErr result (0 < length_of parts.now.slot) }
    ensures sound { (s : Store) (i : ℕ) → AreDirectoryParts geometry.now s i parts.now → IfOk result (AreSound geometry.now) }
    // It is all that the inode uses.
    ensures uses { (s : Store) (i : ℕ) → AreDirectoryParts geometry.now s i parts.now → IfOk result (λ x. (t : Tier) (k : Option ℕ) → use_of x t k ≡ used_block geometry.now s (record { inode = i; tier = t; logical = k })) }
{
    let places = places_of(alloc, geometry, &parts.extents, length_of(&parts.slot))?;
    let root = root_of(&parts.slot, Tier::Fast);
    Ok(DirectoryBlocks { root, places })
}
