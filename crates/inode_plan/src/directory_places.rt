// Where the blocks of a changed directory lie.
ghost use Rattle.std.specs.Prelude.{◌≡◌, ◌≤◌, ◌<◌, ◌+◌, ◌^◌, ℕ, length, slice_index, IfOk, OnOk};
ghost use Rattle.inode_plan.specs.Blocks.{places_after, root_after};
ghost use Rattle.inode_plan.specs.PlacedDirectory.{ListPlaces};

use area_commit::in_extent_tree::push;
use area_commit::in_layout::Extent;
use std::alloc::{AllocError, Global};

/// So many blocks: those that were there, and behind them spare ones.
pub fn places_after(
    alloc: Global,
    old: &[u32],
    spares: &[u32],
    count: usize,
) -> Result<Vec<u32>, AllocError>
    requires { count ≤ length old.now + length spares.now }
    ensures { IfOk result (λ places. places.items ≡ places_after old.now spares.now count) }
{
    let kept = count.min(old.len());
    let mut places = old[..kept].to_vec(alloc)?;
    places.extend_from_slice(&spares[..count - kept])?;
    Ok(places)
}

/// The block that lists so many blocks: the old one, or the last of the spare ones where there was none.
pub fn root_after(old: u32, spares: &[u32], count: usize) -> u32
    requires { old ≡ 0 → 0 < count → 0 < length spares.now }
    ensures { result ≡ root_after old spares.now count }
{
    if count == 0 {
        return 0;
    }
    if old == 0 {
        return spares[spares.len() - 1];
    }
    old
}

/// The runs of blocks that lie at these places, one after the other.
pub fn runs_of(alloc: Global, places: &[u32]) -> Result<Vec<Extent>, AllocError>
    requires few { length places.now < 2 ^ 31 }
    requires fit { (k : ℕ) → k < length places.now → slice_index places.now k + 1 < 2 ^ 32 }
    ensures { IfOk result (λ runs. ListPlaces places.now runs.items) }
{
    let mut runs = Vec::new(alloc);
    'each: for index in 0..places.len() {
        let next = Extent {
            logical: index as u32,
            length: 1,
            place: places[index],
        };
        push(&mut runs, next)?;
    }
    Ok(runs)
}
