// Whether a run lies in tiers that are faster than another.
ghost use Rattle.std.specs.Prelude.{◌≡◌, ◌↔◌, ◌+◌, ◌<◌, ◌^◌, IsSome, IsTrue};
ghost use Rattle.inode_plan.specs.extent_tree.Map.{LieOnce, lies_at};
ghost use Rattle.inode_plan.specs.RunPlaces.{is_faster, InFaster, LieAbove};

use block_alloc::Run;
use inode_plan::in_extent_tree::BlockMap;
use tier_device::Tier;

/// Whether a tier is faster than another.
pub fn is_faster(tier: Tier, other: Tier) -> bool
    ensures { result ≡ is_faster tier other }
{
    match tier {
        Tier::Fast => match other {
            Tier::Fast => false,
            Tier::Block => true,
            Tier::Slow => true,
        },
        Tier::Block => match other {
            Tier::Fast => false,
            Tier::Block => false,
            Tier::Slow => true,
        },
        Tier::Slow => false,
    }
}

// Whether a block lies in a tier that is faster than another.
fn lies_above(map: &BlockMap, block: u32, to: Tier) -> bool
    requires { LieOnce map.now }
    ensures { IsTrue result ↔ InFaster to (λ t. IsSome (lies_at map.now t block)) }
{
    match map.at(block) {
        Some(place) => is_faster(place.tier, to),
        None => false,
    }
}

/// Whether each block of a run lies in a tier that is faster than another.
pub fn lie_above(map: &BlockMap, run: Run, to: Tier) -> bool
    requires once { LieOnce map.now }
    requires few { run.first + run.count < 2 ^ 32 }
    ensures { IsTrue result ↔ LieAbove map.now run.first run.count to }
{
    'each: for block in run.first..run.first + run.count {
        if !lies_above(map, block, to) {
            return false;
        }
    }
    true
}
