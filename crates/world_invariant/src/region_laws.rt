//! The steps of a client's two regions. None of them changes its undigested records, nor the tree.

ghost use Rattle.std.specs.Prelude.{◌≡◌, ℕ};
ghost use Rattle.world_invariant.specs.World.{World, world_state};
ghost use Rattle.world_invariant.specs.RegionSteps.{CanSeal, region_sealed, CanTakeBack, taken_back, CanWipeOther, other_wiped, CanWipeCurrent, current_wiped};
ghost use Rattle.world_invariant.specs.Invariant.{IsCoherent};

/// A region that has records is sealed where the other one is not away and no call is begun; the other one may still have to be wiped.
pub fn region_may_be_sealed()
    ensures holds { (w : World) (c : ℕ) → IsCoherent w → CanSeal w c → IsCoherent (region_sealed w c) }
    ensures tree { (w : World) (c : ℕ) → IsCoherent w → CanSeal w c → world_state (region_sealed w c) ≡ world_state w }
{}

/// A sealed region comes back where all its records are digested.
pub fn region_may_be_taken_back()
    ensures holds { (w : World) (c : ℕ) → IsCoherent w → CanTakeBack w c → IsCoherent (taken_back w c) }
    ensures tree { (w : World) (c : ℕ) → IsCoherent w → CanTakeBack w c → world_state (taken_back w c) ≡ world_state w }
{}

/// A region that is back is wiped beside the one that is written, or once it is the one to be written; only then a record is begun in it.
pub fn region_may_be_wiped()
    ensures other { (w : World) (c : ℕ) → IsCoherent w → CanWipeOther w c → IsCoherent (other_wiped w c) }
    ensures other_tree { (w : World) (c : ℕ) → IsCoherent w → CanWipeOther w c → world_state (other_wiped w c) ≡ world_state w }
    ensures current { (w : World) (c : ℕ) → IsCoherent w → CanWipeCurrent w c → IsCoherent (current_wiped w c) }
    ensures current_tree { (w : World) (c : ℕ) → IsCoherent w → CanWipeCurrent w c → world_state (current_wiped w c) ≡ world_state w }
{}
