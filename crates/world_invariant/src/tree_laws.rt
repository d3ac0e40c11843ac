//! What a world stands for.

ghost use Rattle.posix_calls.specs.WellFormed.{IsWellFormed, IsWithinLimits};
ghost use Rattle.world_invariant.specs.World.{World, world_state};
ghost use Rattle.world_invariant.specs.Invariant.{IsCoherent};

/// The tree that a world stands for is well-formed and within the limits, also between digests, where the shared graph is no tree.
pub fn world_stands_for_a_tree()
    ensures well_formed { (w : World) → IsCoherent w → IsWellFormed (world_state w) }
    ensures within { (w : World) → IsCoherent w → IsWithinLimits (world_state w).tree }
{}
