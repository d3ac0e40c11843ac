//! The steps of the kernel's book. None of them changes the tree.

ghost use Rattle.std.specs.Prelude.{◌≡◌, ℕ, ◌≤◌, true};
ghost use Rattle.posix_calls.specs.Operations.{is_client};
ghost use Rattle.world_invariant.specs.World.{World, world_state};
ghost use Rattle.world_invariant.specs.BookSteps.{HasRoom, units_granted, units_returned, IsUnbooked, number_granted, CanReturn, number_returned, inode_pinned, CanUnpin, after_unpin};
ghost use Rattle.world_invariant.specs.Invariant.{IsCoherent};

/// Units are granted where they fit beside what is charged and out, and spare ones are given back.
pub fn units_may_be_granted_and_returned()
    ensures granted { (w : World) (c units : ℕ) → IsCoherent w → is_client c ≡ true → HasRoom w.kernel units → IsCoherent (units_granted w c units) }
    ensures granted_tree { (w : World) (c units : ℕ) → IsCoherent w → is_client c ≡ true → world_state (units_granted w c units) ≡ world_state w }
    ensures returned { (w : World) (c units : ℕ) → IsCoherent w → is_client c ≡ true → units ≤ (w.clients c).spare → IsCoherent (units_returned w c units) }
    ensures returned_tree { (w : World) (c units : ℕ) → IsCoherent w → is_client c ≡ true → world_state (units_returned w c units) ≡ world_state w }
{}

/// A number is granted that names no node and stands in nobody's account, and one that wasn't used is given back.
pub fn number_may_be_granted_and_returned()
    ensures granted { (w : World) (c i : ℕ) → IsCoherent w → is_client c ≡ true → IsUnbooked w.kernel i → IsCoherent (number_granted w c i) }
    ensures granted_tree { (w : World) (c i : ℕ) → IsCoherent w → is_client c ≡ true → world_state (number_granted w c i) ≡ world_state w }
    ensures returned { (w : World) (c i : ℕ) → IsCoherent w → CanReturn w c i → IsCoherent (number_returned w c i) }
    ensures returned_tree { (w : World) (c i : ℕ) → IsCoherent w → CanReturn w c i → world_state (number_returned w c i) ≡ world_state w }
{}

/// An inode is pinned at any time, and a pin is dropped where the client has the inode not open, and no call is begun or the client failed.
pub fn pin_may_be_set_and_dropped()
    ensures set { (w : World) (c i : ℕ) → IsCoherent w → is_client c ≡ true → IsCoherent (inode_pinned w c i) }
    ensures set_tree { (w : World) (c i : ℕ) → IsCoherent w → is_client c ≡ true → world_state (inode_pinned w c i) ≡ world_state w }
    ensures dropped { (w : World) (c i : ℕ) → IsCoherent w → CanUnpin w c i → IsCoherent (after_unpin w c i) }
    ensures dropped_tree { (w : World) (c i : ℕ) → IsCoherent w → CanUnpin w c i → world_state (after_unpin w c i) ≡ world_state w }
{}
