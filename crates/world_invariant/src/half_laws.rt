//! The two halves of a grant and of what is given back: the kernel's seat and the client's change in steps of their own. None of them
//! changes the tree.

ghost use Rattle.std.specs.Prelude.{◌≡◌, ℕ, ◌≤◌, true};
ghost use Rattle.posix_calls.specs.Operations.{is_client};
ghost use Rattle.world_invariant.specs.World.{World, world_state};
ghost use Rattle.world_invariant.specs.BookSteps.{HasRoom, IsUnbooked, CanReturn, CanUnpin};
ghost use Rattle.world_invariant.specs.Halves.{AreOnTheirWay, units_booked, units_unbooked, units_received, units_sent, IsOnItsWay, number_booked, number_unbooked, number_received, number_sent, IsPinnedAlone, pin_booked, pin_unbooked, pin_received, pin_sent};
ghost use Rattle.world_invariant.specs.Invariant.{IsCoherent};

/// Units come into the book first and to the client then; they leave the client first and the book then.
pub fn units_may_be_on_their_way()
    ensures booked { (w : World) (c units : ℕ) → IsCoherent w → is_client c ≡ true → HasRoom w.kernel units → IsCoherent (units_booked w c units) }
    ensures booked_tree { (w : World) (c units : ℕ) → IsCoherent w → is_client c ≡ true → world_state (units_booked w c units) ≡ world_state w }
    ensures received { (w : World) (c units : ℕ) → IsCoherent w → AreOnTheirWay w c units → IsCoherent (units_received w c units) }
    ensures received_tree { (w : World) (c units : ℕ) → IsCoherent w → is_client c ≡ true → world_state (units_received w c units) ≡ world_state w }
    ensures sent { (w : World) (c units : ℕ) → IsCoherent w → is_client c ≡ true → IsCoherent (units_sent w c units) }
    ensures sent_tree { (w : World) (c units : ℕ) → IsCoherent w → is_client c ≡ true → world_state (units_sent w c units) ≡ world_state w }
    ensures unbooked { (w : World) (c units : ℕ) → IsCoherent w → AreOnTheirWay w c units → IsCoherent (units_unbooked w c units) }
    ensures unbooked_tree { (w : World) (c units : ℕ) → IsCoherent w → is_client c ≡ true → world_state (units_unbooked w c units) ≡ world_state w }
{}

/// So does a number.
pub fn number_may_be_on_its_way()
    ensures booked { (w : World) (c i : ℕ) → IsCoherent w → is_client c ≡ true → IsUnbooked w.kernel i → IsCoherent (number_booked w c i) }
    ensures booked_tree { (w : World) (c i : ℕ) → IsCoherent w → is_client c ≡ true → world_state (number_booked w c i) ≡ world_state w }
    ensures received { (w : World) (c i : ℕ) → IsCoherent w → IsOnItsWay w c i → IsCoherent (number_received w c i) }
    ensures received_tree { (w : World) (c i : ℕ) → IsCoherent w → is_client c ≡ true → world_state (number_received w c i) ≡ world_state w }
    ensures sent { (w : World) (c i : ℕ) → IsCoherent w → CanReturn w c i → IsCoherent (number_sent w c i) }
    ensures sent_tree { (w : World) (c i : ℕ) → IsCoherent w → is_client c ≡ true → world_state (number_sent w c i) ≡ world_state w }
    ensures unbooked { (w : World) (c i : ℕ) → IsCoherent w → IsOnItsWay w c i → IsCoherent (number_unbooked w c i) }
    ensures unbooked_tree { (w : World) (c i : ℕ) → IsCoherent w → is_client c ≡ true → world_state (number_unbooked w c i) ≡ world_state w }
{}

/// So does a pin.
pub fn pin_may_be_on_its_way()
    ensures booked { (w : World) (c i : ℕ) → IsCoherent w → is_client c ≡ true → IsCoherent (pin_booked w c i) }
    ensures booked_tree { (w : World) (c i : ℕ) → IsCoherent w → is_client c ≡ true → world_state (pin_booked w c i) ≡ world_state w }
    ensures received { (w : World) (c i : ℕ) → IsCoherent w → IsPinnedAlone w c i → IsCoherent (pin_received w c i) }
    ensures received_tree { (w : World) (c i : ℕ) → IsCoherent w → is_client c ≡ true → world_state (pin_received w c i) ≡ world_state w }
    ensures sent { (w : World) (c i : ℕ) → IsCoherent w → CanUnpin w c i → IsCoherent (pin_sent w c i) }
    ensures sent_tree { (w : World) (c i : ℕ) → IsCoherent w → is_client c ≡ true → world_state (pin_sent w c i) ≡ world_state w }
    ensures unbooked { (w : World) (c i : ℕ) → IsCoherent w → IsPinnedAlone w c i → IsCoherent (pin_unbooked w c i) }
    ensures unbooked_tree { (w : World) (c i : ℕ) → IsCoherent w → is_client c ≡ true → world_state (pin_unbooked w c i) ≡ world_state w }
{}
