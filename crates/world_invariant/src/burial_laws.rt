//! What becomes of a client that died, and of its number.

ghost use Rattle.std.specs.Prelude.{◌≡◌, ◌∷◌, [], ℕ};
ghost use Rattle.posix_calls.specs.Operations.{reply_of};
ghost use Rattle.posix_calls.specs.Run.{Asked, Departs, Run, departed};
ghost use Rattle.world_invariant.specs.World.{Begun, World, world_state};
ghost use Rattle.world_invariant.specs.ClientSteps.{CanDie, after_death, with_client};
ghost use Rattle.world_invariant.specs.Burial.{CanDepart, after_departure, IsDying, settled_whole, settled_gone, CanBury, client_buried, CanJoin, client_joined};
ghost use Rattle.world_invariant.specs.FormatWorld.{idle_client, idle_account};
ghost use Rattle.world_invariant.specs.Invariant.{IsCoherent};

/// A client dies at any point: the tree stays, and a begun call stays begun, till its record is found or not.
pub fn client_may_die()
    ensures holds { (w : World) (c : ℕ) → IsCoherent w → CanDie w c → IsCoherent (after_death w c) }
    ensures tree { (w : World) (c : ℕ) → IsCoherent w → CanDie w c → world_state (after_death w c) ≡ world_state w }
{}

/// Once its begun call is found whole or gone, a dead client departs: in the tree what it had open is closed, and nothing else changes.
pub fn dead_client_may_depart()
    ensures holds { (w : World) (c : ℕ) → IsCoherent w → CanDepart w c → IsCoherent (after_departure w c) }
    ensures tree { (w : World) (c : ℕ) → IsCoherent w → CanDepart w c → world_state (after_departure w c) ≡ departed (world_state w) c }
{}

/// What becomes of a dead client's call is found, and then it departs: where its record is there, the call is answered, and the departure follows; where it
/// is not, the departure alone is seen.
pub fn dead_client_may_be_settled()
    ensures whole { (w : World) (c : ℕ) (b : Begun) → IsCoherent w → IsDying w c b → IsCoherent (settled_whole w c b) }
    ensures whole_run { (w : World) (c : ℕ) (b : Begun) → IsCoherent w → IsDying w c b → Run (world_state w) (Asked c b.call (reply_of b.operation) ∷ Departs c ∷ []) (world_state (settled_whole w c b)) }
    ensures gone { (w : World) (c : ℕ) (b : Begun) → IsCoherent w → IsDying w c b → IsCoherent (settled_gone w c b) }
    ensures gone_run { (w : World) (c : ℕ) (b : Begun) → IsCoherent w → IsDying w c b → Run (world_state w) (Departs c ∷ []) (world_state (settled_gone w c b)) }
    ensures none_run { (w : World) (c : ℕ) → IsCoherent w → CanDepart w c → Run (world_state w) (Departs c ∷ []) (world_state (after_departure w c)) }
{}

/// A client that has departed is buried once its records are digested and no region of it is away: its leases, copies, numbers, units and
/// pins are free, and the tree stays.
pub fn departed_client_may_be_buried()
    ensures holds { (w : World) (c : ℕ) → IsCoherent w → CanBury w c → IsCoherent (client_buried w c) }
    ensures tree { (w : World) (c : ℕ) → IsCoherent w → CanBury w c → world_state (client_buried w c) ≡ world_state w }
    ensures account { (w : World) (c : ℕ) → (client_buried w c).kernel.accounts c ≡ idle_account (w.kernel.accounts c).mark }
{}

/// Once a client is buried and both its regions are wiped, a new one joins under its number, with nothing but the mark. The kernel has
/// nothing to do for it where the account is empty, as a burial leaves it.
pub fn new_client_may_join()
    ensures holds { (w : World) (c : ℕ) → IsCoherent w → CanJoin w c → IsCoherent (client_joined w c) }
    ensures tree { (w : World) (c : ℕ) → IsCoherent w → CanJoin w c → world_state (client_joined w c) ≡ world_state w }
    ensures fresh { (w : World) (c : ℕ) → (client_joined w c).clients c ≡ idle_client c (w.kernel.accounts c).mark }
    ensures kernel { (w : World) (c : ℕ) → w.kernel.accounts c ≡ idle_account (w.kernel.accounts c).mark → (client_joined w c).kernel ≡ w.kernel }
{}

/// So it may whatever the kernel's book still has of the client: that stays as it was.
pub fn new_client_may_take_the_seat()
    ensures holds { (w : World) (c : ℕ) → IsCoherent w → CanJoin w c → IsCoherent (with_client w c (idle_client c (w.kernel.accounts c).mark)) }
    ensures tree { (w : World) (c : ℕ) → IsCoherent w → CanJoin w c → world_state (with_client w c (idle_client c (w.kernel.accounts c).mark)) ≡ world_state w }
{}
