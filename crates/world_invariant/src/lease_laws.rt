//! The steps of leases and copies. None of them changes the tree.

ghost use Rattle.std.specs.Prelude.{◌≡◌, ℕ, List, Option, true, Some};
ghost use Rattle.posix_calls.specs.Operations.{is_client};
ghost use Rattle.call_effects.specs.NodeView.{NodeView};
ghost use Rattle.call_effects.specs.Knowledge.{Knowledge};
ghost use Rattle.world_invariant.specs.Logs.{is_touched};
ghost use Rattle.world_invariant.specs.World.{Begun, World, has_lease, whole_graph, world_state};
ghost use Rattle.world_invariant.specs.LeaseSteps.{IsUnwritten, IsUnheld, read_taken, write_taken, CanGive, after_give, own_view, CanFetch, after_fetch, CanRead, blocks_fetched, CanForget, forget_world, CanForgetBlocks, blocks_forgotten};
ghost use Rattle.world_invariant.specs.Burial.{CanBury};
ghost use Rattle.world_invariant.specs.Invariant.{IsCoherent};

/// A client takes a lease for reading where no other holds the inode for writing.
pub fn read_lease_may_be_taken()
    ensures holds { (w : World) (c i : ℕ) → IsCoherent w → is_client c ≡ true → IsUnwritten w c i → IsCoherent (read_taken w c i) }
    ensures tree { (w : World) (c i : ℕ) → IsCoherent w → is_client c ≡ true → world_state (read_taken w c i) ≡ world_state w }
{}

/// It takes one for writing, or raises one for reading, where no other holds the inode.
pub fn write_lease_may_be_taken()
    ensures holds { (w : World) (c i : ℕ) → IsCoherent w → is_client c ≡ true → IsUnheld w c i → IsCoherent (write_taken w c i) }
    ensures tree { (w : World) (c i : ℕ) → IsCoherent w → is_client c ≡ true → world_state (write_taken w c i) ≡ world_state w }
{}

/// It gives a lease where no call of it is begun and none of its records touches the inode, and forgets its copies.
pub fn lease_may_be_given()
    ensures holds { (w : World) (c i : ℕ) → IsCoherent w → CanGive w c i → IsCoherent (after_give w c i) }
    ensures tree { (w : World) (c i : ℕ) → IsCoherent w → CanGive w c i → world_state (after_give w c i) ≡ world_state w }
{}

/// It gets a copy of a node that it holds, or blocks of a file: what its own records make of the shared node is what the whole has
/// there, whatever the other clients' records are.
pub fn copy_may_be_fetched()
    ensures holds { (w : World) (c i : ℕ) → IsCoherent w → CanFetch w c i → IsCoherent (after_fetch w c i) }
    ensures tree { (w : World) (c i : ℕ) → IsCoherent w → CanFetch w c i → world_state (after_fetch w c i) ≡ world_state w }
    ensures blocks { (w : World) (c i first count names : ℕ) (bytes : List ℕ) → IsCoherent w → CanRead w c i names bytes → IsCoherent (blocks_fetched w c i first count bytes) }
    ensures blocks_tree { (w : World) (c i first count names : ℕ) (bytes : List ℕ) → IsCoherent w → CanRead w c i names bytes → world_state (blocks_fetched w c i first count bytes) ≡ world_state w }
{}

/// It forgets copies, blocks and numbers where no call is begun, and blocks at any time.
pub fn knowledge_may_be_forgotten()
    ensures holds { (w : World) (c : ℕ) (less : Knowledge) → IsCoherent w → CanForget w c less → IsCoherent (forget_world w c less) }
    ensures tree { (w : World) (c : ℕ) (less : Knowledge) → IsCoherent w → CanForget w c less → world_state (forget_world w c less) ≡ world_state w }
    ensures blocks { (w : World) (c : ℕ) (fewer : ℕ → ℕ → Option (List ℕ)) → IsCoherent w → CanForgetBlocks w c fewer → IsCoherent (blocks_forgotten w c fewer) }
    ensures blocks_tree { (w : World) (c : ℕ) (fewer : ℕ → ℕ → Option (List ℕ)) → IsCoherent w → CanForgetBlocks w c fewer → world_state (blocks_forgotten w c fewer) ≡ world_state w }
{}

/// Where a client holds an inode, the whole has there what the client's own records make of the shared node, whatever the other
/// clients' records are.
pub fn view_of_a_held_inode_is_the_wholes()
    ensures { (w : World) (c i : ℕ) → IsCoherent w → is_client c ≡ true → has_lease (w.clients c) i ≡ true → whole_graph w i ≡ own_view w c i }
{}

/// While a call is begun, also where the client's device failed in it, the client holds for writing what its record touches and holds what it
/// was planned by, gives nothing, and is not buried, which would leave it none.
pub fn begun_call_keeps_its_leases()
    ensures writes { (w : World) (c i : ℕ) (b : Begun) → IsCoherent w → is_client c ≡ true → (w.clients c).begun ≡ Some b → is_touched i b.change ≡ true → (w.clients c).writes i ≡ true }
    ensures copies { (w : World) (c i : ℕ) (copy : Option NodeView) → IsCoherent w → is_client c ≡ true → (w.clients c).knows.copies i ≡ Some copy → has_lease (w.clients c) i ≡ true }
    ensures kept { (w : World) (c i : ℕ) (b : Begun) → (w.clients c).begun ≡ Some b → CanGive w c i → ⊥ }
    ensures unburied { (w : World) (c : ℕ) (b : Begun) → IsCoherent w → (w.clients c).begun ≡ Some b → CanBury w c → ⊥ }
{}
