//! What a step of one client's part, of its account and of the shared graph has to keep, and what of the others it leaves as it was.

ghost use Rattle.std.specs.Prelude.{◌≡◌, ◌≢◌, ℕ, true};
ghost use Rattle.posix_calls.specs.Operations.{is_client};
ghost use Rattle.call_effects.specs.file_graph.Graph.{Graph};
ghost use Rattle.call_effects.specs.Wholes.{IsSound};
ghost use Rattle.call_effects.specs.Knowledge.{Agrees};
ghost use Rattle.world_invariant.specs.World.{Client, Account, World, undigested_records, log_of, whole_graph, held_descriptors, moved_world};
ghost use Rattle.world_invariant.specs.ClientParts.{IsSoundPart, IsBooked, IsBeside};
ghost use Rattle.world_invariant.specs.Parts.{WorldPart, WholeKnown, HoldsOfWorld, HasTrueCopies};
ghost use Rattle.world_invariant.specs.Invariant.{IsCoherent};

/// A client's part, its account and the shared graph may become any others, if the book holds, the part stands beside the kernel's
/// new one, each other part does, the leases of both are legal, and the whole is sound and as all clients know it.
pub fn one_part_may_move()
    ensures { (w : World) (c : ℕ) (g : Graph) (a : Account) (p : Client) → IsCoherent w → is_client c ≡ true → IsBooked (moved_world w c g a p).kernel → IsSoundPart g a c p → ((d : ℕ) → is_client d ≡ true → d ≢ c → IsSoundPart g (w.kernel.accounts d) d (w.clients d)) → ((d : ℕ) → is_client d ≡ true → d ≢ c → IsBeside p (w.clients d)) → ((d : ℕ) → is_client d ≡ true → d ≢ c → IsBeside (w.clients d) p) → IsSound (whole_graph (moved_world w c g a p)) (held_descriptors (moved_world w c g a p)) → Agrees p.knows (whole_graph (moved_world w c g a p)) (held_descriptors (moved_world w c g a p)) → ((d : ℕ) → is_client d ≡ true → d ≢ c → Agrees (w.clients d).knows (whole_graph (moved_world w c g a p)) (held_descriptors (moved_world w c g a p))) → IsCoherent (moved_world w c g a p) }
{}

/// Where the shared graph, the client's undigested records and what it has open stay, nothing is to be shown of the other parts but
/// that the leases are legal, and nothing of the whole.
pub fn quiet_part_may_move()
    ensures { (w : World) (c : ℕ) (g : Graph) (a : Account) (p : Client) → IsCoherent w → is_client c ≡ true → g ≡ w.kernel.shared → undigested_records a p ≡ log_of w c → p.knows.own ≡ (w.clients c).knows.own → IsBooked (moved_world w c g a p).kernel → IsSoundPart g a c p → ((d : ℕ) → is_client d ≡ true → d ≢ c → IsBeside p (w.clients d)) → ((d : ℕ) → is_client d ≡ true → d ≢ c → IsBeside (w.clients d) p) → Agrees p.knows (whole_graph w) (held_descriptors w) → IsCoherent (moved_world w c g a p) }
{}

/// The invariant is all of its parts, each of which has a name.
pub fn invariant_is_all_its_parts()
    ensures each { (w : World) → IsCoherent w → (q : WorldPart) → HoldsOfWorld q w }
    ensures all { (w : World) → ((q : WorldPart) → HoldsOfWorld q w) → IsCoherent w }
{}

/// Of what a client knows, its copies and blocks alone are a part of their own: that what it takes for open is open, and that the
/// numbers that it was granted are free in the whole, follows from the other parts.
pub fn knowledge_is_of_copies_and_blocks()
    ensures { (w : World) → ((q : WorldPart) → q ≢ WholeKnown → HoldsOfWorld q w) → (c : ℕ) → is_client c ≡ true → HasTrueCopies (w.clients c).knows (whole_graph w) → Agrees (w.clients c).knows (whole_graph w) (held_descriptors w) }
{}
