//! What is said of a client's copies over its own part and the kernel's alone.

ghost use Rattle.std.specs.Prelude.{◌≡◌, ◌≢◌, ℕ, List, true, false, None};
ghost use Rattle.posix_calls.specs.Operations.{is_client};
ghost use Rattle.call_effects.specs.file_graph.Graph.{Graph};
ghost use Rattle.call_effects.specs.log_record.declared.format.Record.{Record};
ghost use Rattle.call_effects.specs.Knowledge.{Agrees};
ghost use Rattle.world_invariant.specs.Logs.{after_records, is_written, is_made_in, IsNameless, NameNone};
ghost use Rattle.world_invariant.specs.World.{Account, Client, World, undigested_records, has_lease, whole_graph, held_descriptors};
ghost use Rattle.world_invariant.specs.ClientParts.{IsLeased};
ghost use Rattle.world_invariant.specs.Parts.{WorldPart, WholeKnown, HoldsOfWorld};
ghost use Rattle.world_invariant.specs.Copies.{HasOwnCopies};
ghost use Rattle.world_invariant.specs.Machine.{Machine, IsRunning, Sealed, sealed_of, StandsSealed, CanDigestNext, account_after};
ghost use Rattle.world_invariant.specs.Invariant.{IsCoherent};

/// A client's copies and blocks are as its own records leave the shared nodes. That says as much as that they are as the whole is: with the
/// other parts of the invariant all that the client knows follows from it.
pub fn copies_are_of_the_own_records()
    ensures own { (w : World) (c : ℕ) → IsCoherent w → is_client c ≡ true → HasOwnCopies w.kernel.shared (w.kernel.accounts c) (w.clients c) }
    ensures all { (w : World) → ((q : WorldPart) → q ≢ WholeKnown → HoldsOfWorld q w) → (c : ℕ) → is_client c ≡ true → HasOwnCopies w.kernel.shared (w.kernel.accounts c) (w.clients c) → Agrees (w.clients c).knows (whole_graph w) (held_descriptors w) }
{}

/// It stays so where the shared graph changes at inodes alone that the client doesn't hold, as by a digest of another client's records;
/// where the client's own records are digested; where its account changes but for the mark; and where a file goes out of the shared graph
/// that has no name.
pub fn kernel_steps_keep_copies()
    ensures elsewhere { (g h : Graph) (a : Account) (p : Client) → IsLeased (has_lease p) p.knows → ((i : ℕ) → is_written i (undigested_records a p) ≡ true → has_lease p i ≡ true) → ((i : ℕ) → has_lease p i ≡ true → g i ≡ h i) → HasOwnCopies g a p → HasOwnCopies h a p }
    ensures digest_beside { (m : Machine) (c : ℕ) (s : Sealed) (first rest : List Record) (a : Account) (p : Client) → StandsSealed m.kernel.shared (m.kernel.accounts c) s → CanDigestNext m c s first rest → IsLeased (has_lease p) p.knows → ((i : ℕ) → is_written i (undigested_records a p) ≡ true → has_lease p i ≡ true) → ((i : ℕ) → s.writes i ≡ true → has_lease p i ≡ false) → HasOwnCopies m.kernel.shared a p → HasOwnCopies (after_records m.kernel.shared first) a p }
    ensures digest_own { (m : Machine) (c : ℕ) (p : Client) (first rest : List Record) → IsRunning m → StandsSealed m.kernel.shared (m.kernel.accounts c) (sealed_of p) → CanDigestNext m c (sealed_of p) first rest → HasOwnCopies m.kernel.shared (m.kernel.accounts c) p → HasOwnCopies (after_records m.kernel.shared first) (account_after (m.kernel.accounts c) first) p }
    ensures account { (g : Graph) (a b : Account) (p : Client) → b.mark ≡ a.mark → HasOwnCopies g a p → HasOwnCopies g b p }
    ensures reclaim { (i : ℕ) (g h : Graph) (a : Account) (p : Client) → IsNameless (g i) → h i ≡ None → ((j : ℕ) → j ≢ i → h j ≡ g j) → is_made_in i (undigested_records a p) ≡ false → NameNone g (undigested_records a p) → HasOwnCopies g a p → HasOwnCopies h a p }
{}
