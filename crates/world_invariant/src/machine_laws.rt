//! The kernel as a part of its own: each of its entries keeps its book, what is sealed, and what is said of the clients' parts.

ghost use Rattle.std.specs.Prelude.{◌≡◌, ◌≢◌, ◌⊎◌, ℕ, ◌+◌, ◌≤◌, List, length, Bool, true, false, None};
ghost use Rattle.posix_calls.specs.Operations.{is_client};
ghost use Rattle.call_effects.specs.file_graph.Graph.{Graph};
ghost use Rattle.call_effects.specs.log_record.declared.format.Record.{Record};
ghost use Rattle.world_invariant.specs.Logs.{after_records, is_written, is_made_in, units_in, IsNameless};
ghost use Rattle.world_invariant.specs.World.{Account, Away, Client, Kernel, World, at, undigested_records, records_of};
ghost use Rattle.world_invariant.specs.ClientParts.{IsSoundPart};
ghost use Rattle.world_invariant.specs.BookSteps.{HasRoom, IsUnbooked};
ghost use Rattle.world_invariant.specs.KernelSteps.{CanDigest, CanReclaim, IsMigrated, records_digested, after_reclaim, run_migrated};
ghost use Rattle.world_invariant.specs.Halves.{units_booked, units_unbooked, number_booked, number_unbooked, pin_booked, pin_unbooked};
ghost use Rattle.world_invariant.specs.Burial.{CanBury, client_buried, CanJoin, client_joined};
ghost use Rattle.world_invariant.specs.FormatWorld.{idle_world};
ghost use Rattle.world_invariant.specs.RegionSteps.{CanSeal, region_sealed, CanTakeBack, taken_back, CanWipeOther, other_wiped};
ghost use Rattle.world_invariant.specs.Machine.{Machine, IsRunning, AreAccepted, Sealed, sealed_of, undigested_sealed, StandsSealed, CanAccept, accept, CanDigestNext, account_after, digest, book_units, unbook_units, book_number, unbook_number, book_pin, unbook_pin, bury, migrate, reclaim};
ghost use Rattle.world_invariant.specs.Invariant.{IsCoherent};

/// Each entry keeps what holds of the kernel alone.
pub fn kernel_keeps_its_book()
    ensures accept { (m : Machine) (c : ℕ) (s : Sealed) → IsRunning m → CanAccept m c s → IsRunning (accept m c s) }
    ensures digest { (m : Machine) (c : ℕ) (s : Sealed) (first rest : List Record) → IsRunning m → StandsSealed m.kernel.shared (m.kernel.accounts c) s → CanDigestNext m c s first rest → IsRunning (digest m c first) }
    ensures book_units { (m : Machine) (c units : ℕ) → IsRunning m → is_client c ≡ true → HasRoom m.kernel units → IsRunning (book_units m c units) }
    ensures unbook_units { (m : Machine) (c units : ℕ) → IsRunning m → is_client c ≡ true → IsRunning (unbook_units m c units) }
    ensures book_number { (m : Machine) (c i : ℕ) → IsRunning m → is_client c ≡ true → IsUnbooked m.kernel i → IsRunning (book_number m c i) }
    ensures unbook_number { (m : Machine) (c i : ℕ) → IsRunning m → is_client c ≡ true → IsRunning (unbook_number m c i) }
    ensures book_pin { (m : Machine) (c i : ℕ) → IsRunning m → is_client c ≡ true → IsRunning (book_pin m c i) }
    ensures unbook_pin { (m : Machine) (c i : ℕ) → IsRunning m → is_client c ≡ true → IsRunning (unbook_pin m c i) }
    ensures bury { (m : Machine) (c : ℕ) → IsRunning m → is_client c ≡ true → IsRunning (bury m c) }
    ensures reclaim { (m : Machine) (i : ℕ) → IsRunning m → CanReclaim m.kernel i → IsRunning (reclaim m i) }
    ensures migrate { (m : Machine) (after : Kernel) → IsRunning m → IsMigrated m.kernel after → IsRunning (migrate m after) }
{}

/// A client's sealed region is a part of its own, beside the shared graph and the client's account. A digest of its next records keeps
/// what is said of it, and of its client's whole part, and leaves the shared graph as it was wherever its client holds nothing for writing.
pub fn digest_keeps_what_is_sealed()
    ensures sealed { (g : Graph) (a : Account) (c : ℕ) (p : Client) → IsSoundPart g a c p → StandsSealed g a (sealed_of p) }
    ensures client { (m : Machine) (c : ℕ) (p : Client) (first rest : List Record) → IsRunning m → IsSoundPart m.kernel.shared (m.kernel.accounts c) c p → CanDigestNext m c (sealed_of p) first rest → IsSoundPart (after_records m.kernel.shared first) (account_after (m.kernel.accounts c) first) c p }
    ensures own { (m : Machine) (c : ℕ) (s : Sealed) (first rest : List Record) → IsRunning m → StandsSealed m.kernel.shared (m.kernel.accounts c) s → CanDigestNext m c s first rest → StandsSealed (after_records m.kernel.shared first) (account_after (m.kernel.accounts c) first) s }
    ensures beside { (m : Machine) (c : ℕ) (s : Sealed) (first rest : List Record) → IsRunning m → StandsSealed m.kernel.shared (m.kernel.accounts c) s → CanDigestNext m c s first rest → (others : List Record) → ((i : ℕ) → is_written i others ≡ true → s.writes i ≡ false) → (i : ℕ) → is_written i others ≡ true → m.kernel.shared i ≡ after_records m.kernel.shared first i }
{}

/// What is said of a client's part, or of a sealed region, beside the shared graph is so beside every other graph that has the same
/// nodes where its records write, and beside one that lacks a node that they don't make. It is so beside every other account with the same
/// mark that has the units of the records and the spare ones, the numbers and the pins; and a sealed region may stand under other leases that
/// still have what its records write.
pub fn parts_stand_where_they_write()
    ensures client { (g h : Graph) (a : Account) (c : ℕ) (p : Client) → ((i : ℕ) → is_written i (records_of a p) ≡ true → g i ≡ h i) → IsSoundPart g a c p → IsSoundPart h a c p }
    ensures client_less { (i : ℕ) (g h : Graph) (a : Account) (c : ℕ) (p : Client) → IsNameless (g i) → h i ≡ None → ((j : ℕ) → j ≢ i → h j ≡ g j) → is_made_in i (records_of a p) ≡ false → IsSoundPart g a c p → IsSoundPart h a c p }
    ensures client_account { (g : Graph) (a b : Account) (c : ℕ) (p : Client) → b.mark ≡ a.mark → p.spare + units_in (records_of a p) ≤ b.units → ((i : ℕ) → p.knows.granted i ≡ true → b.numbers i ≡ true) → ((i : ℕ) → is_made_in i (undigested_records a p) ≡ true → b.numbers i ≡ true) → ((i : ℕ) → p.pins i ≡ true → b.pins i ≡ true) → IsSoundPart g a c p → IsSoundPart g b c p }
    ensures sealed { (g h : Graph) (a : Account) (s : Sealed) → ((i : ℕ) → is_written i (undigested_sealed a s) ≡ true → g i ≡ h i) → StandsSealed g a s → StandsSealed h a s }
    ensures sealed_less { (i : ℕ) (g h : Graph) (a : Account) (s : Sealed) → IsNameless (g i) → h i ≡ None → ((j : ℕ) → j ≢ i → h j ≡ g j) → is_made_in i (undigested_sealed a s) ≡ false → StandsSealed g a s → StandsSealed h a s }
    ensures sealed_account { (g : Graph) (a b : Account) (s : Sealed) → b.mark ≡ a.mark → units_in (undigested_sealed a s) ≤ b.units → ((i : ℕ) → is_made_in i (undigested_sealed a s) ≡ true → b.numbers i ≡ true) → StandsSealed g a s → StandsSealed g b s }
    ensures sealed_leases { (g : Graph) (a : Account) (s : Sealed) (writes : ℕ → Bool) → ((i : ℕ) → is_written i (undigested_sealed a s) ≡ true → writes i ≡ true) → StandsSealed g a s → StandsSealed g a (record s { writes = writes }) }
{}

/// The kernel's entries are what the world's steps make of the kernel's part.
pub fn kernel_entries_are_steps_of_the_world()
    ensures digest { (w : World) (accepted : ℕ → ℕ) (c : ℕ) (first : List Record) → (digest (record { kernel = w.kernel; accepted = accepted }) c first).kernel ≡ (records_digested w c first).kernel }
    ensures reclaim { (w : World) (accepted : ℕ → ℕ) (i : ℕ) → (reclaim (record { kernel = w.kernel; accepted = accepted }) i).kernel ≡ (after_reclaim w i).kernel }
    ensures book_units { (w : World) (accepted : ℕ → ℕ) (c units : ℕ) → (book_units (record { kernel = w.kernel; accepted = accepted }) c units).kernel ≡ (units_booked w c units).kernel }
    ensures unbook_units { (w : World) (accepted : ℕ → ℕ) (c units : ℕ) → (unbook_units (record { kernel = w.kernel; accepted = accepted }) c units).kernel ≡ (units_unbooked w c units).kernel }
    ensures book_number { (w : World) (accepted : ℕ → ℕ) (c i : ℕ) → (book_number (record { kernel = w.kernel; accepted = accepted }) c i).kernel ≡ (number_booked w c i).kernel }
    ensures unbook_number { (w : World) (accepted : ℕ → ℕ) (c i : ℕ) → (unbook_number (record { kernel = w.kernel; accepted = accepted }) c i).kernel ≡ (number_unbooked w c i).kernel }
    ensures book_pin { (w : World) (accepted : ℕ → ℕ) (c i : ℕ) → (book_pin (record { kernel = w.kernel; accepted = accepted }) c i).kernel ≡ (pin_booked w c i).kernel }
    ensures unbook_pin { (w : World) (accepted : ℕ → ℕ) (c i : ℕ) → (unbook_pin (record { kernel = w.kernel; accepted = accepted }) c i).kernel ≡ (pin_unbooked w c i).kernel }
    ensures migrate { (w : World) (accepted : ℕ → ℕ) (after : Kernel) → (migrate (record { kernel = w.kernel; accepted = accepted }) after).kernel ≡ (run_migrated w after).kernel }
    ensures bury { (w : World) (accepted : ℕ → ℕ) (c : ℕ) → (bury (record { kernel = w.kernel; accepted = accepted }) c).kernel ≡ (client_buried w c).kernel }
{}

/// A region that is away may be accepted, if all before it are digested and none of it is accepted yet.
pub fn region_that_is_away_may_be_accepted()
    ensures { (m : Machine) (c : ℕ) (p : Client) → is_client c ≡ true → IsSoundPart m.kernel.shared (m.kernel.accounts c) c p → p.other ≡ Away → (m.kernel.accounts c).mark ≡ p.past → m.accepted c ≡ p.past → CanAccept m c (sealed_of p) }
{}

/// A digest of the kernel, unlike its other entries, rests on what a client sealed: what the kernel may digest of that the world may, and
/// what it has to know of it holds in every world.
pub fn kernel_digest_may_be_taken_in_the_world()
    ensures digest { (w : World) (accepted : ℕ → ℕ) (c : ℕ) (first rest : List Record) → CanDigestNext (record { kernel = w.kernel; accepted = accepted }) c (sealed_of (w.clients c)) first rest → CanDigest w c first rest }
    ensures sealed { (w : World) (c : ℕ) → IsCoherent w → is_client c ≡ true → StandsSealed w.kernel.shared (w.kernel.accounts c) (sealed_of (w.clients c)) }
{}

/// The regions that the kernel accepted are the clients' regions that are away: each step of a region, each acceptance, each burial
/// and each client that joins keeps it. So a region that is away was accepted or may be, and what the world may digest of an accepted one the kernel may.
pub fn accepted_regions_are_those_away()
    ensures opening { (capacity : ℕ) (g : Graph) → AreAccepted (λ c. 0) (idle_world capacity g).clients }
    ensures still { (accepted : ℕ → ℕ) (w : World) (c : ℕ) (p : Client) → AreAccepted accepted w.clients → p.past ≡ (w.clients c).past → p.sealed ≡ (w.clients c).sealed → p.other ≡ (w.clients c).other → AreAccepted accepted (at w.clients c p) }
    ensures sealed { (accepted : ℕ → ℕ) (w : World) (c : ℕ) → AreAccepted accepted w.clients → CanSeal w c → AreAccepted accepted (region_sealed w c).clients }
    ensures accept { (accepted : ℕ → ℕ) (w : World) (c : ℕ) → IsCoherent w → AreAccepted accepted w.clients → CanAccept (record { kernel = w.kernel; accepted = accepted }) c (sealed_of (w.clients c)) → AreAccepted (accept (record { kernel = w.kernel; accepted = accepted }) c (sealed_of (w.clients c))).accepted w.clients }
    ensures back { (accepted : ℕ → ℕ) (w : World) (c : ℕ) → IsCoherent w → AreAccepted accepted w.clients → (w.kernel.accounts c).mark ≤ accepted c → CanTakeBack w c → AreAccepted accepted (taken_back w c).clients }
    ensures wiped { (accepted : ℕ → ℕ) (w : World) (c : ℕ) → AreAccepted accepted w.clients → CanWipeOther w c → AreAccepted accepted (other_wiped w c).clients }
    ensures buried { (accepted : ℕ → ℕ) (w : World) (c : ℕ) → IsCoherent w → AreAccepted accepted w.clients → CanBury w c → AreAccepted accepted (client_buried w c).clients }
    ensures joined { (accepted : ℕ → ℕ) (w : World) (c : ℕ) → IsCoherent w → AreAccepted accepted w.clients → CanJoin w c → AreAccepted accepted (client_joined w c).clients }
    ensures next { (accepted : ℕ → ℕ) (w : World) (c : ℕ) → IsCoherent w → AreAccepted accepted w.clients → is_client c ≡ true → (w.clients c).other ≡ Away → (w.kernel.accounts c).mark ≤ accepted c → CanAccept (record { kernel = w.kernel; accepted = accepted }) c (sealed_of (w.clients c)) ⊎ (accepted c ≡ (w.clients c).past + length (w.clients c).sealed) }
    ensures digest { (accepted : ℕ → ℕ) (w : World) (c : ℕ) (first rest : List Record) → IsCoherent w → accepted c ≡ (w.clients c).past + length (w.clients c).sealed → CanDigest w c first rest → CanDigestNext (record { kernel = w.kernel; accepted = accepted }) c (sealed_of (w.clients c)) first rest }
{}
