//! Walks of small worlds, computed by the definitions: each step's premises are met.

ghost use Rattle.std.specs.Prelude.{◌≡◌, [], ◌∷◌, map, Bool, true, false, Some, is_some, if◌then◌else◌};
ghost use Rattle.posix_calls.specs.EmptyTree.{empty_state};
ghost use Rattle.posix_calls.specs.Operations.{Step};
ghost use Rattle.posix_calls.specs.declared.call.Reply.TheVariants.{Done, Opened, Wrote};
ghost use Rattle.call_effects.specs.file_graph.Graph.{file_bytes};
ghost use Rattle.world_invariant.specs.Logs.{IsNameless};
ghost use Rattle.world_invariant.specs.World.{log_of, all_of, world_state};
ghost use Rattle.world_invariant.specs.Invariant.{IsCoherent};
ghost use Rattle.world_invariant.specs.ClientSteps.{IsBegun, after_reply};
ghost use Rattle.world_invariant.specs.LeaseSteps.{CanGive};
ghost use Rattle.world_invariant.specs.KernelSteps.{CanDigest, CanReclaim};
ghost use Rattle.world_invariant.specs.Stop.{Stores, stored_graph};
ghost use Rattle.world_invariant.specs.Walk.{mkdir_a, make_world, made_world, passed_world};
ghost use Rattle.world_invariant.specs.FormatWorld.{idle_client};
ghost use Rattle.world_invariant.specs.Burial.{CanBury, CanJoin};
ghost use Rattle.world_invariant.specs.UnlinkWalk as unlink_walk;
ghost use Rattle.world_invariant.specs.BurialWalk as burial_walk;
ghost use Rattle.world_invariant.specs.PairWalk as pair_walk;
ghost use Rattle.world_invariant.specs.FiveWalk as five_walk;

/// From a format on, client 1 gets units and a number, takes two leases, fetches the root and begins `mkdir /a`: the tree is the empty
/// one still, and a stop stores that, or that after the call. Its answer is the call's step. Then its region is sealed, digested and
/// back, and the lease on the new directory, on which nothing is undigested, goes to client 2: the tree is that after the call.
pub fn small_world_walks()
    ensures begun { IsCoherent make_world }
    ensures unchanged { world_state make_world ≡ empty_state }
    ensures answered { Step empty_state 1 mkdir_a.call Done (world_state made_world) }
    ensures stopped_without { Stores make_world (log_of make_world) }
    ensures stopped_with { Stores make_world (all_of make_world) }
    ensures passed { IsCoherent passed_world }
    ensures same { world_state passed_world ≡ world_state made_world }
{}

/// From the same world on, client 1 pins the number, opens `/a` with it, and unlinks `/a` while it is open. Both records are digested:
/// the file has no name in the shared graph, and can't be reclaimed, for it is open. After the close and without the pin it is.
pub fn small_world_unlinks_an_open_file()
    ensures opened { Step (world_state unlink_walk.initial_world) 1 unlink_walk.open_a.call (Opened 0) (world_state unlink_walk.opened_world) }
    ensures unlinked { Step (world_state unlink_walk.unlink_world) 1 unlink_walk.unlink_a.call Done (world_state unlink_walk.unlinked_world) }
    ensures kept { IsCoherent unlink_walk.kept_world }
    ensures nameless { IsNameless (unlink_walk.kept_world.kernel.shared 2) }
    ensures pinned { CanReclaim unlink_walk.kept_world.kernel 2 → ⊥ }
    ensures closed { Step (world_state unlink_walk.kept_world) 1 unlink_walk.close_0 Done (world_state unlink_walk.closed_world) }
    ensures can { CanReclaim unlink_walk.released_world.kernel 2 }
    ensures reclaimed { IsCoherent unlink_walk.emptied_world }
    ensures unseen { world_state unlink_walk.emptied_world ≡ world_state unlink_walk.released_world }
{}

/// With the file open, client 1 has its record digested and gives the root to client 2, which begins `mkdir /b`; client 1 begins a
/// write. A stop has four outcomes, one for each choice of the two records. Then client 1 is answered and its record digested while
/// the other call is begun, whose answer is a step still. Where both are answered and both regions sealed instead, either record may be
/// digested first.
pub fn small_world_of_two_clients()
    ensures given { CanGive pair_walk.back 1 1 }
    ensures begun { IsCoherent pair_walk.two }
    ensures stopped { (first second : Bool) → Stores pair_walk.two (pair_walk.logs_left first second) }
    ensures byte { (first second : Bool) → file_bytes (stored_graph pair_walk.two (pair_walk.logs_left first second) 2) ≡ Some (if first then 7 ∷ [] else []) }
    ensures directory { (first second : Bool) → is_some (stored_graph pair_walk.two (pair_walk.logs_left first second) 3) ≡ second }
    ensures written { Step (world_state pair_walk.two) 1 pair_walk.write_7.call (Wrote 1) (world_state (after_reply pair_walk.two 1 pair_walk.write_7)) }
    ensures beside { IsCoherent pair_walk.beside }
    ensures still { IsBegun pair_walk.beside 2 pair_walk.mkdir_b }
    ensures made { Step (world_state pair_walk.beside) 2 pair_walk.mkdir_b.call Done (world_state pair_walk.made_world) }
    ensures sealed { IsCoherent pair_walk.both }
    ensures first { CanDigest pair_walk.both 1 (pair_walk.write_7.change ∷ []) [] }
    ensures second { CanDigest pair_walk.both 2 (pair_walk.mkdir_b.change ∷ []) [] }
{}

/// Client 1's region comes back, and it gives the lease on the file that it has open to client 2, which makes `/b/x` and `/b/y` and
/// unlinks `/a`. Its four records, of six in all, are digested: the shared graph has five nodes, and the file without a name stays, with the
/// byte that client 1 wrote, since client 1 has it open.
pub fn small_world_of_five_nodes()
    ensures given { CanGive five_walk.back 1 2 }
    ensures made { Step (world_state five_walk.make_world) 2 five_walk.mkdir_x.call Done (world_state five_walk.made_world) }
    ensures opened { Step (world_state five_walk.initial_world) 2 five_walk.open_y.call (Opened 0) (world_state five_walk.opened_world) }
    ensures unlinked { Step (world_state five_walk.unlink_world) 2 unlink_walk.unlink_a.call Done (world_state five_walk.unlinked_world) }
    ensures kept { IsCoherent five_walk.kept_world }
    ensures nodes { map (λ i. is_some (five_walk.kept_world.kernel.shared i)) (1 ∷ 2 ∷ 3 ∷ 4 ∷ 5 ∷ 6 ∷ []) ≡ true ∷ true ∷ true ∷ true ∷ true ∷ false ∷ [] }
    ensures nameless { IsNameless (five_walk.kept_world.kernel.shared 2) }
    ensures byte { file_bytes (five_walk.kept_world.kernel.shared 2) ≡ Some (7 ∷ []) }
    ensures pinned { CanReclaim five_walk.kept_world.kernel 2 → ⊥ }
{}

/// Client 1 dies in its unlink, while it has `/a` open. The record is found whole, so the call was a step. What it had open is closed, its two
/// records are digested, and it is buried: only then the file goes, since the pin goes with the client. Once its other region is wiped a
/// new client joins under its number, with nothing but the mark 2; the kernel needs nothing for that, and the tree is the one from when the
/// client was gone.
pub fn small_world_buries_a_client()
    ensures found { Step (world_state burial_walk.dead) 1 unlink_walk.unlink_a.call Done (world_state burial_walk.found_world) }
    ensures pinned { CanReclaim burial_walk.back.kernel 2 → ⊥ }
    ensures buries { CanBury burial_walk.back 1 }
    ensures unpinned { CanReclaim burial_walk.buried_world.kernel 2 }
    ensures joins { CanJoin burial_walk.wiped_world 1 }
    ensures joined { IsCoherent burial_walk.renewed_world }
    ensures fresh { burial_walk.renewed_world.clients 1 ≡ idle_client 1 2 }
    ensures kernel { burial_walk.renewed_world.kernel ≡ burial_walk.wiped_world.kernel }
    ensures same { world_state burial_walk.renewed_world ≡ world_state burial_walk.gone_world }
{}
