//! What some parts say of one another, and what they may say.

ghost use Rattle.std.specs.Prelude.{◌≡◌, ◌+◌, ◌++◌, ◌∷◌, [], ℕ, List, length, map, true, false, None};
ghost use Rattle.posix_calls.specs.Operations.{is_client};
ghost use Rattle.posix_calls.specs.Run.{Turn};
ghost use Rattle.world_invariant.specs.Invariant.{IsCoherent};
ghost use Rattle.world_invariant.specs.KernelSteps.{CanReclaim};
ghost use Rattle.world_invariant.specs.Logs.{is_written};
ghost use Rattle.world_invariant.specs.Machine.{CanAccept, CanDigestNext};
ghost use Rattle.world_invariant.specs.log_record.declared.format.Record.{Record};
ghost use Rattle.world_history.specs.declared.moves.Move.{Move};
ghost use Rattle.world_history.specs.declared.moves.Move.TheVariants.{Accepted, DigestFailed, Digested, Gave, Joined, Met, Reclaimed, TookBack};
ghost use Rattle.world_history.specs.Conditions.{MayFollow};
ghost use Rattle.world_history.specs.Configuration.{AwayRegion, Configuration, IsConsistent, KernelPart, as_sealed, world_of};
ghost use Rattle.world_history.specs.Locality.{asks_locally, local};
ghost use Rattle.world_history.specs.Moves.{client_of};
ghost use Rattle.world_history.specs.Participants.{is_kernels};
ghost use Rattle.world_history.specs.Parts.{IsAwayBy, client_by, kernel_by};
ghost use Rattle.world_history.specs.Together.{AllTogether, Every, HasTurnsOf, HaveOneRun, HaveWholeRun, MayBeSaid, PartMoves, Together, client_part, configuration_by, kernel_part, region_part, with_move};

/// Parts that list moves of one history have one run of the file tree, in which the turns of each client among them are those of its
/// list, behind what it saw.
pub fn parts_together_have_one_run()
    ensures { (s : Configuration) (parts : List PartMoves) → IsCoherent (world_of s) → Together s parts → HaveOneRun s parts }
{}

/// If the kernel and all clients do, that run leads from the opening that they list to the tree of what they make by their lists, and has
/// no other turns; and what they make is consistent.
pub fn all_parts_together_have_the_whole_run()
    ensures run { (s : Configuration) (ks : List Move) (ms : ℕ → List Move) → IsCoherent (world_of s) → AllTogether s ks ms → HaveWholeRun s ks ms }
    ensures consistent { (s : Configuration) (ks : List Move) (ms : ℕ → List Move) → IsConsistent s → AllTogether s ks ms → IsConsistent (configuration_by s ks ms) }
{}

/// They stay together as a move is said that may follow every history of which they list their moves, and as one of them leaves. What
/// some may say, these and another one may.
pub fn said_move_keeps_parts_together()
    ensures said { (s : Configuration) (parts : List PartMoves) (m : Move) → Together s parts → MayBeSaid s parts m → Together s (map (with_move m) parts) }
    ensures fewer { (s : Configuration) (p : PartMoves) (parts : List PartMoves) → Together s (p ∷ parts) → Together s parts }
    ensures more { (s : Configuration) (p : PartMoves) (parts : List PartMoves) (m : Move) → MayBeSaid s parts m → MayBeSaid s (p ∷ parts) m }
{}

/// A client, with the kernel if that takes part, may say what may follow by what their own lists make of them. A client may give a lease
/// if no record of its list touches the inode, and join by its list alone; and the kernel may reclaim a file by its own.
pub fn client_and_kernel_may_say()
    ensures client { (s : Configuration) (c : ℕ) (ms : List Move) (k : KernelPart) (m : Move) → asks_locally m ≡ true → is_kernels m ≡ false → client_of m ≡ c → MayFollow (local k (client_by s c ms)) m → MayBeSaid s (client_part c ms ∷ []) m }
    ensures both { (s : Configuration) (c : ℕ) (ms ks : List Move) (m : Move) → asks_locally m ≡ true → client_of m ≡ c → MayFollow (local (kernel_by s ks) (client_by s c ms)) m → MayBeSaid s (client_part c ms ∷ kernel_part ks ∷ []) m }
    ensures gives { (s : Configuration) (c i : ℕ) (ms : List Move) → is_client c ≡ true → (client_by s c ms).begun ≡ None → is_written i ((client_by s c ms).sealed ++ (client_by s c ms).current) ≡ false → MayBeSaid s (client_part c ms ∷ []) (Gave c i) }
    ensures joins { (s : Configuration) (c mark : ℕ) (ms : List Move) (k : KernelPart) → IsCoherent (world_of s) → MayFollow (local k (client_by s c ms)) (Joined c mark) → MayBeSaid s (client_part c ms ∷ []) (Joined c mark) }
    ensures reclaims { (s : Configuration) (i : ℕ) (ks : List Move) → (kernel_by s ks).failed_digest ≡ None → CanReclaim (kernel_by s ks).machine.kernel i → MayBeSaid s (kernel_part ks ∷ []) (Reclaimed i) }
{}

/// A region that is away may say that it is back once all its records are digested, and it and the kernel that it is accepted, that
/// records of it are digested, and that a device failed in it, by what their own lists make of them.
pub fn region_and_kernel_may_say()
    ensures back { (s : Configuration) (c : ℕ) (ms : List Move) (a : AwayRegion) → IsAwayBy s c ms a → a.digested ≡ length a.records → MayBeSaid s (region_part c ms ∷ []) (TookBack c) }
    ensures accepted { (s : Configuration) (c : ℕ) (ms ks : List Move) (a : AwayRegion) → IsAwayBy s c ms a → CanAccept (kernel_by s ks).machine c (as_sealed a) → MayBeSaid s (region_part c ms ∷ kernel_part ks ∷ []) (Accepted c (a.past + length a.records)) }
    ensures digested { (s : Configuration) (c : ℕ) (ms ks : List Move) (a : AwayRegion) (records rest : List Record) → IsAwayBy s c ms a → (kernel_by s ks).failed_digest ≡ None → CanDigestNext (kernel_by s ks).machine c (as_sealed a) records rest → MayBeSaid s (region_part c ms ∷ kernel_part ks ∷ []) (Digested c records) }
    ensures failed { (s : Configuration) (c : ℕ) (ms ks : List Move) (a : AwayRegion) (records rest : List Record) → IsAwayBy s c ms a → (kernel_by s ks).failed_digest ≡ None → CanDigestNext (kernel_by s ks).machine c (as_sealed a) records rest → MayBeSaid s (region_part c ms ∷ kernel_part ks ∷ []) (DigestFailed c records) }
{}

/// Clients among parts that are together may meet: they see turns in which those of each client are those of its list, behind what it
/// had seen before.
pub fn clients_may_meet()
    ensures { (s : Configuration) (parts : List PartMoves) (clients : List ℕ) → Together s parts → (seen : List Turn) × Together s (map (with_move (Met clients seen)) parts) × Every (HasTurnsOf s seen) parts }
{}
