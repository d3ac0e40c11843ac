//! What a move asks is asked of those who take part in it.

ghost use Rattle.std.specs.Prelude.{◌≡◌, ◌+◌, ◌++◌, ℕ, List, length, true, false, None};
ghost use Rattle.posix_calls.specs.Operations.{is_client};
ghost use Rattle.world_invariant.specs.Invariant.{IsCoherent};
ghost use Rattle.world_invariant.specs.Logs.{is_written};
ghost use Rattle.world_invariant.specs.Machine.{CanAccept, CanDigestNext};
ghost use Rattle.world_invariant.specs.log_record.declared.format.Record.{Record};
ghost use Rattle.world_history.specs.declared.moves.Move.{Move};
ghost use Rattle.world_history.specs.declared.moves.Move.TheVariants.{Accepted, DigestFailed, Digested, Gave, Joined, TookBack};
ghost use Rattle.world_history.specs.Conditions.{IsGoing, MayFollow};
ghost use Rattle.world_history.specs.Configuration.{AwayRegion, Configuration, KernelPart, as_sealed, world_of};
ghost use Rattle.world_history.specs.Locality.{IsLocal, asks_locally, local};
ghost use Rattle.world_history.specs.Parts.{IsAwayIn};

/// A move that asks nothing of others' leases, of a region that is away, of a mark or of the turns so far may follow if its client, and
/// the kernel if that takes part, say so by themselves. A lease may be given if the client's own records, digested or not, don't touch
/// its inode; and a new client may join by what its seat alone says.
pub fn move_asks_its_client_and_the_kernel()
    ensures local { (m : Move) → asks_locally m ≡ true → IsLocal m }
    ensures gave { (s : Configuration) (c i : ℕ) → is_client c ≡ true → (s.clients c).begun ≡ None → is_written i ((s.clients c).sealed ++ (s.clients c).current) ≡ false → MayFollow s (Gave c i) }
    ensures joined { (s : Configuration) (k : KernelPart) (c mark : ℕ) → IsCoherent (world_of s) → MayFollow (local k (s.clients c)) (Joined c mark) → MayFollow s (Joined c mark) }
{}

/// A region that is away is taken back if its own part says that all its records are digested. It is accepted and digested by what it
/// and the kernel say.
pub fn move_asks_its_region_and_the_kernel()
    ensures took_back { (s : Configuration) (c : ℕ) (a : AwayRegion) → IsAwayIn s c a → a.digested ≡ length a.records → MayFollow s (TookBack c) }
    ensures accepted { (s : Configuration) (c : ℕ) (a : AwayRegion) → IsAwayIn s c a → CanAccept s.kernel.machine c (as_sealed a) → MayFollow s (Accepted c (a.past + length a.records)) }
    ensures digested { (s : Configuration) (c : ℕ) (a : AwayRegion) (records rest : List Record) → IsAwayIn s c a → IsGoing s → CanDigestNext s.kernel.machine c (as_sealed a) records rest → MayFollow s (Digested c records) }
    ensures digest_failed { (s : Configuration) (c : ℕ) (a : AwayRegion) (records rest : List Record) → IsAwayIn s c a → IsGoing s → CanDigestNext s.kernel.machine c (as_sealed a) records rest → MayFollow s (DigestFailed c records) }
{}
