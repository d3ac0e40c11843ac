//! Why the order of digests can't be seen.

ghost use Rattle.std.specs.Prelude.{◌≡◌, ◌≢◌, ℕ, List};
ghost use Rattle.posix_calls.specs.declared.limits.TheConstants.{MAX_CLIENTS};
ghost use Rattle.call_effects.specs.file_graph.Graph.{Graph};
ghost use Rattle.call_effects.specs.log_record.declared.format.Record.{Record};
ghost use Rattle.world_invariant.specs.Logs.{after_clients, after_each, LogsAreApart, IsOrder};
ghost use Rattle.world_invariant.specs.World.{World, log_of, all_of};
ghost use Rattle.world_invariant.specs.KernelSteps.{CanDigest, records_digested};
ghost use Rattle.world_invariant.specs.Invariant.{IsCoherent};

/// The records of different clients write no inode in common, the begun ones among them; so in whatever order of the clients they
/// come, the graph is the same.
pub fn clients_records_commute()
    ensures apart { (w : World) → IsCoherent w → LogsAreApart (log_of w) }
    ensures begun_apart { (w : World) → IsCoherent w → LogsAreApart (all_of w) }
    ensures same { (logs : ℕ → List Record) (g : Graph) (cs : List ℕ) → LogsAreApart logs → IsOrder cs → after_each logs g cs ≡ after_clients logs g MAX_CLIENTS }
{}

/// So digests of two clients commute: each may be taken after the other, and the world is the same in either order.
pub fn digests_commute()
    ensures still { (w : World) (c d : ℕ) (first rest second more : List Record) → d ≢ c → CanDigest w c first rest → CanDigest w d second more → CanDigest (records_digested w c first) d second more }
    ensures same { (w : World) (c d : ℕ) (first rest second more : List Record) → IsCoherent w → d ≢ c → CanDigest w c first rest → CanDigest w d second more → records_digested (records_digested w c first) d second ≡ records_digested (records_digested w d second) c first }
{}
