//! What the records of a log give to a recovery.

ghost use Rattle.std.specs.Prelude.{◌≡◌, ◌≤◌, ◌+◌, ℕ, List, ◌++◌, true, take};
ghost use Rattle.std.specs.List.{AllByRecursion};
ghost use Rattle.posix_calls.specs.Operations.{is_client};
ghost use Rattle.layout.specs.file_graph.Graph.{Graph, is_among};
ghost use Rattle.layout.specs.file_graph.Units.{charge};
ghost use Rattle.update_log.specs.log_record.Grammar.{IsRecord};
ghost use Rattle.update_log.specs.log_record.declared.format.Record.{Record};
ghost use Rattle.digester.specs.Plan.{IsFirstBad};
ghost use Rattle.digester.specs.RecordCover.{AreCovered, units_of};
ghost use Rattle.world_invariant.specs.Limits.{AreWithin};
ghost use Rattle.world_invariant.specs.Logs.{is_written, ArePaid, KeepLimits};
ghost use Rattle.world_invariant.specs.Recovery.{IsRecoverable};
ghost use Rattle.recovery_laws.specs.Inodes.{HasEveryInode};

/// Records that are spelled and paid for, and keep a graph within the limits, are covered by whoever holds every inode that they write, also where they give a name to a file that has none.
pub fn paid_records_are_covered()
    ensures { (held : List ℕ) (g : Graph) (rs : List Record) → AreWithin g → AllByRecursion IsRecord rs → ((i : ℕ) → is_written i rs ≡ true → is_among i held ≡ true) → ArePaid g rs → KeepLimits g rs → AreCovered held g rs }
{}

/// Of what can be recovered the first records of each client's log, where they are spelled, are covered by whoever holds every inode, and their units are there. So a test of the first of them finds none bad;
/// once they are digested the same is so of what is left (`recovery_may_digest_records`).
pub fn recoverable_records_are_covered()
    ensures covered { (capacity : ℕ) (held : List ℕ) (g : Graph) (logs : ℕ → List Record) (c : ℕ) (first rest : List Record) → IsRecoverable capacity g logs → is_client c ≡ true → logs c ≡ first ++ rest → AllByRecursion IsRecord first → HasEveryInode held → AreCovered held g first }
    ensures charged { (capacity : ℕ) (g : Graph) (logs : ℕ → List Record) (c : ℕ) (first rest : List Record) → IsRecoverable capacity g logs → is_client c ≡ true → logs c ≡ first ++ rest → charge g + units_of first ≤ capacity }
    ensures never { (capacity : ℕ) (held : List ℕ) (g : Graph) (logs : ℕ → List Record) (c : ℕ) (first rest : List Record) (n k : ℕ) → IsRecoverable capacity g logs → is_client c ≡ true → logs c ≡ first ++ rest → AllByRecursion IsRecord first → HasEveryInode held → IsFirstBad held capacity g (take n first) k → ⊥ }
{}
