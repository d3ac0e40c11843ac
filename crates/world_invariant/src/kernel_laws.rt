//! The steps of the shared graph. None of them changes the tree.

ghost use Rattle.std.specs.Prelude.{◌≡◌, ℕ, List, true, Some, None};
ghost use Rattle.posix_calls.specs.Operations.{is_client};
ghost use Rattle.posix_calls.specs.declared.descriptor.Descriptor.{Descriptor};
ghost use Rattle.call_effects.specs.file_graph.Graph.{set_node, after_effects};
ghost use Rattle.call_effects.specs.file_graph.Units.{charge};
ghost use Rattle.call_effects.specs.log_record.declared.format.Record.{Record};
ghost use Rattle.world_invariant.specs.Logs.{IsNameless};
ghost use Rattle.world_invariant.specs.World.{Begun, Kernel, World, whole_graph, world_state};
ghost use Rattle.world_invariant.specs.ClientSteps.{IsBegun, after_reply};
ghost use Rattle.world_invariant.specs.KernelSteps.{CanDigest, records_digested, CanReclaim, after_reclaim, IsMigrated, run_migrated};
ghost use Rattle.world_invariant.specs.Stop.{stored_graph};
ghost use Rattle.world_invariant.specs.Invariant.{IsCoherent};

/// The first undigested records of a sealed region go into the shared graph, with their mark, units and numbers: the whole is the
/// same, whatever else the clients have logged or begun.
pub fn records_may_be_digested()
    ensures holds { (w : World) (c : ℕ) (first rest : List Record) → IsCoherent w → CanDigest w c first rest → IsCoherent (records_digested w c first) }
    ensures whole { (w : World) (c : ℕ) (first rest : List Record) → IsCoherent w → CanDigest w c first rest → whole_graph (records_digested w c first) ≡ whole_graph w }
    ensures tree { (w : World) (c : ℕ) (first rest : List Record) → IsCoherent w → CanDigest w c first rest → world_state (records_digested w c first) ≡ world_state w }
{}

/// A file that has no name in the shared graph has none in the whole: no call gives a name to a file that has none, so no record that
/// is not digested does.
pub fn nameless_file_stays_nameless()
    ensures { (w : World) (i : ℕ) → IsCoherent w → IsNameless (w.kernel.shared i) → IsNameless (whole_graph w i) }
{}

/// A file that has no name in the shared graph, and that nobody has pinned, is reclaimed, also where a client has a lease on it or a
/// copy, or has records that are not digested.
pub fn unused_file_may_be_reclaimed()
    ensures holds { (w : World) (i : ℕ) → IsCoherent w → CanReclaim w.kernel i → IsCoherent (after_reclaim w i) }
    ensures whole { (w : World) (i : ℕ) → IsCoherent w → CanReclaim w.kernel i → whole_graph (after_reclaim w i) ≡ set_node (whole_graph w) i None }
    ensures tree { (w : World) (i : ℕ) → IsCoherent w → CanReclaim w.kernel i → world_state (after_reclaim w i) ≡ world_state w }
{}

/// A call that has begun its record stays begun while records are digested, its own client's too, and its answer makes of the whole
/// what it would have made before.
pub fn digest_leaves_begun_calls()
    ensures begun { (w : World) (c d : ℕ) (b : Begun) (first rest : List Record) → IsCoherent w → IsBegun w c b → CanDigest w d first rest → IsBegun (records_digested w d first) c b }
    ensures answered { (w : World) (c d : ℕ) (b : Begun) (first rest : List Record) → IsCoherent w → IsBegun w c b → CanDigest w d first rest → whole_graph (after_reply (records_digested w d first) c b) ≡ after_effects (whole_graph w) b.change.effects }
{}

/// A file that a client has open can't be reclaimed, also where it has lost its last name: it is pinned.
pub fn open_file_is_not_reclaimed()
    ensures { (w : World) (c n : ℕ) (o : Descriptor) → IsCoherent w → is_client c ≡ true → (w.clients c).knows.own n ≡ Some o → CanReclaim w.kernel o.inode → ⊥ }
{}

/// A run of a file's blocks is migrated: no node, no mark and nothing that was given moves, so all still holds, with the same charge, and
/// with the same tree now and after a stop.
pub fn run_may_be_migrated()
    ensures holds { (w : World) (after : Kernel) → IsCoherent w → IsMigrated w.kernel after → IsCoherent (run_migrated w after) }
    ensures whole { (w : World) (after : Kernel) → IsMigrated w.kernel after → whole_graph (run_migrated w after) ≡ whole_graph w }
    ensures tree { (w : World) (after : Kernel) → IsMigrated w.kernel after → world_state (run_migrated w after) ≡ world_state w }
    ensures charged { (before after : Kernel) → IsMigrated before after → charge after.shared ≡ charge before.shared }
    ensures stored { (w : World) (after : Kernel) (logs : ℕ → List Record) → IsMigrated w.kernel after → stored_graph (run_migrated w after) logs ≡ stored_graph w logs }
{}
