//! What holds of every chunk and every digest.

ghost use Rattle.std.specs.Prelude.{◌≡◌, ◌≢◌, ℕ, ◌<◌, ◌≤◌, true, false, length, take};
ghost use Rattle.update_log.specs.file_graph.Graph.{is_among, settled_effects, touches};
ghost use Rattle.shared_area.specs.layout.Places.{Sizes};
ghost use Rattle.shared_area.specs.layout.declared.marks.Mark.{Mark};
ghost use Rattle.shared_area.specs.layout.declared.marks.Marks.{Marks};
ghost use Rattle.shared_area.specs.change_plan.Part.{IsTouchedBy};
ghost use Rattle.shared_area.specs.area_reader.Store.{Store, graph, slot};
ghost use Rattle.coalescer.specs.Records.{effects_in};
ghost use Rattle.digester.specs.Chunk.{IsChunkOf};
ghost use Rattle.digester.specs.DigestStep.{IsDigested};
ghost use Rattle.digester.specs.MarkMoves.{marks_after};
ghost use Rattle.digester.specs.SealedLog.{SealedView, StandsAt, done_to, undone, mark_then};
ghost use Rattle.digester.specs.declared.chunk.Chunk.{Chunk};

/// What records change that are digested tells the number of their digest, and every slot of what they don't touch is as it was. They change what they touch, but for a Swap of which a name
/// leads nowhere: that is nothing.
pub fn digest_touches_what_its_records_touch()
    ensures touched { (g : Sizes) (s : Store) (x : SealedView) (n : ℕ) (new : Store) (d : IsDigested g s x n new) (i : ℕ) → is_among i (touches (settled_effects (graph g s) (effects_in (take n (undone x))))) ≡ true → IsTouchedBy (marks_after d.before x.client (mark_then x n)).digests (slot g new i) }
    ensures others { (g : Sizes) (s : Store) (x : SealedView) (n : ℕ) (new : Store) → IsDigested g s x n new → (i : ℕ) → is_among i (touches (effects_in (take n (undone x)))) ≡ false → slot g new i ≡ slot g s i }
{}

/// A log stands where it stood while the mark of another client moves.
pub fn others_digest_leaves_a_log_standing()
    ensures { (x : SealedView) (v : Marks) (client : ℕ) (m : Mark) → 1 ≤ x.client → 1 ≤ client → client ≢ x.client → StandsAt x v → StandsAt x (marks_after v client m) }
{}

/// A chunk that was prepared stays a chunk of its log while records of the log are digested; whether it is still the next one is another question.
pub fn chunk_stays_a_chunk()
    ensures { (x : SealedView) (c : Chunk) (done : ℕ) → IsChunkOf x c → IsChunkOf (done_to done x) c }
{}
