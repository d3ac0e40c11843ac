//! What holds of every run of records.

ghost use Rattle.std.specs.Prelude.{◌≡◌, ◌<◌, ◌≤◌, ◌+◌, ℕ, List, true, false, length, take, get_or};
ghost use Rattle.std.specs.FinMap as fin;
ghost use Rattle.update_log.specs.file_graph.Graph.{Graph, after_effects, touches};
ghost use Rattle.update_log.specs.file_graph.Units.{charge};
ghost use Rattle.coalescer.specs.graph_change.Bounds.{AreBounded};
ghost use Rattle.coalescer.specs.graph_change.Change.{changed_graph};
ghost use Rattle.update_log.specs.log_record.declared.format.Record.{Record};
ghost use Rattle.shared_area.specs.call_effects.NodeView.{view_at};
ghost use Rattle.shared_area.specs.layout.declared.places.TheConstants.{MAX_IMAGES, SPARE_BLOCKS};
ghost use Rattle.coalescer.specs.declared.weight.TheConstants.{CHUNK_IMAGES, CHUNK_BLOCKS};
ghost use Rattle.coalescer.specs.Records.{effects_in};
ghost use Rattle.coalescer.specs.Weight.{fits_chunk};
ghost use Rattle.coalescer.specs.Within.{AreBlocksIn, images_of};
ghost use Rattle.shared_area.specs.record_validation.Good.{IsGood, KeepsLimits};
ghost use Rattle.digester.specs.RecordCover.{AreCovered, AreSameAt, units_of};
ghost use Rattle.digester.specs.Plan.{AreGood, Finds, IsFirstBad, NamesLeadToInodes, records_change};
ghost use Rattle.digester.specs.declared.record_test.Found.TheVariants as found;

/// What is counted for a chunk is there on the shared media: as many images as a batch takes, and as many data blocks as are spare.
pub fn a_chunk_is_a_batch()
    ensures images { CHUNK_IMAGES ≡ MAX_IMAGES }
    ensures blocks { CHUNK_BLOCKS ≡ SPARE_BLOCKS }
{}

/// The first bad record of some is bad over the graph as those before it leave it, and those are good; there is no other first one, and
/// none where all are good.
pub fn a_first_bad_record_is_the_only_one()
    ensures place { (held : List ℕ) (capacity : ℕ) (g : Graph) (rs : List Record) (k : ℕ) → IsFirstBad held capacity g rs k → k < length rs }
    ensures before { (held : List ℕ) (capacity : ℕ) (g : Graph) (rs : List Record) (k : ℕ) → IsFirstBad held capacity g rs k → AreGood held capacity g (take k rs) }
    ensures bad { (held : List ℕ) (capacity : ℕ) (g : Graph) (rs : List Record) (k : ℕ) (d : Record) → IsFirstBad held capacity g rs k → IsGood held capacity (after_effects g (effects_in (take k rs))) (get_or rs k d) → ⊥ }
    ensures alone { (held : List ℕ) (capacity : ℕ) (g : Graph) (rs : List Record) (k l : ℕ) → IsFirstBad held capacity g rs k → IsFirstBad held capacity g rs l → k ≡ l }
    ensures never { (held : List ℕ) (capacity : ℕ) (g : Graph) (rs : List Record) (k : ℕ) → IsFirstBad held capacity g rs k → AreGood held capacity g rs → ⊥ }
{}

/// Records that their client's leases cover and their units pay for are never bad, whatever was digested before them: that they are covered
/// depends on what they touch alone, and where the graph's charge and their units are within what there is, each of them is good; so no test of
/// the first of them finds a bad one.
pub fn covered_records_are_never_bad()
    ensures local { (held : List ℕ) (g h : Graph) (rs : List Record) → AreCovered held g rs → AreSameAt (touches (effects_in rs)) g h → AreCovered held h rs }
    ensures good { (held : List ℕ) (capacity : ℕ) (g : Graph) (rs : List Record) → AreCovered held g rs → charge g + units_of rs ≤ capacity → AreGood held capacity g rs }
    ensures never { (held : List ℕ) (capacity : ℕ) (g h : Graph) (rs : List Record) (n place : ℕ) → AreCovered held g rs → AreSameAt (touches (effects_in rs)) g h → charge h + units_of rs ≤ capacity → Finds held capacity h (take n rs) (found.FirstBad place) → ⊥ }
{}

/// What good records of one chunk come to on a graph is a change that the shared media take in one batch: it keeps to the limits of the format, where
/// the directories of the graph lead to inodes, with the image of the marks it has no more images than a batch, and it writes no more blocks than are
/// spare. Over the graph before them, each node that it changes keeps the limits, all others stay, and the graph after it costs no more than there is.
pub fn a_chunk_can_be_applied()
    ensures bounded { (held : List ℕ) (capacity : ℕ) (g : Graph) (rs : List Record) → NamesLeadToInodes g → AreGood held capacity g rs → AreBounded (records_change g rs) }
    ensures images { (g : Graph) (rs : List Record) → fits_chunk (effects_in rs) ≡ true → images_of (records_change g rs) ≤ 255 }
    ensures blocks { (g : Graph) (rs : List Record) (bs : List (ℕ × ℕ)) → fits_chunk (effects_in rs) ≡ true → AreBlocksIn (records_change g rs) bs → length bs ≤ SPARE_BLOCKS }
    ensures limits { (held : List ℕ) (capacity : ℕ) (g : Graph) (rs : List Record) (i : ℕ) → AreGood held capacity g rs → fin.contains_key (records_change g rs) i ≡ true → KeepsLimits (view_at (changed_graph (records_change g rs) g) i) }
    ensures others { (g : Graph) (rs : List Record) (i : ℕ) → fin.contains_key (records_change g rs) i ≡ false → changed_graph (records_change g rs) g i ≡ g i }
    ensures charge { (held : List ℕ) (capacity : ℕ) (g : Graph) (rs : List Record) → 0 < length rs → AreGood held capacity g rs → charge (changed_graph (records_change g rs) g) ≤ capacity }
{}
