//! What holds of every list of effects.

ghost use Rattle.std.specs.Prelude.{◌≡◌, ◌≤◌, ◌+◌, ℕ, List, length, take, true, nat_eq, map, count_by};
ghost use Rattle.std.specs.List.{AllByRecursion};
ghost use Rattle.std.specs.Set.{distinct_count};
ghost use Rattle.std.specs.FinMap as fin;
ghost use Rattle.graph_change.specs.file_graph.declared.effect.Effect.{Effect};
ghost use Rattle.graph_change.specs.file_graph.Graph.{Graph, touches};
ghost use Rattle.graph_change.specs.Change.{coalesced_changes, subject};
ghost use Rattle.graph_change.specs.Swaps.{swapped_sum, told_change};
ghost use Rattle.log_record.specs.declared.format.Record.{Record};
ghost use Rattle.log_record.specs.Grammar.{IsRecord};
ghost use Rattle.coalescer.specs.declared.weight.TheConstants.{CHUNK_IMAGES, CHUNK_BLOCKS, ENTRY_WEIGHT, DATA_WEIGHT};
ghost use Rattle.coalescer.specs.Records.{effects_in};
ghost use Rattle.coalescer.specs.Weight.{is_entry, images, blocks, fits_chunk, IsLongestRun};
ghost use Rattle.coalescer.specs.Within.{AreEntriesIn, AreBlocksIn, images_of};

/// A change takes no more than its effects weigh. Without their Swaps it has as many inodes as they are on, of a Swap the first one, and
/// changes no more entries than they change. With what swapped names lead to on a graph, it has no more inodes than they touch, and
/// writes no more blocks than they write; with the image of the mark, it takes no more images of a batch than they do.
pub fn change_is_within_its_weight()
    ensures inodes { (es : List Effect) → fin.len (coalesced_changes es) ≡ distinct_count nat_eq (map subject es) }
    ensures entries { (es : List Effect) (ns : List (ℕ × List ℕ)) → AreEntriesIn (coalesced_changes es) ns → length ns ≤ count_by is_entry es }
    ensures swapped_inodes { (g : Graph) (es : List Effect) → fin.len (told_change g (swapped_sum es)) ≤ distinct_count nat_eq (touches es) }
    ensures blocks { (g : Graph) (es : List Effect) (bs : List (ℕ × ℕ)) → AreBlocksIn (told_change g (swapped_sum es)) bs → length bs ≤ blocks es }
    ensures images { (g : Graph) (es : List Effect) → images_of (told_change g (swapped_sum es)) + 1 ≤ images es }
{}

/// How much is taken at once, and what a changed entry and an effect on bytes weigh.
pub fn chunk_has_its_limits()
    ensures images { CHUNK_IMAGES ≡ 256 }
    ensures blocks { CHUNK_BLOCKS ≡ 512 }
    ensures entry { ENTRY_WEIGHT ≡ 2 }
    ensures bytes { DATA_WEIGHT ≡ 0 }
{}

/// Whatever the limits of the format let one record hold, it fits; so the longest run of a list of such records fits always, also where it
/// is a single one.
pub fn single_record_fits()
    ensures images { (r : Record) → IsRecord r → images r.effects ≤ 81 }
    ensures blocks { (r : Record) → IsRecord r → blocks r.effects ≤ 136 }
    ensures single { (r : Record) → IsRecord r → fits_chunk r.effects ≡ true }
    ensures run { (rs : List Record) (n : ℕ) → AllByRecursion IsRecord rs → IsLongestRun rs n → fits_chunk (effects_in (take n rs)) ≡ true }
{}
