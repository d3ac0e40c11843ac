//! What the bytes of a fresh area stand for.

ghost use Rattle.std.specs.Prelude.{◌≡◌, ℕ, Some};
ghost use Rattle.digester.specs.area_reader.Format.{IsOpenable};
ghost use Rattle.digester.specs.area_reader.Store.{store_of, graph, marks};
ghost use Rattle.digester.specs.batch_journal.Volume.{IsVolume};
ghost use Rattle.digester.specs.MarkMoves.{mark_of};
ghost use Rattle.recovery_laws.specs.Fresh.{no_marks, fresh_tiers};
ghost use Rattle.layout.specs.Places.{Sizes, IsAllowed};
ghost use Rattle.layout.specs.file_graph.Graph.{fresh};

use layout::{marks_are_read, slot_is_read, super_is_read};

/// A fresh area is a volume of its geometry that can be opened. It spells the graph of a root without entries, and marks by which each client stands at generation 0 with no record digested.
pub fn fresh_area_opens()
    ensures volume { (g : Sizes) → IsAllowed g → IsVolume g (fresh_tiers g) }
    ensures opens { (g : Sizes) → IsAllowed g → IsOpenable g (store_of (fresh_tiers g)) }
    ensures graph { (g : Sizes) → IsAllowed g → graph g (store_of (fresh_tiers g)) ≡ fresh }
    ensures marks { (g : Sizes) → IsAllowed g → marks (store_of (fresh_tiers g)) ≡ Some no_marks }
    ensures undigested { (c : ℕ) → mark_of no_marks c ≡ record { generation = 0; done = 0 } }
{
    super_is_read();
    slot_is_read();
    marks_are_read();
}
