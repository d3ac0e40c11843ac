// What inodes cost.
ghost use Rattle.std.specs.Prelude.{◌≡◌, ◌<◌, ◌^◌, ℕ};
ghost use Rattle.batch_journal.specs.layout.Places.{Sizes};
ghost use Rattle.batch_journal.specs.file_graph.Graph.{cost};
ghost use Rattle.area_reader.specs.Store.{Store, slot, graph};
ghost use Rattle.area_reader.specs.Format.{SpellsInode};
ghost use Rattle.area_reader.specs.Units.{slot_units};

use crate::slots::{entry_blocks, file_blocks};
use batch_journal::in_layout::Slot;

/// The units of an inode: one, and one for each logical block that it takes; none of a free slot.
pub fn units_of(slot: &Slot) -> u64
    ensures units { result ≡ slot_units slot.now }
    ensures small { result < 2 ^ 60 }
{
    match *slot {
        Slot::Free => 0,
        Slot::File { size, .. } => 1 + file_blocks(size),
        Slot::Directory { entries, .. } => 1 + entry_blocks(entries),
    }
}

/// What a sound inode costs is told by its slot.
pub fn slots_give_the_units()
    ensures { (g : Sizes) (s : Store) (i : ℕ) → SpellsInode g s i → cost (graph g s i) ≡ slot_units (slot g s i) }
{}
