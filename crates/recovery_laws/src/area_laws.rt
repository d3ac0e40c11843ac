//! What a shared area gives to a recovery.

ghost use Rattle.layout.specs.Places.{Sizes};
ghost use Rattle.digester.specs.area_reader.Store.{Store, graph};
ghost use Rattle.digester.specs.area_reader.Format.{IsOpenable};
ghost use Rattle.world_invariant.specs.Limits.{AreWithin};

/// A medium that can be opened spells a graph within the limits: of each inode its number, its names and its bytes or entries, and of each entry its name and its inode number.
pub fn openable_area_is_within_limits()
    ensures { (g : Sizes) (s : Store) → IsOpenable g s → AreWithin (graph g s) }
{}
