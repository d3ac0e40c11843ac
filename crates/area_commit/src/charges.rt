//! What a graph costs where some inodes are rewritten.

ghost use Rattle.std.specs.Prelude.{◌≡◌, ◌+◌, ℕ, Bool, List, false, if◌then◌else◌};
ghost use Rattle.std.specs.List.{sum_by};
ghost use Rattle.posix_calls.specs.Tree.{sum_up_to};
ghost use Rattle.posix_calls.specs.declared.limits.TheConstants.{MAX_INODE};
ghost use Rattle.area_reader.specs.file_graph.Graph.{Graph, cost, is_among};
ghost use Rattle.area_reader.specs.file_graph.Units.{charge};
ghost use Rattle.area_reader.specs.layout.Places.{Sizes};
ghost use Rattle.area_reader.specs.Store.{Store, slot, inode, graph};
ghost use Rattle.area_reader.specs.Format.{IsSpelled};
ghost use Rattle.area_reader.specs.Units.{slot_units};
ghost use Rattle.area_reader.specs.Rewrites.{Rewrites};
ghost use Rattle.area_commit.specs.BlockExchange.{AreInodesOnce};

/// Where some inodes change, the charge falls by what they cost before, and rises by what they cost now. Of a store the slots tell what inodes cost.
pub fn charge_after_change()
    ensures graphs { (old new : Graph) (changed : List ℕ) → AreInodesOnce changed → ((i : ℕ) → is_among i changed ≡ false → cost (new i) ≡ cost (old i)) → charge old + sum_by (λ i. cost (new i)) changed ≡ charge new + sum_by (λ i. cost (old i)) changed }
    ensures stores { (g : Sizes) (old new : Store) (changed : List ℕ) → IsSpelled g old → IsSpelled g new → AreInodesOnce changed → ((i : ℕ) → is_among i changed ≡ false → inode g new i ≡ inode g old i) → charge (graph g old) + sum_by (λ i. slot_units (slot g new i)) changed ≡ charge (graph g new) + sum_by (λ i. slot_units (slot g old i)) changed }
    ensures rewritten { (g : Sizes) (rewritten : ℕ → Bool) (old new : Store) → IsSpelled g old → Rewrites g rewritten old new → charge (graph g old) + sum_up_to MAX_INODE (λ i. if rewritten i then slot_units (slot g new i) else 0) ≡ charge (graph g new) + sum_up_to MAX_INODE (λ i. if rewritten i then slot_units (slot g old i) else 0) }
{}
