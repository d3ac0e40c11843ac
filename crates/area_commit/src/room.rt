//! How many blocks are free.

ghost use Rattle.std.specs.Prelude.{◌≤◌, ◌<◌, ◌+◌, ◌*◌, ◌⊎◌, ℕ, length};
ghost use Rattle.area_reader.specs.file_graph.Units.{charge};
ghost use Rattle.area_reader.specs.layout.declared.places.TheConstants.{SPARE_BLOCKS};
ghost use Rattle.area_reader.specs.layout.Places.{Sizes, node_blocks};
ghost use Rattle.posix_calls.specs.declared.limits.TheConstants.{MAX_INODE};
ghost use Rattle.area_reader.specs.Store.{Store, graph};
ghost use Rattle.area_reader.specs.Format.{IsSpelled, KeepsUnits};
ghost use Rattle.area_commit.specs.Value.{PoolsView, free_data, HasRanges, AreFree};

/// Each data block is free, or there is a unit for it: no more of them are in use than the graph costs. So at least the spare blocks of the format are free where the graph
/// keeps the units, and one more for each unit that it does not cost.
pub fn data_never_runs_out()
    ensures used { (g : Sizes) (s : Store) (p : PoolsView) → IsSpelled g s → AreFree g s p → g.fast + g.block + g.slow ≤ length (free_data p) + charge (graph g s) }
    ensures unused { (g : Sizes) (s : Store) (p : PoolsView) → IsSpelled g s → AreFree g s p → g.units + SPARE_BLOCKS ≤ length (free_data p) + charge (graph g s) }
    ensures spare { (g : Sizes) (s : Store) (p : PoolsView) → IsSpelled g s → KeepsUnits g s → AreFree g s p → SPARE_BLOCKS ≤ length (free_data p) }
{}

/// Of the node pool no more blocks are in use than the graph costs and two for each inode, nor more than three for each unit of it: a file has three roots at most, a directory
/// one and its blocks of entries. So 2,048 blocks are free at least where the graph keeps the units: so many where each inode is a file of one unit with three roots.
pub fn nodes_never_run_out()
    ensures inodes { (g : Sizes) (s : Store) (p : PoolsView) → IsSpelled g s → AreFree g s p → node_blocks g ≤ length p.nodes.free + charge (graph g s) + 2 * MAX_INODE }
    ensures units { (g : Sizes) (s : Store) (p : PoolsView) → IsSpelled g s → AreFree g s p → node_blocks g ≤ length p.nodes.free + 3 * charge (graph g s) }
    ensures spare { (g : Sizes) (s : Store) (p : PoolsView) → IsSpelled g s → KeepsUnits g s → AreFree g s p → 2048 ≤ length p.nodes.free }
{}

/// A change that wants no more blocks than the format spares finds them, where the graph keeps the units: so it does with one more data block for each unit that the graph does
/// not cost. What is refused here is what `Pools::take` answers `NoBlock` for.
pub fn small_changes_find_blocks()
    ensures spare { (g : Sizes) (s : Store) (p : PoolsView) (nodes blocks : ℕ) → IsSpelled g s → KeepsUnits g s → AreFree g s p → nodes ≤ 2048 → blocks ≤ SPARE_BLOCKS → (length p.nodes.free < nodes) ⊎ (length (free_data p) < blocks) → ⊥ }
    ensures growing { (g : Sizes) (s : Store) (p : PoolsView) (nodes blocks : ℕ) → IsSpelled g s → KeepsUnits g s → AreFree g s p → nodes ≤ 2048 → charge (graph g s) + blocks ≤ g.units + SPARE_BLOCKS → (length p.nodes.free < nodes) ⊎ (length (free_data p) < blocks) → ⊥ }
{}
