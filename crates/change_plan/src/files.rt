//! What a change makes of a file, as a part of one plan.

ghost use Rattle.std.specs.Prelude.{◌≡◌, ℕ, List, length, take};
ghost use Rattle.inode_plan.specs.graph_change.Bounds.{IsBounded};
ghost use Rattle.inode_plan.specs.graph_change.Change.{Change};
ghost use Rattle.inode_plan.specs.graph_change.Tidy.{IsTidyChange};
ghost use Rattle.inode_plan.specs.layout.declared.slot.Slot.{Slot};
ghost use Rattle.inode_plan.specs.layout.Places.{Sizes};
ghost use Rattle.block_alloc.specs.declared.runs.Run.{Run};
ghost use Rattle.inode_plan.specs.extent_tree.Map.{TierRuns};
ghost use Rattle.inode_plan.specs.extent_tree.declared.map.Place.{Place};
ghost use Rattle.inode_plan.specs.area_reader.Store.{Store, logical_block};
ghost use Rattle.inode_plan.specs.area_commit.declared.plan.FreedBlocks.{FreedBlocks};
ghost use Rattle.inode_plan.specs.area_commit.InodeChange.{places_from};
ghost use Rattle.inode_plan.specs.BlockWrites.{AreNumbers};
ghost use Rattle.inode_plan.specs.Bytes.{HoldsBlocks, blocks_from};
ghost use Rattle.inode_plan.specs.PlannedFile.{pairs_of};
ghost use Rattle.inode_plan.specs.Roots.{roots_wanted};
ghost use Rattle.inode_plan.specs.area_commit.Value.{PoolsView};
ghost use Rattle.inode_plan.specs.area_commit.declared.allocation.Allocation.{Allocation};
ghost use Rattle.change_plan.specs.Part.{Share, IsPart};
ghost use Rattle.change_plan.specs.PlanAddition.{HasTaken};
ghost use Rattle.change_plan.specs.File.{AreFreePlaces, AreFreeNodes, IsPlannedFile};
ghost use Rattle.change_plan.specs.FileStart.{IsPlacedFile, IsRootedFile, LosesFile};
ghost use Rattle.change_plan.specs.declared.file_place.PlacedFile.{PlacedFile};

/// What is planned of a file is its part of the plan of all.
pub fn planned_file_is_a_part()
    ensures { (g : Sizes) (s : Store) (c : Change) (touch i : ℕ) (x : Slot) (m : TierRuns) (share : Share) (bytes : List ℕ) (old new : List (ℕ × List ℕ)) (lost : FreedBlocks)
        → IsPlannedFile g s c touch i x m share bytes old new lost → IsPart g s c touch i x m share bytes old new lost }
{}

/// A file that has its places, its slot and what lists its extents, over blocks that were free, with the bytes of what is written and what it gives up, is planned.
pub fn placed_file_is_planned()
    ensures { (g : Sizes) (s : Store) (c : Change) (touch i : ℕ) (numbers : List ℕ) (places : List Place) (f : PlacedFile) (spare bytes : List ℕ) (old new : List (ℕ × List ℕ)) (x : Slot) (left : List Run) (lost : FreedBlocks)
        → IsTidyChange c → IsBounded c → AreNumbers (places_from g s i c.base) c numbers → length places ≡ length numbers → AreFreePlaces g s places → IsPlacedFile g s c i numbers places f
        → AreFreeNodes g s spare → length spare ≡ roots_wanted f.slot f.plan.lists → IsRootedFile c touch f spare old new x left → HoldsBlocks c (blocks_from f.found (logical_block g s i)) numbers (length numbers) bytes
        → LosesFile g s c.base i f left lost → IsPlannedFile g s c touch i x f.plan.map (record { nodes = spare; «data» = pairs_of places }) bytes old new lost }
{}

/// The blocks of the node pool that stand at the front of the pools, once others were taken, were free.
pub fn next_nodes_were_free()
    ensures { (g : Sizes) (s : Store) (left : PoolsView) (taken : Allocation) (count : ℕ) → HasTaken g s left taken → AreFreeNodes g s (take count left.nodes.free) }
{}
