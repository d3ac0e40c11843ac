//! What holds of a file that is written for a change.

ghost use Rattle.std.specs.Prelude.{◌≡◌, ◌≢◌, ◌≤◌, ◌<◌, ◌+◌, ◌-◌, ◌/◌, ◌⊎◌, ◌↔◌, ℕ, List, length, get_or, Some, true};
ghost use Rattle.std.specs.List.{Contains};
ghost use Rattle.posix_calls.specs.declared.limits.TheConstants.{MAX_FILE};
ghost use Rattle.tier_device.specs.declared.media.Tier.{Tier};
ghost use Rattle.area_commit.specs.file_graph.declared.effect.Kind.TheVariants as kind;
ghost use Rattle.area_commit.specs.layout.declared.places.TheConstants.{BLOCK};
ghost use Rattle.area_commit.specs.layout.declared.slot.Slot.{Slot};
ghost use Rattle.area_commit.specs.layout.declared.geometry.Space.TheVariants as space;
ghost use Rattle.area_commit.specs.layout.Places.{Sizes};
ghost use Rattle.area_commit.specs.layout.Slot.{fits_slot};
ghost use Rattle.area_commit.specs.batch_journal.Blocks.{Blocks};
ghost use Rattle.area_commit.specs.extent_tree.Normal.{IsNormal};
ghost use Rattle.area_commit.specs.extent_tree.BlockFormat.{LiesWithin, IsOneToOne};
ghost use Rattle.area_commit.specs.extent_tree.Map.{TierRuns, runs_in, lies_at, LieOnce, LieBelow};
ghost use Rattle.area_commit.specs.extent_tree.declared.map.Place.{Place};
ghost use Rattle.area_commit.specs.graph_change.Bytes.{length_after, end};
ghost use Rattle.area_commit.specs.graph_change.Net.{Kept, names_after};
ghost use Rattle.area_commit.specs.graph_change.Change.{Change};
ghost use Rattle.area_commit.specs.graph_change.Tidy.{IsTidyChange};
ghost use Rattle.area_commit.specs.tree_blocks.After.{start_node};
ghost use Rattle.area_commit.specs.area_reader.Store.{Store, root_of, logical_block, inode};
ghost use Rattle.area_commit.specs.area_reader.declared.tiers.InodeExtents.{InodeExtents};
ghost use Rattle.area_commit.specs.InodeRewrite.{IsFit, IsListed};
ghost use Rattle.area_commit.specs.InodeChange.{IsFileSlot, IsFileWritten};
ghost use Rattle.inode_plan.specs.Lists.{AreListsOf, roots_left};
ghost use Rattle.inode_plan.specs.PlacedFile.{nth_place, nth_number};
ghost use Rattle.inode_plan.specs.BlockWrites.{AreNumbers};
ghost use Rattle.inode_plan.specs.Bytes.{HoldsBlocks};
ghost use Rattle.inode_plan.specs.MapChange.{IsMapAfter, AreFresh, AreData, AreLeft, KeepsPlace, TakesPlace};
ghost use Rattle.inode_plan.specs.PlannedFile.{StartsFrom, HasData};
ghost use Rattle.inode_plan.specs.Roots.{roots_wanted, HasRootsOf, SparesFit, ListsStand};

/// Each block of a changed file lies where it lay, or in the place of its number. Where no logical block lay in two tiers, or at or behind the end of the file, or in the place of
/// another, and each where a file's data may, so it is after the change, if the new places are free, each of its own, and blocks for data.
pub fn changed_map_is_fit()
    ensures uses { (c : Change) (numbers : List ℕ) (places : List Place) (old new : TierRuns) → AreNumbers (lies_at old) c numbers → IsMapAfter c numbers places old new → (t : Tier) (k p : ℕ) → lies_at new t k ≡ Some p → KeepsPlace c old t k p ⊎ TakesPlace numbers places t k p }
    ensures once { (c : Change) (numbers : List ℕ) (places : List Place) (old new : TierRuns) → AreNumbers (lies_at old) c numbers → IsMapAfter c numbers places old new → LieOnce old → LieOnce new }
    ensures below { (c : Change) (numbers : List ℕ) (places : List Place) (old new : TierRuns) (size : ℕ) → AreNumbers (lies_at old) c numbers → IsMapAfter c numbers places old new → IsTidyChange c → LieBelow ((size + (BLOCK - 1)) / BLOCK) old → LieBelow ((length_after c.length size + (BLOCK - 1)) / BLOCK) new }
    ensures apart { (c : Change) (numbers : List ℕ) (places : List Place) (old new : TierRuns) → AreNumbers (lies_at old) c numbers → IsMapAfter c numbers places old new → AreFresh places (length numbers) old → ((t : Tier) → IsOneToOne (runs_in old t)) → (t : Tier) → IsOneToOne (runs_in new t) }
    ensures within { (g : Sizes) (c : Change) (numbers : List ℕ) (places : List Place) (old new : TierRuns) → AreNumbers (lies_at old) c numbers → IsMapAfter c numbers places old new → IsTidyChange c → end c.length ≤ MAX_FILE → AreData g places (length numbers) → ((t : Tier) → LiesWithin g (space.Data t) (runs_in old t)) → (t : Tier) → LiesWithin g (space.Data t) (runs_in new t) }
{}

/// What the blocks of a changed file leave is exactly what some block of it lay in, and none lies in any more.
pub fn left_places_are_lost()
    ensures { (c : Change) (numbers : List ℕ) (places : List Place) (old new : TierRuns) (t : Tier) (left : List ℕ) (p : ℕ) → AreNumbers (lies_at old) c numbers → IsMapAfter c numbers places old new → AreFresh places (length numbers) old → IsOneToOne (runs_in old t) → AreLeft c old t left → Contains left p ↔ ((k : ℕ) × (lies_at old t k ≡ Some p) × ((j : ℕ) → lies_at new t j ≡ Some p → ⊥)) }
{}

/// A file whose slot tells its new names and size and whose blocks lie so is written for the change in each store where the bytes of the written blocks stand in their places, and
/// what its blocks held before stands as it did.
pub fn planned_file_is_written()
    ensures { (g : Sizes) (c : Change) (old new : Store) (i : ℕ) (x : Slot) (before after : TierRuns) (numbers : List ℕ) (places : List Place) (bytes : List ℕ)
        → (start_node c.base (inode g old i)).kind ≡ Some kind.File → IsFileSlot (names_after c.names (start_node c.base (inode g old i)).names) (length_after c.length (start_node c.base (inode g old i)).size) x
        → StartsFrom g old i c.base before → LieOnce before → AreNumbers (lies_at before) c numbers → IsMapAfter c numbers places before after → length numbers ≤ length places
        → HoldsBlocks c (start_node c.base (inode g old i)).blocks numbers (length numbers) bytes → HasData g c.base old new i places bytes → IsFileWritten g c old new i x after }
{}

/// The blocks that a change of a file that is there starts from are those of the inode, which `read_changed` reads.
pub fn kept_file_starts_from_its_blocks()
    ensures { (g : Sizes) (s : Store) (i : ℕ) → (inode g s i).kind ≡ Some kind.File → (start_node Kept (inode g s i)).blocks ≡ logical_block g s i }
{}

/// Slot and runs of a planned file keep the limits of the format, where the runs are as the plan tells.
pub fn planned_file_is_fit()
    ensures { (g : Sizes) (c : Change) (names size : ℕ) (x : Slot) (numbers : List ℕ) (places : List Place) (old new : TierRuns)
        → fits_slot g x ≡ true → IsFileSlot names (length_after c.length size) x → IsTidyChange c → end c.length ≤ MAX_FILE → AreNumbers (lies_at old) c numbers → IsMapAfter c numbers places old new → ((t : Tier) → IsNormal (runs_in new t))
        → AreFresh places (length numbers) old → AreData g places (length numbers) → LieOnce old → LieBelow ((size + (BLOCK - 1)) / BLOCK) old → ((t : Tier) → IsOneToOne (runs_in old t)) → ((t : Tier) → LiesWithin g (space.Data t) (runs_in old t)) → IsFit g x new }
{}

/// In each tier the block that the slot names lists the runs, where it has the image of the extents there, and there is none where there are none. Each such block is the one that
/// the old slot named there, or one of the spare ones, and each spare one is named. No block is named for two tiers, where the slot keeps the limits; and those that listed some, and
/// that the slot names no more where they were, are the ones that are left.
pub fn planned_roots_list_the_runs()
    ensures listed { (g : Sizes) (fast : Blocks) (i : ℕ) (m : TierRuns) (x : InodeExtents) (spare : List ℕ) (old new : Slot) → AreListsOf i m x → HasRootsOf x spare old new → SparesFit g old spare → length spare ≡ roots_wanted old x → ListsStand fast new x → (t : Tier) → IsListed fast i (root_of new t) (runs_in m t) }
    ensures uses { (x : InodeExtents) (spare : List ℕ) (old new : Slot) (t : Tier) → HasRootsOf x spare old new → length spare ≡ roots_wanted old x → root_of new t ≢ 0 → (root_of new t ≡ root_of old t) ⊎ Contains spare (root_of new t) }
    ensures all { (x : InodeExtents) (spare : List ℕ) (old new : Slot) (n : ℕ) → HasRootsOf x spare old new → length spare ≡ roots_wanted old x → n < length spare → (t : Tier) × (root_of new t ≡ get_or spare n 0) }
    ensures once { (g : Sizes) (new : Slot) (t u : Tier) → fits_slot g new ≡ true → root_of new t ≢ 0 → root_of new t ≡ root_of new u → t ≡ u }
    ensures left { (x : InodeExtents) (spare : List ℕ) (old new : Slot) (k : ℕ) → HasRootsOf x spare old new → Contains (roots_left old new) k ↔ ((t : Tier) × (root_of old t ≢ 0) × (root_of old t ≡ k) × (root_of new t ≢ k)) }
{}
