//! What holds of a directory once what was planned of it is written.

ghost use Rattle.std.specs.Prelude.{◌≡◌, ◌≢◌, ◌⊎◌, ◌↔◌, ◌++◌, ℕ, List, map, Option, Some, IsSome, true};
ghost use Rattle.std.specs.List.{Contains};
ghost use Rattle.tier_device.specs.declared.media.Tier.{Tier};
ghost use Rattle.tier_device.specs.declared.media.Tier.TheVariants.{Fast};
ghost use Rattle.area_commit.specs.graph_change.Change.{Change};
ghost use Rattle.area_commit.specs.layout.Places.{Sizes, is_node};
ghost use Rattle.area_commit.specs.batch_journal.Images.{image_for, with_images};
ghost use Rattle.block_alloc.specs.Runs.{blocks_of};
ghost use Rattle.block_alloc.specs.Value.{FreeBlocks};
ghost use Rattle.area_commit.specs.extent_tree.Map.{runs_in};
ghost use Rattle.area_commit.specs.area_reader.Store.{Store, root_of};
ghost use Rattle.area_commit.specs.area_reader.Format.{used_block};
ghost use Rattle.area_commit.specs.InodeRewrite.{IsFit, IsListed, block_by};
ghost use Rattle.area_commit.specs.InodeChange.{IsDirectoryWritten};
ghost use Rattle.area_commit.specs.Release.{AreUsed, IsInUse};
ghost use Rattle.block_alloc.specs.declared.runs.Run.{Run};
ghost use Rattle.area_commit.specs.graph_change.Bounds.{IsBounded};
ghost use Rattle.inode_plan.specs.Blocks.{AreSound, use_of, root_blocks, one_block};
ghost use Rattle.inode_plan.specs.Spare.{CanBeWritten};
ghost use Rattle.inode_plan.specs.DirectoryStart.{use_from, IsSoundStart, IsChanged};
ghost use Rattle.inode_plan.specs.declared.blocks.DirectoryBlocks.{DirectoryBlocks};
ghost use Rattle.inode_plan.specs.PlannedDirectory.{IsPlannedFrom, StandThere, on_fast};
ghost use Rattle.inode_plan.specs.declared.directory_start.StartedDirectory.{StartedDirectory};
ghost use Rattle.inode_plan.specs.declared.directory_change.ChangedDirectory.{ChangedDirectory};
ghost use Rattle.inode_plan.specs.declared.plan.DirectoryPlan.{DirectoryPlan};

/// A directory that was sound, and is changed by what tells no number past its limit, can be written.
pub fn changed_directory_can_be_written()
    ensures { (g : Sizes) (c : Change) (start : StartedDirectory) (x : ChangedDirectory) → IsBounded c → IsSoundStart g start → IsChanged c start x → CanBeWritten g x }
{}

/// A directory whose node goes gives up exactly the blocks that it had a use for; they can be given to the pool in which they are in use.
pub fn gone_directory_gives_all()
    ensures exact { (x : DirectoryBlocks) (runs : List Run) → runs ≡ map one_block (x.places.items ++ root_blocks x.root) → (p : ℕ) → Contains (blocks_of runs) p ↔ ((k : Option ℕ) × (use_of x Fast k ≡ Some (Fast, p))) }
    ensures given { (g : Sizes) (x : DirectoryBlocks) (runs : List Run) (pool : FreeBlocks) → AreSound g x → runs ≡ map one_block (x.places.items ++ root_blocks x.root) → ((k : Option ℕ) (b : ℕ) → use_of x Fast k ≡ Some (Fast, b) → IsInUse pool b) → AreUsed pool runs }
{}

/// What is planned of a directory keeps the limits of the format, each list stands in its block once the images do, and in every store where they stand the directory is written as the
/// change makes it.
pub fn planned_directory_is_written()
    ensures fit { (g : Sizes) (s : Store) (c : Change) (i touch : ℕ) (start : StartedDirectory) (x : ChangedDirectory) (spares : List ℕ) (old new : List (ℕ × List ℕ)) (plan : DirectoryPlan) → IsPlannedFrom g s c i start x touch spares old new plan → IsFit g plan.slot (on_fast plan.list.extents) }
    ensures listed { (g : Sizes) (s : Store) (c : Change) (i touch : ℕ) (start : StartedDirectory) (x : ChangedDirectory) (spares : List ℕ) (old new : List (ℕ × List ℕ)) (plan : DirectoryPlan) → IsPlannedFrom g s c i start x touch spares old new plan → (t : Tier) → IsListed (with_images new (s Fast)) i (root_of plan.slot t) (runs_in (on_fast plan.list.extents) t) }
    ensures written { (g : Sizes) (s : Store) (c : Change) (i touch : ℕ) (start : StartedDirectory) (x : ChangedDirectory) (spares : List ℕ) (old new : List (ℕ × List ℕ)) (plan : DirectoryPlan) → IsPlannedFrom g s c i start x touch spares old new plan → (after : Store) → StandThere new s after (on_fast plan.list.extents) → IsDirectoryWritten g c start.entries x.entries s after i plan.slot (on_fast plan.list.extents) }
{}

/// Each block of a planned directory is one of the node pool that it had for the same use, or a spare one, and has one use; each spare block has one, and an image; and there are images
/// for its own blocks alone.
pub fn planned_blocks_are_kept_or_spare()
    ensures kept { (g : Sizes) (s : Store) (c : Change) (i touch : ℕ) (start : StartedDirectory) (x : ChangedDirectory) (spares : List ℕ) (old new : List (ℕ × List ℕ)) (plan : DirectoryPlan) → IsPlannedFrom g s c i start x touch spares old new plan → (t : Tier) (k : Option ℕ) (b : Tier × ℕ) → block_by plan.slot (on_fast plan.list.extents) t k ≡ Some b → (use_from c.base (used_block g s (record { inode = i; tier = t; logical = k })) ≡ Some b) ⊎ ((b.0 ≡ Fast) × Contains spares b.1) }
    ensures once { (g : Sizes) (s : Store) (c : Change) (i touch : ℕ) (start : StartedDirectory) (x : ChangedDirectory) (spares : List ℕ) (old new : List (ℕ × List ℕ)) (plan : DirectoryPlan) → IsPlannedFrom g s c i start x touch spares old new plan → (t u : Tier) (j k : Option ℕ) (b : Tier × ℕ) → block_by plan.slot (on_fast plan.list.extents) t j ≡ Some b → block_by plan.slot (on_fast plan.list.extents) u k ≡ Some b → (t ≡ u) × (j ≡ k) }
    ensures all { (g : Sizes) (s : Store) (c : Change) (i touch : ℕ) (start : StartedDirectory) (x : ChangedDirectory) (spares : List ℕ) (old new : List (ℕ × List ℕ)) (plan : DirectoryPlan) → IsPlannedFrom g s c i start x touch spares old new plan → (p : ℕ) → Contains spares p → (k : Option ℕ) × (block_by plan.slot (on_fast plan.list.extents) Fast k ≡ Some (Fast, p)) }
    ensures images { (g : Sizes) (s : Store) (c : Change) (i touch : ℕ) (start : StartedDirectory) (x : ChangedDirectory) (spares : List ℕ) (old new : List (ℕ × List ℕ)) (plan : DirectoryPlan) → IsPlannedFrom g s c i start x touch spares old new plan → (p : ℕ) → ((k : Option ℕ) → block_by plan.slot (on_fast plan.list.extents) Fast k ≢ Some (Fast, p)) → image_for p new ≡ image_for p old }
    ensures imaged { (g : Sizes) (s : Store) (c : Change) (i touch : ℕ) (start : StartedDirectory) (x : ChangedDirectory) (spares : List ℕ) (old new : List (ℕ × List ℕ)) (plan : DirectoryPlan) → IsPlannedFrom g s c i start x touch spares old new plan → (p : ℕ) → Contains spares p → IsSome (image_for p new) }
    ensures nodes { (g : Sizes) (s : Store) (c : Change) (i touch : ℕ) (start : StartedDirectory) (x : ChangedDirectory) (spares : List ℕ) (old new : List (ℕ × List ℕ)) (plan : DirectoryPlan) → IsPlannedFrom g s c i start x touch spares old new plan → (t : Tier) (k : Option ℕ) (b : Tier × ℕ) → block_by plan.slot (on_fast plan.list.extents) t k ≡ Some b → (b.0 ≡ Fast) × (is_node g b.1 ≡ true) }
{}

/// A planned directory gives up exactly the blocks that it had a use for and has none; it had blocks of the node pool alone, and each that it has for the same use no more is given up.
/// They can be given to the pool in which they are in use.
pub fn planned_losses_are_exact()
    ensures exact { (g : Sizes) (s : Store) (c : Change) (i touch : ℕ) (start : StartedDirectory) (x : ChangedDirectory) (spares : List ℕ) (old new : List (ℕ × List ℕ)) (plan : DirectoryPlan) → IsPlannedFrom g s c i start x touch spares old new plan → (p : ℕ) → Contains (blocks_of plan.lost.items) p ↔ (((k : Option ℕ) × (use_from c.base (used_block g s (record { inode = i; tier = Fast; logical = k })) ≡ Some (Fast, p))) × ((k : Option ℕ) → block_by plan.slot (on_fast plan.list.extents) Fast k ≢ Some (Fast, p))) }
    ensures had { (g : Sizes) (s : Store) (c : Change) (i touch : ℕ) (start : StartedDirectory) (x : ChangedDirectory) (spares : List ℕ) (old new : List (ℕ × List ℕ)) (plan : DirectoryPlan) → IsPlannedFrom g s c i start x touch spares old new plan → (t : Tier) (k : Option ℕ) (b : Tier × ℕ) → use_from c.base (used_block g s (record { inode = i; tier = t; logical = k })) ≡ Some b → (b.0 ≡ Fast) × (is_node g b.1 ≡ true) }
    ensures each { (g : Sizes) (s : Store) (c : Change) (i touch : ℕ) (start : StartedDirectory) (x : ChangedDirectory) (spares : List ℕ) (old new : List (ℕ × List ℕ)) (plan : DirectoryPlan) → IsPlannedFrom g s c i start x touch spares old new plan → (t : Tier) (k : Option ℕ) (b : Tier × ℕ) → use_from c.base (used_block g s (record { inode = i; tier = t; logical = k })) ≡ Some b → block_by plan.slot (on_fast plan.list.extents) t k ≢ Some b → Contains (blocks_of plan.lost.items) b.1 }
    ensures given { (g : Sizes) (s : Store) (c : Change) (i touch : ℕ) (start : StartedDirectory) (x : ChangedDirectory) (spares : List ℕ) (old new : List (ℕ × List ℕ)) (plan : DirectoryPlan) (p : FreeBlocks) → IsPlannedFrom g s c i start x touch spares old new plan → ((k : Option ℕ) (b : ℕ) → use_from c.base (used_block g s (record { inode = i; tier = Fast; logical = k })) ≡ Some (Fast, b) → IsInUse p b) → AreUsed p plan.lost.items }
{}
