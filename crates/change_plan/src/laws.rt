//! What holds of the plans of some inodes, and of all.

ghost use Rattle.std.specs.Prelude.{◌≡◌, ◌≤◌, ◌<◌, ◌+◌, ◌++◌, ◌∷◌, ℕ, List, [], Option, IfSome, true, false, length, min};
ghost use Rattle.std.specs.List.{Contains};
ghost use Rattle.std.specs.FinMap as fin;
ghost use Rattle.posix_calls.specs.declared.limits.TheConstants.{MAX_INODE};
ghost use Rattle.tier_device.specs.declared.media.Tier.{Tier};
ghost use Rattle.inode_plan.specs.graph_change.Change.{Change, Changes, change_at, changed_graph};
ghost use Rattle.inode_plan.specs.graph_change.Tidy.{AreTidyChanges};
ghost use Rattle.inode_plan.specs.layout.declared.slot.Slot.{Slot};
ghost use Rattle.inode_plan.specs.layout.Marks.{fits_marks};
ghost use Rattle.inode_plan.specs.layout.Places.{Sizes, IsAllowed, is_inode};
ghost use Rattle.inode_plan.specs.extent_tree.Map.{TierRuns};
ghost use Rattle.inode_plan.specs.area_reader.Store.{Store, graph, slot, place};
ghost use Rattle.inode_plan.specs.area_reader.Rewrites.{Rewrites};
ghost use Rattle.inode_plan.specs.area_reader.Format.{IsSpelled};
ghost use Rattle.inode_plan.specs.area_commit.declared.slots.ChangedSlot.{ChangedSlot};
ghost use Rattle.inode_plan.specs.area_commit.declared.plan.FreedBlocks.{FreedBlocks};
ghost use Rattle.inode_plan.specs.area_commit.declared.plan.Rewrite.{Rewrite};
ghost use Rattle.inode_plan.specs.area_commit.Plan.{WereFree, IsPlanned, is_rewritten};
ghost use Rattle.inode_plan.specs.area_commit.Allocations.{taken_data};
ghost use Rattle.inode_plan.specs.area_commit.PlanOutcome.{IsCarriedOut};
ghost use Rattle.change_plan.specs.FileLayout.{LeavesFile, AreFirstFree, GetPlaces, LieInPlaces, KeepsPlaces};
ghost use Rattle.change_plan.specs.Part.{Share, IsPart, IsTouchedBy};
ghost use Rattle.change_plan.specs.Parts.{AreParts, LoseBoth, HasFree, ShareNone, both, share_of, with_at};

use inode_plan::in_area_commit::{
    carried_out_inodes_are_written_anew, changed_store_spells_the_graph_after,
    written_directory_is_rewritten, written_file_is_rewritten, written_free_slot_is_inode_after,
    written_inode_is_read,
};
use inode_plan::in_area_reader::rewritten_inodes_are_spelled;

/// Before the first inode nothing is planned.
pub fn no_parts()
    ensures { (g : Sizes) (s : Store) (cs : Changes) (touch : ℕ) (x : ℕ → Slot) (m : ℕ → TierRuns) (lost : FreedBlocks) → lost.nodes.items ≡ [] → lost.fast.items ≡ [] → lost.block.items ≡ [] → lost.slow.items ≡ [] → AreParts g s cs touch x m [] (record { nodes = []; «data» = [] }) [] [] lost }
{}

/// The plan of one inode more, which is behind all that are planned, over a share of its own.
pub fn one_more_part()
    ensures { (g : Sizes) (s : Store) (cs : Changes) (touch i : ℕ) (x : ℕ → Slot) (m : ℕ → TierRuns) (slots : List ChangedSlot) (share its : Share) (bytes its_bytes : List ℕ) (old new : List (ℕ × List ℕ)) (lost its_lost all_lost : FreedBlocks) (its_slot : Slot) (its_runs : TierRuns)
        → IsSpelled g s → AreParts g s cs touch x m slots share bytes old lost → is_inode i ≡ true → ((c : ChangedSlot) → Contains slots c → c.inode < i) → HasFree g s share → HasFree g s its → ShareNone share its
        → IsPart g s (change_at cs i) touch i its_slot its_runs its its_bytes old new its_lost → LoseBoth lost its_lost all_lost
        → AreParts g s cs touch (with_at i its_slot x) (with_at i its_runs m) (slots ++ (record { inode = i; slot = its_slot } ∷ [])) (both share its) (bytes ++ its_bytes) new all_lost }
{}

/// The plans of all inodes, over all that was taken, are a plan that can be carried out.
pub fn parts_are_planned()
    ensures { (g : Sizes) (s : Store) (cs : Changes) (touch : ℕ) (x : ℕ → Slot) (m : ℕ → TierRuns) (plan : Rewrite)
        → AreParts g s cs touch x m plan.slots.items (share_of plan.taken) plan.bytes.items plan.nodes plan.lost → WereFree g s plan.taken → min (length plan.slots.items) 32 + length plan.nodes ≤ 255 → IfSome plan.marks (λ v. fits_marks v ≡ true) → IsPlanned g s x m plan }
{}

/// Where it is carried out, the store spells the graph after the change, and each slot that was written tells the digest that wrote it.
pub fn carried_out_change_is_the_graph_after()
    ensures spelled { (g : Sizes) (s : Store) (cs : Changes) (touch : ℕ) (x : ℕ → Slot) (m : ℕ → TierRuns) (plan : Rewrite) (new : Store)
        → IsAllowed g → IsSpelled g s → AreTidyChanges cs → AreParts g s cs touch x m plan.slots.items (share_of plan.taken) plan.bytes.items plan.nodes plan.lost → IsPlanned g s x m plan → IsCarriedOut g s plan new → IsSpelled g new }
    ensures graph { (g : Sizes) (s : Store) (cs : Changes) (touch : ℕ) (x : ℕ → Slot) (m : ℕ → TierRuns) (plan : Rewrite) (new : Store)
        → IsAllowed g → IsSpelled g s → AreTidyChanges cs → ((i : ℕ) → fin.contains_key cs i ≡ is_rewritten plan i) → AreParts g s cs touch x m plan.slots.items (share_of plan.taken) plan.bytes.items plan.nodes plan.lost → IsPlanned g s x m plan → IsCarriedOut g s plan new → graph g new ≡ changed_graph cs (graph g s) }
    ensures touched { (g : Sizes) (s : Store) (cs : Changes) (touch i : ℕ) (x : ℕ → Slot) (m : ℕ → TierRuns) (plan : Rewrite) (new : Store)
        → IsAllowed g → IsSpelled g s → AreTidyChanges cs → AreParts g s cs touch x m plan.slots.items (share_of plan.taken) plan.bytes.items plan.nodes plan.lost → IsPlanned g s x m plan → IsCarriedOut g s plan new → is_rewritten plan i ≡ true → IsTouchedBy touch (slot g new i) }
    ensures rewrites { (g : Sizes) (s : Store) (cs : Changes) (touch : ℕ) (x : ℕ → Slot) (m : ℕ → TierRuns) (plan : Rewrite) (new : Store)
        → IsAllowed g → IsSpelled g s → AreTidyChanges cs → AreParts g s cs touch x m plan.slots.items (share_of plan.taken) plan.bytes.items plan.nodes plan.lost → IsPlanned g s x m plan → IsCarriedOut g s plan new → Rewrites g (is_rewritten plan) s new }
{
    written_file_is_rewritten();
    written_directory_is_rewritten();
    written_free_slot_is_inode_after();
    written_inode_is_read();
    carried_out_inodes_are_written_anew();
    changed_store_spells_the_graph_after();
}

/// Where it is carried out, the blocks that the change writes lie in the data blocks that were taken, which are the first free ones where they were taken so; each other block of a file
/// that the change leaves lies where it lay, unless it is cut off; and so do all blocks of the other inodes.
pub fn carried_out_blocks_lie_in_their_places()
    ensures got { (g : Sizes) (s : Store) (cs : Changes) (touch : ℕ) (x : ℕ → Slot) (m : ℕ → TierRuns) (plan : Rewrite)
        → ((i : ℕ) → fin.contains_key cs i ≡ is_rewritten plan i) → AreParts g s cs touch x m plan.slots.items (share_of plan.taken) plan.bytes.items plan.nodes plan.lost → AreFirstFree g s (taken_data plan.taken) → (blocks : List (ℕ × ℕ)) × GetPlaces g s cs blocks (taken_data plan.taken) }
    ensures written { (g : Sizes) (s : Store) (cs : Changes) (touch : ℕ) (x : ℕ → Slot) (m : ℕ → TierRuns) (plan : Rewrite) (new : Store)
        → IsAllowed g → IsSpelled g s → ((i : ℕ) → fin.contains_key cs i ≡ is_rewritten plan i) → AreParts g s cs touch x m plan.slots.items (share_of plan.taken) plan.bytes.items plan.nodes plan.lost → IsPlanned g s x m plan → IsCarriedOut g s plan new
        → AreFirstFree g s (taken_data plan.taken) → LieInPlaces g s cs new }
    ensures kept { (g : Sizes) (s : Store) (cs : Changes) (touch i : ℕ) (x : ℕ → Slot) (m : ℕ → TierRuns) (plan : Rewrite) (new : Store)
        → IsAllowed g → IsSpelled g s → AreParts g s cs touch x m plan.slots.items (share_of plan.taken) plan.bytes.items plan.nodes plan.lost → IsPlanned g s x m plan → IsCarriedOut g s plan new
        → is_rewritten plan i ≡ true → LeavesFile g s (change_at cs i) i → KeepsPlaces g (change_at cs i) s new i }
    ensures others { (g : Sizes) (s : Store) (cs : Changes) (touch i : ℕ) (x : ℕ → Slot) (m : ℕ → TierRuns) (plan : Rewrite) (new : Store)
        → IsAllowed g → IsSpelled g s → AreTidyChanges cs → AreParts g s cs touch x m plan.slots.items (share_of plan.taken) plan.bytes.items plan.nodes plan.lost → IsPlanned g s x m plan → IsCarriedOut g s plan new
        → is_rewritten plan i ≡ false → (t : Tier) (k : ℕ) → place g new i t k ≡ place g s i t k }
{
    written_inode_is_read();
    carried_out_inodes_are_written_anew();
    carried_out_change_is_the_graph_after();
    rewritten_inodes_are_spelled();
}
