// What a change makes of a file, as the part of its inode.
ghost use Rattle.std.specs.Prelude.{◌≡◌, ◌≤◌, ◌<◌, ◌+◌, ◌^◌, ◌⊎◌, ◌++◌, ℕ, List, Some, true, false, length, take, IfOk, IfErr, OnOk, IfSome};
ghost use Rattle.tier_device.specs.declared.media.Tier.{Tier};
ghost use Rattle.inode_plan.specs.file_graph.declared.effect.Kind.TheVariants as kind;
ghost use Rattle.inode_plan.specs.graph_change.Bounds.{IsBounded};
ghost use Rattle.inode_plan.specs.graph_change.Bytes.{end};
ghost use Rattle.inode_plan.specs.graph_change.Net.{Kept};
ghost use Rattle.inode_plan.specs.graph_change.Tidy.{IsTidyChange};
ghost use Rattle.inode_plan.specs.graph_change.View.{base_of, change_of};
ghost use Rattle.inode_plan.specs.layout.declared.extents.TheConstants.{MAX_EXTENTS};
ghost use Rattle.inode_plan.specs.layout.Places.{Sizes, is_inode};
ghost use Rattle.inode_plan.specs.layout.Slot.{fits_slot};
ghost use Rattle.block_alloc.specs.Runs.{blocks_of};
ghost use Rattle.inode_plan.specs.tree_blocks.After.{start_node};
ghost use Rattle.inode_plan.specs.area_reader.Store.{Store, disk, slot_read, logical_block, inode as inode_in};
ghost use Rattle.inode_plan.specs.area_reader.Checks.{HasFound, IsOnce};
ghost use Rattle.inode_plan.specs.area_reader.Map.{in_tier};
ghost use Rattle.inode_plan.specs.area_reader.Format.{IsSpelled};
ghost use Rattle.inode_plan.specs.area_reader.Looks.{Looks};
ghost use Rattle.inode_plan.specs.area_reader.declared.error.AreaError.TheVariants.{DeviceFault, Memory};
ghost use Rattle.inode_plan.specs.area_commit.Value.{PoolsView, AreInOrder};
ghost use Rattle.inode_plan.specs.area_commit.Allocations.{WereTaken, CanRelease};
ghost use Rattle.inode_plan.specs.Bytes.{AddsBlocks, blocks_from};
ghost use Rattle.inode_plan.specs.Roots.{roots_wanted};
ghost use Rattle.change_plan.specs.PlanAddition.{AddsPart, TakesMoreNodes};
ghost use Rattle.change_plan.specs.FileSteps.{IsWrittenFile, AddsFile};
ghost use Rattle.change_plan.specs.Next.{IsNext, HasPlaces, PlansInode};
ghost use Rattle.change_plan.specs.FileStart.{IsStartedFile, IsRootedFile, LosesOf, LosesFile};

use crate::changed_inode::ChangedInode;
use crate::directories::push_part;
use crate::file_place::{PlacedFile, RootedFile, place_file, root_file};
use crate::file_start::{StartedFile, made_file, read_file};
use crate::files::{next_nodes_were_free, placed_file_is_planned, planned_file_is_a_part};
use crate::inode_drop::all_blocks_of;
use crate::partial_plan::PartialPlan;
use crate::spares::take_spares;
use block_alloc::Run;
use inode_plan::in_area_commit::{Allocation, FreedBlocks, NodeImages, Pools};
use inode_plan::in_area_reader::{AreaError, InodeExtents};
use inode_plan::in_batch_journal::Journal;
use inode_plan::in_extent_tree::{Place, few_blocks_are_few_runs};
use inode_plan::in_graph_change::{NodeBase, NodeChange};
use inode_plan::in_layout::Slot;
use inode_plan::{changed_map_is_fit, read_changed, roots_wanted, written_numbers};
use std::alloc::{AllocError, Global};
use tier_device::Media;

/// A file whose blocks have their places after a change, with the numbers of those that the change writes.
#[derive(Drop)]
pub struct WrittenFile {
    pub numbers: Vec<u64>,
    pub file: PlacedFile,
}

// The file that an inode is, with its extents read.
fn read_kept<M: Media>(
    alloc: Global,
    journal: &mut Journal<M>,
    inode: u32,
    slot: &Slot,
) -> Result<StartedFile, AreaError>
    requires spelled { IsSpelled journal.old.geometry (disk M.Media journal.old) }
    requires number { is_inode inode ≡ true }
    requires slot_is { slot_read journal.old.geometry (disk M.Media journal.old) inode ≡ Some slot.now }
    requires is_file { (inode_in journal.old.geometry (disk M.Media journal.old) inode).kind ≡ Some kind.File }
    ensures started { IfOk result (IsStartedFile journal.old.geometry (disk M.Media journal.old) Kept inode) }
    ensures only { IfErr result (λ e. (e ≡ DeviceFault) ⊎ (e ≡ Memory)) }
    ensures looks { Looks M.Media journal.old journal.new result }
{
    read_file(alloc, journal, inode, slot)
}

/// The file that a change of an inode starts from: the one that is there, with its extents read, or an empty one, where it is made.
pub fn start_file<M: Media>(
    alloc: Global,
    journal: &mut Journal<M>,
    inode: u32,
    slot: &Slot,
    base: NodeBase,
) -> Result<StartedFile, AreaError>
    requires spelled { IsSpelled journal.old.geometry (disk M.Media journal.old) }
    requires number { is_inode inode ≡ true }
    requires slot_is { slot_read journal.old.geometry (disk M.Media journal.old) inode ≡ Some slot.now }
    requires is_file { (start_node (base_of base) (inode_in journal.old.geometry (disk M.Media journal.old) inode)).kind ≡ Some kind.File }
    requires going { journal.old.failed ≡ false }
    ensures started { IfOk result (IsStartedFile journal.old.geometry (disk M.Media journal.old) (base_of base) inode) }
    ensures only { IfErr result (λ e. (e ≡ DeviceFault) ⊎ (e ≡ Memory)) }
    ensures looks { Looks M.Media journal.old journal.new result }
{
    match base {
        NodeBase::Kept => read_kept(alloc, journal, inode, slot),
        NodeBase::Made { .. } => Ok(made_file(alloc)),
        NodeBase::Gone => unreachable!(),
    }
}

// Gives each block that the change writes the next of the places.
fn place_written(
    alloc: Global,
    inode: u32,
    file: StartedFile,
    change: &NodeChange,
    places: &[Place],
) -> Result<WrittenFile, AllocError>
    requires started { (g : Sizes) × (s : Store) × IsStartedFile g s (change_of change.now).base inode file × HasPlaces g s (change_of change.now) inode places.now }
    requires tidy { IsTidyChange (change_of change.now) }
    requires bounded { IsBounded (change_of change.now) }
    ensures { (g : Sizes) (s : Store) → IsStartedFile g s (change_of change.now).base inode file → HasPlaces g s (change_of change.now) inode places.now → IfOk result (IsWrittenFile g s (change_of change.now) inode places.now) }
{
    let numbers = written_numbers(alloc, change, &file.map)?;
    let count = numbers.len();
    let file = place_file(alloc, inode, file, change, &numbers, &places[..count])?;
    Ok(WrittenFile { numbers, file })
}

// Adds the bytes of the blocks of these numbers, as the change makes them of those that were found, or of none.
fn add_bytes<M: Media>(
    journal: &mut Journal<M>,
    inode: u32,
    found: &Option<InodeExtents>,
    change: &NodeChange,
    numbers: &[u64],
    out: &mut Vec<u8>,
) -> Result<(), AreaError>
    requires found { IfSome found.now (HasFound journal.old.geometry (disk M.Media journal.old) inode) }
    requires once { IsOnce journal.old.geometry (disk M.Media journal.old) inode }
    requires going { journal.old.failed ≡ false }
    ensures added { OnOk result (AddsBlocks (change_of change.now) (blocks_from found.now (logical_block journal.old.geometry (disk M.Media journal.old) inode)) numbers.now (length numbers.now) out.old.items out.new.items) }
    ensures only { IfErr result (λ e. (e ≡ DeviceFault) ⊎ (e ≡ Memory)) }
    ensures looks { Looks M.Media journal.old journal.new result }
{
    match found {
        Some(extents) => read_changed(journal, inode, Some(extents), change, numbers, out),
        None => read_changed(journal, inode, None, change, numbers, out),
    }
}

// Takes blocks of the node pool to list the extents of a file where it wants some, gives it its slot, and puts the images of its extents to others.
fn root_placed(
    alloc: Global,
    pools: &mut Pools,
    taken: &mut Allocation,
    changed: &ChangedInode<'_>,
    file: &PlacedFile,
    images: &mut NodeImages,
) -> Result<RootedFile, AllocError>
    requires bounded { IsBounded (change_of changed.now.change.now) }
    requires before { (before : PoolsView) × AreInOrder before × WereTaken before pools.old taken.old × (before.nodes.end < 2 ^ 32) }
    requires undo { CanRelease pools.old taken.old }
    requires enough { 3 ≤ length pools.old.nodes.free }
    requires short { (t : Tier) → IfSome (in_tier file.now.plan.lists t) (λ v. length v.extents ≤ MAX_EXTENTS) }
    ensures rooted { IfOk result (λ r. IsRootedFile (change_of changed.now.change.now) changed.now.touch file.now (take (roots_wanted file.now.slot file.now.plan.lists) pools.old.nodes.free) images.old images.new r.slot r.left.items) }
    ensures wanted { length (take (roots_wanted file.now.slot file.now.plan.lists) pools.old.nodes.free) ≡ roots_wanted file.now.slot file.now.plan.lists }
    ensures nodes { OnOk result (blocks_of taken.new.nodes.items ≡ blocks_of taken.old.nodes.items ++ take (roots_wanted file.now.slot file.now.plan.lists) pools.old.nodes.free) }
    ensures images { OnOk result (length images.new ≤ length images.old + 3) }
    ensures free { OnOk result (length pools.old.nodes.free ≤ length pools.new.nodes.free + 3) }
    ensures took { TakesMoreNodes pools.old taken.old pools.new taken.new }
{
    let count = roots_wanted(&file.slot, &file.plan.lists);
    let spares = take_spares(alloc, pools, taken, count)?;
    let rooted = root_file(alloc, file, changed.change, changed.touch, &spares, images)?;
    Ok(rooted)
}

// What a file leaves that stays: its data blocks that were left, and the blocks that list none of its extents any more.
fn freed_blocks(file: PlacedFile, left: Vec<Run>) -> FreedBlocks
    ensures { LosesOf file left.items result }
{
    let plan = file.plan;
    FreedBlocks {
        nodes: left,
        fast: plan.fast,
        block: plan.block,
        slow: plan.slow,
    }
}

// What a file has no use for any more: where it stays, what it leaves; where it is made, all that stood there.
fn lost_for<M: Media>(
    alloc: Global,
    journal: &mut Journal<M>,
    changed: &ChangedInode<'_>,
    file: PlacedFile,
    left: Vec<Run>,
) -> Result<FreedBlocks, AreaError>
    requires spelled { IsSpelled journal.old.geometry (disk M.Media journal.old) }
    requires number { is_inode changed.now.inode ≡ true }
    requires fits { fits_slot journal.old.geometry changed.now.slot ≡ true }
    requires slot_is { slot_read journal.old.geometry (disk M.Media journal.old) changed.now.inode ≡ Some changed.now.slot }
    requires is_file { (start_node (base_of changed.now.change.now.base) (inode_in journal.old.geometry (disk M.Media journal.old) changed.now.inode)).kind ≡ Some kind.File }
    requires going { journal.old.failed ≡ false }
    ensures lost { IfOk result (LosesFile journal.old.geometry (disk M.Media journal.old) (base_of changed.now.change.now.base) changed.now.inode file left.items) }
    ensures only { IfErr result (λ e. (e ≡ DeviceFault) ⊎ (e ≡ Memory)) }
    ensures looks { Looks M.Media journal.old journal.new result }
{
    match changed.change.base {
        NodeBase::Kept => Ok(freed_blocks(file, left)),
        NodeBase::Made { .. } => all_blocks_of(alloc, journal, changed.inode, &changed.slot),
        NodeBase::Gone => unreachable!(),
    }
}

// Puts the slot of a file, and what it gives up, behind those of a plan.
fn push_file<M: Media>(
    alloc: Global,
    journal: &mut Journal<M>,
    changed: &ChangedInode<'_>,
    file: PlacedFile,
    rooted: RootedFile,
    plan: &mut PartialPlan,
) -> Result<(), AreaError>
    requires spelled { IsSpelled journal.old.geometry (disk M.Media journal.old) }
    requires number { is_inode changed.now.inode ≡ true }
    requires fits { fits_slot journal.old.geometry changed.now.slot ≡ true }
    requires slot_is { slot_read journal.old.geometry (disk M.Media journal.old) changed.now.inode ≡ Some changed.now.slot }
    requires is_file { (start_node (base_of changed.now.change.now.base) (inode_in journal.old.geometry (disk M.Media journal.old) changed.now.inode)).kind ≡ Some kind.File }
    requires going { journal.old.failed ≡ false }
    ensures adds { OnOk result (AddsFile journal.old.geometry (disk M.Media journal.old) (base_of changed.now.change.now.base) changed.now.inode file rooted plan.old plan.new) }
    ensures taken { plan.new.taken ≡ plan.old.taken }
    ensures only { IfErr result (λ e. (e ≡ DeviceFault) ⊎ (e ≡ Memory)) }
    ensures looks { Looks M.Media journal.old journal.new result }
{
    let after = rooted.slot;
    let its = lost_for(alloc, journal, changed, file, rooted.left)?;
    push_part(plan, changed.inode, after, &its)?;
    Ok(())
}

// Plans a file whose blocks have their places: its bytes, its images, its slot and what it gives up stand behind those of the plan.
fn plan_written<M: Media>(
    alloc: Global,
    journal: &mut Journal<M>,
    pools: &mut Pools,
    changed: &ChangedInode<'_>,
    written: WrittenFile,
    plan: &mut PartialPlan,
) -> Result<(), AreaError>
    requires going { journal.old.failed ≡ false }
    requires next { IsNext journal.old.geometry (disk M.Media journal.old) changed.now.inode changed.now.slot (change_of changed.now.change.now) pools.old plan.old.taken plan.old.nodes }
    requires ready { (places : List Place) × IsWrittenFile journal.old.geometry (disk M.Media journal.old) (change_of changed.now.change.now) changed.now.inode places written }
    ensures part { (places : List Place) → IsWrittenFile journal.old.geometry (disk M.Media journal.old) (change_of changed.now.change.now) changed.now.inode places written → OnOk result (AddsPart journal.old.geometry (disk M.Media journal.old) (change_of changed.now.change.now) changed.now.touch changed.now.inode places (length written.numbers.items) plan.old.taken plan.new.taken plan.old plan.new) }
    ensures images { OnOk result (length plan.new.nodes ≤ length plan.old.nodes + 3) }
    ensures free { OnOk result (length pools.old.nodes.free ≤ length pools.new.nodes.free + 3) }
    ensures took { TakesMoreNodes pools.old plan.old.taken pools.new plan.new.taken }
    ensures only { IfErr result (λ e. (e ≡ DeviceFault) ⊎ (e ≡ Memory)) }
    ensures looks { Looks M.Media journal.old journal.new result }
{
    // For the proof: the blocks that are taken were free, the file that is planned is a part of the change, and its extents fit a block.
    next_nodes_were_free();
    placed_file_is_planned();
    planned_file_is_a_part();
    few_blocks_are_few_runs();
    changed_map_is_fit();
    let WrittenFile { numbers, file } = written;
    add_bytes(
        journal,
        changed.inode,
        &file.found,
        changed.change,
        &numbers,
        &mut plan.bytes,
    )?;
    let rooted = root_placed(
        alloc,
        pools,
        &mut plan.taken,
        changed,
        &file,
        &mut plan.nodes,
    )?;
    push_file(alloc, journal, changed, file, rooted, plan)?;
    Ok(())
}

/// Plans a file: reads what it was, gives each block that its change writes a place, takes blocks of the node pool to list its extents where it wants some, and puts its slot, its
/// images, its bytes and what it gives up behind those of the plan. It answers how many of the places it used. `Memory` where there was none; `DeviceFault` where a device fails. After a
/// refusal nothing is said of the plan but what was taken for it.
pub fn plan_file_part<M: Media>(
    alloc: Global,
    journal: &mut Journal<M>,
    pools: &mut Pools,
    changed: &ChangedInode<'_>,
    places: &[Place],
    plan: &mut PartialPlan,
) -> Result<usize, AreaError>
    requires going { journal.old.failed ≡ false }
    requires next { IsNext journal.old.geometry (disk M.Media journal.old) changed.now.inode changed.now.slot (change_of changed.now.change.now) pools.old plan.old.taken plan.old.nodes }
    requires places { HasPlaces journal.old.geometry (disk M.Media journal.old) (change_of changed.now.change.now) changed.now.inode places.now }
    requires file { (start_node (change_of changed.now.change.now).base (inode_in journal.old.geometry (disk M.Media journal.old) changed.now.inode)).kind ≡ Some kind.File }
    ensures planned { IfOk result (λ count. PlansInode journal.old.geometry (disk M.Media journal.old) (change_of changed.now.change.now) changed.now.touch changed.now.inode places.now count pools.old plan.old.taken pools.new plan.new.taken plan.old plan.new) }
    ensures took { TakesMoreNodes pools.old plan.old.taken pools.new plan.new.taken }
    ensures only { IfErr result (λ e. (e ≡ DeviceFault) ⊎ (e ≡ Memory)) }
    ensures looks { Looks M.Media journal.old journal.new result }
{
    let file = start_file(
        alloc,
        journal,
        changed.inode,
        &changed.slot,
        changed.change.base,
    )?;
    let written = place_written(alloc, changed.inode, file, changed.change, places)?;
    let count = written.numbers.len();
    plan_written(alloc, journal, pools, changed, written, plan)?;
    Ok(count)
}
