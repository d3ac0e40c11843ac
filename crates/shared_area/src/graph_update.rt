// A change of the graph is made, and what is kept of the media in memory follows it.
ghost use Rattle.std.specs.Prelude.{◌≡◌, ◌≤◌, ◌<◌, ℕ, List, true, false, length, OnOk, OnErr, IfErr, IsErrOf};
ghost use Rattle.std.specs.FinMap as fin;
ghost use Rattle.record_validation.specs.file_graph.Units.{charge};
ghost use Rattle.area_reader.specs.graph_change.Bounds.{AreBounded};
ghost use Rattle.area_reader.specs.graph_change.Change.{changed_graph};
ghost use Rattle.area_reader.specs.graph_change.Tidy.{AreTidyChanges};
ghost use Rattle.area_reader.specs.graph_change.View.{changes_of};
ghost use Rattle.area_reader.specs.layout.declared.places.TheConstants.{SPARE_BLOCKS};
ghost use Rattle.area_reader.specs.layout.Marks.{fits_marks};
ghost use Rattle.area_reader.specs.Store.{disk, graph};
ghost use Rattle.change_plan.specs.area_commit.Value.{free_data};
ghost use Rattle.change_plan.specs.area_commit.StableState.{IsSettled};
ghost use Rattle.shared_area.specs.ChangeApply.{CanApply, IsAppliedStore, EndsChange, MakesFewCalls};
ghost use Rattle.change_plan.specs.Next.{HasFewEntries};
ghost use Rattle.change_plan.specs.BlockDemand.{images_for, AreWritten};
ghost use Rattle.area_reader.specs.declared.error.AreaError.TheVariants.{NoBlock};
ghost use Rattle.area_reader.specs.Refusals.{IsChangeRefusal};
ghost use Rattle.shared_area.specs.Ready.{IsReady};
ghost use Rattle.shared_area.specs.GraphUpdate.{HasTooFewData, StaysOrChanges, AppliesOrStays};

use crate::{apply, charge_after, charge_follows_the_change};
use area_reader::AreaError;
use area_reader::in_batch_journal::Journal;
use area_reader::in_graph_change::GraphChange;
use area_reader::in_layout::Marks;
use change_plan::in_area_commit::{Pools, small_changes_find_blocks};
use std::alloc::Global;
use tier_device::{Media, Tier};

/// A change of the graph, with the marks that go with it, as it is lent down to `apply`, which takes the two apart: that is public.
#[derive(Clone, Copy)]
pub struct MarkedChange<'a> {
    pub change: &'a GraphChange,
    pub marks: Marks,
}

// Makes a change, on media of which no device has failed, and counts what the graph costs then. The count stays where the change is not made.
fn apply_running<M: Media>(
    alloc: Global,
    journal: &mut Journal<M>,
    pools: &mut Pools,
    units: &mut u64,
    marked: &MarkedChange<'_>,
) -> Result<(), AreaError>
    requires going { journal.old.failed ≡ false }
    requires settled { IsSettled journal.old.geometry (M.seen journal.old.media) (M.left journal.old.media (M.moment journal.old.media)) pools.old }
    requires charged { units.old ≡ charge (graph journal.old.geometry (disk M.Media journal.old)) }
    requires can { CanApply journal.old.geometry (disk M.Media journal.old) (changes_of marked.now.change.now) marked.now.marks }
    ensures ends { EndsChange M.Media (changes_of marked.now.change.now) marked.now.marks journal.old journal.new pools.new result }
    ensures charged { OnOk result (units.new ≡ charge (graph journal.new.geometry (disk M.Media journal.new))) }
    ensures kept { OnErr result (units.new ≡ units.old) }
    ensures no_block { IsErrOf result NoBlock → (bs : List (ℕ × ℕ)) × AreWritten journal.old.geometry (disk M.Media journal.old) (changes_of marked.now.change.now) bs × (length (free_data pools.old) < length bs) }
{
    // For the proof: the sizes are allowed ones, and the charge changes as the inodes of the change do, which cost no more.
    let _units = journal.geometry().units();
    charge_follows_the_change();
    let cost = apply(alloc, journal, pools, marked.change, marked.marks)?;
    *units = charge_after(*units, cost);
    Ok(())
}

/// Makes a change of the graph with new marks, and keeps pools, marks and units true of the media. It is refused as `apply` is: nothing of these has changed then but where a device failed.
pub fn make_change<M: Media>(
    alloc: Global,
    journal: &mut Journal<M>,
    pools: &mut Pools,
    told: &mut Marks,
    units: &mut u64,
    marked: &MarkedChange<'_>,
) -> Result<(), AreaError>
    requires ready { journal.old.failed ≡ false → IsReady journal.old.geometry (M.seen journal.old.media) (M.left journal.old.media (M.moment journal.old.media)) pools.old told.old units.old }
    requires bounded { AreBounded (changes_of marked.now.change.now) }
    requires tidy { AreTidyChanges (changes_of marked.now.change.now) }
    requires images { images_for (changes_of marked.now.change.now) ≤ 255 }
    requires fits { fits_marks marked.now.marks ≡ true }
    requires entries { journal.old.failed ≡ false → (i : ℕ) → fin.contains_key (changes_of marked.now.change.now) i ≡ true → HasFewEntries (changed_graph (changes_of marked.now.change.now) (graph journal.old.geometry (disk M.Media journal.old)) i) }
    requires units { journal.old.failed ≡ false → charge (changed_graph (changes_of marked.now.change.now) (graph journal.old.geometry (disk M.Media journal.old))) ≤ journal.old.geometry.units }
    ensures ready { journal.new.failed ≡ false → IsReady journal.new.geometry (M.seen journal.new.media) (M.left journal.new.media (M.moment journal.new.media)) pools.new told.new units.new }
    ensures any_moment { journal.old.failed ≡ false → StaysOrChanges journal.old.geometry (disk M.Media journal.old) (changes_of marked.now.change.now) marked.now.marks (M.moment journal.old.media) (M.moment journal.new.media) (M.left journal.old.media) (M.left journal.new.media) }
    ensures applied { OnOk result (IsAppliedStore journal.old.geometry (disk M.Media journal.old) (changes_of marked.now.change.now) marked.now.marks (disk M.Media journal.new)) }
    ensures no_block { IsErrOf result NoBlock → (bs : List (ℕ × ℕ)) × AreWritten journal.old.geometry (disk M.Media journal.old) (changes_of marked.now.change.now) bs × HasTooFewData journal.old.geometry (disk M.Media journal.old) (length bs) }
    ensures never { ((bs : List (ℕ × ℕ)) → AreWritten journal.old.geometry (disk M.Media journal.old) (changes_of marked.now.change.now) bs → length bs ≤ SPARE_BLOCKS) → IsErrOf result NoBlock → ⊥ }
    ensures only { IfErr result IsChangeRefusal }
    ensures applies { AppliesOrStays M.Media journal.old journal.new result }
    ensures at_most { MakesFewCalls journal.old.geometry (disk M.Media journal.old) (changes_of marked.now.change.now) (M.moment journal.old.media) (M.moment journal.new.media) (M.left journal.old.media) (M.left journal.new.media) }
{
    if journal.has_failed() {
        return Err(AreaError::DeviceFault);
    }
    // For the proof: the pools are in order, and a small change finds the data blocks that it wants.
    let _free = pools.free(Tier::Fast);
    small_changes_find_blocks();
    apply_running(alloc, journal, pools, units, marked)?;
    *told = marked.marks;
    Ok(())
}
