ghost use Rattle.std.specs.Prelude.{◌≡◌, ◌≢◌, ◌≤◌, ◌<◌, ◌+◌, ◌-◌, ℕ, List, min, length, true, false, None, Some, OnOk, OnErr, IfOk, IfErr, IsErrOf, option_map};
ghost use Rattle.std.specs.FinMap as fin;
ghost use Rattle.tier_device.specs.declared.media.Tier.{Tier};
ghost use Rattle.tier_device.specs.declared.media.Tier.TheVariants.{Fast};
ghost use Rattle.tier_device.specs.Media.{Rose};
ghost use Rattle.tier_device.specs.AfterStop.{AtRest, Left};
ghost use Rattle.area_reader.specs.batch_journal.Blocks.{opening_calls};
ghost use Rattle.area_reader.specs.batch_journal.Course.{Since, Unmoved};
ghost use Rattle.area_reader.specs.batch_journal.Damage.{AwaitsReplay};
ghost use Rattle.area_reader.specs.batch_journal.Volume.{IsVolume, SameJournal};
ghost use Rattle.record_validation.specs.file_graph.Graph.{directory_in};
ghost use Rattle.record_validation.specs.file_graph.Units.{charge};
ghost use Rattle.area_reader.specs.graph_change.Bounds.{AreBounded};
ghost use Rattle.area_reader.specs.graph_change.Change.{changed_graph};
ghost use Rattle.area_reader.specs.graph_change.Tidy.{AreTidyChanges};
ghost use Rattle.area_reader.specs.graph_change.View.{changes_of};
ghost use Rattle.record_validation.specs.call_effects.NodeView.{view_at};
ghost use Rattle.record_validation.specs.Counts.{counts_of};
ghost use Rattle.area_reader.specs.layout.declared.places.TheConstants.{FIRST_NODE_BLOCK, SPARE_BLOCKS};
ghost use Rattle.area_reader.specs.layout.Marks.{fits_marks};
ghost use Rattle.area_reader.specs.layout.Places.{node_end};
ghost use Rattle.area_reader.specs.Store.{disk, store_of, graph, slot, touch_of, marks as marks_of};
ghost use Rattle.area_reader.specs.Reads.{Free, Loose};
ghost use Rattle.area_reader.specs.Format.{IsOpenable};
ghost use Rattle.area_reader.specs.Looks.{Looks};
ghost use Rattle.area_reader.specs.Map.{WantsMemory};
ghost use Rattle.area_reader.specs.declared.error.AreaError.TheVariants.{DeviceFault, NoBlock, NotMapped, Memory};
ghost use Rattle.area_reader.specs.Damage.{OnDamage};
ghost use Rattle.relocation.specs.TierMove.{CanMove, IsMoved};
ghost use Rattle.relocation.specs.RunMove.{LieInLowest, MovesInFewCalls};
ghost use Rattle.relocation.specs.MovableFile.{HasFileRun};
ghost use Rattle.area_reader.specs.Refusals.{IsMoveRefusal, IsChangeRefusal};
ghost use Rattle.shared_area.specs.ChangeApply.{IsAppliedStore, MakesFewCalls};
ghost use Rattle.change_plan.specs.Next.{HasFewEntries};
ghost use Rattle.change_plan.specs.BlockDemand.{images_for, AreWritten};
ghost use Rattle.shared_area.specs.AreaOpen.{SpellsNone, IsMediumDamage, TakesMemory};
ghost use Rattle.shared_area.specs.Ready.{OpensAs, HasCount, HasFree};
ghost use Rattle.shared_area.specs.GraphUpdate.{HasTooFewData, StaysOrChanges, AppliesOrStays};
ghost use Rattle.shared_area.specs.TierMoves.{HasTooFew, HasEnough, StaysOpen, MovesOrStays};
ghost use Rattle.shared_area.specs.FileReads.{bytes_of_inode, IsReadFrom};
ghost use Rattle.shared_area.specs.Parts.{IsNoDamage, IsTierOf};
ghost use Rattle.shared_area.specs.FirstRun.{FindsRun, file_lies, touch_in};

use crate::block_search::find_tier;
use crate::digest_number::{find_touch, find_touch_in};
use crate::file_read::read_file;
use crate::graph_update::{MarkedChange, make_change};
use crate::media_contents::{journal_fault, read_contents};
use crate::node::{find_directory, find_node};
use crate::run_search::find_first_run;
use crate::slot_counts::find_counts;
use area_reader::AreaError;
use area_reader::in_batch_journal::Journal;
use area_reader::in_graph_change::GraphChange;
use area_reader::in_layout::{Geometry, Marks};
use block_alloc::Run;
use change_plan::in_area_commit::Pools;
use record_validation::in_file_graph::{Child, NameMap};
use record_validation::{NodeCounts, NodeSummary};
use relocation::{RunRequest, relocate};
use std::alloc::Global;
use std::marker::Model;
use tier_device::{Media, Tier};

/// The shared media, opened: a graph of inodes with its charge and marks.
///
/// Contracts see the medium, its geometry, and whether a device has failed. What its blocks spell is `graph` and `marks` of the store that is read.
///
/// A call that meets a device fault makes the area answer `DeviceFault` to each later call, with nothing changed, until the medium is opened again.
#[derive(Drop)]
pub struct Shared<M: Media> {
    alloc: Global,
    journal: Journal<M>,
    pools: Pools,
    marks: Marks,
    units: u64,
}

impl<M: Media> Model for Shared<M> {
    ghost use Rattle.std.specs.Prelude.{◌≡◌, false, ℕ, List};
    ghost use Rattle.tier_device.specs.declared.media.Tier.{Tier};
    ghost use Rattle.area_reader.specs.batch_journal.View.{JournalView};
    ghost use Rattle.shared_area.specs.Ready.{IsReady};

    ghost Value = { JournalView M };

    ghost view = { λ a. a.journal };

    // until a device has failed
    ghost invariant = { λ a. a.journal.failed ≡ false → IsReady a.journal.geometry (M.seen a.journal.media) (M.left a.journal.media (M.moment a.journal.media)) a.pools a.marks a.units };
}

impl<M: Media> Shared<M> {
    /// Opens media on which nothing is pending. An open journal is replayed; then all slots, extent blocks and directories are read, and of a file the last block at most.
    /// What is opened spells the graph and the marks that the bytes spelled.
    ///
    /// `Damaged` exactly where the bytes spell no graph within the units, by the structure that shows it and its block; an open journal that is sound was replayed then, and
    /// nothing else was written. `Memory` where there was none for the replay or for what is read. The medium is handed back with each refusal; where no device has failed it
    /// is at rest, with the same blocks.
    pub fn reopen(alloc: Global, medium: M) -> Result<Self, (AreaError, M)>
        requires { (t : Tier) → AtRest (M.seen medium) (M.left medium (M.moment medium)) t }

        // At each moment a stop leaves contents that are opened with the same blocks.
        ensures any_moment { IfOk result (λ a. Since Fast (SameJournal (M.seen medium Fast)) (M.moment medium) (M.moment a.media) (M.left medium) (M.left a.media)) }
        ensures any_moment_refused { IfErr result (λ e. Since Fast (SameJournal (M.seen medium Fast)) (M.moment medium) (M.moment e.1) (M.left medium) (M.left e.1)) }

        ensures volume { IfOk result (λ a. IsVolume a.geometry (M.seen medium)) }
        ensures opens { IfOk result (λ a. IsOpenable a.geometry (store_of (M.seen medium))) }
        ensures blocks { IfOk result (λ a. disk M.Media a ≡ store_of (M.seen medium)) }
        ensures rests { IfOk result (λ a. (t : Tier) → AtRest (M.seen a.media) (M.left a.media (M.moment a.media)) t) }
        ensures unfailed { IfOk result (λ a. a.failed ≡ false) }
        ensures calls { IfOk result (λ a. M.moment a.media ≡ M.moment medium + opening_calls (M.seen medium Fast)) }
        ensures quiet { IfOk result (λ a. M.faults a.media ≡ M.faults medium) }

        ensures damaged { IfErr result (λ e. OnDamage e.0 (λ _ _. SpellsNone (M.seen medium))) }
        ensures named { IfErr result (λ e. OnDamage e.0 (IsMediumDamage (M.seen medium))) }
        ensures memory { IfErr result (λ e. e.0 ≡ Memory → TakesMemory (M.seen medium)) }
        ensures untouched { IfErr result (λ e. e.0 ≢ DeviceFault → (AwaitsReplay (M.seen medium) → ⊥) → Unmoved (M.moment medium) (M.moment e.1) (M.seen medium) (M.seen e.1) (M.left medium) (M.left e.1)) }
        ensures blocks_refused { IfErr result (λ e. e.0 ≢ DeviceFault → store_of (M.seen e.1) ≡ store_of (M.seen medium)) }
        ensures rests_refused { IfErr result (λ e. e.0 ≢ DeviceFault → (t : Tier) → AtRest (M.seen e.1) (M.left e.1 (M.moment e.1)) t) }
        ensures fault { IfErr result (λ e. e.0 ≡ DeviceFault → Rose (M.faults medium) (M.faults e.1)) }
        ensures quiet_refused { IfErr result (λ e. e.0 ≢ DeviceFault → M.faults e.1 ≡ M.faults medium) }
        ensures at_most { IfErr result (λ e. M.moment e.1 ≤ M.moment medium + opening_calls (M.seen medium Fast)) }
        ensures faults_refused { IfErr result (λ e. M.faults medium ≤ M.faults e.1) }
        ensures one_fault { IfErr result (λ e. M.faults e.1 ≤ M.faults medium + 1) }
    {
        let mut journal = match Journal::reopen(alloc, medium) {
            Ok(journal) => journal,
            Err((error, medium)) => return Err((journal_fault(error), medium)),
        };
        match read_contents(alloc, &mut journal) {
            Ok(found) => Ok(Shared {
                alloc,
                journal,
                pools: found.pools,
                marks: found.marks,
                units: found.units,
            }),
            Err(error) => Err((error, journal.into_media())),
        }
    }

    /// What stands at an inode: a file with its size and how many names it has, a directory with its entries by name; `None` where nothing does. Its slot and its
    /// extents are read, and all blocks of a directory. `Memory` where there was none for an extent block or for an entry.
    pub fn node(&mut self, inode: u32) -> Result<Option<NodeSummary>, AreaError>
        ensures node { IfOk result (λ x. x ≡ view_at (graph self.old.geometry (disk M.Media self.old)) inode) }
        ensures only { IfErr result IsNoDamage }
        ensures memory { IfErr result (λ e. e ≡ Memory → WantsMemory self.old.geometry (disk M.Media self.old) inode) }
        ensures looks { Looks M.Media self.old self.new result }
    {
        let alloc = self.alloc;
        find_node(alloc, &mut self.journal, inode)
    }

    /// The entries of the directory at an inode, by name; `None` where there is none. It reads what `node` reads, and is refused as that is.
    pub fn directory(&mut self, inode: u32) -> Result<Option<NameMap<Child>>, AreaError>
        ensures directory { IfOk result (λ x. x ≡ directory_in (graph self.old.geometry (disk M.Media self.old) inode)) }
        ensures only { IfErr result IsNoDamage }
        ensures memory { IfErr result (λ e. e ≡ Memory → WantsMemory self.old.geometry (disk M.Media self.old) inode) }
        ensures looks { Looks M.Media self.old self.new result }
    {
        let alloc = self.alloc;
        find_directory(alloc, &mut self.journal, inode)
    }

    /// What stands at an inode by its numbers: a file with its size, a directory with how many entries it has, each with how many names it has; `None` where nothing does. It
    /// reads the slot alone, and takes no memory: `DeviceFault` is its one refusal.
    pub fn node_counts(&mut self, inode: u32) -> Result<Option<NodeCounts>, AreaError>
        ensures counts { IfOk result (λ x. x ≡ option_map counts_of (view_at (graph self.old.geometry (disk M.Media self.old)) inode)) }
        ensures only { IfErr result (λ e. e ≡ DeviceFault) }
        ensures looks { Looks M.Media self.old self.new result }
    {
        find_counts(&mut self.journal, inode)
    }

    /// Bytes of a file from a byte on, into the front of the buffer, as many as the file and the buffer have; holes as zeros. It answers how many: none behind the end, or where
    /// there is no file. The file's slot and extents are read, and the blocks of the range; how many reads that takes is a matter of cost alone. `Memory` where there was none
    /// for an extent block.
    ///
    /// After a refusal the front of the buffer may have been read.
    pub fn read_range(&mut self, inode: u32, at: u64, out: &mut [u8]) -> Result<usize, AreaError>
        ensures count { IfOk result (λ n. n ≡ min (length out.old) (length (bytes_of_inode (graph self.old.geometry (disk M.Media self.old)) inode) - at)) }
        ensures bytes { IfOk result (λ n. IsReadFrom (bytes_of_inode (graph self.old.geometry (disk M.Media self.old)) inode) at n out.old out.new) }
        ensures refused { OnErr result ((n : ℕ) × IsReadFrom (bytes_of_inode (graph self.old.geometry (disk M.Media self.old)) inode) at n out.old out.new) }
        ensures only { IfErr result IsNoDamage }
        ensures memory { IfErr result (λ e. e ≡ Memory → WantsMemory self.old.geometry (disk M.Media self.old) inode) }
        ensures looks { Looks M.Media self.old self.new result }
    {
        let alloc = self.alloc;
        read_file(alloc, &mut self.journal, inode, at, out)
    }

    /// The tier that maps a logical block of an inode, a block of 4,096 bytes of a file or of 56 entries of a directory; `None` where no tier does, or there is no such
    /// inode. `Memory` where there was none for an extent block.
    pub fn tier_of(&mut self, inode: u32, block: u64) -> Result<Option<Tier>, AreaError>
        ensures tier { IfOk result (IsTierOf self.old.geometry (disk M.Media self.old) inode block) }
        ensures only { IfErr result IsNoDamage }
        ensures memory { IfErr result (λ e. e ≡ Memory → WantsMemory self.old.geometry (disk M.Media self.old) inode) }
        ensures looks { Looks M.Media self.old self.new result }
    {
        let alloc = self.alloc;
        find_tier(alloc, &mut self.journal, inode, block)
    }

    /// The first run of a file's logical blocks in a tier, of `most` blocks at most: blocks that follow one another, whatever their places; `None` where no block of a file
    /// at this inode lies there. `Memory` where there was none for an extent block.
    pub fn first_run(&mut self, inode: u32, tier: Tier, most: u32) -> Result<Option<Run>, AreaError>
        requires { 0 < most }
        ensures run { IfOk result (FindsRun (file_lies self.old.geometry (disk M.Media self.old) inode tier) most) }
        ensures only { IfErr result IsNoDamage }
        ensures memory { IfErr result (λ e. e ≡ Memory → WantsMemory self.old.geometry (disk M.Media self.old) inode) }
        ensures looks { Looks M.Media self.old self.new result }
    {
        let alloc = self.alloc;
        find_first_run(alloc, &mut self.journal, inode, tier, most)
    }

    /// The number of the last digest that wrote an inode; 0 where there is no such inode. It takes no memory.
    pub fn touch(&mut self, inode: u32) -> Result<u64, AreaError>
        ensures touch { IfOk result (λ t. t ≡ touch_of (slot self.old.geometry (disk M.Media self.old) inode)) }
        ensures only { IfErr result (λ e. e ≡ DeviceFault) }
        ensures looks { Looks M.Media self.old self.new result }
    {
        find_touch(&mut self.journal, inode)
    }

    /// The number of the last digest that wrote the file at an inode, where its slot names an extent block of the tier. Else `None`, also for a directory and where there is no such inode: no block of a file at that
    /// inode lies in the tier then. Reads the slot alone, and takes no memory. Refused: `DeviceFault`.
    pub fn touch_in(&mut self, inode: u32, tier: Tier) -> Result<Option<u64>, AreaError>
        ensures touch { IfOk result (λ x. x ≡ touch_in (slot self.old.geometry (disk M.Media self.old) inode) tier) }
        ensures none { IfOk result (λ x. x ≡ None → (k : ℕ) → file_lies self.old.geometry (disk M.Media self.old) inode tier k ≡ None) }
        ensures only { IfErr result (λ e. e ≡ DeviceFault) }
        ensures looks { Looks M.Media self.old self.new result }
    {
        find_touch_in(&mut self.journal, inode, tier)
    }

    /// Moves a run of a file's logical blocks, `count` of them from block `first` on, to a tier that is slower than those in which they lie, into its lowest data blocks that are
    /// free. Graph and marks stay: a stop at any moment leaves the run where it lay, or all of it moved. How many reads that takes is a matter of cost alone;
    /// of writes and fences there are at most one for each run of the blocks that it goes to and 12 more.
    ///
    /// `NotMapped` exactly where there is no file at the inode, the run has no block or more than 256, or some block of it lies in no tier that is faster than `to`; `NoBlock`
    /// exactly where the run could be moved, but fewer data blocks of `to` are free than it has. `Memory` where there was none, before the first write, and only where there is
    /// a file that the run lies within. After each of these nothing has changed. `DeviceFault` where a device failed: the area answers nothing else then, until the medium is
    /// opened again.
    pub fn relocate(
        &mut self,
        inode: u32,
        first: u64,
        count: u32,
        to: Tier,
    ) -> Result<(), AreaError>
        // At each moment a stop leaves contents that are opened with the same graph and marks, with the run where it lay, or moved.
        ensures any_moment { self.old.failed ≡ false → StaysOpen self.old.geometry (disk M.Media self.old) inode first count to (M.moment self.old.media) (M.moment self.new.media) (M.left self.old.media) (M.left self.new.media) }
        ensures moved { OnOk result (IsMoved self.old.geometry (disk M.Media self.old) (disk M.Media self.new) inode first count to) }
        // It lies in the lowest data blocks of the tier that were free, in their order.
        ensures lowest { OnOk result (LieInLowest self.old.geometry (disk M.Media self.old) (disk M.Media self.new) inode first count to) }
        ensures same_graph { OnOk result (graph self.old.geometry (disk M.Media self.new) ≡ graph self.old.geometry (disk M.Media self.old)) }
        ensures same_marks { OnOk result (marks_of (disk M.Media self.new) ≡ marks_of (disk M.Media self.old)) }

        ensures not_mapped { IsErrOf result NotMapped → CanMove self.old.geometry (disk M.Media self.old) inode first count to → ⊥ }
        ensures no_block { IsErrOf result NoBlock → CanMove self.old.geometry (disk M.Media self.old) inode first count to × HasTooFew self.old.geometry (disk M.Media self.old) to count }
        ensures can { OnOk result (CanMove self.old.geometry (disk M.Media self.old) inode first count to × HasEnough self.old.geometry (disk M.Media self.old) to count) }
        ensures memory { IsErrOf result Memory → HasFileRun self.old.geometry (disk M.Media self.old) inode first count }
        ensures only { IfErr result IsMoveRefusal }
        ensures moves { MovesOrStays M.Media self.old self.new result }
        // A write for each run of the blocks that it goes to, a fence, and the batch; what is read is not counted.
        ensures few { MovesInFewCalls self.old.geometry (disk M.Media self.old) to count (M.moment self.old.media) (M.moment self.new.media) }
        ensures at_most { M.moment self.new.media ≤ M.moment self.old.media + count + 12 }
    {
        let alloc = self.alloc;
        // For the proof: the free blocks of the pools are in order.
        let _free = self.pools.free(to);
        relocate(
            alloc,
            &mut self.journal,
            &mut self.pools,
            RunRequest {
                inode,
                first,
                count,
            },
            to,
        )
    }

    /// Changes the graph, with new marks, in one batch: what the change puts into files goes into data blocks of its own first, the first that are free, fastest tier first, with one
    /// write for each run of them and then one fence for each tier that was written, in the same order; then one batch of the journal writes all else. Data blocks that the change does
    /// not write stay where they lie, and a hole within which a file is only cut stays a hole. A stop at any moment leaves the graph and the marks from before, or the graph after the change
    /// and the new marks. Each inode that is written tells the number of digests of the marks as its touch number. The change has to keep to the limits, and the graph after it to the
    /// units.
    ///
    /// `NoBlock` where fewer data blocks are free than the change writes, which is never so where it writes no more than the format spares. `Memory` where there was none, before
    /// the first write. After each of these nothing has changed. `DeviceFault` where a device failed: the area answers nothing else then, until the medium is opened again, with
    /// all of the change or none of it.
    pub fn apply(&mut self, change: &GraphChange, marks: Marks) -> Result<(), AreaError>
        requires bounded { AreBounded (changes_of change.now) }
        requires tidy { AreTidyChanges (changes_of change.now) }
        requires images { images_for (changes_of change.now) ≤ 255 }
        requires fits { fits_marks marks ≡ true }
        requires entries { self.old.failed ≡ false → (i : ℕ) → fin.contains_key (changes_of change.now) i ≡ true → HasFewEntries (changed_graph (changes_of change.now) (graph self.old.geometry (disk M.Media self.old)) i) }
        requires units { self.old.failed ≡ false → charge (changed_graph (changes_of change.now) (graph self.old.geometry (disk M.Media self.old))) ≤ self.old.geometry.units }

        // At each moment a stop leaves contents that are opened with the graph and the marks from before, or with the graph after the change and the new marks.
        ensures any_moment { self.old.failed ≡ false → StaysOrChanges self.old.geometry (disk M.Media self.old) (changes_of change.now) marks (M.moment self.old.media) (M.moment self.new.media) (M.left self.old.media) (M.left self.new.media) }
        ensures applied { OnOk result (IsAppliedStore self.old.geometry (disk M.Media self.old) (changes_of change.now) marks (disk M.Media self.new)) }

        // Of the files that it leaves the change writes more blocks than there are free; and never where it writes no more than the format spares.
        ensures no_block { IsErrOf result NoBlock → (bs : List (ℕ × ℕ)) × AreWritten self.old.geometry (disk M.Media self.old) (changes_of change.now) bs × HasTooFewData self.old.geometry (disk M.Media self.old) (length bs) }
        ensures never { ((bs : List (ℕ × ℕ)) → AreWritten self.old.geometry (disk M.Media self.old) (changes_of change.now) bs → length bs ≤ SPARE_BLOCKS) → IsErrOf result NoBlock → ⊥ }
        ensures only { IfErr result IsChangeRefusal }
        ensures applies { AppliesOrStays M.Media self.old self.new result }
        // A write for each run of data blocks that is taken, fastest tier first, a fence for each tier that is written, in the same order, and the batch; what is read is not counted.
        ensures at_most { MakesFewCalls self.old.geometry (disk M.Media self.old) (changes_of change.now) (M.moment self.old.media) (M.moment self.new.media) (M.left self.old.media) (M.left self.new.media) }
    {
        let alloc = self.alloc;
        let marked = MarkedChange { change, marks };
        make_change(
            alloc,
            &mut self.journal,
            &mut self.pools,
            &mut self.marks,
            &mut self.units,
            &marked,
        )
    }

    /// What the graph costs, in units: one for each inode and one for each logical block, holes too. Of no meaning once a device has failed.
    pub fn charge(&self) -> u64
        ensures { self.now.failed ≡ false → result ≡ charge (graph self.now.geometry (disk M.Media self.now)) }
    {
        self.units
    }

    /// How far each client's records are digested, and the number of digests. Of no meaning once a device has failed.
    pub fn marks(&self) -> Marks
        ensures { self.now.failed ≡ false → marks_of (disk M.Media self.now) ≡ Some result }
    {
        self.marks
    }

    /// How many data blocks of a tier are free. Of no meaning once a device has failed.
    pub fn free(&self, tier: Tier) -> u32
        ensures { self.now.failed ≡ false → HasFree self.now.geometry (disk M.Media self.now) tier result }
    {
        self.pools.free(tier)
    }

    /// How many blocks of the node pool are free. Of no meaning once a device has failed.
    pub fn free_nodes(&self) -> u32
        ensures { self.now.failed ≡ false → HasCount FIRST_NODE_BLOCK (node_end self.now.geometry)
            (λ k. Free self.now.geometry (disk M.Media self.now) Fast k × (k < node_end self.now.geometry)) result }
    {
        // For the proof: the free blocks of the pools are in order.
        let _data = self.pools.free(Tier::Fast);
        self.pools.free_nodes()
    }

    /// The sizes of the medium.
    pub fn geometry(&self) -> Geometry
        ensures { result ≡ self.now.geometry }
    {
        self.journal.geometry()
    }

    /// Whether a device has failed since the medium was opened.
    pub fn has_failed(&self) -> bool
        ensures { result ≡ self.now.failed }
    {
        self.journal.has_failed()
    }

    /// Between two calls nothing is pending: a stop leaves what is read, which can be opened. So the medium beneath may be opened again.
    pub fn left_now(&self)
        ensures rests { self.now.failed ≡ false → (t : Tier) → AtRest (M.seen self.now.media) (M.left self.now.media (M.moment self.now.media)) t }
        ensures opens { self.now.failed ≡ false → IsOpenable self.now.geometry (disk M.Media self.now) }
        ensures loose { self.now.failed ≡ false → (content : Tier → List ℕ) → Left (M.left self.now.media) (M.moment self.now.media) content → Loose self.now.geometry (disk M.Media self.now) (store_of content) }
        ensures same { self.now.failed ≡ false → (content : Tier → List ℕ) → Left (M.left self.now.media) (M.moment self.now.media) content → OpensAs self.now.geometry (disk M.Media self.now) content }
    {
        // For the proof: a stop now leaves what the journal reads.
        self.journal.left_now();
    }

    /// The medium beneath.
    pub fn into_medium(self) -> M
        ensures { result ≡ self.media }
    {
        self.journal.into_media()
    }
}
