ghost use Rattle.std.specs.Prelude.{◌≡◌, ◌≢◌, ◌↔◌, ◌≤◌, ◌<◌, ◌+◌, ◌-◌, ◌*◌, ℕ, List, [], ◌∷◌, min, length, take, true, false, None, Err, OnOk, OnErr, IfOk, IfErr, IfSome, IsErrOf, IsTrue};
ghost use Rattle.migrator.specs.batch_journal.Course.{Unmoved};
ghost use Rattle.posix_calls.specs.Operations.{is_client};
ghost use Rattle.posix_calls.specs.declared.limits.TheConstants.{UNIT_BYTES};
ghost use Rattle.world_invariant.specs.file_graph.Graph.{is_among};
ghost use Rattle.world_invariant.specs.file_graph.Units.{charge};
ghost use Rattle.world_invariant.specs.file_graph.declared.effect.Effect.TheVariants as effect;
ghost use Rattle.migrator.specs.graph_change.Change.{coalesced_changes};
ghost use Rattle.migrator.specs.graph_change.View.{changes_of};
ghost use Rattle.world_invariant.specs.call_effects.NodeView.{view_at};
ghost use Rattle.tier_device.specs.declared.media.Tier.{Tier};
ghost use Rattle.tier_device.specs.AfterStop.{AtRest, Left};
ghost use Rattle.migrator.specs.area_reader.Format.{IsOpenable};
ghost use Rattle.migrator.specs.area_reader.Store.{disk, graph};
ghost use Rattle.migrator.specs.area_reader.Looks.{Looks, call_answer};
ghost use Rattle.migrator.specs.shared_area.ChangeApply.{MakesFewCalls};
ghost use Rattle.migrator.specs.area_reader.Map.{WantsMemory};
ghost use Rattle.migrator.specs.area_reader.Refusals.{IsMoveRefusal};
ghost use Rattle.migrator.specs.area_reader.declared.error.AreaError.TheVariants.{DeviceFault, NoBlock, NotMapped, Memory};
ghost use Rattle.migrator.specs.shared_area.Parts.{IsNoDamage, IsTierOf};
ghost use Rattle.migrator.specs.shared_area.Ready.{HasFree, OpensAs};
ghost use Rattle.migrator.specs.shared_area.FileReads.{bytes_of_inode, IsReadFrom};
ghost use Rattle.migrator.specs.relocation.TierMove.{CanMove, IsMoved};
ghost use Rattle.migrator.specs.relocation.MovableFile.{HasFileRun};
ghost use Rattle.migrator.specs.shared_area.TierMoves.{HasTooFew, HasEnough, StaysOpen, MovesOrStays};
ghost use Rattle.digester.specs.Chunk.{IsChunkOf, chunk_change, is_next};
ghost use Rattle.digester.specs.DigestStep.{IsDigested, NamesFirstBad, StaysOrDigests, DigestsOrStays};
ghost use Rattle.digester.specs.SealedLog.{HasUndigested, IsDoneBy, StandsAtMark, undone};
ghost use Rattle.digester.specs.declared.error.DigestError.TheVariants.{BadLog};
ghost use Rattle.migrator.specs.RunChoice.{IsPicked, MayBeMoved};
ghost use Rattle.world_invariant.specs.KernelSteps.{CanReclaim};
ghost use Rattle.world_invariant.specs.Logs.{IsNameless, units_in};
ghost use Rattle.world_invariant.specs.Machine.{Machine, Sealed, IsRunning, StandsSealed, CanAccept, accept as accepted, digest as digested, reclaim as reclaimed};
ghost use Rattle.kernel_fs.specs.Book.{units_of, waiting_of, out_of, is_pinned, IsBookOf};
ghost use Rattle.kernel_fs.specs.Inodes.{has};
ghost use Rattle.kernel_fs.specs.Steps.{grant as granted, opened_machine};
ghost use Rattle.kernel_fs.specs.RegionAccept.{HasAsManyWaiting, BeginsAtMark, IsRegionOf};
ghost use Rattle.kernel_fs.specs.KernelAnswers.{Answers, OnRefusal};
ghost use Rattle.kernel_fs.specs.History.{HasRun};
ghost use Rattle.kernel_fs.specs.Reclaim.{IsUnused, IsReclaimed, StaysOrReclaims, ReclaimsOrStays};
ghost use Rattle.kernel_fs.specs.MachineState.{IsKernelOf, IsMarkIn, StandBeforeRegions};
ghost use Rattle.kernel_fs.specs.declared.chunk_digest.Digestion.TheVariants.{Digested, NotNext, NotAccepted};
ghost use Rattle.kernel_fs.specs.declared.error.AcceptError.TheVariants.{NotAtMark, AlreadyAccepted};
ghost use Rattle.kernel_fs.specs.declared.error.KernelError.TheVariants.{Failed, Refused};
ghost use Rattle.kernel_fs.specs.declared.error.ReclaimError.TheVariants as reclaims;

use crate::chunk_digest::{Digestion, begins_at_mark, digest_at_mark};
use crate::error::{AcceptError, KernelError, KernelFailed, ReclaimError};
use crate::fetches::{Fetched, FetchedBytes, fetch_bytes, fetch_node};
use crate::file_reclaim::drop_nameless;
use crate::log_reads::{has_as_many_waiting, undigested_count};
use crate::node_scan::nodes_of;
use crate::opening::Opening;
use crate::{Book, InodeSet};
use digester::{Chunk, DigestError, SealedLog, capacity_of};
use migrator::in_area_reader::AreaError;
use migrator::in_shared_area::Shared;
use migrator::{FileRun, migrate, pick};
use std::alloc::Global;
use std::marker::Model;
use tier_device::{Media, Tier};

/// How the units stand.
#[derive(Clone, Copy, PartialEq, Eq)]
pub struct Figures {
    /// What the shared graph costs.
    pub charge: u64,
    /// What the clients were given, spare or for records that are not digested.
    pub out: u64,
    /// How many there are.
    pub capacity: u64,
}

/// The kernel: the shared media, and what each client was given of them. Whoever has it has one client's call after the other.
/// Contracts see the shared area and the accounts. Clients are numbered from 1.
#[derive(Drop)]
pub struct Kernel<M: Media> {
    // the media at the opening, and how their marks stood
    began: Opening<M>,
    alloc: Global,
    pub(crate) area: Shared<M>,
    pub(crate) book: Book,
    // the inodes of the shared graph
    pub(crate) nodes: InodeSet,
}

impl<M: Media> Model for Kernel<M> {
    ghost use Rattle.std.specs.Prelude.{◌≡◌, false, ℕ, List};
    ghost use Rattle.tier_device.specs.declared.media.Tier.{Tier};
    ghost use Rattle.migrator.specs.area_reader.Store.{disk, graph};
    ghost use Rattle.kernel_fs.specs.Inodes.{has};
    ghost use Rattle.kernel_fs.specs.Nodes.{AreNodes};
    ghost use Rattle.kernel_fs.specs.History.{EndsRun};
    ghost use Rattle.kernel_fs.specs.KernelView.{KernelView};

    ghost Value = { KernelView M };

    ghost view = { λ k. record { area = k.area; book = k.book; opening = k.began } };

    // Until a device has failed: the set has the nodes of the graph, and the kernel stands at the end of a run of its machine.
    ghost invariant = { λ k. k.area.failed ≡ false → AreNodes (graph k.area.geometry (disk M.Media k.area)) (has k.nodes) × EndsRun M.Media (record { area = k.area; book = k.book; opening = k.began }) };
}

impl<M: Media> Kernel<M> {
    /// The kernel over shared media that are opened: nothing is granted, pinned or accepted. Its device calls are reads. Where each mark stands before a region, the kernel stands for the machine that
    /// was just opened over the graph, whatever it has of the records that were digested before. The area is given back with its one refusal, `DeviceFault`, where a device has failed or fails.
    pub fn open(alloc: Global, area: Shared<M>) -> Result<Self, (AreaError, Shared<M>)>
        ensures opens { IfOk result (λ k. (marks : ℕ → ℕ) → StandBeforeRegions (disk M.Media k.area) → IsKernelOf M.Media k (opened_machine (graph k.area.geometry (disk M.Media k.area)) k.area.geometry.units marks)) }
        ensures booked { IfOk result (λ k. (marks : ℕ → ℕ) → IsBookOf k.book (opened_machine (graph k.area.geometry (disk M.Media k.area)) k.area.geometry.units marks)) }
        ensures out { IfOk result (λ k. out_of k.book ≡ 0) }
        ensures opening { IfOk result (λ k. k.opening ≡ k.area) }
        ensures looks { IfOk result (λ k. Looks M.Media area k.area call_answer) }
        ensures only { IfErr result (λ e. e.0 ≡ DeviceFault) }
        ensures refused { IfErr result (λ e. Looks {T = Unit {0}} M.Media area e.1 (Err e.0)) }
    {
        let mut area = area;
        match nodes_of(&mut area) {
            Ok(nodes) => {
                let marks = area.marks();
                let began = Opening::of(&area, &marks);
                Ok(Kernel {
                    began,
                    alloc,
                    area,
                    book: Book::new(),
                    nodes,
                })
            }
            Err(error) => Err((error, area)),
        }
    }

    /// The shared area beneath. It makes no device call.
    pub fn into_area(self) -> Shared<M>
        ensures { result ≡ self.area }
    {
        self.area
    }

    /// Whether a device has failed: then every call answers that, until the media are opened again. It makes no device call.
    pub fn has_failed(&self) -> bool
        ensures { result ≡ self.now.area.failed }
    {
        self.area.has_failed()
    }

    /// What a stop leaves between two calls, until a device has failed: the shared media as they are read, from which they open with the same
    /// graph and marks. It makes no device call.
    pub fn left_now(&self)
        ensures rests { self.now.area.failed ≡ false → (t : Tier) → AtRest (M.seen self.now.area.media) (M.left self.now.area.media (M.moment self.now.area.media)) t }
        ensures opens { self.now.area.failed ≡ false → IsOpenable self.now.area.geometry (disk M.Media self.now.area) }
        ensures same { self.now.area.failed ≡ false → (content : Tier → List ℕ) → Left (M.left self.now.area.media) (M.moment self.now.area.media) content → OpensAs self.now.area.geometry (disk M.Media self.now.area) content }
    {
        self.area.left_now();
    }

    /// Whether each mark stood before a region as the kernel was opened. Where they did, the kernel stands at the end of a run of its machine, from the one that was opened over the media as they were then. An entry that
    /// accepts or digests names its region, by client and generation, and may be taken only while that client's mark names it. The run is a fact of the value: no list of entries is kept, and nothing grows with them.
    /// It makes no device call.
    pub fn has_history(&self) -> bool
        ensures before { IsTrue result ↔ StandBeforeRegions (disk M.Media self.now.opening) }
        ensures run { IsTrue result → self.now.area.failed ≡ false → HasRun M.Media self.now }
    {
        self.began.is_before_regions()
    }

    // ---- what is there

    /// What stands at an inode of the shared graph: a file with its size and how many names it has, a directory with its entries by name; `None` where nothing does. Beside it the mark of the client that asks:
    /// what it has logged behind the mark is not in the graph.
    ///
    /// Its device calls are reads. `DeviceFault` where a device failed, `Memory` where there was none for an extent block or for an entry.
    pub fn fetch(&mut self, client: u32, inode: u32) -> Result<Fetched, KernelError<AreaError>>
        requires client { is_client client ≡ true }
        ensures mark { IfOk result (λ x. IsMarkIn (disk M.Media self.old.area) client x.mark) }
        ensures node { IfOk result (λ x. x.node ≡ view_at (graph self.old.area.geometry (disk M.Media self.old.area)) inode) }
        ensures only { IfErr result (λ e. OnRefusal e IsNoDamage) }
        ensures memory { IfErr result (λ e. OnRefusal e (λ r. r ≡ Memory → WantsMemory self.old.area.geometry (disk M.Media self.old.area) inode)) }
        ensures book { self.new.book ≡ self.old.book }
        ensures answers { Answers self.old.area.failed self.old self.new result (Looks M.Media self.old.area self.new.area) }
        ensures opening { self.new.opening ≡ self.old.opening }
    {
        if self.area.has_failed() {
            return Err(KernelError::Failed);
        }
        match fetch_node(&mut self.area, client, inode) {
            Ok(found) => Ok(found),
            Err(error) => Err(KernelError::Refused(error)),
        }
    }

    /// Bytes of a file from a logical block on, of 4,096 bytes each, into the front of the buffer, as many as the file and the buffer have; holes as zeros. It answers how many bytes: none behind the end, or where
    /// there is no file. Beside it the mark of the client that asks.
    ///
    /// Its device calls are reads. `DeviceFault` where a device failed, `Memory` where there was none for an extent block. After a refusal the front of the buffer may have been read.
    pub fn blocks(
        &mut self,
        client: u32,
        inode: u32,
        first: u32,
        out: &mut [u8],
    ) -> Result<FetchedBytes, KernelError<AreaError>>
        requires client { is_client client ≡ true }
        ensures mark { IfOk result (λ x. IsMarkIn (disk M.Media self.old.area) client x.mark) }
        ensures count { IfOk result (λ x. x.count ≡ min (length out.old) (length (bytes_of_inode (graph self.old.area.geometry (disk M.Media self.old.area)) inode) - UNIT_BYTES * first)) }
        ensures bytes { IfOk result (λ x. IsReadFrom (bytes_of_inode (graph self.old.area.geometry (disk M.Media self.old.area)) inode) (UNIT_BYTES * first) x.count out.old out.new) }
        ensures refused { OnErr result ((n : ℕ) × IsReadFrom (bytes_of_inode (graph self.old.area.geometry (disk M.Media self.old.area)) inode) (UNIT_BYTES * first) n out.old out.new) }
        ensures only { IfErr result (λ e. OnRefusal e IsNoDamage) }
        ensures memory { IfErr result (λ e. OnRefusal e (λ r. r ≡ Memory → WantsMemory self.old.area.geometry (disk M.Media self.old.area) inode)) }
        ensures book { self.new.book ≡ self.old.book }
        ensures answers { Answers self.old.area.failed self.old self.new result (Looks M.Media self.old.area self.new.area) }
        ensures opening { self.new.opening ≡ self.old.opening }
    {
        if self.area.has_failed() {
            return Err(KernelError::Failed);
        }
        match fetch_bytes(&mut self.area, client, inode, first, out) {
            Ok(found) => Ok(found),
            Err(error) => Err(KernelError::Refused(error)),
        }
    }

    /// The tier that maps a logical block of an inode; `None` where no tier does, or there is no such inode.
    ///
    /// Its device calls are reads. `DeviceFault` where a device failed, `Memory` where there was none for an extent block.
    pub fn tier_of(
        &mut self,
        inode: u32,
        block: u64,
    ) -> Result<Option<Tier>, KernelError<AreaError>>
        ensures tier { IfOk result (IsTierOf self.old.area.geometry (disk M.Media self.old.area) inode block) }
        ensures only { IfErr result (λ e. OnRefusal e IsNoDamage) }
        ensures memory { IfErr result (λ e. OnRefusal e (λ r. r ≡ Memory → WantsMemory self.old.area.geometry (disk M.Media self.old.area) inode)) }
        ensures book { self.new.book ≡ self.old.book }
        ensures answers { Answers self.old.area.failed self.old self.new result (Looks M.Media self.old.area self.new.area) }
        ensures opening { self.new.opening ≡ self.old.opening }
    {
        if self.area.has_failed() {
            return Err(KernelError::Failed);
        }
        match self.area.tier_of(inode, block) {
            Ok(tier) => Ok(tier),
            Err(error) => Err(KernelError::Refused(error)),
        }
    }

    /// What the shared graph costs, what the clients were given, and how many units there are. It makes no device call.
    pub fn book(&self) -> Result<Figures, KernelFailed>
        ensures charge { IfOk result (λ f. f.charge ≡ charge (graph self.now.area.geometry (disk M.Media self.now.area))) }
        ensures out { IfOk result (λ f. f.out ≡ out_of self.now.book) }
        ensures capacity { IfOk result (λ f. f.capacity ≡ self.now.area.geometry.units) }
        ensures going { OnOk result (self.now.area.failed ≡ false) }
        ensures failed { OnErr result (self.now.area.failed ≡ true) }
    {
        if self.area.has_failed() {
            return Err(KernelFailed);
        }
        Ok(Figures {
            charge: self.area.charge(),
            out: self.book.units_out(),
            capacity: capacity_of(&self.area),
        })
    }

    /// How many data blocks of a tier are free: a run that has more is refused `NoBlock` there (`migrate`). It makes no device call.
    pub fn free(&self, tier: Tier) -> Result<u32, KernelFailed>
        ensures free { IfOk result (λ n. HasFree self.now.area.geometry (disk M.Media self.now.area) tier n) }
        ensures going { OnOk result (self.now.area.failed ≡ false) }
        ensures failed { OnErr result (self.now.area.failed ≡ true) }
    {
        if self.area.has_failed() {
            return Err(KernelFailed);
        }
        Ok(self.area.free(tier))
    }

    // ---- sealed regions

    /// Accepts a region that a client sealed, before any of its records is digested. It makes no device call.
    ///
    /// `NotAtMark` exactly where it does not stand at its client's mark; `AlreadyAccepted` exactly where it does, but records of that client are waiting, which were accepted from it. Nothing has changed then.
    pub fn accept(&mut self, log: &SealedLog) -> Result<(), KernelError<AcceptError>>
        requires some { HasUndigested log.now }
        ensures accepted { OnOk result (HasAsManyWaiting self.new.book log.now) }
        ensures can { OnOk result ((m : Machine) (s : Sealed) → IsKernelOf M.Media self.old m → m.accepted log.now.client ≡ s.past → s.records ≡ log.now.records → CanAccept m log.now.client s) }
        ensures step { OnOk result ((m : Machine) (s : Sealed) → IsKernelOf M.Media self.old m → m.accepted log.now.client ≡ s.past → s.records ≡ log.now.records → IsKernelOf M.Media self.new (accepted m log.now.client s)) }
        ensures booked { OnOk result ((m : Machine) (s : Sealed) → IsBookOf self.old.book m → m.accepted log.now.client ≡ s.past → length s.records ≡ length (undone log.now) → IsBookOf self.new.book (accepted m log.now.client s)) }
        ensures region { OnOk result ((m : Machine) (s : Sealed) → IsKernelOf M.Media self.old m → m.accepted log.now.client ≡ s.past → s.records ≡ log.now.records → ((i : ℕ) → s.writes i ≡ true → is_among i log.now.held ≡ true) → IsRegionOf log.now (m.kernel.accounts log.now.client).mark s) }
        ensures out { out_of self.new.book ≡ out_of self.old.book }
        ensures not_at_mark { IsErrOf result (Refused NotAtMark) ↔ ((self.old.area.failed ≡ false) × (StandsAtMark log.now (disk M.Media self.old.area) → ⊥)) }
        ensures already_accepted { IsErrOf result (Refused AlreadyAccepted) ↔ ((self.old.area.failed ≡ false) × StandsAtMark log.now (disk M.Media self.old.area) × (waiting_of self.old.book log.now.client ≢ 0)) }
        ensures failed { IsErrOf result Failed ↔ (self.old.area.failed ≡ true) }
        ensures refused { OnErr result (self.new ≡ self.old) }
        ensures area { self.new.area ≡ self.old.area }
        ensures opening { self.new.opening ≡ self.old.opening }
    {
        if self.area.has_failed() {
            return Err(KernelError::Failed);
        }
        if !log.stands_at(&self.area.marks()) {
            return Err(KernelError::Refused(AcceptError::NotAtMark));
        }
        // For the proof: its client is one of the book's.
        log.invariant();
        let client = log.client();
        if self.book.account(client).waiting != 0 {
            return Err(KernelError::Refused(AcceptError::AlreadyAccepted));
        }
        self.book.accept(client, undigested_count(log));
        Ok(())
    }

    /// Digests a chunk of an accepted region: its records are tested one after the other over the shared area, and what they come to reaches the area in one batch, together with the client's mark; then
    /// their units and the numbers of the nodes that they make leave the client's account. So graph, mark and account move together. At each moment a stop leaves graph and mark both as before, or both after.
    ///
    /// It answers `NotNext` exactly where the chunk does not begin at the mark, for one of two reasons: the chunk is stale, so that it does not begin with the first record that its log has undigested, and is to be
    /// prepared again; or the log stands at another mark than its client's, since its generation is over, or records of it were digested that it does not count, and has to be read anew. `NotAccepted` exactly where
    /// the chunk begins at the mark, but not as many records of its client are waiting as its log has undigested. Nothing has changed then, and no device was asked.
    ///
    /// The refusals are of chunks that begin at the mark and are accepted. `BadLog` names the first bad record of the chunk, by its place
    /// in the region; there is none in a region that stands in a machine which runs. It never wants for blocks. `Memory` where there was none. After these nothing has changed but the chunk, of whose change nothing is said
    /// where it has a Swap: it is to be prepared again. `DeviceFault` where a device failed.
    pub fn digest(
        &mut self,
        log: &mut SealedLog,
        chunk: &mut Chunk,
    ) -> Result<Digestion, KernelError<DigestError>>
        requires some { HasUndigested log.old }
        requires chunk { IsChunkOf log.old chunk.old }
        ensures any_moment { self.old.area.failed ≡ false → BeginsAtMark log.old chunk.old (disk M.Media self.old.area) → HasAsManyWaiting self.old.book log.old → StaysOrDigests self.old.area.geometry (disk M.Media self.old.area) log.old chunk.old.count (M.moment self.old.area.media) (M.moment self.new.area.media) (M.left self.old.area.media) (M.left self.new.area.media) }

        // What is answered, and what has changed then.
        ensures next { IfOk result (λ a. (a ≡ Digested) ↔ (BeginsAtMark log.old chunk.old (disk M.Media self.old.area) × HasAsManyWaiting self.old.book log.old)) }
        ensures not_next { IfOk result (λ a. (a ≡ NotNext) ↔ (BeginsAtMark log.old chunk.old (disk M.Media self.old.area) → ⊥)) }
        ensures stale { IfOk result (λ a. is_next log.old chunk.old ≡ false → a ≡ NotNext) }
        ensures another_mark { IfOk result (λ a. (StandsAtMark log.old (disk M.Media self.old.area) → ⊥) → a ≡ NotNext) }
        ensures not_accepted { IfOk result (λ a. (a ≡ NotAccepted) ↔ (BeginsAtMark log.old chunk.old (disk M.Media self.old.area) × (HasAsManyWaiting self.old.book log.old → ⊥))) }
        ensures not_digested { IfOk result (λ a. a ≢ Digested → (self.new ≡ self.old) × (log.new ≡ log.old)) }
        ensures chunk_stays { IfOk result (λ a. a ≢ Digested → chunk.new ≡ chunk.old) }
        ensures chunk_unasked { self.old.area.failed ≡ true → chunk.new ≡ chunk.old }
        ensures digested { IfOk result (λ a. a ≡ Digested → IsDigested self.old.area.geometry (disk M.Media self.old.area) log.old chunk.old.count (disk M.Media self.new.area)) }
        ensures done { IfOk result (λ a. a ≡ Digested → IsDoneBy log.old chunk.old.count log.new) }
        ensures at_mark { IfOk result (λ a. a ≡ Digested → StandsAtMark log.new (disk M.Media self.new.area)) }
        ensures accepted { IfOk result (λ a. a ≡ Digested → HasAsManyWaiting self.new.book log.new) }
        ensures step { IfOk result (λ a. a ≡ Digested → (m : Machine) → IsKernelOf M.Media self.old m → IsKernelOf M.Media self.new (digested m log.old.client (take chunk.old.count (undone log.old)))) }
        ensures booked { IfOk result (λ a. a ≡ Digested → (m : Machine) → IsBookOf self.old.book m → IsBookOf self.new.book (digested m log.old.client (take chunk.old.count (undone log.old)))) }
        // What the records raise of the charge they have in units.
        ensures law { OnOk result (units_in (undone log.old) ≤ units_of self.old.book log.old.client → charge (graph self.old.area.geometry (disk M.Media self.old.area)) + out_of self.old.book ≤ self.old.area.geometry.units
            → charge (graph self.new.area.geometry (disk M.Media self.new.area)) + out_of self.new.book ≤ self.new.area.geometry.units) }

        // a chunk that does not begin at the mark, or is not accepted, is told as such, and as nothing else
        ensures only_next { IfErr result (λ e. OnRefusal e (λ _. BeginsAtMark log.old chunk.old (disk M.Media self.old.area) × HasAsManyWaiting self.old.book log.old)) }
        ensures bad { IfErr result (λ e. OnRefusal e (NamesFirstBad self.old.area.geometry (disk M.Media self.old.area) log.old chunk.old.count)) }
        ensures never_bad { (m : Machine) (s : Sealed) (place : ℕ) → IsKernelOf M.Media self.old m → IsRunning m → IsRegionOf log.old (m.kernel.accounts log.old.client).mark s → StandsSealed m.kernel.shared (m.kernel.accounts log.old.client) s
            → IsErrOf result (Refused (BadLog place)) → ⊥ }
        ensures refused { OnErr result ((self.new.book ≡ self.old.book) × (log.new ≡ log.old)) }
        ensures answers { Answers self.old.area.failed self.old self.new result (DigestsOrStays M.Media self.old.area self.new.area) }
        // As many writes and fences as the change of the chunk makes, and none where it is not made; what is read is not counted.
        ensures at_most { MakesFewCalls self.old.area.geometry (disk M.Media self.old.area) (chunk_change (graph self.old.area.geometry (disk M.Media self.old.area)) chunk.old) (M.moment self.old.area.media) (M.moment self.new.area.media) (M.left self.old.area.media) (M.left self.new.area.media) }
        // What its Swaps enter is told to a chunk that is digested; one without a Swap stays as it was. After a refusal nothing is said of its change.
        ensures chunk_after { IfOk result (λ a. a ≡ Digested → changes_of chunk.new.change.change ≡ chunk_change (graph self.old.area.geometry (disk M.Media self.old.area)) chunk.old) }
        ensures chunk_without_swap { chunk.old.change.names ≡ [] → chunk.new ≡ chunk.old }
        ensures chunk_rest { chunk.new ≡ record chunk.old { change = chunk.new.change } }
        ensures opening { self.new.opening ≡ self.old.opening }
    {
        if self.area.has_failed() {
            return Err(KernelError::Failed);
        }
        // For the proof: its client is one of the book's.
        log.invariant();
        if !begins_at_mark(&self.area, log, chunk) {
            return Ok(Digestion::NotNext);
        }
        if !has_as_many_waiting(&self.book, log) {
            return Ok(Digestion::NotAccepted);
        }
        match digest_at_mark(
            self.alloc,
            &mut self.area,
            &mut self.book,
            &mut self.nodes,
            log,
            chunk,
        ) {
            Ok(()) => {}
            Err(error) => return Err(KernelError::Refused(error)),
        }
        Ok(Digestion::Digested)
    }

    // ---- files, and where their blocks lie

    /// Drops the file at an inode that has no name and that nobody has pinned: its slot, its blocks and its units are free again. The marks stay, with their number of digests, which counts digests alone. At
    /// each moment a stop leaves the graph with the file or without it, and the same marks.
    ///
    /// `InUse` exactly where there is no such file: one that has a name or a pin, a directory, or nothing at all. A pin, and that nothing is there, is answered before any device is asked. `Memory` where
    /// there was none for the change, which is made of such a file alone. After these nothing has changed. `DeviceFault` where a device failed.
    pub fn reclaim(&mut self, inode: u32) -> Result<(), KernelError<ReclaimError>>
        ensures any_moment { self.old.area.failed ≡ false → StaysOrReclaims self.old.area.geometry (disk M.Media self.old.area) inode (M.moment self.old.area.media) (M.moment self.new.area.media) (M.left self.old.area.media) (M.left self.new.area.media) }
        ensures unused { OnOk result (IsUnused (graph self.old.area.geometry (disk M.Media self.old.area)) self.old.book inode) }
        ensures reclaimed { OnOk result (IsReclaimed self.old.area.geometry (disk M.Media self.old.area) inode (disk M.Media self.new.area)) }
        ensures can { OnOk result ((m : Machine) → IsKernelOf M.Media self.old m → CanReclaim m.kernel inode) }
        ensures step { OnOk result ((m : Machine) → IsKernelOf M.Media self.old m → IsKernelOf M.Media self.new (reclaimed m inode)) }
        ensures in_use { IsErrOf result (Refused reclaims.InUse) → IsUnused (graph self.old.area.geometry (disk M.Media self.old.area)) self.old.book inode → ⊥ }
        // What is no such file is not touched, whatever fails.
        ensures untouched { (IsUnused (graph self.old.area.geometry (disk M.Media self.old.area)) self.old.book inode → ⊥) → Unmoved (M.moment self.old.area.media) (M.moment self.new.area.media) (M.seen self.old.area.media) (M.seen self.new.area.media) (M.left self.old.area.media) (M.left self.new.area.media) }
        ensures pinned { self.old.area.failed ≡ false → is_pinned self.old.book inode ≡ true → IsErrOf result (Refused reclaims.InUse) × (self.new ≡ self.old) }
        ensures memory { IsErrOf result (Refused reclaims.Memory) → IsNameless (graph self.old.area.geometry (disk M.Media self.old.area) inode) }
        ensures book { self.new.book ≡ self.old.book }
        ensures answers { Answers self.old.area.failed self.old self.new result (ReclaimsOrStays M.Media self.old.area self.new.area) }
        // As many writes and fences as the change that drops a node makes, and none where it is not made; what is read is not counted.
        ensures at_most { MakesFewCalls self.old.area.geometry (disk M.Media self.old.area) (coalesced_changes (effect.Drop inode ∷ [])) (M.moment self.old.area.media) (M.moment self.new.area.media) (M.left self.old.area.media) (M.left self.new.area.media) }
        ensures opening { self.new.opening ≡ self.old.opening }
    {
        if self.area.has_failed() {
            return Err(KernelError::Failed);
        }
        // For the proof: a stop leaves what opens as before.
        self.area.left_now();
        if self.book.is_pinned(inode) {
            return Err(KernelError::Refused(ReclaimError::InUse));
        }
        if !self.nodes.contains(inode) {
            return Err(KernelError::Refused(ReclaimError::InUse));
        }
        match drop_nameless(self.alloc, &mut self.area, inode) {
            Ok(()) => {}
            Err(error) => return Err(KernelError::Refused(error)),
        }
        self.nodes.remove(inode);
        Ok(())
    }

    /// Picks what is to be moved to a tier next: of the files with a block in the tier next above it the one with the least touch number, of several the one with the least inode, with its first run there, of 256
    /// blocks at most. `None` where no file has a block there, and for the fast tier. Changes nothing; reads the slots of all inodes and the extents of some, as `migrator::pick` says. Refused: `Failed` exactly where a
    /// device of the kernel had failed before, `DeviceFault` where one fails now, `Memory` where there was none for an extent block.
    pub fn pick(&mut self, to: Tier) -> Result<Option<FileRun>, KernelError<AreaError>>
        ensures picked { IfOk result (IsPicked self.old.area.geometry (disk M.Media self.old.area) to) }
        ensures may_be_moved { IfOk result (λ x. IfSome x (MayBeMoved self.old.area.geometry (disk M.Media self.old.area) to)) }
        ensures only { IfErr result (λ e. OnRefusal e IsNoDamage) }
        ensures memory { IfErr result (λ e. OnRefusal e (λ r. r ≡ Memory → (i : ℕ) × WantsMemory self.old.area.geometry (disk M.Media self.old.area) i)) }
        ensures book { self.new.book ≡ self.old.book }
        ensures answers { Answers self.old.area.failed self.old self.new result (Looks M.Media self.old.area self.new.area) }
        ensures opening { self.new.opening ≡ self.old.opening }
    {
        if self.area.has_failed() {
            return Err(KernelError::Failed);
        }
        let found = match pick(&mut self.area, to) {
            Ok(found) => found,
            Err(error) => return Err(KernelError::Refused(error)),
        };
        Ok(found)
    }

    /// Moves a run of a file's logical blocks, `count` of them from block `first` on, to a tier that is slower than those in which they lie. Graph and marks stay: a stop at any moment leaves the run where it
    /// lay, or all of it moved.
    ///
    /// The refusals, in this order: `NotMapped` exactly where there is no file at the inode, the run has no block or more than 256, or some block of it lies in no tier that is faster than `to`; `NoBlock` exactly
    /// where fewer data blocks of `to` are free than the run has. After these nothing has changed, nor after `Memory`. `DeviceFault` where a device failed. Of writes and fences there are at most one for each block of
    /// the run and 12 more.
    pub fn migrate(
        &mut self,
        inode: u32,
        first: u64,
        count: u32,
        to: Tier,
    ) -> Result<(), KernelError<AreaError>>
        ensures any_moment { self.old.area.failed ≡ false → StaysOpen self.old.area.geometry (disk M.Media self.old.area) inode first count to (M.moment self.old.area.media) (M.moment self.new.area.media) (M.left self.old.area.media) (M.left self.new.area.media) }
        ensures moved { OnOk result (IsMoved self.old.area.geometry (disk M.Media self.old.area) (disk M.Media self.new.area) inode first count to) }
        ensures step { OnOk result ((m : Machine) → IsKernelOf M.Media self.old m → IsKernelOf M.Media self.new m) }
        ensures not_mapped { IsErrOf result (Refused NotMapped) → CanMove self.old.area.geometry (disk M.Media self.old.area) inode first count to → ⊥ }
        ensures no_block { IsErrOf result (Refused NoBlock) → CanMove self.old.area.geometry (disk M.Media self.old.area) inode first count to × HasTooFew self.old.area.geometry (disk M.Media self.old.area) to count }
        ensures can { OnOk result (CanMove self.old.area.geometry (disk M.Media self.old.area) inode first count to × HasEnough self.old.area.geometry (disk M.Media self.old.area) to count) }
        ensures memory { IsErrOf result (Refused Memory) → HasFileRun self.old.area.geometry (disk M.Media self.old.area) inode first count }
        ensures only { IfErr result (λ e. OnRefusal e IsMoveRefusal) }
        ensures book { self.new.book ≡ self.old.book }
        ensures answers { Answers self.old.area.failed self.old self.new result (MovesOrStays M.Media self.old.area self.new.area) }
        ensures at_most { M.moment self.new.area.media ≤ M.moment self.old.area.media + count + 12 }
        ensures opening { self.new.opening ≡ self.old.opening }
    {
        if self.area.has_failed() {
            return Err(KernelError::Failed);
        }
        match migrate(&mut self.area, inode, first, count, to) {
            Ok(()) => {}
            Err(error) => return Err(KernelError::Refused(error)),
        }
        Ok(())
    }
}
