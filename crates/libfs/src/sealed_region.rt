//! A region that a client sealed, until it is taken back.

ghost use Rattle.std.specs.Prelude.{◌≡◌, ◌≢◌, ◌⊎◌, ◌<◌, ◌^◌, ◌==◌, ℕ, List, [], Ok, length, true, false, IfErr, IfOk, IsErrOf, OnErr, OnOk};
ghost use Rattle.std.specs.List.{AllByRecursion};
ghost use Rattle.std.specs.List.Sorted.{IsStrictlyIncreasing};
ghost use Rattle.tier_device.specs.declared.media.Tier.TheVariants.{Fast};
ghost use Rattle.tier_device.specs.Media.{Rose};
ghost use Rattle.client_log.specs.update_log.Frames.{records};
ghost use Rattle.client_log.specs.update_log.View.{records_of};
ghost use Rattle.client_log.specs.update_log.WipeStops.{generation as named_in};
ghost use Rattle.client_log.specs.Calls.{IsOnlyRead};
ghost use Rattle.client_log.specs.Regions.{IsSealedRegion};
ghost use Rattle.client_log.specs.declared.error.LogError.TheVariants as logs;
ghost use Rattle.lease_manager.specs.log_record.Grammar.{IsRecord};
ghost use Rattle.posix_calls.specs.Operations.{is_client};
ghost use Rattle.kernel_fs.specs.area_reader.Store.{disk, graph};
ghost use Rattle.kernel_fs.specs.declared.chunk_digest.Digestion.TheVariants.{Digested};
ghost use Rattle.kernel_fs.specs.graph_change.View.{changes_of};
ghost use Rattle.kernel_fs.specs.digester.Chunk.{IsChunkOf, chunk_change, is_next};
ghost use Rattle.kernel_fs.specs.digester.SealedLog.{HasUndigested, IsSealed};
ghost use Rattle.kernel_fs.specs.digester.declared.error.DigestError.TheVariants.{Memory};
ghost use Rattle.libfs.specs.SealedRegion.{AcceptsLog, DigestsChunk, log_of};

use client_log::in_update_log::Region;
use client_log::{LogError, left_of_sealed, read_sealed};
use kernel_fs::in_digester::{Chunk, DigestError, SealedLog, prepare};
use kernel_fs::{AcceptError, Digestion, Kernel, KernelError};
use std::alloc::Global;
use std::marker::Model;
use tier_device::Media;

/// A region that its client sealed, with all its records, until the client takes it back: its records are read, the kernel accepts it, and it is digested chunk by chunk. Nothing is
/// written to it meanwhile.
///
/// Contracts see `SealedRegionView` (`specs/SealedRegion.antt`). `read_records`, `prepare` and `free_records` ask no kernel.
#[derive(Drop)]
pub struct SealedRegion<M: Media> {
    client: u32,
    generation: u64,
    region: Region<M>,
    // the inodes that the client held for writing
    held: Vec<u32>,
    count: usize,
    // its records, from when they are read until their memory is freed
    log: Option<SealedLog>,
    // how many were digested, once the memory of the records was freed
    freed: Option<u32>,
    accepted: bool,
}

impl<M: Media> Model for SealedRegion<M> {
    ghost use Rattle.libfs.specs.SealedRegion.{SealedRegionView, IsKept, done_in, is_read_in};

    ghost Value = { SealedRegionView M };

    ghost view = { λ r. record { client = r.client; generation = r.generation; region = r.region; held = r.held.items; read = is_read_in r.log r.freed; accepted = r.accepted; done = done_in r.log r.freed } };

    ghost invariant = { λ r. IsKept M.Media r.client r.generation r.region r.held.items r.count r.log r.freed r.accepted };
}

impl<M: Media> SealedRegion<M> {
    // The region of a client that has just sealed it with so many records, and held these inodes for writing.
    pub(crate) fn new(
        client: u32,
        generation: u64,
        region: Region<M>,
        held: Vec<u32>,
        count: usize,
    ) -> Self
        requires number { is_client client ≡ true }
        requires sealed { IsSealedRegion M.Media generation region }
        requires rising { IsStrictlyIncreasing held.items }
        requires spelled { AllByRecursion IsRecord (records_of M.Media region) }
        requires counted { count ≡ length (records_of M.Media region) }
        ensures { result ≡ record { client = client; generation = generation; region = region; held = held.items; read = false; accepted = false; done = 0 } }
    {
        SealedRegion {
            client,
            generation,
            region,
            held,
            count,
            log: None,
            freed: None,
            accepted: false,
        }
    }

    /// Whose it is, from 1 to 8.
    pub fn client(&self) -> u32
        ensures { result ≡ self.now.client }
    {
        self.client
    }

    /// The generation of its records.
    pub fn generation(&self) -> u64
        ensures { result ≡ self.now.generation }
    {
        self.generation
    }

    /// How many records it has, digested or not.
    pub fn count(&self) -> usize
        ensures { result ≡ length (records_of M.Media self.now.region) }
    {
        self.count
    }

    /// How many of its records are digested.
    pub fn digested_count(&self) -> u32
        ensures { result ≡ self.now.done }
    {
        match &self.log {
            Some(log) => log.digested_count(),
            None => self.freed.unwrap_or(0),
        }
    }

    /// Whether all its records are digested.
    pub fn is_digested(&self) -> bool
        ensures exact { result ≡ (self.now.done == length (records_of M.Media self.now.region)) }
    {
        self.digested_count() as usize == self.count()
    }

    /// Whether its records are read.
    pub fn is_read(&self) -> bool
        ensures { result ≡ self.now.read }
    {
        self.log.is_some() || self.freed.is_some()
    }

    /// Whether the kernel has accepted it.
    pub fn is_accepted(&self) -> bool
        ensures accepted { result ≡ self.now.accepted }
        ensures read { result ≡ true → self.now.read ≡ true }
    {
        self.accepted
    }

    /// States what holds of it: it is at rest with some records, which every stop leaves, and its header names its generation; and what holds of its log.
    pub fn left_now(&self)
        ensures sealed { IsSealedRegion M.Media self.now.generation self.now.region }
        ensures few { length (records_of M.Media self.now.region) < 2 ^ 32 }
        ensures rests { (c : List ℕ) → M.left self.now.region.media (M.moment self.now.region.media) Fast c → c ≡ M.seen self.now.region.media Fast }
        ensures records { (c : List ℕ) → M.left self.now.region.media (M.moment self.now.region.media) Fast c → records c ≡ records_of M.Media self.now.region }
        ensures names { (c : List ℕ) → M.left self.now.region.media (M.moment self.now.region.media) Fast c → named_in c ≡ self.now.generation }
        ensures log { IsSealed (log_of M.Media self.now) }
    {
        left_of_sealed(&self.region, self.generation);
        match &self.log {
            Some(log) => log.invariant(),
            None => {}
        }
    }

    /// Reads the records from the medium into memory, where they were not read yet, and changes nothing on it. It asks no kernel.
    ///
    /// `DeviceFault` where the device fails, `Memory` for want of memory; it may be asked again after either.
    pub fn read_records(&mut self, alloc: Global) -> Result<(), LogError>
        ensures read { OnOk result (self.new.read ≡ true) }
        ensures only_read { IsOnlyRead M.Media self.old.region self.new.region }
        ensures rest { self.new ≡ record self.old { region = self.new.region; read = self.new.read } }
        ensures again { self.old.read ≡ true → (result ≡ Ok tt) × (self.new ≡ self.old) }
        ensures unread { OnErr result ((self.old.read ≡ false) × (self.new.read ≡ false)) }
        ensures only { IfErr result (λ e. (e ≡ logs.DeviceFault) ⊎ (e ≡ logs.Memory)) }
        ensures fault { IsErrOf result logs.DeviceFault → Rose (M.faults self.old.region.media) (M.faults self.new.region.media) }
        ensures quiet { IsErrOf result logs.DeviceFault ⊎ (M.faults self.new.region.media ≡ M.faults self.old.region.media) }
    {
        if self.is_read() {
            return Ok(());
        }
        left_of_sealed(&self.region, self.generation);
        let Ok(held) = self.held.to_vec(alloc) else {
            return Err(LogError::Memory);
        };
        let records = read_sealed(&mut self.region, self.generation)?;
        let log = SealedLog::new(self.client, self.generation, held, records);
        self.log = Some(log);
        Ok(())
    }

    // The log, once the records are read and while one of them is not digested.
    fn log(&self) -> &SealedLog
        requires read { self.now.read ≡ true }
        requires some { HasUndigested (log_of M.Media self.now) }
        ensures { result.now ≡ log_of M.Media self.now }
    {
        match &self.log {
            Some(log) => log,
            None => unreachable!(),
        }
    }

    /// Has the kernel accept it, before any of its records is digested; its records have to be read. It makes no device call.
    ///
    /// Refused as `Kernel::accept` is, with nothing changed.
    pub fn accept<K: Media>(
        &mut self,
        kernel: &mut Kernel<K>,
    ) -> Result<(), KernelError<AcceptError>>
        requires read { self.old.read ≡ true }
        requires some { HasUndigested (log_of M.Media self.old) }
        ensures accepts { AcceptsLog K.Media kernel.old (log_of M.Media self.old) result kernel.new }
        ensures accepted { OnOk result (self.new ≡ record self.old { accepted = true }) }
        ensures refused { OnErr result (self.new ≡ self.old) }
    {
        kernel.accept(self.log())?;
        self.accepted = true;
        Ok(())
    }

    /// Prepares the next chunk: the longest run of its next records that one batch takes, one at least, and what it comes to. Its records have to be read, and one of them not digested. It
    /// asks no kernel. An error is want of memory.
    pub fn prepare(&self, alloc: Global) -> Result<Chunk, DigestError>
        requires read { self.now.read ≡ true }
        requires some { HasUndigested (log_of M.Media self.now) }
        ensures exact { IfOk result (IsChunkOf (log_of M.Media self.now)) }
        ensures next { IfOk result (λ chunk. is_next (log_of M.Media self.now) chunk ≡ true) }
        ensures only { IfErr result (λ e. e ≡ Memory) }
    {
        prepare(alloc, self.log())
    }

    /// Has the kernel digest a chunk of it, as `Kernel::digest` does, whose answers and refusals it gives. Its records have to be read, and one of them not digested. Only how many are
    /// digested changes, and that only where the chunk is. What its Swaps enter is told to a chunk that is digested; where one with a Swap is refused by the area, nothing is said of its
    /// change, and it is to be prepared again.
    pub fn digest<K: Media>(
        &mut self,
        kernel: &mut Kernel<K>,
        chunk: &mut Chunk,
    ) -> Result<Digestion, KernelError<DigestError>>
        requires read { self.old.read ≡ true }
        requires some { HasUndigested (log_of M.Media self.old) }
        requires chunk { IsChunkOf (log_of M.Media self.old) chunk.old }
        ensures digests { DigestsChunk K.Media kernel.old (log_of M.Media self.old) chunk.old result (log_of M.Media self.new) kernel.new }
        ensures rest { self.new ≡ record self.old { done = self.new.done } }
        ensures chunk_stays { IfOk result (λ a. a ≢ Digested → chunk.new ≡ chunk.old) }
        ensures chunk_unasked { kernel.old.area.failed ≡ true → chunk.new ≡ chunk.old }
        ensures chunk_after { IfOk result (λ a. a ≡ Digested → changes_of chunk.new.change.change ≡ chunk_change (graph kernel.old.area.geometry (disk K.Media kernel.old.area)) chunk.old) }
        ensures chunk_without_swap { chunk.old.change.names ≡ [] → chunk.new ≡ chunk.old }
        ensures chunk_rest { chunk.new ≡ record chunk.old { change = chunk.new.change } }
    {
        match &mut self.log {
            Some(log) => kernel.digest(log, chunk),
            None => unreachable!(),
        }
    }

    /// Frees the memory of the records, if they all are digested: the thread that has read them has it back then, and the client, which takes the region back, need not free it. Contracts
    /// see no change.
    pub fn free_records(&mut self)
        ensures { self.new ≡ self.old }
    {
        if self.log.is_some() && self.is_digested() {
            self.freed = Some(self.digested_count());
            self.log = None;
        }
    }

    /// The region. Its client does not take it back then.
    pub fn into_region(self) -> Region<M>
        ensures { result ≡ self.region }
    {
        self.region
    }
}
