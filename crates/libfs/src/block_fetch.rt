//! Blocks of files that a client fetches of the shared graph, with its own records laid over them.
ghost use Rattle.std.specs.Prelude.{◌≡◌, ◌≢◌, ◌⊎◌, ◌≤◌, ◌<◌, ◌+◌, ◌-◌, ◌*◌, ◌^◌, ◌==◌, ◌↔◌, ◌++◌, ◌∷◌, [], ℕ, List, length, min, true, false, Some, Err, OnOk, OnErr, IfOk, IfErr, IfNone, IfSome, IsTrue, IsErrOf};
ghost use Rattle.posix_calls.specs.declared.limits.TheConstants.{UNIT_BYTES};
ghost use Rattle.kernel_fs.specs.layout.declared.marks.Mark.{Mark};
ghost use Rattle.lease_manager.specs.Passes.{client_of, lease_of};
ghost use Rattle.lease_manager.specs.RecordCounts.{touch_count};
ghost use Rattle.lease_manager.specs.Words.{HasWord};
ghost use Rattle.lease_manager.specs.declared.view.LeaseMode.TheVariants.{Free};
ghost use Rattle.client_log.specs.call_effects.Blocks.{block_of};
ghost use Rattle.client_view.specs.After.{bytes_at, run_laid};
ghost use Rattle.client_view.specs.BlockPut.{IsBlockLong};
ghost use Rattle.client_view.specs.RecordReach.{AreShort};
ghost use Rattle.kernel_fs.specs.area_reader.Store.{disk};
ghost use Rattle.kernel_fs.specs.MachineState.{IsMarkIn};
ghost use Rattle.libfs.specs.declared.denial.Denied.TheVariants as denied;
ghost use Rattle.libfs.specs.ClientHoldings.{known_to};
ghost use Rattle.libfs.specs.NeedService.{HasFetchedBlocks, HasLooked, HasPut, HasPutLaid, HasThem, IsRunBehind, IsRunOf, records_behind, shared_by};
ghost use Rattle.libfs.specs.View.{own_records};

use crate::client::Client;
use crate::copy_fetch::area_denied;
use crate::denial::Denied;
use client_view::FetchedBlock;
use kernel_fs::Kernel;
use kernel_fs::in_layout::Mark;
use lease_manager::is_inode;
use posix_calls::UNIT_BYTES;
use std::alloc::{AllocError, Global};
use tier_device::Media;

// How many blocks are in memory at once, before they are kept: those of 64 KiB.
const RUN: u32 = 16;

impl<M: Media> Client<M> {
    /// Fetches blocks of a file that it holds, of 4,096 bytes each, with the client's own records that are not digested there laid over them. They are the ones used last then. Of a block that is not as long as
    /// the client's copy of the file tells nothing is kept.
    ///
    /// Refused: `KernelFailed` exactly where a device of the kernel had failed before, with nothing changed; `Device` where one fails now, `Memory` where there was none. Blocks may have come before.
    /// Its device calls are reads.
    pub fn fetch_blocks<S: Media>(
        &mut self,
        kernel: &mut Kernel<S>,
        inode: u32,
        first: u32,
        count: u32,
    ) -> Result<(), Denied>
        requires inode { HasWord inode }
        requires held { lease_of self.old.pass inode ≢ Free }
        requires blocks { first + count < 2 ^ 32 }
        ensures fetched { HasFetchedBlocks M.Media S.Media kernel.old self.old inode first count self.new }
        ensures there { OnOk result (HasThem M.Media S.Media kernel.old self.old inode first count self.new) }
        ensures looks { HasLooked S.Media kernel.old kernel.new result }
        ensures failed { kernel.old.area.failed ≡ true → (result ≡ Err denied.KernelFailed) × (self.new ≡ self.old) × (kernel.new ≡ kernel.old) }
        ensures going { IsErrOf result denied.KernelFailed → kernel.old.area.failed ≡ true }
        ensures only { IfErr result (λ e. (e ≡ denied.KernelFailed) ⊎ (e ≡ denied.Device) ⊎ (e ≡ denied.Memory)) }
    {
        if kernel.has_failed() {
            return Err(Denied::KernelFailed);
        }
        self.fetch_runs(kernel, inode, first, count)
    }

    // Fetches blocks run by run, of a kernel that has not failed.
    fn fetch_runs<S: Media>(
        &mut self,
        kernel: &mut Kernel<S>,
        inode: u32,
        first: u32,
        count: u32,
    ) -> Result<(), Denied>
        requires blocks { first + count < 2 ^ 32 }
        requires going { kernel.old.area.failed ≡ false }
        ensures fetched { HasFetchedBlocks M.Media S.Media kernel.old self.old inode first count self.new }
        ensures there { OnOk result (HasThem M.Media S.Media kernel.old self.old inode first count self.new) }
        ensures looks { HasLooked S.Media kernel.old kernel.new result }
        ensures only { IfErr result (λ e. (e ≡ denied.Device) ⊎ (e ≡ denied.Memory)) }
    {
        let mut done = 0;
        for run in 0..count / RUN {
            self.fetch_run(kernel, inode, first + done, RUN)?;
            done += RUN;
        }
        self.fetch_run(kernel, inode, first + done, count - done)
    }

    // Fetches a run of blocks, which are in memory at once.
    fn fetch_run<S: Media>(
        &mut self,
        kernel: &mut Kernel<S>,
        inode: u32,
        first: u32,
        count: u32,
    ) -> Result<(), Denied>
        requires blocks { first + count < 2 ^ 32 }
        requires going { kernel.old.area.failed ≡ false }
        ensures fetched { HasFetchedBlocks M.Media S.Media kernel.old self.old inode first count self.new }
        ensures there { OnOk result (HasThem M.Media S.Media kernel.old self.old inode first count self.new) }
        ensures looks { HasLooked S.Media kernel.old kernel.new result }
        ensures only { IfErr result (λ e. (e ≡ denied.Device) ⊎ (e ≡ denied.Memory)) }
    {
        let run = self.lay_run(kernel, inode, first, count)?;
        for place in 0..count {
            self.put_laid(inode, first + place, &run[place as usize])?;
        }
        Ok(())
    }

    // Reads a run of blocks of the kernel's graph, with the own records behind the mark laid over it.
    fn lay_run<S: Media>(
        &self,
        kernel: &mut Kernel<S>,
        inode: u32,
        first: u32,
        count: u32,
    ) -> Result<Vec<FetchedBlock>, Denied>
        requires blocks { first + count < 2 ^ 32 }
        requires going { kernel.old.area.failed ≡ false }
        ensures laid { IfOk result (λ run. IsRunBehind M.Media S.Media kernel.old self.now inode first count run.items) }
        ensures looks { HasLooked S.Media kernel.old kernel.new result }
        ensures only { IfErr result (λ e. (e ≡ denied.Device) ⊎ (e ≡ denied.Memory)) }
    {
        let mut run = Vec::new(self.alloc);
        let mark = self.read_run(kernel, inode, first, count, &mut run)?;
        self.lay_marked(mark, inode, first, &mut run);
        Ok(run)
    }

    // Reads a run of blocks of the kernel's graph, with the client's mark, where there are any.
    fn read_run<S: Media>(
        &self,
        kernel: &mut Kernel<S>,
        inode: u32,
        first: u32,
        count: u32,
        run: &mut Vec<FetchedBlock>,
    ) -> Result<Option<Mark>, Denied>
        requires empty { run.old.items ≡ [] }
        requires blocks { first + count < 2 ^ 32 }
        requires going { kernel.old.area.failed ≡ false }
        ensures run { OnOk result (IsRunOf (bytes_at (shared_by S.Media kernel.old) inode) first count run.new.items) }
        ensures mark { IfOk result (λ found. 0 < count → (mark : Mark) × (found ≡ Some mark) × IsMarkIn (disk S.Media kernel.old.area) (client_of self.now.pass) mark) }
        ensures looks { HasLooked S.Media kernel.old kernel.new result }
        ensures only { IfErr result (λ e. (e ≡ denied.Device) ⊎ (e ≡ denied.Memory)) }
    {
        let mut mark = None;
        for place in 0..count {
            let (block, found) = self.read_block(kernel, inode, first + place)?;
            push_block(run, block)?;
            mark = Some(found);
        }
        Ok(mark)
    }

    // Reads a block of the kernel's graph, with the client's mark.
    fn read_block<S: Media>(
        &self,
        kernel: &mut Kernel<S>,
        inode: u32,
        block: u32,
    ) -> Result<(FetchedBlock, Mark), Denied>
        requires going { kernel.old.area.failed ≡ false }
        ensures block { IfOk result (λ x. x.0 ≡ Some (block_of block (bytes_at (shared_by S.Media kernel.old) inode))) }
        ensures mark { IfOk result (λ x. IsMarkIn (disk S.Media kernel.old.area) (client_of self.now.pass) x.1) }
        ensures looks { HasLooked S.Media kernel.old kernel.new result }
        ensures only { IfErr result (λ e. (e ≡ denied.Device) ⊎ (e ≡ denied.Memory)) }
    {
        let mut buffer = match block_buffer(self.alloc) {
            Ok(buffer) => buffer,
            Err(_) => return Err(Denied::Memory),
        };
        match kernel.blocks(self.pass.client(), inode, block, &mut buffer) {
            Ok(found) => Ok((FetchedBlock::of(buffer, found.count), found.mark)),
            Err(error) => Err(area_denied(error)),
        }
    }

    // Lays the own records behind a mark, if there is one, over a run of blocks.
    fn lay_marked(&self, mark: Option<Mark>, inode: u32, first: u32, run: &mut [FetchedBlock])
        requires blocks { first + length run.old ≤ 2 ^ 32 }
        requires short { AreShort run.old }
        ensures laid { IfSome mark (λ m. run.new ≡ run_laid (records_behind M.Media self.now m) inode first run.old) }
        ensures none { IfNone mark (run.new ≡ run.old) }
    {
        match mark {
            Some(mark) => self.lay_own(mark, inode, first, run),
            None => {}
        }
    }

    // Lays the own records behind a mark over a run of blocks: each record is looked at once.
    fn lay_own(&self, mark: Mark, inode: u32, first: u32, run: &mut [FetchedBlock])
        requires blocks { first + length run.old ≤ 2 ^ 32 }
        requires short { AreShort run.old }
        ensures { run.new ≡ run_laid (records_behind M.Media self.now mark) inode first run.old }
    {
        if !self.has_own_records(inode) {
            return;
        }
        let is_current = self.is_current(mark);
        let done = mark.done as usize;
        self.records.lay_over(is_current, done, inode, first, run);
    }

    // Whether a record of its own that is not digested touches an inode.
    fn has_own_records(&self, inode: u32) -> bool
        ensures { result ≡ false → HasWord inode × (touch_count (own_records M.Media self.now) inode ≡ 0) }
    {
        if !is_inode(inode) {
            return true;
        }
        self.pass.records(inode) > 0
    }

    // Whether a mark is in the generation of the region that is written.
    fn is_current(&self, mark: Mark) -> bool
        ensures { result ≡ (mark.generation == self.now.log.generation) }
    {
        mark.generation == self.log.generation()
    }

    // Keeps a block over which the own records are laid, unless no file stands there.
    fn put_laid(&mut self, inode: u32, block: u32, laid: &FetchedBlock) -> Result<(), Denied>
        ensures put { OnOk result (HasPutLaid self.old inode block laid.now self.new) }
        ensures same { OnErr result (self.new ≡ self.old) }
        ensures only { IfErr result (λ e. e ≡ denied.Memory) }
    {
        match laid.bytes() {
            Some(bytes) => self.put_block(inode, block, bytes),
            None => Ok(()),
        }
    }

    // Keeps a block that is as long as the client's copy of the file tells, and no other.
    fn put_block(&mut self, inode: u32, block: u32, bytes: &[u8]) -> Result<(), Denied>
        ensures put { OnOk result (HasPut self.old inode block bytes.now self.new) }
        ensures same { OnErr result (self.new ≡ self.old) }
        ensures only { IfErr result (λ e. e ≡ denied.Memory) }
    {
        if !self.is_as_long(inode, block, bytes.len()) {
            return Ok(());
        }
        match self.copies.put_block(inode, block, bytes) {
            Ok(()) => Ok(()),
            Err(_) => Err(Denied::Memory),
        }
    }

    // Whether a block of a file has so many bytes, as the client's copy of the file tells.
    fn is_as_long(&self, inode: u32, block: u32, len: usize) -> bool
        ensures { (bytes : List ℕ) → length bytes ≡ len → (IsTrue result ↔ IsBlockLong (known_to self.now) inode block bytes) }
    {
        match self.copies.size_of(inode) {
            Some(size) => len as u64 == length_at(size, block),
            None => false,
        }
    }
}

// How many bytes a file of a size has in one of its blocks.
fn length_at(size: u64, block: u32) -> u64
    ensures { result ≡ min UNIT_BYTES (size - UNIT_BYTES * block) }
{
    let before = UNIT_BYTES as u64 * block as u64;
    size.saturating_sub(before).min(UNIT_BYTES as u64)
}

// A buffer for one block.
fn block_buffer(alloc: Global) -> Result<Vec<u8>, AllocError>
    ensures { IfOk result (λ buffer. length buffer.items ≡ UNIT_BYTES) }
{
    let size = UNIT_BYTES as usize;
    vec![in alloc; 0u8; size]
}

// Puts a block behind the others of a run.
fn push_block(run: &mut Vec<FetchedBlock>, block: FetchedBlock) -> Result<(), Denied>
    ensures pushed { OnOk result (run.new.items ≡ run.old.items ++ block ∷ []) }
    ensures only { IfErr result (λ e. e ≡ denied.Memory) }
{
    match run.push(block) {
        Ok(()) => Ok(()),
        Err(_) => Err(Denied::Memory),
    }
}
