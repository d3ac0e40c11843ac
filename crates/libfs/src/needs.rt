//! What a call needs of the kernel, whichever it is.
ghost use Rattle.std.specs.Prelude.{◌≡◌, ◌≢◌, ◌⊎◌, ◌<◌, ◌≤◌, ◌+◌, ◌^◌, ◌↔◌, true, false, None, is_some, Ok, Err, OnErr, OnOk, IfErr, IfSome, IsErrOf, IsTrue};
ghost use Rattle.lease_manager.specs.Passes.{lease_of};
ghost use Rattle.lease_manager.specs.Words.{HasWord};
ghost use Rattle.lease_manager.specs.declared.view.LeaseMode.TheVariants.{Free};
ghost use Rattle.lease_manager.specs.file_graph.Units.{charge};
ghost use Rattle.kernel_fs.specs.Book.{is_free, out_of};
ghost use Rattle.kernel_fs.specs.Free.{count_of};
ghost use Rattle.kernel_fs.specs.Nodes.{nodes_in};
ghost use Rattle.kernel_fs.specs.area_reader.Map.{WantsMemory};
ghost use Rattle.kernel_fs.specs.area_reader.Store.{disk};
ghost use Rattle.libfs.specs.declared.denial.Denied.TheVariants as denied;
ghost use Rattle.libfs.specs.ClientHoldings.{known_to};
ghost use Rattle.libfs.specs.NeedService.{HasNotServed, HasServed, IsServable, LeavesKernel, MayBeDenied, copy_needed, inodes_needed, is_read, shared_by, units_needed};

use crate::client::Client;
use crate::denial::Denied;
use client_view::in_client_plan::Need;
use kernel_fs::Kernel;
use lease_manager::{LeaseMode, is_inode};
use tier_device::Media;

impl<M: Media> Client<M> {
    /// Has what a call needs served by the kernel: all but a lease, which a client takes by its own pass, and room in its region. Where a `View` asks for a copy that the client has, that stays, and the kernel reads nothing.
    ///
    /// Refused as `fetch`, `fetch_blocks`, `refill`, `pin` and `unpin` are: `KernelFailed` where a device of the kernel had failed before; `Device` where one fails now, as copies are read; `NoUnits`
    /// and `NoInode` where the book has no more; `Memory` where there was none. Nothing has changed then of the client but for blocks that had come; what is refused can be told to the call by `deny`.
    pub fn serve<S: Media>(&mut self, kernel: &mut Kernel<S>, need: &Need) -> Result<(), Denied>
        requires servable { IsServable self.old need.now }
        ensures served { OnOk result (HasServed M.Media S.Media kernel.old self.old need.now self.new kernel.new) }
        ensures refused { OnErr result (HasNotServed M.Media S.Media kernel.old self.old need.now self.new) }
        ensures leaves { LeavesKernel S.Media need.now kernel.old kernel.new result }
        ensures out { OnOk result (out_of kernel.new.book ≡ out_of kernel.old.book + units_needed need.now) }
        ensures going { OnOk result (kernel.old.area.failed ≡ false) }
        ensures failed { IsErrOf result denied.KernelFailed → kernel.old.area.failed ≡ true }
        ensures untouched { kernel.old.area.failed ≡ true → (self.new ≡ self.old) × (kernel.new ≡ kernel.old) }
        ensures read { kernel.old.area.failed ≡ true → is_read need.now ≡ true → result ≡ Err denied.KernelFailed }
        // A kernel that has failed tells just that, where there is memory.
        ensures stopped { kernel.old.area.failed ≡ true → IfErr result (λ e. (e ≡ denied.KernelFailed) ⊎ (e ≡ denied.Memory)) }
        ensures no_units { IsErrOf result denied.NoUnits → (kernel.old.area.failed ≡ false) × (kernel.old.area.geometry.units < charge (shared_by S.Media kernel.old) + out_of kernel.old.book + units_needed need.now) }
        ensures no_inode { IsErrOf result denied.NoInode → (kernel.old.area.failed ≡ false) × (charge (shared_by S.Media kernel.old) + out_of kernel.old.book + units_needed need.now ≤ kernel.old.area.geometry.units)
            × (count_of (is_free kernel.old.book (nodes_in (shared_by S.Media kernel.old))) < inodes_needed need.now) }
        ensures only { IfErr result (MayBeDenied need.now) }
        ensures there { IfSome (copy_needed need.now) (λ i. kernel.old.area.failed ≡ false → is_some ((known_to self.old).copies i) ≡ true → (result ≡ Ok tt) × (self.new ≡ self.old) × (kernel.new ≡ kernel.old)) }
        ensures memory { IfSome (copy_needed need.now) (λ i. IsErrOf result denied.Memory → ((known_to self.old).copies i ≡ None) × WantsMemory kernel.old.area.geometry (disk S.Media kernel.old.area) i) }
    {
        match *need {
            Need::View { inode } => self.fetch(kernel, inode),
            Need::Blocks {
                inode,
                first,
                count,
            } => self.fetch_blocks(kernel, inode, block_number(first), count),
            Need::Inodes { count } => {
                // For the proof: the spare units have 32 bits.
                let _ = &self.spare;
                self.refill(kernel, 0, count)
            }
            Need::Units { count } => self.refill(kernel, count, 0),
            Need::Pin { inode } => self.pin(kernel, inode),
            Need::Unpin { inode } => self.unpin(kernel, inode),
            Need::Lease { .. } => unreachable!(),
            Need::Room => unreachable!(),
        }
    }

    /// Whether the kernel can serve what a call needs, as `serve` asks for: the kernel serves no lease and no room; copies and blocks are of an inode that the client holds, a pin that goes is of a file that it
    /// has not open, and what is asked for is within the bounds of inodes, blocks and units.
    pub fn is_servable(&self, need: &Need) -> bool
        ensures { IsTrue result ↔ IsServable self.now need.now }
    {
        match *need {
            Need::View { inode } => self.is_held(inode) && self.begun.is_none(),
            Need::Blocks {
                inode,
                first,
                count,
            } => self.is_held(inode) && are_numbered(first, count),
            Need::Units { count } => self.spare.checked_add(count).is_some(),
            Need::Pin { inode } => is_inode(inode),
            Need::Unpin { inode } => !self.has_open(inode),
            Need::Inodes { .. } => true,
            Need::Lease { .. } | Need::Room => false,
        }
    }

    // Whether it holds an inode, for reading or for writing.
    fn is_held(&self, inode: u32) -> bool
        ensures { IsTrue result ↔ (HasWord inode × (lease_of self.now.pass inode ≢ Free)) }
    {
        is_inode(inode) && self.holds(inode) != LeaseMode::Free
    }
}

// The number of a block, which has 32 bits.
fn block_number(block: u64) -> u32
    requires { block < 2 ^ 32 }
    ensures { result ≡ block }
{
    block as u32
}

// Whether so many blocks from one on have numbers of 32 bits.
fn are_numbered(first: u64, count: u32) -> bool
    ensures { IsTrue result ↔ first + count < 2 ^ 32 }
{
    match first.checked_add(count as u64) {
        Some(end) => end <= u32::MAX as u64,
        None => false,
    }
}
