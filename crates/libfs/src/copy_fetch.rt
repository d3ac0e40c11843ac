//! Copies that a client fetches of the shared graph.
ghost use Rattle.std.specs.Prelude.{◌≡◌, ◌≢◌, ◌⊎◌, true, false, None, Ok, Err, OnOk, OnErr, IfErr, IsErrOf, is_some};
ghost use Rattle.lease_manager.specs.RecordCounts.{touch_count};
ghost use Rattle.lease_manager.specs.Passes.{lease_of};
ghost use Rattle.lease_manager.specs.Words.{HasWord};
ghost use Rattle.lease_manager.specs.declared.view.LeaseMode.TheVariants.{Free};
ghost use Rattle.client_log.specs.call_effects.Knowledge.{with_copy};
ghost use Rattle.block_cache.specs.CacheList.{without_file};
ghost use Rattle.kernel_fs.specs.area_reader.Map.{WantsMemory};
ghost use Rattle.kernel_fs.specs.area_reader.Store.{disk};
ghost use Rattle.kernel_fs.specs.shared_area.Parts.{IsNoDamage};
ghost use Rattle.kernel_fs.specs.KernelAnswers.{OnRefusal};
ghost use Rattle.libfs.specs.declared.denial.Denied.TheVariants as denied;
ghost use Rattle.libfs.specs.ClientHoldings.{known_to};
ghost use Rattle.libfs.specs.NeedService.{HasFetched, HasLooked, area_denied};
ghost use Rattle.libfs.specs.View.{own_records};

use crate::client::Client;
use crate::denial::Denied;
use client_view::in_record_validation::NodeSummary;
use kernel_fs::in_area_reader::AreaError;
use kernel_fs::{Kernel, KernelError};
use tier_device::Media;

impl<M: Media> Client<M> {
    /// Fetches a copy of what stands at an inode that it holds, the shared node, where it has none; then no record of its own that is not digested touches the inode. A copy that it has stays, with its blocks, and the kernel reads nothing.
    ///
    /// Refused: `KernelFailed` exactly where a device of the kernel had failed before; and only where it has no copy `Device`, where one fails now, and `Memory`, where there was none for an extent block of the
    /// kernel's or for an entry. The client is as it was then. The kernel's device calls are reads.
    pub fn fetch<S: Media>(&mut self, kernel: &mut Kernel<S>, inode: u32) -> Result<(), Denied>
        requires inode { HasWord inode }
        requires held { lease_of self.old.pass inode ≢ Free }
        requires idle { self.old.begun ≡ None }
        ensures fetched { OnOk result (HasFetched M.Media S.Media kernel.old self.old inode self.new) }
        ensures there { kernel.old.area.failed ≡ false → is_some ((known_to self.old).copies inode) ≡ true → (result ≡ Ok tt) × (self.new ≡ self.old) × (kernel.new ≡ kernel.old) }
        ensures looks { HasLooked S.Media kernel.old kernel.new result }
        ensures failed { kernel.old.area.failed ≡ true → (result ≡ Err denied.KernelFailed) × (kernel.new ≡ kernel.old) }
        ensures going { IsErrOf result denied.KernelFailed → kernel.old.area.failed ≡ true }
        ensures only { IfErr result (λ e. (e ≡ denied.KernelFailed) ⊎ (e ≡ denied.Device) ⊎ (e ≡ denied.Memory)) }
        ensures memory { IsErrOf result denied.Memory → ((known_to self.old).copies inode ≡ None) × WantsMemory kernel.old.area.geometry (disk S.Media kernel.old.area) inode }
        ensures refused { OnErr result (self.new ≡ self.old) }
    {
        if kernel.has_failed() {
            return Err(Denied::KernelFailed);
        }
        if self.has_copy(inode) {
            return Ok(());
        }
        match kernel.fetch(self.pass.client(), inode) {
            Ok(found) => {
                self.put_copy(inode, found.node);
                Ok(())
            }
            Err(error) => Err(area_denied(error)),
        }
    }

    // Whether it has a copy of an inode. Where it has none, no record of its own that is not digested touches it, unless one is begun.
    fn has_copy(&self, inode: u32) -> bool
        ensures copy { result ≡ is_some ((known_to self.now).copies inode) }
        ensures untouched { result ≡ false → self.now.begun ≡ None → touch_count (own_records M.Media self.now) inode ≡ 0 }
    {
        self.copies.has_copy(inode)
    }

    // Puts the copy of a shared node, where there is none.
    fn put_copy(&mut self, inode: u32, node: Option<NodeSummary>)
        requires inode { HasWord inode }
        requires idle { self.old.begun ≡ None }
        requires none { (known_to self.old).copies inode ≡ None }
        ensures known { known_to self.new ≡ with_copy (known_to self.old) inode node }
        ensures numbers { self.new.copies.numbers ≡ self.old.copies.numbers }
        ensures order { self.new.copies.blocks ≡ without_file inode self.old.copies.blocks }
        ensures rest { self.new ≡ record self.old { copies = self.new.copies } }
    {
        self.copies.put_view(inode, node);
    }
}

/// Why the kernel told nothing, as a client tells it.
pub(crate) fn area_denied(error: KernelError<AreaError>) -> Denied
    requires { OnRefusal error IsNoDamage }
    ensures { result ≡ area_denied error }
{
    match error {
        KernelError::Failed => Denied::KernelFailed,
        KernelError::Refused(AreaError::DeviceFault) => Denied::Device,
        KernelError::Refused(AreaError::Memory) => Denied::Memory,
        KernelError::Refused(
            AreaError::Damaged { .. } | AreaError::NoBlock | AreaError::NotMapped,
        ) => unreachable!(),
    }
}
