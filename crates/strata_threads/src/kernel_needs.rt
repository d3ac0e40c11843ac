//! What a call needs of the kernel.
ghost use Rattle.std.specs.Prelude.{◌≡◌, ◌≢◌, true, IfErr, OnOk};
ghost use Rattle.libfs.specs.NeedService.{HasServed, IsServable};
ghost use Rattle.libfs.specs.kernel_fs.KernelView.{KernelView};
ghost use Rattle.libfs.specs.declared.denial.Denied.TheVariants as denied;
ghost use Rattle.strata_threads.specs.CallDenials.{IsRefused, IsUnmet, is_for_kernel};
ghost use Rattle.strata_threads.specs.ClientCalls.{KeepsCall};
ghost use Rattle.strata_threads.specs.LeaseReturn.{KeepsLeases};

use crate::shared_kernel::SharedKernel;
use crate::thread_client::ThreadClient;
use libfs::in_client_plan::Need;
use libfs::in_kernel_fs::Kernel;
use libfs::{Client, Denied};
use std::sync::Wait;
use tier_device::Media;

impl<M: Media + Drop> ThreadClient<M> {
    // Has a need served by the kernel, under the lock.
    pub(crate) fn ask_kernel<R: Wait>(
        &mut self,
        rt: &R,
        shared: &SharedKernel<M>,
        need: &Need,
    ) -> Result<(), Denied>
        requires kernels { is_for_kernel need.now ≡ true }
        ensures served { OnOk result ((kernel : KernelView M) × (after : KernelView M) × HasServed M.Media M.Media kernel self.old.client need.now self.new.client after) }
        ensures unmet { IfErr result (λ e. IsUnmet M.Media self.old.client need.now e self.new.client) }
        ensures kept { KeepsCall self.old.client self.new.client }
        ensures waited { self.new.waited ≡ self.old.waited }
        ensures only { IfErr result (λ e. e ≢ denied.Turns) }
    {
        if !self.client.is_servable(need) {
            return Err(Denied::NoUnits);
        }
        let mut kernel = shared.lock(rt);
        serve(&mut self.client, &mut *kernel, need)
    }
}

// Serves a need. A file whose pin goes is dropped, if that was the last that kept it.
fn serve<M: Media>(
    client: &mut Client<M>,
    kernel: &mut Kernel<M>,
    need: &Need,
) -> Result<(), Denied>
    requires servable { IsServable client.old need.now }
    ensures served { OnOk result ((after : KernelView M) × HasServed M.Media M.Media kernel.old client.old need.now client.new after) }
    ensures refused { IfErr result (λ e. IsRefused M.Media client.old need.now e client.new) }
    ensures kept { KeepsCall client.old client.new }
    ensures leases { KeepsLeases client.old client.new }
    ensures only { IfErr result (λ e. e ≢ denied.Turns) }
{
    client.serve(kernel, need)?;
    drop_unpinned(kernel, need);
    Ok(())
}

// Drops the file of a pin that goes, if nothing else keeps it.
fn drop_unpinned<M: Media>(kernel: &mut Kernel<M>, need: &Need) {
    if let Need::Unpin { inode } = need {
        let _ = kernel.reclaim(*inode);
    }
}
