//! The kernel accepts the region that a client sealed.
ghost use Rattle.std.specs.Prelude.{◌≡◌, false, true, IfErr, OnErr, OnOk};
ghost use Rattle.libfs.specs.SealedRegion.{log_of};
ghost use Rattle.libfs.specs.digester.SealedLog.{HasUndigested};
ghost use Rattle.event_steps.specs.Regions.{IsAccepted, IsAwayRead, IsNotAcceptedFor, IsNotReadFor, refusal_to_accept, refusal_to_read};

use crate::outcome::Refusal;
use libfs::SealedRegion;
use libfs::in_client_log::LogError;
use libfs::in_kernel_fs::{AcceptError, Kernel, KernelError};
use std::alloc::Global;
use tier_device::Media;

/// Has the kernel accept a region that is away, unless it did before: its records are read for that.
pub fn accept_region<M: Media>(
    alloc: Global,
    region: &mut SealedRegion<M>,
    kernel: &mut Kernel<M>,
) -> Result<(), Refusal>
    requires some { HasUndigested (log_of M.Media region.old) }
    requires none { region.old.accepted ≡ false → region.old.done ≡ 0 }
    ensures accepted { OnOk result (IsAccepted M.Media kernel.old region.old region.new kernel.new) }
    ensures unaccepted { OnErr result (region.old.accepted ≡ false) }
    ensures only { IfErr result (IsNotAcceptedFor M.Media kernel.old region.old region.new) }
    ensures read { OnErr result (IsAwayRead M.Media region.old region.new) }
    ensures refused { OnErr result ((region.new.accepted ≡ false) × (kernel.new ≡ kernel.old)) }
{
    if region.is_accepted() {
        return Ok(());
    }
    read_region(alloc, region)?;
    match region.accept(kernel) {
        Ok(()) => Ok(()),
        Err(error) => Err(refusal_to_accept(error)),
    }
}

// Reads the records of a region that is away, unless they were read before.
fn read_region<M: Media>(alloc: Global, region: &mut SealedRegion<M>) -> Result<(), Refusal>
    ensures there { OnOk result (region.new.read ≡ true) }
    ensures read { IsAwayRead M.Media region.old region.new }
    ensures accepted { region.new.accepted ≡ region.old.accepted }
    ensures only { IfErr result (IsNotReadFor M.faults region.old region.new) }
{
    match region.read_records(alloc) {
        Ok(()) => Ok(()),
        Err(error) => Err(refusal_to_read(error)),
    }
}

fn refusal_to_read(error: LogError) -> Refusal
    ensures { result ≡ refusal_to_read error }
{
    match error {
        LogError::Memory => Refusal::Memory,
        _ => Refusal::DeviceFault,
    }
}

fn refusal_to_accept(error: KernelError<AcceptError>) -> Refusal
    ensures { result ≡ refusal_to_accept error }
{
    match error {
        KernelError::Failed => Refusal::KernelFailed,
        KernelError::Refused(_) => Refusal::BadLog,
    }
}
