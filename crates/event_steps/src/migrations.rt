//! Files that go, and runs that go down.
ghost use Rattle.std.specs.Prelude.{◌≡◌};
ghost use Rattle.event_steps.specs.declared.outcome.Outcome.TheVariants as outcomes;
ghost use Rattle.event_steps.specs.Media.{IsMovedIn, IsReclaimedIn};

use crate::outcome::{Outcome, Refusal};
use libfs::in_area_reader::AreaError;
use libfs::in_kernel_fs::{Kernel, KernelError, ReclaimError};
use tier_device::{Media, Tier};

/// Deletes a file that has no name and no pin. Refused: `KernelFailed`, `InUse`, `Memory`, `DeviceFault`.
pub fn reclaim<M: Media>(kernel: &mut Kernel<M>, inode: u32) -> Outcome
    ensures { IsReclaimedIn M.Media kernel.old inode result kernel.new }
{
    match kernel.reclaim(inode) {
        Ok(()) => Outcome::Stepped,
        Err(KernelError::Failed) => refusal_outcome(Refusal::KernelFailed),
        Err(KernelError::Refused(ReclaimError::InUse)) => refusal_outcome(Refusal::InUse),
        Err(KernelError::Refused(ReclaimError::Memory)) => refusal_outcome(Refusal::Memory),
        Err(KernelError::Refused(ReclaimError::DeviceFault)) => {
            refusal_outcome(Refusal::DeviceFault)
        }
    }
}

/// Moves `count` blocks of a file, from its block `first` on, down to tier `to`. Refused: `KernelFailed`, `NotMapped`,
/// `NoBlock`, `Memory`, `DeviceFault`.
pub fn migrate<M: Media>(
    kernel: &mut Kernel<M>,
    inode: u32,
    first: u64,
    count: u32,
    to: Tier,
) -> Outcome
    ensures { IsMovedIn M.Media kernel.old inode first count to result kernel.new }
{
    match kernel.migrate(inode, first, count, to) {
        Ok(()) => Outcome::Stepped,
        Err(KernelError::Failed) => refusal_outcome(Refusal::KernelFailed),
        Err(KernelError::Refused(AreaError::NotMapped)) => refusal_outcome(Refusal::NotMapped),
        Err(KernelError::Refused(AreaError::NoBlock)) => refusal_outcome(Refusal::NoBlock),
        Err(KernelError::Refused(AreaError::Memory)) => refusal_outcome(Refusal::Memory),
        Err(KernelError::Refused(AreaError::DeviceFault)) => refusal_outcome(Refusal::DeviceFault),
        Err(KernelError::Refused(AreaError::Damaged { .. })) => unreachable!(),
    }
}

fn refusal_outcome(refusal: Refusal) -> Outcome
    ensures { result ≡ outcomes.Refused refusal }
{
    Outcome::Refused { refusal }
}
