//! Runs of files are moved to slower tiers.
ghost use Rattle.std.specs.Prelude.{◌≡◌, true};
ghost use Rattle.strata_threads.specs.RunMoves.{HasMovedRun};

use crate::shared_kernel::SharedKernel;
use crate::stop_flag::StopFlag;
use libfs::in_kernel_fs::Kernel;
use std::sync::Wait;
use std::thread;
use tier_device::{Media, Tier};

/// Moves the run that is to be moved next to a tier, if there is one, under the lock. It answers whether one was moved.
pub fn migrate<M: Media, R: Wait>(rt: &R, shared: &SharedKernel<M>, to: Tier) -> bool {
    let mut kernel = shared.lock(rt);
    move_next(&mut *kernel, to)
}

// Moves the run that is to be moved next to a tier, if there is one. It answers whether one was moved.
fn move_next<M: Media>(kernel: &mut Kernel<M>, to: Tier) -> bool
    ensures moved { result ≡ true → HasMovedRun M.Media to kernel.new }
    ensures book { kernel.new.book ≡ kernel.old.book }
    ensures opening { kernel.new.opening ≡ kernel.old.opening }
{
    match kernel.pick(to) {
        Ok(Some(found)) => {
            let run = found.run;
            move_run(kernel, found.inode, run.first as u64, run.count, to)
        }
        _ => false,
    }
}

// Moves a run of a file to a tier. It answers whether it was moved.
fn move_run<M: Media>(kernel: &mut Kernel<M>, inode: u32, first: u64, count: u32, to: Tier) -> bool
    ensures moved { result ≡ true → HasMovedRun M.Media to kernel.new }
    ensures book { kernel.new.book ≡ kernel.old.book }
    ensures opening { kernel.new.opening ≡ kernel.old.opening }
{
    match kernel.migrate(inode, first, count, to) {
        Ok(()) => true,
        Err(_) => false,
    }
}

/// Moves runs to the block tier and to the slow one, until the flag is set. Where none was moved, since there is none or the look or the move was refused, it sleeps until a worker has had a region.
pub fn run_migrator<M: Media, R: Wait>(rt: &R, shared: &SharedKernel<M>, stop: &StopFlag) {
    for round in rt.forever() {
        // Before it looks: what is digested behind that wakes it.
        let digest = shared.wake_ups.expect_digest();
        if stop.is_set() {
            return;
        }
        let to_block = migrate(rt, shared, Tier::Block);
        let to_slow = migrate(rt, shared, Tier::Slow);
        if to_block || to_slow {
            thread::yield_now();
        } else {
            digest.wait(rt);
        }
    }
}
