//! What a client left that died is buried, beside those that live.
ghost use Rattle.std.specs.Prelude.{◌≡◌, true};
ghost use Rattle.strata_threads.specs.libfs.Lives.{is_settled};
ghost use Rattle.strata_threads.specs.libfs.declared.life.Life.TheVariants as lives;

use crate::region_stops::RunMedium;
use crate::run_end::RunEnd;
use crate::seat::ROUNDS;
use script::RunError;
use std::sync::Wait;
use strata_threads::in_libfs::{BuryError, Fate};
use strata_threads::{SharedKernel, ThreadRemains};

/// How the burial of a client ended.
#[derive(Drop)]
pub struct Burial {
    /// What became of its last call, where that was found.
    pub fate: Option<Fate>,
    /// Why it was not buried, or why nobody could take its seat.
    pub refused: Option<RunEnd>,
}

/// Settles the call of a client that died, has its log digested, buries it, and wipes its regions. Where a region stops in that the burial ends there, as a run does.
pub(crate) fn bury<R: Wait>(
    rt: &R,
    shared: &SharedKernel<RunMedium>,
    remains: &mut ThreadRemains<RunMedium>,
) -> Burial
    requires dead { remains.old.remains.life ≡ lives.Dead }
{
    match remains.settle() {
        Ok(fate) => Burial {
            fate: Some(fate),
            refused: empty(rt, shared, remains).err(),
        },
        Err(_) => Burial {
            fate: None,
            refused: Some(RunEnd::Stopped),
        },
    }
}

fn empty<R: Wait>(
    rt: &R,
    shared: &SharedKernel<RunMedium>,
    remains: &mut ThreadRemains<RunMedium>,
) -> Result<(), RunEnd>
    requires settled { is_settled remains.old.remains.life ≡ true }
{
    let _ = remains.clear_log(rt, shared, ROUNDS);
    match remains.bury(rt, shared) {
        Ok(()) => wipe(remains),
        Err(BuryError::NotDigested { .. }) => Err(RunEnd::Fault(RunError::BadLog)),
        Err(BuryError::KernelFailed) => Err(RunEnd::Fault(RunError::Device)),
    }
}

fn wipe(remains: &mut ThreadRemains<RunMedium>) -> Result<(), RunEnd> {
    match remains.wipe() {
        Ok(_) => Ok(()),
        Err(_) => Err(RunEnd::Stopped),
    }
}
