//! How a medium that is fenced, one that lies in a file, is brought to rest.

ghost use Rattle.std.specs.Prelude.{◌≡◌, ℕ, List, IfErr, OnErr, OnOk};
ghost use Rattle.world_files.specs.area_recovery.FaultOrMemory.{IsFaultOrMemory};
ghost use Rattle.tier_device.specs.AfterStop.{AtRest};
ghost use Rattle.tier_device.specs.Media.{Settles};
ghost use Rattle.tier_device.specs.declared.media.Tier.{Tier};
ghost use Rattle.world_files.specs.host_media.File.{file_seen};
ghost use Rattle.workload_cli.specs.Rests.{IsRestOf, LeavesNoMore};

use crate::resting::Resting;
use crate::script_media::Trips;
use std::alloc::Global;
use tier_device::{Fill, Media, Tier};
use world_files::in_area_recovery::RecoveryError;
use world_files::in_host_media::FileMedia;

/// Fences all tiers of a medium, so that a stop leaves what a read gives. Refused where a device fails: a stop then leaves nothing that it might not have left before.
pub fn fence_all<M: Media>(medium: &mut M) -> Result<(), RecoveryError>
    ensures rest { OnOk result (IsRestOf M.Media medium.old medium.new) }
    ensures seen { OnOk result ((t : Tier) → M.seen medium.new t ≡ M.seen medium.old t) }
    ensures only { IfErr result IsFaultOrMemory }
    ensures refused { OnErr result (LeavesNoMore M.Media medium.old medium.new) }
{
    fence_tier(medium, Tier::Fast)?;
    fence_tier(medium, Tier::Block)?;
    fence_tier(medium, Tier::Slow)
}

fn fence_tier<M: Media>(medium: &mut M, tier: Tier) -> Result<(), RecoveryError>
    ensures seen { OnOk result ((t : Tier) → M.seen medium.new t ≡ M.seen medium.old t) }
    ensures settled { OnOk result (Settles tier (M.seen medium.old) (M.left medium.old (M.moment medium.old)) (M.left medium.new (M.moment medium.new))) }
    ensures only { IfErr result IsFaultOrMemory }
    ensures no_more { LeavesNoMore M.Media medium.old medium.new }
{
    match medium.fence(tier) {
        Ok(()) => Ok(()),
        Err(_) => Err(RecoveryError::DeviceFault),
    }
}

impl Resting for FileMedia {
    ghost holds = { λ _ old new. (t : Tier) → file_seen new t ≡ file_seen old t };

    ghost counts = { λ _ _ _. Unit {0} };

    fn rest_medium(
        &mut self,
        _alloc: Global,
        _fill: Fill,
        _trips: &Trips,
        _name: usize,
    ) -> Result<(), RecoveryError> {
        fence_all(self)
    }
}
