//! Media that are brought to rest after a stop.

ghost use Rattle.std.specs.Prelude.{ℕ, IfErr, OnErr, OnOk};
ghost use Rattle.world_files.specs.area_recovery.FaultOrMemory.{IsFaultOrMemory};
ghost use Rattle.tier_device.specs.declared.fill.Fill.{Fill};
ghost use Rattle.workload_cli.specs.Rests.{IsRestOf, LeavesNoMore};
ghost use Rattle.workload_cli.specs.declared.script_media.Trips.{Trips};

use crate::script_media::Trips;
use std::alloc::Global;
use tier_device::{Fill, Media};
use world_files::in_area_recovery::RecoveryError;

/// A medium that is brought to rest after a stop, so that what it holds can be recovered.
pub trait Resting: Media {
    /// What it holds once it rests, by the fill and what it was.
    ghost holds: { Fill → Self → Self → Type 0 };

    /// It counts by the trips of a name, if it counts.
    ghost counts: { Trips → ℕ → Self → Type 0 };

    /// Brings it to rest with something that a stop may leave of it now: with what the fill says, where it chooses. From then on it counts by the trips of its name, if it counts.
    ///
    /// Refused where memory is wanting or a device fails; a stop then leaves nothing that it might not have left before, and it may be asked again.
    fn rest_medium(
        &mut self,
        alloc: Global,
        fill: Fill,
        trips: &Trips,
        name: usize,
    ) -> Result<(), RecoveryError>
        ensures rest { OnOk result (IsRestOf Self.Media self.old self.new) }
        ensures held { OnOk result (holds fill self.old self.new) }
        ensures counted { OnOk result (counts trips.now name self.new) }
        ensures only { IfErr result IsFaultOrMemory }
        ensures refused { OnErr result (LeavesNoMore Self.Media self.old self.new) };
}
