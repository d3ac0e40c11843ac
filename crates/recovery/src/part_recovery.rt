//! The world that parts store.

ghost use Rattle.std.specs.Prelude.{◌≡◌, ◌≢◌, ◌≤◌, [], false, IfErr, IfOk, OnOk};
ghost use Rattle.std.specs.Vec.{vec_capacity};
ghost use Rattle.interleavings.specs.area_reader.Store.{disk};
ghost use Rattle.interleavings.specs.batch_journal.Volume.{IsVolume};
ghost use Rattle.area_recovery.specs.recovery_laws.Contents.{CanRecover, log_in, stored_state};
ghost use Rattle.interleavings.specs.system_laws.KeptCalls.{no_calls};
ghost use Rattle.interleavings.specs.system_laws.Parts.{medium_of};
ghost use Rattle.interleavings.specs.system_laws.WorldTree.{world_tree};
ghost use Rattle.interleavings.specs.layout.Places.{Sizes};
ghost use Rattle.area_recovery.specs.declared.error.RecoveryError.TheVariants.{AreaSize, DeviceFault, RegionSize};
ghost use Rattle.area_recovery.specs.Errors.{OnBadLog, OnDamage};
ghost use Rattle.area_recovery.specs.FaultOrMemory.{IsFaultOrMemory};
ghost use Rattle.area_recovery.specs.Parts.{AreAtRest, contents_of, part_medium};
ghost use Rattle.area_recovery.specs.PartMedia.{SomeRose, media_beneath};
ghost use Rattle.area_recovery.specs.RecoveryStops.{AreGivenBack, StaysStored, StoresTree};
ghost use Rattle.recovery.specs.WorldRecovery.{IsIdle, IsRecoveredWorld};
ghost use Rattle.area_recovery.specs.Refusals.{HaveRegionSizes, IsCause, IsStoredCause, StoresBadLog, StoresDamage};
ghost use Rattle.area_recovery.specs.Regions.{REGIONS};
ghost use Rattle.area_recovery.specs.Settlement.{AreOpenRegions};

use crate::assembly::assemble;
use crate::parts::Parts;
use area_recovery::{
    RecoveryError, hand_back, open_area, reopen_regions, settle_area, wipe_regions,
};
use interleavings::World;
use interleavings::in_shared_area::Shared;
use interleavings::in_update_log::Region;
use std::alloc::Global;
use tier_device::Media;

/// The world of the tree that parts store, on which nothing may be pending: after the records that count, with the files that were open closed, and without
/// those that have no name. Nobody uses it, and nothing is pending on its parts.
///
/// Of contents that a world or a recovery may have left, whatever a stop leaves meanwhile is recovered to the same tree, also where this is refused. Refused are a device that fails, want of
/// memory, and contents that store no tree, which each refusal names (`specs/Refusals.antt`): `Damaged` a structure of the shared medium, or the slot of an inode that has a defect in the
/// graph after all records that count; `RegionSize` where a medium has not the size of a region; `BadLog` the first record of the first client that touches an inode which an earlier
/// client's records do, or, where there is none, that can't be digested. Never what a world or a recovery may have left. The parts are given back then, and where no device has failed
/// nothing is pending on them.
pub fn recover<M: Media + Drop>(
    alloc: Global,
    parts: Parts<M>,
) -> Result<World<M>, (RecoveryError, Parts<M>)>
    requires rest { AreAtRest M.Media (part_medium parts) }

    ensures tree { IfOk result (λ w. world_tree M.Media w ≡ stored_state w.system.kernel.area.geometry (contents_of M.Media (part_medium parts))) }
    ensures stores { IfOk result (λ w. StoresTree w.system.kernel.area.geometry (contents_of M.Media (part_medium parts))) }
    ensures calls { IfOk result (λ w. w.calls ≡ no_calls) }
    ensures recovers { IfOk result (IsRecoveredWorld M.Media (part_medium parts)) }
    ensures idle { IfOk result (λ w. IsIdle M.Media w.system) }
    ensures rest { IfOk result (λ w. AreAtRest M.Media (medium_of w.system)) }

    ensures stop { IfOk result (λ w. StaysStored M.Media (part_medium parts) (medium_of w.system)) }
    ensures stop_refused { IfErr result (λ e. StaysStored M.Media (part_medium parts) (part_medium e.1)) }

    ensures never { IfErr result (λ e. (g : Sizes) → CanRecover g (contents_of M.Media (part_medium parts)) → IsFaultOrMemory e.0) }
    ensures only { IfErr result (λ e. e.0 ≢ AreaSize) }
    ensures size { IfErr result (λ e. e.0 ≡ RegionSize → HaveRegionSizes (contents_of M.Media (part_medium parts)) → ⊥) }
    ensures sizes { OnOk result (HaveRegionSizes (contents_of M.Media (part_medium parts))) }
    ensures damaged { IfErr result (λ e. OnDamage e.0 (StoresDamage (contents_of M.Media (part_medium parts)))) }
    ensures bad_log { IfErr result (λ e. OnBadLog e.0 (StoresBadLog (contents_of M.Media (part_medium parts)))) }
    ensures fault { IfErr result (λ e. e.0 ≡ DeviceFault → SomeRose M.Media (part_medium parts) (part_medium e.1)) }
    ensures rest_refused { IfErr result (λ e. e.0 ≢ DeviceFault → AreAtRest M.Media (part_medium e.1)) }
{
    recover_parts(alloc, parts)
}

// The world of parts, as `recover` answers it.
fn recover_parts<M: Media + Drop>(
    alloc: Global,
    parts: Parts<M>,
) -> Result<World<M>, (RecoveryError, Parts<M>)>
    requires rest { AreAtRest M.Media (part_medium parts) }
    ensures world { IfOk result (IsRecoveredWorld M.Media (part_medium parts)) }
    ensures back { IfErr result (λ e. AreGivenBack M.Media (part_medium parts) (part_medium e.1) e.0) }
    ensures cause { IfErr result (λ e. IsCause (contents_of M.Media (part_medium parts)) e.0) }
    ensures sizes { OnOk result (HaveRegionSizes (contents_of M.Media (part_medium parts))) }
{
    let (shared, media) = parts.into_media();
    let mut media = media;
    let area = match open_area(alloc, shared) {
        Ok(area) => area,
        Err((error, shared)) => return Err((error, Parts::of(shared, media))),
    };
    match reopen_regions(alloc, &mut media) {
        Ok(regions) => recover_opened(alloc, area, regions, media),
        Err(error) => {
            // For the proof: a stop leaves what is read, so the medium beneath may be opened again.
            area.left_now();
            Err((error, Parts::of(area.into_medium(), media)))
        }
    }
}

// The world of an area and of regions that are opened; the vector has room for the media of the regions.
fn recover_opened<M: Media + Drop>(
    alloc: Global,
    area: Shared<M>,
    regions: Vec<Region<M>>,
    media: Vec<M>,
) -> Result<World<M>, (RecoveryError, Parts<M>)>
    requires going { area.failed ≡ false }
    requires volume { IsVolume area.geometry (M.seen area.media) }
    requires regions { AreOpenRegions M.Media regions.items }
    requires empty { media.items ≡ [] }
    requires room { REGIONS ≤ vec_capacity media }
    ensures world { IfOk result (IsRecoveredWorld M.Media (part_medium (media_beneath area regions.items))) }
    ensures back { IfErr result (λ e. AreGivenBack M.Media (part_medium (media_beneath area regions.items)) (part_medium e.1) e.0) }
    ensures cause { IfErr result (λ e. IsStoredCause area.geometry (disk M.Media area) (log_in (contents_of M.Media (part_medium (media_beneath area regions.items)))) e.0) }
{
    let (mut area, mut regions, mut media) = (area, regions, media);
    // For the proof: the area can be opened as it stands, with these marks.
    area.left_now();
    let _marks = area.marks();
    let generations = match settle_area(alloc, &mut area, &mut regions) {
        Ok(generations) => generations,
        Err(error) => {
            // For the proof: unless a device failed, a stop leaves what is read, so the medium beneath may be opened again.
            area.left_now();
            hand_back(&mut media, regions);
            return Err((error, Parts::of(area.into_medium(), media)));
        }
    };
    // For the proof: a stop leaves what is read, also while the regions are wiped.
    area.left_now();
    match wipe_regions(&mut regions, &generations) {
        Ok(()) => assemble(alloc, area, regions, media),
        Err(error) => {
            hand_back(&mut media, regions);
            Err((error, Parts::of(area.into_medium(), media)))
        }
    }
}
