//! The clients' logs are digested.

ghost use Rattle.std.specs.Prelude.{◌≡◌, ℕ, true, false, length, slice_get, Some, IfErr, OnOk};
ghost use Rattle.std.specs.List.{AllZip};
ghost use Rattle.recovery_laws.specs.digester.MarkMoves.{mark_of};
ghost use Rattle.log_survey.specs.update_log.Stage.{IsIdle};
ghost use Rattle.log_survey.specs.update_log.View.{RegionView};
ghost use Rattle.recovery_laws.specs.layout.declared.marks.Marks.{Marks};
ghost use Rattle.recovery_laws.specs.area_reader.Store.{disk, graph, marks as marks_of};
ghost use Rattle.recovery_laws.specs.layout.Places.{Sizes};
ghost use Rattle.log_survey.specs.world_invariant.Logs.{after_clients};
ghost use Rattle.posix_calls.specs.Operations.{is_client};
ghost use Rattle.posix_calls.specs.Tree.{State};
ghost use Rattle.posix_calls.specs.declared.limits.TheConstants.{MAX_CLIENTS};
ghost use Rattle.area_recovery.specs.Errors.{IsLogDigestRefusal, OnBadLog};
ghost use Rattle.area_recovery.specs.FaultOrMemory.{IsFaultOrMemory};
ghost use Rattle.area_recovery.specs.DigestedLogs.{CanDigest, CanDigestAll, DigestsLog, IsFirstRefused};
ghost use Rattle.area_recovery.specs.FoundLogs.{AreFound, HoldFew, HoldsFew, IsFound, log_by};
ghost use Rattle.area_recovery.specs.Phases.{AnswersEither, StaysRecovered};
ghost use Rattle.area_recovery.specs.Recovers.{AreThese, CountNone, Recovers, Regions};
ghost use Rattle.area_recovery.specs.Refusals.{IsFirstUndigestible};
ghost use Rattle.area_recovery.specs.Regions.{IsOnlyRead, REGIONS, Rests, regions_read};

use crate::error::RecoveryError;
use crate::log_parts::{LogPart, digest_first, digest_second};
use crate::log_search::FoundLog;
use log_survey::in_update_log::Region;
use recovery_laws::in_digester::{mark_of, moved_mark_leaves_the_rest};
use recovery_laws::in_layout::CLIENTS;
use recovery_laws::in_shared_area::Shared;
use std::alloc::Global;
use tier_device::Media;

/// Digests the records that count of each client's log, as `find_logs` found them: client after client, the region of the mark's generation and then the next one's, chunk by
/// chunk. With the regions as they are read, whatever a stop leaves meanwhile is recovered as what was read. The regions are only read.
///
/// `BadLog` where a record can't be digested, with its place among those of its client that count: never where the contents are recovered. `Memory` where there was none.
pub fn digest_logs<M: Media>(
    alloc: Global,
    area: &mut Shared<M>,
    regions: &mut [Region<M>],
    logs: &[FoundLog],
) -> Result<(), RecoveryError>
    requires going { area.old.failed ≡ false }
    requires all { length regions.old ≡ REGIONS }
    requires idle { (k : ℕ) (v : RegionView _) → slice_get regions.old k ≡ Some v → IsIdle v.stage × Rests M.Media v.media }
    requires eight { length logs.now ≡ MAX_CLIENTS }
    requires logs { (v : Marks) → marks_of (disk M.Media area.old) ≡ Some v → AreFound v (regions_read M.Media regions.old) logs.now }
    ensures any_moment { StaysRecovered M.Media (AreThese (regions_read M.Media regions.old)) area.old.media area.new.media }
    ensures same { AllZip (IsOnlyRead M.Media) regions.old regions.new }
    ensures digested { OnOk result ((v : Marks) → marks_of (disk M.Media area.old) ≡ Some v
        → graph area.new.geometry (disk M.Media area.new) ≡ after_clients (log_by v (regions_read M.Media regions.old)) (graph area.old.geometry (disk M.Media area.old)) MAX_CLIENTS) }
    ensures none { OnOk result ((g : Sizes) (now : Regions) (state : State) → AreThese (regions_read M.Media regions.old) now → Recovers g now state (M.seen area.old.media)
        → CountNone now (marks_of (disk M.Media area.new))) }
    ensures good { OnOk result ((v : Marks) → marks_of (disk M.Media area.old) ≡ Some v → CanDigestAll area.old.geometry.units (graph area.old.geometry (disk M.Media area.old)) (log_by v (regions_read M.Media regions.old))) }
    ensures bad { IfErr result (λ e. (v : Marks) → marks_of (disk M.Media area.old) ≡ Some v → HoldFew (regions_read M.Media regions.old) → OnBadLog e (IsFirstUndigestible area.old.geometry.units (graph area.old.geometry (disk M.Media area.old)) (log_by v (regions_read M.Media regions.old)))) }
    ensures never { IfErr result (λ e. (g : Sizes) (now : Regions) (state : State) → AreThese (regions_read M.Media regions.old) now → Recovers g now state (M.seen area.old.media) → IsFaultOrMemory e) }
    ensures only { IfErr result IsLogDigestRefusal }
    ensures answers { AnswersEither M.Media area.old area.new regions.old regions.new result }
{
    // For the proof: the area can be opened as it stands, and a stop leaves what opens as that.
    area.left_now();
    for before in 0..CLIENTS {
        digest_log(alloc, area, regions, before as u32 + 1, logs[before])?;
    }
    Ok(())
}

// Digests the records that count of a client's log, as it was found: those of the mark's generation, then those of the next.
fn digest_log<M: Media>(
    alloc: Global,
    area: &mut Shared<M>,
    regions: &mut [Region<M>],
    client: u32,
    log: FoundLog,
) -> Result<(), RecoveryError>
    requires client { is_client client ≡ true }
    requires going { area.old.failed ≡ false }
    requires all { length regions.old ≡ REGIONS }
    requires idle { (k : ℕ) (v : RegionView _) → slice_get regions.old k ≡ Some v → IsIdle v.stage }
    requires found { (v : Marks) → marks_of (disk M.Media area.old) ≡ Some v → IsFound (mark_of v client) (regions_read M.Media regions.old client) log }
    ensures any_moment { StaysRecovered M.Media (AreThese (regions_read M.Media regions.old)) area.old.media area.new.media }
    ensures same { AllZip (IsOnlyRead M.Media) regions.old regions.new }
    ensures digested { OnOk result ((v : Marks) → marks_of (disk M.Media area.old) ≡ Some v → DigestsLog M.Media client (regions_read M.Media regions.old) v area.old area.new) }
    ensures good { OnOk result ((v : Marks) → marks_of (disk M.Media area.old) ≡ Some v → CanDigest area.old.geometry.units (graph area.old.geometry (disk M.Media area.old)) (log_by v (regions_read M.Media regions.old) client)) }
    ensures bad { IfErr result (λ e. (v : Marks) → marks_of (disk M.Media area.old) ≡ Some v → HoldsFew (regions_read M.Media regions.old client) → OnBadLog e (λ c place. (c ≡ client) × IsFirstRefused area.old.geometry.units (graph area.old.geometry (disk M.Media area.old)) (log_by v (regions_read M.Media regions.old) client) place)) }
    ensures never { IfErr result (λ e. (g : Sizes) (now : Regions) (state : State) → AreThese (regions_read M.Media regions.old) now → Recovers g now state (M.seen area.old.media) → IsFaultOrMemory e) }
    ensures only { IfErr result IsLogDigestRefusal }
    ensures answers { AnswersEither M.Media area.old area.new regions.old regions.new result }
{
    // For the proof: a stop leaves what opens as what is read, and a mark that moves leaves the records behind it to count.
    area.left_now();
    moved_mark_leaves_the_rest();
    let generation = mark_of(&area.marks(), client).generation;
    let before = digest_first(alloc, area, regions, client, log.counted.first)?;
    let part = LogPart {
        client,
        generation: generation.wrapping_add(1),
        from: 0,
        before,
    };
    digest_second(alloc, area, regions, log.counted.second, part)?;
    Ok(())
}
