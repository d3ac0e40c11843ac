// The records of one generation of a client's log are digested.
ghost use Rattle.std.specs.Prelude.{◌≡◌, ◌≢◌, ◌<◌, ◌^◌, ℕ, [], drop, false, length, slice_get, Some, IfErr, IfOk, IfSome, OnOk, true};
ghost use Rattle.std.specs.List.{AllByRecursion, AllZip};
ghost use Rattle.log_survey.specs.Regions.{records_behind, records_of};
ghost use Rattle.recovery_laws.specs.digester.MarkMoves.{mark_of};
ghost use Rattle.log_survey.specs.update_log.RecordCounts.{next_generation};
ghost use Rattle.log_survey.specs.update_log.Stage.{IsIdle};
ghost use Rattle.graph_check.specs.log_record.Grammar.{IsRecord};
ghost use Rattle.log_survey.specs.update_log.View.{RegionView};
ghost use Rattle.recovery_laws.specs.layout.declared.marks.Marks.{Marks};
ghost use Rattle.recovery_laws.specs.area_reader.Store.{disk, graph, marks as marks_of};
ghost use Rattle.recovery_laws.specs.layout.Places.{Sizes};
ghost use Rattle.posix_calls.specs.Operations.{is_client};
ghost use Rattle.posix_calls.specs.Tree.{State};
ghost use Rattle.area_recovery.specs.DigestedLogs.{CanDigest, DigestsAll, HoldAll, HoldRecords, MovesMark, NamesRefused, StandsAtStart};
ghost use Rattle.area_recovery.specs.Errors.{IsLogDigestRefusal};
ghost use Rattle.area_recovery.specs.FaultOrMemory.{IsFaultOrMemory};
ghost use Rattle.area_recovery.specs.FoundLogs.{HasGeneration, HoldsFew, IsRestOf};
ghost use Rattle.area_recovery.specs.Phases.{AnswersEither, AnswersFaults, StaysRecovered};
ghost use Rattle.area_recovery.specs.Recovers.{AreThese, Recovers, Regions};
ghost use Rattle.area_recovery.specs.Regions.{IsOnlyRead, REGIONS, regions_read};

use crate::error::RecoveryError;
use crate::mark_moves::set_marks;
use crate::record_digest::{digest_records, resume_log};
use crate::record_reads::read_region_records;
use graph_check::in_log_record::Record;
use log_survey::LogRest;
use log_survey::in_update_log::Region;
use posix_calls::client_index;
use recovery_laws::in_digester::{mark_of, marks_can_be_written};
use recovery_laws::in_layout::Mark;
use recovery_laws::in_shared_area::Shared;
use std::alloc::Global;
use tier_device::Media;

/// Records of a client's log: of which generation they are, how many of them are passed over, and how many that count stand before them.
#[derive(Clone, Copy)]
pub(crate) struct LogPart {
    pub(crate) client: u32,
    pub(crate) generation: u64,
    pub(crate) from: usize,
    pub(crate) before: usize,
}

// Digests the records of a part that are not passed over, where there are some; the client's mark stands before them then. Answers how many they were.
fn digest_part<M: Media>(
    alloc: Global,
    area: &mut Shared<M>,
    part: LogPart,
    records: Vec<Record>,
) -> Result<usize, RecoveryError>
    requires client { is_client part.client ≡ true }
    requires going { area.old.failed ≡ false }
    requires spelled { AllByRecursion IsRecord records.items }
    requires few { length records.items < 2 ^ 32 }
    requires at_mark { part.from < length records.items → (v : Marks) → marks_of (disk M.Media area.old) ≡ Some v → mark_of v part.client ≡ record { generation = part.generation; done = part.from } }
    ensures any_moment { StaysRecovered M.Media (HoldRecords part.client part.generation records.items) area.old.media area.new.media }
    ensures digested { OnOk result (DigestsAll M.Media part.client (record { generation = next_generation part.generation; done = 0 }) (drop part.from records.items) area.old area.new) }
    ensures good { OnOk result (CanDigest area.old.geometry.units (graph area.old.geometry (disk M.Media area.old)) (drop part.from records.items)) }
    ensures bad { IfErr result (NamesRefused part.client part.before area.old.geometry.units (graph area.old.geometry (disk M.Media area.old)) (drop part.from records.items)) }
    ensures count { IfOk result (λ n. n ≡ length (drop part.from records.items)) }
    ensures never { IfErr result (λ e. (g : Sizes) (regions : Regions) (state : State) → HoldRecords part.client part.generation records.items regions → Recovers g regions state (M.seen area.old.media) → IsFaultOrMemory e) }
    ensures only { IfErr result IsLogDigestRefusal }
    ensures answers { AnswersFaults M.Media area.old area.new result }
{
    // For the proof: until the first device call a stop leaves what opens as what is read, with these marks.
    area.left_now();
    let _marks = area.marks();
    let left = records.len().saturating_sub(part.from);
    if left == 0 {
        return Ok(0);
    }
    let log = resume_log(alloc, part.client, part.generation, records, part.from)?;
    digest_records(alloc, area, log, part.before)?;
    Ok(left)
}

// Digests all records of a generation, behind the start of which a client's mark is moved first, where it stands elsewhere.
fn digest_next_part<M: Media>(
    alloc: Global,
    area: &mut Shared<M>,
    part: LogPart,
    records: Vec<Record>,
) -> Result<usize, RecoveryError>
    requires client { is_client part.client ≡ true }
    requires all { part.from ≡ 0 }
    requires going { area.old.failed ≡ false }
    requires spelled { AllByRecursion IsRecord records.items }
    requires few { length records.items < 2 ^ 32 }
    ensures any_moment { (these : Regions) → HoldAll these part.client part.generation records.items → (records.items ≢ [] → StandsAtStart (AreThese these) part.client part.generation (M.seen area.old.media)) → StaysRecovered M.Media (AreThese these) area.old.media area.new.media }
    ensures digested { OnOk result (DigestsAll M.Media part.client (record { generation = next_generation part.generation; done = 0 }) records.items area.old area.new) }
    ensures good { OnOk result (CanDigest area.old.geometry.units (graph area.old.geometry (disk M.Media area.old)) records.items) }
    ensures bad { IfErr result (NamesRefused part.client part.before area.old.geometry.units (graph area.old.geometry (disk M.Media area.old)) records.items) }
    ensures never { IfErr result (λ e. (these : Regions) → HoldAll these part.client part.generation records.items → (records.items ≢ [] → StandsAtStart (AreThese these) part.client part.generation (M.seen area.old.media))
        → (g : Sizes) (now : Regions) (state : State) → AreThese these now → Recovers g now state (M.seen area.old.media) → IsFaultOrMemory e) }
    ensures only { IfErr result IsLogDigestRefusal }
    ensures answers { AnswersFaults M.Media area.old area.new result }
{
    // For the proof: until the first device call a stop leaves what opens as what is read.
    area.left_now();
    if records.is_empty() {
        return Ok(0);
    }
    move_mark(alloc, area, part.client, part.generation)?;
    digest_part(alloc, area, part, records)
}

/// Digests the records that are left of the generation of a client's mark, and answers how many they were.
pub(crate) fn digest_first<M: Media>(
    alloc: Global,
    area: &mut Shared<M>,
    regions: &mut [Region<M>],
    client: u32,
    rest: Option<LogRest>,
) -> Result<usize, RecoveryError>
    requires client { is_client client ≡ true }
    requires going { area.old.failed ≡ false }
    requires all { length regions.old ≡ REGIONS }
    requires idle { (k : ℕ) (v : RegionView _) → slice_get regions.old k ≡ Some v → IsIdle v.stage }
    requires found { (v : Marks) → marks_of (disk M.Media area.old) ≡ Some v → IfSome rest (IsRestOf (regions_read M.Media regions.old client) (mark_of v client).generation (mark_of v client).done) }
    ensures any_moment { StaysRecovered M.Media (AreThese (regions_read M.Media regions.old)) area.old.media area.new.media }
    ensures same { AllZip (IsOnlyRead M.Media) regions.old regions.new }
    ensures digested { OnOk result ((v : Marks) → marks_of (disk M.Media area.old) ≡ Some v
        → DigestsAll M.Media client (record { generation = next_generation (mark_of v client).generation; done = 0 }) (records_behind (regions_read M.Media regions.old client) rest) area.old area.new) }
    ensures good { OnOk result (CanDigest area.old.geometry.units (graph area.old.geometry (disk M.Media area.old)) (records_behind (regions_read M.Media regions.old client) rest)) }
    ensures bad { IfErr result (λ e. HoldsFew (regions_read M.Media regions.old client) → NamesRefused client 0 area.old.geometry.units (graph area.old.geometry (disk M.Media area.old)) (records_behind (regions_read M.Media regions.old client) rest) e) }
    ensures count { IfOk result (λ n. n ≡ length (records_behind (regions_read M.Media regions.old client) rest)) }
    ensures never { IfErr result (λ e. (g : Sizes) (now : Regions) (state : State) → AreThese (regions_read M.Media regions.old) now → Recovers g now state (M.seen area.old.media) → IsFaultOrMemory e) }
    ensures only { IfErr result IsLogDigestRefusal }
    ensures answers { AnswersEither M.Media area.old area.new regions.old regions.new result }
{
    // For the proof: until the first device call a stop leaves what opens as what is read.
    area.left_now();
    let Some(rest) = rest else {
        return Ok(0);
    };
    let generation = mark_of(&area.marks(), client).generation;
    let records = read_region_records(regions, client, rest.region)?;
    let part = LogPart {
        client,
        generation,
        from: rest.from,
        before: 0,
    };
    digest_part(alloc, area, part, records)
}

/// Digests the records of the generation behind a client's mark, which moves to it first where it stands elsewhere; where the contents are recovered it does not.
pub(crate) fn digest_second<M: Media>(
    alloc: Global,
    area: &mut Shared<M>,
    regions: &mut [Region<M>],
    region: Option<usize>,
    part: LogPart,
) -> Result<usize, RecoveryError>
    requires client { is_client part.client ≡ true }
    requires from { part.from ≡ 0 }
    requires going { area.old.failed ≡ false }
    requires all { length regions.old ≡ REGIONS }
    requires idle { (k : ℕ) (v : RegionView _) → slice_get regions.old k ≡ Some v → IsIdle v.stage }
    requires found { IfSome region (HasGeneration (regions_read M.Media regions.old part.client) part.generation) }
    requires in_turn { records_of (regions_read M.Media regions.old part.client) region ≢ [] → StandsAtStart (AreThese (regions_read M.Media regions.old)) part.client part.generation (M.seen area.old.media) }
    ensures any_moment { StaysRecovered M.Media (AreThese (regions_read M.Media regions.old)) area.old.media area.new.media }
    ensures same { AllZip (IsOnlyRead M.Media) regions.old regions.new }
    ensures digested { OnOk result (DigestsAll M.Media part.client (record { generation = next_generation part.generation; done = 0 }) (records_of (regions_read M.Media regions.old part.client) region) area.old area.new) }
    ensures good { OnOk result (CanDigest area.old.geometry.units (graph area.old.geometry (disk M.Media area.old)) (records_of (regions_read M.Media regions.old part.client) region)) }
    ensures bad { IfErr result (λ e. HoldsFew (regions_read M.Media regions.old part.client) → NamesRefused part.client part.before area.old.geometry.units (graph area.old.geometry (disk M.Media area.old)) (records_of (regions_read M.Media regions.old part.client) region) e) }
    ensures never { IfErr result (λ e. (g : Sizes) (now : Regions) (state : State) → AreThese (regions_read M.Media regions.old) now → Recovers g now state (M.seen area.old.media) → IsFaultOrMemory e) }
    ensures only { IfErr result IsLogDigestRefusal }
    ensures answers { AnswersEither M.Media area.old area.new regions.old regions.new result }
{
    // For the proof: until the first device call a stop leaves what opens as what is read.
    area.left_now();
    let Some(region) = region else {
        return Ok(0);
    };
    let records = read_region_records(regions, part.client, region)?;
    digest_next_part(alloc, area, part, records)
}

// Moves the mark of a client to the start of a generation, where it stands elsewhere. With contents that are not recovered then, nothing is claimed of a stop.
fn move_mark<M: Media>(
    alloc: Global,
    area: &mut Shared<M>,
    client: u32,
    generation: u64,
) -> Result<(), RecoveryError>
    requires client { is_client client ≡ true }
    requires going { area.old.failed ≡ false }
    ensures any_moment { (these : Regions) → StandsAtStart (AreThese these) client generation (M.seen area.old.media) → StaysRecovered M.Media (AreThese these) area.old.media area.new.media }
    ensures graph { OnOk result (graph area.new.geometry (disk M.Media area.new) ≡ graph area.old.geometry (disk M.Media area.old)) }
    ensures moves { OnOk result (MovesMark client (record { generation = generation; done = 0 }) (disk M.Media area.old) (disk M.Media area.new)) }
    ensures only { IfErr result IsFaultOrMemory }
    ensures answers { AnswersFaults M.Media area.old area.new result }
{
    // For the proof: until the first device call a stop leaves what opens as what is read.
    area.left_now();
    let marks = area.marks();
    // For the proof: the marks fit their fields.
    marks_can_be_written(marks);
    let start = Mark {
        generation,
        done: 0,
    };
    if mark_of(&marks, client) == start {
        return Ok(());
    }
    let mut clients = marks.clients;
    clients[client_index(client)] = start;
    set_marks(alloc, area, clients)
}
