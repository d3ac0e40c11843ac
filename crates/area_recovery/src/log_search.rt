// The clients' logs that regions hold.
ghost use Rattle.std.specs.Prelude.{◌≡◌, ◌⊎◌, ◌≤◌, ◌<◌, ◌+◌, ◌^◌, ◌++◌, ℕ, List, [], length, slice_get, take, true, false, Some, None, IfOk, IfErr, OnErr, OnOk};
ghost use Rattle.std.specs.List.{AllZip};
ghost use Rattle.log_survey.specs.update_log.Stage.{IsIdle};
ghost use Rattle.log_survey.specs.update_log.View.{RegionView};
ghost use Rattle.log_survey.specs.update_log.WipeStops.{generation};
ghost use Rattle.log_survey.specs.update_log.Frames.{records};
ghost use Rattle.tier_device.specs.Media.{Rose};
ghost use Rattle.tier_device.specs.declared.media.Tier.TheVariants.{Fast};
ghost use Rattle.log_survey.specs.Owners.{AreAdded, AreTouchedBy, IsClear, listed, owner};
ghost use Rattle.log_survey.specs.update_log.RecordCounts.{counted_records};
ghost use Rattle.log_survey.specs.world_invariant.Logs.{LogsAreApart};
ghost use Rattle.graph_check.specs.file_graph.Graph.{is_among};
ghost use Rattle.graph_check.specs.log_record.declared.format.Record.{Record};
ghost use Rattle.recovery_laws.specs.digester.MarkMoves.{mark_of};
ghost use Rattle.area_recovery.specs.declared.error.RecoveryError.TheVariants.{BadLog, DeviceFault, Memory};
ghost use Rattle.area_recovery.specs.Errors.{OnBadLog};
ghost use Rattle.area_recovery.specs.FoundLogs.{AreFound, AreReadAs, AreTouchedIn, HoldFew, HoldsFew, IsFirstForeign, IsFound, IsReadAs, NamesForeign, first_part, log_by, second_part};
ghost use Rattle.area_recovery.specs.Refusals.{IsFirstSharing};
ghost use Rattle.area_recovery.specs.Regions.{HaveRisen, IsOnlyRead, REGIONS, Rests, media_of, read_of, regions_read};

use crate::error::RecoveryError;
use graph_check::in_log_record::TouchedInodes;
use log_survey::in_update_log::{Region, RegionError};
use log_survey::{
    CountedLogs, LogRest, Owners, counted_records_touch_inodes, logs_that_count,
    next_free_generation, owners_decide_whether_logs_are_apart,
};
use recovery_laws::in_layout::{CLIENTS, Mark, Marks};
use std::alloc::Global;
use tier_device::Media;

/// What is found of a client's log.
#[derive(Clone, Copy, PartialEq, Eq)]
pub struct FoundLog {
    /// Which records of its two regions count, and in which order.
    pub counted: CountedLogs,
    /// The generation under which it goes on: with the remainder of its mark's, and no header of its regions names it or the next.
    pub generation: u64,
}

/// The logs of the clients, by the marks: those of the regions 2 and 3 are the second client's. Of the records it reads which inodes each touches,
/// those of one client at a time, and it changes nothing.
///
/// Refused are records that touch an inode that a client's before them do (`BadLog`, with the first such record by its place among those that count), a
/// device that fails, and a want of memory.
pub fn find_logs<M: Media>(
    alloc: Global,
    regions: &mut [Region<M>],
    marks: &Marks,
) -> Result<Vec<FoundLog>, RecoveryError>
    requires all { length regions.old ≡ REGIONS }
    requires idle { (k : ℕ) (v : RegionView _) → slice_get regions.old k ≡ Some v → IsIdle v.stage × Rests M.Media v.media }
    ensures same { AllZip (IsOnlyRead M.Media) regions.old regions.new }
    ensures len { IfOk result (λ logs. length logs.items ≡ 8) }
    ensures found { IfOk result (λ logs. AreFound marks.now (regions_read M.Media regions.old) logs.items) }

    // Exactly where no inode is in two clients' records it is not refused for that.
    ensures apart { OnOk result (LogsAreApart (log_by marks.now (regions_read M.Media regions.old))) }
    ensures bad { IfErr result (λ e. (client place : ℕ) → e ≡ BadLog client place → LogsAreApart (log_by marks.now (regions_read M.Media regions.old)) → ⊥) }
    ensures first { IfErr result (λ e. HoldFew (regions_read M.Media regions.old) → OnBadLog e (IsFirstSharing (log_by marks.now (regions_read M.Media regions.old)))) }
    ensures fault { IfErr result (λ e. e ≡ DeviceFault → HaveRisen M.Media (media_of regions.old) (media_of regions.new)) }
    ensures only { IfErr result (λ e. (e ≡ DeviceFault) ⊎ (e ≡ Memory) ⊎ (client : ℕ) × (place : ℕ) × (e ≡ BadLog client place)) }
{
    // For the proof: the table of owners decides whether two logs touch one inode, since records touch no number but inodes'.
    owners_decide_whether_logs_are_apart();
    counted_records_touch_inodes();
    let mut owners = Owners::new(alloc)?;
    let mut logs = Vec::new(alloc);
    logs.reserve(CLIENTS)?;
    for client in 0..CLIENTS {
        let found = find_next(regions, marks, client, &mut owners)?;
        match logs.push(found) {
            Ok(()) => {}
            Err(_) => unreachable!(),
        }
    }
    Ok(logs)
}

// The log of the client after `before` others; its records are added to those of the clients before.
fn find_next<M: Media>(
    regions: &mut [Region<M>],
    marks: &Marks,
    before: usize,
    owners: &mut Owners,
) -> Result<FoundLog, RecoveryError>
    requires all { length regions.old ≡ REGIONS }
    requires idle { (k : ℕ) (v : RegionView _) → slice_get regions.old k ≡ Some v → IsIdle v.stage }
    requires client { before < 8 }
    ensures same { AllZip (IsOnlyRead M.Media) regions.old regions.new }
    ensures found { IfOk result (λ log. IsFound (mark_of marks.now (before + 1)) (regions_read M.Media regions.old (before + 1)) log) }
    ensures clear { OnOk result (IsClear (owner owners.old) (before + 1) (log_by marks.now (regions_read M.Media regions.old) (before + 1))) }
    ensures added { OnOk result (AreAdded (owner owners.old) (owner owners.new) (before + 1) (log_by marks.now (regions_read M.Media regions.old) (before + 1))) }
    ensures bad { IfErr result (λ e. (client place : ℕ) → e ≡ BadLog client place → IsClear (owner owners.old) (before + 1) (log_by marks.now (regions_read M.Media regions.old) (before + 1)) → ⊥) }
    ensures first { IfErr result (λ e. HoldsFew (regions_read M.Media regions.old (before + 1)) → NamesForeign (owner owners.old) (before + 1) (log_by marks.now (regions_read M.Media regions.old) (before + 1)) e) }
    ensures fault { IfErr result (λ e. e ≡ DeviceFault → HaveRisen M.Media (media_of regions.old) (media_of regions.new)) }
    ensures only { IfErr result (λ e. (e ≡ DeviceFault) ⊎ (e ≡ Memory) ⊎ (client : ℕ) × (place : ℕ) × (e ≡ BadLog client place)) }
{
    let even = read_at(regions, 2 * before)?;
    let odd = read_at(regions, 2 * before + 1)?;
    find_log(
        owners,
        before as u32 + 1,
        marks.clients[before],
        &even,
        &odd,
    )
}

// What is read of a region: the generation that its header names, and which inodes each of its records touches.
#[derive(Drop)]
struct ReadRegion {
    name: u64,
    touched: Vec<TouchedInodes>,
}

// Reads the region at a place.
fn read_at<M: Media>(regions: &mut [Region<M>], place: usize) -> Result<ReadRegion, RecoveryError>
    requires there { place < length regions.old }
    requires idle { (k : ℕ) (v : RegionView _) → slice_get regions.old k ≡ Some v → IsIdle v.stage }
    ensures read { IfOk result (λ read. IsReadAs (read_of M.Media (slice_get regions.old place)) read.name read.touched.items) }
    ensures same { AllZip (IsOnlyRead M.Media) regions.old regions.new }
    ensures only { IfErr result (λ e. (e ≡ DeviceFault) ⊎ (e ≡ Memory)) }
    ensures fault { IfErr result (λ e. e ≡ DeviceFault → HaveRisen M.Media (media_of regions.old) (media_of regions.new)) }
{
    read_region(&mut regions[place])
}

// Reads the generation that a region's header names, and which inodes its records touch.
fn read_region<M: Media>(region: &mut Region<M>) -> Result<ReadRegion, RecoveryError>
    requires idle { IsIdle region.old.stage }
    ensures read { IfOk result (λ read. IsReadAs (M.seen region.old.media Fast) read.name read.touched.items) }
    ensures same { IsOnlyRead M.Media region.old region.new }
    ensures only { IfErr result (λ e. (e ≡ DeviceFault) ⊎ (e ≡ Memory)) }
    ensures fault { IfErr result (λ e. e ≡ DeviceFault → Rose (M.faults region.old.media) (M.faults region.new.media)) }
{
    let name = generation_of(region)?;
    let touched = touched_inodes_in(region)?;
    Ok(ReadRegion { name, touched })
}

// The log of a client, by what is read of its two regions; its records are added to those of the clients before.
fn find_log(
    owners: &mut Owners,
    client: u32,
    mark: Mark,
    even: &ReadRegion,
    odd: &ReadRegion,
) -> Result<FoundLog, RecoveryError>
    ensures found { IfOk result (λ log. (regions : ℕ → List ℕ) → AreReadAs regions even.now.name odd.now.name even.now.touched.items odd.now.touched.items → IsFound mark regions log) }
    ensures clear { OnOk result ((regions : ℕ → List ℕ) → AreReadAs regions even.now.name odd.now.name even.now.touched.items odd.now.touched.items
        → IsClear (owner owners.old) client (counted_records mark.generation mark.done regions)) }
    ensures added { OnOk result ((regions : ℕ → List ℕ) → AreReadAs regions even.now.name odd.now.name even.now.touched.items odd.now.touched.items
        → AreAdded (owner owners.old) (owner owners.new) client (counted_records mark.generation mark.done regions)) }
    ensures refused { OnErr result ((regions : ℕ → List ℕ) → AreReadAs regions even.now.name odd.now.name even.now.touched.items odd.now.touched.items
        → IsClear (owner owners.old) client (counted_records mark.generation mark.done regions) → ⊥) }
    ensures first { IfErr result (λ e. (regions : ℕ → List ℕ) → AreReadAs regions even.now.name odd.now.name even.now.touched.items odd.now.touched.items → HoldsFew regions
        → NamesForeign (owner owners.old) client (counted_records mark.generation mark.done regions) e) }
    ensures only { IfErr result (λ e. (place : ℕ) × (e ≡ BadLog client place)) }
{
    let names = [even.name, odd.name];
    let lengths = [even.touched.len(), odd.touched.len()];
    let counted = logs_that_count(mark.generation, mark.done, names, lengths);
    own_log(owners, client, &even.touched, &odd.touched, counted)?;
    Ok(FoundLog {
        counted,
        generation: next_free_generation(mark.generation, names),
    })
}

// Adds the records that count of a client's two regions, by the inodes that each touches. The first place among them is 0.
fn own_log(
    owners: &mut Owners,
    client: u32,
    even: &[TouchedInodes],
    odd: &[TouchedInodes],
    counted: CountedLogs,
) -> Result<(), RecoveryError>
    ensures clear { OnOk result ((evens odds : List Record) → AreTouchedIn even.now odd.now evens odds
        → IsClear (owner owners.old) client (first_part evens odds counted.first ++ second_part evens odds counted.second)) }
    ensures added { OnOk result ((evens odds : List Record) → AreTouchedIn even.now odd.now evens odds
        → AreAdded (owner owners.old) (owner owners.new) client (first_part evens odds counted.first ++ second_part evens odds counted.second)) }
    ensures refused { OnErr result ((evens odds : List Record) → AreTouchedIn even.now odd.now evens odds
        → IsClear (owner owners.old) client (first_part evens odds counted.first ++ second_part evens odds counted.second) → ⊥) }
    ensures first { IfErr result (λ e. (evens odds : List Record) → AreTouchedIn even.now odd.now evens odds → length evens < 2 ^ 32 → length odds < 2 ^ 32
        → NamesForeign (owner owners.old) client (first_part evens odds counted.first ++ second_part evens odds counted.second) e) }
    ensures only { IfErr result (λ e. (place : ℕ) × (e ≡ BadLog client place)) }
{
    // For the proof: the table of owners decides whether two logs touch one inode.
    owners_decide_whether_logs_are_apart();
    let first = records_from(even, odd, counted.first);
    own_part(owners, client, 0, first)?;
    let second = records_in_region(even, odd, counted.second);
    own_part(owners, client, first.len(), second)
}

// The records of a region behind those that are passed over; none of no region.
fn records_from<'a>(
    even: &'a [TouchedInodes],
    odd: &'a [TouchedInodes],
    rest: Option<LogRest>,
) -> &'a [TouchedInodes]
    ensures { result.now ≡ first_part even.now odd.now rest }
{
    let Some(rest) = rest else {
        return &[];
    };
    let records = records_in_region(even, odd, Some(rest.region));
    let from = rest.from.min(records.len());
    &records[from..]
}

// The records of a region; none of no region.
fn records_in_region<'a>(
    even: &'a [TouchedInodes],
    odd: &'a [TouchedInodes],
    region: Option<usize>,
) -> &'a [TouchedInodes]
    ensures { result.now ≡ second_part even.now odd.now region }
{
    match region {
        Some(0) => even,
        Some(_) => odd,
        None => &[],
    }
}

// Adds some of a client's records, which begin at this place among those that count.
fn own_part(
    owners: &mut Owners,
    client: u32,
    before: usize,
    part: &[TouchedInodes],
) -> Result<(), RecoveryError>
    ensures clear { OnOk result ((rs : List Record) → AreTouchedBy rs part.now → IsClear (owner owners.old) client rs) }
    ensures added { OnOk result ((rs : List Record) → AreTouchedBy rs part.now → AreAdded (owner owners.old) (owner owners.new) client rs) }
    ensures refused { OnErr result ((rs : List Record) → AreTouchedBy rs part.now → IsClear (owner owners.old) client rs → ⊥) }
    ensures first { IfErr result (λ e. (k : ℕ) × (before + k < 2 ^ 64 → e ≡ BadLog client (before + k)) × ((rs : List Record) → AreTouchedBy rs part.now → IsFirstForeign (owner owners.old) client rs k)) }
    ensures only { IfErr result (λ e. (place : ℕ) × (e ≡ BadLog client place)) }
{
    match owners.add_records(client, part) {
        Ok(()) => Ok(()),
        Err(shared) => Err(RecoveryError::BadLog {
            client,
            place: before.saturating_add(place_of(part, shared.inode)),
        }),
    }
}

// The place of the first record that touches an inode; their number where none does.
fn place_of(part: &[TouchedInodes], inode: u32) -> usize
    ensures within { result ≤ length part.now }
    ensures none_before { is_among inode (listed (take result part.now)) ≡ false }
    ensures there { is_among inode (listed part.now) ≡ true → is_among inode (listed (take (result + 1) part.now)) ≡ true }
{
    for (place, logged) in part.iter().enumerate() {
        if touches_inode(logged, inode) {
            return place;
        }
    }
    part.len()
}

// Whether a record touches an inode.
fn touches_inode(logged: &TouchedInodes, inode: u32) -> bool
    ensures { result ≡ is_among inode logged.now }
{
    logged.as_slice().iter().any(|other| *other == inode)
}

// The generation that a region's header names.
fn generation_of<M: Media>(region: &mut Region<M>) -> Result<u64, RecoveryError>
    requires idle { IsIdle region.old.stage }
    ensures named { IfOk result (λ g. g ≡ generation (M.seen region.old.media Fast)) }
    ensures same { IsOnlyRead M.Media region.old region.new }
    ensures only { IfErr result (λ e. e ≡ DeviceFault) }
    ensures fault { OnErr result (Rose (M.faults region.old.media) (M.faults region.new.media)) }
{
    // For the proof: what a stop leaves of the region now.
    region.left_now();
    match region.generation() {
        Ok(generation) => Ok(generation),
        Err(_) => Err(RecoveryError::DeviceFault),
    }
}

// The inodes that each of a region's records touches.
fn touched_inodes_in<M: Media>(region: &mut Region<M>) -> Result<Vec<TouchedInodes>, RecoveryError>
    requires idle { IsIdle region.old.stage }
    ensures found { IfOk result (λ found. AreTouchedBy (records (M.seen region.old.media Fast)) found.items) }
    ensures same { IsOnlyRead M.Media region.old region.new }
    ensures only { IfErr result (λ e. (e ≡ DeviceFault) ⊎ (e ≡ Memory)) }
    ensures fault { IfErr result (λ e. e ≡ DeviceFault → Rose (M.faults region.old.media) (M.faults region.new.media)) }
{
    // For the proof: what a stop leaves of the region now.
    region.left_now();
    match region.touched_inodes() {
        Ok(found) => Ok(found),
        Err(RegionError::DeviceFault) => Err(RecoveryError::DeviceFault),
        Err(_) => Err(RecoveryError::Memory),
    }
}
