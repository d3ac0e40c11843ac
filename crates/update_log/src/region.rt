ghost use Rattle.std.specs.Prelude.{◌≡◌, ◌≢◌, ◌≤◌, ◌<◌, ◌+◌, ◌⊎◌, ℕ, List, [], length, IfOk, IfErr, IfSome, IfNone, IsErrOf, IsTrue, ◌↔◌, OnOk, OnErr, Some, None, get_or, map};
ghost use Rattle.log_record.specs.Grammar.{IsRecord, record_bytes};
ghost use Rattle.log_record.specs.Touches.{inodes_of};
ghost use Rattle.tier_device.specs.declared.media.Tier.{Tier};
ghost use Rattle.tier_device.specs.declared.media.Tier.TheVariants.{Fast};
ghost use Rattle.tier_device.specs.Media.{Keeps, Puts, Rose};
ghost use Rattle.tier_device.specs.AfterStop.{AtRest};
ghost use Rattle.tier_device.specs.StopsSince.{LeftSince};
ghost use Rattle.update_log.specs.declared.error.RegionError.TheVariants.{DeviceFault, RegionFull, Damaged, Memory};
ghost use Rattle.update_log.specs.declared.format.TheConstants.{HEADER, REGION_SIZE, OPEN};
ghost use Rattle.update_log.specs.declared.stage.Stage.TheVariants as stages;
ghost use Rattle.update_log.specs.Frames.{records, header, with_record, end_behind};
ghost use Rattle.update_log.specs.Stage.{IsAppending, IsIdle, IsUnopened, calls_left, next, progress};
ghost use Rattle.update_log.specs.View.{HasSize};

mod append_end;

use crate::append::{device_call, end_after};
use crate::buffer::Buffer;
use crate::error::RegionError;
use crate::format::{HEADER, REGION_SIZE};
use crate::front::{read_before_gate, read_generation};
use crate::laws::records_are_as_long;
use crate::scan::{end_of, records_in, stage_at, touched_inodes_in};
use crate::stage::{Progress, Stage, WipeProgress};
use crate::wipe::wipe_call;
use log_record::{Record, TouchedInodes, written_is_read};
use std::alloc::Global;
use std::marker::Model;
use tier_device::{Media, Tier};

/// A region of a client's log: 262,144 bytes on the fast tier of a medium, which hold a header of 16 bytes and the records
/// behind it, each behind a gate.
///
/// A record is appended by `begin`, which makes no device call, and four times `step`, each of which makes one. Contracts
/// see a region by its header, the records that are appended, and the one that is begun.
#[derive(Drop)]
pub struct Region<M: Media> {
    media: M,
    alloc: Global,
    end: usize,
    stage: Stage,
    body: Buffer,
    // Whether the buffer has what a read gives.
    has_content: bool,
}

impl<M: Media> Model for Region<M> {
    ghost use Rattle.update_log.specs.View.{RegionView, begun_in};
    ghost use Rattle.tier_device.specs.declared.media.Tier.TheVariants.{Fast};

    ghost Value = { RegionView M };

    ghost use Rattle.update_log.specs.Stage.{FitsItsStage, HasIfSaid, payload_in};

    ghost view = { λ r. record { media = r.media; end = r.end; stage = r.stage; begun = begun_in r.stage (payload_in r.body) } };

    ghost invariant = { λ r. FitsItsStage r.end r.stage r.body (M.seen r.media Fast) (M.left r.media (M.moment r.media) Fast) × HasIfSaid r.has_content r.body (M.seen r.media Fast) };
}

impl<M: Media> Region<M> {
    ghost use Rattle.update_log.specs.View.{HasSize, WithOrWithout, header_of, records_of, begun_of};
    ghost use Rattle.update_log.specs.Calls.{ShowsCall};
    ghost use Rattle.update_log.specs.Moments.{PastStays};
    ghost use Rattle.update_log.specs.WipeStops.{LeftInWipe, generation, records_behind_gate};
    ghost use Rattle.update_log.specs.Wipe.{CanWipe, IsWiping, LeftInCall, wipe_next, wipe_progress, seen_wiped, header_wiped};

    /// The region that a medium holds, with the records that stand in it. Nothing may be pending on the medium. It makes no
    /// device call but a read, and takes the memory in which later records are spelled.
    ///
    /// Refused are a medium of another size (`Damaged`), then a want of memory, then a medium that fails; the medium is handed
    /// back as it was.
    pub fn reopen(alloc: Global, media: M) -> Result<Self, (RegionError, M)>
        requires { AtRest (M.seen media) (M.left media (M.moment media)) Fast }
        ensures size { IfOk result (λ r. HasSize (M.seen media)) }
        ensures header { IfOk result (λ r. header_of M.Media r ≡ header (M.seen media Fast)) }
        ensures records { IfOk result (λ r. records_of M.Media r ≡ records (M.seen media Fast)) }
        ensures end { IfOk result (λ r. r.end ≡ end_behind (records (M.seen media Fast))) }

        // Nothing is begun, and a record may be unless an open gate stands behind the records.
        ensures none { IfOk result (λ r. begun_of r ≡ None) }
        ensures idle { IfOk result (λ r. IsIdle r.stage) }
        ensures resting { IfOk result (λ r. r.stage ≡ stages.Resting → get_or (M.seen media Fast) (end_behind (records (M.seen media Fast))) 0 ≢ OPEN) }
        ensures foreign { IfOk result (λ r. r.stage ≡ stages.Foreign → get_or (M.seen media Fast) (end_behind (records (M.seen media Fast))) 0 ≡ OPEN) }

        ensures seen { IfOk result (λ r. (t : Tier) → M.seen r.media t ≡ M.seen media t) }
        ensures rests { IfOk result (λ r. AtRest (M.seen r.media) (M.left r.media (M.moment r.media)) Fast) }
        ensures clock { IfOk result (λ r. M.moment r.media ≡ M.moment media) }
        ensures past { IfOk result (λ r. Keeps (M.moment media) (M.moment r.media) (M.left media) (M.left r.media)) }
        ensures quiet { IfOk result (λ r. M.faults r.media ≡ M.faults media) }

        ensures damaged { IfErr result (λ e. (e.0 ≡ Damaged → HasSize (M.seen media) → ⊥) × (e.0 ≢ Damaged → HasSize (M.seen media))) }
        ensures fault { IfErr result (λ e. e.0 ≡ DeviceFault → Rose (M.faults media) (M.faults e.1)) }
        ensures quiet_refused { IfErr result (λ e. e.0 ≢ DeviceFault → M.faults e.1 ≡ M.faults media) }
        ensures faults { IfErr result (λ e. M.faults media ≤ M.faults e.1) }
        ensures one_fault { IfErr result (λ e. M.faults e.1 ≤ M.faults media + 1) }
        ensures only { IfErr result (λ e. e.0 ≢ RegionFull) }
        ensures back { IfErr result (λ e. (t : Tier) → M.seen e.1 t ≡ M.seen media t) }
        ensures back_rests { IfErr result (λ e. AtRest (M.seen e.1) (M.left e.1 (M.moment e.1)) Fast) }
        ensures back_clock { IfErr result (λ e. M.moment e.1 ≡ M.moment media) }
        ensures back_past { IfErr result (λ e. Keeps (M.moment media) (M.moment e.1) (M.left media) (M.left e.1)) }
    {
        if !has_size(&media) {
            return Err((RegionError::Damaged, media));
        }
        match Buffer::new(alloc) {
            Ok(buffer) => Region::read(alloc, media, buffer),
            Err(_) => Err((RegionError::Memory, media)),
        }
    }

    // The same over a medium of the right size.
    fn read(alloc: Global, media: M, buffer: Buffer) -> Result<Self, (RegionError, M)>
        requires rests { AtRest (M.seen media) (M.left media (M.moment media)) Fast }
        requires size { length (M.seen media Fast) ≡ REGION_SIZE }
        ensures header { IfOk result (λ r. header_of M.Media r ≡ header (M.seen media Fast)) }
        ensures records { IfOk result (λ r. records_of M.Media r ≡ records (M.seen media Fast)) }
        ensures end { IfOk result (λ r. r.end ≡ end_behind (records (M.seen media Fast))) }
        ensures none { IfOk result (λ r. begun_of r ≡ None) }
        ensures idle { IfOk result (λ r. IsIdle r.stage) }
        ensures resting { IfOk result (λ r. r.stage ≡ stages.Resting → get_or (M.seen media Fast) (end_behind (records (M.seen media Fast))) 0 ≢ OPEN) }
        ensures foreign { IfOk result (λ r. r.stage ≡ stages.Foreign → get_or (M.seen media Fast) (end_behind (records (M.seen media Fast))) 0 ≡ OPEN) }
        ensures seen { IfOk result (λ r. (t : Tier) → M.seen r.media t ≡ M.seen media t) }
        ensures rests { IfOk result (λ r. AtRest (M.seen r.media) (M.left r.media (M.moment r.media)) Fast) }
        ensures clock { IfOk result (λ r. M.moment r.media ≡ M.moment media) }
        ensures past { IfOk result (λ r. Keeps (M.moment media) (M.moment r.media) (M.left media) (M.left r.media)) }
        ensures quiet { IfOk result (λ r. M.faults r.media ≡ M.faults media) }

        ensures only { IfErr result (λ e. e.0 ≡ DeviceFault) }
        ensures fault { IfErr result (λ e. Rose (M.faults media) (M.faults e.1)) }
        ensures faults { IfErr result (λ e. M.faults media ≤ M.faults e.1) }
        ensures one_fault { IfErr result (λ e. M.faults e.1 ≤ M.faults media + 1) }
        ensures back { IfErr result (λ e. (t : Tier) → M.seen e.1 t ≡ M.seen media t) }
        ensures back_rests { IfErr result (λ e. AtRest (M.seen e.1) (M.left e.1 (M.moment e.1)) Fast) }
        ensures back_clock { IfErr result (λ e. M.moment e.1 ≡ M.moment media) }
        ensures back_past { IfErr result (λ e. Keeps (M.moment media) (M.moment e.1) (M.left media) (M.left e.1)) }
    {
        let mut media = media;
        let mut body = buffer;
        match body.read(&mut media) {
            Ok(()) => {
                let end = end_of(body.as_slice());
                let stage = stage_at(body.as_slice(), end);
                Ok(Region {
                    media,
                    alloc,
                    end,
                    stage,
                    body,
                    has_content: true,
                })
            }
            Err(_) => Err((RegionError::DeviceFault, media)),
        }
    }

    /// Begins to append a record. It makes no device call and takes no memory.
    ///
    /// Refused, with nothing changed, is a record that leaves no place for the gate behind it (`RegionFull`).
    pub fn begin(&mut self, logged: &Record) -> Result<(), RegionError>
        requires ready { self.old.stage ≡ stages.Resting }
        requires fits { IsRecord logged.now }
        ensures begun { OnOk result (begun_of self.new ≡ Some logged.now) }
        ensures stage { OnOk result (self.new.stage ≡ stages.Begun) }
        ensures media { self.new.media ≡ self.old.media }
        ensures end { self.new.end ≡ self.old.end }

        ensures full { IsErrOf result RegionFull ↔ (REGION_SIZE < end_behind (records_of M.Media self.old) + 5 + length (record_bytes logged.now) + 1) }
        ensures only { IfErr result (λ e. e ≡ RegionFull) }
        ensures refused { OnErr result (self.new ≡ self.old) }
    {
        // For the proof: the record is read as it is written.
        written_is_read();
        let len = logged.spelled_len();
        let left = REGION_SIZE - self.end();
        if left < 6 || left - 6 < len {
            return Err(RegionError::RegionFull);
        }
        self.has_content = false;
        self.body.put(logged);
        self.stage = Stage::Begun;
        Ok(())
    }

    /// Makes one device call of the append that was begun: the body, a fence, the gate, a fence. It takes no memory. The
    /// fourth call that succeeds ends the append.
    ///
    /// Where the device fails, the record may stand in the region or not, and the region stays failed until it is reopened.
    pub fn step(&mut self) -> Result<Progress, RegionError>
        requires { IsAppending self.old.stage }

        // At each moment of the call a stop leaves the records from before the append, with the begun one or without.
        ensures any_moment { (c : List ℕ) → LeftSince (M.left self.new.media) (M.moment self.new.media) (M.moment self.old.media) Fast c
            → WithOrWithout (header_of M.Media self.old) (records_of M.Media self.old) (begun_of self.old) c }

        // The first call writes the begun record and a closed gate behind it, the third opens its gate, and nothing else changes.
        ensures seen { OnOk result (ShowsCall self.old.stage self.old.end (begun_of self.old) (M.seen self.old.media) (M.seen self.new.media)) }

        ensures progress { IfOk result (λ p. p ≡ progress self.old.stage) }
        ensures stage { OnOk result (self.new.stage ≡ next self.old.stage) }
        ensures same_header { header_of M.Media self.new ≡ header_of M.Media self.old }

        // Until the last call the record is begun; then it is appended, and every stop leaves it.
        ensures going { self.new.stage ≢ stages.Resting → (records_of M.Media self.new ≡ records_of M.Media self.old) × (begun_of self.new ≡ begun_of self.old) }
        ensures appended { self.new.stage ≡ stages.Resting → records_of M.Media self.new ≡ with_record (records_of M.Media self.old) (begun_of self.old) }
        ensures kept { self.new.stage ≡ stages.Resting → (c : List ℕ) → M.left self.new.media (M.moment self.new.media) Fast c → records c ≡ records_of M.Media self.new }

        ensures one_call { OnOk result (M.moment self.new.media ≡ M.moment self.old.media + 1) }
        ensures at_most { M.moment self.new.media ≤ M.moment self.old.media + 1 }
        ensures past { Keeps (M.moment self.old.media) (M.moment self.new.media) (M.left self.old.media) (M.left self.new.media) }

        // It fails only where the device does.
        ensures only { IfErr result (λ e. e ≡ DeviceFault) }
        ensures failed { OnErr result (self.new.stage ≡ stages.Failed) }
        ensures fault { OnErr result (Rose (M.faults self.old.media) (M.faults self.new.media)) }
        ensures sound { OnOk result (M.faults self.new.media ≡ M.faults self.old.media) }
        ensures faults { (M.faults self.old.media ≤ M.faults self.new.media) × (M.faults self.new.media ≤ M.faults self.old.media + 1) }
    {
        let stage = self.stage;
        self.has_content = false;
        match device_call(&mut self.media, stage, self.end, self.body.as_slice()) {
            Ok(()) => {
                self.end = end_after(stage, self.end, self.body.as_slice());
                self.stage = stage.next();
                Ok(stage.progress())
            }
            Err(_) => {
                self.stage = Stage::Failed;
                Err(RegionError::DeviceFault)
            }
        }
    }

    /// Appends a record by its four device calls, one after the other. It takes no memory.
    ///
    /// Refused as `begin` is, with nothing changed; where the device fails, as `step` is, and no further call is made.
    pub fn append(&mut self, logged: &Record) -> Result<(), RegionError>
        requires ready { self.old.stage ≡ stages.Resting }
        requires fits { IsRecord logged.now }

        // At each moment of the call a stop leaves the records from before it, with this one or without.
        ensures any_moment { (c : List ℕ) → LeftSince (M.left self.new.media) (M.moment self.new.media) (M.moment self.old.media) Fast c
            → WithOrWithout (header_of M.Media self.old) (records_of M.Media self.old) (Some logged.now) c }
        ensures past { PastStays (M.moment self.old.media) (M.moment self.new.media) (M.left self.old.media) (M.left self.new.media) }

        ensures appended { OnOk result (records_of M.Media self.new ≡ with_record (records_of M.Media self.old) (Some logged.now)) }
        ensures kept { OnOk result ((c : List ℕ) → M.left self.new.media (M.moment self.new.media) Fast c → records c ≡ records_of M.Media self.new) }
        ensures stage { OnOk result (self.new.stage ≡ stages.Resting) }
        ensures same_header { header_of M.Media self.new ≡ header_of M.Media self.old }
        ensures four_calls { OnOk result (M.moment self.new.media ≡ M.moment self.old.media + 4) }
        ensures at_most { M.moment self.new.media ≤ M.moment self.old.media + 4 }

        ensures full { IsErrOf result RegionFull ↔ (REGION_SIZE < end_behind (records_of M.Media self.old) + 5 + length (record_bytes logged.now) + 1) }
        ensures refused { IsErrOf result RegionFull → self.new ≡ self.old }
        ensures only { IfErr result (λ e. (e ≡ RegionFull) ⊎ (e ≡ DeviceFault)) }

        // A device fault ends it: the record is begun, and nothing more is done to it.
        ensures failed { IsErrOf result DeviceFault → self.new.stage ≡ stages.Failed }
        ensures unanswered { IsErrOf result DeviceFault → (records_of M.Media self.new ≡ records_of M.Media self.old) × (begun_of self.new ≡ Some logged.now) }
        ensures fault { IsErrOf result DeviceFault → Rose (M.faults self.old.media) (M.faults self.new.media) }
        ensures sound { OnOk result (M.faults self.new.media ≡ M.faults self.old.media) }
        ensures faults { (M.faults self.old.media ≤ M.faults self.new.media) × (M.faults self.new.media ≤ M.faults self.old.media + 1) }
    {
        // For the proof: what a stop leaves before the first device call.
        self.left_now();
        self.begin(logged)?;
        self.finish()
    }

    /// Makes the device calls that are left of an append, one after the other, each as `step` does. It takes no memory.
    ///
    /// Where the device fails, as `step` is, no further call is made, and the record stays begun.
    pub fn finish(&mut self) -> Result<(), RegionError>
        requires { IsAppending self.old.stage }

        // At each moment of the calls a stop leaves the records from before them, with the begun one or without.
        ensures any_moment { (c : List ℕ) → LeftSince (M.left self.new.media) (M.moment self.new.media) (M.moment self.old.media) Fast c
            → WithOrWithout (header_of M.Media self.old) (records_of M.Media self.old) (begun_of self.old) c }
        ensures past { PastStays (M.moment self.old.media) (M.moment self.new.media) (M.left self.old.media) (M.left self.new.media) }
        ensures appended { OnOk result (records_of M.Media self.new ≡ with_record (records_of M.Media self.old) (begun_of self.old)) }
        ensures kept { OnOk result ((c : List ℕ) → M.left self.new.media (M.moment self.new.media) Fast c → records c ≡ records_of M.Media self.new) }
        ensures stage { OnOk result (self.new.stage ≡ stages.Resting) }
        ensures same_header { header_of M.Media self.new ≡ header_of M.Media self.old }
        ensures calls { OnOk result (M.moment self.new.media ≡ M.moment self.old.media + calls_left self.old.stage) }
        ensures at_most { M.moment self.new.media ≤ M.moment self.old.media + calls_left self.old.stage }
        ensures only { IfErr result (λ e. e ≡ DeviceFault) }
        ensures failed { OnErr result (self.new.stage ≡ stages.Failed) }
        ensures unanswered { OnErr result ((records_of M.Media self.new ≡ records_of M.Media self.old) × (begun_of self.new ≡ begun_of self.old)) }
        ensures fault { OnErr result (Rose (M.faults self.old.media) (M.faults self.new.media)) }
        ensures sound { OnOk result (M.faults self.new.media ≡ M.faults self.old.media) }
        ensures faults { (M.faults self.old.media ≤ M.faults self.new.media) × (M.faults self.new.media ≤ M.faults self.old.media + 1) }
    {
        // For the proof: what a stop leaves before the next device call.
        self.left_now();
        'calls: while self.step()? == Progress::Going {}
        Ok(())
    }

    /// Makes one device call of a wipe to a generation: the first gate is closed, a fence, the generation, a fence. On a region at rest
    /// whose first gate's byte is 0x00 already, the first two are left out. It takes no memory. The last call that succeeds ends the
    /// wipe: the region rests then, has no record, and names the generation that was given to the call before. Whoever calls sees to it
    /// that no record of the region is needed any more.
    ///
    /// Where the device fails, the region stays failed until it is reopened.
    pub fn wipe_step(&mut self, generation: u64) -> Result<WipeProgress, RegionError>
        requires { CanWipe self.old.stage }

        // At each moment of a call on the first gate a stop leaves the header, and the records behind the gate or none; at each moment of
        // a call on the generation no record, and the other bytes of the header.
        ensures any_moment { (c : List ℕ) → LeftSince (M.left self.new.media) (M.moment self.new.media) (M.moment self.old.media) Fast c
            → LeftInCall (wipe_next self.old.stage (get_or (M.seen self.old.media Fast) HEADER 0)) (header_of M.Media self.old) (records_behind_gate (M.seen self.old.media Fast)) c }

        ensures seen { OnOk result (Puts Fast (seen_wiped self.new.stage generation (M.seen self.old.media Fast)) (M.seen self.old.media) (M.seen self.new.media)) }
        ensures stage { OnOk result (self.new.stage ≡ wipe_next self.old.stage (get_or (M.seen self.old.media Fast) HEADER 0)) }
        ensures progress { IfOk result (λ p. p ≡ wipe_progress self.new.stage) }
        ensures header { OnOk result (header_of M.Media self.new ≡ header_wiped self.new.stage generation (header_of M.Media self.old)) }
        ensures none { records_of M.Media self.new ≡ [] }
        ensures nothing_begun { begun_of self.new ≡ None }

        // After the last call every stop leaves what a read gives.
        ensures wiped { self.new.stage ≡ stages.Resting → (c : List ℕ) → M.left self.new.media (M.moment self.new.media) Fast c → c ≡ M.seen self.new.media Fast }

        ensures one_call { OnOk result (M.moment self.new.media ≡ M.moment self.old.media + 1) }
        ensures at_most { M.moment self.new.media ≤ M.moment self.old.media + 1 }
        ensures past { Keeps (M.moment self.old.media) (M.moment self.new.media) (M.left self.old.media) (M.left self.new.media) }

        // It fails only where the device does.
        ensures only { IfErr result (λ e. e ≡ DeviceFault) }
        ensures failed { OnErr result (self.new.stage ≡ stages.WipeFailed) }
        ensures fault { OnErr result (Rose (M.faults self.old.media) (M.faults self.new.media)) }
        ensures sound { OnOk result (M.faults self.new.media ≡ M.faults self.old.media) }
        ensures faults { (M.faults self.old.media ≤ M.faults self.new.media) × (M.faults self.new.media ≤ M.faults self.old.media + 1) }
    {
        // Behind the header then stands a record, so that the first gate is open.
        let is_open = self.end > HEADER;
        self.has_content = false;
        match wipe_call(&mut self.media, self.stage, is_open, generation) {
            Ok(to) => {
                self.end = HEADER;
                self.stage = to;
                Ok(to.wipe_progress())
            }
            Err(_) => {
                self.end = HEADER;
                self.stage = Stage::WipeFailed;
                Err(RegionError::DeviceFault)
            }
        }
    }

    /// The records that are appended, in their order. It reads them from the medium, and changes nothing.
    pub fn records(&mut self) -> Result<Vec<Record>, RegionError>
        ensures found { IfOk result (λ found. found.items ≡ records_of M.Media self.old) }
        ensures same { (self.new.end ≡ self.old.end) × (self.new.stage ≡ self.old.stage) × (begun_of self.new ≡ begun_of self.old) }
        ensures seen { (t : Tier) → M.seen self.new.media t ≡ M.seen self.old.media t }
        ensures clock { M.moment self.new.media ≡ M.moment self.old.media }
        ensures past { Keeps (M.moment self.old.media) (M.moment self.new.media) (M.left self.old.media) (M.left self.new.media) }
        ensures only { IfErr result (λ e. (e ≡ DeviceFault) ⊎ (e ≡ Memory)) }
        ensures fault { IsErrOf result DeviceFault → Rose (M.faults self.old.media) (M.faults self.new.media) }
        ensures quiet { IsErrOf result DeviceFault ⊎ (M.faults self.new.media ≡ M.faults self.old.media) }
        ensures faults { M.faults self.old.media ≤ M.faults self.new.media }
        ensures one_fault { M.faults self.new.media ≤ M.faults self.old.media + 1 }
    {
        let front = read_before_gate(self.alloc, &mut self.media, self.end)?;
        Ok(records_in(self.alloc, &front)?)
    }

    /// The inodes that each of the records touches that are appended, in their order. Nothing may be begun. It takes no memory for names
    /// and bytes, and changes nothing: it looks at what the opening or a call before read, and reads the medium only where a record was
    /// begun or a wipe's step made since.
    pub fn touched_inodes(&mut self) -> Result<Vec<TouchedInodes>, RegionError>
        requires idle { IsIdle self.old.stage }
        ensures found { IfOk result (λ found. found.items ≡ map inodes_of (records_of M.Media self.old)) }
        ensures same { (self.new.end ≡ self.old.end) × (self.new.stage ≡ self.old.stage) × (begun_of self.new ≡ begun_of self.old) }
        ensures seen { (t : Tier) → M.seen self.new.media t ≡ M.seen self.old.media t }
        ensures clock { M.moment self.new.media ≡ M.moment self.old.media }
        ensures past { Keeps (M.moment self.old.media) (M.moment self.new.media) (M.left self.old.media) (M.left self.new.media) }
        ensures only { IfErr result (λ e. (e ≡ DeviceFault) ⊎ (e ≡ Memory)) }
        ensures fault { IsErrOf result DeviceFault → Rose (M.faults self.old.media) (M.faults self.new.media) }
        ensures quiet { IsErrOf result DeviceFault ⊎ (M.faults self.new.media ≡ M.faults self.old.media) }
        ensures faults { M.faults self.old.media ≤ M.faults self.new.media }
        ensures one_fault { M.faults self.new.media ≤ M.faults self.old.media + 1 }
    {
        // What a read that fails leaves in the buffer is no content.
        let has_content = self.has_content;
        self.has_content = false;
        match self.body.read_if_needed(&mut self.media, has_content) {
            Ok(()) => {
                self.has_content = true;
                Ok(touched_inodes_in(self.alloc, self.body.as_slice())?)
            }
            Err(_) => Err(RegionError::DeviceFault),
        }
    }

    /// The generation that the header names. It reads it from the medium, and changes nothing.
    pub fn generation(&mut self) -> Result<u64, RegionError>
        ensures named { IfOk result (λ g. g ≡ generation (header_of M.Media self.old)) }
        ensures same { (self.new.end ≡ self.old.end) × (self.new.stage ≡ self.old.stage) × (begun_of self.new ≡ begun_of self.old) }
        ensures seen { (t : Tier) → M.seen self.new.media t ≡ M.seen self.old.media t }
        ensures clock { M.moment self.new.media ≡ M.moment self.old.media }
        ensures past { Keeps (M.moment self.old.media) (M.moment self.new.media) (M.left self.old.media) (M.left self.new.media) }
        ensures only { IfErr result (λ e. e ≡ DeviceFault) }
        ensures fault { OnErr result (Rose (M.faults self.old.media) (M.faults self.new.media)) }
        ensures quiet { OnOk result (M.faults self.new.media ≡ M.faults self.old.media) }
        ensures faults { M.faults self.old.media ≤ M.faults self.new.media }
        ensures one_fault { M.faults self.new.media ≤ M.faults self.old.media + 1 }
    {
        read_generation(&mut self.media)
    }

    /// What a stop may leave now, between two calls.
    pub fn left_now(&self)
        ensures either { (IsWiping self.now.stage → ⊥) → (c : List ℕ) → M.left self.now.media (M.moment self.now.media) Fast c
            → WithOrWithout (header_of M.Media self.now) (records_of M.Media self.now) (begun_of self.now) c }

        // Until the call that opens its gate, it leaves no begun record: the header, and the records that are appended.
        ensures unopened { IsUnopened self.now.stage → (c : List ℕ) → M.left self.now.media (M.moment self.now.media) Fast c
            → (header c ≡ header_of M.Media self.now) × (records c ≡ records_of M.Media self.now) }

        // Once the gate of a begun record is opened, a read gives it open.
        ensures opened { self.now.stage ≡ stages.Opened → get_or (M.seen self.now.media Fast) self.now.end 0 ≡ OPEN }

        // Between two calls of a wipe it leaves the header and the records behind the first gate, or no record.
        ensures wiping { IsWiping self.now.stage → (c : List ℕ) → M.left self.now.media (M.moment self.now.media) Fast c
            → LeftInWipe (header_of M.Media self.now) (records_behind_gate (M.seen self.now.media Fast)) c }

        // Where there are records and nothing is begun, the first gate is open, and those behind it are all.
        ensures behind { IsIdle self.now.stage → records_of M.Media self.now ≢ [] → records_behind_gate (M.seen self.now.media Fast) ≡ records_of M.Media self.now }

        // Where nothing is begun, also behind a foreign gate, it leaves what a read gives.
        ensures idle { IsIdle self.now.stage → (c : List ℕ) → M.left self.now.media (M.moment self.now.media) Fast c
            → (c ≡ M.seen self.now.media Fast) × (records c ≡ records_of M.Media self.now) }
        ensures none { IsIdle self.now.stage → begun_of self.now ≡ None }

        // The next gate stands behind the records.
        ensures end { self.now.end ≡ end_behind (records_of M.Media self.now) }
    {
        // For the proof: records take as many bytes as their spellings, and the invariant of the type.
        records_are_as_long();
        let _ = &self.end;
    }

    // Where the next gate stands.
    fn end(&self) -> usize
        ensures is { result ≡ self.now.end }
        ensures behind { result ≡ end_behind (records_of M.Media self.now) }
        ensures within { result < REGION_SIZE }
    {
        // For the proof: the next gate stands behind the records.
        self.left_now();
        self.end
    }

    /// How far it is.
    pub fn stage(&self) -> Stage
        ensures { result ≡ self.now.stage }
    {
        self.stage
    }

    /// The length of the longest payload that the next record may have, in bytes; none fits where it is `None`.
    pub fn room(&self) -> Option<usize>
        ensures some { IfSome result (λ most. end_behind (records_of M.Media self.now) + 5 + most + 1 ≡ REGION_SIZE) }
        ensures none { IfNone result (REGION_SIZE < end_behind (records_of M.Media self.now) + 5 + 0 + 1) }
    {
        (REGION_SIZE - self.end()).checked_sub(6)
    }

    /// The medium beneath.
    pub fn into_media(self) -> M
        ensures { result ≡ self.media }
    {
        self.media
    }
}

// Whether a medium has the size of a region: all of it on the fast tier.
fn has_size<M: Media>(media: &M) -> bool
    ensures { IsTrue result ↔ HasSize (M.seen media.now) }
{
    media.size(Tier::Fast) == REGION_SIZE
        && media.size(Tier::Block) == 0
        && media.size(Tier::Slow) == 0
}
