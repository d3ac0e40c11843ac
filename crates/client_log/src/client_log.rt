ghost use Rattle.std.specs.Prelude.{◌≡◌, ◌≢◌, ◌⊎◌, ◌≤◌, ◌<◌, ◌+◌, ◌↔◌, ℕ, List, [], length, get_or, Some, None, Ok, Err, true, false, is_some, IfErr, IfOk, IfSome, IsErr, IsErrOf, IsOk, IsSome, IsTrue, OnErr, OnOk, IfNone, OnSome};
ghost use Rattle.tier_device.specs.declared.media.Tier.TheVariants.{Fast};
ghost use Rattle.tier_device.specs.Media.{Rose};
ghost use Rattle.update_log.specs.log_record.Grammar.{IsRecord, record_bytes};
ghost use Rattle.update_log.specs.Calls.{ShowsCall};
ghost use Rattle.update_log.specs.RecordCounts.{next_generation};
ghost use Rattle.update_log.specs.Frames.{end_behind};
ghost use Rattle.update_log.specs.Stage.{IsUnopened, calls_left, next, progress};
ghost use Rattle.update_log.specs.View.{RegionView, records_of};
ghost use Rattle.update_log.specs.declared.format.TheConstants.{OPEN, REGION_SIZE};
ghost use Rattle.update_log.specs.declared.stage.Progress.TheVariants as appends;
ghost use Rattle.update_log.specs.declared.stage.Stage.TheVariants as stages;
ghost use Rattle.update_log.specs.declared.stage.WipeProgress.TheVariants as wipes;
ghost use Rattle.client_log.specs.declared.error.LogError.TheVariants.{DeviceFault, NotWiped, RegionFull, Memory};
ghost use Rattle.client_log.specs.Calls.{IsOnlyRead, IsMoved, IsMovedOnce};
ghost use Rattle.client_log.specs.Counts.{AreLeft, CountOf};
ghost use Rattle.client_log.specs.Regions.{AreWiped, CountsNothing, IsSealedRegion, IsWiped, in_turn};
ghost use Rattle.client_log.specs.Steps.{IsOpened, HasRoom, most_of, CanBeSealed, sealed_view, WipesCurrent, WipesOther};
ghost use Rattle.client_log.specs.Turns.{turn_of, record_begun, record_appended, record_given_up, CanSeal, sealed_turn, Away, Back, taken_back, current_wiped, other_wiped};
ghost use Rattle.client_log.specs.View.{current_records};

use crate::error::LogError;
use crate::regions::{in_turn, is_empty, is_pending, is_wiped, next_generation, wipe_call};
use crate::sealed_regions::left_of_sealed;
use std::alloc::Global;
use std::marker::Model;
use std::mem;
use tier_device::Media;
use update_log::in_log_record::Record;
use update_log::{Progress, Region, RegionError, Stage, WipeProgress};

/// A client's log: its current region, and the other one, which is here or was handed over.
///
/// Contracts see both regions, the current generation, whether each region that is here is wiped to its generation, and whether a device has failed. A log of
/// which a device has failed makes no device call any more, answers `DeviceFault` in place of each, and hands nothing over. Generations are counted modulo 2^64.
#[derive(Drop)]
pub struct ClientLog<M: Media> {
    alloc: Global,
    generation: u64,
    current: Region<M>,
    ready: bool,
    other: Option<Region<M>>,
    clean: bool,
    failed: bool,
}

impl<M: Media> Model for ClientLog<M> {
    ghost use Rattle.client_log.specs.Regions.{IsSound};
    ghost use Rattle.client_log.specs.View.{LogView};

    ghost Value = { LogView M };

    ghost view = { λ l. record { generation = l.generation; current = l.current; ready = l.ready; other = l.other; clean = l.clean; failed = l.failed } };

    ghost invariant = { λ l. IsSound M.Media l.generation l.current l.ready l.other l.clean l.failed };
}

impl<M: Media> ClientLog<M> {
    /// The log of two regions, that of even generations and that of odd ones, as a format or a recovery leaves them: the region of a generation is wiped
    /// to it, and the other to the next one. It reads their headers.
    ///
    /// `DeviceFault` where a header can't be read, and then nothing is said of whether they are wiped; `NotWiped` where all that was read could be, and they are
    /// not. The regions are handed back as they were, also where a read failed.
    pub fn open(
        alloc: Global,
        regions: (Region<M>, Region<M>),
        generation: u64,
    ) -> Result<Self, (LogError, (Region<M>, Region<M>))>
        ensures opened { IfOk result (IsOpened M.Media generation regions) }
        ensures wiped { OnOk result (AreWiped M.Media generation regions) }
        ensures not_wiped { IfErr result (λ e. e.0 ≡ NotWiped → AreWiped M.Media generation regions → ⊥) }
        ensures only { IfErr result (λ e. (e.0 ≡ NotWiped) ⊎ (e.0 ≡ DeviceFault)) }
        ensures fault { IfErr result (λ e. e.0 ≡ DeviceFault → Rose (M.faults regions.0.media) (M.faults e.1.0.media) ⊎ Rose (M.faults regions.1.media) (M.faults e.1.1.media)) }
        ensures quiet { IfErr result (λ e. e.0 ≡ NotWiped → (M.faults e.1.0.media ≡ M.faults regions.0.media) × (M.faults e.1.1.media ≡ M.faults regions.1.media)) }
        ensures even_back { IfErr result (λ e. IsOnlyRead M.Media regions.0 e.1.0) }
        ensures odd_back { IfErr result (λ e. IsOnlyRead M.Media regions.1 e.1.1) }
    {
        let (mut current, mut other) = in_turn(regions, generation);
        match are_wiped(&mut current, &mut other, generation) {
            Ok(true) => Ok(ClientLog {
                alloc,
                generation,
                current,
                ready: true,
                other: Some(other),
                clean: true,
                failed: false,
            }),
            Ok(false) => Err((LogError::NotWiped, in_turn((current, other), generation))),
            Err(error) => Err((error, in_turn((current, other), generation))),
        }
    }

    /// Whether the current region is wiped to its generation and has room for a record. It says nothing of whether a device has failed.
    pub fn room(&self, logged: &Record) -> bool
        requires { IsRecord logged.now }
        ensures { IsTrue result ↔ HasRoom M.Media self.now logged.now }
    {
        // For the proof: the next gate stands behind the records.
        self.current.left_now();
        match self.current.room() {
            Some(most) => self.ready && logged.spelled_len() <= most,
            None => false,
        }
    }

    /// How many bytes the spelling of the next record may have at most; `None` where the current region is not wiped to its generation, or no record fits behind those
    /// that it has. It says nothing of whether a device has failed.
    pub fn record_limit(&self) -> Option<usize>
        ensures { result ≡ most_of M.Media self.now }
    {
        // For the proof: the next gate stands behind the records.
        self.current.left_now();
        if !self.ready {
            return None;
        }
        self.current.room()
    }

    /// Begins to append a record, where none is begun. It makes no device call and takes no memory.
    ///
    /// Refused, with nothing changed, are a log of which a device has failed (`DeviceFault`), then one whose current region is not wiped to its generation
    /// (`NotWiped`), then a record that leaves no place for the gate behind it (`RegionFull`).
    pub fn begin(&mut self, logged: &Record) -> Result<(), LogError>
        requires idle { self.old.current.begun ≡ None }
        requires fits { IsRecord logged.now }
        ensures may { OnOk result ((self.old.failed ≡ false) × (self.old.ready ≡ true)) }
        ensures begun { OnOk result (turn_of M.Media self.new ≡ record_begun (turn_of M.Media self.old) logged.now) }
        ensures stage { OnOk result (self.new.current.stage ≡ stages.Begun) }
        ensures media { self.new.current.media ≡ self.old.current.media }
        ensures end { self.new.current.end ≡ self.old.current.end }
        ensures rest { self.new ≡ record self.old { current = self.new.current } }
        ensures failed { IsErrOf result DeviceFault ↔ (self.old.failed ≡ true) }
        ensures not_wiped { IsErrOf result NotWiped ↔ ((self.old.failed ≡ false) × (self.old.ready ≡ false)) }
        ensures full { IsErrOf result RegionFull ↔ ((self.old.failed ≡ false) × (self.old.ready ≡ true) × (REGION_SIZE < end_behind (records_of M.Media self.old.current) + 5 + length (record_bytes logged.now) + 1)) }
        ensures only { IfErr result (λ e. e ≢ Memory) }
        ensures refused { OnErr result (self.new ≡ self.old) }
    {
        if self.failed {
            return Err(LogError::DeviceFault);
        }
        if !self.ready {
            return Err(LogError::NotWiped);
        }
        match self.current.begin(logged) {
            Ok(()) => Ok(()),
            Err(_) => Err(LogError::RegionFull),
        }
    }

    /// Makes one device call of the append that was begun, as `Region::step` does, where a record is begun; the fourth that succeeds ends the append. It takes no
    /// memory.
    ///
    /// Where the device fails, the log has failed, and the record stays begun: it may stand in the region or not. A log that has failed before, be it in the other
    /// region or in a read, makes no call and answers `DeviceFault` with nothing changed: there too the record stays begun.
    pub fn step(&mut self) -> Result<Progress, LogError>
        requires { IsSome self.old.current.begun }

        // At each moment of the call what counted before it counts, with the begun record or without.
        ensures any_moment { (regions : ℕ → List ℕ) → AreLeft M.Media self.old self.new regions → CountOf self.old.generation (is_some self.old.other) (current_records M.Media self.old) self.old.current.begun regions }

        ensures shown { OnOk result (ShowsCall self.old.current.stage self.old.current.end self.old.current.begun (M.seen self.old.current.media) (M.seen self.new.current.media)) }
        ensures progress { IfOk result (λ p. p ≡ progress self.old.current.stage) }
        ensures stage { OnOk result (self.new.current.stage ≡ next self.old.current.stage) }

        // The last call appends the begun record; until then nothing of the log changes but its region.
        ensures appended { IfOk result (λ p. p ≡ appends.Appended → IfSome self.old.current.begun (λ r. turn_of M.Media self.new ≡ record_appended (turn_of M.Media self.old) r)) }
        ensures going { IfOk result (λ p. p ≡ appends.Going → turn_of M.Media self.new ≡ turn_of M.Media self.old) }
        ensures unanswered { OnErr result (turn_of M.Media self.new ≡ turn_of M.Media self.old) }

        ensures stage_failed { self.old.failed ≡ false → OnErr result (self.new.current.stage ≡ stages.Failed) }
        ensures moved { self.old.failed ≡ false → IsMovedOnce M.Media self.old.current self.new.current result }
        ensures rest { self.new ≡ record self.old { current = self.new.current; failed = self.new.failed } }
        ensures sound { OnOk result ((self.old.failed ≡ false) × (self.new.failed ≡ false)) }
        ensures failed { OnErr result (self.new.failed ≡ true) }
        ensures only { IfErr result (λ e. e ≡ DeviceFault) }
        ensures stays_failed { self.old.failed ≡ true → (result ≡ Err DeviceFault) × (self.new ≡ self.old) }
    {
        // For the proof: what a stop leaves before the device call, and behind it.
        self.current.left_now();
        if self.failed {
            return Err(LogError::DeviceFault);
        }
        let stepped = self.current.step();
        self.current.left_now();
        match stepped {
            Ok(progress) => Ok(progress),
            Err(_) => {
                self.failed = true;
                Err(LogError::DeviceFault)
            }
        }
    }

    /// Makes one device call, a fence, that settles the append which was begun and goes no further, as `Region::settle` does, and answers whether its record is in the region from then
    /// on. Either way none is begun then. It takes no memory.
    ///
    /// Where the device fails, as for `step`, the log has failed, and the record stays begun; a log that has failed before makes no call.
    pub fn settle(&mut self) -> Result<bool, LogError>
        requires { IsSome self.old.current.begun }

        // At each moment of the call what counted before it counts, with the begun record or without.
        ensures any_moment { (regions : ℕ → List ℕ) → AreLeft M.Media self.old self.new regions → CountOf self.old.generation (is_some self.old.other) (current_records M.Media self.old) self.old.current.begun regions }

        // The record is in the region exactly where a read gives its gate open.
        ensures exact { IfOk result (λ whole. IsTrue whole ↔ (get_or (M.seen self.new.current.media Fast) self.old.current.end 0 ≡ OPEN)) }
        ensures appended { IfOk result (λ whole. whole ≡ true → IfSome self.old.current.begun (λ r. turn_of M.Media self.new ≡ record_appended (turn_of M.Media self.old) r)) }
        ensures gone { IfOk result (λ whole. whole ≡ false → turn_of M.Media self.new ≡ record_given_up (turn_of M.Media self.old)) }
        ensures unanswered { OnErr result (turn_of M.Media self.new ≡ turn_of M.Media self.old) }

        ensures stage { OnOk result (self.new.current.stage ≡ stages.Resting) }
        ensures stage_failed { self.old.failed ≡ false → OnErr result (self.new.current.stage ≡ stages.Failed) }
        ensures moved { self.old.failed ≡ false → IsMovedOnce M.Media self.old.current self.new.current result }
        ensures rest { self.new ≡ record self.old { current = self.new.current; failed = self.new.failed } }
        ensures sound { OnOk result ((self.old.failed ≡ false) × (self.new.failed ≡ false)) }
        ensures failed { OnErr result (self.new.failed ≡ true) }
        ensures only { IfErr result (λ e. e ≡ DeviceFault) }
        ensures stays_failed { self.old.failed ≡ true → (result ≡ Err DeviceFault) × (self.new ≡ self.old) }
    {
        // For the proof: what a stop leaves before the device call, and behind it.
        self.current.left_now();
        if self.failed {
            return Err(LogError::DeviceFault);
        }
        let settled = self.current.settle();
        self.current.left_now();
        match settled {
            Ok(whole) => Ok(whole),
            Err(_) => {
                self.failed = true;
                Err(LogError::DeviceFault)
            }
        }
    }

    /// Makes the device calls that are left of the append that was begun, one after the other, each as `step` does. It takes no memory.
    ///
    /// Where the device fails, as for `step`, no further call is made; a log that has failed before makes none. The record stays begun then.
    pub fn finish(&mut self) -> Result<(), LogError>
        requires { IsSome self.old.current.begun }

        // At each moment of the calls what counted before them counts, with the begun record or without.
        ensures any_moment { (regions : ℕ → List ℕ) → AreLeft M.Media self.old self.new regions → CountOf self.old.generation (is_some self.old.other) (current_records M.Media self.old) self.old.current.begun regions }

        ensures appended { OnOk result (IfSome self.old.current.begun (λ r. turn_of M.Media self.new ≡ record_appended (turn_of M.Media self.old) r)) }
        ensures unanswered { OnErr result (turn_of M.Media self.new ≡ turn_of M.Media self.old) }
        ensures stage { OnOk result (self.new.current.stage ≡ stages.Resting) }
        ensures stage_failed { self.old.failed ≡ false → OnErr result (self.new.current.stage ≡ stages.Failed) }
        ensures moved { self.old.failed ≡ false → IsMoved M.Media (calls_left self.old.current.stage) self.old.current self.new.current result }
        ensures rest { self.new ≡ record self.old { current = self.new.current; failed = self.new.failed } }
        ensures sound { OnOk result ((self.old.failed ≡ false) × (self.new.failed ≡ false)) }
        ensures failed { OnErr result (self.new.failed ≡ true) }
        ensures only { IfErr result (λ e. e ≡ DeviceFault) }
        ensures stays_failed { self.old.failed ≡ true → (result ≡ Err DeviceFault) × (self.new ≡ self.old) }
    {
        // For the proof: what a stop leaves before the device calls, and behind them.
        self.current.left_now();
        if self.failed {
            return Err(LogError::DeviceFault);
        }
        let finished = self.current.finish();
        self.current.left_now();
        match finished {
            Ok(()) => Ok(()),
            Err(_) => {
                self.failed = true;
                Err(LogError::DeviceFault)
            }
        }
    }

    /// Seals the current region, hands it over with all its records, and goes on in the other one with the next generation. That one may still have to be wiped. It makes no
    /// device call and takes no memory.
    ///
    /// `None`, with nothing changed, exactly where there is no record, a record is begun, the other region is away, or a device has failed.
    pub fn seal(&mut self) -> Option<Region<M>>
        ensures exact { IsSome result ↔ CanBeSealed M.Media self.old }
        ensures unchanged { IfNone result (self.new ≡ self.old) }
        ensures region { IfSome result (λ r. r ≡ self.old.current) }
        ensures sealed { IfSome result (IsSealedRegion M.Media self.old.generation) }
        ensures goes_on { OnSome result (IfSome self.old.other (λ r. self.new ≡ sealed_view self.old r)) }

        // It is the machine's step.
        ensures may { OnSome result (CanSeal (turn_of M.Media self.old)) }
        ensures turn { OnSome result (turn_of M.Media self.new ≡ sealed_turn (turn_of M.Media self.old)) }
    {
        if !self.can_be_sealed() {
            return None;
        }
        match self.other.take() {
            Some(other) => {
                let region = mem::replace(&mut self.current, other);
                self.generation = next_generation(self.generation);
                self.ready = self.clean;
                self.clean = false;
                Some(region)
            }
            None => None,
        }
    }

    // Whether the current region may be handed over.
    fn can_be_sealed(&self) -> bool
        ensures exact { IsTrue result ↔ CanBeSealed M.Media self.now }
    {
        !self.failed
            && self.ready
            && self.other.is_some()
            && !is_pending(self.current.stage())
            && !is_empty(&self.current)
    }

    /// Takes a region back that was sealed under this generation, to be wiped, also into a log of which a device has failed. Whoever calls sees to it that this log sealed it and
    /// that all its records are digested: `wipe_step` asks for nothing more. It makes no device call and takes no memory.
    ///
    /// Refused, with nothing changed and the region given back, exactly where no region is away or its generation is not the one before the current one.
    pub fn take_back(&mut self, region: Region<M>, generation: u64) -> Result<(), Region<M>>
        requires sealed { IsSealedRegion M.Media generation region }
        ensures taken { OnOk result (self.new ≡ record self.old { other = Some region; clean = false }) }
        ensures exact { IsOk result ↔ ((self.old.other ≡ None) × (next_generation generation ≡ self.old.generation)) }
        ensures unchanged { OnErr result (self.new ≡ self.old) }
        ensures given_back { IfErr result (λ r. r ≡ region) }

        // It is the machine's step, where all those records are digested.
        ensures may { OnOk result ((turn_of M.Media self.old).other ≡ Away) }
        ensures turn { OnOk result (turn_of M.Media self.new ≡ taken_back (turn_of M.Media self.old)) }
    {
        if self.other.is_some() || next_generation(generation) != self.generation {
            return Err(region);
        }
        left_of_sealed(&region, generation);
        match self.other.replace(region) {
            None => {}
            Some(_) => unreachable!(),
        }
        Ok(())
    }

    /// Makes one device call of a wipe: of the current region, to its generation, where it is not wiped yet; else of the other one, to the next generation, where it
    /// is here and not wiped. It takes no memory. `None`, with nothing changed, exactly where no device has failed and nothing is to be wiped.
    ///
    /// Where the device fails, the log has failed. A log that has failed before makes no call and answers `DeviceFault` with nothing changed.
    pub fn wipe_step(&mut self) -> Result<Option<WipeProgress>, LogError>
        // At each moment of the call just those records count that counted before it.
        ensures any_moment { (regions : ℕ → List ℕ) → AreLeft M.Media self.old self.new regions → CountOf self.old.generation (is_some self.old.other) (current_records M.Media self.old) self.old.current.begun regions }

        ensures current { self.old.failed ≡ false → self.old.ready ≡ false → WipesCurrent M.Media self.old self.new result }
        ensures other { self.old.failed ≡ false → self.old.ready ≡ true → self.old.clean ≡ false → (r : RegionView M) → self.old.other ≡ Some r → WipesOther M.Media r self.old self.new result }
        ensures idle { (result ≡ Ok None) ↔ ((self.old.failed ≡ false) × (self.old.ready ≡ true) × ((self.old.clean ≡ true) ⊎ (self.old.other ≡ None))) }
        ensures nothing { self.old.failed ≡ false → self.old.ready ≡ true → ((self.old.clean ≡ true) ⊎ (self.old.other ≡ None)) → (result ≡ Ok None) × (self.new ≡ self.old) }

        // The last call is the machine's step, and before it nothing changes there. It is the other region's only where that is back.
        ensures may_other { IfOk result (λ p. p ≢ None → self.old.ready ≡ true → (turn_of M.Media self.old).other ≡ Back) }
        ensures current_wiped { IfOk result (λ p. p ≡ Some wipes.Wiped → self.old.ready ≡ false → turn_of M.Media self.new ≡ current_wiped (turn_of M.Media self.old)) }
        ensures other_wiped { IfOk result (λ p. p ≡ Some wipes.Wiped → self.old.ready ≡ true → turn_of M.Media self.new ≡ other_wiped (turn_of M.Media self.old)) }
        ensures going { IfOk result (λ p. p ≢ Some wipes.Wiped → turn_of M.Media self.new ≡ turn_of M.Media self.old) }
        ensures unwiped { OnErr result (turn_of M.Media self.new ≡ turn_of M.Media self.old) }

        ensures sound { OnOk result ((self.old.failed ≡ false) × (self.new.failed ≡ false)) }
        ensures failed { OnErr result (self.new.failed ≡ true) }
        ensures only { IfErr result (λ e. e ≡ DeviceFault) }
        ensures stays_failed { self.old.failed ≡ true → (result ≡ Err DeviceFault) × (self.new ≡ self.old) }
    {
        // For the proof: what a stop leaves before the device call.
        self.current.left_now();
        if self.failed {
            return Err(LogError::DeviceFault);
        }
        if !self.ready {
            return self.wipe_current();
        }
        self.wipe_other()
    }

    fn wipe_current(&mut self) -> Result<Option<WipeProgress>, LogError>
        requires failed { self.old.failed ≡ false }
        requires ready { self.old.ready ≡ false }
        ensures current { WipesCurrent M.Media self.old self.new result }
    {
        match wipe_call(&mut self.current, self.generation) {
            Ok(progress) => {
                self.ready = progress == WipeProgress::Wiped;
                Ok(Some(progress))
            }
            Err(error) => {
                self.failed = true;
                Err(error)
            }
        }
    }

    fn wipe_other(&mut self) -> Result<Option<WipeProgress>, LogError>
        requires failed { self.old.failed ≡ false }
        ensures other { self.old.clean ≡ false → (r : RegionView M) → self.old.other ≡ Some r → WipesOther M.Media r self.old self.new result }
        ensures nothing { (self.old.clean ≡ true) ⊎ (self.old.other ≡ None) → (result ≡ Ok None) × (self.new ≡ self.old) }
    {
        if self.clean {
            return Ok(None);
        }
        let next = next_generation(self.generation);
        let Some(region) = &mut self.other else {
            return Ok(None);
        };
        match wipe_call(region, next) {
            Ok(progress) => {
                self.clean = progress == WipeProgress::Wiped;
                Ok(Some(progress))
            }
            Err(error) => {
                self.failed = true;
                Err(error)
            }
        }
    }

    /// The records of the current generation, in their order. It reads them from the medium; where the current region is not wiped to its generation there are
    /// none, and nothing is read.
    ///
    /// `DeviceFault` where the device fails, and then the log has failed, or where it had failed before, with nothing read; `Memory` for want of memory, with the
    /// log as it was but for a read. No record and no header is changed by any of it.
    pub fn records(&mut self) -> Result<Vec<Record>, LogError>
        ensures found { IfOk result (λ found. found.items ≡ current_records M.Media self.old) }
        ensures same { self.new ≡ record self.old { current = self.new.current; failed = self.new.failed } }
        ensures read { IsOnlyRead M.Media self.old.current self.new.current }
        ensures sound { OnOk result ((self.old.failed ≡ false) × (self.new.failed ≡ false)) }
        ensures failed { IsErrOf result DeviceFault → self.new.failed ≡ true }
        ensures memory { IsErrOf result Memory → (self.old.failed ≡ false) × (self.new.failed ≡ false) }
        ensures only { IfErr result (λ e. (e ≡ DeviceFault) ⊎ (e ≡ Memory)) }
        ensures fault { IsErrOf result DeviceFault → (self.old.failed ≡ true) ⊎ Rose (M.faults self.old.current.media) (M.faults self.new.current.media) }
        ensures quiet { IsErrOf result DeviceFault ⊎ (M.faults self.new.current.media ≡ M.faults self.old.current.media) }
        ensures stays_failed { self.old.failed ≡ true → (result ≡ Err DeviceFault) × (self.new ≡ self.old) }
    {
        if self.failed {
            return Err(LogError::DeviceFault);
        }
        if !self.ready {
            return Ok(Vec::new(self.alloc));
        }
        match self.current.records() {
            Ok(found) => Ok(found),
            Err(RegionError::Memory) => Err(LogError::Memory),
            Err(_) => {
                self.failed = true;
                Err(LogError::DeviceFault)
            }
        }
    }

    /// What a stop may leave now, between two calls: of what the two regions hold then, just the log's records count, with the begun one or without. And which
    /// regions are wiped as `open` asks.
    pub fn left_now(&self)
        // The next record's gate stands behind the records of the current region.
        ensures end { self.now.current.end ≡ end_behind (records_of M.Media self.now.current) }

        // A log of which no device has failed, with no record and none begun, has its current region wiped to the generation; a wiped other one is wiped to the next.
        ensures current_wiped { self.now.failed ≡ false → self.now.ready ≡ true → self.now.current.begun ≡ None → current_records M.Media self.now ≡ [] → IsWiped M.Media self.now.generation self.now.current }
        ensures other_wiped { self.now.clean ≡ true → IfSome self.now.other (IsWiped M.Media (next_generation self.now.generation)) }

        // Whatever a stop leaves of the other one, nothing in it counts under the next generation.
        ensures beside { IfSome self.now.other (CountsNothing M.Media (next_generation self.now.generation)) }

        ensures counts { (regions : ℕ → List ℕ) → AreLeft M.Media self.now self.now regions → CountOf self.now.generation (is_some self.now.other) (current_records M.Media self.now) self.now.current.begun regions }
        // Until the call that opens its gate, the begun record does not count.
        ensures unopened { IsUnopened self.now.current.stage → (regions : ℕ → List ℕ) → AreLeft M.Media self.now self.now regions → CountOf self.now.generation (is_some self.now.other) (current_records M.Media self.now) None regions }
    {
        self.current.left_now();
    }

    /// The current generation.
    pub fn generation(&self) -> u64
        ensures { result ≡ self.now.generation }
    {
        self.generation
    }

    /// Whether a record is begun and not appended.
    pub fn has_begun(&self) -> bool
        ensures { result ≡ is_some self.now.current.begun }
    {
        self.ready && is_pending(self.current.stage())
    }

    /// Whether a region is handed over and not back.
    pub fn is_away(&self) -> bool
        ensures { IsTrue result ↔ (self.now.other ≡ None) }
    {
        self.other.is_none()
    }

    /// Whether both regions are here, and each is wiped to its generation.
    pub fn are_wiped(&self) -> bool
        ensures { IsTrue result ↔ ((self.now.ready ≡ true) × (self.now.clean ≡ true) × (is_some self.now.other ≡ true)) }
    {
        self.ready && self.clean && self.other.is_some()
    }

    /// Whether a device has failed.
    pub fn has_failed(&self) -> bool
        ensures { result ≡ self.now.failed }
    {
        self.failed
    }

    /// The regions that are here, that of even generations and that of odd ones, as `open` takes them: the current one stands where its generation says, and the
    /// other one beside it, where it is not away.
    pub fn into_regions(self) -> (Option<Region<M>>, Option<Region<M>>)
        ensures by_parity { result ≡ in_turn self.generation (Some self.current, self.other) }
    {
        if self.generation % 2 == 0 {
            (Some(self.current), self.other)
        } else {
            (self.other, Some(self.current))
        }
    }
}

// Whether the region of a generation is wiped to it, and the other to the next one.
fn are_wiped<M: Media>(
    current: &mut Region<M>,
    other: &mut Region<M>,
    generation: u64,
) -> Result<bool, LogError>
    ensures exact { IfOk result (λ is. IsTrue is ↔ (IsWiped M.Media generation current.old × IsWiped M.Media (next_generation generation) other.old)) }
    ensures none { IfOk result (λ is. IsTrue is → (g : ℕ) → CountsNothing M.Media g other.new) }
    ensures read { IsOnlyRead M.Media current.old current.new }
    ensures other_read { IsOnlyRead M.Media other.old other.new }
    ensures only { IfErr result (λ e. e ≡ DeviceFault) }
    ensures fault { OnErr result (Rose (M.faults current.old.media) (M.faults current.new.media) ⊎ Rose (M.faults other.old.media) (M.faults other.new.media)) }
    ensures quiet { OnOk result ((M.faults current.new.media ≡ M.faults current.old.media) × (M.faults other.new.media ≡ M.faults other.old.media)) }
{
    if !is_wiped(current, generation)? {
        return Ok(false);
    }
    is_wiped(other, next_generation(generation))
}
