//! A world that a script stops and recovers.

ghost use Rattle.std.specs.Prelude.{◌≡◌, ◌⊎◌, true, None, Some, IfErr, IfNone, IfOk, IfSome, OnErr, OnOk};
ghost use Rattle.script.specs.LineValues.{system_line_seen};
ghost use Rattle.world_files.specs.area_recovery.Parts.{AreAtRest, part_medium};
ghost use Rattle.workload_cli.specs.Sessions.{IsFailureArmed, IsRunningAnswered, IsSessionAnswer, takes_line};
ghost use Rattle.world_files.specs.area_recovery.FaultOrMemory.{IsFaultOrMemory};
ghost use Rattle.workload_cli.specs.Stops.{AreMediaIn, AreRestIn, GoesOn, HasNoMore, HasStopped, IsArmed, IsGoingOn, IsRecoverAnswered, IsRefusedFor, StopsWith, all_by, fills_behind, media_of, running_world};
ghost use Rattle.tier_device.specs.declared.fill.Fill.TheVariants.{New};
ghost use Rattle.workload_cli.specs.declared.answer.Answer.TheVariants as answers;

use crate::answer::Answer;
use crate::media_rest::{Fills, rest_parts};
use crate::resting::Resting;
use crate::script_media::Trips;
use crate::session::Session;
use crate::shell::answer_line;
use crate::system_queries::Running;
use call_driver::Events;
use call_driver::in_interleavings::World;
use script::{MEDIA, SystemLine};
use std::alloc::Global;
use tier_device::Fill;
use world_files::in_area_recovery::RecoveryError;
use world_files::in_recovery::{Parts, recover, take_apart};

/// A world that a script stops, or what a stop left of it.
#[derive(Drop)]
pub struct ScriptWorld<M: Resting> {
    // the world, or its media once they were taken out of it
    world: Option<World<M>>,
    parts: Option<Parts<M>>,
    stopped: bool,
    // whether a script says where it stops
    stoppable: bool,
    trips: Trips,
    // what is held where bytes were written and not kept: behind the stop that is armed, and, medium by medium, behind the one that was
    armed: Fill,
    fills: Fills,
}

impl<M: Resting + Drop> ScriptWorld<M> {
    /// A world that runs, whose media count by these; whether a script says where it stops.
    pub fn new(world: World<M>, trips: Trips, stoppable: bool) -> Self
        ensures world { running_world result ≡ Some world }
        ensures stoppable { result.stoppable ≡ stoppable }
    {
        ScriptWorld {
            world: Some(world),
            parts: None,
            stopped: false,
            stoppable,
            trips,
            armed: Fill::New,
            fills: [Fill::New; MEDIA],
        }
    }

    /// The media at rest, with what the stop that was has left of them, and of a world that runs with what reads give. Refused where memory is wanting or a device fails.
    pub fn into_parts(self, alloc: Global) -> Result<Parts<M>, RecoveryError>
        ensures rest { IfOk result (λ parts. AreRestIn M.Media M.holds (fills_behind self) (media_of self) parts) }
        ensures only { IfErr result IsFaultOrMemory }
    {
        let mut session = self;
        session.halt([Fill::New; MEDIA]);
        session.take_rested(alloc)
    }

    fn arm(&mut self, call: u64, fill: Fill) -> Answer
        ensures armed { IsArmed self.old call fill self.new }
        ensures answer { result ≡ answers.Armed }
    {
        self.trips.arm_stop(call);
        self.armed = fill;
        Answer::Armed
    }

    fn arm_failure(&mut self, name: u32, call: u64) -> Answer
        ensures { IsFailureArmed self.old name call result self.new }
    {
        if self.stopped {
            return Answer::Stopped;
        }
        self.trips.arm_failure(name, call);
        Answer::Armed
    }

    // Stops it between two calls, if it runs.
    fn halt(&mut self, fills: Fills)
        ensures { StopsWith self.old fills self.new }
    {
        if !self.stopped {
            self.stopped = true;
            self.fills = fills;
        }
    }

    // What a line of a running world is answered.
    fn answer_running(&mut self, alloc: Global, line: SystemLine<'_>) -> Answer
        ensures { IsRunningAnswered ⟦<World<M> as Events>⟧ ⟦<World<M> as Running>⟧ self.old (running_world self.old) (system_line_seen line.entry) result self.new }
    {
        if self.stopped {
            return Answer::Stopped;
        }
        let Some(world) = &mut self.world else {
            return Answer::Stopped;
        };
        let answer = answer_line(alloc, world, line);
        if self.has_stopped() {
            self.stopped = true;
            self.fills = [self.armed; MEDIA];
            return Answer::Stopped;
        }
        answer
    }

    // Whether its media stopped within a call, where a script may say so.
    fn has_stopped(&self) -> bool
        ensures { result ≡ true → self.now.stoppable ≡ true }
    {
        self.stoppable && self.trips.have_stopped()
    }

    fn recover(&mut self, alloc: Global) -> Answer
        ensures answer { IsRecoverAnswered M.Media M.holds self.old (media_of self.old) result self.new }
        ensures armed { self.new.armed ≡ self.old.armed }
        ensures stoppable { self.new.stoppable ≡ self.old.stoppable }
    {
        self.halt([Fill::New; MEDIA]);
        match self.take_rested(alloc) {
            Ok(parts) => self.recover_rested(alloc, parts),
            Err(error) => Answer::Fault(error),
        }
    }

    // Takes the media out, at rest. It is not asked of a session that has none.
    fn take_rested(&mut self, alloc: Global) -> Result<Parts<M>, RecoveryError>
        ensures rest { IfOk result (λ rested. AreRestIn M.Media M.holds self.old.fills (media_of self.old) rested) }
        ensures taken { OnOk result (self.new.world ≡ None) }
        ensures only { IfErr result IsFaultOrMemory }
        ensures refused { OnErr result (HasNoMore M.Media (media_of self.old) self.new) }
        ensures stopped { self.new.stopped ≡ self.old.stopped }
        ensures fills { self.new.fills ≡ self.old.fills }
        ensures armed { self.new.armed ≡ self.old.armed }
        ensures stoppable { self.new.stoppable ≡ self.old.stoppable }
    {
        self.trips.renew_stop(alloc)?;
        let parts = match self.take_parts(alloc) {
            Some(parts) => parts,
            None => return Err(RecoveryError::Memory),
        };
        match rest_parts(alloc, parts, &self.fills, &self.trips) {
            Ok(parts) => Ok(parts),
            Err((error, parts)) => {
                self.parts = Some(parts);
                Err(error)
            }
        }
    }

    // Takes the media out; none where memory is wanting.
    fn take_parts(&mut self, alloc: Global) -> Option<Parts<M>>
        ensures media { IfSome result (λ parts. AreMediaIn (media_of self.old) parts) }
        ensures taken { IfSome result (λ _. self.new.world ≡ None) }
        ensures kept { IfNone result (media_of self.new ≡ media_of self.old) }
        ensures stopped { self.new.stopped ≡ self.old.stopped }
        ensures fills { self.new.fills ≡ self.old.fills }
        ensures armed { self.new.armed ≡ self.old.armed }
        ensures stoppable { self.new.stoppable ≡ self.old.stoppable }
    {
        let Some(world) = self.world.take() else {
            return self.parts.take();
        };
        match take_apart(alloc, world) {
            Ok(parts) => Some(parts),
            Err(world) => {
                self.world = Some(world);
                None
            }
        }
    }

    // Recovers media that rest, of which the session has none any more.
    fn recover_rested(&mut self, alloc: Global, parts: Parts<M>) -> Answer
        requires rest { AreAtRest M.Media (part_medium parts) }
        requires taken { self.old.world ≡ None }
        requires stopped { self.old.stopped ≡ true }
        ensures goes_on { GoesOn M.Media self.old parts result self.new }
        ensures armed { self.new.armed ≡ self.old.armed }
        ensures stoppable { self.new.stoppable ≡ self.old.stoppable }
    {
        match recover(alloc, parts) {
            Ok(world) => self.go_on(world),
            Err((error, parts)) => self.stay_stopped(error, parts),
        }
    }

    // Goes on with a world that was recovered, unless its media stopped again meanwhile.
    fn go_on(&mut self, world: World<M>) -> Answer
        requires stopped { self.old.stopped ≡ true }
        ensures world { self.new.world ≡ Some world }
        ensures answer { IsGoingOn self.old self.new result }
        ensures armed { self.new.armed ≡ self.old.armed }
        ensures stoppable { self.new.stoppable ≡ self.old.stoppable }
    {
        self.world = Some(world);
        if self.has_stopped() {
            self.fills = [self.armed; MEDIA];
            return Answer::Stopped;
        }
        self.stopped = false;
        Answer::Recovered
    }

    // Keeps the media of which nothing was recovered.
    fn stay_stopped(&mut self, error: RecoveryError, parts: Parts<M>) -> Answer
        requires stopped { self.old.stopped ≡ true }
        ensures parts { self.new.parts ≡ Some parts }
        ensures world { self.new.world ≡ self.old.world }
        ensures stopped { self.new.stopped ≡ self.old.stopped }
        ensures answer { ((result ≡ answers.Stopped) × HasStopped self.old self.new) ⊎ ((result ≡ answers.Fault error) × (self.new.fills ≡ all_by New)) }
        ensures armed { self.new.armed ≡ self.old.armed }
        ensures stoppable { self.new.stoppable ≡ self.old.stoppable }
    {
        self.parts = Some(parts);
        if self.has_stopped() {
            self.fills = [self.armed; MEDIA];
            return Answer::Stopped;
        }
        self.fills = [Fill::New; MEDIA];
        Answer::Fault(error)
    }
}

impl<M: Resting + Drop> Session for ScriptWorld<M> {
    ghost answers = { IsSessionAnswer ⟦<World<M> as Events>⟧ ⟦<World<M> as Running>⟧ M.Media M.holds };

    ghost takes = { λ s. takes_line s.stoppable };

    fn takes(&self, line: &SystemLine<'_>) -> bool {
        match line {
            SystemLine::Stop { .. } | SystemLine::Halt { .. } | SystemLine::Fail { .. } => {
                self.stoppable
            }
            _ => true,
        }
    }

    fn answer(&mut self, alloc: Global, line: SystemLine<'_>) -> Answer {
        match line {
            SystemLine::Silent => Answer::Silent,
            SystemLine::Stop { call, fill } => self.arm(call, fill),
            SystemLine::Fail { call, medium } => self.arm_failure(medium, call),
            SystemLine::Halt { fills } => {
                self.halt(fills);
                Answer::Stopped
            }
            SystemLine::Recover => self.recover(alloc),
            SystemLine::Call { .. } => self.answer_running(alloc, line),
            SystemLine::Step { .. } => self.answer_running(alloc, line),
            SystemLine::Digest { .. } => self.answer_running(alloc, line),
            SystemLine::Wipe { .. } => self.answer_running(alloc, line),
            SystemLine::Die { .. } => self.answer_running(alloc, line),
            SystemLine::Bury { .. } => self.answer_running(alloc, line),
            SystemLine::Migrate { .. } => self.answer_running(alloc, line),
            SystemLine::Where { .. } => self.answer_running(alloc, line),
            SystemLine::Book => self.answer_running(alloc, line),
        }
    }
}
