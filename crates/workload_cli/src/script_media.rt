//! The media of a script's world in memory: all of them stop within one call, and each may fail once for each arming.

ghost use Rattle.std.specs.Prelude.{◌≡◌, ◌<◌, ℕ, is_some, length, max, true, IfErr, IfOk};
ghost use Rattle.script.specs.declared.fills.TheConstants.{MEDIA};
ghost use Rattle.tier_device.specs.declared.fault.FaultMedia.{FaultMedia};
ghost use Rattle.tier_device.specs.declared.media.Tier.{Tier};
ghost use Rattle.tier_device.specs.declared.stop.StopMedia.{StopMedia};
ghost use Rattle.tier_device.specs.Fault.{fault_count};
ghost use Rattle.tier_device.specs.Memory.{IsAtRest, memory_held, memory_seen};
ghost use Rattle.tier_device.specs.Stop.{medium_of};
ghost use Rattle.workload_cli.specs.Rests.{IsLeftOf, beneath};
ghost use Rattle.workload_cli.specs.Shares.{SharesFailure, failure_share};

use crate::resting::Resting;
use script::MEDIA;
use std::alloc::{AllocError, Global};
use std::mem;
use tier_device::{FaultMedia, Fill, MemMedia, StopMedia, Trip};
use world_files::in_area_recovery::RecoveryError;

/// A medium of a script's world in memory.
pub type ScriptMedium = FaultMedia<StopMedia>;

// A count that media share, and for the proof the call that it was armed at last, of those from then on; 0 where it never was.
#[derive(Drop)]
struct ArmedTrip {
    trip: Trip,
    call: u64,
}

impl ArmedTrip {
    fn new(alloc: Global) -> Result<Self, AllocError>
        ensures { IfOk result (λ armed. armed.call ≡ 0) }
    {
        Ok(ArmedTrip {
            trip: Trip::new(alloc)?,
            call: 0,
        })
    }

    // Has the count run out at this call; the next one is call 1.
    fn arm(&mut self, call: u64)
        ensures { self.new.call ≡ max call 1 }
    {
        self.call = call.max(1);
        self.trip.arm(self.call);
    }
}

/// The counts by which the media of a world stop, all together, and fail, each by its name: the shared medium is 0, and the two regions of a client have its number.
#[derive(Drop)]
pub struct Trips {
    stop: ArmedTrip,
    failures: Vec<ArmedTrip>,
    ghost each: { length failures.items ≡ MEDIA },
}

impl Trips {
    ghost use Rattle.workload_cli.specs.Trips.{ArmsFailure, ArmsStop, failure_calls, stop_call};

    /// Counts of which none is armed.
    pub fn new(alloc: Global) -> Result<Self, AllocError>
        ensures { IfOk result (λ trips. stop_call trips ≡ 0) }
    {
        let mut failures = Vec::new(alloc);
        'names: for _ in 0..MEDIA {
            failures.push(ArmedTrip::new(alloc)?)?;
        }
        Ok(Trips {
            stop: ArmedTrip::new(alloc)?,
            failures,
        })
    }

    /// Has all media stop within this write or fence, of those from now on on any of them.
    pub fn arm_stop(&mut self, call: u64)
        ensures { ArmsStop call self.old self.new }
    {
        self.stop.arm(call);
    }

    /// Has the media of a name fail at this write or fence, of those from now on on them.
    pub fn arm_failure(&mut self, name: u32, call: u64)
        ensures { ArmsFailure name call self.old self.new }
    {
        let name = name as usize;
        if self.failures.len() <= name {
            return;
        }
        self.failures[name].arm(call);
    }

    /// Whether the media have stopped.
    pub fn have_stopped(&self) -> bool {
        self.stop.trip.has_run_out()
    }

    /// Has media that count by these from now on count a stop anew.
    pub fn renew_stop(&mut self, alloc: Global) -> Result<(), AllocError>
        ensures { failure_calls self.new ≡ failure_calls self.old }
    {
        if self.stop.trip.has_run_out() {
            self.stop = ArmedTrip::new(alloc)?;
        }
        Ok(())
    }

    /// What the medium of a name counts by.
    pub fn shares(&self, name: usize) -> Result<Shares, AllocError>
        ensures { IfOk result (λ shares. name < MEDIA → is_some (failure_share shares) ≡ true) }
    {
        let failure = match self.failures.get(name) {
            Some(failure) => Some(failure.trip.share()?),
            None => None,
        };
        Ok(Shares {
            stop: self.stop.trip.share()?,
            failure,
        })
    }
}

/// What a medium counts by.
#[derive(Drop)]
pub struct Shares {
    stop: Trip,
    failure: Option<Trip>,
}

/// What media are made to count by.
pub trait Counting {
    /// A medium counts by what is for a name.
    ghost counts: { Self → ℕ → FaultMedia StopMedia → Type 0 };

    /// A medium over one in memory that counts by what is for this name. Refused is want of memory.
    fn count(&self, inner: MemMedia, name: usize) -> Result<ScriptMedium, AllocError>
        ensures beneath { IfOk result (λ medium. beneath medium ≡ inner) }
        ensures counts { IfOk result (counts self.now name) };
}

impl Counting for Trips {
    ghost counts = { λ _ name medium. name < MEDIA → SharesFailure medium };

    fn count(&self, inner: MemMedia, name: usize) -> Result<ScriptMedium, AllocError> {
        Ok(count_calls(inner, self.shares(name)?))
    }
}

// A medium over one in memory that counts by these.
fn count_calls(inner: MemMedia, shares: Shares) -> ScriptMedium
    ensures beneath { beneath result ≡ inner }
    ensures failure { (fault_count result).trip ≡ failure_share shares }
{
    let mut medium = StopMedia::new(inner);
    medium.stop_with(shares.stop, Fill::New);
    let mut medium = FaultMedia::new(medium);
    if let Some(failure) = shares.failure {
        medium.fail_with(failure);
    }
    medium
}

impl Resting for FaultMedia<StopMedia> {
    ghost holds = { λ fill old new. (t : Tier) → memory_seen (beneath new) t ≡ memory_held fill (beneath old) t };

    ghost counts = { λ _ name medium. name < MEDIA → SharesFailure medium };

    fn rest_medium(
        &mut self,
        alloc: Global,
        fill: Fill,
        trips: &Trips,
        name: usize,
    ) -> Result<(), RecoveryError> {
        let shares = trips.shares(name)?;
        let stopped = mem::replace(self, no_medium(alloc)?).into_inner();
        match rest_stopped(stopped, fill) {
            Ok(inner) => {
                *self = count_calls(inner, shares);
                Ok(())
            }
            Err(stopped) => {
                *self = FaultMedia::new(stopped);
                Err(RecoveryError::Memory)
            }
        }
    }
}

// What a medium holds behind a stop now; where memory is wanting it is given back.
fn rest_stopped(medium: StopMedia, fill: Fill) -> Result<MemMedia, StopMedia>
    ensures rest { IfOk result IsAtRest }
    ensures held { IfOk result (λ m. (t : Tier) → memory_seen m t ≡ memory_held fill (medium_of medium) t) }
    ensures allowed { IfOk result (IsLeftOf (medium_of medium)) }
    ensures refused { IfErr result (λ back. medium_of back ≡ medium_of medium) }
{
    let mut medium = medium;
    medium.halt(fill);
    medium.set_fill(fill);
    medium.rest()
}

// A medium of no bytes.
fn no_medium(alloc: Global) -> Result<ScriptMedium, AllocError> {
    let inner = MemMedia::of_bytes(alloc, Vec::new(alloc), Vec::new(alloc), Vec::new(alloc));
    match inner {
        Ok(inner) => Ok(FaultMedia::new(StopMedia::new(inner))),
        Err(_) => Err(AllocError),
    }
}
