// A medium that stops at a chosen moment, and then holds one of the contents that the stop may leave.
ghost use Rattle.std.specs.Prelude.{◌≡◌, ◌≢◌, ◌⊎◌, ◌≤◌, ◌<◌, ◌+◌, ◌-◌, ◌^◌, List, ℕ, length, take, drop, IfOk, IfErr, IfSome, OnOk, OnErr, IsErrOf, is_some, Some, None};
ghost use Rattle.tier_device.specs.declared.media.MediaError.TheVariants.{OutOfRange, DeviceFault};
ghost use Rattle.tier_device.specs.declared.media.Tier.{Tier};
ghost use Rattle.tier_device.specs.declared.trip.Turn.TheVariants.{Passes, IsTheOne, Over};
ghost use Rattle.tier_device.specs.Media.{overwritten, Puts, Keeps, Tears, TearsAll, Settles, HasCause, InRange, Rose};

use crate::count::Count;
use crate::trip::{Trip, Turn};
use crate::{Fill, Media, MediaError, MemMedia, Tier, lies_within};

/// A medium in memory that stops within a chosen write or fence, or between two. A stop within a write counts its range as
/// written; one within a fence leaves the tier unfenced. From then on each call in range is a device fault that changes
/// nothing. Writes and fences in range are counted, by a number of its own or by a shared trip; reads are not.
#[derive(Drop)]
pub struct StopMedia {
    inner: MemMedia,
    count: Count,
    fill: Fill,
    stopped: bool,
    faults: u64,
    ghost few: { faults < 2 ^ 64 },
}

impl StopMedia {
    ghost use Rattle.tier_device.specs.Memory.{memory_seen, memory_left, memory_moment, memory_held, IsRefused, IsAtRest};
    ghost use Rattle.tier_device.specs.Count.{IsAlone, HasCounted};
    ghost use Rattle.tier_device.specs.Stop.{medium_of, count_of, turn, calls_left, next_fill, stop_fill, fill_of, failures, Runs, HasStopped, IsWithinTier, IsStill, Stops, RunsOn, IsTorn};

    /// A medium that runs until it is stopped.
    pub fn new(inner: MemMedia) -> Self
        ensures inner { medium_of result ≡ inner }
        ensures armed { calls_left result ≡ None }
        ensures alone { IsAlone (count_of result) }
        ensures running { stop_fill result ≡ None }
        ensures faults { failures result ≡ 0 }
    {
        StopMedia {
            inner,
            count: Count::without_limit(),
            fill: Fill::New,
            stopped: false,
            faults: 0,
        }
    }

    /// Has it stop within a write or fence by a count of its own: the next one is call 1. It replaces what it counted by. A
    /// medium that has stopped stays so.
    pub fn stop_within(&mut self, call: u64, fill: Fill)
        requires { 1 ≤ call }
        ensures inner { medium_of self.new ≡ medium_of self.old }
        ensures armed { stop_fill self.old ≡ None → calls_left self.new ≡ Some (call - 1, fill) }
        ensures alone { stop_fill self.old ≡ None → IsAlone (count_of self.new) }
        ensures stopped { stop_fill self.new ≡ stop_fill self.old }
        ensures faults { failures self.new ≡ failures self.old }
    {
        if !self.stopped {
            self.count = Count::at(call);
            self.fill = fill;
        }
    }

    /// Has it count by a trip that it shares, and stop with this fill where the trip runs out, in a call of its own or of
    /// another medium. It replaces what it counted by. A medium that has stopped stays so.
    pub fn stop_with(&mut self, trip: Trip, fill: Fill)
        ensures inner { medium_of self.new ≡ medium_of self.old }
        ensures shared { stop_fill self.old ≡ None → (count_of self.new).trip ≡ Some trip }
        ensures fill { stop_fill self.old ≡ None → next_fill self.new ≡ fill }
        ensures stopped { stop_fill self.new ≡ stop_fill self.old }
        ensures faults { failures self.new ≡ failures self.old }
    {
        if !self.stopped {
            self.count = Count::by_trip(trip);
            self.fill = fill;
        }
    }

    /// Stops it now, between two calls. A medium that has stopped stays as it is.
    pub fn halt(&mut self, fill: Fill)
        ensures inner { medium_of self.new ≡ medium_of self.old }
        ensures stopped { stop_fill self.old ≡ None → stop_fill self.new ≡ Some fill }
        ensures stays { IfSome (stop_fill self.old) (λ first. stop_fill self.new ≡ Some first) }
        ensures faults { failures self.new ≡ failures self.old }
    {
        if !self.stopped {
            self.stopped = true;
            self.fill = fill;
        }
    }

    /// Has what was written and not fenced hold something else after the stop, be that past or to come.
    pub fn set_fill(&mut self, fill: Fill)
        ensures inner { medium_of self.new ≡ medium_of self.old }
        ensures count { count_of self.new ≡ count_of self.old }
        ensures fill { next_fill self.new ≡ fill }
        ensures runs { stop_fill self.old ≡ None → stop_fill self.new ≡ None }
        ensures stopped { IfSome (stop_fill self.old) (λ _. stop_fill self.new ≡ Some fill) }
        ensures faults { failures self.new ≡ failures self.old }
    {
        self.fill = fill;
    }

    /// Whether it has stopped.
    pub fn is_stopped(&self) -> bool
        ensures { result ≡ is_some (stop_fill self.now) }
    {
        self.stopped
    }

    /// The medium after the stop, at rest: each byte that was written and not fenced holds what the fill says, of a medium
    /// that has not stopped what was written. Where memory runs out the medium is handed back.
    pub fn rest(self) -> Result<MemMedia, Self>
        ensures held { IfOk result (λ m. (t : Tier) → memory_seen m t ≡ memory_held (fill_of (stop_fill self)) (medium_of self) t) }
        ensures allowed { IfOk result (λ m. (t : Tier) → memory_left (medium_of self) (memory_moment (medium_of self)) t (memory_seen m t)) }
        ensures at_rest { IfOk result (λ m. IsAtRest m) }
        ensures clock { IfOk result (λ m. memory_moment m ≡ 0) }
        ensures refused { IfErr result (λ back. back ≡ self) }
    {
        let fill = if self.stopped { self.fill } else { Fill::New };
        match self.inner.after_stop(fill) {
            Ok(media) => Ok(media),
            Err(_) => Err(self),
        }
    }

    // Counts one failed call.
    fn fail(&mut self) -> MediaError
        ensures still { IsStill self.old self.new }
        ensures is { result ≡ DeviceFault }
        ensures rose { Rose self.old.faults self.new.faults × (self.old.faults ≤ self.new.faults) × (self.new.faults ≤ self.old.faults + 1) }
    {
        self.faults = self.faults.saturating_add(1);
        MediaError::DeviceFault
    }

    // Counts a write or fence, and stops where it is the one.
    fn turn(&mut self) -> Turn
        ensures inner { self.new.inner ≡ self.old.inner }
        ensures fill { self.new.fill ≡ self.old.fill }
        ensures faults { self.new.faults ≡ self.old.faults }
        ensures still { HasStopped self.old → (result ≡ Over) × IsStill self.old self.new }
        ensures turn { Runs self.old → result ≡ self.new.count.turn }
        ensures counted { Runs self.old → HasCounted self.old.count self.new.count }
        ensures runs { result ≡ Passes → Runs self.new }
        ensures stops { result ≢ Passes → HasStopped self.new }
    {
        if self.stopped {
            return Turn::Over;
        }
        let turn = self.count.next(true);
        self.stopped = turn != Turn::Passes;
        turn
    }

    // The write that it stops in: its range counts as written.
    fn tear(&mut self, tier: Tier, at: usize, bytes: &[u8])
        requires { IsWithinTier self.old tier at (length bytes.now) }
        ensures torn { IsTorn tier at bytes.now self.old.inner self.new.inner ⊎ IsRefused self.old.inner self.new.inner }
        ensures past { Keeps (memory_moment self.old.inner) (memory_moment self.new.inner) (memory_left self.old.inner) (memory_left self.new.inner) }
        ensures left { Tears tier at (length bytes.now) (memory_left self.old.inner (memory_moment self.old.inner)) (memory_left self.new.inner (memory_moment self.new.inner)) }
        ensures lengths { (t : Tier) → length (memory_seen self.new.inner t) ≡ length (memory_seen self.old.inner t) }
        ensures count { self.new.count ≡ self.old.count }
        ensures fill { self.new.fill ≡ self.old.fill }
        ensures stopped { self.new.stopped ≡ self.old.stopped }
        ensures faults { self.new.faults ≡ self.old.faults }
    {
        match self.inner.write(tier, at, bytes) {
            Ok(()) => {}
            Err(_) => {}
        }
    }
}

impl Media for StopMedia {
    ghost use Rattle.tier_device.specs.Memory.{memory_seen, memory_left, memory_moment, IsRefused};
    ghost use Rattle.tier_device.specs.MemoryLaws.{memory_seen_now, memory_sized};
    ghost use Rattle.tier_device.specs.Count.{HasCounted};
    ghost use Rattle.tier_device.specs.Stop.{medium_of, count_of, turn, failures, Runs, HasStopped, IsWithinTier, IsStill, Stops, RunsOn, IsTorn};

    ghost seen = { λ s. memory_seen s.inner };

    ghost moment = { λ s. memory_moment s.inner };

    ghost left = { λ s. memory_left s.inner };

    ghost faults = { λ s. s.faults };

    ghost seen_now = { λ s. memory_seen_now s.inner };

    ghost few = { λ s. s.few };

    ghost sized = { λ s. memory_sized s.inner };

    fn size(&self, tier: Tier) -> usize {
        self.inner.size(tier)
    }

    fn read(&mut self, tier: Tier, at: usize, out: &mut [u8]) -> Result<(), MediaError>
        ensures range { InRange (length (memory_seen (medium_of self.old) tier)) at (length out.old) result self.old self.new }
        ensures bytes { OnOk result (out.new ≡ take (length out.old) (drop at (memory_seen (medium_of self.old) tier))) }
        ensures refused { OnErr result (out.new ≡ out.old) }
        ensures seen { (t : Tier) → memory_seen (medium_of self.new) t ≡ memory_seen (medium_of self.old) t }
        ensures clock { memory_moment (medium_of self.new) ≡ memory_moment (medium_of self.old) }
        ensures past { Keeps (memory_moment (medium_of self.old)) (memory_moment (medium_of self.new)) (memory_left (medium_of self.old)) (memory_left (medium_of self.new)) }
        ensures cause { HasCause (failures self.old) (failures self.new) result }

        // It is not counted. It fails where the medium has stopped, and nowhere else.
        ensures still { IsStill self.old self.new }
        ensures after_stop { HasStopped self.old → IsWithinTier self.old tier at (length out.old) → IsErrOf result DeviceFault }
        ensures sound { Runs self.old → IsErrOf result DeviceFault → ⊥ }
    {
        let size = self.inner.size(tier);
        if !lies_within(at, out.len(), size) {
            return Err(MediaError::OutOfRange);
        }
        if self.is_stopped() {
            return Err(self.fail());
        }
        self.inner.read(tier, at, out)
    }

    fn write(&mut self, tier: Tier, at: usize, bytes: &[u8]) -> Result<(), MediaError>
        ensures range { InRange (length (memory_seen (medium_of self.old) tier)) at (length bytes.now) result self.old self.new }
        ensures written { OnOk result (Puts tier (overwritten (memory_seen (medium_of self.old) tier) at bytes.now) (memory_seen (medium_of self.old)) (memory_seen (medium_of self.new))) }
        ensures lengths { (t : Tier) → length (memory_seen (medium_of self.new) t) ≡ length (memory_seen (medium_of self.old) t) }
        ensures clock { OnOk result (memory_moment (medium_of self.new) ≡ memory_moment (medium_of self.old) + 1) }
        ensures past { Keeps (memory_moment (medium_of self.old)) (memory_moment (medium_of self.new)) (memory_left (medium_of self.old)) (memory_left (medium_of self.new)) }
        ensures left { Tears tier at (length bytes.now) (memory_left (medium_of self.old) (memory_moment (medium_of self.old))) (memory_left (medium_of self.new) (memory_moment (medium_of self.new))) }
        ensures all_left { OnOk result (TearsAll tier at (length bytes.now) (memory_left (medium_of self.old) (memory_moment (medium_of self.old))) (memory_left (medium_of self.new) (memory_moment (medium_of self.new)))) }
        ensures cause { HasCause (failures self.old) (failures self.new) result }

        // After the stop it fails and changes nothing.
        ensures after_stop { HasStopped self.old → IsWithinTier self.old tier at (length bytes.now) → IsErrOf result DeviceFault × IsStill self.old self.new }

        // It is counted, and what the count says of it holds: it passes, it is the one, or the stop was elsewhere.
        ensures counted { Runs self.old → IsWithinTier self.old tier at (length bytes.now) → HasCounted (count_of self.old) (count_of self.new) }
        ensures stops { Runs self.old → IsWithinTier self.old tier at (length bytes.now) → turn self.new ≡ IsTheOne → IsErrOf result DeviceFault × Stops self.old self.new }
        ensures torn { Runs self.old → IsWithinTier self.old tier at (length bytes.now) → turn self.new ≡ IsTheOne → IsTorn tier at bytes.now (medium_of self.old) (medium_of self.new) ⊎ IsRefused (medium_of self.old) (medium_of self.new) }
        ensures over { Runs self.old → IsWithinTier self.old tier at (length bytes.now) → turn self.new ≡ Over → IsErrOf result DeviceFault × Stops self.old self.new × (medium_of self.new ≡ medium_of self.old) }
        ensures passes { Runs self.old → IsWithinTier self.old tier at (length bytes.now) → turn self.new ≡ Passes → RunsOn self.old self.new }
        ensures sound { Runs self.old → turn self.new ≡ Passes → IsErrOf result DeviceFault → IsRefused (medium_of self.old) (medium_of self.new) }
    {
        let size = self.inner.size(tier);
        if !lies_within(at, bytes.len(), size) {
            return Err(MediaError::OutOfRange);
        }
        match self.turn() {
            Turn::Over => Err(self.fail()),
            Turn::IsTheOne => {
                self.tear(tier, at, bytes);
                Err(self.fail())
            }
            Turn::Passes => match self.inner.write(tier, at, bytes) {
                Ok(()) => Ok(()),
                Err(_) => Err(self.fail()),
            },
        }
    }

    fn fence(&mut self, tier: Tier) -> Result<(), MediaError>
        ensures only { IsErrOf result OutOfRange → ⊥ }
        ensures seen { OnOk result ((t : Tier) → memory_seen (medium_of self.new) t ≡ memory_seen (medium_of self.old) t) }
        ensures lengths { (t : Tier) → length (memory_seen (medium_of self.new) t) ≡ length (memory_seen (medium_of self.old) t) }
        ensures clock { OnOk result (memory_moment (medium_of self.new) ≡ memory_moment (medium_of self.old) + 1) }
        ensures past { Keeps (memory_moment (medium_of self.old)) (memory_moment (medium_of self.new)) (memory_left (medium_of self.old)) (memory_left (medium_of self.new)) }
        ensures left { (t : Tier) (c : List ℕ) → memory_left (medium_of self.new) (memory_moment (medium_of self.new)) t c → memory_left (medium_of self.old) (memory_moment (medium_of self.old)) t c }
        ensures settled { OnOk result (Settles tier (memory_seen (medium_of self.old)) (memory_left (medium_of self.old) (memory_moment (medium_of self.old))) (memory_left (medium_of self.new) (memory_moment (medium_of self.new)))) }
        ensures cause { HasCause (failures self.old) (failures self.new) result }

        // As of a write; the fence that it stops in leaves the tier unfenced, and so the medium as it was.
        ensures after_stop { HasStopped self.old → IsErrOf result DeviceFault × IsStill self.old self.new }
        ensures counted { Runs self.old → HasCounted (count_of self.old) (count_of self.new) }
        ensures stops { Runs self.old → turn self.new ≢ Passes → IsErrOf result DeviceFault × Stops self.old self.new }
        ensures unfenced { Runs self.old → turn self.new ≢ Passes → medium_of self.new ≡ medium_of self.old }
        ensures passes { Runs self.old → turn self.new ≡ Passes → RunsOn self.old self.new }
        ensures sound { Runs self.old → turn self.new ≡ Passes → IsErrOf result DeviceFault → IsRefused (medium_of self.old) (medium_of self.new) }
    {
        match self.turn() {
            Turn::Passes => match self.inner.fence(tier) {
                Ok(()) => Ok(()),
                Err(_) => Err(self.fail()),
            },
            Turn::IsTheOne | Turn::Over => Err(self.fail()),
        }
    }
}
