//! One event.
ghost use Rattle.std.specs.Prelude.{◌≡◌, ◌≢◌, ◌↔◌, true, false, Some, None, IsSome, IsTrue};
ghost use Rattle.event_steps.specs.Effects.{Carries, Makes, MakesAt, MakesOver, Plays};
ghost use Rattle.event_steps.specs.Sound.{owner_of};
ghost use Rattle.event_steps.specs.Turns.{CanPlay, HasTurn, HasWork, IsTurnOf, MayPlay, asks_kernel, is_end, whose};
ghost use Rattle.event_steps.specs.declared.outcome.Outcome.TheVariants as outcomes;

use crate::client_slot::ClientSlot;
use crate::event::Event;
use crate::migrations::{migrate, reclaim};
use crate::numbers::is_client;
use crate::outcome::Outcome;
use crate::system::System;
use libfs::Life;
use libfs::in_kernel_fs::Kernel;
use posix_calls::client_index;
use std::alloc::Global;
use tier_device::Media;

impl<M: Media + Drop> System<M> {
    /// Carries out one event.
    ///
    /// `Idle`, with nothing changed, exactly where it has nothing to do (`specs/Turns.antt`); else what it makes of kernel, client and region away is stated event by event (`specs/Effects.antt`). An event of a
    /// client leaves all other clients as they were. Devices are moved by these alone: a step or a wipe step makes one device call at most, on a region of its client; a digest, a reclaim and a migration move the
    /// shared media.
    pub fn play(&mut self, event: &Event) -> Outcome
        ensures idle { result ≡ outcomes.Idle → (CanPlay M.Media self.old event.now → ⊥) × (self.new ≡ self.old) }
        ensures turn { result ≢ outcomes.Idle → CanPlay M.Media self.old event.now }
        ensures plays { CanPlay M.Media self.old event.now → Plays M.Media self.old event.now result self.new }
    {
        match client_of(event) {
            Some(number) => self.play_of(number, event),
            None => play_over(&mut self.kernel, event),
        }
    }

    // An event of a client.
    fn play_of(&mut self, number: u32, event: &Event) -> Outcome
        requires whose { whose event.now ≡ Some number }
        ensures { Carries (IsTurnOf M.Media self.old event.now (Some number)) (MakesAt M.Media self.old number event.now result self.new) (self.new ≡ self.old) result }
    {
        if !is_client(number) {
            return Outcome::Idle;
        }
        let seat = &mut self.seats[client_index(number)];
        play_in(self.alloc, &mut self.kernel, seat, event)
    }
}

// An event of no client.
fn play_over<M: Media>(kernel: &mut Kernel<M>, event: &Event) -> Outcome
    requires whose { whose event.now ≡ None }
    ensures made { MakesOver M.Media kernel.old event.now result kernel.new }
    ensures done { result ≢ outcomes.Idle }
{
    match event {
        Event::Reclaim { inode } => reclaim(kernel, *inode),
        Event::Migrate {
            inode,
            first,
            count,
            to,
        } => migrate(kernel, *inode, *first, *count, *to),
        _ => unreachable!(),
    }
}

// An event of a client whose life has come so far, or nothing.
fn play_in<M: Media + Drop>(
    alloc: Global,
    kernel: &mut Kernel<M>,
    seat: &mut ClientSlot<M>,
    event: &Event,
) -> Outcome
    requires whose { IsSome (whose event.now) }
    ensures carries { Carries (HasTurn M.Media seat.old event.now) (Makes M.Media kernel.old seat.old event.now result seat.new kernel.new) ((seat.new ≡ seat.old) × (kernel.new ≡ kernel.old)) result }
    ensures owner { owner_of seat.new.client ≡ owner_of seat.old.client }
{
    if !may_play(seat.life, event) {
        return Outcome::Idle;
    }
    play_allowed(alloc, kernel, seat, event)
}

// Whether a client's life has come as far as an event wants.
fn may_play(life: Life, event: &Event) -> bool
    ensures { IsTrue result ↔ MayPlay life event.now }
{
    match event {
        Event::Seal { .. } | Event::Digest { .. } | Event::WipeStep { .. } => life != Life::Dead,
        Event::Settle { .. } => life == Life::Dead,
        Event::Bury { .. } => life.is_settled(),
        Event::Join { .. } => life.is_buried(),
        Event::Reclaim { .. } | Event::Migrate { .. } => false,
        _ => life == Life::Alive,
    }
}

// An event in which the client does not ask the kernel, or else one in which it does.
fn play_allowed<M: Media + Drop>(
    alloc: Global,
    kernel: &mut Kernel<M>,
    seat: &mut ClientSlot<M>,
    event: &Event,
) -> Outcome
    requires whose { IsSome (whose event.now) }
    requires may { MayPlay seat.old.life event.now }
    ensures carries { Carries (HasWork M.Media seat.old event.now) (Makes M.Media kernel.old seat.old event.now result seat.new kernel.new) ((seat.new ≡ seat.old) × (kernel.new ≡ kernel.old)) result }
    ensures owner { owner_of seat.new.client ≡ owner_of seat.old.client }
{
    match event {
        Event::Start { call, .. } => seat.start(call),
        Event::Step { .. } => seat.step(),
        Event::Lease { inode, mode, .. } => seat.lease(*inode, *mode),
        Event::Raise { inode, .. } => seat.raise(*inode),
        Event::Give { inode, .. } => seat.give(*inode),
        Event::AskBack { inode, of, .. } => seat.ask_back(*inode, *of),
        Event::Seal { .. } => seat.seal(),
        Event::WipeStep { .. } => seat.wipe_step(),
        Event::Deny { call, why, .. } => seat.deny(call, *why),
        Event::Die { .. } | Event::Settle { .. } | Event::Bury { .. } | Event::Join { .. } =>
            play_end(kernel, seat, event),
        _ => play_with(alloc, kernel, seat, event),
    }
}

// An event of a client's end.
fn play_end<M: Media>(kernel: &mut Kernel<M>, seat: &mut ClientSlot<M>, event: &Event) -> Outcome
    requires end { is_end event.now ≡ true }
    requires may { MayPlay seat.old.life event.now }
    ensures carries { Carries (HasWork M.Media seat.old event.now) (Makes M.Media kernel.old seat.old event.now result seat.new kernel.new) ((seat.new ≡ seat.old) × (kernel.new ≡ kernel.old)) result }
    ensures owner { owner_of seat.new.client ≡ owner_of seat.old.client }
{
    match event {
        Event::Die { .. } => seat.die(),
        Event::Settle { .. } => seat.settle(),
        Event::Bury { .. } => seat.bury(kernel),
        Event::Join { .. } => seat.join(),
        _ => unreachable!(),
    }
}

// An event in which a client asks the kernel, or the kernel digests what the client handed over.
fn play_with<M: Media + Drop>(
    alloc: Global,
    kernel: &mut Kernel<M>,
    seat: &mut ClientSlot<M>,
    event: &Event,
) -> Outcome
    requires asks { asks_kernel event.now ≡ true }
    requires goes_on { is_end event.now ≡ false }
    requires may { MayPlay seat.old.life event.now }
    ensures carries { Carries (HasWork M.Media seat.old event.now) (Makes M.Media kernel.old seat.old event.now result seat.new kernel.new) ((seat.new ≡ seat.old) × (kernel.new ≡ kernel.old)) result }
    ensures owner { owner_of seat.new.client ≡ owner_of seat.old.client }
{
    match event {
        Event::Fetch { inode, .. } => seat.fetch(kernel, *inode),
        Event::Blocks {
            inode,
            first,
            count,
            ..
        } => seat.blocks(kernel, *inode, *first, *count),
        Event::Refill { units, inodes, .. } => seat.refill(kernel, *units, *inodes),
        Event::GiveBack { .. } => seat.give_back(kernel),
        Event::Pin { inode, .. } => seat.pin(kernel, *inode),
        Event::Unpin { inode, .. } => seat.unpin(kernel, *inode),
        Event::Digest { .. } => seat.digest(alloc, kernel),
        _ => unreachable!(),
    }
}

// Whose event it is.
fn client_of(event: &Event) -> Option<u32>
    ensures { result ≡ whose event.now }
{
    match event {
        Event::Start { client, .. } => Some(*client),
        Event::Step { client } => Some(*client),
        Event::Lease { client, .. } => Some(*client),
        Event::Raise { client, .. } => Some(*client),
        Event::Give { client, .. } => Some(*client),
        Event::AskBack { client, .. } => Some(*client),
        Event::Fetch { client, .. } => Some(*client),
        Event::Blocks { client, .. } => Some(*client),
        Event::Refill { client, .. } => Some(*client),
        Event::GiveBack { client } => Some(*client),
        Event::Pin { client, .. } => Some(*client),
        Event::Unpin { client, .. } => Some(*client),
        Event::Seal { client } => Some(*client),
        Event::Digest { client } => Some(*client),
        Event::WipeStep { client } => Some(*client),
        Event::Deny { client, .. } => Some(*client),
        Event::Die { client } => Some(*client),
        Event::Settle { client } => Some(*client),
        Event::Bury { client } => Some(*client),
        Event::Join { client } => Some(*client),
        Event::Reclaim { .. } => None,
        Event::Migrate { .. } => None,
    }
}
