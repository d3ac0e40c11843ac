//! What a client asks of the kernel.
ghost use Rattle.std.specs.Prelude.{◌≡◌, ◌↔◌, ◌+◌, ◌<◌, ◌≤◌, ◌^◌, true, false, IsTrue, ⊤};
ghost use Rattle.libfs.specs.lease_manager.Words.{HasWord};
ghost use Rattle.libfs.specs.View.{is_pending};
ghost use Rattle.libfs.specs.declared.denial.Denied.TheVariants as denied;
ghost use Rattle.event_steps.specs.KernelRequests.{AreFetched, IsFetched, IsGivenBack, IsPinned, IsRefilled, IsUnpinned};
ghost use Rattle.event_steps.specs.Effects.{Carries};
ghost use Rattle.event_steps.specs.Sound.{owner_of};
ghost use Rattle.event_steps.specs.Refusals.{refusal_of};
ghost use Rattle.event_steps.specs.Outcomes.{noted_refusals, request_outcome};
ghost use Rattle.event_steps.specs.Turns.{CanBeUnpinned, IsHeld};

use crate::client_slot::ClientSlot;
use crate::outcome::{Outcome, Refusal};
use crate::refusals::Refusals;
use libfs::Denied;
use libfs::in_kernel_fs::Kernel;
use libfs::in_lease_manager::{LeaseMode, is_inode};
use tier_device::Media;

impl<M: Media> ClientSlot<M> {
    /// Fetches a copy of what stands at an inode, where the client has none; one that it has stays, and the kernel reads
    /// nothing. `Idle`, with nothing changed, if it holds no lease of the inode. `Stepped`, with nothing changed, while a
    /// record is begun: its call has all that it needs. Refused with the copies as they were: a device of the kernel
    /// failed before; or, where it has no copy, one fails now, or memory is wanting for an extent block or an entry.
    pub fn fetch(&mut self, kernel: &mut Kernel<M>, inode: u32) -> Outcome
        ensures carries { Carries (IsHeld self.old.client inode) (IsFetched M.Media kernel.old self.old inode result self.new kernel.new) ((self.new ≡ self.old) × (kernel.new ≡ kernel.old)) result }
        ensures owner { owner_of self.new.client ≡ owner_of self.old.client }
    {
        if !self.is_held(inode) {
            return Outcome::Idle;
        }
        if self.client.has_begun() {
            return Outcome::Stepped;
        }
        let answer = self.client.fetch(kernel, inode);
        note_answer(&mut self.refused, answer)
    }

    /// Fetches `count` blocks of a file from block `first` on. `Idle`, with nothing changed, if the client holds no lease of
    /// the inode. `Stepped`, with nothing changed, if `first + count` is 2^32 or more. Refused, with the blocks that came
    /// before kept: a device of the kernel failed before or fails now, or memory is wanting.
    pub fn blocks(&mut self, kernel: &mut Kernel<M>, inode: u32, first: u32, count: u32) -> Outcome
        ensures carries { Carries (IsHeld self.old.client inode) (AreFetched M.Media kernel.old self.old inode first count result self.new kernel.new) ((self.new ≡ self.old) × (kernel.new ≡ kernel.old)) result }
        ensures owner { owner_of self.new.client ≡ owner_of self.old.client }
    {
        if !self.is_held(inode) {
            return Outcome::Idle;
        }
        if !fits(first, count) {
            return Outcome::Stepped;
        }
        let answer = self.client.fetch_blocks(kernel, inode, first, count);
        note_answer(&mut self.refused, answer)
    }

    /// Has the kernel grant `units` units and `inodes` numbers for new nodes. Refused with nothing granted, in this order:
    /// want of memory, a kernel that has failed, `NoUnits`, `NoInode`. More units than 32 bits count are refused before
    /// memory is asked for: `NoUnits`, or of a failed kernel `KernelFailed`.
    pub fn refill(&mut self, kernel: &mut Kernel<M>, units: u32, inodes: u32) -> Outcome
        ensures carries { Carries ⊤ (IsRefilled M.Media kernel.old self.old units inodes result self.new kernel.new) ((self.new ≡ self.old) × (kernel.new ≡ kernel.old)) result }
        ensures owner { owner_of self.new.client ≡ owner_of self.old.client }
    {
        if !fits(self.client.spare(), units) {
            return note_answer(&mut self.refused, Err(none_so_many(kernel)));
        }
        let answer = self.client.refill(kernel, units, inodes);
        note_answer(&mut self.refused, answer)
    }

    /// Gives back the units and numbers that the client has not used. `Idle`, with nothing changed, while a call is
    /// pending and after a device of the client failed. Refused, with nothing given back, after a device of the kernel
    /// failed.
    pub fn give_back(&mut self, kernel: &mut Kernel<M>) -> Outcome
        ensures carries { Carries ((is_pending self.old.client ≡ false) × (self.old.client.log.failed ≡ false)) (IsGivenBack M.Media kernel.old self.old result self.new kernel.new) ((self.new ≡ self.old) × (kernel.new ≡ kernel.old)) result }
        ensures owner { owner_of self.new.client ≡ owner_of self.old.client }
    {
        if self.client.is_pending() || self.client.has_failed() {
            return Outcome::Idle;
        }
        // For the proof: unless a device has failed, a record is begun only while its call is pending.
        self.client.own_records_are_held();
        let answer = self.client.give_back(kernel);
        note_answer(&mut self.refused, answer)
    }

    /// Pins an inode. `Idle`, with nothing changed, for a number that is no inode's. Refused, with the pins as they
    /// were: a kernel that has failed, want of memory.
    pub fn pin(&mut self, kernel: &mut Kernel<M>, inode: u32) -> Outcome
        ensures carries { Carries (HasWord inode) (IsPinned M.Media kernel.old self.old inode result self.new kernel.new) ((self.new ≡ self.old) × (kernel.new ≡ kernel.old)) result }
        ensures owner { owner_of self.new.client ≡ owner_of self.old.client }
    {
        if !is_inode(inode) {
            return Outcome::Idle;
        }
        let answer = self.client.pin(kernel, inode);
        note_answer(&mut self.refused, answer)
    }

    /// Drops the client's pin of a file. `Idle`, with nothing changed, while a call is pending, if the client has no such
    /// pin, and if it has the file open. Refused, with the pin kept, after a device of the kernel failed.
    pub fn unpin(&mut self, kernel: &mut Kernel<M>, inode: u32) -> Outcome
        ensures carries { Carries (CanBeUnpinned self.old.client inode) (IsUnpinned M.Media kernel.old self.old inode result self.new kernel.new) ((self.new ≡ self.old) × (kernel.new ≡ kernel.old)) result }
        ensures owner { owner_of self.new.client ≡ owner_of self.old.client }
    {
        if !self.can_be_unpinned(inode) {
            return Outcome::Idle;
        }
        let answer = self.client.unpin(kernel, inode);
        note_answer(&mut self.refused, answer)
    }

    // Whether the client holds an inode, for reading or writing.
    fn is_held(&self, inode: u32) -> bool
        ensures { IsTrue result ↔ IsHeld self.now.client inode }
    {
        is_inode(inode) && self.client.holds(inode) != LeaseMode::Free
    }

    fn can_be_unpinned(&self, inode: u32) -> bool
        ensures { IsTrue result ↔ CanBeUnpinned self.now.client inode }
    {
        !self.client.is_pending() && self.client.is_pinned(inode) && !self.client.has_open(inode)
    }
}

// Whether a sum has 32 bits.
fn fits(one: u32, other: u32) -> bool
    ensures fits { result ≡ true → one + other < 2 ^ 32 }
    ensures past { result ≡ false → 2 ^ 32 ≤ one + other }
{
    other <= u32::MAX - one
}

// Why units are refused that pass all numbers: no kernel has so many.
fn none_so_many<M: Media>(kernel: &Kernel<M>) -> Denied
    ensures failed { kernel.now.area.failed ≡ true → result ≡ denied.KernelFailed }
    ensures going { kernel.now.area.failed ≡ false → result ≡ denied.NoUnits }
{
    if kernel.has_failed() {
        Denied::KernelFailed
    } else {
        Denied::NoUnits
    }
}

// What the kernel answered: a refusal is noted, until the next reply.
fn note_answer(refused: &mut Refusals, answer: Result<(), Denied>) -> Outcome
    ensures outcome { result ≡ request_outcome answer }
    ensures noted { refused.new ≡ noted_refusals answer refused.old }
{
    match answer {
        Ok(()) => Outcome::Stepped,
        Err(why) => {
            *refused = refused.with(why);
            Outcome::Refused {
                refusal: refusal_of(why),
            }
        }
    }
}

fn refusal_of(why: Denied) -> Refusal
    ensures { result ≡ refusal_of why }
{
    match why {
        Denied::NoUnits => Refusal::NoUnits,
        Denied::NoInode => Refusal::NoInode,
        Denied::Device => Refusal::DeviceFault,
        Denied::KernelFailed => Refusal::KernelFailed,
        Denied::Memory => Refusal::Memory,
        Denied::Turns => Refusal::Busy,
    }
}
