// A medium of which one chosen call fails.
ghost use Rattle.std.specs.Prelude.{◌≡◌, ◌≢◌, ◌⊎◌, ◌≤◌, ◌<◌, ◌+◌, ◌-◌, ◌^◌, List, ℕ, length, take, drop, OnOk, OnErr, IsErrOf, Some, None};
ghost use Rattle.tier_device.specs.declared.media.MediaError.TheVariants.{OutOfRange, DeviceFault};
ghost use Rattle.tier_device.specs.declared.media.Tier.{Tier};
ghost use Rattle.tier_device.specs.declared.trip.Turn.TheVariants.{IsTheOne};
ghost use Rattle.tier_device.specs.Media.{overwritten, Puts, Keeps, Tears, TearsAll, Settles, HasCause, InRange, Rose};

use crate::count::Count;
use crate::trip::{Trip, Turn};
use crate::{Media, MediaError, Tier, lies_within};

/// A medium of which one chosen write or fence fails, once for each arming. Of the write that fails all bytes are written,
/// though it says otherwise; a fence that fails keeps nothing. Writes and fences in range are counted, by a number of its own
/// or by a shared trip; reads are not.
#[derive(Drop)]
pub struct FaultMedia<M> {
    inner: M,
    count: Count,
    faults: u64,
    ghost few: { faults < 2 ^ 64 },
}

impl<M: Media> FaultMedia<M> {
    ghost use Rattle.tier_device.specs.Count.{IsAlone};
    ghost use Rattle.tier_device.specs.Fault.{sound_of, fault_count, fails_after, failures};

    /// A medium that fails no call until `fail_at` or `fail_with` says which.
    pub fn new(inner: M) -> Self
        ensures inner { sound_of result ≡ inner }
        ensures sound { fails_after result ≡ None }
        ensures alone { IsAlone (fault_count result) }
        ensures faults { failures result ≡ 0 }
    {
        FaultMedia {
            inner,
            count: Count::without_limit(),
            faults: 0,
        }
    }

    /// Has a write or fence fail by a count of its own: the next one is call 1. It replaces what it counted by.
    pub fn fail_at(&mut self, call: u64)
        requires { 1 ≤ call }
        ensures inner { sound_of self.new ≡ sound_of self.old }
        ensures armed { fails_after self.new ≡ Some (call - 1) }
        ensures alone { IsAlone (fault_count self.new) }
        ensures faults { failures self.new ≡ failures self.old }
    {
        self.count = Count::at(call);
    }

    /// Has it count by a trip that it shares: the write or fence at which the trip runs out fails. It replaces what it counted
    /// by.
    pub fn fail_with(&mut self, trip: Trip)
        ensures inner { sound_of self.new ≡ sound_of self.old }
        ensures shared { (fault_count self.new).trip ≡ Some trip }
        ensures faults { failures self.new ≡ failures self.old }
    {
        self.count = Count::by_trip(trip);
    }

    /// The medium beneath, as it is now.
    pub fn into_inner(self) -> M
        ensures { result ≡ sound_of self }
    {
        self.inner
    }

    // Counts one failed call.
    fn fail(&mut self) -> MediaError
        ensures inner { self.new.inner ≡ self.old.inner }
        ensures count { self.new.count ≡ self.old.count }
        ensures is { result ≡ DeviceFault }
        ensures rose { Rose self.old.faults self.new.faults × (self.old.faults ≤ self.new.faults) × (self.new.faults ≤ self.old.faults + 1) }
    {
        self.faults = self.faults.saturating_add(1);
        MediaError::DeviceFault
    }
}

impl<M: Media> Media for FaultMedia<M> {
    ghost use Rattle.tier_device.specs.Count.{HasCounted};
    ghost use Rattle.tier_device.specs.Fault.{sound_of, fault_count, fault_turn, failures};

    ghost seen = { λ f. M.seen f.inner };

    ghost moment = { λ f. M.moment f.inner };

    ghost left = { λ f. M.left f.inner };

    ghost faults = { λ f. f.faults };

    ghost seen_now = { λ f. M.seen_now f.inner };

    ghost few = { λ f. f.few };

    ghost sized = { λ f. M.sized f.inner };

    fn size(&self, tier: Tier) -> usize {
        self.inner.size(tier)
    }

    fn read(&mut self, tier: Tier, at: usize, out: &mut [u8]) -> Result<(), MediaError>
        ensures range { InRange (length (M.seen (sound_of self.old) tier)) at (length out.old) result self.old self.new }
        ensures bytes { OnOk result (out.new ≡ take (length out.old) (drop at (M.seen (sound_of self.old) tier))) }
        ensures refused { OnErr result (out.new ≡ out.old) }
        ensures seen { (t : Tier) → M.seen (sound_of self.new) t ≡ M.seen (sound_of self.old) t }
        ensures clock { M.moment (sound_of self.new) ≡ M.moment (sound_of self.old) }
        ensures past { Keeps (M.moment (sound_of self.old)) (M.moment (sound_of self.new)) (M.left (sound_of self.old)) (M.left (sound_of self.new)) }
        ensures cause { HasCause (failures self.old) (failures self.new) result }

        // It is not counted, and fails only where the medium beneath does.
        ensures count { fault_count self.new ≡ fault_count self.old }
        ensures sound { IsErrOf result DeviceFault → Rose (M.faults (sound_of self.old)) (M.faults (sound_of self.new)) }
    {
        let size = self.inner.size(tier);
        if !lies_within(at, out.len(), size) {
            return Err(MediaError::OutOfRange);
        }
        match self.inner.read(tier, at, out) {
            Ok(()) => Ok(()),
            Err(_) => Err(self.fail()),
        }
    }

    fn write(&mut self, tier: Tier, at: usize, bytes: &[u8]) -> Result<(), MediaError>
        ensures range { InRange (length (M.seen (sound_of self.old) tier)) at (length bytes.now) result self.old self.new }
        ensures written { OnOk result (Puts tier (overwritten (M.seen (sound_of self.old) tier) at bytes.now) (M.seen (sound_of self.old)) (M.seen (sound_of self.new))) }
        ensures lengths { (t : Tier) → length (M.seen (sound_of self.new) t) ≡ length (M.seen (sound_of self.old) t) }
        ensures clock { OnOk result (M.moment (sound_of self.new) ≡ M.moment (sound_of self.old) + 1) }
        ensures past { Keeps (M.moment (sound_of self.old)) (M.moment (sound_of self.new)) (M.left (sound_of self.old)) (M.left (sound_of self.new)) }
        ensures left { Tears tier at (length bytes.now) (M.left (sound_of self.old) (M.moment (sound_of self.old))) (M.left (sound_of self.new) (M.moment (sound_of self.new))) }
        ensures all_left { OnOk result (TearsAll tier at (length bytes.now) (M.left (sound_of self.old) (M.moment (sound_of self.old))) (M.left (sound_of self.new) (M.moment (sound_of self.new)))) }
        ensures cause { HasCause (failures self.old) (failures self.new) result }

        // It is counted. The one fails, and a stop may leave all that tearing its range allows; another fails only where the
        // medium beneath does.
        ensures counted { at + length bytes.now ≤ length (M.seen (sound_of self.old) tier) → HasCounted (fault_count self.old) (fault_count self.new) }
        ensures fails { at + length bytes.now ≤ length (M.seen (sound_of self.old) tier) → fault_turn self.new ≡ IsTheOne → IsErrOf result DeviceFault }
        ensures torn { at + length bytes.now ≤ length (M.seen (sound_of self.old) tier) → fault_turn self.new ≡ IsTheOne → TearsAll tier at (length bytes.now) (M.left (sound_of self.old) (M.moment (sound_of self.old))) (M.left (sound_of self.new) (M.moment (sound_of self.new))) ⊎ Rose (M.faults (sound_of self.old)) (M.faults (sound_of self.new)) }
        ensures sound { fault_turn self.new ≢ IsTheOne → IsErrOf result DeviceFault → Rose (M.faults (sound_of self.old)) (M.faults (sound_of self.new)) }
    {
        let size = self.inner.size(tier);
        if !lies_within(at, bytes.len(), size) {
            return Err(MediaError::OutOfRange);
        }
        let turn = self.count.next(false);
        match self.inner.write(tier, at, bytes) {
            Ok(()) => {
                if turn == Turn::IsTheOne {
                    Err(self.fail())
                } else {
                    Ok(())
                }
            }
            Err(_) => Err(self.fail()),
        }
    }

    fn fence(&mut self, tier: Tier) -> Result<(), MediaError>
        ensures only { IsErrOf result OutOfRange → ⊥ }
        ensures seen { OnOk result ((t : Tier) → M.seen (sound_of self.new) t ≡ M.seen (sound_of self.old) t) }
        ensures lengths { (t : Tier) → length (M.seen (sound_of self.new) t) ≡ length (M.seen (sound_of self.old) t) }
        ensures clock { OnOk result (M.moment (sound_of self.new) ≡ M.moment (sound_of self.old) + 1) }
        ensures past { Keeps (M.moment (sound_of self.old)) (M.moment (sound_of self.new)) (M.left (sound_of self.old)) (M.left (sound_of self.new)) }
        ensures left { (t : Tier) (c : List ℕ) → M.left (sound_of self.new) (M.moment (sound_of self.new)) t c → M.left (sound_of self.old) (M.moment (sound_of self.old)) t c }
        ensures settled { OnOk result (Settles tier (M.seen (sound_of self.old)) (M.left (sound_of self.old) (M.moment (sound_of self.old))) (M.left (sound_of self.new) (M.moment (sound_of self.new)))) }
        ensures cause { HasCause (failures self.old) (failures self.new) result }

        // It is counted. The one fails and leaves what was; another fails only where the medium beneath does.
        ensures counted { HasCounted (fault_count self.old) (fault_count self.new) }
        ensures fails { fault_turn self.new ≡ IsTheOne → IsErrOf result DeviceFault }
        ensures unfenced { fault_turn self.new ≡ IsTheOne → sound_of self.new ≡ sound_of self.old }
        ensures sound { fault_turn self.new ≢ IsTheOne → IsErrOf result DeviceFault → Rose (M.faults (sound_of self.old)) (M.faults (sound_of self.new)) }
    {
        if self.count.next(false) == Turn::IsTheOne {
            return Err(self.fail());
        }
        match self.inner.fence(tier) {
            Ok(()) => Ok(()),
            Err(_) => Err(self.fail()),
        }
    }
}
