// A medium in memory that keeps nothing of a call.
ghost use Rattle.std.specs.Prelude.{◌≡◌, ◌≤◌, ◌+◌, List, ℕ, length, take, drop, IsOk, IsErrOf, OnOk, OnErr};
ghost use Rattle.tier_device.specs.declared.media.MediaError.TheVariants.{OutOfRange, DeviceFault};
ghost use Rattle.tier_device.specs.Media.{overwritten, Puts, Keeps, Tears, TearsAll, Settles, HasCause, InRange};
ghost use Rattle.tier_device.specs.DeviceCall.{Write, Fence};
ghost use Rattle.host_media.specs.History.{and_then};
ghost use Rattle.tier_device.specs.declared.media.Tier.{Tier};
ghost use Rattle.tier_device.specs.declared.media.Tier.TheVariants.{Fast, Block, Slow};
ghost use Rattle.tier_device.specs.Rows.{row};
ghost use Rattle.host_media.specs.TierHistory.{shown_now};

use crate::past::{Note, Past};
use tier_device::{Media, MediaError, Tier, Tiers, lies_within};

/// A medium in memory. It keeps the bytes of its tiers, and nothing of a call once that has returned: its past, of which the
/// clauses speak, stands in the proof alone. It never fails.
#[derive(Drop)]
pub struct RamMedia {
    tiers: Tiers,
    past: Past,
    ghost shows: { (t : Tier) → row tiers t ≡ shown_now past.history t },
}

impl RamMedia {
    ghost use Rattle.host_media.specs.Ram.{ram_seen, ram_moment, IsRamAtRest};

    /// A medium at rest that holds these bytes, at moment 0.
    pub fn of_bytes(fast: Vec<u8>, block: Vec<u8>, slow: Vec<u8>) -> Self
        ensures fast { ram_seen result Fast ≡ fast.items }
        ensures block { ram_seen result Block ≡ block.items }
        ensures slow { ram_seen result Slow ≡ slow.items }
        ensures at_rest { IsRamAtRest result }
        ensures clock { ram_moment result ≡ 0 }
    {
        let tiers = Tiers::new(fast, block, slow);
        let past = Past::of(&tiers);
        RamMedia { tiers, past }
    }

    /// The bytes of a tier.
    pub fn bytes(&self, tier: Tier) -> &[u8]
        ensures { result.now ≡ ram_seen self.now tier }
    {
        self.tiers.bytes(tier)
    }
}

impl Media for RamMedia {
    ghost use Rattle.host_media.specs.Ram.{ram_seen, ram_moment, ram_left, ram_seen_now, ram_sized, ram_history, none_is_few};

    ghost seen = { ram_seen };

    ghost moment = { ram_moment };

    ghost left = { ram_left };

    ghost faults = { λ _. 0 };

    ghost seen_now = { ram_seen_now };

    ghost few = { λ _. none_is_few };

    ghost sized = { ram_sized };

    fn size(&self, tier: Tier) -> usize {
        self.bytes(tier).len()
    }

    fn read(&mut self, tier: Tier, at: usize, out: &mut [u8]) -> Result<(), MediaError>
        ensures range { InRange (length (ram_seen self.old tier)) at (length out.old) result self.old self.new }
        ensures bytes { OnOk result (out.new ≡ take (length out.old) (drop at (ram_seen self.old tier))) }
        ensures refused { OnErr result (out.new ≡ out.old) }
        ensures seen { (t : Tier) → ram_seen self.new t ≡ ram_seen self.old t }
        ensures clock { ram_moment self.new ≡ ram_moment self.old }
        ensures past { Keeps (ram_moment self.old) (ram_moment self.new) (ram_left self.old) (ram_left self.new) }
        ensures cause { HasCause 0 0 result }
        ensures never { IsErrOf result DeviceFault → ⊥ }
        ensures same { self.new ≡ self.old }
    {
        let bytes = self.bytes(tier);
        if !lies_within(at, out.len(), bytes.len()) {
            return Err(MediaError::OutOfRange);
        }
        out.copy_from_slice(&bytes[at..at + out.len()]);
        Ok(())
    }

    fn write(&mut self, tier: Tier, at: usize, bytes: &[u8]) -> Result<(), MediaError>
        ensures range { InRange (length (ram_seen self.old tier)) at (length bytes.now) result self.old self.new }
        ensures written { OnOk result (Puts tier (overwritten (ram_seen self.old tier) at bytes.now) (ram_seen self.old) (ram_seen self.new)) }
        ensures lengths { (t : Tier) → length (ram_seen self.new t) ≡ length (ram_seen self.old t) }
        ensures clock { OnOk result (ram_moment self.new ≡ ram_moment self.old + 1) }
        ensures past { Keeps (ram_moment self.old) (ram_moment self.new) (ram_left self.old) (ram_left self.new) }
        ensures left { Tears tier at (length bytes.now) (ram_left self.old (ram_moment self.old)) (ram_left self.new (ram_moment self.new)) }
        ensures all_left { OnOk result (TearsAll tier at (length bytes.now) (ram_left self.old (ram_moment self.old)) (ram_left self.new (ram_moment self.new))) }
        ensures cause { HasCause 0 0 result }
        ensures never { IsErrOf result DeviceFault → ⊥ }
        ensures history { OnOk result (ram_history self.new ≡ and_then (ram_history self.old) (Write tier at bytes.now)) }
    {
        let size = self.bytes(tier).len();
        if !lies_within(at, bytes.len(), size) {
            return Err(MediaError::OutOfRange);
        }
        self.tiers.overwrite(tier, at, bytes);
        self.past = self.past.then(&Note::Write { tier, at, bytes });
        Ok(())
    }

    fn fence(&mut self, tier: Tier) -> Result<(), MediaError>
        ensures only { IsErrOf result OutOfRange → ⊥ }
        ensures seen { OnOk result ((t : Tier) → ram_seen self.new t ≡ ram_seen self.old t) }
        ensures lengths { (t : Tier) → length (ram_seen self.new t) ≡ length (ram_seen self.old t) }
        ensures clock { OnOk result (ram_moment self.new ≡ ram_moment self.old + 1) }
        ensures past { Keeps (ram_moment self.old) (ram_moment self.new) (ram_left self.old) (ram_left self.new) }
        ensures left { (t : Tier) (c : List ℕ) → ram_left self.new (ram_moment self.new) t c → ram_left self.old (ram_moment self.old) t c }
        ensures settled { OnOk result (Settles tier (ram_seen self.old) (ram_left self.old (ram_moment self.old)) (ram_left self.new (ram_moment self.new))) }
        ensures cause { HasCause 0 0 result }
        ensures never { IsOk result }
        ensures history { ram_history self.new ≡ and_then (ram_history self.old) (Fence tier) }
    {
        self.past = self.past.then(&Note::Fence { tier });
        Ok(())
    }
}
