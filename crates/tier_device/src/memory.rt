// A medium in memory, which keeps a record of its calls.
ghost use Rattle.std.specs.Prelude.{◌≡◌, ◌<◌, ◌+◌, ◌^◌, List, ℕ, length, take, drop, IfOk, IfErr, OnOk, OnErr, IsErrOf};
ghost use Rattle.tier_device.specs.declared.media.MediaError.TheVariants.{OutOfRange, DeviceFault};
ghost use Rattle.tier_device.specs.Media.{overwritten, Puts, Keeps, Tears, TearsAll, Settles, HasCause, InRange};
ghost use Rattle.tier_device.specs.declared.media.Tier.{Tier};
ghost use Rattle.tier_device.specs.declared.media.Tier.TheVariants.{Fast, Block, Slow};
ghost use Rattle.tier_device.specs.Rows.{row};
ghost use Rattle.tier_device.specs.Record.{replay_content};

use crate::fill::Fill;
use crate::record::CallLog;
use crate::stop_content::held_after;
use crate::tiers::Tiers;
use crate::{Media, MediaError, Tier, lies_within};
use std::alloc::{AllocError, AllocFailed, Global};

/// A medium in memory. It keeps what it held at first and a record of its calls, from which what a stop may leave at each
/// moment is stated: any bytes in each range that was written since the tier's last fence, and nothing less. Where the record
/// can't grow, the call changes nothing, counts as failed and is a device fault.
#[derive(Drop)]
pub struct MemMedia {
    inside: Box<Inside>,
}

// What a medium in memory holds. It stands in a box, so that a medium is one value for whoever owns one.
#[derive(Drop)]
struct Inside {
    alloc: Global,
    tiers: Tiers,
    first: Tiers,
    calls: CallLog,
    faults: u64,
    ghost replays: { (t : Tier) → row tiers t ≡ replay_content t (row first t) calls },
    ghost few: { faults < 2 ^ 64 },
}

impl Inside {
    // Of a medium of three empty tiers.
    fn empty(alloc: Global) -> Self {
        Inside {
            alloc,
            tiers: Tiers::empty(alloc),
            first: Tiers::empty(alloc),
            calls: CallLog::new(alloc),
            faults: 0,
        }
    }

    // A copy of these bytes, and a place for a medium.
    fn room_for(
        alloc: Global,
        fast: &[u8],
        block: &[u8],
        slow: &[u8],
    ) -> Result<(Tiers, Box<Self>), AllocError>
        ensures fast { IfOk result (λ room. row room.0 Fast ≡ fast.now) }
        ensures block { IfOk result (λ room. row room.0 Block ≡ block.now) }
        ensures slow { IfOk result (λ room. row room.0 Slow ≡ slow.now) }
    {
        let first = Tiers::copy_of(alloc, fast, block, slow)?;
        let inside = Box::new(alloc, Inside::empty(alloc))?;
        Ok((first, inside))
    }
}

impl MemMedia {
    ghost use Rattle.tier_device.specs.Memory.{memory_seen, memory_left, memory_moment, memory_held, memory_failures, IsAtRest};

    /// A medium at rest that holds these bytes, at moment 0 with no failed call. Where memory runs out they are handed back.
    pub fn of_bytes(
        alloc: Global,
        fast: Vec<u8>,
        block: Vec<u8>,
        slow: Vec<u8>,
    ) -> Result<Self, AllocFailed<(Vec<u8>, Vec<u8>, Vec<u8>)>>
        ensures fast { IfOk result (λ m. memory_seen m Fast ≡ fast.items) }
        ensures block { IfOk result (λ m. memory_seen m Block ≡ block.items) }
        ensures slow { IfOk result (λ m. memory_seen m Slow ≡ slow.items) }
        ensures at_rest { IfOk result (λ m. IsAtRest m) }
        ensures clock { IfOk result (λ m. memory_moment m ≡ 0) }
        ensures faults { IfOk result (λ m. memory_failures m ≡ 0) }
        ensures refused { IfErr result (λ back. back.value ≡ (fast, block, slow)) }
    {
        match Inside::room_for(alloc, &fast, &block, &slow) {
            Ok((first, mut inside)) => {
                *inside = Inside {
                    alloc,
                    tiers: Tiers::new(fast, block, slow),
                    first,
                    calls: CallLog::new(alloc),
                    faults: 0,
                };
                Ok(MemMedia { inside })
            }
            Err(_) => Err(AllocFailed {
                value: (fast, block, slow),
            }),
        }
    }

    /// The bytes of a tier.
    pub fn bytes(&self, tier: Tier) -> &[u8]
        ensures { result.now ≡ memory_seen self.now tier }
    {
        self.inside.tiers.bytes(tier)
    }

    /// The medium after a stop now, at rest: each byte that was written and not fenced holds what the fill says.
    pub fn after_stop(&self, fill: Fill) -> Result<Self, AllocError>
        ensures held { IfOk result (λ m. (t : Tier) → memory_seen m t ≡ memory_held fill self.now t) }
        ensures allowed { IfOk result (λ m. (t : Tier) → memory_left self.now (memory_moment self.now) t (memory_seen m t)) }
        ensures at_rest { IfOk result (λ m. IsAtRest m) }
        ensures clock { IfOk result (λ m. memory_moment m ≡ 0) }
        ensures faults { IfOk result (λ m. memory_failures m ≡ 0) }
    {
        let fast = self.tier_after_stop(Tier::Fast, fill)?;
        let block = self.tier_after_stop(Tier::Block, fill)?;
        let slow = self.tier_after_stop(Tier::Slow, fill)?;
        match MemMedia::of_bytes(self.inside.alloc, fast, block, slow) {
            Ok(media) => Ok(media),
            Err(_) => Err(AllocError),
        }
    }

    fn tier_after_stop(&self, tier: Tier, fill: Fill) -> Result<Vec<u8>, AllocError>
        ensures held { IfOk result (λ bytes. bytes.items ≡ memory_held fill self.now tier) }
        ensures allowed { IfOk result (λ bytes. memory_left self.now (memory_moment self.now) tier bytes.items) }
    {
        let inside = &*self.inside;
        let (entries, written) = inside.calls.parts()?;
        held_after(
            inside.alloc,
            inside.first.bytes(tier),
            entries,
            &written,
            tier,
            fill,
        )
    }
}

impl Media for MemMedia {
    ghost use Rattle.tier_device.specs.Memory.{memory_seen, memory_left, memory_moment, memory_failures, IsRefused};
    ghost use Rattle.tier_device.specs.MemoryLaws.{memory_seen_now, memory_sized};

    ghost seen = { memory_seen };

    ghost moment = { memory_moment };

    ghost left = { memory_left };

    ghost faults = { memory_failures };

    ghost seen_now = { memory_seen_now };

    ghost few = { λ m. m.inside.value.few };

    ghost sized = { memory_sized };

    fn size(&self, tier: Tier) -> usize {
        self.bytes(tier).len()
    }

    fn read(&mut self, tier: Tier, at: usize, out: &mut [u8]) -> Result<(), MediaError>
        ensures range { InRange (length (memory_seen self.old tier)) at (length out.old) result self.old self.new }
        ensures bytes { OnOk result (out.new ≡ take (length out.old) (drop at (memory_seen self.old tier))) }
        ensures refused { OnErr result (out.new ≡ out.old) }
        ensures seen { (t : Tier) → memory_seen self.new t ≡ memory_seen self.old t }
        ensures clock { memory_moment self.new ≡ memory_moment self.old }
        ensures past { Keeps (memory_moment self.old) (memory_moment self.new) (memory_left self.old) (memory_left self.new) }
        ensures cause { HasCause (memory_failures self.old) (memory_failures self.new) result }

        // It changes nothing, and never fails.
        ensures same { self.new ≡ self.old }
        ensures sound { IsErrOf result DeviceFault → ⊥ }
    {
        let bytes = self.bytes(tier);
        if !lies_within(at, out.len(), bytes.len()) {
            return Err(MediaError::OutOfRange);
        }
        out.copy_from_slice(&bytes[at..at + out.len()]);
        Ok(())
    }

    fn write(&mut self, tier: Tier, at: usize, bytes: &[u8]) -> Result<(), MediaError>
        ensures range { InRange (length (memory_seen self.old tier)) at (length bytes.now) result self.old self.new }
        ensures written { OnOk result (Puts tier (overwritten (memory_seen self.old tier) at bytes.now) (memory_seen self.old) (memory_seen self.new)) }
        ensures lengths { (t : Tier) → length (memory_seen self.new t) ≡ length (memory_seen self.old t) }
        ensures clock { OnOk result (memory_moment self.new ≡ memory_moment self.old + 1) }
        ensures past { Keeps (memory_moment self.old) (memory_moment self.new) (memory_left self.old) (memory_left self.new) }
        ensures left { Tears tier at (length bytes.now) (memory_left self.old (memory_moment self.old)) (memory_left self.new (memory_moment self.new)) }
        ensures all_left { OnOk result (TearsAll tier at (length bytes.now) (memory_left self.old (memory_moment self.old)) (memory_left self.new (memory_moment self.new))) }
        ensures cause { HasCause (memory_failures self.old) (memory_failures self.new) result }

        // Where the record has no room for the call, it has changed nothing and counts as failed.
        ensures refused { IsErrOf result DeviceFault → IsRefused self.old self.new }
    {
        let size = self.bytes(tier).len();
        if !lies_within(at, bytes.len(), size) {
            return Err(MediaError::OutOfRange);
        }
        let inside = &mut *self.inside;
        match inside.calls.push_write(tier, at, bytes) {
            Ok(()) => {
                inside.tiers.overwrite(tier, at, bytes);
                Ok(())
            }
            Err(_) => {
                inside.faults = inside.faults.saturating_add(1);
                Err(MediaError::DeviceFault)
            }
        }
    }

    fn fence(&mut self, tier: Tier) -> Result<(), MediaError>
        ensures only { IsErrOf result OutOfRange → ⊥ }
        ensures seen { OnOk result ((t : Tier) → memory_seen self.new t ≡ memory_seen self.old t) }
        ensures lengths { (t : Tier) → length (memory_seen self.new t) ≡ length (memory_seen self.old t) }
        ensures clock { OnOk result (memory_moment self.new ≡ memory_moment self.old + 1) }
        ensures past { Keeps (memory_moment self.old) (memory_moment self.new) (memory_left self.old) (memory_left self.new) }
        ensures left { (t : Tier) (c : List ℕ) → memory_left self.new (memory_moment self.new) t c → memory_left self.old (memory_moment self.old) t c }
        ensures settled { OnOk result (Settles tier (memory_seen self.old) (memory_left self.old (memory_moment self.old)) (memory_left self.new (memory_moment self.new))) }
        ensures cause { HasCause (memory_failures self.old) (memory_failures self.new) result }

        // As of a write.
        ensures refused { IsErrOf result DeviceFault → IsRefused self.old self.new }
    {
        let inside = &mut *self.inside;
        match inside.calls.push_fence(tier) {
            Ok(()) => Ok(()),
            Err(_) => {
                inside.faults = inside.faults.saturating_add(1);
                Err(MediaError::DeviceFault)
            }
        }
    }
}
