// The device model: three rows of bytes, what a read gives of them, and what a stop at each moment may have left.
ghost use Rattle.std.specs.Prelude.{◌≡◌, ◌≢◌, ◌≤◌, ◌<◌, ◌^◌, ◌+◌, ◌++◌, List, ℕ, length, take, drop, IfOk, OnOk, OnErr, IsErrOf, IsTrue, ◌↔◌};
ghost use Rattle.tier_device.specs.declared.media.Tier.{Tier};
ghost use Rattle.tier_device.specs.declared.media.MediaError.TheVariants.{OutOfRange};
ghost use Rattle.tier_device.specs.Media.{overwritten, Puts, Keeps, Tears, TearsAll, Settles, HasCause, InRange, Rose};

use thiserror::Error;

/// A part of a medium. The fast tier holds the logs and all that names other blocks.
#[derive(Clone, Copy, Debug, PartialEq, Eq)]
pub enum Tier {
    Fast,
    Block,
    Slow,
}

/// Why a call of a medium was refused.
#[derive(Clone, Copy, Debug, PartialEq, Eq, Error)]
pub enum MediaError {
    #[error("the range leaves the tier")]
    OutOfRange,
    #[error("the device failed")]
    DeviceFault,
}

/// A medium of three tiers, each a row of bytes that keeps its length. One clock counts the writes and fences of all tiers.
///
/// Between two fences of a tier each range that is written may hold any bytes after a stop, and all other bytes stay. A
/// write or a fence that fails counts as one that was stopped in: of the write any part may be done, and the tier of the
/// fence stays unfenced.
pub trait Media {
    /// The bytes of a tier, as a read gives them.
    ghost seen: { Self → Tier → List ℕ };

    /// The clock: how many writes and fences there were.
    ghost moment: { Self → ℕ };

    /// What a stop at this moment of the clock, now or past, may have left of this tier.
    ghost left: { Self → ℕ → Tier → List ℕ → Type 0 };

    /// How many calls have failed, up to the greatest u64.
    ghost faults: { Self → ℕ };

    /// The length of a tier in bytes.
    fn size(&self, tier: Tier) -> usize
        ensures { result ≡ length (seen self.now tier) };

    /// Reads bytes of a tier. After a refusal the buffer is as it was.
    fn read(&mut self, tier: Tier, at: usize, out: &mut [u8]) -> Result<(), MediaError>
        ensures range { InRange (length (seen self.old tier)) at (length out.old) result self.old self.new }
        ensures bytes { OnOk result (out.new ≡ take (length out.old) (drop at (seen self.old tier))) }
        ensures refused { OnErr result (out.new ≡ out.old) }
        ensures seen { (t : Tier) → seen self.new t ≡ seen self.old t }
        ensures clock { moment self.new ≡ moment self.old }
        ensures past { Keeps (moment self.old) (moment self.new) (left self.old) (left self.new) }
        ensures cause { HasCause (faults self.old) (faults self.new) result };

    /// Writes bytes of a tier. Until a fence of the tier succeeds, a stop may leave any bytes in the range.
    fn write(&mut self, tier: Tier, at: usize, bytes: &[u8]) -> Result<(), MediaError>
        ensures range { InRange (length (seen self.old tier)) at (length bytes.now) result self.old self.new }
        ensures written { OnOk result (Puts tier (overwritten (seen self.old tier) at bytes.now) (seen self.old) (seen self.new)) }
        ensures lengths { (t : Tier) → length (seen self.new t) ≡ length (seen self.old t) }
        ensures clock { OnOk result (moment self.new ≡ moment self.old + 1) }
        ensures past { Keeps (moment self.old) (moment self.new) (left self.old) (left self.new) }
        ensures left { Tears tier at (length bytes.now) (left self.old (moment self.old)) (left self.new (moment self.new)) }
        ensures all_left { OnOk result (TearsAll tier at (length bytes.now) (left self.old (moment self.old)) (left self.new (moment self.new))) }
        ensures cause { HasCause (faults self.old) (faults self.new) result };

    /// Waits until what was written to a tier is kept: after it, a stop leaves of the tier what a read gives.
    fn fence(&mut self, tier: Tier) -> Result<(), MediaError>
        ensures only { IsErrOf result OutOfRange → ⊥ }
        ensures seen { OnOk result ((t : Tier) → seen self.new t ≡ seen self.old t) }
        ensures lengths { (t : Tier) → length (seen self.new t) ≡ length (seen self.old t) }
        ensures clock { OnOk result (moment self.new ≡ moment self.old + 1) }
        ensures past { Keeps (moment self.old) (moment self.new) (left self.old) (left self.new) }
        ensures left { (t : Tier) (c : List ℕ) → left self.new (moment self.new) t c → left self.old (moment self.old) t c }
        ensures settled { OnOk result (Settles tier (seen self.old) (left self.old (moment self.old)) (left self.new (moment self.new))) }
        ensures cause { HasCause (faults self.old) (faults self.new) result };

    /// What a read gives is one of the contents that a stop now may leave.
    ghost seen_now: { (media : Self) (t : Tier) → left media (moment media) t (seen media t) };

    /// The count of failed calls has a greatest value.
    ghost few: { (media : Self) → faults media < 2 ^ 64 };

    /// A tier keeps its length.
    ghost sized: { (media : Self) (m : ℕ) (t : Tier) (c : List ℕ) → m ≤ moment media → left media m t c → length c ≡ length (seen media t) };
}

/// Whether `count` bytes from an offset on lie within a tier of this size.
pub fn lies_within(at: usize, count: usize, size: usize) -> bool
    ensures { IsTrue result ↔ (at + count ≤ size) }
{
    at <= size && count <= size - at
}

/// That the count of failed calls rose holds on, over later calls and earlier ones.
pub fn rose_holds_on()
    ensures later { (a b c : ℕ) → Rose a b → b ≤ c → c < 2 ^ 64 → Rose a c }
    ensures earlier { (a b c : ℕ) → a ≤ b → Rose b c → Rose a c }
{}
