// Device calls as the journal makes them: each says what a stop may leave from its start on.
ghost use Rattle.std.specs.Prelude.{◌≡◌, ◌≢◌, ◌≤◌, ◌<◌, ◌+◌, ◌*◌, List, ℕ, length, OnOk, OnErr};
ghost use Rattle.tier_device.specs.declared.media.Tier.{Tier};
ghost use Rattle.tier_device.specs.declared.media.Tier.TheVariants.{Fast};
ghost use Rattle.tier_device.specs.Media.{overwritten, Rose};
ghost use Rattle.tier_device.specs.AfterStop.{AtRest};
ghost use Rattle.batch_journal.specs.Images.{target_at, image_at, slice};
ghost use Rattle.batch_journal.specs.Course.{Since, TornFrom, SameLengths, Unmoved};

use byteorder::{ByteOrder, LittleEndian};
use tier_device::{Media, Tier};

/// A device has failed.
#[derive(Clone, Copy, Debug, PartialEq, Eq)]
pub struct Failed;

/// One read, which leaves all as it is.
pub fn fetch<M: Media>(media: &mut M, tier: Tier, at: usize, out: &mut [u8]) -> Result<(), Failed>
    requires { at + length out.old ≤ length (M.seen media.old tier) }
    ensures bytes { OnOk result (out.new ≡ slice at (length out.old) (M.seen media.old tier)) }
    ensures refused { OnErr result (out.new ≡ out.old) }
    ensures unmoved { Unmoved (M.moment media.old) (M.moment media.new) (M.seen media.old) (M.seen media.new) (M.left media.old) (M.left media.new) }
    ensures faults { M.faults media.old ≤ M.faults media.new }
    ensures one_fault { M.faults media.new ≤ M.faults media.old + 1 }
    ensures quiet { OnOk result (M.faults media.new ≡ M.faults media.old) }
    ensures cause { OnErr result (Rose (M.faults media.old) (M.faults media.new)) }
{
    match media.read(tier, at, out) {
        Ok(()) => Ok(()),
        Err(_) => Err(Failed),
    }
}

/// One write.
pub fn put<M: Media>(media: &mut M, tier: Tier, at: usize, bytes: &[u8]) -> Result<(), Failed>
    requires { at + length bytes.now ≤ length (M.seen media.old tier) }
    ensures course { Since tier (TornFrom (M.left media.old (M.moment media.old) tier) at (length bytes.now)) (M.moment media.old) (M.moment media.new) (M.left media.old) (M.left media.new) }
    ensures written { OnOk result (M.seen media.new tier ≡ overwritten (M.seen media.old tier) at bytes.now) }
    ensures others { OnOk result ((t : Tier) → t ≢ tier → M.seen media.new t ≡ M.seen media.old t) }
    ensures lengths { SameLengths (M.seen media.old) (M.seen media.new) }
    ensures one_call { OnOk result (M.moment media.new ≡ M.moment media.old + 1) }
    ensures faults { M.faults media.old ≤ M.faults media.new }
    ensures one_fault { M.faults media.new ≤ M.faults media.old + 1 }
    ensures at_most { M.moment media.new ≤ M.moment media.old + 1 }
    ensures quiet { OnOk result (M.faults media.new ≡ M.faults media.old) }
    ensures cause { OnErr result (Rose (M.faults media.old) (M.faults media.new)) }
{
    match media.write(tier, at, bytes) {
        Ok(()) => Ok(()),
        Err(_) => Err(Failed),
    }
}

/// One fence.
pub fn settle<M: Media>(media: &mut M, tier: Tier) -> Result<(), Failed>
    ensures course { Since tier (M.left media.old (M.moment media.old) tier) (M.moment media.old) (M.moment media.new) (M.left media.old) (M.left media.new) }
    ensures rest { OnOk result (AtRest (M.seen media.new) (M.left media.new (M.moment media.new)) tier) }
    ensures seen { OnOk result ((t : Tier) → M.seen media.new t ≡ M.seen media.old t) }
    ensures lengths { SameLengths (M.seen media.old) (M.seen media.new) }
    ensures one_call { OnOk result (M.moment media.new ≡ M.moment media.old + 1) }
    ensures faults { M.faults media.old ≤ M.faults media.new }
    ensures one_fault { M.faults media.new ≤ M.faults media.old + 1 }
    ensures at_most { M.moment media.new ≤ M.moment media.old + 1 }
    ensures quiet { OnOk result (M.faults media.new ≡ M.faults media.old) }
    ensures cause { OnErr result (Rose (M.faults media.old) (M.faults media.new)) }
{
    match media.fence(tier) {
        Ok(()) => Ok(()),
        Err(_) => Err(Failed),
    }
}

/// One write to the fast tier, kept.
pub fn keep<M: Media>(media: &mut M, at: usize, bytes: &[u8]) -> Result<(), Failed>
    requires { at + length bytes.now ≤ length (M.seen media.old Fast) }
    ensures course { Since Fast (TornFrom (M.left media.old (M.moment media.old) Fast) at (length bytes.now)) (M.moment media.old) (M.moment media.new) (M.left media.old) (M.left media.new) }
    ensures rest { OnOk result (AtRest (M.seen media.new) (M.left media.new (M.moment media.new)) Fast) }
    ensures written { OnOk result (M.seen media.new Fast ≡ overwritten (M.seen media.old Fast) at bytes.now) }
    ensures others { OnOk result ((t : Tier) → t ≢ Fast → M.seen media.new t ≡ M.seen media.old t) }
    ensures lengths { SameLengths (M.seen media.old) (M.seen media.new) }
    ensures two_calls { OnOk result (M.moment media.new ≡ M.moment media.old + 2) }
    ensures faults { M.faults media.old ≤ M.faults media.new }
    ensures one_fault { M.faults media.new ≤ M.faults media.old + 1 }
    ensures at_most { M.moment media.new ≤ M.moment media.old + 2 }
    ensures quiet { OnOk result (M.faults media.new ≡ M.faults media.old) }
    ensures cause { OnErr result (Rose (M.faults media.old) (M.faults media.new)) }
{
    put(media, Tier::Fast, at, bytes)?;
    settle(media, Tier::Fast)
}

#[tactic(auto, unfolding(crate::specs::Images::target_at))]
/// The image at that place, written to the block that it is for.
pub fn put_image<M: Media>(media: &mut M, bytes: &[u8], place: usize) -> Result<(), Failed>
    requires head { 4 + 4 * place + 4 ≤ length bytes.now }
    requires image { 4096 * place + 4096 + 4096 ≤ length bytes.now }
    requires fits { 4096 * target_at bytes.now place + 4096 ≤ length (M.seen media.old Fast) }
    ensures course { Since Fast (TornFrom (M.left media.old (M.moment media.old) Fast) (4096 * target_at bytes.now place) 4096) (M.moment media.old) (M.moment media.new) (M.left media.old) (M.left media.new) }
    ensures written { OnOk result (M.seen media.new Fast ≡ overwritten (M.seen media.old Fast) (4096 * target_at bytes.now place) (image_at bytes.now place)) }
    ensures others { OnOk result ((t : Tier) → t ≢ Fast → M.seen media.new t ≡ M.seen media.old t) }
    ensures lengths { SameLengths (M.seen media.old) (M.seen media.new) }
    ensures one_call { OnOk result (M.moment media.new ≡ M.moment media.old + 1) }
    ensures faults { M.faults media.old ≤ M.faults media.new }
    ensures one_fault { M.faults media.new ≤ M.faults media.old + 1 }
    ensures at_most { M.moment media.new ≤ M.moment media.old + 1 }
    ensures quiet { OnOk result (M.faults media.new ≡ M.faults media.old) }
    ensures cause { OnErr result (Rose (M.faults media.old) (M.faults media.new)) }
{
    let number = LittleEndian::read_u32(&bytes[4 + 4 * place..]) as usize;
    let from = 4096 * place + 4096;
    put(media, Tier::Fast, 4096 * number, &bytes[from..from + 4096])
}
