// The device calls of an append.
ghost use Rattle.std.specs.Prelude.{◌≡◌, ◌+◌, ◌≤◌, ◌<◌, ◌^◌, List, ℕ, length, take, OnOk, OnErr};
ghost use Rattle.tier_device.specs.declared.media.Tier.TheVariants.{Fast};
ghost use Rattle.tier_device.specs.Media.{Keeps, Puts, Rose};
ghost use Rattle.tier_device.specs.declared.media.Tier.{Tier as AnyTier};
ghost use Rattle.update_log.specs.declared.stage.Stage.TheVariants as stages;
ghost use Rattle.update_log.specs.Stage.{BeforeOrAfter, IsAppending, IsUnopened, FitsItsStage, payload_in};
ghost use Rattle.update_log.specs.Calls.{HasMoved, HasFailed, end_after as next_end, seen_after};

use crate::format::OPEN;
use crate::stage::Stage;
use tier_device::{Media, MediaError, Tier};

/// Makes the device call of a stage. The body goes behind a gate that stays closed, and is fenced; then the gate is opened by
/// a write of its own, and is fenced: so no stop leaves an open gate before a body that is not whole.
pub fn device_call<M: Media>(
    media: &mut M,
    stage: Stage,
    end: usize,
    body: &[u8],
) -> Result<(), MediaError>
    requires appending { IsAppending stage }
    requires sound { FitsItsStage end stage body.now (M.seen media.old Fast) (M.left media.old (M.moment media.old) Fast) }
    ensures done { OnOk result (HasMoved end stage body.now (M.seen media.old Fast) (M.seen media.new Fast) (M.left media.new (M.moment media.new) Fast)) }
    ensures failed { OnErr result (HasFailed end body.now (M.seen media.old Fast) (M.seen media.new Fast) (M.left media.new (M.moment media.new) Fast)) }
    ensures seen { OnOk result (Puts Fast (seen_after stage end body.now (M.seen media.old Fast)) (M.seen media.old) (M.seen media.new)) }
    ensures before { (c : List ℕ) → M.left media.old (M.moment media.old) Fast c → BeforeOrAfter (take end (M.seen media.old Fast)) (payload_in body.now) c }
    ensures after { (c : List ℕ) → M.left media.new (M.moment media.new) Fast c → BeforeOrAfter (take end (M.seen media.old Fast)) (payload_in body.now) c }
    ensures clock { OnOk result (M.moment media.new ≡ M.moment media.old + 1) }
    ensures past { Keeps (M.moment media.old) (M.moment media.new) (M.left media.old) (M.left media.new) }
    ensures fault { OnErr result (Rose (M.faults media.old) (M.faults media.new)) }
    ensures sound { OnOk result (M.faults media.new ≡ M.faults media.old) }
    ensures faults { (M.faults media.old ≤ M.faults media.new) × (M.faults media.new ≤ M.faults media.old + 1) }
{
    match stage {
        Stage::Begun => media.write(Tier::Fast, end + 1, body),
        Stage::Written => media.fence(Tier::Fast),
        Stage::Kept => media.write(Tier::Fast, end, &[OPEN]),
        Stage::Opened => media.fence(Tier::Fast),
        Stage::Resting
        | Stage::Foreign
        | Stage::Failed
        | Stage::Closing
        | Stage::Closed
        | Stage::Naming
        | Stage::WipeFailed => unreachable!(),
    }
}

/// Where the next gate stands after the device call of a stage: the last one goes behind the record.
pub fn end_after(stage: Stage, end: usize, body: &[u8]) -> usize
    requires { end + length body.now < 2 ^ 64 }
    ensures { result ≡ next_end stage end body.now }
{
    match stage {
        Stage::Opened => end + body.len(),
        _ => end,
    }
}

/// Fences what was written of a record whose gate is not open. Nothing of it counts then, and the next record may begin there.
pub fn fence_closed<M: Media>(
    media: &mut M,
    stage: Stage,
    end: usize,
    body: &[u8],
) -> Result<(), MediaError>
    requires unopened { IsUnopened stage }
    requires sound { FitsItsStage end stage body.now (M.seen media.old Fast) (M.left media.old (M.moment media.old) Fast) }
    ensures done { OnOk result (FitsItsStage end stages.Resting body.now (M.seen media.new Fast) (M.left media.new (M.moment media.new) Fast)) }
    ensures failed { OnErr result (HasFailed end body.now (M.seen media.old Fast) (M.seen media.new Fast) (M.left media.new (M.moment media.new) Fast)) }
    ensures seen { OnOk result ((t : AnyTier) → M.seen media.new t ≡ M.seen media.old t) }
    ensures before { (c : List ℕ) → M.left media.old (M.moment media.old) Fast c → BeforeOrAfter (take end (M.seen media.old Fast)) (payload_in body.now) c }
    ensures after { (c : List ℕ) → M.left media.new (M.moment media.new) Fast c → BeforeOrAfter (take end (M.seen media.old Fast)) (payload_in body.now) c }
    ensures clock { OnOk result (M.moment media.new ≡ M.moment media.old + 1) }
    ensures past { Keeps (M.moment media.old) (M.moment media.new) (M.left media.old) (M.left media.new) }
    ensures fault { OnErr result (Rose (M.faults media.old) (M.faults media.new)) }
    ensures sound { OnOk result (M.faults media.new ≡ M.faults media.old) }
    ensures faults { (M.faults media.old ≤ M.faults media.new) × (M.faults media.new ≤ M.faults media.old + 1) }
{
    media.fence(Tier::Fast)
}
