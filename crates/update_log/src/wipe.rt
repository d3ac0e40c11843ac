// The device calls of a wipe.
ghost use Rattle.std.specs.Prelude.{◌≡◌, ◌≤◌, ◌<◌, ◌+◌, ◌⊎◌, List, ℕ, length, get_or, true, OnOk, OnErr, IfOk};
ghost use Rattle.byteorder.specs.Endian.{little_bytes};
ghost use Rattle.tier_device.specs.declared.media.Tier.{Tier};
ghost use Rattle.tier_device.specs.declared.media.Tier.TheVariants.{Fast};
ghost use Rattle.tier_device.specs.Media.{Keeps, Puts, Rose};
ghost use Rattle.tier_device.specs.StopsSince.{LeftSince};
ghost use Rattle.update_log.specs.declared.format.TheConstants.{GENERATION_SIZE, HEADER, OPEN, REGION_SIZE};
ghost use Rattle.update_log.specs.Frames.{header};
ghost use Rattle.update_log.specs.Stage.{IsIdle, IsUnwiped};
ghost use Rattle.update_log.specs.WipeStops.{records_behind_gate};
ghost use Rattle.update_log.specs.Wipe.{MayWipe, IsReadyFor, IsDoneWith, LeftInCall, first_stage, wipe_next, seen_wiped, header_wiped};

use crate::format::{CLOSED, GENERATION_SIZE, HEADER};
use crate::stage::Stage;
use byteorder::{ByteOrder, LittleEndian};
use tier_device::{Media, MediaError, Tier};

/// Makes the next device call of a wipe to a generation, and answers the stage after it. The first gate is written closed, and is
/// fenced; then the generation is written, and is fenced: so no stop leaves an open gate behind a generation that is not the old one.
/// Where the first gate's byte is 0x00 already, it stays as it is: a write of it, torn, could open it. A first gate that is known to be open is not read.
pub fn wipe_call<M: Media>(
    media: &mut M,
    stage: Stage,
    is_open: bool,
    generation: u64,
) -> Result<Stage, MediaError>
    requires size { length (M.seen media.old Fast) ≡ REGION_SIZE }
    requires open { is_open ≡ true → IsIdle stage → get_or (M.seen media.old Fast) HEADER 0 ≡ OPEN }
    requires may { MayWipe stage (M.seen media.old Fast) (M.left media.old (M.moment media.old) Fast) }
    ensures to { IfOk result (λ to. to ≡ wipe_next stage (get_or (M.seen media.old Fast) HEADER 0)) }
    ensures done { IfOk result (λ to. IsDoneWith to (M.seen media.new Fast) (M.left media.new (M.moment media.new) Fast)) }
    ensures failed { OnErr result (IsUnwiped (header (M.seen media.new Fast)) (M.seen media.new Fast) (M.left media.new (M.moment media.new) Fast)) }
    ensures size { length (M.seen media.new Fast) ≡ REGION_SIZE }
    ensures any_moment { (c : List ℕ) → LeftSince (M.left media.new) (M.moment media.new) (M.moment media.old) Fast c
        → LeftInCall (wipe_next stage (get_or (M.seen media.old Fast) HEADER 0)) (header (M.seen media.old Fast)) (records_behind_gate (M.seen media.old Fast)) c }
    ensures seen { IfOk result (λ to. Puts Fast (seen_wiped to generation (M.seen media.old Fast)) (M.seen media.old) (M.seen media.new)) }
    ensures header { IfOk result (λ to. header (M.seen media.new Fast) ≡ header_wiped to generation (header (M.seen media.old Fast))) }
    ensures clock { OnOk result (M.moment media.new ≡ M.moment media.old + 1) }
    ensures past { Keeps (M.moment media.old) (M.moment media.new) (M.left media.old) (M.left media.new) }
    ensures fault { OnErr result (Rose (M.faults media.old) (M.faults media.new)) }
    ensures sound { OnOk result (M.faults media.new ≡ M.faults media.old) }
    ensures faults { (M.faults media.old ≤ M.faults media.new) × (M.faults media.new ≤ M.faults media.old + 1) }
{
    let to = next_stage(media, stage, is_open)?;
    make_call(media, to, generation)?;
    Ok(to)
}

// The stage after the next call. Of a region at rest the first gate is read, if it is not known to be open.
fn next_stage<M: Media>(media: &mut M, stage: Stage, is_open: bool) -> Result<Stage, MediaError>
    requires size { length (M.seen media.old Fast) ≡ REGION_SIZE }
    requires open { is_open ≡ true → IsIdle stage → get_or (M.seen media.old Fast) HEADER 0 ≡ OPEN }
    requires may { MayWipe stage (M.seen media.old Fast) (M.left media.old (M.moment media.old) Fast) }
    ensures to { IfOk result (λ to. to ≡ wipe_next stage (get_or (M.seen media.old Fast) HEADER 0)) }
    ensures ready { IfOk result (λ to. IsReadyFor to (M.seen media.new Fast) (M.left media.new (M.moment media.new) Fast)) }
    ensures failed { OnErr result (IsUnwiped (header (M.seen media.new Fast)) (M.seen media.new Fast) (M.left media.new (M.moment media.new) Fast)) }
    ensures before { (c : List ℕ) → M.left media.new (M.moment media.new) Fast c
        → LeftInCall (wipe_next stage (get_or (M.seen media.old Fast) HEADER 0)) (header (M.seen media.old Fast)) (records_behind_gate (M.seen media.old Fast)) c }
    ensures seen { (t : Tier) → M.seen media.new t ≡ M.seen media.old t }
    ensures clock { M.moment media.new ≡ M.moment media.old }
    ensures past { Keeps (M.moment media.old) (M.moment media.new) (M.left media.old) (M.left media.new) }
    ensures fault { OnErr result (Rose (M.faults media.old) (M.faults media.new)) }
    ensures sound { OnOk result (M.faults media.new ≡ M.faults media.old) }
    ensures faults { (M.faults media.old ≤ M.faults media.new) × (M.faults media.new ≤ M.faults media.old + 1) }
{
    match stage {
        Stage::Resting => stage_from_rest(media, is_open),
        Stage::Foreign => stage_from_rest(media, is_open),
        Stage::Closing => Ok(Stage::Closed),
        Stage::Closed => Ok(Stage::Naming),
        Stage::Naming => Ok(Stage::Resting),
        Stage::Begun
        | Stage::Written
        | Stage::Kept
        | Stage::Opened
        | Stage::Failed
        | Stage::WipeFailed => unreachable!(),
    }
}

// The same of a region at rest.
fn stage_from_rest<M: Media>(media: &mut M, is_open: bool) -> Result<Stage, MediaError>
    requires size { length (M.seen media.old Fast) ≡ REGION_SIZE }
    requires open { is_open ≡ true → get_or (M.seen media.old Fast) HEADER 0 ≡ OPEN }
    requires rests { (c : List ℕ) → M.left media.old (M.moment media.old) Fast c → c ≡ M.seen media.old Fast }
    ensures to { IfOk result (λ to. to ≡ first_stage (get_or (M.seen media.old Fast) HEADER 0)) }
    ensures ready { IfOk result (λ to. IsReadyFor to (M.seen media.new Fast) (M.left media.new (M.moment media.new) Fast)) }
    ensures failed { OnErr result (IsUnwiped (header (M.seen media.new Fast)) (M.seen media.new Fast) (M.left media.new (M.moment media.new) Fast)) }
    ensures before { (c : List ℕ) → M.left media.new (M.moment media.new) Fast c
        → LeftInCall (first_stage (get_or (M.seen media.old Fast) HEADER 0)) (header (M.seen media.old Fast)) (records_behind_gate (M.seen media.old Fast)) c }
    ensures seen { (t : Tier) → M.seen media.new t ≡ M.seen media.old t }
    ensures clock { M.moment media.new ≡ M.moment media.old }
    ensures past { Keeps (M.moment media.old) (M.moment media.new) (M.left media.old) (M.left media.new) }
    ensures fault { OnErr result (Rose (M.faults media.old) (M.faults media.new)) }
    ensures sound { OnOk result (M.faults media.new ≡ M.faults media.old) }
    ensures faults { (M.faults media.old ≤ M.faults media.new) × (M.faults media.new ≤ M.faults media.old + 1) }
{
    if is_open {
        return Ok(Stage::Closing);
    }
    if first_gate(media)? == CLOSED {
        Ok(Stage::Naming)
    } else {
        Ok(Stage::Closing)
    }
}

// The byte at the first gate.
fn first_gate<M: Media>(media: &mut M) -> Result<u8, MediaError>
    requires { HEADER < length (M.seen media.old Fast) }
    ensures byte { IfOk result (λ gate. gate ≡ get_or (M.seen media.old Fast) HEADER 0) }
    ensures seen { (t : Tier) → M.seen media.new t ≡ M.seen media.old t }
    ensures clock { M.moment media.new ≡ M.moment media.old }
    ensures past { Keeps (M.moment media.old) (M.moment media.new) (M.left media.old) (M.left media.new) }
    ensures fault { OnErr result (Rose (M.faults media.old) (M.faults media.new)) }
    ensures sound { OnOk result (M.faults media.new ≡ M.faults media.old) }
    ensures faults { (M.faults media.old ≤ M.faults media.new) × (M.faults media.new ≤ M.faults media.old + 1) }
{
    let mut gate = [0; 1];
    media.read(Tier::Fast, HEADER, &mut gate)?;
    Ok(gate[0])
}

// Makes the call that leads to a stage.
fn make_call<M: Media>(media: &mut M, to: Stage, generation: u64) -> Result<(), MediaError>
    requires size { length (M.seen media.old Fast) ≡ REGION_SIZE }
    requires ready { IsReadyFor to (M.seen media.old Fast) (M.left media.old (M.moment media.old) Fast) }
    ensures done { OnOk result (IsDoneWith to (M.seen media.new Fast) (M.left media.new (M.moment media.new) Fast)) }
    ensures failed { OnErr result (IsUnwiped (header (M.seen media.new Fast)) (M.seen media.new Fast) (M.left media.new (M.moment media.new) Fast)) }
    ensures size { length (M.seen media.new Fast) ≡ REGION_SIZE }
    ensures after { (c : List ℕ) → M.left media.new (M.moment media.new) Fast c
        → LeftInCall to (header (M.seen media.old Fast)) (records_behind_gate (M.seen media.old Fast)) c }
    ensures seen { OnOk result (Puts Fast (seen_wiped to generation (M.seen media.old Fast)) (M.seen media.old) (M.seen media.new)) }
    ensures header { OnOk result (header (M.seen media.new Fast) ≡ header_wiped to generation (header (M.seen media.old Fast))) }
    ensures clock { OnOk result (M.moment media.new ≡ M.moment media.old + 1) }
    ensures past { Keeps (M.moment media.old) (M.moment media.new) (M.left media.old) (M.left media.new) }
    ensures fault { OnErr result (Rose (M.faults media.old) (M.faults media.new)) }
    ensures sound { OnOk result (M.faults media.new ≡ M.faults media.old) }
    ensures faults { (M.faults media.old ≤ M.faults media.new) × (M.faults media.new ≤ M.faults media.old + 1) }
{
    match to {
        Stage::Closing => media.write(Tier::Fast, HEADER, &[CLOSED]),
        Stage::Closed => media.fence(Tier::Fast),
        Stage::Naming => media.write(Tier::Fast, 0, &name_of(generation)),
        Stage::Resting => media.fence(Tier::Fast),
        Stage::Foreign
        | Stage::Begun
        | Stage::Written
        | Stage::Kept
        | Stage::Opened
        | Stage::Failed
        | Stage::WipeFailed => unreachable!(),
    }
}

// The bytes of a generation.
fn name_of(generation: u64) -> [u8; GENERATION_SIZE]
    ensures { result ≡ little_bytes GENERATION_SIZE generation }
{
    let mut name = [0; GENERATION_SIZE];
    LittleEndian::write_u64(&mut name, generation);
    name
}
