// Reading what stands behind the header of a region, and the generation in it.
ghost use Rattle.std.specs.Prelude.{◌≡◌, ◌≤◌, ◌<◌, ◌+◌, ◌-◌, ◌++◌, ◌∷◌, [], ◌⊎◌, length, take, drop, IfOk, IfErr, IsErrOf, OnOk, OnErr};
ghost use Rattle.tier_device.specs.declared.media.Tier.{Tier};
ghost use Rattle.tier_device.specs.declared.media.Tier.TheVariants.{Fast};
ghost use Rattle.tier_device.specs.Media.{Keeps, Rose};
ghost use Rattle.update_log.specs.declared.format.TheConstants.{CLOSED, GENERATION_SIZE, HEADER};
ghost use Rattle.update_log.specs.WipeStops.{generation};
ghost use Rattle.update_log.specs.declared.error.RegionError.TheVariants.{DeviceFault, Memory};

use crate::error::RegionError;
use crate::format::{CLOSED, GENERATION_SIZE, HEADER};
use byteorder::{ByteOrder, LittleEndian};
use std::alloc::Global;
use tier_device::{Media, Tier};

/// Bytes of the fast tier behind the header, which is not read.
pub fn read_behind_header<M: Media>(
    alloc: Global,
    media: &mut M,
    len: usize,
) -> Result<Vec<u8>, RegionError>
    requires { HEADER + len ≤ length (M.seen media.old Fast) }
    ensures bytes { IfOk result (λ behind. behind.items ≡ take len (drop HEADER (M.seen media.old Fast))) }
    ensures seen { (t : Tier) → M.seen media.new t ≡ M.seen media.old t }
    ensures clock { M.moment media.new ≡ M.moment media.old }
    ensures past { Keeps (M.moment media.old) (M.moment media.new) (M.left media.old) (M.left media.new) }
    ensures only { IfErr result (λ e. (e ≡ DeviceFault) ⊎ (e ≡ Memory)) }
    ensures fault { IsErrOf result DeviceFault → Rose (M.faults media.old) (M.faults media.new) }
    ensures quiet { IsErrOf result DeviceFault ⊎ (M.faults media.new ≡ M.faults media.old) }
    ensures faults { M.faults media.old ≤ M.faults media.new }
    ensures one_fault { M.faults media.new ≤ M.faults media.old + 1 }
{
    let mut behind = vec![in alloc; 0u8; len]?;
    match media.read(Tier::Fast, HEADER, &mut behind) {
        Ok(()) => Ok(behind),
        Err(_) => Err(RegionError::DeviceFault),
    }
}

/// The bytes between the header and a gate, and a closed gate.
pub fn read_before_gate<M: Media>(
    alloc: Global,
    media: &mut M,
    end: usize,
) -> Result<Vec<u8>, RegionError>
    requires behind { HEADER ≤ end }
    requires within { end < length (M.seen media.old Fast) }
    ensures bytes { IfOk result (λ behind. behind.items ≡ take (end - HEADER) (drop HEADER (M.seen media.old Fast)) ++ CLOSED ∷ []) }
    ensures seen { (t : Tier) → M.seen media.new t ≡ M.seen media.old t }
    ensures clock { M.moment media.new ≡ M.moment media.old }
    ensures past { Keeps (M.moment media.old) (M.moment media.new) (M.left media.old) (M.left media.new) }
    ensures only { IfErr result (λ e. (e ≡ DeviceFault) ⊎ (e ≡ Memory)) }
    ensures fault { IsErrOf result DeviceFault → Rose (M.faults media.old) (M.faults media.new) }
    ensures quiet { IsErrOf result DeviceFault ⊎ (M.faults media.new ≡ M.faults media.old) }
    ensures faults { M.faults media.old ≤ M.faults media.new }
    ensures one_fault { M.faults media.new ≤ M.faults media.old + 1 }
{
    let mut behind = read_behind_header(alloc, media, end - HEADER)?;
    behind.push(CLOSED)?;
    Ok(behind)
}

/// The generation that the header names.
pub fn read_generation<M: Media>(media: &mut M) -> Result<u64, RegionError>
    requires { GENERATION_SIZE ≤ length (M.seen media.old Fast) }
    ensures named { IfOk result (λ g. g ≡ generation (M.seen media.old Fast)) }
    ensures seen { (t : Tier) → M.seen media.new t ≡ M.seen media.old t }
    ensures clock { M.moment media.new ≡ M.moment media.old }
    ensures past { Keeps (M.moment media.old) (M.moment media.new) (M.left media.old) (M.left media.new) }
    ensures fault { OnErr result (Rose (M.faults media.old) (M.faults media.new)) }
    ensures only { IfErr result (λ e. e ≡ DeviceFault) }
    ensures quiet { OnOk result (M.faults media.new ≡ M.faults media.old) }
    ensures faults { M.faults media.old ≤ M.faults media.new }
    ensures one_fault { M.faults media.new ≤ M.faults media.old + 1 }
{
    let mut name = [0; GENERATION_SIZE];
    match media.read(Tier::Fast, 0, &mut name) {
        Ok(()) => Ok(LittleEndian::read_u64(&name)),
        Err(_) => Err(RegionError::DeviceFault),
    }
}
