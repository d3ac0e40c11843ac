// Reads of the fast tier, for an opening. They take no memory but for a run of any length.
ghost use Rattle.std.specs.Prelude.{◌≡◌, ◌≢◌, ◌<◌, ◌≤◌, ◌+◌, ◌*◌, ◌⊎◌, ◌^◌, ℕ, List, length, true, false, drop, get_or, ◌==◌, OnSome, IfSome, IfNone, IfOk, IfErr, IsTrue, ◌↔◌, if◌then◌else◌};
ghost use Rattle.tier_device.specs.declared.media.Tier.TheVariants.{Fast};
ghost use Rattle.layout.specs.Places.{tier_blocks};
ghost use Rattle.layout.specs.Bytes.{are_zero};
ghost use Rattle.layout.specs.declared.places.TheConstants.{BLOCK};
ghost use Rattle.layout.specs.declared.error.What.TheVariants as what;
ghost use Rattle.batch_journal.specs.Images.{slice, image_count, target_at};
ghost use Rattle.batch_journal.specs.Blocks.{area_of, is_gate_open, rest_of_gate};
ghost use Rattle.batch_journal.specs.Volume.{Spells, HasSizes};
ghost use Rattle.batch_journal.specs.Course.{Unmoved};
ghost use Rattle.batch_journal.specs.BatchReads.{CountsFaults, IsOfReading};
ghost use Rattle.batch_journal.specs.declared.error.JournalError.TheVariants.{DeviceFault, Memory};
ghost use Rattle.batch_journal.specs.Damage.{OnJournalDamage, IsGateDamage, HasNoSuper};

use crate::calls::fetch;
use crate::error::JournalError;
use crate::head::number_in;
use crate::replay::{GATE, HEAD, OPEN};
use byteorder::{ByteOrder, LittleEndian};
use layout::{BLOCK, GATE_BLOCK, Geometry, HEAD_BLOCK, SUPER_BLOCK, Super, What, are_zero};
use std::alloc::Global;
use tier_device::{Media, Tier};

/// So many bytes of the fast tier.
pub fn read_run<M: Media>(
    alloc: Global,
    media: &mut M,
    at: usize,
    size: usize,
) -> Result<Vec<u8>, JournalError>
    requires { at + size ≤ length (M.seen media.old Fast) }
    ensures bytes { IfOk result (λ bytes. bytes.items ≡ slice at size (M.seen media.old Fast)) }
    ensures unmoved { Unmoved (M.moment media.old) (M.moment media.new) (M.seen media.old) (M.seen media.new) (M.left media.old) (M.left media.new) }
    ensures faults { CountsFaults (M.faults media.old) (M.faults media.new) result }
    ensures only { IfErr result (λ e. (e ≡ DeviceFault) ⊎ (e ≡ Memory)) }
{
    let mut bytes = vec![in alloc; 0u8; size]?;
    fetch(media, Tier::Fast, at, &mut bytes)?;
    Ok(bytes)
}

/// A block's worth of bytes, to read into.
pub fn blank_block() -> [u8; BLOCK] {
    [0; BLOCK]
}

/// Whether the gate is open. `Damaged` where the rest of its block is not zero.
pub fn read_gate<M: Media>(media: &mut M) -> Result<bool, JournalError>
    requires { 1196032 ≤ length (M.seen media.old Fast) }
    ensures gate { IfOk result (λ gate. gate ≡ is_gate_open (M.seen media.old Fast)) }
    ensures rest { IfOk result (λ gate. are_zero (rest_of_gate (M.seen media.old Fast)) ≡ true) }
    ensures unmoved { Unmoved (M.moment media.old) (M.moment media.new) (M.seen media.old) (M.seen media.new) (M.left media.old) (M.left media.new) }
    ensures faults { CountsFaults (M.faults media.old) (M.faults media.new) result }
    ensures only { IfErr result IsOfReading }
    ensures damaged { IfErr result (λ e. OnJournalDamage e (IsGateDamage (M.seen media.old Fast))) }
{
    let mut block = blank_block();
    fetch(media, Tier::Fast, GATE, &mut block)?;
    match gate_in(&block) {
        Some(is_open) => Ok(is_open),
        None => Err(JournalError::Damaged {
            what: What::JournalGate,
            block: GATE_BLOCK,
        }),
    }
}

// Whether the gate is open, by the bytes of its block; `None` where the rest of the block is not zero.
fn gate_in(block: &[u8]) -> Option<bool>
    requires { 1 ≤ length block.now }
    ensures gate { IfSome result (λ is_gate_open. is_gate_open ≡ (get_or block.now 0 0 == 165)) }
    ensures rest { OnSome result (are_zero (drop 1 block.now) ≡ true) }
    ensures damaged { IfNone result (are_zero (drop 1 block.now) ≡ false) }
{
    if !are_zero(&block[1..]) {
        return None;
    }
    Some(block[0] == OPEN)
}

/// The superblock at a place of the fast tier: the geometry that it tells, if the tiers have these sizes, else `Damaged`.
pub fn read_geometry<M: Media>(media: &mut M, at: usize) -> Result<Geometry, JournalError>
    requires { at + BLOCK ≤ length (M.seen media.old Fast) }
    ensures spells { IfOk result (λ g. Spells g (slice at 4096 (M.seen media.old Fast))) }
    ensures sizes { IfOk result (λ g. HasSizes g (M.seen media.old)) }
    ensures damaged { IfErr result (λ e. OnJournalDamage e (λ w block. (w ≡ what.Super) × (block ≡ 0) × HasNoSuper (slice at 4096 (M.seen media.old Fast)) (M.seen media.old))) }
    ensures unmoved { Unmoved (M.moment media.old) (M.moment media.new) (M.seen media.old) (M.seen media.new) (M.left media.old) (M.left media.new) }
    ensures faults { CountsFaults (M.faults media.old) (M.faults media.new) result }
    ensures only { IfErr result IsOfReading }
{
    let mut block = blank_block();
    fetch(media, Tier::Fast, at, &mut block)?;
    match geometry_in(media, &block) {
        Some(geometry) => Ok(geometry),
        None => Err(JournalError::Damaged {
            what: What::Super,
            block: SUPER_BLOCK,
        }),
    }
}

// The geometry that a superblock tells, if the tiers have its sizes.
fn geometry_in<M: Media>(media: &M, block: &[u8]) -> Option<Geometry>
    ensures spells { IfSome result (λ g. Spells g block.now) }
    ensures sizes { IfSome result (λ g. HasSizes g (M.seen media.now)) }
    ensures damaged { IfNone result (HasNoSuper block.now (M.seen media.now)) }
{
    match Super::decode(block) {
        Ok(found) => {
            if !has_sizes(media, &found.geometry) {
                return None;
            }
            Some(found.geometry)
        }
        Err(_) => None,
    }
}

fn has_sizes<M: Media>(media: &M, geometry: &Geometry) -> bool
    ensures yes { result ≡ true → HasSizes geometry.now (M.seen media.now) }
    ensures no { result ≡ false → HasSizes geometry.now (M.seen media.now) → ⊥ }
{
    has_size(media, geometry, Tier::Fast)
        && has_size(media, geometry, Tier::Block)
        && has_size(media, geometry, Tier::Slow)
}

fn has_size<M: Media>(media: &M, geometry: &Geometry, tier: Tier) -> bool
    ensures { IsTrue result ↔ (length (M.seen media.now tier) ≡ 4096 * tier_blocks geometry.now tier) }
{
    media.size(tier) == 4096 * geometry.tier_blocks(tier) as usize
}

/// The head behind an open gate, and how many images it counts. `Damaged` where these are not 1 to 256.
pub fn read_head<M: Media>(media: &mut M, head: &mut [u8]) -> Result<usize, JournalError>
    requires size { 1196032 ≤ length (M.seen media.old Fast) }
    requires long { length head.old ≡ BLOCK }
    ensures head { IfOk result (λ count. head.new ≡ slice 143360 4096 (M.seen media.old Fast)) }
    ensures count { IfOk result (λ count. count ≡ image_count (area_of (M.seen media.old Fast))) }
    ensures some { IfOk result (λ count. 1 ≤ count) }
    ensures few { IfOk result (λ count. count ≤ 256) }
    ensures damaged { IfErr result (λ e. OnJournalDamage e (λ w block. (w ≡ what.JournalHead) × (block ≡ 35) × ((image_count (area_of (M.seen media.old Fast)) < 1) ⊎ (256 < image_count (area_of (M.seen media.old Fast)))))) }
    ensures unmoved { Unmoved (M.moment media.old) (M.moment media.new) (M.seen media.old) (M.seen media.new) (M.left media.old) (M.left media.new) }
    ensures faults { CountsFaults (M.faults media.old) (M.faults media.new) result }
    ensures only { IfErr result IsOfReading }
{
    fetch(media, Tier::Fast, HEAD, head)?;
    let count = LittleEndian::read_u32(head) as usize;
    if count < 1 || 256 < count {
        return Err(JournalError::Damaged {
            what: What::JournalHead,
            block: HEAD_BLOCK,
        });
    }
    Ok(count)
}

/// Where the superblock stands behind an open gate: the first image, if that is for block 0, else block 0.
pub fn superblock_in(head: &[u8]) -> usize
    requires { 8 ≤ length head.now }
    ensures { result ≡ (if target_at head.now 0 == 0 then 147456 else 0) }
{
    if number_in(head, 0) == 0 {
        HEAD + BLOCK
    } else {
        0
    }
}
