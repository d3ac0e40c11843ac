ghost use Rattle.std.specs.Prelude.{◌≡◌, ◌≤◌, IfOk, IfSome, drop, option_map, is_some, true};
ghost use Rattle.log_record.specs.Outcome.{Gives, owned_effect};
ghost use Rattle.log_record.specs.Grammar.{Begins, NoneBegins, IsRecord, record_bytes, make_at, name_at, enter_at, leave_at, names_at, size_at, bytes_at, dropped_at, swap_at, fields_at, effect_at, effects_at, header_at, record_at, record_of};

use crate::effect_ref::EffectRef;
use crate::format::{
    BYTES, DROP, ENTER, LEAVE, MAKE, MAX_EFFECTS, NAMES, Record, RecordError, SIZE, SWAP,
};
use file_graph::{Effect, Effects, byte_of, read_kind, run_of, u32_of, u64_of};
use std::alloc::Global;

#[tactic(auto, unfolding(crate::specs::Grammar::make_at))]
fn make_of(bytes: &[u8]) -> Option<(EffectRef<'_>, &[u8])>
    ensures { option_map (λ x. (owned_effect x.0, x.1.now)) result ≡ make_at bytes.now }
{
    let (inode, rest) = u32_of(bytes)?;
    let (kind, rest) = read_kind(rest)?;
    Some((EffectRef::Make { inode, kind }, rest))
}

// A name behind its length.
fn name_of(bytes: &[u8]) -> Option<(&[u8], &[u8])>
    ensures { option_map (λ x. (x.0.now, x.1.now)) result ≡ name_at bytes.now }
{
    let (count, rest) = byte_of(bytes)?;
    run_of(count as usize, rest)
}

#[tactic(auto, unfolding(crate::specs::Grammar::enter_at))]
fn enter_of(bytes: &[u8]) -> Option<(EffectRef<'_>, &[u8])>
    ensures { option_map (λ x. (owned_effect x.0, x.1.now)) result ≡ enter_at bytes.now }
{
    let (directory, rest) = u32_of(bytes)?;
    let (inode, rest) = u32_of(rest)?;
    let (kind, rest) = read_kind(rest)?;
    let (name, rest) = name_of(rest)?;
    Some((
        EffectRef::Enter {
            directory,
            inode,
            kind,
            name,
        },
        rest,
    ))
}

#[tactic(auto, unfolding(crate::specs::Grammar::leave_at))]
fn leave_of(bytes: &[u8]) -> Option<(EffectRef<'_>, &[u8])>
    ensures { option_map (λ x. (owned_effect x.0, x.1.now)) result ≡ leave_at bytes.now }
{
    let (directory, rest) = u32_of(bytes)?;
    let (name, rest) = name_of(rest)?;
    Some((EffectRef::Leave { directory, name }, rest))
}

#[tactic(auto, unfolding(crate::specs::Grammar::names_at))]
fn names_of(bytes: &[u8]) -> Option<(EffectRef<'_>, &[u8])>
    ensures { option_map (λ x. (owned_effect x.0, x.1.now)) result ≡ names_at bytes.now }
{
    let (inode, rest) = u32_of(bytes)?;
    let (names, rest) = u32_of(rest)?;
    Some((EffectRef::Names { inode, names }, rest))
}

#[tactic(auto, unfolding(crate::specs::Grammar::size_at))]
fn resize_of(bytes: &[u8]) -> Option<(EffectRef<'_>, &[u8])>
    ensures { option_map (λ x. (owned_effect x.0, x.1.now)) result ≡ size_at bytes.now }
{
    let (inode, rest) = u32_of(bytes)?;
    let (size, rest) = u64_of(rest)?;
    Some((EffectRef::Size { inode, size }, rest))
}

#[tactic(auto, unfolding(crate::specs::Grammar::bytes_at))]
fn write_of(bytes: &[u8]) -> Option<(EffectRef<'_>, &[u8])>
    ensures { option_map (λ x. (owned_effect x.0, x.1.now)) result ≡ bytes_at bytes.now }
{
    let (inode, rest) = u32_of(bytes)?;
    let (at, rest) = u64_of(rest)?;
    let (count, rest) = u32_of(rest)?;
    let (bytes, rest) = run_of(count as usize, rest)?;
    Some((EffectRef::Bytes { inode, at, bytes }, rest))
}

#[tactic(auto, unfolding(crate::specs::Grammar::dropped_at))]
fn drop_of(bytes: &[u8]) -> Option<(EffectRef<'_>, &[u8])>
    ensures { option_map (λ x. (owned_effect x.0, x.1.now)) result ≡ dropped_at bytes.now }
{
    let (inode, rest) = u32_of(bytes)?;
    Some((EffectRef::Drop { inode }, rest))
}

// The tag of an effect and its fields, whether or not they keep the limits.
#[tactic(auto, unfolding(crate::specs::Grammar::swap_at))]
fn swap_of(bytes: &[u8]) -> Option<(EffectRef<'_>, &[u8])>
    ensures { option_map (λ x. (owned_effect x.0, x.1.now)) result ≡ swap_at bytes.now }
{
    let (directory, rest) = u32_of(bytes)?;
    let (name, rest) = name_of(rest)?;
    let (other, rest) = u32_of(rest)?;
    let (other_name, rest) = name_of(rest)?;
    Some((
        EffectRef::Swap {
            directory,
            name,
            other,
            other_name,
        },
        rest,
    ))
}

#[tactic(auto, unfolding(crate::specs::Grammar::fields_at))]
pub(crate) fn fields_of(bytes: &[u8]) -> Option<(EffectRef<'_>, &[u8])>
    ensures { option_map (λ x. (owned_effect x.0, x.1.now)) result ≡ fields_at bytes.now }
{
    let (tag, rest) = byte_of(bytes)?;
    match tag {
        MAKE => make_of(rest),
        ENTER => enter_of(rest),
        LEAVE => leave_of(rest),
        NAMES => names_of(rest),
        SIZE => resize_of(rest),
        BYTES => write_of(rest),
        DROP => drop_of(rest),
        SWAP => swap_of(rest),
        _ => None,
    }
}

#[tactic(auto, unfolding(crate::specs::Grammar::effect_at))]
fn effect_of(alloc: Global, bytes: &[u8]) -> Result<(Effect, &[u8]), RecordError>
    ensures { Gives (λ x. (x.0, x.1.now)) result (effect_at bytes.now) }
{
    let Some((effect, rest)) = fields_of(bytes) else {
        return Err(RecordError::NoRecord);
    };
    Ok((effect.to_effect(alloc)?, rest))
}

#[tactic(auto, unfolding(crate::specs::Grammar::effect_at))]
fn skip_effect(bytes: &[u8]) -> Option<&[u8]>
    ensures { option_map (λ x. x.now) result ≡ option_map (λ x. x.1) (effect_at bytes.now) }
{
    let (effect, rest) = fields_of(bytes)?;
    if !effect.fits() {
        return None;
    }
    Some(rest)
}

fn effects_of(alloc: Global, count: u8, bytes: &[u8]) -> Result<(Vec<Effect>, &[u8]), RecordError>
    ensures { Gives (λ x. (x.0.items, x.1.now)) result (effects_at count bytes.now) }
{
    let mut effects = Vec::with_capacity(alloc, count as usize)?;
    let mut rest = bytes;
    for _ in 0..count {
        let (effect, after) = effect_of(alloc, rest)?;
        effects.push(effect)?;
        rest = after;
    }
    Ok((effects, rest))
}

fn skip_effects(count: u8, bytes: &[u8]) -> Option<&[u8]>
    ensures { option_map (λ x. x.now) result ≡ option_map (λ x. x.1) (effects_at count bytes.now) }
{
    let mut rest = bytes;
    for _ in 0..count {
        rest = skip_effect(rest)?;
    }
    Some(rest)
}

// The units and the count of the effects.
#[tactic(auto, unfolding(crate::specs::Grammar::header_at))]
pub(crate) fn header_of(bytes: &[u8]) -> Option<((u32, u8), &[u8])>
    ensures is { option_map (λ x. (x.0, x.1.now)) result ≡ header_at bytes.now }
    ensures few { IfSome result (λ x. x.0.1 ≤ MAX_EFFECTS) }
{
    let (units, rest) = u32_of(bytes)?;
    let (count, rest) = byte_of(rest)?;
    if count < 1 || MAX_EFFECTS < count {
        return None;
    }
    Some(((units, count), rest))
}

#[tactic(auto, unfolding(crate::specs::Grammar::record_at))]
fn record_front(alloc: Global, bytes: &[u8]) -> Result<(Record, &[u8]), RecordError>
    ensures { Gives (λ x. (x.0, x.1.now)) result (record_at bytes.now) }
{
    let Some(((units, count), rest)) = header_of(bytes) else {
        return Err(RecordError::NoRecord);
    };
    let (effects, rest) = effects_of(alloc, count, rest)?;
    let effects = Effects::from_vec(effects);
    Ok((Record { units, effects }, rest))
}

/// The record that the bytes begin with, and how many of them spell it. `NoRecord` says that no beginning of them is a
/// spelling; that takes no memory. `Memory` where there was none for the record.
pub fn read_record(alloc: Global, bytes: &[u8]) -> Result<(Record, usize), RecordError>
    ensures found { IfOk result (λ r. Begins bytes.now r.0 r.1) }
    ensures none { result ≡ Err RecordError.NoRecord → NoneBegins bytes.now }
    ensures memory { result ≡ Err RecordError.Memory → is_some (record_at bytes.now) ≡ true }
    ensures exact { Gives (λ r. (r.0, drop r.1 bytes.now)) result (record_at bytes.now) }
{
    if !begins_record(bytes) {
        return Err(RecordError::NoRecord);
    }
    let (found, rest) = record_front(alloc, bytes)?;
    Ok((found, bytes.len() - rest.len()))
}

/// The record that exactly these bytes spell. `NoRecord` says that they spell none; that takes no memory. `Memory` where there was
/// none for the record.
pub fn read_payload(alloc: Global, bytes: &[u8]) -> Result<Record, RecordError>
    ensures found { IfOk result (λ r. IsRecord r × (bytes.now ≡ record_bytes r)) }
    ensures memory { result ≡ Err RecordError.Memory → is_some (record_of bytes.now) ≡ true }
    ensures exact { Gives (λ r. r) result (record_of bytes.now) }
{
    if !is_payload(bytes) {
        return Err(RecordError::NoRecord);
    }
    let (found, _) = record_front(alloc, bytes)?;
    Ok(found)
}

// What is behind the record at the front.
#[tactic(auto, unfolding(crate::specs::Grammar::record_at))]
fn skip_record(bytes: &[u8]) -> Option<&[u8]>
    ensures { option_map (λ x. x.now) result ≡ option_map (λ x. x.1) (record_at bytes.now) }
{
    let ((_, count), rest) = header_of(bytes)?;
    skip_effects(count, rest)
}

// Whether a record stands at the front.
fn begins_record(bytes: &[u8]) -> bool
    ensures { result ≡ is_some (record_at bytes.now) }
{
    skip_record(bytes).is_some()
}

/// Whether exactly these bytes spell a record. It takes no memory.
pub fn is_payload(bytes: &[u8]) -> bool
    ensures { result ≡ is_some (record_of bytes.now) }
{
    match skip_record(bytes) {
        Some(rest) => rest.is_empty(),
        None => false,
    }
}
