ghost use Rattle.std.specs.Prelude.{◌≡◌, ◌≤◌, ◌↔◌, ◌++◌, ◌∷◌, ◌+◌, ◌*◌, [], length, vec_len, vec_capacity, IfOk, OnOk, OnErr, IsOk, IsTrue, true};
ghost use Rattle.std.specs.List.{All, AllByRecursion, flat_map};
ghost use Rattle.file_graph.specs.declared.effect.Effect.TheVariants as effect;
ghost use Rattle.log_record.specs.Grammar.{u32 as bytes_4, u64 as bytes_8, effect_bytes, record_bytes, FitsLimits, fits, IsRecord};
ghost use Rattle.file_graph.specs.Kinds.{kind_byte};

use crate::effect_ref::lend;
use crate::format::{BYTES, DROP, ENTER, LEAVE, MAKE, MAX_EFFECTS, NAMES, Record, SIZE, SWAP};
use byteorder::{ByteOrder, LittleEndian};
use file_graph::{Effect, Kind, kind_byte};
use std::alloc::{AllocError, Global};

impl Record {
    /// Whether it has a spelling: 1 to 8 effects, each within the limits of the format.
    pub fn has_spelling(&self) -> bool
        ensures { IsTrue result ↔ IsRecord self.now }
    {
        // For the proof: `units` is a `u32`, as the format wants it.
        let _units = self.units;
        let effects = self.effects.as_slice();
        if effects.is_empty() || effects.len() > MAX_EFFECTS as usize {
            return false;
        }
        all_fit(effects)
    }

    /// How many bytes its spelling has.
    #[tactic(auto, using(crate::proofs::Lengths::lengths))]
    pub fn spelled_len(&self) -> usize
        requires { IsRecord self.now }
        ensures { result ≡ length (record_bytes self.now) }
    {
        5 + effects_len(self.effects.as_slice())
    }
}

fn effects_len(effects: &[Effect]) -> usize
    requires few { length effects.now ≤ MAX_EFFECTS }
    requires fit { AllByRecursion FitsLimits effects.now }
    ensures is { result ≡ length (flat_map effect_bytes effects.now) }
    ensures short { result ≤ 65553 * length effects.now }
{
    let mut len = 0;
    for effect in effects {
        len += effect_len(effect);
    }
    len
}

#[tactic(auto, using(crate::proofs::Lengths::lengths))]
fn effect_len(effect: &Effect) -> usize
    requires { FitsLimits effect.now }
    ensures is { result ≡ length (effect_bytes effect.now) }
    ensures short { result ≤ 65553 }
{
    match effect {
        Effect::Make { .. } => 6,
        Effect::Enter { name, .. } => 11 + name.as_slice().len(),
        Effect::Leave { name, .. } => 6 + name.as_slice().len(),
        Effect::Names { .. } => 9,
        Effect::Size { .. } => 13,
        Effect::Bytes { bytes, .. } => 17 + bytes.len(),
        Effect::Drop { .. } => 5,
        Effect::Swap {
            name,
            other_name,
            ..
        } => 11 + name.as_slice().len() + other_name.as_slice().len(),
    }
}

fn all_fit(effects: &[Effect]) -> bool
    ensures { IsTrue result ↔ All (λ e. fits e ≡ true) effects.now }
{
    effects.iter().all(|effect| lend(effect).fits())
}

/// The one spelling of a record.
pub fn write_record(alloc: Global, logged: &Record) -> Result<Vec<u8>, AllocError>
    requires { IsRecord logged.now }
    ensures { IfOk result (λ bytes. bytes.items ≡ record_bytes logged.now) }
{
    let mut out = Vec::with_capacity(alloc, logged.spelled_len())?;
    write_behind(&mut out, logged)?;
    Ok(out)
}

/// Puts the one spelling of a record behind what stands in `out`. Where memory runs out, `out` is as it was; where it has room
/// for the spelling, none is asked for.
pub fn write_behind(out: &mut Vec<u8>, logged: &Record) -> Result<(), AllocError>
    requires { IsRecord logged.now }
    ensures written { OnOk result (out.new.items ≡ out.old.items ++ record_bytes logged.now) }
    ensures refused { OnErr result (out.new.items ≡ out.old.items) }
    ensures len { OnOk result (vec_len out.new ≡ vec_len out.old + length (record_bytes logged.now)) }
    ensures room { vec_len out.old + length (record_bytes logged.now) ≤ vec_capacity out.old → IsOk result }
    ensures capacity { vec_capacity out.old ≤ vec_capacity out.new }
{
    out.reserve(logged.spelled_len())?;
    push_record(out, logged);
    Ok(())
}

// Puts the spelling of a record behind what stands in `out`, which has room for it.
#[tactic(auto, using(std::proofs::lemmas::List::append_assoc, crate::proofs::Lengths::lengths))]
fn push_record(out: &mut Vec<u8>, logged: &Record)
    requires spelled { IsRecord logged.now }
    requires room { vec_len out.old + length (record_bytes logged.now) ≤ vec_capacity out.old }
    ensures written { out.new.items ≡ out.old.items ++ record_bytes logged.now }
    ensures len { vec_len out.new ≡ vec_len out.old + length (record_bytes logged.now) }
    ensures capacity { vec_capacity out.old ≤ vec_capacity out.new }
{
    let effects = logged.effects.as_slice();
    push_u32(out, logged.units);
    push_byte(out, effects.len() as u8);
    push_effects(out, effects);
}

fn push_effects(out: &mut Vec<u8>, effects: &[Effect])
    requires fit { AllByRecursion FitsLimits effects.now }
    requires room { vec_len out.old + length (flat_map effect_bytes effects.now) ≤ vec_capacity out.old }
    ensures written { out.new.items ≡ out.old.items ++ flat_map effect_bytes effects.now }
    ensures len { vec_len out.new ≡ vec_len out.old + length (flat_map effect_bytes effects.now) }
    ensures capacity { vec_capacity out.old ≤ vec_capacity out.new }
{
    for effect in effects {
        push_effect(out, effect);
    }
}

fn push_effect(out: &mut Vec<u8>, effect: &Effect)
    requires fits { FitsLimits effect.now }
    requires room { vec_len out.old + length (effect_bytes effect.now) ≤ vec_capacity out.old }
    ensures written { out.new.items ≡ out.old.items ++ effect_bytes effect.now }
    ensures len { vec_len out.new ≡ vec_len out.old + length (effect_bytes effect.now) }
    ensures capacity { vec_capacity out.old ≤ vec_capacity out.new }
{
    match effect {
        Effect::Make { inode, kind } => push_make(out, *inode, *kind),
        Effect::Enter {
            directory,
            inode,
            kind,
            name,
        } => push_enter(out, *directory, *inode, *kind, name.as_slice()),
        Effect::Leave { directory, name } => push_leave(out, *directory, name.as_slice()),
        Effect::Names { inode, names } => push_names(out, *inode, *names),
        Effect::Size { inode, size } => push_size(out, *inode, *size),
        Effect::Bytes { inode, at, bytes } => push_bytes(out, *inode, *at, bytes.as_slice()),
        Effect::Drop { inode } => push_head(out, DROP, *inode),
        Effect::Swap {
            directory,
            name,
            other,
            other_name,
        } => push_swap(
            out,
            *directory,
            name.as_slice(),
            *other,
            other_name.as_slice(),
        ),
    }
}

#[tactic(auto, using(std::proofs::lemmas::List::append_assoc))]
fn push_make(out: &mut Vec<u8>, inode: u32, kind: Kind)
    requires room { vec_len out.old + 6 ≤ vec_capacity out.old }
    ensures written { out.new.items ≡ out.old.items ++ effect_bytes (effect.Make inode kind) }
    ensures len { vec_len out.new ≡ vec_len out.old + 6 }
    ensures capacity { vec_capacity out.old ≤ vec_capacity out.new }
{
    push_head(out, MAKE, inode);
    push_byte(out, kind_byte(kind));
}

#[tactic(auto, using(std::proofs::lemmas::List::append_assoc))]
fn push_enter(out: &mut Vec<u8>, directory: u32, inode: u32, kind: Kind, name: &[u8])
    requires short { length name.now ≤ 64 }
    requires room { vec_len out.old + (11 + length name.now) ≤ vec_capacity out.old }
    ensures written { out.new.items ≡ out.old.items ++ effect_bytes (effect.Enter directory inode kind name.now) }
    ensures len { vec_len out.new ≡ vec_len out.old + (11 + length name.now) }
    ensures capacity { vec_capacity out.old ≤ vec_capacity out.new }
{
    push_head(out, ENTER, directory);
    push_u32(out, inode);
    push_byte(out, kind_byte(kind));
    push_name(out, name);
}

#[tactic(auto, using(std::proofs::lemmas::List::append_assoc))]
fn push_leave(out: &mut Vec<u8>, directory: u32, name: &[u8])
    requires short { length name.now ≤ 64 }
    requires room { vec_len out.old + (6 + length name.now) ≤ vec_capacity out.old }
    ensures written { out.new.items ≡ out.old.items ++ effect_bytes (effect.Leave directory name.now) }
    ensures len { vec_len out.new ≡ vec_len out.old + (6 + length name.now) }
    ensures capacity { vec_capacity out.old ≤ vec_capacity out.new }
{
    push_head(out, LEAVE, directory);
    push_name(out, name);
}

#[tactic(auto, using(std::proofs::lemmas::List::append_assoc))]
fn push_swap(out: &mut Vec<u8>, directory: u32, name: &[u8], other: u32, other_name: &[u8])
    requires short { length name.now ≤ 64 }
    requires other_short { length other_name.now ≤ 64 }
    requires room { vec_len out.old + (11 + length name.now + length other_name.now) ≤ vec_capacity out.old }
    ensures written { out.new.items ≡ out.old.items ++ effect_bytes (effect.Swap directory name.now other other_name.now) }
    ensures len { vec_len out.new ≡ vec_len out.old + (11 + length name.now + length other_name.now) }
    ensures capacity { vec_capacity out.old ≤ vec_capacity out.new }
{
    push_head(out, SWAP, directory);
    push_name(out, name);
    push_u32(out, other);
    push_name(out, other_name);
}

#[tactic(auto, using(std::proofs::lemmas::List::append_assoc))]
fn push_names(out: &mut Vec<u8>, inode: u32, names: u32)
    requires room { vec_len out.old + 9 ≤ vec_capacity out.old }
    ensures written { out.new.items ≡ out.old.items ++ effect_bytes (effect.Names inode names) }
    ensures len { vec_len out.new ≡ vec_len out.old + 9 }
    ensures capacity { vec_capacity out.old ≤ vec_capacity out.new }
{
    push_head(out, NAMES, inode);
    push_u32(out, names);
}

#[tactic(auto, using(std::proofs::lemmas::List::append_assoc))]
fn push_size(out: &mut Vec<u8>, inode: u32, size: u64)
    requires room { vec_len out.old + 13 ≤ vec_capacity out.old }
    ensures written { out.new.items ≡ out.old.items ++ effect_bytes (effect.Size inode size) }
    ensures len { vec_len out.new ≡ vec_len out.old + 13 }
    ensures capacity { vec_capacity out.old ≤ vec_capacity out.new }
{
    push_head(out, SIZE, inode);
    push_u64(out, size);
}

#[tactic(auto, using(std::proofs::lemmas::List::append_assoc))]
fn push_bytes(out: &mut Vec<u8>, inode: u32, at: u64, bytes: &[u8])
    requires short { length bytes.now ≤ 65536 }
    requires room { vec_len out.old + (17 + length bytes.now) ≤ vec_capacity out.old }
    ensures written { out.new.items ≡ out.old.items ++ effect_bytes (effect.Bytes inode at bytes.now) }
    ensures len { vec_len out.new ≡ vec_len out.old + (17 + length bytes.now) }
    ensures capacity { vec_capacity out.old ≤ vec_capacity out.new }
{
    push_head(out, BYTES, inode);
    push_u64(out, at);
    push_u32(out, bytes.len() as u32);
    push_run(out, bytes);
}

// The tag of an effect, and its first field.
#[tactic(auto, using(std::proofs::lemmas::List::append_assoc))]
fn push_head(out: &mut Vec<u8>, tag: u8, inode: u32)
    requires room { vec_len out.old + 5 ≤ vec_capacity out.old }
    ensures written { out.new.items ≡ out.old.items ++ tag ∷ bytes_4 inode }
    ensures len { vec_len out.new ≡ vec_len out.old + 5 }
    ensures capacity { vec_capacity out.old ≤ vec_capacity out.new }
{
    push_byte(out, tag);
    push_u32(out, inode);
}

// A name behind its length.
#[tactic(auto, using(std::proofs::lemmas::List::append_assoc))]
fn push_name(out: &mut Vec<u8>, name: &[u8])
    requires short { length name.now ≤ 64 }
    requires room { vec_len out.old + (1 + length name.now) ≤ vec_capacity out.old }
    ensures written { out.new.items ≡ out.old.items ++ length name.now ∷ name.now }
    ensures len { vec_len out.new ≡ vec_len out.old + (1 + length name.now) }
    ensures capacity { vec_capacity out.old ≤ vec_capacity out.new }
{
    push_byte(out, name.len() as u8);
    push_run(out, name);
}

#[tactic(auto, unfolding(crate::specs::Grammar::u32))]
fn push_u32(out: &mut Vec<u8>, n: u32)
    requires room { vec_len out.old + 4 ≤ vec_capacity out.old }
    ensures written { out.new.items ≡ out.old.items ++ bytes_4 n }
    ensures len { vec_len out.new ≡ vec_len out.old + 4 }
    ensures capacity { vec_capacity out.old ≤ vec_capacity out.new }
{
    let mut bytes = [0; 4];
    LittleEndian::write_u32(&mut bytes, n);
    push_run(out, &bytes);
}

#[tactic(auto, unfolding(crate::specs::Grammar::u64))]
fn push_u64(out: &mut Vec<u8>, n: u64)
    requires room { vec_len out.old + 8 ≤ vec_capacity out.old }
    ensures written { out.new.items ≡ out.old.items ++ bytes_8 n }
    ensures len { vec_len out.new ≡ vec_len out.old + 8 }
    ensures capacity { vec_capacity out.old ≤ vec_capacity out.new }
{
    let mut bytes = [0; 8];
    LittleEndian::write_u64(&mut bytes, n);
    push_run(out, &bytes);
}

fn push_byte(out: &mut Vec<u8>, byte: u8)
    requires room { vec_len out.old + 1 ≤ vec_capacity out.old }
    ensures written { out.new.items ≡ out.old.items ++ byte ∷ [] }
    ensures len { vec_len out.new ≡ vec_len out.old + 1 }
    ensures capacity { vec_capacity out.old ≤ vec_capacity out.new }
{
    out.push(byte).unwrap();
}

fn push_run(out: &mut Vec<u8>, bytes: &[u8])
    requires room { vec_len out.old + length bytes.now ≤ vec_capacity out.old }
    ensures written { out.new.items ≡ out.old.items ++ bytes.now }
    ensures len { vec_len out.new ≡ vec_len out.old + length bytes.now }
    ensures capacity { vec_capacity out.old ≤ vec_capacity out.new }
{
    out.extend_from_slice(bytes).unwrap();
}
