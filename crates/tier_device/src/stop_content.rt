// The content that a stop leaves, by what unfenced bytes hold after it.
ghost use Rattle.std.specs.Prelude.{◌≡◌, ◌≤◌, ◌<◌, ◌+◌, ◌-◌, ◌^◌, length, drop, IfOk, Some, slice_get, IsTrue, ◌↔◌};
ghost use Rattle.tier_device.specs.declared.record.Entry.TheVariants as entry;
ghost use Rattle.tier_device.specs.CallLog.{calls_of, call_of, len_of, total_len};
ghost use Rattle.tier_device.specs.Record.{call_content, replay_content};
ghost use Rattle.tier_device.specs.Fill.{left_bytes};
ghost use Rattle.tier_device.specs.StopContent.{range_content, spoilt, spoilt_all, stop_content, NoFenceIn};

use crate::fill::Fill;
use crate::media::{Tier, lies_within};
use crate::record::Entry;
use crate::tiers::overwrite;
use std::alloc::{AllocError, Global};

// The bytes of a tier that held `first`, after these calls and a stop.
pub(crate) fn held_after(
    alloc: Global,
    first: &[u8],
    entries: &[Entry],
    written: &[u8],
    tier: Tier,
    fill: Fill,
) -> Result<Vec<u8>, AllocError>
    requires { total_len entries.now ≤ length written.now }
    ensures { IfOk result (λ bytes. bytes.items ≡ stop_content fill tier first.now first.now (calls_of entries.now written.now)) }
{
    let mut bytes = first.to_vec(alloc)?;
    let (fenced, unfenced) = entries.split_at(fenced_calls(entries, tier));
    let used = show_all(&mut bytes, tier, fenced, written);
    let (_, rest) = written.split_at(used);
    spoil_all(&mut bytes, tier, fill, unfenced, rest);
    Ok(bytes)
}

// How many calls there are up to the last fence of the tier.
fn fenced_calls(entries: &[Entry], tier: Tier) -> usize
    ensures within { result ≤ length entries.now }
    ensures last { (0 < result) → slice_get entries.now (result - 1) ≡ Some (entry.Fence tier) }
    ensures none_later { NoFenceIn tier (drop result entries.now) }
{
    let mut fenced = entries.len();
    'calls: while fenced > 0 {
        if is_fence(&entries[fenced - 1], tier) {
            return fenced;
        }
        fenced -= 1;
    }
    0
}

fn is_fence(call: &Entry, of: Tier) -> bool
    ensures { IsTrue result ↔ (call.now ≡ entry.Fence of) }
{
    match call {
        Entry::Fence { tier } => *tier == of,
        Entry::Write { .. } => false,
    }
}

// What a read gives after these calls; answers how many of the written bytes are theirs.
fn show_all(bytes: &mut Vec<u8>, tier: Tier, entries: &[Entry], written: &[u8]) -> usize
    requires { total_len entries.now ≤ length written.now }
    ensures shown { bytes.new.items ≡ replay_content tier bytes.old.items (calls_of entries.now written.now) }
    ensures used { result ≡ total_len entries.now }
{
    let mut used = 0;
    for entry in entries {
        used += show(bytes, tier, entry, &written[used..]);
    }
    used
}

fn show(bytes: &mut Vec<u8>, tier: Tier, entry: &Entry, written: &[u8]) -> usize
    requires { len_of entry.now ≤ length written.now }
    ensures shown { bytes.new.items ≡ call_content tier bytes.old.items (call_of entry.now written.now) }
    ensures used { result ≡ len_of entry.now }
{
    match *entry {
        Entry::Fence { .. } => 0,
        Entry::Write { tier: to, at, len } => {
            if to == tier && lies_within(at, len, bytes.len()) {
                overwrite(bytes, at, &written[..len]);
            }
            len
        }
    }
}

// What these calls leave, with no fence of the tier among them.
fn spoil_all(bytes: &mut Vec<u8>, tier: Tier, fill: Fill, entries: &[Entry], written: &[u8])
    requires { total_len entries.now ≤ length written.now }
    ensures { bytes.new.items ≡ spoilt_all fill tier bytes.old.items (calls_of entries.now written.now) }
{
    let mut used = 0;
    for entry in entries {
        used += spoil(bytes, tier, fill, entry, &written[used..]);
    }
}

fn spoil(bytes: &mut Vec<u8>, tier: Tier, fill: Fill, entry: &Entry, written: &[u8]) -> usize
    requires { len_of entry.now ≤ length written.now }
    ensures spoilt { bytes.new.items ≡ spoilt fill tier bytes.old.items (call_of entry.now written.now) }
    ensures used { result ≡ len_of entry.now }
{
    match *entry {
        Entry::Fence { .. } => 0,
        Entry::Write { tier: to, at, len } => {
            if to == tier && lies_within(at, len, bytes.len()) {
                spoil_range(bytes, tier, fill, at, &written[..len]);
            }
            len
        }
    }
}

fn spoil_range(bytes: &mut Vec<u8>, tier: Tier, fill: Fill, at: usize, new: &[u8])
    requires { at + length new.now ≤ length bytes.old.items }
    ensures { bytes.new.items ≡ range_content fill tier bytes.old.items at new.now }
{
    fill_range(&mut bytes[at..at + new.len()], tier, fill, at, new);
}

fn fill_range(place: &mut [u8], tier: Tier, fill: Fill, at: usize, new: &[u8])
    requires long { length place.old ≡ length new.now }
    requires within { at + length new.now < 2 ^ 64 }
    ensures { place.new ≡ left_bytes fill tier at place.old new.now }
{
    'bytes: for i in 0..new.len() {
        place[i] = fill.choice(tier, at + i).choose(place[i], new[i]);
    }
}
