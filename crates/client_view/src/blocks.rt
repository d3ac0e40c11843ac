ghost use Rattle.std.specs.Prelude.{◌≡◌, ◌+◌, ◌-◌, ◌*◌, ◌≤◌, ◌++◌, ℕ, List, Option, min, max, length, take, drop, replicate, option_map, if◌then◌else◌};
ghost use Rattle.std.specs.Option.{ForSome};
ghost use Rattle.posix_calls.specs.Content.{with_length, with_bytes};
ghost use Rattle.posix_calls.specs.declared.limits.TheConstants.{UNIT_BYTES};
ghost use Rattle.client_plan.specs.file_graph.Graph.{is_among, subjects};
ghost use Rattle.client_plan.specs.file_graph.declared.effect.Effect.TheVariants as variants;
ghost use Rattle.client_plan.specs.call_effects.Blocks.{block_acted, block_after, block_resized, block_written};

use client_plan::in_file_graph::{Effect, Kind};
use posix_calls::UNIT_BYTES;

const UNIT: u64 = UNIT_BYTES as u64;

/// Lays effects over a block of a file, in place: it stands at the front of a buffer of 4,096 bytes, and its length is known before and
/// after, `None` where nothing is known of it, as of a file that was dropped. The block has the bytes that the file has there, so it is short where the file ends in it, and empty behind the end. It takes no memory.
pub fn take_effects(
    effects: &[Effect],
    inode: u32,
    block: u32,
    buffer: &mut [u8],
    len: Option<usize>,
) -> Option<usize>
    requires whole { length buffer.old ≡ UNIT_BYTES }
    requires within { ForSome len (λ n. n ≤ UNIT_BYTES) }
    ensures laid { option_map (λ n. take n buffer.new) result ≡ block_after effects.now inode block (option_map (λ n. take n buffer.old) len) }
    ensures within { ForSome result (λ n. n ≤ UNIT_BYTES) }
{
    let mut laid = len;
    for effect in effects {
        laid = take_effect(effect, inode, block, buffer, laid);
    }
    laid
}

fn take_effect(
    effect: &Effect,
    inode: u32,
    block: u32,
    buffer: &mut [u8],
    len: Option<usize>,
) -> Option<usize>
    requires whole { length buffer.old ≡ UNIT_BYTES }
    requires within { ForSome len (λ n. n ≤ UNIT_BYTES) }
    ensures laid { option_map (λ n. take n buffer.new) result ≡ (if is_among inode (subjects effect.now) then block_acted effect.now block (option_map (λ n. take n buffer.old) len) else option_map (λ n. take n buffer.old) len) }
    ensures within { ForSome result (λ n. n ≤ UNIT_BYTES) }
{
    if is_on(effect, inode) {
        return act(effect, block, buffer, len);
    }
    len
}

// Whether an effect is on an inode.
fn is_on(effect: &Effect, inode: u32) -> bool
    ensures { result ≡ is_among inode (subjects effect.now) }
{
    let (first, second) = effect.subjects();
    match second {
        None => first == inode,
        Some(other) => first == inode || other == inode,
    }
}

// What an effect on a file makes of one of its blocks.
fn act(effect: &Effect, block: u32, buffer: &mut [u8], len: Option<usize>) -> Option<usize>
    requires whole { length buffer.old ≡ UNIT_BYTES }
    requires within { ForSome len (λ n. n ≤ UNIT_BYTES) }
    ensures acted { option_map (λ n. take n buffer.new) result ≡ block_acted effect.now block (option_map (λ n. take n buffer.old) len) }
    ensures within { ForSome result (λ n. n ≤ UNIT_BYTES) }
{
    match effect {
        Effect::Make { kind, .. } => new_len(*kind),
        Effect::Enter { .. } => len,
        Effect::Leave { .. } => len,
        Effect::Names { .. } => len,
        Effect::Size { size, .. } => resize_known(buffer, len, *size, block),
        Effect::Bytes { at, bytes, .. } => write_known(buffer, len, *at, bytes.as_slice(), block),
        Effect::Drop { .. } => None,
        Effect::Swap { .. } => len,
    }
}

// A new file has no bytes, and a directory no block.
fn new_len(kind: Kind) -> Option<usize>
    ensures made { (i b : ℕ) (old : Option (List ℕ)) (bytes : List ℕ) → option_map (λ n. take n bytes) result ≡ block_acted (variants.Make i kind) b old }
    ensures within { ForSome result (λ n. n ≤ UNIT_BYTES) }
{
    match kind {
        Kind::File => Some(0),
        Kind::Directory => None,
    }
}

// ---- a block that is known, as its file is cut or grown, or written

fn resize_known(buffer: &mut [u8], len: Option<usize>, size: u64, block: u32) -> Option<usize>
    requires whole { length buffer.old ≡ UNIT_BYTES }
    requires within { ForSome len (λ n. n ≤ UNIT_BYTES) }
    ensures resized { option_map (λ n. take n buffer.new) result ≡ option_map (block_resized size block) (option_map (λ n. take n buffer.old) len) }
    ensures within { ForSome result (λ n. n ≤ UNIT_BYTES) }
{
    match len {
        Some(len) => Some(resize(buffer, len, size, block)),
        None => None,
    }
}

fn write_known(
    buffer: &mut [u8],
    len: Option<usize>,
    at: u64,
    bytes: &[u8],
    block: u32,
) -> Option<usize>
    requires whole { length buffer.old ≡ UNIT_BYTES }
    requires within { ForSome len (λ n. n ≤ UNIT_BYTES) }
    ensures written { option_map (λ n. take n buffer.new) result ≡ option_map (block_written at bytes.now block) (option_map (λ n. take n buffer.old) len) }
    ensures within { ForSome result (λ n. n ≤ UNIT_BYTES) }
{
    match len {
        Some(len) => Some(write(buffer, len, at, bytes, block)),
        None => None,
    }
}

fn resize(buffer: &mut [u8], len: usize, size: u64, block: u32) -> usize
    requires whole { length buffer.old ≡ UNIT_BYTES }
    requires within { len ≤ UNIT_BYTES }
    ensures resized { take result buffer.new ≡ block_resized size block (take len buffer.old) }
    ensures within { result ≤ UNIT_BYTES }
{
    let end = at_most_a_block(size.saturating_sub(UNIT * block as u64));
    cut_or_grow(buffer, len, end);
    end
}

fn write(buffer: &mut [u8], len: usize, at: u64, bytes: &[u8], block: u32) -> usize
    requires whole { length buffer.old ≡ UNIT_BYTES }
    requires within { len ≤ UNIT_BYTES }
    ensures written { take result buffer.new ≡ block_written at bytes.now block (take len buffer.old) }
    ensures within { result ≤ UNIT_BYTES }
{
    let start = UNIT * block as u64;
    put_part(
        buffer,
        len,
        at.saturating_sub(start),
        start.saturating_sub(at),
        bytes,
    )
}

fn at_most_a_block(count: u64) -> usize
    ensures { result ≡ min UNIT_BYTES count }
{
    count.min(UNIT) as usize
}

// ---- the front of a buffer

// Puts bytes behind some that are passed over at an offset, as far as the block goes.
fn put_part(buffer: &mut [u8], len: usize, offset: u64, skipped: u64, bytes: &[u8]) -> usize
    requires whole { length buffer.old ≡ UNIT_BYTES }
    requires within { len ≤ UNIT_BYTES }
    ensures written { take result buffer.new ≡ take UNIT_BYTES (with_bytes offset (drop skipped bytes.now) (take len buffer.old)) }
    ensures within { result ≤ UNIT_BYTES }
{
    let at = at_most_a_block(offset);
    let part = cut(skip(bytes, skipped), UNIT_BYTES as usize - at);
    put(buffer, len, at, part)
}

fn skip(bytes: &[u8], count: u64) -> &[u8]
    ensures { result.now ≡ drop count bytes.now }
{
    &bytes[(count as usize).min(bytes.len())..]
}

fn cut(bytes: &[u8], len: usize) -> &[u8]
    ensures cut { result.now ≡ take len bytes.now }
    ensures within { length result.now ≤ len }
{
    &bytes[..len.min(bytes.len())]
}

// Puts bytes at an offset over the first `len` ones or behind them; a gap reads as zero.
fn put(buffer: &mut [u8], len: usize, offset: usize, bytes: &[u8]) -> usize
    requires room { offset + length bytes.now ≤ length buffer.old }
    requires within { len ≤ length buffer.old }
    ensures written { take result buffer.new ≡ with_bytes offset bytes.now (take len buffer.old) }
    ensures within { result ≤ length buffer.old }
{
    grow(buffer, len, offset);
    overwrite(buffer, offset, bytes);
    len.max(offset + bytes.len())
}

fn cut_or_grow(buffer: &mut [u8], len: usize, end: usize)
    requires end { end ≤ length buffer.old }
    requires within { len ≤ length buffer.old }
    ensures { take end buffer.new ≡ with_length end (take len buffer.old) }
{
    grow(buffer, len, end);
}

// Zeros from a length on up to an end, where that is behind it.
fn grow(buffer: &mut [u8], len: usize, end: usize)
    requires end { end ≤ length buffer.old }
    requires within { len ≤ length buffer.old }
    ensures { take (max len end) buffer.new ≡ take len buffer.old ++ replicate (end - len) 0 }
{
    if len < end {
        fill(buffer, len, end);
    }
}

fn fill(buffer: &mut [u8], start: usize, end: usize)
    requires order { start ≤ end }
    requires end { end ≤ length buffer.old }
    ensures { buffer.new ≡ take start buffer.old ++ replicate (end - start) 0 ++ drop end buffer.old }
{
    buffer[start..end].fill(0);
}

fn overwrite(buffer: &mut [u8], at: usize, bytes: &[u8])
    requires { at + length bytes.now ≤ length buffer.old }
    ensures { buffer.new ≡ take at buffer.old ++ bytes.now ++ drop (at + length bytes.now) buffer.old }
{
    buffer[at..at + bytes.len()].copy_from_slice(bytes);
}
