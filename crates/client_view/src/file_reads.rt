// What is read of a file whose blocks are kept.
ghost use Rattle.std.specs.Prelude.{◌≡◌, ◌<◌, ◌+◌, ◌-◌, ◌*◌, ◌^◌, ◌++◌, ℕ, List, true, IfOk, IfErr, IfSome, OnOk, Some, None, is_some, option_map, take};
ghost use Rattle.posix_calls.specs.Content.{range};
ghost use Rattle.posix_calls.specs.Part.{blocks_touched};
ghost use Rattle.client_plan.specs.call_effects.Blocks.{blocks_joined, range_by};
ghost use Rattle.posix_calls.specs.declared.limits.TheConstants.{UNIT_BYTES};
ghost use Rattle.client_view.specs.KnowledgeTables.{block_by, file_block};

use block_cache::Blocks;
use posix_calls::{Bytes, UNIT_BYTES};
use std::alloc::{AllocError, Global};

// How many blocks 32 bits number.
const MOST_NUMBERED: u64 = 4_294_967_296;

const UNIT: u64 = UNIT_BYTES as u64;

/// So many bytes of a file from an offset on, where its size is known and all blocks that they touch are kept. Memory is wanted where they are, and else not.
pub fn read(
    alloc: Global,
    size: Option<u64>,
    blocks: &Blocks,
    inode: u32,
    at: u64,
    count: u64,
) -> Result<Option<Bytes>, AllocError>
    ensures bytes { IfOk result (λ bytes. bytes ≡ range_by (block_by size blocks.now inode) at count) }
    ensures memory { IfErr result (λ _. is_some (range_by (block_by size blocks.now inode) at count) ≡ true) }
{
    match size {
        Some(size) => read_file(alloc, blocks, SizedFile { inode, size }, at, count),
        None => Ok(read_nothing(alloc, count)),
    }
}

// A file of a known size.
#[derive(Clone, Copy)]
struct SizedFile {
    inode: u32,
    size: u64,
}

// Of what is no file no bytes are known but none.
fn read_nothing(alloc: Global, count: u64) -> Option<Bytes>
    ensures { (at : ℕ) → result ≡ range_by (λ b. None) at count }
{
    if count == 0 {
        return Some(Bytes::from_vec(Vec::new(alloc)));
    }
    None
}

fn read_file(
    alloc: Global,
    blocks: &Blocks,
    file: SizedFile,
    at: u64,
    count: u64,
) -> Result<Option<Bytes>, AllocError>
    ensures bytes { IfOk result (λ bytes. bytes ≡ range_by (file_block file.size blocks.now file.inode) at count) }
    ensures memory { IfErr result (λ _. is_some (range_by (file_block file.size blocks.now file.inode) at count) ≡ true) }
{
    let touched = blocks_touched(at, count);
    if !are_kept(blocks, file, at / UNIT, touched) {
        return Ok(None);
    }
    let mut bytes = Vec::with_capacity(alloc, count as usize)?;
    let part = Part {
        skip: at % UNIT,
        len: count,
    };
    join(&mut bytes, blocks, file, at / UNIT, touched, part)?;
    Ok(Some(Bytes::from_vec(bytes)))
}

fn blocks_touched(at: u64, count: u64) -> u64
    ensures { result ≡ blocks_touched at count }
{
    if count == 0 {
        return 0;
    }
    let last = (at as u128 + count as u128 - 1) / UNIT as u128;
    1 + last as u64 - at / UNIT
}

// A block of a file, if it is kept.
fn file_block<'a>(blocks: &'a Blocks, file: SizedFile, block: u64) -> Option<&'a [u8]>
    ensures bytes { option_map (λ b. b.now) result ≡ file_block file.size blocks.now file.inode block }
    ensures low { IfSome result (λ _. block < 2 ^ 32) }
{
    if block >= MOST_NUMBERED {
        return None;
    }
    match blocks.peek(file.inode, block as u32) {
        Some(bytes) => Some(cut(bytes, file.size.saturating_sub(UNIT * block))),
        None => None,
    }
}

fn cut(bytes: &[u8], len: u64) -> &[u8]
    ensures { result.now ≡ take len bytes.now }
{
    &bytes[..(len as usize).min(bytes.len())]
}

fn range(bytes: &[u8], at: u64, count: u64) -> &[u8]
    ensures { result.now ≡ range at count bytes.now }
{
    let rest = &bytes[(at as usize).min(bytes.len())..];
    cut(rest, count)
}

// Whether so many blocks from a first one on are kept.
fn are_kept(blocks: &Blocks, file: SizedFile, first: u64, count: u64) -> bool
    ensures { result ≡ is_some (blocks_joined (file_block file.size blocks.now file.inode) first count) }
{
    if count == 0 {
        return true;
    }
    match file_block(blocks, file, first) {
        Some(_) => are_kept(blocks, file, first + 1, count - 1),
        None => false,
    }
}

// Which bytes of some blocks are asked for: so many, behind some that are skipped.
#[derive(Clone, Copy)]
struct Part {
    skip: u64,
    len: u64,
}

impl Part {
    // What is asked for of the blocks behind one, once its part is taken.
    fn next_part(self, block: usize, taken: usize) -> Part
        ensures skip { result.skip ≡ self.skip - block }
        ensures len { result.len ≡ self.len - taken }
    {
        Part {
            skip: self.skip.saturating_sub(block as u64),
            len: self.len.saturating_sub(taken as u64),
        }
    }
}

// Puts a part of so many blocks, which are kept, behind the bytes.
fn join(
    bytes: &mut Vec<u8>,
    blocks: &Blocks,
    file: SizedFile,
    first: u64,
    count: u64,
    part: Part,
) -> Result<(), AllocError>
    ensures { OnOk result ((joined : List ℕ) → blocks_joined (file_block file.size blocks.now file.inode) first count ≡ Some joined → bytes.new.items ≡ bytes.old.items ++ range part.skip part.len joined) }
{
    if count == 0 {
        return Ok(());
    }
    match file_block(blocks, file, first) {
        Some(block) => {
            let taken = range(block, part.skip, part.len);
            bytes.extend_from_slice(taken)?;
            let rest = part.next_part(block.len(), taken.len());
            join(bytes, blocks, file, first + 1, count - 1, rest)
        }
        None => Ok(()),
    }
}
