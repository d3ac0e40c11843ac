ghost use Rattle.std.specs.Prelude.{◌≡◌, ◌≤◌, ◌+◌, ◌-◌, ◌*◌, ◌/◌, ◌^◌, ℕ, ◌++◌, ◌∷◌, List, [], ◌||◌, ◌&&◌, nat_eq, nat_le, min, OnErr, OnOk, length, ◌<◌};
ghost use Rattle.std.specs.List.{range_with_len};
ghost use Rattle.std.specs.Set.{is_member};
ghost use Rattle.std.specs.BTreeSet.{contains};
ghost use Rattle.std.specs.Ordering.{nat_cmp};
ghost use Rattle.posix_calls.specs.declared.limits.TheConstants.{UNIT_BYTES};
ghost use Rattle.graph_change.specs.file_graph.declared.effect.Effect.{Effect};
ghost use Rattle.graph_change.specs.file_graph.Graph.{subjects};
ghost use Rattle.graph_change.specs.Change.{span};
ghost use Rattle.coalescer.specs.Weight.{fits_chunk, entry_weight, file_blocks, last_block, blocks_at, same_block};
ghost use Rattle.coalescer.specs.EffectCounts.{Weighs, block_cmp};

use graph_change::in_file_graph::Effect;
use log_record::Record;
use posix_calls::UNIT_BYTES;
use std::alloc::{AllocError, Global};
use std::collections::BTreeSet;

/// The most images of a batch that the nodes of one run of records take, with the mark.
pub const CHUNK_IMAGES: usize = 256;

/// The most blocks of files that one run of records writes.
pub const CHUNK_BLOCKS: usize = 512;

/// The images that a changed entry of a directory takes, and the two entries of a Swap together.
pub const ENTRY_WEIGHT: usize = 2;

/// The images that an effect on the bytes of a file takes, besides those of its inode.
pub const DATA_WEIGHT: usize = 0;

/// What weighs in some effects.
#[derive(Drop)]
pub struct Weight {
    inodes: BTreeSet<u32>,
    // Summed up to `CHUNK_IMAGES`: as many never fit.
    entries: usize,
    blocks: BTreeSet<(u32, u64)>,
}

impl Weight {
    /// That of no effects.
    pub fn new(alloc: Global) -> Self
        ensures { Weighs [] result }
    {
        Weight {
            inodes: BTreeSet::new(alloc),
            entries: 0,
            blocks: BTreeSet::new(alloc),
        }
    }

    /// With the effects of a record behind the others.
    pub fn add(&mut self, logged: &Record) -> Result<(), AllocError>
        ensures exact { OnOk result ((es : List Effect) → Weighs es self.old → Weighs (es ++ logged.now.effects) self.new) }
        ensures memory { OnErr result (0 < length logged.now.effects) }
    {
        for effect in logged.effects.as_slice() {
            self.add_effect(effect)?;
        }
        Ok(())
    }

    fn add_effect(&mut self, effect: &Effect) -> Result<(), AllocError>
        ensures { OnOk result ((es : List Effect) → Weighs es self.old → Weighs (es ++ effect.now ∷ []) self.new) }
    {
        add_inodes(&mut self.inodes, effect)?;
        self.entries = with_weight(self.entries, entry_weight(effect));
        add_file_blocks(&mut self.blocks, effect)
    }

    /// Whether it is no more than is taken at once.
    pub fn fits(&self) -> bool
        ensures { (es : List Effect) → Weighs es self.now → result ≡ fits_chunk es }
    {
        are_few(self.inodes.len(), self.entries, self.blocks.len())
    }
}

/// Adds a weight in images to a sum of such; at `CHUNK_IMAGES` the sum stays.
pub fn with_weight(sum: usize, weight: usize) -> usize
    ensures { result ≡ min (sum + weight) CHUNK_IMAGES }
{
    sum.saturating_add(weight).min(CHUNK_IMAGES)
}

/// Answers whether 4 images an inode, those of the entries and one mark are at most `CHUNK_IMAGES`, and the blocks at most
/// `CHUNK_BLOCKS`.
pub fn are_few(inodes: usize, entries: usize, blocks: usize) -> bool
    ensures { result ≡ (nat_le (4 * inodes + entries + 1) CHUNK_IMAGES && nat_le blocks CHUNK_BLOCKS) }
{
    inodes < CHUNK_IMAGES
        && entries < CHUNK_IMAGES
        && 4 * inodes + entries + 1 <= CHUNK_IMAGES
        && blocks <= CHUNK_BLOCKS
}

/// How many images an effect takes besides those of its inodes.
pub fn entry_weight(effect: &Effect) -> usize
    ensures { result ≡ entry_weight effect.now }
{
    match effect {
        Effect::Enter { .. } | Effect::Leave { .. } | Effect::Swap { .. } => ENTRY_WEIGHT,
        Effect::Size { .. } | Effect::Bytes { .. } => DATA_WEIGHT,
        Effect::Make { .. } | Effect::Names { .. } | Effect::Drop { .. } => 0,
    }
}

/// Adds the inodes that an effect is on, one or two.
pub fn add_inodes(inodes: &mut BTreeSet<u32>, effect: &Effect) -> Result<(), AllocError>
    ensures { OnOk result ((q : ℕ) → contains nat_cmp inodes.new q ≡ (contains nat_cmp inodes.old q || is_member nat_eq (subjects effect.now) q)) }
{
    let (inode, other) = effect.subjects();
    inodes.insert(inode)?;
    match other {
        Some(second) => {
            inodes.insert(second)?;
            Ok(())
        }
        None => Ok(()),
    }
}

// Adds the blocks that an effect writes, or cuts within.
fn add_file_blocks(blocks: &mut BTreeSet<(u32, u64)>, effect: &Effect) -> Result<(), AllocError>
    ensures { OnOk result ((q : ℕ × ℕ) → contains block_cmp blocks.new q ≡ (contains block_cmp blocks.old q || is_member same_block (file_blocks effect.now) q)) }
{
    match effect {
        Effect::Size { inode, size } => add_last(blocks, *inode, *size),
        Effect::Bytes { inode, at, bytes } => add_span(blocks, *inode, *at, bytes.len() as u64),
        _ => Ok(()),
    }
}

// Adds the block within which a size ends.
fn add_last(blocks: &mut BTreeSet<(u32, u64)>, inode: u32, size: u64) -> Result<(), AllocError>
    ensures { OnOk result ((q : ℕ × ℕ) → contains block_cmp blocks.new q ≡ (contains block_cmp blocks.old q || is_member same_block (last_block inode size) q)) }
{
    if size % UNIT_BYTES as u64 != 0 {
        blocks.insert((inode, size / UNIT_BYTES as u64))?;
    }
    Ok(())
}

// Adds the blocks that `count` bytes from an offset on lie in. No sum passes all numbers, also where the bytes would end past them.
fn add_span(
    blocks: &mut BTreeSet<(u32, u64)>,
    inode: u32,
    at: u64,
    count: u64,
) -> Result<(), AllocError>
    ensures { OnOk result ((q : ℕ × ℕ) → contains block_cmp blocks.new q ≡ (contains block_cmp blocks.old q || is_member same_block (blocks_at inode (span at count)) q)) }
{
    if count == 0 {
        return Ok(());
    }
    let first = at / UNIT_BYTES as u64;
    add_blocks(blocks, inode, first, last_of(at, count - 1) + 1)
}

/// Returns the number of the block in which byte `at + behind` of a file lies, also if that sum is past all `u64`.
pub fn last_of(at: u64, behind: u64) -> u64
    ensures is { result ≡ (at + behind) / UNIT_BYTES }
    ensures small { result < 2 ^ 63 }
{
    let unit = UNIT_BYTES as u64;
    at / unit + behind / unit + (at % unit + behind % unit) / unit
}

// Adds the blocks from one number up to another.
fn add_blocks(
    blocks: &mut BTreeSet<(u32, u64)>,
    inode: u32,
    first: u64,
    end: u64,
) -> Result<(), AllocError>
    requires { first ≤ end }
    ensures { OnOk result ((q : ℕ × ℕ) → contains block_cmp blocks.new q ≡ (contains block_cmp blocks.old q || is_member same_block (blocks_at inode (range_with_len first (end - first))) q)) }
{
    for block in first..end {
        blocks.insert((inode, block))?;
    }
    Ok(())
}
