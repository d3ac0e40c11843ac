//! What blocks become when bytes are put into them, made before any of them changes.

ghost use Rattle.std.specs.Prelude.{◌≡◌, ℕ, ◌+◌, ◌-◌, ◌*◌, ◌/◌, ◌<◌, ◌≤◌, ◌^◌, [], length, get_or, true, Some, IfOk, nat_le, nat_lt, ◌&&◌, if◌then◌else◌};
ghost use Rattle.std.specs.FinMap as fin;
ghost use Rattle.graph_change.specs.Change.{over_patch, patch_at};
ghost use Rattle.graph_change.specs.BlockChanges.{ChangedFrom, SetFrom};
ghost use Rattle.graph_change.specs.View.{patch_of, patches_of};
ghost use Rattle.posix_calls.specs.declared.limits.TheConstants.{UNIT_BYTES};

use crate::block_change::BlockChange;
use crate::shared_part::SharedPart;
use posix_calls::{SharedBytes, UNIT_BYTES};
use std::alloc::{AllocError, Global};
use std::collections::BTreeMap;

/// Computes, in their order, the changes of blocks `first..end` of a file when bytes that lie in each of them are
/// put at offset `at`. Refused for want of memory alone.
pub fn changed_blocks(
    alloc: Global,
    blocks: &BTreeMap<u64, BlockChange>,
    at: u64,
    bytes: &SharedBytes,
    first: u64,
    end: u64,
) -> Result<Vec<BlockChange>, AllocError>
    requires some { 0 < length bytes.now }
    requires end { at + length bytes.now < 2 ^ 64 }
    requires first { first ≡ at / UNIT_BYTES }
    requires last { end ≡ (at + length bytes.now - 1) / UNIT_BYTES + 1 }
    ensures count { IfOk result (λ changed. length changed.items ≡ end - first) }
    ensures changed { IfOk result (λ changed. ChangedFrom first at bytes.now (patches_of blocks.now) changed.items) }
{
    let mut changed = Vec::new(alloc);
    for number in first..end {
        changed.push(changed_block(alloc, blocks, at, bytes, number)?)?;
    }
    Ok(changed)
}

// What one of these blocks becomes.
fn changed_block(
    alloc: Global,
    blocks: &BTreeMap<u64, BlockChange>,
    at: u64,
    bytes: &SharedBytes,
    number: u64,
) -> Result<BlockChange, AllocError>
    requires end { at + length bytes.now < 2 ^ 64 }
    requires low { at / UNIT_BYTES ≤ number }
    requires high { UNIT_BYTES * number < at + length bytes.now }
    ensures { IfOk result (λ new. (p : ℕ) → patch_of new p ≡ over_patch at bytes.now number (patch_at (patches_of blocks.now) number) p) }
{
    let start = number * UNIT_BYTES as u64;
    let place = at.saturating_sub(start) as usize;
    let from = start.saturating_sub(at) as usize;
    let count = (UNIT_BYTES as usize - place).min(bytes.len() - from);
    let part = SharedPart::of(bytes, from, count)?;
    match blocks.get(&number) {
        Some(block) => block.with(alloc, place, part),
        None => Ok(BlockChange::of(place, part)),
    }
}

/// Sets the blocks from number `first` on, each of which the map has. Takes no memory.
pub fn set_blocks(
    blocks: &mut BTreeMap<u64, BlockChange>,
    first: u64,
    mut changed: Vec<BlockChange>,
)
    requires end { first + length changed.items < 2 ^ 64 }
    requires there { (b : ℕ) → first ≤ b → b < first + length changed.items → fin.contains_key (patches_of blocks.old) b ≡ true }
    ensures { SetFrom first changed.items (patches_of blocks.old) (patches_of blocks.new) }
{
    'last: while let Some(new) = changed.pop() {
        set_block(blocks, first + changed.len() as u64, new);
    }
}

// Sets a block, which is there.
fn set_block(blocks: &mut BTreeMap<u64, BlockChange>, number: u64, new: BlockChange)
    requires { fin.contains_key (patches_of blocks.old) number ≡ true }
    ensures { patches_of blocks.new ≡ fin.insert (patches_of blocks.old) number (patch_of new) }
{
    let Some(there) = blocks.get_mut(&number) else {
        unreachable!()
    };
    *there = new;
}
