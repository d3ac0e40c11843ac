// Which blocks of a file are written for a change.
ghost use Rattle.std.specs.Prelude.{◌≡◌, ◌≢◌, ◌↔◌, ◌<◌, ◌≤◌, ◌⊎◌, true, ℕ, Option, length, slice_index, IfOk, OnOk, OnErr, IsSome, IfSome, IfNone};
ghost use Rattle.std.specs.List.{Contains};
ghost use Rattle.std.specs.Ordering.{nat_cmp};
ghost use Rattle.std.specs.BTreeMap.{get};
ghost use Rattle.std.specs.FinMap as fin;
ghost use Rattle.tier_device.specs.declared.media.Tier.{Tier};
ghost use Rattle.area_commit.specs.layout.declared.places.TheConstants.{FILE_BLOCKS};
ghost use Rattle.area_commit.specs.graph_change.Change.{cuts_within};
ghost use Rattle.area_commit.specs.graph_change.View.{change_of, new_length};
ghost use Rattle.area_commit.specs.extent_tree.Map.{lies_at, LieBelow};
ghost use Rattle.area_commit.specs.InodeChange.{is_mapped, writes_over};
ghost use Rattle.inode_plan.specs.BlockWrites.{AreNumbers, AreKeys, Rise, HasOneMore};

use area_commit::in_extent_tree::BlockMap;
use area_commit::in_graph_change::{BlockChange, NodeChange, NodeLength};
use area_commit::in_layout::{BLOCK, FILE_BLOCKS};
use std::alloc::{AllocError, Global};
use std::collections::BTreeMap;

// The block within which a file is cut, if it is.
fn cut_block(len: NodeLength) -> Option<u64>
    ensures some { IfSome result (λ k. (j : ℕ) → (cuts_within (new_length len) j ≡ true) ↔ (j ≡ k)) }
    ensures none { IfNone result ((j : ℕ) → cuts_within (new_length len) j ≡ true → ⊥) }
{
    let NodeLength::Cut { least, .. } = len else {
        return None;
    };
    if least % BLOCK as u64 == 0 {
        return None;
    }
    Some(least / BLOCK as u64)
}

// The numbers of the blocks into which bytes are put.
fn put_numbers(alloc: Global, blocks: &BTreeMap<u64, BlockChange>) -> Result<Vec<u64>, AllocError>
    ensures keys { IfOk result (λ numbers. AreKeys blocks.now numbers.items) }
    ensures memory { OnErr result ((k : ℕ) × IsSome (get nat_cmp blocks.now k)) }
{
    let mut numbers = Vec::new(alloc);
    'keys: for number in blocks.keys() {
        numbers.push(*number)?;
    }
    Ok(numbers)
}

// How many of some numbers, which rise, are less than another.
fn count_below(numbers: &[u64], number: u64) -> usize
    requires { Rise numbers.now }
    ensures within { result ≤ length numbers.now }
    ensures before { (k : ℕ) → k < result → slice_index numbers.now k < number }
    ensures behind { (k : ℕ) → result ≤ k → k < length numbers.now → number ≤ slice_index numbers.now k }
{
    'each: for index in 0..numbers.len() {
        if number <= numbers[index] {
            return index;
        }
    }
    numbers.len()
}

// Puts a number among others, which rise, where it is not there.
fn add_number(numbers: &mut Vec<u64>, number: u64) -> Result<(), AllocError>
    requires { Rise numbers.old.items }
    ensures { OnOk result (HasOneMore number numbers.old.items numbers.new.items) }
{
    let at = count_below(numbers, number);
    if at < numbers.len() && numbers[at] == number {
        return Ok(());
    }
    numbers.insert(at, number)?;
    Ok(())
}

/// The block within which a change cuts a file and into which no bytes were put, if there is one: it is written exactly where it lies in
/// some tier.
pub fn cut_alone(change: &NodeChange) -> Option<u64>
    ensures some { IfSome result (λ k. (lay : Tier → ℕ → Option ℕ) → writes_over lay (change_of change.now) k ≡ is_mapped lay k) }
    ensures others { IfSome result (λ k. (lay : Tier → ℕ → Option ℕ) (j : ℕ) → j ≢ k → writes_over lay (change_of change.now) j ≡ fin.contains_key (change_of change.now).patches j) }
    ensures none { IfNone result ((lay : Tier → ℕ → Option ℕ) (j : ℕ) → writes_over lay (change_of change.now) j ≡ fin.contains_key (change_of change.now).patches j) }
{
    let Some(number) = cut_block(change.length) else {
        return None;
    };
    match change.blocks.get(&number) {
        Some(_) => None,
        None => Some(number),
    }
}

// Whether a block lies in some tier.
fn is_mapped(map: &BlockMap, number: u64) -> bool
    requires { LieBelow FILE_BLOCKS map.now }
    ensures { result ≡ is_mapped (lies_at map.now) number }
{
    if FILE_BLOCKS as u64 <= number {
        return false;
    }
    match map.at(number as u32) {
        Some(_) => true,
        None => false,
    }
}

// The block that is written for a cut alone, if there is one.
fn cut_in(change: &NodeChange, map: &BlockMap) -> Option<u64>
    requires { LieBelow FILE_BLOCKS map.now }
    ensures some { IfSome result (λ k. writes_over (lies_at map.now) (change_of change.now) k ≡ true) }
    ensures others { IfSome result (λ k. (j : ℕ) → j ≢ k → writes_over (lies_at map.now) (change_of change.now) j ≡ fin.contains_key (change_of change.now).patches j) }
    ensures none { IfNone result ((j : ℕ) → writes_over (lies_at map.now) (change_of change.now) j ≡ fin.contains_key (change_of change.now).patches j) }
{
    let Some(number) = cut_alone(change) else {
        return None;
    };
    if is_mapped(map, number) {
        return Some(number);
    }
    None
}

/// The numbers of the blocks of a file that are written for a change, rising: those into which bytes were put, and the one within which it
/// is cut, where that one lies in some tier. The map has only blocks before `FILE_BLOCKS`. Memory is wanted only where there is such a number.
pub fn written_numbers(
    alloc: Global,
    change: &NodeChange,
    map: &BlockMap,
) -> Result<Vec<u64>, AllocError>
    requires below { LieBelow FILE_BLOCKS map.now }
    ensures numbers { IfOk result (λ written. AreNumbers (lies_at map.now) (change_of change.now) written.items) }
    ensures memory { OnErr result ((k : ℕ) × (writes_over (lies_at map.now) (change_of change.now) k ≡ true)) }
{
    let mut written = put_numbers(alloc, &change.blocks)?;
    if let Some(number) = cut_in(change, map) {
        add_number(&mut written, number)?;
    }
    Ok(written)
}
