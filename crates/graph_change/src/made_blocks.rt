//! Blocks that are made before bytes are put into them, all or none.

ghost use Rattle.std.specs.Prelude.{◌≡◌, ◌≢◌, ◌≤◌, ◌-◌, ℕ, [], true, false, None, OnOk, OnErr, nat_eq, if◌then◌else◌};
ghost use Rattle.std.specs.List.{range_with_len, list_any};
ghost use Rattle.std.specs.FinMap as fin;
ghost use Rattle.graph_change.specs.Change.{Patches, patch_at};
ghost use Rattle.graph_change.specs.Memory.{lacks_one, AddsBlanks, HasMade};
ghost use Rattle.graph_change.specs.View.{patches_of};

use crate::block_change::BlockChange;
use std::alloc::{AllocError, Global};
use std::collections::BTreeMap;

/// Adds an empty change for each block of `first..end` that the map has not. Refused for want of memory alone, with
/// the map as it was; never if it has all of them.
pub fn make_blocks(
    alloc: Global,
    blocks: &mut BTreeMap<u64, BlockChange>,
    first: u64,
    end: u64,
) -> Result<(), AllocError>
    requires { first ≤ end }
    ensures made { OnOk result (AddsBlanks (range_with_len first (end - first)) (patches_of blocks.old) (patches_of blocks.new)) }
    ensures refused { OnErr result (patches_of blocks.new ≡ patches_of blocks.old) }
    ensures memory { OnErr result (lacks_one (range_with_len first (end - first)) (patches_of blocks.old) ≡ true) }
{
    let mut made = Vec::new(alloc);
    match make_each(blocks, &mut made, first, end) {
        Ok(()) => Ok(()),
        Err(error) => {
            drop_blocks(blocks, &made);
            Err(error)
        }
    }
}

// Makes the blocks one after the other, and keeps the numbers of those that were not there.
fn make_each(
    blocks: &mut BTreeMap<u64, BlockChange>,
    made: &mut Vec<u64>,
    first: u64,
    end: u64,
) -> Result<(), AllocError>
    requires order { first ≤ end }
    requires none { made.old.items ≡ [] }
    ensures blanks { OnOk result (AddsBlanks (range_with_len first (end - first)) (patches_of blocks.old) (patches_of blocks.new)) }
    ensures made { HasMade made.new.items (patches_of blocks.old) (patches_of blocks.new) }
    ensures memory { OnErr result (lacks_one (range_with_len first (end - first)) (patches_of blocks.old) ≡ true) }
{
    for number in first..end {
        make_block(blocks, made, number)?;
    }
    Ok(())
}

// Makes a block if it is not there, and keeps its number then.
fn make_block(
    blocks: &mut BTreeMap<u64, BlockChange>,
    made: &mut Vec<u64>,
    number: u64,
) -> Result<(), AllocError>
    ensures there { OnOk result (fin.contains_key (patches_of blocks.new) number ≡ true) }
    ensures patches { (b : ℕ) → patch_at (patches_of blocks.new) b ≡ patch_at (patches_of blocks.old) b }
    ensures others { (b : ℕ) → b ≢ number → fin.get (patches_of blocks.new) b ≡ fin.get (patches_of blocks.old) b }
    ensures made { (old : Patches) → HasMade made.old.items old (patches_of blocks.old) → HasMade made.new.items old (patches_of blocks.new) }
    ensures memory { OnErr result (fin.contains_key (patches_of blocks.old) number ≡ false) }
{
    if blocks.contains_key(&number) {
        return Ok(());
    }
    made.push(number)?;
    blocks.insert(number, BlockChange::new())?;
    Ok(())
}

// Drops the blocks of these numbers.
fn drop_blocks(blocks: &mut BTreeMap<u64, BlockChange>, numbers: &[u64])
    ensures { (b : ℕ) → fin.get (patches_of blocks.new) b ≡ (if list_any (nat_eq b) numbers.now then None else fin.get (patches_of blocks.old) b) }
{
    'numbers: for at in 0..numbers.len() {
        let _ = blocks.remove(&numbers[at]);
    }
}
