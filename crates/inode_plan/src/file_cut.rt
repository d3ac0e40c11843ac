// The blocks of a file that a change cuts off.
ghost use Rattle.std.specs.Prelude.{◌≡◌, ◌≤◌, ◌*◌, ◌-◌, ◌^◌, ◌<◌, ℕ, nat_le, OnOk};
ghost use Rattle.posix_calls.specs.declared.limits.TheConstants.{MAX_FILE};
ghost use Rattle.area_commit.specs.layout.declared.places.TheConstants.{BLOCK, FILE_BLOCKS};
ghost use Rattle.area_commit.specs.graph_change.Bytes.{IsOrdered, end};
ghost use Rattle.area_commit.specs.graph_change.View.{new_length};
ghost use Rattle.area_commit.specs.tree_blocks.FileBlock.{is_cut_off};
ghost use Rattle.inode_plan.specs.MapChange.{IsCutBy};

use area_commit::in_extent_tree::BlockMap;
use area_commit::in_graph_change::NodeLength;
use area_commit::in_layout::{BLOCK, FILE_BLOCKS};
use std::alloc::AllocError;

// How many blocks begin before an end.
fn blocks_before(end: u64) -> u64
    ensures is { (k : ℕ) → nat_le result k ≡ nat_le end (BLOCK * k) }
    ensures few { end ≤ MAX_FILE → result ≤ FILE_BLOCKS }
{
    let whole = end / BLOCK as u64;
    if end % BLOCK as u64 == 0 {
        whole
    } else {
        whole + 1
    }
}

/// Whether a block begins where a file is cut off, or behind.
pub fn is_cut_off(len: NodeLength, number: u64) -> bool
    ensures { result ≡ is_cut_off (new_length len) number }
{
    match len {
        NodeLength::Grown { .. } => false,
        NodeLength::Cut { least, .. } => blocks_before(least) <= number,
    }
}

/// The first block that is cut off; the one behind all that a file may have where none is.
pub fn first_cut(len: NodeLength) -> u32
    requires ordered { IsOrdered (new_length len) }
    requires bounded { end (new_length len) ≤ MAX_FILE }
    ensures few { result ≤ FILE_BLOCKS }
    ensures is { (k : ℕ) → k < FILE_BLOCKS → nat_le result k ≡ is_cut_off (new_length len) k }
{
    match len {
        NodeLength::Grown { .. } => FILE_BLOCKS,
        NodeLength::Cut { least, .. } => blocks_before(least) as u32,
    }
}

/// Takes the blocks out of the map of a file that a change cuts off. After want of memory nothing is said of the map.
pub fn cut_map(map: &mut BlockMap, len: NodeLength) -> Result<(), AllocError>
    requires ordered { IsOrdered (new_length len) }
    requires bounded { end (new_length len) ≤ MAX_FILE }
    ensures { OnOk result (IsCutBy (new_length len) map.old map.new) }
{
    match len {
        NodeLength::Grown { .. } => Ok(()),
        NodeLength::Cut { least, .. } => map.cut(blocks_before(least) as u32),
    }
}
