//! Blocks of a file, as a change of its bytes makes them.

ghost use Rattle.std.specs.Prelude.{◌≡◌, ◌≤◌, ◌<◌, ◌-◌, ◌*◌, ◌++◌, ℕ, true, false, List, [], length, take, replicate, option_map};
ghost use Rattle.graph_change.specs.Bytes.{Length, length_after, IsTidy};
ghost use Rattle.graph_change.specs.Change.{Change, Patch, blank, net_of, writes_block, IsWhole};
ghost use Rattle.graph_change.specs.Tidy.{IsTidyChange};
ghost use Rattle.graph_change.specs.View.{new_length};
ghost use Rattle.layout.specs.declared.places.TheConstants.{BLOCK};
ghost use Rattle.tree_blocks.specs.Inode.{LogicalBlocks, IsZeroFrom};
ghost use Rattle.tree_blocks.specs.After.{IsFileAfter};
ghost use Rattle.tree_blocks.specs.FileBlock.{put_in, kept_length, block_after, is_cut_off, ReadSame, ReadsAfter, AreWritten};

use graph_change::{BlockChange, NodeLength};
use layout::BLOCK;

/// Makes of a block of a file what a change of the file makes of it: its bytes are zero from where the file was cut, and then those stand there that are put into it. A
/// block that no tier holds is passed as zeros.
pub fn change_block(block: &mut [u8], number: u64, len: NodeLength, put: Option<&BlockChange>)
    requires { length block.old ≡ BLOCK }
    ensures { block.new ≡ block_after (new_length len) (put_in (option_map (λ b. b.now) put.entry)) number block.old }
{
    cut_block(block, kept_length(number, len));
    match put {
        Some(change) => change.put_over(block),
        None => {}
    }
}

// How many bytes of a block are kept.
fn kept_length(number: u64, len: NodeLength) -> usize
    ensures kept { result ≡ kept_length (new_length len) number }
    ensures few { result ≤ BLOCK }
{
    let NodeLength::Cut { least, .. } = len else {
        return BLOCK;
    };
    let whole = least / BLOCK as u64;
    if number < whole {
        return BLOCK;
    }
    if whole < number {
        return 0;
    }
    (least % BLOCK as u64) as usize
}

// Writes zeros from a place on.
fn cut_block(block: &mut [u8], place: usize)
    requires { place ≤ length block.old }
    ensures { block.new ≡ take place block.old ++ replicate (length block.old - place) 0 }
{
    block[place..].fill(0);
}

/// What `change_block` makes of a buffer reads as the change makes it of the old block: where the buffer read as that, as one of zeros does where no tier held the block, or
/// where a byte is put at each place, or the block begins behind a cut: then the old block need not be read. A block that no tier held and into which nothing is put needs no block: it reads as zeros, also where the file was cut within it.
pub fn changed_blocks_read_as_after()
    ensures same { (len : Length) (patch : Patch) (k : ℕ) (old buffer : List ℕ) → ReadSame buffer old → ReadsAfter len patch k old (block_after len patch k buffer) }
    ensures zeros { ReadSame (replicate BLOCK 0) [] }
    ensures whole { (len : Length) (patch : Patch) (k : ℕ) (old buffer : List ℕ) → IsWhole patch → ReadsAfter len patch k old (block_after len patch k buffer) }
    ensures cut { (len : Length) (patch : Patch) (k : ℕ) (old buffer : List ℕ) → is_cut_off len k ≡ true → ReadsAfter len patch k old (block_after len patch k buffer) }
    ensures hole { (len : Length) (k : ℕ) → ReadsAfter len blank k [] [] }
{}

/// Where the blocks that a change has to write are written so, and all others read as they did or as zero behind a cut, the file is that after the change.
pub fn blocks_after_are_file_after()
    ensures { (c : Change) (old_size new_size : ℕ) (old new : LogicalBlocks) → IsTidy (net_of c).bytes → IsZeroFrom old_size old → new_size ≡ length_after c.length old_size → AreWritten c old new → IsFileAfter (net_of c).bytes old_size old new_size new }
{}

/// A block that a change writes, or that it leaves where it was before the end of the file, begins before the end that the file has then.
pub fn blocks_begin_before_the_end()
    ensures written { (c : Change) (old_size k : ℕ) → IsTidyChange c → writes_block c k ≡ true → BLOCK * k < length_after c.length old_size }
    ensures left { (c : Change) (old_size k : ℕ) → IsTidyChange c → is_cut_off c.length k ≡ false → BLOCK * k < old_size → BLOCK * k < length_after c.length old_size }
{}
