//! Which blocks of a directory a change has written.

ghost use Rattle.std.specs.Prelude.{◌≡◌, ◌≤◌, length, slice_set, true};
ghost use Rattle.tree_blocks.specs.declared.written_blocks.TheConstants.{MOST_BLOCKS};
ghost use Rattle.tree_blocks.specs.BlockMarks.{numbers_from};

use std::marker::Model;

/// The most blocks that a directory has: 3,584 entries, 56 in each.
pub const MOST_BLOCKS: usize = 64;

/// The numbers of the blocks of a directory that a change has written, rising, each once. It takes no memory.
#[derive(Drop)]
pub struct WrittenBlocks {
    numbers: [usize; MOST_BLOCKS],
    len: usize,
}

impl Model for WrittenBlocks {
    ghost use Rattle.std.specs.Prelude.{ℕ, ◌≤◌, List, take};
    ghost use Rattle.tree_blocks.specs.declared.written_blocks.TheConstants.{MOST_BLOCKS};

    ghost Value = { List ℕ };

    ghost view = { λ w. take w.len w.numbers };

    ghost invariant = { λ w. w.len ≤ MOST_BLOCKS };
}

impl WrittenBlocks {
    /// The numbers, the least one first.
    pub fn as_slice(&self) -> &[usize]
        ensures { result.now ≡ self.now }
    {
        &self.numbers[..self.len]
    }

    /// Lists the numbers of the marks that are set, of `MOST_BLOCKS` marks at most.
    pub fn from_marks(marks: &[bool]) -> Self
        requires { length marks.now ≤ MOST_BLOCKS }
        ensures { result ≡ numbers_from 0 marks.now }
    {
        let mut numbers = [0; MOST_BLOCKS];
        let mut len = 0;
        'marks: for number in 0..marks.len() {
            if marks[number] {
                numbers[len] = number;
                len += 1;
            }
        }
        WrittenBlocks { numbers, len }
    }
}

/// Sets the mark of a block; a number without a mark changes nothing.
pub fn mark(marks: &mut [bool], number: usize)
    ensures { marks.new ≡ slice_set marks.old number true }
{
    if number < marks.len() {
        marks[number] = true;
    }
}
