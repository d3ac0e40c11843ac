// Tests of numbers that graphs, formats and records have in common.
ghost use Rattle.std.specs.Prelude.{◌≡◌};
ghost use Rattle.file_graph.specs.Numbers.{is_inode};

use posix_calls::MAX_INODE;

/// Whether a number is an inode's.
pub fn is_inode(inode: u32) -> bool
    ensures { result ≡ is_inode inode }
{
    1 <= inode && inode <= MAX_INODE
}
