// A directory that is changed in memory.
ghost use Rattle.std.specs.Prelude.{◌≡◌, ◌≤◌, ◌<◌, ◌+◌, length, IfOk, OnErr};
ghost use Rattle.std.specs.FinMap as fin;
ghost use Rattle.posix_calls.specs.declared.limits.TheConstants.{MAX_ENTRIES};
ghost use Rattle.area_commit.specs.graph_change.Net.{entries_after};
ghost use Rattle.area_commit.specs.graph_change.View.{change_of};
ghost use Rattle.area_commit.specs.tree_blocks.Inode.{named_entries, blocks_for};
ghost use Rattle.area_commit.specs.tree_blocks.Directory.{LeadToInodes, coming_count, most_written, numbered_entries};
ghost use Rattle.inode_plan.specs.DirectoryStart.{IsChanged};
ghost use Rattle.inode_plan.specs.Spare.{spares_for};

use crate::blocks::DirectoryBlocks;
use crate::directory_start::StartedDirectory;
use area_commit::in_graph_change::NodeChange;
use area_commit::in_layout::BLOCK;
use area_commit::in_tree_blocks::{Directory, EnterError, WrittenBlocks};
use std::alloc::AllocError;

/// A directory that is changed in memory: how many names it has, its entries in their blocks, which of these were written; and the blocks of the medium that it had before, with what
/// stands in the one that lists them.
#[derive(Drop)]
pub struct ChangedDirectory {
    pub names: u32,
    pub entries: Directory,
    pub written: WrittenBlocks,
    pub blocks: DirectoryBlocks,
    pub list: [u8; BLOCK],
}

/// The directory after a change of it, which leaves no more entries than a directory may have. An error where there was no memory for the blocks that come.
pub fn change_directory(
    start: StartedDirectory,
    change: &NodeChange,
) -> Result<ChangedDirectory, AllocError>
    requires entries { LeadToInodes (fin.entries change.now.entries) }
    requires few { fin.len (entries_after change.now.entries (named_entries (numbered_entries start.entries) start.entries.count)) ≤ MAX_ENTRIES }
    ensures changed { IfOk result (IsChanged (change_of change.now) start) }
    ensures few { IfOk result (λ x. length x.written ≤ most_written (fin.entries change.now.entries)) }
    ensures memory { OnErr result (blocks_for start.entries.count < blocks_for (start.entries.count + coming_count (fin.entries change.now.entries))) }
{
    let mut entries = start.entries;
    let list = start.list;
    match entries.change(&change.entries) {
        Ok(written) => Ok(ChangedDirectory {
            names: change.names.unwrap_or(start.names),
            entries,
            written,
            blocks: start.blocks,
            list,
        }),
        Err(EnterError::Memory) => Err(AllocError),
        Err(EnterError::Full) => unreachable!(),
    }
}

/// How many spare blocks of the node pool a changed directory wants: one for each block that comes, and one for the list of its blocks where it has none and needs it.
pub fn spares_for(changed: &ChangedDirectory) -> usize
    ensures { result ≡ spares_for changed.now }
{
    let old = changed.blocks.places.len();
    let new = changed.entries.blocks().len();
    let root = if changed.blocks.root == 0 && new != 0 {
        1
    } else {
        0
    };
    new.saturating_sub(old) + root
}
