// A directory, all its blocks.
ghost use Rattle.std.specs.Prelude.{◌≡◌, ◌≤◌, false, OnOk, IfErr};
ghost use Rattle.posix_calls.specs.declared.limits.TheConstants.{MAX_ENTRIES};
ghost use Rattle.tree_blocks.specs.Inode.{AreDirectoryBlocks};
ghost use Rattle.area_reader.specs.Store.{disk, logical_block};
ghost use Rattle.area_reader.specs.Damage.{OnDamage};
ghost use Rattle.area_reader.specs.Checks.{IsEntries, HasFound, HasPart, IsDirectoryDamageOf};
ghost use Rattle.area_reader.specs.Looks.{Looks};
ghost use Rattle.area_reader.specs.declared.error.AreaError.TheVariants.{Memory};

use crate::entries::{DirectoryPart, check_part};
use crate::error::AreaError;
use crate::names::Names;
use crate::slots::entry_blocks;
use crate::tiers::InodeExtents;
use batch_journal::Journal;
use posix_calls::MAX_INODE;
use std::alloc::Global;
use tier_device::Media;

/// Whether a directory's blocks are its entries, each in its place and of a name of its own. `Damaged` names the slot where a block is
/// missing, or the block that does not hold its part of the entries or has a name of a block before it. Each name is looked for in a sorted set of those before it;
/// `Memory` where there was none for that.
pub fn check_directory<M: Media>(
    alloc: Global,
    journal: &mut Journal<M>,
    inode: u32,
    found: &InodeExtents,
    entries: u64,
) -> Result<(), AreaError>
    requires low { 1 ≤ inode }
    requires high { inode ≤ MAX_INODE }
    requires directory { IsEntries journal.old.geometry (disk M.Media journal.old) inode entries }
    requires found { HasFound journal.old.geometry (disk M.Media journal.old) inode found.now }
    requires few { entries ≤ MAX_ENTRIES }
    requires going { journal.old.failed ≡ false }
    ensures directory { OnOk result (AreDirectoryBlocks inode entries (logical_block journal.old.geometry (disk M.Media journal.old) inode)) }
    ensures damaged { IfErr result (λ e. OnDamage e (IsDirectoryDamageOf journal.old.geometry (disk M.Media journal.old) inode)) }
    ensures memory { IfErr result (λ e. e ≡ Memory → HasPart journal.old.geometry (disk M.Media journal.old) inode) }
    ensures looks { Looks M.Media journal.old journal.new result }
{
    let mut names = Names::new(alloc);
    'parts: for number in 0..entry_blocks(entries) {
        let part = DirectoryPart {
            inode,
            found,
            entries,
            number,
        };
        check_part(alloc, journal, part, &mut names)?;
    }
    Ok(())
}
