// All of one inode.
ghost use Rattle.std.specs.Prelude.{◌≡◌, ◌≤◌, ◌⊎◌, ℕ, Some, true, false, OnOk, IfOk, IfErr};
ghost use Rattle.tier_device.specs.declared.media.Tier.TheVariants as tiers;
ghost use Rattle.batch_journal.specs.layout.Slot.{fits_slot};
ghost use Rattle.tree_blocks.specs.Inode.{IsConsistent};
ghost use Rattle.area_reader.specs.Store.{disk, slot_read, inode as inode_at};
ghost use Rattle.area_reader.specs.Format.{SpellsInode};
ghost use Rattle.area_reader.specs.Damage.{OnDamage, IsDamaged};
ghost use Rattle.area_reader.specs.Looks.{Looks};
ghost use Rattle.area_reader.specs.Map.{HasAllExtents, WantsMemory};
ghost use Rattle.area_reader.specs.Checks.{HasFound, HasPart, IsOnce, IsOwnDamage};
ghost use Rattle.area_reader.specs.declared.error.AreaError.TheVariants.{Memory};

use crate::directory::check_directory;
use crate::error::AreaError;
use crate::inode::{InodeParts, read_parts};
use crate::places::mapped_twice;
use crate::slots::{length_of, root_of};
use crate::tail::check_file;
use batch_journal::Journal;
use batch_journal::in_layout::{Slot, What};
use posix_calls::MAX_INODE;
use std::alloc::Global;
use tier_device::Media;

/// The slot and the extents of an inode, where all that it has is sound: no logical block is mapped by two tiers, a file is zero behind its end, and a directory's
/// blocks are its entries. Of a file's data the last block alone is read, where the end is within it. `Damaged` names what the inode itself shows to be wrong; a block
/// that another inode has too shows only where both are known.
pub fn read_inode<M: Media>(
    alloc: Global,
    journal: &mut Journal<M>,
    inode: u32,
) -> Result<InodeParts, AreaError>
    requires low { 1 ≤ inode }
    requires high { inode ≤ MAX_INODE }
    ensures slot { IfOk result (λ x. slot_read journal.old.geometry (disk M.Media journal.old) inode ≡ Some x.slot) }
    ensures fits { IfOk result (λ x. fits_slot journal.old.geometry x.slot ≡ true) }
    ensures extents { IfOk result (λ x. HasFound journal.old.geometry (disk M.Media journal.old) inode x.extents) }
    ensures blocks { IfOk result (λ x. HasAllExtents journal.old.geometry (disk M.Media journal.old tiers.Fast) inode x.slot x.extents) }
    ensures spelled { OnOk result (SpellsInode journal.old.geometry (disk M.Media journal.old) inode) }
    ensures damaged { IfErr result (λ e. OnDamage e (IsDamaged journal.old.geometry (disk M.Media journal.old))) }
    ensures own { IfErr result (λ e. OnDamage e (IsOwnDamage journal.old.geometry (disk M.Media journal.old) inode)) }
    ensures memory { IfErr result (λ e. e ≡ Memory → WantsMemory journal.old.geometry (disk M.Media journal.old) inode ⊎ HasPart journal.old.geometry (disk M.Media journal.old) inode) }
    ensures looks { Looks M.Media journal.old journal.new result }
{
    let parts = read_parts(alloc, journal, inode)?;
    check_parts(alloc, journal, inode, &parts)?;
    Ok(parts)
}

// Whether what an inode maps is its own, each block once.
fn check_parts<M: Media>(
    alloc: Global,
    journal: &mut Journal<M>,
    inode: u32,
    parts: &InodeParts,
) -> Result<(), AreaError>
    requires low { 1 ≤ inode }
    requires high { inode ≤ MAX_INODE }
    requires slot { slot_read journal.old.geometry (disk M.Media journal.old) inode ≡ Some parts.now.slot }
    requires fits { fits_slot journal.old.geometry parts.now.slot ≡ true }
    requires found { HasFound journal.old.geometry (disk M.Media journal.old) inode parts.now.extents }
    requires going { journal.old.failed ≡ false }
    ensures spelled { OnOk result (SpellsInode journal.old.geometry (disk M.Media journal.old) inode) }
    ensures own { IfErr result (λ e. OnDamage e (IsOwnDamage journal.old.geometry (disk M.Media journal.old) inode)) }
    ensures memory { IfErr result (λ e. e ≡ Memory → HasPart journal.old.geometry (disk M.Media journal.old) inode) }
    ensures looks { Looks M.Media journal.old journal.new result }
{
    match mapped_twice(&parts.extents, length_of(&parts.slot)) {
        Some(tier) => Err(AreaError::Damaged {
            what: What::ExtentBlock,
            block: root_of(&parts.slot, tier),
        }),
        None => check_content(alloc, journal, inode, parts),
    }
}

// Whether the blocks of an inode are as its slot tells.
fn check_content<M: Media>(
    alloc: Global,
    journal: &mut Journal<M>,
    inode: u32,
    parts: &InodeParts,
) -> Result<(), AreaError>
    requires low { 1 ≤ inode }
    requires high { inode ≤ MAX_INODE }
    requires slot { slot_read journal.old.geometry (disk M.Media journal.old) inode ≡ Some parts.now.slot }
    requires fits { fits_slot journal.old.geometry parts.now.slot ≡ true }
    requires found { HasFound journal.old.geometry (disk M.Media journal.old) inode parts.now.extents }
    requires once { IsOnce journal.old.geometry (disk M.Media journal.old) inode }
    requires going { journal.old.failed ≡ false }
    ensures consistent { OnOk result (IsConsistent inode (inode_at journal.old.geometry (disk M.Media journal.old) inode)) }
    ensures own { IfErr result (λ e. OnDamage e (IsOwnDamage journal.old.geometry (disk M.Media journal.old) inode)) }
    ensures memory { IfErr result (λ e. e ≡ Memory → HasPart journal.old.geometry (disk M.Media journal.old) inode) }
    ensures looks { Looks M.Media journal.old journal.new result }
{
    match parts.slot {
        Slot::Free => Ok(()),
        Slot::File { size, .. } => check_file(journal, inode, &parts.extents, size),
        Slot::Directory { entries, .. } => {
            check_directory(alloc, journal, inode, &parts.extents, entries)
        }
    }
}
