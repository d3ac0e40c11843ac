// Where the blocks of an inode lie.
ghost use Rattle.std.specs.Prelude.{◌≡◌, ◌≤◌, None, IsSome, false, IfOk, IfErr, IfSome, IfNone};
ghost use Rattle.tier_device.specs.declared.media.Tier.{Tier};
ghost use Rattle.area_reader.specs.Store.{disk};
ghost use Rattle.area_reader.specs.Format.{IsOpenable};
ghost use Rattle.area_reader.specs.Map.{place_by, WantsMemory};
ghost use Rattle.area_reader.specs.Looks.{Looks};
ghost use Rattle.area_reader.specs.declared.error.AreaError.TheVariants.{Memory};
ghost use Rattle.shared_area.specs.Parts.{IsNoDamage, IsTierOf, HasParts, FindsParts};

use area_reader::in_batch_journal::Journal;
use area_reader::{AreaError, InodeParts, first_place, read_parts};
use posix_calls::MAX_INODE;
use record_validation::in_file_graph::is_inode;
use std::alloc::Global;
use tier_device::{Media, Tier};

// Slot and extents of an inode.
fn sound_parts<M: Media>(
    alloc: Global,
    journal: &mut Journal<M>,
    inode: u32,
) -> Result<InodeParts, AreaError>
    requires low { 1 ≤ inode }
    requires high { inode ≤ MAX_INODE }
    requires opens { journal.old.failed ≡ false → IsOpenable journal.old.geometry (disk M.Media journal.old) }
    ensures parts { IfOk result (HasParts journal.old.geometry (disk M.Media journal.old) inode) }
    ensures only { IfErr result IsNoDamage }
    ensures memory { IfErr result (λ e. e ≡ Memory → WantsMemory journal.old.geometry (disk M.Media journal.old) inode) }
    ensures looks { Looks M.Media journal.old journal.new result }
{
    let parts = read_parts(alloc, journal, inode)?;
    Ok(parts)
}

/// Reads slot and extents of an inode; `None` for a number that is no inode's. `DeviceFault` where a device has failed before or fails now; `Memory` where there was none
/// for an extent block.
pub fn find_parts<M: Media>(
    alloc: Global,
    journal: &mut Journal<M>,
    inode: u32,
) -> Result<Option<InodeParts>, AreaError>
    requires { journal.old.failed ≡ false → IsOpenable journal.old.geometry (disk M.Media journal.old) }
    ensures parts { IfOk result (FindsParts journal.old.geometry (disk M.Media journal.old) inode) }
    ensures only { IfErr result IsNoDamage }
    ensures memory { IfErr result (λ e. e ≡ Memory → WantsMemory journal.old.geometry (disk M.Media journal.old) inode) }
    ensures looks { Looks M.Media journal.old journal.new result }
{
    if journal.has_failed() {
        return Err(AreaError::DeviceFault);
    }
    if !is_inode(inode) {
        return Ok(None);
    }
    let parts = sound_parts(alloc, journal, inode)?;
    Ok(Some(parts))
}

// The tier that maps a logical block.
fn mapping_tier(parts: &InodeParts, block: u64) -> Option<Tier>
    ensures some { IfSome result (λ t. IsSome (place_by parts.now.extents t block)) }
    ensures none { IfNone result ((t : Tier) → place_by parts.now.extents t block ≡ None) }
{
    match first_place(&parts.extents, block) {
        Some((tier, _)) => Some(tier),
        None => None,
    }
}

/// The tier that maps a logical block of an inode, if one does.
pub fn find_tier<M: Media>(
    alloc: Global,
    journal: &mut Journal<M>,
    inode: u32,
    block: u64,
) -> Result<Option<Tier>, AreaError>
    requires { journal.old.failed ≡ false → IsOpenable journal.old.geometry (disk M.Media journal.old) }
    ensures tier { IfOk result (IsTierOf journal.old.geometry (disk M.Media journal.old) inode block) }
    ensures only { IfErr result IsNoDamage }
    ensures memory { IfErr result (λ e. e ≡ Memory → WantsMemory journal.old.geometry (disk M.Media journal.old) inode) }
    ensures looks { Looks M.Media journal.old journal.new result }
{
    match find_parts(alloc, journal, inode)? {
        Some(parts) => Ok(mapping_tier(&parts, block)),
        None => Ok(None),
    }
}
