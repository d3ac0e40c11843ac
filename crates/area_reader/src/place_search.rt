// A look-up of one logical block, in the bytes of an extent block.
ghost use Rattle.std.specs.Prelude.{◌≡◌, ℕ, Some, None, false, IfOk, IfErr, IfSome, IfNone};
ghost use Rattle.tier_device.specs.declared.media.Tier.{Tier};
ghost use Rattle.tier_device.specs.declared.media.Tier.TheVariants as tiers;
ghost use Rattle.batch_journal.specs.layout.declared.geometry.Space.{Space};
ghost use Rattle.batch_journal.specs.layout.Places.{Sizes};
ghost use Rattle.batch_journal.specs.layout.Extents.{ExtentList, extents_of};
ghost use Rattle.extent_tree.specs.Places.{place_of};
ghost use Rattle.area_reader.specs.Store.{disk, slot_read, place};
ghost use Rattle.area_reader.specs.Format.{IsSpelled};
ghost use Rattle.area_reader.specs.Looks.{Looks};
ghost use Rattle.area_reader.specs.declared.error.AreaError.TheVariants.{DeviceFault};

use crate::block_reads::{blank_block, read_block};
use crate::error::AreaError;
use crate::slots::root_of;
use batch_journal::Journal;
use batch_journal::in_layout::{FILE_BLOCKS, Slot};
use extent_tree::find_extent;
use tier_device::{Media, Tier};

/// Finds where a logical block of an inode, which has this slot, lies in a tier; `None` where the tier does not map it. The media spell a graph, so the block is looked up in
/// the bytes of the tier's extent block, and nothing else of that is tested. It takes no memory. `DeviceFault` where a device has failed before or fails now.
pub fn find_place<M: Media>(
    journal: &mut Journal<M>,
    inode: u32,
    slot: &Slot,
    tier: Tier,
    block: u64,
) -> Result<Option<u64>, AreaError>
    requires slot { slot_read journal.old.geometry (disk M.Media journal.old) inode ≡ Some slot.now }
    requires spelled { journal.old.failed ≡ false → IsSpelled journal.old.geometry (disk M.Media journal.old) }
    ensures place { IfOk result (λ at. at ≡ place journal.old.geometry (disk M.Media journal.old) inode tier block) }
    ensures only { IfErr result (λ e. e ≡ DeviceFault) }
    ensures looks { Looks M.Media journal.old journal.new result }
{
    if journal.has_failed() {
        return Err(AreaError::DeviceFault);
    }
    let root = root_of(slot, tier);
    if root == 0 {
        return Ok(None);
    }
    if block >= FILE_BLOCKS as u64 {
        return Ok(None);
    }
    let mut bytes = blank_block();
    read_block(journal, Tier::Fast, root, &mut bytes)?;
    Ok(place_in_list(&bytes, block as u32))
}

/// Finds the first tier that maps a logical block of an inode, which has this slot, and the place there; `None` where none does. It takes no memory, and refuses as
/// `find_place` does.
pub fn find_first_place<M: Media>(
    journal: &mut Journal<M>,
    inode: u32,
    slot: &Slot,
    block: u64,
) -> Result<Option<(Tier, u64)>, AreaError>
    requires slot { slot_read journal.old.geometry (disk M.Media journal.old) inode ≡ Some slot.now }
    requires spelled { journal.old.failed ≡ false → IsSpelled journal.old.geometry (disk M.Media journal.old) }
    ensures some { IfOk result (λ found. IfSome found (λ x. place journal.old.geometry (disk M.Media journal.old) inode x.0 block ≡ Some x.1)) }
    ensures none { IfOk result (λ found. IfNone found ((t : Tier) → place journal.old.geometry (disk M.Media journal.old) inode t block ≡ None)) }
    ensures only { IfErr result (λ e. e ≡ DeviceFault) }
    ensures looks { Looks M.Media journal.old journal.new result }
{
    match find_place(journal, inode, slot, Tier::Fast, block)? {
        Some(at) => Ok(Some((Tier::Fast, at))),
        None => find_lower_place(journal, inode, slot, block),
    }
}

// The first of the two lower tiers that maps a block.
fn find_lower_place<M: Media>(
    journal: &mut Journal<M>,
    inode: u32,
    slot: &Slot,
    block: u64,
) -> Result<Option<(Tier, u64)>, AreaError>
    requires slot { slot_read journal.old.geometry (disk M.Media journal.old) inode ≡ Some slot.now }
    requires spelled { journal.old.failed ≡ false → IsSpelled journal.old.geometry (disk M.Media journal.old) }
    ensures some { IfOk result (λ found. IfSome found (λ x. place journal.old.geometry (disk M.Media journal.old) inode x.0 block ≡ Some x.1)) }
    ensures block { IfOk result (λ found. IfNone found (place journal.old.geometry (disk M.Media journal.old) inode tiers.Block block ≡ None)) }
    ensures slow { IfOk result (λ found. IfNone found (place journal.old.geometry (disk M.Media journal.old) inode tiers.Slow block ≡ None)) }
    ensures only { IfErr result (λ e. e ≡ DeviceFault) }
    ensures looks { Looks M.Media journal.old journal.new result }
{
    match find_place(journal, inode, slot, Tier::Block, block)? {
        Some(at) => Ok(Some((Tier::Block, at))),
        None => find_slow_place(journal, inode, slot, block),
    }
}

// The place of a block in the slow tier, with the tier.
fn find_slow_place<M: Media>(
    journal: &mut Journal<M>,
    inode: u32,
    slot: &Slot,
    block: u64,
) -> Result<Option<(Tier, u64)>, AreaError>
    requires slot { slot_read journal.old.geometry (disk M.Media journal.old) inode ≡ Some slot.now }
    requires spelled { journal.old.failed ≡ false → IsSpelled journal.old.geometry (disk M.Media journal.old) }
    ensures some { IfOk result (λ found. IfSome found (λ x. place journal.old.geometry (disk M.Media journal.old) inode x.0 block ≡ Some x.1)) }
    ensures none { IfOk result (λ found. IfNone found (place journal.old.geometry (disk M.Media journal.old) inode tiers.Slow block ≡ None)) }
    ensures only { IfErr result (λ e. e ≡ DeviceFault) }
    ensures looks { Looks M.Media journal.old journal.new result }
{
    match find_place(journal, inode, slot, Tier::Slow, block)? {
        Some(at) => Ok(Some((Tier::Slow, at))),
        None => Ok(None),
    }
}

// The place of a logical block by the bytes of an extent block.
fn place_in_list(bytes: &[u8], block: u32) -> Option<u64>
    ensures { (g : Sizes) (space : Space) (v : ExtentList) → extents_of g space bytes.now ≡ Some v → result ≡ place_of v.extents block }
{
    match find_extent(bytes, block) {
        Some(extent) => Some(extent.place as u64 + (block - extent.logical) as u64),
        None => None,
    }
}
