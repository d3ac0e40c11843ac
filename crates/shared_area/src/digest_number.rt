// The number of the last digest that wrote an inode.
ghost use Rattle.std.specs.Prelude.{◌≡◌, ◌⊎◌, ℕ, Option, None, false, IfOk, IfErr};
ghost use Rattle.area_reader.specs.Store.{disk, root_of, slot, touch_of};
ghost use Rattle.area_reader.specs.Format.{IsOpenable};
ghost use Rattle.area_reader.specs.Looks.{Looks};
ghost use Rattle.area_reader.specs.declared.error.AreaError.TheVariants.{DeviceFault};
ghost use Rattle.shared_area.specs.FirstRun.{file_lies, file_place, touch_in};

use area_reader::in_batch_journal::Journal;
use area_reader::in_layout::Slot;
use area_reader::{AreaError, read_slot, root_of};
use record_validation::in_file_graph::is_inode;
use tier_device::{Media, Tier};

// The touch number that a slot tells.
fn touch_of(slot: &Slot) -> u64
    ensures { result ≡ touch_of slot.now }
{
    match *slot {
        Slot::Free => 0,
        Slot::File { touch, .. } => touch,
        Slot::Directory { touch, .. } => touch,
    }
}

/// The touch number of an inode, 0 where there is none.
pub fn find_touch<M: Media>(journal: &mut Journal<M>, inode: u32) -> Result<u64, AreaError>
    requires { journal.old.failed ≡ false → IsOpenable journal.old.geometry (disk M.Media journal.old) }
    ensures touch { IfOk result (λ t. t ≡ touch_of (slot journal.old.geometry (disk M.Media journal.old) inode)) }
    ensures only { IfErr result (λ e. e ≡ DeviceFault) }
    ensures looks { Looks M.Media journal.old journal.new result }
{
    if journal.has_failed() {
        return Err(AreaError::DeviceFault);
    }
    if !is_inode(inode) {
        return Ok(0);
    }
    let slot = read_slot(journal, inode)?;
    Ok(touch_of(&slot))
}

/// The touch number of a file whose slot names an extent block of a tier. `None` where the slot names none: then no block of a file at that inode lies there.
pub fn find_touch_in<M: Media>(
    journal: &mut Journal<M>,
    inode: u32,
    tier: Tier,
) -> Result<Option<u64>, AreaError>
    requires { journal.old.failed ≡ false → IsOpenable journal.old.geometry (disk M.Media journal.old) }
    ensures touch { IfOk result (λ x. x ≡ touch_in (slot journal.old.geometry (disk M.Media journal.old) inode) tier) }
    ensures none { IfOk result (λ x. x ≡ None → (k : ℕ) → file_lies journal.old.geometry (disk M.Media journal.old) inode tier k ≡ None) }
    ensures only { IfErr result (λ e. e ≡ DeviceFault) }
    ensures looks { Looks M.Media journal.old journal.new result }
{
    if journal.has_failed() {
        return Err(AreaError::DeviceFault);
    }
    if !is_inode(inode) {
        return Ok(None);
    }
    let slot = read_slot(journal, inode)?;
    Ok(touch_in(&slot, tier))
}

// The touch number that a file's slot tells, if it has an extent block of a tier.
fn touch_in(slot: &Slot, tier: Tier) -> Option<u64>
    ensures touch { result ≡ touch_in slot.now tier }
    ensures none { result ≡ None → (root_of slot.now tier ≡ 0) ⊎ ((at : Option ℕ) → file_place slot.now at ≡ None) }
{
    let root = root_of(slot, tier);
    match *slot {
        Slot::File { touch, .. } if root != 0 => Some(touch),
        Slot::File { .. } => None,
        Slot::Free => None,
        Slot::Directory { .. } => None,
    }
}
