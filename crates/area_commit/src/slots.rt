// The slots of some inodes, and the blocks that they stand in.
ghost use Rattle.std.specs.Prelude.{◌≡◌, ◌≤◌, ◌+◌, ◌-◌, ◌*◌, ℕ, length, take, drop};
ghost use Rattle.area_reader.specs.layout.declared.places.TheConstants.{BLOCK, SLOTS_IN_BLOCK};
ghost use Rattle.area_commit.specs.Slots.{RiseIn, with_slot, with_slots};

use area_reader::in_layout::{SLOT_SIZE, SLOTS_IN_BLOCK, Slot, slot_byte};

/// What the slot of an inode is to tell.
#[derive(Clone, Copy, PartialEq, Eq)]
pub struct ChangedSlot {
    pub inode: u32,
    pub slot: Slot,
}

/// How many slots at the front stand in this block or in one before it.
pub fn count_up_to(slots: &[ChangedSlot], block: u32) -> usize
    requires { block ≤ 32 }
    ensures within { result ≤ length slots.now }
    ensures front { (first last : ℕ) → RiseIn first last slots.now → RiseIn first (SLOTS_IN_BLOCK * block) (take result slots.now) }
    ensures rest { (first last : ℕ) → RiseIn first last slots.now → RiseIn (SLOTS_IN_BLOCK * block + 1) last (drop result slots.now) }
{
    let last = SLOTS_IN_BLOCK * block;
    let mut count = 0;
    'slots: while count < slots.len() && slots[count].inode <= last {
        count += 1;
    }
    count
}

/// Writes slots over the block that they stand in.
pub fn put_slots(block: u32, slots: &[ChangedSlot], bytes: &mut [u8])
    requires some { 1 ≤ block }
    requires few { block ≤ 32 }
    requires inside { RiseIn (SLOTS_IN_BLOCK * (block - 1) + 1) (SLOTS_IN_BLOCK * block) slots.now }
    requires long { length bytes.old ≡ BLOCK }
    ensures put { bytes.new ≡ with_slots block slots.now bytes.old }
{
    'slots: for at in 0..slots.len() {
        put_slot(slots[at], bytes);
    }
}

// Writes a slot over its block.
fn put_slot(changed: ChangedSlot, bytes: &mut [u8])
    requires low { 1 ≤ changed.inode }
    requires high { changed.inode ≤ 1024 }
    requires long { length bytes.old ≡ BLOCK }
    ensures put { bytes.new ≡ with_slot changed bytes.old }
    ensures long { length bytes.new ≡ BLOCK }
{
    let at = slot_byte(changed.inode);
    changed.slot.encode(&mut bytes[at..at + SLOT_SIZE]);
}
