// Blocks as they are read.
ghost use Rattle.std.specs.Prelude.{◌≡◌, ◌≤◌, ◌<◌, ◌+◌, ◌*◌, true, length, OnOk, OnErr, IfErr};
ghost use Rattle.tier_device.specs.declared.media.Tier.TheVariants.{Fast};
ghost use Rattle.batch_journal.specs.layout.declared.places.TheConstants.{BLOCK, SLOT_SIZE};
ghost use Rattle.batch_journal.specs.layout.Places.{tier_blocks};
ghost use Rattle.batch_journal.specs.Blocks.{home, block_of, is_home};
ghost use Rattle.area_reader.specs.Store.{disk, slot_bytes};
ghost use Rattle.area_reader.specs.Looks.{Looks};
ghost use Rattle.area_reader.specs.declared.error.AreaError.TheVariants.{DeviceFault};

use crate::error::AreaError;
use batch_journal::Journal;
use batch_journal::in_layout::{BLOCK, SLOT_SIZE, slot_block, slot_byte};
use posix_calls::MAX_INODE;
use tier_device::{Media, Tier};

/// A block's worth of bytes, to read into.
pub fn blank_block() -> [u8; BLOCK] {
    [0; BLOCK]
}

/// A block of a tier; of the fast one none of the journal's own.
pub fn read_block<M: Media>(
    journal: &mut Journal<M>,
    tier: Tier,
    block: u32,
    out: &mut [u8],
) -> Result<(), AreaError>
    requires size { length out.old ≡ BLOCK }
    requires inside { block < tier_blocks journal.old.geometry tier }
    requires home { tier ≡ Fast → is_home block ≡ true }
    ensures bytes { OnOk result (out.new ≡ disk M.Media journal.old tier block) }
    ensures refused { OnErr result (out.new ≡ out.old) }
    ensures looks { Looks M.Media journal.old journal.new result }
    ensures only { IfErr result (λ e. e ≡ DeviceFault) }
{
    match tier {
        Tier::Fast => read_home(journal, block, out),
        Tier::Block => read_data(journal, tier, block, out),
        Tier::Slow => read_data(journal, tier, block, out),
    }
}

// A block of the fast tier.
fn read_home<M: Media>(
    journal: &mut Journal<M>,
    block: u32,
    out: &mut [u8],
) -> Result<(), AreaError>
    requires size { length out.old ≡ BLOCK }
    requires inside { block < tier_blocks journal.old.geometry Fast }
    requires home { is_home block ≡ true }
    ensures bytes { OnOk result (out.new ≡ home (M.seen journal.old.media Fast) block) }
    ensures refused { OnErr result (out.new ≡ out.old) }
    ensures looks { Looks M.Media journal.old journal.new result }
    ensures only { IfErr result (λ e. e ≡ DeviceFault) }
{
    match journal.image(block, out) {
        Ok(()) => Ok(()),
        Err(_) => Err(AreaError::DeviceFault),
    }
}

// A block of a tier as its bytes stand.
fn read_data<M: Media>(
    journal: &mut Journal<M>,
    tier: Tier,
    block: u32,
    out: &mut [u8],
) -> Result<(), AreaError>
    requires size { length out.old ≡ BLOCK }
    requires inside { block < tier_blocks journal.old.geometry tier }
    ensures bytes { OnOk result (out.new ≡ block_of (M.seen journal.old.media tier) block) }
    ensures refused { OnErr result (out.new ≡ out.old) }
    ensures looks { Looks M.Media journal.old journal.new result }
    ensures only { IfErr result (λ e. e ≡ DeviceFault) }
{
    match journal.read(tier, BLOCK * block as usize, out) {
        Ok(()) => Ok(()),
        Err(_) => Err(AreaError::DeviceFault),
    }
}

/// The bytes of an inode's slot.
pub fn read_slot_bytes<M: Media>(
    journal: &mut Journal<M>,
    inode: u32,
    out: &mut [u8],
) -> Result<(), AreaError>
    requires size { length out.old ≡ SLOT_SIZE }
    requires low { 1 ≤ inode }
    requires high { inode ≤ MAX_INODE }
    ensures bytes { OnOk result (out.new ≡ slot_bytes (disk M.Media journal.old) inode) }
    ensures refused { OnErr result (out.new ≡ out.old) }
    ensures looks { Looks M.Media journal.old journal.new result }
    ensures only { IfErr result (λ e. e ≡ DeviceFault) }
{
    let at = BLOCK * slot_block(inode) as usize + slot_byte(inode);
    match journal.read(Tier::Fast, at, out) {
        Ok(()) => Ok(()),
        Err(_) => Err(AreaError::DeviceFault),
    }
}
