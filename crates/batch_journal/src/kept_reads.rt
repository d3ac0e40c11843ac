// Reads that make no device call where a block is kept.
ghost use Rattle.std.specs.Prelude.{◌≡◌, ◌≤◌, ◌+◌, ◌*◌, length, true, false, OnOk, OnErr, IfSome};
ghost use Rattle.layout.specs.Places.{Sizes, is_journaled};
ghost use Rattle.tier_device.specs.declared.media.Tier.TheVariants.{Fast};
ghost use Rattle.tier_device.specs.Media.{Rose};
ghost use Rattle.batch_journal.specs.Images.{slice};
ghost use Rattle.batch_journal.specs.Blocks.{Blocks, home, is_home, is_gate_open};
ghost use Rattle.batch_journal.specs.Volume.{HasSizes};
ghost use Rattle.batch_journal.specs.Course.{Unmoved};
ghost use Rattle.batch_journal.specs.Kept.{Shows};

use crate::calls::{Failed, fetch};
use crate::kept_blocks::KeptBlocks;
use crate::tier_reads::blank_block;
use layout::{BLOCK, Geometry};
use tier_device::{Media, Tier};

/// One read, as `fetch` makes it. A part of a block that a batch may write is taken from the block as it is kept, or else the
/// block is read whole, and kept.
pub fn fetch_kept<M: Media>(
    media: &mut M,
    kept: &mut KeptBlocks,
    geometry: &Geometry,
    tier: Tier,
    at: usize,
    out: &mut [u8],
) -> Result<(), Failed>
    requires inside { at + length out.old ≤ length (M.seen media.old tier) }
    requires sizes { HasSizes geometry.now (M.seen media.old) }
    requires closed { is_gate_open (M.seen media.old Fast) ≡ false }
    requires kept { Shows geometry.now (home (M.seen media.old Fast)) kept.old.places.items }
    ensures kept { OnOk result (Shows geometry.now (home (M.seen media.new Fast)) kept.new.places.items) }
    ensures bytes { OnOk result (out.new ≡ slice at (length out.old) (M.seen media.old tier)) }
    ensures refused { OnErr result (out.new ≡ out.old) }
    ensures unmoved { Unmoved (M.moment media.old) (M.moment media.new) (M.seen media.old) (M.seen media.new) (M.left media.old) (M.left media.new) }
    ensures faults { M.faults media.old ≤ M.faults media.new }
    ensures one_fault { M.faults media.new ≤ M.faults media.old + 1 }
    ensures quiet { OnOk result (M.faults media.new ≡ M.faults media.old) }
    ensures cause { OnErr result (Rose (M.faults media.old) (M.faults media.new)) }
{
    if kept.is_empty() {
        return fetch(media, tier, at, out);
    }
    match block_around(geometry, tier, at, out.len()) {
        Some(block) => fetch_part(media, kept, block, at - BLOCK * block as usize, out),
        None => fetch(media, tier, at, out),
    }
}

// The block that these bytes are a part of, if a batch may write it.
fn block_around(geometry: &Geometry, tier: Tier, at: usize, size: usize) -> Option<u32>
    ensures tier { IfSome result (λ block. tier ≡ Fast) }
    ensures journaled { IfSome result (λ block. is_journaled geometry.now block ≡ true) }
    ensures begins { IfSome result (λ block. 4096 * block ≤ at) }
    ensures ends { IfSome result (λ block. at + size ≤ 4096 * block + 4096) }
{
    if tier != Tier::Fast || at / BLOCK >= geometry.node_end() as usize {
        return None;
    }
    let block = (at / BLOCK) as u32;
    if !geometry.is_journaled(block) || BLOCK - at % BLOCK < size {
        return None;
    }
    Some(block)
}

// Bytes of a block from a byte of it on.
fn fetch_part<M: Media>(
    media: &mut M,
    kept: &mut KeptBlocks,
    block: u32,
    from: usize,
    out: &mut [u8],
) -> Result<(), Failed>
    requires inside { 4096 * block + 4096 ≤ length (M.seen media.old Fast) }
    requires part { from + length out.old ≤ 4096 }
    requires home { is_home block ≡ true }
    requires closed { is_gate_open (M.seen media.old Fast) ≡ false }
    ensures kept { OnOk result ((g : Sizes) → Shows g (home (M.seen media.old Fast)) kept.old.places.items → Shows g (home (M.seen media.new Fast)) kept.new.places.items) }
    ensures bytes { OnOk result ((g : Sizes) → Shows g (home (M.seen media.old Fast)) kept.old.places.items → is_journaled g block ≡ true → out.new ≡ slice from (length out.old) (home (M.seen media.old Fast) block)) }
    ensures refused { OnErr result (out.new ≡ out.old) }
    ensures unmoved { Unmoved (M.moment media.old) (M.moment media.new) (M.seen media.old) (M.seen media.new) (M.left media.old) (M.left media.new) }
    ensures faults { M.faults media.old ≤ M.faults media.new }
    ensures one_fault { M.faults media.new ≤ M.faults media.old + 1 }
    ensures quiet { OnOk result (M.faults media.new ≡ M.faults media.old) }
    ensures cause { OnErr result (Rose (M.faults media.old) (M.faults media.new)) }
{
    if copy_found(kept, block, from, out) {
        return Ok(());
    }
    let mut bytes = blank_block();
    fetch(media, Tier::Fast, BLOCK * block as usize, &mut bytes)?;
    kept.keep(block, &bytes);
    copy_part(&bytes, from, out);
    Ok(())
}

// Copies bytes of a block that is kept; whether it is.
fn copy_found(kept: &KeptBlocks, block: u32, from: usize, out: &mut [u8]) -> bool
    requires { from + length out.old ≤ 4096 }
    ensures found { result ≡ true → (g : Sizes) (blocks : Blocks) → Shows g blocks kept.now.places.items → is_journaled g block ≡ true → out.new ≡ slice from (length out.old) (blocks block) }
    ensures absent { result ≡ false → out.new ≡ out.old }
{
    match kept.find(block) {
        Some(bytes) => {
            copy_part(bytes, from, out);
            true
        }
        None => false,
    }
}

fn copy_part(bytes: &[u8], from: usize, out: &mut [u8])
    requires { from + length out.old ≤ length bytes.now }
    ensures { out.new ≡ slice from (length out.old) bytes.now }
{
    out.copy_from_slice(&bytes[from..from + out.len()]);
}
