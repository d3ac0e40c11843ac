// The last block of a file, behind its end.
ghost use Rattle.std.specs.Prelude.{◌≡◌, ◌≢◌, ◌<◌, true, false, drop, length, OnOk, IfErr};
ghost use Rattle.batch_journal.specs.layout.Bytes.{are_zero};
ghost use Rattle.batch_journal.specs.layout.Places.{tier_blocks};
ghost use Rattle.batch_journal.specs.layout.declared.error.What.TheVariants as what;
ghost use Rattle.batch_journal.specs.layout.declared.places.TheConstants.{BLOCK};
ghost use Rattle.tree_blocks.specs.Inode.{IsZeroFrom};
ghost use Rattle.area_reader.specs.Store.{disk, logical_block};
ghost use Rattle.area_reader.specs.Reads.{IsRoom};
ghost use Rattle.area_reader.specs.Damage.{OnDamage};
ghost use Rattle.area_reader.specs.Checks.{IsFileOfSize, HasFound, IsOnce, IsTailDamageOf};
ghost use Rattle.area_reader.specs.Looks.{Looks};
ghost use Rattle.area_reader.specs.declared.error.AreaError.TheVariants.{Damaged, Memory};

use crate::block_reads::{blank_block, read_block};
use crate::error::AreaError;
use crate::places::first_place;
use crate::tiers::InodeExtents;
use batch_journal::Journal;
use batch_journal::in_layout::{BLOCK, Geometry, What, are_zero};
use tier_device::{Media, Tier};

/// The number of a block of a tier.
pub fn block_number(geometry: &Geometry, tier: Tier, at: u64) -> u32
    requires { at < tier_blocks geometry.now tier }
    ensures { result ≡ at }
{
    // For the proof: no tier of allowed sizes has more blocks than a `u32` counts.
    let _units = geometry.units();
    at as u32
}

// Whether a block of a tier is zero from a byte on.
fn read_tail<M: Media>(
    journal: &mut Journal<M>,
    tier: Tier,
    at: u32,
    from: usize,
) -> Result<(), AreaError>
    requires from { from < BLOCK }
    requires room { IsRoom journal.old.geometry tier at }
    ensures zero { OnOk result (are_zero (drop from (disk M.Media journal.old tier at)) ≡ true) }
    ensures damaged { IfErr result (λ e. OnDamage e (λ w block. (w ≡ what.FileData) × (block ≡ at) × (length (disk M.Media journal.old tier at) ≡ BLOCK) × (are_zero (drop from (disk M.Media journal.old tier at)) ≡ false))) }
    ensures only { IfErr result (λ e. e ≢ Memory) }
    ensures looks { Looks M.Media journal.old journal.new result }
{
    let mut bytes = blank_block();
    read_block(journal, tier, at, &mut bytes)?;
    tail_of(&bytes, at, from)
}

fn tail_of(bytes: &[u8; BLOCK], at: u32, from: usize) -> Result<(), AreaError>
    requires { from < BLOCK }
    ensures zero { OnOk result (are_zero (drop from bytes.now) ≡ true) }
    ensures damaged { IfErr result (λ e. (e ≡ Damaged what.FileData at) × (length bytes.now ≡ BLOCK) × (are_zero (drop from bytes.now) ≡ false)) }
{
    if !are_zero(&bytes[from..]) {
        return Err(AreaError::Damaged {
            what: What::FileData,
            block: at,
        });
    }
    Ok(())
}

/// Whether a file is zero behind its end: of its last block, where one is, the bytes behind the end are read. `Damaged` names that block.
pub fn check_file<M: Media>(
    journal: &mut Journal<M>,
    inode: u32,
    found: &InodeExtents,
    size: u64,
) -> Result<(), AreaError>
    requires file { IsFileOfSize journal.old.geometry (disk M.Media journal.old) inode size }
    requires found { HasFound journal.old.geometry (disk M.Media journal.old) inode found.now }
    requires once { IsOnce journal.old.geometry (disk M.Media journal.old) inode }
    requires going { journal.old.failed ≡ false }
    ensures zero { OnOk result (IsZeroFrom size (logical_block journal.old.geometry (disk M.Media journal.old) inode)) }
    ensures damaged { IfErr result (λ e. OnDamage e (IsTailDamageOf journal.old.geometry (disk M.Media journal.old) inode)) }
    ensures only { IfErr result (λ e. e ≢ Memory) }
    ensures looks { Looks M.Media journal.old journal.new result }
{
    let geometry = journal.geometry();
    let rest = (size % BLOCK as u64) as usize;
    if rest == 0 {
        return Ok(());
    }
    match first_place(found, size / BLOCK as u64) {
        Some((tier, place)) => {
            let at = block_number(&geometry, tier, place);
            read_tail(journal, tier, at, rest)
        }
        None => Ok(()),
    }
}
