// A medium is opened: an open journal is replayed, and the superblock tells the geometry.
ghost use Rattle.std.specs.Prelude.{◌≡◌, ◌≤◌, length, true, IfOk, IfErr};
ghost use Rattle.tier_device.specs.declared.media.Tier.TheVariants.{Fast};
ghost use Rattle.tier_device.specs.AfterStop.{AtRest};
ghost use Rattle.layout.specs.Bytes.{are_zero};
ghost use Rattle.batch_journal.specs.Images.{image_count};
ghost use Rattle.batch_journal.specs.Blocks.{area_of, is_gate_open, rest_of_gate};
ghost use Rattle.batch_journal.specs.Volume.{IsVolume};
ghost use Rattle.batch_journal.specs.Course.{Unmoved};
ghost use Rattle.batch_journal.specs.BatchReads.{CountsFaults, IsOfReading};
ghost use Rattle.batch_journal.specs.Damage.{OnJournalDamage, NamesDamage};
ghost use Rattle.batch_journal.specs.JournalOpen.{Opens};

use crate::error::JournalError;
use crate::head::is_head;
use crate::replay::{END, HEAD, replay};
use crate::tier_reads::{
    blank_block, read_gate, read_geometry, read_head, read_run, superblock_in,
};
use layout::{BLOCK, Geometry, HEAD_BLOCK, SUPER_BLOCK, What};
use std::alloc::Global;
use tier_device::{Media, Tier};

/// The geometry of a medium with an open gate, and how many images are to be replayed. It takes no memory.
fn read_volume<M: Media>(media: &mut M) -> Result<(Geometry, usize), JournalError>
    requires size { 1196032 ≤ length (M.seen media.old Fast) }
    requires opened { is_gate_open (M.seen media.old Fast) ≡ true }
    requires gate { are_zero (rest_of_gate (M.seen media.old Fast)) ≡ true }
    ensures is { IfOk result (λ x. IsVolume x.0 (M.seen media.old)) }
    ensures count { IfOk result (λ x. x.1 ≡ image_count (area_of (M.seen media.old Fast))) }
    ensures named { IfErr result (λ e. OnJournalDamage e (NamesDamage (M.seen media.old))) }
    ensures unmoved { Unmoved (M.moment media.old) (M.moment media.new) (M.seen media.old) (M.seen media.new) (M.left media.old) (M.left media.new) }
    ensures faults { CountsFaults (M.faults media.old) (M.faults media.new) result }
    ensures only { IfErr result IsOfReading }
{
    let mut head = blank_block();
    let count = read_head(media, &mut head)?;
    let geometry = read_geometry(media, superblock_in(&head))?;
    if !is_head(&head, count, &geometry) {
        return Err(JournalError::Damaged {
            what: What::JournalHead,
            block: HEAD_BLOCK,
        });
    }
    Ok((geometry, count))
}

/// Replays an open journal, and answers the geometry that home block 0 then tells. Nothing is written where it answers
/// `Damaged` or `Memory`; that comes only for a journal that is sound.
fn open_replayed<M: Media>(alloc: Global, media: &mut M) -> Result<Geometry, JournalError>
    requires size { 1196032 ≤ length (M.seen media.old Fast) }
    requires rest { AtRest (M.seen media.old) (M.left media.old (M.moment media.old)) Fast }
    requires opened { is_gate_open (M.seen media.old Fast) ≡ true }
    requires gate { are_zero (rest_of_gate (M.seen media.old Fast)) ≡ true }
    ensures { Opens (M.seen media.old) (M.seen media.new) (M.moment media.old) (M.moment media.new) (M.left media.old) (M.left media.new) (M.faults media.old) (M.faults media.new) result }
{
    let (geometry, count) = read_volume(media)?;
    let bytes = read_run(alloc, media, HEAD, BLOCK * count + BLOCK)?;
    replay(media, &bytes, count)?;
    Ok(geometry)
}

/// Opens a medium at rest.
pub fn open_medium<M: Media>(alloc: Global, media: &mut M) -> Result<Geometry, JournalError>
    requires { AtRest (M.seen media.old) (M.left media.old (M.moment media.old)) Fast }
    ensures { Opens (M.seen media.old) (M.seen media.new) (M.moment media.old) (M.moment media.new) (M.left media.old) (M.left media.new) (M.faults media.old) (M.faults media.new) result }
{
    if media.size(Tier::Fast) < END {
        return Err(JournalError::Damaged {
            what: What::Super,
            block: SUPER_BLOCK,
        });
    }
    if read_gate(media)? {
        return open_replayed(alloc, media);
    }
    read_geometry(media, BLOCK * SUPER_BLOCK as usize)
}
