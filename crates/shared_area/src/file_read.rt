// Bytes of a file.
ghost use Rattle.std.specs.Prelude.{◌≡◌, ◌≤◌, ◌<◌, ◌+◌, ◌-◌, ◌*◌, ◌%◌, ◌^◌, ℕ, min, length, replicate, false, OnOk, OnErr, IfOk, IfErr};
ghost use Rattle.area_reader.specs.batch_journal.Images.{slice};
ghost use Rattle.area_reader.specs.layout.declared.places.TheConstants.{BLOCK};
ghost use Rattle.area_reader.specs.tree_blocks.Inode.{bytes_of_blocks};
ghost use Rattle.area_reader.specs.Store.{disk, logical_block, graph};
ghost use Rattle.area_reader.specs.Reads.{IsRoom};
ghost use Rattle.area_reader.specs.Format.{IsOpenable};
ghost use Rattle.area_reader.specs.Checks.{HasFound, IsOnce};
ghost use Rattle.area_reader.specs.Looks.{Looks};
ghost use Rattle.area_reader.specs.Map.{WantsMemory};
ghost use Rattle.area_reader.specs.declared.error.AreaError.TheVariants.{DeviceFault, Memory};
ghost use Rattle.shared_area.specs.Parts.{IsNoDamage, HasParts};
ghost use Rattle.shared_area.specs.FileReads.{ShowsBytes, IsReadUpTo, IsReadFrom, bytes_of_inode};

use crate::block_search::find_parts;
use area_reader::in_batch_journal::Journal;
use area_reader::in_layout::{BLOCK, Slot};
use area_reader::{AreaError, InodeExtents, InodeParts, block_number, first_place};
use std::alloc::Global;
use tier_device::{Media, Tier};

// A part of a block that is of a pool or for data.
fn read_part<M: Media>(
    journal: &mut Journal<M>,
    tier: Tier,
    block: u32,
    from: usize,
    out: &mut [u8],
) -> Result<(), AreaError>
    requires inside { from + length out.old ≤ BLOCK }
    requires room { IsRoom journal.old.geometry tier block }
    ensures bytes { OnOk result (out.new ≡ slice from (length out.old) (disk M.Media journal.old tier block)) }
    ensures refused { OnErr result (out.new ≡ out.old) }
    ensures only { IfErr result (λ e. e ≡ DeviceFault) }
    ensures looks { Looks M.Media journal.old journal.new result }
{
    match journal.read(tier, BLOCK * block as usize + from, out) {
        Ok(()) => Ok(()),
        Err(_) => Err(AreaError::DeviceFault),
    }
}

fn clear(out: &mut [u8])
    ensures { out.new ≡ replicate (length out.old) 0 }
{
    out.fill(0);
}

/// Bytes of one logical block, from a byte of the inode on: zeros where no tier maps it.
pub fn read_within<M: Media>(
    journal: &mut Journal<M>,
    inode: u32,
    found: &InodeExtents,
    at: u64,
    out: &mut [u8],
) -> Result<(), AreaError>
    requires inside { at % BLOCK + length out.old ≤ BLOCK }
    requires found { HasFound journal.old.geometry (disk M.Media journal.old) inode found.now }
    requires once { IsOnce journal.old.geometry (disk M.Media journal.old) inode }
    requires going { journal.old.failed ≡ false }
    ensures bytes { OnOk result (ShowsBytes (logical_block journal.old.geometry (disk M.Media journal.old) inode) at out.new) }
    ensures refused { OnErr result (out.new ≡ out.old) }
    ensures only { IfErr result (λ e. e ≡ DeviceFault) }
    ensures looks { Looks M.Media journal.old journal.new result }
{
    let geometry = journal.geometry();
    match first_place(found, at / BLOCK as u64) {
        Some((tier, place)) => {
            let block = block_number(&geometry, tier, place);
            read_part(journal, tier, block, (at % BLOCK as u64) as usize, out)
        }
        None => {
            clear(out);
            Ok(())
        }
    }
}

// Bytes of an inode, block by block.
fn read_blocks<M: Media>(
    journal: &mut Journal<M>,
    inode: u32,
    found: &InodeExtents,
    at: u64,
    out: &mut [u8],
) -> Result<(), AreaError>
    requires few { at + length out.old < 2 ^ 63 }
    requires found { HasFound journal.old.geometry (disk M.Media journal.old) inode found.now }
    requires once { IsOnce journal.old.geometry (disk M.Media journal.old) inode }
    requires going { journal.old.failed ≡ false }
    ensures bytes { OnOk result (IsReadUpTo (logical_block journal.old.geometry (disk M.Media journal.old) inode) at (length out.old) out.old out.new) }
    ensures refused { OnErr result ((n : ℕ) × (n ≤ length out.old) × IsReadUpTo (logical_block journal.old.geometry (disk M.Media journal.old) inode) at n out.old out.new) }
    ensures only { IfErr result (λ e. e ≡ DeviceFault) }
    ensures looks { Looks M.Media journal.old journal.new result }
{
    let mut done = 0;
    while done < out.len() {
        let start = at + done as u64;
        let count = (BLOCK - (start % BLOCK as u64) as usize).min(out.len() - done);
        read_within(journal, inode, found, start, &mut out[done..done + count])?;
        done += count;
    }
    Ok(())
}

// How many of so many bytes a file of this size has from a byte on.
fn count_from(size: u64, at: u64, count: usize) -> usize
    ensures { result ≡ min count (size - at) }
{
    let rest = size.saturating_sub(at);
    if rest < count as u64 {
        rest as usize
    } else {
        count
    }
}

// Bytes of a file of a size.
fn read_bytes<M: Media>(
    journal: &mut Journal<M>,
    inode: u32,
    found: &InodeExtents,
    size: u64,
    at: u64,
    out: &mut [u8],
) -> Result<usize, AreaError>
    requires few { size < 2 ^ 62 }
    requires found { HasFound journal.old.geometry (disk M.Media journal.old) inode found.now }
    requires once { IsOnce journal.old.geometry (disk M.Media journal.old) inode }
    requires going { journal.old.failed ≡ false }
    ensures count { IfOk result (λ n. n ≡ min (length out.old) (size - at)) }
    ensures bytes { IfOk result (λ n. IsReadFrom (bytes_of_blocks (logical_block journal.old.geometry (disk M.Media journal.old) inode) size) at n out.old out.new) }
    ensures refused { OnErr result ((n : ℕ) × IsReadFrom (bytes_of_blocks (logical_block journal.old.geometry (disk M.Media journal.old) inode) size) at n out.old out.new) }
    ensures only { IfErr result (λ e. e ≡ DeviceFault) }
    ensures looks { Looks M.Media journal.old journal.new result }
{
    let count = count_from(size, at, out.len());
    if count == 0 {
        return Ok(0);
    }
    read_blocks(journal, inode, found, at, &mut out[..count])?;
    Ok(count)
}

// Bytes of what has these parts, if it is a file.
fn read_parts_bytes<M: Media>(
    journal: &mut Journal<M>,
    inode: u32,
    parts: &InodeParts,
    at: u64,
    out: &mut [u8],
) -> Result<usize, AreaError>
    requires parts { HasParts journal.old.geometry (disk M.Media journal.old) inode parts.now }
    requires opens { IsOpenable journal.old.geometry (disk M.Media journal.old) }
    requires going { journal.old.failed ≡ false }
    ensures count { IfOk result (λ n. n ≡ min (length out.old) (length (bytes_of_inode (graph journal.old.geometry (disk M.Media journal.old)) inode) - at)) }
    ensures bytes { IfOk result (λ n. IsReadFrom (bytes_of_inode (graph journal.old.geometry (disk M.Media journal.old)) inode) at n out.old out.new) }
    ensures refused { OnErr result ((n : ℕ) × IsReadFrom (bytes_of_inode (graph journal.old.geometry (disk M.Media journal.old)) inode) at n out.old out.new) }
    ensures only { IfErr result (λ e. e ≡ DeviceFault) }
    ensures looks { Looks M.Media journal.old journal.new result }
{
    match parts.slot {
        Slot::File { size, .. } => read_bytes(journal, inode, &parts.extents, size, at, out),
        Slot::Directory { .. } => Ok(0),
        Slot::Free => Ok(0),
    }
}

/// Bytes of a file from a byte on, as many as the file and the buffer have; none where there is no file.
pub fn read_file<M: Media>(
    alloc: Global,
    journal: &mut Journal<M>,
    inode: u32,
    at: u64,
    out: &mut [u8],
) -> Result<usize, AreaError>
    requires { journal.old.failed ≡ false → IsOpenable journal.old.geometry (disk M.Media journal.old) }
    ensures count { IfOk result (λ n. n ≡ min (length out.old) (length (bytes_of_inode (graph journal.old.geometry (disk M.Media journal.old)) inode) - at)) }
    ensures bytes { IfOk result (λ n. IsReadFrom (bytes_of_inode (graph journal.old.geometry (disk M.Media journal.old)) inode) at n out.old out.new) }
    ensures refused { OnErr result ((n : ℕ) × IsReadFrom (bytes_of_inode (graph journal.old.geometry (disk M.Media journal.old)) inode) at n out.old out.new) }
    ensures only { IfErr result IsNoDamage }
    ensures memory { IfErr result (λ e. e ≡ Memory → WantsMemory journal.old.geometry (disk M.Media journal.old) inode) }
    ensures looks { Looks M.Media journal.old journal.new result }
{
    match find_parts(alloc, journal, inode)? {
        Some(parts) => {
            let count = read_parts_bytes(journal, inode, &parts, at, out)?;
            Ok(count)
        }
        None => Ok(0),
    }
}
