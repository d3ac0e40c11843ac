// The bytes of a file: zeros are written to it, and tiers are read from it and written back.
ghost use Rattle.std.specs.Prelude.{◌≡◌, ◌≤◌, ◌<◌, ◌+◌, length, replicate, IfOk, OnOk};
ghost use Rattle.tier_device.specs.declared.media.Tier.TheVariants.{Fast, Block, Slow};
ghost use Rattle.tier_device.specs.Rows.{row};
ghost use Rattle.host_media.specs.FileBytes.{known, unknown, with_told};
ghost use Rattle.host_media.specs.FileRange.{range_begin, range_changes, range_told};
ghost use Rattle.host_media.specs.Images.{content_bytes};
ghost use Rattle.host_media.specs.Place.{total};
ghost use Rattle.host_media.specs.Sizes.{byte_count};

use crate::error::FileProblem;
use crate::file_range::FileRange;
use crate::locked_file::sync_folder;
use crate::sizes::Sizes;
use std::alloc::Global;
use std::fs::{File, Files};
use std::io;
use tier_device::{Tier, Tiers};

// How many zeros are written at once.
const CHUNK: usize = 65536;

/// Writes `len` zeros to a file, all its bytes, and has the system keep them and the file's name.
pub(crate) fn fill_file<R: Files<File = File>>(
    files: &R,
    alloc: Global,
    path: &str,
    file: &mut FileRange,
    len: usize,
) -> Result<(), FileProblem>
    requires { range_told file.old ≡ unknown len }
    ensures begin { range_begin file.new ≡ range_begin file.old }
    ensures zeros { OnOk result (range_told file.new ≡ known (replicate len 0)) }
{
    write_zeros(alloc, file, len, CHUNK)?;
    file.sync_all()?;
    sync_folder(files, path)?;
    Ok(())
}

// Writes `len` zeros to a file, `chunk` at once.
fn write_zeros(
    alloc: Global,
    file: &mut FileRange,
    len: usize,
    chunk: usize,
) -> Result<(), FileProblem>
    requires nothing { range_told file.old ≡ unknown len }
    requires some { 0 < chunk }
    ensures begin { range_begin file.new ≡ range_begin file.old }
    ensures zeros { OnOk result (range_told file.new ≡ known (replicate len 0)) }
{
    let zeros = vec![in alloc; 0u8; chunk]?;
    write_pieces(file, len, &zeros)?;
    Ok(())
}

// Writes `len` zeros to a file, as many at once as there are here.
fn write_pieces(file: &mut FileRange, len: usize, zeros: &[u8]) -> io::Result<()>
    requires nothing { range_told file.old ≡ unknown len }
    requires zeros { zeros.now ≡ replicate (length zeros.now) 0 }
    requires some { 0 < length zeros.now }
    ensures begin { range_begin file.new ≡ range_begin file.old }
    ensures written { OnOk result (range_told file.new ≡ known (replicate len 0)) }
{
    let mut at = 0usize;
    'pieces: while zeros.len() < len - at {
        file.write(at, zeros)?;
        at += zeros.len();
    }
    file.write(at, &zeros[..len - at])
}

/// The tiers whose bytes a range has, the fast one first.
pub(crate) fn read_tiers(
    alloc: Global,
    range: &mut FileRange,
    sizes: Sizes,
) -> Result<Tiers, FileProblem>
    requires { length (range_told range.old) ≡ byte_count sizes }
    ensures fast { IfOk result (λ tiers. length (row tiers Fast) ≡ sizes.fast) }
    ensures block { IfOk result (λ tiers. length (row tiers Block) ≡ sizes.block) }
    ensures slow { IfOk result (λ tiers. length (row tiers Slow) ≡ sizes.slow) }
    ensures begin { range_begin range.new ≡ range_begin range.old }
    ensures changes { range_changes range.new ≡ range_changes range.old }
    ensures read { IfOk result (λ tiers. range_told range.new ≡ known (content_bytes (row tiers))) }
{
    let slow_at = sizes.fast + sizes.block;
    let fast = read_tier(alloc, range, 0, sizes.fast)?;
    let block = read_tier(alloc, range, sizes.fast, sizes.block)?;
    let slow = read_tier(alloc, range, slow_at, sizes.slow)?;
    Ok(Tiers::new(fast, block, slow))
}

/// Writes tiers to a range once more, as they stand there, the fast one first.
pub(crate) fn write_back(range: &mut FileRange, tiers: &Tiers) -> io::Result<()>
    requires fits { total tiers.now ≤ length (range_told range.old) }
    requires stand { range_told range.old ≡ known (content_bytes (row tiers.now)) }
    ensures begin { range_begin range.new ≡ range_begin range.old }
    ensures same { OnOk result (range_told range.new ≡ range_told range.old) }
    ensures changes { OnOk result (range_changes range.new ≡ range_changes range.old) }
{
    let fast = tiers.bytes(Tier::Fast);
    let block = tiers.bytes(Tier::Block);
    range.write(0, fast)?;
    range.write(fast.len(), block)?;
    range.write(fast.len() + block.len(), tiers.bytes(Tier::Slow))
}

fn read_tier(
    alloc: Global,
    range: &mut FileRange,
    at: usize,
    len: usize,
) -> Result<Vec<u8>, FileProblem>
    requires { at + len ≤ length (range_told range.old) }
    ensures len { IfOk result (λ bytes. length bytes.items ≡ len) }
    ensures begin { range_begin range.new ≡ range_begin range.old }
    ensures long { length (range_told range.new) ≡ length (range_told range.old) }
    ensures changes { range_changes range.new ≡ range_changes range.old }
    ensures read { IfOk result (λ bytes. range_told range.new ≡ with_told (range_told range.old) at (known bytes.items)) }
{
    let mut bytes = vec![in alloc; 0u8; len]?;
    range.read(at, &mut bytes)?;
    Ok(bytes)
}
