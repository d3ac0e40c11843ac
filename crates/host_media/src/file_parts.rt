// Media that are parted off the front of a range of a file.
ghost use Rattle.std.specs.Prelude.{◌≡◌, [], ◌∷◌, ◌++◌, All, map, sum_by, length, replicate, true, IfOk, OnOk};
ghost use Rattle.tier_device.specs.declared.media.Tier.{Tier};
ghost use Rattle.tier_device.specs.declared.media.Tier.TheVariants.{Fast, Block, Slow};
ghost use Rattle.tier_device.specs.Rows.{row};
ghost use Rattle.host_media.specs.DiskFile.{file_sizes, places_from, IsZero};
ghost use Rattle.host_media.specs.File.{file_begin, file_changes, IsOpened};
ghost use Rattle.host_media.specs.FileBytes.{known};
ghost use Rattle.host_media.specs.FileRange.{range_begin, range_changes, range_told};
ghost use Rattle.host_media.specs.Images.{content_bytes};
ghost use Rattle.host_media.specs.Sizes.{byte_count};

use crate::error::FileProblem;
use crate::file::FileMedia;
use crate::file_bytes::{read_tiers, write_back};
use crate::file_range::FileRange;
use crate::sizes::{Sizes, zeros};
use std::alloc::{AllocError, Global};
use tier_device::Tiers;

/// Parts off media of these sizes, one behind the other, and puts them into a list. Of a file that was made they are zeros; else they are read, and what was read
/// is written back.
pub(crate) fn push_media(
    alloc: Global,
    rest: &mut FileRange,
    is_blank: bool,
    sizes: &[Sizes],
    media: &mut Vec<FileMedia>,
) -> Result<(), FileProblem>
    requires fits { sum_by byte_count sizes.now ≡ length (range_told rest.old) }
    requires blank { is_blank ≡ true → range_told rest.old ≡ known (replicate (length (range_told rest.old)) 0) }
    requires empty { length media.old.items ≡ 0 }
    ensures sizes { OnOk result (map file_sizes media.new.items ≡ sizes.now) }
    ensures places { OnOk result (map file_begin media.new.items ≡ places_from (range_begin rest.old) sizes.now) }
    ensures opened { OnOk result (All IsOpened media.new.items) }
    ensures zeros { is_blank ≡ true → OnOk result (All IsZero media.new.items) }
    ensures kept { OnOk result (All (λ m. file_changes m ≡ range_changes rest.old) media.new.items) }
{
    for one in sizes {
        let part = rest.take_front(one.fast + one.block + one.slow)?;
        push(media, medium(alloc, part, is_blank, *one)?)?;
    }
    Ok(())
}

fn push(media: &mut Vec<FileMedia>, one: FileMedia) -> Result<(), AllocError>
    ensures { OnOk result (media.new.items ≡ media.old.items ++ one ∷ []) }
{
    media.push(one)?;
    Ok(())
}

/// The medium of these sizes whose bytes a range has.
pub(crate) fn medium(
    alloc: Global,
    range: FileRange,
    is_blank: bool,
    sizes: Sizes,
) -> Result<FileMedia, FileProblem>
    requires fits { length (range_told range) ≡ byte_count sizes }
    requires blank { is_blank ≡ true → range_told range ≡ known (replicate (length (range_told range)) 0) }
    ensures sizes { IfOk result (λ m. file_sizes m ≡ sizes) }
    ensures place { IfOk result (λ m. file_begin m ≡ range_begin range) }
    ensures opened { IfOk result IsOpened }
    ensures zeros { is_blank ≡ true → IfOk result IsZero }
    ensures kept { IfOk result (λ m. file_changes m ≡ range_changes range) }
{
    let mut part = range;
    let tiers = make_tiers(alloc, &mut part, is_blank, sizes)?;
    Ok(FileMedia::of(part, tiers))
}

// The tiers of these sizes whose bytes a range has, which are zeros where its file was made.
fn make_tiers(
    alloc: Global,
    range: &mut FileRange,
    is_blank: bool,
    sizes: Sizes,
) -> Result<Tiers, FileProblem>
    requires fits { length (range_told range.old) ≡ byte_count sizes }
    requires blank { is_blank ≡ true → range_told range.old ≡ known (replicate (length (range_told range.old)) 0) }
    ensures fast { IfOk result (λ tiers. length (row tiers Fast) ≡ sizes.fast) }
    ensures block { IfOk result (λ tiers. length (row tiers Block) ≡ sizes.block) }
    ensures slow { IfOk result (λ tiers. length (row tiers Slow) ≡ sizes.slow) }
    ensures zeros { is_blank ≡ true → IfOk result (λ tiers. (t : Tier) → row tiers t ≡ replicate (length (row tiers t)) 0) }
    ensures stands { IfOk result (λ tiers. range_told range.new ≡ known (content_bytes (row tiers))) }
    ensures begin { range_begin range.new ≡ range_begin range.old }
    ensures kept { IfOk result (λ _. range_changes range.new ≡ range_changes range.old) }
{
    if !is_blank {
        return read_medium(alloc, range, sizes);
    }
    Ok(zeros(alloc, sizes)?)
}

// The tiers of these sizes whose bytes a range has, where they are written back.
fn read_medium(alloc: Global, range: &mut FileRange, sizes: Sizes) -> Result<Tiers, FileProblem>
    requires fits { length (range_told range.old) ≡ byte_count sizes }
    ensures fast { IfOk result (λ tiers. length (row tiers Fast) ≡ sizes.fast) }
    ensures block { IfOk result (λ tiers. length (row tiers Block) ≡ sizes.block) }
    ensures slow { IfOk result (λ tiers. length (row tiers Slow) ≡ sizes.slow) }
    ensures stands { IfOk result (λ tiers. range_told range.new ≡ known (content_bytes (row tiers))) }
    ensures begin { range_begin range.new ≡ range_begin range.old }
    ensures kept { IfOk result (λ _. range_changes range.new ≡ range_changes range.old) }
{
    let tiers = read_tiers(alloc, range, sizes)?;
    write_back(range, &tiers)?;
    Ok(tiers)
}

/// Has the system keep what was read of a file and written back.
pub(crate) fn sync_read(range: &FileRange, is_blank: bool) -> Result<(), FileProblem> {
    if is_blank {
        return Ok(());
    }
    range.sync_data()?;
    Ok(())
}
