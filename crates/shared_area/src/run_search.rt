// The first run of a file's blocks in a tier.
ghost use Rattle.std.specs.Prelude.{◌≡◌, ◌≢◌, ◌⊎◌, ◌<◌, ◌≤◌, ◌+◌, ◌^◌, ℕ, None, IsSome, IsTrue, false, IfOk, IfErr, IfSome, IfNone};
ghost use Rattle.area_reader.specs.Store.{disk, length_of};
ghost use Rattle.area_reader.specs.Format.{IsOpenable};
ghost use Rattle.area_reader.specs.Map.{place_by, IsOnceAt, WantsMemory};
ghost use Rattle.area_reader.specs.Looks.{Looks};
ghost use Rattle.area_reader.specs.declared.error.AreaError.TheVariants.{Memory};
ghost use Rattle.shared_area.specs.Parts.{IsNoDamage};
ghost use Rattle.shared_area.specs.FirstRun.{FindsRun, file_lies};

use crate::block_search::find_parts;
use area_reader::in_batch_journal::Journal;
use area_reader::in_layout::Slot;
use area_reader::{AreaError, InodeParts, first_place, length_of};
use block_alloc::Run;
use std::alloc::Global;
use tier_device::{Media, Tier};

fn is_same(one: Tier, other: Tier) -> bool
    ensures same { IsTrue result → one ≡ other }
    ensures differ { result ≡ false → one ≢ other }
{
    match one {
        Tier::Fast => matches!(other, Tier::Fast),
        Tier::Block => matches!(other, Tier::Block),
        Tier::Slow => matches!(other, Tier::Slow),
    }
}

// Whether a tier maps a logical block.
fn lies_in(parts: &InodeParts, tier: Tier, block: u64) -> bool
    requires { IsOnceAt parts.now.extents block }
    ensures some { IsTrue result → IsSome (place_by parts.now.extents tier block) }
    ensures none { result ≡ false → place_by parts.now.extents tier block ≡ None }
{
    match first_place(&parts.extents, block) {
        Some((found, _)) => is_same(found, tier),
        None => false,
    }
}

// The first of so many logical blocks that a tier maps.
fn first_block(parts: &InodeParts, tier: Tier, blocks: u32) -> Option<u32>
    requires { (k : ℕ) → IsOnceAt parts.now.extents k }
    ensures inside { IfSome result (λ first. first < blocks) }
    ensures found { IfSome result (λ first. IsSome (place_by parts.now.extents tier first)) }
    ensures before { IfSome result (λ first. (k : ℕ) → k < first → place_by parts.now.extents tier k ≡ None) }
    ensures none { IfNone result ((k : ℕ) → k < blocks → place_by parts.now.extents tier k ≡ None) }
{
    for block in 0..blocks {
        if lies_in(parts, tier, block as u64) {
            return Some(block);
        }
    }
    None
}

// How many logical blocks from a first one on a tier maps one after the other, up to a number of them.
fn count_from(parts: &InodeParts, tier: Tier, first: u32, most: u32) -> u32
    requires { (k : ℕ) → IsOnceAt parts.now.extents k }
    ensures few { result ≤ most }
    ensures each { (n : ℕ) → n < result → IsSome (place_by parts.now.extents tier (first + n)) }
    ensures whole { (result ≡ most) ⊎ (place_by parts.now.extents tier (first + result) ≡ None) }
{
    for count in 0..most {
        if !lies_in(parts, tier, first as u64 + count as u64) {
            return count;
        }
    }
    most
}

// The first run of blocks that a tier maps, of so many at most.
fn run_of(parts: &InodeParts, tier: Tier, most: u32) -> Option<Run>
    requires some { 0 < most }
    requires once { (k : ℕ) → IsOnceAt parts.now.extents k }
    requires within { (k : ℕ) → IsSome (place_by parts.now.extents tier k) → k < length_of parts.now.slot }
    requires short { length_of parts.now.slot < 2 ^ 32 }
    ensures { FindsRun (place_by parts.now.extents tier) most result }
{
    match first_block(parts, tier, length_of(&parts.slot) as u32) {
        Some(first) => Some(Run {
            first,
            count: count_from(parts, tier, first, most),
        }),
        None => None,
    }
}

/// The first run of a file's logical blocks in a tier, of so many blocks at most.
pub fn find_first_run<M: Media>(
    alloc: Global,
    journal: &mut Journal<M>,
    inode: u32,
    tier: Tier,
    most: u32,
) -> Result<Option<Run>, AreaError>
    requires opens { journal.old.failed ≡ false → IsOpenable journal.old.geometry (disk M.Media journal.old) }
    requires some { 0 < most }
    ensures run { IfOk result (FindsRun (file_lies journal.old.geometry (disk M.Media journal.old) inode tier) most) }
    ensures only { IfErr result IsNoDamage }
    ensures memory { IfErr result (λ e. e ≡ Memory → WantsMemory journal.old.geometry (disk M.Media journal.old) inode) }
    ensures looks { Looks M.Media journal.old journal.new result }
{
    match find_parts(alloc, journal, inode)? {
        Some(parts) => match parts.slot {
            Slot::File { .. } => Ok(run_of(&parts, tier, most)),
            Slot::Free => Ok(None),
            Slot::Directory { .. } => Ok(None),
        },
        None => Ok(None),
    }
}
