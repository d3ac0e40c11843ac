// Which run is moved down next.
ghost use Rattle.std.specs.Prelude.{◌≡◌, ◌≤◌, ◌<◌, ◌+◌, ℕ, Some, None, false, IfOk, IfErr, IfSome, IsTrue};
ghost use Rattle.shared_area.specs.area_reader.Store.{disk};
ghost use Rattle.shared_area.specs.area_reader.Looks.{Looks};
ghost use Rattle.shared_area.specs.area_reader.Map.{WantsMemory};
ghost use Rattle.shared_area.specs.area_reader.declared.error.AreaError.TheVariants.{DeviceFault, Memory};
ghost use Rattle.shared_area.specs.Parts.{IsNoDamage};
ghost use Rattle.migrator.specs.RunChoice.{FoundFile, IsBestBelow, IsPicked, IsPickedIn, MayBeMoved, pick_of};

use block_alloc::Run;
use posix_calls::MAX_INODE;
use shared_area::Shared;
use shared_area::in_area_reader::AreaError;
use tier_device::{Media, Tier};

/// The most blocks that are moved at once.
pub const MOST_BLOCKS: u32 = 256;

/// A run of a file's logical blocks.
#[derive(Clone, Copy, PartialEq, Eq)]
pub struct FileRun {
    pub inode: u32,
    pub run: Run,
}

/// Picks what is to be moved to a tier next: of the files with a block in the tier next above it the one with the least touch number, of several the one with the least inode,
/// with its first run there, of 256 blocks at most, which may be moved. `None` where no file has a block there, and for the fast tier. Changes nothing.
///
/// Reads the slot of each inode, and extents only of a file that has an extent block of that tier and a lesser touch number than every file with a smaller inode that has a block there. For the fast tier it reads nothing.
/// Refused: `DeviceFault`, and `Memory` where there was none for an extent block.
pub fn pick<M: Media>(area: &mut Shared<M>, to: Tier) -> Result<Option<FileRun>, AreaError>
    ensures picked { IfOk result (IsPicked area.old.geometry (disk M.Media area.old) to) }
    ensures may_be_moved { IfOk result (λ x. IfSome x (MayBeMoved area.old.geometry (disk M.Media area.old) to)) }
    ensures only { IfErr result IsNoDamage }
    ensures memory { IfErr result (λ e. e ≡ Memory → (i : ℕ) × WantsMemory area.old.geometry (disk M.Media area.old) i) }
    ensures looks { Looks M.Media area.old area.new result }
{
    match to {
        Tier::Fast => none_in(area),
        Tier::Block => pick_in(area, Tier::Fast),
        Tier::Slow => pick_in(area, Tier::Block),
    }
}

// Nothing is picked, unless a device has failed.
fn none_in<M: Media>(area: &mut Shared<M>) -> Result<Option<FileRun>, AreaError>
    ensures none { IfOk result (λ x. x ≡ None) }
    ensures only { IfErr result (λ e. e ≡ DeviceFault) }
    ensures looks { Looks M.Media area.old area.new result }
{
    if area.has_failed() {
        return Err(AreaError::DeviceFault);
    }
    Ok(None)
}

// Of the files that have a block in a tier the one that comes first.
fn pick_in<M: Media>(area: &mut Shared<M>, tier: Tier) -> Result<Option<FileRun>, AreaError>
    ensures picked { IfOk result (IsPickedIn area.old.geometry (disk M.Media area.old) tier) }
    ensures only { IfErr result IsNoDamage }
    ensures memory { IfErr result (λ e. e ≡ Memory → (i : ℕ) × WantsMemory area.old.geometry (disk M.Media area.old) i) }
    ensures looks { Looks M.Media area.old area.new result }
{
    if area.has_failed() {
        return Err(AreaError::DeviceFault);
    }
    let mut best: Option<(u64, FileRun)> = None;
    'inodes: for inode in 1..MAX_INODE + 1 {
        best = next_best(area, tier, inode, best)?;
    }
    Ok(best_run(best))
}

// The better one of what was best so far and the file at one more inode. The extents of a file that was digested no earlier are not read.
fn next_best<M: Media>(
    area: &mut Shared<M>,
    tier: Tier,
    inode: u32,
    best: Option<(u64, FileRun)>,
) -> Result<Option<(u64, FileRun)>, AreaError>
    requires { IsBestBelow area.old.geometry (disk M.Media area.old) tier inode best }
    ensures best { IfOk result (IsBestBelow area.old.geometry (disk M.Media area.old) tier (inode + 1)) }
    ensures only { IfErr result IsNoDamage }
    ensures memory { IfErr result (λ e. e ≡ Memory → WantsMemory area.old.geometry (disk M.Media area.old) inode) }
    ensures looks { Looks M.Media area.old area.new result }
{
    let Some(touch) = area.touch_in(inode, tier)? else {
        return Ok(best);
    };
    if is_no_later(&best, touch) {
        return Ok(best);
    }
    match area.first_run(inode, tier, MOST_BLOCKS)? {
        Some(run) => Ok(Some((touch, FileRun { inode, run }))),
        None => Ok(best),
    }
}

// Whether what was best so far has that touch number or a lesser one; false where there is none.
fn is_no_later(best: &Option<(u64, FileRun)>, touch: u64) -> bool
    ensures yes { IsTrue result → (x : FoundFile) × (best.now ≡ Some x) × (x.0 ≤ touch) }
    ensures no { result ≡ false → IfSome best.now (λ x. touch < x.0) }
{
    match best {
        Some(before) => before.0 <= touch,
        None => false,
    }
}

// What is picked, without the touch number.
fn best_run(best: Option<(u64, FileRun)>) -> Option<FileRun>
    ensures { result ≡ pick_of best }
{
    match best {
        Some((_, pick)) => Some(pick),
        None => None,
    }
}
