// A run is moved down.
ghost use Rattle.std.specs.Prelude.{◌≡◌, ◌≤◌, ◌+◌, false, OnOk, IfErr, IsErrOf};
ghost use Rattle.shared_area.specs.area_reader.Store.{disk, graph, marks};
ghost use Rattle.shared_area.specs.area_reader.Refusals.{IsMoveRefusal};
ghost use Rattle.shared_area.specs.relocation.TierMove.{CanMove, IsMoved};
ghost use Rattle.shared_area.specs.relocation.MovableFile.{HasFileRun};
ghost use Rattle.shared_area.specs.area_reader.declared.error.AreaError.TheVariants.{NotMapped, NoBlock, Memory};
ghost use Rattle.shared_area.specs.TierMoves.{HasTooFew, HasEnough, StaysOpen, MovesOrStays};

use shared_area::Shared;
use shared_area::in_area_reader::AreaError;
use tier_device::{Media, Tier};

/// Moves a run of a file's logical blocks, `count` of them from block `first` on, to a tier that is slower than those in which they lie. The graph stays: a stop at any moment
/// leaves the run where it lay, or all of it moved.
///
/// The refusals, in this order: `NotMapped` exactly where there is no file at the inode, the run has no block or more than 256, or some block of it lies in no tier that is
/// faster than `to`; `NoBlock` exactly where fewer data blocks of `to` are free than the run has. After these nothing has changed, nor after `Memory`, which comes only where
/// there is a file that the run lies within. `DeviceFault` where a device failed: the area answers nothing else then, until the medium is opened again. So a run that `pick`
/// answered is refused for want of blocks, of memory or of a device alone.
///
/// Of writes and fences there are at most one for each block of the run and 12 more.
pub fn migrate<M: Media>(
    area: &mut Shared<M>,
    inode: u32,
    first: u64,
    count: u32,
    to: Tier,
) -> Result<(), AreaError>
    ensures any_moment { area.old.failed ≡ false → StaysOpen area.old.geometry (disk M.Media area.old) inode first count to (M.moment area.old.media) (M.moment area.new.media) (M.left area.old.media) (M.left area.new.media) }
    ensures moved { OnOk result (IsMoved area.old.geometry (disk M.Media area.old) (disk M.Media area.new) inode first count to) }
    ensures same_graph { OnOk result (graph area.old.geometry (disk M.Media area.new) ≡ graph area.old.geometry (disk M.Media area.old)) }
    ensures same_marks { OnOk result (marks (disk M.Media area.new) ≡ marks (disk M.Media area.old)) }
    ensures not_mapped { IsErrOf result NotMapped → CanMove area.old.geometry (disk M.Media area.old) inode first count to → ⊥ }
    ensures no_block { IsErrOf result NoBlock → CanMove area.old.geometry (disk M.Media area.old) inode first count to × HasTooFew area.old.geometry (disk M.Media area.old) to count }
    ensures can { OnOk result (CanMove area.old.geometry (disk M.Media area.old) inode first count to × HasEnough area.old.geometry (disk M.Media area.old) to count) }
    ensures memory { IsErrOf result Memory → HasFileRun area.old.geometry (disk M.Media area.old) inode first count }
    ensures only { IfErr result IsMoveRefusal }
    ensures moves { MovesOrStays M.Media area.old area.new result }
    ensures at_most { M.moment area.new.media ≤ M.moment area.old.media + count + 12 }
{
    area.relocate(inode, first, count, to)
}
