// Which extent blocks an inode has for new extents.
ghost use Rattle.std.specs.Prelude.{◌≡◌, [], Some, true};
ghost use Rattle.area_commit.specs.file_graph.declared.effect.Kind.TheVariants as kind;
ghost use Rattle.tier_device.specs.declared.media.Tier.{Tier};
ghost use Rattle.area_commit.specs.layout.Places.{Sizes};
ghost use Rattle.area_commit.specs.layout.Slot.{fits_slot};
ghost use Rattle.area_commit.specs.tree_blocks.Inode.{LogicalBlocks, inode_of};
ghost use Rattle.area_commit.specs.area_reader.Store.{touch_of, length_of, space_of};
ghost use Rattle.inode_plan.specs.Lists.{root_for, HasRoots, SpareFits};

use area_commit::in_area_reader::InodeExtents;
use area_commit::in_layout::{ExtentBlock, Slot};

/// The root of a tier for new extents there: none where there are none, else the old one, or the spare one where there was none.
pub fn root_for(old: u32, list: &Option<ExtentBlock>, spare: u32) -> u32
    ensures { result ≡ root_for old list.now spare }
{
    match list {
        Some(_) => if old == 0 { spare } else { old },
        None => 0,
    }
}

/// The slot of a file for new extents: in a tier that has some it keeps its extent block, or gets the spare one where it has none there.
pub fn slot_for(slot: &Slot, found: &InodeExtents, spare: u32) -> Slot
    requires { (inode_of slot.now (λ k. [])).kind ≡ Some kind.File }
    ensures roots { HasRoots found.now spare slot.now result }
    ensures same { (blocks : LogicalBlocks) → inode_of result blocks ≡ inode_of slot.now blocks }
    ensures touch { touch_of result ≡ touch_of slot.now }
    ensures long { length_of result ≡ length_of slot.now }
    ensures spaces { (t : Tier) → space_of result t ≡ space_of slot.now t }
    // It keeps the limits of the format where one tier at most needs the spare block, which is another one of the node pool.
    ensures fits { (g : Sizes) → fits_slot g slot.now ≡ true → SpareFits g slot.now found.now spare → fits_slot g result ≡ true }
{
    match *slot {
        Slot::File {
            names,
            size,
            touch,
            fast,
            block,
            slow,
        } => Slot::File {
            names,
            size,
            touch,
            fast: root_for(fast, &found.fast, spare),
            block: root_for(block, &found.block, spare),
            slow: root_for(slow, &found.slow, spare),
        },
        Slot::Directory { .. } => unreachable!(),
        Slot::Free => unreachable!(),
    }
}
