// What stands at an inode by its numbers alone.
ghost use Rattle.std.specs.Prelude.{◌≡◌, false, IfOk, IfErr, option_map};
ghost use Rattle.record_validation.specs.call_effects.NodeView.{view_at};
ghost use Rattle.record_validation.specs.Counts.{counts_of};
ghost use Rattle.area_reader.specs.Store.{disk, graph};
ghost use Rattle.area_reader.specs.Format.{IsOpenable};
ghost use Rattle.area_reader.specs.Looks.{Looks};
ghost use Rattle.area_reader.specs.declared.error.AreaError.TheVariants.{DeviceFault};
ghost use Rattle.shared_area.specs.Parts.{slot_counts};

use area_reader::in_batch_journal::Journal;
use area_reader::in_layout::Slot;
use area_reader::{AreaError, read_slot};
use record_validation::NodeCounts;
use record_validation::in_file_graph::is_inode;
use tier_device::Media;

// The numbers that a slot has.
fn slot_counts(slot: &Slot) -> Option<NodeCounts>
    ensures { result ≡ slot_counts slot.now }
{
    match *slot {
        Slot::Free => None,
        Slot::File { names, size, .. } => Some(NodeCounts::File { names, size }),
        Slot::Directory { names, entries, .. } => Some(NodeCounts::Directory { names, entries }),
    }
}

/// The numbers of what stands at an inode, as its slot has them; `None` where nothing does. It reads the slot alone, and takes no memory.
pub fn find_counts<M: Media>(
    journal: &mut Journal<M>,
    inode: u32,
) -> Result<Option<NodeCounts>, AreaError>
    requires { journal.old.failed ≡ false → IsOpenable journal.old.geometry (disk M.Media journal.old) }
    ensures counts { IfOk result (λ x. x ≡ option_map counts_of (view_at (graph journal.old.geometry (disk M.Media journal.old)) inode)) }
    ensures only { IfErr result (λ e. e ≡ DeviceFault) }
    ensures looks { Looks M.Media journal.old journal.new result }
{
    if journal.has_failed() {
        return Err(AreaError::DeviceFault);
    }
    if !is_inode(inode) {
        return Ok(None);
    }
    let slot = read_slot(journal, inode)?;
    Ok(slot_counts(&slot))
}
