// What stands at an inode.
ghost use Rattle.std.specs.Prelude.{◌≡◌, false, IfOk, IfErr};
ghost use Rattle.record_validation.specs.file_graph.Graph.{directory_in};
ghost use Rattle.record_validation.specs.call_effects.NodeView.{view_at};
ghost use Rattle.area_reader.specs.Store.{disk, graph};
ghost use Rattle.area_reader.specs.Format.{IsOpenable};
ghost use Rattle.area_reader.specs.Looks.{Looks};
ghost use Rattle.area_reader.specs.Map.{WantsMemory};
ghost use Rattle.area_reader.specs.declared.error.AreaError.TheVariants.{Memory};
ghost use Rattle.shared_area.specs.Parts.{IsNoDamage, HasParts};

use crate::block_search::find_parts;
use crate::directory_read::{FoundDirectory, read_entries};
use area_reader::in_batch_journal::Journal;
use area_reader::in_layout::Slot;
use area_reader::{AreaError, InodeParts};
use record_validation::NodeSummary;
use record_validation::in_file_graph::{Child, NameMap};
use std::alloc::Global;
use tier_device::Media;

// The node that has these parts, if one does.
fn node_of<M: Media>(
    alloc: Global,
    journal: &mut Journal<M>,
    inode: u32,
    parts: &InodeParts,
) -> Result<Option<NodeSummary>, AreaError>
    requires parts { HasParts journal.old.geometry (disk M.Media journal.old) inode parts.now }
    requires opens { IsOpenable journal.old.geometry (disk M.Media journal.old) }
    requires going { journal.old.failed ≡ false }
    ensures node { IfOk result (λ x. x ≡ view_at (graph journal.old.geometry (disk M.Media journal.old)) inode) }
    ensures only { IfErr result IsNoDamage }
    ensures memory { IfErr result (λ e. e ≡ Memory → WantsMemory journal.old.geometry (disk M.Media journal.old) inode) }
    ensures looks { Looks M.Media journal.old journal.new result }
{
    match parts.slot {
        Slot::Free => Ok(None),
        Slot::File { names, size, .. } => Ok(Some(NodeSummary::file(names, size))),
        Slot::Directory { names, entries, .. } => {
            let directory = FoundDirectory {
                inode,
                extents: &parts.extents,
                entries,
            };
            let map = read_entries(alloc, journal, &directory)?;
            Ok(Some(NodeSummary::directory(names, map)))
        }
    }
}

/// What stands at an inode, without the bytes of a file; `None` where nothing does.
pub fn find_node<M: Media>(
    alloc: Global,
    journal: &mut Journal<M>,
    inode: u32,
) -> Result<Option<NodeSummary>, AreaError>
    requires { journal.old.failed ≡ false → IsOpenable journal.old.geometry (disk M.Media journal.old) }
    ensures node { IfOk result (λ x. x ≡ view_at (graph journal.old.geometry (disk M.Media journal.old)) inode) }
    ensures only { IfErr result IsNoDamage }
    ensures memory { IfErr result (λ e. e ≡ Memory → WantsMemory journal.old.geometry (disk M.Media journal.old) inode) }
    ensures looks { Looks M.Media journal.old journal.new result }
{
    match find_parts(alloc, journal, inode)? {
        Some(parts) => {
            let found = node_of(alloc, journal, inode, &parts)?;
            Ok(found)
        }
        None => Ok(None),
    }
}

// The entries of the node that has these parts, if that is a directory.
fn directory_of<M: Media>(
    alloc: Global,
    journal: &mut Journal<M>,
    inode: u32,
    parts: &InodeParts,
) -> Result<Option<NameMap<Child>>, AreaError>
    requires parts { HasParts journal.old.geometry (disk M.Media journal.old) inode parts.now }
    requires opens { IsOpenable journal.old.geometry (disk M.Media journal.old) }
    requires going { journal.old.failed ≡ false }
    ensures directory { IfOk result (λ x. x ≡ directory_in (graph journal.old.geometry (disk M.Media journal.old) inode)) }
    ensures only { IfErr result IsNoDamage }
    ensures memory { IfErr result (λ e. e ≡ Memory → WantsMemory journal.old.geometry (disk M.Media journal.old) inode) }
    ensures looks { Looks M.Media journal.old journal.new result }
{
    match parts.slot {
        Slot::Free => Ok(None),
        Slot::File { .. } => Ok(None),
        Slot::Directory { entries, .. } => {
            let directory = FoundDirectory {
                inode,
                extents: &parts.extents,
                entries,
            };
            let map = read_entries(alloc, journal, &directory)?;
            Ok(Some(map))
        }
    }
}

/// The entries of the directory at an inode, by name; `None` where there is none.
pub fn find_directory<M: Media>(
    alloc: Global,
    journal: &mut Journal<M>,
    inode: u32,
) -> Result<Option<NameMap<Child>>, AreaError>
    requires { journal.old.failed ≡ false → IsOpenable journal.old.geometry (disk M.Media journal.old) }
    ensures directory { IfOk result (λ x. x ≡ directory_in (graph journal.old.geometry (disk M.Media journal.old) inode)) }
    ensures only { IfErr result IsNoDamage }
    ensures memory { IfErr result (λ e. e ≡ Memory → WantsMemory journal.old.geometry (disk M.Media journal.old) inode) }
    ensures looks { Looks M.Media journal.old journal.new result }
{
    match find_parts(alloc, journal, inode)? {
        Some(parts) => {
            let found = directory_of(alloc, journal, inode, &parts)?;
            Ok(found)
        }
        None => Ok(None),
    }
}
