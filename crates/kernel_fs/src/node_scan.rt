//! Which inodes are nodes of the shared graph, read once.

ghost use Rattle.std.specs.Prelude.{◌≡◌, ◌≤◌, ◌<◌, ◌+◌, ℕ, false, IfOk, IfErr};
ghost use Rattle.migrator.specs.area_reader.Store.{disk, graph};
ghost use Rattle.migrator.specs.area_reader.declared.error.AreaError.TheVariants.{DeviceFault};
ghost use Rattle.migrator.specs.area_reader.Looks.{Looks};
ghost use Rattle.kernel_fs.specs.Inodes.{IsInode, has};
ghost use Rattle.kernel_fs.specs.Nodes.{AreNodes, is_node};
ghost use Rattle.kernel_fs.specs.NodeScan.{AreNodesBelow};

use crate::InodeSet;
use migrator::in_area_reader::AreaError;
use migrator::in_shared_area::Shared;
use posix_calls::MAX_INODE;
use tier_device::Media;

// Whether an inode is a node, as its slot tells.
fn is_there<M: Media>(area: &mut Shared<M>, inode: u32) -> Result<bool, AreaError>
    ensures answer { IfOk result (λ b. b ≡ is_node (graph area.old.geometry (disk M.Media area.old) inode)) }
    ensures only { IfErr result (λ e. e ≡ DeviceFault) }
    ensures looks { Looks M.Media area.old area.new result }
{
    let found = area.node_counts(inode)?;
    Ok(found.is_some())
}

// One more inode is put into the set of those that are nodes, where it is one.
fn add_node<M: Media>(
    area: &mut Shared<M>,
    nodes: &mut InodeSet,
    inode: u32,
) -> Result<(), AreaError>
    requires inode { IsInode inode }
    requires below { AreNodesBelow (graph area.old.geometry (disk M.Media area.old)) inode (has nodes.old) }
    ensures below { IfOk result (λ _. AreNodesBelow (graph area.old.geometry (disk M.Media area.old)) (inode + 1) (has nodes.new)) }
    ensures only { IfErr result (λ e. e ≡ DeviceFault) }
    ensures looks { Looks M.Media area.old area.new result }
{
    if !is_there(area, inode)? {
        return Ok(());
    }
    nodes.insert(inode);
    Ok(())
}

/// The inodes that are nodes of the graph that the area spells. Its device calls are reads, and it takes no memory.
pub fn nodes_of<M: Media>(area: &mut Shared<M>) -> Result<InodeSet, AreaError>
    ensures nodes { IfOk result (λ nodes. AreNodes (graph area.old.geometry (disk M.Media area.old)) (has nodes)) }
    ensures only { IfErr result (λ e. e ≡ DeviceFault) }
    ensures looks { Looks M.Media area.old area.new result }
{
    if area.has_failed() {
        return Err(AreaError::DeviceFault);
    }
    let mut nodes = InodeSet::new();
    'inodes: for inode in 1..MAX_INODE + 1 {
        add_node(area, &mut nodes, inode)?;
    }
    Ok(nodes)
}
