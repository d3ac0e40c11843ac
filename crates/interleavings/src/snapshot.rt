//! The file tree that a world stands for, read node by node.

ghost use Rattle.std.specs.Prelude.{◌≡◌, ◌≤◌, false, true, Err, IfErr, IfOk, None, OnOk, Some, length};
ghost use Rattle.system_laws.specs.lease_manager.Words.{IsClient};
ghost use Rattle.system_laws.specs.call_effects.NodeView.{view_at};
ghost use Rattle.system_laws.specs.call_effects.Wholes.{state_of};
ghost use Rattle.system_laws.specs.file_graph.Graph.{fresh, graph_of, set_node};
ghost use Rattle.system_laws.specs.area_reader.declared.error.AreaError.TheVariants.{Memory};
ghost use Rattle.system_laws.specs.kernel_fs.declared.error.KernelError.TheVariants.{Failed, Refused};
ghost use Rattle.system_laws.specs.shared_area.FileReads.{bytes_of_inode};
ghost use Rattle.system_laws.specs.world_invariant.Logs.{after_clients, after_records};
ghost use Rattle.system_laws.specs.WorldTree.{opened_in, whole_graph, world_tree};
ghost use Rattle.interleavings.specs.Snapshots.{IsQuiet, IsRead, IsRefusedReading, kept_log, names_in, shared_graph, with_nodes};

use crate::node_copies::{put_directory, put_file, put_records};
use crate::stops::left_now;
use crate::world::World;
use std::alloc::{AllocError, Global};
use system_laws::in_area_reader::AreaError;
use system_laws::in_event_steps::System;
use system_laws::in_file_graph::{Effect, PlainGraph};
use system_laws::in_kernel_fs::KernelError;
use system_laws::in_lease_manager::INODES;
use system_laws::in_record_validation::{NodeCounts, NodeSummary};
use tier_device::Media;

impl<M: Media> World<M> {
    /// The graph of inodes that the world stands for: that on the shared medium, and over it the records of each client that are not digested. With what the clients have open it is the world's tree.
    ///
    /// Its device calls are reads, and it changes nothing. As a matter of cost it reads each node once, and wants at most 1 MiB beside the graph. `Failed` exactly where a device of the kernel has failed before, `DeviceFault` where one fails, `Memory` where there was none.
    pub fn snapshot(&mut self, alloc: Global) -> Result<PlainGraph, KernelError<AreaError>>
        ensures graph { IfOk result (λ g. graph_of g ≡ whole_graph M.Media self.old.system) }
        ensures tree { IfOk result (λ g. state_of (graph_of g) (opened_in self.old.system) ≡ world_tree M.Media self.old) }
        ensures read { IsRead M.Media self.old self.new }
        ensures kept { world_tree M.Media self.new ≡ world_tree M.Media self.old }
        ensures quiet { OnOk result (IsQuiet M.Media self.old self.new) }
        ensures failed { self.old.system.kernel.area.failed ≡ true → (result ≡ Err Failed) × (self.new ≡ self.old) }
        ensures refused { IfErr result (IsRefusedReading M.Media self.old self.new) }
    {
        if self.system.kernel().has_failed() {
            return Err(KernelError::Failed);
        }
        let mut graph = match PlainGraph::with_root(alloc) {
            Ok(graph) => graph,
            Err(_) => return Err(KernelError::Refused(AreaError::Memory)),
        };
        self.put_nodes(alloc, &mut graph)?;
        match self.put_undigested(&mut graph) {
            Ok(()) => Ok(graph),
            Err(_) => Err(KernelError::Refused(AreaError::Memory)),
        }
    }

    // Does the records of all clients that are not digested over the nodes of the shared medium.
    fn put_undigested(&self, graph: &mut PlainGraph) -> Result<(), AllocError>
        requires going { self.now.system.kernel.area.failed ≡ false }
        ensures { OnOk result (graph_of graph.old ≡ with_nodes fresh (shared_graph M.Media self.now) 1024 → graph_of graph.new ≡ whole_graph M.Media self.now.system) }
    {
        left_now(&self.system);
        put_logs(&self.system, graph)
    }

    // Puts each node of the shared medium into a graph.
    fn put_nodes(
        &mut self,
        alloc: Global,
        graph: &mut PlainGraph,
    ) -> Result<(), KernelError<AreaError>>
        requires going { self.old.system.kernel.area.failed ≡ false }
        ensures put { OnOk result (graph_of graph.new ≡ with_nodes (graph_of graph.old) (shared_graph M.Media self.old) 1024) }
        ensures read { IsRead M.Media self.old self.new }
        ensures quiet { OnOk result (IsQuiet M.Media self.old self.new) }
        ensures refused { IfErr result (IsRefusedReading M.Media self.old self.new) }
    {
        for inode in 1..INODES + 1 {
            self.put_node(alloc, inode, graph)?;
        }
        Ok(())
    }

    // Puts what stands at an inode of the shared medium into a graph.
    fn put_node(
        &mut self,
        alloc: Global,
        inode: u32,
        graph: &mut PlainGraph,
    ) -> Result<(), KernelError<AreaError>>
        requires going { self.old.system.kernel.area.failed ≡ false }
        ensures put { OnOk result (graph_of graph.new ≡ set_node (graph_of graph.old) inode (shared_graph M.Media self.old inode)) }
        ensures read { IsRead M.Media self.old self.new }
        ensures quiet { OnOk result (IsQuiet M.Media self.old self.new) }
        ensures refused { IfErr result (IsRefusedReading M.Media self.old self.new) }
    {
        match self.node_at(inode)? {
            Some(node) => self.put_found(alloc, inode, &node, graph),
            None => drop_node(graph, inode),
        }
    }

    // Puts a node of which all but the bytes of a file is known into a graph.
    fn put_found(
        &mut self,
        alloc: Global,
        inode: u32,
        node: &NodeSummary,
        graph: &mut PlainGraph,
    ) -> Result<(), KernelError<AreaError>>
        requires found { Some node.now ≡ view_at (shared_graph M.Media self.old) inode }
        requires going { self.old.system.kernel.area.failed ≡ false }
        ensures put { OnOk result (graph_of graph.new ≡ set_node (graph_of graph.old) inode (shared_graph M.Media self.old inode)) }
        ensures read { IsRead M.Media self.old self.new }
        ensures quiet { OnOk result (IsQuiet M.Media self.old self.new) }
        ensures refused { IfErr result (IsRefusedReading M.Media self.old self.new) }
    {
        let put = if node.is_dir() {
            put_directory(alloc, graph, inode, names_of(node), node)
        } else {
            let bytes = self.file_bytes(alloc, inode, node.file_size())?;
            put_file(graph, inode, names_of(node), bytes)
        };
        match put {
            Ok(()) => Ok(()),
            Err(_) => Err(KernelError::Refused(AreaError::Memory)),
        }
    }

    // What stands at an inode of the shared medium.
    fn node_at(&mut self, inode: u32) -> Result<Option<NodeSummary>, KernelError<AreaError>>
        requires going { self.old.system.kernel.area.failed ≡ false }
        ensures node { IfOk result (λ n. n ≡ view_at (shared_graph M.Media self.old) inode) }
        ensures read { IsRead M.Media self.old self.new }
        ensures quiet { OnOk result (IsQuiet M.Media self.old self.new) }
        ensures refused { IfErr result (IsRefusedReading M.Media self.old self.new) }
    {
        Ok(self.look(inode)?.node)
    }

    // All bytes of a file of the shared medium, whose size is known.
    fn file_bytes(
        &mut self,
        alloc: Global,
        inode: u32,
        size: u64,
    ) -> Result<Vec<u8>, KernelError<AreaError>>
        requires size { size ≡ length (bytes_of_inode (shared_graph M.Media self.old) inode) }
        requires going { self.old.system.kernel.area.failed ≡ false }
        ensures bytes { IfOk result (λ v. v.items ≡ bytes_of_inode (shared_graph M.Media self.old) inode) }
        ensures read { IsRead M.Media self.old self.new }
        ensures quiet { OnOk result (IsQuiet M.Media self.old self.new) }
        ensures refused { IfErr result (IsRefusedReading M.Media self.old self.new) }
    {
        let mut bytes = match vec![in alloc; 0u8; size as usize] {
            Ok(bytes) => bytes,
            Err(_) => return Err(KernelError::Refused(AreaError::Memory)),
        };
        self.read_file(inode, 0, &mut bytes)?;
        Ok(bytes)
    }
}

// Has nothing stand at an inode of a graph.
fn drop_node(graph: &mut PlainGraph, inode: u32) -> Result<(), KernelError<AreaError>>
    ensures put { OnOk result (graph_of graph.new ≡ set_node (graph_of graph.old) inode None) }
    ensures memory { IfErr result (λ e. e ≡ Refused Memory) }
{
    match graph.apply(&Effect::Drop { inode }) {
        Ok(()) => Ok(()),
        Err(_) => Err(KernelError::Refused(AreaError::Memory)),
    }
}

fn names_of(node: &NodeSummary) -> u32
    ensures { result ≡ names_in node.now }
{
    match node.counts() {
        NodeCounts::File { names, .. } => names,
        NodeCounts::Directory { names, .. } => names,
    }
}

// Does the records of all clients that are not digested over a graph.
fn put_logs<M: Media>(system: &System<M>, graph: &mut PlainGraph) -> Result<(), AllocError>
    ensures { OnOk result (graph_of graph.new ≡ after_clients (kept_log M.Media system.now) (graph_of graph.old) 8) }
{
    for client in 1..9u32 {
        put_log(system, client, graph)?;
    }
    Ok(())
}

// Does those of one client.
fn put_log<M: Media>(
    system: &System<M>,
    client: u32,
    graph: &mut PlainGraph,
) -> Result<(), AllocError>
    requires client { IsClient client }
    ensures { OnOk result (graph_of graph.new ≡ after_records (graph_of graph.old) (kept_log M.Media system.now client)) }
{
    put_records(graph, system.sealed_records(client))?;
    put_records(graph, system.current_records(client))
}
