ghost use Rattle.std.specs.Prelude.{◌≡◌, Some, None, IfOk, IfErr};
ghost use Rattle.mount_nodes.specs.Paths.{node_at};
ghost use Rattle.mount_nodes.specs.Times.{IsBegun};

use crate::descriptors::Descriptors;
use crate::node::Node;
use crate::nodes::Nodes;
use crate::times::Times;
use fuse_wire::Refusal;
use std::alloc::{AllocError, Global};

/// The nodes that the kernel knows, and the files that it has open.
#[derive(Drop)]
pub struct Tables {
    pub alloc: Global,
    pub nodes: Nodes,
    pub times: Times,
    pub(crate) descriptors: Descriptors,
}

impl Tables {
    /// The root alone, with nothing open, of a mount that begins at a time of day.
    pub fn new(alloc: Global, now: u64) -> Result<Tables, AllocError>
        ensures { IfOk result (λ tables. IsBegun tables.times now) }
    {
        Ok(Tables {
            alloc,
            nodes: Nodes::new(alloc)?,
            times: Times::new(alloc, now)?,
            descriptors: Descriptors::new(),
        })
    }

    /// What has a node number. `StaleNode` where nothing has it.
    pub(crate) fn node(&self, id: u64) -> Result<&Node, Refusal>
        ensures known { IfOk result (λ node. node_at self.now.nodes id ≡ Some node.now) }
        ensures unknown { IfErr result (λ e. (node_at self.now.nodes id ≡ None) × (e ≡ Refusal.StaleNode)) }
    {
        self.nodes.get(id).ok_or(Refusal::StaleNode)
    }
}
