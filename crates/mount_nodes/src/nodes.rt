ghost use Rattle.std.specs.Prelude.{◌≡◌};
ghost use Rattle.std.specs.Option.{option_map};
ghost use Rattle.mount_nodes.specs.Paths.{node_at};
ghost use Rattle.mount_nodes.specs.Upkeep.{child_at};

use crate::node::{Node, NodeName};
use posix_calls::Name;
use std::alloc::{AllocError, Global};

/// The node of the root.
pub const ROOT_NODE: u64 = 1;

/// A node number, which is used again once the kernel has forgotten it.
#[derive(Drop)]
struct Slot {
    node: Option<Node>,
}

/// The nodes that the kernel may name, by their numbers from 1 on, which is the root.
#[derive(Drop)]
pub struct Nodes {
    alloc: Global,
    slots: Vec<Slot>,
    free: Vec<u64>,
}

impl Nodes {
    /// The root alone.
    pub(crate) fn new(alloc: Global) -> Result<Nodes, AllocError> {
        let mut slots = Vec::new(alloc);
        slots.push(Slot {
            node: Some(Node::new(alloc)),
        })?;
        Ok(Nodes {
            alloc,
            slots,
            free: Vec::new(alloc),
        })
    }

    /// What has a number.
    pub fn get(&self, id: u64) -> Option<&Node>
        ensures { option_map (λ node. node.now) result ≡ node_at self.now id }
    {
        let place = id.checked_sub(1)?;
        self.slots.get(place as usize)?.node.as_ref()
    }

    /// What has a number, to be changed.
    pub(crate) fn get_mut(&mut self, id: u64) -> Option<&mut Node> {
        let place = id.checked_sub(1)?;
        self.slots.get_mut(place as usize)?.node.as_mut()
    }

    /// The node that is known under a name of a directory.
    pub fn child(&self, folder: u64, name: &[u8]) -> Option<u64>
        ensures { result ≡ child_at self.now folder name.now }
    {
        self.get(folder)?.children.get(name).copied()
    }

    /// The node of the tree's file of a number, if it is known to be one.
    pub(crate) fn with_inode(&self, inode: u32) -> Option<u64> {
        for place in 0..self.slots.len() {
            let id = (place as u64).saturating_add(1);
            match self.get(id) {
                Some(node) if node.inode == Some(inode) => return Some(id),
                _ => {}
            }
        }
        None
    }

    /// Whether the tree has names of some node of which none is known.
    pub(crate) fn lack_names(&self) -> bool {
        self.slots.iter().any(|slot| match &slot.node {
            Some(node) => !node.is_dir && node.names.is_empty() && node.links > 0,
            None => false,
        })
    }

    /// Adds a node, and answers its number.
    pub(crate) fn add(&mut self, node: Node) -> Result<u64, AllocError> {
        if let Some(id) = self.free.pop() {
            self.reuse(id, node);
            return Ok(id);
        }
        self.slots.push(Slot { node: Some(node) })?;
        Ok(self.slots.len() as u64)
    }

    fn reuse(&mut self, id: u64, node: Node) {
        if let Some(slot) = self.slots.get_mut(id.saturating_sub(1) as usize) {
            slot.node = Some(node);
        }
    }

    /// Takes a node away on which nothing stands any more. Its number is used again, where there is memory to note that.
    pub(crate) fn drop_unused(&mut self, id: u64) {
        if id == ROOT_NODE || self.is_used(id) {
            return;
        }
        if let Some(slot) = self.slots.get_mut(id.saturating_sub(1) as usize) {
            slot.node = None;
            let _ = self.free.push(id);
        }
    }

    fn is_used(&self, id: u64) -> bool {
        match self.get(id) {
            Some(node) => node.is_used(),
            None => true,
        }
    }

    /// Notes that a node has a name, in place of what had it. Refused where memory is wanting; nothing is noted then.
    pub(crate) fn enter(&mut self, folder: u64, name: &Name, id: u64) -> Result<(), AllocError> {
        let key = name.copy(self.alloc)?;
        let own = name.copy(self.alloc)?;
        if let Some(node) = self.get_mut(id) {
            node.add_name(folder, own)?;
        }
        let end = self.put_child(folder, key, id);
        if end.is_err() {
            self.forget_name(folder, name.as_slice(), id);
        }
        end
    }

    /// Sets which node has a name of a directory.
    pub(crate) fn put_child(&mut self, folder: u64, name: Name, id: u64) -> Result<(), AllocError> {
        match self.get_mut(folder) {
            Some(folder) => folder.children.put(name, id),
            None => Ok(()),
        }
    }

    /// Notes that a directory has a name no longer, and answers the node that had it. The node stays.
    pub(crate) fn leave(&mut self, folder: u64, name: &[u8]) -> Option<u64> {
        let id = self.child(folder, name)?;
        self.remove_child(folder, name);
        self.forget_name(folder, name, id);
        Some(id)
    }

    /// Notes that a directory has a name no longer; the node that had it keeps it.
    pub(crate) fn remove_child(&mut self, folder: u64, name: &[u8]) {
        if let Some(folder) = self.get_mut(folder) {
            folder.children.remove(name);
        }
    }

    /// Notes that a node has a name no longer, whatever the directory has there now.
    pub(crate) fn forget_name(&mut self, folder: u64, name: &[u8], id: u64) {
        if let Some(node) = self.get_mut(id) {
            node.take_name(folder, name);
        }
    }

    /// Notes that a node, if one is known, has a name no longer.
    pub(crate) fn forget_known(&mut self, folder: u64, name: &[u8], id: Option<u64>) {
        if let Some(id) = id {
            self.forget_name(folder, name, id);
        }
    }

    /// Notes that two nodes changed their names, each given by its directory. It takes no memory.
    pub(crate) fn exchange_names(&mut self, one: (u64, &[u8], u64), other: (u64, &[u8], u64)) {
        self.set_child(one.0, one.1, other.2);
        self.set_child(other.0, other.1, one.2);
        let first = self.take_name(one.0, one.1, one.2);
        let second = self.take_name(other.0, other.1, other.2);
        self.give_name(one.2, second);
        self.give_name(other.2, first);
    }

    // Sets which node has a name of a directory that has it already.
    fn set_child(&mut self, folder: u64, name: &[u8], id: u64) {
        if let Some(folder) = self.get_mut(folder) {
            if folder.children.get(name).is_some() {
                folder.children.set(name, id);
            }
        }
    }

    // Takes a name from a node, if it has it.
    fn take_name(&mut self, folder: u64, name: &[u8], id: u64) -> Option<NodeName> {
        self.get_mut(id)?.take_name(folder, name)
    }

    // Gives a node a name in place of one that was taken from it, so that there is room for it.
    fn give_name(&mut self, id: u64, name: Option<NodeName>) {
        if let Some(name) = name {
            if let Some(node) = self.get_mut(id) {
                let _ = node.names.push(name);
            }
        }
    }

    /// Notes that the kernel has forgotten a node so often.
    pub fn forget(&mut self, id: u64, count: u64) {
        if let Some(node) = self.get_mut(id) {
            node.lookups = node.lookups.saturating_sub(count);
        }
        self.drop_unused(id);
    }
}
