ghost use Rattle.std.specs.Prelude.{◌<◌, length, IfSome};

use file_graph::NameMap;
use posix_calls::Name;
use std::alloc::{AllocError, Global};

/// A name by which a node is known.
#[derive(Drop)]
pub struct NodeName {
    /// The node of the directory that has it.
    pub folder: u64,
    pub name: Name,
}

/// A file or a directory that the kernel knows, or may come to know.
#[derive(Drop)]
pub struct Node {
    pub is_dir: bool,
    /// A file's size in bytes, as the last reply had it.
    pub size: u64,
    /// How many names a file has, as the last reply had it.
    pub links: u32,
    /// The tree's number of a file that had several names when it was met.
    pub inode: Option<u32>,
    /// How many lookups of it the kernel has not forgotten.
    pub lookups: u64,
    /// How often it is open.
    pub opens: u64,
    /// The descriptor under which the tree has it open.
    pub descriptor: Option<u32>,
    /// The names that are known of it.
    pub names: Vec<NodeName>,
    /// The nodes that are known below a directory.
    pub children: NameMap<u64>,
}

impl Node {
    /// A directory of which no name is known.
    pub(crate) fn new(alloc: Global) -> Node {
        Node {
            is_dir: true,
            size: 0,
            links: 1,
            inode: None,
            lookups: 0,
            opens: 0,
            descriptor: None,
            names: Vec::new(alloc),
            children: NameMap::new(alloc),
        }
    }

    /// Whether something still stands on it: a name, the kernel, or who has it open.
    pub(crate) fn is_used(&self) -> bool {
        !self.names.is_empty() || self.lookups > 0 || self.opens > 0
    }

    /// Whether it is open and has one name that is known: without that it is reached by its descriptor alone.
    pub(crate) fn is_held_by_name(&self) -> bool {
        !self.is_dir && self.opens > 0 && self.names.len() == 1
    }

    /// Adds a name.
    pub(crate) fn add_name(&mut self, folder: u64, name: Name) -> Result<(), AllocError> {
        self.names.push(NodeName { folder, name })?;
        Ok(())
    }

    /// Notes that it has one name less. The tree gives the number of a file without names to another one.
    pub(crate) fn lose_link(&mut self) {
        self.links = self.links.saturating_sub(1);
        if self.links == 0 {
            self.inode = None;
        }
    }

    /// Takes a name away, and answers it, if it has it.
    pub(crate) fn take_name(&mut self, folder: u64, name: &[u8]) -> Option<NodeName> {
        let place = place_of(&self.names, folder, name)?;
        Some(self.names.remove(place))
    }
}

fn place_of(names: &[NodeName], folder: u64, name: &[u8]) -> Option<usize>
    ensures { IfSome result (λ place. place < length names.now) }
{
    names.iter().position(|known| known.folder == folder && known.name.as_slice() == name)
}
