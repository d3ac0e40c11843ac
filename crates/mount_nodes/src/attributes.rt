// The attributes of a node, and what the tree answers of it.
ghost use Rattle.std.specs.Prelude.{◌≡◌, Some, None, Ok, IfOk, IfErr, OnErr};
ghost use Rattle.posix_calls.specs.declared.call.Call.TheVariants as call;
ghost use Rattle.mount_nodes.specs.Calls.{description_of, Answers, AtPath, MayAsk};
ghost use Rattle.mount_nodes.specs.Nodes.{attributes_of, kept_attributes, Describes};
ghost use Rattle.mount_nodes.specs.Paths.{node_at, path_of};

use crate::node::Node;
use crate::paths::{is_unnamed, path_of};
use crate::tables::Tables;
use crate::tree::Tree;
use fuse_wire::Refusal;
use posix_calls::{Bytes, Call, Description, Errno, Reply};
use std::alloc::Global;

/// The attributes of a node.
#[derive(Clone, Copy)]
pub struct Attributes {
    pub node: u64,
    pub is_dir: bool,
    /// In bytes.
    pub size: u64,
    pub links: u32,
}

impl Tables {
    /// Returns the attributes of a node. What has a name is asked of the tree; of a file that lost its last name the server keeps it. Where it is
    /// refused, nothing changes.
    pub fn describe<T: Tree>(&mut self, tree: &mut T, id: u64) -> Result<Attributes, Refusal>
        ensures describes { Describes T.Tree self.old.nodes id result tree.old tree.new }
        ensures refused { OnErr result (self.new ≡ self.old) }
        ensures times { self.new.times ≡ self.old.times }
    {
        let kept = self.attributes(id)?;
        if is_unnamed(&self.nodes, id) {
            return Ok(kept);
        }
        self.describe_named(tree, id)
    }

    // What the tree answers of a node that has a name.
    fn describe_named<T: Tree>(&mut self, tree: &mut T, id: u64) -> Result<Attributes, Refusal>
        ensures describes { AtPath (path_of self.old.nodes id) (λ path. MayAsk T.Tree (call.Stat path) description_of (λ d. Answers (attributes_of id d))) result tree.old tree.new }
        ensures refused { OnErr result (self.new ≡ self.old) }
        ensures times { self.new.times ≡ self.old.times }
    {
        let path = path_of(self.alloc, &self.nodes, id)?;
        let description = stat(self.alloc, tree, &path)?;
        self.note(id, description);
        Ok(attributes_of(id, description))
    }

    /// The attributes that a reply had last of a node.
    pub(crate) fn attributes(&self, id: u64) -> Result<Attributes, Refusal>
        ensures known { IfOk result (λ kept. kept_attributes self.now.nodes id ≡ Some kept) }
        ensures unknown { IfErr result (λ e. (node_at self.now.nodes id ≡ None) × (e ≡ Refusal.StaleNode)) }
    {
        let node = self.node(id)?;
        Ok(Attributes {
            node: id,
            is_dir: node.is_dir,
            size: node.size,
            links: node.links,
        })
    }

    /// Notes what the tree answered of a node.
    pub(crate) fn note(&mut self, id: u64, description: Description)
        ensures { self.new.times ≡ self.old.times }
    {
        if let Some(node) = self.nodes.get_mut(id) {
            note_in(node, description);
        }
    }
}

/// Notes in a node what the tree answered of it.
pub(crate) fn note_in(node: &mut Node, description: Description) {
    match description {
        Description::File { size, names } => {
            node.is_dir = false;
            node.size = size;
            node.links = names;
        }
        Description::Dir { .. } => {
            node.is_dir = true;
            node.size = 0;
            node.links = 1;
        }
    }
}

/// The attributes of a node, by what the tree answers of it.
pub(crate) fn attributes_of(id: u64, description: Description) -> Attributes
    ensures { result ≡ attributes_of id description }
{
    match description {
        Description::File { size, names } => Attributes {
            node: id,
            is_dir: false,
            size,
            links: names,
        },
        Description::Dir { .. } => Attributes {
            node: id,
            is_dir: true,
            size: 0,
            links: 1,
        },
    }
}

/// What is at a path.
pub(crate) fn stat<T: Tree>(
    alloc: Global,
    tree: &mut T,
    path: &[u8],
) -> Result<Description, Refusal>
    ensures { MayAsk T.Tree (call.Stat path.now) description_of Answers result tree.old tree.new }
{
    let path = Bytes::copy_of(alloc, path)?;
    description_of(tree.call(Call::Stat { path }))
}

fn description_of(reply: Reply) -> Result<Description, Refusal>
    ensures { result ≡ description_of reply }
{
    match reply {
        Reply::File { size, names } => Ok(Description::File { size, names }),
        Reply::Dir { entries } => Ok(Description::Dir { entries }),
        Reply::Failed { errno } => Err(Refusal::Posix(errno)),
        _ => Err(Refusal::Posix(Errno::IoError)),
    }
}
