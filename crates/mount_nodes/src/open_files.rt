// Files are opened where a request needs a descriptor: one that is known by name gives its descriptor up where another wants one.
ghost use Rattle.std.specs.Prelude.{◌≡◌, MatchResult};
ghost use Rattle.posix_calls.specs.declared.call.Call.TheVariants as call;
ghost use Rattle.mount_nodes.specs.Calls.{Answers, MayAsk, opened_of};
ghost use Rattle.mount_nodes.specs.Files.{TakesDescriptor};
ghost use Rattle.mount_nodes.specs.Upkeep.{Opens, Upkeep};

use crate::descriptors::Descriptors;
use crate::nodes::Nodes;
use crate::paths::path_of;
use crate::tables::Tables;
use crate::tree::Tree;
use fuse_wire::Refusal;
use posix_calls::{Bytes, Call, Errno, Flags, MAX_DESCRIPTORS, Reply};
use std::alloc::Global;

/// How a file is opened that is there.
pub(crate) const READ_WRITE: Flags = Flags {
    read: true,
    write: true,
    create: false,
    exclusive: false,
    truncate: false,
};

impl Tables {
    /// The descriptor of a node, opened first where it has none. `Stale` where it has neither a descriptor nor a name.
    pub(crate) fn take_descriptor<T: Tree>(&mut self, tree: &mut T, id: u64) -> Result<u32, Refusal>
        ensures asked { TakesDescriptor T.Tree self.old.nodes id result tree.old tree.new }
        ensures times { self.new.times ≡ self.old.times }
    {
        if let Some(number) = self.node(id)?.descriptor {
            return Ok(number);
        }
        let path = path_of(self.alloc, &self.nodes, id)?;
        let number = self.open_path(tree, &path, READ_WRITE)?;
        self.give_descriptor(id, number);
        Ok(number)
    }

    /// Notes that a node has a descriptor.
    pub(crate) fn give_descriptor(&mut self, id: u64, number: u32)
        ensures { self.new.times ≡ self.old.times }
    {
        if let Some(node) = self.nodes.get_mut(id) {
            node.descriptor = Some(number);
            self.descriptors.set_owner(number, Some(id));
        }
    }

    /// Opens a path. Where all descriptors are taken, that of a node which has a name is closed first; `TooManyOpen` where none has.
    pub(crate) fn open_path<T: Tree>(
        &mut self,
        tree: &mut T,
        path: &[u8],
        flags: Flags,
    ) -> Result<u32, Refusal>
        ensures asked { Opens T.Tree path.now flags ⊥ result tree.old tree.new }
        ensures times { self.new.times ≡ self.old.times }
    {
        for attempt in 0..MAX_DESCRIPTORS {
            match try_open(self.alloc, tree, path, flags) {
                Err(Refusal::Posix(Errno::TooManyOpen)) => self.close_one(tree)?,
                end => return end,
            }
        }
        Err(Refusal::Posix(Errno::TooManyOpen))
    }

    // Closes the descriptor of a node that is known by name.
    fn close_one<T: Tree>(&mut self, tree: &mut T) -> Result<(), Refusal>
        ensures asked { MatchResult result (λ _. Upkeep T.Tree tree.old tree.new) (λ e. (e ≡ Refusal.Posix Errno.TooManyOpen) × (tree.new ≡ tree.old)) }
        ensures times { self.new.times ≡ self.old.times }
    {
        match next_named(&self.nodes, &mut self.descriptors) {
            Some(id) => {
                self.close_descriptor(tree, id);
                Ok(())
            }
            None => Err(Refusal::Posix(Errno::TooManyOpen)),
        }
    }

    /// Closes the descriptor of a node, if it has one.
    pub(crate) fn close_descriptor<T: Tree>(&mut self, tree: &mut T, id: u64)
        ensures asked { Upkeep T.Tree tree.old tree.new }
        ensures times { self.new.times ≡ self.old.times }
    {
        if let Some(number) = self.drop_descriptor(id) {
            close_number(tree, number);
        }
    }

    /// Notes that a node has no descriptor any more, and answers the one that it had.
    pub(crate) fn drop_descriptor(&mut self, id: u64) -> Option<u32>
        ensures { self.new.times ≡ self.old.times }
    {
        let number = self.nodes.get_mut(id)?.descriptor.take()?;
        self.descriptors.set_owner(number, None);
        Some(number)
    }
}

// The next node in turn that has a descriptor and is known by name.
fn next_named(nodes: &Nodes, descriptors: &mut Descriptors) -> Option<u64> {
    for _ in 0..MAX_DESCRIPTORS {
        let number = descriptors.take_turn();
        if let Some(id) = named_owner(nodes, descriptors, number) {
            return Some(id);
        }
    }
    None
}

// The node that has a descriptor, where it is known by name.
fn named_owner(nodes: &Nodes, descriptors: &Descriptors, number: u32) -> Option<u64> {
    let id = descriptors.owner(number)?;
    if nodes.get(id)?.names.is_empty() {
        return None;
    }
    Some(id)
}

/// Closes a descriptor that no node has. That it can't be closed answers no request.
pub(crate) fn close_number<T: Tree>(tree: &mut T, number: u32)
    ensures { Upkeep T.Tree tree.old tree.new }
{
    let _ = tree.call(Call::Close { descriptor: number });
}

fn try_open<T: Tree>(alloc: Global, tree: &mut T, path: &[u8], flags: Flags) -> Result<u32, Refusal>
    ensures { MayAsk T.Tree (call.Open path.now flags) opened_of Answers result tree.old tree.new }
{
    let path = Bytes::copy_of(alloc, path)?;
    descriptor_of(tree.call(Call::Open { path, flags }))
}

fn descriptor_of(reply: Reply) -> Result<u32, Refusal>
    ensures { result ≡ opened_of reply }
{
    match reply {
        Reply::Opened { descriptor } => Ok(descriptor),
        Reply::Failed { errno } => Err(Refusal::Posix(errno)),
        _ => Err(Refusal::Posix(Errno::IoError)),
    }
}
