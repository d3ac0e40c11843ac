// Names go, and move.
ghost use Rattle.std.specs.Prelude.{◌≡◌, IfSome, OnErr, OnOk};
ghost use Rattle.posix_calls.specs.declared.call.Call.TheVariants as call;
ghost use Rattle.mount_nodes.specs.Calls.{Answers, MayAsk, description_of, done_of};
ghost use Rattle.mount_nodes.specs.Files.{Links, DescribesAgain, Unlinks};
ghost use Rattle.mount_nodes.specs.Nodes.{RemovesDir};
ghost use Rattle.mount_nodes.specs.Times.{IsNamed, IsWritten, Runs};
ghost use Rattle.mount_nodes.specs.Upkeep.{IsLost, KeepsUp};

use crate::attributes::{Attributes, attributes_of, stat};
use crate::lookups::check_done;
use crate::open_files::READ_WRITE;
use crate::paths::{path_below, path_of};
use crate::tables::Tables;
use crate::tree::Tree;
use fuse_wire::Refusal;
use posix_calls::{Bytes, Call, Errno, Name};
use std::alloc::Global;

impl Tables {
    /// Takes a name of a file away. One that is open stays usable: where this is its last name, its descriptor is taken before.
    #[tactic(auto, using(crate::proofs::TimeLemmas::runs_same))]
    pub fn unlink<T: Tree>(&mut self, tree: &mut T, folder: u64, name: &[u8]) -> Result<(), Refusal>
        ensures asked { Unlinks T.Tree self.old.nodes folder name.now result tree.old tree.new }
        ensures times { Runs self.old.times self.new.times }
        ensures left { OnOk result (IsWritten self.old.times self.new.times folder) }
    {
        let path = path_below(self.alloc, &self.nodes, folder, name)?;
        let known = self.nodes.child(folder, name);
        self.hold_open(tree, known)?;
        check_done(tree.call(Call::Unlink {
            path: Bytes::from_vec(path),
        }))?;
        self.leave(folder, name);
        Ok(())
    }

    /// Takes an empty directory away. Where it is refused, nothing changes.
    #[tactic(auto, using(crate::proofs::TimeLemmas::runs_same))]
    pub fn remove_dir<T: Tree>(
        &mut self,
        tree: &mut T,
        folder: u64,
        name: &[u8],
    ) -> Result<(), Refusal>
        ensures removes { RemovesDir T.Tree self.old.nodes folder name.now result tree.old tree.new }
        ensures refused { OnErr result (self.new ≡ self.old) }
        ensures times { Runs self.old.times self.new.times }
        ensures left { OnOk result (IsWritten self.old.times self.new.times folder) }
    {
        let path = path_below(self.alloc, &self.nodes, folder, name)?;
        check_done(tree.call(Call::Rmdir {
            path: Bytes::from_vec(path),
        }))?;
        self.leave(folder, name);
        Ok(())
    }

    /// Takes the descriptor of a file that is open and is to lose its last name, and notes its size.
    pub(crate) fn hold_open<T: Tree>(
        &mut self,
        tree: &mut T,
        id: Option<u64>,
    ) -> Result<(), Refusal>
        ensures asked { KeepsUp T.Tree (IfSome id (λ id. IsLost self.old.nodes id)) result tree.old tree.new }
        ensures times { self.new.times ≡ self.old.times }
    {
        let Some(id) = id else {
            return Ok(());
        };
        if !self.node(id)?.is_held_by_name() {
            return Ok(());
        }
        let path = path_of(self.alloc, &self.nodes, id)?;
        self.hold_at(tree, id, &path)
    }

    // Takes the descriptor of the file at a path, and notes its size.
    fn hold_at<T: Tree>(&mut self, tree: &mut T, id: u64, path: &[u8]) -> Result<(), Refusal>
        ensures asked { KeepsUp T.Tree ⊥ result tree.old tree.new }
        ensures times { self.new.times ≡ self.old.times }
    {
        self.note_size(tree, id, path)?;
        if self.has_descriptor(id) {
            return Ok(());
        }
        let number = self.open_path(tree, path, READ_WRITE)?;
        self.give_descriptor(id, number);
        Ok(())
    }

    // Notes what the tree answers of the node at a path.
    fn note_size<T: Tree>(&mut self, tree: &mut T, id: u64, path: &[u8]) -> Result<(), Refusal>
        ensures asked { KeepsUp T.Tree ⊥ result tree.old tree.new }
        ensures times { self.new.times ≡ self.old.times }
    {
        let description = stat(self.alloc, tree, path)?;
        self.note(id, description);
        Ok(())
    }

    fn has_descriptor(&self, id: u64) -> bool {
        match self.nodes.get(id) {
            Some(node) => node.descriptor.is_some(),
            None => false,
        }
    }

    // Notes that a name is gone.
    fn leave(&mut self, folder: u64, name: &[u8])
        ensures times { Runs self.old.times self.new.times }
        ensures left { IsWritten self.old.times self.new.times folder }
    {
        self.times.write(folder);
        let gone = self.nodes.leave(folder, name);
        self.lose_known(gone);
    }

    /// Notes that a node, if one is known, has one name less.
    #[tactic(auto, using(crate::proofs::TimeLemmas::runs_same))]
    pub(crate) fn lose_known(&mut self, id: Option<u64>)
        ensures { Runs self.old.times self.new.times }
    {
        if let Some(id) = id {
            self.lose_link(id);
        }
    }

    /// Notes that a node has one name less, and lets it go where nothing stands on it.
    pub(crate) fn lose_link(&mut self, id: u64)
        ensures { Runs self.old.times self.new.times }
    {
        self.times.touch(id);
        if let Some(node) = self.nodes.get_mut(id) {
            node.lose_link();
        }
        self.nodes.drop_unused(id);
    }

    /// Gives a file a further name, and counts one more lookup of the node.
    #[tactic(auto, using(crate::proofs::TimeLemmas::runs_same))]
    pub fn link<T: Tree>(
        &mut self,
        tree: &mut T,
        id: u64,
        folder: u64,
        bytes: &[u8],
    ) -> Result<Attributes, Refusal>
        ensures asked { Links T.Tree self.old.nodes id folder bytes.now result tree.old tree.new }
        ensures times { Runs self.old.times self.new.times }
        ensures entered { OnOk result (IsWritten self.old.times self.new.times folder) }
        ensures named { OnOk result (IsNamed self.old.times self.new.times id) }
    {
        let old = path_of(self.alloc, &self.nodes, id)?;
        let (name, new) = self.read_place(folder, bytes)?;
        if self.nodes.child(folder, bytes).is_some() {
            return Err(Refusal::Posix(Errno::Exists));
        }
        self.enter_link(tree, (id, folder, &name), &old, &new)?;
        self.times.write(folder);
        self.times.give_name(id);
        self.tell_again(tree, id, &old)
    }

    // Links two paths. The name is entered before the call, so that no memory is wanted behind it.
    fn enter_link<T: Tree>(
        &mut self,
        tree: &mut T,
        names: (u64, u64, &Name),
        old: &[u8],
        new: &[u8],
    ) -> Result<(), Refusal>
        ensures asked { MayAsk T.Tree (call.Link old.now new.now) done_of Answers result tree.old tree.new }
        ensures times { self.new.times ≡ self.old.times }
    {
        let (id, folder, name) = names;
        self.nodes.enter(folder, name, id)?;
        let end = link_paths(self.alloc, tree, old, new);
        if end.is_err() {
            let _ = self.nodes.leave(folder, name.as_slice());
        }
        end
    }

    // Returns the attributes of a known node, at a path of it, and counts the lookup.
    fn tell_again<T: Tree>(
        &mut self,
        tree: &mut T,
        id: u64,
        path: &[u8],
    ) -> Result<Attributes, Refusal>
        ensures asked { MayAsk T.Tree (call.Stat path.now) description_of (DescribesAgain id) result tree.old tree.new }
        ensures times { self.new.times ≡ self.old.times }
    {
        let found = self.tell_known(tree, id, path);
        if found.is_ok() {
            self.count_lookup(id);
        }
        found
    }

    /// Returns the attributes of a node that is known, at a path of it.
    pub(crate) fn tell_known<T: Tree>(
        &mut self,
        tree: &mut T,
        id: u64,
        path: &[u8],
    ) -> Result<Attributes, Refusal>
        ensures asked { MayAsk T.Tree (call.Stat path.now) description_of (DescribesAgain id) result tree.old tree.new }
        ensures times { self.new.times ≡ self.old.times }
    {
        let description = stat(self.alloc, tree, path)?;
        self.note(id, description);
        Ok(attributes_of(id, description))
    }
}

fn link_paths<T: Tree>(alloc: Global, tree: &mut T, old: &[u8], new: &[u8]) -> Result<(), Refusal>
    ensures { MayAsk T.Tree (call.Link old.now new.now) done_of Answers result tree.old tree.new }
{
    let old = Bytes::copy_of(alloc, old)?;
    let new = Bytes::copy_of(alloc, new)?;
    check_done(tree.call(Call::Link { old, new }))
}
