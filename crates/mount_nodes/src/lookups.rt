// Names are looked up, and made.
ghost use Rattle.std.specs.Prelude.{◌≡◌, ◌⊎◌, true, false, Some, None, Ok, Err, IfOk, IfErr, OnOk};
ghost use Rattle.posix_calls.specs.Name.{is_name};
ghost use Rattle.posix_calls.specs.declared.call.Call.TheVariants as call;
ghost use Rattle.mount_nodes.specs.Calls.{description_of, done_of, Answers, MayAsk};
ghost use Rattle.mount_nodes.specs.Creations.{MakesAt, creation};
ghost use Rattle.mount_nodes.specs.Nodes.{Finds, LooksUp, MakesDir, DescribesNode};
ghost use Rattle.mount_nodes.specs.Paths.{name_path};
ghost use Rattle.mount_nodes.specs.Refusals.{IsMemory};
ghost use Rattle.mount_nodes.specs.Times.{GoesOn, IsWritten, Meets};
ghost use Rattle.mount_nodes.specs.Upkeep.{Upkeep};

use crate::attributes::{Attributes, attributes_of, note_in, stat};
use crate::node::Node;
use crate::open_files::close_number;
use crate::paths::path_below;
use crate::tables::Tables;
use crate::tree::Tree;
use fuse_wire::Refusal;
use posix_calls::{Bytes, Call, Description, Errno, Flags, MAX_NAME, Name, Path, Reply};
use std::alloc::{AllocError, Global};

impl Tables {
    /// Looks a name of a directory up, and counts one more lookup of the node.
    #[tactic(auto, using(crate::proofs::TimeLemmas::met_same))]
    pub fn look_up<T: Tree>(
        &mut self,
        tree: &mut T,
        folder: u64,
        name: &[u8],
    ) -> Result<Attributes, Refusal>
        ensures asked { LooksUp T.Tree self.old.nodes folder name.now result tree.old tree.new }
        ensures times { Meets self.old.times self.new.times }
    {
        let (name, path) = self.read_place(folder, name)?;
        self.tell_of(tree, folder, &name, &path)
    }

    /// The name that bytes of a request are, and its path in a directory.
    pub(crate) fn read_place(&self, folder: u64, bytes: &[u8]) -> Result<(Name, Vec<u8>), Refusal>
        ensures place { IfOk result (λ place. (place.0 ≡ bytes.now) × (name_path self.now.nodes folder bytes.now ≡ Some place.1.items)) }
        ensures unknown { IfErr result (λ e. IsMemory e ⊎ (name_path self.now.nodes folder bytes.now ≡ None)) }
    {
        let name = read_name(self.alloc, bytes)?;
        let path = path_below(self.alloc, &self.nodes, folder, name.as_slice())?;
        Ok((name, path))
    }

    /// Makes a file that was not there, and closes it.
    #[tactic(auto, using(crate::proofs::TimeLemmas::goes_same))]
    pub fn make_file<T: Tree>(
        &mut self,
        tree: &mut T,
        folder: u64,
        name: &[u8],
    ) -> Result<Attributes, Refusal>
        ensures asked { MakesAt T.Tree self.old.nodes folder name.now (creation true false) result tree.old tree.new }
        ensures times { GoesOn self.old.times self.new.times }
        ensures made { OnOk result (IsWritten self.old.times self.new.times folder) }
        ensures fresh { IfOk result (λ a. IsWritten self.old.times self.new.times a.node) }
    {
        let (name, path) = self.read_place(folder, name)?;
        let number = self.open_path(tree, &path, creation(true, false))?;
        close_number(tree, number);
        self.tell_made(tree, folder, &name, &path)
    }

    /// Makes a file where none is, and opens it.
    #[tactic(auto, using(crate::proofs::TimeLemmas::goes_same))]
    pub fn create<T: Tree>(
        &mut self,
        tree: &mut T,
        folder: u64,
        name: &[u8],
        flags: Flags,
    ) -> Result<Attributes, Refusal>
        ensures asked { MakesAt T.Tree self.old.nodes folder name.now flags result tree.old tree.new }
        ensures times { GoesOn self.old.times self.new.times }
        ensures made { OnOk result (IsWritten self.old.times self.new.times folder) }
        ensures fresh { IfOk result (λ a. IsWritten self.old.times self.new.times a.node) }
    {
        let (name, path) = self.read_place(folder, name)?;
        let number = self.open_path(tree, &path, flags)?;
        let found = self.tell_made(tree, folder, &name, &path);
        self.keep_open(tree, &found, number);
        found
    }

    // Notes that the node that was looked up is open once more, under this descriptor, which is closed where none was.
    fn keep_open<T: Tree>(&mut self, tree: &mut T, found: &Result<Attributes, Refusal>, number: u32)
        ensures asked { Upkeep T.Tree tree.old tree.new }
        ensures times { self.new.times ≡ self.old.times }
    {
        match found {
            Ok(attributes) => self.adopt(tree, attributes.node, number),
            Err(_) => close_number(tree, number),
        }
    }

    // Notes that a node is open once more, under this descriptor, which is not needed where it has one.
    fn adopt<T: Tree>(&mut self, tree: &mut T, id: u64, number: u32)
        ensures asked { Upkeep T.Tree tree.old tree.new }
        ensures times { self.new.times ≡ self.old.times }
    {
        if self.adds_open(id) {
            self.give_descriptor(id, number);
        } else {
            close_number(tree, number);
        }
    }

    // Notes that a node is open once more, and answers whether it has no descriptor.
    fn adds_open(&mut self, id: u64) -> bool
        ensures { self.new.times ≡ self.old.times }
    {
        match self.nodes.get_mut(id) {
            Some(node) => {
                node.opens = node.opens.saturating_add(1);
                node.descriptor.is_none()
            }
            None => false,
        }
    }

    /// Makes an empty directory.
    #[tactic(auto, using(crate::proofs::TimeLemmas::goes_same))]
    pub fn make_dir<T: Tree>(
        &mut self,
        tree: &mut T,
        folder: u64,
        name: &[u8],
    ) -> Result<Attributes, Refusal>
        ensures asked { MakesDir T.Tree self.old.nodes folder name.now result tree.old tree.new }
        ensures times { GoesOn self.old.times self.new.times }
        ensures made { OnOk result (IsWritten self.old.times self.new.times folder) }
        ensures fresh { IfOk result (λ a. IsWritten self.old.times self.new.times a.node) }
    {
        let (name, path) = self.read_place(folder, name)?;
        make_dir_at(self.alloc, tree, &path)?;
        self.tell_made(tree, folder, &name, &path)
    }

    // Returns the attributes of what was made with a name, at its path, and counts the lookup.
    fn tell_made<T: Tree>(
        &mut self,
        tree: &mut T,
        folder: u64,
        name: &Name,
        path: &[u8],
    ) -> Result<Attributes, Refusal>
        ensures asked { MayAsk T.Tree (call.Stat path.now) description_of (DescribesNode T.Tree path.now) result tree.old tree.new }
        ensures times { GoesOn self.old.times self.new.times }
        ensures made { OnOk result (IsWritten self.old.times self.new.times folder) }
        ensures fresh { IfOk result (λ a. IsWritten self.old.times self.new.times a.node) }
    {
        self.times.write(folder);
        let made = self.tell_of(tree, folder, name, path)?;
        self.times.write(made.node);
        Ok(made)
    }

    // Returns the attributes of what has a name, at its path, and counts the lookup.
    #[tactic(auto, using(crate::proofs::TimeLemmas::met_same))]
    fn tell_of<T: Tree>(
        &mut self,
        tree: &mut T,
        folder: u64,
        name: &Name,
        path: &[u8],
    ) -> Result<Attributes, Refusal>
        ensures asked { MayAsk T.Tree (call.Stat path.now) description_of (DescribesNode T.Tree path.now) result tree.old tree.new }
        ensures times { Meets self.old.times self.new.times }
    {
        let description = stat(self.alloc, tree, path)?;
        let id = self.find(tree, folder, name, path, description)?;
        self.note(id, description);
        self.count_lookup(id);
        Ok(attributes_of(id, description))
    }

    // The node of a name.
    #[tactic(auto, using(crate::proofs::TimeLemmas::met_same))]
    fn find<T: Tree>(
        &mut self,
        tree: &mut T,
        folder: u64,
        name: &Name,
        path: &[u8],
        description: Description,
    ) -> Result<u64, Refusal>
        ensures asked { Finds T.Tree path.now result tree.old tree.new }
        ensures times { Meets self.old.times self.new.times }
    {
        match self.nodes.child(folder, name.as_slice()) {
            Some(id) => Ok(id),
            None => self.meet(tree, folder, name, path, description),
        }
    }

    // Counts one more lookup of a node that is known; the count stays at the greatest number once it is there.
    pub(crate) fn count_lookup(&mut self, id: u64)
        ensures { self.new.times ≡ self.old.times }
    {
        if let Some(node) = self.nodes.get_mut(id) {
            node.lookups = node.lookups.saturating_add(1);
        }
    }

    // The node of a name that was not known. It may be one that is known by another name, or was: where the file has several, or some
    // node has names that are not known, the tree says which file it is.
    #[tactic(auto, using(crate::proofs::TimeLemmas::met_same))]
    fn meet<T: Tree>(
        &mut self,
        tree: &mut T,
        folder: u64,
        name: &Name,
        path: &[u8],
        description: Description,
    ) -> Result<u64, Refusal>
        ensures asked { Finds T.Tree path.now result tree.old tree.new }
        ensures times { Meets self.old.times self.new.times }
    {
        if !self.may_be_known(description) {
            return self.enter_node(folder, name, None, description);
        }
        let inode = inode_at(self.alloc, tree, path)?;
        self.enter_node(folder, name, Some(inode), description)
    }

    // Whether what has these attributes may be a node that is known, or was, by another name.
    fn may_be_known(&self, description: Description) -> bool {
        match description {
            Description::File { names, .. } => names > 1 || self.nodes.lack_names(),
            Description::Dir { .. } => false,
        }
    }

    // Gives a name to the node of an inode, or to a new one.
    #[tactic(auto, using(crate::proofs::TimeLemmas::met_same))]
    fn enter_node(
        &mut self,
        folder: u64,
        name: &Name,
        inode: Option<u32>,
        description: Description,
    ) -> Result<u64, Refusal>
        ensures asked { IfErr result (λ e. IsMemory e) }
        ensures times { Meets self.old.times self.new.times }
    {
        let id = match self.node_with_inode(inode) {
            Some(id) => id,
            None => self.add_node(inode, description)?,
        };
        let end = self.nodes.enter(folder, name, id);
        self.nodes.drop_unused(id);
        end?;
        Ok(id)
    }

    fn node_with_inode(&self, inode: Option<u32>) -> Option<u64> {
        self.nodes.with_inode(inode?)
    }

    #[tactic(auto, using(crate::proofs::TimeLemmas::met_same))]
    fn add_node(&mut self, inode: Option<u32>, description: Description) -> Result<u64, AllocError>
        ensures { Meets self.old.times self.new.times }
    {
        let mut node = Node::new(self.alloc);
        node.inode = inode;
        note_in(&mut node, description);
        let id = self.nodes.add(node)?;
        let begun = self.times.begin(id);
        if begun.is_err() {
            self.nodes.drop_unused(id);
        }
        begun?;
        Ok(id)
    }
}

/// How a file is opened that is made where none is: whether a name that is taken refuses it, and a file that is there loses its bytes.
pub fn creation(exclusive: bool, truncate: bool) -> Flags
    ensures { result ≡ creation exclusive truncate }
{
    Flags {
        read: true,
        write: true,
        create: true,
        exclusive,
        truncate,
    }
}

// The tree's number of the file at a path.
fn inode_at<T: Tree>(alloc: Global, tree: &mut T, path: &[u8]) -> Result<u32, Refusal>
    ensures { Finds T.Tree path.now result tree.old tree.new }
{
    let path = Path::read(alloc, path)?;
    Ok(tree.inode(&path)?)
}

// Makes an empty directory at a path.
fn make_dir_at<T: Tree>(alloc: Global, tree: &mut T, path: &[u8]) -> Result<(), Refusal>
    ensures { MayAsk T.Tree (call.Mkdir path.now) done_of Answers result tree.old tree.new }
{
    let path = Bytes::copy_of(alloc, path)?;
    check_done(tree.call(Call::Mkdir { path }))
}

/// The name that bytes of a request are. `NameTooLong` over 64 bytes, `Invalid` where they are none.
pub(crate) fn read_name(alloc: Global, bytes: &[u8]) -> Result<Name, Refusal>
    ensures name { IfOk result (λ name. (name ≡ bytes.now) × (is_name bytes.now ≡ true)) }
    ensures refused { IfErr result (λ e. IsMemory e ⊎ (is_name bytes.now ≡ false)) }
{
    if bytes.len() > MAX_NAME {
        return Err(Refusal::Posix(Errno::NameTooLong));
    }
    match Name::from_vec(bytes.to_vec(alloc)?) {
        Ok(name) => Ok(name),
        Err(_) => Err(Refusal::Posix(Errno::Invalid)),
    }
}

/// Answers whether a call was done whose reply has no more.
pub(crate) fn check_done(reply: Reply) -> Result<(), Refusal>
    ensures { result ≡ done_of reply }
{
    match reply {
        Reply::Done => Ok(()),
        Reply::Failed { errno } => Err(Refusal::Posix(errno)),
        _ => Err(Refusal::Posix(Errno::IoError)),
    }
}
