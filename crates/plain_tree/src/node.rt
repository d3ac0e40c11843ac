ghost use Rattle.std.specs.Prelude.{◌≡◌, ◌≤◌, ◌+◌, ℕ, Option, None, Some, length, take, drop, map, option_map, [], ◌<◌, IfOk, IfErr, OnOk, OnErr};
ghost use Rattle.std.specs.FinMap as fin;
ghost use Rattle.posix_calls.specs.Content.{with_length, with_bytes};
ghost use Rattle.posix_calls.specs.Tree.{File, Dir, bytes_of, entries_of};
ghost use Rattle.posix_calls.specs.Query.{dir_test};
ghost use Rattle.plain_tree.specs.Bodies.{node_of};
ghost use Rattle.posix_calls.specs.declared.limits.TheConstants.{MAX_ENTRIES};

use file_graph::{EntryRoom, FileBytes, NameMap};
use posix_calls::{Bytes, Name, Names};
use std::alloc::{AllocError, Global};
use std::marker::Model;

/// What stands at an inode, if anything does. Contracts see it as a node.
#[derive(Drop)]
pub struct PlainNode {
    body: PlainBody,
}

/// What is in a node.
#[derive(Drop)]
pub enum PlainBody {
    Nothing,
    File(FileBytes),
    Directory(NameMap<u32>),
}

impl Model for PlainNode {
    ghost use Rattle.std.specs.Prelude.{Option};
    ghost use Rattle.std.specs.Coded.{coded_option};
    ghost use Rattle.posix_calls.specs.Tree.{Node};
    ghost use Rattle.plain_tree.specs.Codes.{plain_node_code};

    ghost Value = { Option Node };

    ghost coded = { coded_option plain_node_code };

    ghost use Rattle.plain_tree.specs.Bodies.{node_of};

    ghost view = { λ n. node_of n.body };
}

impl PlainNode {
    /// Nothing.
    pub fn nothing() -> Self
        ensures { result ≡ None }
    {
        PlainNode {
            body: PlainBody::Nothing,
        }
    }

    /// A file with no bytes.
    pub fn file(alloc: Global) -> Self
        ensures { result ≡ Some (File []) }
    {
        PlainNode {
            body: PlainBody::File(FileBytes::new(alloc)),
        }
    }

    /// A directory with no entries.
    pub fn directory(alloc: Global) -> Self
        ensures { result ≡ Some (Dir fin.empty) }
    {
        PlainNode {
            body: PlainBody::Directory(NameMap::new(alloc)),
        }
    }

    /// Whether it is a directory.
    pub fn is_dir(&self) -> Option<bool>
        ensures { result ≡ option_map dir_test self.now }
    {
        match &self.body {
            PlainBody::Nothing => None,
            PlainBody::File(_) => Some(false),
            PlainBody::Directory(_) => Some(true),
        }
    }

    /// The inode under a name of a directory.
    #[tactic(auto, using(crate::proofs::Answering::where_nothing_is))]
    pub fn entry(&self, name: &[u8]) -> Option<u32>
        ensures { result ≡ fin.get (entries_of self.now) name.now }
    {
        match &self.body {
            PlainBody::Nothing | PlainBody::File(_) => None,
            PlainBody::Directory(entries) => entries.get(name).copied(),
        }
    }

    /// How many entries a directory has.
    #[tactic(auto, using(crate::proofs::Answering::where_nothing_is))]
    pub fn entry_count(&self) -> u32
        ensures { result ≡ fin.len (entries_of self.now) }
    {
        match &self.body {
            PlainBody::Nothing | PlainBody::File(_) => 0,
            PlainBody::Directory(entries) => entries.len(),
        }
    }

    /// The names in a directory, in the order of their bytes. No memory is wanted where there is none.
    #[tactic(auto, using(crate::proofs::Answering::where_nothing_is))]
    pub fn names(&self, alloc: Global) -> Result<Names, AllocError>
        ensures names { IfOk result (λ names. names ≡ map (λ e. e.0) (fin.entries (entries_of self.now))) }
        ensures memory { IfErr result (λ _. 0 < fin.len (entries_of self.now)) }
    {
        match &self.body {
            PlainBody::Nothing | PlainBody::File(_) => Ok(Names::from_vec(Vec::new(alloc))),
            PlainBody::Directory(entries) => entries.names(alloc),
        }
    }

    /// How many bytes a file has.
    pub fn size(&self) -> u64
        ensures { result ≡ length (bytes_of self.now) }
    {
        match &self.body {
            PlainBody::File(bytes) => bytes.len(),
            _ => 0,
        }
    }

    /// Up to `count` bytes of a file from an offset on.
    pub fn read(&self, alloc: Global, at: u64, count: u64) -> Result<Bytes, AllocError>
        ensures { IfOk result (λ bytes. bytes ≡ take count (drop at (bytes_of self.now))) }
    {
        match &self.body {
            PlainBody::File(bytes) => Bytes::copy_of(alloc, bytes.range(at, count)),
            _ => Ok(Bytes::from_vec(Vec::new(alloc))),
        }
    }

    /// Puts an inode under a name of a directory; what is none becomes one. Where there is no memory for it, the node stays.
    pub fn enter(&mut self, alloc: Global, name: Name, inode: u32) -> Result<(), AllocError>
        ensures ok { OnOk result (self.new ≡ Some (Dir (fin.insert (entries_of self.old) name inode))) }
        ensures err { OnErr result (self.new ≡ self.old) }
    {
        enter(alloc, &mut self.body, name, inode)
    }

    /// Room for two entries more than a directory has.
    pub fn room(&self, alloc: Global) -> Result<EntryRoom<u32>, AllocError>
        requires { fin.len (entries_of self.now) ≤ MAX_ENTRIES }
        ensures { IfOk result (λ room. room ≡ fin.len (entries_of self.now) + 2) }
    {
        EntryRoom::with_room(alloc, self.entry_count() + 2)
    }

    /// Puts an inode under a name of a directory, in room for more entries than it has; what is none becomes one.
    pub fn enter_into(&mut self, alloc: Global, room: EntryRoom<u32>, name: Name, inode: u32)
        requires { fin.len (entries_of self.old) < room }
        ensures { self.new ≡ Some (Dir (fin.insert (entries_of self.old) name inode)) }
    {
        enter_into(alloc, &mut self.body, room, name, inode);
    }

    /// Takes a name out of a directory; what is none becomes one.
    pub fn leave(&mut self, alloc: Global, name: &[u8])
        ensures { self.new ≡ Some (Dir (fin.remove (entries_of self.old) name.now)) }
    {
        leave(alloc, &mut self.body, name);
    }

    /// Puts bytes into a file at an offset; what is none becomes one. Where there is no memory for it, the node stays.
    pub fn write(&mut self, alloc: Global, at: u64, bytes: &[u8]) -> Result<(), AllocError>
        ensures ok { OnOk result (self.new ≡ Some (File (with_bytes at bytes.now (bytes_of self.old)))) }
        ensures err { OnErr result (self.new ≡ self.old) }
    {
        write(alloc, &mut self.body, at, bytes)
    }

    /// Cuts or grows a file to a length; what is none becomes one. Where there is no memory for it, the node stays.
    pub fn resize(&mut self, alloc: Global, len: u64) -> Result<(), AllocError>
        ensures ok { OnOk result (self.new ≡ Some (File (with_length len (bytes_of self.old)))) }
        ensures err { OnErr result (self.new ≡ self.old) }
    {
        resize(alloc, &mut self.body, len)
    }
}

fn enter(alloc: Global, body: &mut PlainBody, name: Name, inode: u32) -> Result<(), AllocError>
    ensures ok { OnOk result (node_of body.new ≡ Some (Dir (fin.insert (entries_of (node_of body.old)) name inode))) }
    ensures err { OnErr result (node_of body.new ≡ node_of body.old) }
{
    match body {
        PlainBody::Directory(entries) => entries.put(name, inode),
        _ => {
            let mut entries = NameMap::new(alloc);
            entries.put(name, inode)?;
            *body = PlainBody::Directory(entries);
            Ok(())
        }
    }
}

fn enter_into(alloc: Global, body: &mut PlainBody, room: EntryRoom<u32>, name: Name, inode: u32)
    requires { fin.len (entries_of (node_of body.old)) < room }
    ensures { node_of body.new ≡ Some (Dir (fin.insert (entries_of (node_of body.old)) name inode)) }
{
    match body {
        PlainBody::Directory(entries) => entries.put_into(room, name, inode),
        _ => {
            let mut entries = NameMap::new(alloc);
            entries.put_into(room, name, inode);
            *body = PlainBody::Directory(entries);
        }
    }
}

fn leave(alloc: Global, body: &mut PlainBody, name: &[u8])
    ensures { node_of body.new ≡ Some (Dir (fin.remove (entries_of (node_of body.old)) name.now)) }
{
    match body {
        PlainBody::Directory(entries) => entries.remove(name),
        _ => {
            let mut entries = NameMap::new(alloc);
            entries.remove(name);
            *body = PlainBody::Directory(entries);
        }
    }
}

fn write(alloc: Global, body: &mut PlainBody, at: u64, bytes: &[u8]) -> Result<(), AllocError>
    ensures ok { OnOk result (node_of body.new ≡ Some (File (with_bytes at bytes.now (bytes_of (node_of body.old))))) }
    ensures err { OnErr result (node_of body.new ≡ node_of body.old) }
{
    match body {
        PlainBody::File(file) => file.write(at, bytes),
        _ => {
            let mut file = FileBytes::new(alloc);
            file.write(at, bytes)?;
            *body = PlainBody::File(file);
            Ok(())
        }
    }
}

fn resize(alloc: Global, body: &mut PlainBody, len: u64) -> Result<(), AllocError>
    ensures ok { OnOk result (node_of body.new ≡ Some (File (with_length len (bytes_of (node_of body.old))))) }
    ensures err { OnErr result (node_of body.new ≡ node_of body.old) }
{
    match body {
        PlainBody::File(file) => file.resize(len),
        _ => {
            let mut file = FileBytes::new(alloc);
            file.resize(len)?;
            *body = PlainBody::File(file);
            Ok(())
        }
    }
}
