ghost use Rattle.std.specs.Prelude.{◌≡◌, ◌<◌, ◌^◌, false, Some, IsSome, OnOk, OnErr, option_map};
ghost use Rattle.std.specs.FinMap as fin;
ghost use Rattle.posix_calls.specs.Content.{with_length, with_bytes};
ghost use Rattle.file_graph.specs.Graph.{DirBody, subject_after, empty_body, in_file, in_directory, with_body, body_entries, node_entries, file_bytes, directory_entries, cost};
ghost use Rattle.file_graph.specs.Plain.{pairs, is_drop};
ghost use Rattle.file_graph.specs.Bodies.{body_of};

use crate::effect::{Child, Effect, Kind};
use crate::{FileBytes, NameMap, NamedEntry};
use posix_calls::{Name, UNIT_BYTES, UNIT_ENTRIES};
use std::alloc::{AllocError, Global};
use std::marker::Model;

/// An entry of a directory: at its name what is there.
pub type PlainEntry = NamedEntry<Child>;

/// A node with its bytes or its entries. Contracts see it as a node of a graph.
#[derive(Drop)]
pub struct PlainNode {
    names: u32,
    body: PlainBody,
}

/// What is in a node.
#[derive(Drop)]
pub enum PlainBody {
    File(FileBytes),
    Directory(NameMap<Child>),
}

impl Model for PlainNode {
    ghost use Rattle.file_graph.specs.Graph.{Node};
    ghost use Rattle.file_graph.specs.Codes.{node_code};

    ghost Value = { Node };

    ghost coded = { node_code };

    ghost use Rattle.file_graph.specs.Bodies.{body_of};

    ghost view = { λ n. record { names = n.names; body = body_of n.body } };
}

impl PlainNode {
    /// An empty node.
    pub fn new(alloc: Global, kind: Kind, names: u32) -> Self
        ensures { result ≡ record { names = names; body = empty_body kind } }
    {
        let body = match kind {
            Kind::File => PlainBody::File(FileBytes::new(alloc)),
            Kind::Directory => PlainBody::Directory(NameMap::new(alloc)),
        };
        PlainNode { names, body }
    }

    /// A directory with so many names and these entries.
    pub fn directory(names: u32, entries: NameMap<Child>) -> Self
        ensures { result ≡ record { names = names; body = DirBody entries } }
    {
        PlainNode {
            names,
            body: PlainBody::Directory(entries),
        }
    }

    /// Does what an effect other than a Drop does to a node; a Swap is of two, and does nothing here. Where there is no memory for it, the node stays as it was.
    pub fn act(&mut self, alloc: Global, effect: &Effect) -> Result<(), AllocError>
        requires { is_drop effect.now ≡ false }
        ensures ok { OnOk result (Some self.new ≡ subject_after effect.now (Some self.old)) }
        ensures err { OnErr result (self.new ≡ self.old) }
    {
        match effect {
            Effect::Make { kind, .. } => {
                *self = PlainNode::new(alloc, *kind, 0);
                Ok(())
            }
            Effect::Enter {
                inode,
                kind,
                name,
                ..
            } => put_entry(alloc, &mut self.body, name, *inode, *kind),
            Effect::Leave { name, .. } => {
                remove_entry(&mut self.body, name);
                Ok(())
            }
            Effect::Names { names, .. } => {
                self.names = *names;
                Ok(())
            }
            Effect::Size { size, .. } => resize(&mut self.body, *size),
            Effect::Bytes { at, bytes, .. } => put_bytes(&mut self.body, *at, bytes.as_slice()),
            Effect::Drop { .. } => Ok(()),
            Effect::Swap { .. } => Ok(()),
        }
    }

    /// What a name of a directory leads to.
    pub fn child(&self, name: &[u8]) -> Option<Child>
        ensures { result ≡ fin.get (node_entries (Some self.now)) name.now }
    {
        match &self.body {
            PlainBody::File(_) => None,
            PlainBody::Directory(entries) => entries.get(name).copied(),
        }
    }

    /// Lets a name of a directory, which leads to something, lead to something else. It takes no memory.
    pub fn set_child(&mut self, name: &[u8], child: Child)
        requires { IsSome (fin.get (node_entries (Some self.old)) name.now) }
        ensures { self.new ≡ with_body (in_directory (λ es. fin.insert es name.now child)) self.old }
    {
        set_entry(&mut self.body, name, child);
    }

    /// What it costs, in units.
    pub fn cost(&self) -> u64
        ensures units { result ≡ cost (Some self.now) }
        ensures small { result < 2 ^ 53 }
    {
        match &self.body {
            PlainBody::File(bytes) => 1
                + (bytes.len() + (UNIT_BYTES as u64 - 1)) / UNIT_BYTES as u64,
            PlainBody::Directory(entries) => 1
                + (entries.len() as u64 + (UNIT_ENTRIES as u64 - 1)) / UNIT_ENTRIES as u64,
        }
    }

    /// How many names it has.
    pub fn names(&self) -> u32
        ensures { result ≡ self.now.names }
    {
        self.names
    }

    /// The bytes of a file.
    pub fn file(&self) -> Option<&[u8]>
        ensures { option_map (λ s. s.now) result ≡ file_bytes (Some self.now) }
    {
        match &self.body {
            PlainBody::File(bytes) => Some(bytes.as_slice()),
            PlainBody::Directory(_) => None,
        }
    }

    /// The entries of a directory.
    pub fn entries(&self) -> Option<&[PlainEntry]>
        ensures { option_map (λ s. pairs s.now) result ≡ directory_entries (Some self.now) }
    {
        match &self.body {
            PlainBody::File(_) => None,
            PlainBody::Directory(entries) => Some(entries.as_slice()),
        }
    }
}

fn put_entry(
    alloc: Global,
    body: &mut PlainBody,
    name: &Name,
    inode: u32,
    kind: Kind,
) -> Result<(), AllocError>
    ensures ok { OnOk result (body_of body.new ≡ in_directory (λ es. fin.insert es name.now (inode, kind)) (body_of body.old)) }
    ensures err { OnErr result (body_of body.new ≡ body_of body.old) }
{
    match body {
        PlainBody::File(_) => Ok(()),
        PlainBody::Directory(entries) => entries.put(name.copy(alloc)?, Child::new(inode, kind)),
    }
}

fn set_entry(body: &mut PlainBody, name: &[u8], child: Child)
    requires { IsSome (fin.get (body_entries (body_of body.old)) name.now) }
    ensures { body_of body.new ≡ in_directory (λ es. fin.insert es name.now child) (body_of body.old) }
{
    match body {
        PlainBody::File(_) => {}
        PlainBody::Directory(entries) => entries.set(name, child),
    }
}

fn remove_entry(body: &mut PlainBody, name: &Name)
    ensures { body_of body.new ≡ in_directory (λ es. fin.remove es name.now) (body_of body.old) }
{
    match body {
        PlainBody::File(_) => {}
        PlainBody::Directory(entries) => entries.remove(name.as_slice()),
    }
}

fn resize(body: &mut PlainBody, size: u64) -> Result<(), AllocError>
    ensures ok { OnOk result (body_of body.new ≡ in_file (with_length size) (body_of body.old)) }
    ensures err { OnErr result (body_of body.new ≡ body_of body.old) }
{
    match body {
        PlainBody::File(file) => file.resize(size),
        PlainBody::Directory(_) => Ok(()),
    }
}

fn put_bytes(body: &mut PlainBody, at: u64, bytes: &[u8]) -> Result<(), AllocError>
    ensures ok { OnOk result (body_of body.new ≡ in_file (with_bytes at bytes.now) (body_of body.old)) }
    ensures err { OnErr result (body_of body.new ≡ body_of body.old) }
{
    match body {
        PlainBody::File(file) => file.write(at, bytes),
        PlainBody::Directory(_) => Ok(()),
    }
}
