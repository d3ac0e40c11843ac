ghost use Rattle.std.specs.Prelude.{◌≡◌, ◌≤◌, ◌<◌, ◌+◌, ℕ, [], Option, None, Some, length, IfOk, OnOk, OnErr, get_or, MatchOption, IsTrue, ◌↔◌};
ghost use Rattle.std.specs.FinMap as fin;
ghost use Rattle.posix_calls.specs.Content.{with_length, with_bytes};
ghost use Rattle.posix_calls.specs.Tree.{File, bytes_of, entries_of, set_node, has_open, names_of, is_open};
ghost use Rattle.posix_calls.specs.WellFormed.{IsBare};
ghost use Rattle.posix_calls.specs.Operations.{with_entry, without_entry, less_unused};
ghost use Rattle.posix_calls.specs.Own.{own_of};
ghost use Rattle.posix_calls.specs.Exact.{IsLowest, IsTaken};
ghost use Rattle.plain_tree.specs.Plain.{stored_tree, held_of, at_location, HasPlace, AreExchangeable};
ghost use Rattle.posix_calls.specs.declared.limits.TheConstants.{MAX_NAMES, MAX_ENTRIES};

use crate::name_counts::{make_counts, name_came, name_count, name_went};
use crate::node::PlainNode;
use file_graph::EntryRoom;
use posix_calls::{Location, MAX_CLIENTS, MAX_INODE, OwnDescriptors, ROOT};
use std::alloc::{AllocError, Global};
use std::marker::Model;

/// The nodes of a tree, and how many names each inode has in it, so that nothing has to count them. Contracts see the list of
/// the nodes, from inode 0 on.
#[derive(Drop)]
pub struct PlainNodes {
    nodes: Vec<PlainNode>,
    counts: Vec<u32>,
}

impl Model for PlainNodes {
    ghost use Rattle.std.specs.Prelude.{List, Option};
    ghost use Rattle.std.specs.Coded.{coded_list, coded_option};
    ghost use Rattle.posix_calls.specs.Tree.{Node};
    ghost use Rattle.plain_tree.specs.Codes.{plain_node_code};
    ghost use Rattle.plain_tree.specs.Plain.{AreNameCounts};

    ghost Value = { List (Option Node) };

    ghost coded = { coded_list (coded_option plain_node_code) };

    ghost view = { λ p. p.nodes.items };

    ghost invariant = { λ p. AreNameCounts p.counts.items p.nodes.items };
}

impl PlainNodes {
    /// No nodes.
    pub fn new(alloc: Global) -> Self
        ensures { result ≡ [] }
    {
        PlainNodes {
            nodes: Vec::new(alloc),
            counts: Vec::new(alloc),
        }
    }

    /// The nodes, from inode 0 on.
    pub fn as_slice(&self) -> &[PlainNode]
        ensures { result.now ≡ self.now }
    {
        &self.nodes
    }

    /// How many names an inode has.
    pub fn name_count(&self, inode: u32) -> u32
        ensures { result ≡ names_of (stored_tree self.now) inode }
    {
        name_count(&self.counts, inode)
    }

    /// Places for all inodes up to this one, with nothing in those that are new.
    pub fn make_room(&mut self, inode: u32) -> Result<(), AllocError>
        ensures tree { stored_tree self.new ≡ stored_tree self.old }
        ensures room { OnOk result (inode < length self.new) }
        ensures longer { length self.old ≤ length self.new }
    {
        make_room(&mut self.nodes, inode)
    }

    /// Puts a node with no entries at an inode, in place of one with none.
    pub fn put(&mut self, inode: u32, node: PlainNode)
        requires room { inode < length self.old }
        requires before { IsBare (stored_tree self.old inode) }
        requires after { IsBare node }
        ensures tree { stored_tree self.new ≡ set_node (stored_tree self.old) inode node }
        ensures kept { length self.new ≡ length self.old }
    {
        put_node(&mut self.nodes, inode, node);
    }

    /// Takes away what stands at an inode, where that has no entries.
    pub fn clear(&mut self, inode: u32)
        requires { IsBare (stored_tree self.old inode) }
        ensures tree { stored_tree self.new ≡ set_node (stored_tree self.old) inode None }
        ensures kept { length self.new ≡ length self.old }
    {
        clear(&mut self.nodes, inode);
    }

    /// Puts an inode under a name, in place of what is there. Where there is no memory for it, the tree stays as it was.
    pub fn enter(&mut self, alloc: Global, at: Location, inode: u32) -> Result<(), AllocError>
        requires place { HasPlace at.parent }
        requires few { names_of (stored_tree self.old) inode ≤ MAX_NAMES }
        ensures ok { OnOk result (stored_tree self.new ≡ with_entry (stored_tree self.old) at inode) }
        ensures err { OnErr result (stored_tree self.new ≡ stored_tree self.old) }
        ensures longer { length self.old ≤ length self.new }
    {
        let before = entry_in(&self.nodes, &at);
        make_counts(&mut self.counts, inode)?;
        enter(alloc, &mut self.nodes, at, inode)?;
        name_went(&mut self.counts, before);
        name_came(&mut self.counts, inode);
        Ok(())
    }

    /// Exchanges what two names lead to. Where there is no memory for it, the tree stays as it was.
    pub fn exchange(
        &mut self,
        alloc: Global,
        first: Location,
        second: Location,
        inode: u32,
        other: u32,
    ) -> Result<(), AllocError>
        requires first_place { HasPlace first.parent }
        requires second_place { HasPlace second.parent }
        requires exchangeable { AreExchangeable (stored_tree self.old) first second inode other }
        ensures ok { OnOk result (stored_tree self.new ≡ with_entry (with_entry (stored_tree self.old) first other) second inode) }
        ensures err { OnErr result (stored_tree self.new ≡ stored_tree self.old) }
    {
        exchange(alloc, &mut self.nodes, first, second, inode, other)
    }

    /// Takes a name out.
    pub fn leave(&mut self, alloc: Global, at: &Location)
        requires room { at.now.parent < length self.old }
        requires place { HasPlace at.now.parent }
        ensures tree { stored_tree self.new ≡ without_entry (stored_tree self.old) at.now }
        ensures kept { length self.new ≡ length self.old }
    {
        let before = entry_in(&self.nodes, at);
        leave(alloc, &mut self.nodes, at);
        name_went(&mut self.counts, before);
    }

    /// Puts bytes into a file. Where there is no memory for it, the tree stays as it was.
    pub fn write(
        &mut self,
        alloc: Global,
        inode: u32,
        at: u64,
        bytes: &[u8],
    ) -> Result<(), AllocError>
        requires { IsBare (stored_tree self.old inode) }
        ensures ok { OnOk result (stored_tree self.new ≡ set_node (stored_tree self.old) inode (Some (File (with_bytes at bytes.now (bytes_of (stored_tree self.old inode)))))) }
        ensures err { OnErr result (stored_tree self.new ≡ stored_tree self.old) }
    {
        write(alloc, &mut self.nodes, inode, at, bytes)
    }

    /// Cuts or grows a file. Where there is no memory for it, the tree stays as it was.
    pub fn resize(&mut self, alloc: Global, inode: u32, len: u64) -> Result<(), AllocError>
        requires { IsBare (stored_tree self.old inode) }
        ensures ok { OnOk result (stored_tree self.new ≡ set_node (stored_tree self.old) inode (Some (File (with_length len (bytes_of (stored_tree self.old inode)))))) }
        ensures err { OnErr result (stored_tree self.new ≡ stored_tree self.old) }
    {
        resize(alloc, &mut self.nodes, inode, len)
    }

    /// Takes a file away that has no name, and that nobody has open.
    pub fn drop_unused(&mut self, rows: &[OwnDescriptors], inode: u32)
        requires { IsBare (stored_tree self.old inode) }
        ensures tree { stored_tree self.new ≡ less_unused (held_of rows.now) (stored_tree self.old) inode }
        ensures kept { length self.new ≡ length self.old }
    {
        if self.name_count(inode) == 0 && !is_open(rows, inode) {
            self.clear(inode);
        }
    }
}

fn make_room(nodes: &mut Vec<PlainNode>, inode: u32) -> Result<(), AllocError>
    ensures tree { stored_tree nodes.new.items ≡ stored_tree nodes.old.items }
    ensures room { OnOk result (inode < length nodes.new.items) }
    ensures longer { length nodes.old.items ≤ length nodes.new.items }
{
    for _ in nodes.len()..inode as usize + 1 {
        nodes.push(PlainNode::nothing())?;
    }
    Ok(())
}

fn put_node(nodes: &mut Vec<PlainNode>, inode: u32, node: PlainNode)
    requires { inode < length nodes.old.items }
    ensures tree { stored_tree nodes.new.items ≡ set_node (stored_tree nodes.old.items) inode node }
    ensures kept { length nodes.new.items ≡ length nodes.old.items }
{
    nodes[inode as usize] = node;
}

fn clear(nodes: &mut Vec<PlainNode>, inode: u32)
    ensures tree { stored_tree nodes.new.items ≡ set_node (stored_tree nodes.old.items) inode None }
    ensures kept { length nodes.new.items ≡ length nodes.old.items }
{
    if (inode as usize) < nodes.len() {
        put_node(nodes, inode, PlainNode::nothing());
    }
}

fn enter(
    alloc: Global,
    nodes: &mut Vec<PlainNode>,
    at: Location,
    inode: u32,
) -> Result<(), AllocError>
    ensures ok { OnOk result (stored_tree nodes.new.items ≡ with_entry (stored_tree nodes.old.items) at inode) }
    ensures err { OnErr result (stored_tree nodes.new.items ≡ stored_tree nodes.old.items) }
    ensures longer { length nodes.old.items ≤ length nodes.new.items }
{
    make_room(nodes, at.parent)?;
    nodes[at.parent as usize].enter(alloc, at.name, inode)
}

// The room for the second name is taken first: once the first one leads elsewhere, nothing wants memory.
fn exchange(
    alloc: Global,
    nodes: &mut Vec<PlainNode>,
    first: Location,
    second: Location,
    inode: u32,
    other: u32,
) -> Result<(), AllocError>
    requires few { fin.len (entries_of (stored_tree nodes.old.items second.parent)) ≤ MAX_ENTRIES }
    ensures ok { OnOk result (stored_tree nodes.new.items ≡ with_entry (with_entry (stored_tree nodes.old.items) first other) second inode) }
    ensures err { OnErr result (stored_tree nodes.new.items ≡ stored_tree nodes.old.items) }
{
    make_room(nodes, second.parent)?;
    let room = room_in(alloc, nodes, second.parent)?;
    enter(alloc, nodes, first, other)?;
    enter_into(alloc, nodes, room, second, inode);
    Ok(())
}

// Room for two entries more than a directory has.
fn room_in(alloc: Global, nodes: &[PlainNode], dir: u32) -> Result<EntryRoom<u32>, AllocError>
    requires place { dir < length nodes.now }
    requires few { fin.len (entries_of (stored_tree nodes.now dir)) ≤ MAX_ENTRIES }
    ensures { IfOk result (λ room. room ≡ fin.len (entries_of (stored_tree nodes.now dir)) + 2) }
{
    nodes[dir as usize].room(alloc)
}

fn enter_into(
    alloc: Global,
    nodes: &mut Vec<PlainNode>,
    room: EntryRoom<u32>,
    at: Location,
    inode: u32,
)
    requires place { at.parent < length nodes.old.items }
    requires room { fin.len (entries_of (stored_tree nodes.old.items at.parent)) < room }
    ensures { stored_tree nodes.new.items ≡ with_entry (stored_tree nodes.old.items) at inode }
{
    nodes[at.parent as usize].enter_into(alloc, room, at.name, inode);
}

fn leave(alloc: Global, nodes: &mut Vec<PlainNode>, at: &Location)
    requires { at.now.parent < length nodes.old.items }
    ensures tree { stored_tree nodes.new.items ≡ without_entry (stored_tree nodes.old.items) at.now }
    ensures kept { length nodes.new.items ≡ length nodes.old.items }
{
    nodes[at.parent as usize].leave(alloc, at.name.as_slice());
}

fn write(
    alloc: Global,
    nodes: &mut Vec<PlainNode>,
    inode: u32,
    at: u64,
    bytes: &[u8],
) -> Result<(), AllocError>
    ensures ok { OnOk result (stored_tree nodes.new.items ≡ set_node (stored_tree nodes.old.items) inode (Some (File (with_bytes at bytes.now (bytes_of (stored_tree nodes.old.items inode)))))) }
    ensures err { OnErr result (stored_tree nodes.new.items ≡ stored_tree nodes.old.items) }
{
    make_room(nodes, inode)?;
    nodes[inode as usize].write(alloc, at, bytes)
}

fn resize(alloc: Global, nodes: &mut Vec<PlainNode>, inode: u32, len: u64) -> Result<(), AllocError>
    ensures ok { OnOk result (stored_tree nodes.new.items ≡ set_node (stored_tree nodes.old.items) inode (Some (File (with_length len (bytes_of (stored_tree nodes.old.items inode)))))) }
    ensures err { OnErr result (stored_tree nodes.new.items ≡ stored_tree nodes.old.items) }
{
    make_room(nodes, inode)?;
    nodes[inode as usize].resize(alloc, len)
}

// The inode under a name.
fn entry_in(nodes: &[PlainNode], at: &Location) -> Option<u32>
    ensures { result ≡ at_location (stored_tree nodes.now) at.now }
{
    match nodes.get(at.parent as usize) {
        Some(node) => node.entry(at.name.as_slice()),
        None => None,
    }
}

/// Whether some client has an inode open.
pub fn is_open(rows: &[OwnDescriptors], inode: u32) -> bool
    ensures { result ≡ is_open (held_of rows.now) inode }
{
    for client in 0..MAX_CLIENTS {
        if is_open_by(rows, client as usize, inode) {
            return true;
        }
    }
    false
}

fn is_open_by(rows: &[OwnDescriptors], row: usize, inode: u32) -> bool
    ensures { result ≡ has_open (own_of (get_or rows.now row [])) inode }
{
    match rows.get(row) {
        Some(own) => own.has_open(inode),
        None => false,
    }
}

/// The lowest number for a new node.
pub fn lowest_free(nodes: &[PlainNode]) -> Option<u32>
    ensures { MatchOption result (IsTaken (stored_tree nodes.now)) (λ i. IsLowest (stored_tree nodes.now) i) }
{
    for inode in ROOT + 1..MAX_INODE + 1 {
        if is_free(nodes, inode) {
            return Some(inode);
        }
    }
    None
}

fn is_free(nodes: &[PlainNode], inode: u32) -> bool
    ensures { IsTrue result ↔ (stored_tree nodes.now inode ≡ None) }
{
    match nodes.get(inode as usize) {
        Some(node) => node.is_dir().is_none(),
        None => true,
    }
}
