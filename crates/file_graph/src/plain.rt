ghost use Rattle.std.specs.Prelude.{◌≡◌, ◌<◌, ◌^◌, false, None, Some, OnOk, OnErr, IfOk, IsSome, option_map};
ghost use Rattle.file_graph.specs.Graph.{DirBody, fresh, set_node, acted_graph, acted_all, after_effect, exchanged_entries, child_at, graph_of, file_bytes, directory_entries};
ghost use Rattle.file_graph.specs.declared.effect.Effect.TheVariants as effect;
ghost use Rattle.std.specs.Ordering.{nat_cmp};
ghost use Rattle.std.specs.BTreeMap.{get};
ghost use Rattle.file_graph.specs.Plain.{pairs, is_drop, is_swap, units_at};
ghost use Rattle.file_graph.specs.Units.{charge};

use crate::NameMap;
use crate::effect::{Child, Effect, Kind};
use crate::node::{PlainEntry, PlainNode};
use crate::numbers::is_inode;
use posix_calls::ROOT;
use std::alloc::{AllocError, Global};
use std::collections::BTreeMap;
use std::marker::Model;

/// A graph that runs. Contracts see it as the map from inodes to nodes.
#[derive(Drop)]
pub struct PlainGraph {
    alloc: Global,
    nodes: BTreeMap<u32, PlainNode>,
}

impl Model for PlainGraph {
    ghost use Rattle.file_graph.specs.Graph.{Nodes};
    ghost use Rattle.file_graph.specs.Codes.{nodes_code};
    ghost use Rattle.std.specs.FinMap as fin;

    ghost Value = { Nodes };

    ghost coded = { nodes_code };

    ghost view = { λ g. fin.from_entries g.nodes.entries };
}

impl PlainGraph {
    /// A graph with the root alone, an empty directory with one name.
    pub fn with_root(alloc: Global) -> Result<Self, AllocError>
        ensures { IfOk result (λ g. graph_of g ≡ fresh) }
    {
        let nodes = root_alone(alloc)?;
        Ok(PlainGraph { alloc, nodes })
    }

    /// A graph without a node.
    pub fn empty(alloc: Global) -> Self
        ensures { graph_of result ≡ (λ i. None) }
    {
        PlainGraph {
            alloc,
            nodes: BTreeMap::new(alloc),
        }
    }

    /// Puts a directory with so many names and these entries at an inode, in the place of what stood there. Where there is no memory for it, the
    /// graph stays as it was.
    pub fn put_directory(
        &mut self,
        inode: u32,
        names: u32,
        entries: NameMap<Child>,
    ) -> Result<(), AllocError>
        ensures ok { OnOk result (graph_of self.new ≡ set_node (graph_of self.old) inode (Some (record { names = names; body = DirBody entries }))) }
        ensures err { OnErr result (self.new ≡ self.old) }
    {
        put_node(&mut self.nodes, inode, PlainNode::directory(names, entries))
    }

    /// Does an effect. Where there is no memory for it, the graph stays as it was.
    pub fn apply(&mut self, effect: &Effect) -> Result<(), AllocError>
        ensures ok { OnOk result (graph_of self.new ≡ after_effect (graph_of self.old) effect.now) }
        ensures err { OnErr result (self.new ≡ self.old) }
    {
        apply(self.alloc, &mut self.nodes, effect)
    }

    /// What a name of a directory leads to.
    pub fn child(&self, directory: u32, name: &[u8]) -> Option<Child>
        ensures { result ≡ child_at (graph_of self.now) directory name.now }
    {
        child_at(&self.nodes, directory, name)
    }

    /// The units of its nodes at the inodes 1 to `MAX_INODE`: a file costs 1 and 1 for each 4,096 bytes begun, a directory 1 and
    /// 1 for each 56 entries begun.
    pub fn charge(&self) -> u64
        ensures { result ≡ charge (graph_of self.now) }
    {
        charge_of(&self.nodes)
    }

    /// How many names the node at an inode has, if there is one.
    pub fn names(&self, inode: u32) -> Option<u32>
        ensures { result ≡ option_map (λ n. n.names) (graph_of self.now inode) }
    {
        match self.nodes.get(&inode) {
            Some(node) => Some(node.names()),
            None => None,
        }
    }

    /// The bytes of the file at an inode, if there is one.
    pub fn file(&self, inode: u32) -> Option<&[u8]>
        ensures { option_map (λ s. s.now) result ≡ file_bytes (graph_of self.now inode) }
    {
        match self.nodes.get(&inode) {
            Some(node) => node.file(),
            None => None,
        }
    }

    /// The entries of the directory at an inode, if there is one, in the order of their names' bytes.
    pub fn entries(&self, inode: u32) -> Option<&[PlainEntry]>
        ensures { option_map (λ s. pairs s.now) result ≡ directory_entries (graph_of self.now inode) }
    {
        match self.nodes.get(&inode) {
            Some(node) => node.entries(),
            None => None,
        }
    }
}

fn root_alone(alloc: Global) -> Result<BTreeMap<u32, PlainNode>, AllocError>
    ensures { IfOk result (λ nodes. get nat_cmp nodes ≡ fresh) }
{
    let mut nodes = BTreeMap::new(alloc);
    nodes.insert(ROOT, PlainNode::new(alloc, Kind::Directory, 1))?;
    Ok(nodes)
}

fn put_node(
    nodes: &mut BTreeMap<u32, PlainNode>,
    inode: u32,
    node: PlainNode,
) -> Result<(), AllocError>
    ensures ok { OnOk result (get nat_cmp nodes.new ≡ set_node (get nat_cmp nodes.old) inode (Some node)) }
    ensures err { OnErr result (get nat_cmp nodes.new ≡ get nat_cmp nodes.old) }
{
    nodes.insert(inode, node)?;
    Ok(())
}

fn apply(
    alloc: Global,
    nodes: &mut BTreeMap<u32, PlainNode>,
    effect: &Effect,
) -> Result<(), AllocError>
    ensures ok { OnOk result (get nat_cmp nodes.new ≡ after_effect (get nat_cmp nodes.old) effect.now) }
    ensures err { OnErr result (get nat_cmp nodes.new ≡ get nat_cmp nodes.old) }
{
    match effect {
        Effect::Swap {
            directory,
            name,
            other,
            other_name,
        } => {
            swap_names(
                nodes,
                *directory,
                name.as_slice(),
                *other,
                other_name.as_slice(),
            );
            Ok(())
        }
        _ => act(alloc, nodes, effect),
    }
}

// An effect that is no Swap acts on its one node.
fn act(
    alloc: Global,
    nodes: &mut BTreeMap<u32, PlainNode>,
    effect: &Effect,
) -> Result<(), AllocError>
    requires { is_swap effect.now ≡ false }
    ensures ok { OnOk result (get nat_cmp nodes.new ≡ acted_graph (get nat_cmp nodes.old) effect.now) }
    ensures err { OnErr result (get nat_cmp nodes.new ≡ get nat_cmp nodes.old) }
{
    let (inode, _) = effect.subjects();
    if is_drop(effect) {
        nodes.remove(&inode);
        return Ok(());
    }
    if let Some(node) = nodes.get_mut(&inode) {
        return node.act(alloc, effect);
    }
    if let Effect::Make { kind, .. } = effect {
        nodes.insert(inode, PlainNode::new(alloc, *kind, 0))?;
    }
    Ok(())
}

// Two names change what they lead to, if both lead to something. Both stand in their directories, so that takes no memory.
fn swap_names(
    nodes: &mut BTreeMap<u32, PlainNode>,
    directory: u32,
    name: &[u8],
    other: u32,
    other_name: &[u8],
)
    ensures { get nat_cmp nodes.new ≡ acted_all (get nat_cmp nodes.old) (exchanged_entries directory name.now other other_name.now (child_at (get nat_cmp nodes.old) directory name.now) (child_at (get nat_cmp nodes.old) other other_name.now)) }
{
    let Some(child) = child_at(nodes, directory, name) else {
        return;
    };
    let Some(other_child) = child_at(nodes, other, other_name) else {
        return;
    };
    set_child(nodes, directory, name, other_child);
    set_child(nodes, other, other_name, child);
}

fn child_at(nodes: &BTreeMap<u32, PlainNode>, directory: u32, name: &[u8]) -> Option<Child>
    ensures { result ≡ child_at (get nat_cmp nodes.now) directory name.now }
{
    match nodes.get(&directory) {
        Some(node) => node.child(name),
        None => None,
    }
}

// A name that leads to something leads to something else.
fn set_child(nodes: &mut BTreeMap<u32, PlainNode>, directory: u32, name: &[u8], child: Child)
    requires { IsSome (child_at (get nat_cmp nodes.old) directory name.now) }
    ensures { get nat_cmp nodes.new ≡ acted_graph (get nat_cmp nodes.old) (effect.Enter directory child.0 child.1 name.now) }
{
    if let Some(node) = nodes.get_mut(&directory) {
        node.set_child(name, child);
    }
}

fn is_drop(effect: &Effect) -> bool
    ensures { result ≡ is_drop effect.now }
{
    matches!(effect, Effect::Drop { .. })
}

fn charge_of(nodes: &BTreeMap<u32, PlainNode>) -> u64
    ensures { result ≡ charge (get nat_cmp nodes.now) }
{
    let mut units = 0u64;
    for (inode, node) in nodes.iter() {
        units += units_at(*inode, node);
    }
    units
}

// What a node costs, where its number is an inode's.
fn units_at(inode: u32, node: &PlainNode) -> u64
    ensures units { result ≡ units_at inode node.now }
    ensures small { result < 2 ^ 53 }
{
    if is_inode(inode) {
        return node.cost();
    }
    0
}
