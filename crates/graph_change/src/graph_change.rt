ghost use Rattle.std.specs.Prelude.{◌≡◌, true, OnOk, OnErr};
ghost use Rattle.std.specs.FinMap as fin;
ghost use Rattle.graph_change.specs.Change.{subject, with_effect};
ghost use Rattle.graph_change.specs.Memory.{takes_memory_among};
ghost use Rattle.graph_change.specs.Tidy.{AreTidyChanges};
ghost use Rattle.graph_change.specs.View.{changes_of, nodes_of};

use crate::node_change::NodeChange;
use crate::parts::NodeBase;
use file_graph::Effect;
use std::alloc::{AllocError, Global};
use std::collections::BTreeMap;

/// A change of many inodes, in the order of their numbers.
#[derive(Drop)]
pub struct GraphChange {
    pub nodes: BTreeMap<u32, NodeChange>,
}

impl GraphChange {
    /// No change.
    pub fn new(alloc: Global) -> Self
        ensures change { changes_of result ≡ fin.empty }
        ensures tidy { AreTidyChanges (changes_of result) }
    {
        GraphChange {
            nodes: BTreeMap::new(alloc),
        }
    }

    /// Adds an effect behind those that are in it. It wants memory where it is the first on its inode, for the name of an entry, and for a write of at least one byte;
    /// one that would end past all numbers finds none. Where there is none for it, the change stays as it was. Of a Swap nothing is said: its first directory stands in the
    /// change then, and stays as it was.
    pub fn add(&mut self, alloc: Global, effect: &Effect) -> Result<(), AllocError>
        ensures change { OnOk result (changes_of self.new ≡ with_effect effect.now (changes_of self.old)) }
        ensures refused { OnErr result (changes_of self.new ≡ changes_of self.old) }
        ensures memory { OnErr result (takes_memory_among effect.now (changes_of self.old) ≡ true) }
        ensures tidy { AreTidyChanges (changes_of self.old) → OnOk result (AreTidyChanges (changes_of self.new)) }
    {
        add(alloc, &mut self.nodes, effect.subjects().0, effect)
    }
}

fn add(
    alloc: Global,
    nodes: &mut BTreeMap<u32, NodeChange>,
    inode: u32,
    effect: &Effect,
) -> Result<(), AllocError>
    requires { inode ≡ subject effect.now }
    ensures change { OnOk result (nodes_of nodes.new ≡ with_effect effect.now (nodes_of nodes.old)) }
    ensures refused { OnErr result (nodes_of nodes.new ≡ nodes_of nodes.old) }
    ensures memory { OnErr result (takes_memory_among effect.now (nodes_of nodes.old) ≡ true) }
{
    if let Some(node) = nodes.get_mut(&inode) {
        return node.add(alloc, effect);
    }
    let mut node = NodeChange::new(alloc, NodeBase::Kept);
    node.add(alloc, effect)?;
    nodes.insert(inode, node)?;
    Ok(())
}
