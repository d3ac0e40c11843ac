// The levels above the leaves.
ghost use Rattle.std.specs.Prelude.{◌≡◌, ◌≤◌, ◌<◌, ◌+◌, ◌++◌, ◌^◌, List, length, IfOk};
ghost use Rattle.extent_tree.specs.Nodes.{flat, summaries, AreFilled};
ghost use Rattle.extent_tree.specs.Normal.{IsRising};
ghost use Rattle.extent_tree.specs.Tree.{IsLevel, IsNeeded, IsTree, IsWidth};
ghost use Rattle.layout.specs.declared.extents.Extent.{Extent};

use crate::{Node, pack, push_summaries};
use layout::Extent;
use std::alloc::{AllocError, Global};
use std::marker::Model;

/// The nodes of one level, in their order.
#[derive(Drop)]
pub struct Level {
    nodes: Vec<Node>,
}

impl Model for Level {
    ghost use Rattle.std.specs.Prelude.{List};
    ghost use Rattle.layout.specs.declared.extents.Extent.{Extent};

    ghost Value = { List (List Extent) };

    ghost view = { λ l. l.nodes.items };
}

impl Level {
    /// The nodes.
    pub fn nodes(&self) -> &[Node]
        ensures { result.now ≡ self.now }
    {
        &self.nodes
    }

    // The level of these entries.
    fn of_entries(alloc: Global, width: usize, entries: &[Extent]) -> Result<Level, AllocError>
        requires { IsWidth width }
        ensures entries { IfOk result (λ l. flat l ≡ entries.now) }
        ensures level { IfOk result (λ l. IsLevel width l) }
        ensures needed { IfOk result (λ l. IsNeeded width l) }
    {
        Ok(Level {
            nodes: pack(alloc, width, entries)?,
        })
    }

    // The entries that cover its nodes.
    fn summaries(&self, alloc: Global) -> Result<Vec<Extent>, AllocError>
        requires filled { AreFilled self.now }
        requires rising { IsRising 0 4294967295 (flat self.now) }
        ensures { IfOk result (λ v. v.items ≡ summaries 0 self.now) }
    {
        let mut entries = Vec::new(alloc);
        push_summaries(&mut entries, &self.nodes, 0)?;
        Ok(entries)
    }
}

// The levels above some nodes, by the entries that cover them.
fn levels_over(alloc: Global, width: usize, covers: Vec<Extent>) -> Result<Vec<Level>, AllocError>
    requires width { IsWidth width }
    requires rising { IsRising 0 4294967295 covers.items }
    ensures { IfOk result (λ inner. (nodes : List (List Extent)) → summaries 0 nodes ≡ covers.items → IsTree width nodes inner.items) }
{
    let mut covers = covers;
    let mut inner = Vec::new(alloc);
    'levels: while covers.len() > 1 {
        let level = Level::of_entries(alloc, width, &covers)?;
        covers = level.summaries(alloc)?;
        inner.push(level)?;
    }
    Ok(inner)
}

/// The levels above the nodes of three slices, one slice after the other.
pub fn levels_above(
    alloc: Global,
    width: usize,
    front: &[Node],
    middle: &[Node],
    back: &[Node],
) -> Result<Vec<Level>, AllocError>
    requires width { IsWidth width }
    requires rising { IsRising 0 4294967295 (flat front.now ++ (flat middle.now ++ flat back.now)) }
    requires front { AreFilled front.now }
    requires middle { AreFilled middle.now }
    requires back { AreFilled back.now }
    ensures { IfOk result (λ inner. IsTree width (front.now ++ (middle.now ++ back.now)) inner.items) }
{
    let mut covers = Vec::new(alloc);
    push_summaries(&mut covers, front, 0)?;
    push_summaries(&mut covers, middle, front.len() as u32)?;
    push_summaries(&mut covers, back, (front.len() + middle.len()) as u32)?;
    let inner = levels_over(alloc, width, covers)?;
    Ok(inner)
}
