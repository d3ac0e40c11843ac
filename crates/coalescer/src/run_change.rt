//! The change that a run of records comes to, and what its Swaps enter.

ghost use Rattle.std.specs.Prelude.{◌≡◌, ◌<◌, OnErr, OnOk, [], ◌∷◌, length};
ghost use Rattle.graph_change.specs.file_graph.Graph.{Graph, StandAlike, after_effects, child_at, entered_if, entered_places, graph_of, swap_places, swapped_directories};
ghost use Rattle.graph_change.specs.file_graph.declared.effect.Effect.TheVariants as effect;
ghost use Rattle.graph_change.specs.Change.{with_effect, with_effects};
ghost use Rattle.graph_change.specs.Swaps.{told_change};
ghost use Rattle.graph_change.specs.View.{changes_of};
ghost use Rattle.coalescer.specs.RunChange.{swapped_of};

use graph_change::GraphChange;
use graph_change::in_file_graph::{Child, Effect, Effects, PlainGraph};
use posix_calls::Name;
use std::alloc::{AllocError, Global};

/// What a run of records comes to: a change without their Swaps, and beside it, where a Swap is among their effects, those on names, in
/// their order.
#[derive(Drop)]
pub struct RunChange {
    /// What becomes of each inode, but for what swapped names lead to.
    pub change: GraphChange,
    /// The effects that make or drop nodes, or change what names lead to; none where no Swap is among the effects.
    pub names: Effects,
}

impl RunChange {
    /// Enters behind the change, at each name that a Swap of the run names, what it leads to after the run: so the change is that of the
    /// whole run over each graph in which the directories that Swaps name stand as in this one, as they are before the run. The graph
    /// is left as the run leaves it. An error is want of memory, which is asked for only where names are kept; nothing is said of
    /// change and graph then: they are to be dropped.
    pub fn tell(&mut self, alloc: Global, directories: &mut PlainGraph) -> Result<(), AllocError>
        ensures change { OnOk result ((g : Graph) → StandAlike (swapped_directories self.old.names) (graph_of directories.old) g → changes_of self.new.change ≡ told_change g (swapped_of self.old)) }
        ensures after { OnOk result (graph_of directories.new ≡ after_effects (graph_of directories.old) self.old.names) }
        ensures names { self.new.names ≡ self.old.names }
        ensures memory { OnErr result (0 < length self.old.names) }
    {
        let names = self.names.as_slice();
        apply_all(directories, names)?;
        enter_swapped(alloc, &mut self.change, directories, names)
    }
}

// Does effects to a graph, one after the other.
fn apply_all(graph: &mut PlainGraph, effects: &[Effect]) -> Result<(), AllocError>
    ensures after { OnOk result (graph_of graph.new ≡ after_effects (graph_of graph.old) effects.now) }
    ensures memory { OnErr result (0 < length effects.now) }
{
    for effect in effects {
        graph.apply(effect)?;
    }
    Ok(())
}

// Enters what swapped names lead to in a graph, in the order of the Swaps among effects.
fn enter_swapped(
    alloc: Global,
    change: &mut GraphChange,
    graph: &PlainGraph,
    effects: &[Effect],
) -> Result<(), AllocError>
    ensures entered { OnOk result (changes_of change.new ≡ with_effects (changes_of change.old) (entered_places (graph_of graph.now) (swap_places effects.now))) }
    ensures memory { OnErr result (0 < length effects.now) }
{
    for effect in effects {
        enter_both(alloc, change, graph, effect)?;
    }
    Ok(())
}

// Enters what the names of a Swap lead to; of another effect nothing.
fn enter_both(
    alloc: Global,
    change: &mut GraphChange,
    graph: &PlainGraph,
    effect: &Effect,
) -> Result<(), AllocError>
    ensures { OnOk result (changes_of change.new ≡ with_effects (changes_of change.old) (entered_places (graph_of graph.now) (swap_places (effect.now ∷ [])))) }
{
    match effect {
        Effect::Swap {
            directory,
            name,
            other,
            other_name,
        } => {
            enter_child(alloc, change, graph, *directory, name)?;
            enter_child(alloc, change, graph, *other, other_name)
        }
        _ => Ok(()),
    }
}

// Enters what a name leads to, if it leads to something.
fn enter_child(
    alloc: Global,
    change: &mut GraphChange,
    graph: &PlainGraph,
    directory: u32,
    name: &Name,
) -> Result<(), AllocError>
    ensures { OnOk result (changes_of change.new ≡ with_effects (changes_of change.old) (entered_if (directory, name.now) (child_at (graph_of graph.now) directory name.now) [])) }
{
    match graph.child(directory, name.as_slice()) {
        Some(child) => enter(alloc, change, directory, name, child),
        None => Ok(()),
    }
}

fn enter(
    alloc: Global,
    change: &mut GraphChange,
    directory: u32,
    name: &Name,
    child: Child,
) -> Result<(), AllocError>
    ensures { OnOk result (changes_of change.new ≡ with_effect (effect.Enter directory child.0 child.1 name.now) (changes_of change.old)) }
{
    let name = name.copy(alloc)?;
    let entry = Effect::Enter {
        directory,
        inode: child.inode(),
        kind: child.kind(),
        name,
    };
    change.add(alloc, &entry)
}
