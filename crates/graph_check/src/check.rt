//! A graph is checked whole.

ghost use Rattle.std.specs.Prelude.{◌≡◌, ◌+◌, ◌⊎◌, ℕ, false, None, [], length, IfOk, IfErr, OnOk};
ghost use Rattle.posix_calls.specs.declared.limits.TheConstants.{MAX_INODE};
ghost use Rattle.record_validation.specs.file_graph.Graph.{Graph};
ghost use Rattle.record_validation.specs.call_effects.Wholes.{IsSound};
ghost use Rattle.record_validation.specs.call_effects.ClosedGraph.{nobody};
ghost use Rattle.graph_check.specs.Questions.{AskedAll, AskedUntil};
ghost use Rattle.graph_check.specs.Defects.{HasDefect, IfUnsound, IfMemory, IsFoundSound};
ghost use Rattle.graph_check.specs.Marks.{is_marked};
ghost use Rattle.graph_check.specs.Nameless.{AreNameless};
ghost use Rattle.graph_check.specs.Tables.{HasPlaces, IsRead};

use crate::defect::{Finding, GraphError};
use crate::nameless_files::list_nameless;
use crate::node_reader::read_nodes;
use crate::reachability::{mark_reached, test_reached};
use crate::row_tests::{test_counts, test_entries, test_root};
use crate::tables::{Tables, new_marks, place_count};
use record_validation::Nodes;
use std::alloc::Global;

/// Tests whether a graph is sound where nobody has a file open, and lists the inodes of its files without names, the
/// least first. Asks for each of the inodes 1 to 1,024 once, in this order, and keeps tables of 1,025 places, whatever
/// the directories have in them. No question can find a node at another number.
///
/// Refusals: `Memory`, before the first question, or for the list, where the graph is sound; `Nodes`, where a question
/// was refused, which is then the last one; `Unsound`, exactly where the graph is: it names one defect.
pub fn check_graph<N: Nodes>(alloc: Global, nodes: &mut N) -> Result<Vec<u32>, GraphError<N::Error>>
    ensures stays { N.graph nodes.new ≡ N.graph nodes.old }
    ensures sound { OnOk result (IsFoundSound (N.graph nodes.old)) }
    ensures nameless { IfOk result (λ inodes. AreNameless (N.graph nodes.old) inodes.items) }
    ensures defect { IfErr result (λ error. IfUnsound error (HasDefect (N.graph nodes.old))) }
    ensures unsound { IfErr result (λ error. IfUnsound error (λ inode defect. IsSound (N.graph nodes.old) nobody → ⊥)) }
    ensures memory { IfErr result (λ error. IfMemory error (N.asked nodes.old nodes.new [] None ⊎ IsFoundSound (N.graph nodes.old))) }
    ensures answered { OnOk result (AskedAll N.asked nodes.old nodes.new) }
    ensures asked { IfErr result (AskedUntil N.asked nodes.old nodes.new) }
{
    let mut tables = match Tables::new(alloc, place_count()) {
        Ok(tables) => tables,
        Err(_) => return Err(GraphError::Memory),
    };
    let mut marks = match new_marks(alloc, place_count()) {
        Ok(marks) => marks,
        Err(_) => return Err(GraphError::Memory),
    };
    check_in(alloc, nodes, &mut tables, &mut marks)
}

// The same, where there is memory for the tables.
fn check_in<N: Nodes>(
    alloc: Global,
    nodes: &mut N,
    tables: &mut Tables,
    marks: &mut [bool],
) -> Result<Vec<u32>, GraphError<N::Error>>
    requires places { HasPlaces tables.old }
    requires fresh { (g : Graph) → IsRead g 0 tables.old }
    requires marks { length marks.old ≡ MAX_INODE + 1 }
    requires unmarked { (i : ℕ) → is_marked marks.old i ≡ false }
    ensures stays { N.graph nodes.new ≡ N.graph nodes.old }
    ensures sound { OnOk result (IsFoundSound (N.graph nodes.old)) }
    ensures nameless { IfOk result (λ inodes. AreNameless (N.graph nodes.old) inodes.items) }
    ensures defect { IfErr result (λ error. IfUnsound error (HasDefect (N.graph nodes.old))) }
    ensures unsound { IfErr result (λ error. IfUnsound error (λ inode defect. IsSound (N.graph nodes.old) nobody → ⊥)) }
    ensures memory { IfErr result (λ error. IfMemory error (N.asked nodes.old nodes.new [] None ⊎ IsFoundSound (N.graph nodes.old))) }
    ensures answered { OnOk result (AskedAll N.asked nodes.old nodes.new) }
    ensures asked { IfErr result (AskedUntil N.asked nodes.old nodes.new) }
{
    match read_nodes(alloc, nodes, tables) {
        Ok(()) => {}
        Err(error) => return Err(GraphError::Nodes(error)),
    }
    match test_graph(tables, marks) {
        Ok(()) => {}
        Err(finding) => {
            return Err(GraphError::Unsound {
                inode: finding.inode,
                defect: finding.defect,
            });
        }
    }
    match list_nameless(alloc, tables) {
        Ok(inodes) => Ok(inodes),
        Err(_) => Err(GraphError::Memory),
    }
}

// Tests the graph that has been read.
fn test_graph(tables: &Tables, marks: &mut [bool]) -> Result<(), Finding>
    requires places { HasPlaces tables.now }
    requires marks { length marks.old ≡ MAX_INODE + 1 }
    requires unmarked { (i : ℕ) → is_marked marks.old i ≡ false }
    ensures sound { OnOk result ((g : Graph) → IsRead g MAX_INODE tables.now → IsFoundSound g) }
    ensures finding { IfErr result (λ f. (g : Graph) → IsRead g MAX_INODE tables.now → HasDefect g f.inode f.defect) }
{
    test_root(tables)?;
    test_entries(tables)?;
    test_counts(tables)?;
    mark_reached(tables, marks);
    test_reached(tables, marks)?;
    Ok(())
}
