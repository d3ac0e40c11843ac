ghost use Rattle.std.specs.Prelude.{◌≡◌, ◌++◌, ◌∷◌, [], ℕ, List, Option, Some, None, IfErr, IfOk, OnOk};
ghost use Rattle.call_effects.specs.file_graph.Graph.{Graph};
ghost use Rattle.call_effects.specs.NodeView.{view_at};

use crate::node_summary::NodeSummary;
use std::alloc::Global;

/// Who tells what stands at each inode of a graph.
pub trait Nodes {
    /// Why a node could not be told.
    type Error: Drop;

    /// The graph.
    ghost graph: { Self → Graph };

    /// Whether questions after these inodes, the last one first, have led from the first to the second: each was answered, or the last
    /// was refused with this error.
    ghost asked: { Self → Self → List ℕ → Option Self.Error → Type 0 };

    /// What stands at an inode, without the bytes of a file; none where nothing does. The graph stays.
    fn node(&mut self, alloc: Global, inode: u32) -> Result<Option<NodeSummary>, Self::Error>
        ensures seen { IfOk result (λ node. view_at (graph self.old) inode ≡ node) }
        ensures stays { graph self.new ≡ graph self.old }
        ensures answered { OnOk result (asked self.old self.new (inode ∷ []) None) }
        ensures refused { IfErr result (λ error. asked self.old self.new (inode ∷ []) (Some error)) };

    /// Where nothing is asked, nothing changes.
    ghost none_asked: { (nodes : Self) → asked nodes nodes [] None };

    /// More questions behind answered ones.
    ghost more_asked: { (first next last : Self) (before behind : List ℕ) (refusal : Option Self.Error) → asked first next before None → asked next last behind refusal → asked first last (behind ++ before) refusal };
}
