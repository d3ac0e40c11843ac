//! What a defect means.

ghost use Rattle.std.specs.Prelude.{ℕ};
ghost use Rattle.record_validation.specs.file_graph.Graph.{Graph};
ghost use Rattle.record_validation.specs.call_effects.Wholes.{IsSound};
ghost use Rattle.posix_calls.specs.Tree.{Descriptors};
ghost use Rattle.graph_check.specs.declared.defect.Defect.{Defect};
ghost use Rattle.graph_check.specs.Defects.{HasDefect};

/// A graph with a defect is not sound, whatever is open.
pub fn graph_with_a_defect_is_unsound()
    ensures { (g : Graph) (held : Descriptors) (i : ℕ) (defect : Defect) → HasDefect g i defect → IsSound g held → ⊥ }
{}
