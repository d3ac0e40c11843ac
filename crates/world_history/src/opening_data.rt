// What a history begins anew with, as a type of which no value is made.
use std::marker::Model;

/// A kernel and eight clients by lists.
pub struct OpeningData {
    _none: (),
}

impl Model for OpeningData {
    ghost use Rattle.std.specs.Coded.{codes};
    ghost use Rattle.world_invariant.specs.file_graph.Codes.{node_code};
    ghost use Rattle.world_history.specs.NodeCode.{view_code};
    ghost use Rattle.world_history.specs.Opening.{Opening, no_opening};
    ghost use Rattle.world_history.specs.contracts.begun_call.BegunCall as begun;

    ghost Value = { Opening };

    ghost coded = { Prim.hlevel (codes, node_code, view_code, begun.the_row.coded) };

    ghost view = { λ _. no_opening };
}
