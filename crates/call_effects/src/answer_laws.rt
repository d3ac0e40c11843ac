//! What holds of every graph.
ghost use Rattle.posix_calls.specs.Part.{IsPart};
ghost use Rattle.log_record.specs.file_graph.Graph.{Graph};
ghost use Rattle.call_effects.specs.Knowledge.{stored_view};
ghost use Rattle.call_effects.specs.Whole.{whole_of};

/// What a graph answers is so of the graph as it stands stored.
pub fn answers_are_of_the_graph()
    ensures { (g : Graph) → IsPart (whole_of g) (stored_view g) }
{}
