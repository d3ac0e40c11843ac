//! What holds of every sound graph once nobody has a file open, as after a stop, or once one client is gone.

ghost use Rattle.std.specs.Prelude.{◌≡◌, ℕ};
ghost use Rattle.posix_calls.specs.Tree.{Descriptors};
ghost use Rattle.posix_calls.specs.Run.{settled, departed, without_client, left_with};
ghost use Rattle.posix_calls.specs.WellFormed.{IsWellFormed, IsWithinLimits};
ghost use Rattle.log_record.specs.file_graph.Graph.{Graph};
ghost use Rattle.call_effects.specs.ClosedGraph.{nobody, settled_graph};
ghost use Rattle.call_effects.specs.Wholes.{IsSound, state_of, reachable_graph};

/// A sound graph stays sound where nobody has a file open any more, and so it does once the files that have no name are gone from
/// it. Both then stand for what is left of its state, the root and the nodes that have a name, which is well-formed, and within
/// the limits where the state was.
pub fn settled_graph_is_sound()
    ensures closed { (g : Graph) (held : Descriptors) → IsSound g held → IsSound g nobody }
    ensures sound { (g : Graph) (held : Descriptors) → IsSound g held → IsSound (settled_graph g) nobody }
    ensures closed_state { (g : Graph) (held : Descriptors) → IsSound g held → state_of g nobody ≡ settled (state_of g held) }
    ensures state { (g : Graph) (held : Descriptors) → IsSound g held → state_of (settled_graph g) nobody ≡ settled (state_of g held) }
    ensures well_formed { (g : Graph) (held : Descriptors) → IsSound g held → IsWellFormed (state_of (settled_graph g) nobody) }
    ensures within { (g : Graph) (held : Descriptors) → IsSound g held → IsWithinLimits (state_of g held).tree → IsWithinLimits (state_of (settled_graph g) nobody).tree }
{}

/// Where one client is gone with all that it had open, while the others go on, a sound graph stays sound, and so it does once the
/// files are gone from it that then have neither a name nor a descriptor. Both stand for what is then left of its state: the root
/// and the nodes that have a name or are open. That is well-formed, and within the limits where the state was.
pub fn graph_without_a_client_is_sound()
    ensures closed { (g : Graph) (held : Descriptors) (client : ℕ) → IsSound g held → IsSound g (without_client held client) }
    ensures sound { (g : Graph) (held : Descriptors) (client : ℕ) → IsSound g held → IsSound (reachable_graph g (without_client held client)) (without_client held client) }
    ensures closed_state { (g : Graph) (held : Descriptors) (client : ℕ) → IsSound g held → state_of g (without_client held client) ≡ departed (state_of g held) client }
    ensures state { (g : Graph) (held : Descriptors) (client : ℕ) → IsSound g held → state_of (reachable_graph g (without_client held client)) (without_client held client) ≡ left_with (without_client held client) (state_of g held) }
    ensures well_formed { (g : Graph) (held : Descriptors) (client : ℕ) → IsSound g held → IsWellFormed (state_of (reachable_graph g (without_client held client)) (without_client held client)) }
    ensures within { (g : Graph) (held : Descriptors) (client : ℕ) → IsSound g held → IsWithinLimits (state_of g held).tree → IsWithinLimits (state_of (reachable_graph g (without_client held client)) (without_client held client)).tree }
{}
