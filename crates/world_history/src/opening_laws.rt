//! What a history can begin anew with.

ghost use Rattle.std.specs.Prelude.{◌≡◌, ℕ, true};
ghost use Rattle.posix_calls.specs.Operations.{is_client};
ghost use Rattle.world_history.specs.declared.moves.Move.TheVariants.{Shared};
ghost use Rattle.world_history.specs.Configuration.{Configuration, IsConsistent, tree_of};
ghost use Rattle.world_history.specs.FiniteParts.{CanBeListed, HasSameParts, HoldsAs};
ghost use Rattle.world_history.specs.Moves.{after_move};
ghost use Rattle.world_history.specs.Opening.{Opening};

/// Nothing is said of a number that is no client's: what holds of a configuration holds of each that has the same kernel and the same
/// clients 1 to 8, and both stand for one tree.
pub fn clients_alone_count()
    ensures consistent { (s t : Configuration) → HasSameParts s t → IsConsistent s → IsConsistent t }
    ensures tree { (s t : Configuration) → HasSameParts s t → tree_of t ≡ tree_of s }
{}

/// An opening can list each configuration in which nothing stands past some number, but for its leases: if all begin anew with it and
/// hold what they held there, that configuration is there again.
pub fn configuration_can_be_listed()
    ensures { (s : Configuration) → CanBeListed s → (o : Opening) × ((t : Configuration) → ((c : ℕ) → is_client c ≡ true → HoldsAs (t.clients c) (s.clients c)) → HasSameParts s (after_move t (Shared o))) }
{}
