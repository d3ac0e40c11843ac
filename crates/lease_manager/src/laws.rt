//! What clients are asked and hear, in any history of all clients' steps.

ghost use Rattle.std.specs.Prelude.{◌≡◌, ℕ, List, ◌∷◌, ◌++◌};
ghost use Rattle.std.specs.Int.{bit_at};
ghost use Rattle.lease_manager.specs.declared.view.Event.TheVariants.{Heard};
ghost use Rattle.lease_manager.specs.History.{Entry, unheard, IsAskedOf, IsHistory, IsAsked, IsWaiting};

/// A question that waits in an asked word was asked, and not heard since.
pub fn waiting_question_was_asked()
    ensures { (steps : List Entry) (word bit : ℕ) → bit_at (unheard word steps) bit ≡ 1 → IsWaiting steps word bit }
{}

/// A question that was asked and not heard since waits in its word.
pub fn asked_question_waits()
    ensures { (steps : List Entry) (word bit : ℕ) → IsWaiting steps word bit → bit_at (unheard word steps) bit ≡ 1 }
{}

/// A question that is heard was asked since the last hearing of its word: no question is heard twice.
pub fn heard_question_is_new()
    ensures { (newer middle older : List Entry) (c d word bit found before : ℕ) → IsHistory (newer ++ (c, Heard word found) ∷ (middle ++ (d, Heard word before) ∷ older))
        → bit_at found bit ≡ 1 → IsAsked middle word bit }
{}

/// A client hears what was asked of itself alone.
pub fn only_the_asked_client_hears()
    ensures { (newer older : List Entry) (c word found : ℕ) → IsHistory (newer ++ (c, Heard word found) ∷ older) → IsAskedOf c word }
{}
