//! What holds of every effect on every graph.

ghost use Rattle.std.specs.Prelude.{◌≡◌, ◌++◌, ◌≤◌, ◌+◌, ℕ, List, true, false};
ghost use Rattle.std.specs.List.{AllByRecursion};
ghost use Rattle.file_graph.specs.Plain.{is_swap};
ghost use Rattle.file_graph.specs.declared.effect.Effect.{Effect};
ghost use Rattle.file_graph.specs.Graph.{Graph, subjects, touches, is_among, after_effect, after_effects, settled_effects, directory_in, StandAlike, acted_all, swap_places, swapped_directories, entered_places, cost, AreApart};
ghost use Rattle.file_graph.specs.Units.{charge, growth};

/// An effect leaves every inode but its subjects as it was, and a row of effects every inode that they don't touch. What they make
/// of an inode depends on what stands there, and on which directories stand at what they touch. On each graph some effects without a Swap
/// stand for them.
pub fn effects_change_what_they_touch()
    ensures single { (g : Graph) (e : Effect) (i : ℕ) → is_among i (subjects e) ≡ false → after_effect g e i ≡ g i }
    ensures stays { (g : Graph) (es : List Effect) (i : ℕ) → is_among i (touches es) ≡ false → after_effects g es i ≡ g i }
    ensures local { (g h : Graph) (es : List Effect) → ((j : ℕ) → is_among j (touches es) ≡ true → g j ≡ h j) → (i : ℕ) → g i ≡ h i → after_effects g es i ≡ after_effects h es i }
    ensures directories { (g h : Graph) (es : List Effect) → StandAlike (touches es) g h → (i : ℕ) → g i ≡ h i → after_effects g es i ≡ after_effects h es i }
    ensures directories_after { (g h : Graph) (es : List Effect) → StandAlike (touches es) g h → (i : ℕ) → directory_in (g i) ≡ directory_in (h i) → directory_in (after_effects g es i) ≡ directory_in (after_effects h es i) }
    ensures settled { (g : Graph) (es : List Effect) → after_effects g es ≡ after_effects g (settled_effects g es) }
    ensures plain { (g : Graph) (es : List Effect) → AllByRecursion (λ e. is_swap e ≡ false) (settled_effects g es) }
{}

/// Two effects with no common subject may change places, and so may two rows of effects that touch no common inode.
pub fn apart_effects_commute()
    ensures single { (g : Graph) (e f : Effect) → AreApart (subjects e) (subjects f) → after_effect (after_effect g e) f ≡ after_effect (after_effect g f) e }
    ensures rows { (g : Graph) (es fs : List Effect) → AreApart (touches es) (touches fs) → after_effects (after_effects g es) fs ≡ after_effects (after_effects g fs) es }
{}

/// The units of a graph after effects are at most its units before and the growth of the effects together.
pub fn charge_rises_by_growth_at_most()
    ensures { (g : Graph) (es : List Effect) → charge (after_effects g es) ≤ charge g + growth g es }
{}

/// Effects do what they do without the Swaps, and then enter at each name that a Swap named what it leads to in the end. That is told by
/// the directories alone that Swaps name, as they stand before the effects.
pub fn swaps_come_last()
    ensures costs { (es : List Effect) (g : Graph) (i : ℕ) → cost (after_effects g es i) ≡ cost (acted_all g es i) }
    ensures last { (es : List Effect) (g : Graph) → after_effects g es ≡ acted_all g (es ++ entered_places (after_effects g es) (swap_places es)) }
    ensures entered { (g h : Graph) (es : List Effect) → StandAlike (swapped_directories es) g h → entered_places (after_effects g es) (swap_places es) ≡ entered_places (after_effects h es) (swap_places es) }
{}
