// The table's rule, and what each kind of step ensures. These types have no values.
use crate::view::View;
use atomic_table::{Join, Play, Split, TableRule};

/// Each lease word shows the marks of the clients' modes, and no lease stands beside another's write lease. Each asked word
/// has what was asked since it was last heard, in one history of all steps.
pub struct Rule;

impl TableRule<(), View, ()> for Rule {
    ghost use Rattle.lease_manager.specs.Law.{IsRuled};
    ghost use Rattle.lease_manager.specs.Parts.{blanks};

    ghost holds = { λ _ s. IsRuled s };

    ghost first = { λ _. blanks };
}

/// An exchange to the own write mark.
pub struct Takes;

impl Play<(), View> for Takes {
    ghost use Rattle.lease_manager.specs.Plays.{Exchanged};

    ghost then = { Exchanged };
}

/// A read try.
pub struct Tries;

impl Play<(), View> for Tries {
    ghost use Rattle.lease_manager.specs.Plays.{Tried};

    ghost then = { Tried };
}

/// The own marks are taken out.
pub struct Gives;

impl Play<(), View> for Gives {
    ghost use Rattle.lease_manager.specs.Plays.{TookOut};

    ghost then = { TookOut };
}

/// A look at a lease word.
pub struct Looks;

impl Play<(), View> for Looks {
    ghost use Rattle.lease_manager.specs.Plays.{Saw};

    ghost then = { Saw };
}

/// A client is asked for inodes.
pub struct Asks;

impl Play<(), View> for Asks {
    ghost use Rattle.lease_manager.specs.Plays.{DidAsk};

    ghost then = { DidAsk };
}

/// An asked word is emptied.
pub struct Hears;

impl Play<(), View> for Hears {
    ghost use Rattle.lease_manager.specs.Plays.{DidHear};

    ghost then = { DidHear };
}

/// A look at an asked word.
pub struct Listens;

impl Play<(), View> for Listens {
    ghost use Rattle.lease_manager.specs.Plays.{Listened};

    ghost then = { Listened };
}

/// A look at a moment where one seat carries several clients.
pub struct Meets;

impl Play<(), View> for Meets {
    ghost use Rattle.lease_manager.specs.Plays.{Met};

    ghost then = { Met };
}

/// The first part stays, and the others go to the new seat.
pub struct FirstStays;

impl Split<View> for FirstStays {
    ghost use Rattle.lease_manager.specs.Parts.{first_part, other_parts};

    ghost left = { first_part };

    ghost right = { other_parts };
}

/// All parts stay, and the new seat carries nothing.
pub struct Aside;

impl Split<View> for Aside {
    ghost use Rattle.std.specs.Prelude.{[]};

    ghost left = { λ v. v };

    ghost right = { λ _. [] };
}

/// One seat carries the parts of both.
pub struct Together;

impl Join<View> for Together {
    ghost use Rattle.std.specs.Prelude.{[], ◌++◌};

    ghost both = { λ v w. v ++ w };

    ghost spent = { [] };
}
