// The rule of the line, and what each kind of step ensures. These types have no values.
use crate::hand::Hand;
use crossbeam_queue::protocol::{Join, Lesson, Outcome, Protocol, Split};
use std::collections::LinkedList;

/// A pass carries the hands of some places, its own first.
pub type View<T> = LinkedList<Hand<T>>;

/// There is one line of all that was ever put, and the queue holds its end.
pub struct InLine;

impl<T> Protocol<T, View<T>> for InLine {
    ghost use Rattle.handoff.specs.Hands.{hands};
    ghost use Rattle.handoff.specs.Line.{IsInLine};

    ghost holds = { IsInLine };

    ghost first = { hands 17 };
}

/// An item is put at the end of the line; or it was full.
pub struct Puts;

impl<T> Outcome<T, View<T>> for Puts {
    ghost use Rattle.handoff.specs.Line.{HasPut};

    ghost then = { λ v x w. HasPut v x w };
}

impl<T> Lesson<T, View<T>> for Puts {
    ghost use Rattle.handoff.specs.Line.{EndsLine};

    ghost fact = { λ v items. EndsLine v items };
}

/// The first item of what is left is taken; or nothing was left.
pub struct Takes;

impl<T> Outcome<T, View<T>> for Takes {
    ghost use Rattle.handoff.specs.Line.{HasTaken};

    ghost then = { λ v x w. HasTaken v x w };
}

impl<T> Lesson<T, View<T>> for Takes {
    ghost use Rattle.handoff.specs.Line.{EndsLine};

    ghost fact = { λ v items. EndsLine v items };
}

/// What the line is, as far as the hands of a pass show it.
pub struct Line;

impl<T> Lesson<T, View<T>> for Line {
    ghost use Rattle.handoff.specs.Line.{EndsLine};

    ghost fact = { λ v items. EndsLine v items };
}

/// The first hand stays, and the others go to the new pass.
pub struct FirstStays;

impl<T> Split<View<T>> for FirstStays {
    ghost use Rattle.seat_book.specs.Book.{lone_of, rest_of};

    ghost left = { lone_of };

    ghost right = { rest_of };
}

/// One pass carries the hands of both.
pub struct Together;

impl<T> Join<View<T>> for Together {
    ghost use Rattle.std.specs.Prelude.{[], ◌++◌};

    ghost both = { λ v w. v ++ w };

    ghost spent = { [] };
}
