ghost use Rattle.std.specs.Prelude.{◌≡◌, List, ◌++◌, IfOk, IsTrue, MatchOption, MatchResult};
ghost use Rattle.std.specs.Arc.{arc_value};
ghost use Rattle.atomic_table.specs.Seated.{TableId};
ghost use Rattle.crossbeam_queue.specs.Fifo.{Held};
ghost use Rattle.seat_book.specs.Book.{lone_of, rest_of};
ghost use Rattle.handoff.specs.Ends.{ends_below};
ghost use Rattle.handoff.specs.Hands.{hands};
ghost use Rattle.handoff.specs.Line.{HasPut, HasTaken, EndsLine, HasHand};

use crate::rule::{FirstStays, InLine, Line, Puts, Takes, Together, View};
use crossbeam_queue::{Pass, RuledArrayQueue};
use std::alloc::{AllocError, Global};
use std::marker::Model;
use std::sync::{Arc, Wait};

/// How many places put and take.
pub const PLACES: usize = 17;

// How many items a queue holds.
const ROOM: usize = 16;

/// One place's end of a queue. Contracts see which queue it is, and the hands of the places that it carries (`specs/Ends.antt`). The items that are left go with the last end.
#[derive(Drop)]
pub struct QueueEnd<T: Drop> {
    queue: Arc<RuledArrayQueue<T, View<T>, InLine>, Global>,
    pass: Pass<T, View<T>>,
}

impl<T: Drop> Model for QueueEnd<T> {
    ghost use Rattle.std.specs.Prelude.{◌≡◌};
    ghost use Rattle.std.specs.Arc.{arc_value};
    ghost use Rattle.crossbeam_queue.specs.Passes.{view as known, IsPassOf, ruled_capacity};
    ghost use Rattle.handoff.specs.Ends.{EndView};
    ghost use Rattle.handoff.specs.Line.{HasHand};

    ghost Value = { EndView T };

    ghost view = { λ e. record { queue = e.pass.table_id; hands = known e.pass } };

    ghost invariant = { λ e. IsPassOf (arc_value e.queue) e.pass × (ruled_capacity (arc_value e.queue) ≡ 16) × HasHand (known e.pass) };
}

impl<T: Drop> QueueEnd<T> {
    /// The ends of an empty queue of 16 items, in the order of their 17 places.
    pub fn open(alloc: Global) -> Result<Vec<QueueEnd<T>>, AllocError>
        ensures { IfOk result (λ ends. (queue : TableId) × (ends.items ≡ ends_below queue 17)) }
    {
        let end = QueueEnd::open_whole(alloc)?;
        split_all(alloc, end)
    }

    // The end of an empty queue that carries all hands.
    fn open_whole(alloc: Global) -> Result<QueueEnd<T>, AllocError>
        ensures { IfOk result (λ end. end.hands ≡ hands 17) }
    {
        let (queue, pass) = RuledArrayQueue::<T, View<T>, InLine>::ruled(alloc, ROOM)?;
        let queue = Arc::new(alloc, queue)?;
        Ok(QueueEnd { queue, pass })
    }

    // A new end gets all hands but the first.
    fn split(&mut self) -> Result<QueueEnd<T>, AllocError>
        requires more { HasHand (rest_of self.old.hands) }
        ensures first { IfOk result (λ _. self.new ≡ record { queue = self.old.queue; hands = lone_of self.old.hands }) }
        ensures rest { IfOk result (λ end. end ≡ record { queue = self.old.queue; hands = rest_of self.old.hands }) }
    {
        let queue = Arc::try_clone(&self.queue)?;
        let pass = self.queue.another::<FirstStays>(&mut self.pass);
        Ok(QueueEnd { queue, pass })
    }

    /// Puts an item at the end of the line. It comes back where the queue holds 16 items, at one moment of the call.
    ///
    /// It waits for another thread that is in the middle of a step, and for nothing else.
    pub fn put<R: Wait>(&mut self, rt: &R, item: T) -> Result<(), T>
        ensures queue { self.new.queue ≡ self.old.queue }
        ensures put { MatchResult result (λ _. HasPut self.old.hands item self.new.hands) (λ x. (x ≡ item) × (self.new.hands ≡ self.old.hands) × Held 16 (EndsLine self.old.hands)) }
    {
        self.queue.push_as::<Puts, R>(rt, &mut self.pass, item)
    }

    /// Takes the first item that is left of the line; `None` where none is, at one moment of the call.
    ///
    /// It waits for another thread that is in the middle of a step, and for nothing else.
    pub fn take<R: Wait>(&mut self, rt: &R) -> Option<T>
        ensures queue { self.new.queue ≡ self.old.queue }
        ensures taken { MatchOption result ((self.new.hands ≡ self.old.hands) × Held 0 (EndsLine self.old.hands)) (λ x. HasTaken self.old.hands x self.new.hands) }
    {
        // Who waits for an item looks often, and a look costs less than a try.
        if self.is_empty() {
            return None;
        }
        self.queue.pop_as::<Takes, R>(rt, &mut self.pass)
    }

    // Whether no item was left of the line at one moment of the call.
    fn is_empty(&mut self) -> bool
        ensures same { self.new ≡ self.old }
        ensures empty { IsTrue result → Held 0 (EndsLine self.old.hands) }
    {
        self.queue.is_empty_as::<Line>(&mut self.pass)
    }

    /// Takes in the hands of another end of the same queue.
    pub fn join(&mut self, other: QueueEnd<T>)
        requires queue { other.queue ≡ self.old.queue }
        ensures joined { self.new ≡ record { queue = self.old.queue; hands = self.old.hands ++ other.hands } }
    {
        self.queue.absorb::<Together>(&mut self.pass, other.pass);
    }

    /// What the hands of an end show of the line: what one of them took one put, at that number; no number was put twice or taken twice; and where the hands of all places are among them, what was put at a number was
    /// taken at that number, or is what the queue holds. It changes nothing.
    pub fn learn_line(&mut self)
        ensures same { self.new ≡ self.old }
        ensures line { (items : List T) × EndsLine self.old.hands items }
    {
        self.queue.learn_as::<Line>(&mut self.pass);
    }
}

// The end of each place, cut off from the one that carries all hands.
fn split_all<T: Drop>(alloc: Global, end: QueueEnd<T>) -> Result<Vec<QueueEnd<T>>, AllocError>
    requires all { end.hands ≡ hands 17 }
    ensures { IfOk result (λ ends. ends.items ≡ ends_below end.queue 17) }
{
    let mut ends = Vec::new(alloc);
    let mut rest = end;
    for place in 0..PLACES - 1 {
        let others = rest.split()?;
        ends.push(rest)?;
        rest = others;
    }
    ends.push(rest)?;
    Ok(ends)
}
