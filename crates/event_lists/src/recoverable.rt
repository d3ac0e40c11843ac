ghost use Rattle.std.specs.Prelude.{ℕ};
ghost use Rattle.posix_calls.specs.Tree.{State};
ghost use Rattle.event_lists.specs.Outcome.{Unfinished};
ghost use Rattle.event_lists.specs.Courses.{LeftOf, News, Reading, WorldContent};

/// What contracts see of something over media that plays events and is recovered after a stop. They pass all of it on at once, as
/// `S.Recoverable`.
pub trait Recoverable<E, O> {
    /// The file tree, with what its clients have open.
    ghost tree: { Self → State };

    /// Each client's call that is started and not answered.
    ghost calls: { Self → Unfinished };

    /// The clocks of all parts.
    ghost clock: { Self → Reading };

    /// What a stop at a moment of a part's clock, now or past, may have left of that part.
    ghost left: { Self → LeftOf };

    /// Whether a recovery takes a content.
    ghost can: { Self → WorldContent → Type 0 };

    /// The state that a content stores.
    ghost stored: { Self → WorldContent → State };

    /// What an event with its outcome acknowledges, and what is unfinished after it.
    ghost news: { News E O };

    /// Which two readings may stand before and behind an event.
    ghost moves: { E → Reading → Reading → Type 0 };

    /// What an event with its outcome makes.
    ghost makes: { Self → E → O → Self → Type 0 };
}
