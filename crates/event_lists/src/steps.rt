ghost use Rattle.std.specs.Prelude.{◌≡◌};
ghost use Rattle.posix_calls.specs.Run.{Run};
ghost use Rattle.event_lists.specs.Courses.{LeftBetween, MovesOne, WorldContent};
ghost use Rattle.event_lists.specs.Plays.{IsRecovered, PastIsKept, RecoversAlike, StopsNow};

use crate::recoverable::Recoverable;

/// Whatever plays events, one at a time, each with an outcome.
pub trait Steps<E, O>: Recoverable<E, O> {
    /// Plays one event, and gives its outcome.
    fn play_event(&mut self, event: &E) -> O
        // What it acknowledges is asked of the one file tree.
        ensures run { Run (Self.tree self.old) (Self.news (Self.calls self.old) event.now result).turns (Self.tree self.new) }
        ensures calls { Self.calls self.new ≡ (Self.news (Self.calls self.old) event.now result).calls }
        ensures effect { Self.makes self.old event.now result self.new }
        // It moves one part at most, and changes the past of none.
        ensures one_part { MovesOne (Self.clock self.old) (Self.clock self.new) }
        ensures in_pace { Self.moves event.now (Self.clock self.old) (Self.clock self.new) }
        ensures past { PastIsKept Self.Recoverable self.old self.new }
        ensures alike { RecoversAlike Self.Recoverable self.old self.new }
        // Whatever a stop may have left from its beginning to its end is recovered with what was acknowledged before it.
        ensures during { (c : WorldContent) → LeftBetween (Self.left self.new) (Self.clock self.old) (Self.clock self.new) c → StopsNow Self.Recoverable self.old c };

    /// Shows what a stop between two events leaves, and changes nothing.
    fn left_now(&self)
        ensures stop { IsRecovered Self.Recoverable self.now };
}
