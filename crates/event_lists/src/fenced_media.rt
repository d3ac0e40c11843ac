// A shared medium and a region, of which an event fences one: whatever media these are, they can be parts of a course.
use crate::recoverable::Recoverable;
use crate::steps::Steps;
use tier_device::{Media, Tier};

/// The shared medium, and the region of client 1 for its even generations.
pub struct FencedMedia<M: Media> {
    pub shared: M,
    pub region: M,
}

/// Which of them is fenced.
pub enum FenceEvent {
    Shared,
    Region,
}

impl<M: Media> Recoverable<FenceEvent, bool> for FencedMedia<M> {
    ghost use Rattle.std.specs.Prelude.{None};
    ghost use Rattle.posix_calls.specs.Run.{settled};
    ghost use Rattle.posix_calls.specs.EmptyTree.{empty_state};
    ghost use Rattle.event_lists.specs.Courses.{no_news};
    ghost use Rattle.event_lists.specs.FencedMedia.{clock_of, left_of, moves_of};

    ghost tree = { λ w. empty_state };

    ghost calls = { λ w c. None };

    ghost clock = { λ w. clock_of M.moment w.shared w.region };

    ghost left = { λ w. left_of M.left w.shared w.region };

    ghost can = { λ w c. Unit {0} };

    ghost stored = { λ w c. settled empty_state };

    ghost news = { λ calls e o. no_news calls };

    ghost moves = { moves_of };

    ghost makes = { λ old e o new. Unit {0} };
}

impl<M: Media> Steps<FenceEvent, bool> for FencedMedia<M> {
    fn play_event(&mut self, event: &FenceEvent) -> bool {
        match event {
            FenceEvent::Shared => self.shared.fence(Tier::Fast).is_ok(),
            FenceEvent::Region => self.region.fence(Tier::Fast).is_ok(),
        }
    }

    fn left_now(&self) {}
}
