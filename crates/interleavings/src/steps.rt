//! One event.

ghost use Rattle.system_laws.specs.News.{news};
ghost use Rattle.system_laws.specs.Moves.{EventMoves};
ghost use Rattle.system_laws.specs.Clocks.{clocks_of, left_of};
ghost use Rattle.system_laws.specs.Steps.{MakesOrStays};
ghost use Rattle.system_laws.specs.recovery_laws.Contents.{CanRecover, stored_state};
ghost use Rattle.system_laws.specs.WorldTree.{world_tree};
ghost use Rattle.system_laws.specs.WorldView.{calls_of};

use crate::leases::{meet_in_event, settle_in_event};
use crate::notes::Notes;
use crate::stops::left_now;
use crate::world::World;
use system_laws::in_event_lists::{Recoverable, Steps};
use system_laws::in_event_steps::{Event, Outcome};
use system_laws::{played_event_is_a_step, stop_between_events_is_recovered};
use tier_device::Media;

impl<M: Media> Recoverable<Event, Outcome> for World<M> {
    ghost tree = { world_tree M.Media };

    ghost calls = { calls_of };

    ghost clock = { λ v. clocks_of M.Media v.system };

    ghost left = { λ v. left_of M.Media v.system };

    ghost can = { λ v. CanRecover v.system.kernel.area.geometry };

    ghost stored = { λ v. stored_state v.system.kernel.area.geometry };

    ghost news = { news };

    ghost moves = { EventMoves };

    ghost makes = { MakesOrStays M.Media };
}

impl<M: Media + Drop> Steps<Event, Outcome> for World<M> {
    fn play_event(&mut self, event: &Event) -> Outcome {
        // For the proof: what a stop leaves before the event, and that whoever fetches in it has no try for the lease being taken out.
        left_now(&self.system);
        settle_in_event(&self.system, event);
        let outcome = self.system.play(event);
        // For the proof: leases exclude one another, and what a stop leaves behind the event.
        meet_in_event(&mut self.system, event);
        left_now(&self.system);
        self.notes = Notes::after(&self.notes, event, &outcome);
        // For the proof: the event is a step of the world.
        played_event_is_a_step::<M>();
        outcome
    }

    fn left_now(&self) {
        // For the proof: what a stop leaves now is recovered to the tree of now, with some of the calls that are not answered.
        left_now(&self.system);
        stop_between_events_is_recovered::<M>();
    }
}
