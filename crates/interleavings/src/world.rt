ghost use Rattle.std.specs.Prelude.{◌≡◌};
ghost use Rattle.system_laws.specs.KeptCalls.{no_calls};
ghost use Rattle.system_laws.specs.Relation.{IsWorld};

use crate::notes::Notes;
use std::marker::Model;
use system_laws::in_event_steps::System;
use tier_device::Media;

/// A running system, and each client's call that is started and not answered, which stands for a world over plain data.
///
/// Contracts see the system and the calls (`WorldView`). The calls are kept for clauses alone.
#[derive(Drop)]
pub struct World<M: Media> {
    pub(crate) system: System<M>,
    pub(crate) notes: Notes,
}

impl<M: Media> Model for World<M> {
    ghost use Rattle.std.specs.Coded.{codes};
    ghost use Rattle.system_laws.specs.client_view.KnowledgeTables.{held_code};
    ghost use Rattle.system_laws.specs.libfs.contracts.begun_record.Begun as begun_call;
    ghost use Rattle.posix_calls.specs.contracts.call.Call as call;
    ghost use Rattle.system_laws.specs.Relation.{IsWorld};
    ghost use Rattle.system_laws.specs.WorldView.{WorldView};

    ghost Value = { WorldView M };

    ghost coded = { Prim.hlevel (codes, held_code, begun_call.the_row.coded, call.the_row.coded) };

    ghost view = { λ w. record { system = w.system; calls = w.notes.calls } };

    ghost invariant = { λ w. IsWorld M.Media (record { system = w.system; calls = w.notes.calls }) };
}

impl<M: Media> World<M> {
    /// The world of a system that stands for one, and of which no call is started.
    pub fn of_system(system: System<M>) -> World<M>
        requires stands { IsWorld M.Media (record { system = system; calls = no_calls }) }
        ensures system { result.system ≡ system }
        ensures calls { result.calls ≡ no_calls }
    {
        World {
            system,
            notes: Notes::none(),
        }
    }

    /// The system, to be asked what moves no device.
    pub fn system(&self) -> &System<M>
        ensures { result.now ≡ self.now.system }
    {
        &self.system
    }

    /// The system, of which no event is played any more.
    pub fn into_system(self) -> System<M>
        ensures { result ≡ self.system }
    {
        self.system
    }
}
