//! What a client knows after a record of its own.
ghost use Rattle.std.specs.Prelude.{◌≡◌, ◌<◌, ◌∷◌, [], ℕ, true, None, IsSome, IfOk, OnErr, get_or};
ghost use Rattle.std.specs.Option.{ForSome};
ghost use Rattle.std.specs.List.{AllByRecursion};
ghost use Rattle.client_plan.specs.file_graph.Numbers.{is_inode};
ghost use Rattle.client_plan.specs.file_graph.Subject.{subject};
ghost use Rattle.client_plan.specs.log_record.Grammar.{FitsLimits, IsRecord};
ghost use Rattle.client_plan.specs.CallPlan.{OpensInRange};
ghost use Rattle.client_view.specs.KnowledgeTables.{knows};
ghost use Rattle.client_view.specs.AfterRecord.{knows_logged, with_change, with_effects, with_made, without_made, without_touched};
ghost use Rattle.client_view.specs.Preparation.{AreReady, IsPreparedFor, IsRoomOf, any_enters, names_known};

use crate::copies::{ClientCopies, drop_subjects};
use crate::enter_room::EnterRoom;
use crate::enter_rooms::rooms_for;
use crate::own_change::OwnChange;
use crate::slot_effects::do_effect;
use client_plan::DescriptorChange;
use client_plan::in_file_graph::Effect;
use client_plan::in_log_record::Record;
use std::alloc::AllocError;

impl ClientCopies {
    /// Prepares a change of the client's own by what it knows: its record, the number of the node that it makes, and the descriptor
    /// that it changes, as `plan_call` tells them. All memory is taken that what it knows after the record needs, and nothing changes. It
    /// is wanting only where a name is entered into what is known.
    // A client's write is put together of this and `commit`: so neither moves the record or what is ready from call to call.
    #[inline(always)]
    pub fn prepare(
        &self,
        logged: Record,
        made: Option<u32>,
        descriptor: Option<DescriptorChange>,
    ) -> Result<OwnChange, AllocError>
        requires spelled { IsRecord logged }
        requires made { ForSome made (λ n. is_inode n ≡ true) }
        requires number { ForSome descriptor OpensInRange }
        ensures same { IfOk result (λ c. (c.logged ≡ logged) × (c.made ≡ made) × (c.descriptor ≡ descriptor)) }
        ensures prepared { IfOk result (IsPreparedFor (knows self.now)) }
        ensures memory { OnErr result (any_enters logged.effects (with_made (knows self.now) made).copies ≡ true) }
    {
        let effects = logged.effects.as_slice();
        let rooms = rooms_for(self.alloc, &self.copies, made, effects)?;
        Ok(OwnChange {
            logged,
            made,
            descriptor,
            rooms,
        })
    }

    /// The record of a change is in the client's log: the client knows what it left, and the blocks of what it did not touch stay in their order. It takes no memory, and cannot fail. The change stays where it is, with its record, which
    /// is the caller's to take; what was ready for its commit is used.
    #[inline(always)]
    pub fn commit(&mut self, change: &mut OwnChange)
        requires { IsPreparedFor (knows self.old) change.old }
        ensures known { knows self.new ≡ knows_logged (knows self.old) change.old.logged.effects change.old.made change.old.descriptor }
        ensures order { self.new.blocks ≡ without_touched (without_made self.old.blocks change.old.made) change.old.logged.effects }
        ensures entry { change.new.logged ≡ change.old.logged }
    {
        self.use_made(change.made);
        self.change_descriptor(change.descriptor);
        self.act_each(change.logged.effects.as_slice(), &mut change.rooms);
    }

    // The number of a node that is made is used, and nothing stands there yet.
    fn use_made(&mut self, made: Option<u32>)
        requires { ForSome made (λ n. is_inode n ≡ true) }
        ensures known { knows self.new ≡ with_made (knows self.old) made }
        ensures order { self.new.blocks ≡ without_made self.old.blocks made }
    {
        match made {
            Some(number) => {
                self.put_view(number, None);
                self.use_number(number);
            }
            None => {}
        }
    }

    /// A descriptor changes, if one does, as `plan_call` tells it of a call that writes no record. It takes no memory.
    pub fn change_descriptor(&mut self, change: Option<DescriptorChange>)
        requires { ForSome change OpensInRange }
        ensures known { knows self.new ≡ with_change (knows self.old) change }
        ensures rest { self.new ≡ record self.old { own = self.new.own } }
    {
        if let Some(change) = change {
            self.set_descriptor(change.number, change.what);
        }
    }

    // Effects are done to the copies in their place, each with what was taken for it, and no block of what they touch stays.
    fn act_each(&mut self, effects: &[Effect], rooms: &mut Vec<Option<EnterRoom>>)
        requires fit { AllByRecursion FitsLimits effects.now }
        requires ready { AreReady rooms.old.items effects.now (knows self.old).copies }
        ensures known { knows self.new ≡ with_effects (knows self.old) effects.now }
        ensures order { self.new.blocks ≡ without_touched self.old.blocks effects.now }
    {
        for (place, effect) in effects.iter().enumerate() {
            let room = take_room(rooms, place);
            self.act_in_place(effect, room);
        }
    }

    // What is known of an effect's inodes is as the effect leaves it, without moving it, and no block of them stays.
    fn act_in_place(&mut self, effect: &Effect, room: Option<EnterRoom>)
        requires fits { FitsLimits effect.now }
        requires room { IsSome ((knows self.old).copies (subject effect.now)) → IsRoomOf effect.now (names_known ((knows self.old).copies (subject effect.now))) room }
        ensures known { knows self.new ≡ with_effects (knows self.old) (effect.now ∷ []) }
        ensures order { self.new.blocks ≡ without_touched self.old.blocks (effect.now ∷ []) }
    {
        do_effect(self.alloc, &mut self.copies, effect, room);
        drop_subjects(&mut self.blocks, effect);
    }
}

// What is ready for the effect at a place is taken out, if something is.
fn take_room(rooms: &mut Vec<Option<EnterRoom>>, place: usize) -> Option<EnterRoom>
    ensures taken { result ≡ get_or rooms.old.items place None }
    ensures rest { (n : ℕ) → place < n → get_or rooms.new.items n None ≡ get_or rooms.old.items n None }
{
    if place < rooms.len() {
        return rooms[place].take();
    }
    None
}
