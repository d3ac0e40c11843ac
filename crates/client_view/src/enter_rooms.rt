//! What the effects of a record need, taken before any of them is done.
ghost use Rattle.std.specs.Prelude.{◌≡◌, ◌==◌, ◌&&◌, ◌<◌, true, Some, None, is_some, IfOk, OnErr, if◌then◌else◌};
ghost use Rattle.client_view.specs.KnowledgeTables.{copy_at};
ghost use Rattle.client_view.specs.AfterRecord.{is_made};
ghost use Rattle.client_view.specs.Preparation.{AreReady, IsRoomFor, IsRoomOf, any_enters, enters, names_known};

use crate::enter_room::EnterRoom;
use crate::in_place::is_enter;
use crate::slots::{Slot, slot_at};
use client_plan::in_file_graph::{Effect, EntryRoom};
use posix_calls::Name;
use std::alloc::{AllocError, Global};

// No room is asked for behind more names than this, so that a `u32` counts it.
const MOST_NAMES: u64 = 0x7FFF_FFFF;

/// What has to be ready before effects are done to the copies in their place; nothing stands yet at the number of a node that is made. That is
/// something only where a name is entered into what is known.
pub fn rooms_for(
    alloc: Global,
    slots: &[Slot],
    made: Option<u32>,
    effects: &[Effect],
) -> Result<Vec<Option<EnterRoom>>, AllocError>
    ensures ready { IfOk result (λ rooms. AreReady rooms.items effects.now (λ j. if is_made made j then Some None else copy_at slots.now j)) }
    ensures memory { OnErr result (any_enters effects.now (λ j. if is_made made j then Some None else copy_at slots.now j) ≡ true) }
{
    if !any_enters(slots, made, effects) {
        return Ok(Vec::new(alloc));
    }
    room_for_each(alloc, slots, made, effects)
}

// Whether one of the effects enters a name into what is known.
fn any_enters(slots: &[Slot], made: Option<u32>, effects: &[Effect]) -> bool
    ensures { result ≡ any_enters effects.now (λ j. if is_made made j then Some None else copy_at slots.now j) }
{
    effects.iter().any(|effect| enters(slots, made, effect))
}

fn enters(slots: &[Slot], made: Option<u32>, effect: &Effect) -> bool
    ensures { result ≡ enters effect.now (λ j. if is_made made j then Some None else copy_at slots.now j) }
{
    let (inode, _) = effect.subjects();
    is_enter(effect) && is_known(slots, made, inode)
}

fn is_known(slots: &[Slot], made: Option<u32>, inode: u32) -> bool
    ensures { result ≡ is_some (if is_made made inode then Some None else copy_at slots.now inode) }
{
    is_made(made, inode) || slot_at(slots, inode).is_some()
}

// What each of the effects needs.
fn room_for_each(
    alloc: Global,
    slots: &[Slot],
    made: Option<u32>,
    effects: &[Effect],
) -> Result<Vec<Option<EnterRoom>>, AllocError>
    ensures { IfOk result (λ rooms. AreReady rooms.items effects.now (λ j. if is_made made j then Some None else copy_at slots.now j)) }
{
    let mut rooms = Vec::new(alloc);
    for effect in effects {
        let (inode, _) = effect.subjects();
        let known = names_at(slots, made, inode);
        let room = room_for(alloc, effect, known as u64 + rooms.len() as u64)?;
        rooms.push(room)?;
    }
    Ok(rooms)
}

// What an effect needs on an inode that has so many names at most by then.
fn room_for(alloc: Global, effect: &Effect, count: u64) -> Result<Option<EnterRoom>, AllocError>
    ensures { IfOk result (λ room. IsRoomOf effect.now count room) }
{
    match effect {
        Effect::Enter { name, .. } => Ok(Some(room_for_name(alloc, name, count)?)),
        _ => Ok(None),
    }
}

// A copy of a name, and room for it behind so many. A directory that is full moves into twice the room, so that few move.
fn room_for_name(alloc: Global, name: &Name, count: u64) -> Result<EnterRoom, AllocError>
    ensures { IfOk result (λ room. IsRoomFor name.now count (Some room)) }
{
    if count >= MOST_NAMES {
        return Err(AllocError);
    }
    let room = EntryRoom::with_room(alloc, (count + count + 2) as u32)?;
    let name = name.copy(alloc)?;
    Ok(EnterRoom { name, room })
}

// How many names are known to stand in an inode.
fn names_at(slots: &[Slot], made: Option<u32>, inode: u32) -> u32
    ensures { result ≡ names_known (if is_made made inode then Some None else copy_at slots.now inode) }
{
    if is_made(made, inode) {
        return 0;
    }
    match slot_at(slots, inode) {
        Some(Some(node)) => node.entry_count(),
        Some(None) => 0,
        None => 0,
    }
}

fn is_made(made: Option<u32>, inode: u32) -> bool
    ensures { result ≡ is_made made inode }
{
    match made {
        Some(number) => inode == number,
        None => false,
    }
}
