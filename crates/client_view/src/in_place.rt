//! An effect that takes no memory, done to the copy that a client has of its inode.
ghost use Rattle.std.specs.Prelude.{◌≡◌, ◌<◌, false, Some, IsSome, option_map};
ghost use Rattle.std.specs.FinMap as fin;
ghost use Rattle.client_plan.specs.file_graph.Plain.{is_drop};
ghost use Rattle.client_plan.specs.log_record.Grammar.{FitsLimits};
ghost use Rattle.client_plan.specs.call_effects.NodeView.{in_entries, view_acted};
ghost use Rattle.record_validation.specs.Memory.{is_enter};
ghost use Rattle.client_view.specs.Preparation.{IsRoomOf, names_known};

use crate::enter_room::EnterRoom;
use crate::slots::Slot;
use client_plan::in_file_graph::{Child, Effect, EntryRoom};
use posix_calls::Name;
use record_validation::NodeSummary;
use std::alloc::Global;

/// An effect is done to what is known of its inode, if something is, in the room that was taken ahead where it enters a name. It takes no memory.
pub fn act_on(alloc: Global, slot: &mut Slot, effect: &Effect, room: Option<EnterRoom>)
    requires fits { FitsLimits effect.now }
    requires room { IsSome slot.old → IsRoomOf effect.now (names_known slot.old) room }
    ensures { slot.new ≡ option_map (view_acted effect.now) slot.old }
{
    if let Some(node) = slot {
        act_within(alloc, node, effect, room);
    }
}

fn act_within(
    alloc: Global,
    node: &mut Option<NodeSummary>,
    effect: &Effect,
    room: Option<EnterRoom>,
)
    requires fits { FitsLimits effect.now }
    requires room { IsRoomOf effect.now (names_known (Some node.old)) room }
    ensures { node.new ≡ view_acted effect.now node.old }
{
    match effect {
        Effect::Enter { inode, kind, .. } => match room {
            Some(EnterRoom { name, room }) => enter(node, room, name, Child::new(*inode, *kind)),
            None => unreachable!(),
        },
        _ => act_alone(alloc, node, effect),
    }
}

// A name is entered in room that was taken ahead.
fn enter(node: &mut Option<NodeSummary>, room: EntryRoom<Child>, name: Name, child: Child)
    requires { names_known (Some node.old) < room }
    ensures { node.new ≡ option_map (in_entries (λ es. fin.insert es name child)) node.old }
{
    if let Some(summary) = node {
        summary.enter(room, name, child);
    }
}

// An effect that enters no name takes no memory.
fn act_alone(alloc: Global, node: &mut Option<NodeSummary>, effect: &Effect)
    requires fits { FitsLimits effect.now }
    requires room { is_enter effect.now ≡ false }
    ensures { node.new ≡ view_acted effect.now node.old }
{
    if is_drop(effect) {
        *node = None;
        return;
    }
    if let Some(summary) = node {
        act_there(alloc, summary, effect);
        return;
    }
    if let Effect::Make { kind, .. } = effect {
        *node = Some(NodeSummary::empty(alloc, *kind));
    }
}

// The same to a node that is there and stays.
fn act_there(alloc: Global, summary: &mut NodeSummary, effect: &Effect)
    requires fits { FitsLimits effect.now }
    requires kept { is_drop effect.now ≡ false }
    requires room { is_enter effect.now ≡ false }
    ensures { Some summary.new ≡ view_acted effect.now (Some summary.old) }
{
    match summary.act(alloc, effect) {
        Ok(()) => {}
        Err(_) => unreachable!(),
    }
}

fn is_drop(effect: &Effect) -> bool
    ensures { result ≡ is_drop effect.now }
{
    matches!(effect, Effect::Drop { .. })
}

/// Whether an effect enters a name.
pub fn is_enter(effect: &Effect) -> bool
    ensures { result ≡ is_enter effect.now }
{
    matches!(effect, Effect::Enter { .. })
}
