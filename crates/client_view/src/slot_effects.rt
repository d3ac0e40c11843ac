//! An effect done to the copies that a client has, each in its place.
ghost use Rattle.std.specs.Prelude.{◌≡◌, ◌<◌, ◌+◌, false, None, IsSome, length, option_map, unwrap_or};
ghost use Rattle.std.specs.FinMap as fin;
ghost use Rattle.posix_calls.specs.declared.limits.TheConstants.{MAX_INODE};
ghost use Rattle.client_plan.specs.file_graph.Plain.{is_swap};
ghost use Rattle.client_plan.specs.file_graph.Subject.{subject};
ghost use Rattle.client_plan.specs.file_graph.declared.effect.Effect.TheVariants.{Enter, Swap};
ghost use Rattle.client_plan.specs.log_record.Grammar.{FitsLimits};
ghost use Rattle.client_plan.specs.call_effects.KnownCopies.{child_known, known_acted, known_after_effect};
ghost use Rattle.client_plan.specs.call_effects.NodeView.{in_entries, view_entries};
ghost use Rattle.client_view.specs.KnowledgeTables.{copy_at};
ghost use Rattle.client_view.specs.Preparation.{IsRoomOf, names_known};

use crate::enter_room::EnterRoom;
use crate::in_place::act_on;
use crate::slots::{Slot, slot_at};
use client_plan::in_file_graph::{Child, Effect};
use std::alloc::Global;

/// An effect is done to what is known, in the room that was taken ahead where it enters a name. A Swap changes what two names lead to if both
/// are known to lead to something. It takes no memory.
pub fn do_effect(alloc: Global, slots: &mut [Slot], effect: &Effect, room: Option<EnterRoom>)
    requires fits { FitsLimits effect.now }
    requires room { IsSome (copy_at slots.old (subject effect.now)) → IsRoomOf effect.now (names_known (copy_at slots.old (subject effect.now))) room }
    requires all { length slots.old ≡ MAX_INODE + 1 }
    ensures { copy_at slots.new ≡ known_after_effect effect.now (copy_at slots.old) }
{
    if let Effect::Swap {
        directory,
        name,
        other,
        other_name,
    } = effect
    {
        swap_names(
            slots,
            *directory,
            name.as_slice(),
            *other,
            other_name.as_slice(),
        );
        return;
    }
    act_on_one(alloc, slots, effect, room);
}

// An effect that is no Swap is done to the copy of its one inode.
fn act_on_one(alloc: Global, slots: &mut [Slot], effect: &Effect, room: Option<EnterRoom>)
    requires fits { FitsLimits effect.now }
    requires alone { is_swap effect.now ≡ false }
    requires room { IsSome (copy_at slots.old (subject effect.now)) → IsRoomOf effect.now (names_known (copy_at slots.old (subject effect.now))) room }
    requires all { length slots.old ≡ MAX_INODE + 1 }
    ensures { copy_at slots.new ≡ known_acted effect.now (copy_at slots.old) }
{
    let (inode, _) = effect.subjects();
    act_on(alloc, &mut slots[inode as usize], effect, room);
}

// Two names change what they lead to, if both are known to lead to something. Both children are read before one of them is put.
fn swap_names(slots: &mut [Slot], directory: u32, name: &[u8], other: u32, other_name: &[u8])
    requires first { directory < length slots.old }
    requires second { other < length slots.old }
    ensures { copy_at slots.new ≡ known_after_effect (Swap directory name.now other other_name.now) (copy_at slots.old) }
{
    let Some(first) = known_child(slots, directory, name) else {
        return;
    };
    let Some(second) = known_child(slots, other, other_name) else {
        return;
    };
    set_child(slots, directory, name, second);
    set_child(slots, other, other_name, first);
}

// What a name of a directory is known to lead to.
fn known_child(slots: &[Slot], directory: u32, name: &[u8]) -> Option<Child>
    ensures { result ≡ child_known (copy_at slots.now) directory name.now }
{
    match slot_at(slots, directory) {
        Some(Some(node)) => node.child(name),
        Some(None) => None,
        None => None,
    }
}

// A name that is known to lead to something leads to something else.
fn set_child(slots: &mut [Slot], directory: u32, name: &[u8], child: Child)
    requires there { IsSome (child_known (copy_at slots.old) directory name.now) }
    requires inside { directory < length slots.old }
    ensures { copy_at slots.new ≡ known_acted (Enter directory child.0 child.1 name.now) (copy_at slots.old) }
{
    set_in(&mut slots[directory as usize], name, child);
}

fn set_in(slot: &mut Slot, name: &[u8], child: Child)
    requires { IsSome (fin.get (view_entries (unwrap_or slot.old None)) name.now) }
    ensures { slot.new ≡ option_map (λ v. option_map (in_entries (λ es. fin.insert es name.now child)) v) slot.old }
{
    if let Some(Some(summary)) = slot {
        summary.set(name, child);
    }
}
