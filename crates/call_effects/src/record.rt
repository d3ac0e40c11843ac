ghost use Rattle.std.specs.Prelude.{◌≡◌, ◌+◌, ◌-◌, ◌^◌, ◌<◌, ◌≤◌, [], ◌∷◌, ◌++◌, length, true, false, Some, None, Ok, IfOk, IfErr, IfSome, OnOk, is_some, vec_len, if◌then◌else◌};
ghost use Rattle.std.specs.Vec.{vec_capacity};
ghost use Rattle.posix_calls.specs.Answers.{IsAnswer};
ghost use Rattle.posix_calls.specs.declared.operation.Operation.TheVariants.{AddName};
ghost use Rattle.posix_calls.specs.declared.operation.DecideError.TheVariants.{Memory};
ghost use Rattle.log_record.specs.file_graph.declared.effect.Effect.TheVariants.{Size, Leave, Enter, Swap};
ghost use Rattle.call_effects.specs.ChangeTest.{changes};
ghost use Rattle.call_effects.specs.Effects.{recounted_file, kind_if, make_effects, drop_effects, remove_effects, clear_effects, effects_by};
ghost use Rattle.call_effects.specs.Records.{names_if, knows_names, names_known, effects_asked};
ghost use Rattle.call_effects.specs.RecordEffects.{effects_or_error, leaving_first, putting_out, made_first};

use crate::change_test::has_effects;
use log_record::Record;
use log_record::in_file_graph::{Effect, Effects, Kind};
use posix_calls::{
    DecideError, Location, Missing, Operation, Replaced, TreeAnswers, known_or_missing,
};
use std::alloc::{AllocError, Global};

// No operation has more effects.
const MOST_EFFECTS: usize = 4;

/// The record of an operation, with its effects and these units; a node that the operation makes gets the number `new`. An operation that
/// changes nothing has none; every other one has 1 to 4 effects.
///
/// The names and bytes of the operation go into the record, but for one name that two effects of a rename need. Of the tree, the
/// file that gets another number of names has to be known; `Missing` names it. Memory is taken before anything is moved, so the
/// operation is handed back with each error; where that file is known `Memory` may stand in place of any answer, and does where its names would
/// pass 32 bits. An operation that changes nothing meets no error.
pub fn record_of<T: TreeAnswers>(
    alloc: Global,
    tree: &T,
    operation: Operation,
    new: u32,
    units: u32,
) -> Result<Option<Record>, (DecideError, Operation)>
    ensures answer { IsAnswer (T.part tree.now) (effects_asked new operation) (effects_or_error result) }
    ensures units { IfOk result (λ made. IfSome made (λ made. made.units ≡ units)) }
    ensures memory { IfErr result (λ back. back.0 ≡ Memory → knows_names (T.part tree.now) (recounted_file operation) ≡ true) }
    ensures some { IfOk result (λ made. is_some made ≡ changes operation) }
    ensures none { changes operation ≡ false → result ≡ Ok None }
    ensures back { IfErr result (λ back. back.1 ≡ operation) }
{
    if !has_effects(&operation) {
        return Ok(None);
    }
    let names = match names_if(tree, recounted_file(&operation)) {
        Ok(names) => names,
        Err(why) => return Err((why, operation)),
    };
    let room = match room_for(alloc, &operation) {
        Ok(room) => room,
        Err(_) => return Err((DecideError::Memory, operation)),
    };
    let effects = effects_by(room, names, new, operation);
    Ok(Some(Record { units, effects }))
}

// The file that gets another number of names.
fn recounted_file(operation: &Operation) -> Option<u32>
    ensures { result ≡ recounted_file operation.now }
{
    match operation {
        Operation::AddName { inode, .. } => Some(*inode),
        Operation::DropName { inode, .. } => Some(*inode),
        Operation::Move {
            replaced: Replaced::OldFile { inode },
            ..
        } => Some(*inode),
        _ => None,
    }
}

// How many names a file has; one more can be counted.
fn names_if<T: TreeAnswers>(tree: &T, inode: Option<u32>) -> Result<u32, DecideError>
    ensures answer { IsAnswer (T.part tree.now) (names_if inode) result }
    ensures fits { IfOk result (λ names. names + 1 < 2 ^ 32) }
    ensures known { IfOk result (λ _. knows_names (T.part tree.now) inode ≡ true) }
    ensures memory { IfErr result (λ why. why ≡ Memory → knows_names (T.part tree.now) inode ≡ true) }
    ensures full { IfErr result (λ why. why ≡ Memory → names_known (T.part tree.now) inode ≡ Some (2 ^ 32 - 1)) }
{
    let Some(inode) = inode else {
        return Ok(0);
    };
    let names = known_or_missing(tree.file_names(inode), Missing::Node { inode })?;
    if names == u32::MAX {
        return Err(DecideError::Memory);
    }
    Ok(names)
}

// Room for the effects of an operation, with the first of them in it where its name is copied.
fn room_for(alloc: Global, operation: &Operation) -> Result<Vec<Effect>, AllocError>
    ensures first { IfOk result (λ effects. effects.items ≡ made_first operation.now) }
    ensures room { IfOk result (λ effects. MOST_EFFECTS ≤ vec_capacity effects) }
{
    let mut effects = Vec::with_capacity(alloc, MOST_EFFECTS)?;
    if let Operation::Move { to, replaced, .. } = operation {
        leave_first(alloc, &mut effects, to, *replaced)?;
    }
    Ok(effects)
}

// The name of what is put out leaves its directory.
fn leave_first(
    alloc: Global,
    effects: &mut Vec<Effect>,
    to: &Location,
    replaced: Replaced,
) -> Result<(), AllocError>
    requires { vec_len effects.old < vec_capacity effects.old }
    ensures items { OnOk result (effects.new.items ≡ effects.old.items ++ leaving_first to.now replaced) }
    ensures room { vec_capacity effects.old ≤ vec_capacity effects.new }
{
    match replaced {
        Replaced::Nothing => Ok(()),
        _ => {
            let directory = to.parent;
            let name = to.name.copy(alloc)?;
            put(effects, Effect::Leave { directory, name });
            Ok(())
        }
    }
}

// Puts an effect behind the others, for which there is room.
fn put(effects: &mut Vec<Effect>, effect: Effect)
    requires { vec_len effects.old < vec_capacity effects.old }
    ensures items { effects.new.items ≡ effects.old.items ++ effect ∷ [] }
    ensures len { vec_len effects.new ≡ vec_len effects.old + 1 }
    ensures room { vec_capacity effects.old ≤ vec_capacity effects.new }
{
    effects.push(effect).unwrap();
}

// The effects of an operation, into which its names and bytes go.
fn effects_by(effects: Vec<Effect>, names: u32, new: u32, operation: Operation) -> Effects
    requires first { effects.items ≡ made_first operation }
    requires room { MOST_EFFECTS ≤ vec_capacity effects }
    requires fits { names + 1 < 2 ^ 32 }
    ensures { result ≡ effects_by names new operation }
{
    match operation {
        Operation::Tell { .. } => Effects::from_vec(effects),
        Operation::NewDir { at } => make_effects(effects, new, Kind::Directory, at),
        Operation::NewFile { at, .. } => make_effects(effects, new, Kind::File, at),
        Operation::OpenFile { inode, empties, .. } => truncate_effects(effects, inode, empties),
        Operation::CloseFile { .. } => Effects::from_vec(effects),
        Operation::Write { inode, at, bytes } => {
            one_effect(effects, Effect::Bytes { inode, at, bytes })
        }
        Operation::Resize { inode, len } => one_effect(effects, Effect::Size { inode, size: len }),
        Operation::RemoveDir { at, inode } => remove_effects(effects, at, inode),
        Operation::AddName { at, inode } => add_effects(effects, at, inode, names),
        Operation::DropName { at, inode } => drop_effects(effects, at, inode, names),
        Operation::Move {
            from,
            to,
            inode,
            is_dir,
            replaced,
        } => {
            let to = NewEntry {
                at: to,
                inode,
                kind: kind_if(is_dir),
            };
            move_effects(effects, names, from, to, replaced)
        }
        Operation::Exchange { first, second, .. } => {
            one_effect(effects, swap_effect(first, second))
        }
    }
}

fn one_effect(mut effects: Vec<Effect>, effect: Effect) -> Effects
    requires none { effects.items ≡ [] }
    requires room { MOST_EFFECTS ≤ vec_capacity effects }
    ensures { result ≡ effect ∷ [] }
{
    put(&mut effects, effect);
    Effects::from_vec(effects)
}

fn truncate_effects(effects: Vec<Effect>, inode: u32, empties: bool) -> Effects
    requires none { effects.items ≡ [] }
    requires room { MOST_EFFECTS ≤ vec_capacity effects }
    ensures { result ≡ (if empties then Size inode 0 ∷ [] else []) }
{
    if empties {
        return one_effect(effects, Effect::Size { inode, size: 0 });
    }
    Effects::from_vec(effects)
}

fn make_effects(mut effects: Vec<Effect>, new: u32, kind: Kind, at: Location) -> Effects
    requires none { effects.items ≡ [] }
    requires room { MOST_EFFECTS ≤ vec_capacity effects }
    ensures { result ≡ make_effects new kind at }
{
    put(&mut effects, Effect::Make { inode: new, kind });
    put(&mut effects, enter_effect(at, new, kind));
    put(
        &mut effects,
        Effect::Names {
            inode: new,
            names: 1,
        },
    );
    Effects::from_vec(effects)
}

fn add_effects(mut effects: Vec<Effect>, at: Location, inode: u32, names: u32) -> Effects
    requires none { effects.items ≡ [] }
    requires room { MOST_EFFECTS ≤ vec_capacity effects }
    requires fits { names + 1 < 2 ^ 32 }
    ensures { result ≡ effects_by names 0 (AddName at inode) }
{
    put(&mut effects, enter_effect(at, inode, Kind::File));
    put(
        &mut effects,
        Effect::Names {
            inode,
            names: names + 1,
        },
    );
    Effects::from_vec(effects)
}

fn drop_effects(mut effects: Vec<Effect>, at: Location, inode: u32, names: u32) -> Effects
    requires none { effects.items ≡ [] }
    requires room { MOST_EFFECTS ≤ vec_capacity effects }
    ensures { result ≡ drop_effects at inode names }
{
    put(&mut effects, leave_effect(at));
    put(
        &mut effects,
        Effect::Names {
            inode,
            names: names.saturating_sub(1),
        },
    );
    Effects::from_vec(effects)
}

fn remove_effects(mut effects: Vec<Effect>, at: Location, inode: u32) -> Effects
    requires none { effects.items ≡ [] }
    requires room { MOST_EFFECTS ≤ vec_capacity effects }
    ensures { result ≡ remove_effects at inode }
{
    put(&mut effects, leave_effect(at));
    put(&mut effects, Effect::Drop { inode });
    Effects::from_vec(effects)
}

// The name that a rename enters, and what it is a name of.
#[derive(Drop)]
struct NewEntry {
    at: Location,
    inode: u32,
    kind: Kind,
}

fn move_effects(
    mut effects: Vec<Effect>,
    names: u32,
    from: Location,
    to: NewEntry,
    replaced: Replaced,
) -> Effects
    requires first { effects.items ≡ leaving_first to.at replaced }
    requires room { MOST_EFFECTS ≤ vec_capacity effects }
    ensures { result ≡ clear_effects names to.at replaced ++ (Leave from.parent from.name ∷ Enter to.at.parent to.inode to.kind to.at.name ∷ []) }
{
    put_out(&mut effects, names.saturating_sub(1), replaced);
    put(&mut effects, leave_effect(from));
    put(&mut effects, enter_effect(to.at, to.inode, to.kind));
    Effects::from_vec(effects)
}

// What is put out has one name fewer, or goes.
fn put_out(effects: &mut Vec<Effect>, names: u32, replaced: Replaced)
    requires { vec_len effects.old < vec_capacity effects.old }
    ensures items { effects.new.items ≡ effects.old.items ++ putting_out names replaced }
    ensures len { vec_len effects.new ≤ vec_len effects.old + 1 }
    ensures room { vec_capacity effects.old ≤ vec_capacity effects.new }
{
    match replaced {
        Replaced::Nothing => {}
        Replaced::OldFile { inode } => put(effects, Effect::Names { inode, names }),
        Replaced::OldDir { inode } => put(effects, Effect::Drop { inode }),
    }
}

fn kind_if(is_dir: bool) -> Kind
    ensures { result ≡ kind_if is_dir }
{
    if is_dir { Kind::Directory } else { Kind::File }
}

// A name of an inode is entered.
fn enter_effect(at: Location, inode: u32, kind: Kind) -> Effect
    ensures { result ≡ Enter at.parent inode kind at.name }
{
    Effect::Enter {
        directory: at.parent,
        inode,
        kind,
        name: at.name,
    }
}

// A name leaves its directory.
fn leave_effect(at: Location) -> Effect
    ensures { result ≡ Leave at.parent at.name }
{
    Effect::Leave {
        directory: at.parent,
        name: at.name,
    }
}

// Two names change what they lead to.
fn swap_effect(first: Location, second: Location) -> Effect
    ensures { result ≡ Swap first.parent first.name second.parent second.name }
{
    Effect::Swap {
        directory: first.parent,
        name: first.name,
        other: second.parent,
        other_name: second.name,
    }
}
