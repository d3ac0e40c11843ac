ghost use Rattle.std.specs.Prelude.{◌≡◌, ◌≢◌, ◌&&◌, nat_le, length, Some, Ok, Err, IfOk, IfErr, IfSome, true};
ghost use Rattle.std.specs.Option.{ForSome};
ghost use Rattle.posix_calls.specs.Kinds.{opens};
ghost use Rattle.posix_calls.specs.Exact.{IsInRange};
ghost use Rattle.posix_calls.specs.Own.{own_of};
ghost use Rattle.posix_calls.specs.Part.{Known, run_part};
ghost use Rattle.posix_calls.specs.Decide.{decide};
ghost use Rattle.posix_calls.specs.Memory.{takes_memory};
ghost use Rattle.posix_calls.specs.declared.errno.Errno.{Errno};
ghost use Rattle.client_plan.specs.declared.need.Need.{Need};
ghost use Rattle.call_effects.specs.log_record.Grammar.{IsRecord, record_bytes};
ghost use Rattle.call_effects.specs.ChangeTest.{changes};
ghost use Rattle.call_effects.specs.Records.{units_asked};
ghost use Rattle.client_plan.specs.PlanSteps as course_of;
ghost use Rattle.client_plan.specs.PlanSteps.{Comes, Goes};
ghost use Rattle.client_plan.specs.declared.stop.Stop.TheVariants.{Refused, Lacks, Memory};
ghost use Rattle.client_plan.specs.Holdings.{first_unused};
ghost use Rattle.client_plan.specs.NeedOrder.{root_alone, not_refused, given_back, unpin_step, first_look, look_step, number_step, lease_step, write_step, unit_step, pin_step, is_record, stop_at};
ghost use Rattle.client_plan.specs.CallPlan.{OpensInRange, change_in, change_of, course, fitting_record, grant_step, plan_outcome, record_of_plan, log_outcome, settle_outcome, outcome, record_in};
ghost use Rattle.client_plan.specs.Memory.{wants_memory};

use crate::need::{Mode, Need};
use crate::outcome::{DescriptorChange, Outcome};
use crate::stop::Stop;
use crate::supplies::Supplies;
use crate::words::WordsAlone;
use call_effects::in_log_record::Record;
use call_effects::{growth_of, record_of, subjects};
use posix_calls::{
    Call, DecideError, Missing, Operation, OwnDescriptors, ROOT, Reply, TreeAnswers, decide,
};
use std::alloc::{AllocError, Global};

/// What a call comes to, by what a client knows of the tree and has beside that: a reply, the first thing that it lacks, or a record.
///
/// Errors are answered as early as they are decided: those that the call's own words and the client's descriptors decide before any need, the
/// others as soon as what is known decides them. Nothing is changed, and whoever asks carries the outcome out. A record has a spelling of no
/// more bytes than there is room for, and what is opened has the number of a descriptor. Memory is taken for the names and bytes of a call and for its record; where it is taken `AllocError` may
/// stand in place of any outcome.
pub fn plan_call<T: TreeAnswers, S: Supplies>(
    alloc: Global,
    tree: &T,
    has: &S,
    call: &Call,
) -> Result<Outcome, AllocError>
    requires { (T.part tree.now).is_dir ROOT ≡ Some (Some true) }
    ensures exact { IfOk result (λ o. o ≡ outcome (T.part tree.now) (S.holdings has.now) call.now) }
    ensures spelled { IfOk result (λ o. IfSome (record_in o) IsRecord) }
    ensures number { IfOk result (λ o. ForSome (change_in o) OpensInRange) }
    ensures memory { IfErr result (λ _. wants_memory (T.part tree.now) (S.holdings has.now).own call.now ≡ true) }
{
    match course(alloc, tree, has, call) {
        Ok(outcome) => Ok(outcome),
        Err(Stop::Refused { errno }) => Ok(Outcome::Reply {
            reply: Reply::Failed { errno },
            change: None,
        }),
        Err(Stop::Lacks { need }) => Ok(Outcome::Need { need }),
        Err(Stop::Memory) => Err(AllocError),
    }
}

fn course<T: TreeAnswers, S: Supplies>(
    alloc: Global,
    tree: &T,
    has: &S,
    call: &Call,
) -> Result<Outcome, Stop>
    requires { (T.part tree.now).is_dir ROOT ≡ Some (Some true) }
    ensures comes { Comes (course (T.part tree.now) (S.holdings has.now) call.now) result }
    ensures spelled { IfOk result (λ o. IfSome (record_in o) IsRecord) }
    ensures number { IfOk result (λ o. ForSome (change_in o) OpensInRange) }
    ensures memory { result ≡ Err Memory → wants_memory (T.part tree.now) (S.holdings has.now).own call.now ≡ true }
{
    unpin(alloc, has, call)?;
    match decide(alloc, tree, has.own(), call) {
        Ok(operation) => plan(alloc, tree, has, operation),
        Err(why) => Err(stop_at(has, why)),
    }
}

// A pin of a file that is not open is given back first, once no error is left that the call's words decide; a write of no bytes waits for nothing.
fn unpin<S: Supplies>(alloc: Global, has: &S, call: &Call) -> Result<(), Stop>
    ensures clear { IfOk result (λ _. unpin_step (S.holdings has.now) call.now ≡ Goes tt) }
    ensures refused { (e : Errno) → result ≡ Err (Refused e) → run_part root_alone (decide (S.holdings has.now).own call.now) ≡ Known (Err e) }
    ensures lacks { (need : Need) → result ≡ Err (Lacks need) → (not_refused (run_part root_alone (decide (S.holdings has.now).own call.now)) ≡ Goes tt) × (unpin_step (S.holdings has.now) call.now ≡ course_of.Lacks need) }
    ensures memory { result ≡ Err Memory → takes_memory root_alone (S.holdings has.now).own call.now ≡ true }
{
    let Some(inode) = unused_pin(has, call) else {
        return Ok(());
    };
    refuse_by_words(alloc, has.own(), call)?;
    Err(Stop::Lacks {
        need: Need::Unpin { inode },
    })
}

fn unused_pin<S: Supplies>(has: &S, call: &Call) -> Option<u32>
    ensures { unpin_step (S.holdings has.now) call.now ≡ given_back result }
{
    match call {
        Call::Open { .. } => None,
        Call::Pwrite { bytes, .. } if bytes.len() == 0 => None,
        _ => first_unused(has.own(), has.pins()),
    }
}

/// The first of some inodes that is not open.
pub(crate) fn first_unused(own: &OwnDescriptors, pins: &[u32]) -> Option<u32>
    ensures { result ≡ first_unused (own_of own.now) pins.now }
{
    for inode in pins {
        if !own.has_open(*inode) {
            return Some(*inode);
        }
    }
    None
}

fn refuse_by_words(alloc: Global, own: &OwnDescriptors, call: &Call) -> Result<(), Stop>
    ensures comes { Comes (not_refused (run_part root_alone (decide (own_of own.now) call.now))) result }
    ensures memory { result ≡ Err Memory → takes_memory root_alone (own_of own.now) call.now ≡ true }
{
    match decide(alloc, &WordsAlone, own, call) {
        Err(DecideError::Refused { errno }) => Err(Stop::Refused { errno }),
        Err(DecideError::Memory) => Err(Stop::Memory),
        _ => Ok(()),
    }
}

// What is said of a call that comes to no operation.
fn stop_at<S: Supplies>(has: &S, why: DecideError) -> Stop
    ensures { result ≡ stop_at (S.holdings has.now) why }
{
    match why {
        DecideError::Refused { errno } => Stop::Refused { errno },
        DecideError::Missing { what } => Stop::Lacks {
            need: first_look(has, what),
        },
        DecideError::Memory => Stop::Memory,
    }
}

fn first_look<S: Supplies>(has: &S, what: Missing) -> Need
    ensures { result ≡ first_look (S.holdings has.now) what }
{
    match what {
        Missing::Node { inode } if has.may_read(inode) => Need::View { inode },
        Missing::Node { inode } => Need::Lease {
            inode,
            mode: Mode::Read,
        },
        Missing::Blocks {
            inode,
            first,
            count,
        } => Need::Blocks {
            inode,
            first,
            count,
        },
    }
}

// What follows once a call has come to its operation.
fn plan<T: TreeAnswers, S: Supplies>(
    alloc: Global,
    tree: &T,
    has: &S,
    operation: Operation,
) -> Result<Outcome, Stop>
    requires { IsInRange operation }
    ensures comes { Comes (plan_outcome (T.part tree.now) (S.holdings has.now) operation) result }
    ensures spelled { IfOk result (λ o. IfSome (record_in o) IsRecord) }
    ensures number { IfOk result (λ o. ForSome (change_in o) OpensInRange) }
    ensures memory { result ≡ Err Memory → changes operation ≡ true }
{
    let new = number_for(has.numbers(), operation.makes_node())?;
    // Not by `?`, which would drop the operation on its way out, and costs seconds in the check.
    match grant(tree, has, &operation, new) {
        Ok(units) => settle(alloc, tree, has, operation, new, units),
        Err(stop) => Err(stop),
    }
}

// What an operation needs beside a number: the units that its record may take, once all is there.
fn grant<T: TreeAnswers, S: Supplies>(
    tree: &T,
    has: &S,
    operation: &Operation,
    new: u32,
) -> Result<u32, Stop>
    ensures comes { Comes (grant_step (T.part tree.now) (S.holdings has.now) new operation.now) result }
    ensures memory { result ≢ Err Memory }
{
    let inodes = subjects(operation, new);
    hold_all(tree, has, operation, new, inodes.as_slice())?;
    let units = growth(tree, has, operation)?;
    pay(has.spare(), units)?;
    pin(has.pins(), operation, new)?;
    Ok(units)
}

// An operation that has all that it needs is answered, or logged.
fn settle<T: TreeAnswers, S: Supplies>(
    alloc: Global,
    tree: &T,
    has: &S,
    operation: Operation,
    new: u32,
    units: u32,
) -> Result<Outcome, Stop>
    requires { IsInRange operation }
    ensures comes { Comes (settle_outcome (T.part tree.now) (S.holdings has.now) new operation units) result }
    ensures spelled { IfOk result (λ o. IfSome (record_in o) IsRecord) }
    ensures number { IfOk result (λ o. ForSome (change_in o) OpensInRange) }
    ensures memory { result ≡ Err Memory → changes operation ≡ true }
{
    if !writes_record(&operation) {
        let change = change_of(&operation, new);
        return Ok(Outcome::Reply {
            reply: operation.into_reply(),
            change,
        });
    }
    log(alloc, tree, has, operation, new, units)
}

fn number_for(numbers: &[u32], makes_node: bool) -> Result<u32, Stop>
    ensures comes { Comes (number_step numbers.now makes_node) result }
    ensures memory { result ≢ Err Memory }
{
    match numbers {
        [first, ..] => Ok(*first),
        [] if makes_node => Err(Stop::Lacks {
            need: Need::Inodes { count: 1 },
        }),
        [] => Ok(0),
    }
}

// Each inode that the record changes is held for writing, and what stands there is known.
fn hold_all<T: TreeAnswers, S: Supplies>(
    tree: &T,
    has: &S,
    operation: &Operation,
    new: u32,
    inodes: &[u32],
) -> Result<(), Stop>
    ensures comes { Comes (write_step (T.part tree.now) (S.holdings has.now) new operation.now inodes.now) result }
    ensures memory { result ≢ Err Memory }
{
    let [first, rest @ ..] = inodes else {
        return Ok(());
    };
    hold(tree, has, operation, new, *first)?;
    hold_all(tree, has, operation, new, rest)
}

fn hold<T: TreeAnswers, S: Supplies>(
    tree: &T,
    has: &S,
    operation: &Operation,
    new: u32,
    inode: u32,
) -> Result<(), Stop>
    ensures comes { Comes (lease_step (T.part tree.now) (S.holdings has.now) new operation.now inode) result }
    ensures memory { result ≢ Err Memory }
{
    if !has.may_write(inode) {
        return Err(Stop::Lacks {
            need: Need::Lease {
                inode,
                mode: Mode::Write,
            },
        });
    }
    let is_new = operation.makes_node() && inode == new;
    if tree.file_size(inode).is_none() && !is_new {
        return Err(Stop::Lacks {
            need: Need::View { inode },
        });
    }
    Ok(())
}

fn growth<T: TreeAnswers, S: Supplies>(
    tree: &T,
    has: &S,
    operation: &Operation,
) -> Result<u32, Stop>
    ensures comes { Comes (look_step (T.part tree.now) (S.holdings has.now) (units_asked operation.now)) result }
    ensures memory { result ≢ Err Memory }
{
    match growth_of(tree, operation) {
        Ok(units) => Ok(units),
        Err(why) => Err(stop_at(has, why)),
    }
}

fn pay(spare: u32, units: u32) -> Result<(), Stop>
    ensures comes { Comes (unit_step spare units) result }
    ensures memory { result ≢ Err Memory }
{
    if units > spare {
        return Err(Stop::Lacks {
            need: Need::Units {
                count: units - spare,
            },
        });
    }
    Ok(())
}

fn pin(pins: &[u32], operation: &Operation, new: u32) -> Result<(), Stop>
    ensures comes { Comes (pin_step pins.now (opens new operation.now)) result }
    ensures memory { result ≢ Err Memory }
{
    match operation.opens(new) {
        Some((_, descriptor)) if !pins.contains(&descriptor.inode) => Err(Stop::Lacks {
            need: Need::Pin {
                inode: descriptor.inode,
            },
        }),
        _ => Ok(()),
    }
}

// Whether an operation has a record.
fn writes_record(operation: &Operation) -> bool
    ensures { result ≡ changes operation.now }
{
    match operation {
        Operation::Tell { .. } => false,
        Operation::OpenFile { empties, .. } => *empties,
        Operation::CloseFile { .. } => false,
        _ => true,
    }
}

fn change_of(operation: &Operation, new: u32) -> Option<DescriptorChange>
    ensures is { result ≡ change_of new operation.now }
    ensures number { IsInRange operation.now → ForSome result OpensInRange }
{
    match operation {
        Operation::CloseFile { descriptor, .. } => Some(DescriptorChange {
            number: *descriptor,
            what: None,
        }),
        _ => match operation.opens(new) {
            Some((number, what)) => Some(DescriptorChange {
                number,
                what: Some(what),
            }),
            None => None,
        },
    }
}

// The record of an operation, once there is room for it.
fn log<T: TreeAnswers, S: Supplies>(
    alloc: Global,
    tree: &T,
    has: &S,
    operation: Operation,
    new: u32,
    units: u32,
) -> Result<Outcome, Stop>
    requires range { IsInRange operation }
    requires changes { changes operation ≡ true }
    ensures comes { Comes (log_outcome (T.part tree.now) (S.holdings has.now) new operation units) result }
    ensures spelled { IfOk result (λ o. IfSome (record_in o) IsRecord) }
    ensures number { IfOk result (λ o. ForSome (change_in o) OpensInRange) }
{
    let change = change_of(&operation, new);
    let made = if operation.makes_node() {
        Some(new)
    } else {
        None
    };
    let reply = operation.reply().unwrap_or(Reply::Done);
    // Not by `?`, as above: it would drop the reply and the change.
    match fitting_record(alloc, tree, has, operation, new, units) {
        Ok(record) => Ok(Outcome::Log {
            record,
            reply,
            made,
            change,
        }),
        Err(stop) => Err(stop),
    }
}

// The record of an operation, where there is room for it.
fn fitting_record<T: TreeAnswers, S: Supplies>(
    alloc: Global,
    tree: &T,
    has: &S,
    operation: Operation,
    new: u32,
    units: u32,
) -> Result<Record, Stop>
    requires { changes operation ≡ true }
    ensures comes { Comes (fitting_record (T.part tree.now) (S.holdings has.now) new operation units) result }
    ensures spelled { IfOk result IsRecord }
{
    let Some(most) = has.room() else {
        return Err(Stop::Lacks { need: Need::Room });
    };
    let record = record_for(alloc, tree, has, operation, new, units)?;
    if !fits(&record, most) {
        return Err(Stop::Lacks { need: Need::Room });
    }
    Ok(record)
}

fn record_for<T: TreeAnswers, S: Supplies>(
    alloc: Global,
    tree: &T,
    has: &S,
    operation: Operation,
    new: u32,
    units: u32,
) -> Result<Record, Stop>
    requires { changes operation ≡ true }
    ensures comes { Comes (record_of_plan (T.part tree.now) (S.holdings has.now) new operation units) result }
{
    match record_of(alloc, tree, operation, new, units) {
        Ok(made) => Ok(made.unwrap()),
        Err(back) => Err(stop_given_back(has, back)),
    }
}

fn stop_given_back<S: Supplies>(has: &S, back: (DecideError, Operation)) -> Stop
    ensures { result ≡ stop_at (S.holdings has.now) back.0 }
{
    stop_at(has, back.0)
}

fn fits(logged: &Record, most: usize) -> bool
    ensures fitting { result ≡ (is_record logged.now && nat_le (length (record_bytes logged.now)) most) }
    ensures spelled { result ≡ true → IsRecord logged.now }
{
    logged.has_spelling() && logged.spelled_len() <= most
}
