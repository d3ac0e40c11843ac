//! The pass counts each record once on each inode that it touches.
ghost use Rattle.std.specs.Prelude.{◌≡◌, ◌+◌, ◌≤◌, ◌<◌, ◌^◌, ◌∷◌, ℕ, true, false};
ghost use Rattle.std.specs.List.{AllByRecursion};
ghost use Rattle.log_record.specs.file_graph.Graph.{is_among, subjects, touches};
ghost use Rattle.log_record.specs.Grammar.{FitsLimits, IsRecord};
ghost use Rattle.lease_manager.specs.declared.view.LeaseMode.TheVariants.{Writing};
ghost use Rattle.lease_manager.specs.Words.{HasWord};
ghost use Rattle.lease_manager.specs.Passes.{lease_of, records_of};
ghost use Rattle.lease_manager.specs.RecordCounts.{HasNoted, HasCleaned, HasOneMore, HasUncounted, is_touched, one_if, touch_count};

use crate::{Leases, Pass};
use log_record::Record;
use log_record::in_file_graph::Effect;

/// Counts a record with these effects.
pub fn note_effects(leases: &Leases, pass: &mut Pass, effects: &[Effect])
    requires table { pass.old.table ≡ leases.now }
    requires fit { AllByRecursion FitsLimits effects.now }
    requires held { (i : ℕ) → is_touched effects.now i ≡ true → lease_of pass.old i ≡ Writing }
    requires room { (i : ℕ) → HasWord i → records_of pass.old i + 1 < 2 ^ 64 }
    ensures { HasNoted pass.old effects.now pass.new }
{
    let [first, rest @ ..] = effects else {
        return;
    };
    note_effects(leases, pass, rest);
    let (inode, second) = first.subjects();
    match second {
        None => note_once(leases, pass, inode, is_touched(rest, inode)),
        Some(other) => {
            note_once(leases, pass, other, is_touched(rest, other));
            note_once(leases, pass, inode, is_counted(other, rest, inode));
        }
    }
}

/// Counts a record with these effects no longer.
pub fn clean_effects(leases: &Leases, pass: &mut Pass, effects: &[Effect])
    requires table { pass.old.table ≡ leases.now }
    requires fit { AllByRecursion FitsLimits effects.now }
    requires there { (i : ℕ) → HasWord i → one_if (is_touched effects.now i) ≤ records_of pass.old i }
    ensures { HasUncounted pass.old effects.now pass.new }
{
    let [first, rest @ ..] = effects else {
        return;
    };
    clean_effects(leases, pass, rest);
    let (inode, second) = first.subjects();
    match second {
        None => clean_once(leases, pass, inode, is_touched(rest, inode)),
        Some(other) => {
            clean_once(leases, pass, other, is_touched(rest, other));
            clean_once(leases, pass, inode, is_counted(other, rest, inode));
        }
    }
}

/// Counts these records no longer.
pub fn clean_records(leases: &Leases, pass: &mut Pass, records: &[Record])
    requires table { pass.old.table ≡ leases.now }
    requires spelled { AllByRecursion IsRecord records.now }
    requires there { (i : ℕ) → HasWord i → touch_count records.now i ≤ records_of pass.old i }
    ensures { HasCleaned pass.old records.now pass.new }
{
    for logged in records {
        clean_effects(leases, pass, logged.effects.as_slice());
    }
}

// Whether effects touch an inode.
fn is_touched(effects: &[Effect], inode: u32) -> bool
    ensures { result ≡ is_touched effects.now inode }
{
    let [first, rest @ ..] = effects else {
        return false;
    };
    is_on(first, inode) || is_touched(rest, inode)
}

// Whether an effect is on an inode.
fn is_on(effect: &Effect, inode: u32) -> bool
    ensures { result ≡ is_among inode (subjects effect.now) }
{
    let (first, second) = effect.subjects();
    match second {
        None => first == inode,
        Some(other) => first == inode || other == inode,
    }
}

// Whether an inode is this one, or effects touch it.
fn is_counted(counted: u32, effects: &[Effect], inode: u32) -> bool
    ensures { result ≡ is_among inode (counted ∷ touches effects.now) }
{
    counted == inode || is_touched(effects, inode)
}

// Counts one more on an inode, unless the record is counted there already.
fn note_once(leases: &Leases, pass: &mut Pass, inode: u32, is_counted: bool)
    requires table { pass.old.table ≡ leases.now }
    requires inode { HasWord inode }
    requires held { lease_of pass.old inode ≡ Writing }
    requires room { is_counted ≡ false → records_of pass.old inode + 1 < 2 ^ 64 }
    ensures { HasOneMore pass.old inode is_counted pass.new }
{
    if !is_counted {
        leases.note(pass, inode);
    }
}

// Counts one fewer on an inode, unless the record is gone from its count already.
fn clean_once(leases: &Leases, pass: &mut Pass, inode: u32, is_counted: bool)
    requires table { pass.old.table ≡ leases.now }
    requires inode { HasWord inode }
    requires there { is_counted ≡ false → 1 ≤ records_of pass.old inode }
    ensures { HasOneMore pass.new inode is_counted pass.old }
{
    if !is_counted {
        leases.clean(pass, inode, 1);
    }
}
