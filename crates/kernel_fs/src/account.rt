ghost use Rattle.std.specs.Prelude.{◌≡◌, ◌+◌, ◌-◌, ◌^◌, ◌<◌, ◌≤◌, ◌||◌, ◌&&◌, ℕ, not, length, min, false};
ghost use Rattle.world_invariant.specs.Logs.{is_made, is_made_in, units_in};
ghost use Rattle.world_invariant.specs.World.{Account};
ghost use Rattle.world_invariant.specs.LeaseSteps.{also, without};
ghost use Rattle.world_invariant.specs.Machine.{account_after};
ghost use Rattle.world_invariant.specs.FormatWorld.{idle_account};
ghost use Rattle.kernel_fs.specs.Account.{IsAccountOf};
ghost use Rattle.kernel_fs.specs.Inodes.{IsInode, has};

use crate::inode_set::InodeSet;
use world_invariant::in_file_graph::Effect;
use world_invariant::in_log_record::Record;

/// What the book has of one client.
#[derive(Drop)]
pub struct ClientAccount {
    /// The units that it was given and that are not digested.
    pub units: u64,
    /// How many of the records that were accepted are not digested.
    pub waiting: u32,
    /// The inode numbers that it was given, until the record that makes the node is digested.
    pub numbers: InodeSet,
    /// The inodes that it has pinned.
    pub pins: InodeSet,
}

impl ClientAccount {
    // Nothing is out.
    pub(crate) fn new() -> Self
        ensures is { (mark : ℕ) → IsAccountOf result (idle_account mark) mark }
        ensures units { result.units ≡ 0 }
    {
        ClientAccount {
            units: 0,
            waiting: 0,
            numbers: InodeSet::new(),
            pins: InodeSet::new(),
        }
    }

    // Units and numbers are granted.
    pub(crate) fn grant(&mut self, units: u64, numbers: &InodeSet)
        requires { self.old.units + units < 2 ^ 64 }
        ensures step { (of : Account) (accepted : ℕ) → IsAccountOf self.old of accepted → IsAccountOf self.new (record of { units = of.units + units; numbers = λ i. of.numbers i || has numbers.now i }) accepted }
        ensures units { self.new.units ≡ self.old.units + units }
    {
        self.units += units;
        self.numbers.insert_all(numbers);
    }

    // Units and numbers are given back; it answers how many units it had of them.
    pub(crate) fn take_back(&mut self, units: u64, numbers: &InodeSet) -> u64
        ensures step { (of : Account) (accepted : ℕ) → IsAccountOf self.old of accepted → IsAccountOf self.new (record of { units = of.units - units; numbers = λ i. of.numbers i && not (has numbers.now i) }) accepted }
        ensures units { self.new.units + result ≡ self.old.units }
        ensures given { result ≡ min units self.old.units }
    {
        let given = units.min(self.units);
        self.units -= given;
        self.numbers.remove_all(numbers);
        given
    }

    // An inode is pinned.
    pub(crate) fn pin(&mut self, inode: u32)
        requires { IsInode inode }
        ensures step { (of : Account) (accepted : ℕ) → IsAccountOf self.old of accepted → IsAccountOf self.new (record of { pins = also of.pins inode }) accepted }
        ensures units { self.new.units ≡ self.old.units }
    {
        self.pins.insert(inode);
    }

    // A pin is dropped.
    pub(crate) fn unpin(&mut self, inode: u32)
        ensures step { (of : Account) (accepted : ℕ) → IsAccountOf self.old of accepted → IsAccountOf self.new (record of { pins = without of.pins inode }) accepted }
        ensures units { self.new.units ≡ self.old.units }
    {
        self.pins.remove(inode);
    }

    // So many records are accepted.
    pub(crate) fn accept(&mut self, count: u32)
        ensures step { (of : Account) (accepted : ℕ) → IsAccountOf self.old of accepted → IsAccountOf self.new of (of.mark + count) }
        ensures units { self.new.units ≡ self.old.units }
        ensures waiting { self.new.waiting ≡ count }
    {
        self.waiting = count;
    }

    // Its next records are digested; it answers how many units it had of theirs.
    pub(crate) fn digest(&mut self, records: &[Record]) -> u64
        requires { length records.now ≤ self.old.waiting }
        ensures step { (of : Account) (accepted : ℕ) → IsAccountOf self.old of accepted → IsAccountOf self.new (account_after of records.now) accepted }
        ensures waiting { self.new.waiting + length records.now ≡ self.old.waiting }
        ensures units { self.new.units + result ≡ self.old.units }
        ensures given { result ≡ min (units_in records.now) self.old.units }
    {
        let before = self.units;
        let waiting = self.waiting;
        self.remove_records(records);
        self.waiting = waiting - records.len() as u32;
        before - self.units
    }

    // The units of records leave the account, and the numbers of the nodes that they make.
    fn remove_records(&mut self, records: &[Record])
        ensures units { self.new.units ≡ self.old.units - units_in records.now }
        ensures numbers { (i : ℕ) → has self.new.numbers i ≡ (has self.old.numbers i && not (is_made_in i records.now)) }
        ensures waiting { self.new.waiting ≡ self.old.waiting }
        ensures pins { self.new.pins ≡ self.old.pins }
    {
        'records: for record in records {
            self.units = self.units.saturating_sub(record.units as u64);
            remove_made(&mut self.numbers, record.effects.as_slice());
        }
    }

    // Nothing is left of it but the records that are waiting; it answers how many units it had.
    pub(crate) fn bury(&mut self) -> u64
        ensures step { (of : Account) (accepted : ℕ) → IsAccountOf self.old of accepted → IsAccountOf self.new (idle_account of.mark) accepted }
        ensures units { self.new.units ≡ 0 }
        ensures given { result ≡ self.old.units }
    {
        let given = self.units;
        self.units = 0;
        self.numbers = InodeSet::new();
        self.pins = InodeSet::new();
        given
    }
}

// Takes out the numbers of the nodes that effects make.
fn remove_made(numbers: &mut InodeSet, effects: &[Effect])
    ensures { (i : ℕ) → has numbers.new i ≡ (has numbers.old i && not (is_made i effects.now)) }
{
    'effects: for effect in effects {
        if let Effect::Make { inode, .. } = effect {
            numbers.remove(*inode);
        }
    }
}
