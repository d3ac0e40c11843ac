ghost use Rattle.std.specs.Prelude.{◌≡◌, ◌≢◌, ◌↔◌, ◌+◌, ◌-◌, ◌^◌, ◌<◌, ◌≤◌, ℕ, List, length, min, true, false, IsTrue, IfSome, None, IfOk, OnErr, OnOk, IsErrOf};
ghost use Rattle.posix_calls.specs.Operations.{is_client};
ghost use Rattle.world_invariant.specs.file_graph.Graph.{Graph};
ghost use Rattle.world_invariant.specs.Logs.{units_in};
ghost use Rattle.world_invariant.specs.Machine.{Machine, Sealed, accept as accepted, digest as digested, book_pin, unbook_pin, bury as buried};
ghost use Rattle.kernel_fs.specs.Book.{account_of, units_of, waiting_of, out_of, is_pinned, is_free, HasThese, IsBookOf};
ghost use Rattle.kernel_fs.specs.Free.{AreLowest, count_of, is_absent};
ghost use Rattle.kernel_fs.specs.Inodes.{IsInode, has};
ghost use Rattle.kernel_fs.specs.Steps.{grant as granted, opened_machine, take_back as taken_back};
ghost use Rattle.kernel_fs.specs.declared.book_error.RefillError.TheVariants.{NoUnits, NoInode};

use crate::account::ClientAccount;
use crate::book_error::RefillError;
use crate::inode_set::InodeSet;
use crate::lowest::lowest_absent;
use posix_calls::{MAX_CLIENTS, ROOT, client_index};
use std::marker::Model;
use world_invariant::in_log_record::Record;

// How many clients there are.
const CLIENTS: usize = MAX_CLIENTS as usize;

/// The accounts of clients 1 to 8, which are counted from 1 in each call. It has a constant size, and takes no memory.
#[derive(Drop)]
pub struct Book {
    accounts: [ClientAccount; CLIENTS],
    out: u64,
}

impl Model for Book {
    ghost use Rattle.std.specs.Prelude.{◌≡◌, length};
    ghost use Rattle.kernel_fs.specs.Book.{Accounts, out_of};

    ghost Value = { Accounts };

    ghost view = { λ b. b.accounts };

    // the units that are out are counted
    ghost invariant = { λ b. (length b.accounts ≡ 8) × (b.out ≡ out_of b.accounts) };
}

/// How the units stand: `charge` of them is what the shared graph costs, and `capacity` is how many there are in all.
#[derive(Clone, Copy)]
pub struct UnitUse {
    pub charge: u64,
    pub capacity: u64,
}

// Whether so many more units fit beside those that are charged and out.
fn has_room(used: UnitUse, out: u64, units: u64) -> bool
    ensures room { result ≡ true → used.charge + out + units ≤ used.capacity }
    ensures none { result ≡ false → used.capacity < used.charge + out + units }
{
    let UnitUse { charge, capacity } = used;
    charge <= capacity && out <= capacity - charge && units <= capacity - charge - out
}

impl Book {
    /// Nothing is out, nothing granted, nothing pinned, and no record waits, however many of each client were digested before.
    pub fn new() -> Self
        ensures opens { (g : Graph) (capacity : ℕ) (marks : ℕ → ℕ) → IsBookOf result (opened_machine g capacity marks) }
        ensures out { out_of result ≡ 0 }
    {
        let accounts = [
            ClientAccount::new(),
            ClientAccount::new(),
            ClientAccount::new(),
            ClientAccount::new(),
            ClientAccount::new(),
            ClientAccount::new(),
            ClientAccount::new(),
            ClientAccount::new(),
        ];
        Book { accounts, out: 0 }
    }

    /// What the book has of a client.
    pub fn account(&self, client: u32) -> &ClientAccount
        requires client { is_client client ≡ true }
        ensures { result.now ≡ account_of self.now client }
    {
        &self.accounts[client_index(client)]
    }

    /// The units that are out, of all clients.
    pub fn units_out(&self) -> u64
        ensures { result ≡ out_of self.now }
    {
        self.out
    }

    /// Whether some client has pinned an inode. A file that has no name may be reclaimed where none has.
    pub fn is_pinned(&self, inode: u32) -> bool
        ensures { result ≡ is_pinned self.now inode }
    {
        'clients: for account in &self.accounts {
            if account.pins.contains(inode) {
                return true;
            }
        }
        false
    }

    /// Whether a client's account has so many units and all of these numbers.
    pub fn has(&self, client: u32, units: u64, numbers: &InodeSet) -> bool
        requires client { is_client client ≡ true }
        ensures { IsTrue result ↔ HasThese self.now client units (has numbers.now) }
    {
        let account = &self.accounts[client_index(client)];
        units <= account.units && account.numbers.contains_all(numbers)
    }

    /// Grants a client units and the lowest inode numbers that are free: those from 2 on that are no node of the shared graph and in no account. It is given what the
    /// graph costs, how many units there are in all, and which inodes are nodes.
    ///
    /// `NoUnits` exactly where what is charged, what is out and what is asked for pass the capacity; `NoInode` exactly where they don't, but fewer numbers are free than asked.
    /// After either nothing has changed.
    pub fn refill(
        &mut self,
        client: u32,
        units: u64,
        inodes: u32,
        used: UnitUse,
        nodes: &InodeSet,
    ) -> Result<InodeSet, RefillError>
        requires client { is_client client ≡ true }
        ensures granted { IfOk result (λ numbers. AreLowest (is_free self.old (has nodes.now)) (has numbers) inodes) }
        ensures step { IfOk result (λ numbers. (m : Machine) → IsBookOf self.old m → IsBookOf self.new (granted m client units (has numbers))) }
        ensures out { OnOk result (out_of self.new ≡ out_of self.old + units) }
        ensures law { OnOk result (used.charge + out_of self.new ≤ used.capacity) }
        ensures no_units { IsErrOf result NoUnits ↔ (used.capacity < used.charge + out_of self.old + units) }
        ensures no_inode { IsErrOf result NoInode ↔ ((used.charge + out_of self.old + units ≤ used.capacity) × (count_of (is_free self.old (has nodes.now)) < inodes)) }
        ensures refused { OnErr result (self.new ≡ self.old) }
    {
        if !has_room(used, self.out, units) {
            return Err(RefillError::NoUnits);
        }
        match self.lowest_free(nodes, inodes) {
            Some(numbers) => {
                self.grant(client, units, &numbers);
                Ok(numbers)
            }
            None => Err(RefillError::NoInode),
        }
    }

    // The lowest numbers that are free, so many; none where fewer are.
    fn lowest_free(&self, nodes: &InodeSet, count: u32) -> Option<InodeSet>
        ensures lowest { IfSome result (λ chosen. AreLowest (is_free self.now (has nodes.now)) (has chosen) count) }
        ensures enough { IfSome result (λ chosen. count ≤ count_of (is_free self.now (has nodes.now))) }
        ensures none { result ≡ None → count_of (is_free self.now (has nodes.now)) < count }
    {
        match lowest_absent(self.used_numbers(nodes), count) {
            Some(chosen) => Some(chosen),
            None => None,
        }
    }

    // The numbers that are not free: the root, the nodes, and those in some account.
    fn used_numbers(&self, nodes: &InodeSet) -> InodeSet
        ensures { (i : ℕ) → is_absent (has result) i ≡ is_free self.now (has nodes.now) i }
    {
        let mut taken = InodeSet::new();
        'clients: for account in &self.accounts {
            taken.insert_all(&account.numbers);
        }
        taken.insert_all(nodes);
        taken.insert(ROOT);
        taken
    }

    // Books units and numbers.
    fn grant(&mut self, client: u32, units: u64, numbers: &InodeSet)
        requires client { is_client client ≡ true }
        requires fits { out_of self.old + units < 2 ^ 64 }
        ensures step { (m : Machine) → IsBookOf self.old m → IsBookOf self.new (granted m client units (has numbers.now)) }
        ensures out { out_of self.new ≡ out_of self.old + units }
    {
        self.accounts[client_index(client)].grant(units, numbers);
        self.out += units;
    }

    /// Takes units and numbers out of a client's account, which it gives back; what the account doesn't have stays out of it (`has` tells).
    pub fn take_back(&mut self, client: u32, units: u64, numbers: &InodeSet)
        requires client { is_client client ≡ true }
        ensures step { (m : Machine) → IsBookOf self.old m → IsBookOf self.new (taken_back m client units (has numbers.now)) }
        ensures out { out_of self.new + min units (units_of self.old client) ≡ out_of self.old }
    {
        let given = self.accounts[client_index(client)].take_back(units, numbers);
        self.out -= given;
    }

    /// Pins an inode for a client.
    pub fn pin(&mut self, client: u32, inode: u32)
        requires client { is_client client ≡ true }
        requires inode { IsInode inode }
        ensures step { (m : Machine) → IsBookOf self.old m → IsBookOf self.new (book_pin m client inode) }
        ensures out { out_of self.new ≡ out_of self.old }
    {
        self.accounts[client_index(client)].pin(inode);
    }

    /// Drops a client's pin of an inode; others' pins stay.
    pub fn unpin(&mut self, client: u32, inode: u32)
        requires client { is_client client ≡ true }
        ensures step { (m : Machine) → IsBookOf self.old m → IsBookOf self.new (unbook_pin m client inode) }
        ensures out { out_of self.new ≡ out_of self.old }
    {
        self.accounts[client_index(client)].unpin(inode);
    }

    /// Accepts so many records of a client, all those of a region that it sealed. All records that were accepted before have to be digested.
    pub fn accept(&mut self, client: u32, count: u32)
        requires client { is_client client ≡ true }
        requires before { waiting_of self.old client ≡ 0 }
        ensures waiting { waiting_of self.new client ≡ count }
        ensures step { (m : Machine) (s : Sealed) → IsBookOf self.old m → m.accepted client ≡ s.past → length s.records ≡ count → IsBookOf self.new (accepted m client s) }
        ensures out { out_of self.new ≡ out_of self.old }
    {
        self.accounts[client_index(client)].accept(count);
    }

    /// The next records of a client are digested: their units leave its account, and the numbers of the nodes that they make. So many have to be waiting.
    pub fn digest(&mut self, client: u32, records: &[Record])
        requires client { is_client client ≡ true }
        requires waiting { length records.now ≤ waiting_of self.old client }
        ensures waiting { waiting_of self.new client + length records.now ≡ waiting_of self.old client }
        ensures step { (m : Machine) → IsBookOf self.old m → IsBookOf self.new (digested m client records.now) }
        ensures out { out_of self.new + min (units_in records.now) (units_of self.old client) ≡ out_of self.old }
        // What they raise of the charge they have in units.
        ensures law { (before after capacity : ℕ) → units_in records.now ≤ units_of self.old client → after ≤ before + units_in records.now → before + out_of self.old ≤ capacity → after + out_of self.new ≤ capacity }
    {
        let given = self.accounts[client_index(client)].digest(records);
        self.out -= given;
    }

    /// Empties the account of a client that is gone: it has no units, no number and no pin any more.
    pub fn bury(&mut self, client: u32)
        requires client { is_client client ≡ true }
        ensures step { (m : Machine) → IsBookOf self.old m → IsBookOf self.new (buried m client) }
        ensures out { out_of self.new + units_of self.old client ≡ out_of self.old }
    {
        let given = self.accounts[client_index(client)].bury();
        self.out -= given;
    }
}
