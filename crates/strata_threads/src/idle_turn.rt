//! What a client does between its turns: it gives what others ask for, and takes its region back.
ghost use Rattle.std.specs.Prelude.{◌≡◌, ◌≢◌, ◌==◌, ◌<◌, ◌≤◌, ◌+◌, ◌*◌, ◌++◌, ◌↔◌, ℕ, min, true, false, [], None, IfNone, IfSome, IsTrue, OnErr, OnOk, slice_index};
ghost use Rattle.std.specs.Int.{bit_at};
ghost use Rattle.libfs.specs.client_log.Steps.{CanBeSealed};
ghost use Rattle.libfs.specs.client_log.View.{current_records};
ghost use Rattle.libfs.specs.lease_manager.Passes.{lease_of};
ghost use Rattle.libfs.specs.lease_manager.Words.{HasWord};
ghost use Rattle.libfs.specs.lease_manager.declared.view.LeaseMode.TheVariants.{Free};
ghost use Rattle.libfs.specs.LeaseCalls.{CanBeGiven};
ghost use Rattle.strata_threads.specs.ClientCalls.{KeepsCall};
ghost use Rattle.strata_threads.specs.HeardQuestions.{AreGivenOrAsked, AreHeldAndAsked, HasGivenAsked, HasGivenAskedRows, HasHeardRow, HasHeardRows, HoldsWithin, IsGivenOrAsked, IsHeldAndAsked, IsSomeLeft, NeedsRows, heard_of, looked_at, row_of};
ghost use Rattle.strata_threads.specs.LeaseReturn.{HasNoneToGive, HasOnlyGiven, TakesNoLease};
ghost use Rattle.strata_threads.specs.RegionHandover.{HandsOver, HasComeBack, HasListened, HasLookedForRegion, HasReceived, HasSealedOrNot, HasSentOrKept};

use crate::shared_kernel::SharedKernel;
use crate::thread_client::ThreadClient;
use libfs::in_lease_manager::{INODES, LeaseMode};
use libfs::{Client, SealedRegion};
use std::alloc::AllocError;
use std::sync::Wait;
use std::thread;
use tier_device::Media;

const ROWS: u32 = 16;

impl<M: Media + Drop> ThreadClient<M> {
    /// Takes the region back that a worker has digested, and gives each inode back that others ask for. Where a record that is not digested is in the way, the current region is sealed and handed over. Who has nothing else
    /// to do listens all the time, since nobody else gives what it holds. All 16 rows of 64 inodes are heard.
    pub fn listen<R: Wait>(&mut self, rt: &R, shared: &SharedKernel<M>)
        ensures listened { HasListened M.Media 16 self.old.client self.old.asked self.new.client self.new.asked }
        ensures rows { self.new.rows ≡ self.old.rows }
        ensures kept { KeepsCall self.old.client self.new.client }
        ensures waited { self.new.waited ≡ self.old.waited }
    {
        self.listen_to(rt, shared, ROWS);
    }

    // The same, but hears and gives of the first `rows` rows of inodes alone.
    pub(crate) fn listen_to<R: Wait>(&mut self, rt: &R, shared: &SharedKernel<M>, rows: u32)
        ensures listened { HasListened M.Media (min rows 16) self.old.client self.old.asked self.new.client self.new.asked }
        ensures rows { self.new.rows ≡ self.old.rows }
        ensures kept { KeepsCall self.old.client self.new.client }
        ensures waited { self.new.waited ≡ self.old.waited }
    {
        self.take_back(rt, shared);
        hear(&mut self.client, &mut self.asked, rows);
        if give_asked(&mut self.client, &mut self.asked, rows) {
            let _ = self.hand_over(rt, shared);
        }
    }

    // Takes the region back that came by the queue, if one is away. One that the queue to the workers had no room for goes first.
    fn take_back<R: Wait>(&mut self, rt: &R, shared: &SharedKernel<M>)
        ensures back { HasComeBack M.Media self.old.client self.new.client }
        ensures looked { self.old.client.log.other ≡ None → self.old.ends.kept ≡ None → HasLookedForRegion M.Media self.old.client self.old.ends.tasks self.old.ends.returns self.new.client self.new.ends.tasks self.new.ends.returns self.new.ends.kept }
        ensures rows { self.new.rows ≡ self.old.rows }
        ensures asked { self.new.asked ≡ self.old.asked }
        ensures kept { KeepsCall self.old.client self.new.client }
        ensures waited { self.new.waited ≡ self.old.waited }
    {
        if !self.client.is_region_away() {
            return;
        }
        match self.ends.take(rt, shared) {
            Some(region) => self.receive(rt, shared, region),
            None => {}
        }
    }

    // Takes a region back that is digested whole; any other one goes to the workers once more.
    fn receive<R: Wait>(&mut self, rt: &R, shared: &SharedKernel<M>, region: SealedRegion<M>)
        requires free { self.old.ends.kept ≡ None }
        ensures received { HasReceived M.Media self.old.client self.old.ends.tasks region self.new.client self.new.ends.tasks self.new.ends.kept }
        ensures returns { self.new.ends.returns ≡ self.old.ends.returns }
        ensures rows { self.new.rows ≡ self.old.rows }
        ensures asked { self.new.asked ≡ self.old.asked }
        ensures kept { KeepsCall self.old.client self.new.client }
        ensures waited { self.new.waited ≡ self.old.waited }
    {
        match self.client.take_back(region) {
            Ok(()) => {}
            Err(region) => self.ends.send(rt, shared, region),
        }
    }

    // Seals the current region and sends it to the workers, where it has records and no other one is away. An error is want of memory, with nothing changed.
    pub(crate) fn hand_over<R: Wait>(
        &mut self,
        rt: &R,
        shared: &SharedKernel<M>,
    ) -> Result<(), AllocError>
        ensures handed { OnOk result (HandsOver M.Media self.old.ends.kept self.old.client self.old.ends.tasks self.new.client self.new.ends.tasks self.new.ends.kept) }
        ensures memory { OnErr result (CanBeSealed M.Media self.old.client.log × (self.new.client ≡ self.old.client) × (self.new.ends.tasks ≡ self.old.ends.tasks) × (self.new.ends.kept ≡ self.old.ends.kept)) }
        ensures sealed { HasSealedOrNot M.Media self.old.client self.new.client }
        ensures returns { self.new.ends.returns ≡ self.old.ends.returns }
        ensures rows { self.new.rows ≡ self.old.rows }
        ensures asked { self.new.asked ≡ self.old.asked }
        ensures kept { KeepsCall self.old.client self.new.client }
        ensures waited { self.new.waited ≡ self.old.waited }
    {
        if self.ends.kept.is_some() {
            return Ok(());
        }
        match self.client.seal()? {
            Some(region) => {
                self.ends.send(rt, shared, region);
                Ok(())
            }
            None => Ok(()),
        }
    }

    /// Has all that the client logged digested, in at most `rounds` rounds, in which it listens. It answers whether no record of it is left that is not known to be digested.
    pub fn clear_log<R: Wait>(&mut self, rt: &R, shared: &SharedKernel<M>, rounds: u64) -> bool
        ensures cleared { IsTrue result ↔ (self.new.client.sealed ++ current_records M.Media self.new.client.log ≡ []) }
        ensures kept { KeepsCall self.old.client self.new.client }
        ensures waited { self.new.waited ≡ self.old.waited }
    {
        for round in 0..rounds {
            self.listen(rt, shared);
            if self.is_clear() {
                return true;
            }
            let _ = self.hand_over(rt, shared);
            thread::yield_now();
        }
        self.is_clear()
    }

    // Whether each record that the client logged is known to be digested.
    fn is_clear(&self) -> bool
        ensures { IsTrue result ↔ (self.now.client.sealed ++ current_records M.Media self.now.client.log ≡ []) }
    {
        self.client.undigested() == 0
    }

    /// Gives all leases back that can be given: of the others a record is not digested, or a device has failed.
    pub fn give_all(&mut self)
        ensures given { HasOnlyGiven self.old.client self.new.client }
        ensures none { HasNoneToGive self.new.client }
        ensures rows { HoldsWithin self.new.rows self.new.client }
        ensures least { NeedsRows self.new.rows self.new.client }
        ensures kept { KeepsCall self.old.client self.new.client }
        ensures waited { self.new.waited ≡ self.old.waited }
    {
        give_inodes(&mut self.client);
        self.rows = held_rows(&self.client);
    }
}

// Hears what others ask for of the first rows of inodes.
fn hear<M: Media>(client: &mut Client<M>, asked: &mut [u64; 16], rows: u32)
    ensures heard { HasHeardRows (min rows 16) client.old asked.old client.new asked.new }
    ensures leases { TakesNoLease client.old client.new }
    ensures kept { KeepsCall client.old client.new }
{
    for row in 0..rows.min(ROWS) {
        let bits = hear_row(client, row);
        asked[row as usize] |= bits;
    }
}

// What others ask for of a row of inodes. It is emptied only where it shows something, which is seldom: a swap costs some ten times a load.
#[tactic(auto, using(crate::proofs::LeaseReturn::takes_nothing, crate::proofs::LeaseReturn::takes_no_more))]
fn hear_row<M: Media>(client: &mut Client<M>, row: u32) -> u64
    requires row { row < 16 }
    ensures heard { HasHeardRow client.old row result client.new }
    ensures leases { TakesNoLease client.old client.new }
    ensures kept { KeepsCall client.old client.new }
{
    if !has_questions(client, row) {
        return 0;
    }
    empty_row(client, row)
}

// How many rows there are up to the last one of which it holds an inode.
pub(crate) fn held_rows<M: Media>(client: &Client<M>) -> u32
    ensures within { HoldsWithin result client.now }
    ensures least { NeedsRows result client.now }
{
    let mut rows = 0;
    for before in 0..INODES {
        if client.holds(before + 1) != LeaseMode::Free {
            rows = row_count(before + 1);
        }
    }
    rows
}

// How many rows there are up to that of an inode.
pub(crate) fn row_count(inode: u32) -> u32
    requires { HasWord inode }
    ensures { result ≡ row_of inode + 1 }
{
    (inode - 1) / 64 + 1
}

// Whether others ask for something of a row of inodes.
fn has_questions<M: Media>(client: &mut Client<M>, row: u32) -> bool
    requires row { row < 16 }
    ensures looked { (shown : ℕ) × (IsTrue result ↔ (shown ≢ 0)) × (client.new ≡ looked_at client.old row shown) }
    ensures leases { TakesNoLease client.old client.new }
    ensures kept { KeepsCall client.old client.new }
{
    client.unheard_questions(row) != 0
}

// What others ask for of it, and the row is emptied.
fn empty_row<M: Media>(client: &mut Client<M>, row: u32) -> u64
    requires row { row < 16 }
    ensures heard { client.new ≡ heard_of client.old row result }
    ensures leases { TakesNoLease client.old client.new }
    ensures kept { KeepsCall client.old client.new }
{
    client.asked_back(row)
}

// Gives what was asked for of the first rows, and keeps what can't be given. It answers whether something of them is left.
fn give_asked<M: Media>(client: &mut Client<M>, asked: &mut [u64; 16], rows: u32) -> bool
    ensures answered { (row : ℕ) → row < min rows 16 → AreGivenOrAsked client.new row (slice_index asked.old row) (slice_index asked.new row) }
    ensures only { (row : ℕ) → row < min rows 16 → AreHeldAndAsked client.new row (slice_index asked.old row) (slice_index asked.new row) }
    ensures later { (row : ℕ) → min rows 16 ≤ row → slice_index asked.new row ≡ slice_index asked.old row }
    ensures left { IsTrue result ↔ IsSomeLeft (min rows 16) asked.new }
    ensures unasked { HasGivenAskedRows (min rows 16) asked.old client.old client.new }
    ensures given { HasOnlyGiven client.old client.new }
    ensures kept { KeepsCall client.old client.new }
{
    let mut is_left = false;
    for row in 0..rows.min(ROWS) {
        let left = give_row(client, row, asked[row as usize]);
        asked[row as usize] = left;
        is_left = is_left || left != 0;
    }
    is_left
}

// Gives all inodes that can be given.
fn give_inodes<M: Media>(client: &mut Client<M>)
    ensures given { HasOnlyGiven client.old client.new }
    ensures none { HasNoneToGive client.new }
    ensures kept { KeepsCall client.old client.new }
{
    for before in 0..INODES {
        let _ = give(client, before + 1);
    }
}

// Gives those of a row of inodes whose bits are set. It answers which are held and can't be given.
fn give_row<M: Media>(client: &mut Client<M>, row: u32, bits: u64) -> u64
    requires row { row < 16 }
    ensures answered { AreGivenOrAsked client.new row bits result }
    ensures only { AreHeldAndAsked client.new row bits result }
    ensures unasked { HasGivenAsked row bits client.old client.new }
    ensures given { HasOnlyGiven client.old client.new }
    ensures kept { KeepsCall client.old client.new }
{
    if bits == 0 {
        return 0;
    }
    give_bits(client, row, bits)
}

// The same, where a bit is set.
fn give_bits<M: Media>(client: &mut Client<M>, row: u32, bits: u64) -> u64
    requires row { row < 16 }
    ensures answered { AreGivenOrAsked client.new row bits result }
    ensures only { AreHeldAndAsked client.new row bits result }
    ensures unasked { HasGivenAsked row bits client.old client.new }
    ensures given { HasOnlyGiven client.old client.new }
    ensures kept { KeepsCall client.old client.new }
{
    let mut left = 0;
    for bit in 0..64u32 {
        left = give_bit(client, row, bits, bit, left);
    }
    left
}

// Gives the inode of a bit of a row, if the bit is set. It answers the bits that are left, with this one if it is held and can't be given.
#[tactic(auto, using(crate::proofs::LeaseReturn::gives_nothing))]
fn give_bit<M: Media>(client: &mut Client<M>, row: u32, bits: u64, bit: u32, left: u64) -> u64
    requires row { row < 16 }
    requires bit { bit < 64 }
    requires unset { bit_at left bit ≢ 1 }
    ensures answered { bit_at bits bit ≡ 1 → IsGivenOrAsked client.new row result bit }
    ensures only { bit_at result bit ≡ 1 → IsHeldAndAsked client.new row bits bit }
    ensures rest { (other : ℕ) → other ≢ bit → bit_at result other ≡ bit_at left other }
    ensures unasked { bit_at bits bit ≢ 1 → client.new ≡ client.old }
    ensures others { (i : ℕ) → HasWord i → i ≢ 64 * row + bit + 1 → lease_of client.new.pass i ≡ lease_of client.old.pass i }
    ensures given { HasOnlyGiven client.old client.new }
    ensures kept { KeepsCall client.old client.new }
{
    if !has_bit(bits, bit) {
        return left;
    }
    if give(client, 64 * row + bit + 1) {
        return left;
    }
    with_bit(left, bit)
}

// Whether a bit is set.
pub(crate) fn has_bit(bits: u64, bit: u32) -> bool
    requires { bit < 64 }
    ensures value { result ≡ (bit_at bits bit == 1) }
    ensures exact { IsTrue result ↔ (bit_at bits bit ≡ 1) }
{
    bits >> bit & 1 == 1
}

// The bits with one more set.
fn with_bit(bits: u64, bit: u32) -> u64
    requires { bit < 64 }
    ensures is_set { bit_at result bit ≡ 1 }
    ensures rest { (other : ℕ) → other ≢ bit → bit_at result other ≡ bit_at bits other }
{
    bits | 1 << bit
}

// Gives an inode back, if it is held. It answers false where it can't be given.
#[tactic(auto, using(crate::proofs::LeaseReturn::gives_nothing, crate::proofs::LeaseReturn::free_stays))]
fn give<M: Media>(client: &mut Client<M>, inode: u32) -> bool
    requires inode { HasWord inode }
    ensures given { HasOnlyGiven client.old client.new }
    ensures none { CanBeGiven client.new inode → ⊥ }
    ensures free { result ≡ true → lease_of client.new.pass inode ≡ Free }
    ensures held { result ≡ false → lease_of client.new.pass inode ≢ Free }
    ensures others { (i : ℕ) → HasWord i → i ≢ inode → lease_of client.new.pass i ≡ lease_of client.old.pass i }
    ensures kept { KeepsCall client.old client.new }
{
    if client.holds(inode) == LeaseMode::Free {
        return true;
    }
    give_held(client, inode)
}

// The same, where it is held.
fn give_held<M: Media>(client: &mut Client<M>, inode: u32) -> bool
    requires held { lease_of client.old.pass inode ≢ Free }
    ensures given { HasOnlyGiven client.old client.new }
    ensures none { CanBeGiven client.new inode → ⊥ }
    ensures free { result ≡ true → lease_of client.new.pass inode ≡ Free }
    ensures held { result ≡ false → lease_of client.new.pass inode ≢ Free }
    ensures others { (i : ℕ) → HasWord i → i ≢ inode → lease_of client.new.pass i ≡ lease_of client.old.pass i }
    ensures kept { KeepsCall client.old client.new }
{
    client.give(inode)
}
