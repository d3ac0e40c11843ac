ghost use Rattle.std.specs.Prelude.{◌≡◌, ◌-◌, ◌/◌, ◌<◌, ◌↔◌, [], ◌∷◌, IsTrue, IfErr, OnOk, true, false};
ghost use Rattle.lease_manager.specs.declared.view.Event.TheVariants.{Asked, Heard, Looked};
ghost use Rattle.lease_manager.specs.declared.view.LeaseMode.TheVariants.{Free, Reading, Writing};
ghost use Rattle.lease_manager.specs.Words.{HasWord, IsClient, asked_word, asked_bit};
ghost use Rattle.lease_manager.specs.Marks.{ShowsOther};
ghost use Rattle.lease_manager.specs.seat_book.Book.{HoldsPart};
ghost use Rattle.lease_manager.specs.Parts.{AreCompatible, Continues, FindsUnheard, ShareHistory};
ghost use Rattle.lease_manager.specs.Passes.{client_of, lease_of, with_lease, refused_at, with_event};
ghost use Rattle.lease_manager.specs.LeaseCounts.{CountsAs};
ghost use Rattle.libfs.specs.LeaseCalls.{CanBeGiven, HasGiven, ShowsBar, mode_of, refused_pass};

use crate::client::Client;
use client_view::in_client_plan::Mode;
use lease_manager::{Busy, LeaseMode, Leases, Pass, is_inode, raise, take_read, take_write};
use tier_device::Media;

impl<M: Media> Client<M> {
    /// Takes a lease of an inode of which the client holds none. `Busy` has the number found in its word, which showed another client's mark; then the client holds what it held.
    pub fn lease(&mut self, inode: u32, mode: Mode) -> Result<(), Busy>
        requires inode { HasWord inode }
        requires free { lease_of self.old.pass inode ≡ Free }
        ensures taken { OnOk result (self.new ≡ record self.old { pass = with_lease self.old.pass inode (mode_of mode) }) }
        ensures lease { OnOk result (lease_of self.new.pass inode ≡ mode_of mode) }
        ensures refused { IfErr result (λ e. self.new ≡ record self.old { pass = refused_pass self.old.pass inode mode e.0 }) }
        ensures other { IfErr result (λ e. ShowsBar mode self.old.pass.part.place e.0) }
    {
        take(&self.leases, &mut self.pass, inode, mode)
    }

    /// Makes a read lease the write lease. `Busy` has the number found in the inode's word, which showed another client's mark; then the read lease is still held.
    pub fn raise(&mut self, inode: u32) -> Result<(), Busy>
        requires inode { HasWord inode }
        requires held { lease_of self.old.pass inode ≡ Reading }
        ensures raised { OnOk result (self.new ≡ record self.old { pass = with_lease self.old.pass inode Writing }) }
        ensures lease { OnOk result (lease_of self.new.pass inode ≡ Writing) }
        ensures refused { IfErr result (λ e. self.new ≡ record self.old { pass = refused_at self.old.pass inode e.0 }) }
        ensures other { IfErr result (λ e. ShowsOther self.old.pass.part.place e.0) }
    {
        raise(&self.leases, &mut self.pass, inode)
    }

    /// Gives a lease back, and forgets what the client knew of the inode: its copy and its blocks.
    ///
    /// It answers false, with nothing changed, exactly where the inode is not held, a record that touches it is not digested, a call waits for its answer, or a device has failed.
    pub fn give(&mut self, inode: u32) -> bool
        ensures exact { IsTrue result ↔ CanBeGiven self.old inode }
        ensures given { result ≡ true → HasGiven self.old inode self.new }
        ensures kept { result ≡ false → self.new ≡ self.old }
    {
        if !self.can_be_given(inode) {
            return false;
        }
        self.leases.give(&mut self.pass, inode);
        self.copies.forget(inode);
        true
    }

    fn can_be_given(&self, inode: u32) -> bool
        ensures { IsTrue result ↔ CanBeGiven self.now inode }
    {
        !self.is_pending()
            && !self.has_failed()
            && is_inode(inode)
            && self.pass.lease(inode) != LeaseMode::Free
            && self.pass.records(inode) == 0
    }

    /// Meets another client of the same table: of each inode one of the two writes and the other holds nothing, or neither writes; and the
    /// steps of both stand in one history. It reads one word, and changes nothing.
    pub fn meet(&mut self, other: &mut Client<M>)
        requires table { other.old.pass.table ≡ self.old.pass.table }
        ensures same { (self.new ≡ self.old) × (other.new ≡ other.old) }
        ensures leases { AreCompatible self.old.pass.part other.old.pass.part }
        ensures history { ShareHistory (HoldsPart (self.old.pass.part ∷ other.old.pass.part ∷ [])) }
    {
        self.leases.meet(&mut self.pass, &mut other.pass);
    }

    /// Asks a client to give an inode back. It is a hint: nothing is promised of what that client does.
    pub fn ask_back(&mut self, inode: u32, client: u32)
        requires inode { HasWord inode }
        requires client { IsClient client }
        ensures asked { self.new ≡ record self.old { pass = with_event self.old.pass (Asked (asked_word client ((inode - 1) / 64)) (asked_bit inode)) } }
        ensures history { Continues self.old.pass.part (Asked (asked_word client ((inode - 1) / 64)) (asked_bit inode)) }
    {
        self.leases.ask_back(&mut self.pass, inode, client);
    }

    /// What this client was asked for since it last heard this row of 64 inodes, 0 to 15: bit b of row r is inode 64 r + b + 1.
    pub fn asked_back(&mut self, row: u32) -> u64
        requires { row < 16 }
        ensures heard { self.new ≡ record self.old { pass = with_event self.old.pass (Heard (asked_word (client_of self.old.pass) row) result) } }
        ensures history { Continues self.old.pass.part (Heard (asked_word (client_of self.old.pass) row) result) }
    {
        self.leases.asked_back(&mut self.pass, row)
    }

    /// What this client was asked for since it last heard this row of 64 inodes, 0 to 15: bit b of row r is inode 64 r + b + 1. The row keeps it, to be heard later.
    pub fn unheard_questions(&mut self, row: u32) -> u64
        requires { row < 16 }
        ensures found { self.new ≡ record self.old { pass = with_event self.old.pass (Looked (asked_word (client_of self.old.pass) row) result) } }
        ensures unheard { FindsUnheard self.old.pass.part (asked_word (client_of self.old.pass) row) result }
    {
        self.leases.unheard_questions(&mut self.pass, row)
    }
}

// Takes a lease; the counts stay, whatever comes of it.
fn take(leases: &Leases, pass: &mut Pass, inode: u32, mode: Mode) -> Result<(), Busy>
    requires table { pass.old.table ≡ leases.now }
    requires inode { HasWord inode }
    requires free { lease_of pass.old inode ≡ Free }
    ensures taken { OnOk result (pass.new ≡ with_lease pass.old inode (mode_of mode)) }
    ensures lease { OnOk result (lease_of pass.new inode ≡ mode_of mode) }
    ensures refused { IfErr result (λ e. pass.new ≡ refused_pass pass.old inode mode e.0) }
    ensures other { IfErr result (λ e. ShowsBar mode pass.old.part.place e.0) }
    ensures kept { CountsAs pass.old pass.new }
{
    match mode {
        Mode::Read => take_read(leases, pass, inode),
        Mode::Write => take_write(leases, pass, inode),
    }
}
