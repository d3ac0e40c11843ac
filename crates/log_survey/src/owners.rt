// Which client's records touch each inode.
ghost use Rattle.std.specs.Prelude.{◌≡◌, ◌≢◌, ◌+◌, ◌↔◌, ℕ, List, [], ◌∷◌, length, find, Some, None, IfOk, IfErr, IsOk, OnOk, OnErr};
ghost use Rattle.update_log.specs.log_record.Grammar.{IsInode};
ghost use Rattle.update_log.specs.log_record.declared.format.Record.{Record};
ghost use Rattle.log_survey.specs.Owners.{AreAdded, AreTouchedBy, IsClear, IsFirstShared, is_foreign, listed, owner, touched_inodes, with_owner};

use posix_calls::MAX_INODE;
use std::alloc::{AllocError, Global};
use std::marker::Model;
use update_log::in_log_record::TouchedInodes;

/// An inode that the records of two clients touch.
#[derive(Clone, Copy, Debug, PartialEq, Eq)]
pub struct SharedInode {
    pub inode: u32,
    /// The client whose records touched it before.
    pub client: u32,
}

/// Which client's records touch each inode: a table that is filled client by client.
#[derive(Drop)]
pub struct Owners {
    // One for each number from 0 to the highest inode's.
    clients: Vec<Option<u32>>,
}

impl Model for Owners {
    ghost use Rattle.std.specs.Prelude.{◌≡◌, ◌+◌, ℕ, List, Option, length};
    ghost use Rattle.posix_calls.specs.declared.limits.TheConstants.{MAX_INODE};

    ghost Value = { List (Option ℕ) };

    ghost view = { λ o. o.clients.items };

    ghost invariant = { λ o. length o.clients.items ≡ MAX_INODE + 1 };
}

impl Owners {
    /// A table in which no client touches an inode.
    pub fn new(alloc: Global) -> Result<Self, AllocError>
        ensures { IfOk result (λ owners. (i : ℕ) → owner owners i ≡ None) }
    {
        let entries = MAX_INODE as usize + 1;
        Ok(Owners {
            clients: empty_table(alloc, entries)?,
        })
    }

    /// Adds the inodes that records of a client touch, a list for each record; they may be added in parts. A number past the highest inode's
    /// has no entry and is passed over: no record that the bytes of a region spell touches such a number, or 0.
    ///
    /// Refused, with nothing added, are records that touch an inode that another client's do: the answer has the first such inode, in the
    /// order of the records and of their effects, and that client.
    pub fn add_records(&mut self, client: u32, records: &[TouchedInodes]) -> Result<(), SharedInode>
        ensures owners { OnOk result ((rs : List Record) → AreTouchedBy rs records.now → AreAdded (owner self.old) (owner self.new) client rs) }
        ensures clear { (rs : List Record) → AreTouchedBy rs records.now → (IsOk result ↔ IsClear (owner self.old) client rs) }
        ensures first { IfErr result (λ shared. (rs : List Record) → AreTouchedBy rs records.now → find (is_foreign (owner self.old) client) (touched_inodes rs) ≡ Some shared.inode) }
        ensures holder { IfErr result (λ shared. (owner self.old shared.inode ≡ Some shared.client) × (shared.client ≢ client)) }
        ensures same { OnErr result (self.new ≡ self.old) }
    {
        if let Some(shared) = first_shared(&self.clients, client, records) {
            return Err(shared);
        }
        own_records(&mut self.clients, client, records);
        Ok(())
    }
}

// A table of `entries` numbers, of which no client's records touch one.
fn empty_table(alloc: Global, entries: usize) -> Result<Vec<Option<u32>>, AllocError>
    ensures none { IfOk result (λ clients. (i : ℕ) → owner clients.items i ≡ None) }
    ensures len { IfOk result (λ clients. length clients.items ≡ entries) }
{
    vec![in alloc; None; entries]
}

// The client whose records touch an inode.
fn owner_of(clients: &[Option<u32>], inode: u32) -> Option<u32>
    ensures { result ≡ owner clients.now inode }
{
    *clients.get(inode as usize)?
}

// An inode, if another client's records touch it.
fn shared_inode(clients: &[Option<u32>], client: u32, inode: u32) -> Option<SharedInode>
    ensures { IsFirstShared (owner clients.now) client (inode ∷ []) result }
{
    let holder = owner_of(clients, inode)?;
    if holder == client {
        return None;
    }
    Some(SharedInode {
        inode,
        client: holder,
    })
}

// The first of these inodes that another client's records touch.
fn first_of(clients: &[Option<u32>], client: u32, inodes: &[u32]) -> Option<SharedInode>
    ensures { IsFirstShared (owner clients.now) client inodes.now result }
{
    for inode in inodes {
        if let Some(shared) = shared_inode(clients, client, *inode) {
            return Some(shared);
        }
    }
    None
}

// The first inode that records touch and another client's do.
fn first_shared(
    clients: &[Option<u32>],
    client: u32,
    records: &[TouchedInodes],
) -> Option<SharedInode>
    ensures { IsFirstShared (owner clients.now) client (listed records.now) result }
{
    for logged in records {
        if let Some(shared) = first_of(clients, client, logged.as_slice()) {
            return Some(shared);
        }
    }
    None
}

// An inode becomes the client's.
fn own_inode(clients: &mut [Option<u32>], client: u32, inode: u32)
    requires { length clients.old ≡ MAX_INODE + 1 }
    ensures { (i : ℕ) → IsInode i → owner clients.new i ≡ with_owner (owner clients.old) client (inode ∷ []) i }
{
    if inode <= MAX_INODE {
        clients[inode as usize] = Some(client);
    }
}

// These inodes become the client's.
fn own_inodes(clients: &mut [Option<u32>], client: u32, inodes: &[u32])
    requires { length clients.old ≡ MAX_INODE + 1 }
    ensures { (i : ℕ) → IsInode i → owner clients.new i ≡ with_owner (owner clients.old) client inodes.now i }
{
    for inode in inodes {
        own_inode(clients, client, *inode);
    }
}

// The inodes that records touch become the client's.
fn own_records(clients: &mut [Option<u32>], client: u32, records: &[TouchedInodes])
    requires { length clients.old ≡ MAX_INODE + 1 }
    ensures { (rs : List Record) → AreTouchedBy rs records.now → AreAdded (owner clients.old) (owner clients.new) client rs }
{
    for logged in records {
        own_inodes(clients, client, logged.as_slice());
    }
}
