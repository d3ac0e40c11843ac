ghost use Rattle.std.specs.Prelude.{◌≡◌, ◌<◌, ℕ, None};
ghost use Rattle.posix_calls.specs.Tree.{set_own, refers_to, has_open};
ghost use Rattle.posix_calls.specs.Operations.{own_after};
ghost use Rattle.posix_calls.specs.Exact.{IsInRange};
ghost use Rattle.posix_calls.specs.Decide.{lowest_free};
ghost use Rattle.posix_calls.specs.Own.{own_of};

use crate::descriptor::Descriptor;
use crate::limits::MAX_DESCRIPTORS;
use crate::operation::Operation;
use std::marker::Model;

const PLACES: usize = 32;

/// The descriptors of one client: what is open at each number from 0 to 31. Contracts see them as the list of the places.
#[derive(Drop)]
pub struct OwnDescriptors {
    places: [Option<Descriptor>; PLACES],
}

impl Model for OwnDescriptors {
    ghost use Rattle.std.specs.Prelude.{List, Option};
    ghost use Rattle.posix_calls.specs.declared.descriptor.Descriptor.{Descriptor};

    ghost Value = { List (Option Descriptor) };

    ghost view = { λ d. d.places };
}

impl OwnDescriptors {
    /// Nothing is open.
    pub fn new() -> Self
        ensures { (n : ℕ) → own_of result n ≡ None }
    {
        OwnDescriptors {
            places: [None; PLACES],
        }
    }

    /// What is open at a number, if anything is; at 32 and above nothing is.
    pub fn get(&self, number: u32) -> Option<Descriptor>
        ensures { result ≡ own_of self.now number }
    {
        self.places.get(number as usize).copied().flatten()
    }

    /// Puts a file at a number, or nothing.
    pub fn set(&mut self, number: u32, what: Option<Descriptor>)
        requires { number < MAX_DESCRIPTORS }
        ensures { (n : ℕ) → own_of self.new n ≡ set_own (own_of self.old) number what n }
    {
        self.places[number as usize] = what;
    }

    /// Nothing is open at a number any more.
    pub fn clear(&mut self, number: u32)
        ensures { (n : ℕ) → own_of self.new n ≡ set_own (own_of self.old) number None n }
    {
        clear_place(&mut self.places, number as usize);
    }

    /// Opens or closes what an operation of this client does; a node that it makes has the number `new`.
    pub fn carry_out(&mut self, operation: &Operation, new: u32)
        requires { IsInRange operation.now }
        ensures { (n : ℕ) → own_of self.new n ≡ own_after new (own_of self.old) operation.now n }
    {
        if let Operation::CloseFile { descriptor, .. } = operation {
            self.clear(*descriptor);
        } else if let Some((number, descriptor)) = operation.opens(new) {
            self.set(number, Some(descriptor));
        }
    }

    /// Whether an inode is open.
    pub fn has_open(&self, inode: u32) -> bool
        ensures { result ≡ has_open (own_of self.now) inode }
    {
        for number in 0..MAX_DESCRIPTORS {
            if refers_to(self.get(number), inode) {
                return true;
            }
        }
        false
    }

    /// The lowest number at which nothing is open.
    pub fn lowest_free(&self) -> Option<u32>
        ensures { result ≡ lowest_free (own_of self.now) 0 MAX_DESCRIPTORS }
    {
        for number in 0..MAX_DESCRIPTORS {
            let Some(_) = self.get(number) else {
                return Some(number);
            };
        }
        None
    }
}

fn refers_to(what: Option<Descriptor>, inode: u32) -> bool
    ensures { result ≡ refers_to inode what }
{
    match what {
        Some(descriptor) => descriptor.inode == inode,
        None => false,
    }
}

fn clear_place(places: &mut [Option<Descriptor>], place: usize)
    ensures { (n : ℕ) → own_of places.new n ≡ set_own (own_of places.old) place None n }
{
    if place < places.len() {
        places[place] = None;
    }
}
