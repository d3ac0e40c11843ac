//! Leases of one client.
ghost use Rattle.std.specs.Prelude.{◌≡◌};
ghost use Rattle.libfs.specs.lease_manager.Passes.{lease_of};
ghost use Rattle.libfs.specs.lease_manager.Words.{HasWord, IsClient};
ghost use Rattle.libfs.specs.lease_manager.declared.view.LeaseMode.TheVariants.{Free, Reading};
ghost use Rattle.libfs.specs.LeaseCalls.{CanBeGiven};
ghost use Rattle.event_steps.specs.Leases.{IsAskedBack, IsGiven, IsLeased, IsRaised};
ghost use Rattle.event_steps.specs.Effects.{Carries};
ghost use Rattle.event_steps.specs.Sound.{owner_of};

use crate::client_slot::ClientSlot;
use crate::numbers::is_client;
use crate::outcome::{Outcome, Refusal};
use libfs::in_client_plan::Mode;
use libfs::in_lease_manager::{LeaseMode, is_inode};
use tier_device::Media;

impl<M: Media> ClientSlot<M> {
    /// Takes a lease of an inode, once. `Idle`, with nothing changed, if the client holds one, and for a number that is no
    /// inode's. Refused as `Busy` if the lease word shows another client.
    pub fn lease(&mut self, inode: u32, mode: Mode) -> Outcome
        ensures carries { Carries (HasWord inode × (lease_of self.old.client.pass inode ≡ Free)) (IsLeased self.old inode mode result self.new) (self.new ≡ self.old) result }
        ensures owner { owner_of self.new.client ≡ owner_of self.old.client }
    {
        if !is_inode(inode) || self.client.holds(inode) != LeaseMode::Free {
            return Outcome::Idle;
        }
        match self.client.lease(inode, mode) {
            Ok(()) => Outcome::Stepped,
            Err(_) => Outcome::Refused {
                refusal: Refusal::Busy,
            },
        }
    }

    /// Makes the client's read lease of an inode the write lease. `Idle`, with nothing changed, if it holds no read lease,
    /// and for a number that is no inode's. Refused as `Busy` if the lease word shows another client.
    pub fn raise(&mut self, inode: u32) -> Outcome
        ensures carries { Carries (HasWord inode × (lease_of self.old.client.pass inode ≡ Reading)) (IsRaised self.old inode result self.new) (self.new ≡ self.old) result }
        ensures owner { owner_of self.new.client ≡ owner_of self.old.client }
    {
        if !is_inode(inode) || self.client.holds(inode) != LeaseMode::Reading {
            return Outcome::Idle;
        }
        match self.client.raise(inode) {
            Ok(()) => Outcome::Stepped,
            Err(_) => Outcome::Refused {
                refusal: Refusal::Busy,
            },
        }
    }

    /// Gives the client's lease of an inode back. `Idle`, with nothing changed, if it holds none, if a record that is not
    /// digested touches the inode, while a call is pending, and after a device of the client failed.
    pub fn give(&mut self, inode: u32) -> Outcome
        ensures carries { Carries (CanBeGiven self.old.client inode) (IsGiven self.old inode result self.new) (self.new ≡ self.old) result }
        ensures owner { owner_of self.new.client ≡ owner_of self.old.client }
    {
        if self.client.give(inode) {
            Outcome::Stepped
        } else {
            Outcome::Idle
        }
    }

    /// Asks client `of` for its lease of an inode. `Idle`, with nothing changed, for a number that is no inode's or no
    /// client's.
    pub fn ask_back(&mut self, inode: u32, of: u32) -> Outcome
        ensures carries { Carries (HasWord inode × IsClient of) (IsAskedBack self.old inode of result self.new) (self.new ≡ self.old) result }
        ensures owner { owner_of self.new.client ≡ owner_of self.old.client }
    {
        if !is_inode(inode) || !is_client(of) {
            return Outcome::Idle;
        }
        self.client.ask_back(inode, of);
        Outcome::Stepped
    }
}
