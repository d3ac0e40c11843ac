//! What a client has for its calls.
ghost use Rattle.std.specs.Prelude.{◌≡◌};
ghost use Rattle.libfs.specs.ClientHoldings.{holdings_of};

use crate::client::Client;
use client_view::in_client_plan::Supplies;
use lease_manager::{reads, writes};
use posix_calls::OwnDescriptors;
use tier_device::Media;

impl<M: Media> Supplies for Client<M> {
    ghost holdings = { holdings_of M.Media };

    fn own(&self) -> &OwnDescriptors {
        self.copies.own()
    }

    fn may_read(&self, inode: u32) -> bool {
        reads(&self.pass, inode) || writes(&self.pass, inode)
    }

    fn may_write(&self, inode: u32) -> bool {
        writes(&self.pass, inode)
    }

    fn pins(&self) -> &[u32] {
        &self.pins
    }

    fn numbers(&self) -> &[u32] {
        self.copies.numbers()
    }

    fn spare(&self) -> u32 {
        self.spare
    }

    fn room(&self) -> Option<usize> {
        self.log.record_limit()
    }
}
