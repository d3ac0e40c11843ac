ghost use Rattle.std.specs.Prelude.{◌≡◌};
ghost use Rattle.posix_calls.specs.declared.call.Reply.TheVariants as replies;
ghost use Rattle.libfs.specs.Denial.{errno_of};
ghost use Rattle.libfs.specs.View.{pass_answered};

use crate::client::Client;
use posix_calls::{Call, Errno, Reply};
use tier_device::Media;

/// Why what a call needs can't be had.
#[derive(Clone, Copy, Debug, PartialEq, Eq)]
pub enum Denied {
    /// The units don't suffice.
    NoUnits,
    /// No number for a new node is free.
    NoInode,
    /// A device failed.
    Device,
    /// The kernel has failed before.
    KernelFailed,
    /// There was no memory.
    Memory,
    /// It was not to be had in as many turns as were given.
    Turns,
}

impl<M: Media> Client<M> {
    /// Answers a call whose need was denied. It changes nothing, and takes no memory.
    pub fn deny(&mut self, _call: &Call, why: Denied) -> Reply
        ensures reply { result ≡ replies.Failed (errno_of why) }
        ensures unchanged { self.new ≡ record self.old { pass = pass_answered self.old.pass } }
    {
        Reply::Failed {
            errno: errno_of(why),
        }
    }
}

fn errno_of(why: Denied) -> Errno
    ensures { result ≡ errno_of why }
{
    match why {
        Denied::NoUnits => Errno::NoSpace,
        Denied::NoInode => Errno::NoSpace,
        Denied::Device => Errno::IoError,
        Denied::KernelFailed => Errno::IoError,
        Denied::Memory => Errno::NoMemory,
        Denied::Turns => Errno::Again,
    }
}
