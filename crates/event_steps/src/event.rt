use libfs::Denied;
use libfs::in_client_plan::Mode;
use posix_calls::Call;
use tier_device::Tier;

/// What may happen next in a running system. Clients are numbered from 1 to 8, inodes from 1 to 1,024; an event of any other client or inode has nothing to do.
#[derive(Drop)]
pub enum Event {
    /// A client starts a call.
    Start {
        client: u32,
        call: Call,
    },
    /// A client makes one device call for the call that it has begun.
    Step {
        client: u32,
    },
    /// A client takes a lease of an inode of which it holds none.
    Lease {
        client: u32,
        inode: u32,
        mode: Mode,
    },
    /// A client makes its read lease the write lease.
    Raise {
        client: u32,
        inode: u32,
    },
    /// A client gives a lease back.
    Give {
        client: u32,
        inode: u32,
    },
    /// A client asks another one to give an inode back.
    AskBack {
        client: u32,
        inode: u32,
        of: u32,
    },
    /// A client fetches a copy of what stands at an inode that it holds.
    Fetch {
        client: u32,
        inode: u32,
    },
    /// A client fetches blocks of a file that it holds: `count` of them from block `first` on.
    Blocks {
        client: u32,
        inode: u32,
        first: u32,
        count: u32,
    },
    /// A client is granted units, and numbers for new nodes.
    Refill {
        client: u32,
        units: u32,
        inodes: u32,
    },
    /// A client gives back the units and numbers that it has not used.
    GiveBack {
        client: u32,
    },
    /// A client pins an inode.
    Pin {
        client: u32,
        inode: u32,
    },
    /// A client drops its pin of a file that it has not open.
    Unpin {
        client: u32,
        inode: u32,
    },
    /// A client hands its current region over to be digested.
    Seal {
        client: u32,
    },
    /// The next chunk of the region that a client handed over is digested. With the last one the client takes the region back.
    Digest {
        client: u32,
    },
    /// A client makes one device call of a wipe.
    WipeStep {
        client: u32,
    },
    /// A file is dropped that has no name and no pin.
    Reclaim {
        inode: u32,
    },
    /// A run of a file's blocks goes down to a slower tier.
    Migrate {
        inode: u32,
        first: u64,
        count: u32,
        to: Tier,
    },
    /// A client's call is given up for something that the kernel refused it since its last reply.
    Deny {
        client: u32,
        call: Call,
        why: Denied,
    },
    /// A client dies: it asks no call any more, and all that it held stays.
    Die {
        client: u32,
    },
    /// One fence finds what became of a dead client's call, and all that it had open is closed.
    Settle {
        client: u32,
    },
    /// The units, numbers and pins of a settled client leave the kernel's book, and its leases are given back.
    Bury {
        client: u32,
    },
    /// A new client takes the seat of one that is buried, with both regions.
    Join {
        client: u32,
    },
}
