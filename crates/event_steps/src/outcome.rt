ghost use Rattle.std.specs.Prelude.{◌≡◌};
ghost use Rattle.event_steps.specs.Outcomes.{refusal_number};

use libfs::Fate;
use libfs::in_client_plan::Need;
use posix_calls::Reply;

/// Why an event was refused. After each refusal but that of a device all is as it was.
#[derive(Clone, Copy, Debug, PartialEq, Eq)]
pub enum Refusal {
    /// A device failed in this event.
    DeviceFault,
    /// Fewer blocks of the tier are free than the run has.
    NoBlock,
    /// The word of the lease showed another client.
    Busy,
    /// A record of the region can't be digested; or the kernel doesn't accept the region; or a chunk of it is not the next one, or is of a region that is not accepted.
    BadLog,
    /// There is no such run of a file above the tier.
    NotMapped,
    /// The units don't suffice.
    NoUnits,
    /// No number for a new node is free.
    NoInode,
    /// A device of the kernel failed before.
    KernelFailed,
    /// There is no file at the inode that has no name and no pin.
    InUse,
    /// There was no memory.
    Memory,
    /// So many records of the client are undigested, or in a region that is not back.
    NotDigested { count: usize },
}

impl Refusal {
    /// Its number, as programs print it.
    pub fn number(self) -> u32
        ensures { result ≡ refusal_number self }
    {
        match self {
            Refusal::DeviceFault => 2,
            Refusal::NoBlock => 5,
            Refusal::Busy => 8,
            Refusal::BadLog => 9,
            Refusal::NotMapped => 10,
            Refusal::NoUnits => 11,
            Refusal::NoInode => 12,
            Refusal::KernelFailed => 13,
            Refusal::InUse => 14,
            Refusal::Memory => 15,
            Refusal::NotDigested { .. } => 16,
        }
    }
}

/// What became of an event.
#[derive(Drop)]
pub enum Outcome {
    /// The client's call was answered.
    Reply { reply: Reply },
    /// Its record was begun.
    Pending,
    /// The call lacks this; nothing has begun.
    Need { need: Need },
    /// It was done.
    Stepped,
    /// It was refused.
    Refused { refusal: Refusal },
    /// The client is dead.
    Died,
    /// The dead client's call is settled: this is what became of it.
    Settled { fate: Fate },
    /// The client is buried.
    Buried,
    /// A new client has the seat.
    Joined,
    /// There was nothing to do.
    Idle,
}
