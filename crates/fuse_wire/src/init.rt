ghost use Rattle.std.specs.Prelude.{◌≡◌, ◌↔◌, min, IfOk, IfErr, IsTrue};
ghost use Rattle.fuse_wire.specs.Negotiation.{IsOld, TakesOffer, LeavesToKernel};

use thiserror::Error;

/// The major version of the protocol that is spoken.
pub const MAJOR: u32 = 7;

/// The minor version of the protocol that is answered.
pub const MINOR: u32 = 31;

/// The least minor version of the kernel that is served: the first whose INIT takes a reply of 64 bytes.
pub const MIN_MINOR: u32 = 23;

/// The flag that lets a WRITE have more than 4,096 bytes (`FUSE_BIG_WRITES`).
pub const BIG_WRITES: u32 = 1 << 5;

/// The flag that lets the reply bound the pages of a request (`FUSE_MAX_PAGES`).
pub const MAX_PAGES: u32 = 1 << 22;

/// What is taken of an offer: `BIG_WRITES` and `MAX_PAGES`.
const FLAGS: u32 = BIG_WRITES | MAX_PAGES;

/// The most bytes of one WRITE.
pub const MAX_WRITE: u32 = 65_536;

/// The most pages of 4,096 bytes of one READ or WRITE.
pub const PAGES: u16 = 16;

/// The most bytes that the kernel reads ahead.
pub const MAX_READAHEAD: u32 = 131_072;

/// The most requests for which no process waits that the kernel has under way.
pub const MAX_BACKGROUND: u16 = 12;

/// From how many of those on the kernel takes the mount for busy.
pub const CONGESTION: u16 = 9;

/// The first request of a mount (`struct fuse_init_in`).
#[derive(Clone, Copy)]
pub struct Init {
    /// The version that the kernel speaks.
    pub major: u32,
    pub minor: u32,
    /// The most bytes that the kernel would read ahead.
    pub max_readahead: u32,
    /// What the kernel offers (`FUSE_BIG_WRITES` and the like).
    pub flags: u32,
}

/// The reply to it (`struct fuse_init_out`).
#[derive(Clone, Copy)]
pub struct InitReply {
    /// The version that is spoken from now on.
    pub major: u32,
    pub minor: u32,
    /// The most bytes that the kernel may read ahead.
    pub max_readahead: u32,
    /// What is taken of the kernel's offer.
    pub flags: u32,
    /// The most requests for which no process waits that may be under way.
    pub max_background: u16,
    /// From how many of those on the mount counts as busy.
    pub congestion: u16,
    /// The most bytes of one WRITE.
    pub max_write: u32,
    /// The grain of times, in nanoseconds.
    pub time_gran: u32,
    /// The most pages of one READ or WRITE, where the flag `MAX_PAGES` is taken.
    pub max_pages: u16,
}

/// The kernel speaks an older protocol than 7.23.
#[derive(Clone, Copy, Debug, Error)]
#[error("the kernel speaks FUSE {major}.{minor}, and 7.23 is the oldest that is served")]
pub struct OldProtocol {
    pub major: u32,
    pub minor: u32,
}

/// Answers the kernel's INIT by 7.31: writes of up to 65,536 bytes, reads of as many, 12 requests in the background and the mount busy
/// from 9 on, times by the nanosecond. Of what the kernel offers `BIG_WRITES` and `MAX_PAGES` are taken; all else, as a cache of writes that were answered
/// and locks, stays with the kernel. A newer major version is answered the same: the kernel then asks again, by 7.
///
/// `OldProtocol` where the kernel speaks less than 7.23.
pub fn negotiate(init: &Init) -> Result<InitReply, OldProtocol>
    ensures version { IfOk result (λ r. (r.major ≡ 7) × (r.minor ≡ 31)) }
    ensures sizes { IfOk result (λ r. (r.max_write ≡ 65536) × (r.max_pages ≡ 16) × (r.max_background ≡ 12) × (r.congestion ≡ 9) × (r.time_gran ≡ 1)) }
    ensures readahead { IfOk result (λ r. r.max_readahead ≡ min init.now.max_readahead 131072) }
    ensures offer { IfOk result (λ r. TakesOffer init.now.flags r.flags) }
    ensures left { IfOk result (λ r. LeavesToKernel r.flags) }
    ensures served { IfOk result (λ _. IsOld init.now.major init.now.minor → ⊥) }
    ensures old { IfErr result (λ e. IsOld init.now.major init.now.minor × (e.major ≡ init.now.major) × (e.minor ≡ init.now.minor)) }
{
    if is_old(init.major, init.minor) {
        return Err(OldProtocol {
            major: init.major,
            minor: init.minor,
        });
    }
    Ok(InitReply {
        major: MAJOR,
        minor: MINOR,
        max_readahead: init.max_readahead.min(MAX_READAHEAD),
        flags: init.flags & FLAGS,
        max_background: MAX_BACKGROUND,
        congestion: CONGESTION,
        max_write: MAX_WRITE,
        time_gran: 1,
        max_pages: PAGES,
    })
}

fn is_old(major: u32, minor: u32) -> bool
    ensures { IsTrue result ↔ IsOld major minor }
{
    major < MAJOR || major == MAJOR && minor < MIN_MINOR
}
