//! What the kernel reads of a sealed log.

ghost use Rattle.std.specs.Prelude.{◌≡◌, ◌↔◌, IsTrue, length};
ghost use Rattle.digester.specs.SealedLog.{undone};
ghost use Rattle.kernel_fs.specs.RegionAccept.{HasAsManyWaiting};

use crate::Book;
use digester::SealedLog;

/// How many of a log's records are not digested.
pub fn undigested_count(log: &SealedLog) -> u32
    ensures { result ≡ length (undone log.now) }
{
    // For the proof: no more are digested than it has.
    log.invariant();
    log.count() - log.digested_count()
}

/// Whether as many records of the log's client are waiting as the log has undigested.
pub fn has_as_many_waiting(book: &Book, log: &SealedLog) -> bool
    ensures { IsTrue result ↔ HasAsManyWaiting book.now log.now }
{
    // For the proof: its client is one of the book's.
    log.invariant();
    book.account(log.client()).waiting == undigested_count(log)
}
