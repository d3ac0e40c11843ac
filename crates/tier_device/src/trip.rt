// A count of calls that several media share.
ghost use Rattle.std.specs.Prelude.{◌≤◌};

use std::alloc::{AllocError, Global};
use std::sync::Arc;
use std::sync::atomic::AtomicU64;
use std::sync::atomic::Ordering::SeqCst;

/// What a count says of a call that it counts.
#[derive(Clone, Copy, PartialEq, Eq)]
pub enum Turn {
    /// The count has not run out.
    Passes,
    /// It ran out at this call.
    IsTheOne,
    /// It ran out for good at an earlier call, perhaps of another medium.
    Over,
}

// The word of a trip that went off for good; 0 is one that is not armed.
const GONE: u64 = u64::MAX;

/// A count of writes and fences that several media share, in threads too. Each medium that counts by it stops or fails at the
/// call where the count runs out. It can be armed at any time; a later arming replaces an earlier one.
#[derive(Drop)]
pub struct Trip {
    word: Arc<AtomicU64>,
}

impl Trip {
    /// A trip that is not armed.
    pub fn new(alloc: Global) -> Result<Self, AllocError> {
        Ok(Trip {
            word: Arc::new(alloc, AtomicU64::new(0))?,
        })
    }

    /// The same count once more, for another medium or for who arms it.
    pub fn share(&self) -> Result<Self, AllocError> {
        Ok(Trip {
            word: Arc::try_clone(&self.word)?,
        })
    }

    /// Has the count run out at this call: the next one that is counted is call 1. Media that have stopped stay so.
    pub fn arm(&self, call: u64)
        requires { 1 ≤ call }
    {
        self.word.store(call.min(GONE - 1), SeqCst);
    }

    /// Whether it ran out for good: a medium that counts by it has stopped, and it was not armed again since.
    pub fn has_run_out(&self) -> bool {
        self.word.load(SeqCst) == GONE
    }

    // Counts one call. Where it runs out it is over for all that count by it, or may be armed anew.
    pub(crate) fn count(&self, for_good: bool) -> Turn {
        let last = if for_good { GONE } else { 0 };
        let step = self.word.fetch_update(SeqCst, SeqCst, |left| match left {
            0 | GONE => None,
            1 => Some(last),
            _ => Some(left - 1),
        });
        match step {
            Ok(1) => Turn::IsTheOne,
            Err(GONE) => Turn::Over,
            _ => Turn::Passes,
        }
    }
}
