// A past that only clauses read.
ghost use Rattle.std.specs.Prelude.{◌≡◌};
ghost use Rattle.std.specs.Borrow.{ftrue};
ghost use Rattle.host_media.specs.History.{History, initial_history};
ghost use Rattle.host_media.specs.NoteCall.{after_note};

use std::marker::Model;
use tier_device::{Tier, Tiers};

/// One call that moves the clock of a medium.
#[derive(Clone, Copy)]
pub(crate) enum Note<'a> {
    Write {
        tier: Tier,
        at: usize,
        bytes: &'a [u8],
    },
    Fence {
        tier: Tier,
    },
}

/// What three tiers held at first, and the calls since. It has no bytes: no memory holds a call.
#[derive(Drop)]
pub struct Past {
    pub ghost history: { History },
}

impl Model for Past {
    ghost also_owns = { λ _. ftrue };
}

// It owns nothing.
unsafe impl Send for Past {}

unsafe impl Sync for Past {}

impl Past {
    /// The past that begins with these tiers.
    pub(crate) fn of(_tiers: &Tiers) -> Past
        ensures { result.history ≡ initial_history _tiers.now }
    {
        Past {}
    }

    /// This past, and then one call more.
    pub(crate) fn then(&self, _note: &Note<'_>) -> Past
        ensures { result.history ≡ after_note self.now.history _note.now }
    {
        Past {}
    }
}
