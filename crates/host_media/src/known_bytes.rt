// What is known of the bytes of a file, which only clauses read.
ghost use Rattle.std.specs.Prelude.{◌≡◌};
ghost use Rattle.std.specs.Borrow.{ftrue};
ghost use Rattle.host_media.specs.FileBytes.{Noted, untold};
ghost use Rattle.host_media.specs.Tellings.{after_telling};

use crate::sizes::Sizes;
use std::marker::Model;

/// What a call of a file tells of its bytes, from a place of them on.
#[derive(Clone, Copy)]
pub(crate) enum Telling<'a> {
    /// These alone are looked at from now on, which a read gave.
    Only { bytes: &'a [u8] },
    /// A read gave these.
    Read { at: usize, bytes: &'a [u8] },
    /// A write of these succeeded.
    Written { at: usize, bytes: &'a [u8] },
    /// A write of these failed: any may stand in their place.
    Torn { at: usize, bytes: &'a [u8] },
    /// Only so many are looked at from now on.
    Front { len: usize },
    /// Only those from this place on are.
    Behind { at: usize },
}

/// For each place of a file, or of a range of it, the byte that this process last read or wrote there, as far as calls have told it, and how
/// many writes were given, and of other bytes. It has no bytes: no memory holds what was told.
#[derive(Drop)]
pub struct KnownBytes {
    pub ghost noted: { Noted },
}

impl Model for KnownBytes {
    ghost also_owns = { λ _. ftrue };
}

// It owns nothing.
unsafe impl Send for KnownBytes {}

unsafe impl Sync for KnownBytes {}

impl KnownBytes {
    /// Nothing, of as many places as tiers of these sizes have.
    pub(crate) fn of(_sizes: &Sizes) -> KnownBytes
        ensures { result.noted ≡ untold _sizes.now }
    {
        KnownBytes {}
    }

    /// What is known once a call has told this.
    pub(crate) fn then(&self, _telling: &Telling<'_>) -> KnownBytes
        ensures { result.noted ≡ after_telling self.now.noted _telling.now }
    {
        KnownBytes {}
    }
}
