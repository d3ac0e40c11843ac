// The record that a medium in memory keeps of its calls.
ghost use Rattle.std.specs.Prelude.{◌≡◌, ◌++◌, ◌∷◌, [], List, ℕ, length, IfOk, OnOk, OnErr};
ghost use Rattle.tier_device.specs.DeviceCall.{Write, Fence};

use crate::Tier;
use crate::row::Row;
use std::alloc::{AllocError, Global};
use std::marker::Model;

/// One call that moved the clock. The bytes of a write stand in the log, behind those of the writes before it.
#[derive(Clone, Copy, PartialEq, Eq)]
pub(crate) enum Entry {
    Write { tier: Tier, at: usize, len: usize },
    Fence { tier: Tier },
}

/// The calls that moved the clock, in their order. The bytes of all writes stand in one row, so a call takes no block of memory
/// of its own. Contracts see the list of the calls.
#[derive(Drop)]
pub(crate) struct CallLog {
    entries: Vec<Entry>,
    bytes: Row,
}

impl Model for CallLog {
    ghost use Rattle.std.specs.Prelude.{◌≡◌, List, length};
    ghost use Rattle.tier_device.specs.DeviceCall.{DeviceCall};

    ghost Value = { List DeviceCall };

    ghost use Rattle.tier_device.specs.CallLog.{calls_of, total_len};

    ghost view = { λ l. calls_of l.entries.items l.bytes };

    ghost invariant = { λ l. total_len l.entries.items ≡ length l.bytes };
}

impl CallLog {
    ghost use Rattle.tier_device.specs.CallLog.{calls_of, total_len};

    /// No calls.
    pub fn new(alloc: Global) -> Self
        ensures { result ≡ [] }
    {
        CallLog {
            entries: Vec::new(alloc),
            bytes: Row::new(alloc),
        }
    }

    /// Adds a write. Where memory runs out the log is as it was.
    pub fn push_write(&mut self, tier: Tier, at: usize, bytes: &[u8]) -> Result<(), AllocError>
        ensures grown { OnOk result (self.new ≡ self.old ++ Write tier at bytes.now ∷ []) }
        ensures same { OnErr result (self.new ≡ self.old) }
    {
        self.entries.reserve(1)?;
        self.bytes.push(bytes)?;
        let len = bytes.len();
        match self.entries.push(Entry::Write { tier, at, len }) {
            Ok(()) => Ok(()),
            Err(_) => unreachable!(),
        }
    }

    /// Adds a fence. Where memory runs out the log is as it was.
    pub fn push_fence(&mut self, tier: Tier) -> Result<(), AllocError>
        ensures grown { OnOk result (self.new ≡ self.old ++ Fence tier ∷ []) }
        ensures same { OnErr result (self.new ≡ self.old) }
    {
        self.entries.push(Entry::Fence { tier })?;
        Ok(())
    }

    /// What it is made of: an entry for each call, and the bytes of all writes.
    pub fn parts(&self) -> Result<(&[Entry], Vec<u8>), AllocError>
        ensures calls { IfOk result (λ p. calls_of p.0.now p.1.items ≡ self.now) }
        ensures bytes { IfOk result (λ p. total_len p.0.now ≡ length p.1.items) }
    {
        let written = self.bytes.to_vec()?;
        Ok((&self.entries, written))
    }
}
