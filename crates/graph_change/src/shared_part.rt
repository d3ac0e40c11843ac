ghost use Rattle.std.specs.Prelude.{◌≡◌, ◌≤◌, ◌+◌, length, take, drop, min, IfOk};

use posix_calls::SharedBytes;
use std::alloc::AllocError;
use std::marker::Model;

/// A part of bytes that several owners share. Contracts see it as its list.
#[derive(Drop)]
pub struct SharedPart {
    bytes: SharedBytes,
    // Where the part begins among the bytes.
    from: usize,
    count: usize,
}

impl Model for SharedPart {
    ghost use Rattle.std.specs.Prelude.{ℕ, List, ◌+◌, ◌≤◌, length, take, drop};

    ghost Value = { List ℕ };

    ghost view = { λ s. take s.count (drop s.from s.bytes) };

    ghost invariant = { λ s. s.from + s.count ≤ length s.bytes };
}

impl SharedPart {
    /// Shares `count` of the bytes, from byte `from` on, without a copy. Refused if they can't be shared once more.
    pub fn of(bytes: &SharedBytes, from: usize, count: usize) -> Result<Self, AllocError>
        requires { from + count ≤ length bytes.now }
        ensures { IfOk result (λ part. part ≡ take count (drop from bytes.now)) }
    {
        Ok(SharedPart {
            bytes: bytes.share()?,
            from,
            count,
        })
    }

    /// The bytes of the part.
    pub fn as_slice(&self) -> &[u8]
        ensures { result.now ≡ self.now }
    {
        &self.bytes.as_slice()[self.from..self.from + self.count]
    }

    /// How many they are.
    pub fn len(&self) -> usize
        ensures { result ≡ length self.now }
    {
        self.count
    }

    /// Leaves the first `len` bytes, or all if there are fewer.
    pub fn truncate(&mut self, len: usize)
        ensures { self.new ≡ take len self.old }
    {
        self.count = self.count.min(len);
    }
}
