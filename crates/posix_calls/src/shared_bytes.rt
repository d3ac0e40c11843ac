ghost use Rattle.std.specs.Prelude.{◌≡◌, length, IfOk};

use std::alloc::{AllocError, Global};
use std::marker::Model;
use std::sync::ArcSlice;

/// Bytes that several owners share, in any threads: none of them changes. Contracts see them as their list.
#[derive(Debug, Drop)]
pub struct SharedBytes {
    bytes: ArcSlice<u8>,
}

impl Model for SharedBytes {
    ghost use Rattle.std.specs.Prelude.{List, ℕ};
    ghost use Rattle.std.specs.Arc.{arc_slice_items};

    ghost Value = { List ℕ };

    ghost view = { λ b. arc_slice_items b.bytes };
}

impl SharedBytes {
    /// The bytes of a vector, which are not copied. Memory is wanted for the count of the owners alone.
    pub fn from_vec(bytes: Vec<u8>) -> Result<Self, AllocError>
        ensures { IfOk result (λ shared. shared ≡ bytes.items) }
    {
        Ok(SharedBytes {
            bytes: ArcSlice::from_vec(bytes)?,
        })
    }

    /// A copy of some bytes.
    pub fn copy_of(alloc: Global, bytes: &[u8]) -> Result<Self, AllocError>
        ensures { IfOk result (λ copy. copy ≡ bytes.now) }
    {
        Ok(SharedBytes {
            bytes: ArcSlice::from_slice(alloc, bytes)?,
        })
    }

    /// The same bytes for one more owner: none of them is copied. It is refused only where the owners are past counting.
    pub fn share(&self) -> Result<Self, AllocError>
        ensures { IfOk result (λ share. share ≡ self.now) }
    {
        Ok(SharedBytes {
            bytes: self.bytes.clone()?,
        })
    }

    /// The bytes as a slice.
    pub fn as_slice(&self) -> &[u8]
        ensures { result.now ≡ self.now }
    {
        self.bytes.as_slice()
    }

    /// How many bytes there are.
    pub fn len(&self) -> usize
        ensures { result ≡ length self.now }
    {
        self.bytes.len()
    }
}
