// The bytes of one block.
ghost use Rattle.std.specs.Prelude.{◌≡◌, length, IfOk};

use std::alloc::{AllocError, Global};
use std::marker::Model;

/// How many bytes a block has.
pub const BLOCK_SIZE: usize = 4_096;

/// The bytes of a block.
#[derive(Drop)]
pub struct BlockBytes {
    bytes: Vec<u8>,
}

impl Model for BlockBytes {
    ghost use Rattle.std.specs.Prelude.{◌≡◌, length, List, ℕ};
    ghost use Rattle.block_cache.specs.declared.bytes.TheConstants.{BLOCK_SIZE};

    ghost Value = { List ℕ };

    ghost view = { λ b. b.bytes.items };

    ghost invariant = { λ b. length b.bytes.items ≡ BLOCK_SIZE };
}

impl BlockBytes {
    /// A copy of these bytes.
    pub fn copy_of(alloc: Global, bytes: &[u8]) -> Result<Self, AllocError>
        requires { length bytes.now ≡ BLOCK_SIZE }
        ensures { IfOk result (λ copy. copy ≡ bytes.now) }
    {
        Ok(BlockBytes {
            bytes: bytes.to_vec(alloc)?,
        })
    }

    /// The bytes.
    pub fn as_slice(&self) -> &[u8]
        ensures is { result.now ≡ self.now }
        ensures whole { length result.now ≡ BLOCK_SIZE }
    {
        &self.bytes
    }
}
