// The region of a client.
ghost use Rattle.std.specs.Prelude.{◌≡◌, IfOk};
ghost use Rattle.recovery_laws.specs.Fresh.{fresh_region};

use crate::zero_fill::fill_up;
use byteorder::{ByteOrder, LittleEndian};
use std::alloc::{AllocError, Global};
use update_log::REGION_SIZE;

/// A region of a generation, without records.
#[tactic(auto, unfolding(layout::specs::Bytes::u64))]
pub fn empty_region(alloc: Global, generation: u64) -> Result<Vec<u8>, AllocError>
    ensures { IfOk result (λ bytes. bytes.items ≡ fresh_region generation) }
{
    let mut name = [0u8; 8];
    LittleEndian::write_u64(&mut name, generation);
    let mut bytes = Vec::new(alloc);
    bytes.extend_from_slice(&name)?;
    fill_up(&mut bytes, REGION_SIZE)?;
    Ok(bytes)
}
