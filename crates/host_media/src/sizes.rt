// How many bytes the tiers of a medium have.
ghost use Rattle.std.specs.Prelude.{◌≡◌, ◌≤◌, ◌<◌, ◌+◌, ◌^◌, replicate, sum_by, IfOk, IfSome, IfNone};
ghost use Rattle.tier_device.specs.declared.media.Tier.TheVariants.{Fast, Block, Slow};
ghost use Rattle.tier_device.specs.Rows.{row};
ghost use Rattle.host_media.specs.Sizes.{byte_count};

use std::alloc::{AllocError, Global};
use tier_device::Tiers;

/// How many bytes a file may have: its offsets are signed.
pub(crate) const MAX_BYTES: usize = (1 << 63) - 1;

/// The lengths of the tiers of a medium, in bytes.
#[derive(Clone, Copy, Debug, PartialEq, Eq)]
pub struct Sizes {
    pub fast: usize,
    pub block: usize,
    pub slow: usize,
}

impl Sizes {
    /// How many bytes a file of these tiers has, if a file may have so many.
    pub fn file_len(&self) -> Option<usize>
        ensures some { IfSome result (λ n. n ≡ self.now.fast + self.now.block + self.now.slow) }
        ensures fits { IfSome result (λ n. n < 2 ^ 63) }
        ensures none { IfNone result (2 ^ 63 ≤ self.now.fast + self.now.block + self.now.slow) }
    {
        if MAX_BYTES < self.fast
            || MAX_BYTES - self.fast < self.block
            || MAX_BYTES - self.fast - self.block < self.slow
        {
            return None;
        }
        Some(self.fast + self.block + self.slow)
    }

    /// How many bytes a file has in which media of these sizes lie one behind the other, if a file may have so many.
    pub fn total_len(all: &[Sizes]) -> Option<usize>
        ensures some { IfSome result (λ n. n ≡ sum_by byte_count all.now) }
        ensures fits { IfSome result (λ n. n < 2 ^ 63) }
        ensures none { IfNone result (2 ^ 63 ≤ sum_by byte_count all.now) }
    {
        let mut total = 0usize;
        for one in all {
            let len = one.file_len()?;
            if MAX_BYTES - total < len {
                return None;
            }
            total += len;
        }
        Some(total)
    }
}

/// Tiers of zeros.
pub(crate) fn zeros(alloc: Global, sizes: Sizes) -> Result<Tiers, AllocError>
    ensures fast { IfOk result (λ tiers. row tiers Fast ≡ replicate sizes.fast 0) }
    ensures block { IfOk result (λ tiers. row tiers Block ≡ replicate sizes.block 0) }
    ensures slow { IfOk result (λ tiers. row tiers Slow ≡ replicate sizes.slow 0) }
{
    let (fast, block, slow) = (sizes.fast, sizes.block, sizes.slow);
    let fast = vec![in alloc; 0u8; fast]?;
    let block = vec![in alloc; 0u8; block]?;
    let slow = vec![in alloc; 0u8; slow]?;
    Ok(Tiers::new(fast, block, slow))
}
