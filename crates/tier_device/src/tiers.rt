// Three rows of bytes in memory.
ghost use Rattle.std.specs.Prelude.{◌≡◌, ◌≤◌, ◌+◌, [], length, IfOk};
ghost use Rattle.tier_device.specs.declared.media.Tier.{Tier};
ghost use Rattle.tier_device.specs.declared.media.Tier.TheVariants.{Fast, Block, Slow};
ghost use Rattle.tier_device.specs.Media.{overwritten, Puts};
ghost use Rattle.tier_device.specs.Rows.{row};

use crate::Tier;
use std::alloc::{AllocError, Global};
use std::marker::Model;

/// The bytes of three tiers.
#[derive(Drop)]
pub struct Tiers {
    fast: Vec<u8>,
    block: Vec<u8>,
    slow: Vec<u8>,
}

impl Model for Tiers {
    ghost use Rattle.tier_device.specs.Rows.{Rows};

    ghost Value = { Rows };

    ghost view = { λ t. record { fast = t.fast.items; block = t.block.items; slow = t.slow.items } };
}

impl Tiers {
    // Three tiers of no bytes.
    pub(crate) fn empty(alloc: Global) -> Self
        ensures { (t : Tier) → row result t ≡ [] }
    {
        Tiers {
            fast: Vec::new(alloc),
            block: Vec::new(alloc),
            slow: Vec::new(alloc),
        }
    }

    /// The tiers that hold these bytes.
    pub fn new(fast: Vec<u8>, block: Vec<u8>, slow: Vec<u8>) -> Self
        ensures fast { row result Fast ≡ fast.items }
        ensures block { row result Block ≡ block.items }
        ensures slow { row result Slow ≡ slow.items }
    {
        Tiers { fast, block, slow }
    }

    /// A copy of these bytes.
    pub fn copy_of(
        alloc: Global,
        fast: &[u8],
        block: &[u8],
        slow: &[u8],
    ) -> Result<Self, AllocError>
        ensures fast { IfOk result (λ copy. row copy Fast ≡ fast.now) }
        ensures block { IfOk result (λ copy. row copy Block ≡ block.now) }
        ensures slow { IfOk result (λ copy. row copy Slow ≡ slow.now) }
    {
        Ok(Tiers {
            fast: fast.to_vec(alloc)?,
            block: block.to_vec(alloc)?,
            slow: slow.to_vec(alloc)?,
        })
    }

    /// The bytes of one tier.
    pub fn bytes(&self, tier: Tier) -> &[u8]
        ensures { result.now ≡ row self.now tier }
    {
        match tier {
            Tier::Fast => &self.fast,
            Tier::Block => &self.block,
            Tier::Slow => &self.slow,
        }
    }

    /// Puts bytes over those of a tier.
    pub fn overwrite(&mut self, tier: Tier, at: usize, bytes: &[u8])
        requires { at + length bytes.now ≤ length (row self.old tier) }
        ensures { Puts tier (overwritten (row self.old tier) at bytes.now) (row self.old) (row self.new) }
    {
        match tier {
            Tier::Fast => overwrite(&mut self.fast, at, bytes),
            Tier::Block => overwrite(&mut self.block, at, bytes),
            Tier::Slow => overwrite(&mut self.slow, at, bytes),
        }
    }
}

// Writes bytes over those from `at` on, all of which are there.
pub(crate) fn overwrite(bytes: &mut Vec<u8>, at: usize, new: &[u8])
    requires { at + length new.now ≤ length bytes.old.items }
    ensures { bytes.new.items ≡ overwritten bytes.old.items at new.now }
{
    bytes[at..at + new.len()].copy_from_slice(new);
}
