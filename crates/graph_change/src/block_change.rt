ghost use Rattle.std.specs.Prelude.{◌≡◌, ◌≤◌, ◌+◌, ℕ, None, IsSome, length, get_or, Some, IfSome, IfOk, OnOk, OnErr, IsTrue, ◌↔◌, ◌<◌};
ghost use Rattle.graph_change.specs.Change.{blank, cut_patch, put_patch, patched_bytes, IsWhole};
ghost use Rattle.graph_change.specs.View.{patch_of};
ghost use Rattle.posix_calls.specs.declared.limits.TheConstants.{UNIT_BYTES};

use crate::kept_bytes::Kept;
use crate::shared_part::SharedPart;
use std::alloc::{AllocError, Global};
use std::marker::Model;

/// The bytes that are put into one block of a file, and at which places of it. Bytes that are put at once are shared with whoever else has them, until others are put over some of them.
#[derive(Drop)]
pub struct BlockChange {
    kept: Kept,
}

impl Model for BlockChange {
    ghost use Rattle.std.specs.Prelude.{ℕ, List, Bool};
    ghost use Rattle.graph_change.specs.Runs.{kept_view, IsWithin};

    ghost Value = { List ℕ × List Bool };

    ghost view = { λ b. kept_view b.kept };

    ghost invariant = { λ b. IsWithin b.kept };
}

impl BlockChange {
    /// Nothing is put into the block.
    pub fn new() -> Self
        ensures { (p : ℕ) → patch_of result p ≡ None }
    {
        BlockChange {
            kept: Kept::Nothing,
        }
    }

    /// Bytes are put at a place, and no others; they end within the block.
    pub fn of(place: usize, part: SharedPart) -> Self
        requires { place + length part ≤ UNIT_BYTES }
        ensures { (p : ℕ) → patch_of result p ≡ put_patch place part blank p }
    {
        BlockChange {
            kept: Kept::Run { place, part },
        }
    }

    /// Puts bytes at a place; they end within the block. Memory is wanted only where some bytes are put already. Where there is none, the block stays as it was.
    pub fn put(&mut self, alloc: Global, place: usize, part: SharedPart) -> Result<(), AllocError>
        requires { place + length part ≤ UNIT_BYTES }
        ensures put { OnOk result ((p : ℕ) → patch_of self.new p ≡ put_patch place part (patch_of self.old) p) }
        ensures refused { OnErr result (self.new ≡ self.old) }
        ensures memory { OnErr result ((p : ℕ) × IsSome (patch_of self.old p)) }
    {
        self.kept.put(alloc, place, part)
    }

    /// What the block is once bytes are put at a place of it; they end within it. This one stays as it is.
    pub fn with(
        &self,
        alloc: Global,
        place: usize,
        part: SharedPart,
    ) -> Result<BlockChange, AllocError>
        requires { place + length part ≤ UNIT_BYTES }
        ensures { IfOk result (λ new. (p : ℕ) → patch_of new p ≡ put_patch place part (patch_of self.now) p) }
    {
        let kept = self.kept.with(alloc, place, part)?;
        Ok(BlockChange { kept })
    }

    /// Nothing is put from a place on.
    pub fn cut(&mut self, place: usize)
        requires { place ≤ UNIT_BYTES }
        ensures { (p : ℕ) → patch_of self.new p ≡ cut_patch place (patch_of self.old) p }
    {
        self.kept.cut(place);
    }

    /// Puts the bytes over those of a block.
    pub fn put_over(&self, block: &mut [u8])
        requires { length block.old ≡ UNIT_BYTES }
        ensures { block.new ≡ patched_bytes (patch_of self.now) block.old }
    {
        self.kept.put_over(block);
    }

    /// The bytes that are put, where one is put at each place: those that the block had make no difference then.
    pub fn whole_bytes(&self) -> Option<&[u8]>
        ensures some { IfSome result (λ bytes. (length bytes.now ≡ UNIT_BYTES) × ((p : ℕ) → p < UNIT_BYTES → patch_of self.now p ≡ Some (get_or bytes.now p 0))) }
        ensures none { result ≡ None → IsWhole (patch_of self.now) → ⊥ }
    {
        self.kept.whole_bytes()
    }

    /// Whether a byte is put at each place, so that the bytes that the block had make no difference.
    pub fn is_whole(&self) -> bool
        ensures { IsTrue result ↔ IsWhole (patch_of self.now) }
    {
        self.whole_bytes().is_some()
    }
}
