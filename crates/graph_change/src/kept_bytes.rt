ghost use Rattle.std.specs.Prelude.{◌≡◌, ◌≤◌, ◌<◌, ◌+◌, ℕ, None, Some, IsSome, IsTrue, length, get_or, IfSome, IfOk, IfErr, OnOk, OnErr, false, true, take, drop, ◌++◌};
ghost use Rattle.graph_change.specs.Bytes.{in_run};
ghost use Rattle.graph_change.specs.Change.{blank, cut_patch, put_patch, patched_bytes, IsWhole};
ghost use Rattle.graph_change.specs.Runs.{kept_view, IsWithin};
ghost use Rattle.graph_change.specs.View.{patch_of};
ghost use Rattle.posix_calls.specs.declared.limits.TheConstants.{UNIT_BYTES};

use crate::own_block::OwnBlock;
use crate::shared_part::SharedPart;
use posix_calls::UNIT_BYTES;
use std::alloc::{AllocError, Global};

/// How what is put into a block is kept.
#[derive(Drop)]
pub enum Kept {
    Nothing,
    /// Bytes at a place of the block, which others share.
    Run { place: usize, part: SharedPart },
    /// Bytes of its own, and a mark for each.
    Own(OwnBlock),
}

impl Kept {
    /// Puts bytes at a place; they end within the block. Memory is wanted where they go over some of a run and not over all of it. Where there is none, what is kept stays.
    pub fn put(&mut self, alloc: Global, place: usize, part: SharedPart) -> Result<(), AllocError>
        requires kept { IsWithin self.old }
        requires within { place + length part ≤ UNIT_BYTES }
        ensures kept { IsWithin self.new }
        ensures put { OnOk result ((p : ℕ) → patch_of (kept_view self.new) p ≡ put_patch place part (patch_of (kept_view self.old)) p) }
        ensures refused { OnErr result (self.new ≡ self.old) }
        ensures memory { OnErr result ((p : ℕ) × IsSome (patch_of (kept_view self.old) p)) }
    {
        match self {
            Kept::Nothing => *self = Kept::Run { place, part },
            Kept::Run {
                place: first,
                part: run,
            } => *self = put_on_run(alloc, *first, run, place, part)?,
            Kept::Own(own) => own.put(place, part.as_slice()),
        }
        Ok(())
    }

    /// What is kept once bytes are put at a place, while this stays as it is.
    pub fn with(&self, alloc: Global, place: usize, part: SharedPart) -> Result<Kept, AllocError>
        requires kept { IsWithin self.now }
        requires within { place + length part ≤ UNIT_BYTES }
        ensures kept { IfOk result IsWithin }
        ensures put { IfOk result (λ new. (p : ℕ) → patch_of (kept_view new) p ≡ put_patch place part (patch_of (kept_view self.now)) p) }
    {
        match self {
            Kept::Nothing => Ok(Kept::Run { place, part }),
            Kept::Run {
                place: first,
                part: run,
            } => put_on_run(alloc, *first, run, place, part),
            Kept::Own(own) => put_on_copy(alloc, own, place, part.as_slice()),
        }
    }

    /// Nothing is kept from a place on.
    pub fn cut(&mut self, place: usize)
        requires kept { IsWithin self.old }
        requires within { place ≤ UNIT_BYTES }
        ensures kept { IsWithin self.new }
        ensures cut { (p : ℕ) → patch_of (kept_view self.new) p ≡ cut_patch place (patch_of (kept_view self.old)) p }
    {
        match self {
            Kept::Nothing => {}
            Kept::Run { place: first, part } => part.truncate(place.saturating_sub(*first)),
            Kept::Own(own) => own.cut(place),
        }
    }

    /// Puts the bytes over those of a block.
    pub fn put_over(&self, block: &mut [u8])
        requires kept { IsWithin self.now }
        requires long { length block.old ≡ UNIT_BYTES }
        ensures { block.new ≡ patched_bytes (patch_of (kept_view self.now)) block.old }
    {
        match self {
            Kept::Nothing => {}
            Kept::Run { place, part } => overwrite(block, *place, part.as_slice()),
            Kept::Own(own) => own.put_over(block),
        }
    }

    /// The bytes that are put, where one is put at each place.
    pub fn whole_bytes(&self) -> Option<&[u8]>
        requires kept { IsWithin self.now }
        ensures some { IfSome result (λ bytes. (length bytes.now ≡ UNIT_BYTES) × ((p : ℕ) → p < UNIT_BYTES → patch_of (kept_view self.now) p ≡ Some (get_or bytes.now p 0))) }
        ensures none { result ≡ None → IsWhole (patch_of (kept_view self.now)) → ⊥ }
    {
        match self {
            Kept::Nothing => None,
            Kept::Run { part, .. } => whole_run(part.as_slice()),
            Kept::Own(own) => own.whole_bytes(),
        }
    }
}

// A run that is as long as a block.
fn whole_run(run: &[u8]) -> Option<&[u8]>
    ensures some { IfSome result (λ bytes. (bytes.now ≡ run.now) × (length run.now ≡ UNIT_BYTES)) }
    ensures none { result ≡ None → length run.now ≡ UNIT_BYTES → ⊥ }
{
    if run.len() == UNIT_BYTES as usize {
        Some(run)
    } else {
        None
    }
}

// What is kept once bytes are put where a run was: they alone, if they go over all of it.
fn put_on_run(
    alloc: Global,
    first: usize,
    run: &SharedPart,
    place: usize,
    part: SharedPart,
) -> Result<Kept, AllocError>
    requires run { first + length run.now ≤ UNIT_BYTES }
    requires within { place + length part ≤ UNIT_BYTES }
    ensures kept { IfOk result IsWithin }
    ensures put { IfOk result (λ new. (p : ℕ) → patch_of (kept_view new) p ≡ put_patch place part (put_patch first run.now blank) p) }
    ensures memory { IfErr result (λ _. 0 < length run.now) }
{
    if covers(place, part.len(), first, run.len()) {
        return Ok(Kept::Run { place, part });
    }
    let mut own = OwnBlock::new(alloc)?;
    own.put(first, run.as_slice());
    own.put(place, part.as_slice());
    Ok(Kept::Own(own))
}

// Whether each place of a run is one of another's.
fn covers(place: usize, count: usize, first: usize, run: usize) -> bool
    requires within { place + count ≤ UNIT_BYTES }
    requires run { first + run ≤ UNIT_BYTES }
    ensures covers { IsTrue result → (p : ℕ) → in_run first run p ≡ true → in_run place count p ≡ true }
    ensures some { result ≡ false → 0 < run }
{
    run == 0 || (place <= first && first + run <= place + count)
}

// A copy, with bytes put at a place of it.
fn put_on_copy(alloc: Global, own: &OwnBlock, place: usize, part: &[u8]) -> Result<Kept, AllocError>
    requires within { place + length part.now ≤ UNIT_BYTES }
    ensures kept { IfOk result IsWithin }
    ensures put { IfOk result (λ new. (p : ℕ) → patch_of (kept_view new) p ≡ put_patch place part.now (patch_of own.now) p) }
{
    let mut copy = own.copy(alloc)?;
    copy.put(place, part);
    Ok(Kept::Own(copy))
}

fn overwrite(block: &mut [u8], at: usize, bytes: &[u8])
    requires { at + length bytes.now ≤ length block.old }
    ensures { block.new ≡ take at block.old ++ bytes.now ++ drop (at + length bytes.now) block.old }
{
    block[at..at + bytes.len()].copy_from_slice(bytes);
}
