ghost use Rattle.std.specs.Prelude.{◌≡◌, ◌≤◌, ◌+◌, ◌-◌, ◌*◌, ℕ, ◌++◌, take, drop, replicate, true, None, length, map, get_or, Some, IfOk, IfSome, IsTrue, ◌↔◌, ◌<◌, vec_capacity};
ghost use Rattle.std.specs.List.{count_by};
ghost use Rattle.graph_change.specs.Change.{cut_patch, put_patch, patched_bytes, IsWhole};
ghost use Rattle.graph_change.specs.View.{patch_of};
ghost use Rattle.graph_change.specs.KeptBytes.{IsKept, bytes_in, is_set, kept_marks, marks_in};
ghost use Rattle.posix_calls.specs.declared.limits.TheConstants.{UNIT_BYTES};

use posix_calls::UNIT_BYTES;
use std::alloc::{AllocError, Global};
use std::marker::Model;

// The bytes of a block, and a mark for each.
const ROOM: usize = 2 * UNIT_BYTES as usize;

/// The bytes that are put into one block of a file, and at which places of it, kept as the block's own.
#[derive(Drop)]
pub struct OwnBlock {
    // The bytes of the block, once some are put. Behind them stands the mark of each, where some are put and not all; else nothing there says anything, and no mark is written. Both are in one vector, so
    // that memory is asked for once.
    slots: Vec<u8>,
    // How many bytes are put.
    count: usize,
}

impl Model for OwnBlock {
    ghost use Rattle.std.specs.Prelude.{ℕ, List, Bool};
    ghost use Rattle.graph_change.specs.KeptBytes.{bytes_in, kept_marks, marks_in, IsKept};

    ghost Value = { List ℕ × List Bool };

    ghost view = { λ b. (bytes_in b.slots.items, marks_in b.count (kept_marks b.slots.items)) };

    ghost invariant = { λ b. IsKept b.slots b.count };
}

impl OwnBlock {
    /// Nothing is put into the block.
    pub fn new(alloc: Global) -> Result<Self, AllocError>
        ensures { IfOk result (λ b. (p : ℕ) → patch_of b p ≡ None) }
    {
        Ok(OwnBlock {
            slots: Vec::with_capacity(alloc, ROOM)?,
            count: 0,
        })
    }

    /// The same bytes at the same places.
    pub fn copy(&self, alloc: Global) -> Result<Self, AllocError>
        ensures { IfOk result (λ copy. copy ≡ self.now) }
    {
        let mut slots = Vec::with_capacity(alloc, ROOM)?;
        slots.extend_from_slice(&self.slots)?;
        Ok(OwnBlock {
            slots,
            count: self.count,
        })
    }

    /// Puts bytes at a place; they end within the block.
    pub fn put(&mut self, at: usize, bytes: &[u8])
        requires { at + length bytes.now ≤ UNIT_BYTES }
        ensures { (p : ℕ) → patch_of self.new p ≡ put_patch at bytes.now (patch_of self.old) p }
    {
        self.count = put_into(&mut self.slots, self.count, at, bytes);
    }

    /// Nothing is put from a place on.
    pub fn cut(&mut self, place: usize)
        requires { place ≤ UNIT_BYTES }
        ensures { (p : ℕ) → patch_of self.new p ≡ cut_patch place (patch_of self.old) p }
    {
        self.count = cut_from(&mut self.slots, self.count, place);
    }

    /// Puts the bytes over those of a block.
    pub fn put_over(&self, block: &mut [u8])
        requires { length block.old ≡ UNIT_BYTES }
        ensures { block.new ≡ patched_bytes (patch_of self.now) block.old }
    {
        if self.count == UNIT_BYTES as usize {
            copy(block, &self.slots[..UNIT_BYTES as usize]);
        } else if self.count != 0 {
            let (bytes, marks) = self.slots.split_at(UNIT_BYTES as usize);
            put_marked(block, bytes, marks);
        }
    }

    /// The bytes that are put, where one is put at each place: those that the block had make no difference then.
    pub fn whole_bytes(&self) -> Option<&[u8]>
        ensures some { IfSome result (λ bytes. (length bytes.now ≡ UNIT_BYTES) × ((p : ℕ) → p < UNIT_BYTES → patch_of self.now p ≡ Some (get_or bytes.now p 0))) }
        ensures none { result ≡ None → IsWhole (patch_of self.now) → ⊥ }
    {
        if self.count == UNIT_BYTES as usize {
            Some(&self.slots[..UNIT_BYTES as usize])
        } else {
            None
        }
    }
}

// Puts bytes over the whole block, and answers how many they are.
fn put_all(slots: &mut Vec<u8>, part: &[u8]) -> usize
    requires room { 2 * UNIT_BYTES ≤ vec_capacity slots.old }
    requires long { length part.now ≡ UNIT_BYTES }
    ensures items { slots.new.items ≡ part.now }
    ensures room { 2 * UNIT_BYTES ≤ vec_capacity slots.new }
    ensures count { result ≡ UNIT_BYTES }
{
    slots.clear();
    let Ok(()) = slots.extend_from_slice(part) else {
        unreachable!()
    };
    part.len()
}

// Puts bytes at a place, where `count` are put, and answers how many are then.
fn put_into(slots: &mut Vec<u8>, count: usize, at: usize, part: &[u8]) -> usize
    requires kept { IsKept slots.old count }
    requires within { at + length part.now ≤ UNIT_BYTES }
    ensures kept { IsKept slots.new result }
    ensures put { (p : ℕ) → patch_of (bytes_in slots.new.items, marks_in result (kept_marks slots.new.items)) p ≡ put_patch at part.now (patch_of (bytes_in slots.old.items, marks_in count (kept_marks slots.old.items))) p }
{
    if part.len() == UNIT_BYTES as usize {
        return put_all(slots, part);
    }
    put_part(slots, count, at, part)
}

// The same of less than a block: each mark is written then.
fn put_part(slots: &mut Vec<u8>, count: usize, at: usize, part: &[u8]) -> usize
    requires kept { IsKept slots.old count }
    requires within { at + length part.now ≤ UNIT_BYTES }
    ensures kept { IsKept slots.new result }
    ensures put { (p : ℕ) → patch_of (bytes_in slots.new.items, marks_in result (kept_marks slots.new.items)) p ≡ put_patch at part.now (patch_of (bytes_in slots.old.items, marks_in count (kept_marks slots.old.items))) p }
{
    spread_marks(slots, count);
    count + put_marking(slots, at, part)
}

// Takes out what is put from a place on, where `count` bytes are put, and answers how many are then.
fn cut_from(slots: &mut Vec<u8>, count: usize, place: usize) -> usize
    requires kept { IsKept slots.old count }
    requires within { place ≤ UNIT_BYTES }
    ensures kept { IsKept slots.new result }
    ensures cut { (p : ℕ) → patch_of (bytes_in slots.new.items, marks_in result (kept_marks slots.new.items)) p ≡ cut_patch place (patch_of (bytes_in slots.old.items, marks_in count (kept_marks slots.old.items))) p }
{
    spread_marks(slots, count);
    count - cut_marking(slots, place)
}

// Writes a mark for each byte, and bytes where none are put yet.
fn spread_marks(slots: &mut Vec<u8>, count: usize)
    requires { IsKept slots.old count }
    ensures marks { kept_marks slots.new.items ≡ marks_in count (kept_marks slots.old.items) }
    ensures long { length slots.new.items ≡ 2 * UNIT_BYTES }
    ensures same { 0 < count → bytes_in slots.new.items ≡ bytes_in slots.old.items }
    ensures room { 2 * UNIT_BYTES ≤ vec_capacity slots.new }
{
    if count == 0 {
        fill_from(slots, 0, 0);
    } else if count == UNIT_BYTES as usize {
        fill_from(slots, UNIT_BYTES as usize, 1);
    }
}

// Writes one value over all from a place on.
fn fill_from(slots: &mut Vec<u8>, place: usize, value: u8)
    requires room { 2 * UNIT_BYTES ≤ vec_capacity slots.old }
    requires within { place ≤ length slots.old.items }
    requires end { place ≤ 2 * UNIT_BYTES }
    ensures items { slots.new.items ≡ take place slots.old.items ++ replicate (2 * UNIT_BYTES - place) value }
    ensures room { 2 * UNIT_BYTES ≤ vec_capacity slots.new }
{
    slots.truncate(place);
    let Ok(()) = slots.resize(ROOM, value) else {
        unreachable!()
    };
}

// Puts bytes at a place and marks them, where each mark is written, and answers how many of them were not put.
fn put_marking(slots: &mut [u8], at: usize, part: &[u8]) -> usize
    requires long { length slots.old ≡ 2 * UNIT_BYTES }
    requires within { at + length part.now ≤ UNIT_BYTES }
    ensures bytes { bytes_in slots.new ≡ take at (bytes_in slots.old) ++ part.now ++ drop (at + length part.now) (bytes_in slots.old) }
    ensures marks { drop UNIT_BYTES slots.new ≡ take at (drop UNIT_BYTES slots.old) ++ replicate (length part.now) 1 ++ drop (at + length part.now) (drop UNIT_BYTES slots.old) }
    ensures more { count_by is_set (drop UNIT_BYTES slots.old) + result ≡ count_by is_set (drop UNIT_BYTES slots.new) }
{
    let (bytes, marks) = slots.split_at_mut(UNIT_BYTES as usize);
    overwrite(bytes, at, part);
    mark_more(marks, at, part.len())
}

// Takes out the marks from a place on, where each is written, and answers how many of them were set.
fn cut_marking(slots: &mut [u8], place: usize) -> usize
    requires long { length slots.old ≡ 2 * UNIT_BYTES }
    requires within { place ≤ UNIT_BYTES }
    ensures bytes { bytes_in slots.new ≡ bytes_in slots.old }
    ensures marks { drop UNIT_BYTES slots.new ≡ take place (drop UNIT_BYTES slots.old) ++ replicate (UNIT_BYTES - place) 0 }
    ensures fewer { count_by is_set (drop UNIT_BYTES slots.new) + result ≡ count_by is_set (drop UNIT_BYTES slots.old) }
{
    let (_, marks) = slots.split_at_mut(UNIT_BYTES as usize);
    unmark_from(marks, place)
}

// Puts the bytes that are marked over others. Each place is written, so that no branch stands between them.
fn put_marked(block: &mut [u8], bytes: &[u8], marks: &[u8])
    requires bytes { length bytes.now ≡ length block.old }
    requires marks { length marks.now ≡ length block.old }
    ensures { block.new ≡ patched_bytes (patch_of (bytes.now, map is_set marks.now)) block.old }
{
    'places: for place in 0..block.len() {
        block[place] = if marks[place] != 0 {
            bytes[place]
        } else {
            block[place]
        };
    }
}

fn copy(block: &mut [u8], bytes: &[u8])
    requires { length bytes.now ≡ length block.old }
    ensures { block.new ≡ bytes.now }
{
    block.copy_from_slice(bytes);
}

// How many marks are set.
fn count_set(marks: &[u8]) -> usize
    ensures count { result ≡ count_by is_set marks.now }
    ensures few { result ≤ length marks.now }
{
    let mut count = 0;
    'marks: for place in 0..marks.len() {
        if marks[place] != 0 {
            count += 1;
        }
    }
    count
}

fn overwrite(block: &mut [u8], at: usize, bytes: &[u8])
    requires { at + length bytes.now ≤ length block.old }
    ensures { block.new ≡ take at block.old ++ bytes.now ++ drop (at + length bytes.now) block.old }
{
    block[at..at + bytes.len()].copy_from_slice(bytes);
}

// Sets `count` marks, and answers how many of them were not set.
fn mark_more(marks: &mut [u8], at: usize, count: usize) -> usize
    requires { at + count ≤ length marks.old }
    ensures marks { marks.new ≡ take at marks.old ++ replicate count 1 ++ drop (at + count) marks.old }
    ensures more { count_by is_set marks.old + result ≡ count_by is_set marks.new }
{
    let set = count_set(&marks[at..at + count]);
    mark(marks, at, count);
    count - set
}

fn mark(marks: &mut [u8], at: usize, count: usize)
    requires { at + count ≤ length marks.old }
    ensures { marks.new ≡ take at marks.old ++ replicate count 1 ++ drop (at + count) marks.old }
{
    marks[at..at + count].fill(1);
}

// Takes out the marks from a place on, and answers how many of them were set.
fn unmark_from(marks: &mut [u8], place: usize) -> usize
    requires { place ≤ length marks.old }
    ensures marks { marks.new ≡ take place marks.old ++ replicate (length marks.old - place) 0 }
    ensures fewer { count_by is_set marks.new + result ≡ count_by is_set marks.old }
{
    let set = count_set(&marks[place..]);
    unmark(marks, place);
    set
}

fn unmark(marks: &mut [u8], place: usize)
    requires { place ≤ length marks.old }
    ensures { marks.new ≡ take place marks.old ++ replicate (length marks.old - place) 0 }
{
    marks[place..].fill(0);
}
