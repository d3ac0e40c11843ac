ghost use Rattle.std.specs.Prelude.{◌≡◌, ◌<◌, ◌≤◌, ◌+◌, ◌*◌, ◌^◌, ℕ, List, [], ◌∷◌, ◌++◌, length, take, drop, true, OnOk, OnErr, IfOk, IsTrue, ◌↔◌, replicate};
ghost use Rattle.layout.specs.Bytes.{are_zero};
ghost use Rattle.batch_journal.specs.Images.{next_of, images_of};
ghost use Rattle.batch_journal.specs.Blocks.{AreJournaled};
ghost use Rattle.batch_journal.specs.Volume.{KeepsGeometry};
ghost use Rattle.batch_journal.specs.View.{IsBatch};
ghost use Rattle.byteorder.specs.Endian.{little_bytes};
ghost use Rattle.tier_device.specs.Media.{overwritten};

use crate::head::{is_rising, keeps_geometry};
use byteorder::{ByteOrder, LittleEndian};
use layout::{BLOCK, Geometry, Image};
use std::alloc::{AllocError, Global};
use std::marker::Model;

/// Images of blocks, each with its block's number, in rising order. It is kept as a journal writes it, a head block and the
/// images behind it in one vector, so that a commit neither allocates nor copies.
///
/// Contracts see it as the list of (number, image). It takes up to 1,023 images, as many as a head block has places for
/// numbers; a journal commits up to 256.
#[derive(Drop)]
pub struct Batch {
    bytes: Vec<u8>,
    count: usize,
    next: u64,
}

impl Model for Batch {
    ghost use Rattle.std.specs.Prelude.{ℕ, List};
    ghost use Rattle.batch_journal.specs.Images.{images_of};
    ghost use Rattle.batch_journal.specs.View.{IsBatch};

    ghost Value = { List (ℕ × List ℕ) };

    ghost view = { λ b. images_of b.bytes.items };

    ghost invariant = { λ b. IsBatch b.count b.next b.bytes.items };
}

impl Batch {
    /// A batch of no image.
    pub fn new(alloc: Global) -> Result<Self, AllocError>
        ensures { IfOk result (λ b. b ≡ []) }
    {
        let size: usize = 4096;
        let bytes = zeros(alloc, size)?;
        Ok(Batch {
            bytes,
            count: 0,
            next: 0,
        })
    }

    /// Adds the image of a block: 4,096 bytes. Its number is above those of the images before it, so at least `next`. Where
    /// memory runs out the batch is as it was.
    pub fn push(&mut self, number: u32, image: &[u8]) -> Result<(), AllocError>
        requires size { length image.now ≡ 4096 }
        requires room { length self.old < 1023 }
        requires rises { next_of self.old ≤ number }
        ensures pushed { OnOk result (self.new ≡ self.old ++ (number, image.now) ∷ []) }
        ensures next { OnOk result (next_of self.new ≡ number + 1) }
        ensures refused { OnErr result (self.new ≡ self.old) }
    {
        self.bytes.extend_from_slice(image)?;
        note_image(&mut self.bytes, self.count, number);
        self.count += 1;
        self.next = number as u64 + 1;
        Ok(())
    }

    /// Adds the image of a block, which is encoded where the batch keeps it: no other buffer is filled or copied. All else is
    /// as `push` has it of the image's bytes.
    pub fn push_image<I: Image>(&mut self, number: u32, image: &I) -> Result<(), AllocError>
        requires fits { I.fits image.now }
        requires room { length self.old < 1023 }
        requires rises { next_of self.old ≤ number }
        ensures pushed { OnOk result (self.new ≡ self.old ++ (number, I.bytes image.now) ∷ []) }
        ensures next { OnOk result (next_of self.new ≡ number + 1) }
        ensures refused { OnErr result (self.new ≡ self.old) }
    {
        add_image(&mut self.bytes, image)?;
        note_image(&mut self.bytes, self.count, number);
        self.count += 1;
        self.next = number as u64 + 1;
        Ok(())
    }

    /// How many images there are.
    pub fn len(&self) -> usize
        ensures { result ≡ length self.now }
    {
        self.count
    }

    /// The least number that may be pushed next: the one behind the last, or 0.
    pub fn next(&self) -> u64
        ensures { result ≡ next_of self.now }
    {
        self.next
    }

    /// Whether a journal of this geometry may commit it, if it is not too large: each image is for a block that a batch may
    /// write, and one for block 0 spells the same geometry.
    pub fn suits(&self, geometry: &Geometry) -> bool
        ensures { IsTrue result ↔ (AreJournaled geometry.now self.now × KeepsGeometry geometry.now self.now) }
    {
        is_rising(&self.bytes, self.count, geometry)
            && keeps_geometry(&self.bytes, self.count, geometry)
    }

    // Head and images, as a journal writes them.
    pub(crate) fn as_bytes(&self) -> &[u8]
        ensures images { images_of result.now ≡ self.now }
        ensures head { IsBatch (length self.now) (next_of self.now) result.now }
    {
        &self.bytes
    }
}

// The image behind the others.
fn add_image<I: Image>(bytes: &mut Vec<u8>, image: &I) -> Result<(), AllocError>
    requires fits { I.fits image.now }
    requires few { length bytes.old.items < 2 ^ 32 }
    ensures added { OnOk result (bytes.new.items ≡ bytes.old.items ++ I.bytes image.now) }
    ensures long { OnOk result (length (I.bytes image.now) ≡ BLOCK) }
    ensures refused { OnErr result (bytes.new.items ≡ bytes.old.items) }
{
    let at = bytes.len();
    let size = BLOCK;
    lengthen(bytes, size)?;
    fill_from(bytes, at, image);
    Ok(())
}

// So many zero bytes more.
fn lengthen(bytes: &mut Vec<u8>, size: usize) -> Result<(), AllocError>
    requires { length bytes.old.items + size < 2 ^ 60 }
    ensures longer { OnOk result (bytes.new.items ≡ bytes.old.items ++ replicate size 0) }
    ensures refused { OnErr result (bytes.new.items ≡ bytes.old.items) }
{
    bytes.resize(bytes.len() + size, 0)
}

// The image in place of the zero bytes from a place on.
fn fill_from<I: Image>(bytes: &mut Vec<u8>, at: usize, image: &I)
    requires fits { I.fits image.now }
    requires long { length bytes.old.items ≡ at + BLOCK }
    requires blank { are_zero (drop at bytes.old.items) ≡ true }
    ensures filled { bytes.new.items ≡ take at bytes.old.items ++ I.bytes image.now }
    ensures long { length (I.bytes image.now) ≡ BLOCK }
{
    image.encode_into(&mut bytes[at..]);
}

// Counts one image more, and notes the block that it is for.
fn note_image(bytes: &mut Vec<u8>, count: usize, number: u32)
    requires few { count < 1023 }
    requires long { 4096 ≤ length bytes.old.items }
    ensures { bytes.new.items ≡ overwritten (overwritten bytes.old.items (4 + 4 * count) (little_bytes 4 number)) 0 (little_bytes 4 (count + 1)) }
{
    put_number(bytes, 4 + 4 * count, number);
    put_number(bytes, 0, count as u32 + 1);
}

fn put_number(bytes: &mut Vec<u8>, at: usize, value: u32)
    requires { at + 4 ≤ length bytes.old.items }
    ensures { bytes.new.items ≡ overwritten bytes.old.items at (little_bytes 4 value) }
{
    let mut word = [0; 4];
    LittleEndian::write_u32(&mut word, value);
    overwrite(bytes, at, &word);
}

fn overwrite(bytes: &mut Vec<u8>, at: usize, new: &[u8])
    requires { at + length new.now ≤ length bytes.old.items }
    ensures { bytes.new.items ≡ overwritten bytes.old.items at new.now }
{
    bytes[at..at + new.len()].copy_from_slice(new);
}

fn zeros(alloc: Global, size: usize) -> Result<Vec<u8>, AllocError>
    ensures { IfOk result (λ v. v.items ≡ replicate size 0) }
{
    let bytes = vec![in alloc; 0u8; size]?;
    Ok(bytes)
}
