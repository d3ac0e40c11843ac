// Images of blocks of the node pool.
ghost use Rattle.std.specs.Prelude.{◌≡◌, ◌≤◌, ◌+◌, ℕ, [], ◌++◌, true, length, IsSome, OnOk, OnErr, IfOk};
ghost use Rattle.area_reader.specs.layout.declared.places.TheConstants.{BLOCK, FIRST_NODE_BLOCK};
ghost use Rattle.area_reader.specs.layout.Places.{Sizes, is_node};
ghost use Rattle.area_reader.specs.batch_journal.Images.{image_for, next_of};
ghost use Rattle.area_commit.specs.Batches.{AreNodes, PutsImage};

use area_reader::in_batch_journal::Batch;
use area_reader::in_layout::{BLOCK, Image};
use std::alloc::{AllocError, Global};
use std::collections::BTreeMap;
use std::marker::Model;

// The bytes of a block.
#[derive(Drop)]
struct BlockImage {
    bytes: Vec<u8>,
}

impl Model for BlockImage {
    ghost use Rattle.std.specs.Prelude.{◌≡◌, ℕ, List, length};
    ghost use Rattle.area_reader.specs.layout.declared.places.TheConstants.{BLOCK};

    ghost Value = { List ℕ };

    ghost view = { λ b. b.bytes.items };

    ghost invariant = { λ b. length b.bytes.items ≡ BLOCK };
}

impl BlockImage {
    // A copy of the bytes of a block.
    fn of_bytes(alloc: Global, bytes: &[u8]) -> Result<Self, AllocError>
        requires { length bytes.now ≡ BLOCK }
        ensures { IfOk result (λ image. image ≡ bytes.now) }
    {
        let bytes = bytes.to_vec(alloc)?;
        Ok(BlockImage { bytes })
    }

    // A block that is filled with what is encoded.
    fn of_image<I: Image>(alloc: Global, image: &I) -> Result<Self, AllocError>
        requires { I.fits image.now }
        ensures { IfOk result (λ block. block ≡ I.bytes image.now) }
    {
        let size = BLOCK;
        let mut bytes = vec![in alloc; 0u8; size]?;
        image.encode_into(&mut bytes);
        Ok(BlockImage { bytes })
    }

    fn as_slice(&self) -> &[u8]
        ensures bytes { result.now ≡ self.now }
        ensures long { length self.now ≡ BLOCK }
    {
        &self.bytes
    }
}

/// Images of blocks, each with its block's number; at most one for a block. Contracts see them as the list of (number, image), whose numbers rise.
#[derive(Drop)]
pub struct NodeImages {
    alloc: Global,
    images: BTreeMap<u32, BlockImage>,
}

impl Model for NodeImages {
    ghost use Rattle.std.specs.Prelude.{ℕ, List};

    ghost Value = { List (ℕ × List ℕ) };

    ghost view = { λ n. n.images.entries };
}

impl NodeImages {
    /// No image.
    pub fn new(alloc: Global) -> Self
        ensures { result ≡ [] }
    {
        NodeImages {
            alloc,
            images: BTreeMap::new(alloc),
        }
    }

    /// Puts the image of a block, 4,096 bytes, in place of the one that was there for it. Where memory runs out the images are as they were.
    pub fn put(&mut self, number: u32, bytes: &[u8]) -> Result<(), AllocError>
        requires { length bytes.now ≡ BLOCK }
        ensures put { OnOk result (PutsImage number bytes.now self.old self.new) }
        ensures nodes { OnOk result ((g : Sizes) → AreNodes g self.old → is_node g number ≡ true → AreNodes g self.new) }
        ensures few { OnOk result (length self.new ≤ length self.old + 1) }
        ensures refused { OnErr result (self.new ≡ self.old) }
    {
        let image = BlockImage::of_bytes(self.alloc, bytes)?;
        self.insert(number, image)
    }

    /// Puts the image of a block, which is encoded where it is kept. All else is as `put` has it of the image's bytes.
    pub fn put_image<I: Image>(&mut self, number: u32, image: &I) -> Result<(), AllocError>
        requires { I.fits image.now }
        ensures put { OnOk result (PutsImage number (I.bytes image.now) self.old self.new) }
        ensures nodes { OnOk result ((g : Sizes) → AreNodes g self.old → is_node g number ≡ true → AreNodes g self.new) }
        ensures few { OnOk result (length self.new ≤ length self.old + 1) }
        ensures refused { OnErr result (self.new ≡ self.old) }
    {
        let image = BlockImage::of_image(self.alloc, image)?;
        self.insert(number, image)
    }

    fn insert(&mut self, number: u32, image: BlockImage) -> Result<(), AllocError>
        ensures put { OnOk result (PutsImage number image self.old self.new) }
        ensures nodes { OnOk result ((g : Sizes) → AreNodes g self.old → is_node g number ≡ true → AreNodes g self.new) }
        ensures few { OnOk result (length self.new ≤ length self.old + 1) }
        ensures refused { OnErr result (self.new ≡ self.old) }
    {
        self.images.insert(number, image)?;
        Ok(())
    }

    /// How many images there are.
    pub fn len(&self) -> usize
        ensures { result ≡ length self.now }
    {
        self.images.len()
    }

    // Pushes all images.
    pub(crate) fn push_all(&self, batch: &mut Batch) -> Result<(), AllocError>
        requires nodes { (k : ℕ) → IsSome (image_for k self.now) → FIRST_NODE_BLOCK ≤ k }
        requires room { length batch.old + length self.now ≤ 1023 }
        requires rises { next_of batch.old ≤ FIRST_NODE_BLOCK }
        ensures pushed { OnOk result (batch.new ≡ batch.old ++ self.now) }
    {
        for (number, image) in self.images.iter() {
            batch.push(*number, image.as_slice())?;
        }
        Ok(())
    }
}
