// Blocks that have been read, kept to be read again without a device call.
ghost use Rattle.std.specs.Prelude.{◌≡◌, ◌≢◌, ◌==◌, ◌*◌, ◌+◌, ◌≤◌, ℕ, length, true, IfSome};
ghost use Rattle.layout.specs.Places.{Sizes, is_journaled};
ghost use Rattle.layout.specs.declared.places.TheConstants.{BLOCK};
ghost use Rattle.batch_journal.specs.Images.{images_of, image_count, with_images};
ghost use Rattle.batch_journal.specs.Blocks.{Blocks};
ghost use Rattle.batch_journal.specs.Kept.{Shows};

use crate::head::number_in;
use layout::{BLOCK, GATE_BLOCK};
use std::alloc::Global;

/// How many blocks are kept at most.
pub const MOST_KEPT: usize = 256;

/// A block's number and its bytes. No batch may write the gate's block, so that number says that none is kept here.
#[derive(Clone, Copy)]
pub struct KeptBlock {
    number: u32,
    bytes: [u8; BLOCK],
}

/// Blocks as they stand, each at its number modulo the count of places; there is no place where memory was refused.
#[derive(Drop)]
pub struct KeptBlocks {
    places: Vec<KeptBlock>,
}

impl KeptBlocks {
    /// Places for 256 blocks, or none where there is no memory for them.
    pub fn new(alloc: Global) -> Self
        ensures { (g : Sizes) (blocks : Blocks) → Shows g blocks result.places.items }
    {
        let none = KeptBlock {
            number: GATE_BLOCK,
            bytes: [0; BLOCK],
        };
        match vec![in alloc; none; MOST_KEPT] {
            Ok(places) => KeptBlocks { places },
            Err(_) => KeptBlocks {
                places: Vec::new(alloc),
            },
        }
    }

    /// Whether there is no place for a block.
    pub fn is_empty(&self) -> bool
        ensures { result ≡ (length self.now.places.items == 0) }
    {
        self.places.is_empty()
    }

    /// The bytes of a block, if it is kept.
    pub fn find(&self, block: u32) -> Option<&[u8]>
        ensures found { IfSome result (λ b. (g : Sizes) (blocks : Blocks) → Shows g blocks self.now.places.items → is_journaled g block ≡ true → b.now ≡ blocks block) }
        ensures whole { IfSome result (λ b. length b.now ≡ BLOCK) }
    {
        if self.places.is_empty() {
            return None;
        }
        let kept = &self.places[block as usize % self.places.len()];
        if kept.number != block {
            return None;
        }
        Some(&kept.bytes)
    }

    /// Keeps a block, in place of what stood in its place.
    pub fn keep(&mut self, block: u32, bytes: &[u8])
        requires { length bytes.now ≡ BLOCK }
        ensures { (g : Sizes) (old new : Blocks) → Shows g old self.old.places.items → new block ≡ bytes.now → ((k : ℕ) → k ≢ block → new k ≡ old k) → Shows g new self.new.places.items }
    {
        if self.places.is_empty() {
            return;
        }
        let place = block as usize % self.places.len();
        self.places[place].number = block;
        self.places[place].bytes.copy_from_slice(bytes);
    }

    /// Keeps the images of a batch, whose head and images these bytes are.
    pub fn keep_images(&mut self, bytes: &[u8], count: usize)
        requires count { count ≡ image_count bytes.now }
        requires few { count ≤ 256 }
        requires long { 4096 * count + 4096 ≤ length bytes.now }
        ensures { (g : Sizes) (blocks : Blocks) → Shows g blocks self.old.places.items → Shows g (with_images (images_of bytes.now) blocks) self.new.places.items }
    {
        let mut place = count;
        'images: while 0 < place {
            place -= 1;
            let from = BLOCK * place + BLOCK;
            self.keep(number_in(bytes, place), &bytes[from..from + BLOCK]);
        }
    }
}
