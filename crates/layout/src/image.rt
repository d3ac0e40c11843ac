ghost use Rattle.std.specs.Prelude.{◌≡◌, ℕ, List, length, true};
ghost use Rattle.layout.specs.Bytes.{are_zero};
ghost use Rattle.layout.specs.declared.places.TheConstants.{BLOCK};

/// What a block of the shared media is filled with, such as a superblock or the entries of a directory.
pub trait Image {
    /// The bytes of the block.
    ghost bytes: { Self → List ℕ };

    /// Whether a block has room for it.
    ghost fits: { Self → Type 0 };

    /// Fills a block of 4,096 zero bytes. So what is written is exactly the block, each byte at most twice.
    fn encode_into(&self, slot: &mut [u8])
        requires fits { fits self.now }
        requires long { length slot.old ≡ BLOCK }
        requires blank { are_zero slot.old ≡ true }
        ensures { slot.new ≡ bytes self.now };
}
