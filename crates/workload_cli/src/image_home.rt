//! Where the image of a script's world is kept.

ghost use Rattle.std.specs.Prelude.{ℕ, List, OnOk};

use std::alloc::Global;
use world_files::{ImageFile, WorldFileError};

/// What keeps the bytes of an image.
pub trait ImageHome {
    /// It was given these bytes to keep.
    ghost keeps: { Self → List ℕ → Type 0 };

    /// Keeps bytes in place of those that it kept. Refused is what a file refuses, and want of memory.
    fn keep(&self, alloc: Global, bytes: &[u8]) -> Result<(), WorldFileError>
        ensures { OnOk result (keeps self.now bytes.now) };
}

/// An image file, and its path. No clause says that it holds the bytes then: `ImageFile::replace` answers a file that has them, and no contract says what a name leads to.
#[derive(Drop)]
pub struct FileHome<'a> {
    pub rt: &'a HostRuntime,
    pub path: &'a str,
    pub file: ImageFile,
}

impl ImageHome for FileHome<'_> {
    ghost keeps = { λ _ _. Unit {0} };

    fn keep(&self, alloc: Global, bytes: &[u8]) -> Result<(), WorldFileError> {
        self.file.replace(self.rt, alloc, self.path, bytes)?;
        Ok(())
    }
}
