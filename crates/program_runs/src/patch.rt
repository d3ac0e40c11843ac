// Bytes that a row puts into the image of its world.
use posix_calls::Bytes;
use script::{DataText, MAX_DATA};
use std::alloc::Global;

/// Bytes that are put into an image before a run.
#[derive(Drop)]
pub struct Patch {
    /// The place of the first, in bytes from the front of the image.
    pub at: usize,
    pub bytes: Bytes,
}

impl Patch {
    /// Reads `AT DATA`: a number, and runs of at most 65,536 bytes. None where they are of another form, or memory is wanting.
    pub fn read(alloc: Global, text: &str) -> Option<Self> {
        let (at, data) = text.split_once(' ')?;
        let at = at.parse::<usize>().ok()?;
        let bytes = DataText::read(data.as_bytes())?.to_bytes(alloc).ok()?;
        if bytes.as_slice().len() == MAX_DATA {
            return None;
        }
        Some(Patch { at, bytes })
    }
}
