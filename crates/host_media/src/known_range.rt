// What a read gave.
ghost use Rattle.std.specs.Prelude.{◌≡◌};

use crate::known_bytes::KnownBytes;

/// The range of a file that was read, and what the read told of its bytes. Nothing can be read or written by it.
#[derive(Drop)]
pub struct KnownRange {
    begin: usize,
    bytes: KnownBytes,
}

impl KnownRange {
    ghost use Rattle.host_media.specs.FileRange.{read_begin, read_told};

    /// The range that begins there in its file, of which this is known.
    pub(crate) fn of(begin: usize, bytes: KnownBytes) -> KnownRange
        ensures begin { read_begin result ≡ begin }
        ensures bytes { read_told result ≡ bytes.noted.told }
    {
        KnownRange { begin, bytes }
    }
}
