// Bytes of a file, from a place on.
ghost use Rattle.std.specs.Prelude.{◌≡◌, ◌≤◌, ◌+◌, ℕ, List, length, OnOk};
ghost use Rattle.host_media.specs.DiskFile.{disk_len};
ghost use Rattle.host_media.specs.FileRange.{IsRead};

use host_media::{DiskFile, FileProblem};

/// A file of which bytes are read from a place on.
pub trait ReadAt {
    /// How many bytes it has.
    ghost size: { Self → ℕ };

    /// Which bytes a read from a place on may give.
    ghost gives: { Self → ℕ → List ℕ → Type 0 };

    /// How many bytes it has.
    fn size(&self) -> usize
        ensures { result ≡ size self.now };

    /// Reads the bytes from a place on. Refused is a read that fails.
    fn read_at(&self, at: usize, out: &mut [u8]) -> Result<(), FileProblem>
        ensures { OnOk result (gives self.now at out.new) };
}

impl ReadAt for DiskFile {
    ghost size = { disk_len };

    ghost gives = { λ disk at bytes. (at + length bytes ≤ disk_len disk) × IsRead at bytes };

    fn size(&self) -> usize {
        self.len()
    }

    fn read_at(&self, at: usize, out: &mut [u8]) -> Result<(), FileProblem> {
        self.read(at, out)?;
        Ok(())
    }
}
