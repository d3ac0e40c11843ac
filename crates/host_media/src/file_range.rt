// A range of an open file, and what is known of its bytes. No proof can know what a file holds that is opened: so of `look` and `write` it is
// believed that the system did at that place just what they tell.
ghost use Rattle.std.specs.Prelude.{◌≡◌, ◌≤◌, ◌<◌, ◌+◌, ◌^◌, length, drop, OnErr, OnOk, IfOk};
ghost use Rattle.host_media.specs.FileBytes.{changes_after, known, unknown, with_told, part_told};

use crate::known_bytes::{KnownBytes, Telling};
use crate::known_range::KnownRange;
use crate::shared_file::SharedFile;
use crate::sizes::Sizes;
use std::alloc::AllocError;
use std::io;
use std::os::unix::fs::FileExt;
use std::sync::Arc;

/// A range of an open file, and what its calls have told of it. No two overlap: a file is one, of which others are taken away. So each of its bytes
/// is read and written by this value alone, and what calls have told of it still holds.
#[derive(Drop)]
pub struct FileRange {
    file: Arc<SharedFile>,
    begin: usize,
    known: KnownBytes,
    ghost fits: { begin + length known.noted.told < 2 ^ 63 },
}

impl FileRange {
    ghost use Rattle.host_media.specs.FileRange.{range_begin, range_changes, range_told, range_writes, read_begin, read_told};

    /// All `len` bytes of an open file, of which none is known.
    pub(crate) fn of_file(file: Arc<SharedFile>, len: usize) -> FileRange
        requires { len < 2 ^ 63 }
        ensures begin { range_begin result ≡ 0 }
        ensures nothing { range_told result ≡ unknown len }
    {
        let sizes = Sizes {
            fast: len,
            block: 0,
            slow: 0,
        };
        FileRange {
            file,
            begin: 0,
            known: KnownBytes::of(&sizes),
        }
    }

    /// Takes its first `len` bytes away from it, as a range of their own. Refused is want of memory.
    pub(crate) fn take_front(&mut self, len: usize) -> Result<FileRange, AllocError>
        requires { len ≤ length (range_told self.old) }
        ensures begin { IfOk result (λ front. range_begin front ≡ range_begin self.old) }
        ensures bytes { IfOk result (λ front. range_told front ≡ part_told (range_told self.old) 0 len) }
        ensures changes { IfOk result (λ front. range_changes front ≡ range_changes self.old) }
        ensures rest { OnOk result (range_begin self.new ≡ range_begin self.old + len) }
        ensures others { OnOk result (range_told self.new ≡ drop len (range_told self.old)) }
        ensures counted { OnOk result (range_changes self.new ≡ range_changes self.old) }
    {
        let front = FileRange {
            file: Arc::try_clone(&self.file)?,
            begin: self.begin,
            known: self.known.then(&Telling::Front { len }),
        };
        self.begin += len;
        self.known = self.known.then(&Telling::Behind { at: len });
        Ok(front)
    }

    /// Reads bytes of it, as many as `out` has, and answers what they told. A read that fails may have changed `out`.
    pub(crate) fn look(&self, at: usize, out: &mut [u8]) -> io::Result<KnownRange>
        requires { at + length out.old ≤ length (range_told self.now) }
        ensures begin { IfOk result (λ read. read_begin read ≡ range_begin self.now + at) }
        ensures bytes { IfOk result (λ read. read_told read ≡ known out.new) }
    {
        let begin = self.begin + at;
        self.file.file().read_exact_at(out, begin as u64)?;
        let bytes = self.known.then(&Telling::Only { bytes: out });
        Ok(KnownRange::of(begin, bytes))
    }

    /// Reads bytes of it, as many as `out` has, which are then known. A read that fails may have changed `out`, and tells nothing.
    pub(crate) fn read(&mut self, at: usize, out: &mut [u8]) -> io::Result<()>
        requires { at + length out.old ≤ length (range_told self.old) }
        ensures begin { range_begin self.new ≡ range_begin self.old }
        ensures long { length (range_told self.new) ≡ length (range_told self.old) }
        ensures read { OnOk result (range_told self.new ≡ with_told (range_told self.old) at (known out.new)) }
        ensures failed { OnErr result (range_told self.new ≡ range_told self.old) }
        ensures writes { range_writes self.new ≡ range_writes self.old }
        ensures changes { range_changes self.new ≡ range_changes self.old }
    {
        self.look(at, out)?;
        self.known = self.known.then(&Telling::Read { at, bytes: out });
        Ok(())
    }

    /// Writes bytes to it, which are then known. Of a write that fails any part may be done.
    pub(crate) fn write(&mut self, at: usize, bytes: &[u8]) -> io::Result<()>
        requires { at + length bytes.now ≤ length (range_told self.old) }
        ensures begin { range_begin self.new ≡ range_begin self.old }
        ensures long { length (range_told self.new) ≡ length (range_told self.old) }
        ensures written { OnOk result (range_told self.new ≡ with_told (range_told self.old) at (known bytes.now)) }
        ensures torn { OnErr result (range_told self.new ≡ with_told (range_told self.old) at (unknown (length bytes.now))) }
        ensures once { range_writes self.new ≡ range_writes self.old + 1 }
        ensures changes { range_changes self.new ≡ changes_after (part_told (range_told self.old) at (length bytes.now)) bytes.now (range_changes self.old) }
    {
        let answer = self
            .file
            .file()
            .write_all_at(bytes, (self.begin + at) as u64);
        let telling = match answer {
            Ok(()) => Telling::Written { at, bytes },
            Err(_) => Telling::Torn { at, bytes },
        };
        self.known = self.known.then(&telling);
        answer
    }

    /// Has the system keep the data of the file, of all its ranges.
    pub(crate) fn sync_data(&self) -> io::Result<()> {
        self.file.sync_data()
    }

    /// Has the system keep the file as it is, with its length.
    pub(crate) fn sync_all(&self) -> io::Result<()> {
        self.file.file().sync_all()
    }
}
