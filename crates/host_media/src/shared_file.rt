// An open file that several media write.
use std::fs::File;
use std::sync::atomic::AtomicU64;
use std::sync::atomic::Ordering::SeqCst;
use std::{hint, io};

// What the word of a file says of its syncs: none is under way, one is, or one has failed.
const IDLE: u64 = 0;

const SYNCING: u64 = 1;

const FAILED: u64 = 2;

/// An open, locked file, which the media whose bytes lie in it share, in threads too.
///
/// The system reports a sync that failed once for each opening of a file: the next sync may succeed though what was written
/// before is lost. So one sync is under way at a time, and after one that failed none succeeds.
#[derive(Drop)]
pub(crate) struct SharedFile {
    file: File,
    word: AtomicU64,
}

impl SharedFile {
    /// An open file of which no sync has failed.
    pub(crate) fn of(file: File) -> Self {
        SharedFile {
            file,
            word: AtomicU64::new(IDLE),
        }
    }

    // The open file. Its bytes are read and written by `FileRange` alone, which tells what is known of them.
    pub(crate) fn file(&self) -> &File {
        &self.file
    }

    /// Has the system keep the data of the file, all that each medium gave it. Refused, with no call of the system, after a sync
    /// that failed, whichever medium asked for it.
    pub(crate) fn sync_data(&self) -> io::Result<()> {
        if !self.begin_sync() {
            return Err(io::Error::from(io::ErrorKind::Other));
        }
        let answer = self.file.sync_data();
        self.end_sync(answer.is_ok());
        answer
    }

    // Waits until no other sync is under way, and begins one; `false` where one has failed.
    fn begin_sync(&self) -> bool {
        for _ in 0..u64::MAX {
            match self.word.compare_exchange(IDLE, SYNCING, SeqCst, SeqCst) {
                Ok(_) => return true,
                Err(FAILED) => return false,
                Err(_) => hint::spin_loop(),
            }
        }
        false
    }

    fn end_sync(&self, succeeded: bool) {
        self.word
            .store(if succeeded { IDLE } else { FAILED }, SeqCst);
    }
}
