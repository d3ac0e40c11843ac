// A row of bytes that only grows.
ghost use Rattle.std.specs.Prelude.{◌≡◌, ◌++◌, [], IfOk, OnOk, OnErr};
ghost use Rattle.tier_device.specs.Row.{row_bytes};

use std::alloc::{AllocError, Global};
use std::marker::Model;
use std::mem;

/// How many bytes a piece has a place for, unless one write has more.
const PIECE: usize = 65_536;

/// Bytes that stand where they were put: a row that grows takes a piece of memory more, and copies nothing. Contracts see all
/// bytes of the row, one after the other.
#[derive(Drop)]
pub(crate) struct Row {
    alloc: Global,
    full: Vec<Piece>,
    last: Piece,
}

impl Model for Row {
    ghost use Rattle.std.specs.Prelude.{◌++◌, ℕ, List};
    ghost use Rattle.tier_device.specs.Row.{row_bytes};

    ghost Value = { List ℕ };

    ghost view = { λ r. row_bytes r.full.items ++ r.last };
}

// Bytes in one piece of memory.
#[derive(Drop)]
struct Piece {
    bytes: Vec<u8>,
}

impl Model for Piece {
    ghost use Rattle.std.specs.Prelude.{ℕ, List};

    ghost Value = { List ℕ };

    ghost view = { λ p. p.bytes.items };
}

impl Piece {
    fn has_room(&self, len: usize) -> bool {
        self.bytes.capacity() - self.bytes.len() >= len
    }

    fn put(&mut self, bytes: &[u8]) -> Result<(), AllocError>
        ensures grown { OnOk result (self.new ≡ self.old ++ bytes.now) }
        ensures same { OnErr result (self.new ≡ self.old) }
    {
        self.bytes.extend_from_slice(bytes)
    }
}

impl Row {
    /// No bytes.
    pub fn new(alloc: Global) -> Self
        ensures { result ≡ [] }
    {
        Row {
            alloc,
            full: Vec::new(alloc),
            last: Piece {
                bytes: Vec::new(alloc),
            },
        }
    }

    /// Puts bytes behind the others. Where memory runs out the row is as it was.
    pub fn push(&mut self, bytes: &[u8]) -> Result<(), AllocError>
        ensures grown { OnOk result (self.new ≡ self.old ++ bytes.now) }
        ensures same { OnErr result (self.new ≡ self.old) }
    {
        if !self.last.has_room(bytes.len()) {
            self.begin_piece(bytes.len())?;
        }
        self.last.put(bytes)
    }

    // Takes a new piece with a place for `len` bytes.
    fn begin_piece(&mut self, len: usize) -> Result<(), AllocError>
        ensures { self.new ≡ self.old }
    {
        let bytes = Vec::with_capacity(self.alloc, len.max(PIECE))?;
        let full = mem::replace(&mut self.last, Piece { bytes });
        match self.full.push(full) {
            Ok(()) => Ok(()),
            Err(back) => {
                self.last = back.value;
                Err(AllocError)
            }
        }
    }

    /// All its bytes in one piece.
    pub fn to_vec(&self) -> Result<Vec<u8>, AllocError>
        ensures { IfOk result (λ all. all.items ≡ self.now) }
    {
        let mut all = Vec::new(self.alloc);
        for piece in &self.full {
            all.extend_from_slice(&piece.bytes)?;
        }
        all.extend_from_slice(&self.last.bytes)?;
        Ok(all)
    }
}
