// The bytes that an append writes behind a gate.
ghost use Rattle.std.specs.Prelude.{◌≡◌, ◌≤◌, ◌+◌, ◌++◌, [], take, drop, length, IfOk, IsOk, OnOk, OnErr, vec_len, vec_capacity};
ghost use Rattle.tier_device.specs.declared.media.Tier.{Tier};
ghost use Rattle.tier_device.specs.declared.media.Tier.TheVariants.{Fast};
ghost use Rattle.tier_device.specs.Media.{Keeps, Rose};
ghost use Rattle.log_record.specs.Grammar.{IsRecord, record_bytes};
ghost use Rattle.update_log.specs.declared.format.TheConstants.{REGION_SIZE};
ghost use Rattle.update_log.specs.Frames.{behind_gate};
ghost use Rattle.update_log.specs.Stage.{HasIfSaid};

use crate::format::{CLOSED, REGION_SIZE};
use byteorder::{ByteOrder, LittleEndian};
use log_record::{Record, write_behind};
use std::alloc::{AllocError, Global};
use std::marker::Model;
use tier_device::{Media, MediaError, Tier};

/// Bytes, in memory that has a place for as many as a region has. All of it is taken when the buffer is made.
#[derive(Drop)]
pub struct Buffer {
    bytes: Vec<u8>,
}

impl Model for Buffer {
    ghost use Rattle.std.specs.Prelude.{◌≤◌, ℕ, List, vec_capacity};
    ghost use Rattle.update_log.specs.declared.format.TheConstants.{REGION_SIZE};

    ghost Value = { List ℕ };

    ghost view = { λ b. b.bytes.items };

    ghost invariant = { λ b. REGION_SIZE ≤ vec_capacity b.bytes };
}

// The bytes that are read at once, few enough for the nearest memory.
const PIECE: usize = 4_096;

const PIECES: usize = 64;

fn empty_piece() -> [u8; PIECE] {
    [0; PIECE]
}

impl Buffer {
    /// No bytes.
    pub fn new(alloc: Global) -> Result<Self, AllocError>
        ensures { IfOk result (λ b. b ≡ []) }
    {
        Ok(Buffer {
            bytes: Vec::with_capacity(alloc, REGION_SIZE)?,
        })
    }

    /// The bytes.
    pub fn as_slice(&self) -> &[u8]
        ensures { result.now ≡ self.now }
    {
        &self.bytes
    }

    /// Reads the whole fast tier of a medium of a region's size, piece by piece, so that no memory is filled before it is read over. It fails only where the device does.
    pub fn read<M: Media>(&mut self, media: &mut M) -> Result<(), MediaError>
        requires size { length (M.seen media.old Fast) ≡ REGION_SIZE }
        ensures bytes { OnOk result (self.new ≡ M.seen media.old Fast) }
        ensures seen { (t : Tier) → M.seen media.new t ≡ M.seen media.old t }
        ensures clock { M.moment media.new ≡ M.moment media.old }
        ensures past { Keeps (M.moment media.old) (M.moment media.new) (M.left media.old) (M.left media.new) }
        ensures fault { OnErr result (Rose (M.faults media.old) (M.faults media.new)) }
        ensures quiet { OnOk result (M.faults media.new ≡ M.faults media.old) }
        ensures faults { M.faults media.old ≤ M.faults media.new }
        ensures one_fault { M.faults media.new ≤ M.faults media.old + 1 }
    {
        self.bytes.clear();
        let mut piece = empty_piece();
        for place in 0..PIECES {
            self.read_piece(media, place * PIECE, &mut piece)?;
        }
        Ok(())
    }

    /// Reads as `read` does, unless `has_content` says that it has what a read gives.
    pub fn read_if_needed<M: Media>(
        &mut self,
        media: &mut M,
        has_content: bool,
    ) -> Result<(), MediaError>
        requires size { length (M.seen media.old Fast) ≡ REGION_SIZE }
        requires said { HasIfSaid has_content self.old (M.seen media.old Fast) }
        ensures bytes { OnOk result (self.new ≡ M.seen media.old Fast) }
        ensures seen { (t : Tier) → M.seen media.new t ≡ M.seen media.old t }
        ensures clock { M.moment media.new ≡ M.moment media.old }
        ensures past { Keeps (M.moment media.old) (M.moment media.new) (M.left media.old) (M.left media.new) }
        ensures fault { OnErr result (Rose (M.faults media.old) (M.faults media.new)) }
        ensures quiet { OnOk result (M.faults media.new ≡ M.faults media.old) }
        ensures faults { M.faults media.old ≤ M.faults media.new }
        ensures one_fault { M.faults media.new ≤ M.faults media.old + 1 }
    {
        if has_content {
            return Ok(());
        }
        self.read(media)
    }

    // Reads as many bytes as a piece has, from a place on, behind those that it has.
    fn read_piece<M: Media>(
        &mut self,
        media: &mut M,
        at: usize,
        piece: &mut [u8],
    ) -> Result<(), MediaError>
        requires within { at + length piece.old ≤ length (M.seen media.old Fast) }
        requires room { length self.old + length piece.old ≤ REGION_SIZE }
        ensures bytes { OnOk result (self.new ≡ self.old ++ take (length piece.old) (drop at (M.seen media.old Fast))) }
        ensures seen { (t : Tier) → M.seen media.new t ≡ M.seen media.old t }
        ensures clock { M.moment media.new ≡ M.moment media.old }
        ensures past { Keeps (M.moment media.old) (M.moment media.new) (M.left media.old) (M.left media.new) }
        ensures fault { OnErr result (Rose (M.faults media.old) (M.faults media.new)) }
        ensures quiet { OnOk result (M.faults media.new ≡ M.faults media.old) }
        ensures faults { M.faults media.old ≤ M.faults media.new }
        ensures one_fault { M.faults media.new ≤ M.faults media.old + 1 }
    {
        media.read(Tier::Fast, at, piece)?;
        match self.bytes.extend_from_slice(piece) {
            Ok(()) => Ok(()),
            Err(_) => unreachable!(),
        }
    }

    /// What stands behind a record's gate: the length of its payload, the payload, and a closed gate.
    pub fn put(&mut self, logged: &Record)
        requires fits { IsRecord logged.now }
        requires short { length (record_bytes logged.now) + 5 ≤ REGION_SIZE }
        ensures { self.new ≡ behind_gate (record_bytes logged.now) }
    {
        self.bytes.clear();
        match put_behind_gate(&mut self.bytes, logged) {
            Ok(()) => {}
            Err(_) => unreachable!(),
        }
    }
}

// Puts those bytes into a vector that holds none.
fn put_behind_gate(bytes: &mut Vec<u8>, logged: &Record) -> Result<(), AllocError>
    requires fits { IsRecord logged.now }
    requires none { bytes.old.items ≡ [] }
    requires empty { vec_len bytes.old ≡ 0 }
    requires short { length (record_bytes logged.now) + 5 ≤ 262144 }
    ensures is { OnOk result (bytes.new.items ≡ behind_gate (record_bytes logged.now)) }
    ensures room { length (record_bytes logged.now) + 5 ≤ vec_capacity bytes.old → IsOk result }
    ensures capacity { vec_capacity bytes.old ≤ vec_capacity bytes.new }
{
    let mut size = [0; 4];
    LittleEndian::write_u32(&mut size, logged.spelled_len() as u32);
    bytes.extend_from_slice(&size)?;
    write_behind(bytes, logged)?;
    bytes.push(CLOSED)?;
    Ok(())
}
