//! A block of a file in memory, over which records are laid.
ghost use Rattle.std.specs.Prelude.{◌≡◌, ◌≤◌, List, Option, Some, length, take, option_map};
ghost use Rattle.posix_calls.specs.declared.limits.TheConstants.{UNIT_BYTES};
ghost use Rattle.client_plan.specs.call_effects.Blocks.{block_after};
ghost use Rattle.client_view.specs.RecordReach.{IsReachOf, block_length};

use crate::blocks::take_effects;
use crate::record_reach::RecordReach;
use client_plan::in_log_record::Record;
use posix_calls::UNIT_BYTES;
use std::marker::Model;

/// A block of a file in a buffer of 4,096 bytes. It has the bytes that the file has there, so it is short where the file ends in it, and empty behind the end; nothing is known of it
/// where no file stands any longer.
#[derive(Drop)]
pub struct FetchedBlock {
    buffer: Vec<u8>,
    len: Option<usize>,
}

impl Model for FetchedBlock {
    ghost use Rattle.std.specs.Prelude.{◌≡◌, ◌≤◌, ℕ, List, Option, length, take, option_map};
    ghost use Rattle.std.specs.Option.{ForSome};
    ghost use Rattle.posix_calls.specs.declared.limits.TheConstants.{UNIT_BYTES};

    ghost Value = { Option (List ℕ) };

    ghost view = { λ b. option_map (λ n. take n b.buffer.items) b.len };

    ghost invariant = { λ b. (length b.buffer.items ≡ UNIT_BYTES) × ForSome b.len (λ n. n ≤ UNIT_BYTES) };
}

impl FetchedBlock {
    /// The block that stands at the front of a buffer.
    pub fn of(buffer: Vec<u8>, len: usize) -> Self
        requires whole { length buffer.items ≡ UNIT_BYTES }
        requires within { len ≤ UNIT_BYTES }
        ensures { result ≡ Some (take len buffer.items) }
    {
        FetchedBlock {
            buffer,
            len: Some(len),
        }
    }

    /// Its bytes, if it is known.
    pub fn bytes(&self) -> Option<&[u8]>
        ensures { option_map (λ bytes. bytes.now) result ≡ self.now }
    {
        match self.len {
            Some(len) => Some(&self.buffer[..len]),
            None => None,
        }
    }

    /// How many bytes it has; a block of which nothing is known counts as whole.
    pub fn len(&self) -> usize
        ensures is { result ≡ block_length self.now }
        ensures within { result ≤ UNIT_BYTES }
    {
        match self.len {
            Some(len) => len,
            None => UNIT_BYTES as usize,
        }
    }

    /// Lays a record over it, as block `block` of the file at `inode`, by what the record reaches. It takes no memory.
    pub fn take_record(&mut self, entry: &Record, reach: RecordReach, inode: u32, block: u32)
        requires { IsReachOf entry.now.effects reach }
        ensures { self.new ≡ block_after entry.now.effects inode block self.old }
    {
        if reach.may_change(inode, block, self.len()) {
            self.take_effects(entry, inode, block);
        }
    }

    fn take_effects(&mut self, entry: &Record, inode: u32, block: u32)
        ensures { self.new ≡ block_after entry.now.effects inode block self.old }
    {
        let effects = entry.effects.as_slice();
        self.len = take_effects(effects, inode, block, &mut self.buffer, self.len);
    }
}
