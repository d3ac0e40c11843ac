// Fields written over bytes, from a place on.
ghost use Rattle.std.specs.Prelude.{◌≡◌, ◌≤◌, ◌+◌, length, true};
ghost use Rattle.layout.specs.Bytes.{u32 as bytes_4, u64 as bytes_8, zeros, are_zero, with_text};

use byteorder::{ByteOrder, LittleEndian};

/// Sets all bytes to zero.
#[tactic(auto, unfolding(crate::specs::Bytes::zeros))]
pub fn clear(bytes: &mut [u8])
    ensures zeros { bytes.new ≡ zeros (length bytes.old) }
    ensures blank { are_zero bytes.new ≡ true }
{
    bytes.fill(0);
}

/// Writes bytes at byte `at`, where they have room.
pub fn put(bytes: &mut [u8], at: usize, text: &[u8])
    requires { at + length text.now ≤ length bytes.old }
    ensures { bytes.new ≡ with_text at text.now bytes.old }
{
    bytes[at..at + text.len()].copy_from_slice(text);
}

/// Writes a number at byte `at` as four bytes, the lowest first.
#[tactic(auto, unfolding(crate::specs::Bytes::u32))]
pub fn put_u32(bytes: &mut [u8], at: usize, n: u32)
    requires { at + 4 ≤ length bytes.old }
    ensures { bytes.new ≡ with_text at (bytes_4 n) bytes.old }
{
    let mut text = [0; 4];
    LittleEndian::write_u32(&mut text, n);
    put(bytes, at, &text);
}

/// Writes a number at byte `at` as eight bytes, the lowest first.
#[tactic(auto, unfolding(crate::specs::Bytes::u64))]
pub fn put_u64(bytes: &mut [u8], at: usize, n: u64)
    requires { at + 8 ≤ length bytes.old }
    ensures { bytes.new ≡ with_text at (bytes_8 n) bytes.old }
{
    let mut text = [0; 8];
    LittleEndian::write_u64(&mut text, n);
    put(bytes, at, &text);
}
