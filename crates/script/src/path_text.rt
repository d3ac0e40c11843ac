// A path as a script has it.
ghost use Rattle.std.specs.Prelude.{◌≡◌, IfOk, true, is_some, option_map};
ghost use Rattle.script.specs.Script.{path_bytes, decoded_first};

use crate::hex::hex_byte;
use posix_calls::Bytes;
use std::alloc::{AllocError, Global};

/// A path in which `%hh` is the byte of two lower case hexadecimal digits, and any other byte is itself.
#[derive(Clone, Copy)]
pub struct PathText<'a> {
    text: &'a [u8],
    ghost readable: { is_some (path_bytes text.now) ≡ true },
}

impl<'a> PathText<'a> {
    ghost use Rattle.script.specs.LineValues.{path_of};

    /// None where a `%` has no two digits behind it.
    pub fn read(text: &'a [u8]) -> Option<Self>
        ensures { option_map path_of result ≡ path_bytes text.now }
    {
        if !is_readable(text) {
            return None;
        }
        Some(PathText { text })
    }

    /// The path's bytes.
    pub fn to_bytes(&self, alloc: Global) -> Result<Bytes, AllocError>
        ensures { IfOk result (λ bytes. bytes ≡ path_of self.now) }
    {
        let mut bytes = Vec::new(alloc);
        let mut rest = self.text;
        while let Some((byte, behind)) = first_byte(rest) {
            bytes.push(byte)?;
            rest = behind;
        }
        Ok(Bytes::from_vec(bytes))
    }
}

fn is_readable(text: &[u8]) -> bool
    ensures { result ≡ is_some (path_bytes text.now) }
{
    let mut rest = text;
    while let Some((_, behind)) = first_byte(rest) {
        rest = behind;
    }
    rest.is_empty()
}

// The first byte of a path, and the text behind it; none at the end and at a `%` without digits.
fn first_byte(text: &[u8]) -> Option<(u8, &[u8])>
    ensures { option_map (λ r. (r.0, r.1.now)) result ≡ decoded_first text.now }
{
    match text {
        [b'%', high, low, rest @ ..] => Some((hex_byte(*high, *low)?, rest)),
        [byte, rest @ ..] if *byte != b'%' => Some((*byte, rest)),
        _ => None,
    }
}
