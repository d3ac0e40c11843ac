// What the media of a world hold after a stop where bytes were written and not fenced, as words.
ghost use Rattle.std.specs.Prelude.{◌≡◌, ◌<◌, ◌∷◌, IfSome, option_map, length};
ghost use Rattle.script.specs.Script.{parts, words_in};
ghost use Rattle.script.specs.Fills.{fill, medium, medium_with_fill, medium_fill, all_fills};

use crate::hex::hex_byte;
use crate::number::client_of;
use crate::words::{cut, two_parts};
use tier_device::Fill;

/// How many media a line can name: the shared one, which is 0, and each client's two regions together, by the client's number.
pub const MEDIA: usize = 9;

/// The fill that a word names: `old`, `new`, or a byte by two lower case hexadecimal digits.
pub fn fill_of(word: &[u8]) -> Option<Fill>
    ensures { result ≡ fill word.now }
{
    match word {
        b"old" => Some(Fill::Old),
        b"new" => Some(Fill::New),
        [high, low] => Some(Fill::Byte(hex_byte(*high, *low)?)),
        _ => None,
    }
}

/// The medium that a word names: 0 for `S`, else a client's number.
pub fn medium_of(word: &[u8]) -> Option<u32>
    ensures { result ≡ medium word.now }
{
    match word {
        b"S" => Some(0),
        _ => client_of(word),
    }
}

/// The fill of each medium: the one that it is named with, else new. Where a word can't be read, or a medium is named twice, there
/// are none.
pub fn fills_of(words: &[u8]) -> Option<[Fill; MEDIA]>
    ensures { result ≡ all_fills (parts 32 words.now) }
{
    let mut fills = [Fill::New; MEDIA];
    for medium in 0..MEDIA {
        fills[medium] = medium_fill(words, medium)?;
    }
    Some(fills)
}

fn medium_fill(words: &[u8], medium: usize) -> Option<Fill>
    ensures { result ≡ medium_fill (parts 32 words.now) medium }
{
    let mut found = None;
    let mut rest = Some(words);
    while let Some(text) = rest {
        let (word, behind) = first_word(text);
        let (name, fill) = named_fill(word)?;
        if name as usize == medium {
            if found.is_some() {
                return None;
            }
            found = Some(fill);
        }
        rest = behind;
    }
    Some(found.unwrap_or(Fill::New))
}

// The first word, and what stands behind the space after it.
fn first_word(text: &[u8]) -> (&[u8], Option<&[u8]>)
    ensures words { parts 32 text.now ≡ result.0.now ∷ words_in (option_map (λ t. t.now) result.1) }
    ensures shorter { IfSome result.1 (λ behind. length behind.now < length text.now) }
{
    match cut(text, b' ') {
        Some((word, behind)) => (word, Some(behind)),
        None => (text, None),
    }
}

// A medium and its fill, with a colon between them.
fn named_fill(word: &[u8]) -> Option<(u32, Fill)>
    ensures { result ≡ medium_with_fill word.now }
{
    let (name, fill) = two_parts(word, b':')?;
    let medium = medium_of(name)?;
    let fill = fill_of(fill)?;
    Some((medium, fill))
}
