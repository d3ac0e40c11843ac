// How a file is opened, as letters.
ghost use Rattle.std.specs.Prelude.{◌≡◌};
ghost use Rattle.script.specs.Script.{front, text_behind, flags};

use posix_calls::Flags;

/// The flags of some of the letters `rwcxt`, in this order: read, write, create, exclusive, truncate.
pub fn flags_of(word: &[u8]) -> Option<Flags>
    ensures { result ≡ flags word.now }
{
    let (read, rest) = letter(b'r', word);
    let (write, rest) = letter(b'w', rest);
    let (create, rest) = letter(b'c', rest);
    let (exclusive, rest) = letter(b'x', rest);
    let (truncate, rest) = letter(b't', rest);
    if !rest.is_empty() {
        return None;
    }
    Some(Flags {
        read,
        write,
        create,
        exclusive,
        truncate,
    })
}

// Whether the letter stands in front, and what stands behind it.
fn letter(letter: u8, word: &[u8]) -> (bool, &[u8])
    ensures front { result.0 ≡ front letter word.now }
    ensures behind { result.1.now ≡ text_behind letter word.now }
{
    match word {
        [first, rest @ ..] if *first == letter => (true, rest),
        _ => (false, word),
    }
}
