// The words of a line.
ghost use Rattle.std.specs.Prelude.{◌≡◌, ◌∷◌, ◌<◌, ◌==◌, [], None, IfSome, length, option_map};
ghost use Rattle.script.specs.Script.{parts, one, two, three, four};
ghost use Rattle.std.specs.List.{position};

const SPACE: u8 = b' ';

/// What stands before the first of these bytes and what behind it, where there is one.
pub fn cut(text: &[u8], byte: u8) -> Option<(&[u8], &[u8])>
    ensures found { IfSome result (λ r. parts byte text.now ≡ r.0.now ∷ parts byte r.1.now) }
    ensures shorter { IfSome result (λ r. length r.1.now < length text.now) }
    ensures whole { result ≡ None → parts byte text.now ≡ text.now ∷ [] }
{
    match place_of(text, byte) {
        Some(at) => Some((&text[..at], &text[at + 1..])),
        None => None,
    }
}

fn place_of(text: &[u8], byte: u8) -> Option<usize>
    ensures { result ≡ position (λ b. b == byte) text.now }
{
    text.iter().position(|b| *b == byte)
}

/// The only word.
pub fn one_word(text: &[u8]) -> Option<&[u8]>
    ensures { option_map (λ w. w.now) result ≡ one (parts SPACE text.now) }
{
    match cut(text, SPACE) {
        None => Some(text),
        Some(_) => None,
    }
}

/// Both words, where there are two.
pub fn two_words(text: &[u8]) -> Option<(&[u8], &[u8])>
    ensures { option_map (λ w. (w.0.now, w.1.now)) result ≡ two (parts SPACE text.now) }
{
    two_parts(text, SPACE)
}

/// What stands before the only one of these bytes and what behind it, where there is one.
pub fn two_parts(text: &[u8], byte: u8) -> Option<(&[u8], &[u8])>
    ensures { option_map (λ w. (w.0.now, w.1.now)) result ≡ two (parts byte text.now) }
{
    let (first, rest) = cut(text, byte)?;
    if cut(rest, byte).is_some() {
        return None;
    }
    Some((first, rest))
}

/// All words, where there are three.
pub fn three_words(text: &[u8]) -> Option<(&[u8], &[u8], &[u8])>
    ensures { option_map (λ w. (w.0.now, w.1.now, w.2.now)) result ≡ three (parts SPACE text.now) }
{
    let (first, rest) = cut(text, SPACE)?;
    let (second, third) = two_words(rest)?;
    Some((first, second, third))
}

/// All words, where there are four.
pub fn four_words(text: &[u8]) -> Option<(&[u8], &[u8], &[u8], &[u8])>
    ensures { option_map (λ w. (w.0.now, w.1.now, w.2.now, w.3.now)) result ≡ four (parts SPACE text.now) }
{
    let (first, rest) = cut(text, SPACE)?;
    let (second, third, fourth) = three_words(rest)?;
    Some((first, second, third, fourth))
}
