// Fields at the front of bytes.
ghost use Rattle.std.specs.Prelude.{◌≡◌, option_map};
ghost use Rattle.layout.specs.Bytes.{text_at, are_zero};

/// Returns what is behind `text`; `None` if the bytes begin otherwise.
pub fn text_of<'a>(text: &[u8], bytes: &'a [u8]) -> Option<&'a [u8]>
    ensures { option_map (λ x. x.now) result ≡ text_at text.now bytes.now }
{
    bytes.strip_prefix(text)
}

/// Whether all bytes are zero.
pub fn are_zero(bytes: &[u8]) -> bool
    ensures { result ≡ are_zero bytes.now }
{
    bytes.iter().all(|byte| *byte == 0)
}
