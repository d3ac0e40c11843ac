// Numbers in decimal digits.
ghost use Rattle.std.specs.Prelude.{◌≡◌, option_map, min};
ghost use Rattle.script.specs.Script.{digit, number, ordinal, client, descriptor};

use posix_calls::MAX_CLIENTS;

/// The number of some decimal digits, up to the greatest `u64`.
pub fn number_of(word: &[u8]) -> Option<u64>
    ensures { result ≡ number word.now }
{
    if word.is_empty() {
        return None;
    }
    let mut value = 0u64;
    for byte in word {
        let digit = digit_of(*byte)?;
        value = value.checked_mul(10)?.checked_add(digit)?;
    }
    Some(value)
}

fn digit_of(byte: u8) -> Option<u64>
    ensures { result ≡ digit byte }
{
    match byte {
        b'0'..=b'9' => Some(u64::from(byte - b'0')),
        _ => None,
    }
}

/// A number from 1 on.
pub fn ordinal_of(word: &[u8]) -> Option<u64>
    ensures { result ≡ ordinal word.now }
{
    let number = number_of(word)?;
    if number < 1 {
        return None;
    }
    Some(number)
}

/// A client's number, 1 to 8.
pub fn client_of(word: &[u8]) -> Option<u32>
    ensures { result ≡ client word.now }
{
    let number = number_of(word)?;
    if number < 1 || u64::from(MAX_CLIENTS) < number {
        return None;
    }
    Some(number as u32)
}

/// A descriptor's number. One past `u32` is taken for the greatest `u32`: neither is ever open, so both are answered `EBADF`.
pub fn descriptor_of(word: &[u8]) -> Option<u32>
    ensures { result ≡ descriptor word.now }
{
    let number = number_of(word)?;
    Some(u32::try_from(number).unwrap_or(u32::MAX))
}
