// What is printed of bytes and names.
ghost use Rattle.std.specs.Prelude.{◌≡◌, ◌==◌, ◌≤◌, length};
ghost use Rattle.std.specs.List.{prefix_len};
ghost use Rattle.script.specs.Script.{is_plain};

/// How many of the bytes in front are this one.
pub fn run_len(byte: u8, bytes: &[u8]) -> usize
    ensures count { result ≡ prefix_len (λ b. b == byte) bytes.now }
    ensures within { result ≤ length bytes.now }
{
    let mut count = 0;
    while count < bytes.len() && bytes[count] == byte {
        count += 1;
    }
    count
}

/// Whether a byte of a name is printed as it is.
pub fn is_plain(byte: u8) -> bool
    ensures { result ≡ is_plain byte }
{
    (0x21..=0x7e).contains(&byte) && byte != b'%'
}
