//! Names in a message: each ends at a zero byte.

ghost use Rattle.std.specs.Prelude.{◌≡◌, ◌≤◌, ◌++◌, ◌∷◌, [], length, drop, option_map, None, Some, IfSome};
ghost use Rattle.fuse_wire.specs.Names.{HasNoZero, behind_names, EndsWithName, EndsWithNames};

// The name at the front, and what is behind its zero byte; `None` where there is no zero byte.
fn split_name(bytes: &[u8]) -> Option<(&[u8], &[u8])>
    ensures name { IfSome result (λ x. bytes.now ≡ x.0.now ++ 0 ∷ x.1.now) }
    ensures closed { IfSome result (λ x. HasNoZero x.0.now) }
    ensures unclosed { result ≡ None → HasNoZero bytes.now }
{
    match bytes.iter().position(|byte| *byte == 0) {
        Some(len) => Some((&bytes[..len], &bytes[len + 1..])),
        None => None,
    }
}

/// Returns what is behind the first `names` names, each ended by a zero byte; `None` if there are fewer.
pub fn behind_names(names: u32, bytes: &[u8]) -> Option<&[u8]>
    ensures { option_map (λ x. x.now) result ≡ behind_names names bytes.now }
{
    let mut rest = bytes;
    for _ in 0..names {
        match split_name(rest) {
            Some((_, behind)) => rest = behind,
            None => return None,
        }
    }
    Some(rest)
}

// The name that the bytes are, without its zero byte.
fn trim_name(bytes: &[u8]) -> &[u8]
    requires { behind_names 1 bytes.now ≡ Some [] }
    ensures { EndsWithName 0 bytes.now result.now }
{
    &bytes[..bytes.len() - 1]
}

/// Returns the one name that a body has from byte `place` to its end, without its zero byte.
pub fn name_at(place: usize, body: &[u8]) -> &[u8]
    requires within { place ≤ length body.now }
    requires name { behind_names 1 (drop place body.now) ≡ Some [] }
    ensures { EndsWithName place body.now result.now }
{
    trim_name(&body[place..])
}

/// Returns the two names that a body has from byte `place` to its end, without their zero bytes.
pub fn names_at(place: usize, body: &[u8]) -> (&[u8], &[u8])
    requires within { place ≤ length body.now }
    requires names { behind_names 2 (drop place body.now) ≡ Some [] }
    ensures { EndsWithNames place body.now result.0.now result.1.now }
{
    match split_name(&body[place..]) {
        Some((first, behind)) => (first, trim_name(behind)),
        None => unreachable!(),
    }
}
