ghost use Rattle.std.specs.List.{list_any};
ghost use Rattle.std.specs.Prelude.{◌≡◌, ◌⊎◌, ◌==◌, ◌||◌, List, ℕ, true, false, None, Some, Err, IfOk, IfErr, IsTrue};
ghost use Rattle.posix_calls.specs.Name.{is_name};
ghost use Rattle.posix_calls.specs.Path.{is_dots, fault};
ghost use Rattle.posix_calls.specs.FirstName.{has_no_slash};

use crate::errno::Errno;
use crate::limits::MAX_NAME;
use std::alloc::{AllocError, Global};
use std::marker::Model;

const SLASH: u8 = b'/';

/// The name of a directory entry: 1 to 64 bytes, none of them `/` or zero, and neither `.` nor `..`.
/// Contracts see it as the list of its bytes.
#[derive(Debug, Drop)]
pub struct Name {
    bytes: Vec<u8>,
}

impl Model for Name {
    ghost Value = { List ℕ };

    ghost view = { λ n. n.bytes.items };

    ghost invariant = { λ n. is_name n.bytes.items ≡ true };
}

impl Name {
    /// The name that these bytes are; bytes that are no name are handed back.
    pub fn from_vec(bytes: Vec<u8>) -> Result<Self, Vec<u8>>
        ensures name { IfOk result (λ name. (name ≡ bytes.items) × (is_name bytes.items ≡ true)) }
        ensures refused { IfErr result (λ back. (back ≡ bytes) × (is_name bytes.items ≡ false)) }
    {
        if !Name::is_valid(&bytes) {
            return Err(bytes);
        }
        Ok(Name { bytes })
    }

    /// Whether these bytes are a name.
    pub fn is_valid(bytes: &[u8]) -> bool
        ensures { result ≡ is_name bytes.now }
    {
        if bytes.is_empty() || bytes.len() > MAX_NAME {
            return false;
        }
        !has_bad_byte(bytes) && !is_dots(bytes)
    }

    // The name that a component of a path is, or what is wrong with it.
    pub(crate) fn of_component(alloc: Global, part: &[u8]) -> Result<Self, Errno>
        requires { has_no_slash part.now ≡ true }
        ensures name { IfOk result (λ name. name ≡ part.now) }
        ensures valid { IfOk result (λ name. is_name name ≡ true) }
        ensures faultless { IfOk result (λ _. fault part.now ≡ None) }
        ensures refused { IfErr result (λ errno. (errno ≡ Errno.NoMemory) ⊎ (fault part.now ≡ Some errno)) }
        ensures memory { result ≡ Err Errno.NoMemory → fault part.now ≡ None }
    {
        if part.is_empty() || is_dots(part) || has_zero(part) {
            return Err(Errno::Invalid);
        }
        if part.len() > MAX_NAME {
            return Err(Errno::NameTooLong);
        }
        Ok(Name {
            bytes: part.to_vec(alloc)?,
        })
    }

    /// A copy of it.
    pub fn copy(&self, alloc: Global) -> Result<Self, AllocError>
        ensures { IfOk result (λ copy. copy ≡ self.now) }
    {
        Ok(Name {
            bytes: self.bytes.to_vec(alloc)?,
        })
    }

    /// The vector of its bytes.
    pub fn into_vec(self) -> Vec<u8>
        ensures bytes { result.items ≡ self }
        ensures name { is_name self ≡ true }
    {
        self.bytes
    }

    /// The bytes of the name.
    pub fn as_slice(&self) -> &[u8]
        ensures bytes { result.now ≡ self.now }
        ensures name { is_name self.now ≡ true }
    {
        &self.bytes
    }
}

// A zero byte would end the name in C, and a slash ends a component.
fn has_bad_byte(bytes: &[u8]) -> bool
    ensures { result ≡ list_any (λ b. (b == 0) || (b == 47)) bytes.now }
{
    bytes.iter().any(|byte| *byte == 0 || *byte == SLASH)
}

fn has_zero(bytes: &[u8]) -> bool
    ensures { result ≡ list_any (λ b. b == 0) bytes.now }
{
    bytes.iter().any(|byte| *byte == 0)
}

// `.` and `..`
fn is_dots(bytes: &[u8]) -> bool
    ensures { result ≡ is_dots bytes.now }
{
    match bytes {
        [b'.'] => true,
        [b'.', b'.'] => true,
        _ => false,
    }
}
