ghost use Rattle.std.specs.Prelude.{◌≡◌, ◌⊎◌, ◌==◌, ◌↔◌, All, List, ℕ, true, None, Some, Ok, Err, [], IfOk, IfErr, IsTrue};
ghost use Rattle.std.specs.List.{position};
ghost use Rattle.posix_calls.specs.Name.{is_name};
ghost use Rattle.posix_calls.specs.Path.{components, first_fault, path_names};
ghost use Rattle.posix_calls.specs.FirstName.{first_is_faultless, comes_to_name};

use crate::errno::Errno;
use crate::limits::MAX_PATH;
use crate::name::Name;
use std::alloc::Global;
use std::marker::Model;

const SLASH: u8 = b'/';

/// A path that was read: the names from the root on, none for the root itself. Contracts see it as the list of their bytes.
#[derive(Drop)]
pub struct Path {
    names: Vec<Name>,
}

impl Model for Path {
    ghost Value = { List (List ℕ) };

    ghost view = { λ p. p.names.items };

    ghost invariant = { λ p. All (λ name. is_name name ≡ true) p.names.items };
}

impl Path {
    /// Reads a path: `/`, or one or more names with a `/` before each. What is wrong with it is answered in this order: over
    /// 1,024 bytes, `NameTooLong`; empty, or not beginning with `/`, `Invalid`; then the first bad component decides: empty,
    /// `.`, `..` or with a zero byte, `Invalid`; over 64 bytes, `NameTooLong`. So a `/` at the end is `Invalid`. `NoMemory` may
    /// stand in place of any answer to a path of at most 1,024 bytes that begins with `/` and a name.
    pub fn read(alloc: Global, bytes: &[u8]) -> Result<Path, Errno>
        ensures names { IfOk result (λ path. path_names bytes.now ≡ Ok path) }
        ensures refused { IfErr result (λ errno. (errno ≡ Errno.NoMemory) ⊎ (path_names bytes.now ≡ Err errno)) }
        ensures memory { result ≡ Err Errno.NoMemory → comes_to_name bytes.now ≡ true }
    {
        if bytes.len() > MAX_PATH {
            return Err(Errno::NameTooLong);
        }
        match bytes {
            [SLASH] => Ok(Path {
                names: Vec::new(alloc),
            }),
            [SLASH, rest @ ..] => Ok(Path {
                names: read_components(alloc, rest)?,
            }),
            _ => Err(Errno::Invalid),
        }
    }

    /// The names from the root on.
    pub fn names(&self) -> &[Name]
        ensures names { result.now ≡ self.now }
        ensures valid { All (λ name. is_name name ≡ true) self.now }
    {
        &self.names
    }

    /// Whether it is `/`.
    pub fn is_root(&self) -> bool
        ensures { IsTrue result ↔ (self.now ≡ []) }
    {
        self.names.is_empty()
    }
}

// The names between the slashes, or what is wrong with the first that is none.
fn read_components(alloc: Global, bytes: &[u8]) -> Result<Vec<Name>, Errno>
    ensures names { IfOk result (λ names. names.items ≡ components bytes.now) }
    ensures valid { IfOk result (λ names. All (λ name. is_name name ≡ true) names.items) }
    ensures faultless { IfOk result (λ _. first_fault (components bytes.now) ≡ None) }
    ensures refused { IfErr result (λ errno. (errno ≡ Errno.NoMemory) ⊎ (first_fault (components bytes.now) ≡ Some errno)) }
    ensures memory { result ≡ Err Errno.NoMemory → first_is_faultless (components bytes.now) ≡ true }
{
    let mut names = Vec::new(alloc);
    let mut rest = bytes;
    while let Some(at) = first_slash(rest) {
        names.push(Name::of_component(alloc, &rest[..at])?)?;
        rest = &rest[at + 1..];
    }
    names.push(Name::of_component(alloc, rest)?)?;
    Ok(names)
}

fn first_slash(bytes: &[u8]) -> Option<usize>
    ensures { result ≡ position (λ b. b == 47) bytes.now }
{
    bytes.iter().position(|byte| *byte == SLASH)
}
