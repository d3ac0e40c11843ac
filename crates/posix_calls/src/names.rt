ghost use Rattle.std.specs.Prelude.{◌≡◌, List, ℕ, length};

use crate::name::Name;
use std::marker::Model;

/// Names of entries, such as those of a directory that was listed. Contracts see them as the list of their bytes.
#[derive(Debug, Drop)]
pub struct Names {
    names: Vec<Name>,
}

impl Model for Names {
    ghost Value = { List (List ℕ) };

    ghost view = { λ n. n.names.items };
}

impl Names {
    /// The names of a vector, which it keeps.
    pub fn from_vec(names: Vec<Name>) -> Self
        ensures { result ≡ names.items }
    {
        Names { names }
    }

    /// The names as a slice.
    pub fn as_slice(&self) -> &[Name]
        ensures { result.now ≡ self.now }
    {
        &self.names
    }

    /// The vector of the names.
    pub fn into_vec(self) -> Vec<Name>
        ensures { result.items ≡ self }
    {
        self.names
    }

    /// How many names there are.
    pub fn len(&self) -> usize
        ensures { result ≡ length self.now }
    {
        self.names.len()
    }
}
