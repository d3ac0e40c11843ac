// Names that were met, so that one that comes again is found.
ghost use Rattle.std.specs.Prelude.{◌≡◌, ◌⊎◌, ◌↔◌, ℕ, List, [], MatchBool, IfOk, OnOk};
ghost use Rattle.area_reader.specs.Names.{IsAmong};

use std::alloc::{AllocError, Global};
use std::collections::BTreeSet;
use std::marker::Model;

/// Names in the order of their bytes. Contracts see them as a list.
#[derive(Drop)]
pub struct Names {
    met: BTreeSet<Vec<u8>>,
}

impl Model for Names {
    ghost use Rattle.std.specs.Prelude.{List, ℕ, map};

    ghost Value = { List (List ℕ) };

    ghost view = { λ n. map (λ v. v.items) n.met.keys };
}

impl Names {
    /// No names.
    pub fn new(alloc: Global) -> Names
        ensures { result ≡ [] }
    {
        Names {
            met: BTreeSet::new(alloc),
        }
    }

    /// Adds a name, and tells whether it is a new one. An error where there was no memory for it.
    pub fn add(&mut self, alloc: Global, name: &[u8]) -> Result<bool, AllocError>
        ensures new { IfOk result (λ new. MatchBool new (IsAmong self.old name.now → ⊥) (IsAmong self.old name.now)) }
        ensures names { OnOk result ((n : List ℕ) → IsAmong self.new n ↔ (IsAmong self.old n ⊎ (n ≡ name.now))) }
    {
        let copy = name.to_vec(alloc)?;
        let Ok(new) = self.met.insert(copy) else {
            return Err(AllocError);
        };
        Ok(new)
    }
}
