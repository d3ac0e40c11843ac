ghost use Rattle.std.specs.Prelude.{◌≡◌};
ghost use Rattle.libfs.specs.Lives.{is_buried, is_settled};

use crate::fate::Found;

/// How far a client's life has come.
#[derive(Clone, Copy, Debug, PartialEq, Eq)]
pub enum Life {
    /// It asks calls.
    Alive,
    /// It asks none any more: all that it held stays, and its begun call is not settled.
    Dead,
    /// What became of its call is found, and all that it had open is closed: its regions are digested and wiped.
    Settled { found: Found },
    /// The kernel's book has nothing of it, and it holds no lease: a new client may take its seat.
    Buried { found: Found },
}

impl Life {
    /// Whether its call is settled, and it is not buried.
    pub fn is_settled(self) -> bool
        ensures { result ≡ is_settled self }
    {
        matches!(self, Life::Settled { .. })
    }

    /// Whether it is buried.
    pub fn is_buried(self) -> bool
        ensures { result ≡ is_buried self }
    {
        matches!(self, Life::Buried { .. })
    }
}
