ghost use Rattle.std.specs.Prelude.{◌≡◌};
ghost use Rattle.graph_change.specs.Bytes.{grown_to, sized_to, length_after};
ghost use Rattle.graph_change.specs.View.{new_length};

use file_graph::Kind;

/// What the rest of a change starts from.
#[derive(Clone, Copy, PartialEq, Eq)]
pub enum NodeBase {
    /// The node that was there.
    Kept,
    /// A new empty node.
    Made { kind: Kind },
    /// No node.
    Gone,
}

/// The length that a file gets, in bytes.
#[derive(Clone, Copy, PartialEq, Eq)]
pub enum NodeLength {
    /// Not cut, and at least so long.
    Grown { to: u64 },
    /// Cut to the least of the lengths that it had, and so long in the end.
    Cut { least: u64, to: u64 },
}

impl NodeLength {
    /// How long a file of that length is after it.
    pub fn after(self, old: u64) -> u64
        ensures { result ≡ length_after (new_length self) old }
    {
        match self {
            NodeLength::Grown { to } => old.max(to),
            NodeLength::Cut { to, .. } => to,
        }
    }

    /// After a write that ends there.
    pub fn after_write(self, end: u64) -> Self
        ensures { new_length result ≡ grown_to end (new_length self) }
    {
        match self {
            NodeLength::Grown { to } => NodeLength::Grown { to: to.max(end) },
            NodeLength::Cut { least, to } => NodeLength::Cut {
                least,
                to: to.max(end),
            },
        }
    }

    /// After it is set.
    pub fn after_resize(self, size: u64) -> Self
        ensures { new_length result ≡ sized_to size (new_length self) }
    {
        match self {
            NodeLength::Grown { .. } => NodeLength::Cut {
                least: size,
                to: size,
            },
            NodeLength::Cut { least, .. } => NodeLength::Cut {
                least: least.min(size),
                to: size,
            },
        }
    }
}
