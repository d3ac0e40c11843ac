//! The kind of the node at an inode.

ghost use Rattle.std.specs.Prelude.{◌≡◌, ◌↔◌, Some, IsTrue};
ghost use Rattle.graph_check.specs.Marks.{is_directory};
ghost use Rattle.graph_check.specs.Tables.{same_kind, head_kind};

use crate::tables::NodeHead;
use record_validation::in_file_graph::Kind;

/// Whether two kinds are the same.
pub fn same_kind(a: Kind, b: Kind) -> bool
    ensures { result ≡ same_kind a b }
{
    a == b
}

/// Whether there is a node of this kind.
pub fn is_kind(head: Option<NodeHead>, kind: Kind) -> bool
    ensures { IsTrue result ↔ head_kind head ≡ Some kind }
{
    match head {
        Some(head) => same_kind(head.kind, kind),
        None => false,
    }
}

/// Whether there is a directory.
pub fn is_directory(head: Option<NodeHead>) -> bool
    ensures { result ≡ is_directory head }
{
    match head {
        Some(head) => match head.kind {
            Kind::File => false,
            Kind::Directory => true,
        },
        None => false,
    }
}
