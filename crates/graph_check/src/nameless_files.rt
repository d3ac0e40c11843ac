//! The files without names.

ghost use Rattle.std.specs.Prelude.{◌≡◌, IfOk};
ghost use Rattle.posix_calls.specs.declared.limits.TheConstants.{MAX_INODE};
ghost use Rattle.record_validation.specs.file_graph.Graph.{Graph};
ghost use Rattle.graph_check.specs.Nameless.{AreNameless, is_nameless_head};
ghost use Rattle.graph_check.specs.Tables.{HasPlaces, IsRead};

use crate::tables::{NodeHead, Tables};
use posix_calls::{MAX_INODE, ROOT};
use record_validation::in_file_graph::Kind;
use std::alloc::{AllocError, Global};

/// Lists the inodes of the files whose stored count of names is 0, the least first.
pub fn list_nameless(alloc: Global, tables: &Tables) -> Result<Vec<u32>, AllocError>
    requires { HasPlaces tables.now }
    ensures { IfOk result (λ inodes. (g : Graph) → IsRead g MAX_INODE tables.now → AreNameless g inodes.items) }
{
    let mut inodes = Vec::new(alloc);
    for inode in ROOT..MAX_INODE + 1 {
        if is_nameless_head(tables.row(inode).head) {
            inodes.push(inode)?;
        }
    }
    Ok(inodes)
}

// Whether there is a file without a name.
fn is_nameless_head(head: Option<NodeHead>) -> bool
    ensures { result ≡ is_nameless_head head }
{
    match head {
        Some(head) => match head.kind {
            Kind::File => head.names == 0,
            Kind::Directory => false,
        },
        None => false,
    }
}
