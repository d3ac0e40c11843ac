//! Tests of the tables' rows, once all nodes have been read.

ghost use Rattle.std.specs.Prelude.{◌≡◌, ◌≢◌, ◌↔◌, ◌<◌, Some, IsTrue, IfErr, OnOk, OnErr};
ghost use Rattle.posix_calls.specs.declared.limits.TheConstants.{ROOT, MAX_INODE};
ghost use Rattle.record_validation.specs.file_graph.Graph.{Graph};
ghost use Rattle.graph_check.specs.declared.defect.Defect.TheVariants as defect;
ghost use Rattle.graph_check.specs.Defects.{HasDirectory, HasDefect};
ghost use Rattle.graph_check.specs.Marks.{is_directory};
ghost use Rattle.graph_check.specs.Rows.{EntriesFit, CountsFit, CountFitsAt, IsCountDefect, total_names};
ghost use Rattle.graph_check.specs.Tables.{HasPlaces, IsRead, head_kind, stored_names};

use crate::defect::{Defect, Finding};
use crate::kinds::{is_directory, is_kind};
use crate::tables::{NameCount, NodeHead, Row, Tables};
use posix_calls::{MAX_INODE, ROOT};
use record_validation::in_file_graph::Kind;

/// Tests that the root is a directory.
pub fn test_root(tables: &Tables) -> Result<(), Finding>
    requires { HasPlaces tables.now }
    ensures fits { OnOk result ((g : Graph) → IsRead g MAX_INODE tables.now → HasDirectory g ROOT) }
    ensures finding { IfErr result (λ f. (g : Graph) → IsRead g MAX_INODE tables.now → HasDefect g f.inode f.defect) }
{
    if is_directory(tables.row(ROOT).head) {
        return Ok(());
    }
    Err(Finding {
        inode: ROOT,
        defect: Defect::NoRoot,
    })
}

/// Tests that each entry names a node of its kind.
pub fn test_entries(tables: &Tables) -> Result<(), Finding>
    requires { HasPlaces tables.now }
    ensures fits { OnOk result ((g : Graph) → IsRead g MAX_INODE tables.now → EntriesFit g) }
    ensures finding { IfErr result (λ f. (g : Graph) → IsRead g MAX_INODE tables.now → HasDefect g f.inode f.defect) }
{
    for place in 0..MAX_INODE + 1 {
        let row = tables.row(place);
        test_kind(row.head, Kind::File, row.files)?;
        test_kind(row.head, Kind::Directory, row.directories)?;
    }
    Ok(())
}

// Tests that what is named as a node of a kind is one.
fn test_kind(head: Option<NodeHead>, kind: Kind, names: NameCount) -> Result<(), Finding>
    ensures fits { OnOk result (0 < names.count → head_kind head ≡ Some kind) }
    ensures some { OnErr result (0 < names.count) }
    ensures other { OnErr result (head_kind head ≢ Some kind) }
    ensures finding { IfErr result (λ f. f ≡ record { inode = names.last; defect = defect.StrayEntry }) }
{
    if names.count == 0 || is_kind(head, kind) {
        return Ok(());
    }
    Err(Finding {
        inode: names.last,
        defect: Defect::StrayEntry,
    })
}

/// Tests the stored counts of names.
pub fn test_counts(tables: &Tables) -> Result<(), Finding>
    requires { HasPlaces tables.now }
    ensures fits { OnOk result ((g : Graph) → IsRead g MAX_INODE tables.now → CountsFit g) }
    ensures finding { IfErr result (λ f. (g : Graph) → IsRead g MAX_INODE tables.now → HasDefect g f.inode f.defect) }
{
    for inode in ROOT..MAX_INODE + 1 {
        test_count(inode, tables.row(inode))?;
    }
    Ok(())
}

// Tests the stored count of names of one inode.
fn test_count(inode: u32, row: Row) -> Result<(), Finding>
    ensures fits { OnOk result (CountFitsAt inode row) }
    ensures finding { IfErr result (λ f. (f.inode ≡ inode) × IsCountDefect inode row f.defect) }
{
    let names = stored_names(row.head);
    if names as u128 != total_names(inode, row) {
        return Err(Finding {
            inode,
            defect: Defect::WrongCount,
        });
    }
    if is_directory(row.head) && names != 1 {
        return Err(Finding {
            inode,
            defect: Defect::NotOneName,
        });
    }
    Ok(())
}

// The names of an inode as its row counts them, in 128 bits since both counts are of 64.
fn total_names(inode: u32, row: Row) -> u128
    ensures { result ≡ total_names inode row }
{
    let names = row.files.count as u128 + row.directories.count as u128;
    if inode == ROOT { names + 1 } else { names }
}

// The stored count of names; what is no node has none.
fn stored_names(head: Option<NodeHead>) -> u32
    ensures { result ≡ stored_names head }
{
    match head {
        Some(head) => head.names,
        None => 0,
    }
}
