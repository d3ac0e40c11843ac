//! Directories are marked as reached: the root, and each whose parent is marked.

ghost use Rattle.std.specs.Prelude.{◌≡◌, ◌+◌, ◌<◌, ◌≤◌, ℕ, true, false, Some, IfErr, OnOk, length, slice_set, if◌then◌else◌};
ghost use Rattle.posix_calls.specs.declared.limits.TheConstants.{ROOT, MAX_INODE};
ghost use Rattle.record_validation.specs.file_graph.Graph.{Graph};
ghost use Rattle.record_validation.specs.log_record.Grammar.{IsInode};
ghost use Rattle.graph_check.specs.declared.defect.Defect.TheVariants.{Unreachable};
ghost use Rattle.graph_check.specs.Defects.{HasDirectory};
ghost use Rattle.graph_check.specs.Marks.{is_marked, parent_in, AllClimb, IsClosed, IsClosedAt, HasMarkedParent, unmarked_count};
ghost use Rattle.graph_check.specs.Tables.{HasPlaces, IsRead};

use crate::defect::{Defect, Finding};
use crate::kinds::is_directory;
use crate::tables::{Row, Tables};
use posix_calls::{MAX_INODE, ROOT};

/// Marks the directories to which steps from parent to child lead from the root; none is marked before.
pub fn mark_reached(tables: &Tables, marks: &mut [bool])
    requires places { HasPlaces tables.now }
    requires marks { length marks.old ≡ MAX_INODE + 1 }
    requires none { (i : ℕ) → is_marked marks.old i ≡ false }
    ensures places { length marks.new ≡ MAX_INODE + 1 }
    ensures root { is_marked marks.new ROOT ≡ true }
    ensures climb { (g : Graph) → IsRead g MAX_INODE tables.now → AllClimb g marks.new }
    ensures closed { (g : Graph) → IsRead g MAX_INODE tables.now → IsClosed g marks.new }
{
    mark_root(marks);
    while spread_marks(tables, marks) {}
}

// Marks the root, where nothing is marked before.
#[tactic(auto, using(crate::proofs::Marks::first_climb, crate::proofs::Marks::first_root))]
fn mark_root(marks: &mut [bool])
    requires marks { length marks.old ≡ MAX_INODE + 1 }
    requires none { (i : ℕ) → is_marked marks.old i ≡ false }
    ensures places { length marks.new ≡ MAX_INODE + 1 }
    ensures root { is_marked marks.new ROOT ≡ true }
    ensures climb { (g : Graph) → AllClimb g marks.new }
{
    marks[ROOT as usize] = true;
}

// Marks each directory whose parent is marked. Whether one has been marked.
fn spread_marks(tables: &Tables, marks: &mut [bool]) -> bool
    requires places { HasPlaces tables.now }
    requires marks { length marks.old ≡ MAX_INODE + 1 }
    ensures places { length marks.new ≡ MAX_INODE + 1 }
    ensures root { is_marked marks.old ROOT ≡ true → is_marked marks.new ROOT ≡ true }
    ensures climb { (g : Graph) → IsRead g MAX_INODE tables.now → AllClimb g marks.old → AllClimb g marks.new }
    ensures fewer { result ≡ true → unmarked_count marks.new < unmarked_count marks.old }
    ensures closed { result ≡ false → (g : Graph) → IsRead g MAX_INODE tables.now → IsClosed g marks.new }
{
    let mut has_spread = false;
    for inode in ROOT..MAX_INODE + 1 {
        if mark_child(tables, marks, inode) {
            has_spread = true;
        }
    }
    has_spread
}

// Marks a directory if its parent is marked. Whether it was not marked before, and is now.
fn mark_child(tables: &Tables, marks: &mut [bool], inode: u32) -> bool
    requires places { HasPlaces tables.now }
    requires marks { length marks.old ≡ MAX_INODE + 1 }
    requires within { inode ≤ MAX_INODE }
    ensures marked { marks.new ≡ (if result then slice_set marks.old inode true else marks.old) }
    ensures climbs { result ≡ true → (g : Graph) → IsRead g MAX_INODE tables.now → HasMarkedParent g marks.old inode }
    ensures was { result ≡ true → is_marked marks.old inode ≡ false }
    ensures closed { result ≡ false → (g : Graph) → IsRead g MAX_INODE tables.now → IsClosedAt g marks.old inode }
{
    if is_marked(marks, inode) {
        return false;
    }
    match parent_in(tables.row(inode)) {
        Some(parent) if is_marked(marks, parent) => {
            marks[inode as usize] = true;
            true
        }
        _ => false,
    }
}

// The parent by a directory's row: the last directory that has an entry of it; a file has none.
fn parent_in(row: Row) -> Option<u32>
    ensures { result ≡ parent_in row }
{
    if is_directory(row.head) && row.directories.count > 0 {
        return Some(row.directories.last);
    }
    None
}

// Whether a place is marked.
fn is_marked(marks: &[bool], place: u32) -> bool
    ensures { result ≡ is_marked marks.now place }
{
    match marks.get(place as usize) {
        Some(mark) => *mark,
        None => false,
    }
}

/// Tests that every directory is marked.
pub fn test_reached(tables: &Tables, marks: &[bool]) -> Result<(), Finding>
    requires { HasPlaces tables.now }
    ensures fits { OnOk result ((g : Graph) → IsRead g MAX_INODE tables.now → (i : ℕ) → IsInode i → HasDirectory g i → is_marked marks.now i ≡ true) }
    ensures defect { IfErr result (λ f. f.defect ≡ Unreachable) }
    ensures inode { IfErr result (λ f. IsInode f.inode) }
    ensures directory { IfErr result (λ f. (g : Graph) → IsRead g MAX_INODE tables.now → HasDirectory g f.inode) }
    ensures unmarked { IfErr result (λ f. is_marked marks.now f.inode ≡ false) }
{
    for inode in ROOT..MAX_INODE + 1 {
        if !is_reached(tables, marks, inode) {
            return Err(Finding {
                inode,
                defect: Defect::Unreachable,
            });
        }
    }
    Ok(())
}

// Whether an inode is marked, or is none of a directory.
fn is_reached(tables: &Tables, marks: &[bool], inode: u32) -> bool
    requires places { HasPlaces tables.now }
    requires low { ROOT ≤ inode }
    requires high { inode ≤ MAX_INODE }
    ensures reached { result ≡ true → (g : Graph) → IsRead g MAX_INODE tables.now → HasDirectory g inode → is_marked marks.now inode ≡ true }
    ensures directory { result ≡ false → (g : Graph) → IsRead g MAX_INODE tables.now → HasDirectory g inode }
    ensures unmarked { result ≡ false → is_marked marks.now inode ≡ false }
{
    if is_directory(tables.row(inode).head) {
        return is_marked(marks, inode);
    }
    true
}
