//! What a check keeps of the nodes that it has read: nothing that grows with the entries of directories.

ghost use Rattle.std.specs.Prelude.{◌≡◌, ◌+◌, ◌≤◌, ℕ, false, None, replicate, IfOk, length};
ghost use Rattle.graph_check.specs.Marks.{is_marked};
ghost use Rattle.graph_check.specs.Tables.{HasPlaces, IsRead, row_of, place_of};
ghost use Rattle.record_validation.specs.file_graph.Graph.{Graph};
ghost use Rattle.posix_calls.specs.declared.limits.TheConstants.{MAX_INODE};

use posix_calls::MAX_INODE;
use record_validation::in_file_graph::Kind;
use std::alloc::{AllocError, Global};

/// What a node is, and the count of names that it has stored.
#[derive(Clone, Copy)]
pub struct NodeHead {
    pub kind: Kind,
    pub names: u32,
}

/// How many entries name a place as a node of one kind, and the last directory that has such an entry, or 0.
#[derive(Clone, Copy)]
pub struct NameCount {
    pub count: u64,
    pub last: u32,
}

/// Tables by place: the place of an inode is its number, and place 0 is that of all numbers that are none of an inode.
#[derive(Drop)]
pub struct Tables {
    /// The nodes that have been read.
    pub heads: Vec<Option<NodeHead>>,
    /// The entries that name it as a file.
    pub files: Vec<NameCount>,
    /// The entries that name it as a directory.
    pub directories: Vec<NameCount>,
}

/// All that the tables have of one place.
#[derive(Clone, Copy)]
pub struct Row {
    pub head: Option<NodeHead>,
    pub files: NameCount,
    pub directories: NameCount,
}

/// How many places there are.
pub fn place_count() -> usize
    ensures { result ≡ MAX_INODE + 1 }
{
    MAX_INODE as usize + 1
}

impl Tables {
    /// Makes tables of `places` places, before any node has been read.
    pub fn new(alloc: Global, places: usize) -> Result<Self, AllocError>
        ensures read { places ≡ MAX_INODE + 1 → IfOk result (λ t. (g : Graph) → IsRead g 0 t) }
        ensures places { places ≡ MAX_INODE + 1 → IfOk result HasPlaces }
    {
        Ok(Tables {
            heads: new_heads(alloc, places)?,
            files: new_name_counts(alloc, places)?,
            directories: new_name_counts(alloc, places)?,
        })
    }

    /// What they have of a place.
    pub fn row(&self, place: u32) -> Row
        requires places { HasPlaces self.now }
        requires within { place ≤ MAX_INODE }
        ensures { (g : Graph) → IsRead g MAX_INODE self.now → result ≡ row_of g place }
    {
        Row {
            head: self.heads[place as usize],
            files: self.files[place as usize],
            directories: self.directories[place as usize],
        }
    }
}

// Makes `places` places without a node.
fn new_heads(alloc: Global, places: usize) -> Result<Vec<Option<NodeHead>>, AllocError>
    ensures { IfOk result (λ heads. heads.items ≡ replicate places None) }
{
    vec![in alloc; None; places]
}

// Makes `places` places that no entry names.
fn new_name_counts(alloc: Global, places: usize) -> Result<Vec<NameCount>, AllocError>
    ensures { IfOk result (λ counts. counts.items ≡ replicate places (record { count = 0; last = 0 })) }
{
    vec![in alloc; NameCount { count: 0, last: 0 }; places]
}

/// Makes marks of `places` places, none of which is marked.
pub fn new_marks(alloc: Global, places: usize) -> Result<Vec<bool>, AllocError>
    ensures length { IfOk result (λ marks. length marks.items ≡ places) }
    ensures none { IfOk result (λ marks. (i : ℕ) → is_marked marks.items i ≡ false) }
{
    Ok(vec![in alloc; false; places]?)
}

/// The place of an inode by its number.
pub fn place_of(number: u32) -> u32
    ensures is { result ≡ place_of number }
    ensures within { result ≤ MAX_INODE }
{
    if number <= MAX_INODE { number } else { 0 }
}
