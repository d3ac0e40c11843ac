ghost use Rattle.std.specs.Prelude.{◌≡◌, ◌≤◌, ◌<◌, ◌^◌, length, IfOk, IfSome};
ghost use Rattle.extent_tree.specs.Nodes.{begin_of, last_end, summary};
ghost use Rattle.extent_tree.specs.Normal.{IsRising};
ghost use Rattle.extent_tree.specs.Places.{extent_with};

use layout::Extent;
use std::alloc::{AllocError, Global};
use std::marker::Model;

/// A node: entries that rise. Contracts see it as their list.
#[derive(Debug, Drop)]
pub struct Node {
    entries: Vec<Extent>,
}

impl Model for Node {
    ghost use Rattle.std.specs.Prelude.{List};
    ghost use Rattle.layout.specs.declared.extents.Extent.{Extent};

    ghost Value = { List Extent };

    ghost view = { λ n. n.entries.items };
}

/// What a search came to: the entry that has the block, where there is one, and how many entries were compared with it.
#[derive(Clone, Copy, PartialEq, Eq)]
pub struct Found {
    pub extent: Option<Extent>,
    pub compared: u64,
}

impl Node {
    /// A node of these entries.
    pub fn from_slice(alloc: Global, entries: &[Extent]) -> Result<Node, AllocError>
        ensures { IfOk result (λ n. n ≡ entries.now) }
    {
        let mut copy = Vec::new(alloc);
        copy.extend_from_slice(entries)?;
        Ok(Node { entries: copy })
    }

    /// The entries, in their order.
    pub fn as_slice(&self) -> &[Extent]
        ensures { result.now ≡ self.now }
    {
        &self.entries
    }

    /// Where the first entry begins; 0 where there is none.
    pub fn start(&self) -> u32
        ensures { result ≡ begin_of self.now }
    {
        start_of(&self.entries)
    }

    /// Where the last entry ends; 0 where there is none.
    pub fn end(&self) -> u64
        ensures { result ≡ last_end 0 self.now }
    {
        end_of(&self.entries)
    }

    /// The entry that has a block, by bisection.
    pub fn find(&self, block: u32) -> Found
        requires { IsRising 0 4294967295 self.now }
        ensures extent { result.extent ≡ extent_with block self.now }
        ensures compared { result.compared ≤ length self.now }
        ensures some { 0 < length self.now → 0 < result.compared }
        ensures each_level { IfSome result.extent (λ _. 0 < result.compared) }
    {
        find(&self.entries, block)
    }
}

fn start_of(entries: &[Extent]) -> u32
    ensures { result ≡ begin_of entries.now }
{
    if entries.is_empty() {
        return 0;
    }
    entries[0].logical
}

fn end_of(entries: &[Extent]) -> u64
    ensures { result ≡ last_end 0 entries.now }
{
    if entries.is_empty() {
        return 0;
    }
    let last = entries[entries.len() - 1];
    last.logical as u64 + last.length as u64
}

fn find(entries: &[Extent], block: u32) -> Found
    requires { IsRising 0 4294967295 entries.now }
    ensures extent { result.extent ≡ extent_with block entries.now }
    ensures compared { result.compared ≤ length entries.now }
    ensures some { 0 < length entries.now → 0 < result.compared }
    ensures each_level { IfSome result.extent (λ _. 0 < result.compared) }
{
    let mut low = 0;
    let mut high = entries.len();
    let mut compared = 0;
    'bisect: while low < high {
        let middle = low + (high - low) / 2;
        let entry = entries[middle];
        compared += 1;
        if block < entry.logical {
            high = middle;
        } else if block - entry.logical < entry.length {
            return Found {
                extent: Some(entry),
                compared,
            };
        } else {
            low = middle + 1;
        }
    }
    Found {
        extent: None,
        compared,
    }
}

/// The entry that covers a node of that number.
pub fn summary_of(entries: &[Extent], number: u32) -> Extent
    requires some { 0 < length entries.now }
    requires rising { IsRising 0 4294967295 entries.now }
    ensures { result ≡ summary number entries.now }
{
    let first = entries[0];
    let last = entries[entries.len() - 1];
    Extent {
        logical: first.logical,
        length: last.logical + last.length - first.logical,
        place: number,
    }
}
