//! What a call sees of a node that is known without its bytes.

ghost use Rattle.std.specs.Prelude.{◌≡◌, true, Some, nat_lt, IfOk, IfErr, option_map};
ghost use Rattle.std.specs.FinMap as fin;
ghost use Rattle.call_effects.specs.file_graph.Plain.{pairs};
ghost use Rattle.posix_calls.specs.Answers.{entry_in, count_in, listed_in, description_of};
ghost use Rattle.posix_calls.specs.Walk.{names_seen, size_seen};
ghost use Rattle.call_effects.specs.NodeView.{view_is_dir};
ghost use Rattle.record_validation.specs.NodeAnswers.{entries_of, seen_node, size_of};

use crate::node_summary::{NodeSummary, SummaryBody};
use call_effects::in_file_graph::{Child, PlainEntry};
use posix_calls::{Description, Names};
use std::alloc::{AllocError, Global};

impl NodeSummary {
    /// Whether it is of a directory.
    pub fn is_dir(&self) -> bool
        ensures { result ≡ view_is_dir self.now }
    {
        match &self.body {
            SummaryBody::File { .. } => false,
            SummaryBody::Directory { .. } => true,
        }
    }

    /// What a directory has under a name.
    pub fn child(&self, name: &[u8]) -> Option<Child>
        ensures there { result ≡ fin.get (entries_of self.now) name.now }
        ensures inode { option_map (λ e. e.0) result ≡ entry_in name.now (seen_node self.now) }
    {
        match &self.body {
            SummaryBody::File { .. } => None,
            SummaryBody::Directory { entries } => entries.get(name).copied(),
        }
    }

    /// The entries of a directory, in the order of their names' bytes.
    pub fn entries(&self) -> &[PlainEntry]
        ensures { pairs result.now ≡ fin.entries (entries_of self.now) }
    {
        match &self.body {
            SummaryBody::File { .. } => &[],
            SummaryBody::Directory { entries } => entries.as_slice(),
        }
    }

    /// How many entries a directory has.
    pub fn entry_count(&self) -> u32
        ensures entries { result ≡ fin.len (entries_of self.now) }
        ensures shown { result ≡ count_in (seen_node self.now) }
    {
        match &self.body {
            SummaryBody::File { .. } => 0,
            SummaryBody::Directory { entries } => entries.len(),
        }
    }

    /// The names in a directory, in the order of their bytes. No memory is wanted where there is none.
    pub fn entry_names(&self, alloc: Global) -> Result<Names, AllocError>
        ensures names { IfOk result (λ names. names ≡ listed_in (seen_node self.now)) }
        ensures memory { IfErr result (λ _. nat_lt 0 (count_in (seen_node self.now)) ≡ true) }
    {
        match &self.body {
            SummaryBody::File { .. } => Ok(Names::from_vec(Vec::new(alloc))),
            SummaryBody::Directory { entries } => entries.names(alloc),
        }
    }

    /// How many bytes it has, if it is a file.
    pub fn size(&self) -> Option<u64>
        ensures { result ≡ size_of self.now }
    {
        match &self.body {
            SummaryBody::File { size } => Some(*size),
            SummaryBody::Directory { .. } => None,
        }
    }

    /// How many bytes a file has; a directory has none.
    pub fn file_size(&self) -> u64
        ensures { result ≡ size_seen (seen_node self.now) }
    {
        match &self.body {
            SummaryBody::File { size } => *size,
            SummaryBody::Directory { .. } => 0,
        }
    }

    /// How many names a file has; a directory has none.
    pub fn file_names(&self) -> u32
        ensures { result ≡ names_seen (seen_node self.now) }
    {
        match &self.body {
            SummaryBody::File { .. } => self.names,
            SummaryBody::Directory { .. } => 0,
        }
    }

    /// What there is to say of the node.
    pub fn describe(&self) -> Description
        ensures { Some result ≡ description_of (seen_node self.now) }
    {
        match &self.body {
            SummaryBody::File { size } => Description::File {
                size: *size,
                names: self.names,
            },
            SummaryBody::Directory { entries } => Description::Dir {
                entries: entries.len(),
            },
        }
    }
}
