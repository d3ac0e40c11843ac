ghost use Rattle.std.specs.Prelude.{◌≡◌, ◌<◌, ◌^◌, ℕ, true, false, Some, IsSome, OnOk, OnErr, max};
ghost use Rattle.std.specs.FinMap as fin;
ghost use Rattle.call_effects.specs.file_graph.Plain.{is_drop};
ghost use Rattle.call_effects.specs.log_record.Grammar.{FitsLimits};
ghost use Rattle.call_effects.specs.NodeView.{FileView, DirView, empty_view, in_entries, in_size, view_acted, view_is_dir};
ghost use Rattle.record_validation.specs.Memory.{is_enter};
ghost use Rattle.record_validation.specs.Summary.{view_of_summary};
ghost use Rattle.record_validation.specs.Counts.{counts_of, entry_in, entry_count};
ghost use Rattle.record_validation.specs.NodeAnswers.{entries_of};

use crate::node_counts::NodeCounts;
use call_effects::in_file_graph::{Child, Effect, EntryRoom, Kind, NameMap};
use posix_calls::Name;
use std::alloc::{AllocError, Global};
use std::marker::Model;

/// A node without the bytes of a file. Contracts see it as the view of a node.
#[derive(Drop)]
pub struct NodeSummary {
    pub(crate) names: u32,
    pub(crate) body: SummaryBody,
}

/// What is known of what is in a node.
#[derive(Drop)]
pub enum SummaryBody {
    /// A file of so many bytes.
    File { size: u64 },
    /// A directory with what stands at each of its names.
    Directory { entries: NameMap<Child> },
}

impl Model for NodeSummary {
    ghost use Rattle.call_effects.specs.NodeView.{NodeView};
    ghost use Rattle.record_validation.specs.Summary.{view_of_summary, view_code};

    ghost Value = { NodeView };

    ghost coded = { view_code };

    ghost view = { λ n. view_of_summary n.names n.body };
}

impl NodeSummary {
    /// A file with so many names, of a size in bytes.
    pub fn file(names: u32, size: u64) -> Self
        ensures { result ≡ FileView names size }
    {
        NodeSummary {
            names,
            body: SummaryBody::File { size },
        }
    }

    /// A directory with so many names, and what stands at each name in it.
    pub fn directory(names: u32, entries: NameMap<Child>) -> Self
        ensures { result ≡ DirView names entries }
    {
        NodeSummary {
            names,
            body: SummaryBody::Directory { entries },
        }
    }

    /// An empty node of a kind, without a name.
    pub fn empty(alloc: Global, kind: Kind) -> Self
        ensures { result ≡ empty_view kind }
    {
        match kind {
            Kind::File => NodeSummary::file(0, 0),
            Kind::Directory => NodeSummary::directory(0, NameMap::new(alloc)),
        }
    }

    /// Its numbers alone.
    pub fn counts(&self) -> NodeCounts
        ensures is { result ≡ counts_of self.now }
        ensures few { entry_count (Some result) < 2 ^ 32 }
    {
        match &self.body {
            SummaryBody::File { size } => NodeCounts::File {
                names: self.names,
                size: *size,
            },
            SummaryBody::Directory { entries } => NodeCounts::Directory {
                names: self.names,
                entries: entries.len() as u64,
            },
        }
    }

    /// Whether there is an entry of a name in it; none where it is no directory.
    pub fn entry_in(&self, name: &[u8]) -> Option<bool>
        ensures { result ≡ entry_in name.now (Some self.now) }
    {
        match &self.body {
            SummaryBody::File { .. } => None,
            SummaryBody::Directory { entries } => Some(has_entry(entries, name)),
        }
    }

    /// Enters a name into a directory, in place of what stood at it, in room that was taken ahead for more entries than there are; a file stays
    /// as it was. It takes no memory.
    pub fn enter(&mut self, room: EntryRoom<Child>, name: Name, child: Child)
        requires { fin.len (entries_of self.old) < room }
        ensures { self.new ≡ in_entries (λ es. fin.insert es name child) self.old }
    {
        match &mut self.body {
            SummaryBody::File { .. } => {}
            SummaryBody::Directory { entries } => entries.put_into(room, name, child),
        }
    }

    /// Puts something in place of what stands at a name of a directory. It takes no memory.
    pub fn set(&mut self, name: &[u8], child: Child)
        requires { IsSome (fin.get (entries_of self.old) name.now) }
        ensures { self.new ≡ in_entries (λ es. fin.insert es name.now child) self.old }
    {
        match &mut self.body {
            SummaryBody::File { .. } => {}
            SummaryBody::Directory { entries } => entries.set(name, child),
        }
    }

    /// Does what an effect other than a Drop does to the node by itself, which is nothing of a Swap, where the effect keeps the limits of the format. Where there is no
    /// memory for it, the summary stays as it was; none is asked for but to enter a name into a directory.
    pub fn act(&mut self, alloc: Global, effect: &Effect) -> Result<(), AllocError>
        requires fits { FitsLimits effect.now }
        requires kept { is_drop effect.now ≡ false }
        ensures ok { OnOk result (Some self.new ≡ view_acted effect.now (Some self.old)) }
        ensures err { OnErr result (self.new ≡ self.old) }
        ensures memory { OnErr result (is_enter effect.now ≡ true) }
        ensures directory { OnErr result (view_is_dir self.old ≡ true) }
    {
        match effect {
            Effect::Make { kind, .. } => {
                *self = NodeSummary::empty(alloc, *kind);
                Ok(())
            }
            Effect::Enter {
                inode,
                kind,
                name,
                ..
            } => put_entry(alloc, &mut self.body, name, Child::new(*inode, *kind)),
            Effect::Leave { name, .. } => {
                remove_entry(&mut self.body, name);
                Ok(())
            }
            Effect::Names { names, .. } => {
                self.names = *names;
                Ok(())
            }
            Effect::Size { size, .. } => {
                resize(&mut self.body, *size);
                Ok(())
            }
            Effect::Bytes { at, bytes, .. } => {
                grow(&mut self.body, *at + bytes.as_slice().len() as u64);
                Ok(())
            }
            Effect::Drop { .. } => Ok(()),
            Effect::Swap { .. } => Ok(()),
        }
    }
}

fn put_entry(
    alloc: Global,
    body: &mut SummaryBody,
    name: &Name,
    child: Child,
) -> Result<(), AllocError>
    ensures ok { OnOk result ((names : ℕ) → view_of_summary names body.new ≡ in_entries (λ es. fin.insert es name.now child) (view_of_summary names body.old)) }
    ensures err { OnErr result (body.new ≡ body.old) }
    ensures directory { OnErr result ((names : ℕ) → view_is_dir (view_of_summary names body.old) ≡ true) }
{
    match body {
        SummaryBody::File { .. } => Ok(()),
        SummaryBody::Directory { entries } => entries.put(name.copy(alloc)?, child),
    }
}

fn remove_entry(body: &mut SummaryBody, name: &Name)
    ensures { (names : ℕ) → view_of_summary names body.new ≡ in_entries (λ es. fin.remove es name.now) (view_of_summary names body.old) }
{
    match body {
        SummaryBody::File { .. } => {}
        SummaryBody::Directory { entries } => entries.remove(name.as_slice()),
    }
}

fn resize(body: &mut SummaryBody, len: u64)
    ensures { (names : ℕ) → view_of_summary names body.new ≡ in_size (λ old. len) (view_of_summary names body.old) }
{
    match body {
        SummaryBody::File { size } => *size = len,
        SummaryBody::Directory { .. } => {}
    }
}

fn grow(body: &mut SummaryBody, end: u64)
    ensures { (names : ℕ) → view_of_summary names body.new ≡ in_size (λ old. max old end) (view_of_summary names body.old) }
{
    match body {
        SummaryBody::File { size } => *size = (*size).max(end),
        SummaryBody::Directory { .. } => {}
    }
}

fn has_entry(entries: &NameMap<Child>, name: &[u8]) -> bool
    ensures { result ≡ fin.contains_key entries.now name.now }
{
    match entries.get(name) {
        Some(_) => true,
        None => false,
    }
}
