ghost use Rattle.std.specs.Prelude.{◌≡◌, ◌+◌, ◌-◌, ◌≤◌, ◌<◌, ◌^◌, Some, max, option_map, if◌then◌else◌};
ghost use Rattle.posix_calls.specs.Units.{file_units, directory_units};
ghost use Rattle.call_effects.specs.log_record.Grammar.{FitsLimits};
ghost use Rattle.record_validation.specs.Good.{is_within};
ghost use Rattle.record_validation.specs.Counts.{counts_acted, counts_cost, empty_counts, entry_count, in_count, in_length, with_count};

use call_effects::in_file_graph::{Effect, Kind};
use posix_calls::{MAX_ENTRIES, MAX_FILE, MAX_NAMES, UNIT_BYTES, UNIT_ENTRIES};

/// A node by numbers alone: what tells its cost, and whether it keeps the limits.
#[derive(Clone, Copy, Debug, PartialEq, Eq)]
pub enum NodeCounts {
    /// A file with so many names, of a size in bytes.
    File { names: u32, size: u64 },
    /// A directory with so many names, and so many entries in it.
    Directory { names: u32, entries: u64 },
}

/// The units of what has these numbers; none where there is no node.
pub fn cost(counts: Option<NodeCounts>) -> u64
    ensures is { result ≡ counts_cost counts }
    ensures small { result < 2 ^ 60 }
{
    match counts {
        None => 0,
        Some(NodeCounts::File { size, .. }) => file_units(size),
        Some(NodeCounts::Directory { entries, .. }) => directory_units(entries),
    }
}

// One, and one for each block of bytes that is begun.
fn file_units(size: u64) -> u64
    ensures is { result ≡ file_units size }
    ensures small { result < 2 ^ 60 }
{
    let whole = size / UNIT_BYTES as u64;
    if size % UNIT_BYTES as u64 == 0 {
        1 + whole
    } else {
        2 + whole
    }
}

// One, and one for each block of entries that is begun.
fn directory_units(entries: u64) -> u64
    ensures is { result ≡ directory_units entries }
    ensures small { result < 2 ^ 60 }
{
    let whole = entries / UNIT_ENTRIES as u64;
    if entries % UNIT_ENTRIES as u64 == 0 {
        1 + whole
    } else {
        2 + whole
    }
}

/// The numbers after an effect on the inode, where it is told whether there was an entry of the name that the effect enters or
/// takes out.
pub fn apply_effect(counts: Option<NodeCounts>, effect: &Effect, was: bool) -> Option<NodeCounts>
    requires fits { FitsLimits effect.now }
    requires few { entry_count counts ≤ 4294967303 }
    ensures is { result ≡ counts_acted effect.now was counts }
    ensures few { entry_count result ≤ entry_count counts + 1 }
{
    match effect {
        Effect::Make { kind, .. } => Some(empty(*kind)),
        Effect::Enter { .. } => with_entry(counts, was),
        Effect::Leave { .. } => without_entry(counts, was),
        Effect::Names { names, .. } => with_names(counts, *names),
        Effect::Size { size, .. } => with_size(counts, *size),
        Effect::Bytes { at, bytes, .. } => with_growth(counts, *at + bytes.as_slice().len() as u64),
        Effect::Drop { .. } => None,
        Effect::Swap { .. } => counts,
    }
}

// The numbers of a new node.
fn empty(kind: Kind) -> NodeCounts
    ensures is { result ≡ empty_counts kind }
    ensures few { entry_count (Some result) ≤ 0 }
{
    match kind {
        Kind::File => NodeCounts::File { names: 0, size: 0 },
        Kind::Directory => NodeCounts::Directory {
            names: 0,
            entries: 0,
        },
    }
}

// With a name entered, which was there or not.
fn with_entry(counts: Option<NodeCounts>, was: bool) -> Option<NodeCounts>
    requires { entry_count counts ≤ 4294967303 }
    ensures is { result ≡ option_map (in_count (λ n. if was then n else n + 1)) counts }
    ensures few { entry_count result ≤ entry_count counts + 1 }
{
    match counts {
        Some(NodeCounts::Directory { names, entries }) => Some(NodeCounts::Directory {
            names,
            entries: if was { entries } else { entries + 1 },
        }),
        other => other,
    }
}

// With a name taken out, which was there or not.
fn without_entry(counts: Option<NodeCounts>, was: bool) -> Option<NodeCounts>
    ensures is { result ≡ option_map (in_count (λ n. if was then n - 1 else n)) counts }
    ensures few { entry_count result ≤ entry_count counts }
{
    match counts {
        Some(NodeCounts::Directory { names, entries }) => Some(NodeCounts::Directory {
            names,
            entries: if was {
                entries.saturating_sub(1)
            } else {
                entries
            },
        }),
        other => other,
    }
}

// With another number of names.
fn with_names(counts: Option<NodeCounts>, count: u32) -> Option<NodeCounts>
    ensures is { result ≡ option_map (with_count count) counts }
    ensures few { entry_count result ≤ entry_count counts }
{
    match counts {
        Some(NodeCounts::File { size, .. }) => Some(NodeCounts::File { names: count, size }),
        Some(NodeCounts::Directory { entries, .. }) => Some(NodeCounts::Directory {
            names: count,
            entries,
        }),
        None => None,
    }
}

// With another size.
fn with_size(counts: Option<NodeCounts>, len: u64) -> Option<NodeCounts>
    ensures is { result ≡ option_map (in_length (λ size. len)) counts }
    ensures few { entry_count result ≤ entry_count counts }
{
    match counts {
        Some(NodeCounts::File { names, .. }) => Some(NodeCounts::File { names, size: len }),
        other => other,
    }
}

// With a size that is at least this.
fn with_growth(counts: Option<NodeCounts>, end: u64) -> Option<NodeCounts>
    ensures is { result ≡ option_map (in_length (λ size. max size end)) counts }
    ensures few { entry_count result ≤ entry_count counts }
{
    match counts {
        Some(NodeCounts::File { names, size }) => Some(NodeCounts::File {
            names,
            size: size.max(end),
        }),
        other => other,
    }
}

/// Whether a node of these numbers keeps the limits.
pub fn is_within(counts: Option<NodeCounts>) -> bool
    ensures { result ≡ is_within counts }
{
    match counts {
        None => true,
        Some(NodeCounts::File { names, size }) => names <= MAX_NAMES && size <= MAX_FILE,
        Some(NodeCounts::Directory { names, entries }) => {
            names <= MAX_NAMES && entries <= MAX_ENTRIES as u64
        }
    }
}
