// The copies of a client, by their inodes.
ghost use Rattle.std.specs.Prelude.{◌≡◌, ◌==◌, ◌&&◌, ◌+◌, ℕ, false, Some, None, IfOk, length, if◌then◌else◌, option_map, unwrap_or};
ghost use Rattle.std.specs.List.{list_any};
ghost use Rattle.posix_calls.specs.declared.limits.TheConstants.{MAX_INODE};
ghost use Rattle.client_plan.specs.file_graph.declared.effect.Kind.TheVariants as kinds;
ghost use Rattle.client_plan.specs.call_effects.Knowledge.{same_kind, lists_as, is_dir_by};
ghost use Rattle.client_view.specs.KnowledgeTables.{copy_at, size_known, is_listed_in};

use client_plan::in_file_graph::{Kind, PlainEntry};
use posix_calls::MAX_INODE;
use record_validation::NodeSummary;
use std::alloc::{AllocError, Global};

/// What is known to stand at an inode; `None` where nothing is known, `Some(None)` where nothing stands there.
pub type Slot = Option<Option<NodeSummary>>;

// The kinds as which entries name an inode.
#[derive(Clone, Copy)]
struct NamedKinds {
    directory: bool,
    file: bool,
}

/// A slot for 0 and one for each inode, of which nothing is known.
pub fn unknown_slots(alloc: Global) -> Result<Vec<Slot>, AllocError>
    ensures unknown { IfOk result (λ slots. (i : ℕ) → copy_at slots.items i ≡ None) }
    ensures all { IfOk result (λ slots. length slots.items ≡ MAX_INODE + 1) }
{
    let most = MAX_INODE as usize + 1;
    let mut slots = Vec::with_capacity(alloc, most)?;
    for _ in 0..most {
        slots.push(None)?;
    }
    Ok(slots)
}

/// What is known of an inode.
pub fn slot_at(slots: &[Slot], inode: u32) -> Option<&Option<NodeSummary>>
    ensures { option_map (λ c. c.now) result ≡ copy_at slots.now inode }
{
    match slots.get(inode as usize) {
        Some(slot) => slot.as_ref(),
        None => None,
    }
}

/// Nothing is known of an inode any more.
pub fn forget_slot(slots: &mut Vec<Slot>, place: usize)
    ensures forgotten { (i : ℕ) → copy_at slots.new.items i ≡ (if i == place then None else copy_at slots.old.items i) }
    ensures all { length slots.new.items ≡ length slots.old.items }
{
    if place < slots.len() {
        slots[place] = None;
    }
}

/// Nothing is known of any inode any more.
pub fn forget_slots(slots: &mut Vec<Slot>)
    ensures forgotten { (i : ℕ) → copy_at slots.new.items i ≡ None }
    ensures all { length slots.new.items ≡ length slots.old.items }
{
    for place in 0..slots.len() {
        forget_slot(slots, place);
    }
}

/// How many bytes a file has that there is a copy of.
pub fn size_at(slots: &[Slot], inode: u32) -> Option<u64>
    ensures { result ≡ size_known (copy_at slots.now inode) }
{
    match slot_at(slots, inode) {
        Some(Some(copy)) => copy.size(),
        _ => None,
    }
}

/// Whether an inode without a copy is a directory, by the kinds that entries of copies tell: it is where one tells a directory, and else is none where one
/// tells a file. Each copy is looked at once.
pub fn child_is_dir(slots: &[Slot], inode: u32) -> Option<Option<bool>>
    ensures { result ≡ is_dir_by None (is_listed_in slots.now inode kinds.Directory) (is_listed_in slots.now inode kinds.File) }
{
    let mut is_file = false;
    for before in 0..MAX_INODE {
        let told = kinds_in(slots, before + 1, inode);
        if told.directory {
            return Some(Some(true));
        }
        is_file |= told.file;
    }
    if is_file {
        return Some(Some(false));
    }
    None
}

// The kinds as which the entries of a directory that there is a copy of name an inode.
fn kinds_in(slots: &[Slot], dir: u32, inode: u32) -> NamedKinds
    ensures directory { result.directory ≡ lists_as inode kinds.Directory (unwrap_or (copy_at slots.now dir) None) }
    ensures file { result.file ≡ lists_as inode kinds.File (unwrap_or (copy_at slots.now dir) None) }
{
    match slot_at(slots, dir) {
        Some(Some(copy)) => copy_kinds(copy, inode),
        _ => no_kinds(),
    }
}

fn copy_kinds(copy: &NodeSummary, inode: u32) -> NamedKinds
    ensures directory { result.directory ≡ lists_as inode kinds.Directory (Some copy.now) }
    ensures file { result.file ≡ lists_as inode kinds.File (Some copy.now) }
{
    entry_kinds(copy.entries(), inode)
}

// The kinds as which some entries name an inode: they are looked at only where one names it at all.
fn entry_kinds(entries: &[PlainEntry], inode: u32) -> NamedKinds
    ensures directory { result.directory ≡ list_any (λ e. e.value.0 == inode && same_kind e.value.1 kinds.Directory) entries.now }
    ensures file { result.file ≡ list_any (λ e. e.value.0 == inode && same_kind e.value.1 kinds.File) entries.now }
{
    if !any_names(entries, inode) {
        return no_kinds();
    }
    NamedKinds {
        directory: any_names_as(entries, inode, Kind::Directory),
        file: any_names_as(entries, inode, Kind::File),
    }
}

fn no_kinds() -> NamedKinds
    ensures directory { result.directory ≡ false }
    ensures file { result.file ≡ false }
{
    NamedKinds {
        directory: false,
        file: false,
    }
}

// Whether an entry names an inode.
fn any_names(entries: &[PlainEntry], inode: u32) -> bool
    ensures { result ≡ list_any (λ e. e.value.0 == inode) entries.now }
{
    entries.iter().any(|entry| entry.value.inode() == inode)
}

// Whether an entry names an inode as of a kind.
fn any_names_as(entries: &[PlainEntry], inode: u32, kind: Kind) -> bool
    ensures { result ≡ list_any (λ e. e.value.0 == inode && same_kind e.value.1 kind) entries.now }
{
    entries.iter().any(|entry| entry.value.inode() == inode && same_kind(entry.value.kind(), kind))
}

fn same_kind(kind: Kind, other: Kind) -> bool
    ensures { result ≡ same_kind kind other }
{
    match (kind, other) {
        (Kind::File, Kind::File) => true,
        (Kind::Directory, Kind::Directory) => true,
        _ => false,
    }
}
