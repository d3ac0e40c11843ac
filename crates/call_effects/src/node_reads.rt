// What a graph has stored at an inode.
ghost use Rattle.std.specs.Prelude.{◌≡◌, ◌<◌, ◌^◌, Some, true, length, map, IfOk, IfErr, option_map};
ghost use Rattle.std.specs.FinMap as fin;
ghost use Rattle.std.specs.Ordering.{nat_cmp};
ghost use Rattle.std.specs.Cmp.Lexicographic.{slice_cmp};
ghost use Rattle.posix_calls.specs.Answers.{entry_in, count_in, listed_in, description_of};
ghost use Rattle.posix_calls.specs.Content.{range};
ghost use Rattle.posix_calls.specs.Memory.{has_names};
ghost use Rattle.posix_calls.specs.Walk.{names_seen, size_seen};
ghost use Rattle.log_record.specs.file_graph.Graph.{graph_of};
ghost use Rattle.log_record.specs.file_graph.Plain.{pairs};
ghost use Rattle.call_effects.specs.Wholes.{node_is_dir, node_bytes};
ghost use Rattle.call_effects.specs.Whole.{seen_at, is_counted};

use log_record::in_file_graph::{PlainEntry, PlainGraph};
use posix_calls::{Bytes, Description, NamedInode, Names};
use std::alloc::{AllocError, Global};
use std::cmp::Ordering;

// How many entries 32 bits don't count any more.
const COUNTABLE: usize = 4_294_967_296;

/// Whether an inode is a directory, if it is a node.
pub fn is_dir(graph: &PlainGraph, inode: u32) -> Option<bool>
    ensures { result ≡ option_map node_is_dir (graph_of graph.now inode) }
{
    match graph.entries(inode) {
        Some(_) => Some(true),
        None => match graph.file(inode) {
            Some(_) => Some(false),
            None => None,
        },
    }
}

/// Whether 32 bits count the entries at an inode.
pub fn is_counted(graph: &PlainGraph, dir: u32) -> bool
    ensures known { result ≡ is_counted (graph_of graph.now) dir }
    ensures counted { result ≡ true → count_in (seen_at (graph_of graph.now) dir) < 2 ^ 32 }
{
    match graph.entries(dir) {
        Some(entries) => entries.len() < COUNTABLE,
        None => true,
    }
}

/// What a directory has under a name.
pub fn child(graph: &PlainGraph, dir: u32, name: &[u8]) -> Option<NamedInode>
    ensures inode { option_map (λ e. e.inode) result ≡ entry_in name.now (seen_at (graph_of graph.now) dir) }
    ensures kind { (e : NamedInode) → result ≡ Some e → e.is_dir ≡ option_map node_is_dir (graph_of graph.now e.inode) }
{
    match entry(graph, dir, name) {
        Some(inode) => Some(NamedInode {
            inode,
            is_dir: is_dir(graph, inode),
        }),
        None => None,
    }
}

/// The inode under a name of a directory.
fn entry(graph: &PlainGraph, dir: u32, name: &[u8]) -> Option<u32>
    ensures { result ≡ entry_in name.now (seen_at (graph_of graph.now) dir) }
{
    match graph.entries(dir) {
        Some(entries) => find(entries, name),
        None => None,
    }
}

fn find(entries: &[PlainEntry], name: &[u8]) -> Option<u32>
    ensures { result ≡ option_map (λ e. e.0) (fin.find (slice_cmp nat_cmp) name.now (pairs entries.now)) }
{
    for entry in entries {
        match name.cmp(&entry.name.as_slice()) {
            Ordering::Equal => return Some(entry.value.inode()),
            _ => {}
        }
    }
    None
}

/// How many entries a directory has.
pub fn entry_count(graph: &PlainGraph, dir: u32) -> u32
    requires { count_in (seen_at (graph_of graph.now) dir) < 2 ^ 32 }
    ensures { result ≡ count_in (seen_at (graph_of graph.now) dir) }
{
    match graph.entries(dir) {
        Some(entries) => entries.len() as u32,
        None => 0,
    }
}

/// The names in a directory, in the order of their bytes. No memory is wanted where there is none.
pub fn names(alloc: Global, graph: &PlainGraph, dir: u32) -> Result<Names, AllocError>
    ensures names { IfOk result (λ names. names ≡ listed_in (seen_at (graph_of graph.now) dir)) }
    ensures memory { IfErr result (λ _. has_names (Some (seen_at (graph_of graph.now) dir)) ≡ true) }
{
    match graph.entries(dir) {
        Some(entries) => names_of(alloc, entries),
        None => Ok(Names::from_vec(Vec::new(alloc))),
    }
}

fn names_of(alloc: Global, entries: &[PlainEntry]) -> Result<Names, AllocError>
    ensures names { IfOk result (λ names. names ≡ map (λ e. e.0) (pairs entries.now)) }
    ensures memory { IfErr result (λ _. 0 < length entries.now) }
{
    let mut names = Vec::new(alloc);
    for entry in entries {
        names.push(entry.name.copy(alloc)?)?;
    }
    Ok(Names::from_vec(names))
}

/// How many bytes a file has.
pub fn file_size(graph: &PlainGraph, inode: u32) -> u64
    ensures { result ≡ size_seen (seen_at (graph_of graph.now) inode) }
{
    match graph.file(inode) {
        Some(file) => file.len() as u64,
        None => 0,
    }
}

/// How many names a file has stored.
pub fn file_names(graph: &PlainGraph, inode: u32) -> u32
    ensures { result ≡ names_seen (seen_at (graph_of graph.now) inode) }
{
    match graph.file(inode) {
        Some(_) => graph.names(inode).unwrap_or(0),
        None => 0,
    }
}

/// Up to `count` bytes of a file from an offset on.
pub fn read(
    alloc: Global,
    graph: &PlainGraph,
    inode: u32,
    at: u64,
    count: u64,
) -> Result<Bytes, AllocError>
    ensures { IfOk result (λ bytes. bytes ≡ range at count (node_bytes (graph_of graph.now inode))) }
{
    match graph.file(inode) {
        Some(file) => Bytes::copy_of(alloc, range(file, at as usize, count as usize)),
        None => Ok(Bytes::from_vec(Vec::new(alloc))),
    }
}

fn range(bytes: &[u8], at: usize, count: usize) -> &[u8]
    ensures { result.now ≡ range at count bytes.now }
{
    let rest = &bytes[at.min(bytes.len())..];
    &rest[..count.min(rest.len())]
}

/// What there is to say of a node.
pub fn describe(graph: &PlainGraph, inode: u32) -> Option<Description>
    requires { count_in (seen_at (graph_of graph.now) inode) < 2 ^ 32 }
    ensures { result ≡ description_of (seen_at (graph_of graph.now) inode) }
{
    match is_dir(graph, inode) {
        None => None,
        Some(true) => Some(Description::Dir {
            entries: entry_count(graph, inode),
        }),
        Some(false) => Some(Description::File {
            size: file_size(graph, inode),
            names: file_names(graph, inode),
        }),
    }
}
