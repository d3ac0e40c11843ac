//! A file tree that runs, for programs and tests.
//!
//! `PlainTree` holds a tree in memory with the descriptors of its clients, and answers every call as the definitions of
//! `posix_calls` say: a new node gets the lowest inode number that is free.
#![tactic(auto)]

mod name_counts;
mod node;
mod nodes;
mod operations;
mod plain;

pub use plain::PlainTree;

/// Of `file_graph`, what the crates above name.
pub mod in_file_graph {
    pub use file_graph::{Effect, Kind, PlainGraph};
}
