//! The graph of inodes, and the effects that change it.
//!
//! A graph has a node at some of its inode numbers: a file with its bytes, or a directory with its entries, and a count of
//! names. Graphs, effects and what an effect makes of a graph are definitions of `specs/Graph.antt`, and the units of a graph
//! and the growth of effects of `specs/Units.antt`, which the crates above cite; `PlainGraph` is a graph that runs.
#![tactic(auto)]

mod effect;
mod field_reads;
mod file_bytes;
mod kinds;
mod laws;
mod name_map;
mod node;
mod numbers;
mod plain;

pub use effect::{Child, Effect, Effects, Kind};
pub use field_reads::{byte_of, run_of, u32_of, u64_of};
pub use file_bytes::FileBytes;
pub use kinds::{DIRECTORY_KIND, FILE_KIND, kind_byte, kinds_have_their_bytes, read_kind};
pub use laws::{
    apart_effects_commute, charge_rises_by_growth_at_most, effects_change_what_they_touch,
    swaps_come_last,
};
pub use name_map::{EntryRoom, NameMap, NamedEntry};
pub use node::PlainEntry;
pub use numbers::is_inode;
pub use plain::PlainGraph;
