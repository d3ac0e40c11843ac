//! A change of many inodes at once: the sum of a list of effects.
//!
//! A `GraphChange` says of each inode that it touches what becomes of the node there, of its names, of a file's length and of the
//! bytes in each of its blocks, and of a directory's entries, each one time, however often the effects changed it. Whoever
//! coalesces effects makes one, and whoever keeps a graph on media applies one; what it makes of a graph is a definition
//! (`changed_graph` in `specs/Change.antt`), and `changes_are_the_effects` says that this is what the effects make of it, without their
//! Swaps.
//!
//! The bytes of a write are not copied: each block that they lie in has a share of them, which is given up where later bytes go over all of it. Only where bytes
//! are put over some of those of a block has it bytes of its own.
//!
//! A Swap of two names is of two directories, and depends on the graph, so no change of single inodes has it. Effects do what they do
//! without their Swaps, and then enter at each swapped name what it leads to in the end. So beside the change stand, where a Swap is
//! among the effects, those on names, in their order: they tell on each graph what is entered (`specs/Swaps.antt`), and
//! `swapped_sums_are_the_effects` says that both together make of it what the effects make of it.
#![tactic(auto)]

mod block_change;
mod changed_blocks;
mod graph_change;
mod kept_bytes;
mod laws;
mod made_blocks;
mod node_change;
mod own_block;
mod parts;
mod shared_part;

pub use block_change::BlockChange;
pub use graph_change::GraphChange;
pub use laws::{
    changes_are_read_by_number, changes_are_the_effects, changes_are_tidy,
    changes_keep_to_the_limits, swapped_sums_are_the_effects, whole_block_needs_no_old_bytes,
};
pub use node_change::NodeChange;
pub use parts::{NodeBase, NodeLength};
pub use shared_part::SharedPart;

/// Of `file_graph`, what the crates above name.
pub mod in_file_graph {
    pub use file_graph::{Child, Effect, Effects, Kind, NameMap, NamedEntry, PlainGraph};
}
