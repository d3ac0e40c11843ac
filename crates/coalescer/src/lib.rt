//! From the records of a log to one change of many inodes.
//!
//! `coalesce` makes of a list of records the change that sums up their effects, in which each inode and each block of a file stands at most
//! once, so that what was overwritten never reaches the shared media. What it makes of a graph, also of one that is no tree of files,
//! is what the records make of it, one after the other.
//!
//! Only what swapped names lead to is a matter of the graph. So where a record has a Swap, the change is without Swaps, and the effects
//! on names are kept beside it; `RunChange::tell` takes the directories that Swaps name, and enters at each of these names what it leads
//! to after the run. The change that comes of it is that of the whole run.
//!
//! `longest_run` counts how many records of a list a batch of the shared media takes at once, by their weight, which is a matter of the
//! records alone (`specs/Weight.antt`).
//!
//! A record costs by its bytes and its effects, and by the logarithm of what the records before it touch, however many they are; an entry
//! also moves the ones behind it among the changed entries of its directory.
#![tactic(auto)]

mod estimate;
mod kept_names;
mod laws;
mod records;
mod run;
mod run_change;
mod weight;

pub use laws::{change_is_within_its_weight, chunk_has_its_limits, single_record_fits};
pub use records::{add_record, coalesce};
pub use run::longest_run;
pub use run_change::RunChange;
pub use weight::{CHUNK_BLOCKS, CHUNK_IMAGES, DATA_WEIGHT, ENTRY_WEIGHT};

/// Of `file_graph`, what the crates above name.
pub mod in_file_graph {
    pub use graph_change::in_file_graph::PlainGraph;
}

/// Of `graph_change`, what the crates above name.
pub mod in_graph_change {
    pub use graph_change::{GraphChange, changes_are_the_effects, changes_keep_to_the_limits};
}
