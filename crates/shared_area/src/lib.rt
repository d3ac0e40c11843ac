//! The shared area: a graph of inodes with its charge and marks, kept in the blocks of shared media.
//!
//! Contracts speak of the medium alone, through `store_of`, `graph` and `marks` of `area_reader`.
//!
//! A change of the graph counts the data blocks that it wants, takes them, and is planned inode by inode (`change_plan`); the plan of all is written by `area_commit`,
//! in one batch with the marks: at each moment a stop leaves the graph and the marks from before, or those after. The slot of each inode of the change is read once, before all else.
#![tactic(auto)]

mod apply_laws;
mod area;
mod block_search;
mod change_apply;
mod digest_number;
mod directory_read;
mod file_read;
mod graph_update;
mod inode_cost;
mod media_contents;
mod node;
mod node_questions;
mod plan_write;
mod run_search;
mod slot_counts;

pub use apply_laws::{carried_out_change_has_its_slots, carried_out_change_is_made};
pub use area::Shared;
pub use change_apply::apply;
pub use inode_cost::{ChangeCost, charge_after, charge_follows_the_change, units_of_slots};
pub use plan_write::{reserve_blocks, write_counted};

/// Of `area_reader`, what the crates above name.
pub mod in_area_reader {
    pub use area_reader::AreaError;
}

/// Of `graph_change`, what the crates above name.
pub mod in_graph_change {
    pub use area_reader::in_graph_change::{
        GraphChange, changes_are_the_effects, changes_keep_to_the_limits,
    };
}

/// Of `layout`, what the crates above name.
pub mod in_layout {
    pub use area_reader::in_layout::{BLOCK, CLIENTS, Geometry, Mark, Marks, Super, What};
}

/// Of `record_validation`, what the crates above name.
pub mod in_record_validation {
    pub use record_validation::{NodeCounts, NodeSummary, Nodes, RecordCheck, Verdict, is_unknown};
}
