//! A client's update log: a region of fast memory to which records are appended one device call at a time.
//!
//! A stop at any moment of an append leaves the records from before it, with the begun one or without; once the fourth call
//! has succeeded, every stop leaves it. A wipe takes all records out and names another generation; at no moment of it a stop leaves
//! a record behind a header that is not the old one. `Region` says so in its contracts, whatever medium lies beneath.
#![tactic(auto)]

mod append;
mod buffer;
mod count_laws;
mod error;
mod format;
mod front;
mod laws;
mod region;
mod scan;
mod stage;
mod wipe;

pub use count_laws::{append_counts_one_more, digest_counts_fewer, wipe_counts_nothing};
pub use error::RegionError;
pub use format::{CLOSED, GENERATION_SIZE, HEADER, OPEN, REGION_SIZE};
pub use laws::region_has_its_numbers;
pub use region::Region;
pub use stage::{Progress, Stage, WipeProgress};

/// Of `file_graph`, what the crates above name.
pub mod in_file_graph {
    pub use log_record::in_file_graph::{Effect, Kind};
}

/// Of `log_record`, what the crates above name.
pub mod in_log_record {
    pub use log_record::{Record, TouchedInodes, is_payload};
}
