//! The free blocks of a pool, kept as runs.
#![tactic(auto)]

mod error;
mod free_runs;
mod runs;

pub use error::AllocatorError;
pub use free_runs::FreeRuns;
pub use runs::Run;
