//! The blocks of files that a client keeps in memory.
//!
//! `Blocks` is a list of at most 256 blocks, the one used last first. A block that is put goes in front, and past 256 the one used
//! longest ago is dropped; to get a block is to use it. A file's blocks go together.
#![tactic(auto)]

mod blocks;
mod bytes;
mod file_drop;
mod laws;
mod span;
mod span_drop;

pub use blocks::{Blocks, MOST_BLOCKS};
pub use bytes::BLOCK_SIZE;
pub use laws::{dropped_file_has_no_blocks, put_block_is_found, used_block_stays};
