//! Media of three tiers: what a read gives, and what a stop at each moment may have left.
//!
//! `Media` is the device model that every layer above rests on. `MemMedia` keeps the tiers in memory and meets the model
//! exactly: it leaves no less than the model allows. `StopMedia` is a `MemMedia` that stops at a chosen call and
//! `FaultMedia` any medium that fails at one, for tests. Both count by a number of their own or by a `Trip`, which several media
//! share.
#![tactic(auto)]

mod count;
mod fault;
mod fill;
mod media;
mod memory;
mod record;
mod row;
mod stop;
mod stop_content;
mod tiers;
mod trip;

pub use fault::FaultMedia;
pub use fill::{ByteFill, Fill};
pub use media::{Media, MediaError, Tier, lies_within, rose_holds_on};
pub use memory::MemMedia;
pub use stop::StopMedia;
pub use tiers::Tiers;
pub use trip::{Trip, Turn};
