//! Two further kinds of medium: `RamMedia`, in memory, whose past no memory holds, and `FileMedia`, over a file of the operating
//! system, or over a part of one: a `DiskFile` is one file with several media.
#![tactic(auto)]

mod disk_file;
mod error;
mod file;
mod file_bytes;
mod file_parts;
mod file_range;
mod host;
mod image;
mod known_bytes;
mod known_range;
mod locked_file;
mod mirror;
mod open;
mod past;
mod pending_tiers;
mod ram;
mod shared_file;
mod sizes;

pub use disk_file::DiskFile;
pub use error::{FileError, FileProblem};
pub use file::FileMedia;
pub use image::{image_of, read_image};
pub use known_bytes::KnownBytes;
pub use known_range::KnownRange;
pub use past::Past;
pub use ram::RamMedia;
pub use sizes::Sizes;
