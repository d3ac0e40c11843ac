//! The nodes of a mount: the names by which the kernel knows them, their attributes and descriptors, and what each call on one asks of
//! the file tree.
//!
//! `Tree` is what is asked: it answers calls, one after the other. `Tables` owns no tree. It keeps what the protocol has and the tree has
//! not: numbers of nodes, how often each was looked up and is open, the names by which it is reached, and descriptors for those that have
//! no name any more. Which calls a request may ask, and how their replies are read, is defined in `specs/Calls.antt`; the paths of nodes in
//! `specs/Paths.antt`.
#![tactic(auto)]

mod attributes;
mod depth;
mod descriptors;
mod directory;
mod exchanges;
mod files;
mod lookups;
mod node;
mod nodes;
mod open_files;
mod paths;
mod removals;
mod renames;
mod tables;
mod times;
mod tree;

pub use attributes::Attributes;
pub use directory::list;
pub use lookups::creation;
pub use node::{Node, NodeName};
pub use nodes::Nodes;
pub use paths::{first_name, path_of};
pub use renames::Place;
pub use tables::Tables;
pub use times::{NodeTimes, Stamp, Times};
pub use tree::{Tree, Usage};
