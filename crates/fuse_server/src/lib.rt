//! The server of a mount: what the kernel asks by the FUSE protocol is asked of a file tree, call by call, and what the tree answers is
//! the reply.
//!
//! `Server` owns no tree. It has the nodes of the mount (`mount_nodes`), and keeps the names of directories that are being read. A message
//! is a request to them (`specs/Requests.antt`), and what comes of it is the reply (`specs/Replies.antt`).
#![tactic(auto)]

mod answer;
mod listings;
mod owner;
mod replies;
mod requests;
mod server;
mod stream;

pub use owner::Owner;
pub use server::{ServeError, Server};
pub use stream::{StreamError, serve_stream};

/// Of `mount_nodes`, what the crates above name.
pub mod in_mount_nodes {
    pub use mount_nodes::{Tree, Usage};
}
