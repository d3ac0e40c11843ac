//! The calls of the file system and what they are answered: the words that all the crates above have in common.
//!
//! `Bytes`, `SharedBytes` and `Name` are what a call carries, `Call` and `Reply` are what is asked and answered, and `Errno` is why a call
//! was refused. `Path::read` reads a path. Contracts see bytes, names and paths as lists, so two calls are equal exactly where
//! they say the same.
//!
//! What a call is to be answered, and what it makes of the file tree, are definitions of `specs/`: the questions that it asks,
//! its errors in their order (`Decide`), and what it does where none holds (`Operations`). `decide` answers them for whoever knows the
//! tree or a part of it (`TreeAnswers`), and the functions of `laws` say what holds of every step. `plain_tree` has a tree that runs.
#![tactic(auto)]

mod bytes;
mod call;
mod clients;
mod decide_error;
mod decision;
mod descriptor;
mod descriptor_calls;
mod dir_calls;
mod errno;
mod file_calls;
mod laws;
mod limits;
mod name;
mod names;
mod numbers;
mod operation;
mod own;
mod path;
mod shared_bytes;
mod tell_calls;
mod tree_answers;
mod two_path_calls;
mod walk;

pub use bytes::Bytes;
pub use call::{Call, Flags, Reply};
pub use clients::client_index;
pub use decision::decide;
pub use descriptor::Descriptor;
pub use errno::Errno;
pub use laws::{
    bytes_are_for_pread_alone, failed_step_changes_nothing, part_answers_as_the_whole,
    runs_split_anywhere, states_stay_well_formed, states_stay_within_limits, step_is_determined,
    walk_leads_where_the_path_does, well_formed_state_is_a_tree,
};
pub use limits::{
    MAX_CLIENTS, MAX_DESCRIPTORS, MAX_ENTRIES, MAX_FILE, MAX_INODE, MAX_NAME, MAX_NAMES, MAX_PATH,
    MAX_TRANSFER, ROOT, UNIT_BYTES, UNIT_ENTRIES,
};
pub use name::Name;
pub use names::Names;
pub use numbers::profile_has_its_limits;
pub use operation::{DecideError, Description, Location, Missing, Operation, Replaced};
pub use own::OwnDescriptors;
pub use path::Path;
pub use shared_bytes::SharedBytes;
pub use tree_answers::{NamedInode, TreeAnswers, known_or_missing};
