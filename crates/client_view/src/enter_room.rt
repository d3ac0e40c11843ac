// What entering a name takes.
use client_plan::in_file_graph::{Child, EntryRoom};
use posix_calls::Name;

/// What a record needs ready to enter a name: a copy of the name, and room for it in the directory that it enters.
#[derive(Drop)]
pub struct EnterRoom {
    pub name: Name,
    pub room: EntryRoom<Child>,
}
