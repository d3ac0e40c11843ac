//! What a client's call comes to, by what the client knows and has: a reply, the first thing that it lacks, or a record for its log.
//!
//! `plan_call` decides it, and changes nothing. What a call needs, and in which order it is asked for, is told line by line in
//! `specs/NeedOrder.antt`, and put together in `specs/CallPlan.antt`. What the client knows of the tree is a `TreeAnswers` of `posix_calls`,
//! and what it has beside that a `Supplies`. `plain_write` finds a write that lacks nothing at once, as most do. That this is right is told by the laws.
#![tactic(auto)]

mod call_plan;
mod laws;
mod need;
mod outcome;
mod plain_writes;
mod stop;
mod supplies;
mod words;

pub use call_plan::plan_call;
pub use laws::{
    answered_call_is_a_step, logged_call_is_a_step, plain_write_is_logged,
    room_for_the_longest_record_is_enough, served_need_is_lacking_no_longer,
};
pub use need::{Mode, Need};
pub use outcome::{DescriptorChange, Outcome};
pub use plain_writes::{PlainWrite, plain_write, record_of_write};
pub use supplies::Supplies;

/// Of `file_graph`, what the crates above name.
pub mod in_file_graph {
    pub use call_effects::in_file_graph::{
        Child, Effect, Effects, EntryRoom, Kind, PlainEntry, is_inode,
    };
}

/// Of `log_record`, what the crates above name.
pub mod in_log_record {
    pub use call_effects::in_log_record::Record;
}
