//! The language of scripts: what each line of one asks, how its answer is printed, and what ends a run of one before its end.
//!
//! `read_line` says what a line is: silent, a client and the call that it asks, or unreadable. It takes no memory, so that what
//! can't be read never depends on it; `CallText::to_call` then builds the call. What words, numbers, flags, paths and bytes are
//! is defined in `specs/Script.antt`, and what a line is in `specs/Lines.antt`. `read_system_line` reads the lines of a script over a running system, which
//! has events beside calls (`specs/SystemLines.antt`).
//!
//! `ScriptLines` reads a script line by line, and `write_reply` prints a reply.
#![tactic(auto)]

mod call_text;
mod data_text;
mod fills;
mod flags;
mod hex;
mod laws;
mod lines;
mod number;
mod path_text;
mod print_runs;
mod run_error;
mod runs;
mod script;
mod system_line;
mod text;
mod words;

pub use call_text::{CallText, Line, read_line};
pub use data_text::DataText;
pub use fills::MEDIA;
pub use hex::hex_byte;
pub use laws::cut_data_are_answered_alike;
pub use lines::{write_data, write_name};
pub use number::{client_of, ordinal_of};
pub use path_text::PathText;
pub use print_runs::{is_plain, run_len};
pub use run_error::RunError;
pub use runs::MAX_DATA;
pub use script::part::MAX_LINE;
pub use script::reader::{ScriptError, ScriptLines};
pub use script::replies::write_reply;
pub use system_line::{LowerTier, Manner, SystemLine, read_system_line};
pub use text::Text;
pub use words::two_parts;

/// Of `log_record`, what the crates above name.
pub mod in_log_record {
    pub use update_log::in_log_record::{Record, is_payload};
}

/// Of `update_log`, what the crates above name.
pub mod in_update_log {
    pub use update_log::{HEADER, OPEN, REGION_SIZE, Region, Stage};
}
