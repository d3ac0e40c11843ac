//! The program `strata_sh` as a function over its words, its input, its output and its errors: a script is answered line by line over a running system, which is a kernel over fresh media and eight clients.
#![tactic(auto)]

mod answer;
mod area_view;
mod calls;
mod deaths;
mod faults;
mod fences;
mod fresh_parts;
mod image;
mod image_home;
mod media_rest;
mod need_notes;
mod needs;
mod options;
mod resting;
mod rows;
mod run;
mod script_media;
mod script_world;
mod session;
mod shell;
mod system_queries;
mod tiers;

pub use answer::{Answer, write_answer};
pub use fresh_parts::fresh_world;
pub use run::run_sh;
pub use script_world::ScriptWorld;
pub use session::Session;
pub use shell::answer_line;
pub use system_queries::Running;

/// Of `program_runs`, what the crates above name.
pub mod in_program_runs {
    pub use program_runs::run_program;
}
