//! The run of a program: its words, the status that it ends with, and tables of rows that say what runs are to print.
//!
//! `run_program` is a program's frame; `tell` and `tell_fault` print why one ends before its end. `run_rows` holds a table of scripts
//! against what their runs print: a `Row` has the words, the script and what is printed, and who has the programs runs them (`Programs`).
#![tactic(auto)]

mod difference;
mod patch;
mod program;
mod report;
mod row;
mod row_table;
mod table_text;
mod usage;

pub use patch::Patch;
pub use program::run_program;
pub use report::Report;
pub use row::Row;
pub use row_table::{Programs, Ran, run_rows};
pub use table_text::Spelled;
pub use usage::{tell, tell_fault};
