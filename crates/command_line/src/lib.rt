//! The words of a command line, read by a table of a program's options.
//!
//! `clap` reads the words. `read_words` says which it takes by any table of options; the getters of `OptionMatches` say what stands behind an
//! option. A program's own `read_options` says by `Asks` what its words ask for, and which it refuses (`specs/Options.antt`).
#![tactic(auto)]

mod option_matches;
mod option_table;
mod words_error;

pub use option_matches::OptionMatches;
pub use option_table::{OptionValue, Program, ProgramOption, read_words};
pub use words_error::WordsError;
