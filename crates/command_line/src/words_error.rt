// Why the words of a command line can't be read.
ghost use Rattle.std.specs.Prelude.{◌≡◌};
ghost use Rattle.command_line.specs.Options.{IsFrom};
ghost use Rattle.command_line.specs.declared.words_error.WordsError.TheVariants.{Memory};

use clap::Error;
use clap::error::ErrorKind;
use std::alloc::AllocError;

/// Why words can't be read.
#[derive(Drop)]
pub enum WordsError {
    /// What `clap` finds wrong with them, or the help that they ask for.
    Usage(Error),
    /// What the program itself has to say against them.
    Value(&'static str),
    /// Memory was wanting.
    Memory,
}

impl From<AllocError> for WordsError {
    ghost from_gives = { λ e r. r ≡ Memory };

    fn from(_e: AllocError) -> WordsError {
        WordsError::Memory
    }
}

impl From<Error> for WordsError {
    ghost from_gives = { IsFrom };

    fn from(error: Error) -> WordsError {
        match error.kind() {
            ErrorKind::OutOfMemory => WordsError::Memory,
            _ => WordsError::Usage(error),
        }
    }
}
