// What is printed about the words of a command line.
use clap::Error as UsageError;
use command_line::WordsError;
use script::RunError;
use std::io::Write;

/// Prints what is wrong with the words, or their help, and answers the exit status: 0 for the help, 2 for words that can't be read,
/// and 3 after a fault.
pub fn tell<O: Write, E: Write>(error: WordsError, out: &mut O, err: &mut E) -> u8 {
    match error {
        WordsError::Usage(error) if !error.use_stderr() => match print_help(error, out) {
            Ok(()) => 0,
            Err(fault) => tell_fault(fault, err),
        },
        error => tell_words(error, err),
    }
}

/// Prints what is wrong with the words, and answers the exit status.
pub fn tell_words<E: Write>(error: WordsError, err: &mut E) -> u8 {
    match error {
        WordsError::Usage(error) => {
            let _ = write!(err, "{error}");
            2
        }
        WordsError::Value(text) => {
            let _ = writeln!(err, "error: {text}");
            2
        }
        WordsError::Memory => tell_fault(RunError::Memory, err),
    }
}

fn print_help<O: Write>(help: UsageError, out: &mut O) -> Result<(), RunError> {
    write!(out, "{help}")?;
    out.flush()?;
    Ok(())
}

/// Prints what ended a run before its end, and answers the exit status 3.
pub fn tell_fault<E: Write>(fault: RunError, err: &mut E) -> u8 {
    let _ = writeln!(err, "{}", fault.text());
    3
}
