// What the mains of the programs have in common.
use crate::usage::{tell_fault, tell_words};
use command_line::WordsError;
use script::RunError;
use std::alloc::Global;
use std::env;
use std::io::{self, ErrorKind, Write};
use std::process::ExitCode;
use std::rt::Env;

/// Runs a program over the words of the command line, and ends with the status that its run answers. A word that is no text is
/// printed on `err`, with status 2. So is what the run answers in place of a status, with status 3: nothing but memory is asked for
/// before a run begins.
pub fn run_program<R: Env + AllocGlobal, E: Write, F: FnOnce(&[&str]) -> io::Result<u8>>(
    rt: &R,
    err: &mut E,
    run: F,
) -> ExitCode
    requires { F.IsAlwaysCallable run }
{
    let status = match words_of(rt) {
        Ok(words) => match run_over(rt.alloc(), &words, run) {
            Ok(status) => status,
            Err(_) => tell_fault(RunError::Memory, err),
        },
        Err(error) => tell_words(error, err),
    };
    ExitCode::from(status)
}

fn words_of<R: Env + AllocGlobal>(rt: &R) -> Result<Vec<String>, WordsError> {
    match env::args(rt) {
        Ok(args) => Ok(args.collect(rt.alloc())?),
        Err(error) => Err(words_fault(error)),
    }
}

// Why there are no words.
fn words_fault(error: io::Error) -> WordsError {
    match error.kind() {
        ErrorKind::InvalidData => WordsError::Value("a word of the command line is no text"),
        _ => WordsError::Memory,
    }
}

fn run_over<F: FnOnce(&[&str]) -> io::Result<u8>>(
    alloc: Global,
    words: &[String],
    run: F,
) -> io::Result<u8>
    requires { F.IsAlwaysCallable run }
{
    let mut texts = Vec::new(alloc);
    for word in words {
        texts.push(word.as_str())?;
    }
    run(&texts)
}
