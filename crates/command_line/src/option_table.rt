// A program's options as a table.
ghost use Rattle.std.specs.Prelude.{◌≡◌, [], IfOk, Some, false};
ghost use Rattle.clap.specs.Words.{app_of, rule_of};
ghost use Rattle.command_line.specs.Options.{Reads, option_of, program_with, rules_in};

use crate::option_matches::OptionMatches;
use crate::words_error::WordsError;
use clap::builder::ValueParser;
use clap::{Arg, ArgAction, Command};
use std::alloc::{AllocError, Global};

/// What stands behind an option.
#[derive(Clone, Copy)]
pub enum OptionValue {
    /// A number of 32 bits, within these bounds, both included.
    Number32 { least: u32, most: u32 },
    /// A number of 64 bits, from this one on.
    Number64 { least: u64 },
    /// Any text.
    Text,
    /// Nothing: it is there or not.
    Nothing,
}

/// An option of a program, `--NAME`.
#[derive(Clone, Copy)]
pub struct ProgramOption {
    pub name: &'static str,
    pub value: OptionValue,
    /// What help calls its value; nothing where it has none.
    pub value_name: &'static str,
    /// What help says of it.
    pub help: &'static str,
}

/// What a program is called, and what its help says.
#[derive(Clone, Copy)]
pub struct Program {
    pub name: &'static str,
    /// What it does, in a line.
    pub about: &'static str,
    pub usage: &'static str,
    /// The text behind the options in its help.
    pub after_help: Option<&'static str>,
}

/// Reads the words of a command line by a program's options. The first word is the program's name.
///
/// Refused where `clap` finds a fault in the words, or they ask for help, and where memory is wanting; never else, whatever stands in the
/// table.
pub fn read_words<'a>(
    alloc: Global,
    program: Program,
    options: &[ProgramOption],
    words: &'a [&'a str],
) -> Result<OptionMatches<'a>, WordsError>
    ensures { Reads (program_with program.name.now (rules_in options.now)) words.entry.now result }
{
    let command = command_of(alloc, program, options)?;
    let matches = command.try_get_matches_from(words)?;
    Ok(OptionMatches { matches })
}

fn command_of<'a>(
    alloc: Global,
    program: Program,
    options: &[ProgramOption],
) -> Result<Command<'a>, AllocError>
    ensures { IfOk result (λ c. app_of c ≡ program_with program.name.now (rules_in options.now)) }
{
    let mut command = bare_command(alloc, program);
    for option in options {
        command = command.arg(argument(alloc, *option))?;
    }
    Ok(command)
}

// The command of a program that has no option yet.
fn bare_command<'a>(alloc: Global, program: Program) -> Command<'a>
    ensures { app_of result ≡ program_with program.name.now [] }
{
    let command = Command::new(alloc, program.name)
        .about(program.about)
        .override_usage(program.usage);
    match program.after_help {
        Some(text) => command.after_help(text),
        None => command,
    }
}

fn argument<'a>(alloc: Global, option: ProgramOption) -> Arg<'a>
    ensures rule { rule_of result ≡ option_of option.name.now option.value }
    ensures local { result.global ≡ false }
{
    let argument = Arg::new(alloc, option.name)
        .long(option.name)
        .help(option.help);
    match option.value {
        OptionValue::Nothing => argument.action(ArgAction::SetTrue),
        OptionValue::Text => with_value(argument, option),
        OptionValue::Number32 { least, most } => with_value(argument, option).value_parser(
            ValueParser::signed(i64::from(least), i64::from(most)),
        ),
        OptionValue::Number64 { least } => {
            with_value(argument, option).value_parser(ValueParser::unsigned(least, u64::MAX))
        }
    }
}

fn with_value<'a>(argument: Arg<'a>, option: ProgramOption) -> Arg<'a>
    ensures rule { rule_of result ≡ record (rule_of argument.entry) { action = Some ArgAction.Set; value_names = 1 } }
    ensures local { result.global ≡ argument.entry.global }
{
    argument
        .value_name(option.value_name)
        .action(ArgAction::Set)
}
