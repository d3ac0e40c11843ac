// What the words of a command line give to the options of a program.
ghost use Rattle.std.specs.Prelude.{◌≡◌, IfErr, IfOk, option_map, unwrap_or};
ghost use Rattle.command_line.specs.Options.{HasNumber, IsNoNumber, IsValue, is_given, number_in, rows, text_in};

use crate::words_error::WordsError;
use clap::ArgMatches;
use clap::parser::ValueSource;

/// What the words of a command line give to the options of a program.
#[derive(Drop)]
pub struct OptionMatches<'a> {
    pub(crate) matches: ArgMatches<'a>,
}

impl<'a> OptionMatches<'a> {
    /// The number behind an option; none where the words have no such option. Refused where it does not fit in 32 bits.
    pub fn number32(&self, name: &str) -> Result<Option<u32>, WordsError>
        ensures read { IfOk result (λ n. n ≡ number_in (rows self.now) name.now) }
        ensures written { IfOk result (λ n. HasNumber 32 (rows self.now) name.now) }
        ensures refused { IfErr result (λ e. IsValue e × IsNoNumber 32 (rows self.now) name.now) }
    {
        match self.matches.try_get_one::<u32>(name) {
            Ok(number) => Ok(number),
            Err(_) => Err(WordsError::Value("a number does not fit in 32 bits")),
        }
    }

    /// The number behind an option; `default` where the words have no such option. Refused where it does not fit in 32 bits.
    pub fn number32_or(&self, name: &str, default: u32) -> Result<u32, WordsError>
        ensures read { IfOk result (λ n. n ≡ unwrap_or (number_in (rows self.now) name.now) default) }
        ensures written { IfOk result (λ n. HasNumber 32 (rows self.now) name.now) }
        ensures refused { IfErr result (λ e. IsValue e × IsNoNumber 32 (rows self.now) name.now) }
    {
        Ok(self.number32(name)?.unwrap_or(default))
    }

    /// The number behind an option; none where the words have no such option. Refused where it does not fit in 64 bits.
    pub fn number64(&self, name: &str) -> Result<Option<u64>, WordsError>
        ensures read { IfOk result (λ n. n ≡ number_in (rows self.now) name.now) }
        ensures written { IfOk result (λ n. HasNumber 64 (rows self.now) name.now) }
        ensures refused { IfErr result (λ e. IsValue e × IsNoNumber 64 (rows self.now) name.now) }
    {
        match self.matches.try_get_one::<u64>(name) {
            Ok(number) => Ok(number),
            Err(_) => Err(WordsError::Value("a number does not fit in 64 bits")),
        }
    }

    /// The text behind an option that has a value; none where the words have no such option.
    pub fn text(&self, name: &str) -> Option<&'a str>
        ensures { option_map (λ s. s.now) result ≡ text_in (rows self.now) name.now }
    {
        self.matches.get_str(name)
    }

    /// Whether an option stands among the words.
    pub fn has(&self, name: &str) -> bool
        ensures { result ≡ is_given (rows self.now) name.now }
    {
        match self.matches.value_source(name) {
            Some(ValueSource::CommandLine) => true,
            Some(ValueSource::DefaultValue) => false,
            None => false,
        }
    }
}
