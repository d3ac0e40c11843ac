// The lines of a script, one after the other.
ghost use Rattle.std.specs.Prelude.{◌≡◌, ℕ, [], true, false, Ok, Err, IfOk};
ghost use Rattle.std.specs.Io.KnownBytes.{IsAtEnd};
ghost use Rattle.script.specs.declared.script.reader.ScriptError.TheVariants as stops;

use crate::run_error::RunError;
use crate::script::part::{End, MAX_LINE, add_part};
use std::alloc::Global;
use std::io::{BufRead, Write};
use std::marker::Model;

/// Why a script is not read and answered to its end.
#[derive(Clone, Copy)]
pub enum ScriptError {
    /// The line of this number, from 1 on, can't be read.
    Unreadable(u64),
    Run(RunError),
}

impl From<RunError> for ScriptError {
    ghost from_gives = { λ fault error. error ≡ stops.Run fault };

    fn from(fault: RunError) -> ScriptError {
        ScriptError::Run(fault)
    }
}

// Flushes what was written, where it is to.
fn flush_if<O: Write>(is_dry: bool, out: &mut O) -> Result<(), RunError> {
    if is_dry {
        out.flush()?;
    }
    Ok(())
}

/// The lines of a script, of which only the last that was read is kept.
///
/// Contracts see what is left of the script, that line, and its number (`specs/View.antt`).
#[derive(Drop)]
pub struct ScriptLines<R: BufRead + Drop> {
    reader: R,
    line: Vec<u8>,
    number: u64,
    // Whether the reader has nothing at hand, so that it may wait for more.
    is_dry: bool,
}

impl<R: BufRead + Drop> Model for ScriptLines<R> {
    ghost use Rattle.std.specs.Prelude.{◌≤◌, vec_len};
    ghost use Rattle.script.specs.declared.script.part.TheConstants.{MAX_LINE};
    ghost use Rattle.script.specs.View.{LinesView};

    ghost Value = { LinesView };

    ghost view = { λ s. record { left = R.remaining s.reader; line = s.line.items; number = s.number } };

    ghost invariant = { λ s. vec_len s.line ≤ MAX_LINE };
}

impl<R: BufRead + Drop> ScriptLines<R> {
    ghost use Rattle.script.specs.LineReads.{number_after, LosesLine, BeginsTooLong};

    /// The lines of what the reader gives. The memory of the longest line is taken at once, so that none is wanted later.
    pub fn new(alloc: Global, reader: R) -> Result<Self, RunError>
        ensures left { IfOk result (λ lines. lines.left ≡ R.remaining reader) }
        ensures line { IfOk result (λ lines. lines.line ≡ []) }
        ensures number { IfOk result (λ lines. lines.number ≡ 0) }
    {
        let line = Vec::with_capacity(alloc, MAX_LINE)?;
        Ok(ScriptLines {
            reader,
            line,
            number: 0,
            is_dry: true,
        })
    }

    /// Reads the next line in place of the last, and says whether there is one. What stands behind the last newline is a line
    /// where it is not empty. A line of more than `MAX_LINE` bytes is unreadable. Whenever the reader has nothing at hand, what
    /// was written is flushed first, since it may wait for more.
    pub fn read_next<O: Write>(&mut self, out: &mut O) -> Result<bool, ScriptError>
        ensures line { result ≡ Ok true → LosesLine self.old.left self.new.left self.new.line }
        ensures end { result ≡ Ok false → IsAtEnd self.old.left }
        ensures too_long { (n : ℕ) → result ≡ Err (ScriptError.Unreadable n) → BeginsTooLong self.old.left }
        ensures place { (n : ℕ) → result ≡ Err (ScriptError.Unreadable n) → n ≡ self.new.number }
        ensures number { self.new.number ≡ number_after self.old.number }
    {
        self.line.clear();
        self.number = self.number.saturating_add(1);
        for _ in 0..u64::MAX {
            flush_if(self.is_dry, out)?;
            match add_part(&mut self.reader, &mut self.line)? {
                End::Open => self.is_dry = true,
                End::Newline { more } => {
                    self.is_dry = !more;
                    return Ok(true);
                }
                End::Input => return Ok(!self.line.is_empty()),
                End::TooLong => return Err(ScriptError::Unreadable(self.number)),
            }
        }
        Err(ScriptError::Run(RunError::Device))
    }

    /// The line that was read last, without its newline.
    pub fn line(&self) -> &[u8]
        ensures { result.now ≡ self.now.line }
    {
        self.line.as_slice()
    }

    /// That the line that was read last can't be read.
    pub fn unreadable_line(&self) -> ScriptError
        ensures { result ≡ ScriptError.Unreadable self.now.number }
    {
        ScriptError::Unreadable(self.number)
    }
}
