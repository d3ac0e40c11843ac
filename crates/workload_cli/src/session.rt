//! What a script is answered over.

ghost use Rattle.std.specs.Prelude.{◌≡◌, Bool, Option};
ghost use Rattle.script.specs.LineValues.{system_line_seen};
ghost use Rattle.script.specs.SystemLines.{Asked};
ghost use Rattle.workload_cli.specs.declared.answer.Answer.{Answer};

use crate::answer::Answer;
use script::SystemLine;
use std::alloc::Global;

/// What the lines of a script are answered over, one after the other.
pub trait Session {
    /// What a line is answered, and what becomes of the session.
    ghost answers: { Self → Option Asked → Answer → Self → Type 0 };

    /// Whether such a line may stand in a script.
    ghost takes: { Self → Option Asked → Bool };

    /// Whether such a line may stand in a script here.
    fn takes(&self, line: &SystemLine<'_>) -> bool
        ensures { result ≡ takes self.now (system_line_seen line.now) };

    /// What a line is answered.
    fn answer(&mut self, alloc: Global, line: SystemLine<'_>) -> Answer
        ensures { answers self.old (system_line_seen line.entry) result self.new };
}
