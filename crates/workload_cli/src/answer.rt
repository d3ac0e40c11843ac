// What the lines of a script are answered, and how that is printed.
ghost use Rattle.std.specs.Prelude.{◌≡◌};
ghost use Rattle.workload_cli.specs.AnswerText.{failure_answer};

use crate::faults::recovery_fault;
use call_driver::in_event_steps::Refusal;
use call_driver::in_kernel_fs::Figures;
use call_driver::in_libfs::Found;
use posix_calls::{Errno, Reply};
use script::write_reply;
use std::io::{self, Write};
use tier_device::Tier;
use world_files::in_area_recovery::RecoveryError;

/// What a line that can be read is answered.
#[derive(Drop)]
pub enum Answer {
    /// Nothing, to an empty line or a comment.
    Silent,
    /// What a call is answered.
    Call(Reply),
    /// A call is begun.
    Pending,
    /// A client or a device is in the way.
    Blocked,
    /// One device call of a call that waits for its answer.
    Stepped,
    /// No call waits for its answer, or the client is not to die or to be buried.
    Idle,
    /// How many records were digested.
    Digested(usize),
    Wiped,
    /// There was nothing to wipe.
    Clean,
    /// The client is dead.
    Died,
    /// The client is buried, its begun call was found so, and a new one has its seat.
    Buried(Found),
    /// How many blocks went down.
    Moved(u64),
    /// The tier of a block; none of a hole.
    Lies(Option<Tier>),
    Book(Figures),
    Refused(Refusal),
    /// A stop or a failure is armed.
    Armed,
    /// The world has stopped.
    Stopped,
    Recovered,
    /// Nothing was recovered.
    Fault(RecoveryError),
}

/// Prints an answer: nothing, or a line.
pub fn write_answer<W: Write>(out: &mut W, answer: &Answer) -> io::Result<()> {
    match answer {
        Answer::Silent => Ok(()),
        Answer::Call(reply) => write_reply(out, reply),
        Answer::Digested(count) => writeln!(out, "digested {count}"),
        Answer::Moved(count) => writeln!(out, "moved {count}"),
        Answer::Book(figures) => write_book(out, *figures),
        Answer::Refused(refusal) => writeln!(out, "refused {}", refusal.number()),
        Answer::Fault(error) => writeln!(out, "{}", recovery_fault(*error).text()),
        answer => writeln!(out, "{}", word_of(answer)),
    }
}

// An answer that is a word.
fn word_of(answer: &Answer) -> &'static str {
    match answer {
        Answer::Pending => "pending",
        Answer::Blocked => "blocked",
        Answer::Stepped => "step",
        Answer::Idle => "idle",
        Answer::Armed => "armed",
        Answer::Stopped => "stopped",
        Answer::Recovered => "recovered",
        Answer::Wiped => "wiped",
        Answer::Clean => "clean",
        Answer::Died => "died",
        Answer::Buried(Found::Whole) => "buried whole",
        Answer::Buried(Found::Gone) => "buried gone",
        Answer::Buried(Found::Nothing) => "buried",
        Answer::Lies(Some(Tier::Fast)) => "fast",
        Answer::Lies(Some(Tier::Block)) => "block",
        Answer::Lies(Some(Tier::Slow)) => "slow",
        _ => "hole",
    }
}

fn write_book<W: Write>(out: &mut W, figures: Figures) -> io::Result<()> {
    let (charge, given, capacity) = (figures.charge, figures.out, figures.capacity);
    writeln!(out, "charge {charge} out {given} of {capacity}")
}

/// That a call failed.
pub fn failure_answer(errno: Errno) -> Answer
    ensures { result ≡ failure_answer errno }
{
    Answer::Call(Reply::Failed { errno })
}
