// A client that dies, and its burial.
ghost use Rattle.std.specs.Prelude.{◌≡◌};
ghost use Rattle.workload_cli.specs.LineResults.{IsBuryAnswered, IsDieAnswered};
ghost use Rattle.workload_cli.specs.AnswerText.{bury_answer, die_answer};

use crate::answer::Answer;
use crate::system_queries::Running;
use call_driver::in_event_steps::{Event, Outcome};
use call_driver::{BuryResult, Events, bury_client};

/// Whether a client died: one that is dead, or a device of which has failed, does not.
pub fn answer_die<S: Events + Running>(system: &mut S, client: u32) -> Answer
    ensures { IsDieAnswered S.Events system.old client result system.new }
{
    die_answer(system.play(&Event::Die { client }))
}

fn die_answer(outcome: Outcome) -> Answer
    ensures { result ≡ die_answer outcome }
{
    match outcome {
        Outcome::Died => Answer::Died,
        _ => Answer::Idle,
    }
}

/// What became of the burial of a client.
pub fn answer_bury<S: Events + Running>(system: &mut S, client: u32) -> Answer
    ensures { IsBuryAnswered S.Events system.old client result system.new }
{
    bury_answer(bury_client(system, client))
}

fn bury_answer(buried: BuryResult) -> Answer
    ensures { result ≡ bury_answer buried }
{
    match buried {
        BuryResult::Buried(found) => Answer::Buried(found),
        BuryResult::Idle => Answer::Idle,
        BuryResult::Refused(refusal) => Answer::Refused(refusal),
    }
}
