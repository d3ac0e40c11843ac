// A client's call.
ghost use Rattle.std.specs.Prelude.{◌≡◌};
ghost use Rattle.script.specs.LineValues.{asked_call};
ghost use Rattle.workload_cli.specs.LineResults.{IsCallAnswered, IsStepAnswered};
ghost use Rattle.workload_cli.specs.Manners.{IsServedIn};
ghost use Rattle.workload_cli.specs.AnswerText.{call_answer};

use crate::answer::{Answer, failure_answer};
use crate::system_queries::Running;
use call_driver::{CallResult, Events, begin_call, serve_call, step_call};
use posix_calls::{Call, Errno};
use script::{CallText, Manner};
use std::alloc::Global;

/// What a client's call is answered.
pub fn answer_call<S: Events + Running>(
    alloc: Global,
    system: &mut S,
    client: u32,
    manner: Manner,
    call: &CallText<'_>,
) -> Answer
    ensures { IsCallAnswered S.Events system.old client manner (asked_call call.now) result system.new }
{
    match call.to_call(alloc) {
        Ok(call) => call_answer(serve(system, client, manner, call)),
        Err(_) => failure_answer(Errno::NoMemory),
    }
}

fn serve<S: Events + Running>(system: &mut S, client: u32, manner: Manner, call: Call) -> CallResult
    ensures { IsServedIn S.Events manner client call result system.old system.new }
{
    match manner {
        Manner::Served => serve_call(system, client, call, true),
        Manner::Tried => serve_call(system, client, call, false),
        Manner::Begun => begin_call(system, client, call, true),
    }
}

fn call_answer(served: CallResult) -> Answer
    ensures { result ≡ call_answer served }
{
    match served {
        CallResult::Reply(reply) => Answer::Call(reply),
        CallResult::Pending => Answer::Pending,
        CallResult::Blocked => Answer::Blocked,
        CallResult::NoMemory => failure_answer(Errno::NoMemory),
    }
}

/// One device call of a call that waits for its answer, and what came of it.
pub fn answer_step<S: Events + Running>(system: &mut S, client: u32) -> Answer
    ensures { IsStepAnswered S.Events system.old client result system.new }
{
    match step_call(system, client) {
        Some(CallResult::Pending) => Answer::Stepped,
        Some(served) => call_answer(served),
        None => Answer::Idle,
    }
}
