// A running system answers the lines of a script.
ghost use Rattle.std.specs.Prelude.{◌≡◌, true, false};
ghost use Rattle.script.specs.LineValues.{system_line_seen};
ghost use Rattle.workload_cli.specs.LineResults.{IsAnswerTo, IsDead, IsDigestAnswered, IsLiveAnswer, IsWipeAnswered, asking_in};
ghost use Rattle.workload_cli.specs.AnswerText.{book_answer};

use crate::answer::Answer;
use crate::calls::{answer_call, answer_step};
use crate::deaths::{answer_bury, answer_die};
use crate::system_queries::Running;
use crate::tiers::{answer_migrate, answer_where};
use call_driver::{Events, clear_client, is_dead, wipe_all};
use script::SystemLine;
use std::alloc::Global;

/// What a line is answered. A line of a client that is dead, but `die` and `bury`, is blocked, and no event is played. Where there is no memory to build its call or its path, none is either. A line that stops, fails or recovers a world asks nothing of a running system.
pub fn answer_line<S: Events + Running>(
    alloc: Global,
    system: &mut S,
    line: SystemLine<'_>,
) -> Answer
    ensures { IsAnswerTo S.Events S.Running system.old (system_line_seen line.entry) result system.new }
{
    if is_of_dead(system, asking_client(&line)) {
        return Answer::Blocked;
    }
    answer_live(alloc, system, line)
}

// The same of a line whose client, if it wants one, lives.
fn answer_live<S: Events + Running>(alloc: Global, system: &mut S, line: SystemLine<'_>) -> Answer
    ensures { IsLiveAnswer S.Events S.Running system.old (system_line_seen line.entry) result system.new }
{
    match line {
        SystemLine::Silent => Answer::Silent,
        SystemLine::Call {
            client,
            manner,
            call,
        } => answer_call(alloc, system, client, manner, &call),
        SystemLine::Migrate {
            path,
            first,
            count,
            to,
        } => answer_migrate(alloc, system, &path, (first, count), to),
        SystemLine::Where { path, block } => answer_where(alloc, system, &path, block),
        SystemLine::Step { client } => answer_step(system, client),
        SystemLine::Digest { client } => answer_digest(system, client),
        SystemLine::Wipe { client } => answer_wipe(system, client),
        SystemLine::Die { client } => answer_die(system, client),
        SystemLine::Bury { client } => answer_bury(system, client),
        SystemLine::Book => answer_book(system),
        SystemLine::Stop { .. }
        | SystemLine::Halt { .. }
        | SystemLine::Fail { .. }
        | SystemLine::Recover => Answer::Silent,
    }
}

// The client that a line wants to be alive.
fn asking_client(line: &SystemLine<'_>) -> Option<u32>
    ensures { result ≡ asking_in (system_line_seen line.now) }
{
    match line {
        SystemLine::Call { client, .. } => Some(*client),
        SystemLine::Step { client } => Some(*client),
        SystemLine::Digest { client } => Some(*client),
        SystemLine::Wipe { client } => Some(*client),
        _ => None,
    }
}

// Whether there is such a client and it is dead.
fn is_of_dead<S: Events + Running>(system: &S, client: Option<u32>) -> bool
    ensures dead { result ≡ true → IsDead S.Events system.now client }
    ensures alive { result ≡ false → IsDead S.Events system.now client → ⊥ }
{
    match client {
        Some(client) => is_dead(system, client),
        None => false,
    }
}

// A client that has a call which waits for its answer digests nothing.
fn answer_digest<S: Events + Running>(system: &mut S, client: u32) -> Answer
    ensures { IsDigestAnswered S.Events system.old client result system.new }
{
    if system.is_pending(client) || system.has_failed(client) {
        return Answer::Blocked;
    }
    match clear_client(system, client) {
        Ok(count) => Answer::Digested(count),
        Err(refusal) => Answer::Refused(refusal),
    }
}

fn answer_wipe<S: Events + Running>(system: &mut S, client: u32) -> Answer
    ensures { IsWipeAnswered S.Events system.old client result system.new }
{
    match wipe_all(system, client) {
        Ok(true) => Answer::Wiped,
        Ok(false) => Answer::Clean,
        Err(refusal) => Answer::Refused(refusal),
    }
}

fn answer_book<S: Events + Running>(system: &S) -> Answer
    ensures { result ≡ book_answer (S.figures_now system.now) }
{
    match system.figures() {
        Ok(figures) => Answer::Book(figures),
        Err(why) => why,
    }
}
