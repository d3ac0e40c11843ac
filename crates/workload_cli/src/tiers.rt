// Where the blocks of files lie.
ghost use Rattle.std.specs.Prelude.{◌≡◌, ◌-◌, ◌^◌, min};
ghost use Rattle.call_driver.specs.event_steps.declared.event.Event.TheVariants as kinds;
ghost use Rattle.call_driver.specs.event_steps.declared.outcome.Outcome.{Outcome};
ghost use Rattle.script.specs.LineValues.{path_of};
ghost use Rattle.workload_cli.specs.LineResults.{IsMoveAnswered, IsPlaceAnswered};
ghost use Rattle.workload_cli.specs.AnswerText.{tier_below, move_answer};

use crate::answer::Answer;
use crate::system_queries::Running;
use call_driver::Events;
use call_driver::in_event_steps::{Event, Outcome};
use script::{LowerTier, PathText};
use std::alloc::Global;
use tier_device::Tier;

/// A run of a file's blocks, `run.1` of them from logical block `run.0` on, goes down to a tier.
pub fn answer_migrate<S: Events + Running>(
    alloc: Global,
    system: &mut S,
    path: &PathText<'_>,
    run: (u64, u64),
    to: LowerTier,
) -> Answer
    ensures { IsMoveAnswered S.Events S.Running system.old (path_of path.now) run.0 run.1 to result system.new }
{
    match system.file_at(alloc, path) {
        Ok(inode) => migrate(system, inode, run, to),
        Err(why) => why,
    }
}

fn migrate<S: Events + Running>(
    system: &mut S,
    inode: u32,
    run: (u64, u64),
    to: LowerTier,
) -> Answer
    ensures { (o : Outcome) × S.plays system.old (kinds.Migrate inode run.0 (min run.1 (2 ^ 32 - 1)) (tier_below to)) o system.new × (result ≡ move_answer run.1 o) }
{
    let (first, count) = run;
    let event = Event::Migrate {
        inode,
        first,
        count: blocks_of(count),
        to: tier_of(to),
    };
    answer_move(count, system.play(&event))
}

// What is answered of a move of so many blocks that came to an outcome.
fn answer_move(count: u64, outcome: Outcome) -> Answer
    ensures { result ≡ move_answer count outcome }
{
    match outcome {
        Outcome::Stepped => Answer::Moved(count),
        Outcome::Refused { refusal } => Answer::Refused(refusal),
        _ => Answer::Idle,
    }
}

// No run has more blocks than a `u32` counts.
fn blocks_of(count: u64) -> u32
    ensures { result ≡ min count (2 ^ 32 - 1) }
{
    u32::try_from(count).unwrap_or(u32::MAX)
}

fn tier_of(to: LowerTier) -> Tier
    ensures { result ≡ tier_below to }
{
    match to {
        LowerTier::Block => Tier::Block,
        LowerTier::Slow => Tier::Slow,
    }
}

/// The tier of a logical block of a file.
pub fn answer_where<S: Events + Running>(
    alloc: Global,
    system: &mut S,
    path: &PathText<'_>,
    block: u64,
) -> Answer
    ensures { IsPlaceAnswered S.Events S.Running system.old (path_of path.now) block result system.new }
{
    match system.tier_at(alloc, path, block) {
        Ok(tier) => Answer::Lies(tier),
        Err(why) => why,
    }
}
