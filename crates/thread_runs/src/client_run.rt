use crate::burial::Burial;
use crate::client_tree::ClientTree;
use crate::draws::Draws;
use crate::options::Options;
use crate::region_stops::{RegionStops, RunMedium};
use crate::run_end::RunEnd;
use crate::seat::Seat;
use crate::turns::{log_lines, turn_lines};
use posix_calls::{Call, Errno, Reply};
use script::{Line, RunError, read_line, write_reply};
use std::alloc::Global;
use std::sync::Wait;
use strata_threads::SharedKernel;
use strata_threads::in_libfs::Fate;

// How often calls are asked again within a turn.
const RETRIES: u32 = 1_000;

/// A seat whose client makes calls, beside a plain tree that is asked the same. Both are lent, so that what a run owns is given up in one place.
#[derive(Drop)]
pub struct ClientRun<'a> {
    pub seat: &'a mut Seat,
    pub tree: &'a mut ClientTree,
    // How often calls may be asked again in this turn.
    retries: u32,
}

/// The runs of the clients of these seats, each beside its tree.
pub(crate) fn runs_of<'a>(
    alloc: Global,
    seats: &'a mut [Seat],
    trees: &'a mut [ClientTree],
) -> Result<Vec<ClientRun<'a>>, RunError> {
    let mut runs = Vec::new(alloc);
    for (seat, tree) in seats.iter_mut().zip(trees.iter_mut()) {
        runs.push(ClientRun {
            seat,
            tree,
            retries: RETRIES,
        })?;
    }
    Ok(runs)
}

impl ClientRun<'_> {
    /// Makes all turns; then its log is digested, and it gives all leases back. Where a region stops it ends there, and where its client dies and was buried, which is judged.
    pub(crate) fn make_turns<R: Wait>(
        &mut self,
        rt: &R,
        shared: &SharedKernel<RunMedium>,
        stops: &RegionStops,
        options: &Options,
    ) {
        let mut draws = Draws::new(options.start, self.tree.number);
        for turn in 0..options.turns {
            match self.make_turn(rt, shared, stops, turn, &mut draws) {
                Ok(()) => {}
                Err(why) => {
                    self.tree.end = Some((turn, why));
                    break;
                }
            }
        }
        if let Some(burial) = self.seat.burial.take() {
            self.tree.end_burial(options.turns, burial);
        }
        if !self.tree.has_stopped() {
            self.leave(rt, shared);
        }
    }

    /// Has its log digested, and gives all leases back.
    pub(crate) fn leave<R: Wait>(&mut self, rt: &R, shared: &SharedKernel<RunMedium>) {
        self.seat.leave(rt, shared);
    }

    fn make_turn<R: Wait>(
        &mut self,
        rt: &R,
        shared: &SharedKernel<RunMedium>,
        stops: &RegionStops,
        turn: u64,
        draws: &mut Draws,
    ) -> Result<(), RunEnd> {
        self.retries = RETRIES;
        let what = draws.draw();
        let which = draws.draw();
        let lines = turn_lines(self.tree.alloc, self.tree.number, turn, what, which)?;
        self.ask_all(rt, shared, stops, &lines)?;
        if turn % 8 != 7 {
            return Ok(());
        }
        let lines = log_lines(self.tree.alloc, self.tree.number, turn)?;
        self.ask_all(rt, shared, stops, &lines)
    }

    /// Asks line after line, up to the first call that is refused.
    pub(crate) fn ask_all<R: Wait>(
        &mut self,
        rt: &R,
        shared: &SharedKernel<RunMedium>,
        stops: &RegionStops,
        lines: &str,
    ) -> Result<(), RunEnd> {
        for line in lines.split('\n') {
            if self.ask(rt, shared, stops, line)? {
                return Ok(());
            }
        }
        Ok(())
    }

    // Asks a line of the client and of the tree, and answers whether it is refused.
    fn ask<R: Wait>(
        &mut self,
        rt: &R,
        shared: &SharedKernel<RunMedium>,
        stops: &RegionStops,
        line: &str,
    ) -> Result<bool, RunEnd> {
        let call = call_of(self.tree.alloc, line)?;
        match self.answer_call(rt, shared, stops, &call) {
            Some(reply) => self.tree.take_reply(stops, line, &call, &reply),
            None => self.tree.end_at(line, RunEnd::Died),
        }
    }

    // What is wanting may come: the call is asked again once the client's log is digested. `None` where the client died.
    fn answer_call<R: Wait>(
        &mut self,
        rt: &R,
        shared: &SharedKernel<RunMedium>,
        stops: &RegionStops,
        call: &Call,
    ) -> Option<Reply> {
        for _ in 0..self.retries {
            let reply = self.seat.answer(rt, shared, call)?;
            if !is_wanting(&reply) || is_unanswered(&reply, self.tree.number, stops) {
                return Some(reply);
            }
            self.retries = self.retries.saturating_sub(1);
            self.seat.clear_log(rt, shared);
        }
        self.seat.answer(rt, shared, call)
    }
}

impl ClientTree {
    // Judges what the client was replied, and answers whether it is refused; where a stop left the call without an answer the run ends.
    fn take_reply(
        &mut self,
        stops: &RegionStops,
        line: &str,
        call: &Call,
        reply: &Reply,
    ) -> Result<bool, RunEnd> {
        if is_unanswered(reply, self.number, stops) {
            return self.end_at(line, RunEnd::Stopped);
        }
        self.judge(call, reply)
    }

    // The call that a stop or a death left without an answer is not asked of the tree.
    fn end_at(&mut self, line: &str, why: RunEnd) -> Result<bool, RunEnd> {
        self.unanswered = Some(String::from_str(self.alloc, line)?);
        Err(why)
    }

    // Judges what became of the call of a client that died, or notes why it could not be buried. A run that a difference, a stop or a fault has ended before stays ended so.
    fn end_burial(&mut self, turns: u64, burial: Burial) {
        let turn = match self.end {
            Some((turn, RunEnd::Died)) => turn,
            Some(_) => return,
            None => turns,
        };
        if let Err(why) = self.judge_burial(burial) {
            self.end = Some((turn, why));
        }
    }

    fn judge_burial(&mut self, burial: Burial) -> Result<(), RunEnd> {
        let Burial { fate, refused } = burial;
        self.judge_found(fate)?;
        match refused {
            Some(why) => Err(why),
            None => Ok(()),
        }
    }

    fn judge_found(&mut self, fate: Option<Fate>) -> Result<(), RunEnd> {
        match fate {
            Some(fate) => self.judge_fate(fate),
            None => Ok(()),
        }
    }

    // A call that was found whole is asked of the tree, and has to do the same there; a call that is gone is not.
    fn judge_fate(&mut self, fate: Fate) -> Result<(), RunEnd> {
        let line = self.unanswered.take();
        let Fate::Whole { reply } = fate else {
            return Ok(());
        };
        let Some(line) = line else {
            return Err(RunEnd::Fault(RunError::Damaged));
        };
        let call = call_of(self.alloc, &line)?;
        let _ = self.judge(&call, &reply)?;
        Ok(())
    }

    // Asks the tree what the client was asked, and answers whether it refuses; both have to do the same.
    fn judge(&mut self, call: &Call, found: &Reply) -> Result<bool, RunEnd> {
        let wanted = self.tree.ask(self.number, call);
        if wants_memory(&wanted) || wants_memory(found) {
            return Err(RunEnd::Fault(RunError::Memory));
        }
        if are_alike(self.alloc, &wanted, found)? {
            Ok(matches!(found, Reply::Failed { .. }))
        } else {
            Err(RunEnd::Differs)
        }
    }
}

/// The call of a line.
pub(crate) fn call_of(alloc: Global, line: &str) -> Result<Call, RunError> {
    match read_line(line.as_bytes()) {
        Some(Line::Asks { call, .. }) => Ok(call.to_call(alloc)?),
        _ => Err(RunError::Damaged),
    }
}

/// Whether two replies are printed alike.
pub(crate) fn are_alike(alloc: Global, one: &Reply, other: &Reply) -> Result<bool, RunError> {
    let text = text_of(alloc, one)?;
    is_text_of(alloc, &text, other)
}

fn is_text_of(alloc: Global, text: &[u8], reply: &Reply) -> Result<bool, RunError> {
    Ok(text == text_of(alloc, reply)?.as_slice())
}

fn text_of(alloc: Global, reply: &Reply) -> Result<Vec<u8>, RunError> {
    let mut text = Vec::new(alloc);
    write_reply(&mut text, reply)?;
    Ok(text)
}

fn wants_memory(reply: &Reply) -> bool {
    match reply {
        Reply::Failed { errno } => *errno == Errno::NoMemory,
        _ => false,
    }
}

// Whether a call was refused for want of a lease, units or a number.
fn is_wanting(reply: &Reply) -> bool {
    match reply {
        Reply::Failed { errno } => *errno == Errno::Again || *errno == Errno::NoSpace,
        _ => false,
    }
}

// Whether a call has no answer because a region stopped: the client's own, or that of one that keeps a lease from it.
fn is_unanswered(reply: &Reply, client: u32, stops: &RegionStops) -> bool {
    match reply {
        Reply::Failed { errno } if *errno == Errno::IoError => stops.has_stopped(client),
        Reply::Failed { errno } if *errno == Errno::Again => stops.have_stopped(),
        _ => false,
    }
}
