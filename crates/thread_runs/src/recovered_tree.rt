//! What was recovered is compared with the clients' plain trees.
use crate::client_run::{are_alike, call_of};
use crate::client_tree::ClientTree;
use crate::region_stops::RunMedium;
use crate::turns::{log_line, tree_lines};
use call_driver::in_interleavings::World;
use call_driver::{CallResult, serve_call};
use posix_calls::Reply;
use script::RunError;
use std::alloc::Global;

impl ClientTree {
    /// Whether a recovered world has what the tree has, without the call that has no answer or with it.
    pub(crate) fn is_in(&mut self, world: &mut World<RunMedium>) -> Result<bool, RunError> {
        if self.is_in_now(world)? {
            return Ok(true);
        }
        let Some(line) = self.unanswered.take() else {
            return Ok(false);
        };
        self.follow(self.number, &line)?;
        self.is_in_now(world)
    }

    /// Asks the tree a line as a client does.
    pub(crate) fn follow(&mut self, client: u32, line: &str) -> Result<(), RunError> {
        let call = call_of(self.alloc, line)?;
        let _ = self.tree.ask(client, &call);
        Ok(())
    }

    // Both are asked the same, to the end, which leaves both as they were.
    fn is_in_now(&mut self, world: &mut World<RunMedium>) -> Result<bool, RunError> {
        let lines = tree_lines(self.alloc, self.number)?;
        let mut is_same = true;
        for line in lines.split('\n') {
            let is_alike = self.agrees(world, line, true)?;
            is_same = is_same && is_alike;
        }
        let has_log = self.has_log(world)?;
        Ok(is_same && has_log)
    }

    // A client that wrote nothing to the file of all clients knows nothing of it: others may have made it longer.
    fn has_log(&mut self, world: &mut World<RunMedium>) -> Result<bool, RunError> {
        let line = log_line(self.alloc, self.number)?;
        let _ = self.agrees(world, "1 open /s/log r", true)?;
        let has_place = self.agrees(world, &line, false)?;
        let _ = self.agrees(world, "1 close 0", true)?;
        Ok(has_place)
    }

    // Whether the tree and the world answer a line alike; also where the tree reads no byte, unless that has to agree too. The tree is asked for a client that has no file open in it.
    fn agrees(
        &mut self,
        world: &mut World<RunMedium>,
        line: &str,
        with_none: bool,
    ) -> Result<bool, RunError> {
        let asker = if self.number == 1 { 2 } else { 1 };
        let wanted = self.answer(asker, line)?;
        let is_alike = is_answer(self.alloc, world, line, &wanted)?;
        Ok(is_alike || !with_none && reads_nothing(&wanted))
    }

    fn answer(&mut self, client: u32, line: &str) -> Result<Reply, RunError> {
        let call = call_of(self.alloc, line)?;
        Ok(self.tree.ask(client, &call))
    }
}

fn reads_nothing(reply: &Reply) -> bool {
    match reply {
        Reply::Read { bytes } => bytes.len() == 0,
        _ => false,
    }
}

// Whether the world answers a line of client 1 so.
fn is_answer(
    alloc: Global,
    world: &mut World<RunMedium>,
    line: &str,
    wanted: &Reply,
) -> Result<bool, RunError> {
    match serve_call(world, 1, call_of(alloc, line)?, true) {
        CallResult::Reply(found) => are_alike(alloc, wanted, &found),
        _ => Err(RunError::Damaged),
    }
}
