//! A client's seat in a run, in which its client may die and another one follow.
ghost use Rattle.std.specs.Prelude.{◌≡◌};
ghost use Rattle.strata_threads.specs.libfs.declared.life.Life.TheVariants as lives;

use crate::burial::{Burial, bury};
use crate::region_stops::RunMedium;
use crate::run_end::RunEnd;
use posix_calls::{Call, Reply};
use script::RunError;
use std::alloc::Global;
use std::sync::Wait;
use strata_threads::{CallEnd, OpenGate, SharedKernel, ThreadClient, ThreadRemains};

// Turns that a call is given.
const TURNS: u64 = 1_000;

// In how many rounds a log is to be digested.
pub(crate) const ROUNDS: u64 = 1_000_000;

/// The seat of a client: who has it, or what a client left that died and could not be buried.
#[derive(Drop)]
pub struct Seat {
    client: Option<ThreadClient<RunMedium>>,
    remains: Option<ThreadRemains<RunMedium>>,
    // Of a client that dies: how many device calls are left to it
    left: Option<u64>,
    /// How the burial of its client ended, if that died.
    pub burial: Option<Burial>,
}

/// The seats of these clients.
pub(crate) fn seats_of(
    alloc: Global,
    clients: Vec<ThreadClient<RunMedium>>,
) -> Result<Vec<Seat>, RunError> {
    let mut seats = Vec::new(alloc);
    for client in clients {
        seats.push(Seat::new(client))?;
    }
    Ok(seats)
}

impl Seat {
    // The seat of a client that does not die.
    fn new(client: ThreadClient<RunMedium>) -> Seat {
        Seat {
            client: Some(client),
            remains: None,
            left: None,
            burial: None,
        }
    }

    /// Has the client die behind this device call, of those that it makes on its regions from now on.
    pub(crate) fn arm(&mut self, call: u64) {
        self.left = Some(call);
    }

    /// Makes a call of the client and answers it; `None` where it died before it was answered. One that dies is buried at once, and another one takes its seat, which makes no call.
    pub(crate) fn answer<R: Wait>(
        &mut self,
        rt: &R,
        shared: &SharedKernel<RunMedium>,
        call: &Call,
    ) -> Option<Reply> {
        match self.left {
            Some(left) => self.answer_or_die(rt, shared, call, left),
            None => {
                let client = self.client.as_mut()?;
                Some(client.posix(rt, shared, call, TURNS, &OpenGate))
            }
        }
    }

    // The same of a client that dies, to which so many device calls are left.
    fn answer_or_die<R: Wait>(
        &mut self,
        rt: &R,
        shared: &SharedKernel<RunMedium>,
        call: &Call,
        left: u64,
    ) -> Option<Reply> {
        if left == 0 {
            return None;
        }
        let client = self.client.take()?;
        let mut left = left;
        let end = client.posix_or_die(rt, shared, call, TURNS, &mut left);
        self.left = Some(left);
        match end {
            CallEnd::Answered { client, reply } => {
                self.go_on(rt, shared, client);
                Some(reply)
            }
            CallEnd::Died { remains } => {
                self.bury(rt, shared, remains);
                None
            }
        }
    }

    // A client that was answered goes on, or dies where no device call is left to it.
    fn go_on<R: Wait>(
        &mut self,
        rt: &R,
        shared: &SharedKernel<RunMedium>,
        client: ThreadClient<RunMedium>,
    ) {
        if self.left == Some(0) {
            self.bury(rt, shared, client.abandon());
        } else {
            self.client = Some(client);
        }
    }

    // Buries what a client left, and has another one take the seat.
    fn bury<R: Wait>(
        &mut self,
        rt: &R,
        shared: &SharedKernel<RunMedium>,
        remains: ThreadRemains<RunMedium>,
    )
        requires dead { remains.remains.life ≡ lives.Dead }
    {
        let mut remains = remains;
        self.burial = Some(bury(rt, shared, &mut remains));
        match remains.into_client() {
            Ok(client) => self.client = Some(client),
            Err(remains) => self.keep(remains),
        }
    }

    // Nobody can take the seat: what its client left stays.
    fn keep(&mut self, remains: ThreadRemains<RunMedium>) {
        self.remains = Some(remains);
        if let Some(burial) = &mut self.burial {
            burial.refused = burial.refused.or(Some(RunEnd::Fault(RunError::Damaged)));
        }
    }

    /// Has the log of its client digested.
    pub(crate) fn clear_log<R: Wait>(&mut self, rt: &R, shared: &SharedKernel<RunMedium>) {
        if let Some(client) = &mut self.client {
            let _ = client.clear_log(rt, shared, ROUNDS);
        }
    }

    /// Has the log of its client digested, and gives its leases back.
    pub(crate) fn leave<R: Wait>(&mut self, rt: &R, shared: &SharedKernel<RunMedium>) {
        self.clear_log(rt, shared);
        if let Some(client) = &mut self.client {
            client.give_all();
        }
    }

    /// Who has the seat, or else what its client left.
    pub(crate) fn into_parts(
        self,
    ) -> (
        Option<ThreadClient<RunMedium>>,
        Option<ThreadRemains<RunMedium>>,
    ) {
        (self.client, self.remains)
    }
}
