ghost use Rattle.std.specs.Prelude.{◌<◌};

use crossbeam_utils::sync::{EventCount, Key};
use std::sync::Wait;
use std::thread::Parker;
use std::time::Duration;

// How long a client sleeps at most, in microseconds: so long it hears nobody
const NAP: u64 = 100;

// What wakes the workers, the migrator and the clients that sleep.
#[derive(Drop)]
pub(crate) struct WakeUps {
    handovers: EventCount,
    digests: EventCount,
    // Of each client
    parkers: [Parker; 8],
}

impl WakeUps {
    // Nobody sleeps.
    pub(crate) fn new() -> WakeUps {
        WakeUps {
            handovers: EventCount::new(),
            digests: EventCount::new(),
            parkers: [
                Parker::new(),
                Parker::new(),
                Parker::new(),
                Parker::new(),
                Parker::new(),
                Parker::new(),
                Parker::new(),
                Parker::new(),
            ],
        }
    }

    // A worker asks for it before it looks for a region: it may sleep then until one is handed over behind that.
    pub(crate) fn expect_handover(&self) -> Key<'_> {
        self.handovers.prepare_wait()
    }

    // Wakes a worker, if one sleeps, once a region was handed over.
    pub(crate) fn wake_worker(&self) {
        self.handovers.notify_one();
    }

    // A migrator asks for it before it looks for a run: it may sleep then until a region is digested behind that.
    pub(crate) fn expect_digest(&self) -> Key<'_> {
        self.digests.prepare_wait()
    }

    // Wakes the migrator, if it sleeps, once a region was digested.
    pub(crate) fn wake_migrator(&self) {
        self.digests.notify_one();
    }

    // Sleeps until a region is sent back to the client with this index, or a while; not at all where one was since it slept last.
    pub(crate) fn sleep<R: Wait>(&self, rt: &R, index: usize)
        requires { index < 8 }
    {
        self.parkers[index].park_timeout(rt, Duration::from_micros(NAP));
    }

    // Wakes the client with this index, if it sleeps, once a region was sent back to it.
    pub(crate) fn wake_client(&self, index: usize)
        requires { index < 8 }
    {
        self.parkers[index].unpark();
    }

    // Wakes all workers and the migrator, to look whether they are to stop.
    pub(crate) fn wake_all(&self) {
        self.handovers.notify_all();
        self.digests.notify_all();
    }
}
