use std::io;
use std::time::{Clock, Duration};

/// The time of day, or one that stands still.
#[derive(Clone, Copy)]
pub struct TimeOfDay<'a> {
    pub rt: &'a HostRuntime,
    /// In seconds from the beginning of 1970 on.
    pub still: Option<u64>,
}

impl Clock for TimeOfDay<'_> {
    fn monotonic(&self) -> io::Result<Duration> {
        self.rt.monotonic()
    }

    fn since_1970(&self) -> io::Result<Duration> {
        match self.still {
            Some(seconds) => Ok(Duration::from_secs(seconds)),
            None => self.rt.since_1970(),
        }
    }
}
