//! The media of the regions, each of which may stop within a write or fence of its own.
ghost use Rattle.std.specs.Prelude.{◌≤◌};

use std::alloc::{AllocError, Global};
use tier_device::{Fill, MemMedia, StopMedia, Trip};

/// A stop of each region.
#[derive(Clone, Copy)]
pub struct RegionStop {
    /// Within which of its writes and fences a region stops, from 1.
    pub call: u64,
    /// What each byte holds then that was written and not fenced.
    pub byte: u8,
    ghost counted: { 1 ≤ call },
}

/// A medium of a run.
pub type RunMedium = StopMedia;

/// What the media of the regions count by, each by a count of its own.
#[derive(Drop)]
pub struct RegionStops {
    trips: Vec<Trip>,
    fill: Fill,
}

impl RegionStops {
    /// The counts of no region. Where one stops, what it has written and not fenced is as this stop says.
    pub(crate) fn new(alloc: Global, stop: Option<RegionStop>) -> RegionStops {
        let fill = match stop {
            Some(stop) => Fill::Byte(stop.byte),
            None => Fill::New,
        };
        RegionStops {
            trips: Vec::new(alloc),
            fill,
        }
    }

    /// A region's medium over one in memory, with a count of its own, which is not armed.
    pub(crate) fn add_region(
        &mut self,
        alloc: Global,
        inner: MemMedia,
    ) -> Result<RunMedium, AllocError> {
        let trip = self.add_trip(alloc)?;
        let mut medium = StopMedia::new(inner);
        medium.stop_with(trip, self.fill);
        Ok(medium)
    }

    // Shares one more count, which is not armed.
    fn add_trip(&mut self, alloc: Global) -> Result<Trip, AllocError> {
        let trip = Trip::new(alloc)?;
        let share = trip.share()?;
        self.trips.push(trip)?;
        Ok(share)
    }

    /// Has each region stop within the write or fence that is asked for, of those from now on on it, if one is.
    pub(crate) fn arm(&self, stop: Option<RegionStop>) {
        let Some(stop) = stop else {
            return;
        };
        for trip in &self.trips {
            trip.arm(stop.call);
        }
    }

    /// Whether a region of this client has stopped.
    pub(crate) fn has_stopped(&self, client: u32) -> bool {
        let first = 2 * (client as usize).saturating_sub(1);
        for trip in self.trips.iter().skip(first).take(2) {
            if trip.has_run_out() {
                return true;
            }
        }
        false
    }

    /// Whether a region has stopped.
    pub(crate) fn have_stopped(&self) -> bool {
        for trip in &self.trips {
            if trip.has_run_out() {
                return true;
            }
        }
        false
    }
}
