use crate::shared_kernel::SharedKernel;
use std::sync::atomic::AtomicU64;
use std::sync::atomic::Ordering::SeqCst;
use tier_device::Media;

/// A flag by which workers and the migrator are stopped.
#[derive(Drop)]
pub struct StopFlag {
    is_set: AtomicU64,
}

impl StopFlag {
    /// A flag that is not set.
    pub fn new() -> StopFlag {
        StopFlag {
            is_set: AtomicU64::new(0),
        }
    }

    /// Sets it, for good, and wakes the workers and the migrator of that kernel.
    pub fn set<M: Media>(&self, shared: &SharedKernel<M>) {
        self.is_set.store(1, SeqCst);
        shared.wake_ups.wake_all();
    }

    /// Whether it is set.
    pub fn is_set(&self) -> bool {
        self.is_set.load(SeqCst) == 1
    }
}
