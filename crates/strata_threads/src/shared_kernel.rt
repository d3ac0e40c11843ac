use crate::wake_ups::WakeUps;
use libfs::in_kernel_fs::Kernel;
use std::sync::{Mutex, MutexGuard, Wait};
use tier_device::Media;

/// The kernel of all threads, under a lock. Whoever holds the lock finds it at the end of a run of its machine, until a device has failed, where each mark stood before a region as the media were opened: whether they
/// did `Kernel::has_history` answers. Beside it is what wakes the workers, the migrator and the clients of its set: who waits with the kernel of another set is not woken.
#[derive(Drop)]
pub struct SharedKernel<M: Media> {
    lock: Mutex<Kernel<M>>,
    pub(crate) wake_ups: WakeUps,
}

impl<M: Media> SharedKernel<M> {
    /// Puts a kernel under a lock.
    pub fn new(kernel: Kernel<M>) -> SharedKernel<M> {
        SharedKernel {
            lock: Mutex::new(kernel),
            wake_ups: WakeUps::new(),
        }
    }

    /// Waits until nobody else has the kernel, and lends it.
    pub fn lock<R: Wait>(&self, rt: &R) -> MutexGuard<'_, Kernel<M>> {
        self.lock.lock(rt)
    }

    /// The kernel, once no thread shares it any more.
    pub fn into_kernel(self) -> Kernel<M> {
        self.lock.into_inner()
    }
}
