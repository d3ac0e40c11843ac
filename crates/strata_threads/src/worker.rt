ghost use Rattle.std.specs.Prelude.{◌≡◌, ◌-◌, List, true, false, length};
ghost use Rattle.handoff.specs.Line.{EndsLine};
ghost use Rattle.libfs.specs.SealedRegion.{SealedRegionView};
ghost use Rattle.strata_threads.specs.RegionHandover.{HasReturned, HasSent, HasSentAt};

use crate::gate_point::GatePoint;
use crate::region_digest::digest_region;
use crate::shared_kernel::SharedKernel;
use crate::stop_flag::StopFlag;
use handoff::QueueEnd;
use libfs::SealedRegion;
use posix_calls::client_index;
use std::alloc::Global;
use std::sync::Wait;
use std::thread;
use tier_device::Media;

/// A worker: it digests what clients seal, with its ends of the queue to the workers and of those back to each client.
#[derive(Drop)]
pub struct Worker<M: Media + Drop> {
    pub(crate) alloc: Global,
    pub(crate) tasks: QueueEnd<SealedRegion<M>>,
    pub(crate) returns: Vec<QueueEnd<SealedRegion<M>>>,
    ghost eight: { length returns.items ≡ 8 },
}

impl<M: Media + Drop> Worker<M> {
    /// Digests region after region, until the flag is set and none is left. It sleeps while there is none.
    pub fn run<R: Wait, G: GatePoint>(
        &mut self,
        rt: &R,
        shared: &SharedKernel<M>,
        stop: &StopFlag,
        gate: &G,
    ) {
        for round in rt.forever() {
            // Before it looks: what comes behind that wakes it.
            let handover = shared.wake_ups.expect_handover();
            let is_last = stop.is_set();
            if !self.digest_one(rt, shared, gate) {
                if is_last {
                    return;
                }
                handover.wait(rt);
            }
        }
    }

    /// Digests a region, if one is there, and sends it back to its client, digested whole or not; both the client and the migrator are woken. It answers whether one was there.
    pub fn digest_one<R: Wait, G: GatePoint>(
        &mut self,
        rt: &R,
        shared: &SharedKernel<M>,
        gate: &G,
    ) -> bool
        ensures none { result ≡ false → (self.new.tasks ≡ self.old.tasks) × (self.new.returns ≡ self.old.returns) }
        ensures empty { result ≡ false → (items : List (SealedRegionView M)) × (length items ≡ 0) × EndsLine self.old.tasks.hands items }
        ensures returned { result ≡ true → HasReturned M.Media self.old.tasks self.new.tasks self.old.returns.items self.new.returns.items }
    {
        let Some(region) = self.tasks.take(rt) else {
            return false;
        };
        let mut region = region;
        let _ = digest_region(rt, self.alloc, shared, &mut region, gate);
        // Here, not where the client takes it back: this thread has the memory for its next region then, and takes no lock of the allocator for it.
        region.free_records();
        self.send_back(rt, shared, region);
        shared.wake_ups.wake_migrator();
        true
    }

    // Sends a region back to its client, of which no other one is away: so the queue has room.
    fn send_back<R: Wait>(&mut self, rt: &R, shared: &SharedKernel<M>, region: SealedRegion<M>)
        ensures tasks { self.new.tasks ≡ self.old.tasks }
        ensures sent { HasSentAt self.old.returns.items (region.client - 1) region self.new.returns.items }
    {
        // For the proof: its client is one of 1 to 8.
        region.left_now();
        let index = client_index(region.client());
        send(rt, &mut self.returns[index], region);
        shared.wake_ups.wake_client(index);
    }
}

// Puts a region into a queue, once that has room.
fn send<M: Media + Drop, R: Wait>(
    rt: &R,
    queue: &mut QueueEnd<SealedRegion<M>>,
    region: SealedRegion<M>,
)
    ensures { HasSent queue.old region queue.new }
{
    let mut left = region;
    for round in rt.forever() {
        match queue.put(rt, left) {
            Ok(()) => return,
            Err(region) => left = region,
        }
        thread::yield_now();
    }
}
