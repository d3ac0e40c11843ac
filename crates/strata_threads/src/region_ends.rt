//! A client's ends of the queues by which its regions go to the workers and come back.
ghost use Rattle.std.specs.Prelude.{◌≡◌, IfNone, IfSome, IsSome, MatchOption, None, Some};
ghost use Rattle.strata_threads.specs.RegionHandover.{HasLookedAt, HasSentOrKept};

use crate::shared_kernel::SharedKernel;
use handoff::QueueEnd;
use libfs::SealedRegion;
use std::sync::Wait;
use tier_device::Media;

/// The ends of the queue to the workers and of the one back, and the region for which the first had no room.
#[derive(Drop)]
pub(crate) struct RegionEnds<M: Media + Drop> {
    pub(crate) tasks: QueueEnd<SealedRegion<M>>,
    pub(crate) returns: QueueEnd<SealedRegion<M>>,
    pub(crate) kept: Option<SealedRegion<M>>,
}

impl<M: Media + Drop> RegionEnds<M> {
    // The ends of a client that has sent nothing.
    pub(crate) fn new(
        tasks: QueueEnd<SealedRegion<M>>,
        returns: QueueEnd<SealedRegion<M>>,
    ) -> Self {
        RegionEnds {
            tasks,
            returns,
            kept: None,
        }
    }

    // The region that came back, if one did. One that the queue to the workers had no room for goes first, and is looked for later.
    pub(crate) fn take<R: Wait>(
        &mut self,
        rt: &R,
        shared: &SharedKernel<M>,
    ) -> Option<SealedRegion<M>>
        ensures free { IsSome result → self.new.kept ≡ None }
        ensures looked { self.old.kept ≡ None → HasLookedAt self.old.returns result self.new.returns × (self.new.tasks ≡ self.old.tasks) × (self.new.kept ≡ None) }
    {
        self.put_kept(rt, shared);
        if self.kept.is_some() {
            return None;
        }
        self.returns.take(rt)
    }

    // Sends the region for which the queue had no room.
    fn put_kept<R: Wait>(&mut self, rt: &R, shared: &SharedKernel<M>)
        ensures sent { IfSome self.old.kept (λ region. HasSentOrKept self.old.tasks region self.new.tasks self.new.kept) }
        ensures none { IfNone self.old.kept ((self.new.tasks ≡ self.old.tasks) × (self.new.kept ≡ None)) }
        ensures returns { self.new.returns ≡ self.old.returns }
    {
        match self.kept.take() {
            Some(region) => self.send(rt, shared, region),
            None => {}
        }
    }

    // Sends a region to the workers; where the queue is full it is kept. No other one is kept, which would be lost.
    pub(crate) fn send<R: Wait>(
        &mut self,
        rt: &R,
        shared: &SharedKernel<M>,
        region: SealedRegion<M>,
    )
        requires free { self.old.kept ≡ None }
        ensures sent { HasSentOrKept self.old.tasks region self.new.tasks self.new.kept }
        ensures returns { self.new.returns ≡ self.old.returns }
    {
        match self.tasks.put(rt, region) {
            Ok(()) => shared.wake_ups.wake_worker(),
            Err(region) => self.kept = Some(region),
        }
    }

    // The region that is here on its way: the one that the queue to the workers had no room for, or that came by the other.
    pub(crate) fn into_region<R: Wait>(self, rt: &R) -> Option<SealedRegion<M>>
        ensures { IfSome self.kept (λ region. result ≡ Some region) }
    {
        let RegionEnds { returns, kept, .. } = self;
        let mut returns = returns;
        match kept {
            Some(region) => Some(region),
            None => returns.take(rt),
        }
    }
}
