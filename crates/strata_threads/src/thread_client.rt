ghost use Rattle.std.specs.Prelude.{◌≡◌, false, IfSome, Some};
ghost use Rattle.libfs.specs.View.{is_pending};
ghost use Rattle.libfs.specs.declared.life.Life.TheVariants as lives;
ghost use Rattle.strata_threads.specs.HeardQuestions.{HoldsWithin, NeedsRows};

use crate::idle_turn::held_rows;
use crate::region_ends::RegionEnds;
use crate::thread_remains::ThreadRemains;
use crate::waited::Waited;
use libfs::{Client, SealedRegion};
use std::sync::Wait;
use tier_device::Media;

/// A client in a thread of its own, of which no call waits for its answer, with its ends of the two queues by which its regions go to the workers and come back.
#[derive(Drop)]
pub struct ThreadClient<M: Media + Drop> {
    // The client, which no other thread has
    pub(crate) client: Client<M>,
    pub(crate) ends: RegionEnds<M>,
    // What others asked back and is not given yet: bit b of row r is inode 64 r + b + 1
    pub(crate) asked: [u64; 16],
    // The rows up to the last one of which it may hold an inode
    pub(crate) rows: u32,
    /// How many turns its last call has waited, and which inodes it waited to write.
    pub waited: Waited,
    ghost idle: { is_pending client ≡ false },
    // Of the rows behind these it has nothing to give.
    ghost within: { HoldsWithin rows client },
}

impl<M: Media + Drop> ThreadClient<M> {
    // A client that has not made a call.
    pub(crate) fn new(client: Client<M>, ends: RegionEnds<M>) -> Self
        requires idle { is_pending client ≡ false }
        ensures client { result.client ≡ client }
        ensures ends { result.ends ≡ ends }
        ensures rows { NeedsRows result.rows client }
    {
        let rows = held_rows(&client);
        ThreadClient {
            client,
            ends,
            asked: [0; 16],
            rows,
            waited: Waited::none_of(0),
        }
    }

    /// The client, which takes its leases by calls alone.
    pub fn client(&self) -> &Client<M>
        ensures { result.now ≡ self.now.client }
    {
        &self.client
    }

    /// The client, and its region that is on the way back to it, if it is here: the one that came by the queue, or that the queue to the workers had no room for.
    pub fn into_parts<R: Wait>(self, rt: &R) -> (Client<M>, Option<SealedRegion<M>>)
        ensures client { result.0 ≡ self.client }
        ensures region { IfSome self.ends.kept (λ region. result.1 ≡ Some region) }
    {
        let ThreadClient { client, ends, .. } = self;
        (client, ends.into_region(rt))
    }

    /// The client dies: it makes no call any more, and all that it held stays as it is. It makes no device call and takes no memory.
    pub fn abandon(self) -> ThreadRemains<M>
        ensures remains { result.remains ≡ record { client = self.client; life = lives.Dead } }
        ensures ends { result.ends ≡ self.ends }
    {
        let ThreadClient { client, ends, .. } = self;
        ThreadRemains {
            remains: client.abandon(),
            ends,
        }
    }
}
