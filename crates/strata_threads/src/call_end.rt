use crate::thread_client::ThreadClient;
use crate::thread_remains::ThreadRemains;
use posix_calls::Reply;
use tier_device::Media;

/// How a call ended of a client that may die in it.
#[derive(Drop)]
pub enum CallEnd<M: Media + Drop> {
    /// It is answered.
    Answered {
        client: ThreadClient<M>,
        reply: Reply,
    },
    /// Its client died before it was answered.
    Died {
        remains: ThreadRemains<M>,
    },
}
