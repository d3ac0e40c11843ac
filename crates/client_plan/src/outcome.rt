use crate::need::Need;
use call_effects::in_log_record::Record;
use posix_calls::{Descriptor, Reply};

/// What becomes of one of a client's descriptors: something is open at the number, or nothing any more.
#[derive(Clone, Copy)]
pub struct DescriptorChange {
    pub number: u32,
    pub what: Option<Descriptor>,
}

/// What a call comes to.
#[derive(Drop)]
pub enum Outcome {
    /// It is answered, and nothing is logged; this descriptor changes, if one does.
    Reply {
        reply: Reply,
        change: Option<DescriptorChange>,
    },
    /// This is lacking first.
    Need {
        need: Need,
    },
    /// It is answered once this record is in the client's log. `made` is the number of the node that it makes, which is used then.
    Log {
        record: Record,
        reply: Reply,
        made: Option<u32>,
        change: Option<DescriptorChange>,
    },
}
