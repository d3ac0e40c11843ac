use crate::enter_room::EnterRoom;
use client_plan::DescriptorChange;
use client_plan::in_log_record::Record;

/// A change that a client makes by a record of its own, with what has to be ready for its commit, for which all memory is taken.
#[derive(Drop)]
pub struct OwnChange {
    /// The record, which goes into the client's log first.
    pub logged: Record,
    /// The number of the node that it makes, if it makes one.
    pub made: Option<u32>,
    /// The descriptor that it changes, if it changes one.
    pub descriptor: Option<DescriptorChange>,
    // For each of its effects what it needs, if it enters a name.
    pub(crate) rooms: Vec<Option<EnterRoom>>,
}
