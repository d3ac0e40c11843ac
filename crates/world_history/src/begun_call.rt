// A begun call, as a type of which no value is made.
use posix_calls::{Call, Operation};
use world_invariant::in_log_record::Record;

/// A call that begins a record, the number of a node that it makes, its operation, and the record.
pub struct BegunCall {
    pub call: Call,
    pub new: u64,
    pub operation: Operation,
    pub change: Record,
}
