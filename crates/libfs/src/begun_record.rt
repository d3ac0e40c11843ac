use client_view::OwnChange;
use posix_calls::Reply;

/// A call whose record is begun in the client's log.
#[derive(Drop)]
pub struct Begun {
    /// The record, and what the client knows once that is kept.
    pub change: OwnChange,
    /// What is answered then.
    pub reply: Reply,
}
