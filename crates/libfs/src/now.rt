use client_view::in_client_plan::Need;
use posix_calls::Reply;

/// What becomes of a call as it is started.
#[derive(Drop)]
pub enum Now {
    /// It is answered.
    Done { reply: Reply },
    /// Its record is begun: it is answered by the last of its steps.
    Pending,
    /// This is lacking first. Nothing has begun, and the same call may be started again.
    Need { need: Need },
}
