// Two parts, and one call: its draft is put on the shared medium, and then a gate in a region of client 1 is opened, by which
// the draft counts.

/// How far it is.
#[derive(Clone, Copy, PartialEq, Eq)]
pub enum GatedDraft {
    Fresh,
    Drafted,
    /// The gate is written and not fenced.
    Torn,
    Open,
    /// The gate was open, then spoiled, and is open again.
    Mended,
}

/// What may happen to it next.
#[derive(Clone, Copy, PartialEq, Eq)]
pub enum DraftEvent {
    Draft,
    Commit,
}

/// What comes of an event.
#[derive(Clone, Copy, PartialEq, Eq)]
pub enum DraftOutcome {
    Pending,
    Done,
    Idle,
}
