/// A place that a thread passes, where a test may hold it. No lock is held there.
pub trait GatePoint {
    /// Goes through.
    fn pass(&self);

    /// Whether it does nothing: then nobody sees one device call of a record from the next.
    fn is_open(&self) -> bool;
}

/// A gate that holds nobody.
pub struct OpenGate;

impl GatePoint for OpenGate {
    fn pass(&self) {}

    fn is_open(&self) -> bool {
        true
    }
}
