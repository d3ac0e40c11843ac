/// Why nothing is planned.
#[derive(Debug, Drop)]
pub enum PlanError<E> {
    /// There is no memory for it.
    Memory,
    /// A node could not be told.
    Nodes(E),
}
