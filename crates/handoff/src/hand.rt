// What a pass of the queue knows. No value of it is made.
use std::collections::LinkedList;

/// What one place has put and taken, each item with its number in the line of all that was ever put. The newest stands first.
pub struct Hand<T> {
    pub place: u64,
    pub put: LinkedList<(u64, T)>,
    pub taken: LinkedList<(u64, T)>,
}
