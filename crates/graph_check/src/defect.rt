//! What makes a graph unsound, and why a graph is refused.

/// What makes a graph unsound at an inode.
#[derive(Clone, Copy, Debug, PartialEq, Eq)]
pub enum Defect {
    /// The root is no directory.
    NoRoot,
    /// A directory has an entry that names no inode, or one without a node of the entry's kind.
    StrayEntry,
    /// The stored count of names is not the number of entries which name the inode; the root has one name more.
    WrongCount,
    /// A directory has stored another count of names than 1.
    NotOneName,
    /// No path leads to a directory.
    Unreachable,
}

/// A defect and its inode.
#[derive(Clone, Copy)]
pub struct Finding {
    pub inode: u32,
    pub defect: Defect,
}

/// Why a graph is refused.
#[derive(Debug, Drop)]
pub enum GraphError<E> {
    /// There is no memory to check it.
    Memory,
    /// A question for a node was refused.
    Nodes(E),
    /// It is unsound where nobody has a file open: that inode has this defect.
    Unsound { inode: u32, defect: Defect },
}
