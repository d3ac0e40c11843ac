ghost use Rattle.std.specs.Prelude.{List, ℕ, Result};
ghost use Rattle.posix_calls.specs.declared.call.Call.{Call};
ghost use Rattle.posix_calls.specs.declared.call.Reply.{Reply};
ghost use Rattle.posix_calls.specs.declared.errno.Errno.{Errno};
ghost use Rattle.mount_nodes.specs.declared.tree.Usage.{Usage};

use posix_calls::{Call, Errno, Path, Reply};

/// How much there is of a tree, and how much of that is free.
#[derive(Clone, Copy)]
pub struct Usage {
    /// Units in all, of 4,096 bytes.
    pub units: u64,
    /// Units that nothing has.
    pub free: u64,
    /// Inode numbers that no file or directory has.
    pub free_nodes: u64,
}

/// A file tree that answers the calls of the mount's client, one after the other. Nobody else changes it.
pub trait Tree {
    /// That a tree is asked a call, answers it so, and becomes another tree.
    ghost asks: { Self → Call → Reply → Self → Type 0 };

    /// That a tree is asked which file the names of a path lead to, answers it so, and becomes another tree.
    ghost finds: { Self → List (List ℕ) → Result ℕ Errno → Self → Type 0 };

    /// That a tree answers how much there is of it, and becomes another tree.
    ghost measures: { Self → Usage → Self → Type 0 };

    /// Carries out a call. What it answers is kept by then.
    fn call(&mut self, call: Call) -> Reply
        ensures { asks self.old call result self.new };

    /// The number of the file that a path leads to, by which two names of a file are known to be one; else why it can't be found out
    /// now.
    fn inode(&mut self, path: &Path) -> Result<u32, Errno>
        ensures { finds self.old path.now result self.new };

    /// How much there is, and is free.
    fn usage(&mut self) -> Usage
        ensures { measures self.old result self.new };

    /// Does what is to be done in idle time, behind a reply.
    fn use_idle_time(&mut self);
}
