//! Clients, workers and a migrator in threads of their own, over one kernel under a lock.
//!
//! A client makes its calls by `ThreadClient::posix`: what a call needs it has served one need at a time, and between the turns it listens, that is, it gives what others ask back and takes its own region back. The
//! regions that clients seal go to the workers by a queue, and come back by one for each client (`handoff`). Workers digest them (`Worker`), and a migrator moves runs of files down (`migrate`).
//!
//! As a call begins, its client hears the rows in which all inodes lie that it holds, and in a turn that was waited all rows; a row is emptied only where it shows something.
//!
//! The lock is held for one need, one chunk or one run at a time; never while a client passes its gate or makes a device call on its own regions. What is promised: the kernel under the lock keeps its own invariant, so
//! it stands at the end of one run of its machine; each sealed region is handed over once; a call is given up with EAGAIN after just as many turns as it was given, in each of which a lease was busy or the region that
//! the client sealed was not back. That a call is answered at all is not promised.
#![tactic(auto)]

mod call_end;
mod call_turns;
mod gate_point;
mod idle_turn;
mod kernel_needs;
mod last_calls;
mod lease_requests;
mod migration;
mod region_digest;
mod region_ends;
mod region_refusal;
mod shared_kernel;
mod stop_flag;
mod thread_client;
mod thread_remains;
mod thread_set;
mod waited;
mod wake_ups;
mod worker;

pub use call_end::CallEnd;
pub use gate_point::{GatePoint, OpenGate};
pub use migration::{migrate, run_migrator};
pub use shared_kernel::SharedKernel;
pub use stop_flag::StopFlag;
pub use thread_client::ThreadClient;
pub use thread_remains::ThreadRemains;
pub use thread_set::{ShareError, ThreadSet};
pub use waited::Waited;
pub use worker::Worker;

/// Of `layout`, what the crates above name.
pub mod in_layout {
    pub use libfs::in_layout::{CLIENTS, Geometry};
}

/// Of `libfs`, what the crates above name.
pub mod in_libfs {
    pub use libfs::{BuryError, Client, Detached, Fate, SealedRegion};
}
