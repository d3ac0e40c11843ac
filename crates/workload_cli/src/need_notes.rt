// A running system that notes what its calls need.
use call_driver::Events;
use call_driver::in_client_plan::{Mode, Need};
use call_driver::in_event_steps::{Event, Outcome};
use call_driver::in_lease_manager::LeaseMode;
use call_driver::in_libfs::Life;
use std::alloc::Global;
use std::io::Write;

/// A running system that notes each need of a call, in a line of its own.
#[derive(Drop)]
pub struct Noting<S> {
    pub system: S,
    pub notes: Vec<u8>,
}

impl<S> Noting<S> {
    /// Begins with no note.
    pub fn new(alloc: Global, system: S) -> Self {
        Noting {
            system,
            notes: Vec::new(alloc),
        }
    }
}

impl<S: Events> Events for Noting<S> {
    ghost plays = { λ s e o t. S.plays s.system e o t.system };

    ghost leases = { λ s c i. S.leases s.system c i };

    ghost pending = { λ s c. S.pending s.system c };

    ghost failed = { λ s c. S.failed s.system c };

    ghost undigested_count = { λ s c. S.undigested_count s.system c };

    ghost lives = { λ s c. S.lives s.system c };

    fn play(&mut self, event: &Event) -> Outcome {
        let outcome = self.system.play(event);
        if let Outcome::Need { need } = &outcome {
            note(&mut self.notes, *need);
        }
        outcome
    }

    fn holds(&self, client: u32, inode: u32) -> LeaseMode {
        self.system.holds(client, inode)
    }

    fn is_pending(&self, client: u32) -> bool {
        self.system.is_pending(client)
    }

    fn has_failed(&self, client: u32) -> bool {
        self.system.has_failed(client)
    }

    fn undigested(&self, client: u32) -> usize {
        self.system.undigested(client)
    }

    fn life(&self, client: u32) -> Life {
        self.system.life(client)
    }
}

fn note(notes: &mut Vec<u8>, need: Need) {
    let (word, number) = words(need);
    let _ = writeln!(notes, "need {word} {number}");
}

// A need's word, and its inode or how much is wanted.
fn words(need: Need) -> (&'static str, u32) {
    match need {
        Need::Unpin { inode } => ("unpin", inode),
        Need::Lease {
            inode,
            mode: Mode::Read,
        } => ("read", inode),
        Need::Lease {
            inode,
            mode: Mode::Write,
        } => ("write", inode),
        Need::View { inode } => ("view", inode),
        Need::Blocks { count, .. } => ("blocks", count),
        Need::Inodes { count } => ("inodes", count),
        Need::Units { count } => ("units", count),
        Need::Pin { inode } => ("pin", inode),
        Need::Room => ("room", 1),
    }
}
