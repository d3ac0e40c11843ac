// When the nodes of a mount changed.
ghost use Rattle.std.specs.Prelude.{◌≡◌, ◌≤◌, None, IfOk, OnErr, OnOk};
ghost use Rattle.mount_nodes.specs.Times.{Adds, GoesOn, Stays, IsBegun, IsNamed, IsSet, IsTouched, IsWritten, Meets, Puts, Runs, first_stamp, named_stamp, next_time, set_stamp, stamp_at, time_of, told_of, touched_stamp, written_stamp};

use fuse_wire::{NewTime, Time};
use std::alloc::{AllocError, Global};

/// The nanoseconds of a second.
const SECOND: u64 = 1_000_000_000;

/// When a node was changed, in nanoseconds from the beginning of 1970 on.
#[derive(Clone, Copy)]
pub struct Stamp {
    /// How many nodes had its number, this one among them.
    pub generation: u64,
    /// When its bytes, its entries or its names were changed last.
    pub changed: u64,
    /// When its bytes or its entries were.
    pub written: u64,
    /// The time that was set for that, if one was since.
    pub modified: Option<Time>,
    /// The time that was set for its last reading.
    pub accessed: Option<Time>,
}

/// The times that are told of a node: of its last reading, of the last change of its bytes or entries, and of its last change at all.
#[derive(Clone, Copy)]
pub struct NodeTimes {
    pub accessed: Time,
    pub modified: Time,
    pub changed: Time,
}

/// When each node was changed. A change gets the time of day, and one that is later than those of all changes before it.
#[derive(Drop)]
pub struct Times {
    // when the mount began, which is told of what it has not seen change
    pub(crate) began: u64,
    // the last time that a change got
    pub(crate) last: u64,
    // the time of day, as it was seen last
    pub(crate) day: u64,
    // those of the nodes, by their numbers
    pub(crate) stamps: Vec<Stamp>,
}

impl Times {
    /// The times of a mount that begins now, with its root.
    pub(crate) fn new(alloc: Global, now: u64) -> Result<Times, AllocError>
        ensures { IfOk result (λ times. IsBegun times now) }
    {
        let mut stamps = Vec::new(alloc);
        stamps.push(first_stamp(0, now))?;
        stamps.push(first_stamp(1, now))?;
        Ok(Times {
            began: now,
            last: now,
            day: now,
            stamps,
        })
    }

    /// Sets the time of day, in nanoseconds from the beginning of 1970 on.
    pub fn see(&mut self, now: u64)
        ensures { self.new ≡ record self.old { day = now } }
    {
        self.day = now;
    }

    /// The times of a node. Of what has no number they are those of the last change of all.
    pub fn node_times(&self, id: u64) -> NodeTimes
        ensures { result ≡ told_of (stamp_at self.now id) }
    {
        stamp_times(self.stamp(id))
    }

    /// How many nodes had a number, the one that has it among them.
    pub fn generation(&self, id: u64) -> u64
        ensures { result ≡ (stamp_at self.now id).generation }
    {
        self.stamp(id).generation
    }

    // The stamp of a node; of a number that no node has had, it is that of the last change of all.
    fn stamp(&self, id: u64) -> Stamp
        ensures { result ≡ stamp_at self.now id }
    {
        match self.stamps.get(id as usize) {
            Some(stamp) => *stamp,
            None => first_stamp(0, self.last),
        }
    }

    // Puts a stamp in the place of another one, where the number was given.
    fn put(&mut self, id: u64, stamp: Stamp)
        ensures { Puts self.old self.new id stamp }
    {
        let place = id as usize;
        if place < self.stamps.len() {
            self.stamps[place] = stamp;
        }
    }

    // Adds the stamp of the next number, which was not given so far.
    fn add(&mut self, stamp: Stamp) -> Result<(), AllocError>
        ensures added { OnOk result (Adds self.old self.new stamp) }
        ensures refused { OnErr result (Stays self.old self.new) }
    {
        self.stamps.push(stamp)?;
        Ok(())
    }

    /// Begins the times of a node that gets a number: it was not changed since the mount began. Refused where memory is wanting.
    #[tactic(auto, using(crate::proofs::StampLemmas::put_meets, crate::proofs::StampLemmas::added_meets, crate::proofs::TimeLemmas::met_same))]
    pub(crate) fn begin(&mut self, id: u64) -> Result<(), AllocError>
        ensures { Meets self.old self.new }
    {
        let generation = self.generation(id);
        let count = self.stamps.len() as u64;
        if generation == u64::MAX || id > count {
            return Err(AllocError);
        }
        let stamp = first_stamp(generation + 1, self.began);
        if id == count {
            return self.add(stamp);
        }
        self.put(id, stamp);
        Ok(())
    }

    /// Notes that the bytes or the entries of a node were changed now.
    pub(crate) fn write(&mut self, id: u64)
        ensures runs { Runs self.old self.new }
        ensures written { IsWritten self.old self.new id }
    {
        let time = self.take_next();
        let was = self.stamp(id);
        self.put(id, written_stamp(was, time));
    }

    /// Notes that a node has lost a name now.
    pub(crate) fn touch(&mut self, id: u64)
        ensures runs { Runs self.old self.new }
        ensures touched { IsTouched self.old self.new id }
    {
        let time = self.take_next();
        let was = self.stamp(id);
        self.put(id, touched_stamp(was, time));
    }

    /// Notes that a node has got a name now. Where it was not changed since the mount began, another node of the same time may have had that
    /// name, so this counts as a change of its bytes.
    pub(crate) fn give_name(&mut self, id: u64)
        ensures runs { Runs self.old self.new }
        ensures named { IsNamed self.old self.new id }
    {
        let time = self.take_next();
        let was = self.stamp(id);
        self.put(id, named_stamp(was, time, self.began));
    }

    /// Sets the times of a node that are given.
    pub(crate) fn set(&mut self, id: u64, accessed: Option<NewTime>, modified: Option<NewTime>)
        ensures goes_on { GoesOn self.old self.new }
        ensures set { IsSet self.new id accessed modified }
        ensures kept { accessed ≡ None → modified ≡ None → self.new ≡ self.old }
    {
        if accessed.is_none() && modified.is_none() {
            return;
        }
        let time = self.take_next();
        let was = self.stamp(id);
        self.put(id, set_stamp(was, time, accessed, modified));
    }

    // The time of a change that is made now.
    fn take_next(&mut self) -> u64
        ensures next { result ≡ next_time self.old }
        ensures rises { self.old.last ≤ result }
        ensures noted { self.new ≡ record self.old { last = result } }
    {
        self.last = self.day.max(self.last.saturating_add(1));
        self.last
    }
}

// The stamp of a node of which no change was seen since a time.
fn first_stamp(generation: u64, began: u64) -> Stamp
    ensures { result ≡ first_stamp generation began }
{
    Stamp {
        generation,
        changed: began,
        written: began,
        modified: None,
        accessed: None,
    }
}

// The stamp of a node whose bytes or entries are changed at a time.
fn written_stamp(stamp: Stamp, time: u64) -> Stamp
    ensures { result ≡ written_stamp stamp time }
{
    Stamp {
        generation: stamp.generation,
        changed: time,
        written: time,
        modified: None,
        accessed: stamp.accessed,
    }
}

// That of one of which something else is.
fn touched_stamp(stamp: Stamp, time: u64) -> Stamp
    ensures { result ≡ touched_stamp stamp time }
{
    Stamp {
        generation: stamp.generation,
        changed: time,
        written: stamp.written,
        modified: stamp.modified,
        accessed: stamp.accessed,
    }
}

// That of one that gets a name.
fn named_stamp(stamp: Stamp, time: u64, began: u64) -> Stamp
    ensures { result ≡ named_stamp stamp time began }
{
    Stamp {
        generation: stamp.generation,
        changed: time,
        written: if stamp.written == began {
            time
        } else {
            stamp.written
        },
        modified: stamp.modified,
        accessed: stamp.accessed,
    }
}

// That of one whose times are set.
fn set_stamp(stamp: Stamp, time: u64, accessed: Option<NewTime>, modified: Option<NewTime>) -> Stamp
    ensures { result ≡ set_stamp stamp time accessed modified }
{
    Stamp {
        generation: stamp.generation,
        changed: time,
        written: match modified {
            Some(NewTime::Now) => time,
            _ => stamp.written,
        },
        modified: match modified {
            Some(NewTime::Now) => None,
            Some(NewTime::At(given)) => Some(given),
            None => stamp.modified,
        },
        accessed: match accessed {
            Some(NewTime::Now) => Some(time_of(time)),
            Some(NewTime::At(given)) => Some(given),
            None => stamp.accessed,
        },
    }
}

fn stamp_times(stamp: Stamp) -> NodeTimes
    ensures { result ≡ told_of stamp }
{
    let written = time_of(stamp.written);
    NodeTimes {
        accessed: stamp.accessed.unwrap_or(written),
        modified: stamp.modified.unwrap_or(written),
        changed: time_of(stamp.changed),
    }
}

// A time as seconds and nanoseconds.
fn time_of(time: u64) -> Time
    ensures { result ≡ time_of time }
{
    Time {
        seconds: time / SECOND,
        nanoseconds: (time % SECOND) as u32,
    }
}
