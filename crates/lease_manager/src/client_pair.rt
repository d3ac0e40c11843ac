// Two clients meet.
ghost use Rattle.std.specs.Prelude.{◌≡◌, [], ◌∷◌};
ghost use Rattle.seat_book.specs.Book.{HoldsPart};
ghost use Rattle.lease_manager.specs.Parts.{AreCompatible, ShareHistory};

use crate::pass::Pass;
use crate::rule::{Aside, FirstStays, Meets, Together};
use crate::table::Leases;
use std::mem;

impl Leases {
    /// Two clients meet: of each inode one of them writes and the other holds nothing, or neither writes; and the steps of both
    /// stand in one history.
    /// A step sees one seat alone, so the second seat is joined with the first for one load, and cut off again.
    pub fn meet(&self, one: &mut Pass, other: &mut Pass)
        requires one { one.old.table ≡ self.now }
        requires other { other.old.table ≡ self.now }
        ensures same { (one.new ≡ one.old) × (other.new ≡ other.old) }
        ensures leases { AreCompatible one.old.part other.old.part }
        ensures history { ShareHistory (HoldsPart (one.old.part ∷ other.old.part ∷ [])) }
    {
        let shared = self.words();
        let aside = shared.split_seat::<Aside>(&mut one.seat);
        let theirs = mem::replace(&mut other.seat, aside);
        shared.join_seat::<Together>(&mut one.seat, theirs);
        shared.load::<Meets>(&mut one.seat, 0);
        other.seat = shared.split_seat::<FirstStays>(&mut one.seat);
    }
}
