// Records on an inode are counted, so that a write lease is not given while one is undigested.
ghost use Rattle.std.specs.Prelude.{◌≡◌, ◌+◌, ◌-◌, ◌^◌, ◌<◌, ◌≤◌};
ghost use Rattle.lease_manager.specs.declared.view.LeaseMode.TheVariants.{Writing};
ghost use Rattle.lease_manager.specs.Words.{HasWord};
ghost use Rattle.lease_manager.specs.Passes.{lease_of, records_of, with_records};

use crate::layout::lease_word;
use crate::pass::Pass;
use crate::table::Leases;

impl Leases {
    /// Counts one more record on an inode, which the client holds for writing. It makes no step on the table.
    pub fn note(&self, pass: &mut Pass, ino: u32)
        requires inode { HasWord ino }
        requires held { lease_of pass.old ino ≡ Writing }
        requires room { records_of pass.old ino + 1 < 2 ^ 64 }
        ensures noted { pass.new ≡ with_records pass.old ino (records_of pass.old ino + 1) }
        ensures count { records_of pass.new ino ≡ records_of pass.old ino + 1 }
    {
        pass.counts[lease_word(ino)] += 1;
    }

    /// Takes records on an inode out of the count, once they are digested. It makes no step on the table.
    pub fn clean(&self, pass: &mut Pass, ino: u32, count: u64)
        requires inode { HasWord ino }
        requires there { count ≤ records_of pass.old ino }
        ensures cleaned { pass.new ≡ with_records pass.old ino (records_of pass.old ino - count) }
        ensures count { records_of pass.new ino + count ≡ records_of pass.old ino }
    {
        pass.counts[lease_word(ino)] -= count;
    }
}
