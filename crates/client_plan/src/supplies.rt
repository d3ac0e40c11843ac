ghost use Rattle.std.specs.Prelude.{◌≡◌};
ghost use Rattle.posix_calls.specs.Own.{own_of};
ghost use Rattle.client_plan.specs.Holdings.{Holdings, may_read};

use posix_calls::OwnDescriptors;

/// Who has what a client needs for its calls, beside what it knows of the tree: descriptors, leases, pins, granted numbers and units, and
/// room in the region that it writes.
pub trait Supplies {
    /// All of it.
    ghost holdings: { Self → Holdings };

    /// What is open.
    fn own(&self) -> &OwnDescriptors
        ensures { own_of result.now ≡ (holdings self.now).own };

    /// Whether the client holds an inode for reading or for writing.
    fn may_read(&self, inode: u32) -> bool
        ensures { result ≡ may_read (holdings self.now) inode };

    /// Whether the client holds an inode for writing.
    fn may_write(&self, inode: u32) -> bool
        ensures { result ≡ (holdings self.now).writes inode };

    /// The inodes that are pinned.
    fn pins(&self) -> &[u32]
        ensures { result.now ≡ (holdings self.now).pins };

    /// The numbers for new nodes that were granted and are not used; the first is used next.
    fn numbers(&self) -> &[u32]
        ensures { result.now ≡ (holdings self.now).numbers };

    /// The units that were granted and are not used.
    fn spare(&self) -> u32
        ensures { result ≡ (holdings self.now).spare };

    /// How many bytes the next record may have at most; `None` where the region is away or not wiped, or has no room at all.
    fn room(&self) -> Option<usize>
        ensures { result ≡ (holdings self.now).room };
}
