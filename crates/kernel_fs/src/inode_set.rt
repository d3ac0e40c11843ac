ghost use Rattle.std.specs.Prelude.{◌≡◌, ◌<◌, ◌||◌, ◌&&◌, ◌↔◌, ℕ, IsTrue, not, true, false, IfSome, None};
ghost use Rattle.world_invariant.specs.LeaseSteps.{also, without};
ghost use Rattle.kernel_fs.specs.Inodes.{IsInode, is_inode, has};

use posix_calls::MAX_INODE;
use std::marker::Model;

// Rows of 64 inodes each.
const ROWS: usize = 16;

/// A set of inodes, which are numbered from 1 to 1,024. It has a constant size, and takes no memory.
#[derive(Drop)]
pub struct InodeSet {
    rows: [u64; ROWS],
}

impl Model for InodeSet {
    ghost use Rattle.std.specs.Prelude.{ℕ, List, get_or, ◌<◌, ◌^◌};

    ghost Value = { List ℕ };

    ghost view = { λ s. s.rows };

    // each row has 64 bits
    ghost invariant = { λ s. (r : ℕ) → get_or s.rows r 0 < 2 ^ 64 };
}

// Whether it is an inode's number.
fn is_inode(inode: u32) -> bool
    ensures { result ≡ is_inode inode }
{
    0 < inode && inode <= MAX_INODE
}

impl InodeSet {
    /// No inode.
    pub fn new() -> Self
        ensures { (i : ℕ) → has result i ≡ false }
    {
        InodeSet { rows: [0; ROWS] }
    }

    /// Whether an inode is in the set; 0 and all above 1,024 are in none.
    pub fn contains(&self, inode: u32) -> bool
        ensures { result ≡ has self.now inode }
    {
        if !is_inode(inode) {
            return false;
        }
        let place = (inode - 1) as usize;
        (self.rows[place / 64] >> (place % 64)) & 1 == 1
    }

    /// Puts an inode into the set.
    pub fn insert(&mut self, inode: u32)
        requires { IsInode inode }
        ensures { (i : ℕ) → has self.new i ≡ also (has self.old) inode i }
    {
        let place = (inode - 1) as usize;
        self.rows[place / 64] |= 1 << (place % 64);
    }

    /// Takes an inode out of the set.
    pub fn remove(&mut self, inode: u32)
        ensures { (i : ℕ) → has self.new i ≡ without (has self.old) inode i }
    {
        if !is_inode(inode) {
            return;
        }
        let place = (inode - 1) as usize;
        self.rows[place / 64] &= !(1 << (place % 64));
    }

    /// Puts all inodes of another set into this one.
    pub fn insert_all(&mut self, more: &InodeSet)
        ensures { (i : ℕ) → has self.new i ≡ (has self.old i || has more.now i) }
    {
        'rows: for row in 0..ROWS {
            self.rows[row] |= more.rows[row];
        }
    }

    /// Takes all inodes of another set out of this one.
    pub fn remove_all(&mut self, gone: &InodeSet)
        ensures { (i : ℕ) → has self.new i ≡ (has self.old i && not (has gone.now i)) }
    {
        'rows: for row in 0..ROWS {
            self.rows[row] &= !gone.rows[row];
        }
    }

    /// Whether all inodes of another set are in this one.
    pub fn contains_all(&self, some: &InodeSet) -> bool
        ensures { IsTrue result ↔ ((i : ℕ) → has some.now i ≡ true → has self.now i ≡ true) }
    {
        'rows: for row in 0..ROWS {
            if some.rows[row] & !self.rows[row] != 0 {
                return false;
            }
        }
        true
    }

    /// The lowest inode of the set.
    pub fn first(&self) -> Option<u32>
        ensures first { IfSome result (λ i. IsInode i × (has self.now i ≡ true) × ((j : ℕ) → j < i → has self.now j ≡ false)) }
        ensures none { result ≡ None → (j : ℕ) → has self.now j ≡ false }
    {
        'rows: for row in 0..ROWS {
            let bits = self.rows[row];
            if bits != 0 {
                return Some(row as u32 * 64 + bits.trailing_zeros() + 1);
            }
        }
        None
    }

    /// The lowest inode that is not in the set.
    pub fn first_absent(&self) -> Option<u32>
        ensures first { IfSome result (λ i. IsInode i × (has self.now i ≡ false) × ((j : ℕ) → IsInode j → j < i → has self.now j ≡ true)) }
        ensures none { result ≡ None → (j : ℕ) → IsInode j → has self.now j ≡ true }
    {
        'rows: for row in 0..ROWS {
            let bits = self.rows[row];
            if bits != u64::MAX {
                return Some(row as u32 * 64 + bits.trailing_ones() + 1);
            }
        }
        None
    }
}
