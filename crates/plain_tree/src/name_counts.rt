ghost use Rattle.std.specs.Prelude.{◌≡◌, ◌≤◌, ◌<◌, ◌+◌, ℕ, Some, length, OnOk};
ghost use Rattle.plain_tree.specs.Plain.{count_at, one_for};
ghost use Rattle.posix_calls.specs.declared.limits.TheConstants.{MAX_NAMES};

use std::alloc::AllocError;

/// Places for the counts of all inodes up to this one, with no names in those that are new.
pub fn make_counts(counts: &mut Vec<u32>, inode: u32) -> Result<(), AllocError>
    ensures same { count_at counts.new.items ≡ count_at counts.old.items }
    ensures room { OnOk result (inode < length counts.new.items) }
{
    for _ in counts.len()..inode as usize + 1 {
        counts.push(0)?;
    }
    Ok(())
}

/// How many names an inode has.
pub fn name_count(counts: &[u32], inode: u32) -> u32
    ensures { result ≡ count_at counts.now inode }
{
    match counts.get(inode as usize) {
        Some(count) => *count,
        None => 0,
    }
}

/// An inode has one name more.
pub fn name_came(counts: &mut Vec<u32>, inode: u32)
    requires room { inode < length counts.old.items }
    requires few { count_at counts.old.items inode ≤ MAX_NAMES }
    ensures { (i : ℕ) → count_at counts.new.items i ≡ count_at counts.old.items i + one_for (Some inode) i }
{
    counts[inode as usize] += 1;
}

/// The inode that a name led to, if it led to any, has one name fewer.
pub fn name_went(counts: &mut Vec<u32>, inode: Option<u32>)
    requires { (i : ℕ) → one_for inode i ≤ count_at counts.old.items i }
    ensures fewer { (i : ℕ) → count_at counts.new.items i + one_for inode i ≡ count_at counts.old.items i }
    ensures kept { length counts.new.items ≡ length counts.old.items }
{
    if let Some(inode) = inode {
        counts[inode as usize] -= 1;
    }
}
