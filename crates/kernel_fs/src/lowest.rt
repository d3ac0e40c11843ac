ghost use Rattle.std.specs.Prelude.{◌≡◌, ◌<◌, ℕ, IfSome, None};
ghost use Rattle.kernel_fs.specs.Free.{AreLowest, count_of, is_absent};
ghost use Rattle.kernel_fs.specs.Inodes.{has};

use crate::inode_set::InodeSet;

// So many of the lowest inodes that are not in the set; none where fewer are not.
pub(crate) fn lowest_absent(mut taken: InodeSet, count: u32) -> Option<InodeSet>
    ensures lowest { IfSome result (λ chosen. AreLowest (is_absent (has taken)) (has chosen) count) }
    ensures none { result ≡ None → count_of (is_absent (has taken)) < count }
{
    let mut chosen = InodeSet::new();
    'chosen: for _ in 0..count {
        let inode = taken.first_absent()?;
        taken.insert(inode);
        chosen.insert(inode);
    }
    Some(chosen)
}
