// The calls that make and remove a directory: mkdir, rmdir.
ghost use Rattle.std.specs.Prelude.{◌≡◌, Err, true, false};
ghost use Rattle.posix_calls.specs.FirstName.{comes_to_name};
ghost use Rattle.posix_calls.specs.Walk.{is_root};
ghost use Rattle.posix_calls.specs.declared.operation.DecideError.TheVariants.{Memory};
ghost use Rattle.posix_calls.specs.Answers.{IsAnswer};
ghost use Rattle.posix_calls.specs.Decide.{mkdir, rmdir, rmdir_at};

use crate::errno::Errno;
use crate::operation::{DecideError, Operation};
use crate::path::Path;
use crate::tree_answers::TreeAnswers;
use crate::walk::{location, prefix, reach, read_path, refuse_entries, refuse_if, refuse_root};
use std::alloc::Global;

// Decides `mkdir`: the errors in their order, then the operation.
pub(crate) fn mkdir<T: TreeAnswers>(
    alloc: Global,
    tree: &T,
    bytes: &[u8],
) -> Result<Operation, DecideError>
    ensures answer { IsAnswer (T.part tree.now) (mkdir bytes.now) result }
    ensures memory { result ≡ Err Memory → comes_to_name bytes.now ≡ true }
{
    let path = read_path(alloc, bytes)?;
    let to = prefix(tree, &path)?;
    refuse_if(to.is_there(), Errno::Exists)?;
    refuse_if(to.is_full(), Errno::NoSpace)?;
    let at = location(alloc, to.parent, &path)?;
    Ok(Operation::NewDir { at })
}

// Decides `rmdir`: the errors in their order, then the operation.
pub(crate) fn rmdir<T: TreeAnswers>(
    alloc: Global,
    tree: &T,
    bytes: &[u8],
) -> Result<Operation, DecideError>
    ensures answer { IsAnswer (T.part tree.now) (rmdir bytes.now) result }
    ensures memory { result ≡ Err Memory → comes_to_name bytes.now ≡ true }
{
    let path = read_path(alloc, bytes)?;
    rmdir_at(alloc, tree, &path)
}

// What follows once the path is read.
fn rmdir_at<T: TreeAnswers>(alloc: Global, tree: &T, path: &Path) -> Result<Operation, DecideError>
    ensures answer { IsAnswer (T.part tree.now) (rmdir_at path.now) result }
    ensures memory { result ≡ Err Memory → is_root path.now ≡ false }
{
    refuse_root(path)?;
    let to = reach(tree, path, true, Errno::NotDirectory)?;
    refuse_entries(tree, to.inode)?;
    let at = location(alloc, to.parent, path)?;
    Ok(Operation::RemoveDir {
        at,
        inode: to.inode,
    })
}
