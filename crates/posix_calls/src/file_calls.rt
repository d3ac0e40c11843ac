// The calls that cut a file and remove a name of it: truncate, unlink.
ghost use Rattle.std.specs.Prelude.{◌≡◌, Err, true, false};
ghost use Rattle.posix_calls.specs.FirstName.{comes_to_name};
ghost use Rattle.posix_calls.specs.Walk.{is_root};
ghost use Rattle.posix_calls.specs.declared.operation.DecideError.TheVariants.{Memory};
ghost use Rattle.posix_calls.specs.Answers.{IsAnswer};
ghost use Rattle.posix_calls.specs.Decide.{truncate, unlink, unlink_at};

use crate::call::Reply;
use crate::errno::Errno;
use crate::limits::MAX_FILE;
use crate::operation::{DecideError, Missing, Operation};
use crate::path::Path;
use crate::tree_answers::{TreeAnswers, known_or_missing};
use crate::walk::{location, reach, read_path, refuse_if, refuse_root};
use std::alloc::Global;

// Decides `truncate`; a file that has this length already is left as it is.
pub(crate) fn truncate<T: TreeAnswers>(
    alloc: Global,
    tree: &T,
    bytes: &[u8],
    len: u64,
) -> Result<Operation, DecideError>
    ensures answer { IsAnswer (T.part tree.now) (truncate bytes.now len) result }
    ensures memory { result ≡ Err Memory → comes_to_name bytes.now ≡ true }
{
    let path = read_path(alloc, bytes)?;
    let inode = reach(tree, &path, false, Errno::IsDirectory)?.inode;
    refuse_if(len > MAX_FILE, Errno::FileTooBig)?;
    let size = known_or_missing(tree.file_size(inode), Missing::Node { inode })?;
    if size == len {
        return Ok(Operation::Tell {
            answer: Reply::Done,
        });
    }
    Ok(Operation::Resize { inode, len })
}

// Decides `unlink`: the errors in their order, then the operation.
pub(crate) fn unlink<T: TreeAnswers>(
    alloc: Global,
    tree: &T,
    bytes: &[u8],
) -> Result<Operation, DecideError>
    ensures answer { IsAnswer (T.part tree.now) (unlink bytes.now) result }
    ensures memory { result ≡ Err Memory → comes_to_name bytes.now ≡ true }
{
    let path = read_path(alloc, bytes)?;
    unlink_at(alloc, tree, &path)
}

// What follows once the path is read.
fn unlink_at<T: TreeAnswers>(alloc: Global, tree: &T, path: &Path) -> Result<Operation, DecideError>
    ensures answer { IsAnswer (T.part tree.now) (unlink_at path.now) result }
    ensures memory { result ≡ Err Memory → is_root path.now ≡ false }
{
    refuse_root(path)?;
    let to = reach(tree, path, false, Errno::NotPermitted)?;
    let at = location(alloc, to.parent, path)?;
    Ok(Operation::DropName {
        at,
        inode: to.inode,
    })
}
