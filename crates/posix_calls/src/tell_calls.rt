// The calls that only answer: list, stat.
ghost use Rattle.std.specs.Prelude.{◌≡◌, ◌||◌, Err, true};
ghost use Rattle.posix_calls.specs.Path.{path_names};
ghost use Rattle.posix_calls.specs.FirstName.{comes_to_name};
ghost use Rattle.posix_calls.specs.Walk.{is_root};
ghost use Rattle.posix_calls.specs.Memory.{has_names, lists_root};
ghost use Rattle.posix_calls.specs.declared.limits.TheConstants.{ROOT};
ghost use Rattle.posix_calls.specs.declared.operation.DecideError.TheVariants.{Memory};
ghost use Rattle.posix_calls.specs.Answers.{IsAnswer};
ghost use Rattle.posix_calls.specs.Decide.{list_path, list_at, stat};

use crate::call::Reply;
use crate::errno::Errno;
use crate::operation::{DecideError, Description, Missing, Operation};
use crate::path::Path;
use crate::tree_answers::{TreeAnswers, known_or_missing};
use crate::walk::{prefix, reach, read_path, there};
use std::alloc::Global;

// Decides `list`, and lists the entries.
pub(crate) fn list<T: TreeAnswers>(
    alloc: Global,
    tree: &T,
    bytes: &[u8],
) -> Result<Operation, DecideError>
    ensures answer { IsAnswer (T.part tree.now) (list_path bytes.now) result }
    ensures memory { result ≡ Err Memory → (comes_to_name bytes.now || lists_root (T.part tree.now) (path_names bytes.now)) ≡ true }
{
    let path = read_path(alloc, bytes)?;
    list_at(alloc, tree, &path)
}

// What follows once the path is read.
fn list_at<T: TreeAnswers>(alloc: Global, tree: &T, path: &Path) -> Result<Operation, DecideError>
    ensures answer { IsAnswer (T.part tree.now) (list_at path.now) result }
    ensures memory { result ≡ Err Memory → is_root path.now ≡ true → has_names ((T.part tree.now).node ROOT) ≡ true }
{
    let inode = reach(tree, path, true, Errno::NotDirectory)?.inode;
    let answer = tree.names(alloc, inode)?;
    let names = known_or_missing(answer, Missing::Node { inode })?;
    Ok(Operation::Tell {
        answer: Reply::Listed { names },
    })
}

// Decides `stat`.
pub(crate) fn stat<T: TreeAnswers>(
    alloc: Global,
    tree: &T,
    bytes: &[u8],
) -> Result<Operation, DecideError>
    ensures answer { IsAnswer (T.part tree.now) (stat bytes.now) result }
    ensures memory { result ≡ Err Memory → comes_to_name bytes.now ≡ true }
{
    let path = read_path(alloc, bytes)?;
    let to = prefix(tree, &path)?;
    let inode = there(to.inode)?;
    let answer = known_or_missing(tree.describe(inode), Missing::Node { inode })?;
    let Some(description) = answer else {
        return Err(DecideError::Refused {
            errno: Errno::NoEntry,
        });
    };
    match description {
        Description::File { size, names } => Ok(Operation::Tell {
            answer: Reply::File { size, names },
        }),
        Description::Dir { entries } => Ok(Operation::Tell {
            answer: Reply::Dir { entries },
        }),
    }
}
