// The calls on two paths: link, rename, exchange.
ghost use Rattle.std.specs.Prelude.{◌≡◌, ◌≢◌, ◌==◌, ◌&&◌, not, ℕ, List, [], Some, Err, true, false};
ghost use Rattle.std.specs.List.{list_any};
ghost use Rattle.posix_calls.specs.Memory.{come_to_names};
ghost use Rattle.posix_calls.specs.declared.operation.DecideError.TheVariants.{Memory};
ghost use Rattle.posix_calls.specs.Answers.{IsAnswer, HasKnownKind, place_at, exchange_again};
ghost use Rattle.posix_calls.specs.Walk.{is_full, is_root, leads_to};
ghost use Rattle.posix_calls.specs.Decide.{link, link_at, rename, rename_at, replaced_at, exchange, exchange_at};

use crate::call::Reply;
use crate::errno::Errno;
use crate::limits::MAX_NAMES;
use crate::operation::{DecideError, Missing, Operation, Replaced};
use crate::path::Path;
use crate::tree_answers::{TreeAnswers, known_or_missing};
use crate::walk::{
    Landing, kind_at, leads_to, location, prefix, reach, read_path, refuse_entries, refuse_if,
    refuse_root, there, walk,
};
use std::alloc::Global;

// Decides `link`: the errors in their order, then the operation.
pub(crate) fn link<T: TreeAnswers>(
    alloc: Global,
    tree: &T,
    old: &[u8],
    new: &[u8],
) -> Result<Operation, DecideError>
    ensures answer { IsAnswer (T.part tree.now) (link old.now new.now) result }
    ensures memory { result ≡ Err Memory → come_to_names old.now new.now ≡ true }
{
    let old_path = read_path(alloc, old)?;
    let new_path = read_path(alloc, new)?;
    link_at(alloc, tree, &old_path, &new_path)
}

// What follows once both paths are read.
fn link_at<T: TreeAnswers>(
    alloc: Global,
    tree: &T,
    old_path: &Path,
    new_path: &Path,
) -> Result<Operation, DecideError>
    ensures answer { IsAnswer (T.part tree.now) (link_at old_path.now new_path.now) result }
    ensures memory { result ≡ Err Memory → is_root new_path.now ≡ false }
{
    let inode = reach(tree, old_path, false, Errno::NotPermitted)?.inode;
    let to = prefix(tree, new_path)?;
    refuse_if(to.is_there(), Errno::Exists)?;
    let names = known_or_missing(tree.file_names(inode), Missing::Node { inode })?;
    refuse_if(names >= MAX_NAMES, Errno::TooManyLinks)?;
    refuse_if(to.is_full(), Errno::NoSpace)?;
    let at = location(alloc, to.parent, new_path)?;
    Ok(Operation::AddName { at, inode })
}

// Whether a name that moves needs a place in a directory that has none.
fn missing_room(from: Landing, to: Landing) -> bool
    ensures { result ≡ (not (from.parent == to.parent) && is_full (place_at [] to [])) }
{
    from.parent != to.parent && to.is_full()
}

// What is at the new name, and is put out of its place.
fn find_replaced<T: TreeAnswers>(
    tree: &T,
    from: Landing,
    to: Landing,
    old_dir: bool,
) -> Result<Replaced, DecideError>
    requires { HasKnownKind (T.part tree.now) to }
    ensures answer { (a b : List (List ℕ)) (v w : List ℕ) → IsAnswer (T.part tree.now) (replaced_at (place_at a from v) (place_at b to w) old_dir to.inode) result }
    ensures memory { result ≢ Err Memory }
{
    let Some(inode) = to.inode else {
        refuse_if(missing_room(from, to), Errno::NoSpace)?;
        return Ok(Replaced::Nothing);
    };
    let new_dir = kind_at(tree, to)?;
    refuse_if(old_dir & !new_dir, Errno::NotDirectory)?;
    refuse_if(!old_dir & new_dir, Errno::IsDirectory)?;
    if !new_dir {
        return Ok(Replaced::OldFile { inode });
    }
    refuse_entries(tree, inode)?;
    Ok(Replaced::OldDir { inode })
}

// Decides `rename`: the errors in their order, then the operation.
pub(crate) fn rename<T: TreeAnswers>(
    alloc: Global,
    tree: &T,
    old: &[u8],
    new: &[u8],
) -> Result<Operation, DecideError>
    ensures answer { IsAnswer (T.part tree.now) (rename old.now new.now) result }
    ensures memory { result ≡ Err Memory → come_to_names old.now new.now ≡ true }
{
    let old_path = read_path(alloc, old)?;
    let new_path = read_path(alloc, new)?;
    rename_at(alloc, tree, &old_path, &new_path)
}

// What follows once both paths are read.
fn rename_at<T: TreeAnswers>(
    alloc: Global,
    tree: &T,
    old_path: &Path,
    new_path: &Path,
) -> Result<Operation, DecideError>
    ensures answer { IsAnswer (T.part tree.now) (rename_at old_path.now new_path.now) result }
    ensures memory { result ≡ Err Memory → is_root old_path.now ≡ false }
{
    refuse_root(old_path)?;
    refuse_root(new_path)?;
    let from = prefix(tree, old_path)?;
    let inode = there(from.inode)?;
    let to = walk(tree, new_path, Some(inode))?;
    refuse_if(to.passed, Errno::Invalid)?;
    if leads_to(inode, to.inode) {
        return Ok(Operation::Tell {
            answer: Reply::Done,
        });
    }
    let is_dir = kind_at(tree, from)?;
    let replaced = find_replaced(tree, from, to, is_dir)?;
    let old_location = location(alloc, from.parent, old_path)?;
    let new_location = location(alloc, to.parent, new_path)?;
    Ok(Operation::Move {
        from: old_location,
        to: new_location,
        inode,
        is_dir,
        replaced,
    })
}

// Decides `exchange`: the errors in their order, then the operation.
pub(crate) fn exchange<T: TreeAnswers>(
    alloc: Global,
    tree: &T,
    first: &[u8],
    second: &[u8],
) -> Result<Operation, DecideError>
    ensures answer { IsAnswer (T.part tree.now) (exchange first.now second.now) result }
    ensures memory { result ≡ Err Memory → come_to_names first.now second.now ≡ true }
{
    let first_path = read_path(alloc, first)?;
    let second_path = read_path(alloc, second)?;
    exchange_at(alloc, tree, &first_path, &second_path)
}

// What follows once both paths are read.
fn exchange_at<T: TreeAnswers>(
    alloc: Global,
    tree: &T,
    first_path: &Path,
    second_path: &Path,
) -> Result<Operation, DecideError>
    ensures answer { IsAnswer (T.part tree.now) (exchange_at first_path.now second_path.now) result }
    ensures memory { result ≡ Err Memory → is_root first_path.now ≡ false }
{
    refuse_root(first_path)?;
    refuse_root(second_path)?;
    let one = prefix(tree, first_path)?;
    let inode = there(one.inode)?;
    let two = walk(tree, second_path, Some(inode))?;
    let other = there(two.inode)?;
    if inode == other {
        return Ok(Operation::Tell {
            answer: Reply::Done,
        });
    }
    let nodes = NodePair { inode, other };
    exchange_apart(alloc, tree, first_path, second_path, two, nodes)
}

// What is at the first of two paths, and what is at the second.
#[derive(Drop)]
struct NodePair {
    inode: u32,
    other: u32,
}

// What follows for two nodes. The first path is walked again, now that the node is known that it may not come by.
fn exchange_apart<T: TreeAnswers>(
    alloc: Global,
    tree: &T,
    first_path: &Path,
    second_path: &Path,
    two: Landing,
    nodes: NodePair,
) -> Result<Operation, DecideError>
    requires first { is_root first_path.now ≡ false }
    requires second { is_root second_path.now ≡ false }
    ensures answer { (walked : List ℕ) → list_any (λ d. leads_to d (Some nodes.inode)) walked ≡ two.passed → IsAnswer (T.part tree.now) (exchange_again first_path.now (place_at second_path.now two walked) nodes.inode nodes.other) result }
{
    let one = walk(tree, first_path, Some(nodes.other))?;
    refuse_if(one.passed | two.passed, Errno::Invalid)?;
    let first = location(alloc, one.parent, first_path)?;
    let second = location(alloc, two.parent, second_path)?;
    Ok(Operation::Exchange {
        first,
        second,
        inode: nodes.inode,
        other: nodes.other,
    })
}
