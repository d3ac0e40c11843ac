// The walk along a path, and the tests that several calls have in common. Each function answers one question of a call.
ghost use Rattle.std.specs.Prelude.{◌≡◌, ◌≢◌, Bool, Some, None, Ok, Err, true, false, IfOk, IfErr, nat_le, option_map};
ghost use Rattle.posix_calls.specs.Path.{path_names};
ghost use Rattle.posix_calls.specs.FirstName.{comes_to_name};
ghost use Rattle.posix_calls.specs.Part.{Part};
ghost use Rattle.posix_calls.specs.declared.tree_answers.NamedInode.{NamedInode};
ghost use Rattle.posix_calls.specs.Walk.{read_or_error, kind_at, there, is_root, is_there, leads_to};
ghost use Rattle.posix_calls.specs.Answers.{IsAnswer, HasKnownKind, last_name, landing, without_kind, child_at, other_kind, target, no_entries};
ghost use Rattle.posix_calls.specs.declared.operation.DecideError.TheVariants as why;
ghost use Rattle.posix_calls.specs.declared.operation.DecideError.TheVariants.{Refused, Memory};
ghost use Rattle.posix_calls.specs.declared.operation.Missing.TheVariants as missing;

use crate::errno::Errno;
use crate::limits::{MAX_ENTRIES, ROOT};
use crate::name::Name;
use crate::operation::{DecideError, Location, Missing};
use crate::path::Path;
use crate::tree_answers::{NamedInode, TreeAnswers, known_or_missing};
use std::alloc::Global;

/// Where a path leads: the directory of its last name, the inode there, and how many entries that directory has;
/// whether the walk passed through the inode that it watches for; and whether the inode there is a directory, if its
/// entry said so.
#[derive(Clone, Copy)]
pub struct Landing {
    pub parent: u32,
    pub inode: Option<u32>,
    pub entries: u32,
    pub passed: bool,
    pub is_dir: Option<bool>,
}

/// What a path leads to: the directory of its last name, and the inode there.
#[derive(Clone, Copy)]
pub struct Target {
    pub parent: u32,
    pub inode: u32,
}

// This error, where the test holds.
pub(crate) fn refuse_if(test: bool, errno: Errno) -> Result<(), DecideError>
    ensures clear { IfOk result (λ _. test ≡ false) }
    ensures refused { IfErr result (λ why. (why ≡ Refused errno) × (test ≡ true)) }
{
    if test {
        return Err(DecideError::Refused { errno });
    }
    Ok(())
}

// The root's place is not to be had.
pub(crate) fn refuse_root(path: &Path) -> Result<(), DecideError>
    ensures clear { IfOk result (λ _. is_root path.now ≡ false) }
    ensures refused { IfErr result (λ why. (why ≡ Refused Errno.Busy) × (is_root path.now ≡ true)) }
{
    if path.is_root() {
        return Err(DecideError::Refused { errno: Errno::Busy });
    }
    Ok(())
}

// Reads a path.
pub(crate) fn read_path(alloc: Global, bytes: &[u8]) -> Result<Path, DecideError>
    ensures answer { (p : Part) → IsAnswer p (read_or_error (path_names bytes.now)) result }
    ensures memory { result ≡ Err Memory → comes_to_name bytes.now ≡ true }
    ensures names { IfOk result (λ path. path_names bytes.now ≡ Ok path) }
{
    Ok(Path::read(alloc, bytes)?)
}

// Whether there is a directory where a path leads.
pub(crate) fn kind_at<T: TreeAnswers>(tree: &T, to: Landing) -> Result<bool, DecideError>
    requires { HasKnownKind (T.part tree.now) to }
    ensures answer { IsAnswer (T.part tree.now) (kind_at to.inode) result }
    ensures memory { result ≢ Err Memory }
{
    let Some(inode) = to.inode else {
        return Ok(false);
    };
    let answer = kind_of(tree, inode, to.is_dir)?;
    Ok(answer.unwrap_or(false))
}

// Whether this inode is there.
pub(crate) fn leads_to(inode: u32, at: Option<u32>) -> bool
    ensures { result ≡ leads_to inode at }
{
    match at {
        Some(other) => inode == other,
        None => false,
    }
}

// The inode, where there is one.
pub(crate) fn there(inode: Option<u32>) -> Result<u32, DecideError>
    ensures answer { (p : Part) → IsAnswer p (there inode) result }
    ensures memory { result ≢ Err Memory }
    ensures there { IfOk result (λ i. inode ≡ Some i) }
{
    match inode {
        Some(inode) => Ok(inode),
        None => Err(DecideError::Refused {
            errno: Errno::NoEntry,
        }),
    }
}

// Whether an inode is a directory, by what an entry says or else by what is known of it.
fn kind_of<T: TreeAnswers>(
    tree: &T,
    inode: u32,
    by_entry: Option<bool>,
) -> Result<Option<bool>, DecideError>
    requires { (is_dir : Bool) → by_entry ≡ Some is_dir → (T.part tree.now).is_dir inode ≡ Some (Some is_dir) }
    ensures known { IfOk result (λ o. (T.part tree.now).is_dir inode ≡ Some o) }
    ensures missing { IfErr result (λ error. (error ≡ why.Missing (missing.Node inode)) × ((T.part tree.now).is_dir inode ≡ None)) }
{
    match by_entry {
        Some(is_dir) => Ok(Some(is_dir)),
        None => known_or_missing(tree.is_dir(inode), Missing::Node { inode }),
    }
}

// The directory under a name of a directory.
fn child_at<T: TreeAnswers>(tree: &T, dir: u32, name: &[u8]) -> Result<u32, DecideError>
    ensures answer { IsAnswer (T.part tree.now) (child_at dir name.now) result }
    ensures memory { result ≢ Err Memory }
{
    let entry = known_or_missing(tree.entry(dir, name), Missing::Node { inode: dir })?;
    let Some(child) = entry else {
        return Err(DecideError::Refused {
            errno: Errno::NoEntry,
        });
    };
    let answer = kind_of(tree, child.inode, child.is_dir)?;
    match answer {
        Some(true) => Ok(child.inode),
        Some(false) => Err(DecideError::Refused {
            errno: Errno::NotDirectory,
        }),
        None => Err(DecideError::Refused {
            errno: Errno::NoEntry,
        }),
    }
}

// The end of a walk at an entry of a directory.
fn landing_at(parent: u32, child: Option<NamedInode>, entries: u32, passed: bool) -> Landing
    ensures parent { result.parent ≡ parent }
    ensures inode { result.inode ≡ option_map (λ e. e.inode) child }
    ensures entries { result.entries ≡ entries }
    ensures passed { result.passed ≡ passed }
    ensures known_kind { (is_dir : Bool) → result.is_dir ≡ Some is_dir → (e : NamedInode) × (child ≡ Some e) × (e.is_dir ≡ Some is_dir) }
{
    match child {
        Some(child) => Landing {
            parent,
            inode: Some(child.inode),
            entries,
            passed,
            is_dir: child.is_dir,
        },
        None => Landing {
            parent,
            inode: None,
            entries,
            passed,
            is_dir: None,
        },
    }
}

// Walks along a path to the parent of its last name, and watches for an inode where it is to.
pub(crate) fn walk<T: TreeAnswers>(
    tree: &T,
    path: &Path,
    watched: Option<u32>,
) -> Result<Landing, DecideError>
    ensures answer { IsAnswer (T.part tree.now) (landing watched path.now) (without_kind result) }
    ensures known_kind { IfOk result (λ to. HasKnownKind (T.part tree.now) to) }
    ensures memory { result ≢ Err Memory }
    ensures root { IfOk result (λ to. is_root path.now ≡ true → to.inode ≡ Some ROOT) }
{
    let [before @ .., last] = path.names() else {
        return Ok(Landing {
            parent: 0,
            inode: Some(ROOT),
            entries: 0,
            passed: false,
            is_dir: None,
        });
    };
    let mut dir = ROOT;
    let mut passed = false;
    for name in before {
        passed |= leads_to(dir, watched);
        dir = child_at(tree, dir, name.as_slice())?;
    }
    let child = known_or_missing(
        tree.entry(dir, last.as_slice()),
        Missing::Node { inode: dir },
    )?;
    let entries = known_or_missing(tree.entry_count(dir), Missing::Node { inode: dir })?;
    passed |= leads_to(dir, watched);
    Ok(landing_at(dir, child, entries, passed))
}

// Walks along a path to the parent of its last name.
pub(crate) fn prefix<T: TreeAnswers>(tree: &T, path: &Path) -> Result<Landing, DecideError>
    ensures answer { IsAnswer (T.part tree.now) (landing None path.now) (without_kind result) }
    ensures known_kind { IfOk result (λ to. HasKnownKind (T.part tree.now) to) }
    ensures memory { result ≢ Err Memory }
    ensures root { IfOk result (λ to. is_root path.now ≡ true → to.inode ≡ Some ROOT) }
{
    walk(tree, path, None)
}

// Whether a node is of the other kind than is wanted.
fn is_other_kind(wants_dir: bool, is_dir: bool) -> bool
    ensures { result ≡ other_kind wants_dir is_dir }
{
    match wants_dir {
        true => !is_dir,
        false => is_dir,
    }
}

// Walks along a path to a directory or to a file, as is wanted; this error, where it leads to the other.
pub(crate) fn reach<T: TreeAnswers>(
    tree: &T,
    path: &Path,
    wants_dir: bool,
    errno: Errno,
) -> Result<Target, DecideError>
    ensures answer { IsAnswer (T.part tree.now) (target wants_dir errno path.now) result }
    ensures memory { result ≢ Err Memory }
    ensures root { IfOk result (λ to. is_root path.now ≡ true → to.inode ≡ ROOT) }
{
    let to = prefix(tree, path)?;
    let inode = there(to.inode)?;
    let is_dir = kind_at(tree, to)?;
    refuse_if(is_other_kind(wants_dir, is_dir), errno)?;
    Ok(Target {
        parent: to.parent,
        inode,
    })
}

// A directory with entries is refused.
pub(crate) fn refuse_entries<T: TreeAnswers>(tree: &T, inode: u32) -> Result<(), DecideError>
    ensures answer { IsAnswer (T.part tree.now) (no_entries inode) result }
    ensures memory { result ≢ Err Memory }
{
    let entries = known_or_missing(tree.entry_count(inode), Missing::Node { inode })?;
    refuse_if(entries > 0, Errno::NotEmpty)
}

// The last name of a path, in its directory.
pub(crate) fn location(alloc: Global, parent: u32, path: &Path) -> Result<Location, DecideError>
    requires { is_root path.now ≡ false }
    ensures location { IfOk result (λ at. at ≡ record { parent = parent; name = last_name path.now }) }
    ensures only { IfErr result (λ why. why ≡ Memory) }
{
    let [.., last] = path.names() else {
        unreachable!();
    };
    Ok(Location {
        parent,
        name: last.copy(alloc)?,
    })
}

impl Landing {
    // Whether something is there.
    pub(crate) fn is_there(self) -> bool
        ensures { result ≡ is_there self.inode }
    {
        self.inode.is_some()
    }

    // Whether the directory takes no more names.
    pub(crate) fn is_full(self) -> bool
        ensures { result ≡ nat_le MAX_ENTRIES self.entries }
    {
        MAX_ENTRIES <= self.entries
    }
}
