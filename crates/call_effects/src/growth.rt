ghost use Rattle.std.specs.Prelude.{◌≡◌, ◌+◌, ◌^◌, ◌<◌, IfOk, IfErr, max};
ghost use Rattle.posix_calls.specs.Answers.{IsAnswer};
ghost use Rattle.posix_calls.specs.Units.{file_units, directory_units};
ghost use Rattle.call_effects.specs.Records.{file_rise, entry_rise, move_rise, growth_asked, units_asked};
ghost use Rattle.call_effects.specs.Rises.{IsOfNode, new_rise, size_rise};

use posix_calls::{
    DecideError, Location, Missing, Operation, Replaced, TreeAnswers, UNIT_BYTES, UNIT_ENTRIES,
    known_or_missing,
};

/// By how many units an operation raises the graph at most: the rises of the inodes that its effects touch, each by itself. No fall
/// is set against a rise.
///
/// Of the tree, the directory that gets an entry or the file that gets another length has to be known, without its bytes; `Missing`
/// names it. No other error comes. An operation that a call came to grows by a few hundred units at most; for one that would grow
/// by more than 32 bits count, the answer is the greatest that they do.
pub fn growth_of<T: TreeAnswers>(tree: &T, operation: &Operation) -> Result<u32, DecideError>
    ensures answer { IsAnswer (T.part tree.now) (units_asked operation.now) result }
    ensures errors { IfErr result IsOfNode }
{
    let units = growth_in_full(tree, operation)?;
    Ok(units.min(u32::MAX as u64) as u32)
}

fn growth_in_full<T: TreeAnswers>(tree: &T, operation: &Operation) -> Result<u64, DecideError>
    ensures answer { IsAnswer (T.part tree.now) (growth_asked operation.now) result }
    ensures errors { IfErr result IsOfNode }
{
    match operation {
        Operation::NewDir { at } => new_rise(tree, at.parent, directory_units(0)),
        Operation::NewFile { at, .. } => new_rise(tree, at.parent, file_units(0)),
        Operation::Write { inode, at, bytes } => write_rise(tree, *inode, *at, bytes.len()),
        Operation::Resize { inode, len } => resize_rise(tree, *inode, *len),
        Operation::AddName { at, .. } => entry_rise(tree, at.parent),
        Operation::Move {
            from,
            to,
            replaced,
            ..
        } => move_rise(tree, from, to, *replaced),
        Operation::Tell { .. } => Ok(0),
        Operation::OpenFile { .. } => Ok(0),
        Operation::CloseFile { .. } => Ok(0),
        Operation::RemoveDir { .. } => Ok(0),
        Operation::DropName { .. } => Ok(0),
        Operation::Exchange { .. } => Ok(0),
    }
}

// Which directory or file costs how much; a length may be the end of a write, which is past the end of no 128 bits.
fn directory_units(entries: u64) -> u64
    requires { entries < 2 ^ 33 }
    ensures units { result ≡ directory_units entries }
    ensures small { result < 2 ^ 33 }
{
    1 + (entries + (UNIT_ENTRIES as u64 - 1)) / UNIT_ENTRIES as u64
}

fn file_units(len: u128) -> u64
    requires { len < 2 ^ 65 }
    ensures units { result ≡ file_units len }
    ensures small { result < 2 ^ 54 }
{
    (1 + (len + (UNIT_BYTES as u128 - 1)) / UNIT_BYTES as u128) as u64
}

// The rise of a directory that gets one more entry.
fn entry_rise<T: TreeAnswers>(tree: &T, dir: u32) -> Result<u64, DecideError>
    ensures answer { IsAnswer (T.part tree.now) (entry_rise dir) result }
    ensures errors { IfErr result IsOfNode }
    ensures small { IfOk result (λ rise. rise < 2 ^ 33) }
{
    let entries = known_or_missing(tree.entry_count(dir), Missing::Node { inode: dir })? as u64;
    Ok(directory_units(entries + 1).saturating_sub(directory_units(entries)))
}

// The units of a new node, and the rise of its directory.
fn new_rise<T: TreeAnswers>(tree: &T, dir: u32, units: u64) -> Result<u64, DecideError>
    requires { units < 2 ^ 54 }
    ensures answer { IsAnswer (T.part tree.now) (new_rise units dir) result }
    ensures errors { IfErr result IsOfNode }
{
    let rise = entry_rise(tree, dir)?;
    Ok(units + rise)
}

// The rise of a directory that something moves to: what is put out makes room for it.
fn move_rise<T: TreeAnswers>(
    tree: &T,
    from: &Location,
    to: &Location,
    replaced: Replaced,
) -> Result<u64, DecideError>
    ensures answer { IsAnswer (T.part tree.now) (move_rise from.now to.now replaced) result }
    ensures errors { IfErr result IsOfNode }
{
    match replaced {
        Replaced::Nothing if from.parent == to.parent => Ok(0),
        Replaced::Nothing => entry_rise(tree, to.parent),
        Replaced::OldFile { .. } => Ok(0),
        Replaced::OldDir { .. } => Ok(0),
    }
}

// The rise of a file from one size to another.
fn file_rise(old: u128, new: u128) -> u64
    requires old { old < 2 ^ 65 }
    requires new { new < 2 ^ 65 }
    ensures { result ≡ file_rise old new }
{
    file_units(new).saturating_sub(file_units(old))
}

// The rise of a file that `count` bytes are put into at an offset.
fn write_rise<T: TreeAnswers>(
    tree: &T,
    inode: u32,
    at: u64,
    count: usize,
) -> Result<u64, DecideError>
    ensures answer { IsAnswer (T.part tree.now) (size_rise (λ old. max old (at + count)) inode) result }
    ensures errors { IfErr result IsOfNode }
{
    let old = known_or_missing(tree.file_size(inode), Missing::Node { inode })? as u128;
    let end = at as u128 + count as u128;
    Ok(file_rise(old, old.max(end)))
}

// The rise of a file that is cut or grown to a length.
fn resize_rise<T: TreeAnswers>(tree: &T, inode: u32, len: u64) -> Result<u64, DecideError>
    ensures answer { IsAnswer (T.part tree.now) (size_rise (λ old. len) inode) result }
    ensures errors { IfErr result IsOfNode }
{
    let old = known_or_missing(tree.file_size(inode), Missing::Node { inode })?;
    Ok(file_rise(old as u128, len as u128))
}
