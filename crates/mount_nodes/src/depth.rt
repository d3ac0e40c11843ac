// How long the paths below a directory get where it moves.
ghost use Rattle.std.specs.Prelude.{◌≡◌, ◌+◌, ◌-◌, ◌<◌, ◌⊎◌, length, IfErr, OnOk};
ghost use Rattle.posix_calls.specs.declared.errno.Errno.TheVariants as errno;
ghost use Rattle.fuse_wire.specs.declared.errno.Refusal.TheVariants as refusal;
ghost use Rattle.mount_nodes.specs.Refusals.{IsMemory};
ghost use Rattle.mount_nodes.specs.Renames.{HasLooked, HasTooLong, LooksBelow};

use crate::attributes::stat;
use crate::directory::list;
use crate::tree::Tree;
use fuse_wire::Refusal;
use posix_calls::{Description, Errno, MAX_PATH, Name};
use std::alloc::Global;

/// Refuses, by `NameTooLong`, that what is at a path gets one of `len` bytes, where a path below it would pass 1,024 bytes.
pub(crate) fn check_depth<T: Tree>(
    alloc: Global,
    tree: &mut T,
    path: &[u8],
    len: usize,
) -> Result<(), Refusal>
    ensures looked { LooksBelow T.Tree (len - length path.now) result tree.old tree.new }
    ensures grown { IfErr result (λ e. length path.now < len) }
    ensures asked { length path.now < len → OnOk result (HasLooked T.Tree path.now tree.old tree.new) }
{
    let growth = len.saturating_sub(path.len());
    if growth == 0 {
        return Ok(());
    }
    check_below(alloc, tree, path, growth)
}

// Refuses it where a path at or below this one gets too long.
fn check_below<T: Tree>(
    alloc: Global,
    tree: &mut T,
    path: &[u8],
    growth: usize,
) -> Result<(), Refusal>
    ensures looked { LooksBelow T.Tree growth result tree.old tree.new }
    ensures asked { OnOk result (HasLooked T.Tree path.now tree.old tree.new) }
{
    let mut paths = Vec::new(alloc);
    add_below(alloc, tree, path, growth, &mut paths)?;
    for _ in 0..u32::MAX {
        match paths.pop() {
            Some(path) => add_below(alloc, tree, &path, growth, &mut paths)?,
            None => return Ok(()),
        }
    }
    Ok(())
}

// Adds the paths right below what may be a directory, each of which is to grow by `growth` bytes.
fn add_below<T: Tree>(
    alloc: Global,
    tree: &mut T,
    path: &[u8],
    growth: usize,
    paths: &mut Vec<Vec<u8>>,
) -> Result<(), Refusal>
    ensures looked { LooksBelow T.Tree growth result tree.old tree.new }
    ensures asked { OnOk result (HasLooked T.Tree path.now tree.old tree.new) }
{
    let description = stat(alloc, tree, path)?;
    match description {
        Description::File { .. } => Ok(()),
        Description::Dir { .. } => add_listed(alloc, tree, path, growth, paths),
    }
}

fn add_listed<T: Tree>(
    alloc: Global,
    tree: &mut T,
    path: &[u8],
    growth: usize,
    paths: &mut Vec<Vec<u8>>,
) -> Result<(), Refusal>
    ensures { LooksBelow T.Tree growth result tree.old tree.new }
{
    let names = list(alloc, tree, path)?;
    add_names(alloc, path, names.as_slice(), growth, paths)
}

fn add_names(
    alloc: Global,
    path: &[u8],
    names: &[Name],
    growth: usize,
    paths: &mut Vec<Vec<u8>>,
) -> Result<(), Refusal>
    ensures { IfErr result (λ e. IsMemory e ⊎ HasTooLong path.now names.now growth e) }
{
    for name in names {
        let below = path_under(alloc, path, name, growth)?;
        paths.push(below)?;
    }
    Ok(())
}

// The path of a name of a directory, which is to grow by `growth` bytes.
fn path_under(alloc: Global, path: &[u8], name: &Name, growth: usize) -> Result<Vec<u8>, Refusal>
    ensures { IfErr result (λ e. IsMemory e ⊎ ((1024 < length path.now + 1 + length name.now + growth) × (e ≡ refusal.Posix errno.NameTooLong))) }
{
    let name = name.as_slice();
    if path
        .len()
        .saturating_add(1)
        .saturating_add(name.len())
        .saturating_add(growth)
        > MAX_PATH
    {
        return Err(Refusal::Posix(Errno::NameTooLong));
    }
    let mut below = path.to_vec(alloc)?;
    below.push(b'/')?;
    below.extend_from_slice(name)?;
    Ok(below)
}
