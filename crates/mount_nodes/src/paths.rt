// The paths of nodes.
ghost use Rattle.std.specs.Prelude.{◌≡◌, ◌⊎◌, [], ◌∷◌, ◌++◌, Some, None, IfOk, IfErr, OnOk};
ghost use Rattle.std.specs.Option.{option_map};
ghost use Rattle.mount_nodes.specs.Paths.{first_name, folder_path, is_unnamed, path_below, path_of};
ghost use Rattle.mount_nodes.specs.Refusals.{IsMemory};

use crate::node::NodeName;
use crate::nodes::{Nodes, ROOT_NODE};
use fuse_wire::Refusal;
use posix_calls::{Bytes, Errno, MAX_PATH};
use std::alloc::{AllocError, Global};

/// The path of a node, by the first name that is known of it. `Stale` where none is.
pub fn path_of(alloc: Global, nodes: &Nodes, id: u64) -> Result<Vec<u8>, Refusal>
    ensures path { IfOk result (λ path. path_of nodes.now id ≡ Some path.items) }
    ensures unknown { IfErr result (λ e. IsMemory e ⊎ (path_of nodes.now id ≡ None)) }
{
    if id == ROOT_NODE {
        return root_path(alloc);
    }
    let known = first_name(nodes, id)?;
    path_below(alloc, nodes, known.folder, known.name.as_slice())
}

/// The path of a name in a directory.
pub(crate) fn path_below(
    alloc: Global,
    nodes: &Nodes,
    folder: u64,
    name: &[u8],
) -> Result<Vec<u8>, Refusal>
    ensures path { IfOk result (λ path. path_below nodes.now folder name.now ≡ Some path.items) }
    ensures unknown { IfErr result (λ e. IsMemory e ⊎ (path_below nodes.now folder name.now ≡ None)) }
{
    let mut path = Vec::new(alloc);
    push_folder(&mut path, nodes, folder, MAX_PATH)?;
    push_name(&mut path, name)?;
    Ok(path)
}

fn root_path(alloc: Global) -> Result<Vec<u8>, Refusal>
    ensures path { IfOk result (λ path. path.items ≡ 47 ∷ []) }
    ensures memory { IfErr result (λ e. IsMemory e) }
{
    let mut path = Vec::new(alloc);
    path.push(b'/')?;
    Ok(path)
}

// Adds the path of a directory that has fewer than `limit` directories above it, the root first.
fn push_folder(path: &mut Vec<u8>, nodes: &Nodes, folder: u64, limit: usize) -> Result<(), Refusal>
    ensures path { IfOk result (λ _. option_map (λ p. path.old.items ++ p) (folder_path limit nodes.now folder) ≡ Some path.new.items) }
    ensures unknown { IfErr result (λ e. IsMemory e ⊎ (folder_path limit nodes.now folder ≡ None)) }
{
    if limit == 0 {
        return Err(Refusal::Posix(Errno::NameTooLong));
    }
    if folder == ROOT_NODE {
        return Ok(());
    }
    let known = first_name(nodes, folder)?;
    push_folder(path, nodes, known.folder, limit - 1)?;
    push_name(path, known.name.as_slice())?;
    Ok(())
}

/// Whether a node has no name that is known, and is not the root.
pub(crate) fn is_unnamed(nodes: &Nodes, id: u64) -> bool
    ensures { result ≡ is_unnamed nodes.now id }
{
    match first_name(nodes, id) {
        Ok(_) => false,
        Err(_) => id != ROOT_NODE,
    }
}

/// The first name that is known of a node. `Stale` where none is.
#[tactic(auto, unfolding(crate::specs::Paths::first_name))]
pub fn first_name(nodes: &Nodes, id: u64) -> Result<&NodeName, Refusal>
    ensures name { IfOk result (λ known. first_name nodes.now id ≡ Some known.now) }
    ensures unknown { IfErr result (λ e. (e ≡ Refusal.StaleNode) × (first_name nodes.now id ≡ None)) }
{
    match nodes.get(id) {
        Some(node) => node.names.first().ok_or(Refusal::StaleNode),
        None => Err(Refusal::StaleNode),
    }
}

// Adds a slash and a name.
fn push_name(path: &mut Vec<u8>, name: &[u8]) -> Result<(), AllocError>
    ensures { OnOk result (path.new.items ≡ path.old.items ++ 47 ∷ name.now) }
{
    path.push(b'/')?;
    path.extend_from_slice(name)?;
    Ok(())
}
