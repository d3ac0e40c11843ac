ghost use Rattle.std.specs.Prelude.{◌≡◌, ◌≢◌, ◌≤◌, ◌<◌, ℕ, [], None, Some, length, OnOk, OnErr, if◌then◌else◌};
ghost use Rattle.posix_calls.specs.Tree.{File, set_node, names_of};
ghost use Rattle.posix_calls.specs.Own.{set_descriptor};
ghost use Rattle.posix_calls.specs.WellFormed.{IsBare};
ghost use Rattle.posix_calls.specs.Operations.{with_entry, without_entry, less_unused, less_replaced};
ghost use Rattle.plain_tree.specs.Plain.{stored_tree, held_of, less_put_out, HasPlace, IsBareReplaced, IsMovable, HasNumber, with_opened};
ghost use Rattle.posix_calls.specs.declared.limits.TheConstants.{MAX_NAMES};

use crate::node::PlainNode;
use crate::nodes::PlainNodes;
use posix_calls::{Descriptor, Location, MAX_DESCRIPTORS, OwnDescriptors, Replaced};
use std::alloc::{AllocError, Global};

/// A node is made, and gets a name. The name is put in first, since that may want memory; where there is none, the tree stays
/// as it was.
pub fn make(
    alloc: Global,
    nodes: &mut PlainNodes,
    at: Location,
    inode: u32,
    node: PlainNode,
) -> Result<(), AllocError>
    requires apart { at.parent ≢ inode }
    requires place { HasPlace at.parent }
    requires free { IsBare (stored_tree nodes.old inode) }
    requires bare { IsBare node }
    requires few { names_of (stored_tree nodes.old) inode ≤ MAX_NAMES }
    ensures ok { OnOk result (stored_tree nodes.new ≡ with_entry (set_node (stored_tree nodes.old) inode node) at inode) }
    ensures err { OnErr result (stored_tree nodes.new ≡ stored_tree nodes.old) }
{
    nodes.make_room(inode)?;
    nodes.enter(alloc, at, inode)?;
    nodes.put(inode, node);
    Ok(())
}

/// A file loses its bytes, where it is to. Where there is no memory for it, the tree stays as it was.
pub fn empty_if(
    alloc: Global,
    nodes: &mut PlainNodes,
    inode: u32,
    empties: bool,
) -> Result<(), AllocError>
    requires { IsBare (stored_tree nodes.old inode) }
    ensures ok { OnOk result (stored_tree nodes.new ≡ (if empties then set_node (stored_tree nodes.old) inode (Some (File [])) else stored_tree nodes.old)) }
    ensures err { OnErr result (stored_tree nodes.new ≡ stored_tree nodes.old) }
{
    if !empties {
        return Ok(());
    }
    nodes.make_room(inode)?;
    nodes.put(inode, PlainNode::file(alloc));
    Ok(())
}

/// A directory goes with its name. Where there is no memory for it, the tree stays as it was.
pub fn remove_dir(
    alloc: Global,
    nodes: &mut PlainNodes,
    at: &Location,
    inode: u32,
) -> Result<(), AllocError>
    requires place { HasPlace at.now.parent }
    requires bare { IsBare (stored_tree nodes.old inode) }
    ensures ok { OnOk result (stored_tree nodes.new ≡ set_node (without_entry (stored_tree nodes.old) at.now) inode None) }
    ensures err { OnErr result (stored_tree nodes.new ≡ stored_tree nodes.old) }
{
    nodes.make_room(at.parent)?;
    nodes.leave(alloc, at);
    nodes.clear(inode);
    Ok(())
}

/// A file has one name fewer, and goes if it is not used any more. Where there is no memory for it, the tree stays as it was.
pub fn drop_name(
    alloc: Global,
    nodes: &mut PlainNodes,
    rows: &[OwnDescriptors],
    at: &Location,
    inode: u32,
) -> Result<(), AllocError>
    requires place { HasPlace at.now.parent }
    requires bare { IsBare (stored_tree nodes.old inode) }
    ensures ok { OnOk result (stored_tree nodes.new ≡ less_unused (held_of rows.now) (without_entry (stored_tree nodes.old) at.now) inode) }
    ensures err { OnErr result (stored_tree nodes.new ≡ stored_tree nodes.old) }
{
    nodes.make_room(at.parent)?;
    nodes.leave(alloc, at);
    nodes.drop_unused(rows, inode);
    Ok(())
}

/// Where a name moves to: its new place, the inode that it is of, and what stands there before.
#[derive(Drop)]
pub struct Destination {
    pub at: Location,
    pub inode: u32,
    pub replaced: Replaced,
}

/// A name moves. The new one is put in first, since that alone takes memory; where there is none, the tree stays as it was.
pub fn move_name(
    alloc: Global,
    nodes: &mut PlainNodes,
    rows: &[OwnDescriptors],
    from: &Location,
    to: Destination,
) -> Result<(), AllocError>
    requires from_place { HasPlace from.now.parent }
    requires to_place { HasPlace to.at.parent }
    requires few { names_of (stored_tree nodes.old) to.inode ≤ MAX_NAMES }
    requires movable { IsMovable (stored_tree nodes.old) from.now to.at to.inode to.replaced }
    ensures ok { OnOk result (stored_tree nodes.new ≡ with_entry (without_entry (less_replaced (held_of rows.now) (stored_tree nodes.old) to.at to.replaced) from.now) to.at to.inode) }
    ensures err { OnErr result (stored_tree nodes.new ≡ stored_tree nodes.old) }
{
    let Destination {
        at,
        inode,
        replaced,
    } = to;
    nodes.make_room(from.parent)?;
    nodes.enter(alloc, at, inode)?;
    put_out(nodes, rows, replaced);
    nodes.leave(alloc, from);
    Ok(())
}

fn put_out(nodes: &mut PlainNodes, rows: &[OwnDescriptors], replaced: Replaced)
    requires { IsBareReplaced (stored_tree nodes.old) replaced }
    ensures tree { stored_tree nodes.new ≡ less_put_out (held_of rows.now) (stored_tree nodes.old) replaced }
    ensures kept { length nodes.new ≡ length nodes.old }
{
    match replaced {
        Replaced::Nothing => {}
        Replaced::OldFile { inode } => nodes.drop_unused(rows, inode),
        Replaced::OldDir { inode } => nodes.clear(inode),
    }
}

/// A file is open under a descriptor of a client, if one is to be.
pub fn open_if(rows: &mut Vec<OwnDescriptors>, client: u32, opened: Option<(u32, Descriptor)>)
    requires low { 0 < client }
    requires high { client ≤ length rows.old.items }
    requires number { HasNumber opened }
    ensures held { held_of rows.new.items ≡ with_opened (held_of rows.old.items) client opened }
    ensures kept { length rows.new.items ≡ length rows.old.items }
{
    if let Some((number, what)) = opened {
        open_at(rows, client, number, what);
    }
}

fn open_at(rows: &mut Vec<OwnDescriptors>, client: u32, number: u32, what: Descriptor)
    requires low { 0 < client }
    requires high { client ≤ length rows.old.items }
    requires number { number < MAX_DESCRIPTORS }
    ensures held { held_of rows.new.items ≡ set_descriptor (held_of rows.old.items) client number (Some what) }
    ensures kept { length rows.new.items ≡ length rows.old.items }
{
    rows[client as usize - 1].set(number, Some(what));
}

/// Nothing is open under a descriptor of a client any more.
pub fn close_at(rows: &mut Vec<OwnDescriptors>, client: u32, number: u32)
    requires low { 0 < client }
    requires high { client ≤ length rows.old.items }
    ensures held { held_of rows.new.items ≡ set_descriptor (held_of rows.old.items) client number None }
    ensures kept { length rows.new.items ≡ length rows.old.items }
{
    rows[client as usize - 1].clear(number);
}
