ghost use Rattle.std.specs.Prelude.{◌≡◌, ◌⊎◌, ◌≤◌, ◌<◌, ℕ, true, false, Ok, Some, length, option_map, IfOk, IfErr, OnOk, OnErr, MatchOption, None};
ghost use Rattle.std.specs.FinMap as fin;
ghost use Rattle.posix_calls.specs.Tree.{entries_of};
ghost use Rattle.posix_calls.specs.EmptyTree.{empty_state, empty_tree};
ghost use Rattle.posix_calls.specs.Query.{dir_test, view_of};
ghost use Rattle.posix_calls.specs.Part.{whole_part};
ghost use Rattle.posix_calls.specs.Answers.{description_of};
ghost use Rattle.posix_calls.specs.Operations.{Step, makes, reply_of, state_after, tree_after};
ghost use Rattle.posix_calls.specs.Kinds.{is_query};
ghost use Rattle.posix_calls.specs.Exact.{IsAnswered, IsGivenUp, IsLowest, IsTaken};
ghost use Rattle.plain_tree.specs.Plain.{stored_tree, held_of, stored_state, state_in, IsNoClose, IsDoable, IsDone, IsDropped, takes_room};
ghost use Rattle.posix_calls.specs.declared.call.Reply.TheVariants.{Failed};

use crate::node::PlainNode;
use crate::nodes::{PlainNodes, lowest_free};
use crate::operations::{
    Destination, close_at, drop_name, empty_if, make, move_name, open_if, remove_dir,
};
use posix_calls::{
    Bytes, Call, DecideError, Description, Errno, MAX_CLIENTS, NamedInode, Names, Operation,
    OwnDescriptors, ROOT, Reply, TreeAnswers, decide,
};
use std::alloc::{AllocError, Global};
use std::marker::Model;

/// A file tree that runs, with the descriptors of its clients, for programs and tests.
#[derive(Drop)]
pub struct PlainTree {
    alloc: Global,
    nodes: PlainNodes,
    rows: Vec<OwnDescriptors>,
}

impl Model for PlainTree {
    ghost use Rattle.std.specs.Prelude.{◌≡◌, length};
    ghost use Rattle.plain_tree.specs.Plain.{Stored, state_in, IsConsistent};
    ghost use Rattle.plain_tree.specs.PlainCode.{stored_code};

    ghost Value = { Stored };

    ghost coded = { stored_code };

    ghost view = { λ p. record { nodes = p.nodes; rows = p.rows.items } };

    ghost invariant = { λ p. (length p.rows.items ≡ 8) × IsConsistent (state_in p.nodes p.rows.items) };
}

impl PlainTree {
    /// The empty tree: a root with no entry, of which nothing is open.
    pub fn new(alloc: Global) -> Result<Self, AllocError>
        ensures { IfOk result (λ tree. stored_state tree ≡ empty_state) }
    {
        let nodes = root_alone(alloc)?;
        let rows = no_descriptors(alloc, MAX_CLIENTS)?;
        Ok(PlainTree { alloc, nodes, rows })
    }

    /// Does what a client asks, and answers it. A client outside 1 to 8 is answered `Invalid`. A new node gets the lowest
    /// inode number from 2 on that is free; where none is free, the call is answered `NoSpace`. `NoMemory` may stand in place of
    /// any answer to a client's call that takes memory: not of `close`, and of `pread` and `list /` only where there is something to
    /// give. A call that is answered `Failed` leaves the tree and all descriptors as they were.
    pub fn ask(&mut self, client: u32, call: &Call) -> Reply
        ensures step { Step (stored_state self.old) client call.now result (stored_state self.new) }
        ensures exact { IsAnswered (stored_state self.old) client call.now result (stored_state self.new) ⊎ IsGivenUp (stored_state self.old) client call.now result (stored_state self.new) }
        ensures refused { (errno : Errno) → result ≡ Failed errno → stored_state self.new ≡ stored_state self.old }
    {
        if client == 0 || client > MAX_CLIENTS {
            return Reply::Failed {
                errno: Errno::Invalid,
            };
        }
        match decide(self.alloc, self, &self.rows[client as usize - 1], call) {
            Ok(operation) => carry_out(
                self.alloc,
                &mut self.nodes,
                &mut self.rows,
                client,
                operation,
            ),
            Err(DecideError::Refused { errno }) => Reply::Failed { errno },
            Err(DecideError::Memory) => Reply::Failed {
                errno: Errno::NoMemory,
            },
            Err(DecideError::Missing { .. }) => unreachable!(),
        }
    }
}

/// All of the tree is known.
impl TreeAnswers for PlainTree {
    ghost part = { λ s. whole_part (view_of (stored_tree s.nodes)) };

    fn is_dir(&self, inode: u32) -> Option<Option<bool>> {
        Some(is_dir(self.nodes.as_slice(), inode))
    }

    fn entry(&self, dir: u32, name: &[u8]) -> Option<Option<NamedInode>> {
        Some(child(self.nodes.as_slice(), dir, name))
    }

    fn entry_count(&self, dir: u32) -> Option<u32> {
        match self.nodes.as_slice().get(dir as usize) {
            Some(node) => Some(node.entry_count()),
            None => Some(0),
        }
    }

    fn names(&self, alloc: Global, dir: u32) -> Result<Option<Names>, AllocError> {
        match self.nodes.as_slice().get(dir as usize) {
            Some(node) => Ok(Some(node.names(alloc)?)),
            None => Ok(Some(Names::from_vec(Vec::new(alloc)))),
        }
    }

    fn file_size(&self, inode: u32) -> Option<u64> {
        match self.nodes.as_slice().get(inode as usize) {
            Some(node) => Some(node.size()),
            None => Some(0),
        }
    }

    fn file_names(&self, inode: u32) -> Option<u32> {
        match self.nodes.as_slice().get(inode as usize) {
            Some(node) if node.is_dir() == Some(false) => Some(self.nodes.name_count(inode)),
            _ => Some(0),
        }
    }

    fn read(
        &self,
        alloc: Global,
        inode: u32,
        at: u64,
        count: u64,
    ) -> Result<Option<Bytes>, AllocError> {
        match self.nodes.as_slice().get(inode as usize) {
            Some(node) => Ok(Some(node.read(alloc, at, count)?)),
            None => Ok(Some(Bytes::from_vec(Vec::new(alloc)))),
        }
    }

    fn describe(&self, inode: u32) -> Option<Option<Description>> {
        Some(describe(&self.nodes, inode))
    }
}

fn is_dir(nodes: &[PlainNode], inode: u32) -> Option<bool>
    ensures { result ≡ option_map dir_test (stored_tree nodes.now inode) }
{
    nodes.get(inode as usize)?.is_dir()
}

fn child(nodes: &[PlainNode], dir: u32, name: &[u8]) -> Option<NamedInode>
    ensures inode { option_map (λ e. e.inode) result ≡ fin.get (entries_of (stored_tree nodes.now dir)) name.now }
    ensures kind { (e : NamedInode) → result ≡ Some e → e.is_dir ≡ option_map dir_test (stored_tree nodes.now e.inode) }
{
    let inode = nodes.get(dir as usize)?.entry(name)?;
    Some(NamedInode {
        inode,
        is_dir: is_dir(nodes, inode),
    })
}

fn describe(nodes: &PlainNodes, inode: u32) -> Option<Description>
    ensures { result ≡ description_of ((view_of (stored_tree nodes.now)).node inode) }
{
    let node = nodes.as_slice().get(inode as usize)?;
    match node.is_dir() {
        None => None,
        Some(true) => Some(Description::Dir {
            entries: node.entry_count(),
        }),
        Some(false) => Some(Description::File {
            size: node.size(),
            names: nodes.name_count(inode),
        }),
    }
}

fn root_alone(alloc: Global) -> Result<PlainNodes, AllocError>
    ensures { IfOk result (λ nodes. stored_tree nodes ≡ empty_tree) }
{
    let mut nodes = PlainNodes::new(alloc);
    nodes.make_room(ROOT)?;
    nodes.put(ROOT, PlainNode::directory(alloc));
    Ok(nodes)
}

fn no_descriptors(alloc: Global, clients: u32) -> Result<Vec<OwnDescriptors>, AllocError>
    ensures none { IfOk result (λ rows. held_of rows.items ≡ (λ c n. None)) }
    ensures all { IfOk result (λ rows. length rows.items ≡ clients) }
{
    let mut rows = Vec::new(alloc);
    for _ in 0..clients {
        rows.push(OwnDescriptors::new())?;
    }
    Ok(rows)
}

// Carries an operation out, and answers the call.
fn carry_out(
    alloc: Global,
    nodes: &mut PlainNodes,
    rows: &mut Vec<OwnDescriptors>,
    client: u32,
    operation: Operation,
) -> Reply
    requires low { 0 < client }
    requires high { client ≤ length rows.old.items }
    requires doable { IsDoable (stored_tree nodes.old) operation }
    ensures done { IsDone (state_in nodes.old rows.old.items) client operation result (state_in nodes.new rows.new.items) ⊎ IsDropped (state_in nodes.old rows.old.items) operation result (state_in nodes.new rows.new.items) }
    ensures kept { length rows.new.items ≡ length rows.old.items }
{
    match operation.reply() {
        None => operation.into_reply(),
        Some(reply) => change(alloc, nodes, rows, client, operation, reply),
    }
}

// Carries out an operation that changes something, whose call has this reply.
fn change(
    alloc: Global,
    nodes: &mut PlainNodes,
    rows: &mut Vec<OwnDescriptors>,
    client: u32,
    operation: Operation,
    reply: Reply,
) -> Reply
    requires low { 0 < client }
    requires high { client ≤ length rows.old.items }
    requires doable { IsDoable (stored_tree nodes.old) operation }
    requires changes { is_query operation ≡ false }
    requires reply { reply ≡ reply_of operation }
    ensures done { IsDone (state_in nodes.old rows.old.items) client operation result (state_in nodes.new rows.new.items) ⊎ IsDropped (state_in nodes.old rows.old.items) operation result (state_in nodes.new rows.new.items) }
    ensures kept { length rows.new.items ≡ length rows.old.items }
{
    let Some(inode) = new_inode(nodes.as_slice(), &operation) else {
        return Reply::Failed {
            errno: Errno::NoSpace,
        };
    };
    match apply(alloc, nodes, rows, client, inode, operation) {
        Ok(()) => reply,
        Err(_) => Reply::Failed {
            errno: Errno::NoMemory,
        },
    }
}

// The number of the node that an operation makes; what makes none needs none.
fn new_inode(nodes: &[PlainNode], operation: &Operation) -> Option<u32>
    ensures { MatchOption result ((makes operation.now ≡ true) × IsTaken (stored_tree nodes.now)) (λ i. makes operation.now ≡ true → IsLowest (stored_tree nodes.now) i) }
{
    if operation.makes_node() {
        return lowest_free(nodes);
    }
    Some(0)
}

// Carries an operation out, where a new node gets this number. Where there is no memory for it, all stays as it was.
fn apply(
    alloc: Global,
    nodes: &mut PlainNodes,
    rows: &mut Vec<OwnDescriptors>,
    client: u32,
    new: u32,
    operation: Operation,
) -> Result<(), AllocError>
    requires low { 0 < client }
    requires high { client ≤ length rows.old.items }
    requires doable { IsDoable (stored_tree nodes.old) operation }
    requires changes { is_query operation ≡ false }
    requires lowest { makes operation ≡ true → IsLowest (stored_tree nodes.old) new }
    ensures memory { IfErr result (λ _. takes_room operation ≡ true) }
    ensures ok { OnOk result (state_in nodes.new rows.new.items ≡ state_after client new (state_in nodes.old rows.old.items) operation) }
    ensures err { OnErr result (state_in nodes.new rows.new.items ≡ state_in nodes.old rows.old.items) }
    ensures kept { length rows.new.items ≡ length rows.old.items }
{
    match operation {
        Operation::CloseFile { inode, descriptor } => {
            close_at(rows, client, descriptor);
            nodes.drop_unused(rows, inode);
            Ok(())
        }
        operation => {
            let opened = operation.opens(new);
            apply_to_tree(alloc, nodes, rows, new, operation)?;
            open_if(rows, client, opened);
            Ok(())
        }
    }
}

// Carries out what an operation that closes nothing does to the tree.
fn apply_to_tree(
    alloc: Global,
    nodes: &mut PlainNodes,
    rows: &[OwnDescriptors],
    new: u32,
    operation: Operation,
) -> Result<(), AllocError>
    requires stays { IsNoClose operation }
    requires doable { IsDoable (stored_tree nodes.old) operation }
    requires lowest { makes operation ≡ true → IsLowest (stored_tree nodes.old) new }
    ensures ok { OnOk result (stored_tree nodes.new ≡ tree_after (held_of rows.now) new (stored_tree nodes.old) operation) }
    ensures err { OnErr result (stored_tree nodes.new ≡ stored_tree nodes.old) }
{
    match operation {
        Operation::NewDir { at } => make(alloc, nodes, at, new, PlainNode::directory(alloc)),
        Operation::NewFile { at, .. } => make(alloc, nodes, at, new, PlainNode::file(alloc)),
        Operation::OpenFile { inode, empties, .. } => empty_if(alloc, nodes, inode, empties),
        Operation::Write { inode, at, bytes } => nodes.write(alloc, inode, at, bytes.as_slice()),
        Operation::Resize { inode, len } => nodes.resize(alloc, inode, len),
        Operation::RemoveDir { at, inode } => remove_dir(alloc, nodes, &at, inode),
        Operation::AddName { at, inode } => nodes.enter(alloc, at, inode),
        Operation::DropName { at, inode } => drop_name(alloc, nodes, rows, &at, inode),
        Operation::Move {
            from,
            to,
            inode,
            replaced,
            ..
        } => {
            let to = Destination {
                at: to,
                inode,
                replaced,
            };
            move_name(alloc, nodes, rows, &from, to)
        }
        Operation::Exchange {
            first,
            second,
            inode,
            other,
        } => nodes.exchange(alloc, first, second, inode, other),
        _ => Ok(()),
    }
}
