// What each request asks of the server and of the tree.
ghost use Rattle.std.specs.Prelude.{◌≡◌, OnOk};
ghost use Rattle.fuse_wire.specs.declared.errno.Refusal.{Refusal};
ghost use Rattle.fuse_server.specs.declared.answer.Answer.TheVariants as answer;
ghost use Rattle.fuse_server.specs.Creations.{MakesNode, is_file_mode, creation_by};
ghost use Rattle.fuse_server.specs.Requests.{Agrees, Serves, ServesFile, ServesName, ServesOther, ServesRequest, answer_of, end_answer, lookup_answer};
ghost use Rattle.fuse_server.specs.TimeChanges.{FileTimes, NameTimes, ServesTimes};
ghost use Rattle.mount_nodes.specs.Times.{GoesOn, IsWritten};

use crate::answer::Answer;
use crate::server::Server;
use fuse_wire::{Header, Init, Refusal, Request, forget_at, negotiate};
use mount_nodes::{Attributes, Place, Tables, Tree, creation};
use posix_calls::{Bytes, Errno, Flags};

/// The lowest of the four bits of a mode that say what kind of node it is, and what they are of a file.
const KIND: u32 = 0o10000;

const FILE: u32 = 8;

/// The flags of open(2) by which a name that is taken refuses the call, and a file loses its bytes.
const EXCLUSIVE: u32 = 0o200;

const TRUNCATE: u32 = 0o1000;

impl Server {
    /// Does what a request asks, and answers it.
    pub(crate) fn serve<T: Tree>(
        &mut self,
        tree: &mut T,
        header: &Header,
        request: &Request<'_>,
    ) -> Answer
        ensures serves { ServesRequest T.Tree self.old self.new header.now.node request.now result tree.old tree.new }
        ensures times { GoesOn self.old.tables.times self.new.tables.times }
    {
        let node = header.node;
        match *request {
            Request::OpenDir { .. } => opened_answer(self.open_dir(tree, node)),
            Request::ReadDir { handle, at, size } => Answer::Entries { handle, at, size },
            Request::ReleaseDir { handle } => {
                self.release_dir(handle);
                Answer::Done
            }
            _ => serve_nodes(&mut self.tables, tree, node, request),
        }
    }
}

// All other requests: they open and close no directory.
fn serve_nodes<T: Tree>(
    tables: &mut Tables,
    tree: &mut T,
    node: u64,
    request: &Request<'_>,
) -> Answer
    ensures serves { Serves T.Tree tables.old tables.new node request.now result tree.old tree.new }
    ensures times { ServesTimes tables.old.times tables.new.times node request.now result }
{
    match *request {
        Request::Lookup { name } => lookup_answer(tables.look_up(tree, node, name)),
        Request::GetAttr { .. } => attributes_answer(tables.describe(tree, node)),
        Request::MkDir { name, .. } => entry_answer(tables.make_dir(tree, node, name)),
        Request::RmDir { name } => done_answer(tables.remove_dir(tree, node, name)),
        Request::Unlink { name } => done_answer(tables.unlink(tree, node, name)),
        Request::Link { node: old, name } => entry_answer(tables.link(tree, old, node, name)),
        Request::Write { at, bytes, .. } => count_answer(tables.write(tree, node, at, bytes)),
        _ => serve_file(tables, tree, node, request),
    }
}

// The requests about files.
fn serve_file<T: Tree>(
    tables: &mut Tables,
    tree: &mut T,
    node: u64,
    request: &Request<'_>,
) -> Answer
    ensures serves { ServesFile T.Tree tables.old tables.new node request.now result tree.old tree.new }
    ensures times { FileTimes tables.old.times tables.new.times node request.now result }
{
    match *request {
        Request::SetAttr(set) => attributes_answer(tables.set_attributes(tree, node, set)),
        Request::Open { .. } => opened_answer(tables.open(node)),
        Request::Read { at, size, .. } => data_answer(tables.read(tree, node, at, size)),
        Request::Release { .. } => done_answer(tables.release(tree, node)),
        _ => serve_name(tables, tree, node, request),
    }
}

// The requests that make, take or move a name of a file.
fn serve_name<T: Tree>(
    tables: &mut Tables,
    tree: &mut T,
    node: u64,
    request: &Request<'_>,
) -> Answer
    ensures serves { ServesName T.Tree tables.old tables.new node request.now result tree.old tree.new }
    ensures times { NameTimes tables.old.times tables.new.times node request.now result }
{
    match *request {
        Request::Create { name, flags, .. } => {
            create_answer(tables.create(tree, node, name, creation_by(flags)))
        }
        Request::MkNod { name, mode } => entry_answer(make_node(tables, tree, node, name, mode)),
        Request::Rename {
            name,
            new_folder,
            new_name,
        } => {
            let old = Place { folder: node, name };
            done_answer(tables.rename(
                tree,
                old,
                Place {
                    folder: new_folder,
                    name: new_name,
                },
                0,
            ))
        }
        Request::Rename2 {
            name,
            new_folder,
            new_name,
            flags,
        } => {
            let old = Place { folder: node, name };
            done_answer(tables.rename(
                tree,
                old,
                Place {
                    folder: new_folder,
                    name: new_name,
                },
                flags,
            ))
        }
        _ => serve_other(tables, tree, node, request),
    }
}

// Makes a file; special files are not permitted.
fn make_node<T: Tree>(
    tables: &mut Tables,
    tree: &mut T,
    node: u64,
    name: &[u8],
    mode: u32,
) -> Result<Attributes, Refusal>
    ensures makes { MakesNode T.Tree tables.old.nodes node name.now mode result tree.old tree.new }
    ensures times { GoesOn tables.old.times tables.new.times }
    ensures made { OnOk result (IsWritten tables.old.times tables.new.times node) }
{
    if !is_file_mode(mode) {
        return Err(Refusal::Posix(Errno::NotPermitted));
    }
    tables.make_file(tree, node, name)
}

// The requests about the whole mount, and those that are refused.
fn serve_other<T: Tree>(
    tables: &mut Tables,
    tree: &mut T,
    node: u64,
    request: &Request<'_>,
) -> Answer
    ensures serves { ServesOther T.Tree tables.old tables.new node request.now result tree.old tree.new }
    ensures times { tables.new.times ≡ tables.old.times }
{
    match *request {
        Request::Init(init) => agree(&init),
        Request::StatFs => Answer::Usage(tree.usage()),
        Request::SymLink => Answer::Refused(Refusal::Posix(Errno::NotPermitted)),
        _ => serve_end(tables, node, request),
    }
}

// The requests by which something ends, and those that are not served. They ask the tree nothing.
fn serve_end(tables: &mut Tables, node: u64, request: &Request<'_>) -> Answer
    ensures ends { result ≡ end_answer request.now }
    ensures refused { (e : Refusal) → result ≡ answer.Refused e → tables.new ≡ tables.old }
    ensures times { tables.new.times ≡ tables.old.times }
{
    match *request {
        Request::Forget { count } => {
            tables.nodes.forget(node, count);
            Answer::Done
        }
        Request::BatchForget { nodes } => {
            forget_all(tables, nodes);
            Answer::Done
        }
        Request::Destroy => Answer::Done,
        _ => Answer::Refused(Refusal::NotServed),
    }
}

fn forget_all(tables: &mut Tables, nodes: &[u8])
    ensures { tables.new.times ≡ tables.old.times }
{
    for place in 0..nodes.len() {
        match forget_at(nodes, place) {
            Some((node, count)) => tables.nodes.forget(node, count),
            None => return,
        }
    }
}

// The reply for a name that nothing has lets the kernel keep that.
fn lookup_answer(end: Result<Attributes, Refusal>) -> Answer
    ensures { result ≡ lookup_answer end }
{
    match end {
        Ok(attributes) => Answer::Entry(attributes),
        Err(Refusal::Posix(Errno::NoEntry)) => Answer::Absence,
        Err(refusal) => Answer::Refused(refusal),
    }
}

fn entry_answer(end: Result<Attributes, Refusal>) -> Answer
    ensures { result ≡ answer_of answer.Entry end }
{
    match end {
        Ok(attributes) => Answer::Entry(attributes),
        Err(refusal) => Answer::Refused(refusal),
    }
}

fn create_answer(end: Result<Attributes, Refusal>) -> Answer
    ensures { result ≡ answer_of answer.Created end }
{
    match end {
        Ok(attributes) => Answer::Created(attributes),
        Err(refusal) => Answer::Refused(refusal),
    }
}

fn attributes_answer(end: Result<Attributes, Refusal>) -> Answer
    ensures { result ≡ answer_of answer.Attributes end }
{
    match end {
        Ok(attributes) => Answer::Attributes(attributes),
        Err(refusal) => Answer::Refused(refusal),
    }
}

fn data_answer(end: Result<Bytes, Refusal>) -> Answer
    ensures { result ≡ answer_of answer.Data end }
{
    match end {
        Ok(bytes) => Answer::Data(bytes),
        Err(refusal) => Answer::Refused(refusal),
    }
}

fn count_answer(end: Result<u32, Refusal>) -> Answer
    ensures { result ≡ answer_of answer.Count end }
{
    match end {
        Ok(count) => Answer::Count(count),
        Err(refusal) => Answer::Refused(refusal),
    }
}

fn done_answer(end: Result<(), Refusal>) -> Answer
    ensures { result ≡ answer_of (λ _. answer.Done) end }
{
    match end {
        Ok(()) => Answer::Done,
        Err(refusal) => Answer::Refused(refusal),
    }
}

fn opened_answer(end: Result<u64, Refusal>) -> Answer
    ensures { result ≡ answer_of answer.Opened end }
{
    match end {
        Ok(handle) => Answer::Opened(handle),
        Err(refusal) => Answer::Refused(refusal),
    }
}

fn agree(init: &Init) -> Answer
    ensures { Agrees init.now result }
{
    match negotiate(init) {
        Ok(reply) => Answer::Agreed(reply),
        Err(_) => Answer::Refused(Refusal::Posix(Errno::Invalid)),
    }
}

fn creation_by(flags: u32) -> Flags
    ensures { result ≡ creation_by flags }
{
    creation(flags / EXCLUSIVE % 2 == 1, flags / TRUNCATE % 2 == 1)
}

fn is_file_mode(mode: u32) -> bool
    ensures { result ≡ is_file_mode mode }
{
    let kind = mode / KIND % 16;
    kind == 0 || kind == FILE
}
