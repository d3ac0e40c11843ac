ghost use Rattle.std.specs.Prelude.{◌≡◌, [], Err, OnOk, IfOk, IfErr, vec_capacity};
ghost use Rattle.fuse_wire.specs.declared.error.WireError.{WireError};
ghost use Rattle.fuse_wire.specs.declared.errno.Refusal.TheVariants as refusal;
ghost use Rattle.posix_calls.specs.declared.errno.Errno.TheVariants as errno;
ghost use Rattle.fuse_wire.specs.Errno.{refusal_number};
ghost use Rattle.fuse_wire.specs.Replies.{error_bytes};
ghost use Rattle.fuse_wire.specs.declared.header.Header.{Header};
ghost use Rattle.fuse_wire.specs.declared.request.Request.{Request};
ghost use Rattle.fuse_wire.specs.Spelling.{IsWhole, Spells, header_of};
ghost use Rattle.fuse_server.specs.declared.answer.Answer.{Answer};
ghost use Rattle.fuse_server.specs.Answers.{IsAnswered, IsReply, is_silent};
ghost use Rattle.fuse_server.specs.Replies.{IsReplyFor};
ghost use Rattle.fuse_server.specs.Refusals.{IsNoAnswer};
ghost use Rattle.fuse_server.specs.Requests.{IsAnswerTo, IsServed};
ghost use Rattle.mount_nodes.specs.Times.{GoesOn, IsBegun};

use crate::answer::Answer;
use crate::listings::Listing;
use crate::owner::Owner;
use crate::replies::write_refusal;
use fuse_wire::{Header, Refusal, WireError, read_header, read_request};
use mount_nodes::{Tables, Tree};
use posix_calls::Errno;
use std::alloc::{AllocError, Global};

/// The messages that take no reply, by their opcodes: the kernel forgets a node or several, or interrupts a request.
const FORGET: u32 = 2;

const INTERRUPT: u32 = 36;

const BATCH_FORGET: u32 = 42;

/// Why a message has no answer.
#[derive(Clone, Copy)]
pub enum ServeError {
    /// The bytes are no whole message.
    Message(WireError),
    /// There is no memory even for a refusal.
    Memory,
}

/// The server of a mount: the nodes that the kernel knows, and what it has open. It owns no tree: whatever it answers, the tree answered before.
#[derive(Drop)]
pub struct Server {
    pub(crate) tables: Tables,
    // the directories that are open, by their handles
    pub(crate) listings: Vec<Option<Listing>>,
    pub(crate) owner: Owner,
}

impl Server {
    /// The server of a mount of which the kernel knows nothing yet, with nothing open. The tree's client has nothing open. The mount begins at
    /// this time of day, in nanoseconds from the beginning of 1970 on, and all of it is told to be of this owner.
    pub fn new(alloc: Global, now: u64, owner: Owner) -> Result<Server, AllocError>
        ensures listings { IfOk result (λ server. server.listings.items ≡ []) }
        ensures times { IfOk result (λ server. IsBegun server.tables.times now) }
        ensures owner { IfOk result (λ server. server.owner ≡ owner) }
    {
        Ok(Server {
            tables: Tables::new(alloc, now)?,
            listings: Vec::new(alloc),
            owner,
        })
    }

    /// Sets the time of day, which the next changes get.
    pub fn see_time(&mut self, now: u64)
        ensures { self.new ≡ record self.old { tables = record self.old.tables { times = record self.old.tables.times { day = now } } } }
    {
        self.tables.times.see(now);
    }

    /// Does what a message asks, and puts its reply into `reply`, which is empty where it takes none: one that the kernel forgets nodes
    /// by, or interrupts a request. A message whose body can't be read is answered EINVAL, and one for whose answer memory is wanting
    /// ENOMEM.
    ///
    /// Refused where the bytes are no whole message, with nothing done, and where memory is wanting for a reply of 16 bytes, with the request
    /// served all the same. A message that spells no request leaves the server as it was.
    #[tactic(auto, using(mount_nodes::proofs::TimeLemmas::goes_none), unfolding(fuse_wire::specs::Spelling::header_of))]
    pub fn answer<T: Tree>(
        &mut self,
        tree: &mut T,
        message: &[u8],
        reply: &mut Vec<u8>,
    ) -> Result<(), ServeError>
        ensures answered { OnOk result (IsAnswered message.now reply.new.items) }
        ensures whole { OnOk result (IsWhole message.now) }
        ensures served { OnOk result (IsServed T.Tree self.old self.new message.now (vec_capacity reply.old) reply.new.items tree.old tree.new) }
        ensures refused { IfErr result (IsNoAnswer message.now) }
        ensures unasked { (e : WireError) → result ≡ Err (ServeError.Message e) → (tree.new ≡ tree.old) × (self.new ≡ self.old) }
        ensures unspelled { ((h : Header) (r : Request) → Spells message.now h r → ⊥) → self.new ≡ self.old }
        ensures times { GoesOn self.old.tables.times self.new.tables.times }
        ensures unreplied { result ≡ Err ServeError.Memory → (said : Answer) × IsAnswerTo T.Tree self.old self.new message.now said tree.old tree.new }
    {
        reply.clear();
        let header = match read_header(message) {
            Ok(header) => header,
            Err(error) => return Err(ServeError::Message(error)),
        };
        let answer = self.serve_message(tree, &header, message);
        if is_silent(header.opcode) {
            return Ok(());
        }
        self.reply_to(&header, &answer, reply)
    }

    // What a message with this header is answered.
    #[tactic(auto, unfolding(crate::specs::Requests::IsAnswerTo))]
    fn serve_message<T: Tree>(&mut self, tree: &mut T, header: &Header, message: &[u8]) -> Answer
        requires { header.now ≡ header_of message.now }
        ensures answers { IsAnswerTo T.Tree self.old self.new message.now result tree.old tree.new }
        ensures unspelled { ((h : Header) (r : Request) → Spells message.now h r → ⊥) → self.new ≡ self.old }
        ensures times { GoesOn self.old.tables.times self.new.tables.times }
    {
        match read_request(message) {
            Ok((_, request)) => self.serve(tree, header, &request),
            Err(_) => Answer::Refused(Refusal::Posix(Errno::Invalid)),
        }
    }

    fn reply_to(
        &self,
        header: &Header,
        answer: &Answer,
        reply: &mut Vec<u8>,
    ) -> Result<(), ServeError>
        ensures replied { OnOk result (IsReply header.now.unique reply.new.items) }
        ensures carried { OnOk result (IsReplyFor self.now header.now answer.now (vec_capacity reply.old) reply.new.items) }
        ensures memory { IfErr result (λ e. e ≡ ServeError.Memory) }
    {
        match self.write_answer(header, answer, reply) {
            Ok(()) => Ok(()),
            Err(_) => refuse_memory(header.unique, reply),
        }
    }
}

// Refuses a request for whose answer memory was wanting.
fn refuse_memory(unique: u64, reply: &mut Vec<u8>) -> Result<(), ServeError>
    ensures replied { OnOk result (IsReply unique reply.new.items) }
    ensures refused { OnOk result (reply.new.items ≡ error_bytes unique (refusal_number (refusal.Posix errno.NoMemory))) }
    ensures memory { IfErr result (λ e. e ≡ ServeError.Memory) }
{
    match write_refusal(reply, unique, Refusal::Posix(Errno::NoMemory)) {
        Ok(()) => Ok(()),
        Err(_) => Err(ServeError::Memory),
    }
}

fn is_silent(opcode: u32) -> bool
    ensures { result ≡ is_silent opcode }
{
    opcode == FORGET || opcode == INTERRUPT || opcode == BATCH_FORGET
}
