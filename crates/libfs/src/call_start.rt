ghost use Rattle.std.specs.Prelude.{◌≡◌, ◌≤◌, ◌⊎◌, ◌/◌, length, true, false, None, IfOk, IfErr, IfSome};
ghost use Rattle.posix_calls.specs.declared.call.Call.TheVariants as calls;
ghost use Rattle.posix_calls.specs.declared.call.Reply.TheVariants as replies;
ghost use Rattle.posix_calls.specs.declared.errno.Errno.TheVariants.{IoError, NoMemory};
ghost use Rattle.client_log.specs.call_effects.Knowledge.{part_of};
ghost use Rattle.client_view.specs.client_plan.Memory.{wants_memory};
ghost use Rattle.client_view.specs.client_plan.PlainWrite.{write_logged, written_by};
ghost use Rattle.client_view.specs.KnowledgeTables.{knows};
ghost use Rattle.client_view.specs.Preparation.{IsPreparedFor};
ghost use Rattle.libfs.specs.declared.now.Now.TheVariants as now;
ghost use Rattle.posix_calls.specs.declared.call.Reply.{Reply};
ghost use Rattle.posix_calls.specs.declared.limits.TheConstants.{MAX_TRANSFER, UNIT_BYTES};
ghost use Rattle.block_cache.specs.CacheList.{used_run};
ghost use Rattle.libfs.specs.BlockUse.{blocks_read, used_by};
ghost use Rattle.libfs.specs.View.{is_pending, pass_answered};
ghost use Rattle.libfs.specs.ClientHoldings.{holdings_of, known_to, outcome_for};
ghost use Rattle.libfs.specs.CallStart.{HasBegun, HasStarted, IsOutOfMemory, IsReadyToBegin, MayGoOn};

use crate::begun_record::Begun;
use crate::client::Client;
use crate::now::Now;
use client_view::in_client_plan::{
    DescriptorChange, Outcome, PlainWrite, logged_call_is_a_step, plain_write,
    plain_write_is_logged, plan_call, record_of_write,
};
use client_view::{
    ClientCopies, OwnChange, logged_call_can_be_prepared, used_blocks_are_known_as_before,
};
use lease_manager::in_log_record::Record;
use lease_manager::note_effects;
use posix_calls::{Call, Errno, MAX_FILE, MAX_TRANSFER, Reply, SharedBytes, UNIT_BYTES};
use std::alloc::AllocError;
use tier_device::Media;

impl<M: Media> Client<M> {
    /// Starts a call, where none waits for its answer: answers it at once, or names what is lacking first and changes nothing, or begins its record, whose device calls `step` makes. Which of these, `plan_call`
    /// decides by what the client knows and has. A read that is answered uses the kept blocks in which its bytes lie, so another one goes first where the cache is full.
    ///
    /// Answered EIO where a device of the client has failed. Answered ENOMEM, with nothing changed, where there is no memory for the names and bytes of the call and its answer, or for all that its record needs
    /// until it is answered. It makes no device call.
    pub fn start(&mut self, call: &Call) -> Now
        requires idle { is_pending self.old ≡ false }
        ensures failed { self.old.log.failed ≡ true → (result ≡ now.Done (replies.Failed IoError)) × (self.new ≡ record self.old { pass = pass_answered self.old.pass }) }
        ensures started { self.old.log.failed ≡ false → HasStarted M.Media self.old (outcome_for M.Media self.old call.now) result self.new ⊎ IsOutOfMemory M.Media self.old call.now result self.new }

        // A read that is answered uses the blocks in which its bytes lie.
        ensures used { (reply : Reply) → result ≡ now.Done reply → self.new.copies.blocks ≡ used_by call.now reply (known_to self.old).own self.old.copies.blocks }
    {
        if self.log.has_failed() {
            return answer(Errno::IoError);
        }
        if let Call::Pwrite {
            descriptor,
            at,
            bytes,
        } = call
        {
            if let Some(write) = self.plain_write(*descriptor, *at, bytes) {
                return self.begin_write(write, *at, bytes);
            }
        }
        match self.plan(call) {
            Ok(Outcome::Reply { reply, change }) => {
                use_read(&mut self.copies, call, &reply);
                self.copies.change_descriptor(change);
                Now::Done { reply }
            }
            Ok(Outcome::Need { need }) => Now::Need { need },
            Ok(
                Outcome::Log {
                    record: entry,
                    reply,
                    made,
                    change,
                },
            ) => self.begin(entry, reply, made, change),
            Err(_) => answer(Errno::NoMemory),
        }
    }

    // What a call comes to. Of a record all is there that it asks for.
    fn plan(&self, call: &Call) -> Result<Outcome, AllocError>
        ensures exact { IfOk result (λ o. o ≡ outcome_for M.Media self.now call.now) }
        ensures ready { IfOk result (MayGoOn M.Media self.now) }
        ensures memory { IfErr result (λ _. wants_memory (part_of (known_to self.now)) (holdings_of M.Media self.now).own call.now ≡ true) }
    {
        // For the proof: the record that a call comes to is one to begin, and can be prepared.
        logged_call_is_a_step();
        logged_call_can_be_prepared();
        plan_call(self.alloc, &self.copies, self, call)
    }

    // A write for which nothing is lacking: of its record all is there that it asks for.
    fn plain_write(&self, number: u32, at: u64, bytes: &SharedBytes) -> Option<PlainWrite>
        ensures logged { IfSome result (λ w. outcome_for M.Media self.now (calls.Pwrite number at bytes.now) ≡ write_logged w at bytes.now) }
        ensures ready { IfSome result (λ w. IsReadyToBegin M.Media self.now (written_by w at bytes.now) None None) }
        ensures few { IfSome result (λ w. length bytes.now ≤ MAX_TRANSFER) }
    {
        // For the proof: the same of a write's record.
        plain_write_is_logged();
        logged_call_is_a_step();
        logged_call_can_be_prepared();
        plain_write(&self.copies, self, number, at, bytes.len())
    }

    // Begins the record of such a write. Most calls that log something come to this: so what it calls is put into it, and nothing is moved from call to call. It stands apart from `start`, which has a large frame.
    #[inline(never)]
    fn begin_write(&mut self, write: PlainWrite, at: u64, bytes: &SharedBytes) -> Now
        requires idle { self.old.begun ≡ None }
        requires going { self.old.log.failed ≡ false }
        requires ready { IsReadyToBegin M.Media self.old (written_by write at bytes.now) None None }
        requires few { length bytes.now ≤ MAX_TRANSFER }
        ensures { ((result ≡ now.Pending) × HasBegun M.Media self.old (written_by write at bytes.now) (replies.Wrote (length bytes.now)) None None self.new) ⊎ ((result ≡ now.Done (replies.Failed NoMemory)) × (self.new ≡ self.old)) }
    {
        match self.record_of(write, at, bytes) {
            Ok(entry) => {
                let count = bytes.len() as u32;
                self.begin(entry, Reply::Wrote { count }, None, None)
            }
            Err(_) => answer(Errno::NoMemory),
        }
    }

    // The record of a write, in the list of effects of one that is digested, if there is one. Where the write is refused later, that list is freed.
    #[inline(always)]
    fn record_of(
        &mut self,
        write: PlainWrite,
        at: u64,
        bytes: &SharedBytes,
    ) -> Result<Record, AllocError>
        ensures is { IfOk result (λ entry. entry ≡ written_by write at bytes.now) }
        ensures rest { self.new ≡ self.old }
    {
        let effects = self.records.effect_list()?;
        record_of_write(effects, write, at, bytes)
    }

    // Begins a record, for which all is there.
    #[inline(always)]
    fn begin(
        &mut self,
        logged: Record,
        reply: Reply,
        made: Option<u32>,
        change: Option<DescriptorChange>,
    ) -> Now
        requires idle { self.old.begun ≡ None }
        requires going { self.old.log.failed ≡ false }
        requires ready { IsReadyToBegin M.Media self.old logged made change }
        ensures { ((result ≡ now.Pending) × HasBegun M.Media self.old logged reply made change self.new) ⊎ ((result ≡ now.Done (replies.Failed NoMemory)) × (self.new ≡ self.old)) }
    {
        match self.copies.prepare(logged, made, change) {
            Ok(change) => self.begin_prepared(change, reply),
            Err(_) => answer(Errno::NoMemory),
        }
    }

    // Begins a record that is prepared.
    #[inline(always)]
    fn begin_prepared(&mut self, change: OwnChange, reply: Reply) -> Now
        requires idle { self.old.begun ≡ None }
        requires going { self.old.log.failed ≡ false }
        requires ready { IsReadyToBegin M.Media self.old change.logged change.made change.descriptor }
        requires prepared { IsPreparedFor (known_to self.old) change }
        ensures { ((result ≡ now.Pending) × HasBegun M.Media self.old change.logged reply change.made change.descriptor self.new) ⊎ ((result ≡ now.Done (replies.Failed NoMemory)) × (self.new ≡ self.old)) }
    {
        match self.records.make_room() {
            Ok(()) => {}
            Err(_) => return answer(Errno::NoMemory),
        }
        match self.log.begin(&change.logged) {
            Ok(()) => {}
            Err(_) => unreachable!(),
        }
        let entry = &change.logged;
        note_effects(&self.leases, &mut self.pass, entry.effects.as_slice());
        self.spare -= entry.units;
        self.begun = Some(Begun { change, reply });
        Now::Pending
    }
}

fn answer(errno: Errno) -> Now
    ensures { result ≡ now.Done (replies.Failed errno) }
{
    Now::Done {
        reply: Reply::Failed { errno },
    }
}

// The blocks in which the bytes lie that a read tells are the ones used last now.
fn use_read(copies: &mut ClientCopies, call: &Call, reply: &Reply)
    ensures used { copies.new ≡ record copies.old { blocks = used_by call.now reply.now (knows copies.old).own copies.old.blocks } }
    ensures known { knows copies.new ≡ knows copies.old }
{
    // For the proof: which blocks were used last changes nothing that is known.
    used_blocks_are_known_as_before();
    let Call::Pread { descriptor, at, .. } = call else {
        return;
    };
    let Reply::Read { bytes } = reply else {
        return;
    };
    if let Some(open) = copies.own().get(*descriptor) {
        use_range(copies, open.inode, *at, bytes.len());
    }
}

// The kept blocks in which so many bytes of a file from an offset on lie are the ones used last now.
fn use_range(copies: &mut ClientCopies, inode: u32, at: u64, count: usize)
    ensures { copies.new ≡ record copies.old { blocks = used_run inode (at / UNIT_BYTES) (blocks_read at count) copies.old.blocks } }
{
    if count == 0 || at > MAX_FILE || count > MAX_TRANSFER {
        return;
    }
    let first = at / UNIT_BYTES as u64;
    let last = (at + (count as u64 - 1)) / UNIT_BYTES as u64;
    copies.use_blocks(inode, first as u32, (1 + last - first) as u32);
}
