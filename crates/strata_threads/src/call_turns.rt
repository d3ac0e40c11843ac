//! A call of one client, from its start to its answer.
ghost use Rattle.std.specs.Prelude.{◌≡◌, ◌≢◌, ◌<◌, ◌∷◌, [], true, false, IfErr, IfOk, IfSome, OnErr, Result, None};
ghost use Rattle.libfs.specs.client_plan.declared.need.Need.{Need};
ghost use Rattle.posix_calls.specs.declared.call.Reply.{Reply};
ghost use Rattle.libfs.specs.View.{is_pending};
ghost use Rattle.libfs.specs.update_log.Stage.{next, progress};
ghost use Rattle.libfs.specs.update_log.declared.stage.Progress.TheVariants.{Appended, Going};
ghost use Rattle.libfs.specs.update_log.declared.stage.Stage.TheVariants as stages;
ghost use Rattle.libfs.specs.declared.now.Now.TheVariants as now;
ghost use Rattle.libfs.specs.declared.denial.Denied.{Denied};
ghost use Rattle.libfs.specs.declared.denial.Denied.TheVariants as denied;
ghost use Rattle.strata_threads.specs.CallDenials.{HasTakenTurn, HasUnmetNeed, IsAnsweredOrDenied, IsUnmet, NeedsFirst};
ghost use Rattle.strata_threads.specs.ClientCalls.{IsAnswered, IsEnded, IsFinished, IsStarted, KeepsCall, owner_of};
ghost use Rattle.strata_threads.specs.HolderQuestions.{HasAskedFor};
ghost use Rattle.strata_threads.specs.LeaseReturn.{KeepsLeases};
ghost use Rattle.strata_threads.specs.WaitedTurns.{HasWaitedFor, IsWithinTurns, reply_of};

use crate::gate_point::GatePoint;
use crate::shared_kernel::SharedKernel;
use crate::thread_client::ThreadClient;
use crate::waited::Waited;
use libfs::in_client_plan::Need;
use libfs::{Client, Denied, Now};
use posix_calls::{Call, Reply};
use std::sync::Wait;
use tier_device::Media;

// A record is appended by four device calls, of which the last answers its call.
pub(crate) const STEPS: u32 = 4;

impl<M: Media + Drop> ThreadClient<M> {
    /// Makes a call, and answers it: as it is started, or as the device calls of its record end. Where it is denied what it needs, or all turns were waited, it is answered why, and changes nothing.
    ///
    /// EAGAIN exactly where all turns were waited. EIO only where a device of the client's regions failed, or one of the kernel's. ENOMEM only for want of memory. ENOSPC of its own only where the kernel's units or numbers
    /// don't suffice, or the call needs more than any kernel has.
    pub fn posix<R: Wait, G: GatePoint>(
        &mut self,
        rt: &R,
        shared: &SharedKernel<M>,
        call: &Call,
        turns: u64,
        gate: &G,
    ) -> Reply
        ensures owner { owner_of self.new.client ≡ owner_of self.old.client }
        ensures turns { (answer : Result Reply Denied) × (result ≡ reply_of answer) × IsWithinTurns answer self.new.waited × IsAnsweredOrDenied M.Media call.now answer self.new.client }
        ensures given { self.new.waited.turns ≡ turns }
    {
        match self.answer_call(rt, shared, call, turns, gate) {
            Ok(reply) => reply,
            Err(why) => self.client.deny(call, why),
        }
    }

    /// Makes a call, and answers it or why it is denied: for its turns, or for a need that was not to be had.
    pub fn answer_call<R: Wait, G: GatePoint>(
        &mut self,
        rt: &R,
        shared: &SharedKernel<M>,
        call: &Call,
        turns: u64,
        gate: &G,
    ) -> Result<Reply, Denied>
        ensures owner { owner_of self.new.client ≡ owner_of self.old.client }
        ensures answered { IsAnsweredOrDenied M.Media call.now result self.new.client }
        ensures turns { IsWithinTurns result self.new.waited }
        ensures given { self.new.waited.turns ≡ turns }
    {
        self.begin_turns(rt, shared, turns);
        for turn in rt.forever() {
            if self.waited.is_over() {
                return Err(Denied::Turns);
            }
            if let Some(reply) = self.take_turn(rt, shared, call, gate)? {
                return Ok(reply);
            }
        }
        unreachable!()
    }

    // A call begins, of which no turn was waited: its client listens.
    pub(crate) fn begin_turns<R: Wait>(&mut self, rt: &R, shared: &SharedKernel<M>, turns: u64)
        ensures waited { self.new.waited ≡ record { count = 0; turns = turns; to_write = 0 ∷ 0 ∷ 0 ∷ [] } }
        ensures kept { KeepsCall self.old.client self.new.client }
    {
        self.waited = Waited::none_of(turns);
        self.listen_to(rt, shared, self.rows);
    }

    // One turn: the call is started, and answered, or what it needs is served.
    fn take_turn<R: Wait, G: GatePoint>(
        &mut self,
        rt: &R,
        shared: &SharedKernel<M>,
        call: &Call,
        gate: &G,
    ) -> Result<Option<Reply>, Denied>
        requires left { self.old.waited.count < self.old.waited.turns }
        ensures owner { owner_of self.new.client ≡ owner_of self.old.client }
        ensures waited { HasTakenTurn M.Media call.now self.old.waited self.new.waited }
        ensures answered { IfOk result (λ r. IfSome r (λ reply. IsAnswered M.Media call.now reply self.new.client)) }
        ensures at_once { IfOk result (λ r. IfSome r (λ _. self.new.waited ≡ self.old.waited)) }
        ensures unmet { IfErr result (λ e. HasUnmetNeed M.Media call.now e self.new.client) }
        ensures refused { OnErr result (self.new.waited ≡ self.old.waited) }
        ensures only { IfErr result (λ e. e ≢ denied.Turns) }
    {
        gate.pass();
        match start_call(&mut self.client, call, gate) {
            Ok(reply) => Ok(Some(reply)),
            Err(need) => {
                self.meet_need(rt, shared, call, &need, gate)?;
                Ok(None)
            }
        }
    }

    // Serves a need of a call, or answers why the call is denied.
    fn meet_need<R: Wait, G: GatePoint>(
        &mut self,
        rt: &R,
        shared: &SharedKernel<M>,
        call: &Call,
        need: &Need,
        gate: &G,
    ) -> Result<(), Denied>
        requires left { self.old.waited.count < self.old.waited.turns }
        requires needed { NeedsFirst M.Media self.old.client call.now need.now }
        ensures unmet { IfErr result (λ e. HasUnmetNeed M.Media call.now e self.new.client) }
        ensures kept { KeepsCall self.old.client self.new.client }
        ensures waited { HasTakenTurn M.Media call.now self.old.waited self.new.waited }
        ensures asked { self.new.waited ≢ self.old.waited → HasAskedFor M.Media need.now self.old.client self.old.asked self.new.client self.new.asked }
        ensures refused { OnErr result (self.new.waited ≡ self.old.waited) }
        ensures only { IfErr result (λ e. e ≢ denied.Turns) }
    {
        // For the proof: `call` stands in the contract alone: it is the one that lacks the need.
        let _ = call;
        self.serve_need(rt, shared, need, gate)?;
        Ok(())
    }

    pub(crate) fn serve_need<R: Wait, G: GatePoint>(
        &mut self,
        rt: &R,
        shared: &SharedKernel<M>,
        need: &Need,
        gate: &G,
    ) -> Result<(), Denied>
        requires left { self.old.waited.count < self.old.waited.turns }
        ensures kept { KeepsCall self.old.client self.new.client }
        ensures waited { HasWaitedFor need.now self.old.waited self.new.waited }
        ensures asked { self.new.waited ≢ self.old.waited → HasAskedFor M.Media need.now self.old.client self.old.asked self.new.client self.new.asked }
        ensures unmet { IfErr result (λ e. IsUnmet M.Media self.old.client need.now e self.new.client) }
        ensures refused { OnErr result (self.new.waited ≡ self.old.waited) }
        ensures only { IfErr result (λ e. e ≢ denied.Turns) }
    {
        match *need {
            Need::Lease { inode, mode } => {
                self.take_lease(rt, shared, inode, mode);
                Ok(())
            }
            Need::Room => self.make_room(rt, shared, gate),
            _ => self.ask_kernel(rt, shared, need),
        }
    }
}

// Starts a call, and makes its device calls where a record is begun; what it needs, where something is lacking.
fn start_call<M: Media, G: GatePoint>(
    client: &mut Client<M>,
    call: &Call,
    gate: &G,
) -> Result<Reply, Need>
    requires idle { is_pending client.old ≡ false }
    ensures answered { IfOk result (λ reply. IsAnswered M.Media call.now reply client.new) }
    ensures needed { IfErr result (λ need. NeedsFirst M.Media client.new call.now need) }
    ensures idle { is_pending client.new ≡ false }
    ensures owner { owner_of client.new ≡ owner_of client.old }
    ensures leases { KeepsLeases client.old client.new }
{
    match begin_call(client, call) {
        Now::Done { reply } => Ok(reply),
        Now::Pending => Ok(finish(client, gate)),
        Now::Need { need } => Err(need),
    }
}

// Starts a call: it waits then, or nothing has begun.
pub(crate) fn begin_call<M: Media>(client: &mut Client<M>, call: &Call) -> Now
    requires idle { is_pending client.old ≡ false }
    ensures started { IsStarted M.Media call.now client.old result client.new }
    ensures needed { (need : Need) → result ≡ now.Need need → NeedsFirst M.Media client.new call.now need }
    ensures owner { owner_of client.new ≡ owner_of client.old }
    ensures leases { KeepsLeases client.old client.new }
    ensures pending { result ≡ now.Pending → is_pending client.new ≡ true }
    ensures stage { result ≡ now.Pending → client.new.log.current.stage ≡ stages.Begun }
    ensures idle { (result ≡ now.Pending → ⊥) → is_pending client.new ≡ false }
{
    // For the proof: a record stays begun behind its answer only if a device has failed.
    client.own_records_are_held();
    client.start(call)
}

// Makes the device calls of a begun record, and passes the gate before each; all at once where the gate does nothing.
fn finish<M: Media, G: GatePoint>(client: &mut Client<M>, gate: &G) -> Reply
    requires { is_pending client.old ≡ true }
    ensures finished { IsFinished M.Media client.old result client.new }
    ensures idle { is_pending client.new ≡ false }
    ensures owner { owner_of client.new ≡ owner_of client.old }
    ensures leases { KeepsLeases client.old client.new }
{
    if gate.is_open() {
        return end_call(client);
    }
    for step in 1..STEPS {
        gate.pass();
        if let Some(reply) = make_step(client) {
            return reply;
        }
    }
    gate.pass();
    end_call(client)
}

// Makes a device call of a begun record, and answers its call where that was the last.
pub(crate) fn make_step<M: Media>(client: &mut Client<M>) -> Option<Reply>
    requires pending { is_pending client.old ≡ true }
    ensures owner { owner_of client.new ≡ owner_of client.old }
    ensures leases { KeepsLeases client.old client.new }
    ensures ended { IfSome result (λ reply. IsEnded M.Media client.old reply client.new) }
    ensures going { result ≡ None → (is_pending client.new ≡ true) × (client.new.begun ≡ client.old.begun) }
    ensures stage { result ≡ None → (progress client.old.log.current.stage ≡ Going) × (client.new.log.current.stage ≡ next client.old.log.current.stage) }
    ensures last { (result ≡ None → ⊥) → client.new.log.failed ≡ false → progress client.old.log.current.stage ≡ Appended }
    ensures idle { (result ≡ None → ⊥) → is_pending client.new ≡ false }
{
    client.step()
}

// Makes the device calls that are left of a begun record, and answers its call.
fn end_call<M: Media>(client: &mut Client<M>) -> Reply
    requires pending { is_pending client.old ≡ true }
    ensures ended { IsEnded M.Media client.old result client.new }
    ensures owner { owner_of client.new ≡ owner_of client.old }
    ensures leases { KeepsLeases client.old client.new }
    ensures idle { is_pending client.new ≡ false }
{
    client.finish()
}
