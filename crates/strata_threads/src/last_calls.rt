//! The calls of a client that dies behind one of its device calls.
ghost use Rattle.std.specs.Prelude.{◌≡◌, ◌≢◌, ◌<◌, ◌≤◌, ◌+◌, false, true, IfErr, IfOk, IfSome, IsSome, OnErr, None};
ghost use Rattle.posix_calls.specs.declared.call.Reply.TheVariants as replies;
ghost use Rattle.libfs.specs.Denial.{errno_of};
ghost use Rattle.libfs.specs.View.{is_pending};
ghost use Rattle.libfs.specs.client_plan.declared.need.Need.TheVariants as needs;
ghost use Rattle.libfs.specs.declared.denial.Denied.TheVariants as denied;
ghost use Rattle.libfs.specs.declared.life.Life.TheVariants as lives;
ghost use Rattle.libfs.specs.update_log.Stage.{calls_left};
ghost use Rattle.libfs.specs.update_log.declared.stage.Stage.TheVariants as stages;
ghost use Rattle.strata_threads.specs.CallDenials.{IsUnmet, NeedsFirst};
ghost use Rattle.strata_threads.specs.ClientCalls.{IsAnswered, IsFinished, KeepsCall, owner_of};
ghost use Rattle.strata_threads.specs.ClientDeath.{HasDiedAt, HasDiedIn, HasWipedLast, IsReplied, OnAnswered, OnDied};
ghost use Rattle.strata_threads.specs.LeaseReturn.{KeepsLeases};
ghost use Rattle.strata_threads.specs.RegionWipe.{clock_of};
ghost use Rattle.strata_threads.specs.WaitedTurns.{HasWaitedFor};

use crate::call_end::CallEnd;
use crate::call_turns::{STEPS, begin_call, make_step};
use crate::gate_point::OpenGate;
use crate::lease_requests::WIPE_STEPS;
use crate::shared_kernel::SharedKernel;
use crate::thread_client::ThreadClient;
use crate::thread_remains::ThreadRemains;
use libfs::in_client_plan::Need;
use libfs::{Client, Denied, Now};
use posix_calls::{Call, Reply};
use std::sync::Wait;
use tier_device::Media;

impl<M: Media + Drop> ThreadClient<M> {
    /// Makes a call and answers it, as `posix` does with a gate that is open; but the client dies behind the last of the `left` device calls that it may make on its regions from here, and at once where it may make none.
    /// Those that it made are taken from `left`. A call that the last one answers is answered: its client dies with the next call, or is abandoned.
    pub fn posix_or_die<R: Wait>(
        self,
        rt: &R,
        shared: &SharedKernel<M>,
        call: &Call,
        turns: u64,
        left: &mut u64,
    ) -> CallEnd<M>
        ensures answered { OnAnswered result (λ v waited reply. IsReplied M.Media call.now v waited reply) }
        ensures given { OnAnswered result (λ v waited reply. waited.turns ≡ turns) }
        ensures owner { OnAnswered result (λ v waited reply. owner_of v ≡ owner_of self.client) }
        ensures same { OnDied result (λ r. owner_of r.client ≡ owner_of self.client) }
        ensures dead { OnDied result (λ r. r.life ≡ lives.Dead) }
        ensures died { left.old ≢ 0 → OnDied result (λ r. HasDiedIn M.Media call.now left.old r.client) }
        ensures spent { OnDied result (λ r. left.new ≡ 0) }
        ensures at_once { left.old ≡ 0 → OnDied result (λ r. r.client ≡ self.client) }
        ensures unasked { left.old ≡ 0 → OnAnswered result (λ v waited reply. ⊥) }
        ensures fewer { left.new ≤ left.old }
    {
        if *left == 0 {
            return CallEnd::Died {
                remains: self.abandon(),
            };
        }
        let mut waiting = self;
        waiting.begin_turns(rt, shared, turns);
        for turn in rt.forever() {
            match waiting.take_last_turn(rt, shared, call, left) {
                Ok(end) => return end,
                Err(client) => waiting = client,
            }
        }
        unreachable!()
    }

    // One turn: the call is started, and it ends, or what it needs is served and its client goes on.
    fn take_last_turn<R: Wait>(
        self,
        rt: &R,
        shared: &SharedKernel<M>,
        call: &Call,
        left: &mut u64,
    ) -> Result<CallEnd<M>, Self>
        requires wiped { left.old ≡ 0 → HasWipedLast M.Media self.client }
        ensures answered { IfOk result (λ end. OnAnswered end (λ v waited reply. IsReplied M.Media call.now v waited reply)) }
        ensures given { IfOk result (λ end. OnAnswered end (λ v waited reply. waited.turns ≡ self.waited.turns)) }
        ensures owner { IfOk result (λ end. OnAnswered end (λ v waited reply. owner_of v ≡ owner_of self.client)) }
        ensures same { IfOk result (λ end. OnDied end (λ r. owner_of r.client ≡ owner_of self.client)) }
        ensures dead { IfOk result (λ end. OnDied end (λ r. r.life ≡ lives.Dead)) }
        ensures died { IfOk result (λ end. OnDied end (λ r. HasDiedIn M.Media call.now left.old r.client)) }
        ensures spent { IfOk result (λ end. OnDied end (λ r. left.new ≡ 0)) }
        ensures goes_on { IfErr result (λ t. (owner_of t.client ≡ owner_of self.client) × (t.waited.turns ≡ self.waited.turns)) }
        ensures wiped { IfErr result (λ t. left.new ≡ 0 → HasWipedLast M.Media t.client) }
        ensures fewer { left.new ≤ left.old }
    {
        if *left == 0 {
            return Ok(CallEnd::Died {
                remains: self.abandon(),
            });
        }
        if self.waited.is_over() {
            return Ok(self.deny_call(call, Denied::Turns));
        }
        self.start_last_call(rt, shared, call, left)
    }

    // The call changes nothing, and is answered why it is denied.
    fn deny_call(self, call: &Call, why: Denied) -> CallEnd<M>
        ensures denied { OnAnswered result (λ v waited reply. (v ≡ self.client) × (waited ≡ self.waited) × (reply ≡ replies.Failed (errno_of why))) }
        ensures lives { OnDied result (λ r. ⊥) }
    {
        let mut client = self;
        let reply = client.client.deny(call, why);
        CallEnd::Answered { client, reply }
    }

    fn start_last_call<R: Wait>(
        self,
        rt: &R,
        shared: &SharedKernel<M>,
        call: &Call,
        left: &mut u64,
    ) -> Result<CallEnd<M>, Self>
        requires some { left.old ≢ 0 }
        requires turns { self.waited.count < self.waited.turns }
        ensures answered { IfOk result (λ end. OnAnswered end (λ v waited reply. IsReplied M.Media call.now v waited reply)) }
        ensures given { IfOk result (λ end. OnAnswered end (λ v waited reply. waited.turns ≡ self.waited.turns)) }
        ensures owner { IfOk result (λ end. OnAnswered end (λ v waited reply. owner_of v ≡ owner_of self.client)) }
        ensures same { IfOk result (λ end. OnDied end (λ r. owner_of r.client ≡ owner_of self.client)) }
        ensures dead { IfOk result (λ end. OnDied end (λ r. r.life ≡ lives.Dead)) }
        ensures died { IfOk result (λ end. OnDied end (λ r. HasDiedAt M.Media call.now left.old r.client)) }
        ensures spent { IfOk result (λ end. OnDied end (λ r. left.new ≡ 0)) }
        ensures goes_on { IfErr result (λ t. (owner_of t.client ≡ owner_of self.client) × (t.waited.turns ≡ self.waited.turns)) }
        ensures wiped { IfErr result (λ t. left.new ≡ 0 → HasWipedLast M.Media t.client) }
        ensures fewer { left.new ≤ left.old }
    {
        let mut waiting = self;
        match start_or_die(&mut waiting.client, call, left) {
            Ok(Some(reply)) => Ok(CallEnd::Answered {
                client: waiting,
                reply,
            }),
            Ok(None) => {
                let ThreadClient { client, ends, .. } = waiting;
                Ok(CallEnd::Died {
                    remains: ThreadRemains {
                        remains: client.abandon(),
                        ends,
                    },
                })
            }
            Err(need) => waiting.meet_last_need(rt, shared, call, &need, left),
        }
    }

    // Serves a need of the call, or answers why it is denied.
    fn meet_last_need<R: Wait>(
        self,
        rt: &R,
        shared: &SharedKernel<M>,
        call: &Call,
        need: &Need,
        left: &mut u64,
    ) -> Result<CallEnd<M>, Self>
        requires some { left.old ≢ 0 }
        requires turns { self.waited.count < self.waited.turns }
        requires needed { NeedsFirst M.Media self.client call.now need.now }
        ensures answered { IfOk result (λ end. OnAnswered end (λ v waited reply. IsReplied M.Media call.now v waited reply)) }
        ensures given { IfOk result (λ end. OnAnswered end (λ v waited reply. waited.turns ≡ self.waited.turns)) }
        ensures owner { IfOk result (λ end. OnAnswered end (λ v waited reply. owner_of v ≡ owner_of self.client)) }
        ensures lives { IfOk result (λ end. OnDied end (λ r. ⊥)) }
        ensures goes_on { IfErr result (λ t. (owner_of t.client ≡ owner_of self.client) × (t.waited.turns ≡ self.waited.turns)) }
        ensures wiped { IfErr result (λ t. left.new ≡ 0 → HasWipedLast M.Media t.client) }
        ensures fewer { left.new ≤ left.old }
    {
        let mut client = self;
        match client.serve_last_need(rt, shared, need, left) {
            Ok(()) => Err(client),
            Err(why) => Ok(client.deny_call(call, why)),
        }
    }

    // Serves a need as `serve_need` does, but for room no more device calls are made than are left.
    fn serve_last_need<R: Wait>(
        &mut self,
        rt: &R,
        shared: &SharedKernel<M>,
        need: &Need,
        left: &mut u64,
    ) -> Result<(), Denied>
        requires some { left.old ≢ 0 }
        requires turns { self.old.waited.count < self.old.waited.turns }
        ensures kept { KeepsCall self.old.client self.new.client }
        ensures waited { HasWaitedFor need.now self.old.waited self.new.waited }
        ensures unmet { IfErr result (λ e. IsUnmet M.Media self.old.client need.now e self.new.client) }
        ensures refused { OnErr result (self.new.waited ≡ self.old.waited) }
        ensures only { IfErr result (λ e. e ≢ denied.Turns) }
        ensures wiped { left.new ≡ 0 → HasWipedLast M.Media self.new.client }
        ensures fewer { left.new ≤ left.old }
    {
        match *need {
            Need::Room => self.make_last_room(rt, shared, left),
            _ => self.serve_need(rt, shared, need, &OpenGate),
        }
    }

    // Makes room as `make_room` does, but wipes no further than device calls are left.
    fn make_last_room<R: Wait>(
        &mut self,
        rt: &R,
        shared: &SharedKernel<M>,
        left: &mut u64,
    ) -> Result<(), Denied>
        requires some { left.old ≢ 0 }
        requires turns { self.old.waited.count < self.old.waited.turns }
        ensures kept { KeepsCall self.old.client self.new.client }
        ensures waited { HasWaitedFor needs.Room self.old.waited self.new.waited }
        ensures unmet { IfErr result (λ e. IsUnmet M.Media self.old.client needs.Room e self.new.client) }
        ensures refused { OnErr result (self.new.waited ≡ self.old.waited) }
        ensures only { IfErr result (λ e. e ≡ denied.Memory) }
        ensures wiped { left.new ≡ 0 → HasWipedLast M.Media self.new.client }
        ensures fewer { left.new ≤ left.old }
    {
        if self.client.is_region_away() {
            return self.make_room(rt, shared, &OpenGate);
        }
        match self.hand_over(rt, shared) {
            Ok(()) => {
                wipe_or_die(&mut self.client, left);
                Ok(())
            }
            Err(_) => Err(Denied::Memory),
        }
    }
}

// Starts a call, and makes the device calls of its record where one is begun; `None` where one of these is not left. What it needs, where something is lacking.
fn start_or_die<M: Media>(
    client: &mut Client<M>,
    call: &Call,
    left: &mut u64,
) -> Result<Option<Reply>, Need>
    requires idle { is_pending client.old ≡ false }
    requires some { left.old ≢ 0 }
    ensures answered { IfOk result (λ r. IfSome r (λ reply. IsAnswered M.Media call.now reply client.new)) }
    ensures idle { IfOk result (λ r. IsSome r → is_pending client.new ≡ false) }
    ensures died { IfOk result (λ r. r ≡ None → HasDiedAt M.Media call.now left.old client.new) }
    ensures spent { IfOk result (λ r. r ≡ None → left.new ≡ 0) }
    ensures needed { IfErr result (λ need. NeedsFirst M.Media client.new call.now need) }
    ensures lacking { OnErr result ((is_pending client.new ≡ false) × (left.new ≡ left.old)) }
    ensures fewer { left.new ≤ left.old }
    ensures owner { owner_of client.new ≡ owner_of client.old }
    ensures leases { KeepsLeases client.old client.new }
{
    match begin_call(client, call) {
        Now::Done { reply } => Ok(Some(reply)),
        Now::Pending => Ok(finish_or_die(client, left)),
        Now::Need { need } => Err(need),
    }
}

// Makes the device calls of a begun record, as far as they are left; `None` where one is not.
fn finish_or_die<M: Media>(client: &mut Client<M>, left: &mut u64) -> Option<Reply>
    requires pending { is_pending client.old ≡ true }
    requires stage { client.old.log.current.stage ≡ stages.Begun }
    requires some { left.old ≢ 0 }
    ensures finished { IfSome result (λ reply. IsFinished M.Media client.old reply client.new) }
    ensures idle { IsSome result → is_pending client.new ≡ false }
    ensures died { result ≡ None → (is_pending client.new ≡ true) × (client.new.begun ≡ client.old.begun) }
    // That so many device calls of it were made as were left, and one more would be made for its call's answer at least.
    ensures behind { result ≡ None → (left.new ≡ 0) × (left.old + calls_left client.new.log.current.stage ≡ 4) }
    ensures counted { IsSome result → client.new.log.failed ≡ false → left.new + 4 ≡ left.old }
    ensures fewer { left.new ≤ left.old }
    ensures owner { owner_of client.new ≡ owner_of client.old }
    ensures leases { KeepsLeases client.old client.new }
{
    for step in 0..STEPS {
        if *left == 0 {
            return None;
        }
        *left -= 1;
        if let Some(reply) = make_step(client) {
            return Some(reply);
        }
    }
    unreachable!()
}

// Wipes what is to be wiped, as far as device calls are left. One that fails is reported when the call is started again.
fn wipe_or_die<M: Media>(client: &mut Client<M>, left: &mut u64)
    requires idle { is_pending client.old ≡ false }
    requires some { left.old ≢ 0 }
    ensures rest { client.new ≡ record client.old { log = client.new.log } }
    ensures kept { KeepsCall client.old client.new }
    ensures wiped { left.new ≡ 0 → HasWipedLast M.Media client.new }
    ensures counted { client.new.log.failed ≡ false → clock_of M.Media client.new.log + left.new ≡ clock_of M.Media client.old.log + left.old }
    ensures fewer { left.new ≤ left.old }
    ensures leases { KeepsLeases client.old client.new }
{
    for step in 0..WIPE_STEPS {
        if *left == 0 {
            return;
        }
        match client.wipe_step() {
            Ok(Some(_)) => *left -= 1,
            _ => return,
        }
    }
}
