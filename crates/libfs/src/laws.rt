//! What holds of every client and every call.
ghost use Rattle.std.specs.Prelude.{◌≡◌, ◌≢◌, ◌⊎◌, ◌<◌, ◌≤◌, ℕ, List, [], Option, Some, None, true};
ghost use Rattle.posix_calls.specs.Tree.{Descriptors, with_own};
ghost use Rattle.posix_calls.specs.Operations.{Step};
ghost use Rattle.posix_calls.specs.WellFormed.{IsWithinLimits};
ghost use Rattle.posix_calls.specs.declared.call.Call.{Call};
ghost use Rattle.posix_calls.specs.declared.call.Reply.{Reply};
ghost use Rattle.lease_manager.specs.file_graph.Graph.{Graph, after_effects, file_bytes};
ghost use Rattle.lease_manager.specs.file_graph.Units.{growth};
ghost use Rattle.lease_manager.specs.log_record.declared.format.Record.{Record};
ghost use Rattle.client_log.specs.call_effects.Knowledge.{Agrees};
ghost use Rattle.client_log.specs.call_effects.NodeView.{FileView};
ghost use Rattle.client_log.specs.call_effects.Wholes.{IsSound, state_of};
ghost use Rattle.client_log.specs.world_invariant.Logs.{after_records};
ghost use Rattle.client_view.specs.client_plan.declared.need.Mode.{Mode};
ghost use Rattle.client_view.specs.client_plan.declared.need.Need.TheVariants as needs;
ghost use Rattle.client_view.specs.client_plan.declared.outcome.DescriptorChange.{DescriptorChange};
ghost use Rattle.client_view.specs.client_plan.declared.outcome.Outcome.TheVariants as outcomes;
ghost use Rattle.client_view.specs.client_plan.CallPlan.{own_changed};
ghost use Rattle.client_view.specs.client_plan.NeedEffects.{longest_record};
ghost use Rattle.client_view.specs.client_plan.Steps.{IsAnswered, AreHoldingsOf, IsReady, IsRefused};
ghost use Rattle.block_cache.specs.declared.blocks.TheConstants.{MOST_BLOCKS};
ghost use Rattle.client_view.specs.AfterRecord.{knows_logged, with_change};
ghost use Rattle.client_log.specs.Steps.{most_of};
ghost use Rattle.client_log.specs.update_log.View.{records_of};
ghost use Rattle.kernel_fs.specs.area_reader.Store.{disk};
ghost use Rattle.kernel_fs.specs.KernelView.{KernelView};
ghost use Rattle.kernel_fs.specs.MachineState.{IsMarkIn};
ghost use Rattle.kernel_fs.specs.layout.declared.marks.Mark.{Mark};
ghost use Rattle.lease_manager.specs.Passes.{client_of, lease_of};
ghost use Rattle.lease_manager.specs.Words.{HasWord};
ghost use Rattle.libfs.specs.LeaseCalls.{mode_of};
ghost use Rattle.libfs.specs.View.{ClientView};
ghost use Rattle.libfs.specs.ClientHoldings.{holdings_of, known_to, outcome_for};
ghost use Rattle.libfs.specs.NeedService.{AreAsLong, HasFetched, HasRefilled, HasThem, IsServable, records_behind, shared_by, with_pin, without_pin};

use client_view::in_client_plan::{
    answered_call_is_a_step, logged_call_is_a_step, room_for_the_longest_record_is_enough,
    served_need_is_lacking_no_longer,
};
use client_view::{
    laid_block_agrees, logged_call_keeps_agreement, records_are_laid_as_the_graph_has_them,
};
use tier_device::Media;

/// A call that a client answers at once is one step of the file tree, in every sound whole that agrees with what the client knows; nothing in the whole changes but the client's descriptor, if
/// one does, and with that the whole is sound and agrees with what the client knows as before. By what the client knows the call is refused, or comes to an operation without effects, and what that
/// opens is pinned.
pub fn answered_start_is_a_step<M: Media>()
    ensures has { (v : ClientView M) → AreHoldingsOf (known_to v) (holdings_of M.Media v) }
    ensures ready { (v : ClientView M) (call : Call) (reply : Reply) (change : Option DescriptorChange) → outcome_for M.Media v call ≡ outcomes.Reply reply change
        → IsRefused (known_to v) call reply change ⊎ IsAnswered (known_to v) (holdings_of M.Media v) call reply change }
    ensures sound { (v : ClientView M) (g : Graph) (held : Descriptors) (call : Call) (reply : Reply) (change : Option DescriptorChange) → IsSound g held → Agrees (known_to v) g held → outcome_for M.Media v call ≡ outcomes.Reply reply change
        → IsSound g (with_own held (known_to v).client (own_changed (known_to v).own change)) }
    ensures step { (v : ClientView M) (g : Graph) (held : Descriptors) (call : Call) (reply : Reply) (change : Option DescriptorChange) → IsSound g held → Agrees (known_to v) g held → outcome_for M.Media v call ≡ outcomes.Reply reply change
        → Step (state_of g held) (known_to v).client call reply (state_of g (with_own held (known_to v).client (own_changed (known_to v).own change))) }
    ensures agrees { (v : ClientView M) (g : Graph) (held : Descriptors) (change : Option DescriptorChange) → Agrees (known_to v) g held
        → Agrees (with_change (known_to v) change) g (with_own held (known_to v).client (own_changed (known_to v).own change)) }
{
    answered_call_is_a_step();
}

/// A call of which a record is begun is one step of the file tree, in every sound whole that agrees with what the client knows: to the whole after the record's effects, which is sound. What the
/// client knows once it is answered agrees with that. The call has all that it needs as its record is begun, and the whole grows by the record's units.
pub fn begun_record_is_a_step<M: Media>()
    ensures ready { (v : ClientView M) (call : Call) (entry : Record) (reply : Reply) (made : Option ℕ) (change : Option DescriptorChange) → outcome_for M.Media v call ≡ outcomes.Log entry reply made change
        → IsReady (known_to v) (holdings_of M.Media v) call entry reply made change }
    ensures growth { (v : ClientView M) (g : Graph) (held : Descriptors) (call : Call) (entry : Record) (reply : Reply) (made : Option ℕ) (change : Option DescriptorChange) → IsSound g held → Agrees (known_to v) g held → outcome_for M.Media v call ≡ outcomes.Log entry reply made change
        → growth g entry.effects ≡ entry.units }
    ensures step { (v : ClientView M) (g : Graph) (held : Descriptors) (call : Call) (entry : Record) (reply : Reply) (made : Option ℕ) (change : Option DescriptorChange) → IsSound g held → Agrees (known_to v) g held → outcome_for M.Media v call ≡ outcomes.Log entry reply made change
        → Step (state_of g held) (known_to v).client call reply (state_of (after_effects g entry.effects) (with_own held (known_to v).client (own_changed (known_to v).own change))) }
    ensures sound { (v : ClientView M) (g : Graph) (held : Descriptors) (call : Call) (entry : Record) (reply : Reply) (made : Option ℕ) (change : Option DescriptorChange) → IsSound g held → Agrees (known_to v) g held → outcome_for M.Media v call ≡ outcomes.Log entry reply made change
        → IsSound (after_effects g entry.effects) (with_own held (known_to v).client (own_changed (known_to v).own change)) }
    ensures agrees { (v : ClientView M) (g : Graph) (held : Descriptors) (call : Call) (entry : Record) (reply : Reply) (made : Option ℕ) (change : Option DescriptorChange) → IsSound g held → Agrees (known_to v) g held → outcome_for M.Media v call ≡ outcomes.Log entry reply made change
        → Agrees (knows_logged (known_to v) entry.effects made change) (after_effects g entry.effects) (with_own held (known_to v).client (own_changed (known_to v).own change)) }
{
    logged_call_is_a_step();
    logged_call_keeps_agreement();
}

/// Once the kernel has served a client what a call needed, the same call needs it no longer: not a copy that came, nor blocks, where they are no more than the client keeps and stand in the file as
/// long as its copy tells; no number, no units at all once those were granted that were asked for; not a pin that was set, and not to give back one that is dropped. Nor does it need a lease that the
/// client holds.
pub fn served_client_needs_it_no_longer<M: Media, S: Media>()
    ensures lease { (v : ClientView M) (call : Call) (i : ℕ) (mode : Mode) → HasWord i → lease_of v.pass i ≡ mode_of mode → outcome_for M.Media v call ≢ outcomes.Need (needs.Lease i mode) }
    ensures view { (k : KernelView S) (old new : ClientView M) (call : Call) (i : ℕ) → HasFetched M.Media S.Media k old i new → outcome_for M.Media new call ≢ outcomes.Need (needs.View i) }
    ensures blocks { (k : KernelView S) (old new : ClientView M) (call : Call) (i first count : ℕ) → count ≤ MOST_BLOCKS → AreAsLong M.Media S.Media k old i first count → HasThem M.Media S.Media k old i first count new
        → outcome_for M.Media new call ≢ outcomes.Need (needs.Blocks i first count) }
    ensures inodes { (k after : KernelView S) (old new : ClientView M) (call : Call) (units n more : ℕ) → 0 < n → HasRefilled S.Media k old units n new after → outcome_for M.Media new call ≢ outcomes.Need (needs.Inodes more) }
    ensures units { (k after : KernelView S) (old new : ClientView M) (call : Call) (n inodes more : ℕ) → outcome_for M.Media old call ≡ outcomes.Need (needs.Units n) → HasRefilled S.Media k old n inodes new after
        → outcome_for M.Media new call ≢ outcomes.Need (needs.Units more) }
    ensures pin { (old new : ClientView M) (call : Call) (i : ℕ) → new ≡ record old { pins = with_pin old.pins i } → outcome_for M.Media new call ≢ outcomes.Need (needs.Pin i) }
    ensures unpin { (old new : ClientView M) (call : Call) (i : ℕ) → new ≡ record old { pins = without_pin old.pins i } → outcome_for M.Media new call ≢ outcomes.Need (needs.Unpin i) }
{
    served_need_is_lacking_no_longer();
}

/// A need for a copy, or to drop a pin, can be served: the client holds what it is to view, and a file whose pin goes is not open.
pub fn inode_need_is_servable<M: Media>()
    ensures view { (v : ClientView M) (call : Call) (i : ℕ) → v.begun ≡ None → outcome_for M.Media v call ≡ outcomes.Need (needs.View i) → IsServable v (needs.View i) }
    ensures unpin { (v : ClientView M) (call : Call) (i : ℕ) → outcome_for M.Media v call ≡ outcomes.Need (needs.Unpin i) → IsServable v (needs.Unpin i) }
{
    served_need_is_lacking_no_longer();
}

/// A client needs no room where its region is wiped to its generation and has 65,558 bytes left for the next record, the most that spell the record of a call: whatever it calls, in every sound whole
/// within its limits that agrees with what it knows. Such is a region without a record, which takes one of 262,122 bytes.
pub fn wiped_region_has_room<M: Media>()
    ensures most { (v : ClientView M) → v.log.ready ≡ true → records_of M.Media v.log.current ≡ [] → most_of M.Media v.log ≡ Some 262122 }
    ensures enough { (v : ClientView M) (g : Graph) (held : Descriptors) (call : Call) (most : ℕ) → IsSound g held → IsWithinLimits (state_of g held).tree → Agrees (known_to v) g held → most_of M.Media v.log ≡ Some most → longest_record ≤ most
        → outcome_for M.Media v call ≢ outcomes.Need needs.Room }
    ensures room { (v : ClientView M) (g : Graph) (held : Descriptors) (call : Call) → IsSound g held → IsWithinLimits (state_of g held).tree → Agrees (known_to v) g held → v.log.ready ≡ true → records_of M.Media v.log.current ≡ []
        → outcome_for M.Media v call ≢ outcomes.Need needs.Room }
{
    room_for_the_longest_record_is_enough();
}

/// The blocks of a file are as long as the client's copy of it tells, as `served_client_needs_it_no_longer` asks of them: where what the client knows agrees with a whole that has at the inode what the client's records
/// behind its mark make of the shared graph there.
pub fn blocks_are_as_long_as_their_copy<M: Media, S: Media>()
    ensures { (k : KernelView S) (v : ClientView M) (mark : Mark) (whole : Graph) (held : Descriptors) (i first count names size : ℕ) (bytes : List ℕ) → IsMarkIn (disk S.Media k.area) (client_of v.pass) mark → Agrees (known_to v) whole held
        → whole i ≡ after_records (shared_by S.Media k) (records_behind M.Media v mark) i → file_bytes (whole i) ≡ Some bytes → (known_to v).copies i ≡ Some (Some (FileView names size)) → AreAsLong M.Media S.Media k v i first count }
{
    records_are_laid_as_the_graph_has_them();
    laid_block_agrees();
}
