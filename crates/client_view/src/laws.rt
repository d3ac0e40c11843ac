//! What holds of every client's knowledge.
ghost use Rattle.std.specs.Prelude.{◌≡◌, ℕ, List, true, false, Option, Some};
ghost use Rattle.std.specs.Option.{ForSome};
ghost use Rattle.block_cache.specs.CacheList.{used_run};
ghost use Rattle.posix_calls.specs.Tree.{Descriptors, with_own};
ghost use Rattle.posix_calls.specs.Operations.{makes};
ghost use Rattle.posix_calls.specs.declared.call.Call.{Call};
ghost use Rattle.posix_calls.specs.declared.call.Reply.{Reply};
ghost use Rattle.posix_calls.specs.declared.operation.Operation.{Operation};
ghost use Rattle.client_plan.specs.file_graph.Graph.{Graph, after_effects};
ghost use Rattle.client_plan.specs.file_graph.declared.effect.Effect.{Effect};
ghost use Rattle.client_plan.specs.file_graph.Numbers.{is_inode};
ghost use Rattle.client_plan.specs.log_record.Grammar.{IsRecord};
ghost use Rattle.client_plan.specs.log_record.declared.format.Record.{Record};
ghost use Rattle.client_plan.specs.call_effects.Knowledge.{Knowledge, Agrees, IsForgetful, IsPlanned, knows_after, knows_made, part_of};
ghost use Rattle.client_plan.specs.call_effects.NodeView.{NodeView};
ghost use Rattle.client_plan.specs.call_effects.Wholes.{IsSound};
ghost use Rattle.client_plan.specs.declared.outcome.DescriptorChange.{DescriptorChange};
ghost use Rattle.client_plan.specs.declared.outcome.Outcome.TheVariants as outcomes;
ghost use Rattle.client_plan.specs.Holdings.{Holdings};
ghost use Rattle.client_plan.specs.CallPlan.{change_of, made_by, outcome, own_changed};
ghost use Rattle.client_plan.specs.Steps.{AreHoldingsOf};
ghost use Rattle.client_view.specs.AfterRecord.{knows_logged};
ghost use Rattle.client_view.specs.Preparation.{IsPreparedFor};
ghost use Rattle.client_view.specs.declared.own_change.OwnChange.{OwnChange};
ghost use Rattle.client_view.specs.KnowledgeTables.{Held, knows};
ghost use Rattle.client_view.specs.KnowledgeChanges.{without_blocks, without_granted, without_inode};

/// A client that forgot an inode or its blocks, or used a number, knows no more than it knew: what agreed with a whole still does.
pub fn forgetting_leaves_no_more()
    ensures inode { (k : Knowledge) (i : ℕ) → IsForgetful k (without_inode k i) }
    ensures blocks { (k : Knowledge) (i : ℕ) → IsForgetful k (without_blocks k i) }
    ensures number { (k : Knowledge) (n : ℕ) → IsForgetful k (without_granted k n) }
{}

/// Which blocks were used last changes nothing that is known.
pub fn used_blocks_are_known_as_before()
    ensures { (h : Held) (inode first count : ℕ) → knows (record h { blocks = used_run inode first count h.blocks }) ≡ knows h }
{}

/// The record that a call comes to has a spelling, and the node that it makes has the number of an inode, as `prepare` demands.
pub fn logged_call_can_be_prepared()
    ensures spelled { (k : Knowledge) (h : Holdings) (call : Call) (entry : Record) (reply : Reply) (made : Option ℕ) (change : Option DescriptorChange) → AreHoldingsOf k h → outcome (part_of k) h call ≡ outcomes.Log entry reply made change → IsRecord entry }
    ensures made { (k : Knowledge) (h : Holdings) (call : Call) (entry : Record) (reply : Reply) (made : Option ℕ) (change : Option DescriptorChange) → AreHoldingsOf k h → outcome (part_of k) h call ≡ outcomes.Log entry reply made change → ForSome made (λ n. is_inode n ≡ true) }
{}

/// What was prepared for a call's record is right as long as the client keeps the copies that it had then, whatever else it gets or loses.
pub fn prepared_change_stays()
    ensures { (k more : Knowledge) (h : Holdings) (call : Call) (reply : Reply) (c : OwnChange) → AreHoldingsOf k h → outcome (part_of k) h call ≡ outcomes.Log c.logged reply c.made c.descriptor → ((i : ℕ) (copy : Option NodeView) → k.copies i ≡ Some copy → more.copies i ≡ Some copy) → IsPreparedFor k c → IsPreparedFor more c }
{}

/// What a client knows once its change is committed is what it knows after the operation's effects, with a copy of the node that is made, less
/// some blocks: where one is made, after the effects that the client planned by what it knew.
pub fn committed_change_adds_no_more_than_the_effects()
    ensures none { (k : Knowledge) (new : ℕ) (operation : Operation) (es : List Effect) → makes operation ≡ false → IsForgetful (knows_after k new operation es) (knows_logged k es (made_by new operation) (change_of new operation)) }
    ensures made { (k : Knowledge) (call : Call) (new : ℕ) (operation : Operation) (es : List Effect) → IsPlanned k call new operation es → makes operation ≡ true → IsForgetful (knows_made k new operation es) (knows_logged k es (made_by new operation) (change_of new operation)) }
{}

/// What a client knows once its change is committed agrees with the whole after the record's effects, where what it knew before agreed with
/// the whole before them.
pub fn logged_call_keeps_agreement()
    ensures { (k : Knowledge) (g : Graph) (held : Descriptors) (h : Holdings) (call : Call) (entry : Record) (reply : Reply) (made : Option ℕ) (change : Option DescriptorChange) → IsSound g held → Agrees k g held → AreHoldingsOf k h → outcome (part_of k) h call ≡ outcomes.Log entry reply made change → Agrees (knows_logged k entry.effects made change) (after_effects g entry.effects) (with_own held k.client (own_changed k.own change)) }
{}
