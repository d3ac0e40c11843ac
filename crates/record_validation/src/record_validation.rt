//! A row of records, each tested over the graph as those before it leave it.

ghost use Rattle.std.specs.Prelude.{◌≡◌, ℕ, true, None, IfErr, IfOk, OnOk, OnErr};
ghost use Rattle.std.specs.List.Sorted.{IsNonDecreasing};
ghost use Rattle.std.specs.Ordering.{nat_cmp};
ghost use Rattle.std.specs.BTreeMap.{get};
ghost use Rattle.call_effects.specs.file_graph.Graph.{Graph};
ghost use Rattle.call_effects.specs.file_graph.Units.{charge};
ghost use Rattle.call_effects.specs.log_record.Grammar.{IsRecord};
ghost use Rattle.call_effects.specs.NodeView.{view_at};
ghost use Rattle.record_validation.specs.Good.{IsGood, IsVerdict, asked_inode};
ghost use Rattle.record_validation.specs.KnownNodes.{first_unknown, is_unknown};
ghost use Rattle.record_validation.specs.Memory.{want_room};
ghost use Rattle.record_validation.specs.Row.{HasCome, IsCheckOver, known_by, left_by, with_known};

use crate::effect_steps::take_effects;
use crate::node_summary::NodeSummary;
use crate::verdict::{Verdict, test_record};
use call_effects::in_log_record::Record;
use std::alloc::{AllocError, Global};
use std::collections::BTreeMap;

/// What is known of a graph while records are tested over it, one after the other. It stands over each graph that is as it is known
/// and has its charge.
#[derive(Drop)]
pub struct RecordCheck {
    /// What stands at some inodes, or that nothing does.
    pub known: BTreeMap<u32, Option<NodeSummary>>,
    /// The charge of the graph, in units.
    pub charge: u64,
}

impl RecordCheck {
    /// Of a graph with this charge; nothing else is known of it.
    pub fn new(alloc: Global, units: u64) -> Self
        ensures stands { (g : Graph) → charge g ≡ units → HasCome result g g }
        ensures nothing { (i : ℕ) → get nat_cmp result.known i ≡ None }
    {
        RecordCheck {
            known: BTreeMap::new(alloc),
            charge: units,
        }
    }

    /// Takes in what stands at an inode; of one that is not known, that is what stood there at first. Where there is no memory for
    /// it, what was known stays; none is asked for where something was known of that inode.
    pub fn learn(&mut self, inode: u32, node: Option<NodeSummary>) -> Result<(), AllocError>
        ensures known { OnOk result ((i : ℕ) → get nat_cmp self.new.known i ≡ with_known inode node (get nat_cmp self.old.known) i) }
        ensures stands { OnOk result ((g : Graph) → IsCheckOver self.old g → view_at g inode ≡ node → IsCheckOver self.new g) }
        ensures first { OnOk result ((g h : Graph) → HasCome self.old g h → is_unknown self.old.known inode ≡ true → view_at g inode ≡ node → HasCome self.new g h) }
        ensures charge { self.new.charge ≡ self.old.charge }
        ensures err { OnErr result (get nat_cmp self.new.known ≡ get nat_cmp self.old.known) }
        ensures memory { OnErr result (is_unknown self.old.known inode ≡ true) }
    {
        self.known.insert(inode, node)?;
        Ok(())
    }

    /// Tests the next record (`test_record`), and goes on behind a good one: the check then stands over the graph after it. Another
    /// changes nothing, and may be tested again when more is known. An error is want of memory for a good record that enters a name into
    /// what is known to be a directory by then; nothing is then said of what is left, and the check is to be dropped.
    pub fn next(
        &mut self,
        alloc: Global,
        capacity: u64,
        held: &[u32],
        next: &Record,
    ) -> Result<Verdict, AllocError>
        requires spelled { IsRecord next.now }
        requires rising { IsNonDecreasing held.now }
        ensures answer { IfOk result (λ v. (g : Graph) → IsCheckOver self.old g → IsVerdict held.now capacity g next.now v) }
        ensures unknown { IfOk result (λ v. asked_inode v ≡ first_unknown self.old.known next.now.effects) }
        ensures known { IfOk result (λ v. get nat_cmp self.new.known ≡ known_by v next.now (get nat_cmp self.old.known)) }
        ensures stands { IfOk result (λ v. (g : Graph) → IsCheckOver self.old g → IsCheckOver self.new (left_by v g next.now)) }
        ensures first { IfOk result (λ v. (g h : Graph) → HasCome self.old g h → HasCome self.new g (left_by v h next.now)) }
        ensures memory { IfErr result (λ _. want_room next.now.effects (get nat_cmp self.old.known) ≡ true) }
        ensures good { IfErr result (λ _. (g : Graph) → IsCheckOver self.old g → IsGood held.now capacity g next.now) }
        ensures seen { IfErr result (λ _. first_unknown self.old.known next.now.effects ≡ None) }
    {
        let verdict = test_record(&self.known, self.charge, capacity, held, next);
        if let Verdict::Good { charge } = verdict {
            take_effects(alloc, &mut self.known, next.effects.as_slice())?;
            self.charge = charge;
        }
        Ok(verdict)
    }
}
