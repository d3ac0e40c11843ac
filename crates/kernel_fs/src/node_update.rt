//! The set of a graph's nodes follows what effects make of the graph: so it is made once, and no device is read for it again.

ghost use Rattle.std.specs.Prelude.{◌≡◌, ℕ};
ghost use Rattle.std.specs.List.{AllByRecursion};
ghost use Rattle.world_invariant.specs.file_graph.Graph.{Graph, after_effect, after_effects};
ghost use Rattle.world_invariant.specs.log_record.Grammar.{FitsLimits, IsRecord};
ghost use Rattle.world_invariant.specs.Logs.{after_records};
ghost use Rattle.kernel_fs.specs.Inodes.{has};
ghost use Rattle.kernel_fs.specs.Nodes.{AreNodes};

use crate::inode_set::InodeSet;
use world_invariant::in_file_graph::Effect;
use world_invariant::in_log_record::Record;

impl InodeSet {
    /// Of the nodes of a graph it makes those after records of it, one after the other. The records are some that have a spelling, so that each inode that they make is one.
    pub fn follow(&mut self, records: &[Record])
        requires { AllByRecursion IsRecord records.now }
        ensures { (g : Graph) → AreNodes g (has self.old) → AreNodes (after_records g records.now) (has self.new) }
    {
        'records: for record in records {
            self.follow_effects(record.effects.as_slice());
        }
    }

    // The same of effects.
    fn follow_effects(&mut self, effects: &[Effect])
        requires { AllByRecursion FitsLimits effects.now }
        ensures { (g : Graph) → AreNodes g (has self.old) → AreNodes (after_effects g effects.now) (has self.new) }
    {
        'effects: for effect in effects {
            self.follow_effect(effect);
        }
    }

    // Of one effect: a Make puts its inode in, and a Drop takes it out.
    fn follow_effect(&mut self, effect: &Effect)
        requires { FitsLimits effect.now }
        ensures { (g : Graph) → AreNodes g (has self.old) → AreNodes (after_effect g effect.now) (has self.new) }
    {
        match effect {
            Effect::Make { inode, .. } => self.insert(*inode),
            Effect::Drop { inode } => self.remove(*inode),
            Effect::Enter { .. } => {}
            Effect::Leave { .. } => {}
            Effect::Names { .. } => {}
            Effect::Size { .. } => {}
            Effect::Bytes { .. } => {}
            Effect::Swap { .. } => {}
        }
    }
}
