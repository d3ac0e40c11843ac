// What the inodes of a change cost.
ghost use Rattle.std.specs.Prelude.{◌≡◌, ◌≤◌, ◌<◌, ◌+◌, ◌^◌};
ghost use Rattle.std.specs.FinMap as fin;
ghost use Rattle.std.specs.List.{sum_by};
ghost use Rattle.record_validation.specs.file_graph.Units.{charge};
ghost use Rattle.area_reader.specs.graph_change.Bounds.{AreBounded};
ghost use Rattle.area_reader.specs.graph_change.Change.{Changes, changed_graph};
ghost use Rattle.area_reader.specs.layout.Places.{Sizes};
ghost use Rattle.area_reader.specs.Store.{Store, graph};
ghost use Rattle.area_reader.specs.Format.{IsSpelled};
ghost use Rattle.area_reader.specs.Units.{slot_units};
ghost use Rattle.shared_area.specs.Costs.{units_in};

use area_reader::units_of;
use change_plan::in_area_commit::{ChangedSlot, charge_after_change};

/// What the inodes of a change cost, in units: before it, and after it.
#[derive(Clone, Copy)]
pub struct ChangeCost {
    pub before: u64,
    pub after: u64,
}

/// What inodes that have these slots cost, in units.
pub fn units_of_slots(slots: &[ChangedSlot]) -> u64
    requires { sum_by (λ x. slot_units x.slot) slots.now < 2 ^ 64 }
    ensures { result ≡ sum_by (λ x. slot_units x.slot) slots.now }
{
    let mut units = 0;
    'each: for at in 0..slots.len() {
        units += units_of(&slots[at].slot);
    }
    units
}

/// What a graph of so many units costs once a change of this cost is made.
pub fn charge_after(units: u64, cost: ChangeCost) -> u64
    requires before { cost.before ≤ units }
    requires small { units + cost.after < 2 ^ 64 }
    ensures { result + cost.before ≡ units + cost.after }
{
    units - cost.before + cost.after
}

/// Where the graph changes, the charge falls by what the inodes of the change cost before, and rises by what they cost then.
pub fn charge_follows_the_change()
    ensures follows { (g : Sizes) (old new : Store) (cs : Changes) → IsSpelled g old → IsSpelled g new → AreBounded cs → graph g new ≡ changed_graph cs (graph g old)
        → charge (graph g old) + units_in g new (fin.keys cs) ≡ charge (graph g new) + units_in g old (fin.keys cs) }
    // They cost no more than the graph.
    ensures within { (g : Sizes) (s : Store) (cs : Changes) → IsSpelled g s → AreBounded cs → units_in g s (fin.keys cs) ≤ charge (graph g s) }
{
    charge_after_change();
}
