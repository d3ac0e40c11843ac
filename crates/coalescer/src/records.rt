ghost use Rattle.std.specs.Prelude.{◌≡◌, ◌<◌, IfErr, IfOk, OnErr, OnOk, length};
ghost use Rattle.graph_change.specs.file_graph.Graph.{Graph, after_effects};
ghost use Rattle.graph_change.specs.Change.{Coalesces, coalesced_changes, with_effects};
ghost use Rattle.graph_change.specs.Swaps.{swapped_graph, swapped_sum};
ghost use Rattle.graph_change.specs.View.{changes_of};
ghost use Rattle.coalescer.specs.Records.{effects_in};
ghost use Rattle.coalescer.specs.RunChange.{swapped_of};

use crate::kept_names::kept_names;
use crate::run_change::RunChange;
use graph_change::GraphChange;
use log_record::Record;
use std::alloc::{AllocError, Global};

/// Sums up the effects of these records, one after the other: what is made of every graph is what they make of it. The change is of the
/// inodes that they are on and no others, of a Swap the first directory, and of no block of a file that they leave alone. Each inode
/// stands in it once, and so does each block. Where a Swap is among them, the effects on names are kept beside it. An error is want of
/// memory: no memory is asked for where no record has an effect. A write that would end past all numbers finds none; a record that has
/// a spelling holds no such write.
pub fn coalesce(alloc: Global, records: &[Record]) -> Result<RunChange, AllocError>
    ensures exact { IfOk result (λ run. swapped_of run ≡ swapped_sum (effects_in records.now)) }
    ensures meaning { IfOk result (λ run. (g : Graph) → swapped_graph (swapped_of run) g ≡ after_effects g (effects_in records.now)) }
    ensures once { IfOk result (λ run. Coalesces (effects_in records.now) (changes_of run.change)) }
    ensures memory { IfErr result (λ _. 0 < length (effects_in records.now)) }
{
    let names = kept_names(alloc, records)?;
    let change = change_in(alloc, records)?;
    Ok(RunChange { change, names })
}

// The change that the effects of records come to without their Swaps.
fn change_in(alloc: Global, records: &[Record]) -> Result<GraphChange, AllocError>
    ensures exact { IfOk result (λ change. changes_of change ≡ coalesced_changes (effects_in records.now)) }
    ensures memory { IfErr result (λ _. 0 < length (effects_in records.now)) }
{
    let mut change = GraphChange::new(alloc);
    for logged in records {
        add_record(alloc, &mut change, logged)?;
    }
    Ok(change)
}

/// Adds the effects of a record behind those that are in the change; a Swap only puts its first directory there. Where there is no memory for it, nothing is said of what is left: it
/// is to be dropped. A record without an effect wants none.
#[tactic(auto, using(crate::proofs::Folds::effect_added))]
pub fn add_record(
    alloc: Global,
    change: &mut GraphChange,
    logged: &Record,
) -> Result<(), AllocError>
    ensures exact { OnOk result (changes_of change.new ≡ with_effects (changes_of change.old) logged.now.effects) }
    ensures memory { OnErr result (0 < length logged.now.effects) }
{
    for effect in logged.effects.as_slice() {
        change.add(alloc, effect)?;
    }
    Ok(())
}
