// Two names change what they lead to.
ghost use Rattle.std.specs.Prelude.{◌≡◌, Some, None, IfOk, IfErr, OnErr};
ghost use Rattle.posix_calls.specs.declared.call.Call.TheVariants as call;
ghost use Rattle.fuse_wire.specs.declared.errno.Refusal.TheVariants as refusal;
ghost use Rattle.mount_nodes.specs.Calls.{Answers, Asks, done_of};
ghost use Rattle.mount_nodes.specs.Renames.{Exchanges, ExchangesPaths};
ghost use Rattle.mount_nodes.specs.Times.{Runs};
ghost use Rattle.mount_nodes.specs.Upkeep.{child_at};

use crate::depth::check_depth;
use crate::lookups::check_done;
use crate::renames::Place;
use crate::tables::Tables;
use crate::tree::Tree;
use fuse_wire::Refusal;
use posix_calls::{Bytes, Call};
use std::alloc::Global;

impl Tables {
    /// Exchanges what two names lead to, by their paths. `StaleNode` where nothing is known under one of them. Where it is refused, nothing
    /// changes.
    #[tactic(auto, using(crate::proofs::TimeLemmas::runs_same))]
    pub(crate) fn exchange<T: Tree>(
        &mut self,
        tree: &mut T,
        places: (Place<'_>, Place<'_>),
        first: Vec<u8>,
        second: Vec<u8>,
    ) -> Result<(), Refusal>
        ensures exchanges { Exchanges T.Tree self.old.nodes (places.entry.0.folder, places.entry.0.name.now) (places.entry.1.folder, places.entry.1.name.now) first.items second.items result tree.old tree.new }
        ensures refused { OnErr result (self.new ≡ self.old) }
        ensures times { Runs self.old.times self.new.times }
    {
        let one = self.known_child(places.0)?;
        let other = self.known_child(places.1)?;
        exchange_paths(self.alloc, tree, first, second)?;
        self.end_exchange(places, one, other);
        Ok(())
    }

    // The node that is known under a name.
    fn known_child(&self, place: Place<'_>) -> Result<u64, Refusal>
        ensures known { IfOk result (λ id. child_at self.now.nodes place.entry.folder place.entry.name.now ≡ Some id) }
        ensures unknown { IfErr result (λ e. (child_at self.now.nodes place.entry.folder place.entry.name.now ≡ None) × (e ≡ refusal.StaleNode)) }
    {
        self.nodes
            .child(place.folder, place.name)
            .ok_or(Refusal::StaleNode)
    }

    // Notes an exchange that was done. Two names of one node stay as they are.
    #[tactic(auto, using(crate::proofs::TimeLemmas::runs_same))]
    fn end_exchange(&mut self, places: (Place<'_>, Place<'_>), one: u64, other: u64)
        ensures { Runs self.old.times self.new.times }
    {
        if one == other {
            return;
        }
        let (first, second) = places;
        self.nodes.exchange_names(
            (first.folder, first.name, one),
            (second.folder, second.name, other),
        );
        self.times.write(first.folder);
        self.times.write(second.folder);
        self.times.give_name(one);
        self.times.give_name(other);
    }
}

// Exchanges what is at two paths. What gets the longer one must have no path below it that gets too long.
fn exchange_paths<T: Tree>(
    alloc: Global,
    tree: &mut T,
    first: Vec<u8>,
    second: Vec<u8>,
) -> Result<(), Refusal>
    ensures { ExchangesPaths T.Tree first.items second.items result tree.old tree.new }
{
    check_depth(alloc, tree, &first, second.len())?;
    check_depth(alloc, tree, &second, first.len())?;
    ask_exchange(tree, Bytes::from_vec(first), Bytes::from_vec(second))
}

fn ask_exchange<T: Tree>(tree: &mut T, first: Bytes, second: Bytes) -> Result<(), Refusal>
    ensures { Asks T.Tree (call.Exchange first second) done_of Answers result tree.old tree.new }
{
    check_done(tree.call(Call::Exchange { first, second }))
}
