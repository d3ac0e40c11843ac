ghost use Rattle.std.specs.Prelude.{◌≡◌, ◌≤◌, ◌<◌, ◌+◌, ◌-◌, ◌*◌, ◌/◌, ◌^◌, ◌++◌, ◌∷◌, [], ℕ, Some, None, length, slice_index, take, drop, IfSome, IfOk, OnOk, OnErr};
ghost use Rattle.extent_tree.specs.Changes.{after};
ghost use Rattle.extent_tree.specs.Nodes.{flat, last_end, AreFilled, HaveFrom};
ghost use Rattle.extent_tree.specs.Normal.{IsRising, PlacesFit, IsNormal};
ghost use Rattle.extent_tree.specs.Places.{place_of, SamePlaces};
ghost use Rattle.extent_tree.specs.Tree.{IsExtentTree, counts};
ghost use Rattle.extent_tree.specs.Value.{GrownByNeed, StaysOne, OthersStay};

use crate::leaf_choice::{Span, choose};
use crate::leaf_search::find_in;
use crate::upper_levels::{Level, levels_above};
use crate::{Node, pack, push_entries, push_part};
use block_alloc::Run;
use layout::Extent;
use std::alloc::{AllocError, Global};
use std::marker::Model;

/// Which blocks of a tier hold which logical blocks of an inode: a map from logical block to place, as a tree of nodes of at most `N` entries. Each node but
/// the root has a quarter of that at least. Runs that go on where others end, in blocks and in places, are one. `N` is 8 at least.
#[derive(Drop)]
pub struct Extents<const N: usize> {
    alloc: Global,
    leaves: Vec<Node>,
    inner: Vec<Level>,
}

impl<const N: usize> Model for Extents<N> {
    ghost use Rattle.extent_tree.specs.Nodes.{flat};
    ghost use Rattle.extent_tree.specs.Tree.{IsExtentTree, counts};
    ghost use Rattle.extent_tree.specs.Value.{ExtentMap};

    ghost Value = { ExtentMap };

    ghost view = { λ t. record { runs = flat t.leaves.items; levels = counts t.leaves.items t.inner.items; leaves = t.leaves.items } };

    ghost invariant = { λ t. IsExtentTree N t.leaves.items t.inner.items };
}

/// Where a block lies, and how many entries were compared to find it.
#[derive(Clone, Copy, PartialEq, Eq)]
pub struct Counted {
    pub place: Option<u32>,
    pub compared: u64,
}

impl<const N: usize> Extents<N> {
    /// No block is mapped.
    pub fn new(alloc: Global) -> Self
        requires least { 8 ≤ N }
        requires most { N < 2 ^ 31 }
        ensures runs { result.runs ≡ [] }
        ensures levels { result.levels ≡ 0 ∷ [] }
        ensures leaves { result.leaves ≡ [] }
    {
        Extents {
            alloc,
            leaves: Vec::new(alloc),
            inner: Vec::new(alloc),
        }
    }

    /// The map that some extents spell. They rise, no two have a block in common, and all their numbers fit into 32 bits, as those of an extent block do.
    pub fn from_extents(alloc: Global, extents: &[Extent]) -> Result<Self, AllocError>
        requires least { 8 ≤ N }
        requires most { N < 2 ^ 31 }
        requires rising { IsRising 0 4294967295 extents.now }
        requires fit { PlacesFit extents.now }
        ensures places { IfOk result (λ t. SamePlaces t.runs extents.now) }
        ensures normal { IfOk result (λ t. IsNormal t.runs) }
        ensures one { IfOk result (λ t. length t.runs ≤ N → length t.levels ≡ 1) }
    {
        let mut runs = Vec::new(alloc);
        push_part(&mut runs, extents, 0, u32::MAX)?;
        let leaves = pack(alloc, N, &runs)?;
        let inner = levels_above(alloc, N, &[], &leaves, &[])?;
        Ok(Extents {
            alloc,
            leaves,
            inner,
        })
    }

    /// Where a block lies, where it is mapped, found on the way from the root to a leaf.
    pub fn at(&self, block: u32) -> Option<u32>
        ensures { result ≡ place_of self.now.runs block }
    {
        self.at_counted(block).place
    }

    /// Where a block lies, where it is mapped, and the number of entries that were compared: at most `N` on each level, and at least one where there are any.
    pub fn at_counted(&self, block: u32) -> Counted
        ensures place { result.place ≡ place_of self.now.runs block }
        ensures compared { result.compared ≤ N * length self.now.levels }
        ensures some { 0 < length self.now.runs → 0 < result.compared }
        ensures each_level { IfSome result.place (λ _. length self.now.levels ≤ result.compared) }
    {
        look_up::<N>(&self.leaves, &self.inner, block)
    }

    /// How many levels the tree has: 1 where no block is mapped. A level is added only where the root would pass `N` entries, so there are at most `N ^ height` runs
    /// and, above a height of 1, twice as many as the power of a quarter of `N` at least.
    pub fn height(&self) -> u32
        ensures levels { result ≡ length self.now.levels }
        ensures lowest { slice_index self.now.levels 0 ≡ length self.now.runs }
        ensures some { 0 < result }
        ensures most { length self.now.runs ≤ N ^ result }
        ensures least { 1 < result → 2 * (N / 4) ^ (result - 1) ≤ length self.now.runs }
    {
        1 + self.inner.len() as u32
    }

    /// The block at which the last run ends, so that from it on none is mapped; 0 where there is no run.
    pub fn end(&self) -> u64
        ensures last { result ≡ last_end 0 self.now.runs }
        ensures none { (b : ℕ) → result ≤ b → place_of self.now.runs b ≡ None }
    {
        end_of(&self.leaves)
    }

    /// The runs, rising; none goes on where the one before ends.
    pub fn runs(&self) -> Result<Vec<Extent>, AllocError>
        ensures runs { IfOk result (λ v. v.items ≡ self.now.runs) }
        ensures normal { IsNormal self.now.runs }
    {
        let mut runs = Vec::new(self.alloc);
        push_entries(&mut runs, &self.leaves)?;
        Ok(runs)
    }

    /// The leaves, which have the runs one after the other: at most `N` each and, where there are several, a quarter of that at least.
    pub fn leaves(&self) -> &[Node]
        ensures leaves { result.now ≡ self.now.leaves }
        ensures runs { flat result.now ≡ self.now.runs }
        ensures most { HaveFrom 0 N result.now }
        ensures quarter { 1 < length result.now → HaveFrom (N / 4) N result.now }
    {
        &self.leaves
    }

    /// Maps the blocks of a run to the places from one on, wherever they lay before. The leaves that the run touches or borders on are rewritten, and one beside
    /// them where they would have too few entries; all others stay. Where memory is refused, nothing has changed.
    pub fn map(&mut self, run: Run, place: u32) -> Result<(), AllocError>
        requires blocks { run.first + run.count < 2 ^ 32 }
        requires places { place + run.count < 2 ^ 32 }
        ensures mapped { OnOk result ((b : ℕ) → place_of self.new.runs b ≡ after run.first run.count (Some place) self.old.runs b) }
        ensures normal { IsNormal self.new.runs }
        ensures grown { GrownByNeed N self.old self.new }
        ensures one { StaysOne N self.old self.new }
        ensures others { OthersStay run.first run.count self.old.leaves self.new.leaves }
        ensures err { OnErr result (self.new ≡ self.old) }
    {
        replace::<N>(
            self.alloc,
            &mut self.leaves,
            &mut self.inner,
            run,
            Some(place),
        )
    }

    /// Unmaps the blocks of a run, which rewrites such leaves as `map` does. That may want memory too, since a run may be cut in two. Where it is refused, nothing has
    /// changed.
    pub fn unmap(&mut self, run: Run) -> Result<(), AllocError>
        requires { run.first + run.count < 2 ^ 32 }
        ensures unmapped { OnOk result ((b : ℕ) → place_of self.new.runs b ≡ after run.first run.count None self.old.runs b) }
        ensures normal { IsNormal self.new.runs }
        ensures grown { GrownByNeed N self.old self.new }
        ensures one { StaysOne N self.old self.new }
        ensures others { OthersStay run.first run.count self.old.leaves self.new.leaves }
        ensures err { OnErr result (self.new ≡ self.old) }
    {
        replace::<N>(self.alloc, &mut self.leaves, &mut self.inner, run, None)
    }
}

// The block at which the last entry of the nodes ends; 0 where there is none.
fn end_of(leaves: &[Node]) -> u64
    requires rising { IsRising 0 4294967295 (flat leaves.now) }
    requires filled { AreFilled leaves.now }
    ensures last { result ≡ last_end 0 (flat leaves.now) }
    ensures none { (b : ℕ) → result ≤ b → place_of (flat leaves.now) b ≡ None }
{
    if leaves.is_empty() {
        return 0;
    }
    leaves[leaves.len() - 1].end()
}

fn look_up<const N: usize>(leaves: &[Node], inner: &[Level], block: u32) -> Counted
    requires { IsExtentTree N leaves.now inner.now }
    ensures place { result.place ≡ place_of (flat leaves.now) block }
    ensures compared { result.compared ≤ N * (1 + length inner.now) }
    ensures some { 0 < length (flat leaves.now) → 0 < result.compared }
    ensures each_level { IfSome result.place (λ _. 1 + length inner.now ≤ result.compared) }
{
    let found = find_in::<N>(leaves, inner, block);
    Counted {
        place: match found.extent {
            None => None,
            Some(extent) => Some(extent.place + (block - extent.logical)),
        },
        compared: found.compared,
    }
}

// Puts leaves in the place of others.
fn splice(leaves: &mut Vec<Node>, span: Span, more: Vec<Node>) -> Result<(), AllocError>
    requires order { span.from ≤ span.to }
    requires within { span.to ≤ length leaves.old.items }
    ensures ok { OnOk result (leaves.new.items ≡ take span.from leaves.old.items ++ (more.items ++ drop span.to leaves.old.items)) }
    ensures err { OnErr result (leaves.new.items ≡ leaves.old.items) }
{
    let mut more = more;
    let back = leaves.len() - span.to;
    leaves.reserve(more.len())?;
    leaves.rotate_left(span.to);
    leaves.truncate(back + span.from);
    let Ok(()) = leaves.append(&mut more) else {
        unreachable!()
    };
    leaves.rotate_left(back);
    Ok(())
}

// Rewrites the leaves that a run touches, and the levels above them.
fn replace<const N: usize>(
    alloc: Global,
    leaves: &mut Vec<Node>,
    inner: &mut Vec<Level>,
    run: Run,
    place: Option<u32>,
) -> Result<(), AllocError>
    requires fits { run.first + run.count < 2 ^ 32 }
    requires places { IfSome place (λ p. p + run.count < 2 ^ 32) }
    requires sound { IsExtentTree N leaves.old.items inner.old.items }
    ensures sound { IsExtentTree N leaves.new.items inner.new.items }
    ensures mapped { OnOk result ((b : ℕ) → place_of (flat leaves.new.items) b ≡ after run.first run.count place (flat leaves.old.items) b) }
    ensures grown { GrownByNeed N (record { runs = flat leaves.old.items; levels = counts leaves.old.items inner.old.items; leaves = leaves.old.items }) (record { runs = flat leaves.new.items; levels = counts leaves.new.items inner.new.items; leaves = leaves.new.items }) }
    ensures one { StaysOne N (record { runs = flat leaves.old.items; levels = counts leaves.old.items inner.old.items; leaves = leaves.old.items }) (record { runs = flat leaves.new.items; levels = counts leaves.new.items inner.new.items; leaves = leaves.new.items }) }
    ensures others { OthersStay run.first run.count leaves.old.items leaves.new.items }
    ensures leaves_kept { OnErr result (leaves.new.items ≡ leaves.old.items) }
    ensures inner_kept { OnErr result (inner.new.items ≡ inner.old.items) }
{
    if run.count == 0 {
        return Ok(());
    }
    let chosen = choose(alloc, N, leaves, run, place)?;
    let span = chosen.span;
    let packed = pack(alloc, N, &chosen.entries)?;
    let above = levels_above(alloc, N, &leaves[..span.from], &packed, &leaves[span.to..])?;
    splice(leaves, span, packed)?;
    *inner = above;
    Ok(())
}
