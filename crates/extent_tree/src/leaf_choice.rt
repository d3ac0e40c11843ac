// The leaves that a change rewrites: those that the run touches, and others beside them where too few entries are left.
ghost use Rattle.std.specs.Prelude.{◌≡◌, ◌≤◌, ◌<◌, ◌+◌, ◌-◌, ◌/◌, ◌^◌, ◌↔◌, ◌⊎◌, length, IsTrue, IfSome, IfOk};
ghost use Rattle.extent_tree.specs.Changes.{changed_extents};
ghost use Rattle.extent_tree.specs.Nodes.{flat, AreFilled, HaveFrom};
ghost use Rattle.extent_tree.specs.Normal.{IsRising, PlacesFit, IsNormal, Joins};
ghost use Rattle.extent_tree.specs.LeafChoice.{Touched, Remade, IsEnough, MeetsEach, MeetsButOne};

use crate::{Node, change, nodes_before, nodes_up_to, push_entries};
use block_alloc::Run;
use layout::Extent;
use std::alloc::{AllocError, Global};

/// Leaves by their numbers: from one on to another.
#[derive(Clone, Copy)]
pub struct Span {
    pub from: usize,
    pub to: usize,
}

/// The leaves that are to go, and the entries that come in their place.
#[derive(Drop)]
pub struct Chosen {
    pub span: Span,
    pub entries: Vec<Extent>,
}

// The leaves that a run touches or borders on.
fn touched_leaves(leaves: &[Node], run: Run) -> Span
    requires fits { run.first + run.count < 2 ^ 32 }
    requires rising { IsRising 0 4294967295 (flat leaves.now) }
    requires filled { AreFilled leaves.now }
    ensures touched { Touched run.first run.count result.from result.to leaves.now }
    ensures each { MeetsEach run.first run.count result.from result.to leaves.now }
{
    if leaves.len() <= 1 {
        return Span {
            from: 0,
            to: leaves.len(),
        };
    }
    let from = nodes_before(leaves, run.first);
    let to = nodes_up_to(leaves, run.first + run.count);
    Span {
        from,
        to: to.max(from),
    }
}

// One leaf more.
fn wider_span(span: Span) -> Span
    requires room { span.to < 2 ^ 63 }
    ensures from { result.from ≤ span.from }
    ensures to { span.to ≤ result.to }
    ensures one { result.to + span.from ≡ span.to + result.from + 1 }
    ensures end { 0 < span.from → result.to ≡ span.to }
{
    if 0 < span.from {
        Span {
            from: span.from - 1,
            to: span.to,
        }
    } else {
        Span {
            from: 0,
            to: span.to + 1,
        }
    }
}

// The entries of some leaves once a run is changed.
fn new_leaves(
    alloc: Global,
    leaves: &[Node],
    run: Run,
    place: Option<u32>,
) -> Result<Vec<Extent>, AllocError>
    requires some { 0 < run.count }
    requires fits { run.first + run.count < 2 ^ 32 }
    requires places { IfSome place (λ p. p + run.count < 2 ^ 32) }
    requires rising { IsRising 0 4294967295 (flat leaves.now) }
    requires fit { PlacesFit (flat leaves.now) }
    ensures { IfOk result (λ v. Joins 4294967295 (changed_extents run.first run.count place (flat leaves.now)) v.items) }
{
    let mut entries = Vec::new(alloc);
    push_entries(&mut entries, leaves)?;
    change(alloc, &entries, run.first, run.count, place)
}

// Whether some of the leaves make nodes that are full enough with `entries` entries, or are all that there are.
fn is_enough(width: usize, span: Span, leaves: usize, entries: usize) -> bool
    requires order { span.from ≤ span.to }
    requires within { span.to ≤ leaves }
    ensures { IsTrue result ↔ ((width / 4 ≤ entries) ⊎ ((span.from ≡ 0) × (span.to ≡ leaves))) }
{
    width / 4 <= entries || (span.from == 0 && span.to == leaves)
}

/// The leaves to be rewritten where a run is mapped or unmapped, and their entries then.
pub fn choose(
    alloc: Global,
    width: usize,
    leaves: &[Node],
    run: Run,
    place: Option<u32>,
) -> Result<Chosen, AllocError>
    requires some { 0 < run.count }
    requires fits { run.first + run.count < 2 ^ 32 }
    requires places { IfSome place (λ p. p + run.count < 2 ^ 32) }
    requires normal { IsNormal (flat leaves.now) }
    requires filled { AreFilled leaves.now }
    requires quarter { 1 < length leaves.now → HaveFrom (width / 4) width leaves.now }
    ensures touched { IfOk result (λ c. Touched run.first run.count c.span.from c.span.to leaves.now) }
    ensures made { IfOk result (λ c. Remade run.first run.count place c.span.from c.span.to leaves.now c.entries.items) }
    ensures enough { IfOk result (λ c. IsEnough width c.span.from c.span.to leaves.now c.entries.items) }
    ensures met { IfOk result (λ c. MeetsButOne run.first run.count c.span.from c.span.to leaves.now) }
{
    let span = touched_leaves(leaves, run);
    let entries = new_leaves(alloc, &leaves[span.from..span.to], run, place)?;
    if is_enough(width, span, leaves.len(), entries.len()) {
        return Ok(Chosen { span, entries });
    }
    // One leaf beside them has a quarter of the width itself.
    let span = wider_span(span);
    let entries = new_leaves(alloc, &leaves[span.from..span.to], run, place)?;
    Ok(Chosen { span, entries })
}
