// Lists of extents in normal form, made from the front.
ghost use Rattle.std.specs.Prelude.{◌≡◌, ◌≤◌, ◌<◌, ◌+◌, ◌-◌, ◌^◌, ◌++◌, ◌∷◌, [], ◌↔◌, IsTrue, OnOk, vec_len, slice_index_or};
ghost use Rattle.extent_tree.specs.Normal.{IsRising, Meet, NoneGoesOn, PlacesFit, Lengthened, Joins};
ghost use Rattle.extent_tree.specs.Parts.{part};

use layout::Extent;
use std::alloc::AllocError;

// Whether an extent goes on where the last one ends.
fn goes_on(extents: &[Extent], next: Extent) -> bool
    requires rising { IsRising 0 4294967295 extents.now }
    requires fit { PlacesFit extents.now }
    ensures { IsTrue result ↔ Meet extents.now (next ∷ []) }
{
    if extents.is_empty() {
        return false;
    }
    let last = extents[extents.len() - 1];
    last.logical + last.length == next.logical && last.place + last.length == next.place
}

// Makes the last extent longer.
fn lengthen(extents: &mut Vec<Extent>, length: u32)
    requires some { 0 < vec_len extents.old }
    requires fits { (d : Extent) → (slice_index_or extents.old.items (vec_len extents.old - 1) d).length + length < 2 ^ 32 }
    ensures { Lengthened length extents.old.items extents.new.items }
{
    let at = extents.len() - 1;
    let last = extents[at];
    extents[at] = Extent {
        logical: last.logical,
        length: last.length + length,
        place: last.place,
    };
}

/// Puts an extent behind the others; one that goes on where the last ends becomes a part of that.
pub fn push(extents: &mut Vec<Extent>, next: Extent) -> Result<(), AllocError>
    requires some { 0 < next.length }
    requires blocks { next.logical + next.length < 2 ^ 32 }
    requires places { next.place + next.length < 2 ^ 32 }
    requires rising { IsRising 0 next.logical extents.old.items }
    requires apart { NoneGoesOn extents.old.items }
    requires fit { PlacesFit extents.old.items }
    ensures { OnOk result (Joins (next.logical + next.length) (extents.old.items ++ next ∷ []) extents.new.items) }
{
    if goes_on(extents, next) {
        lengthen(extents, next.length);
        return Ok(());
    }
    extents.push(next)?;
    Ok(())
}

/// Puts the blocks that some extents have within a range behind the others.
pub fn push_part(
    extents: &mut Vec<Extent>,
    more: &[Extent],
    from: u32,
    to: u32,
) -> Result<(), AllocError>
    requires range { from ≤ to }
    requires more { IsRising 0 4294967295 more.now }
    requires more_fit { PlacesFit more.now }
    requires rising { IsRising 0 from extents.old.items }
    requires apart { NoneGoesOn extents.old.items }
    requires fit { PlacesFit extents.old.items }
    ensures { OnOk result (Joins to (extents.old.items ++ part from to more.now) extents.new.items) }
{
    'more: for index in 0..more.len() {
        let extent = more[index];
        let start = extent.logical.max(from);
        let stop = (extent.logical + extent.length).min(to);
        if start < stop {
            let piece = Extent {
                logical: start,
                length: stop - start,
                place: extent.place + (start - extent.logical),
            };
            push(extents, piece)?;
        }
    }
    Ok(())
}
