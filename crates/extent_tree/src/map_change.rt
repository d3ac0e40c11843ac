// Extents of which a run of blocks is mapped anew or unmapped.
ghost use Rattle.std.specs.Prelude.{◌≤◌, ◌<◌, ◌+◌, ◌++◌, ◌^◌, IfSome, IfOk, OnOk};
ghost use Rattle.extent_tree.specs.Changes.{changed_extents, piece};
ghost use Rattle.extent_tree.specs.Normal.{IsRising, NoneGoesOn, PlacesFit, Joins};

use crate::extent_join::{push, push_part};
use layout::Extent;
use std::alloc::{AllocError, Global};

/// The extents with a run of blocks mapped from a place on, whatever was mapped there before, or unmapped.
pub fn change(
    alloc: Global,
    extents: &[Extent],
    first: u32,
    count: u32,
    place: Option<u32>,
) -> Result<Vec<Extent>, AllocError>
    requires some { 0 < count }
    requires blocks { first + count < 2 ^ 32 }
    requires places { IfSome place (λ p. p + count < 2 ^ 32) }
    requires rising { IsRising 0 4294967295 extents.now }
    requires fit { PlacesFit extents.now }
    ensures { IfOk result (λ v. Joins 4294967295 (changed_extents first count place extents.now) v.items) }
{
    let mut list = Vec::new(alloc);
    push_part(&mut list, extents, 0, first)?;
    push_piece(&mut list, first, count, place)?;
    push_part(&mut list, extents, first + count, u32::MAX)?;
    Ok(list)
}

fn push_piece(
    extents: &mut Vec<Extent>,
    first: u32,
    count: u32,
    place: Option<u32>,
) -> Result<(), AllocError>
    requires some { 0 < count }
    requires blocks { first + count < 2 ^ 32 }
    requires places { IfSome place (λ p. p + count < 2 ^ 32) }
    requires rising { IsRising 0 first extents.old.items }
    requires apart { NoneGoesOn extents.old.items }
    requires fit { PlacesFit extents.old.items }
    ensures { OnOk result (Joins (first + count) (extents.old.items ++ piece first count place) extents.new.items) }
{
    match place {
        None => Ok(()),
        Some(place) => push(
            extents,
            Extent {
                logical: first,
                length: count,
                place,
            },
        ),
    }
}
