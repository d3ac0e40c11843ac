//! How media come out of a system again.

ghost use Rattle.std.specs.Prelude.{◌≡◌, ◌≤◌, ◌<◌, ◌+◌, ◌*◌, ◌++◌, ℕ, length, [], IfErr, IfOk, IsSome, Some};
ghost use Rattle.std.specs.Vec.{vec_len, vec_capacity};
ghost use Rattle.interleavings.specs.system_laws.Parts.{medium_of, region_of};
ghost use Rattle.interleavings.specs.event_lists.Courses.{PARTS};
ghost use Rattle.area_recovery.specs.Parts.{part_medium};
ghost use Rattle.recovery.specs.SeatRegions.{regions_of_seats};
ghost use Rattle.area_recovery.specs.Regions.{REGIONS, media_of};

use crate::parts::{Parts, REGIONS};
use area_recovery::{hand_back, put_last};
use interleavings::World;
use interleavings::in_event_steps::ClientSlot;
use interleavings::in_update_log::Region;
use std::alloc::{AllocError, Global};
use tier_device::Media;

/// The media of a world of which no event is played any more.
///
/// Refused for want of memory alone, before anything is taken apart; the world is given back then.
pub fn take_apart<M: Media + Drop>(alloc: Global, world: World<M>) -> Result<Parts<M>, World<M>>
    ensures media { IfOk result (λ parts. (p : ℕ) → p < PARTS → part_medium parts p ≡ medium_of world.system p) }
    ensures back { IfErr result (λ w. w ≡ world) }
{
    let Ok((media, regions)) = room_for_regions(alloc) else {
        return Err(world);
    };
    let (kernel, seats) = world.into_system().into_parts();
    let mut regions = regions;
    put_regions(&mut regions, seats);
    let shared = kernel.into_area().into_medium();
    Ok(parts_of(shared, regions, media))
}

// No media and no regions, with room for those of all clients.
fn room_for_regions<M: Media + Drop>(alloc: Global) -> Result<(Vec<M>, Vec<Region<M>>), AllocError>
    ensures none { IfOk result (λ r. (r.0.items ≡ []) × (r.1.items ≡ [])) }
    ensures room { IfOk result (λ r. (REGIONS ≤ vec_capacity r.0) × (REGIONS ≤ vec_capacity r.1)) }
{
    let mut media = Vec::new(alloc);
    media.reserve(REGIONS)?;
    let mut regions = Vec::new(alloc);
    regions.reserve(REGIONS)?;
    Ok((media, regions))
}

// The parts of the shared medium and of regions, whose media are put into this vector; there is room for them.
pub(crate) fn parts_of<M: Media + Drop>(
    shared: M,
    regions: Vec<Region<M>>,
    media: Vec<M>,
) -> Parts<M>
    requires sixteen { length regions.items ≡ REGIONS }
    requires empty { media.items ≡ [] }
    requires room { REGIONS ≤ vec_capacity media }
    ensures { result ≡ record { shared = shared; regions = media_of regions.items } }
{
    let mut media = media;
    hand_back(&mut media, regions);
    Parts::of(shared, media)
}

// Puts the regions of seats behind the others; there is room for them.
pub(crate) fn put_regions<M: Media + Drop>(regions: &mut Vec<Region<M>>, seats: Vec<ClientSlot<M>>)
    requires room { vec_len regions.old + 2 * vec_len seats ≤ vec_capacity regions.old }
    ensures items { regions.new.items ≡ regions.old.items ++ regions_of_seats seats.items }
{
    for seat in seats {
        let (even, odd) = regions_of_seat(seat);
        put_last(regions, even);
        put_last(regions, odd);
    }
}

// The regions of a seat, that of even generations and that of odd ones.
fn regions_of_seat<M: Media + Drop>(seat: ClientSlot<M>) -> (Region<M>, Region<M>)
    ensures even { result.0 ≡ region_of seat 0 }
    ensures odd { result.1 ≡ region_of seat 1 }
{
    // For the proof: a region that is not in the log is away.
    seat.left_now();
    let (client, away, _) = seat.into_parts();
    let (even, odd) = client.detach().regions;
    let Some(even) = even else {
        return (present(away).into_region(), present(odd));
    };
    match odd {
        Some(odd) => (even, odd),
        None => (even, present(away).into_region()),
    }
}

// What is there.
pub(crate) fn present<T: Drop>(item: Option<T>) -> T
    requires { IsSome item }
    ensures { item ≡ Some result }
{
    match item {
        Some(item) => item,
        None => unreachable!(),
    }
}
