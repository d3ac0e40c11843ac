//! The file system of a run: made on fresh media, shared out to threads, and recovered from what its media hold.
ghost use Rattle.std.specs.Prelude.{◌≡◌, ◌≤◌, ◌∷◌, [], All, IfOk, length};
ghost use Rattle.std.specs.Vec.{vec_capacity};
ghost use Rattle.tier_device.specs.declared.media.Tier.TheVariants.{Fast};
ghost use Rattle.strata_threads.specs.SharedClients.{ShareTable};
ghost use Rattle.tier_device.specs.Memory.{IsAtRest, memory_seen};
ghost use Rattle.thread_runs.specs.FirstPath.{IsRunAtRest, MayBeLeft};
ghost use Rattle.recovery.specs.area_recovery.Parts.{AreAtRest, part_medium};
ghost use Rattle.call_driver.specs.event_steps.Sound.{AreSeats};

use crate::region_stops::{RegionStops, RunMedium};
use crate::seat::{Seat, seats_of};
use call_driver::in_event_steps::ClientSlot;
use call_driver::in_interleavings::World;
use recovery::in_area_recovery::RecoveryError;
use recovery::in_recovery_laws::tier_lens;
use recovery::{Parts, REGIONS, format, recover};
use script::RunError;
use script::in_update_log::{REGION_SIZE, Region};
use std::alloc::Global;
use std::sync::Wait;
use strata_threads::in_layout::{CLIENTS, Geometry};
use strata_threads::in_libfs::{Client, Detached, SealedRegion};
use strata_threads::{SharedKernel, ThreadRemains, ThreadSet, Worker};
use tier_device::{Media, MemMedia, StopMedia};

// Data blocks of the three tiers.
const BLOCKS: [u32; 3] = [512, 1_024, 1_024];

/// What the threads of a run are given.
#[derive(Drop)]
pub struct RunSet {
    pub shared: SharedKernel<RunMedium>,
    pub seats: Vec<Seat>,
    pub workers: Vec<Worker<RunMedium>>,
}

/// The same with a seat for each client.
pub(crate) fn fresh_run_set(
    alloc: Global,
    units: u32,
    workers: usize,
    stops: &mut RegionStops,
) -> Result<RunSet, RunError> {
    let ThreadSet {
        shared,
        clients,
        workers,
    } = fresh_set(alloc, units, workers, stops)?;
    Ok(RunSet {
        shared,
        seats: seats_of(alloc, clients)?,
        workers,
    })
}

/// The empty file system over media in memory, for eight clients and `workers` workers. The counts of its regions are added to `stops`, not armed.
pub(crate) fn fresh_set(
    alloc: Global,
    units: u32,
    workers: usize,
    stops: &mut RegionStops,
) -> Result<ThreadSet<RunMedium>, RunError> {
    let mut room = Vec::new(alloc);
    room.reserve(CLIENTS)?;
    share_out(alloc, fresh_world(alloc, units, stops)?, room, workers)
}

// Shares out a world's kernel and its clients, which go into `room`: it has room for them.
fn share_out(
    alloc: Global,
    world: World<RunMedium>,
    room: Vec<Client<RunMedium>>,
    workers: usize,
) -> Result<ThreadSet<RunMedium>, RunError>
    requires empty { room.items ≡ [] }
    requires room { 8 ≤ vec_capacity room }
    ensures eight { IfOk result (λ set. length set.clients.items ≡ 8) }
{
    let (kernel, seats) = world.into_system().into_parts();
    match ThreadSet::open(alloc, kernel, clients_of(seats, room), workers) {
        Ok(set) => Ok(set),
        Err(_) => Err(RunError::Memory),
    }
}

// The clients of these seats, put into `room`: it has room for them.
fn clients_of(
    seats: Vec<ClientSlot<RunMedium>>,
    room: Vec<Client<RunMedium>>,
) -> Vec<Client<RunMedium>>
    requires seats { AreSeats seats.items }
    requires empty { room.items ≡ [] }
    requires room { 8 ≤ vec_capacity room }
    ensures table { ShareTable result.items }
    ensures eight { length result.items ≡ 8 }
{
    let mut clients = room;
    for seat in seats {
        let (client, _, _) = seat.into_parts();
        clients.push_reserved(client);
    }
    clients
}

fn fresh_world(
    alloc: Global,
    units: u32,
    stops: &mut RegionStops,
) -> Result<World<RunMedium>, RunError> {
    let geometry = geometry_of(units)?;
    match format(alloc, &geometry, zero_media(alloc, &geometry, stops)?) {
        Ok(world) => Ok(world),
        Err((error, _)) => Err(recovery_fault(error)),
    }
}

// The fault of a run whose media are not formatted, or not recovered.
fn recovery_fault(error: RecoveryError) -> RunError {
    match error {
        RecoveryError::Memory => RunError::Memory,
        RecoveryError::DeviceFault => RunError::Device,
        RecoveryError::BadLog { .. } => RunError::BadLog,
        _ => RunError::Damaged,
    }
}

fn geometry_of(units: u32) -> Result<Geometry, RunError> {
    let [fast, block, slow] = BLOCKS;
    match Geometry::new(units, fast, block, slow) {
        Some(geometry) => Ok(geometry),
        None => Err(RunError::Damaged),
    }
}

// Media in memory, all of whose bytes are zero, of which those of the regions may stop.
fn zero_media(
    alloc: Global,
    geometry: &Geometry,
    stops: &mut RegionStops,
) -> Result<Parts<RunMedium>, RunError> {
    let regions = stopping_regions(alloc, stops)?;
    let shared = zero_medium(alloc, tier_lens(geometry))?;
    parts_of(StopMedia::new(shared), regions)
}

fn stopping_regions(alloc: Global, stops: &mut RegionStops) -> Result<Vec<RunMedium>, RunError> {
    let mut regions = Vec::new(alloc);
    for _ in 0..REGIONS {
        add_region(alloc, &mut regions, stops)?;
    }
    Ok(regions)
}

fn add_region(
    alloc: Global,
    regions: &mut Vec<RunMedium>,
    stops: &mut RegionStops,
) -> Result<(), RunError> {
    let medium = zero_medium(alloc, [REGION_SIZE, 0, 0])?;
    regions.push(stops.add_region(alloc, medium)?)?;
    Ok(())
}

fn zero_medium(alloc: Global, lens: [usize; 3]) -> Result<MemMedia, RunError> {
    let [fast, block, slow] = lens;
    let fast = vec![in alloc; 0u8; fast]?;
    let block = vec![in alloc; 0u8; block]?;
    let slow = vec![in alloc; 0u8; slow]?;
    match MemMedia::of_bytes(alloc, fast, block, slow) {
        Ok(medium) => Ok(medium),
        Err(_) => Err(RunError::Memory),
    }
}

// The parts that these media are, at rest where each of them is.
fn parts_of(shared: RunMedium, regions: Vec<RunMedium>) -> Result<Parts<RunMedium>, RunError>
    ensures { IfOk result (λ parts. All IsRunAtRest (shared ∷ regions.items) → AreAtRest ⟦<StopMedia as Media>⟧ (part_medium parts)) }
{
    match Parts::new(shared, regions) {
        Ok(parts) => Ok(parts),
        Err(_) => Err(RunError::Damaged),
    }
}

/// The world that is recovered from what the media of a set hold behind a stop.
pub(crate) fn recover_set<R: Wait + AllocGlobal>(
    rt: &R,
    set: RunSet,
) -> Result<World<RunMedium>, RunError> {
    let RunSet { shared, seats, .. } = set;
    let shared = shared.into_kernel().into_area().into_medium();
    recover_media(rt.alloc(), shared, region_media(rt, seats)?)
}

/// The media of all seats' regions, seat by seat and the even one first.
pub(crate) fn region_media<R: Wait + AllocGlobal>(
    rt: &R,
    seats: Vec<Seat>,
) -> Result<Vec<RunMedium>, RunError> {
    let mut media = Vec::new(rt.alloc());
    for seat in seats {
        add_seat(rt, &mut media, seat)?;
    }
    Ok(media)
}

// Adds the media of the two regions of whoever has a seat, or of what its client left, the even one first. One may be on its way back.
fn add_seat<R: Wait>(rt: &R, media: &mut Vec<RunMedium>, seat: Seat) -> Result<(), RunError> {
    let (client, remains) = seat.into_parts();
    let Some(client) = client else {
        return add_remains(rt, media, remains);
    };
    let (client, away) = client.into_parts(rt);
    add_regions(media, client.detach(), away)
}

fn add_remains<R: Wait>(
    rt: &R,
    media: &mut Vec<RunMedium>,
    remains: Option<ThreadRemains<RunMedium>>,
) -> Result<(), RunError> {
    let Some(remains) = remains else {
        return Err(RunError::Damaged);
    };
    let (remains, away) = remains.into_parts(rt);
    add_regions(media, remains.detach(), away)
}

fn add_regions(
    media: &mut Vec<RunMedium>,
    left: Detached<RunMedium>,
    away: Option<SealedRegion<RunMedium>>,
) -> Result<(), RunError> {
    let mut away = away;
    let (even, odd) = left.regions;
    media.push(medium_of(even, &mut away)?)?;
    media.push(medium_of(odd, &mut away)?)?;
    Ok(())
}

// The medium of a region that is here, or else of the one that was away.
fn medium_of(
    region: Option<Region<RunMedium>>,
    away: &mut Option<SealedRegion<RunMedium>>,
) -> Result<RunMedium, RunError> {
    if let Some(region) = region {
        return Ok(region.into_media());
    }
    match away.take() {
        Some(region) => Ok(region.into_region().into_media()),
        None => Err(RunError::Damaged),
    }
}

fn recover_media(
    alloc: Global,
    shared: RunMedium,
    regions: Vec<RunMedium>,
) -> Result<World<RunMedium>, RunError> {
    let shared = medium_at_rest(shared)?;
    recover_parts(alloc, shared, rest_regions(alloc, regions)?)
}

fn recover_parts(
    alloc: Global,
    shared: RunMedium,
    regions: Vec<RunMedium>,
) -> Result<World<RunMedium>, RunError>
    requires rest { All IsRunAtRest (shared ∷ regions.items) }
{
    let parts = parts_of(shared, regions)?;
    match recover(alloc, parts) {
        Ok(world) => Ok(world),
        Err((error, _)) => Err(recovery_fault(error)),
    }
}

// What the media of the regions hold behind a stop.
fn rest_regions(alloc: Global, regions: Vec<RunMedium>) -> Result<Vec<RunMedium>, RunError>
    ensures { IfOk result (λ media. All IsRunAtRest media.items) }
{
    let mut media = Vec::new(alloc);
    for region in regions {
        add(&mut media, medium_at_rest(region)?)?;
    }
    Ok(media)
}

fn add(media: &mut Vec<RunMedium>, medium: RunMedium) -> Result<(), RunError>
    requires rest { All IsRunAtRest media.old.items }
    requires one { IsRunAtRest medium }
    ensures rest { All IsRunAtRest media.new.items }
{
    media.push(medium)?;
    Ok(())
}

// A medium with what one holds behind a stop, which runs.
fn medium_at_rest(medium: RunMedium) -> Result<RunMedium, RunError>
    ensures { IfOk result IsRunAtRest }
{
    Ok(StopMedia::new(medium_after_stop(medium)?))
}

/// What a medium holds behind a stop, or behind one now.
pub(crate) fn medium_after_stop(medium: RunMedium) -> Result<MemMedia, RunError>
    ensures at_rest { IfOk result IsAtRest }
    ensures allowed { IfOk result (λ rest. MayBeLeft medium (memory_seen rest Fast)) }
{
    match medium.rest() {
        Ok(medium) => Ok(medium),
        Err(_) => Err(RunError::Memory),
    }
}
