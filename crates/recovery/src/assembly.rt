//! A world is made of an area and of regions in which nothing counts.

ghost use Rattle.std.specs.Prelude.{◌≡◌, ◌≤◌, ◌<◌, ◌+◌, ◌++◌, ◌⊎◌, ℕ, List, length, map, replicate, [], ◌∷◌, None, Some, IfErr, IfOk, OnErr};
ghost use Rattle.std.specs.Vec.{vec_len, vec_capacity};
ghost use Rattle.atomic_table.specs.Seated.{TableId};
ghost use Rattle.tier_device.specs.Media.{Rose};
ghost use Rattle.interleavings.specs.update_log.View.{RegionView};
ghost use Rattle.interleavings.specs.layout.declared.marks.Marks.{Marks};
ghost use Rattle.interleavings.specs.area_reader.Store.{disk, graph, marks as marks_of};
ghost use Rattle.interleavings.specs.event_steps.Sound.{AreSeats};
ghost use Rattle.interleavings.specs.lease_manager.Passes.{fresh, places};
ghost use Rattle.interleavings.specs.libfs.NewClient.{IsBlank, IsNew};
ghost use Rattle.interleavings.specs.libfs.declared.life.Life.TheVariants as lives;
ghost use Rattle.interleavings.specs.client_log.Steps.{IsOpened};
ghost use Rattle.interleavings.specs.system_laws.Idle.{IsIdleSystem};
ghost use Rattle.interleavings.specs.system_laws.KeptCalls.{no_calls};
ghost use Rattle.interleavings.specs.system_laws.Parts.{medium_of};
ghost use Rattle.interleavings.specs.system_laws.WorldTree.{world_tree};
ghost use Rattle.interleavings.specs.call_effects.ClosedGraph.{nobody};
ghost use Rattle.interleavings.specs.call_effects.Wholes.{state_of};
ghost use Rattle.area_recovery.specs.declared.error.RecoveryError.TheVariants.{DeviceFault};
ghost use Rattle.interleavings.specs.event_steps.Refusals.{no_refusals};
ghost use Rattle.recovery.specs.Assembly.{AreOnlyRead, AreOpenedSeats, AreWipedTo, IsOpenedSeat, RefusesSeat, SeatsLast};
ghost use Rattle.area_recovery.specs.ReadyParts.{AreReadyRegions, IsReadyArea};
ghost use Rattle.area_recovery.specs.FaultOrMemory.{IsFaultOrMemory};
ghost use Rattle.area_recovery.specs.Parts.{part_medium};
ghost use Rattle.area_recovery.specs.PartMedia.{AreUntouched, SomeRose, media_beneath};
ghost use Rattle.area_recovery.specs.Regions.{REGIONS, HaveRisen, IsUntouched, media_of};
ghost use Rattle.area_recovery.specs.Silent.{IsWiped, wiped_name};

use crate::disassembly::{parts_of, present, put_regions};
use crate::parts::Parts;
use area_recovery::in_recovery_laws::openable_area_is_within_limits;
use area_recovery::{RecoveryError, area_fault, put_first, put_last};
use interleavings::World;
use interleavings::in_client_log::ClientLog;
use interleavings::in_event_steps::{ClientSlot, System};
use interleavings::in_kernel_fs::Kernel;
use interleavings::in_layout::{CLIENTS, Marks};
use interleavings::in_lease_manager::{Leases, Opened, Pass};
use interleavings::in_libfs::Client;
use interleavings::in_shared_area::Shared;
use interleavings::in_system_laws::idle_system_stands_for_a_world;
use interleavings::in_update_log::Region;
use std::alloc::Global;
use tier_device::Media;

/// The world of an area whose graph is sound and of regions that are wiped: nobody has a call started or a file open. The media are only read.
///
/// `Memory` where there was none, and `DeviceFault` where a device failed; the media are given back then, in the vector with room for them.
pub fn assemble<M: Media + Drop>(
    alloc: Global,
    area: Shared<M>,
    regions: Vec<Region<M>>,
    media: Vec<M>,
) -> Result<World<M>, (RecoveryError, Parts<M>)>
    requires area { IsReadyArea M.Media area }
    requires regions { AreReadyRegions M.Media area regions.items }
    requires empty { media.items ≡ [] }
    requires room { REGIONS ≤ vec_capacity media }
    ensures calls { IfOk result (λ w. w.calls ≡ no_calls) }
    ensures geometry { IfOk result (λ w. w.system.kernel.area.geometry ≡ area.geometry) }
    ensures idle { IfOk result (λ w. (v : Marks) → marks_of (disk M.Media area) ≡ Some v → IsIdleSystem M.Media w.system v) }
    ensures tree { IfOk result (λ w. world_tree M.Media w ≡ state_of (graph area.geometry (disk M.Media area)) nobody) }
    ensures kept { IfOk result (λ w. AreUntouched M.Media (part_medium (media_beneath area regions.items)) (medium_of w.system)) }
    ensures back { IfErr result (λ e. AreUntouched M.Media (part_medium (media_beneath area regions.items)) (part_medium e.1)) }
    ensures only { IfErr result (λ e. IsFaultOrMemory e.0) }
    ensures fault { IfErr result (λ e. e.0 ≡ DeviceFault → SomeRose M.Media (part_medium (media_beneath area regions.items)) (part_medium e.1)) }
{
    // For the proof: the area can be opened as it stands, so its graph is within the limits.
    area.left_now();
    openable_area_is_within_limits();
    let marks = area.marks();
    let kernel = match Kernel::open(alloc, area) {
        Ok(kernel) => kernel,
        Err((error, area)) => {
            let parts = parts_of(area.into_medium(), regions, media);
            return Err((area_fault(error), parts));
        }
    };
    let mut regions = regions;
    match seat_clients(alloc, &marks, &mut regions) {
        Ok(seats) => Ok(world_of(alloc, kernel, seats)),
        Err(error) => {
            let parts = parts_of(kernel.into_area().into_medium(), regions, media);
            Err((error, parts))
        }
    }
}

// The world of a kernel and of clients' seats, as they are opened.
fn world_of<M: Media + Drop>(
    alloc: Global,
    kernel: Kernel<M>,
    seats: Vec<ClientSlot<M>>,
) -> World<M>
    requires idle { (v : Marks) × IsIdleSystem M.Media (record { kernel = kernel; seats = seats.items }) v }
    requires right { AreSeats seats.items }
    ensures system { result.system ≡ record { kernel = kernel; seats = seats.items } }
    ensures calls { result.calls ≡ no_calls }
{
    // For the proof: the new system stands for a world of which no call is started.
    idle_system_stands_for_a_world::<M>();
    match System::new(alloc, kernel, seats) {
        Ok(system) => World::of_system(system),
        Err(_) => unreachable!(),
    }
}

// The seats of all clients, each opened at its mark over its two regions, which are taken. Where that is refused they stand there again, in their order, and were read at most.
fn seat_clients<M: Media + Drop>(
    alloc: Global,
    marks: &Marks,
    regions: &mut Vec<Region<M>>,
) -> Result<Vec<ClientSlot<M>>, RecoveryError>
    requires all { length regions.old.items ≡ REGIONS }
    requires wiped { AreWipedTo M.Media marks.now regions.old.items }
    ensures opened { IfOk result (λ seats. (table : TableId) × AreOpenedSeats M.Media table marks.now 0 regions.old.items seats.items) }
    ensures back { OnErr result (AreOnlyRead M.Media regions.old.items regions.new.items) }
    ensures only { IfErr result IsFaultOrMemory }
    ensures fault { IfErr result (λ e. e ≡ DeviceFault → HaveRisen M.Media (media_of regions.old.items) (media_of regions.new.items)) }
{
    let Opened {
        leases,
        handles,
        passes,
    } = Leases::open(alloc)?;
    seat_all(alloc, marks, &leases, handles, passes, regions)
}

// The same with these passes, one for each client.
fn seat_all<M: Media + Drop>(
    alloc: Global,
    marks: &Marks,
    leases: &Leases,
    handles: Vec<Leases>,
    passes: Vec<Pass>,
    regions: &mut Vec<Region<M>>,
) -> Result<Vec<ClientSlot<M>>, RecoveryError>
    requires all { length regions.old.items ≡ REGIONS }
    requires wiped { AreWipedTo M.Media marks.now regions.old.items }
    requires handles { handles.items ≡ replicate 8 leases.now }
    requires passes { passes.items ≡ map (fresh leases.now) places }
    ensures opened { IfOk result (λ seats. AreOpenedSeats M.Media leases.now marks.now 0 regions.old.items seats.items) }
    ensures back { OnErr result (AreOnlyRead M.Media regions.old.items regions.new.items) }
    ensures only { IfErr result IsFaultOrMemory }
    ensures fault { IfErr result (λ e. e ≡ DeviceFault → HaveRisen M.Media (media_of regions.old.items) (media_of regions.new.items)) }
{
    let (mut handles, mut passes) = (handles, passes);
    let mut seats = Vec::new(alloc);
    seats.reserve(CLIENTS)?;
    for count in 0..CLIENTS {
        let generation = marks.clients[CLIENTS - 1 - count].generation;
        let handle = pop_last(&mut handles);
        let pass = pop_last(&mut passes);
        match seat_last(alloc, handle, pass, regions, generation) {
            Ok(seat) => put_first(&mut seats, seat),
            Err(error) => {
                put_regions(regions, seats);
                return Err(error);
            }
        }
    }
    Ok(seats)
}

// The seat of the client of a pass over the last two regions, which are taken; they stand there again where that is refused.
fn seat_last<M: Media + Drop>(
    alloc: Global,
    handle: Leases,
    pass: Pass,
    regions: &mut Vec<Region<M>>,
    generation: u64,
) -> Result<ClientSlot<M>, RecoveryError>
    requires some { 2 ≤ vec_len regions.old }
    requires fresh { (place : ℕ) × (pass ≡ fresh handle place) }
    requires wiped { (front : List (RegionView M)) (even odd : RegionView M) → regions.old.items ≡ front ++ even ∷ odd ∷ [] → IsWiped M.Media (wiped_name generation 0) even × IsWiped M.Media (wiped_name generation 1) odd }
    ensures seated { IfOk result (SeatsLast M.Media pass generation regions.old.items regions.new.items) }
    ensures refused { IfErr result (λ e. RefusesSeat M.Media e regions.old.items regions.new.items) }
    ensures capacity { vec_capacity regions.old ≤ vec_capacity regions.new }
{
    let odd = pop_last(regions);
    let even = pop_last(regions);
    match open_seat(alloc, handle, pass, (even, odd), generation) {
        Ok(seat) => Ok(seat),
        Err((error, (even, odd))) => {
            put_last(regions, even);
            put_last(regions, odd);
            Err(error)
        }
    }
}

// The last item, which is taken away.
fn pop_last<T: Drop>(items: &mut Vec<T>) -> T
    requires { 0 < vec_len items.old }
    ensures taken { items.old.items ≡ items.new.items ++ result ∷ [] }
    ensures count { vec_len items.new + 1 ≡ vec_len items.old }
    ensures capacity { vec_capacity items.old ≤ vec_capacity items.new }
{
    present(items.pop())
}

// The seat of the client of a pass over its two regions, that of even generations and that of odd ones, which are given back with a refusal.
fn open_seat<M: Media + Drop>(
    alloc: Global,
    handle: Leases,
    pass: Pass,
    regions: (Region<M>, Region<M>),
    generation: u64,
) -> Result<ClientSlot<M>, (RecoveryError, (Region<M>, Region<M>))>
    requires fresh { (place : ℕ) × (pass ≡ fresh handle place) }
    requires even { IsWiped M.Media (wiped_name generation 0) regions.0 }
    requires odd { IsWiped M.Media (wiped_name generation 1) regions.1 }
    ensures opened { IfOk result (IsOpenedSeat M.Media pass generation regions) }
    ensures even_back { IfErr result (λ e. IsUntouched M.Media regions.0.media e.1.0.media) }
    ensures odd_back { IfErr result (λ e. IsUntouched M.Media regions.1.media e.1.1.media) }
    ensures fault { IfErr result (λ e. e.0 ≡ DeviceFault → Rose (M.faults regions.0.media) (M.faults e.1.0.media) ⊎ Rose (M.faults regions.1.media) (M.faults e.1.1.media)) }
    ensures only { IfErr result (λ e. IsFaultOrMemory e.0) }
{
    let log = match open_log(alloc, regions, generation) {
        Ok(log) => log,
        Err(regions) => return Err((RecoveryError::DeviceFault, regions)),
    };
    match open_client(alloc, handle, pass, log) {
        Ok(seat) => Ok(seat),
        Err(log) => {
            let (even, odd) = log.into_regions();
            Err((RecoveryError::Memory, (present(even), present(odd))))
        }
    }
}

// The log over wiped regions at a generation; they are given back where a device fails.
fn open_log<M: Media + Drop>(
    alloc: Global,
    regions: (Region<M>, Region<M>),
    generation: u64,
) -> Result<ClientLog<M>, (Region<M>, Region<M>)>
    requires even { IsWiped M.Media (wiped_name generation 0) regions.0 }
    requires odd { IsWiped M.Media (wiped_name generation 1) regions.1 }
    ensures opened { IfOk result (IsOpened M.Media generation regions) }
    ensures blank { IfOk result (IsBlank M.Media) }
    ensures even_back { IfErr result (λ e. IsUntouched M.Media regions.0.media e.0.media) }
    ensures odd_back { IfErr result (λ e. IsUntouched M.Media regions.1.media e.1.media) }
    ensures fault { IfErr result (λ e. Rose (M.faults regions.0.media) (M.faults e.0.media) ⊎ Rose (M.faults regions.1.media) (M.faults e.1.media)) }
{
    // For the proof: what a stop leaves now of both regions.
    regions.0.left_now();
    regions.1.left_now();
    match ClientLog::open(alloc, regions, generation) {
        Ok(log) => Ok(log),
        // They are wiped: so a device has failed.
        Err((_, regions)) => Err(regions),
    }
}

// The seat of the client of a pass and of a log that has no record; the log is given back for want of memory.
fn open_client<M: Media + Drop>(
    alloc: Global,
    handle: Leases,
    pass: Pass,
    log: ClientLog<M>,
) -> Result<ClientSlot<M>, ClientLog<M>>
    requires fresh { (place : ℕ) × (pass ≡ fresh handle place) }
    requires blank { IsBlank M.Media log }
    ensures new { IfOk result (λ s. IsNew pass log s.client) }
    ensures home { IfOk result (λ s. s.away ≡ None) }
    ensures alive { IfOk result (λ s. s.life ≡ lives.Alive) }
    ensures unrefused { IfOk result (λ s. s.refused ≡ no_refusals) }
    ensures back { IfErr result (λ l. l ≡ log) }
{
    match Client::open(alloc, handle, pass, log) {
        Ok(client) => match ClientSlot::new(client) {
            Ok(seat) => Ok(seat),
            Err(_) => unreachable!(),
        },
        Err((_, (_, _, log))) => Err(log),
    }
}
