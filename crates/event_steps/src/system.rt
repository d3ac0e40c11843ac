ghost use Rattle.std.specs.Prelude.{◌≡◌, ◌-◌, ◌*◌, ◌<◌, ◌↔◌, ℕ, [], drop, length, min, IfErr, IfNone, IfOk, IfSome, IsTrue, OnErr, OnOk, Some, slice_get, true};
ghost use Rattle.atomic_table.specs.Seated.{TableId};
ghost use Rattle.libfs.specs.call_effects.NodeView.{view_at};
ghost use Rattle.libfs.specs.kernel_fs.KernelAnswers.{Answers, OnRefusal};
ghost use Rattle.libfs.specs.area_reader.declared.error.AreaError.TheVariants.{Memory};
ghost use Rattle.libfs.specs.area_reader.Looks.{Looks};
ghost use Rattle.libfs.specs.area_reader.Map.{WantsMemory};
ghost use Rattle.libfs.specs.shared_area.FileReads.{bytes_of_inode, IsReadFrom};
ghost use Rattle.libfs.specs.shared_area.Parts.{IsNoDamage, IsTierOf};
ghost use Rattle.libfs.specs.kernel_fs.MachineState.{IsMarkIn};
ghost use Rattle.libfs.specs.area_reader.Store.{graph, disk};
ghost use Rattle.libfs.specs.client_log.View.{current_records};
ghost use Rattle.posix_calls.specs.declared.limits.TheConstants.{UNIT_BYTES};
ghost use Rattle.libfs.specs.lease_manager.Parts.{AreCompatible};
ghost use Rattle.libfs.specs.lease_manager.Words.{IsClient};
ghost use Rattle.libfs.specs.migrator.RunChoice.{IsPicked, MayBeMoved};
ghost use Rattle.libfs.specs.declared.life.Life.TheVariants as lives;
ghost use Rattle.event_steps.specs.Sound.{AreFrom, AreOfTable, AreSeats, number_of};
ghost use Rattle.event_steps.specs.Stops.{SeatLeaves};
ghost use Rattle.event_steps.specs.View.{HasSeat, SeatView, done_of, seat_of, undigested_on};

use crate::client_slot::ClientSlot;
use crate::numbers::{CLIENTS, is_client};
use libfs::in_area_reader::AreaError;
use libfs::in_kernel_fs::{Fetched, FetchedBytes, Kernel, KernelError};
use libfs::in_log_record::Record;
use libfs::in_migrator::FileRun;
use libfs::{Client, Life};
use posix_calls::client_index;
use std::alloc::Global;
use std::marker::Model;
use tier_device::{Media, Tier};

/// A kernel and its eight clients, with the regions that are away.
///
/// Contracts see the kernel, and each client's seat (`specs/View.antt`).
#[derive(Drop)]
pub struct System<M: Media> {
    pub(crate) alloc: Global,
    pub(crate) kernel: Kernel<M>,
    pub(crate) seats: Vec<ClientSlot<M>>,
}

impl<M: Media> Model for System<M> {
    ghost use Rattle.std.specs.Coded.{codes};
    ghost use Rattle.libfs.specs.client_view.KnowledgeTables.{held_code};
    ghost use Rattle.libfs.specs.contracts.begun_record.Begun as begun_call;
    ghost use Rattle.event_steps.specs.Sound.{AreSeats};
    ghost use Rattle.event_steps.specs.View.{SystemView};

    ghost Value = { SystemView M };

    ghost coded = { Prim.hlevel (codes, held_code, begun_call.the_row.coded) };

    ghost view = { λ s. record { kernel = s.kernel; seats = s.seats.items } };

    ghost invariant = { λ s. AreSeats s.seats.items };
}

impl<M: Media> System<M> {
    /// A client; none of a number outside 1 to 8.
    pub fn client(&self, number: u32) -> Option<&Client<M>>
        ensures there { IfSome result (λ c. IsClient number × HasSeat self.now number (λ s. c.now ≡ s.client)) }
        ensures none { IfNone result (IsClient number → ⊥) }
    {
        match self.seat(number) {
            Some(seat) => Some(&seat.client),
            None => None,
        }
    }

    /// How far a client's life has come; alive of a number outside 1 to 8.
    pub fn life(&self, number: u32) -> Life
        ensures there { IsClient number → HasSeat self.now number (λ s. result ≡ s.life) }
        ensures none { (IsClient number → ⊥) → result ≡ lives.Alive }
    {
        match self.seat(number) {
            Some(seat) => seat.life,
            None => Life::Alive,
        }
    }

    /// How many records of a client are not digested, of the region that it writes and of the one that is away; none of a number outside 1 to 8.
    pub fn undigested(&self, number: u32) -> usize
        ensures there { IsClient number → HasSeat self.now number (λ s. result ≡ undigested_on M.Media s) }
        ensures none { (IsClient number → ⊥) → result ≡ 0 }
    {
        match self.seat(number) {
            Some(seat) => seat.undigested(),
            None => 0,
        }
    }

    /// The records of the region that a client has away that are not digested, in their order; none of a number outside 1 to 8.
    pub fn sealed_records(&self, number: u32) -> &[Record]
        ensures there { IsClient number → HasSeat self.now number (λ s. result.now ≡ drop (done_of s.away) s.client.sealed) }
        ensures none { (IsClient number → ⊥) → result.now ≡ [] }
    {
        match self.seat(number) {
            Some(seat) => seat.sealed_records(),
            None => &[],
        }
    }

    /// The records of the region that a client writes, in their order; none of a number outside 1 to 8.
    pub fn current_records(&self, number: u32) -> &[Record]
        ensures there { IsClient number → HasSeat self.now number (λ s. result.now ≡ current_records M.Media s.client.log) }
        ensures none { (IsClient number → ⊥) → result.now ≡ [] }
    {
        match self.seat(number) {
            Some(seat) => seat.client.current_records(),
            None => &[],
        }
    }

    /// The kernel, to be asked what moves no device.
    pub fn kernel(&self) -> &Kernel<M>
        ensures { result.now ≡ self.now.kernel }
    {
        &self.kernel
    }

    /// What stands at an inode of the shared graph, as client 1 would fetch it. `Failed` exactly where a device of the kernel has failed; else refused as `Kernel::fetch` is, and never for damage.
    pub fn look(&mut self, inode: u32) -> Result<Fetched, KernelError<AreaError>>
        ensures node { IfOk result (λ x. x.node ≡ view_at (graph self.old.kernel.area.geometry (disk M.Media self.old.kernel.area)) inode) }
        ensures mark { IfOk result (λ x. IsMarkIn (disk M.Media self.old.kernel.area) 1 x.mark) }
        ensures only { IfErr result (λ e. OnRefusal e IsNoDamage) }
        ensures memory { IfErr result (λ e. OnRefusal e (λ r. r ≡ Memory → WantsMemory self.old.kernel.area.geometry (disk M.Media self.old.kernel.area) inode)) }
        ensures looks { Answers self.old.kernel.area.failed self.old.kernel self.new.kernel result (Looks M.Media self.old.kernel.area self.new.kernel.area) }
        ensures book { self.new.kernel.book ≡ self.old.kernel.book }
        ensures opening { self.new.kernel.opening ≡ self.old.kernel.opening }
        ensures seats { self.new.seats ≡ self.old.seats }
    {
        self.kernel.fetch(1, inode)
    }

    /// Bytes of a file of the shared graph from a logical block on, as `Kernel::blocks` reads them for client 1: into the front of the buffer, as many as the file and the buffer have. Refused as that is, and never for damage; the front of the buffer may have been read then.
    pub fn read_file(
        &mut self,
        inode: u32,
        first: u32,
        out: &mut [u8],
    ) -> Result<FetchedBytes, KernelError<AreaError>>
        ensures mark { IfOk result (λ x. IsMarkIn (disk M.Media self.old.kernel.area) 1 x.mark) }
        ensures count { IfOk result (λ x. x.count ≡ min (length out.old) (length (bytes_of_inode (graph self.old.kernel.area.geometry (disk M.Media self.old.kernel.area)) inode) - UNIT_BYTES * first)) }
        ensures bytes { IfOk result (λ x. IsReadFrom (bytes_of_inode (graph self.old.kernel.area.geometry (disk M.Media self.old.kernel.area)) inode) (UNIT_BYTES * first) x.count out.old out.new) }
        ensures refused { OnErr result ((n : ℕ) × IsReadFrom (bytes_of_inode (graph self.old.kernel.area.geometry (disk M.Media self.old.kernel.area)) inode) (UNIT_BYTES * first) n out.old out.new) }
        ensures only { IfErr result (λ e. OnRefusal e IsNoDamage) }
        ensures memory { IfErr result (λ e. OnRefusal e (λ r. r ≡ Memory → WantsMemory self.old.kernel.area.geometry (disk M.Media self.old.kernel.area) inode)) }
        ensures looks { Answers self.old.kernel.area.failed self.old.kernel self.new.kernel result (Looks M.Media self.old.kernel.area self.new.kernel.area) }
        ensures book { self.new.kernel.book ≡ self.old.kernel.book }
        ensures opening { self.new.kernel.opening ≡ self.old.kernel.opening }
        ensures seats { self.new.seats ≡ self.old.seats }
    {
        self.kernel.blocks(1, inode, first, out)
    }

    /// The tier that has a logical block of an inode of the shared graph; `None` where no tier does, or there is no such inode. Refused as `Kernel::tier_of` is, and never for damage.
    pub fn tier_of(
        &mut self,
        inode: u32,
        block: u64,
    ) -> Result<Option<Tier>, KernelError<AreaError>>
        ensures tier { IfOk result (IsTierOf self.old.kernel.area.geometry (disk M.Media self.old.kernel.area) inode block) }
        ensures only { IfErr result (λ e. OnRefusal e IsNoDamage) }
        ensures memory { IfErr result (λ e. OnRefusal e (λ r. r ≡ Memory → WantsMemory self.old.kernel.area.geometry (disk M.Media self.old.kernel.area) inode)) }
        ensures looks { Answers self.old.kernel.area.failed self.old.kernel self.new.kernel result (Looks M.Media self.old.kernel.area self.new.kernel.area) }
        ensures book { self.new.kernel.book ≡ self.old.kernel.book }
        ensures opening { self.new.kernel.opening ≡ self.old.kernel.opening }
        ensures seats { self.new.seats ≡ self.old.seats }
    {
        self.kernel.tier_of(inode, block)
    }

    /// Picks the run that is to be moved to a tier next, as `Kernel::pick` does; it changes nothing. Refused as that is, and never for damage.
    pub fn pick(&mut self, to: Tier) -> Result<Option<FileRun>, KernelError<AreaError>>
        ensures picked { IfOk result (IsPicked self.old.kernel.area.geometry (disk M.Media self.old.kernel.area) to) }
        ensures may_be_moved { IfOk result (λ x. IfSome x (MayBeMoved self.old.kernel.area.geometry (disk M.Media self.old.kernel.area) to)) }
        ensures only { IfErr result (λ e. OnRefusal e IsNoDamage) }
        ensures memory { IfErr result (λ e. OnRefusal e (λ r. r ≡ Memory → (i : ℕ) × WantsMemory self.old.kernel.area.geometry (disk M.Media self.old.kernel.area) i)) }
        ensures looks { Answers self.old.kernel.area.failed self.old.kernel self.new.kernel result (Looks M.Media self.old.kernel.area self.new.kernel.area) }
        ensures book { self.new.kernel.book ≡ self.old.kernel.book }
        ensures opening { self.new.kernel.opening ≡ self.old.kernel.opening }
        ensures seats { self.new.seats ≡ self.old.seats }
    {
        self.kernel.pick(to)
    }

    /// States what a stop leaves of a client's regions now.
    pub fn left_now(&self, number: u32)
        requires client { IsClient number }
        ensures leaves { HasSeat self.now number (SeatLeaves M.Media) }
        ensures whose { HasSeat self.now number (λ s. number_of s ≡ number) }
    {
        self.seats[client_index(number)].left_now();
    }

    /// Has two clients meet: of each inode one of them writes and the other holds nothing, or neither writes. It reads one word of the table of leases, and changes nothing.
    pub fn meet(&mut self, low: u32, high: u32)
        requires clients { IsClient low × IsClient high × (low < high) }
        ensures same { self.new ≡ self.old }
        ensures leases { HasSeat self.old low (λ s. HasSeat self.old high (λ t. AreCompatible s.client.pass.part t.client.pass.part)) }
    {
        meet_in(&mut self.seats, client_index(low), client_index(high));
    }

    // The seat of a client.
    fn seat(&self, number: u32) -> Option<&ClientSlot<M>>
        ensures there { IfSome result (λ s. IsClient number × (seat_of self.now number ≡ Some s.now)) }
        ensures none { IfNone result (IsClient number → ⊥) }
    {
        if !is_client(number) {
            return None;
        }
        Some(&self.seats[client_index(number)])
    }
}

impl<M: Media> System<M> {
    /// The system of a kernel and of the seats of clients 1 to 8, in the order of their numbers, whose passes are of one table of leases. All is given back where they are of others.
    pub fn new(
        alloc: Global,
        kernel: Kernel<M>,
        seats: Vec<ClientSlot<M>>,
    ) -> Result<Self, (Kernel<M>, Vec<ClientSlot<M>>)>
        requires table { (table : TableId) × AreOfTable table seats.items }
        ensures kernel { IfOk result (λ w. w.kernel ≡ kernel) }
        ensures seats { IfOk result (λ w. w.seats ≡ seats.items) }
        ensures right { OnOk result (AreSeats seats.items) }
        ensures others { OnErr result (AreSeats seats.items → ⊥) }
        ensures back { IfErr result (λ e. (e.0 ≡ kernel) × (e.1.items ≡ seats.items)) }
    {
        if !are_in_order(&seats) {
            return Err((kernel, seats));
        }
        Ok(System {
            alloc,
            kernel,
            seats,
        })
    }
}

impl<M: Media> System<M> {
    /// The kernel, and the seats of clients 1 to 8, in the order of their numbers.
    pub fn into_parts(self) -> (Kernel<M>, Vec<ClientSlot<M>>)
        ensures kernel { result.0 ≡ self.kernel }
        ensures seats { result.1.items ≡ self.seats }
        ensures right { AreSeats self.seats }
    {
        (self.kernel, self.seats)
    }
}

// Whether these are the seats of clients 1 to 8.
fn are_in_order<M: Media>(seats: &[ClientSlot<M>]) -> bool
    requires { (table : TableId) × AreOfTable table seats.now }
    ensures { IsTrue result ↔ AreSeats seats.now }
{
    if seats.len() != CLIENTS {
        return false;
    }
    are_numbered(seats)
}

// Whether they are of the clients from 1 on, in the order of their numbers.
fn are_numbered<M: Media>(seats: &[ClientSlot<M>]) -> bool
    requires { length seats.now ≡ 8 }
    ensures { IsTrue result ↔ AreFrom 1 seats.now }
{
    let mut number = 1;
    'seats: for seat in seats {
        if seat.number() != number {
            return false;
        }
        number += 1;
    }
    true
}

// Has the clients of two seats meet.
fn meet_in<M: Media>(seats: &mut [ClientSlot<M>], low: usize, high: usize)
    requires order { low < high }
    requires there { high < length seats.old }
    requires table { (table : TableId) × AreOfTable table seats.old }
    ensures same { seats.new ≡ seats.old }
    ensures leases { (s t : SeatView M) → slice_get seats.old low ≡ Some s → slice_get seats.old high ≡ Some t → AreCompatible s.client.pass.part t.client.pass.part }
{
    let (before, from) = seats.split_at_mut(high);
    let one = &mut before[low];
    match from.first_mut() {
        Some(other) => one.client.meet(&mut other.client),
        None => unreachable!(),
    }
}
