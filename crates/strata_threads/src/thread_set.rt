//! A kernel and its clients are shared out to threads.
ghost use Rattle.std.specs.Prelude.{◌≡◌, ◌≤◌, ◌<◌, ◌↔◌, ◌+◌, ◌++◌, ◌∷◌, false, length, map, min, [], IfErr, IfOk, IsTrue, OnOk};
ghost use Rattle.std.specs.Vec.{vec_len, vec_capacity};
ghost use Rattle.libfs.specs.View.{is_pending};
ghost use Rattle.libfs.specs.lease_manager.Passes.{client_of};
ghost use Rattle.strata_threads.specs.SharedClients.{AreIdleFrom, CanBeShared, ShareTable};
ghost use Rattle.strata_threads.specs.declared.thread_set.ShareError.TheVariants.{Clients, Memory};

use crate::region_ends::RegionEnds;
use crate::shared_kernel::SharedKernel;
use crate::thread_client::ThreadClient;
use crate::worker::Worker;
use handoff::QueueEnd;
use libfs::in_kernel_fs::Kernel;
use libfs::in_lease_manager::CLIENTS;
use libfs::{Client, SealedRegion};
use std::alloc::{AllocError, AllocFailed, Global};
use tier_device::Media;

/// What threads are given: the kernel under its lock, the clients, and workers.
#[derive(Drop)]
pub struct ThreadSet<M: Media + Drop> {
    pub shared: SharedKernel<M>,
    pub clients: Vec<ThreadClient<M>>,
    pub workers: Vec<Worker<M>>,
}

/// Why a kernel and its clients can't be shared out.
#[derive(Clone, Copy, Debug, PartialEq, Eq)]
pub enum ShareError {
    /// They are not clients 1, 2 and so on in their order, or a call of one waits for its answer.
    Clients,
    /// There was no memory.
    Memory,
}

impl From<AllocError> for ShareError {
    fn from(_e: AllocError) -> ShareError {
        ShareError::Memory
    }
}

impl<T: Drop> From<AllocFailed<T>> for ShareError {
    fn from(_e: AllocFailed<T>) -> ShareError {
        ShareError::Memory
    }
}

type End<M> = QueueEnd<SealedRegion<M>>;

// What threads are given beside kernel and clients: of each client its ends of the queue to the workers and of the one back to it, those of client 1 last; room for the clients; and the workers.
#[derive(Drop)]
struct Ends<M: Media + Drop> {
    pairs: Vec<(End<M>, End<M>)>,
    room: Vec<ThreadClient<M>>,
    workers: Vec<Worker<M>>,
}

impl<M: Media + Drop> ThreadSet<M> {
    /// Shares a kernel and clients out, the clients 1, 2 and so on in their order, 8 at most, with `workers` workers, 8 at most. A region that is away stays so. They share a table of leases: a client of another one would see no mark of theirs.
    ///
    /// Refused with `Clients` exactly where they are not these, or a call of one waits for its answer; else only with `Memory`. Kernel and clients are given back then.
    pub fn open(
        alloc: Global,
        kernel: Kernel<M>,
        clients: Vec<Client<M>>,
        workers: usize,
    ) -> Result<ThreadSet<M>, (ShareError, Kernel<M>, Vec<Client<M>>)>
        requires table { ShareTable clients.items }
        ensures clients { IfOk result (λ set. map (λ c. c.client) set.clients.items ≡ clients.items) }
        ensures workers { IfOk result (λ set. length set.workers.items ≡ min workers 8) }
        ensures can { OnOk result (CanBeShared clients.items) }
        ensures others { IfErr result (λ e. (e.0 ≡ Clients) ↔ (CanBeShared clients.items → ⊥)) }
        ensures back { IfErr result (λ e. (e.1 ≡ kernel) × (e.2.items ≡ clients.items)) }
    {
        if can_be_shared(&clients) {
            share_out(alloc, kernel, clients, workers)
        } else {
            Err((ShareError::Clients, kernel, clients))
        }
    }
}

// Shares out a kernel and clients that can be shared. It is refused only for want of memory.
fn share_out<M: Media + Drop>(
    alloc: Global,
    kernel: Kernel<M>,
    clients: Vec<Client<M>>,
    workers: usize,
) -> Result<ThreadSet<M>, (ShareError, Kernel<M>, Vec<Client<M>>)>
    requires can { CanBeShared clients.items }
    ensures clients { IfOk result (λ set. map (λ c. c.client) set.clients.items ≡ clients.items) }
    ensures workers { IfOk result (λ set. length set.workers.items ≡ min workers 8) }
    ensures memory { IfErr result (λ e. e.0 ≡ Memory) }
    ensures back { IfErr result (λ e. (e.1 ≡ kernel) × (e.2.items ≡ clients.items)) }
{
    match Ends::open(alloc, clients.len(), workers) {
        Ok(ends) => {
            let Ends {
                pairs,
                room,
                workers,
            } = ends;
            Ok(ThreadSet {
                shared: SharedKernel::new(kernel),
                clients: seat_clients(clients, pairs, room),
                workers,
            })
        }
        Err(_) => Err((ShareError::Memory, kernel, clients)),
    }
}

// Whether they are clients 1, 2 and so on, 8 at most, and no call of one waits for its answer.
fn can_be_shared<M: Media>(clients: &[Client<M>]) -> bool
    ensures { IsTrue result ↔ CanBeShared clients.now }
{
    if clients.len() > 8 {
        return false;
    }
    are_idle_in_order(clients)
}

// The same of eight at most.
fn are_idle_in_order<M: Media>(clients: &[Client<M>]) -> bool
    requires few { length clients.now ≤ 8 }
    ensures { IsTrue result ↔ AreIdleFrom 1 clients.now }
{
    let mut number = 1;
    'clients: for client in clients {
        if is_idle_as(client, number) {
            number += 1;
        } else {
            return false;
        }
    }
    true
}

// Whether it is the client of a number, and no call of it waits for its answer.
fn is_idle_as<M: Media>(client: &Client<M>, number: usize) -> bool
    ensures { IsTrue result ↔ (client_of client.now.pass ≡ number) × (is_pending client.now ≡ false) }
{
    client.client() as usize == number && !client.is_pending()
}

impl<M: Media + Drop> Ends<M> {
    // The ends for `clients` clients, 8 at most, and workers.
    fn open(alloc: Global, clients: usize, workers: usize) -> Result<Self, ShareError>
        requires few { clients ≤ 8 }
        ensures enough { IfOk result (λ ends. clients ≤ length ends.pairs.items) }
        ensures empty { IfOk result (λ ends. ends.room.items ≡ []) }
        ensures room { IfOk result (λ ends. clients ≤ vec_capacity ends.room) }
        ensures workers { IfOk result (λ ends. length ends.workers.items ≡ min workers 8) }
    {
        let mut tasks = QueueEnd::open(alloc)?;
        let mut returns = return_ends(alloc)?;
        let pairs = take_pairs(alloc, &mut tasks, &mut returns)?;
        let workers = open_workers(alloc, workers.min(8), &mut tasks, &mut returns)?;
        let room = room_for(alloc, clients)?;
        Ok(Ends {
            pairs,
            room,
            workers,
        })
    }
}

// No clients, with room for `clients`.
fn room_for<M: Media + Drop>(
    alloc: Global,
    clients: usize,
) -> Result<Vec<ThreadClient<M>>, AllocError>
    ensures empty { IfOk result (λ room. room.items ≡ []) }
    ensures room { IfOk result (λ room. clients ≤ vec_capacity room) }
{
    let mut room = Vec::new(alloc);
    room.reserve(clients)?;
    Ok(room)
}

// The ends of the queues back to each client.
fn return_ends<M: Media + Drop>(alloc: Global) -> Result<Vec<Vec<End<M>>>, AllocError> {
    let mut returns = Vec::new(alloc);
    for client in 0..CLIENTS {
        returns.push(QueueEnd::open(alloc)?)?;
    }
    Ok(returns)
}

// The ends of each client, those of client 1 last. Each queue has 17 ends, one for each client, one for each worker, and one more: none is wanting.
fn take_pairs<M: Media + Drop>(
    alloc: Global,
    tasks: &mut Vec<End<M>>,
    returns: &mut Vec<Vec<End<M>>>,
) -> Result<Vec<(End<M>, End<M>)>, ShareError>
    ensures { IfOk result (λ pairs. length pairs.items ≡ 8) }
{
    let mut pairs = Vec::new(alloc);
    for before in 0..CLIENTS {
        let (Some(task), Some(back)) = (tasks.pop(), pop_of(returns, CLIENTS - before)) else {
            return Err(ShareError::Memory);
        };
        pairs.push((task, back))?;
    }
    Ok(pairs)
}

// An end of the queue back to a client.
fn pop_of<M: Media + Drop>(returns: &mut Vec<Vec<End<M>>>, number: u32) -> Option<End<M>>
    requires { 0 < number }
{
    returns.get_mut(number as usize - 1)?.pop()
}

// Opens `count` workers.
fn open_workers<M: Media + Drop>(
    alloc: Global,
    count: usize,
    tasks: &mut Vec<End<M>>,
    returns: &mut Vec<Vec<End<M>>>,
) -> Result<Vec<Worker<M>>, ShareError>
    ensures { IfOk result (λ workers. length workers.items ≡ count) }
{
    let mut workers = Vec::new(alloc);
    for before in 0..count {
        workers.push(open_worker(alloc, tasks, returns)?)?;
    }
    Ok(workers)
}

// A worker, which gets an end of each queue.
fn open_worker<M: Media + Drop>(
    alloc: Global,
    tasks: &mut Vec<End<M>>,
    returns: &mut Vec<Vec<End<M>>>,
) -> Result<Worker<M>, ShareError> {
    let Some(tasks) = tasks.pop() else {
        return Err(ShareError::Memory);
    };
    let returns = ends_of(alloc, returns)?;
    if returns.len() != 8 {
        return Err(ShareError::Memory);
    }
    Ok(Worker {
        alloc,
        tasks,
        returns,
    })
}

// An end of the queue back to each client.
fn ends_of<M: Media + Drop>(
    alloc: Global,
    returns: &mut Vec<Vec<End<M>>>,
) -> Result<Vec<End<M>>, ShareError> {
    let mut ends = Vec::new(alloc);
    for queue in returns {
        if let Some(end) = queue.pop() {
            ends.push(end)?;
        }
    }
    Ok(ends)
}

// Gives each client its ends. They are put into the vector, which has room for them.
fn seat_clients<M: Media + Drop>(
    clients: Vec<Client<M>>,
    pairs: Vec<(End<M>, End<M>)>,
    room: Vec<ThreadClient<M>>,
) -> Vec<ThreadClient<M>>
    requires idle { AreIdleFrom 1 clients.items }
    requires enough { vec_len clients ≤ vec_len pairs }
    requires empty { room.items ≡ [] }
    requires room { vec_len clients ≤ vec_capacity room }
    ensures { map (λ c. c.client) result.items ≡ clients.items }
{
    let (mut pairs, mut seated) = (pairs, room);
    for client in clients {
        seat_client(&mut seated, &mut pairs, client);
    }
    seated
}

// Gives a client the last pair of ends, and puts it behind the others.
fn seat_client<M: Media + Drop>(
    seated: &mut Vec<ThreadClient<M>>,
    pairs: &mut Vec<(End<M>, End<M>)>,
    client: Client<M>,
)
    requires idle { is_pending client ≡ false }
    requires enough { 0 < vec_len pairs.old }
    requires room { vec_len seated.old < vec_capacity seated.old }
    ensures seated { map (λ c. c.client) seated.new.items ≡ map (λ c. c.client) seated.old.items ++ client ∷ [] }
    ensures length { vec_len seated.new ≡ vec_len seated.old + 1 }
    ensures fewer { vec_len pairs.new + 1 ≡ vec_len pairs.old }
    ensures capacity { vec_capacity seated.old ≤ vec_capacity seated.new }
{
    let Some((tasks, returns)) = pairs.pop() else {
        unreachable!();
    };
    match seated.push(ThreadClient::new(client, RegionEnds::new(tasks, returns))) {
        Ok(()) => {}
        Err(_) => unreachable!(),
    }
}
