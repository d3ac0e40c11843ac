//! What a client in a thread left that died, and its burial.
ghost use Rattle.std.specs.Prelude.{◌≡◌, ◌++◌, ◌↔◌, [], true, false, IfErr, IfOk, IfSome, IsOk, IsTrue, OnErr, OnOk, None, Ok, Some};
ghost use Rattle.libfs.specs.client_log.Steps.{CanBeSealed};
ghost use Rattle.libfs.specs.client_log.View.{current_records};
ghost use Rattle.libfs.specs.client_log.declared.error.LogError.TheVariants.{DeviceFault};
ghost use Rattle.libfs.specs.ClientEnd.{Buries, CanBeRenewed, IsRenewed, Settles};
ghost use Rattle.libfs.specs.Lives.{is_buried, is_settled, life_buried, life_settled};
ghost use Rattle.libfs.specs.declared.life.Life.TheVariants as lives;
ghost use Rattle.libfs.specs.kernel_fs.KernelView.{KernelView};
ghost use Rattle.strata_threads.specs.ClientCalls.{KeepsCall};
ghost use Rattle.strata_threads.specs.LeaseReturn.{KeepsLeases};
ghost use Rattle.strata_threads.specs.RegionHandover.{HandsOver, HasComeBack, HasLookedForRegion, HasReceived};
ghost use Rattle.strata_threads.specs.RegionWipe.{IsAllWiped};

use crate::region_ends::RegionEnds;
use crate::shared_kernel::SharedKernel;
use crate::thread_client::ThreadClient;
use libfs::in_client_log::LogError;
use libfs::in_kernel_fs::Kernel;
use libfs::{BuryError, Client, Fate, Remains, SealedRegion};
use std::alloc::AllocError;
use std::sync::Wait;
use std::thread;
use tier_device::Media;

// A wipe makes four device calls, and a client has two regions; once more, to see that nothing is left.
const WIPE_LOOKS: u32 = 9;

/// What a client left that died, with its ends of the two queues. To bury it: `settle`, `clear_log`, `bury`, `wipe`, and then a new client goes on in its seat by `into_client`.
#[derive(Drop)]
pub struct ThreadRemains<M: Media + Drop> {
    pub(crate) remains: Remains<M>,
    pub(crate) ends: RegionEnds<M>,
}

impl<M: Media + Drop> ThreadRemains<M> {
    /// What is left of the client, and how far its end has come.
    pub fn remains(&self) -> &Remains<M>
        ensures { result.now ≡ self.now.remains }
    {
        &self.remains
    }

    /// Finds what became of the call that waited for its answer as the client died, by one device call, and closes all that it had open; where no call waited it makes no device call. A device that fails leaves it dead for good. It takes no memory.
    pub fn settle(&mut self) -> Result<Fate, LogError>
        requires { self.old.remains.life ≡ lives.Dead }
        ensures settles { Settles M.Media self.old.remains.client result self.new.remains.client }
        ensures life { self.new.remains.life ≡ life_settled result }
        ensures ends { self.new.ends ≡ self.old.ends }
    {
        self.remains.settle()
    }

    /// Has all that the client logged digested, in at most `rounds` rounds: its region is taken back once a worker has digested it, and the current one is handed over. It answers whether no record is left that is not
    /// known to be digested. A record that is begun stays so, and nothing is handed over then: a client whose call waited is settled before. Its leases stay.
    pub fn clear_log<R: Wait>(&mut self, rt: &R, shared: &SharedKernel<M>, rounds: u64) -> bool
        ensures cleared { IsTrue result ↔ (self.new.remains.client.sealed ++ current_records M.Media self.new.remains.client.log ≡ []) }
        ensures kept { KeepsCall self.old.remains.client self.new.remains.client }
        ensures leases { KeepsLeases self.old.remains.client self.new.remains.client }
        ensures life { self.new.remains.life ≡ self.old.remains.life }
    {
        for round in 0..rounds {
            self.take_back(rt, shared);
            if self.is_clear() {
                return true;
            }
            let _ = self.hand_over(rt, shared);
            thread::yield_now();
        }
        self.is_clear()
    }

    // Takes the region back that came by the queue, if one is away. One that the queue to the workers had no room for goes first.
    fn take_back<R: Wait>(&mut self, rt: &R, shared: &SharedKernel<M>)
        ensures back { HasComeBack M.Media self.old.remains.client self.new.remains.client }
        ensures looked { self.old.remains.client.log.other ≡ None → self.old.ends.kept ≡ None → HasLookedForRegion M.Media self.old.remains.client self.old.ends.tasks self.old.ends.returns self.new.remains.client self.new.ends.tasks self.new.ends.returns self.new.ends.kept }
        ensures kept { KeepsCall self.old.remains.client self.new.remains.client }
        ensures leases { KeepsLeases self.old.remains.client self.new.remains.client }
        ensures life { self.new.remains.life ≡ self.old.remains.life }
    {
        if !self.remains.is_region_away() {
            return;
        }
        match self.ends.take(rt, shared) {
            Some(region) => self.receive(rt, shared, region),
            None => {}
        }
    }

    // Takes a region back that is digested whole; any other one goes to the workers once more.
    fn receive<R: Wait>(&mut self, rt: &R, shared: &SharedKernel<M>, region: SealedRegion<M>)
        requires free { self.old.ends.kept ≡ None }
        ensures received { HasReceived M.Media self.old.remains.client self.old.ends.tasks region self.new.remains.client self.new.ends.tasks self.new.ends.kept }
        ensures returns { self.new.ends.returns ≡ self.old.ends.returns }
        ensures kept { KeepsCall self.old.remains.client self.new.remains.client }
        ensures leases { KeepsLeases self.old.remains.client self.new.remains.client }
        ensures life { self.new.remains.life ≡ self.old.remains.life }
    {
        match self.remains.take_back(region) {
            Ok(()) => {}
            Err(region) => self.ends.send(rt, shared, region),
        }
    }

    // Seals the current region and sends it to the workers, where it has records and no other one is away. An error is want of memory, with nothing changed.
    fn hand_over<R: Wait>(&mut self, rt: &R, shared: &SharedKernel<M>) -> Result<(), AllocError>
        ensures handed { OnOk result (HandsOver M.Media self.old.ends.kept self.old.remains.client self.old.ends.tasks self.new.remains.client self.new.ends.tasks self.new.ends.kept) }
        ensures memory { OnErr result (CanBeSealed M.Media self.old.remains.client.log × (self.new.remains ≡ self.old.remains) × (self.new.ends ≡ self.old.ends)) }
        ensures returns { self.new.ends.returns ≡ self.old.ends.returns }
        ensures kept { KeepsCall self.old.remains.client self.new.remains.client }
        ensures leases { KeepsLeases self.old.remains.client self.new.remains.client }
        ensures life { self.new.remains.life ≡ self.old.remains.life }
    {
        if self.ends.kept.is_some() {
            return Ok(());
        }
        match self.remains.seal()? {
            Some(region) => {
                self.ends.send(rt, shared, region);
                Ok(())
            }
            None => Ok(()),
        }
    }

    // Whether each record that the client logged is known to be digested.
    fn is_clear(&self) -> bool
        ensures { IsTrue result ↔ (self.now.remains.client.sealed ++ current_records M.Media self.now.remains.client.log ≡ []) }
    {
        self.remains.undigested() == 0
    }

    /// Drops all that the client had of the kernel, under the lock, and gives its leases: then it is buried. It takes no memory.
    ///
    /// Refused, with nothing changed of client and kernel: `NotDigested`, with their number, exactly where records are undigested or in a region that is not back; else `KernelFailed`, exactly where a device of the kernel
    /// has failed.
    pub fn bury<R: Wait>(&mut self, rt: &R, shared: &SharedKernel<M>) -> Result<(), BuryError>
        requires { is_settled self.old.remains.life ≡ true }
        ensures buries { (kernel : KernelView M) × (after : KernelView M) × Buries M.Media M.Media kernel self.old.remains.client result self.new.remains.client after }
        ensures life { self.new.remains.life ≡ life_buried self.old.remains.life result }
        ensures ends { self.new.ends ≡ self.old.ends }
    {
        let mut kernel = shared.lock(rt);
        bury_in(&mut self.remains, &mut *kernel)
    }

    /// Wipes what is to be wiped of the regions that are here. It answers whether it saw that nothing is left to be wiped, and takes no memory.
    ///
    /// Refused only where a device of its regions failed: then it has failed.
    pub fn wipe(&mut self) -> Result<bool, LogError>
        ensures wiped { IfOk result (λ all. all ≡ true → IsAllWiped self.new.remains.client.log) }
        ensures sound { OnOk result (self.old.remains.client.log.failed ≡ false) }
        ensures failed { OnErr result (self.new.remains.client.log.failed ≡ true) }
        ensures only { IfErr result (λ e. e ≡ DeviceFault) }
        ensures nothing { IsAllWiped self.old.remains.client.log → (result ≡ Ok true) × (self.new.remains ≡ self.old.remains) }
        ensures rest { self.new.remains ≡ record self.old.remains { client = record self.old.remains.client { log = self.new.remains.client.log } } }
        ensures ends { self.new.ends ≡ self.old.ends }
    {
        for look in 0..WIPE_LOOKS {
            match self.remains.wipe_step() {
                Ok(Some(_)) => {}
                Ok(None) => return Ok(true),
                Err(error) => return Err(error),
            }
        }
        Ok(false)
    }

    /// A new client in the seat of one that is buried, once both of its regions are here and wiped. It has made no call. It takes no memory.
    ///
    /// Refused, with the remains given back as they are, exactly where they are not buried, a region is away or not wiped, a record is in one or begun, or a device has failed.
    pub fn into_client(self) -> Result<ThreadClient<M>, Self>
        ensures exact { IsOk result ↔ ((is_buried self.remains.life ≡ true) × CanBeRenewed M.Media self.remains.client.log) }
        ensures joined { IfOk result (λ client. IsRenewed self.remains.client client.client × (client.ends ≡ self.ends)) }
        ensures back { IfErr result (λ left. left ≡ self) }
    {
        let ThreadRemains { remains, ends } = self;
        match Client::join(remains) {
            Ok(client) => Ok(ThreadClient::new(client, ends)),
            Err(remains) => Err(ThreadRemains { remains, ends }),
        }
    }

    /// What is left of the client, and its region that is on the way back, if it is here: the one that came by the queue, or that the queue to the workers had no room for.
    pub fn into_parts<R: Wait>(self, rt: &R) -> (Remains<M>, Option<SealedRegion<M>>)
        ensures remains { result.0 ≡ self.remains }
        ensures region { IfSome self.ends.kept (λ region. result.1 ≡ Some region) }
    {
        let ThreadRemains { remains, ends } = self;
        (remains, ends.into_region(rt))
    }
}

// Drops all that a client had of a kernel that is lent.
fn bury_in<M: Media>(remains: &mut Remains<M>, kernel: &mut Kernel<M>) -> Result<(), BuryError>
    requires { is_settled remains.old.life ≡ true }
    ensures buries { Buries M.Media M.Media kernel.old remains.old.client result remains.new.client kernel.new }
    ensures life { remains.new.life ≡ life_buried remains.old.life result }
{
    remains.bury(kernel)
}
