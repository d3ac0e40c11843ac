//! What is asked of a world, and changes nothing of its tree.

ghost use Rattle.std.specs.Prelude.{◌≡◌, ◌-◌, ◌*◌, length, min, ◌&&◌, if◌then◌else◌, nat_le, ℕ, IfErr, IfOk, IfSome, OnErr, Some, slice_get, true};
ghost use Rattle.interleavings.specs.Leases.{lease_in};
ghost use Rattle.system_laws.specs.lease_manager.Passes.{lease_of};
ghost use Rattle.system_laws.specs.lease_manager.declared.view.LeaseMode.TheVariants.{Free};
ghost use Rattle.posix_calls.specs.Operations.{is_client};
ghost use Rattle.system_laws.specs.call_effects.NodeView.{view_at};
ghost use Rattle.system_laws.specs.kernel_fs.KernelAnswers.{Answers, OnRefusal};
ghost use Rattle.system_laws.specs.kernel_fs.MachineState.{IsMarkIn};
ghost use Rattle.system_laws.specs.area_reader.declared.error.AreaError.TheVariants.{Memory};
ghost use Rattle.system_laws.specs.area_reader.Looks.{Looks};
ghost use Rattle.system_laws.specs.area_reader.Map.{WantsMemory};
ghost use Rattle.system_laws.specs.area_reader.Store.{disk, graph};
ghost use Rattle.system_laws.specs.shared_area.FileReads.{bytes_of_inode, IsReadFrom};
ghost use Rattle.system_laws.specs.shared_area.Parts.{IsNoDamage, IsTierOf};
ghost use Rattle.system_laws.specs.migrator.RunChoice.{IsPicked, MayBeMoved};
ghost use Rattle.posix_calls.specs.declared.limits.TheConstants.{UNIT_BYTES};
ghost use Rattle.system_laws.specs.WorldTree.{world_tree};

use crate::look_laws::looked_system_stands_for_a_world;
use crate::stops::left_now;
use crate::world::World;
use system_laws::in_area_reader::AreaError;
use system_laws::in_event_steps::System;
use system_laws::in_kernel_fs::{Fetched, FetchedBytes, KernelError};
use system_laws::in_lease_manager::{INODES, LeaseMode};
use system_laws::in_libfs::Client;
use system_laws::in_migrator::FileRun;
use tier_device::{Media, Tier};

impl<M: Media> World<M> {
    /// What stands at an inode of the shared graph, as client 1 would fetch it. `Failed` exactly where a device of the kernel has failed; else refused as `Kernel::fetch` is, and never for damage.
    pub fn look(&mut self, inode: u32) -> Result<Fetched, KernelError<AreaError>>
        ensures node { IfOk result (λ x. x.node ≡ view_at (graph self.old.system.kernel.area.geometry (disk M.Media self.old.system.kernel.area)) inode) }
        ensures mark { IfOk result (λ x. IsMarkIn (disk M.Media self.old.system.kernel.area) 1 x.mark) }
        ensures only { IfErr result (λ e. OnRefusal e IsNoDamage) }
        ensures memory { IfErr result (λ e. OnRefusal e (λ r. r ≡ Memory → WantsMemory self.old.system.kernel.area.geometry (disk M.Media self.old.system.kernel.area) inode)) }
        ensures looks { Answers self.old.system.kernel.area.failed self.old.system.kernel self.new.system.kernel result (Looks M.Media self.old.system.kernel.area self.new.system.kernel.area) }
        ensures book { self.new.system.kernel.book ≡ self.old.system.kernel.book }
        ensures opening { self.new.system.kernel.opening ≡ self.old.system.kernel.opening }
        ensures seats { self.new.system.seats ≡ self.old.system.seats }
        ensures calls { self.new.calls ≡ self.old.calls }
        ensures tree { world_tree M.Media self.new ≡ world_tree M.Media self.old }
    {
        // For the proof: what a stop leaves now, and that a system that was only looked at stands for the same world.
        left_now(&self.system);
        let found = self.system.look(inode);
        looked_system_stands_for_a_world::<M, Fetched>();
        found
    }

    /// Bytes of a file of the shared graph from a logical block on, into the front of the buffer, as many as the file and the buffer have. Refused as `Kernel::blocks` is, and never for damage.
    pub fn read_file(
        &mut self,
        inode: u32,
        first: u32,
        out: &mut [u8],
    ) -> Result<FetchedBytes, KernelError<AreaError>>
        ensures mark { IfOk result (λ x. IsMarkIn (disk M.Media self.old.system.kernel.area) 1 x.mark) }
        ensures count { IfOk result (λ x. x.count ≡ min (length out.old) (length (bytes_of_inode (graph self.old.system.kernel.area.geometry (disk M.Media self.old.system.kernel.area)) inode) - UNIT_BYTES * first)) }
        ensures bytes { IfOk result (λ x. IsReadFrom (bytes_of_inode (graph self.old.system.kernel.area.geometry (disk M.Media self.old.system.kernel.area)) inode) (UNIT_BYTES * first) x.count out.old out.new) }
        ensures refused { OnErr result ((n : ℕ) × IsReadFrom (bytes_of_inode (graph self.old.system.kernel.area.geometry (disk M.Media self.old.system.kernel.area)) inode) (UNIT_BYTES * first) n out.old out.new) }
        ensures only { IfErr result (λ e. OnRefusal e IsNoDamage) }
        ensures memory { IfErr result (λ e. OnRefusal e (λ r. r ≡ Memory → WantsMemory self.old.system.kernel.area.geometry (disk M.Media self.old.system.kernel.area) inode)) }
        ensures looks { Answers self.old.system.kernel.area.failed self.old.system.kernel self.new.system.kernel result (Looks M.Media self.old.system.kernel.area self.new.system.kernel.area) }
        ensures book { self.new.system.kernel.book ≡ self.old.system.kernel.book }
        ensures opening { self.new.system.kernel.opening ≡ self.old.system.kernel.opening }
        ensures seats { self.new.system.seats ≡ self.old.system.seats }
        ensures calls { self.new.calls ≡ self.old.calls }
        ensures tree { world_tree M.Media self.new ≡ world_tree M.Media self.old }
    {
        // For the proof: what a stop leaves now, and that a system that was only looked at stands for the same world.
        left_now(&self.system);
        let found = self.system.read_file(inode, first, out);
        looked_system_stands_for_a_world::<M, FetchedBytes>();
        found
    }

    /// The tier that has a logical block of an inode of the shared graph; `None` where no tier does, or there is no such inode. Refused as `Kernel::tier_of` is, and never for damage.
    pub fn tier_of(
        &mut self,
        inode: u32,
        block: u64,
    ) -> Result<Option<Tier>, KernelError<AreaError>>
        ensures tier { IfOk result (IsTierOf self.old.system.kernel.area.geometry (disk M.Media self.old.system.kernel.area) inode block) }
        ensures only { IfErr result (λ e. OnRefusal e IsNoDamage) }
        ensures memory { IfErr result (λ e. OnRefusal e (λ r. r ≡ Memory → WantsMemory self.old.system.kernel.area.geometry (disk M.Media self.old.system.kernel.area) inode)) }
        ensures looks { Answers self.old.system.kernel.area.failed self.old.system.kernel self.new.system.kernel result (Looks M.Media self.old.system.kernel.area self.new.system.kernel.area) }
        ensures book { self.new.system.kernel.book ≡ self.old.system.kernel.book }
        ensures opening { self.new.system.kernel.opening ≡ self.old.system.kernel.opening }
        ensures seats { self.new.system.seats ≡ self.old.system.seats }
        ensures calls { self.new.calls ≡ self.old.calls }
        ensures tree { world_tree M.Media self.new ≡ world_tree M.Media self.old }
    {
        // For the proof: what a stop leaves now, and that a system that was only looked at stands for the same world.
        left_now(&self.system);
        let found = self.system.tier_of(inode, block);
        looked_system_stands_for_a_world::<M, Option<Tier>>();
        found
    }

    /// Picks the run that is to be moved to a tier next, as `Kernel::pick` does; it changes nothing. Refused as that is, and never for damage.
    pub fn pick(&mut self, to: Tier) -> Result<Option<FileRun>, KernelError<AreaError>>
        ensures picked { IfOk result (IsPicked self.old.system.kernel.area.geometry (disk M.Media self.old.system.kernel.area) to) }
        ensures may_be_moved { IfOk result (λ x. IfSome x (MayBeMoved self.old.system.kernel.area.geometry (disk M.Media self.old.system.kernel.area) to)) }
        ensures only { IfErr result (λ e. OnRefusal e IsNoDamage) }
        ensures memory { IfErr result (λ e. OnRefusal e (λ r. r ≡ Memory → (i : ℕ) × WantsMemory self.old.system.kernel.area.geometry (disk M.Media self.old.system.kernel.area) i)) }
        ensures looks { Answers self.old.system.kernel.area.failed self.old.system.kernel self.new.system.kernel result (Looks M.Media self.old.system.kernel.area self.new.system.kernel.area) }
        ensures book { self.new.system.kernel.book ≡ self.old.system.kernel.book }
        ensures opening { self.new.system.kernel.opening ≡ self.old.system.kernel.opening }
        ensures seats { self.new.system.seats ≡ self.old.system.seats }
        ensures calls { self.new.calls ≡ self.old.calls }
        ensures tree { world_tree M.Media self.new ≡ world_tree M.Media self.old }
    {
        // For the proof: what a stop leaves now, and that a system that was only looked at stands for the same world.
        left_now(&self.system);
        let found = self.system.pick(to);
        looked_system_stands_for_a_world::<M, Option<FileRun>>();
        found
    }
}

impl<M: Media + Drop> World<M> {
    // How a client stands to an inode.
    fn lease(&self, client: u32, inode: u32) -> LeaseMode
        ensures { result ≡ lease_in self.now.system client inode }
    {
        lease_in(&self.system, client, inode)
    }

    /// How each client stands to an inode, client 1 first; all `Free` where there is no such inode.
    pub fn holders(&self, inode: u32) -> [LeaseMode; 8]
        ensures holders { (c : ℕ) → is_client c ≡ true → slice_get result (c - 1) ≡ Some (lease_in self.now.system c inode) }
    {
        [
            self.lease(1, inode),
            self.lease(2, inode),
            self.lease(3, inode),
            self.lease(4, inode),
            self.lease(5, inode),
            self.lease(6, inode),
            self.lease(7, inode),
            self.lease(8, inode),
        ]
    }
}

/// How a client of a system stands to an inode; `Free` where there is no such client or no such inode.
pub fn lease_in<M: Media>(system: &System<M>, client: u32, inode: u32) -> LeaseMode
    ensures { result ≡ lease_in system.now client inode }
{
    match system.client(client) {
        Some(client) => lease_on(client, inode),
        None => LeaseMode::Free,
    }
}

// How a client stands to an inode; `Free` where there is no such inode.
fn lease_on<M: Media>(client: &Client<M>, inode: u32) -> LeaseMode
    ensures { result ≡ (if nat_le 1 inode && nat_le inode 1024 then lease_of client.now.pass inode else Free) }
{
    if 1 <= inode && inode <= INODES {
        client.holds(inode)
    } else {
        LeaseMode::Free
    }
}
