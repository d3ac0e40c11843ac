// What the kernel grants its clients, takes back and pins.
ghost use Rattle.std.specs.Prelude.{◌≡◌, ◌↔◌, ◌≤◌, ◌<◌, ◌+◌, ◌-◌, min, true, false, Err, OnOk, OnErr, IfOk, IsErrOf};
ghost use Rattle.posix_calls.specs.Operations.{is_client};
ghost use Rattle.world_invariant.specs.file_graph.Units.{charge};
ghost use Rattle.migrator.specs.area_reader.Store.{disk, graph};
ghost use Rattle.world_invariant.specs.Machine.{Machine, book_pin, unbook_pin, bury as buried};
ghost use Rattle.kernel_fs.specs.Book.{units_of, out_of, is_free, IsBookOf};
ghost use Rattle.kernel_fs.specs.Free.{AreLowest, count_of};
ghost use Rattle.kernel_fs.specs.Inodes.{IsInode, has};
ghost use Rattle.kernel_fs.specs.Nodes.{nodes_in};
ghost use Rattle.kernel_fs.specs.Steps.{grant as granted, take_back as taken_back};
ghost use Rattle.kernel_fs.specs.declared.book_error.RefillError.TheVariants.{NoUnits, NoInode};
ghost use Rattle.kernel_fs.specs.MachineState.{IsKernelOf};
ghost use Rattle.kernel_fs.specs.declared.error.KernelError.TheVariants.{Failed, Refused};

use crate::error::{KernelError, KernelFailed};
use crate::{InodeSet, Kernel, RefillError, UnitUse};
use digester::capacity_of;
use tier_device::Media;

impl<M: Media> Kernel<M> {
    /// Grants a client units and the lowest inode numbers that are free: those from 2 on that are no node of the shared graph and in no account. It makes no device call.
    ///
    /// `NoUnits` exactly where what is charged, what is out and what is asked for pass the capacity; `NoInode` exactly where they don't, but fewer numbers are free than asked. Nothing has changed then.
    pub fn refill(
        &mut self,
        client: u32,
        units: u64,
        inodes: u32,
    ) -> Result<InodeSet, KernelError<RefillError>>
        requires client { is_client client ≡ true }
        ensures granted { IfOk result (λ numbers. AreLowest (is_free self.old.book (nodes_in (graph self.old.area.geometry (disk M.Media self.old.area)))) (has numbers) inodes) }
        ensures step { IfOk result (λ numbers. (m : Machine) → IsKernelOf M.Media self.old m → IsKernelOf M.Media self.new (granted m client units (has numbers))) }
        ensures booked { IfOk result (λ numbers. (m : Machine) → IsBookOf self.old.book m → IsBookOf self.new.book (granted m client units (has numbers))) }
        ensures out { OnOk result (out_of self.new.book ≡ out_of self.old.book + units) }
        ensures law { OnOk result (charge (graph self.old.area.geometry (disk M.Media self.old.area)) + out_of self.new.book ≤ self.old.area.geometry.units) }
        ensures no_units { IsErrOf result (Refused NoUnits) ↔ ((self.old.area.failed ≡ false) × (self.old.area.geometry.units < charge (graph self.old.area.geometry (disk M.Media self.old.area)) + out_of self.old.book + units)) }
        ensures no_inode { IsErrOf result (Refused NoInode) ↔ ((self.old.area.failed ≡ false) × (charge (graph self.old.area.geometry (disk M.Media self.old.area)) + out_of self.old.book + units ≤ self.old.area.geometry.units)
            × (count_of (is_free self.old.book (nodes_in (graph self.old.area.geometry (disk M.Media self.old.area)))) < inodes)) }
        ensures failed { IsErrOf result Failed ↔ (self.old.area.failed ≡ true) }
        ensures refused { OnErr result (self.new ≡ self.old) }
        ensures area { self.new.area ≡ self.old.area }
        ensures opening { self.new.opening ≡ self.old.opening }
    {
        if self.area.has_failed() {
            return Err(KernelError::Failed);
        }
        let charge = self.area.charge();
        let capacity = capacity_of(&self.area);
        let used = UnitUse { charge, capacity };
        let numbers = match self.book.refill(client, units, inodes, used, &self.nodes) {
            Ok(numbers) => numbers,
            Err(error) => return Err(KernelError::Refused(error)),
        };
        Ok(numbers)
    }

    /// Takes units and numbers out of a client's account, which it gives back; what the account doesn't have stays out of it. It makes no device call.
    pub fn give_back(
        &mut self,
        client: u32,
        units: u64,
        numbers: &InodeSet,
    ) -> Result<(), KernelFailed>
        requires client { is_client client ≡ true }
        ensures step { OnOk result ((m : Machine) → IsKernelOf M.Media self.old m → IsKernelOf M.Media self.new (taken_back m client units (has numbers.now))) }
        ensures booked { OnOk result ((m : Machine) → IsBookOf self.old.book m → IsBookOf self.new.book (taken_back m client units (has numbers.now))) }
        ensures out { OnOk result (out_of self.new.book + min units (units_of self.old.book client) ≡ out_of self.old.book) }
        ensures going { OnOk result (self.old.area.failed ≡ false) }
        ensures failed { OnErr result (self.old.area.failed ≡ true) }
        ensures refused { OnErr result (self.new ≡ self.old) }
        ensures area { self.new.area ≡ self.old.area }
        ensures opening { self.new.opening ≡ self.old.opening }
    {
        if self.area.has_failed() {
            return Err(KernelFailed);
        }
        self.book.take_back(client, units, numbers);
        Ok(())
    }

    /// Pins an inode for a client. It makes no device call.
    pub fn pin(&mut self, client: u32, inode: u32) -> Result<(), KernelFailed>
        requires client { is_client client ≡ true }
        requires inode { IsInode inode }
        ensures step { OnOk result ((m : Machine) → IsKernelOf M.Media self.old m → IsKernelOf M.Media self.new (book_pin m client inode)) }
        ensures booked { OnOk result ((m : Machine) → IsBookOf self.old.book m → IsBookOf self.new.book (book_pin m client inode)) }
        ensures out { out_of self.new.book ≡ out_of self.old.book }
        ensures going { OnOk result (self.old.area.failed ≡ false) }
        ensures failed { OnErr result (self.old.area.failed ≡ true) }
        ensures refused { OnErr result (self.new ≡ self.old) }
        ensures area { self.new.area ≡ self.old.area }
        ensures opening { self.new.opening ≡ self.old.opening }
    {
        if self.area.has_failed() {
            return Err(KernelFailed);
        }
        self.book.pin(client, inode);
        Ok(())
    }

    /// Drops a client's pin of an inode; others' pins stay. It makes no device call.
    pub fn unpin(&mut self, client: u32, inode: u32) -> Result<(), KernelFailed>
        requires client { is_client client ≡ true }
        ensures step { OnOk result ((m : Machine) → IsKernelOf M.Media self.old m → IsKernelOf M.Media self.new (unbook_pin m client inode)) }
        ensures booked { OnOk result ((m : Machine) → IsBookOf self.old.book m → IsBookOf self.new.book (unbook_pin m client inode)) }
        ensures out { out_of self.new.book ≡ out_of self.old.book }
        ensures going { OnOk result (self.old.area.failed ≡ false) }
        ensures failed { OnErr result (self.old.area.failed ≡ true) }
        ensures refused { OnErr result (self.new ≡ self.old) }
        ensures area { self.new.area ≡ self.old.area }
        ensures opening { self.new.opening ≡ self.old.opening }
    {
        if self.area.has_failed() {
            return Err(KernelFailed);
        }
        self.book.unpin(client, inode);
        Ok(())
    }

    /// Empties the account of a client that is gone: it has no units, no number and no pin any more. It makes no device call.
    pub fn bury(&mut self, client: u32) -> Result<(), KernelFailed>
        requires client { is_client client ≡ true }
        ensures step { OnOk result ((m : Machine) → IsKernelOf M.Media self.old m → IsKernelOf M.Media self.new (buried m client)) }
        ensures booked { OnOk result ((m : Machine) → IsBookOf self.old.book m → IsBookOf self.new.book (buried m client)) }
        ensures out { OnOk result (out_of self.new.book + units_of self.old.book client ≡ out_of self.old.book) }
        ensures going { OnOk result (self.old.area.failed ≡ false) }
        ensures failed { OnErr result (self.old.area.failed ≡ true) }
        ensures refused { OnErr result (self.new ≡ self.old) }
        ensures area { self.new.area ≡ self.old.area }
        ensures opening { self.new.opening ≡ self.old.opening }
    {
        if self.area.has_failed() {
            return Err(KernelFailed);
        }
        self.book.bury(client);
        Ok(())
    }
}
